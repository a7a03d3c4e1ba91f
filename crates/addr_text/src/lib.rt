//! The texts of addresses: IPv4 in dotted decimal, IPv6 by RFC 4291, section 2.2, both ways and without memory. What is
//! written is the one canonical text, for IPv6 that of RFC 5952, section 4.
#![tactic(auto)]

mod ipv4;
mod ipv6;
mod laws;

pub use ipv4::{BadText, read_v4, write_v4};
pub use ipv6::{read_v6, write_v6};
pub use laws::{one_address, one_canonical_text};
