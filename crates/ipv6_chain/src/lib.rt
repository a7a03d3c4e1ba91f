//! The walk over the extension headers of an IPv6 packet (RFC 8200, section 4).
#![tactic(auto)]

mod headers;

pub use headers::{Chain, ChainBad, Frag, Start, is_skipped, walk};
