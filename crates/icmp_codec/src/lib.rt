//! ICMP messages of both versions, read and written (RFC 792, RFC 4443), and the IPv4 packets that ICMP errors quote.
#![tactic(auto)]

mod head;
mod message4;
mod message6;
mod quoted;
mod sums;

pub use head::{ICMP_HEAD_LEN, IcmpHead, UNREACHABLE};
pub use message4::{Icmp4View, IcmpBad, icmp4, is_echo, push_icmp4, put_icmp4};
pub use message6::{Icmp6View, icmp6, push_icmp6, put_icmp6};
pub use quoted::{Embedded, read_embedded};
