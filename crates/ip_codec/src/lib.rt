//! IPv4 and IPv6 headers, read and written, and the words that the crates above share: the items that records become, with
//! their packet read once, and the rules by which packets are dropped.
#![tactic(auto)]

mod items;
mod packet4;
mod packet6;
mod protocols;
mod readings;
mod rules;

pub use items::{Item, ItemView, Outer};
pub use packet4::{
    HEADER4_LEN, Head4, Ip4Bad, Ip4View, head4_bytes, ip4, is_plain4, push_head4, put4,
    sum_of_both, view_of,
};
pub use packet6::{
    HEADER6_LEN, Head6, Ip6Bad, Ip6View, VERSION6, head6_bytes, ip6, is_ip6, known_ip6, push_head6,
    put6,
};
pub use protocols::{FRAGMENT, FRAGMENT_LEN, ICMP, ICMP6, IPV4_IN_IPV6, TCP, UDP};
pub use readings::{ReadPacket, Unread, known_packet, plain_packet, read_packet};
pub use rules::Rule;
