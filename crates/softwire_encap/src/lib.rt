//! Packets that are passed on: an IPv4 packet with its time to live one less, and the tunnel header before it (RFC 791,
//! RFC 2473).
#![tactic(auto)]

mod passing;
mod places;
mod tunnel;

pub use passing::{lower, lowered_header, push_lowered};
pub use places::tunnels_stand;
pub use tunnel::{encap, push_tunnel_head, push_tunnelled, tunnel_view};
