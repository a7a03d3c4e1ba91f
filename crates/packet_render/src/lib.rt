//! The packets that are sent for an item, by the verdict on it, recorded behind what a list holds (RFC 7596, section 6.2).
#![tactic(auto)]

mod carried;
mod forwarding;
mod laws;
mod pieces;
mod rendering;
mod replying;
mod stamps;

pub use laws::{
    bytes_are_enough, errors_are_private, forwarded_is_sent, replies_say_why, sent_is_what_came,
    sent_rightly, tunnels_are_private,
};
pub use rendering::{MOST_PACKETS, push_forwarded, push_packets};
