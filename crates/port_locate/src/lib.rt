//! The key of a packet: what a binding must own for the packet to be its subscriber's, a port, a whole address, or
//! nothing that can be told.
#![tactic(auto)]

mod keys;
mod places;

pub use keys::{Key, Keys, Wants, key_down, key_up, keys_of, quoted_destination, quoted_source};
pub use places::ports_are_read;
