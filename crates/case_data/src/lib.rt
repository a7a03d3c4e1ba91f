//! What the crates of cases share: addresses and settings, packets and captures of one datagram, and the texts of table
//! files. The bytes were made by hand or by independent programs. Only crates of cases stand on this crate.
#![tactic(auto)]

mod addresses;
mod packets;
mod tables;

pub use addresses::{AFTR, OWN, SERVER, SETTINGS, SHARED, SUBSCRIBER, subscriber};
pub use packets::{
    CAPTURE, DOWN, DOWN_LOWERED, DOWN_TUNNEL, FIRST_FRAGMENT, LAST_HOP, NO_PORTS, OPTIONS,
    THREE_BYTES, UP, UP_LOWERED, UP_TUNNEL,
};
pub use tables::{PORT_SET_TABLE, WHOLE_TABLE};
