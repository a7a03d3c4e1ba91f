//! Which ports of a shared IPv4 address belong to which subscriber: the port sets of RFC 7597 section 5.1. A shape says
//! how many bits of a port come before the port set identifier (PSID) and how many the identifier has. Nothing here
//! takes memory, and each call and each step of the iterator takes the same few steps at any shape.
#![tactic(auto)]

mod ports;
mod sets;
mod shape;

pub use ports::Ports;
pub use sets::{count, owns, ports_of, psid_of};
pub use shape::{BadShape, Shape, shape_of};
