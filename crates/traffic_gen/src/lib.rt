//! Traffic made from a seed: a capture of packets from and to 256 subscribers, and two tables that have all of them and the
//! upper 192 of them. The same seed gives the same bytes on every machine.
#![tactic(auto)]

mod generator;
mod packets;
mod subscribers;
mod traffic;

pub use generator::{Draw, Kind};
pub use packets::Way;
pub use traffic::{Traffic, traffic_of};
