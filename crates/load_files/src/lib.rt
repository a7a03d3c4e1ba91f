//! The files of loads, turned into loads side by side.
#![tactic(auto)]

mod files;

pub use files::{LoadFile, loads_of};
