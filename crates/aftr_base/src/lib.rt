//! The ground of the router: addresses, lists and checksums that contracts see as plain numbers and lists.
#![tactic(auto)]

mod lists;
mod numbers;
mod sums;

pub use lists::{Bytes, Numbers, OutOfMemory, Packets, Text, WordList};
pub use numbers::{V4, V6, be16, be32, be128, put_be16};
pub use sums::{patch16, put_checksum, sum16};
