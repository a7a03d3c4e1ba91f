//! The three outputs of a run as one log: files are made, and bytes are added. After a fault the files hold a front of the log.
#![tactic(auto)]

mod journal;
mod last;
mod names;
mod rounds;

pub use journal::{Entry, open, write};
pub use last::{Last, write_last};
pub use names::{Names, Output};
pub use rounds::{RoundPart, write_round};
