//! Verdicts: what becomes of an item under a binding table. A verdict is the first line of one list whose condition is
//! true (RFC 7596, section 6.2).
#![tactic(auto)]

mod answers;
mod asking;
mod downstream;
mod judging;
mod laws;
mod messages;
mod upstream;
mod verdicts;

pub use judging::{judge, judge_into};
pub use laws::{access, drops_are_named, others_stay, replies_are_due, replies_go_back};
pub use verdicts::{Path, Reply, Verdict};
