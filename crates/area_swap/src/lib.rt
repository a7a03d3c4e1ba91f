//! The swap of a table under its readers, by threads: two areas of atomic words, seats of workers that claim the area in
//! force, read it and draw numbers of records under it, and a desk that writes the next table into the spare area and
//! puts it into force. No call waits and there is no lock. Every step is sequentially consistent, and between any two atomic
//! steps of any seats the words and what the seats know show a sound state of the machine of `swap_core`.
#![tactic(auto)]

mod answers;
mod areas;
mod board;
mod changes;
mod desk;
mod history;
mod places;
mod plays;
mod worker;

pub use answers::{Claim, Draw, DrawRun, Due, Quiet, Seen};
pub use areas::{Areas, prepare};
pub use board::{Swapping, View};
pub use desk::Desk;
pub use history::History;
pub use places::parts_share_no_line;
pub use worker::WorkerSeat;
