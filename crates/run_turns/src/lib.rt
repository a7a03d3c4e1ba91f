//! The records of a run through `round_pipeline`: workers take turns at the capture, and judge their rounds apart; one writer puts the
//! rounds into the outputs in their order.
#![tactic(auto)]

mod capture;
mod dealing;
mod laws;
mod passing;
mod progress;
mod run;
mod seats;
mod sink;
mod source;
mod tasks;
mod turn;

pub use capture::Capture;
pub use dealing::Dealer;
pub use passing::{Bench, Court};
pub use progress::Progress;
pub use run::{Taken, Work, run_records};
pub use sink::Outputs;
pub use source::Intake;
pub use tasks::{RunMeans, Task};
pub use turn::{Naming, Turn, TurnSeat};
