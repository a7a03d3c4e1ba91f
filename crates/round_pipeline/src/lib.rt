//! Workers that take turns at one source, each judging what it read, and one writer that puts the rounds in the order of reading.
#![tactic(auto)]

mod alone;
mod bells;
mod capture;
mod desk;
mod finished;
mod meeting;
mod pipeline;
mod rings;
mod running;
mod threads;
mod traits;
mod worker;
mod writer;

pub use finished::{Finished, Seat};
pub use pipeline::Pipeline;
pub use rings::Returned;
pub use traits::{Judge, RoundBuffer, Sink, Source};
