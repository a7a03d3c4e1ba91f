//! Workers that judge records under the table in force, beside a desk that puts the next tables into force: what becomes of a
//! record, and what a call may leave of a seat and of the desk.
#![tactic(auto)]

mod claims;
mod crew;
mod drawing;
mod gate;
mod gathering;
mod holders;
mod judge;
mod judging;
mod laws;
mod outcome_list;
mod outcomes;
mod reloading;
mod rounds;
mod serving;
mod settling;
mod task;
mod whole;
mod worker;

pub use crew::{Crew, Outcomes};
pub use drawing::{RoundDraw, draw_for};
pub use gate::{Gate, OpenGate, SparingGate};
pub use holders::{FreeSeat, HeldSeat, lend, take_back};
pub use judge::Judge;
pub use judging::HeldArea;
pub use laws::{
    drawn_are_in_force, outcomes_are_in_force, rounds_give_outcomes, wholes_are_rounds,
};
pub use outcomes::{Outcome, Stop};
pub use reloading::{put_due, reload};
pub use rounds::round;
pub use serving::serve;
pub use settling::settle;
pub use task::Work;
pub use whole::judge_whole;
pub use worker::{Worker, WorkerError};
