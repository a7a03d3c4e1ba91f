//! The tables of a run, from the first one and the loads: each load that is a table comes into force by its window, and a load
//! that was refused leaves no trace but its cause.
#![tactic(auto)]

mod loads;
mod planning;

pub use loads::{Load, Loaded, Made, Slot, Slots};
pub use planning::plan;
