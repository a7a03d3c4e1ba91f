//! The swap of a table under its readers, as a pure machine: actors that claim the table in force, read it and draw
//! numbers of records under it, and a desk that writes the next table into the spare area and puts it into force. Every
//! step is one action on one word, so the machine's runs are the runs of threads that take such actions in any order. In
//! each of them a held table is whole, and no number is drawn twice.
#![tactic(auto)]

mod actors;
mod machine;
mod plan;
mod row;
mod steps;
mod theorems;

pub use actors::{Actor, ActorState, DeskState, Draws};
pub use machine::Core;
pub use plan::{Plan, Window};
pub use steps::{NotNow, Step, Took};
pub use theorems::{
    draws_are_in_force, held_tables_are_whole, merges_keep_sound, newcomers_keep_sound,
    no_number_is_drawn_twice, runs_are_sound, settled_points_are_all, several_draws_are_steps,
    standing_words_are_writes, steps_keep_sound, writes_disturb_nobody,
};
