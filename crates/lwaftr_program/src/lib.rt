//! The whole program but for the runtime: the words behind its name are handed to the engine with the system's files and standard
//! output; unless all was done, the status goes to standard error, with lines for people below it; the answer is the exit code.
#![tactic(auto)]

mod faults;
mod hints;
mod keys;
mod lines;
mod loads;
mod naming;
mod running;
mod same_files;
mod tables;

pub use faults::Said;
pub use lines::lines_below;
pub use running::run_program;
pub use tables::table_lines;
