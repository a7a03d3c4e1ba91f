//! The program's call: it reads the command words and does the job that they ask for, over files and a sink that are handed
//! in.
#![tactic(auto)]

mod at_once;
mod beside;
mod demo;
mod finishing;
mod jobs;
mod known;
mod loads;
mod migrating;
mod outputs;
mod queries;
mod rounds;
mod run;
mod shift;
mod status;
mod table_file;
mod tasks;
mod top;

pub use at_once::{AtOnce, do_at_once};
pub use status::{Status, code, status_line};
pub use top::lwaftr;
