//! The texts of a run: the command words that it is asked by, the lines of its verdicts, the lines of the tables in force, and
//! the summary. Each line comes as a text of its own; those of which there are many also by a call that puts them behind others: of
//! records and of datagrams as bytes, of loads at the end of a text.
#![tactic(auto)]

mod commands;
mod faults;
mod fields;
mod help;
mod jobs;
mod lines;
mod messages;
mod numbers;
mod parts;
mod record_number;
mod said;
mod short_lines;
mod summaries;
mod tables;
mod words;

pub use faults::{Fault, JobError};
pub use help::{HELP, VERSION};
pub use jobs::{Job, LoadList, LoadWords, RunJob, UsageError};
pub use lines::{
    ended_line, limited_line, push_counted_line, push_ended_line, push_limited_line,
    push_verdict_line, verdict_line,
};
pub use messages::{fault_line, usage_line};
pub use parts::Slot;
pub use record_number::RecordNumber;
pub use said::{output_line, unread_line, unwritten_line};
pub use summaries::{NO_TOTALS, Totals, migrated_line, summary};
pub use tables::{
    initial_line, point_line, push_point_line, push_refused_line, push_unreached_line,
    refused_line, unreached_line,
};
pub use words::{read_job, read_words};
