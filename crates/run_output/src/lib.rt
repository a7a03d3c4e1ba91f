//! All that a run writes: the packets sent, the lines of records and of tables, and the totals, as definitions over a whole run
//! and as calls that make them round by round.
#![tactic(auto)]

mod counting;
mod laws;
mod limits;
mod lines;
mod parts;
mod passing;
mod rendering;
mod rounds;
mod versions;

pub use counting::count_part;
pub use laws::{
    counts_are_totals, limits_are_some, limits_begin, load_lines_join, passes_are_whole,
    passes_give_outcomes, rounds_join, strangers_stay,
};
pub use limits::new_limit;
pub use lines::push_ended_lines;
pub use parts::{Part, Rendered};
pub use passing::judge_and_render;
pub use rendering::render_round;
pub use rounds::{DrawnRound, RoundRecords};
pub use versions::{push_last_versions, push_new_versions};
