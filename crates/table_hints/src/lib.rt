//! What helps a person to mend a table file that is refused: the lines that the refusal is about, and the key that its table does not
//! have.
#![tactic(auto)]

mod about;
mod headers;
mod keys;
mod lines;
mod rereading;
mod trouble;
mod unknown_keys;

pub use about::line_of;
pub use lines::Lines;
pub use unknown_keys::{KeyPlace, UnknownKey, unknown_key};
