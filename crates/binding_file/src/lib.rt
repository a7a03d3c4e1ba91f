//! Binding tables as TOML files: a reader that names the first thing that is wrong and its place, and a writer whose texts
//! the reader reads as the same table. TOML itself is read and printed by `toml`.
#![tactic(auto)]

mod element;
mod keys;
mod laws;
mod names;
mod plain;
mod plain_blocks;
mod plain_lines;
mod reading;
mod refusals;
mod writing;

pub use binding_rules::Refused;
pub use element::BINDING_NAMES;
pub use keys::{is_one_of, table_at};
pub use laws::one_table;
pub use names::{Name, Place};
pub use plain::plain_tree;
pub use reading::{
    MOST_FILE_BYTES, SOFTWIRE_NAMES, Spelled, TOP_NAMES, document_of, elements_of, read_table,
    tree_of,
};
pub use refusals::{FileError, FileRefused, LoadText, RuleText};
pub use table_costs::is_too_costly;
pub use writing::write_table;
