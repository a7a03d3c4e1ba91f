//! What a table file may cost to read, told from its bytes before they are read as TOML: whether they begin as TOML at all, and whether
//! a document of so many keys, of such headers or of such depth would take too long, too much memory or too much stack.
#![tactic(auto)]

mod costs;
mod depth;
mod first_line;
mod glances;
mod parts;

pub use costs::{MOST_FREE, has_few_marks, is_too_costly};
pub use first_line::{begins_toml, ends_line, first_place, skip_bom};
pub use parts::{Part, part_after, seen_as};
