//! Compiled binding tables: a table as a list of 64-bit words, and the lookups that read those words one at a time. The
//! words have an index by the top 16 bits of an address, so that a lookup searches only the bindings that agree in them,
//! and every read of a word is counted.
#![tactic(auto)]

mod compiler;
mod counter;
mod destination;
mod entries;
mod lookups;
mod owners;
mod probes;
mod reader;
mod searches;
mod settings;
mod shapes;

pub use compiler::compile;
pub use counter::Steps;
pub use destination::Destination;
pub use lookups::{destination_of, has_address, look};
pub use reader::{SliceWords, Words};
pub use settings::softwire;
pub use shapes::one_shape;
