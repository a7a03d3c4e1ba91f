//! Binding tables: which subscriber owns an IPv4 address and a port (the binding table of RFC 7596 with the port sets of
//! RFC 7597). A `Table` is made of settings and bindings that keep the rules of its edition, above all that no port of
//! an address is in two bindings. The rules are tested without comparing all pairs of bindings: only those of one address
//! with few bindings of unlike shapes are compared two by two.
#![tactic(auto)]

mod binding;
mod chains;
mod conflicts;
mod counter;
mod lookup;
mod owners;
mod owning;
mod places;
mod ports;
mod refused;
mod settings;
mod table;

pub use binding::{Binding, Want};
pub use lookup::find;
pub use owning::ownership;
pub use refused::{Refused, TableError};
pub use settings::{Edition, LEAST_MTU4, LEAST_MTU6, Softwire};
pub use table::{Table, table_of};
