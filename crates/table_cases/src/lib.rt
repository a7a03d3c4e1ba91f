//! Tests of tables by the public calls of each crate: port sets (port_set), the rules of tables (binding_rules), table
//! files (binding_file), compiled words and lookups (table_words). Nothing stands on this crate.
#![tactic(auto)]

#[cfg(test)]
mod bounds;
#[cfg(test)]
mod callers;
#[cfg(test)]
mod costly;
#[cfg(test)]
mod counted;
#[cfg(test)]
mod files;
#[cfg(test)]
mod lines;
#[cfg(test)]
mod lookups;
#[cfg(test)]
mod port_sets;
#[cfg(test)]
mod rows;
#[cfg(test)]
mod rules;
#[cfg(test)]
mod unknown_keys;
