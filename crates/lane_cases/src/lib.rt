//! Cases for a lane: the pieces of whole datagrams, of contradicting ones, of floods, and pieces of which two rules are true
//! at once. Nothing stands on this crate.
#![tactic(auto)]

#[cfg(test)]
mod callers;
#[cfg(test)]
mod pairs;
#[cfg(test)]
mod pieces;
#[cfg(test)]
mod worked;
