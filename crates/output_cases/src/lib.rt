//! Tests of all that a run writes beside its packets. Nothing stands on this crate.
#![tactic(auto)]

#[cfg(test)]
mod callers;
#[cfg(test)]
mod journal;
#[cfg(test)]
mod limits;
#[cfg(test)]
mod versions;
