//! Tests of round_pipeline by its public calls. Nothing stands on this crate.
#![tactic(auto)]

#[cfg(test)]
mod callers;
#[cfg(test)]
mod numbers;
#[cfg(test)]
mod runs;
