//! Tests of what a run is told, which tables it has, what it is limited by and writes beside packets, and of generated
//! traffic. Nothing stands on this crate.
#![tactic(auto)]

#[cfg(test)]
mod callers;
#[cfg(test)]
mod files;
#[cfg(test)]
mod limits;
#[cfg(test)]
mod lines;
#[cfg(test)]
mod plans;
#[cfg(test)]
mod said;
#[cfg(test)]
mod traffic;
#[cfg(test)]
mod words;
