//! Tests of workers that judge beside a reloader (worker_gate), by public calls: lookups in a held area, single workers, reloads, and
//! rounds. Nothing stands on this crate.
#![tactic(auto)]

#[cfg(test)]
mod callers;
#[cfg(test)]
mod gates;
#[cfg(test)]
mod held_area;
#[cfg(test)]
mod items;
#[cfg(test)]
mod plans;
#[cfg(test)]
mod reloads;
#[cfg(test)]
mod rounds;
#[cfg(test)]
mod whole_rounds;
#[cfg(test)]
mod workers;
