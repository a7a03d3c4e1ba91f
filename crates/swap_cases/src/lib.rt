//! Tests of the swap of tables by public calls: the pure machine (swap_core), and the areas of atomic words, on one thread
//! and with workers in threads beside the desk (area_swap); two threads that hand values to one another (hand_over). Nothing stands
//! on this crate.
#![tactic(auto)]

#[cfg(test)]
mod areas;
#[cfg(test)]
mod callers;
#[cfg(test)]
mod lending;
#[cfg(test)]
mod machine;
#[cfg(test)]
mod seats;
#[cfg(test)]
mod sides;
#[cfg(test)]
mod threads;
#[cfg(test)]
mod words;
