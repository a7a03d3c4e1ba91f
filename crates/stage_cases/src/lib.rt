//! Cases for a stage: records written as lines of words, and the items that they become. Nothing stands on this crate.
#![tactic(auto)]

#[cfg(test)]
mod callers;
#[cfg(test)]
mod chains;
#[cfg(test)]
mod floods;
#[cfg(test)]
mod fragments;
#[cfg(test)]
mod items;
#[cfg(test)]
mod lines;
#[cfg(test)]
mod records;
#[cfg(test)]
mod rounds;
#[cfg(test)]
mod words;
