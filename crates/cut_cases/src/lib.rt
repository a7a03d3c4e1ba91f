//! Cases for extension headers and for cutting: chains of headers (ipv6_chain), and packets that are too long for a link
//! (fragmenter). Nothing stands on this crate.
#![tactic(auto)]

#[cfg(test)]
mod callers;
#[cfg(test)]
mod chains;
#[cfg(test)]
mod cuts;
