//! Tests that use the public calls on ICMP alone: messages, keys, the router's errors, and relayed ones. The bytes come from
//! worked examples and from an independent packet builder. Nothing stands on this crate.
#![tactic(auto)]

#[cfg(test)]
mod callers;
#[cfg(test)]
mod codec;
#[cfg(test)]
mod errors;
#[cfg(test)]
mod keys;
#[cfg(test)]
mod relay;
