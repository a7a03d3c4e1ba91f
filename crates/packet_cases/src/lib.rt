//! Tests of the way of a packet by the public calls of each crate: keys (port_locate), items of records (item_stage),
//! verdicts (verdict_core), packets that are passed on (softwire_encap), the packets of a verdict (packet_render) and lines
//! (aftr_text). Nothing stands on this crate.
#![tactic(auto)]

#[cfg(test)]
mod callers;
#[cfg(test)]
mod down_verdicts;
#[cfg(test)]
mod hairpin_verdicts;
#[cfg(test)]
mod keys;
#[cfg(test)]
mod lines;
#[cfg(test)]
mod message_verdicts;
#[cfg(test)]
mod named_packets;
#[cfg(test)]
mod passing;
#[cfg(test)]
mod rendering;
#[cfg(test)]
mod replying;
#[cfg(test)]
mod sending;
#[cfg(test)]
mod stages;
#[cfg(test)]
mod under_tables;
#[cfg(test)]
mod verdicts;
