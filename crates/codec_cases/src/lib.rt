//! Tests of the ground and the codecs by their public calls: numbers, lists and checksums (aftr_base), the outside (aftr_io), texts of
//! addresses (addr_text), IPv4 and IPv6 headers (ip_codec), captures (capture_io, pcapng_io). Nothing stands on this crate.
#![tactic(auto)]

#[cfg(test)]
mod address_texts;
#[cfg(test)]
mod all_pieces;
#[cfg(test)]
mod blocks;
#[cfg(test)]
mod callers;
#[cfg(test)]
mod captures;
#[cfg(test)]
mod fast_readers;
#[cfg(test)]
mod headers;
#[cfg(test)]
mod lists;
#[cfg(test)]
mod long_blocks;
#[cfg(test)]
mod numbers;
#[cfg(test)]
mod outside;
#[cfg(test)]
mod parts;
#[cfg(test)]
mod pipes;
#[cfg(test)]
mod real_files;
#[cfg(test)]
mod rounds;
#[cfg(test)]
mod systems;
