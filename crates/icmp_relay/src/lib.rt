//! ICMPv6 errors about the router's own tunnel packets, read and passed on to the IPv4 hosts whose packets those carried
//! (RFC 2473, section 8).
#![tactic(auto)]

mod quotes;
mod relaying;

pub use quotes::{Quote, QuoteBad, may_relay, quote_from, quote_to, read_quote};
pub use relaying::{push_relay, relay};
