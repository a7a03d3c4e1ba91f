//! Packets that are too long for a link, cut into pieces: tunnel packets by Fragment headers (RFC 8200, section 4.5) and IPv4
//! packets by their own header (RFC 791, section 3.2). The pieces of a packet are written one by one, or as a list.
#![tactic(auto)]

mod headers;
mod laws;
mod options;
mod packets4;
mod packets6;
mod single;

pub use laws::{one_cut4, one_cut6};
pub use packets4::{Cuts4, MOST_PIECES4, cut4};
pub use packets6::{Cuts6, MOST_PIECES6, cut6};
