//! Fragments put together again: the contexts of one lane, in which the fragments of a datagram wait for one another
//! (RFC 791, section 3.2; RFC 8200, section 4.5). Fragments that overlap are refused with their whole datagram
//! (RFC 5722), and a datagram is given up 60 seconds after its first fragment came.
#![tactic(auto)]

mod answer;
mod consequences;
mod context;
mod contexts;
mod lane;
mod late;
mod parts;
mod piece;
mod whole;

pub use answer::{Answer, Fed, FragBad};
pub use consequences::{datagrams_hold_their_pieces, histories_join};
pub use lane::Lane;
pub use piece::Piece;
