//! From records to items: what a record of the capture carries is found frame by frame and header by header, before any
//! table is asked, and fragments are put together. Each record has one entry, its item and the datagrams that end with it
//! unfinished.
#![tactic(auto)]

mod alone;
mod entries;
mod joining;
mod keys;
mod laws;
mod looking;
mod marks;
mod packets;
mod reading;
mod round_view;
mod rounds;
mod row;
mod rows;
mod stage;
mod staged_round;
mod turns;

pub use entries::Entry;
pub use laws::one_way;
pub use rounds::{Items, RoundItems};
pub use stage::Stage;
pub use staged_round::StagedRound;
