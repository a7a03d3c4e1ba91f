//! Capture files of blocks (pcapng, draft-ietf-opsawg-pcapng): sections of both orders, interfaces, and packets of the
//! enhanced and the simple kind, read at places of a file, each refusal the first true one; and sections and packets that
//! are written.
#![tactic(auto)]

mod block;
mod either;
mod frame;
mod fronts;
mod interface;
mod laws;
mod long;
mod long_packets;
mod packets;
mod pieces;
mod reader;
mod record;
mod rounds;
mod walk;
mod written;

pub use either::Reader;
pub use laws::blocks_are_read;
pub use reader::{NgReader, is_ng};
pub use written::{put_enhanced, put_section};
