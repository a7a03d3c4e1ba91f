// What a lane says to a piece.
use aftr_base::{Bytes, Numbers};

/// Why a piece is refused.
#[derive(Clone, Copy, Debug, PartialEq, Eq)]
pub enum FragBad {
    /// No bytes, or more pieces to follow behind a number of bytes that is no multiple of 8 (RFC 791, section 3.2;
    /// RFC 8200, section 4.5). The piece alone is refused.
    Odd,
    /// The datagram would have more than 65,535 bytes (RFC 791, section 3.1; RFC 8200, section 4.5). Where this piece
    /// alone shows it, it alone is refused; where the whole datagram does, its context ends.
    Long,
    /// Pieces of the datagram contradict one another: two share a byte, two are last, or one stands behind the end
    /// (RFC 5722, section 4). Each further piece of the datagram is refused too, until its time is up.
    Overlap,
    /// The datagram has more than 256 pieces. Each further piece is refused too, until its time is up.
    Many,
    /// 256 datagrams wait already. The piece begins none.
    Full,
}

/// What becomes of a piece.
#[derive(Debug, Drop)]
pub enum Answer {
    /// The datagram waits for more pieces.
    Held,
    /// The piece was the last one missing: the head of the piece at offset 0, and all bytes behind it.
    Whole { head: Bytes, body: Bytes },
    /// The piece is refused.
    Refused(FragBad),
}

/// What feeding one piece did.
#[derive(Debug, Drop)]
pub struct Fed {
    /// The first piece's number of each datagram that is given up at the time of this piece, ascending.
    pub ended: Numbers,
    pub answer: Answer,
}
