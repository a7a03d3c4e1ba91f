// What the definitions say, as laws: each function's contract is one, and it does nothing.
ghost use Rattle.reassembly_lane.specs.Laws.{DatagramsHoldTheirPieces, HistoriesJoin};

/// Pieces that come in two lists, one behind the other, are told what they are told in one.
pub fn histories_join<K: Ord>()
    ensures { HistoriesJoin K.cmp }
{}

/// A datagram put together has as many bytes as its end says, and each piece's bytes at 8 times the piece's offset.
pub fn datagrams_hold_their_pieces()
    ensures { DatagramsHoldTheirPieces }
{}
