// The Internet checksum, computed and patched.
ghost use Rattle.std.specs.Prelude.{◌≡◌, ◌+◌, ◌*◌, ◌%◌, ◌^◌, ◌<◌, ◌≤◌, length};
ghost use Rattle.aftr_base.specs.Sums.{checksum, folded, sealed, word_sum, patched, IsPatched};

use crate::put_be16;

/// How many bytes are summed before the sum is folded. Any even number serves that keeps a 64-bit sum from overflowing.
const PIECE: usize = 65536;

/// The Internet checksum of the bytes (RFC 1071). Bytes that hold their own checksum sum to 0.
pub fn sum16(bytes: &[u8]) -> u16
    ensures { result ≡ checksum bytes.now }
{
    let mut sum = 0;
    let mut rest = bytes;
    'pieces: while rest.len() > PIECE {
        let (piece, after) = rest.split_at(PIECE);
        sum = fold(u64::from(sum) + partial_sum(piece));
        rest = after;
    }
    !fold(u64::from(sum) + partial_sum(rest))
}

/// The checksum after one 16-bit word of the bytes has changed from `was` to `now` (RFC 1624). The word stands at an
/// even place.
pub fn patch16(sum: u16, was: u16, now: u16) -> u16
    ensures value { result ≡ patched sum was now }
    ensures law { IsPatched sum was now result }
{
    !fold(u64::from(!sum) + u64::from(!was) + u64::from(now))
}

/// Puts the checksum of the bytes into them, at a place whose two bytes count as zero in it. At an even place the bytes
/// then sum to 0.
pub fn put_checksum(bytes: &mut [u8], at: usize)
    requires { at + 2 ≤ length bytes.old }
    ensures sealed { bytes.new ≡ sealed bytes.old at }
    ensures sums { at % 2 ≡ 0 → checksum bytes.new ≡ 0 }
{
    put_be16(bytes, at, 0);
    let sum = sum16(bytes);
    put_be16(bytes, at, sum);
}

// A sum brought into 16 bits.
fn fold(sum: u64) -> u16
    ensures { result ≡ folded sum }
{
    if sum == 0 {
        0
    } else {
        ((sum - 1) % 65535 + 1) as u16
    }
}

// A sum that folds as that of the words does. Eight bytes are taken at a time, as two 32-bit halves: the high word of a
// half counts 65,536 times, and that folds to once.
fn partial_sum(piece: &[u8]) -> u64
    requires { length piece.now ≤ 65536 }
    ensures small { result ≤ 2 ^ 48 }
    ensures same { folded result ≡ folded (word_sum piece.now) }
{
    let mut sum = 0;
    let mut rest = piece;
    'blocks: while let [a, b, c, d, e, f, g, h, after @ ..] = rest {
        let high = u32::from_be_bytes([*a, *b, *c, *d]);
        let low = u32::from_be_bytes([*e, *f, *g, *h]);
        sum += u64::from(high) + u64::from(low);
        rest = after;
    }
    'words: while let [high, low, after @ ..] = rest {
        sum += u64::from(u16::from_be_bytes([*high, *low]));
        rest = after;
    }
    if let [last] = rest {
        sum += u64::from(*last) << 8;
    }
    sum
}
