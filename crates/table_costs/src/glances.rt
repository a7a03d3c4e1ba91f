// A glance over a text, which tells of most texts that they cost little, and costs a thirteenth of the look over their bytes.
ghost use Rattle.std.specs.Prelude.{◌≡◌, ◌≤◌, true, false, length};
ghost use Rattle.table_costs.specs.Costs.{has_long_header, is_costly, marks, seen};
ghost use Rattle.table_costs.specs.Costs.{IsShortHeader};
ghost use Rattle.table_costs.specs.declared.parts.Part.{Part as SpecPart};

use crate::costs::{MOST_MARKS, ends_header, is_mark};
use memchr::memchr;

/// So many bytes are counted in one byte.
const PIECE: usize = 192;

/// So many bytes are no heavy header, whatever they are.
const FEW: usize = 12;

/// Whether the text is plainly one that costs little, without a look at where comments and quoted texts begin: it has few marks,
/// those in such parts included, and each `[` has the end of its header soon behind it, and no quoted text before that.
#[tactic(auto, using(crate::proofs::FewerMarks::cheap))]
pub(crate) fn is_plainly_cheap(text: &[u8]) -> bool
    ensures { result ≡ true → is_costly text.now ≡ false }
{
    if count_marks(text) > MOST_MARKS {
        return false;
    }
    has_short_headers(text)
}

/// How many marks there are, wherever they stand.
pub(crate) fn count_marks(text: &[u8]) -> usize
    ensures { result ≡ marks text.now }
{
    let mut count = 0;
    let mut rest = text;
    'pieces: while rest.len() > PIECE {
        let (piece, after) = rest.split_at(PIECE);
        count += usize::from(count_few(piece));
        rest = after;
    }
    count + usize::from(count_few(rest))
}

// The same of few bytes. A count that is a byte itself is laid out for sixteen of them at once.
fn count_few(piece: &[u8]) -> u8
    requires { length piece.now ≤ 255 }
    ensures { result ≡ marks piece.now }
{
    let mut count = 0;
    let mut rest = piece;
    'bytes: while let [byte, after @ ..] = rest {
        count += u8::from(is_mark(*byte));
        rest = after;
    }
    count
}

// Whether each bracket has the end of a header soon behind it.
fn has_short_headers(text: &[u8]) -> bool
    ensures { result ≡ true → (p : SpecPart) → has_long_header (seen p text.now) ≡ false }
{
    let mut rest = text;
    'brackets: while let Some(at) = memchr(b'[', rest) {
        let (_, header) = rest.split_at(at + 1);
        if !is_short_header(header) {
            return false;
        }
        rest = header;
    }
    true
}

// Whether a header that begins here ends soon, and before a quoted text begins.
fn is_short_header(bytes: &[u8]) -> bool
    ensures { result ≡ true → IsShortHeader bytes.now }
{
    let mut count = 0;
    let mut rest = bytes;
    'bytes: while let [byte, after @ ..] = rest {
        if ends_header(*byte) {
            return true;
        }
        if *byte == b'"' || *byte == b'\'' || count == FEW {
            return false;
        }
        count += 1;
        rest = after;
    }
    false
}
