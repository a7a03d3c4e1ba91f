// Whether a text would cost too much time or memory to be read as TOML: one look over its bytes, in no memory.
ghost use Rattle.std.specs.Prelude.{◌≡◌, ◌≤◌, ◌||◌, nat_le, false, length};
ghost use Rattle.table_costs.specs.Costs.{seen, is_mark, marks, ends_header, header_after, weight};
ghost use Rattle.table_costs.specs.Costs.{is_costly, is_too_costly, is_too_deep, most_free};
ghost use Rattle.table_costs.specs.declared.parts.Part.TheVariants as part;

use crate::depth::is_too_deep;
use crate::glances::{count_marks, is_plainly_cheap};
use crate::parts::{Part, part_after, seen_as};

/// The most marks of a text (`.`, `=`, `[`, `{` outside of comments and quoted texts): 16 for each of 65,536 bindings, of
/// which none needs more than 7.
pub(crate) const MOST_MARKS: usize = 1_048_576;

/// The most weight of a header, as `binding`, between its brackets.
pub(crate) const MOST_HEADER: usize = 96;

/// The most bytes of a text whose marks and headers are not counted.
pub const MOST_FREE: usize = 131_072;

/// Whether a text costs too much to be read as a table file. At some place more than eight arrays and inline tables stand open in it; or
/// it has more than 131,072 bytes, and more than 1,048,576 of the bytes `.`, `=`, `[`, `{` outside of comments and quoted texts or a header
/// of more weight than 96 (a byte weighs 1, a dot 8, blanks nothing).
pub fn is_too_costly(text: &[u8]) -> bool
    ensures exact { result ≡ is_too_costly text.now }
    ensures small { length text.now ≤ most_free → result ≡ is_too_deep text.now }
{
    is_too_deep(text) || (text.len() > MOST_FREE && is_costly(text))
}

/// Whether the text has more marks than a table of bindings can need, or a heavier header. The counts are never below what the
/// reader of TOML makes of the text: each key has a `=`, and each table a `{`, a `[` or a `.` of its own.
fn is_costly(text: &[u8]) -> bool
    ensures { result ≡ is_costly text.now }
{
    if is_plainly_cheap(text) {
        return false;
    }
    has_too_much(text)
}

// This by a look over all bytes, which follows comments and quoted texts.
#[tactic(auto, unfolding(crate::specs::Costs::is_costly))]
fn has_too_much(text: &[u8]) -> bool
    ensures { result ≡ is_costly text.now }
{
    let mut part = Part::Plain;
    let mut marks = 0;
    let mut header = 0;
    let mut rest = text;
    'bytes: while let [byte, after @ ..] = rest {
        let seen = seen_as(part, *byte);
        marks += usize::from(is_mark(seen));
        header = header_after(header, seen);
        if header > MOST_HEADER + 1 {
            return true;
        }
        part = part_after(part, *byte);
        rest = after;
    }
    marks > MOST_MARKS
}

/// Whether at most so many of the bytes `.`, `=`, `[`, `{` stand outside of comments and quoted texts.
#[tactic(auto, using(crate::proofs::FewerMarks::marks_fewer))]
pub fn has_few_marks(text: &[u8], most: usize) -> bool
    ensures { result ≡ nat_le (marks (seen part.Plain text.now)) most }
{
    count_marks(text) <= most || count_outside(text) <= most
}

// How many of them stand outside of comments and quoted texts.
fn count_outside(text: &[u8]) -> usize
    ensures { result ≡ marks (seen part.Plain text.now) }
{
    let mut part = Part::Plain;
    let mut marks = 0;
    let mut rest = text;
    'bytes: while let [byte, after @ ..] = rest {
        marks += usize::from(is_mark(seen_as(part, *byte)));
        part = part_after(part, *byte);
        rest = after;
    }
    marks
}

/// The weight of the header so far, its bracket included; 0 outside of headers.
fn header_after(header: usize, seen: u8) -> usize
    requires { header ≤ 97 }
    ensures { result ≡ header_after header seen }
{
    if seen == b'[' {
        1
    } else if ends_header(seen) || header == 0 {
        0
    } else {
        header + weight(seen)
    }
}

pub(crate) fn is_mark(seen: u8) -> bool
    ensures { result ≡ is_mark seen }
{
    // without a branch, so that a count of them is laid out for many bytes at once
    (seen == b'.') | (seen == b'=') | (seen == b'[') | (seen == b'{')
}

pub(crate) fn ends_header(seen: u8) -> bool
    ensures { result ≡ ends_header seen }
{
    matches!(seen, b'\n' | b'#' | b',' | b'=' | b'[' | b']' | b'{' | b'}')
}

/// What a byte of a header weighs: a blank nothing, and a dot, which begins another part, as much as eight others.
fn weight(seen: u8) -> usize
    ensures { result ≡ weight seen }
{
    match seen {
        b' ' | b'\t' => 0,
        b'.' => 8,
        _ => 1,
    }
}
