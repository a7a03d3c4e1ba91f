// The lines of a text: their numbers, and fronts of whole lines.
ghost use Rattle.std.specs.Prelude.{◌≡◌, ◌≤◌, length};
ghost use Rattle.table_hints.specs.Lines.{line_behind, first_lines};

use table_costs::{Part, part_after, seen_as};

/// The lines of a file that a refusal is about, counted from 1.
#[derive(Clone, Copy, Debug, PartialEq, Eq)]
pub enum Lines {
    /// The line with the trouble, or the line of a binding's header.
    One(usize),
    /// The lines of the headers of two bindings.
    Both(usize, usize),
    /// From the line where something begins to the one that shows that it is no TOML.
    Through(usize, usize),
}

/// The number of the line that goes on behind these bytes: one more than the line ends before it.
pub(crate) fn line_behind(front: &[u8]) -> usize
    ensures { result ≡ line_behind front.now }
{
    let mut line = 1;
    let mut rest = front;
    'bytes: while let [byte, after @ ..] = rest {
        if *byte == b'\n' {
            line += 1;
        }
        rest = after;
    }
    line
}

/// So many whole lines from the front of a text, or all of it.
pub(crate) fn first_lines(text: &[u8], count: usize) -> &[u8]
    ensures { result.now ≡ first_lines count text.now }
{
    let mut left = count;
    let mut end = 0;
    let mut rest = text;
    'bytes: while let [byte, after @ ..] = rest {
        if left > 0 {
            end += 1;
            if *byte == b'\n' {
                left -= 1;
            }
        }
        rest = after;
    }
    let (lines, _) = text.split_at(end);
    lines
}

/// The last line that begins, or would, behind these whole lines outside of comments, quoted texts and brackets of any kind.
pub(crate) fn last_begun(front: &[u8]) -> usize
    ensures least { 1 ≤ result }
    ensures most { result ≤ line_behind front.now }
{
    let mut part = Part::Plain;
    let mut depth = 0;
    let mut line = 1;
    let mut begun = 1;
    let mut rest = front;
    'bytes: while let [byte, after @ ..] = rest {
        depth = depth_after(depth, seen_as(part, *byte));
        part = part_after(part, *byte);
        if *byte == b'\n' {
            line += 1;
            if depth == 0 && part == Part::Plain {
                begun = line;
            }
        }
        rest = after;
    }
    begun
}

// How many brackets stand open behind this byte.
fn depth_after(depth: usize, seen: u8) -> usize {
    match seen {
        b'[' | b'{' => depth.saturating_add(1),
        b']' | b'}' => depth.saturating_sub(1),
        _ => depth,
    }
}
