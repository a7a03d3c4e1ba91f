// The headers of bindings in a text, and the lines on which they stand.
ghost use Rattle.std.specs.Prelude.{◌≡◌, IfOk, option_map, codes};
ghost use Rattle.table_hints.specs.Lines.{behind_word, behind_blanks, spells_header, header_lines};

use aftr_base::OutOfMemory;
use std::alloc::Global;
use table_costs::{Part, part_after, seen_as};

/// The lines of the headers `[[binding]]` outside of comments and quoted texts, in their order.
pub(crate) fn header_lines(alloc: Global, text: &[u8]) -> Result<Vec<usize>, OutOfMemory>
    ensures { IfOk result (λ v. v.items ≡ header_lines text.now) }
{
    let mut lines = Vec::new(alloc);
    let mut part = Part::Plain;
    let mut line = 1;
    let mut rest = text;
    'bytes: while let [byte, after @ ..] = rest {
        if seen_as(part, b'[') == b'[' && spells_header(rest) {
            lines.push(line)?;
        }
        if *byte == b'\n' {
            line += 1;
        }
        part = part_after(part, *byte);
        rest = after;
    }
    Ok(lines)
}

fn spells_header(text: &[u8]) -> bool
    ensures { result ≡ spells_header text.now }
{
    let Some(inner) = behind_word(text, b"[[") else {
        return false;
    };
    let Some(rest) = behind_word(behind_blanks(inner), b"binding") else {
        return false;
    };
    behind_word(behind_blanks(rest), b"]]").is_some()
}

fn behind_word<'a>(text: &'a [u8], word: &[u8]) -> Option<&'a [u8]>
    ensures { option_map (λ r. r.now) result ≡ behind_word word.now text.now }
{
    text.strip_prefix(word)
}

fn behind_blanks(text: &[u8]) -> &[u8]
    ensures { result.now ≡ behind_blanks text.now }
{
    let mut rest = text;
    'blanks: while let [b' ' | b'\t', after @ ..] = rest {
        rest = after;
    }
    rest
}
