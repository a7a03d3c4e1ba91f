// Whether arrays and inline tables are nested too deep.
ghost use Rattle.std.specs.Prelude.{◌≡◌, true, false};
ghost use Rattle.table_costs.specs.Costs.{closes, is_too_deep, opens, part_after, seen_as};
ghost use Rattle.table_costs.specs.declared.parts.Part.TheVariants as part;

use crate::parts::{Part, part_after, seen_as};

/// The most arrays and inline tables that may stand open at one place. Two do in a table of bindings.
const MOST_DEPTH: usize = 8;

/// Whether more arrays and inline tables stand open at some place than in any table of bindings. The brackets of a header count too.
#[tactic(auto, unfolding(crate::specs::Costs::is_too_deep))]
pub(crate) fn is_too_deep(text: &[u8]) -> bool
    ensures { result ≡ is_too_deep text.now }
{
    let mut part = Part::Plain;
    let mut depth = 0;
    let mut rest = text;
    'bytes: while let [byte, after @ ..] = rest {
        rest = after;
        if is_passed(part, *byte) {
            continue 'bytes;
        }
        match seen_as(part, *byte) {
            b'[' | b'{' if depth == MOST_DEPTH => return true,
            b'[' | b'{' => depth += 1,
            b']' | b'}' => depth = depth.saturating_sub(1),
            _ => {}
        }
        part = part_after(part, *byte);
    }
    false
}

// Whether a byte opens nothing, closes nothing, and leaves the next byte in its own part. It is true of most bytes of a table.
fn is_passed(part: Part, byte: u8) -> bool
    ensures { result ≡ true → (part_after part byte ≡ part) × (opens (seen_as part byte) ≡ false) × (closes (seen_as part byte) ≡ false) }
{
    match part {
        Part::Plain => !matches!(byte, b'"' | b'#' | b'\'' | b'[' | b']' | b'{' | b'}'),
        Part::Comment => byte != b'\n',
        Part::Line(mark) => byte != mark && byte != b'\n' && byte != b'\\',
        _ => false,
    }
}
