// The lines of most records: one packet was written, and the version has one digit.
ghost use Rattle.std.specs.Prelude.{◌≡◌, ◌-◌, ◌<◌, ◌≤◌, ◌++◌, IfOk, IfSome, IsErr, codes, drop, take};
ghost use Rattle.aftr_base.specs.Appended.{Extends};
ghost use Rattle.aftr_text.specs.Lines.{judged_text, outcome};

use crate::numbers::write_judged;
use crate::record_number::RecordNumber;
use aftr_base::OutOfMemory;
use verdict_core::Verdict;

/// More bytes than a short line has: a number of ten digits, a version of one, and ` hairpin 1` with its line feed.
const SHORT: usize = 24;

/// A short line ends in the middle of so many bytes. What follows are blanks: so as many bytes are copied of each line, wherever
/// it begins, by a few instructions.
const TWICE: usize = 2 * SHORT;

/// What ends a short line behind the version, and where it begins; none of a record that went nowhere.
#[inline(always)]
pub(crate) fn short_ending(verdict: &Verdict) -> Option<(&'static [u8; TWICE], usize)>
    ensures text { IfSome result (λ e. take (24 - e.1) (drop e.1 e.0.now) ≡ codes " " ++ outcome verdict.now ++ codes " " ++ codes "1\n") }
    ensures room { IfSome result (λ e. (12 ≤ e.1) × (e.1 ≤ 24)) }
{
    match *verdict {
        Verdict::Outward { .. } => Some((b"                   up 1\n                        ", 18)),
        Verdict::Inward { back: false, .. } => {
            Some((b"                 down 1\n                        ", 16))
        }
        Verdict::Inward { back: true, .. } => {
            Some((b"              hairpin 1\n                        ", 13))
        }
        Verdict::Held | Verdict::Drop { .. } => None,
    }
}

/// Puts the line of a record behind others, by what ends it. It is written from its end.
#[inline(always)]
pub(crate) fn push_short(
    lines: &mut Vec<u8>,
    number: &RecordNumber,
    version: u32,
    ending: &[u8; TWICE],
    end: usize,
) -> Result<(), OutOfMemory>
    requires version { version < 10 }
    requires room { (12 ≤ end) × (end ≤ 24) }
    ensures bytes { IfOk result (λ _. lines.new.items ≡ lines.old.items ++ (judged_text number.now version ++ take (24 - end) (drop end ending.now))) }
    ensures kept { IsErr result → Extends lines.old.items lines.new.items }
{
    let mut line = *ending;
    let start = write_judged(number, version, &mut line, end);
    push_window(lines, &line, start)
}

// Puts what begins at an index of a line's bytes, up to their middle, behind others. Half of the bytes are copied, and what is too
// much is cut off: so the length of the copy is known.
#[inline(always)]
fn push_window(lines: &mut Vec<u8>, line: &[u8; TWICE], start: usize) -> Result<(), OutOfMemory>
    requires { start ≤ 24 }
    ensures bytes { IfOk result (λ _. lines.new.items ≡ lines.old.items ++ take (24 - start) (drop start line.now)) }
    ensures kept { IsErr result → Extends lines.old.items lines.new.items }
{
    let before = lines.len();
    lines.extend_from_slice(&line[start..start + SHORT])?;
    lines.truncate(before + (SHORT - start));
    Ok(())
}
