// The lines of records and of datagrams.
ghost use Rattle.std.specs.Prelude.{◌≡◌, ◌++◌, IfOk, IsErr, flat_map};
ghost use Rattle.aftr_base.specs.Appended.{Extends};
ghost use Rattle.aftr_text.specs.Lines.{ended_text};
ghost use Rattle.run_output.specs.Outputs.{record_text};

use aftr_base::OutOfMemory;
use aftr_text::{RecordNumber, push_counted_line, push_ended_line, push_limited_line};
use verdict_core::Verdict;

/// Puts the lines of datagrams that ended unfinished behind others: those whose time was up, or those that the capture's
/// end left. After an `Err` some of them may stand behind what stood there.
#[inline(always)]
pub fn push_ended_lines(
    lines: &mut Vec<u8>,
    expired: bool,
    numbers: &[u32],
) -> Result<(), OutOfMemory>
    ensures lines { IfOk result (λ _. lines.new.items ≡ lines.old.items ++ flat_map (ended_text expired) numbers.now) }
    ensures kept { IsErr result → Extends lines.old.items lines.new.items }
{
    'numbers: for number in numbers {
        push_ended_line(lines, expired, *number)?;
    }
    Ok(())
}

/// Puts the line of a record behind others, by whether its error is kept back.
pub(crate) fn push_record_line(
    lines: &mut Vec<u8>,
    limited: bool,
    number: &RecordNumber,
    version: u32,
    verdict: &Verdict,
    packets: u32,
) -> Result<(), OutOfMemory>
    ensures { IfOk result (λ _. lines.new.items ≡ lines.old.items ++ record_text limited number.now version verdict.now packets) }
{
    if limited {
        if let Verdict::Drop { why, .. } = *verdict {
            return push_limited_line(lines, number.get(), version, why);
        }
    }
    push_counted_line(lines, number, version, verdict, packets)
}
