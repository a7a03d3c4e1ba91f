// Numbers in a line.
ghost use Rattle.std.specs.Prelude.{◌≡◌, ◌+◌, ◌<◌, ◌≤◌, ◌++◌, IfOk, IsErr, codes, decimal, drop, length, string_bytes};
ghost use Rattle.aftr_base.specs.Appended.{Extends};
ghost use Rattle.aftr_text.specs.Lines.{judged_text};

use crate::record_number::RecordNumber;
use aftr_base::OutOfMemory;
use itoa::{Buffer, write_digits};

/// Puts a number at the end of a line, in decimal without leading zeros.
#[inline(never)]
pub(crate) fn push_number(line: &mut String, number: u64) -> Result<(), OutOfMemory>
    ensures bytes { IfOk result (λ _. string_bytes line.new ≡ string_bytes line.old ++ decimal number) }
    ensures kept { IsErr result → Extends (string_bytes line.old) (string_bytes line.new) }
{
    let mut buffer = Buffer::new();
    line.push_str(buffer.format(number))?;
    Ok(())
}

/// Puts a word and a number at the end of a line. The word brings its blanks.
pub(crate) fn push_count(line: &mut String, word: &str, number: u64) -> Result<(), OutOfMemory>
    ensures bytes { IfOk result (λ _. string_bytes line.new ≡ string_bytes line.old ++ word.now ++ decimal number) }
    ensures kept { IsErr result → Extends (string_bytes line.old) (string_bytes line.new) }
{
    line.push_str(word)?;
    push_number(line, number)
}

/// Puts a number behind the lines of records.
#[inline(never)]
pub(crate) fn push_digits(lines: &mut Vec<u8>, number: u32) -> Result<(), OutOfMemory>
    ensures bytes { IfOk result (λ _. lines.new.items ≡ lines.old.items ++ decimal number) }
    ensures kept { IsErr result → Extends lines.old.items lines.new.items }
{
    let mut buffer = Buffer::new();
    lines.extend_from_slice(buffer.format(number).as_bytes())?;
    Ok(())
}

/// Writes which record was judged, and by which version of the table, so that it ends at an index, and tells where it begins.
#[inline(always)]
pub(crate) fn write_judged(
    number: &RecordNumber,
    version: u32,
    line: &mut [u8],
    end: usize,
) -> usize
    requires room { length (decimal version) + 11 ≤ end }
    requires inside { end ≤ length line.old }
    ensures start { result + length (judged_text number.now version) ≡ end }
    ensures written { drop result line.new ≡ judged_text number.now version ++ drop end line.old }
{
    let blank = write_digits(u64::from(version), line, end) - 1;
    line[blank] = b' ';
    number.write(line, blank)
}
