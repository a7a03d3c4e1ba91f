// The lines of records and of datagrams.
ghost use Rattle.std.specs.Prelude.{◌≡◌, ◌++◌, IfOk, IsErr, codes, decimal};
ghost use Rattle.aftr_base.specs.Appended.{Extends};
ghost use Rattle.ip_codec.specs.Rules.{name_of};
ghost use Rattle.aftr_text.specs.Lines.{ended_text, judged_text, limited_text, outcome, verdict_text};

use crate::numbers::{push_digits, write_judged};
use crate::record_number::RecordNumber;
use crate::short_lines::{push_short, short_ending};
use aftr_base::{OutOfMemory, Text};
use ip_codec::Rule;
use std::alloc::Global;
use verdict_core::Verdict;

/// More bytes than a record's number and a version have, with a blank between them.
const JUDGED_ROOM: usize = 24;

/// The line of a record: its number, the version of the table that judged it, what became of it (`held`, `up`, `down`,
/// `hairpin`, or `drop` and the rule's name), and how many packets were written for it.
pub fn verdict_line(
    alloc: Global,
    number: u32,
    version: u32,
    verdict: Verdict,
    packets: u32,
) -> Result<Text, OutOfMemory>
    ensures { IfOk result (λ line. line ≡ verdict_text number version verdict packets) }
{
    let line = match verdict {
        Verdict::Held => format!(in alloc; "{number} {version} held {packets}\n")?,
        Verdict::Outward { .. } => format!(in alloc; "{number} {version} up {packets}\n")?,
        Verdict::Inward { back: false, .. } => {
            format!(in alloc; "{number} {version} down {packets}\n")?
        }
        Verdict::Inward { back: true, .. } => {
            format!(in alloc; "{number} {version} hairpin {packets}\n")?
        }
        Verdict::Drop { why, .. } => {
            format!(in alloc; "{number} {version} drop {why} {packets}\n")?
        }
    };
    Ok(Text::of(line))
}

/// Puts the line of `verdict_line` behind others. After an `Err` some of it may stand behind what stood there.
pub fn push_verdict_line(
    lines: &mut Vec<u8>,
    number: u32,
    version: u32,
    verdict: &Verdict,
    packets: u32,
) -> Result<(), OutOfMemory>
    ensures bytes { IfOk result (λ _. lines.new.items ≡ lines.old.items ++ verdict_text number version verdict.now packets) }
    ensures kept { IsErr result → Extends lines.old.items lines.new.items }
{
    push_counted_line(lines, &RecordNumber::of(number), version, verdict, packets)
}

/// The same of a record whose number is at hand with its digits.
#[inline(always)]
pub fn push_counted_line(
    lines: &mut Vec<u8>,
    number: &RecordNumber,
    version: u32,
    verdict: &Verdict,
    packets: u32,
) -> Result<(), OutOfMemory>
    ensures bytes { IfOk result (λ _. lines.new.items ≡ lines.old.items ++ verdict_text number.now version verdict.now packets) }
    ensures kept { IsErr result → Extends lines.old.items lines.new.items }
{
    if packets == 1 && version < 10 {
        if let Some((ending, end)) = short_ending(verdict) {
            return push_short(lines, number, version, ending, end);
        }
    }
    push_long_line(lines, number, version, verdict, packets)
}

// The same of a record that was dropped, or for which none or several packets were written.
#[inline(never)]
fn push_long_line(
    lines: &mut Vec<u8>,
    number: &RecordNumber,
    version: u32,
    verdict: &Verdict,
    packets: u32,
) -> Result<(), OutOfMemory>
    ensures bytes { IfOk result (λ _. lines.new.items ≡ lines.old.items ++ verdict_text number.now version verdict.now packets) }
    ensures kept { IsErr result → Extends lines.old.items lines.new.items }
{
    push_judged(lines, number, version)?;
    push_outcome(lines, verdict)?;
    push_digits(lines, packets)?;
    lines.extend_from_slice(b"\n")?;
    Ok(())
}

// Which record was judged, and by which version of the table.
fn push_judged(lines: &mut Vec<u8>, number: &RecordNumber, version: u32) -> Result<(), OutOfMemory>
    ensures bytes { IfOk result (λ _. lines.new.items ≡ lines.old.items ++ judged_text number.now version) }
    ensures kept { IsErr result → Extends lines.old.items lines.new.items }
{
    let mut judged = [0; JUDGED_ROOM];
    let start = write_judged(number, version, &mut judged, JUDGED_ROOM);
    lines.extend_from_slice(&judged[start..])?;
    Ok(())
}

// What became of the record, with a blank on either side.
fn push_outcome(lines: &mut Vec<u8>, verdict: &Verdict) -> Result<(), OutOfMemory>
    ensures bytes { IfOk result (λ _. lines.new.items ≡ lines.old.items ++ (codes " " ++ outcome verdict.now ++ codes " ")) }
    ensures kept { IsErr result → Extends lines.old.items lines.new.items }
{
    match *verdict {
        Verdict::Held => lines.extend_from_slice(b" held ")?,
        Verdict::Outward { .. } => lines.extend_from_slice(b" up ")?,
        Verdict::Inward { back: false, .. } => lines.extend_from_slice(b" down ")?,
        Verdict::Inward { back: true, .. } => lines.extend_from_slice(b" hairpin ")?,
        Verdict::Drop { why, .. } => {
            push_rule(lines, why)?;
            lines.extend_from_slice(b" ")?
        }
    }
    Ok(())
}

// That the record was dropped, and for which rule.
fn push_rule(lines: &mut Vec<u8>, why: Rule) -> Result<(), OutOfMemory>
    ensures bytes { IfOk result (λ _. lines.new.items ≡ lines.old.items ++ (codes " drop " ++ name_of why)) }
    ensures kept { IsErr result → Extends lines.old.items lines.new.items }
{
    lines.extend_from_slice(b" drop ")?;
    lines.extend_from_slice(why.name().as_bytes())?;
    Ok(())
}

/// The line of a record whose error was not sent, because the limit on errors was reached: its number, the version, and
/// `drop`, the rule's name, `limited 0`.
pub fn limited_line(
    alloc: Global,
    number: u32,
    version: u32,
    why: Rule,
) -> Result<Text, OutOfMemory>
    ensures { IfOk result (λ line. line ≡ limited_text number version why) }
{
    let mut line = format!(in alloc; "{number} {version} drop ")?;
    line.push_str(why.name())?;
    line.push_str(" limited 0\n")?;
    Ok(Text::of(line))
}

/// Puts the line of `limited_line` behind others. After an `Err` some of it may stand behind what stood there.
pub fn push_limited_line(
    lines: &mut Vec<u8>,
    number: u32,
    version: u32,
    why: Rule,
) -> Result<(), OutOfMemory>
    ensures bytes { IfOk result (λ _. lines.new.items ≡ lines.old.items ++ limited_text number version why) }
    ensures kept { IsErr result → Extends lines.old.items lines.new.items }
{
    push_limited(lines, &RecordNumber::of(number), version, why)
}

fn push_limited(
    lines: &mut Vec<u8>,
    number: &RecordNumber,
    version: u32,
    why: Rule,
) -> Result<(), OutOfMemory>
    ensures bytes { IfOk result (λ _. lines.new.items ≡ lines.old.items ++ limited_text number.now version why) }
    ensures kept { IsErr result → Extends lines.old.items lines.new.items }
{
    push_judged(lines, number, version)?;
    push_rule(lines, why)?;
    lines.extend_from_slice(b" limited 0\n")?;
    Ok(())
}

/// The line of a datagram of which some fragments are missing: `expired` where its time was up, else `unfinished`. The
/// number is that of its first record.
pub fn ended_line(alloc: Global, expired: bool, number: u32) -> Result<Text, OutOfMemory>
    ensures { IfOk result (λ line. line ≡ ended_text expired number) }
{
    let ending = if expired { "expired" } else { "unfinished" };
    let line = format!(in alloc; "{ending} {number}\n")?;
    Ok(Text::of(line))
}

/// Puts the line of `ended_line` behind others. After an `Err` some of it may stand behind what stood there.
pub fn push_ended_line(lines: &mut Vec<u8>, expired: bool, number: u32) -> Result<(), OutOfMemory>
    ensures bytes { IfOk result (λ _. lines.new.items ≡ lines.old.items ++ ended_text expired number) }
    ensures kept { IsErr result → Extends lines.old.items lines.new.items }
{
    let ending = if expired { "expired " } else { "unfinished " };
    lines.extend_from_slice(ending.as_bytes())?;
    push_digits(lines, number)?;
    lines.extend_from_slice(b"\n")?;
    Ok(())
}
