// Counting records and their packets.
ghost use Rattle.std.specs.Prelude.{◌≡◌, ◌≤◌, ◌<◌, ◌+◌, ◌^◌, ℕ, List, All, IfErr, IfOk, false, length, true};
ghost use Rattle.capture_io.specs.declared.written.Written.{Written};
ghost use Rattle.run_output.specs.Counting.{IsWithin, with_record};
ghost use Rattle.run_output.specs.Cells.{AreCounted, ArePartsUnless, Cell, plus};
ghost use Rattle.run_output.specs.Passing.{HasCounted};

use crate::parts::Part;
use aftr_base::OutOfMemory;
use aftr_text::Totals;
use verdict_core::Verdict;

/// The totals with one record more, and its packets.
pub(crate) fn count_record(totals: &mut Totals, verdict: &Verdict, packets: u64)
    requires within { IsWithin totals.old totals.old.records }
    requires few { totals.old.records < 2 ^ 31 }
    requires packets { packets ≤ 128 }
    ensures { totals.new ≡ with_record totals.old verdict.now packets }
{
    totals.records += 1;
    totals.packets += packets;
    match *verdict {
        Verdict::Outward { .. } | Verdict::Inward { .. } => totals.forwarded += 1,
        Verdict::Drop { .. } => totals.dropped += 1,
        Verdict::Held => totals.held += 1,
    }
}

/// The totals with those of a part. They meet no end of their types where few records are counted.
pub(crate) fn add_counted(totals: &mut Totals, part: &Totals)
    ensures { (number more : ℕ) → IsWithin totals.old number → IsWithin part.now more → number + more ≤ 2 ^ 31 →
        totals.new ≡ plus totals.old part.now }
{
    totals.records = totals.records.saturating_add(part.records);
    totals.held = totals.held.saturating_add(part.held);
    totals.forwarded = totals.forwarded.saturating_add(part.forwarded);
    totals.dropped = totals.dropped.saturating_add(part.dropped);
    totals.packets = totals.packets.saturating_add(part.packets);
}

/// Adds the counts of a part to the totals of the records in front of it.
pub fn count_part(part: &Part, totals: &mut Totals)
    ensures { HasCounted part.now totals.old totals.new }
{
    add_counted(totals, &part.counted);
}

/// Counts the records of all parts, unless memory was wanted in one of them.
pub(crate) fn count_parts(parts: &[Part], totals: &mut Totals) -> Result<(), OutOfMemory>
    ensures whole { IfOk result (λ _. All (λ part. part.failed ≡ false) parts.now) }
    ensures totals { IfOk result (λ _. (w : Written) (size number : ℕ) (cs : List Cell) → ArePartsUnless w size cs parts.now →
        IsWithin totals.old number → number + length cs ≤ 2 ^ 31 → AreCounted size cs number (length parts.now) totals.old totals.new) }
    ensures failed { IfErr result (λ _. totals.new ≡ totals.old) }
{
    if !are_written(parts) {
        return Err(OutOfMemory);
    }
    add_all(parts, totals);
    Ok(())
}

// Whether memory was wanted in no part.
fn are_written(parts: &[Part]) -> bool
    ensures { result ≡ true → All (λ part. part.failed ≡ false) parts.now }
{
    parts.iter().all(|part| !part.failed)
}

fn add_all(parts: &[Part], totals: &mut Totals)
    requires { All (λ part. part.failed ≡ false) parts.now }
    ensures { (w : Written) (size number : ℕ) (cs : List Cell) → ArePartsUnless w size cs parts.now →
        IsWithin totals.old number → number + length cs ≤ 2 ^ 31 → AreCounted size cs number (length parts.now) totals.old totals.new }
{
    let mut i = 0;
    'parts: while i < parts.len() {
        add_counted(totals, &parts[i].counted);
        i += 1;
    }
}
