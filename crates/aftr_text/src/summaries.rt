// What a run says of itself at its end.
ghost use Rattle.std.specs.Prelude.{◌≡◌, ◌++◌, IfOk, string_bytes};
ghost use Rattle.aftr_text.specs.Lines.{migrated_text, summary_text};

use crate::numbers::push_count;
use aftr_base::{OutOfMemory, Text};
use std::alloc::Global;

/// More bytes than the longest summary has: six words, five numbers of ten digits and one of twenty.
const SUMMARY_ROOM: usize = 128;

/// What a run counted.
#[derive(Clone, Copy, Debug, PartialEq, Eq)]
pub struct Totals {
    /// How many records were read.
    pub records: u32,
    /// How many of them were fragments that were kept.
    pub held: u32,
    /// How many were sent on.
    pub forwarded: u32,
    /// How many were dropped.
    pub dropped: u32,
    /// How many packets were written.
    pub packets: u64,
    /// How many tables came into force after the first one.
    pub version: u32,
}

/// The totals before the first record.
pub const NO_TOTALS: Totals = Totals {
    records: 0,
    held: 0,
    forwarded: 0,
    dropped: 0,
    packets: 0,
    version: 0,
};

/// The one line that a run puts to standard output.
pub fn summary(alloc: Global, totals: Totals) -> Result<Text, OutOfMemory>
    ensures { IfOk result (λ line. line ≡ summary_text totals) }
{
    let mut line = String::with_capacity(alloc, SUMMARY_ROOM)?;
    push_summary(&mut line, totals)?;
    Ok(Text::of(line))
}

fn push_summary(text: &mut String, totals: Totals) -> Result<(), OutOfMemory>
    ensures { IfOk result (λ _. string_bytes text.new ≡ string_bytes text.old ++ summary_text totals) }
{
    push_count(text, "records ", u64::from(totals.records))?;
    push_count(text, " held ", u64::from(totals.held))?;
    push_count(text, " forwarded ", u64::from(totals.forwarded))?;
    push_count(text, " dropped ", u64::from(totals.dropped))?;
    push_count(text, " packets ", totals.packets)?;
    push_count(text, " version ", u64::from(totals.version))?;
    text.push_str("\n")?;
    Ok(())
}

/// The line that tells how many bindings of a table were written in its newer edition.
pub fn migrated_line(alloc: Global, count: u32) -> Result<Text, OutOfMemory>
    ensures { IfOk result (λ line. line ≡ migrated_text count) }
{
    let line = format!(in alloc; "migrated {count} bindings\n")?;
    Ok(Text::of(line))
}
