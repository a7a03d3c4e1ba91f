// Records written as lines, and the items that they become.
//
// A line is `SECONDS BYTES.. = ITEM`, with ` / NUMBERS..` behind it where datagrams end with the record. A bar ends a call of
// the stage, and the last line is `unfinished NUMBERS..`.
ghost use Rattle.std.specs.Prelude.{◌≡◌, ◌+◌, ◌^◌, ◌≤◌, IfOk};

use crate::items::{are, first_other};
use crate::records::{packets_of, records_of};
use aftr_base::OutOfMemory;
use capture_io::{Form, Records};
use item_stage::{Stage, StagedRound};
use std::alloc::Global;
use std::test::Fail;

/// More records than any case has.
const MOST: u32 = 1_000_000;

/// A form of captures with times in microseconds, of this link type.
pub fn form(link: u32) -> Form {
    Form {
        big: false,
        nano: false,
        link,
    }
}

/// Takes only what may go to another thread, and be asked by many.
fn may_be_shared<T: Send + Sync>(_value: &T) {}

/// The records of a round's lines.
pub fn records_in(alloc: Global, round: &str) -> Result<Records, Fail> {
    let packets = packets_of(alloc, round)?;
    Ok(records_of(alloc, &packets)?)
}

/// How many records were taken after `count` more.
fn number_behind(start: u32, count: usize) -> Result<u32, Fail>
    ensures number { IfOk result (λ number. number ≡ start + count) }
    ensures few { IfOk result (λ number. number ≤ 2 ^ 31) }
{
    if start > MOST || count > MOST as usize {
        return Err(Fail::from("too many records"));
    }
    Ok(start + count as u32)
}

/// Gives the records of a round to a stage that has taken `start` of them, and says how many it has taken then, unless an
/// item is not the one that its line names.
fn taken(alloc: Global, stage: &mut Stage, start: u32, round: &str) -> Result<u32, Fail>
    requires { start ≡ stage.old.number }
    ensures { IfOk result (λ number. stage.new.number ≡ number) }
{
    let records = records_in(alloc, round)?;
    let number = number_behind(start, records.len())?;
    let items = stage.items(alloc, &records, start)?;
    may_be_shared(&items);
    if let Some(line) = first_other(alloc, &items, round)? {
        return Err(Fail::from(line));
    }
    stage.take_back(items);
    Ok(number)
}

/// Gives them to a stage in a round that owns its records, in place of those of the round before.
fn staged(
    alloc: Global,
    stage: &mut Stage,
    round: &mut StagedRound,
    start: u32,
    lines: &str,
) -> Result<u32, Fail>
    requires { start ≡ stage.old.number }
    ensures { IfOk result (λ number. stage.new.number ≡ number) }
{
    let records = records_in(alloc, lines)?;
    let number = number_behind(start, records.len())?;
    let _before = round.take_records(alloc);
    round.put_records(records);
    stage.stage(alloc, round, start)?;
    may_be_shared(round);
    if let Some(line) = first_other(alloc, &round.items(), lines)? {
        return Err(Fail::from(line));
    }
    Ok(number)
}

fn is_unfinished(alloc: Global, stage: &Stage, text: &str) -> Result<bool, Fail> {
    are(alloc, stage.unfinished(alloc)?.as_slice(), text)
}

/// Goes through the rounds of a case, with one stage that answers items and one that puts them into rounds, and says whether what is
/// unfinished then is in both what the case's last line says. An error names the first line whose record becomes another item.
pub fn goes<R: Alloc<A = Global>>(rt: &R, link: u32, case: &str) -> Result<bool, Fail> {
    let alloc = rt.alloc();
    let (rounds, last) = case.split_once("unfinished").ok_or("a last line")?;
    let mut stage = Stage::new(alloc, form(link))?;
    let mut other = Stage::new(alloc, form(link))?;
    let mut kept = StagedRound::new(alloc, form(link));
    may_be_shared(&stage);
    let mut number = 0;
    let mut behind = 0;
    'rounds: for round in rounds.split('|') {
        number = taken(alloc, &mut stage, number, round)?;
        behind = staged(alloc, &mut other, &mut kept, behind, round)?;
    }
    Ok(is_unfinished(alloc, &stage, last)? && is_unfinished(alloc, &other, last)?)
}
