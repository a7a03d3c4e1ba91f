// The capture that is read, and the records of it that were read and are not drawn yet.
ghost use Rattle.std.specs.Prelude.{◌≡◌, ◌+◌, ◌<◌, ◌++◌, ◌^◌, ◌≤◌, ◌≢◌, [], IfErr, IfOk, None, false, length, true};
ghost use Rattle.aftr_io.specs.Contents.{content};
ghost use Rattle.capture_io.specs.Rounds.{is_cut};
ghost use Rattle.run_turns.specs.Fills.{HasFetched, standing};
ghost use Rattle.run_turns.specs.Rounds.{HasRead};
ghost use Rattle.run_turns.specs.Setups.{ReadsOf, setup_of, spot};

use crate::tasks::Task;
use aftr_base::OutOfMemory;
use aftr_io::Reading;
use capture_io::{CaptureReader, Ending, Records, Round};
use std::alloc::Global;
use std::mem;

/// A round ends with the record that brings its captured bytes to so many, or more.
const ENOUGH: usize = 262_144;

/// The capture, its reader, and what was read ahead.
#[derive(Drop)]
pub struct Capture<'a, 'f, 'r, I, C> {
    pub alloc: Global,
    pub task: Task<'a>,
    pub files: &'f mut I,
    pub reader: &'r mut C,
    /// Records that were read and have no number yet.
    pub ahead: Records,
    /// How the records ended, if these are the last.
    pub ending: Option<Ending>,
}

// Reads the next round.
fn read_next<I: Reading, C: CaptureReader>(
    alloc: Global,
    files: &mut I,
    task: Task<'_>,
    reader: &mut C,
    number: u32,
    room: Records,
) -> Result<Round, OutOfMemory>
    requires number { number ≤ 2 ^ 31 }
    requires ready { C.ready reader.old number }
    ensures read { IfOk result (HasRead (setup_of task.entry)
        (spot (C.stands reader.old) (C.left reader.old) (C.at reader.old)) (spot (C.stands reader.new) (C.left reader.new) (C.at reader.new))
        number (I.readable files.old).held (I.readable files.new).last) }
    ensures ready { IfOk result (λ round. C.ready reader.new round.number) }
    ensures refused { IfErr result (λ _. ReadsOf false (setup_of task.entry).run.input (I.readable files.old) (I.readable files.new)) }
    ensures reads { IfOk result (λ round. ReadsOf (is_cut round.ending) (setup_of task.entry).run.input (I.readable files.old) (I.readable files.new)) }
{
    let name = task.job.input.as_str();
    let round = reader.read_round(alloc, files, name, number, ENOUGH, room)?;
    Ok(round)
}

// Whether records stand ahead, or have ended.
fn is_ahead(ahead: &Records, ending: Option<Ending>) -> bool
    ensures neither { result ≡ false → (ahead.now ≡ []) × (ending ≡ None) }
    ensures some { result ≡ true → ahead.now ≡ [] → ending ≢ None }
{
    ending.is_some() || !ahead.is_empty()
}

/// The records from a number on: those that stand ahead, or else those of the next round that is read, into the room of `room`. None
/// stands ahead afterwards.
pub fn next_records<I: Reading, C: CaptureReader>(
    capture: &mut Capture<'_, '_, '_, I, C>,
    number: u32,
    room: Records,
) -> Result<Records, OutOfMemory>
    requires number { number + length capture.old.ahead ≤ 2 ^ 31 }
    requires ready { C.ready capture.old.reader.now (number + length capture.old.ahead) }
    ensures same { (capture.new.files.ghost_name ≡ capture.old.files.ghost_name) × (capture.new.reader.ghost_name ≡ capture.old.reader.ghost_name) }
    ensures task { capture.new.task ≡ capture.old.task }
    ensures fetched { IfOk result (λ records. HasFetched (setup_of capture.old.task) (λ r. spot (C.stands r) (C.left r) (C.at r)) number
        (standing (I.readable capture.old.files.now) capture.old.reader.now capture.old.ahead capture.old.ending)
        (standing (I.readable capture.new.files.now) capture.new.reader.now capture.new.ahead capture.new.ending) records) }
    ensures ready { IfOk result (λ records. C.ready capture.new.reader.now (number + length records)) }
    ensures most { IfOk result (λ records. number + length records ≤ 2 ^ 31) }
    ensures none { IfOk result (λ _. capture.new.ahead ≡ []) }
    ensures refused { IfErr result (λ _. (ReadsOf false (setup_of capture.old.task).run.input (I.readable capture.old.files.now) (I.readable capture.new.files.now))
        × (capture.new.ending ≡ capture.old.ending)) }
{
    if is_ahead(&capture.ahead, capture.ending) {
        let mut room = room;
        room.clear();
        return Ok(mem::replace(&mut capture.ahead, room));
    }
    let round = read_next(
        capture.alloc,
        capture.files,
        capture.task,
        capture.reader,
        number,
        room,
    )?;
    let Round {
        records,
        ending,
        ..
    } = round;
    capture.ending = ending;
    Ok(records)
}

/// Leaves the first `count` records, and puts the others ahead.
pub fn put_ahead(
    alloc: Global,
    records: &mut Records,
    count: usize,
    ahead: &mut Records,
) -> Result<(), OutOfMemory>
    requires inside { count ≤ length records.old }
    requires none { ahead.old ≡ [] }
    ensures front { IfOk result (λ _. records.old ≡ records.new ++ ahead.new) }
    ensures count { IfOk result (λ _. length records.new ≡ count) }
{
    if count < records.len() {
        let room = mem::replace(ahead, Records::new(alloc));
        *ahead = records.split_off(count, room)?;
    }
    Ok(())
}
