// The records of a capture, taken in rounds: while one is judged, what the one before it writes is put into the outputs, and then
// the next one is read.
ghost use Rattle.std.specs.Prelude.{◌≡◌, ◌≤◌, ◌^◌, IfErr, IfOk, None, OnOk, Some};
ghost use Rattle.aftr_io.specs.Contents.{Moves, Told, content};
ghost use Rattle.aftr_io.specs.Outside.{Rises, has_failed};
ghost use Rattle.aftr_text.specs.Jobs.{AreApart};
ghost use Rattle.capture_io.specs.Refusals.{EndsInRecords};
ghost use Rattle.capture_io.specs.Rounds.{is_cut};
ghost use Rattle.hand_over.specs.Lines.{IsNewLine};
ghost use Rattle.lwaftr_engine.specs.Broken.{Breaks};
ghost use Rattle.lwaftr_engine.specs.Progress.{Goes, IsOnDuty, KeepsRest, ReadsOf, setup_of, spot, state_of};
ghost use Rattle.lwaftr_engine.specs.Runs.{OthersKept};
ghost use Rattle.lwaftr_engine.specs.Underway.{CanJudge, HasRead, IsAtStart, IsNothing, IsSettledAt};
ghost use Rattle.lwaftr_engine.specs.Underway.{PutsAndReads, StaysOnDuty, WentWell, steps_of};
ghost use Rattle.lwaftr_engine.specs.Worlds.{halves};
ghost use Rattle.lwaftr_engine.specs.Writing.{BreaksLast, DidBoth, outputs_of};
ghost use Rattle.output_journal.specs.Log.{Logs};

use crate::beside::{Sides, rounds_beside};
use crate::known::run_laws;
use crate::outputs::names_of;
use crate::shift::{Shift, judge_round};
use crate::tasks::{Means, Task};
use aftr_base::OutOfMemory;
use aftr_io::{Fault, Outside, Reading, Writing};
use aftr_text::Totals;
use capture_io::{CaptureReader, Ending, Records, Round};
use error_limit::Limiter;
use item_stage::{RoundItems, Stage};
use output_journal::write_round;
use run_output::{Rendered, RoundRecords, push_new_versions, render_round};
use std::alloc::Global;
use std::mem;
use std::sync::Wait;
use std::thread::Threads;
use worker_gate::Gate;

/// A round ends with the record that brings its captured bytes to so many, or more.
const ENOUGH: usize = 262_144;

/// The same with more than one worker, where records are so small that threads pay in such a round.
const ENOUGH_OF_SMALL: usize = 1_048_576;

/// Records are small where a round had so many.
const MANY_RECORDS: usize = 2_560;

/// How far a run has come.
#[derive(Drop)]
pub struct Progress {
    /// What is known of the datagrams of earlier records.
    pub stage: Stage,
    /// The number of the next record.
    pub number: u32,
    pub totals: Totals,
    /// The limit on errors, if there is one.
    pub limit: Option<Limiter>,
    /// How many loads have their line.
    pub printed: usize,
}

/// What a round writes, until it is in the outputs.
#[derive(Drop)]
pub struct Pending {
    pub rendered: Rendered,
    /// The new lines of tables.
    pub versions: String,
}

/// What a run keeps from round to round.
#[derive(Drop)]
pub struct Router {
    pub shift: Shift,
    pub progress: Progress,
}

/// The lists of the first rounds, and what goes over between two sides. Lists change places from round to round, so that memory is
/// taken in these alone.
#[derive(Drop)]
pub struct Room<'a> {
    pub records: Records,
    pub pending: Pending,
    pub sides: Sides<'a>,
}

/// Lists that are free.
#[derive(Drop)]
pub struct Free {
    /// For the records of the next round.
    pub records: Option<Records>,
    /// For what the next round writes.
    pub made: Pending,
}

/// A round under way.
#[derive(Drop)]
pub struct UnderWay {
    /// It was read, and is not judged yet.
    pub round: Round,
    /// What the round before it writes, which is not in the outputs yet.
    pub pending: Pending,
}

// Judges a round, and renders what it writes.
pub fn judge<R: Threads + Wait + Sync, G: Gate + Sync>(
    means: &Means<'_, R, G>,
    task: Task<'_>,
    router: &mut Router,
    round: &Round,
    made: &mut Pending,
) -> Result<(), OutOfMemory>
    requires can { CanJudge (setup_of task) router.old round.now }
    ensures well { IfOk result (λ _. WentWell (setup_of task.entry) router.old router.new round.now made.new) }
    ensures duty { StaysOnDuty router.old.shift router.new.shift round.now.number }
{
    let rt = means.rt;
    let alloc = means.alloc;
    let start = router.progress.number;
    let items = router.progress.stage.items(alloc, &round.records, start)?;
    judge_round(
        rt,
        &mut router.shift,
        &items,
        start,
        round.number,
        means.gate,
    );
    let judged = RoundRecords {
        start,
        records: &round.records,
        items: &items,
        outcomes: &router.shift.crew.outcomes(),
    };
    render_round(
        rt,
        task.form,
        task.written,
        &judged,
        &mut router.progress.limit,
        &mut router.progress.totals,
        &mut made.rendered,
    )?;
    router.progress.stage.take_back(items);
    made.versions.clear();
    let printed = push_new_versions(
        alloc,
        &mut made.versions,
        task.job.loads.as_slice(),
        task.slots,
        router.shift.desk.points(),
        router.progress.printed,
    )?;
    router.progress.printed = printed;
    router.progress.number = round.number;
    Ok(())
}

// Puts what a round wrote into the outputs.
fn put<O: Writing>(
    alloc: Global,
    files: &mut O,
    task: Task<'_>,
    pending: &Pending,
) -> Result<(), Fault>
    requires apart { AreApart (setup_of task).run }
    ensures log { Logs (outputs_of (setup_of task.entry).run) result (steps_of pending.now) (O.written files.old) (O.written files.new) }
{
    write_round(
        alloc,
        files,
        names_of(task.job),
        pending.versions.as_bytes(),
        pending.rendered.parts(),
    )
}

// Room for records: that of an earlier round, where it is there.
fn room_of(alloc: Global, spare: &mut Option<Records>) -> Records {
    match spare.take() {
        Some(records) => records,
        None => Records::new(alloc),
    }
}

// How many captured bytes end a round of so many workers, where an earlier one had so many records.
fn enough_bytes(workers: u32, records: usize) -> usize
    ensures some { 1 ≤ result }
    ensures most { result ≤ 67108864 }
{
    if workers > 1 && records >= MANY_RECORDS {
        ENOUGH_OF_SMALL
    } else {
        ENOUGH
    }
}

// Reads the next round.
fn read_next<I: Reading, C: CaptureReader>(
    alloc: Global,
    files: &mut I,
    task: Task<'_>,
    reader: &mut C,
    number: u32,
    room: Records,
) -> Result<Round, OutOfMemory>
    requires number { number ≤ 2 ^ 31 }
    requires ready { C.ready reader.old number }
    ensures read { IfOk result (HasRead (setup_of task.entry)
        (spot (C.stands reader.old) (C.left reader.old) (C.at reader.old)) (spot (C.stands reader.new) (C.left reader.new) (C.at reader.new))
        number (I.readable files.old).held (I.readable files.new).last) }
    ensures ready { IfOk result (λ round. C.ready reader.new round.number) }
    ensures held { (I.readable files.new).held ≡ (I.readable files.old).held }
    ensures lost { IfErr result (λ _. (I.readable files.new).lost ≡ (I.readable files.old).lost) }
    ensures last { IfErr result (λ _. (I.readable files.new).last ≡ (I.readable files.old).last) }
    ensures reads { IfOk result (λ round. ReadsOf (is_cut round.ending) (setup_of task.entry).run.input (I.readable files.old) (I.readable files.new)) }
{
    let name = task.job.input.as_str();
    let enough = enough_bytes(task.job.workers, room.len());
    let round = reader.read_round(alloc, files, name, number, enough, room)?;
    Ok(round)
}

// Puts what a round wrote into the outputs, and then reads the next round.
pub fn put_and_read<I: Reading, O: Writing, C: CaptureReader>(
    alloc: Global,
    files: &mut Outside<I, O>,
    task: Task<'_>,
    reader: &mut C,
    pending: &Pending,
    number: u32,
    spare: &mut Option<Records>,
) -> Result<Round, Fault>
    requires apart { AreApart (setup_of task).run }
    requires number { number ≤ 2 ^ 31 }
    requires ready { C.ready reader.old number }
    ensures { PutsAndReads (setup_of task.entry) (steps_of pending.now) number
        (spot (C.stands reader.old) (C.left reader.old) (C.at reader.old)) (spot (C.stands reader.new) (C.left reader.new) (C.at reader.new))
        (λ n. C.ready reader.new n)
        (halves (I.readable files.old.reading) (O.written files.old.writing)) (halves (I.readable files.new.reading) (O.written files.new.writing)) result }
{
    put(alloc, &mut files.writing, task, pending)?;
    let room = room_of(alloc, spare);
    let round = read_next(alloc, &mut files.reading, task, reader, number, room)?;
    Ok(round)
}

// Puts what the round before wrote into the outputs, reads the next one, and then judges the one between them.
fn step<R: Threads + Wait + Sync, I: Reading, O: Writing, C: CaptureReader, G: Gate + Sync>(
    means: &Means<'_, R, G>,
    files: &mut Outside<I, O>,
    task: Task<'_>,
    reader: &mut C,
    router: &mut Router,
    under_way: &UnderWay,
    free: &mut Free,
) -> Result<Round, Fault>
    requires apart { AreApart (setup_of task).run }
    requires can { CanJudge (setup_of task) router.old under_way.now.round }
    requires ready { C.ready reader.old under_way.now.round.number }
    ensures well { IfOk result (λ _. WentWell (setup_of task.entry) router.old router.new under_way.now.round free.new.made) }
    ensures duty { StaysOnDuty router.old.shift router.new.shift under_way.now.round.number }
    ensures outside { PutsAndReads (setup_of task.entry) (steps_of under_way.now.pending) under_way.now.round.number
        (spot (C.stands reader.old) (C.left reader.old) (C.at reader.old)) (spot (C.stands reader.new) (C.left reader.new) (C.at reader.new))
        (λ n. C.ready reader.new n)
        (halves (I.readable files.old.reading) (O.written files.old.writing)) (halves (I.readable files.new.reading) (O.written files.new.writing)) result }
{
    let alloc = means.alloc;
    let round = &under_way.round;
    let pending = &under_way.pending;
    let next = put_and_read(
        alloc,
        files,
        task,
        reader,
        pending,
        round.number,
        &mut free.records,
    );
    let judged = judge(means, task, router, round, &mut free.made);
    let next = next?;
    judged?;
    Ok(next)
}

// Puts what the round before the last one wrote, and judges and puts the last one.
fn last_steps<R: Threads + Wait + Sync, O: Writing, G: Gate + Sync>(
    means: &Means<'_, R, G>,
    files: &mut O,
    task: Task<'_>,
    router: &mut Router,
    under_way: &UnderWay,
    made: &mut Pending,
) -> Result<(), Fault>
    requires apart { AreApart (setup_of task).run }
    requires can { CanJudge (setup_of task) router.old under_way.now.round }
    ensures well { IfOk result (λ _. WentWell (setup_of task.entry) router.old router.new under_way.now.round made.new) }
    ensures duty { StaysOnDuty router.old.shift router.new.shift under_way.now.round.number }
    ensures wrote { IfOk result (λ _. Moves (O.written files.old).held (O.written files.new).held
        (DidBoth (setup_of task.entry).run (steps_of under_way.now.pending) (steps_of made.new))) }
    ensures begun { IfErr result (λ _. Moves (O.written files.old).held (O.written files.new).held
        (BreaksLast (setup_of task.entry).run (steps_of under_way.now.pending)
        (WentWell (setup_of task.entry) router.old router.new under_way.now.round made.new) (steps_of made.new))) }
    ensures others { Moves (O.written files.old).held (O.written files.new).held (OthersKept (setup_of task.entry).run) }
    ensures spoiled { Rises (has_failed result) (O.written files.old).spoiled (O.written files.new).spoiled }
{
    put(means.alloc, files, task, &under_way.pending)?;
    judge(means, task, router, &under_way.round, made)?;
    put(means.alloc, files, task, made)
}

/// Takes all records in rounds, and answers how they ended. A fault is one of writing.
pub fn run_records<
    R: Threads + Wait + Sync,
    I: Reading,
    O: Writing,
    C: CaptureReader,
    G: Gate + Sync,
>(
    means: &Means<'_, R, G>,
    files: &mut Outside<I, O>,
    task: Task<'_>,
    reader: &mut C,
    router: &mut Router,
    room: Room<'_>,
) -> Result<Ending, Fault>
    requires apart { AreApart (setup_of task).run }
    requires workers { (1 ≤ (setup_of task).run.workers) × ((setup_of task).run.workers ≤ 16) }
    requires start { IsAtStart (setup_of task) router.old }
    requires ready { C.ready reader.old router.old.progress.number }
    requires nothing { IsNothing room.pending }
    requires line { IsNewLine room.sides.asker room.sides.answerer }

    // Where all went well.
    ensures went { IfOk result (λ ending. Told (I.readable files.old.reading).held (λ inputs.
        Moves (O.written files.old.writing).held (O.written files.new.writing).held
        (Goes (setup_of task.entry) (state_of router.new) (spot (C.stands reader.old) (C.left reader.old) (C.at reader.old))
        (spot (C.stands reader.new) (C.left reader.new) (C.at reader.new)) (Some ending) (I.readable files.new.reading).last
        (content inputs (setup_of task.entry).run.input)))) }
    ensures after { IfOk result (λ _. IsSettledAt (setup_of task.entry) router.new) }
    ensures reads { IfOk result (λ ending. ReadsOf (is_cut (Some ending)) (setup_of task.entry).run.input (I.readable files.old.reading) (I.readable files.new.reading)) }
    ensures in_records { IfOk result (λ ending. EndsInRecords (Some ending)) }

    // Where they could not be written to their end.
    ensures broken { IfErr result (λ _. Told (I.readable files.old.reading).held (λ inputs.
        Moves (O.written files.old.writing).held (O.written files.new.writing).held
        (Breaks (setup_of task.entry) (state_of router.new) (spot (C.stands reader.old) (C.left reader.old) (C.at reader.old))
        (I.readable files.old.reading) (I.readable files.new.reading) (content inputs (setup_of task.entry).run.input)))) }

    // Whatever came.
    ensures rest { KeepsRest (setup_of task.entry).run
        (halves (I.readable files.old.reading) (O.written files.old.writing)) (halves (I.readable files.new.reading) (O.written files.new.writing)) }
    ensures areas { router.new.shift.areas ≡ router.old.shift.areas }
    ensures duty { IsOnDuty router.new.shift.areas.plan router.new.shift }
    ensures spoiled { Rises (has_failed result) (O.written files.old.writing).spoiled (O.written files.new.writing).spoiled }
{
    // Laws, and no steps: whatever is left has some ending, and what holds of every run.
    C::some_left();
    run_laws();
    let Room {
        records,
        pending,
        sides,
    } = room;
    let number = router.progress.number;
    let round = read_next(
        means.alloc,
        &mut files.reading,
        task,
        reader,
        number,
        records,
    )?;
    let mut under_way = UnderWay { round, pending };
    let mut free = rounds_beside(means, files, task, reader, router, &mut under_way, sides)?;
    'rounds: loop {
        if let Some(ending) = under_way.round.ending {
            last_steps(
                means,
                &mut files.writing,
                task,
                router,
                &under_way,
                &mut free.made,
            )?;
            return Ok(ending);
        }
        let next = step(means, files, task, reader, router, &under_way, &mut free)?;
        mem::swap(&mut under_way.pending, &mut free.made);
        let Round { records, .. } = mem::replace(&mut under_way.round, next);
        free.records = Some(records);
    }
}
