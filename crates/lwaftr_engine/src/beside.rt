// Rounds that one thread judges, while another one puts what the round before wrote into the outputs and reads the next round.
ghost use Rattle.std.specs.Prelude.{◌≡◌, [], IsSome, length};
ghost use Rattle.std.specs.Thread.{IsSync};
ghost use Rattle.aftr_text.specs.Jobs.{AreApart};
ghost use Rattle.hand_over.specs.Lines.{IsNewLine, SameAnswerer, SameAsker, asked, given, heard, taken};
ghost use Rattle.lwaftr_engine.specs.Beside.{Asks, Go, HaveTaken, reached, standing};
ghost use Rattle.lwaftr_engine.specs.Progress.{setup_of, spot};
ghost use Rattle.lwaftr_engine.specs.Worlds.{halves};
ghost use Rattle.lwaftr_engine.specs.Underway.{CanGoOn, CanJudge, IsInHand};

use crate::rounds::{Free, Pending, Router, UnderWay, judge, put_and_read};
use crate::tasks::{Means, Task};
use aftr_base::OutOfMemory;
use aftr_io::{Fault, Outside, Reading, Writing};
use capture_io::{CaptureReader, Records, Round};
use hand_over::{Answerer, Asker, Protocol};
use std::alloc::Global;
use std::mem;
use std::sync::Wait;
use std::thread::{Threads, join_mut};
use worker_gate::Gate;

/// A round that is to be judged, and room for what it writes.
#[derive(Drop)]
pub struct Assignment {
    pub round: Round,
    pub room: Pending,
}

/// What became of it.
#[derive(Drop)]
pub struct Report {
    /// The round's records, for the room that they have.
    pub records: Records,
    pub made: Pending,
    pub judged: Result<(), OutOfMemory>,
}

/// Each round goes on behind the one before it.
pub struct InOrder;

impl Protocol<Assignment> for InOrder {
    ghost allows = { λ before next. IsInHand (reached before) next.round };
}

/// What the two sides begin with.
#[derive(Drop)]
pub struct Sides<'a> {
    pub free: Free,
    pub asker: Asker<'a, Assignment, Report, InOrder>,
    pub answerer: Answerer<'a, Assignment, Report, InOrder>,
}

// Judges rounds as they come, until no more comes or one could not be judged.
fn judge_rounds<R: Threads + Wait + Sync, G: Gate + Sync>(
    means: &Means<'_, R, G>,
    task: Task<'_>,
    router: &mut Router,
    answerer: &mut Answerer<'_, Assignment, Report, InOrder>,
)
    requires can { CanGoOn (setup_of task) router.old.shift router.old.progress }
    requires first { router.old.progress.number ≡ 0 }
    requires nothing { (taken answerer.old ≡ []) × (given answerer.old ≡ []) }
    ensures same { SameAnswerer answerer.old answerer.new }
    ensures judged { HaveTaken (setup_of task.entry) router.old router.new (taken answerer.new) (given answerer.new) }
    ensures all { length (given answerer.new) ≡ length (taken answerer.new) }
{
    if !answerer.begin() {
        return;
    }
    'rounds: for _ in means.rt.forever() {
        let Some(assignment) = answerer.take(means.rt) else {
            return;
        };
        let Assignment { round, room } = assignment;
        let mut made = room;
        let judged = judge(means, task, router, &round, &mut made);
        let went = judged.is_ok();
        let Round { records, .. } = round;
        let report = Report {
            records,
            made,
            judged,
        };
        answerer.answer(means.rt, report);
        if !went {
            return;
        }
    }
    unreachable!()
}

// A round with no records, in the place of one that went over.
fn no_round(alloc: Global, number: u32) -> Round {
    Round {
        records: Records::new(alloc),
        number,
        ending: None,
    }
}

// Hands rounds over until the last one is under way: while one is judged, what the round before wrote is put into the outputs, and
// then the next one is read. Where the other side does not begin, nothing is done.
fn fetch_rounds<R: Threads + Wait + Sync, I: Reading, O: Writing, C: CaptureReader, G: Gate + Sync>(
    means: &Means<'_, R, G>,
    files: &mut Outside<I, O>,
    task: Task<'_>,
    reader: &mut C,
    under_way: &mut UnderWay,
    free: Free,
    asker: &mut Asker<'_, Assignment, Report, InOrder>,
) -> Result<Free, Fault>
    requires apart { AreApart (setup_of task).run }
    requires ready { C.ready reader.old under_way.old.round.number }
    requires in_hand { IsInHand 0 under_way.old.round }
    requires nothing { (asked asker.old ≡ []) × (heard asker.old ≡ []) }
    ensures same { SameAsker asker.old asker.new }
    ensures asks { Asks (setup_of task.entry) (λ r. spot (C.stands r) (C.left r) (C.at r)) (λ r n. C.ready r n)
        (standing (halves (I.readable files.old.reading) (O.written files.old.writing)) reader.old under_way.old.round under_way.old.pending)
        (standing (halves (I.readable files.new.reading) (O.written files.new.writing)) reader.new under_way.new.round under_way.new.pending) (asked asker.new) (heard asker.new) result }
    ensures all { length (heard asker.new) ≡ length (asked asker.new) }
{
    if !asker.wait_for_answerer(means.rt) {
        return Ok(free);
    }
    let Free { records, made } = free;
    let mut spare = records;
    let mut room = made;
    'rounds: for _ in means.rt.forever() {
        if under_way.round.ending.is_some() {
            return Ok(Free {
                records: spare,
                made: room,
            });
        }
        let number = under_way.round.number;
        let round = mem::replace(&mut under_way.round, no_round(means.alloc, number));
        asker.ask(means.rt, Assignment { round, room });
        let next = put_and_read(
            means.alloc,
            files,
            task,
            reader,
            &under_way.pending,
            number,
            &mut spare,
        );
        let Report {
            records,
            made,
            judged,
        } = asker.hear(means.rt);
        let next = next?;
        judged?;
        spare = Some(records);
        room = mem::replace(&mut under_way.pending, made);
        under_way.round = next;
    }
    unreachable!()
}

/// Takes rounds until the last one is under way: a thread judges them, while the calling one has the files. Where no thread can be
/// made, or it does not begin, nothing is done.
pub fn rounds_beside<
    R: Threads + Wait + Sync,
    I: Reading,
    O: Writing,
    C: CaptureReader,
    G: Gate + Sync,
>(
    means: &Means<'_, R, G>,
    files: &mut Outside<I, O>,
    task: Task<'_>,
    reader: &mut C,
    router: &mut Router,
    under_way: &mut UnderWay,
    sides: Sides<'_>,
) -> Result<Free, Fault>
    requires apart { AreApart (setup_of task).run }
    requires can { CanJudge (setup_of task) router.old under_way.old.round }
    requires first { router.old.progress.number ≡ 0 }
    requires ready { C.ready reader.old under_way.old.round.number }
    requires line { IsNewLine sides.asker sides.answerer }
    ensures { Go (setup_of task.entry) (λ r. spot (C.stands r) (C.left r) (C.at r)) (λ r n. C.ready r n)
        (standing (halves (I.readable files.old.reading) (O.written files.old.writing)) reader.old under_way.old.round under_way.old.pending)
        (standing (halves (I.readable files.new.reading) (O.written files.new.writing)) reader.new under_way.new.round under_way.new.pending) router.old router.new result }
{
    let Sides {
        free,
        mut asker,
        mut answerer,
    } = sides;
    if under_way.round.ending.is_some() {
        return Ok(free);
    }
    let mut free = Some(free);
    let free = &mut free;
    let asker = &mut asker;
    let answerer = &mut answerer;
    let mut judging = ||
        requires { IsSync R.row × (IsSync G.row × (CanGoOn (setup_of task) router.now.shift router.now.progress
            × ((router.now.progress.number ≡ 0) × ((taken answerer.now ≡ []) × (given answerer.now ≡ []))))) }
        ensures { SameAnswerer answerer.entry.now answerer.exit.now
            × (HaveTaken (setup_of task.entry) router.entry.now router.exit.now (taken answerer.exit.now) (given answerer.exit.now)
            × (length (given answerer.exit.now) ≡ length (taken answerer.exit.now))) }
    { judge_rounds(means, task, router, answerer) };
    let mut fetching = || -> Result<Free, Fault>
        requires { AreApart (setup_of task).run × (C.ready reader.now under_way.now.round.number × (IsInHand 0 under_way.now.round
            × (((asked asker.now ≡ []) × (heard asker.now ≡ [])) × IsSome free.now))) }
        ensures { SameAsker asker.entry.now asker.exit.now
            × (Asks (setup_of task.entry) (λ r. spot (C.stands r) (C.left r) (C.at r)) (λ r n. C.ready r n)
            (standing (halves (I.readable files.entry.now.reading) (O.written files.entry.now.writing)) reader.entry.now under_way.entry.now.round under_way.entry.now.pending)
            (standing (halves (I.readable files.exit.now.reading) (O.written files.exit.now.writing)) reader.exit.now under_way.exit.now.round under_way.exit.now.pending)
            (asked asker.exit.now) (heard asker.exit.now) result
            × (length (heard asker.exit.now) ≡ length (asked asker.exit.now))) }
    {
        let Some(free) = free.take() else {
            unreachable!()
        };
        let fetched = fetch_rounds(means, files, task, reader, under_way, free, asker);
        asker.end();
        fetched
    };
    let (_, fetched) = join_mut(means.rt, &mut judging, &mut fetching);
    asker.compare(answerer);
    fetched
}
