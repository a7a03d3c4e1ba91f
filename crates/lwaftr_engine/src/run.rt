// The run, from its table files to the summary.
ghost use Rattle.std.specs.Prelude.{◌≡◌, ◌≤◌, All, IfOk, IfSome, None, Some, length};
ghost use Rattle.aftr_io.specs.Contents.{Moves, Told};
ghost use Rattle.aftr_io.specs.Outside.{has_failed};
ghost use Rattle.aftr_text.specs.Jobs.{AreApart, IsRate, IsWorkers};
ghost use Rattle.capture_io.specs.Refusals.{EndsInRecords};
ghost use Rattle.capture_io.specs.Rounds.{is_cut};
ghost use Rattle.hand_over.specs.Lines.{IsNewLine};
ghost use Rattle.lwaftr_engine.specs.Finishing.{HasHistoryBy};
ghost use Rattle.lwaftr_engine.specs.Planned.{LeavesOpened};
ghost use Rattle.lwaftr_engine.specs.Progress.{KeepsRest, ReadsOf, setup_of, spot};
ghost use Rattle.lwaftr_engine.specs.Underway.{IsAtStart, IsFirst, IsNothing};
ghost use Rattle.lwaftr_engine.specs.Worlds.{halves, world};
ghost use Rattle.output_journal.specs.Ends.{OneRises};
ghost use Rattle.table_words.specs.Layout.{AreCompiled};

use crate::beside::Sides;
use crate::finishing::finish;
use crate::known::run_laws;
use crate::outputs::open_outputs;
use crate::rounds::{Free, Pending, Progress, Room, Router, run_records};
use crate::shift::{begin_shift, end_shift};
use crate::tasks::{Means, Task};
use aftr_base::OutOfMemory;
use aftr_io::{Fault, Outside, Reading, Sink, Writing};
use aftr_text::NO_TOTALS;
use area_swap::History;
use capture_io::{CaptureReader, Ending, Form, Records};
use hand_over::{Bells, line};
use item_stage::Stage;
use run_output::{Rendered, new_limit};
use std::alloc::Global;
use std::sync::Wait;
use std::thread::Threads;
use swap_core::Plan;
use worker_gate::Gate;

/// What a round writes is made in so many parts, each by a thread of its own where there are records for it.
const MOST_PARTS: u32 = 2;

// How far a run has come before its first record.
fn at_first(alloc: Global, form: Form, errors: Option<u32>) -> Result<Progress, OutOfMemory>
    requires rate { IfSome errors IsRate }
    ensures { IfOk result (IsFirst form errors) }
{
    Ok(Progress {
        stage: Stage::new(alloc, form)?,
        number: 0,
        totals: NO_TOTALS,
        limit: new_limit(errors),
        printed: 0,
    })
}

// What a run keeps, before its first record.
fn router_of(alloc: Global, task: Task<'_>, plan: Plan) -> Result<Router, OutOfMemory>
    requires workers { IsWorkers (setup_of task).run.workers }
    requires errors { IfSome (setup_of task).run.errors IsRate }
    requires loads { length (setup_of task).slots ≡ length (setup_of task).run.loads }
    requires compiled { All AreCompiled plan.tables }
    ensures start { IfOk result (IsAtStart (setup_of task.entry)) }
    ensures plan { IfOk result (λ router. router.shift.areas.plan ≡ plan) }
{
    Ok(Router {
        shift: begin_shift(alloc, plan, task.job.workers)?,
        progress: at_first(alloc, task.form, task.job.errors)?,
    })
}

// The lists of the first rounds, and the line between two sides.
fn first_room<'a>(alloc: Global, workers: u32, bells: &'a Bells) -> Result<Room<'a>, OutOfMemory>
    requires some_one { 1 ≤ workers }
    requires few { workers ≤ 16 }
    ensures nothing { IfOk result (λ room. IsNothing room.pending) }
    ensures line { IfOk result (λ room. IsNewLine room.sides.asker room.sides.answerer) }
{
    let (asker, answerer) = line(alloc, bells)?;
    let free = Free {
        records: None,
        made: no_pending(alloc, workers)?,
    };
    Ok(Room {
        records: Records::new(alloc),
        pending: no_pending(alloc, workers)?,
        sides: Sides {
            free,
            asker,
            answerer,
        },
    })
}

// Room for what a round writes, with nothing in it.
fn no_pending(alloc: Global, workers: u32) -> Result<Pending, OutOfMemory>
    requires some_one { 1 ≤ workers }
    requires few { workers ≤ 16 }
    ensures { IfOk result IsNothing }
{
    Ok(Pending {
        rendered: Rendered::new(alloc, workers.min(MOST_PARTS))?,
        versions: String::new(alloc),
    })
}

/// Makes the outputs, takes all records, and writes what is left: the steps of a run from the opening of its outputs on. The
/// reader stands before the first record. However it ends, the areas are closed; they become the history where all is written.
pub fn run_capture<
    R: Threads + Wait + Sync,
    I: Reading,
    O: Writing,
    S: Sink,
    C: CaptureReader,
    G: Gate + Sync,
>(
    means: &Means<'_, R, G>,
    files: &mut Outside<I, O>,
    out: &mut S,
    task: Task<'_>,
    plan: Plan,
    reader: &mut C,
    history: &mut Option<History>,
) -> Result<Ending, Fault>
    requires apart { AreApart (setup_of task).run }
    requires workers { IsWorkers (setup_of task).run.workers }
    requires errors { IfSome (setup_of task).run.errors IsRate }
    requires loads { length (setup_of task).slots ≡ length (setup_of task).run.loads }
    requires compiled { All AreCompiled plan.tables }
    requires ready { C.ready reader.old 0 }
    requires none { history.old ≡ None }
    ensures left { Told (I.readable files.old.reading).held (λ inputs. Moves (O.written files.old.writing).held (O.written files.new.writing).held (LeavesOpened (setup_of task.entry) plan
        (spot (C.stands reader.old) (C.left reader.old) (C.at reader.old)) result
        (world (I.readable files.old.reading) (O.written files.old.writing) (S.out out.old) (S.faults out.old))
        (world (I.readable files.new.reading) (O.written files.new.writing) (S.out out.new) (S.faults out.new)) history.new inputs)) }
    ensures history { HasHistoryBy result (S.out out.old) (S.out out.new) history.new }
    ensures in_records { IfOk result (λ ending. EndsInRecords (Some ending)) }
    ensures reads { IfOk result (λ ending. ReadsOf (is_cut (Some ending)) (setup_of task.entry).run.input (I.readable files.old.reading) (I.readable files.new.reading)) }
    ensures rest { KeepsRest (setup_of task.entry).run
        (halves (I.readable files.old.reading) (O.written files.old.writing)) (halves (I.readable files.new.reading) (O.written files.new.writing)) }
    ensures writing { OneRises (has_failed result) (O.written files.old.writing).spoiled (O.written files.new.writing).spoiled (S.faults out.old) (S.faults out.new) }
{
    // Laws, and no steps: whatever is left has some ending, and what holds of every run and plan.
    C::some_left();
    run_laws();
    plan.len();
    let alloc = means.alloc;
    let mut router = router_of(alloc, task, plan)?;
    let bells = Bells::new();
    let room = first_room(alloc, task.job.workers, &bells)?;
    open_outputs(alloc, &mut files.writing, task.job, task.written)?;
    let taken = run_records(means, files, task, reader, &mut router, room);
    let Router {
        shift,
        progress,
        ..
    } = router;
    let closed = end_shift(shift);
    let ending = taken?;
    finish(
        alloc,
        &mut files.writing,
        out,
        task,
        &progress,
        closed.points(),
    )?;
    *history = Some(closed);
    Ok(ending)
}
