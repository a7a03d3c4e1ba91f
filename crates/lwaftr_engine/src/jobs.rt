// The run that the command words ask for.
ghost use Rattle.std.specs.Prelude.{◌≡◌, [], ◌∷◌, All, IfOk, None, length};
ghost use Rattle.aftr_io.specs.Contents.{Moves, Told, content};
ghost use Rattle.binding_rules.specs.Tables.{BindingTable};
ghost use Rattle.lwaftr_engine.specs.Causes.{FailsIn, HasCause};
ghost use Rattle.lwaftr_engine.specs.Loads.{AreFitFor};
ghost use Rattle.lwaftr_engine.specs.Planned.{IsAtFirst, IsMade, IsRunJob, LeavesMade, done_status, ended_status, some_slot_refused, unopened_status};
ghost use Rattle.lwaftr_engine.specs.Progress.{KeepsRest, setup_of, spot};
ghost use Rattle.lwaftr_engine.specs.Promises.{HasHistory, KeepsRun};
ghost use Rattle.lwaftr_engine.specs.Worlds.{halves, world};
ghost use Rattle.table_words.specs.Layout.{AreCompiled, IsCompiled};

use crate::loads::loads_in;
use crate::run::run_capture;
use crate::status::Status;
use crate::table_file::{NoTable, table_in};
use crate::tasks::{Means, Task};
use aftr_base::{OutOfMemory, WordList};
use aftr_io::{Fault, Outside, Reading, Sink, Writing};
use aftr_text::RunJob;
use area_swap::History;
use binding_file::one_table;
use capture_io::{CaptureError, CaptureReader, Ending, one_reading};
use pcapng_io::{NgReader, Reader};
use reload_plan::{Load, Made, Slot, plan};
use std::alloc::Global;
use std::sync::Wait;
use std::thread::Threads;
use swap_core::Plan;
use table_words::compile;
use worker_gate::Gate;

// The plan of a first table, by its words, and loads.
fn made_of(
    alloc: Global,
    first: WordList,
    loads: Vec<Load>,
    job: &RunJob,
) -> Result<Made, OutOfMemory>
    requires job { IsRunJob job.now }
    requires first { AreCompiled first }
    requires fit { AreFitFor job.now.loads loads.items }
    ensures made { (t : BindingTable) → IsCompiled t first → IfOk result (λ made. IsMade t loads.items made) }
    ensures compiled { IfOk result (λ made. All AreCompiled made.plan.tables) }
    ensures count { IfOk result (λ made. length made.slots ≡ length job.now.loads) }
{
    plan(alloc, first, loads)
}

// Whether some load was refused.
fn has_refused(slots: &[Slot]) -> bool
    ensures { result ≡ some_slot_refused slots.now }
{
    let mut i = 0;
    'slots: while i < slots.len() {
        if let Slot::Refused(_) = slots[i] {
            return true;
        }
        i += 1;
    }
    false
}

// The status of a capture that cannot be opened.
fn unopened(error: CaptureError) -> Status
    ensures { result ≡ unopened_status error }
{
    match error {
        CaptureError::Bad(refusal) => Status::BadCapture(refusal),
        CaptureError::ReadFault => Status::ReadFault,
        CaptureError::OutOfMemory => Status::OutOfMemory,
    }
}

// The status of a run whose records ended so.
fn ended_status(ended: Result<Ending, Fault>, refused: bool) -> Status
    ensures { result ≡ ended_status ended refused }
{
    match ended {
        Ok(Ending::End) => done_status(refused),
        Ok(Ending::Bad(refusal)) => Status::BadCapture(refusal),
        Ok(Ending::ReadFault) => Status::ReadFault,
        Err(Fault::Failed) => Status::WriteFault,
        Err(Fault::OutOfMemory) => Status::OutOfMemory,
    }
}

fn done_status(refused: bool) -> Status
    ensures { result ≡ done_status refused }
{
    if refused {
        Status::DoneRefused
    } else {
        Status::Done
    }
}

// What a run does once its tables are read and its capture is opened: the reader stands before the first record.
fn run_opened<
    R: Threads + Wait + Sync,
    I: Reading,
    O: Writing,
    S: Sink,
    C: CaptureReader,
    G: Gate + Sync,
>(
    means: &Means<'_, R, G>,
    files: &mut Outside<I, O>,
    out: &mut S,
    task: Task<'_>,
    plan: Plan,
    reader: &mut C,
    history: &mut Option<History>,
) -> Status
    requires job { IsRunJob (setup_of task).run }
    requires compiled { All AreCompiled plan.tables }
    requires count { length (setup_of task).slots ≡ length (setup_of task).run.loads }
    requires ready { C.ready reader.old 0 }
    requires opened { Told (I.readable files.old.reading).held (λ m. IsAtFirst (spot (C.stands reader.old) (C.left reader.old) (C.at reader.old))
        (setup_of task).form (setup_of task).written (content m (setup_of task).run.input)) }
    requires none { history.old ≡ None }
    ensures left { Told (I.readable files.old.reading).held (λ inputs.
        Moves (O.written files.old.writing).held (O.written files.new.writing).held (LeavesMade (setup_of task.entry).run plan (setup_of task.entry).slots result
        (world (I.readable files.old.reading) (O.written files.old.writing) (S.out out.old) (S.faults out.old))
        (world (I.readable files.new.reading) (O.written files.new.writing) (S.out out.new) (S.faults out.new)) history.new inputs)) }
    ensures cause { HasCause result (world (I.readable files.old.reading) (O.written files.old.writing) (S.out out.old) (S.faults out.old))
        (world (I.readable files.new.reading) (O.written files.new.writing) (S.out out.new) (S.faults out.new)) }
    ensures failed_read { FailsIn ((setup_of task.entry).run.input ∷ []) result (I.readable files.old.reading).last (I.readable files.new.reading).last }
    ensures rest { KeepsRest (setup_of task.entry).run
        (halves (I.readable files.old.reading) (O.written files.old.writing)) (halves (I.readable files.new.reading) (O.written files.new.writing)) }
    ensures has_history { HasHistory (setup_of task.entry).run.input result (I.readable files.new.reading).last (S.out out.old) (S.out out.new) history.new }
{
    let refused = has_refused(task.slots);
    let ended = run_capture(means, files, out, task, plan, reader, history);
    ended_status(ended, refused)
}

/// Opens the capture, which may be of either format, and takes its records: the steps of a run behind the reading of its tables.
pub fn run_made<R: Threads + Wait + Sync, I: Reading, O: Writing, S: Sink, G: Gate + Sync>(
    means: &Means<'_, R, G>,
    files: &mut Outside<I, O>,
    out: &mut S,
    job: &RunJob,
    made: Made,
    history: &mut Option<History>,
) -> Status
    requires job { IsRunJob job.now }
    requires compiled { All AreCompiled made.plan.tables }
    requires count { length made.slots ≡ length job.now.loads }
    requires none { history.old ≡ None }
    ensures left { Told (I.readable files.old.reading).held (λ inputs.
        Moves (O.written files.old.writing).held (O.written files.new.writing).held (LeavesMade job.now made.plan made.slots result
        (world (I.readable files.old.reading) (O.written files.old.writing) (S.out out.old) (S.faults out.old))
        (world (I.readable files.new.reading) (O.written files.new.writing) (S.out out.new) (S.faults out.new)) history.new inputs)) }
    ensures cause { HasCause result (world (I.readable files.old.reading) (O.written files.old.writing) (S.out out.old) (S.faults out.old))
        (world (I.readable files.new.reading) (O.written files.new.writing) (S.out out.new) (S.faults out.new)) }
    ensures failed_read { FailsIn (job.now.input ∷ []) result (I.readable files.old.reading).last (I.readable files.new.reading).last }
    ensures rest { KeepsRest job.now
        (halves (I.readable files.old.reading) (O.written files.old.writing)) (halves (I.readable files.new.reading) (O.written files.new.writing)) }
    ensures has_history { HasHistory job.now.input result (I.readable files.new.reading).last (S.out out.old) (S.out out.new) history.new }
{
    let Made { plan, slots } = made;
    match Reader::open(means.alloc, &mut files.reading, job.input.as_str()) {
        Ok(mut reader) => {
            let task = Task {
                job,
                slots: slots.as_slice(),
                form: reader.form(),
                written: reader.written(),
            };
            run_opened(means, files, out, task, plan, &mut reader, history)
        }
        Err(error) => unopened(error),
    }
}

/// Does the run.
pub fn run_job<R: Threads + Wait + Sync, I: Reading, O: Writing, S: Sink, G: Gate + Sync>(
    means: &Means<'_, R, G>,
    job: &RunJob,
    files: &mut Outside<I, O>,
    out: &mut S,
    history: &mut Option<History>,
) -> Status
    requires job { IsRunJob job.now }
    requires none { history.old ≡ None }
    ensures { KeepsRun job.now result (world (I.readable files.old.reading) (O.written files.old.writing) (S.out out.old) (S.faults out.old))
        (world (I.readable files.new.reading) (O.written files.new.writing) (S.out out.new) (S.faults out.new)) history.new }
{
    // Laws, and no steps: a table file has one answer, and a capture one reading.
    one_table();
    one_reading();
    NgReader::one_left();
    let alloc = means.alloc;
    let table = match table_in(alloc, &mut files.reading, job.table.as_str()) {
        Ok(table) => table,
        Err(NoTable::ReadFault) => return Status::ReadFault,
        Err(NoTable::Refused(refusal)) => return Status::BadTable(refusal),
        Err(NoTable::OutOfMemory) => return Status::OutOfMemory,
    };
    let Ok(first) = compile(alloc, &table) else {
        return Status::OutOfMemory;
    };
    drop(table);
    let loads = match loads_in(
        means.rt,
        alloc,
        &mut files.reading,
        job.loads.as_slice(),
        job.workers,
    ) {
        Ok(loads) => loads,
        Err(Fault::Failed) => return Status::ReadFault,
        Err(Fault::OutOfMemory) => return Status::OutOfMemory,
    };
    let Ok(made) = made_of(alloc, first, loads, job) else {
        return Status::OutOfMemory;
    };
    run_made(means, files, out, job, made, history)
}
