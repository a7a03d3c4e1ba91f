// The demonstration: a run over generated traffic.
ghost use Rattle.std.specs.Prelude.{◌≡◌, ◌⊎◌, ◌≤◌, IfOk, None};
ghost use Rattle.aftr_io.specs.Outside.{Readable, Written as WrittenFiles};
ghost use Rattle.lwaftr_engine.specs.Causes.{HasOneCause};
ghost use Rattle.lwaftr_engine.specs.Demos.{HasDemoHistory, IsDemoLine, half_way};
ghost use Rattle.lwaftr_engine.specs.Questions.{Answers};
ghost use Rattle.lwaftr_engine.specs.Shows.{IsDemoJob, IsDemoMade, IsShow};
ghost use Rattle.lwaftr_engine.specs.Worlds.{world};

use crate::jobs::run_made;
use crate::queries::put_line;
use crate::status::Status;
use crate::tasks::Means;
use aftr_base::{OutOfMemory, Text};
use aftr_io::{MemSink, Outside, QuietReading, QuietWriting, Sink};
use aftr_text::{LoadList, LoadWords, RunJob};
use area_swap::History;
use binding_rules::Table;
use capture_io::{one_reading, written_is_read};
use reload_plan::{Load, Loaded, Made, plan};
use std::alloc::Global;
use std::sync::Wait;
use std::thread::Threads;
use swap_core::Window;
use table_words::compile;
use traffic_gen::traffic_of;
use worker_gate::Gate;

/// All that the run of the demonstration is told.
#[derive(Drop)]
struct Show {
    /// They hold the capture.
    files: Outside<QuietReading, QuietWriting>,
    job: RunJob,
    made: Made,
}

// When the second table comes into force.
fn middle_of(count: u32) -> Window
    ensures { result ≡ half_way count }
{
    let half = count / 2;
    Window {
        earliest: half,
        latest: half,
    }
}

// The run's names. No file outside has them, since it runs over files of its own.
fn demo_job(alloc: Global, count: u32, workers: u32) -> Result<RunJob, OutOfMemory>
    requires most { count ≤ 1000000 }
    requires some_worker { 1 ≤ workers }
    requires few_workers { workers ≤ 16 }
    ensures { IfOk result (IsDemoJob count) }
{
    let mut loads = Vec::new(alloc);
    loads.push(LoadWords {
        window: middle_of(count),
        name: Text::copy(alloc, "second")?,
    })?;
    Ok(RunJob {
        input: Text::copy(alloc, "in")?,
        output: Text::copy(alloc, "out")?,
        verdicts: Text::copy(alloc, "verdicts")?,
        versions: Text::copy(alloc, "versions")?,
        table: Text::copy(alloc, "first")?,
        loads: LoadList::of(loads),
        workers,
        errors: None,
    })
}

// The plan of the two tables.
fn demo_made(alloc: Global, count: u32, first: &Table, second: &Table) -> Result<Made, OutOfMemory>
    requires most { count ≤ 1000000 }
    ensures { IfOk result (IsDemoMade count first.now second.now) }
{
    let mut loads = Vec::new(alloc);
    loads.push(Load {
        window: middle_of(count),
        loaded: Loaded::Words(compile(alloc, second)?),
    })?;
    plan(alloc, compile(alloc, first)?, loads)
}

fn prepared(alloc: Global, seed: u64, count: u32, workers: u32) -> Result<Show, OutOfMemory>
    requires some { 1 ≤ count }
    requires most { count ≤ 1000000 }
    requires some_worker { 1 ≤ workers }
    requires few_workers { workers ≤ 16 }
    ensures { IfOk result (IsShow seed count) }
{
    let traffic = traffic_of(alloc, seed, count)?;
    let job = demo_job(alloc, count, workers)?;
    let made = demo_made(alloc, count, &traffic.first, &traffic.second)?;
    let mut reading = QuietReading::new(alloc);
    reading.set(alloc, job.input.as_str(), traffic.capture.as_slice())?;
    let writing = QuietWriting::new(alloc);
    let files = Outside { reading, writing };
    Ok(Show { files, job, made })
}

/// Runs over the generated traffic of a seed, in files of its own, and puts the summary.
pub fn show_demo<R: Threads + Wait + Sync, S: Sink, G: Gate + Sync>(
    means: &Means<'_, R, G>,
    seed: u64,
    count: u32,
    workers: u32,
    out: &mut S,
    history: &mut Option<History>,
) -> Status
    requires some { 1 ≤ count }
    requires most { count ≤ 1000000 }
    requires some_worker { 1 ≤ workers }
    requires few_workers { workers ≤ 16 }
    requires none { history.old ≡ None }
    ensures line { Answers (IsDemoLine seed count) result (S.out out.old) (S.out out.new) }
    ensures cause { (reading : Readable) (writing : WrittenFiles) →
        HasOneCause result (world reading writing (S.out out.old) (S.faults out.old)) (world reading writing (S.out out.new) (S.faults out.new)) }
    ensures due { (result ≡ Status.Done) ⊎ ((result ≡ Status.WriteFault) ⊎ (result ≡ Status.OutOfMemory)) }
    ensures history { HasDemoHistory seed count result history.new }
{
    // Laws, and no steps: a capture has one reading, and what is written is read.
    one_reading();
    written_is_read();
    let alloc = means.alloc;
    let Ok(show) = prepared(alloc, seed, count, workers) else {
        return Status::OutOfMemory;
    };
    let Show {
        mut files,
        job,
        made,
    } = show;
    let mut line = MemSink::new(alloc);
    let mut closed = None;
    match run_made(means, &mut files, &mut line, &job, made, &mut closed) {
        Status::Done => {}
        // Files and a sink in memory fail for want of memory alone.
        _ => return Status::OutOfMemory,
    }
    match put_line(alloc, out, line.bytes()) {
        Status::Done => {
            *history = closed;
            Status::Done
        }
        fault => fault,
    }
}
