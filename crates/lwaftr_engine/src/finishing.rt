// What a run writes when its records have ended.
ghost use Rattle.std.specs.Option.{option_map};
ghost use Rattle.std.specs.Prelude.{◌≡◌, ◌++◌, ◌<◌, ◌^◌, ◌≤◌, IfErr, IfOk, List, OnOk, drop, false, flat_map, length, string_bytes};
ghost use Rattle.aftr_io.specs.Contents.{Moves};
ghost use Rattle.aftr_io.specs.Outside.{has_failed};
ghost use Rattle.aftr_text.specs.Jobs.{AreApart};
ghost use Rattle.aftr_text.specs.Lines.{ended_text};
ghost use Rattle.capture_io.specs.declared.forms.Rec.{Rec as Record};
ghost use Rattle.item_stage.specs.Items.{unfinished_of};
ghost use Rattle.item_stage.specs.Stages.{Stands};
ghost use Rattle.lwaftr_engine.specs.Finishing.{Finishes, FinishesPart, last_line};
ghost use Rattle.lwaftr_engine.specs.Progress.{loads_of, setup_of};
ghost use Rattle.lwaftr_engine.specs.Runs.{OthersKept};
ghost use Rattle.output_journal.specs.Ends.{OneRises};
ghost use Rattle.run_output.specs.Counting.{with_version};
ghost use Rattle.run_output.specs.Versions.{load_lines};

use crate::outputs::names_of;
use crate::rounds::Progress;
use crate::tasks::Task;
use aftr_base::OutOfMemory;
use aftr_io::{Fault, Sink, Writing};
use aftr_text::{Totals, summary};
use item_stage::Stage;
use output_journal::{Last, write_last};
use run_output::{push_ended_lines, push_last_versions};
use std::alloc::Global;

// The lines of the datagrams that were never whole.
fn unfinished_lines(alloc: Global, stage: &Stage) -> Result<Vec<u8>, OutOfMemory>
    ensures { IfOk result (λ lines. (taken : List Record) → Stands stage.now taken →
        lines.items ≡ flat_map (ended_text false) (unfinished_of stage.now.form taken)) }
{
    let mut lines = Vec::new(alloc);
    let unfinished = stage.unfinished(alloc)?;
    push_ended_lines(&mut lines, false, unfinished.as_slice())?;
    Ok(lines)
}

// The lines of the loads that were not told yet.
fn last_versions(
    alloc: Global,
    task: Task<'_>,
    points: &[u32],
    printed: usize,
) -> Result<String, OutOfMemory>
    requires same { length (setup_of task).slots ≡ length (setup_of task).run.loads }
    requires inside { printed ≤ length (setup_of task).slots }
    ensures { IfOk result (λ lines. string_bytes lines ≡ load_lines points.now (drop printed (loads_of (setup_of task.entry)))) }
{
    let mut lines = String::new(alloc);
    push_last_versions(
        alloc,
        &mut lines,
        task.job.loads.as_slice(),
        task.slots,
        points,
        printed,
    )?;
    Ok(lines)
}

// The totals of a run with so many points.
fn totals_with(totals: Totals, points: &[u32]) -> Totals
    requires { length points.now < 2 ^ 32 }
    ensures { result ≡ with_version totals (length points.now) }
{
    Totals {
        version: points.len() as u32,
        ..totals
    }
}

/// Writes what is left when the records have ended: the lines of the loads that were not told yet, those of unfinished datagrams,
/// and the summary.
pub fn finish<O: Writing, S: Sink>(
    alloc: Global,
    files: &mut O,
    out: &mut S,
    task: Task<'_>,
    progress: &Progress,
    points: &[u32],
) -> Result<(), Fault>
    requires apart { AreApart (setup_of task).run }
    requires same { length (setup_of task).slots ≡ length (setup_of task).run.loads }
    requires inside { progress.now.printed ≤ length (setup_of task).slots }
    requires few { length points.now < 2 ^ 32 }
    ensures finished { IfOk result (λ _. Moves (O.written files.old).held (O.written files.new).held
        (Finishes (setup_of task.entry) progress.now points.now (S.out out.old) (S.out out.new))) }
    ensures cut { IfErr result (λ _. Moves (O.written files.old).held (O.written files.new).held
        (FinishesPart (setup_of task.entry) progress.now points.now (has_failed result) (O.written files.old).spoiled (O.written files.new).spoiled
        (S.out out.old) (S.out out.new))) }
    ensures others { Moves (O.written files.old).held (O.written files.new).held (OthersKept (setup_of task.entry).run) }
    ensures summary { OnOk result (S.out out.new ≡ option_map (λ taken. taken ++ last_line progress.now points.now) (S.out out.old)) }
    ensures writing { OneRises (has_failed result) (O.written files.old).spoiled (O.written files.new).spoiled (S.faults out.old) (S.faults out.new) }
{
    let versions = last_versions(alloc, task, points, progress.printed)?;
    let lines = unfinished_lines(alloc, &progress.stage)?;
    let line = summary(alloc, totals_with(progress.totals, points))?;
    let last = Last {
        versions: versions.as_bytes(),
        verdicts: &lines,
        summary: line.as_str().as_bytes(),
    };
    write_last(alloc, files, out, names_of(task.job), last)
}
