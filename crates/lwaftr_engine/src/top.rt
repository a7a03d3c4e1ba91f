// The program's call.
ghost use Rattle.std.specs.Prelude.{◌≡◌, ◌⊎◌, ℕ, List, None};
ghost use Rattle.aftr_base.specs.declared.numbers.V4.{V4 as Address};
ghost use Rattle.aftr_text.specs.Jobs.{AskNothing, Asks};
ghost use Rattle.aftr_text.specs.Parts.{texts};
ghost use Rattle.aftr_text.specs.declared.jobs.Job.TheVariants as asked;
ghost use Rattle.aftr_text.specs.declared.jobs.RunJob.{RunJob as Run};
ghost use Rattle.lwaftr_engine.specs.Causes.{HasCause};
ghost use Rattle.lwaftr_engine.specs.Demos.{KeepsDemo};
ghost use Rattle.lwaftr_engine.specs.Migrations.{KeepsMigration};
ghost use Rattle.lwaftr_engine.specs.Promises.{KeepsRun};
ghost use Rattle.lwaftr_engine.specs.Questions.{IsOwnerLine, IsValidLine, KeepsQuestion};
ghost use Rattle.lwaftr_engine.specs.Worlds.{world};

use crate::at_once::{AtOnce, do_at_once};
use crate::demo::show_demo;
use crate::jobs::run_job;
use crate::status::Status;
use crate::tasks::Means;
use aftr_io::{Outside, Reading, Sink, Writing};
use area_swap::History;
use std::alloc::Global;
use std::sync::Wait;
use std::thread::Threads;
use worker_gate::Gate;

/// Does the job that the command words ask for. The words are those behind the program's name: `run`, `check`, `who`, `demo` or
/// `migrate` with what belongs to it, as `aftr_text::read_words` reads them. Other words are `Usage`, or `OutOfMemory`
/// where there is no room to read them, and then nothing is touched.
///
/// A run reads the first table (`ReadFault`, `BadTable`), then the loads' tables in their order (`ReadFault`; a refused one is
/// noted), then the file header of the capture, which may be a classic one or pcapng (`ReadFault`, `BadCapture`). Up to here
/// nothing is written. Then OUT, VERDICTS and VERSIONS are made, in this order, and the records are taken in rounds: read, put
/// together, judged by the workers beside the one that brings the next tables into force, and written: the new lines of tables,
/// the packets, the lines of records, in this order. A round is read before the one in front of it is written. Records end with
/// the capture, with bytes that are no record (`BadCapture`), or with a read that failed (`ReadFault`); all records before that
/// are written, and one line is put to `out`: the summary. Then the closed areas are handed out as `history`. A file or `out`
/// that cannot be written (`WriteFault`), or memory that is not there (`OutOfMemory`), ends the call at once, whatever was
/// written by then. A run that ends well is `DoneRefused` where a load was refused, else `Done`.
///
/// `check` and `who` read a table file (`ReadFault`, `BadTable`), write no file, and put one line to `out` (`WriteFault`): how many
/// bindings a valid file has, or the end of the tunnel of the subscriber who owns the port of the address, as RFC 5952 writes it,
/// or `none`. `migrate` writes the table anew in the newer edition, and then puts a line. `demo` runs over generated traffic,
/// touches no file, and puts the summary.
///
/// `run` and `demo` may wait, as workers wait for one another and for the tables that are due. All else is done by `do_at_once`, which
/// waits for nobody.
pub fn lwaftr<R: Threads + Wait + Sync, I: Reading, O: Writing, S: Sink, G: Gate + Sync>(
    rt: &R,
    alloc: Global,
    words: &[&str],
    files: &mut Outside<I, O>,
    out: &mut S,
    gate: &G,
    history: &mut Option<History>,
) -> Status
    requires none { history.old ≡ None }

    // Which words ask for nothing.
    ensures usage { result ≡ Status.Usage → AskNothing (texts words.now) }
    ensures no_job { AskNothing (texts words.now) → (result ≡ Status.Usage) ⊎ (result ≡ Status.OutOfMemory) }
    ensures untouched { AskNothing (texts words.now) → (files.new ≡ files.old) × (out.new ≡ out.old) × (history.new ≡ None) }

    // What each job leaves.
    ensures run { (run : Run) → Asks (texts words.now) (asked.Run run) → KeepsRun run result
        (world (I.readable files.old.reading) (O.written files.old.writing) (S.out out.old) (S.faults out.old))
        (world (I.readable files.new.reading) (O.written files.new.writing) (S.out out.new) (S.faults out.new)) history.new }
    ensures check { (name : List ℕ) → Asks (texts words.now) (asked.Check name) → KeepsQuestion IsValidLine name result
        (world (I.readable files.old.reading) (O.written files.old.writing) (S.out out.old) (S.faults out.old))
        (world (I.readable files.new.reading) (O.written files.new.writing) (S.out out.new) (S.faults out.new)) history.new }
    ensures who { (name : List ℕ) (v4 : Address) (port : ℕ) → Asks (texts words.now) (asked.Who name v4 port) → KeepsQuestion (IsOwnerLine v4 port) name result
        (world (I.readable files.old.reading) (O.written files.old.writing) (S.out out.old) (S.faults out.old))
        (world (I.readable files.new.reading) (O.written files.new.writing) (S.out out.new) (S.faults out.new)) history.new }
    ensures demo { (seed count workers : ℕ) → Asks (texts words.now) (asked.Demo seed count workers) → KeepsDemo seed count result
        (world (I.readable files.old.reading) (O.written files.old.writing) (S.out out.old) (S.faults out.old))
        (world (I.readable files.new.reading) (O.written files.new.writing) (S.out out.new) (S.faults out.new)) history.new }
    ensures migrate { (input output : List ℕ) → Asks (texts words.now) (asked.Migrate input output) → KeepsMigration input output result
        (world (I.readable files.old.reading) (O.written files.old.writing) (S.out out.old) (S.faults out.old))
        (world (I.readable files.new.reading) (O.written files.new.writing) (S.out out.new) (S.faults out.new)) history.new }

    // Why it ended so.
    ensures cause { HasCause result
        (world (I.readable files.old.reading) (O.written files.old.writing) (S.out out.old) (S.faults out.old))
        (world (I.readable files.new.reading) (O.written files.new.writing) (S.out out.new) (S.faults out.new)) }
{
    let means = Means { rt, alloc, gate };
    match do_at_once(alloc, words, files, out) {
        AtOnce::Ended(status) => status,
        AtOnce::Run(job) => run_job(&means, &job, files, out, history),
        AtOnce::Demo {
            seed,
            count,
            workers,
        } => show_demo(&means, seed, count, workers, out, history),
    }
}
