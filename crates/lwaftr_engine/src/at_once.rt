// The jobs that wait for nobody.
ghost use Rattle.std.specs.Prelude.{◌≡◌, ◌⊎◌, ℕ, List, None};
ghost use Rattle.aftr_base.specs.declared.numbers.V4.{V4 as Address};
ghost use Rattle.aftr_text.specs.Jobs.{AskNothing, Asks};
ghost use Rattle.aftr_text.specs.Parts.{texts};
ghost use Rattle.aftr_text.specs.declared.jobs.Job.TheVariants as asked;
ghost use Rattle.aftr_text.specs.declared.jobs.RunJob.{RunJob as Run};
ghost use Rattle.lwaftr_engine.specs.Causes.{HasOneCause};
ghost use Rattle.lwaftr_engine.specs.Prompt.{EndsSo, IsLeft};
ghost use Rattle.lwaftr_engine.specs.Migrations.{KeepsMigration};
ghost use Rattle.lwaftr_engine.specs.Questions.{IsOwnerLine, IsValidLine, KeepsQuestion};
ghost use Rattle.lwaftr_engine.specs.Worlds.{world};
ghost use Rattle.lwaftr_engine.specs.declared.at_once.AtOnce.TheVariants as at_once;
ghost use Rattle.lwaftr_engine.specs.declared.status.Status.{Status as Ending};
ghost use Rattle.lwaftr_engine.specs.declared.status.Status.TheVariants as status;

use crate::migrating::migrate;
use crate::queries::{check_table, who_owns};
use crate::status::Status;
use aftr_io::{Outside, Reading, Sink, Writing};
use aftr_text::{Job, RunJob, UsageError, read_words};
use std::alloc::Global;

/// What command words come to without waiting for anybody.
#[derive(Debug, Drop)]
pub enum AtOnce {
    /// The job is done, or the words ask for none.
    Ended(Status),
    /// They ask for a run, whose workers wait for one another. It was not begun.
    Run(RunJob),
    /// They ask for the demonstration, which is a run. It was not begun.
    Demo { seed: u64, count: u32, workers: u32 },
}

/// Does the job that the command words ask for, as `lwaftr` does it, where that waits for nobody: `check`, `who` and `migrate`, and
/// words that ask for no job. A job that may wait is handed back, and nothing is touched. It takes no right to wait, so it returns,
/// whatever the files and the words hold, if the calls of `files` and `out` do.
pub fn do_at_once<I: Reading, O: Writing, S: Sink>(
    alloc: Global,
    words: &[&str],
    files: &mut Outside<I, O>,
    out: &mut S,
) -> AtOnce

    // Which words ask for nothing, and which for a job that may wait.
    ensures usage { result ≡ at_once.Ended status.Usage → AskNothing (texts words.now) }
    ensures no_job { AskNothing (texts words.now) →
        EndsSo (λ s. (s ≡ status.Usage) ⊎ (s ≡ status.OutOfMemory)) result × ((files.new ≡ files.old) × (out.new ≡ out.old)) }
    ensures run { (run : Run) → Asks (texts words.now) (asked.Run run) → IsLeft (at_once.Run run) result × ((files.new ≡ files.old) × (out.new ≡ out.old)) }
    ensures demo { (seed count workers : ℕ) → Asks (texts words.now) (asked.Demo seed count workers) →
        IsLeft (at_once.Demo seed count workers) result × ((files.new ≡ files.old) × (out.new ≡ out.old)) }
    ensures left_run { (run : Run) → result ≡ at_once.Run run → Asks (texts words.now) (asked.Run run) }
    ensures left_demo { (seed count workers : ℕ) → result ≡ at_once.Demo seed count workers → Asks (texts words.now) (asked.Demo seed count workers) }

    // What each other job leaves.
    ensures check { (name : List ℕ) → Asks (texts words.now) (asked.Check name) → EndsSo (λ s. KeepsQuestion IsValidLine name s
        (world (I.readable files.old.reading) (O.written files.old.writing) (S.out out.old) (S.faults out.old))
        (world (I.readable files.new.reading) (O.written files.new.writing) (S.out out.new) (S.faults out.new)) None) result }
    ensures who { (name : List ℕ) (v4 : Address) (port : ℕ) → Asks (texts words.now) (asked.Who name v4 port) → EndsSo (λ s.
        KeepsQuestion (IsOwnerLine v4 port) name s
        (world (I.readable files.old.reading) (O.written files.old.writing) (S.out out.old) (S.faults out.old))
        (world (I.readable files.new.reading) (O.written files.new.writing) (S.out out.new) (S.faults out.new)) None) result }
    ensures migrate { (input output : List ℕ) → Asks (texts words.now) (asked.Migrate input output) → EndsSo (λ s. KeepsMigration input output s
        (world (I.readable files.old.reading) (O.written files.old.writing) (S.out out.old) (S.faults out.old))
        (world (I.readable files.new.reading) (O.written files.new.writing) (S.out out.new) (S.faults out.new)) None) result }

    // Why it ended so.
    ensures cause { (s : Ending) → result ≡ at_once.Ended s → HasOneCause s
        (world (I.readable files.old.reading) (O.written files.old.writing) (S.out out.old) (S.faults out.old))
        (world (I.readable files.new.reading) (O.written files.new.writing) (S.out out.new) (S.faults out.new)) }
{
    let job = match read_words(alloc, words) {
        Ok(job) => job,
        Err(UsageError::Usage) => return AtOnce::Ended(Status::Usage),
        Err(UsageError::OutOfMemory) => return AtOnce::Ended(Status::OutOfMemory),
    };
    match job {
        Job::Run(run) => AtOnce::Run(run),
        Job::Demo {
            seed,
            count,
            workers,
        } => AtOnce::Demo {
            seed,
            count,
            workers,
        },
        Job::Check { name } => AtOnce::Ended(check_table(
            alloc,
            name.as_str(),
            &mut files.reading,
            out,
        )),
        Job::Who { name, v4, port } => {
            AtOnce::Ended(who_owns(alloc, name.as_str(), v4, port, &mut files.reading, out))
        }
        Job::Migrate { input, output } => {
            AtOnce::Ended(migrate(alloc, input.as_str(), output.as_str(), files, out))
        }
    }
}
