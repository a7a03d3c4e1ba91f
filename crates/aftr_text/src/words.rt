// The command words.
ghost use Rattle.std.specs.Prelude.{◌≡◌, ◌≢◌, ◌↔◌, ◌≤◌, decimal, ◌+◌, ◌∷◌, [], cond, Option, ℕ, List, All, IfOk, IfErr};
ghost use Rattle.std.specs.Prelude.{IsTrue, Some, codes, bytes_eq, ◌<◌, ◌⊎◌, IfSome, IfNone, length, slice_get};
ghost use Rattle.aftr_text.specs.Jobs.{AreApart, AreNames, AreWorkers, Asks, AskNothing, AsksFor, AsksForNone, IsLimit};
ghost use Rattle.aftr_text.specs.Jobs.{IsLoad, IsName, StandsOnce, how_many, load_texts, names_of};
ghost use Rattle.addr_text.specs.Ipv4.{IsV4Text};
ghost use Rattle.aftr_text.specs.Commands.{found_in, word_of, words_of};
ghost use Rattle.aftr_text.specs.declared.jobs.LoadWords.{LoadWords as SpecLoad};
ghost use Rattle.aftr_text.specs.Parts.{texts};
ghost use Rattle.aftr_text.specs.declared.jobs.Job.{Job as SpecJob};
ghost use Rattle.aftr_text.specs.Faults.{HasCause, IsBadLoad, IsBadValue, IsFault, IsShared, arguments_of};
ghost use Rattle.aftr_text.specs.declared.faults.Fault.{Fault as SpecFault};
ghost use Rattle.aftr_text.specs.declared.faults.Fault.TheVariants as fault;
ghost use Rattle.aftr_text.specs.declared.faults.JobError.TheVariants as error_is;
ghost use Rattle.aftr_text.specs.declared.jobs.UsageError.TheVariants as usage;
ghost use Rattle.aftr_text.specs.declared.parts.Slot.TheVariants as slot_is;

use crate::commands::{
    check_command, demo_command, migrate_command, parse, run_command, who_command, word,
};
use crate::faults::{Fault, JobError};
use crate::fields::{first_fall, is_name, read_between, read_loads};
use crate::jobs::{Job, LoadList, RunJob, UsageError};
use crate::parts::{Parts, Slot, split};
use addr_text::{one_address, read_v4};
use aftr_base::{OutOfMemory, Text, V4};
use clap::ArgMatches;
use std::alloc::Global;

const MOST_WORKERS: u64 = 16;

/// The most errors in a second that a limit may name.
const MOST_ERRORS: u64 = 1_000_000;

/// The most records of a demonstration.
const MOST_COUNT: u64 = 1_000_000;

/// The job that the words behind the program's name ask for, or why they ask for none:
///
///     run IN OUT VERDICTS VERSIONS TABLE [EARLIEST-LATEST:TABLE]... [--workers N] [--errors N]
///     check TABLE
///     who TABLE ADDRESS PORT
///     demo SEED COUNT WORKERS
///     migrate TABLE NEW-TABLE
///
/// The options stand anywhere behind `run`, each at most once, also as `--workers=N` and `--errors=N`. The first `--` is dropped,
/// and behind it every word is an argument; before it a word of two bytes or more that begins with `-` is none. A number is
/// written in decimal without a leading zero. Refused exactly where the words ask for no job, with the
/// first thing that is wrong.
pub fn read_job(alloc: Global, words: &[&str]) -> Result<Job, JobError>
    ensures job { IfOk result (Asks (texts words.now)) }
    ensures only { IfOk result (λ job. (other : SpecJob) → Asks (texts words.now) other → other ≡ job) }
    ensures usage { IfErr result (λ e. e ≢ error_is.OutOfMemory → AskNothing (texts words.now)) }
    ensures cause { IfErr result (λ e. (f : SpecFault) → e ≡ error_is.Refused f → IsFault (texts words.now) f) }
{
    one_address();
    let Some((command, rest)) = words.split_first() else {
        return Err(JobError::Refused(Fault::Nothing));
    };
    let parts = split(alloc, rest)?;
    read_command(alloc, command, &parts)
}

/// The job that `read_job` reads, without the cause where there is none.
pub fn read_words(alloc: Global, words: &[&str]) -> Result<Job, UsageError>
    ensures job { IfOk result (Asks (texts words.now)) }
    ensures only { IfOk result (λ job. (other : SpecJob) → Asks (texts words.now) other → other ≡ job) }
    ensures usage { IfErr result (λ e. e ≡ usage.Usage → AskNothing (texts words.now)) }
{
    match read_job(alloc, words) {
        Ok(job) => Ok(job),
        Err(JobError::Refused(_)) => Err(UsageError::Usage),
        Err(JobError::OutOfMemory) => Err(UsageError::OutOfMemory),
    }
}

fn read_command(alloc: Global, command: &str, parts: &Parts<'_>) -> Result<Job, JobError>
    ensures job { IfOk result (AsksFor command.now parts.now) }
    ensures usage { IfErr result (λ e. e ≢ error_is.OutOfMemory → AsksForNone command.now parts.now) }
    ensures cause { IfErr result (HasCause command.now parts.now) }
{
    if command == "run" {
        read_run(alloc, parts)
    } else if command == "check" {
        read_check(alloc, parts)
    } else if command == "who" {
        read_who(alloc, parts)
    } else if command == "demo" {
        read_demo(alloc, parts)
    } else if command == "migrate" {
        read_migrate(alloc, parts)
    } else {
        Err(JobError::Refused(Fault::Command))
    }
}

fn read_run(alloc: Global, parts: &Parts<'_>) -> Result<Job, JobError>
    ensures job { IfOk result (AsksFor (codes "run") parts.now) }
    ensures usage { IfErr result (λ e. e ≢ error_is.OutOfMemory → AsksForNone (codes "run") parts.now) }
    ensures cause { IfErr result (HasCause (codes "run") parts.now) }
{
    let line = parts.line(alloc, "run")?;
    let matches = parse(run_command(alloc)?, line.as_slice())?;
    let workers = read_workers(parts.workers())?;
    let errors = read_limit(parts.errors())?;
    let loads = loads_in(alloc, &matches)?;
    let input = text(alloc, &matches, "input")?;
    let output = text(alloc, &matches, "output")?;
    let verdicts = text(alloc, &matches, "verdicts")?;
    let versions = text(alloc, &matches, "versions")?;
    let table = text(alloc, &matches, "table")?;
    let run = RunJob {
        input,
        output,
        verdicts,
        versions,
        table,
        loads,
        workers,
        errors,
    };
    if let Some(at) = first_empty(&run) {
        return Err(JobError::Refused(Fault::Empty(at)));
    }
    if let Some(at) = first_shared(&run) {
        return Err(JobError::Refused(Fault::Same(at)));
    }
    if let Some(at) = first_fall(run.loads.as_slice()) {
        return Err(JobError::Refused(Fault::Falls(at)));
    }
    Ok(Job::Run(run))
}

fn read_check(alloc: Global, parts: &Parts<'_>) -> Result<Job, JobError>
    ensures job { IfOk result (AsksFor (codes "check") parts.now) }
    ensures usage { IfErr result (λ e. e ≢ error_is.OutOfMemory → AsksForNone (codes "check") parts.now) }
    ensures cause { IfErr result (HasCause (codes "check") parts.now) }
{
    if parts.has_options() {
        return Err(JobError::Refused(Fault::OptionOfRun));
    }
    let line = parts.line(alloc, "check")?;
    let matches = parse(check_command(alloc)?, line.as_slice())?;
    let name = name(alloc, &matches, "file", 0)?;
    Ok(Job::Check { name })
}

fn read_who(alloc: Global, parts: &Parts<'_>) -> Result<Job, JobError>
    ensures job { IfOk result (AsksFor (codes "who") parts.now) }
    ensures usage { IfErr result (λ e. e ≢ error_is.OutOfMemory → AsksForNone (codes "who") parts.now) }
    ensures cause { IfErr result (HasCause (codes "who") parts.now) }
{
    if parts.has_options() {
        return Err(JobError::Refused(Fault::OptionOfRun));
    }
    let line = parts.line(alloc, "who")?;
    let matches = parse(who_command(alloc)?, line.as_slice())?;
    let name = name(alloc, &matches, "file", 0)?;
    let v4 = address(&matches, "address")?;
    let port = number(&matches, "port", 2, 0, 65_535)?;
    Ok(Job::Who {
        name,
        v4,
        port: port as u16,
    })
}

fn read_demo(alloc: Global, parts: &Parts<'_>) -> Result<Job, JobError>
    ensures job { IfOk result (AsksFor (codes "demo") parts.now) }
    ensures usage { IfErr result (λ e. e ≢ error_is.OutOfMemory → AsksForNone (codes "demo") parts.now) }
    ensures cause { IfErr result (HasCause (codes "demo") parts.now) }
{
    if parts.has_options() {
        return Err(JobError::Refused(Fault::OptionOfRun));
    }
    let line = parts.line(alloc, "demo")?;
    let matches = parse(demo_command(alloc)?, line.as_slice())?;
    let seed = number(&matches, "seed", 0, 0, u64::MAX)?;
    let count = number(&matches, "count", 1, 1, MOST_COUNT)?;
    let workers = number(&matches, "workers", 2, 1, MOST_WORKERS)?;
    Ok(Job::Demo {
        seed,
        count: count as u32,
        workers: workers as u32,
    })
}

fn read_migrate(alloc: Global, parts: &Parts<'_>) -> Result<Job, JobError>
    ensures job { IfOk result (AsksFor (codes "migrate") parts.now) }
    ensures usage { IfErr result (λ e. e ≢ error_is.OutOfMemory → AsksForNone (codes "migrate") parts.now) }
    ensures cause { IfErr result (HasCause (codes "migrate") parts.now) }
{
    if parts.has_options() {
        return Err(JobError::Refused(Fault::OptionOfRun));
    }
    let line = parts.line(alloc, "migrate")?;
    let matches = parse(migrate_command(alloc)?, line.as_slice())?;
    let input = name(alloc, &matches, "input", 0)?;
    let output = name(alloc, &matches, "output", 1)?;
    if input.as_str() == output.as_str() {
        return Err(JobError::Refused(Fault::SameTable));
    }
    Ok(Job::Migrate { input, output })
}

// The word of an argument, in memory of its own.
fn text(alloc: Global, matches: &ArgMatches<'_>, argument: &str) -> Result<Text, OutOfMemory>
    ensures { IfOk result (λ text. text ≡ word_of (found_in matches.now) argument.now) }
{
    Text::copy(alloc, word(matches, argument))
}

// The word of an argument that names a file, and stands at this place.
fn name(
    alloc: Global,
    matches: &ArgMatches<'_>,
    argument: &str,
    at: usize,
) -> Result<Text, JobError>
    ensures name { IfOk result (λ name. (name ≡ word_of (found_in matches.now) argument.now) × IsName name) }
    ensures usage { IfErr result (λ e. e ≢ error_is.OutOfMemory → IsName (word_of (found_in matches.now) argument.now) → ⊥) }
    ensures cause { IfErr result (λ e. e ≢ error_is.OutOfMemory → e ≡ error_is.Refused (fault.Empty at)) }
{
    let name = word(matches, argument);
    if !is_name(name) {
        return Err(JobError::Refused(Fault::Empty(at)));
    }
    Ok(Text::copy(alloc, name)?)
}

// The number of an argument, which stands at this place, if it is one from `least` to `most`.
fn number(
    matches: &ArgMatches<'_>,
    argument: &str,
    at: usize,
    least: u64,
    most: u64,
) -> Result<u64, JobError>
    ensures number { IfOk result (λ n. (word_of (found_in matches.now) argument.now ≡ decimal n) × (least ≤ n) × (n ≤ most)) }
    ensures usage { IfErr result (λ _. (n : ℕ) → least ≤ n → n ≤ most → word_of (found_in matches.now) argument.now ≢ decimal n) }
    ensures cause { IfErr result (λ e. e ≡ error_is.Refused (fault.Number at least most)) }
{
    match read_between(word(matches, argument), least, most) {
        Some(number) => Ok(number),
        None => Err(JobError::Refused(Fault::Number(at, least, most))),
    }
}

// The address of an argument, in dotted decimal.
fn address(matches: &ArgMatches<'_>, argument: &str) -> Result<V4, JobError>
    ensures address { IfOk result (λ v4. IsV4Text (word_of (found_in matches.now) argument.now) v4.0) }
    ensures usage { IfErr result (λ _. (a : ℕ) → IsV4Text (word_of (found_in matches.now) argument.now) a → ⊥) }
    ensures cause { IfErr result (λ e. e ≡ error_is.Refused fault.Address) }
{
    match read_v4(word(matches, argument)) {
        Ok(v4) => Ok(v4),
        Err(_) => Err(JobError::Refused(Fault::Address)),
    }
}

// The loads that were found.
fn loads_in(alloc: Global, matches: &ArgMatches<'_>) -> Result<LoadList, JobError>
    ensures loads { IfOk result (λ loads. (load_texts loads ≡ words_of (found_in matches.now) (codes "loads")) × All IsLoad loads) }
    ensures usage { IfErr result (λ e. e ≢ error_is.OutOfMemory → (loads : List SpecLoad) → All IsLoad loads →
        load_texts loads ≢ words_of (found_in matches.now) (codes "loads")) }
    ensures cause { IfErr result (λ e. e ≢ error_is.OutOfMemory →
        (at : ℕ) × (e ≡ error_is.Refused (fault.Load at)) × IsBadLoad (words_of (found_in matches.now) (codes "loads")) at) }
{
    match matches.get_raw("loads") {
        Some(words) => read_loads(alloc, words),
        None => Ok(LoadList::of(Vec::new(alloc))),
    }
}

// The number of workers: 1, or the one that is given.
fn read_workers(given: &[&str]) -> Result<u32, JobError>
    ensures workers { IfOk result (AreWorkers (texts given.now)) }
    ensures usage { IfErr result (λ _. (workers : ℕ) → AreWorkers (texts given.now) workers → ⊥) }
    ensures cause { IfErr result (λ e. ((e ≡ error_is.Refused (fault.Twice slot_is.Workers)) × (2 ≤ length given.now))
        ⊎ ((e ≡ error_is.Refused (fault.Value slot_is.Workers)) × IsBadValue slot_is.Workers (texts given.now))) }
{
    if given.is_empty() {
        return Ok(1);
    }
    if given.len() != 1 {
        return Err(JobError::Refused(Fault::Twice(Slot::Workers)));
    }
    match read_between(given[0], 1, MOST_WORKERS) {
        Some(workers) => Ok(workers as u32),
        None => Err(JobError::Refused(Fault::Value(Slot::Workers))),
    }
}

// The limit on errors, if one is given.
fn read_limit(given: &[&str]) -> Result<Option<u32>, JobError>
    ensures limit { IfOk result (IsLimit (texts given.now)) }
    ensures usage { IfErr result (λ _. (limit : Option ℕ) → IsLimit (texts given.now) limit → ⊥) }
    ensures cause { IfErr result (λ e. ((e ≡ error_is.Refused (fault.Twice slot_is.Errors)) × (2 ≤ length given.now))
        ⊎ ((e ≡ error_is.Refused (fault.Value slot_is.Errors)) × IsBadValue slot_is.Errors (texts given.now))) }
{
    if given.is_empty() {
        return Ok(None);
    }
    if given.len() != 1 {
        return Err(JobError::Refused(Fault::Twice(Slot::Errors)));
    }
    match read_between(given[0], 1, MOST_ERRORS) {
        Some(rate) => Ok(Some(rate as u32)),
        None => Err(JobError::Refused(Fault::Value(Slot::Errors))),
    }
}

// The first name of a run's files that has no byte, by its place among the arguments.
fn first_empty(run: &RunJob) -> Option<usize>
    ensures some { IfSome result (λ at. (at < 5) × (slice_get (arguments_of run.now) at ≡ Some [])) }
    ensures empty { IfSome result (λ _. AreNames run.now → ⊥) }
    ensures none { IfNone result (AreNames run.now) }
{
    if !is_name(run.input.as_str()) {
        Some(0)
    } else if !is_name(run.output.as_str()) {
        Some(1)
    } else if !is_name(run.verdicts.as_str()) {
        Some(2)
    } else if !is_name(run.versions.as_str()) {
        Some(3)
    } else if !is_name(run.table.as_str()) {
        Some(4)
    } else {
        None
    }
}

// The first file that is written and has the name of another file of the run, by its place among the arguments.
fn first_shared(run: &RunJob) -> Option<usize>
    ensures some { IfSome result (λ at. IsShared run.now at) }
    ensures shared { IfSome result (λ _. AreApart run.now → ⊥) }
    ensures none { IfNone result (AreApart run.now) }
{
    if !is_single(run, run.output.as_str()) {
        Some(1)
    } else if !is_single(run, run.verdicts.as_str()) {
        Some(2)
    } else if !is_single(run, run.versions.as_str()) {
        Some(3)
    } else {
        None
    }
}

// One file of the run has the name.
fn is_single(run: &RunJob, name: &str) -> bool
    ensures { IsTrue result ↔ StandsOnce (names_of run.now) name.now }
{
    files_named(run, name) == 1
}

// How many files of the run have the name.
#[tactic(auto, unfolding(crate::specs::Jobs::how_many))]
fn files_named(run: &RunJob, name: &str) -> usize
    ensures { result ≡ how_many name.now (names_of run.now) }
{
    let mut count = same(&run.input, name)
        + same(&run.output, name)
        + same(&run.verdicts, name)
        + same(&run.versions, name)
        + same(&run.table, name);
    let loads = run.loads.as_slice();
    'loads: for load in loads {
        count += same(&load.name, name);
    }
    count
}

// 1 where two names are the same, else 0.
fn same(one: &Text, other: &str) -> usize
    ensures { result ≡ cond (bytes_eq one.now other.now) 1 0 }
{
    usize::from(one.as_str() == other)
}
