// The arguments of each command, as `clap` reads them. Behind the word `--` nothing is an option to it.
ghost use Rattle.std.specs.Prelude.{◌≡◌, ◌≢◌, true, [], IfOk, IfErr};
ghost use Rattle.clap.specs.Words.{app_of, fault_of, is_simple, is_simple_and_free, matches_of};
ghost use Rattle.aftr_text.specs.Commands.{and_needs, check_app, demo_app, found_in, migrate_app, run_app, who_app, word_of};
ghost use Rattle.aftr_text.specs.Parts.{texts};
ghost use Rattle.aftr_text.specs.declared.faults.Fault.TheVariants as fault;
ghost use Rattle.aftr_text.specs.declared.faults.JobError.TheVariants as error_is;

use crate::faults::JobError;
use clap::{Arg, ArgMatches, Command};
use std::alloc::{AllocError, Global};

/// What the command finds in the words. Where `clap` refuses them there are too few or too many.
pub(crate) fn parse<'a>(
    command: Command<'a>,
    words: &'a [&'a str],
) -> Result<ArgMatches<'a>, JobError>
    requires simple { (is_simple (app_of command) ≡ true) × (is_simple_and_free (app_of command) ≡ true) }
    ensures found { IfOk result (λ m. found_in m ≡ matches_of (app_of command.entry) (texts words.entry.now)) }
    ensures taken { IfOk result (λ _. fault_of (app_of command.entry) (texts words.entry.now) ≡ []) }
    ensures usage { IfErr result (λ e. e ≢ error_is.OutOfMemory → fault_of (app_of command.entry) (texts words.entry.now) ≢ []) }
    ensures count { IfErr result (λ e. e ≢ error_is.OutOfMemory → e ≡ error_is.Refused fault.Count) }
{
    let matches = command.try_get_matches_from(words)?;
    Ok(matches)
}

/// The word of an argument; empty where it has none.
pub(crate) fn word<'a>(matches: &ArgMatches<'a>, name: &str) -> &'a str
    ensures { result.now ≡ word_of (found_in matches.now) name.now }
{
    matches.get_str(name).unwrap_or("")
}

pub(crate) fn check_command<'a>(alloc: Global) -> Result<Command<'a>, AllocError>
    ensures { IfOk result (λ c. app_of c ≡ check_app) }
{
    needs(alloc, Command::new(alloc, "check"), "file")
}

pub(crate) fn who_command<'a>(alloc: Global) -> Result<Command<'a>, AllocError>
    ensures { IfOk result (λ c. app_of c ≡ who_app) }
{
    let command = needs(alloc, Command::new(alloc, "who"), "file")?;
    let command = needs(alloc, command, "address")?;
    needs(alloc, command, "port")
}

pub(crate) fn demo_command<'a>(alloc: Global) -> Result<Command<'a>, AllocError>
    ensures { IfOk result (λ c. app_of c ≡ demo_app) }
{
    let command = needs(alloc, Command::new(alloc, "demo"), "seed")?;
    let command = needs(alloc, command, "count")?;
    needs(alloc, command, "workers")
}

pub(crate) fn migrate_command<'a>(alloc: Global) -> Result<Command<'a>, AllocError>
    ensures { IfOk result (λ c. app_of c ≡ migrate_app) }
{
    let command = needs(alloc, Command::new(alloc, "migrate"), "input")?;
    needs(alloc, command, "output")
}

/// Five names, and up to 255 loads.
pub(crate) fn run_command<'a>(alloc: Global) -> Result<Command<'a>, AllocError>
    ensures { IfOk result (λ c. app_of c ≡ run_app) }
{
    let command = needs(alloc, Command::new(alloc, "run"), "input")?;
    let command = needs(alloc, command, "output")?;
    let command = needs(alloc, command, "verdicts")?;
    let command = needs(alloc, command, "versions")?;
    let command = needs(alloc, command, "table")?;
    let loads = Arg::new(alloc, "loads").num_args(0..=255);
    command.arg(loads)
}

// The command with one argument more, which has to be there.
fn needs<'a>(alloc: Global, command: Command<'a>, name: &'a str) -> Result<Command<'a>, AllocError>
    ensures { IfOk result (λ c. app_of c ≡ and_needs (app_of command.entry) name.entry.now) }
{
    command.arg(Arg::new(alloc, name).required(true))
}
