// What is wrong with command words, for people.
ghost use Rattle.std.specs.Prelude.{◌≡◌, ◌+◌, ◌++◌, [], IfOk, codes, decimal, option_map, string_bytes};
ghost use Rattle.aftr_text.specs.Messages.{argument_text, fault_text, load_in, option_text, same_text, told};
ghost use Rattle.aftr_text.specs.Messages.{told_behind, usage_of, value_text, wanted_text, word_in};
ghost use Rattle.aftr_text.specs.Parts.{no_parts, texts};
ghost use Rattle.aftr_text.specs.declared.faults.Fault.TheVariants as fault_is;

use crate::faults::{Fault, JobError};
use crate::numbers::push_count;
use crate::parts::{Parts, Slot, split};
use aftr_base::{OutOfMemory, Text};
use std::alloc::Global;

/// What is wrong with the words, in one line that begins with two blanks. The words are those that the fault was found in.
pub fn fault_line(alloc: Global, words: &[&str], fault: Fault) -> Result<Text, OutOfMemory>
    ensures { IfOk result (λ line. line ≡ fault_text (texts words.now) fault) }
{
    match words.split_first() {
        Some((command, rest)) => line_behind(alloc, command, rest, fault),
        None => line_behind(alloc, "", words, fault),
    }
}

/// How a command is written; the line of `HELP` that begins with it.
pub fn usage_line(command: &str) -> Option<&'static str>
    ensures { option_map (λ usage. usage.now) result ≡ usage_of command.now }
{
    if command == "run" {
        Some(
            "lwaftr run IN OUT VERDICTS VERSIONS TABLE [EARLIEST-LATEST:TABLE]... [--workers N] [--errors N]",
        )
    } else if command == "check" {
        Some("lwaftr check TABLE")
    } else if command == "who" {
        Some("lwaftr who TABLE ADDRESS PORT")
    } else if command == "demo" {
        Some("lwaftr demo SEED COUNT WORKERS")
    } else if command == "migrate" {
        Some("lwaftr migrate TABLE NEW-TABLE")
    } else {
        None
    }
}

// Of a command and the words behind it. Words that can't be taken apart have no parts.
fn line_behind(
    alloc: Global,
    command: &str,
    rest: &[&str],
    fault: Fault,
) -> Result<Text, OutOfMemory>
    ensures { IfOk result (λ line. line ≡ told_behind command.now (texts rest.now) fault) }
{
    match split(alloc, rest) {
        Ok(parts) => line_of(alloc, command, rest, &parts, fault),
        Err(JobError::Refused(_)) => line_of(alloc, command, rest, &Parts::none(alloc), fault),
        Err(JobError::OutOfMemory) => Err(OutOfMemory),
    }
}

fn line_of(
    alloc: Global,
    command: &str,
    rest: &[&str],
    parts: &Parts<'_>,
    fault: Fault,
) -> Result<Text, OutOfMemory>
    ensures { IfOk result (λ line. line ≡ told command.now (texts rest.now) parts.now fault) }
{
    match fault {
        Fault::Nothing => nothing_line(alloc),
        Fault::Command => command_line(alloc, command),
        Fault::Stray(place) => stray_line(alloc, word_at(rest, place), place),
        Fault::NoValue(slot) => unvalued_line(alloc, slot),
        Fault::OptionOfRun => option_line(alloc),
        Fault::Twice(slot) => twice_line(alloc, slot),
        Fault::Value(slot) => option_value_line(alloc, parts, slot),
        Fault::Count => count_line(alloc, command, parts),
        Fault::Empty(at) => empty_line(alloc, command, at),
        Fault::Number(at, least, most) => {
            let word = argument(parts, at);
            value_line(alloc, argument_name(command, at), word, least, most)
        }
        Fault::Address => address_line(alloc, parts),
        Fault::Load(load) => load_line(alloc, load_word(parts, load), load),
        Fault::SameTable => same_line(alloc, "TABLE", "NEW-TABLE", argument(parts, 0)),
        Fault::Same(at) => {
            let word = argument(parts, at);
            same_line(
                alloc,
                argument_name(command, at),
                "another file of the run",
                word,
            )
        }
        Fault::Falls(load) => fall_line(alloc, load_word(parts, load), load),
    }
}

fn nothing_line(alloc: Global) -> Result<Text, OutOfMemory>
    ensures { IfOk result (λ line. line ≡ told [] [] no_parts fault_is.Nothing) }
{
    Ok(Text::of(format!(in alloc;
        "  no command is given; the commands are run, check, who, demo and migrate\n"
    )?))
}

fn command_line(alloc: Global, command: &str) -> Result<Text, OutOfMemory>
    ensures { IfOk result (λ line. line ≡ told command.now [] no_parts fault_is.Command) }
{
    Ok(Text::of(format!(in alloc;
        "  `{command}` is not a command; the commands are run, check, who, demo and migrate\n"
    )?))
}

fn stray_line(alloc: Global, word: &str, place: usize) -> Result<Text, OutOfMemory>
    ensures { IfOk result (λ line. line ≡
        codes "  word " ++ decimal (place + 2) ++ codes ", `" ++ word.now ++ codes "`, is not an option (after `--` it would be an argument)\n") }
{
    let wrong = "`, is not an option (after `--` it would be an argument)\n";
    placed_line(alloc, "  word ", place, 2, word, wrong)
}

fn unvalued_line(alloc: Global, slot: Slot) -> Result<Text, OutOfMemory>
    ensures { IfOk result (λ line. line ≡ told [] [] no_parts (fault_is.NoValue slot)) }
{
    let option = option_name(slot);
    Ok(Text::of(format!(in alloc; "  {option} needs a number after it\n")?))
}

fn option_line(alloc: Global) -> Result<Text, OutOfMemory>
    ensures { IfOk result (λ line. line ≡ told [] [] no_parts fault_is.OptionOfRun) }
{
    Ok(Text::of(format!(in alloc; "  --workers and --errors are options of run alone\n")?))
}

fn twice_line(alloc: Global, slot: Slot) -> Result<Text, OutOfMemory>
    ensures { IfOk result (λ line. line ≡ told [] [] no_parts (fault_is.Twice slot)) }
{
    let option = option_name(slot);
    Ok(Text::of(format!(in alloc; "  {option} is given more than once\n")?))
}

fn option_value_line(alloc: Global, parts: &Parts<'_>, slot: Slot) -> Result<Text, OutOfMemory>
    ensures { IfOk result (λ line. line ≡ told [] [] parts.now (fault_is.Value slot)) }
{
    let (given, most) = match slot {
        Slot::Workers => (parts.workers(), 16),
        Slot::Errors => (parts.errors(), 1_000_000),
    };
    value_line(alloc, option_name(slot), word_at(given, 0), 1, most)
}

fn value_line(
    alloc: Global,
    name: &str,
    word: &str,
    least: u64,
    most: u64,
) -> Result<Text, OutOfMemory>
    ensures { IfOk result (λ line. line ≡ value_text name.now word.now least most) }
{
    let mut line = String::new(alloc);
    line.push_str("  ")?;
    line.push_str(name)?;
    line.push_str(": `")?;
    line.push_str(word)?;
    push_count(&mut line, "` is not a number from ", least)?;
    push_count(&mut line, " to ", most)?;
    line.push_str("\n")?;
    Ok(Text::of(line))
}

fn count_line(alloc: Global, command: &str, parts: &Parts<'_>) -> Result<Text, OutOfMemory>
    ensures { IfOk result (λ line. line ≡ told command.now [] parts.now fault_is.Count) }
{
    let wanted = arguments_wanted(command);
    let given = parts.arguments().len();
    Ok(Text::of(format!(in alloc; "  {command} takes {wanted}, not {given}\n")?))
}

fn empty_line(alloc: Global, command: &str, at: usize) -> Result<Text, OutOfMemory>
    ensures { IfOk result (λ line. line ≡ told command.now [] no_parts (fault_is.Empty at)) }
{
    let name = argument_name(command, at);
    Ok(Text::of(format!(in alloc; "  {name}: a file's name may not be empty\n")?))
}

fn address_line(alloc: Global, parts: &Parts<'_>) -> Result<Text, OutOfMemory>
    ensures { IfOk result (λ line. line ≡ told [] [] parts.now fault_is.Address) }
{
    let word = argument(parts, 1);
    Ok(Text::of(format!(in alloc; "  ADDRESS: `{word}` is not an IPv4 address\n")?))
}

fn same_line(alloc: Global, name: &str, other: &str, word: &str) -> Result<Text, OutOfMemory>
    ensures { IfOk result (λ line. line ≡ same_text name.now other.now word.now) }
{
    let mut line = String::new(alloc);
    line.push_str("  ")?;
    line.push_str(name)?;
    line.push_str(" and ")?;
    line.push_str(other)?;
    line.push_str(" have the same name, `")?;
    line.push_str(word)?;
    line.push_str("`\n")?;
    Ok(Text::of(line))
}

fn load_line(alloc: Global, word: &str, load: usize) -> Result<Text, OutOfMemory>
    ensures { IfOk result (λ line. line ≡ codes "  load " ++ decimal (load + 1) ++ codes ", `" ++ word.now
        ++ codes "`, is not EARLIEST-LATEST:TABLE with EARLIEST <= LATEST <= 2147483648\n") }
{
    let wrong = "`, is not EARLIEST-LATEST:TABLE with EARLIEST <= LATEST <= 2147483648\n";
    placed_line(alloc, "  load ", load, 1, word, wrong)
}

fn fall_line(alloc: Global, word: &str, load: usize) -> Result<Text, OutOfMemory>
    ensures { IfOk result (λ line. line ≡ codes "  load " ++ decimal (load + 1) ++ codes ", `" ++ word.now
        ++ codes "`: its window begins or ends earlier than that of the load before it\n") }
{
    let wrong = "`: its window begins or ends earlier than that of the load before it\n";
    placed_line(alloc, "  load ", load, 1, word, wrong)
}

// What is wrong with the word at a place. Both texts bring their blanks and marks.
fn placed_line(
    alloc: Global,
    kind: &str,
    place: usize,
    first: u8,
    word: &str,
    wrong: &str,
) -> Result<Text, OutOfMemory>
    ensures { IfOk result (λ line. line ≡ kind.now ++ decimal (place + first) ++ codes ", `" ++ word.now ++ wrong.now) }
{
    let number = place_text(alloc, place, first)?;
    let mut line = String::new(alloc);
    line.push_str(kind)?;
    line.push_str(number.as_str())?;
    line.push_str(", `")?;
    line.push_str(word)?;
    line.push_str(wrong)?;
    Ok(Text::of(line))
}

// A place as people count, from the first one on.
fn told_place(place: usize, first: u8) -> u128
    ensures { result ≡ place + first }
{
    place as u128 + u128::from(first)
}

fn place_text(alloc: Global, place: usize, first: u8) -> Result<String, OutOfMemory>
    ensures { IfOk result (λ text. string_bytes text ≡ decimal (place + first)) }
{
    let number = told_place(place, first);
    Ok(format!(in alloc; "{number}")?)
}

// The word of a load, which stands behind five names.
fn load_word<'a>(parts: &Parts<'a>, load: usize) -> &'a str
    ensures { result.now ≡ load_in parts.now load }
{
    let arguments = parts.arguments();
    let count = arguments.len();
    if load >= count {
        return "";
    }
    word_at(arguments, load + 5)
}

fn argument<'a>(parts: &Parts<'a>, at: usize) -> &'a str
    ensures { result.now ≡ word_in parts.now.arguments at }
{
    word_at(parts.arguments(), at)
}

// The word at a place; empty where there is none.
fn word_at<'a>(words: &[&'a str], at: usize) -> &'a str
    ensures { result.now ≡ word_in (texts words.now) at }
{
    match words.get(at) {
        Some(word) => word,
        None => "",
    }
}

fn option_name(slot: Slot) -> &'static str
    ensures { result.now ≡ option_text slot }
{
    match slot {
        Slot::Workers => "--workers",
        Slot::Errors => "--errors",
    }
}

// How many arguments a command takes, in words.
fn arguments_wanted(command: &str) -> &'static str
    ensures { result.now ≡ wanted_text command.now }
{
    if command == "run" {
        "5 to 260 arguments (5 names, then loads)"
    } else if command == "check" {
        "1 argument"
    } else if command == "migrate" {
        "2 arguments"
    } else {
        "3 arguments"
    }
}

// The name of an argument, as the command's line has it.
fn argument_name(command: &str, at: usize) -> &'static str
    ensures { result.now ≡ argument_text command.now at }
{
    if command == "run" {
        word_at(&["IN", "OUT", "VERDICTS", "VERSIONS", "TABLE"], at)
    } else if command == "demo" {
        word_at(&["SEED", "COUNT", "WORKERS"], at)
    } else if command == "migrate" {
        word_at(&["TABLE", "NEW-TABLE"], at)
    } else {
        word_at(&["TABLE", "ADDRESS", "PORT"], at)
    }
}
