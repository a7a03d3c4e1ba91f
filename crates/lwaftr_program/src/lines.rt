// The lines below the status line, for people. Each begins with two blanks.
ghost use Rattle.std.specs.Prelude.{◌≡◌, [], IfOk};
ghost use Rattle.lwaftr_engine.specs.declared.status.Status.TheVariants as status_is;

use crate::faults::{Said, read_line, write_line};
use crate::naming::{capture_name, push_named};
use aftr_base::{OutOfMemory, Text};
use aftr_text::{HELP, Job, JobError, fault_line, read_job, usage_line};
use capture_io::{CaptureBad, NgBad};
use lwaftr_engine::Status;
use std::alloc::Global;

/// What a person may want to know of a job that did not end well: which word is wrong, which files it was about, what the system said of
/// them, and what helps. The words are those behind the program's name. No file is read for it.
pub fn lines_below(
    alloc: Global,
    words: &[&str],
    status: &Status,
    said: Said<'_>,
) -> Result<Text, OutOfMemory>
    ensures done { status.now ≡ status_is.Done → IfOk result (λ lines. lines ≡ []) }
{
    if let Status::Done = status {
        return Ok(Text::of(String::new(alloc)));
    }
    match read_job(alloc, words) {
        Ok(job) => job_lines(alloc, &job, status, said),
        Err(JobError::Refused(fault)) => {
            let line = fault_line(alloc, words, fault)?;
            usage_lines(alloc, words, line.as_str())
        }
        Err(JobError::OutOfMemory) => Err(OutOfMemory),
    }
}

/// What is wrong with the words, and how the command is written; where there is no such command, how all are.
pub(crate) fn usage_lines(alloc: Global, words: &[&str], fault: &str) -> Result<Text, OutOfMemory> {
    let mut text = String::new(alloc);
    text.push_str(fault)?;
    match usage_of(words) {
        Some(usage) => {
            text.push_str("  ")?;
            text.push_str(usage)?;
            text.push_str("\n")?;
        }
        None => push_commands(&mut text)?,
    }
    Ok(Text::of(text))
}

fn usage_of(words: &[&str]) -> Option<&'static str> {
    match words.first() {
        Some(command) => usage_line(command),
        None => None,
    }
}

// The lines of all commands, out of `HELP`.
fn push_commands(text: &mut String) -> Result<(), OutOfMemory> {
    'lines: for line in HELP.lines() {
        if line.starts_with("lwaftr ") {
            text.push_str("  ")?;
            text.push_str(line)?;
            text.push_str("\n")?;
        }
    }
    Ok(())
}

fn job_lines(
    alloc: Global,
    job: &Job,
    status: &Status,
    said: Said<'_>,
) -> Result<Text, OutOfMemory> {
    match status {
        Status::ReadFault => read_line(alloc, said),
        Status::WriteFault => write_line(alloc, said),
        Status::BadCapture(cause) => capture_lines(alloc, job, cause),
        _ => Ok(Text::of(String::new(alloc))),
    }
}

// The name of the capture that was refused, and what makes one that can be read.
fn capture_lines(alloc: Global, job: &Job, cause: &CaptureBad) -> Result<Text, OutOfMemory> {
    let mut text = String::new(alloc);
    if let Some(name) = capture_name(job) {
        push_named(&mut text, "the capture is", name)?;
    }
    text.push_str(help_for(cause))?;
    Ok(Text::of(text))
}

fn help_for(cause: &CaptureBad) -> &'static str {
    match cause {
        CaptureBad::Magic => {
            "  it is no classic capture and no pcapng; if it is compressed, gunzip it first; else try: editcap -F pcap IN OUT\n"
        }
        CaptureBad::Version => {
            "  of classic captures version 2.4 is read alone; try: editcap -F pcap IN OUT\n"
        }
        CaptureBad::Link { .. } | CaptureBad::Ng(NgBad::Link { .. }) => {
            "  captures of Ethernet (1) and of plain IP (101) are read: capture on one interface of such a kind\n"
        }
        CaptureBad::CutHeader { at: 0 } => {
            "  it is shorter than a file header; nothing was written\n"
        }
        CaptureBad::CutHeader { .. } | CaptureBad::CutRecord { .. } => {
            "  it ends within a header or a record; all whole records before that were judged and written\n"
        }
        CaptureBad::TooLong { .. } | CaptureBad::Ng(NgBad::TooLong { .. }) => {
            "  a record says that it has more than 262144 bytes: the file is damaged there, or was captured with a longer snapshot\n"
        }
        CaptureBad::TooMany { .. } | CaptureBad::Ng(NgBad::TooMany { .. }) => {
            "  editcap -c 100000000 IN OUT splits it\n"
        }
        CaptureBad::Ng(NgBad::MixedLinks { .. }) => {
            "  one kind of interface to a file: capture on one interface, or split it\n"
        }
        CaptureBad::Ng(cause) => help_for_blocks(cause),
    }
}

fn help_for_blocks(cause: &NgBad) -> &'static str {
    match cause {
        NgBad::Cut { at: 0 } => "  it is shorter than a section header; nothing was written\n",
        NgBad::Cut { .. } => {
            "  it ends within a block; all whole records before that were judged and written\n"
        }
        NgBad::Version { .. } => "  of pcapng version 1 is read alone\n",
        NgBad::Old { .. }
        | NgBad::Interfaces { .. }
        | NgBad::Resolution { .. }
        | NgBad::Time { .. } => { "  editcap -F pcap IN OUT makes a classic capture of it\n" }
        _ => "  the file is damaged in the block that begins at that byte\n",
    }
}
