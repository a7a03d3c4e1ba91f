// The program over a runtime.
ghost use Rattle.std.specs.Prelude.{◌≤◌};

use crate::faults::Said;
use crate::lines::lines_below;
use crate::same_files::same_file_lines;
use crate::tables::table_lines;
use aftr_base::OutOfMemory;
use aftr_io::{RealSink, real_files};
use lwaftr_engine::{Status, code, lwaftr, status_line};
use std::alloc::Global;
use std::env;
use std::io::ErrorKind;
use std::rt::{Env, Files};
use std::sync::Wait;
use std::thread::Threads;
use worker_gate::SparingGate;

const NO_UTF8: &str = "  a word is no text in UTF-8\n";

const NO_MEMORY: &str = "  memory was wanted\n";

/// Does the job that the words behind the program's name ask for, and answers the exit code. A word that is no UTF-8 asks for none, and
/// words are refused in the same way where the system says that a file which the job makes is another file of it under a second name.
/// Unless all was done, the status line goes to standard error, and where that was written, the lines below it.
pub fn run_program<
    R: Alloc<A = Global> + Env + Files + Print + Eprint + Threads + Wait + Sync + Drop,
>(rt: &R) -> u8
    ensures code { result ≤ 7 }
{
    let alloc = rt.alloc();
    let args = match env::args(rt) {
        Ok(args) => args,
        Err(error) if error.kind() == ErrorKind::OutOfMemory => {
            return end_early(rt, alloc, &Status::OutOfMemory, NO_MEMORY);
        }
        Err(_) => return end_early(rt, alloc, &Status::Usage, NO_UTF8),
    };
    let mut texts = Vec::new(alloc);
    for text in args {
        if texts.push(text).is_err() {
            return end_early(rt, alloc, &Status::OutOfMemory, NO_MEMORY);
        }
    }
    let mut words = Vec::new(alloc);
    for text in texts.iter().skip(1) {
        if words.push(text.as_str()).is_err() {
            return end_early(rt, alloc, &Status::OutOfMemory, NO_MEMORY);
        }
    }
    do_job(rt, rt, alloc, &words)
}

// Does the job over a system's files, says how it ended, and answers the exit code.
fn do_job<
    F: Files + Copy + Drop,
    R: Alloc<A = Global> + Files + Print + Eprint + Threads + Wait + Sync + Drop,
>(system: F, rt: &R, alloc: Global, words: &[&str]) -> u8
    ensures code { result ≤ 7 }
{
    match same_file_lines(rt, alloc, words) {
        Ok(None) => {}
        Ok(Some(lines)) => return end_early(rt, alloc, &Status::Usage, lines.as_str()),
        Err(OutOfMemory) => return end_early(rt, alloc, &Status::OutOfMemory, NO_MEMORY),
    }
    let mut files = real_files(system, alloc);
    let mut out = RealSink::new(rt);
    let mut history = None;
    let status = lwaftr(
        rt,
        alloc,
        words,
        &mut files,
        &mut out,
        &SparingGate,
        &mut history,
    );
    let said = Said {
        reading: files.reading.last_error(),
        writing: files.writing.last_error(),
        sink: out.last_error(),
    };
    report(rt, alloc, words, &status, said);
    code(&status)
}

// The status line on standard error, where memory and standard error allow it, and then the lines below it.
fn report<R: Alloc<A = Global> + Eprint + Files>(
    rt: &R,
    alloc: Global,
    words: &[&str],
    status: &Status,
    said: Said<'_>,
) {
    if *status == Status::Done || !tell_status(rt, alloc, status) {
        return;
    }
    if let Ok(lines) = lines_below(alloc, words, status, said) {
        let _ = rt.eprint(lines.as_str());
    }
    match table_lines(rt, alloc, words, status) {
        Ok(lines) => {
            let _ = rt.eprint(lines.as_str());
        }
        Err(OutOfMemory) if *status == Status::OutOfMemory => {
            let _ = rt.eprint(NO_MEMORY);
        }
        Err(OutOfMemory) => {}
    }
}

// The same where no job was begun, with these lines.
fn end_early<R: Eprint>(rt: &R, alloc: Global, status: &Status, lines: &str) -> u8
    ensures code { result ≤ 7 }
{
    if tell_status(rt, alloc, status) {
        let _ = rt.eprint(lines);
    }
    code(status)
}

// Whether the status line was written.
fn tell_status<R: Eprint>(rt: &R, alloc: Global, status: &Status) -> bool {
    match status_line(alloc, status) {
        Ok(line) => rt.eprint(line.as_str()).is_ok(),
        Err(_) => false,
    }
}
