// Each half over a system, each of whose calls fails in turn, and what is kept of the last call that failed.
ghost use Rattle.std.specs.Prelude.{◌≤◌};

use crate::outside::{answer, first_other, holds};
use aftr_io::{
    Fault, MemSystem, Outside, ReadError, Reading, RealFiles, SystemReading, SystemWriting,
    WriteCall, WriteError, Writing, append_all, fill, real_files,
};
use std::alloc::Global;
use std::io::ErrorKind;
use std::rt::Files as FileSystem;
use std::test::Fail;

// An answer as one letter: a digit, or `f` if the call failed.
fn letter(answer: Result<usize, Fault>) -> &'static str {
    match answer {
        Ok(count) => ["0", "1", "2", "3", "4", "5", "6", "7", "8"]
            .get(count)
            .unwrap_or(&"?"),
        Err(Fault::Failed) => "f",
        Err(Fault::OutOfMemory) => "m",
    }
}

fn fill_from<I: Reading>(alloc: Global, files: &mut I, name: &str, at: u64) -> Result<usize, Fault>
    requires { at ≤ 20 }
{
    let mut into = [0; 8];
    fill(alloc, files, name, at, &mut into)
}

// `count` if a call succeeds.
fn counted(answer: Result<(), Fault>, count: usize) -> Result<usize, Fault> {
    match answer {
        Ok(()) => Ok(count),
        Err(why) => Err(why),
    }
}

fn push_letters<const N: usize>(
    told: &mut String,
    answers: [Result<usize, Fault>; N],
) -> Result<(), Fail> {
    for answer in answers {
        told.push_str(letter(answer))?;
    }
    Ok(())
}

// Reads eight bytes of a file from places 0, 20 and 1.
fn reads<I: Reading>(alloc: Global, files: &mut I, name: &str) -> [Result<usize, Fault>; 3] {
    [
        fill_from(alloc, files, name, 0),
        fill_from(alloc, files, name, 20),
        fill_from(alloc, files, name, 1),
    ]
}

// Makes a file and appends eight bytes.
fn writes<O: Writing>(alloc: Global, files: &mut O, name: &str) -> [Result<usize, Fault>; 2] {
    [
        counted(files.create(alloc, name), 0),
        counted(append_all(alloc, files, name, b"abcdefgh"), 8),
    ]
}

/// Makes a file, appends eight bytes, and reads eight from places 0, 20 and 1: the answers, a letter each.
pub(crate) fn story<I: Reading, O: Writing>(
    alloc: Global,
    files: &mut Outside<I, O>,
    name: &str,
) -> Result<String, Fail> {
    let mut told = String::new(alloc);
    push_letters(&mut told, writes(alloc, &mut files.writing, name))?;
    push_letters(&mut told, reads(alloc, &mut files.reading, name))?;
    Ok(told)
}

// The file and the place of the last read that failed.
fn last_read(alloc: Global, last: Option<&ReadError>) -> Result<String, Fail> {
    match last {
        Some(last) => Ok(format!(in alloc; "{} {}", last.name.as_str(), last.at)?),
        None => Ok(String::from_str(alloc, "-")?),
    }
}

// The last create or append that failed, and its file.
fn last_write(alloc: Global, last: Option<&WriteError>) -> Result<String, Fail> {
    let Some(last) = last else {
        return Ok(String::from_str(alloc, "-")?);
    };
    let word = match last.call {
        WriteCall::Create => "create",
        WriteCall::Append => "append",
    };
    Ok(format!(in alloc; "{word} {}", last.name.as_str())?)
}

// By the number of the call that fails, the answers and the last read that failed. The calls, of at most three bytes each, are: open and
// three reads; a seek and a read; a seek and four reads.
const READS: &str = "\
f07|in 0
f07|in 0
f07|in 3
f07|in 6
8f7|in 20
8f7|in 20
80f|in 1
80f|in 1
80f|in 4
80f|in 7
80f|in 8
807|-
";

fn failing_system(alloc: Global, failing: u64) -> Result<MemSystem, Fail> {
    let mut system = MemSystem::new(alloc, 3);
    system.fail_at(alloc, failing)?;
    Ok(system)
}

fn told_of_reads(alloc: Global, failing: u64) -> Result<String, Fail> {
    let mut system = failing_system(alloc, failing)?;
    system.set(alloc, "in", b"abcdefgh")?;
    let mut files = SystemReading::over(system);
    let mut told = String::new(alloc);
    push_letters(&mut told, reads(alloc, &mut files, "in"))?;
    told.push_str("|")?;
    let last = last_read(alloc, files.last_error())?;
    told.push_str(last.as_str())?;
    Ok(told)
}

#[test]
fn each_failing_call_of_a_read_is_told_and_kept(rt: HostRuntime) -> Result<(), Fail> {
    let alloc = rt.alloc();
    let mut failing = 0u64;
    for wanted in READS.lines() {
        let told = told_of_reads(alloc, failing)?;
        assert_eq!(rt; told.as_str(), wanted, "call {failing}");
        failing = failing.saturating_add(1);
    }
    Ok(())
}

// By the number of the call that fails, the answers, the last call that failed, and what the two files hold then: `-` if there is none. The
// calls, of at most three bytes each, are: create and three writes; an opening of the second file and a write; a create of it.
const WRITES: &str = "\
ff20|append out|-|
0f20|append out||
0f20|append out|abc|
0f20|append out|abcdef|
08f0|append log|abcdefgh|
08f0|append log|abcdefgh|
082f|create log|abcdefgh|xyij
0820|-|abcdefgh|
";

fn told_by_writing(alloc: Global, files: &mut SystemWriting<MemSystem>) -> Result<String, Fail> {
    let mut told = String::new(alloc);
    push_letters(&mut told, writes(alloc, files, "out"))?;
    let more = [
        counted(append_all(alloc, files, "log", b"ij"), 2),
        counted(files.create(alloc, "log"), 0),
    ];
    push_letters(&mut told, more)?;
    told.push_str("|")?;
    let last = last_write(alloc, files.last_error())?;
    told.push_str(last.as_str())?;
    Ok(told)
}

fn is_held(held: Option<&[u8]>, wanted: &str) -> bool {
    holds(held, wanted.as_bytes()) || (held.is_none() && wanted == "-")
}

// Whether a line is right if this call fails.
fn is_written(alloc: Global, failing: u64, line: &str) -> Result<bool, Fail> {
    let mut system = failing_system(alloc, failing)?;
    system.set(alloc, "log", b"xy")?;
    let mut files = SystemWriting::over(system, alloc);
    let told = told_by_writing(alloc, &mut files)?;
    let (front, log) = line.rsplit_once('|').ok_or("a file")?;
    let (front, out) = front.rsplit_once('|').ok_or("two files")?;
    let system = files.system();
    Ok(told.as_str() == front && is_held(system.get("out"), out) && is_held(system.get("log"), log))
}

#[test]
fn each_failing_call_of_a_write_is_told_and_kept(rt: HostRuntime) -> Result<(), Fail> {
    let mut failing = 0u64;
    for line in WRITES.lines() {
        assert!(rt; is_written(rt.alloc(), failing, line)?, "{line}");
        failing = failing.saturating_add(1);
    }
    Ok(())
}

// Reads of two files in turn, and between them writes of two others of the same names.
const IN_TURN: &str = "fill in 0 8=abc
append in de=2
fill other 2 8=wxyz
fill in 1 8=bc
append in f=1
create other=0
fill other 3 8=xyz
append other 1=1
create other=0
append other 23=2
fill other 0 2=uv
read in 0 2=ab
read in 3 2=";

fn two_files(alloc: Global) -> Result<MemSystem, Fail> {
    let mut system = MemSystem::new(alloc, 100);
    system.set(alloc, "in", b"abc")?;
    system.set(alloc, "other", b"uvwxyz")?;
    Ok(system)
}

#[test]
fn files_are_read_and_written_in_turn(rt: HostRuntime) -> Result<(), Fail> {
    let alloc = rt.alloc();
    let mut files = Outside {
        reading: SystemReading::over(two_files(alloc)?),
        writing: SystemWriting::over(two_files(alloc)?, alloc),
    };
    assert_eq!(rt; first_other(alloc, &mut files, "", IN_TURN)?, "");
    let written = files.writing.system();
    assert!(rt; holds(written.get("in"), b"abcdef") && holds(written.get("other"), b"23"));
    let read = files.reading.system();
    assert!(rt; holds(read.get("in"), b"abc") && holds(read.get("other"), b"uvwxyz"));
    Ok(())
}

// Calls that fail, and the kind of what the system says.
const KINDS: [(&str, ErrorKind); 5] = [
    ("read /proc/aftr_base_none 7", ErrorKind::NotFound),
    ("read /tmp 0", ErrorKind::IsADirectory),
    ("create /proc/aftr_base_none/out", ErrorKind::NotFound),
    ("create /tmp", ErrorKind::IsADirectory),
    ("append /dev/full x", ErrorKind::StorageFull),
];

// What the system said last of the half that a call is of.
fn last_kind<R: FileSystem + Copy + Drop>(files: &RealFiles<R>, call: &str) -> Option<ErrorKind> {
    if call == "read" {
        return match files.reading.last_error() {
            Some(last) => Some(last.error.kind()),
            None => None,
        };
    }
    match files.writing.last_error() {
        Some(last) => Some(last.error.kind()),
        None => None,
    }
}

// What the system said last behind a call.
fn kind_behind<R: FileSystem + Copy + Drop>(
    alloc: Global,
    files: &mut RealFiles<R>,
    line: &str,
) -> Option<ErrorKind> {
    let mut words = line.split(' ');
    let call = words.next().unwrap_or("");
    let name = words.next().unwrap_or("");
    let rest = words.next();
    let mut into = [0; 4];
    let _ = answer(alloc, files, call, name, rest, &mut into);
    last_kind(files, call)
}

// The first of these calls after which another kind is kept. Nothing is kept before them.
fn first_other_kind<R: FileSystem + Copy + Drop>(
    alloc: Global,
    files: &mut RealFiles<R>,
) -> &'static str {
    if files.reading.last_error().is_some() || files.writing.last_error().is_some() {
        return "no call";
    }
    'calls: for (line, kind) in KINDS {
        if kind_behind(alloc, files, line) != Some(kind) {
            return line;
        }
    }
    ""
}

// It, and what each half keeps of its last call that failed.
fn other_kind<R: FileSystem + Copy + Drop>(
    alloc: Global,
    system: R,
) -> Result<(&'static str, [String; 2]), Fail> {
    let mut files = real_files(system, alloc);
    let other = first_other_kind(alloc, &mut files);
    let read = last_read(alloc, files.reading.last_error())?;
    let written = last_write(alloc, files.writing.last_error())?;
    Ok((other, [read, written]))
}

#[test]
fn what_the_system_said_is_kept(rt: HostRuntime) -> Result<(), Fail> {
    let (other, [read, written]) = other_kind(rt.alloc(), &rt)?;
    assert_eq!(rt; other, "");
    assert_eq!(rt; read.as_str(), "/tmp 0");
    assert_eq!(rt; written.as_str(), "append /dev/full");
    Ok(())
}
