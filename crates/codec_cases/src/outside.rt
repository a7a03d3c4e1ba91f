// Short stories of calls of both halves: which of them fail, what the files hold then, and how far the loops come.
ghost use Rattle.std.specs.Prelude.{◌<◌, ◌≤◌, ◌^◌, length};

use aftr_io::{
    Fault, MemReading, MemSink, MemWriting, Outside, QuietReading, QuietWriting, Reading, Writing,
    append_all, fill, put_all, real_files,
};
use std::alloc::Global;
use std::rt::Files as FileSystem;
use std::test::Fail;
use std::{fs, process};

/// Whether there is a file, of just these bytes.
pub(crate) fn holds(held: Option<&[u8]>, bytes: &[u8]) -> bool {
    match held {
        Some(held) => held == bytes,
        None => false,
    }
}

/// The number that a word spells, or 0.
pub(crate) fn number(word: Option<&str>) -> usize {
    match word {
        Some(word) => word.parse().unwrap_or(0),
        None => 0,
    }
}

/// Does what the words of a call ask for, and reads into the front of the buffer.
pub(crate) fn answer<I: Reading, O: Writing>(
    alloc: Global,
    files: &mut Outside<I, O>,
    call: &str,
    name: &str,
    rest: Option<&str>,
    into: &mut [u8],
) -> Result<usize, Fault>
    requires { length into.old ≤ 8 }
{
    let bytes = rest.unwrap_or("").as_bytes();
    match call {
        "read" => files.reading.read(alloc, name, number(rest) as u64, into),
        "fill" => fill(
            alloc,
            &mut files.reading,
            name,
            number(rest).min(1_000) as u64,
            into,
        ),
        "append" => files.writing.append(alloc, name, bytes),
        "put" => {
            append_all(alloc, &mut files.writing, name, bytes)?;
            Ok(bytes.len())
        }
        _ => {
            files.writing.create(alloc, name)?;
            Ok(0)
        }
    }
}

// Whether these bytes are the first ones of a buffer of zeros, and the others are as they were.
fn are_read(into: &[u8], bytes: &[u8]) -> bool {
    match into.strip_prefix(bytes) {
        Some(rest) => [0; 8].starts_with(rest),
        None => false,
    }
}

// Whether a call is answered so: by what was read, by how many bytes were appended, or by `failed`, with nothing read.
fn is_answered(answer: Result<usize, Fault>, reads: bool, into: &[u8], wanted: &str) -> bool {
    match answer {
        Ok(count) if reads => count == wanted.len() && are_read(into, wanted.as_bytes()),
        Ok(count) => wanted.parse() == Ok(count),
        Err(why) => why == Fault::Failed && wanted == "failed" && are_read(into, b""),
    }
}

// Whether files do what a line says: a call, the name of a file, of which `~` is this path, and what is appended, or the place and
// the number of bytes that are read; and behind `=` the answer.
fn does<I: Reading, O: Writing>(
    alloc: Global,
    files: &mut Outside<I, O>,
    path: &str,
    line: &str,
) -> Result<bool, Fail> {
    let (asked, wanted) = line.split_once('=').ok_or("an answer")?;
    let mut words = asked.split(' ');
    let call = words.next().unwrap_or("");
    let name = words.next().unwrap_or("");
    let name = if name == "~" { path } else { name };
    let rest = words.next();
    let mut buffer = [0; 8];
    let size = number(words.next()).min(8);
    let into = &mut buffer[..size];
    let answer = answer(alloc, files, call, name, rest, into);
    Ok(is_answered(answer, size > 0, into, wanted))
}

/// The first line of a story that files do otherwise.
pub(crate) fn first_other<I: Reading, O: Writing>(
    alloc: Global,
    files: &mut Outside<I, O>,
    path: &str,
    lines: &'static str,
) -> Result<&'static str, Fail> {
    'lines: for line in lines.lines() {
        if !does(alloc, files, path, line)? {
            return Ok(line);
        }
    }
    Ok("")
}

// Reads 1 and 5 are to fail, and writes 1 and 4. Each half counts its own calls; what one half writes, the other does not hold.
const IN_MEMORY: &str = "read in 3 3=de
create out=0
read in 0 3=failed
append out x=failed
append out xyz=3
read out 0 3=failed
read other 0 3=failed
append other f=failed
read in 6 3=
create log=failed
append log c=1
read in 0 8=failed
read in 0 8=abcde
create note=0
append in x=failed";

fn failing_reading(alloc: Global) -> Result<MemReading, Fail> {
    let mut files = MemReading::new(alloc);
    files.set(alloc, "in", b"abcde")?;
    for call in [1, 5] {
        files.fail_at(alloc, call)?;
    }
    Ok(files)
}

fn failing_writing(alloc: Global) -> Result<MemWriting, Fail> {
    let mut files = MemWriting::new(alloc);
    files.set(alloc, "log", b"ab")?;
    files.set(alloc, "note", b"uv")?;
    for call in [1, 4] {
        files.fail_at(alloc, call)?;
    }
    Ok(files)
}

#[test]
fn files_in_memory_fail_at_their_chosen_calls(rt: HostRuntime) -> Result<(), Fail> {
    let alloc = rt.alloc();
    let mut files = Outside {
        reading: failing_reading(alloc)?,
        writing: failing_writing(alloc)?,
    };
    assert_eq!(rt; first_other(alloc, &mut files, "", IN_MEMORY)?, "");
    let written = files.writing;
    assert!(rt; holds(written.get("out"), b"xyz") && holds(written.get("log"), b"abc"));
    assert!(rt; holds(written.get("note"), b"") && written.get("other").is_none());
    Ok(())
}

const QUIET: &str = "read in 1 2=bc
read out 0 2=
append out xy=2
append log c=1
create note=0
read out 0 2=
read in 0 8=abc";

#[test]
fn quiet_files_never_fail(rt: HostRuntime) -> Result<(), Fail> {
    let alloc = rt.alloc();
    let mut files = Outside {
        reading: QuietReading::new(alloc),
        writing: QuietWriting::new(alloc),
    };
    files.reading.set(alloc, "in", b"abc")?;
    files.writing.set(alloc, "log", b"ab")?;
    files.writing.set(alloc, "note", b"uv")?;
    assert_eq!(rt; first_other(alloc, &mut files, "", QUIET)?, "");
    let written = files.writing;
    assert!(rt; holds(written.get("out"), b"xy") && holds(written.get("log"), b"abc"));
    assert!(rt; holds(written.get("note"), b"") && written.get("in").is_none());
    Ok(())
}

const LOOPS: &str = "fill in 0 4=abcd
fill in 2 4=cde
fill out 0 4=failed
put log fg=2
put out fg=failed
fill in 0 8=abcde";

#[test]
fn the_loops_go_on_to_the_end_or_the_first_fault(rt: HostRuntime) -> Result<(), Fail> {
    let alloc = rt.alloc();
    let mut files = Outside {
        reading: MemReading::new(alloc),
        writing: MemWriting::new(alloc),
    };
    files.reading.set(alloc, "in", b"abcde")?;
    files.writing.set(alloc, "log", b"ab")?;
    assert_eq!(rt; first_other(alloc, &mut files, "", LOOPS)?, "");
    assert!(rt; holds(files.writing.get("log"), b"abfg"));
    Ok(())
}

fn puts(alloc: Global, sink: &mut MemSink) -> [Result<(), Fault>; 3] {
    [
        put_all(alloc, sink, b"one"),
        put_all(alloc, sink, b"two"),
        put_all(alloc, sink, b"three"),
    ]
}

#[test]
fn a_sink_takes_what_does_not_fail(rt: HostRuntime) -> Result<(), Fail> {
    let mut sink = MemSink::new(rt.alloc());
    sink.fail_at(rt.alloc(), 1)?;
    assert_eq!(rt;
        puts(rt.alloc(), &mut sink),
        [Ok(()), Err(Fault::Failed), Ok(())]
    );
    assert!(rt; holds(Some(sink.bytes()), b"onethree"));
    Ok(())
}

// A row of 251 different bytes.
fn row() -> [u8; 251] {
    let mut row = [0; 251];
    for (place, byte) in row.iter_mut().enumerate() {
        *byte = place as u8;
    }
    row
}

// Makes a file of 4,800 such rows.
fn put_rows<O: Writing>(alloc: Global, files: &mut O, name: &str) -> Result<(), Fault> {
    files.create(alloc, name)?;
    let row = row();
    for _ in 0..4_800 {
        append_all(alloc, files, name, &row)?;
    }
    Ok(())
}

// Reads a file of such rows in pieces, and counts its bytes up to the first that is wrong.
fn count_back<I: Reading>(
    alloc: Global,
    files: &mut I,
    name: &str,
    into: &mut [u8],
) -> Result<u64, Fault>
    requires { length into.old < 2 ^ 32 }
{
    let mut at = 0u64;
    'pieces: for _ in 0..9_999 {
        if at > 4_000_000 {
            break;
        }
        let count = fill(alloc, files, name, at, into)?;
        for byte in &into[..count] {
            if u64::from(*byte) != at % 251 {
                return Ok(at);
            }
            at = at.saturating_add(1);
        }
        if count < into.len() {
            break;
        }
    }
    Ok(at)
}

/// The path of a file of this test run.
pub(crate) fn temporary(rt: &HostRuntime, name: &str) -> Result<String, Fail> {
    Ok(format!(in rt.alloc(); "/tmp/aftr_base_{name}_{}", process::id(rt.process()))?)
}

// Makes a file of rows, and counts them back by long and by short reads.
fn rows_of<R: FileSystem + Copy + Drop>(
    alloc: Global,
    system: R,
    name: &str,
) -> Result<[Result<u64, Fault>; 2], Fault> {
    let mut files = real_files(system, alloc);
    put_rows(alloc, &mut files.writing, name)?;
    let mut odd = vec![in alloc; 0; 350_001]?;
    let mut few = [0; 1_000];
    Ok([
        count_back(alloc, &mut files.reading, name, &mut odd),
        count_back(alloc, &mut files.reading, name, &mut few),
    ])
}

#[test]
fn real_files_give_back_what_was_appended(rt: HostRuntime) -> Result<(), Fail> {
    let path = temporary(&rt, "rows")?;
    let answers = rows_of(rt.alloc(), &rt, path.as_str());
    fs::remove_file(&rt, path.as_str())?;
    assert_eq!(rt; answers?, [Ok(1_204_800); 2]);
    Ok(())
}

// A file that is there is emptied. A seek to no place of a file, and a read of a folder, which is opened and not read, spoil no later
// read. The system refuses the last four.
const REAL: &str = "create ~=0
append ~ xyz=3
create ~=0
append ~ abcde=5
append ~ f=1
put ~ gh=2
read ~ 2 4=cdef
read ~ 8 4=
read ~ 18446744073709551615 4=failed
read ~ 5 4=fgh
read /tmp 0 4=failed
read ~ 1 4=bcde
read /tmp/aftr_base_none 0 4=failed
append /tmp/aftr_base_none x=failed
create /tmp/aftr_base_none/file=failed
append /dev/full x=failed";

#[test]
fn real_files_answer_as_the_system_does(rt: HostRuntime) -> Result<(), Fail> {
    let path = temporary(&rt, "story")?;
    let mut files = real_files(&rt, rt.alloc());
    let other = first_other(rt.alloc(), &mut files, path.as_str(), REAL)?;
    fs::remove_file(&rt, path.as_str())?;
    assert_eq!(rt; other, "");
    Ok(())
}
