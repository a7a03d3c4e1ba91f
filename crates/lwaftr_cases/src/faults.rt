// Each call of the outside failing in turn.
use crate::captures::{Form, capture_of};
use crate::cases::part;
use crate::due::{Due, READS, RECORDS, TABLE, WORDS, due_of};
use crate::given::RUNS;
use crate::loads::FIVE;
use crate::outside::Narrow;
use crate::runs::{Ran, files_of, run_over};
use crate::tables::table_text;
use crate::workers::{WINDOW, at_point};
use lwaftr_engine::{Status, status_line};
use std::alloc::Global;
use std::sync::Wait;
use std::test::Fail;
use std::thread::Threads;
use worker_gate::OpenGate;

/// Which call is to fail, counted from 0 among those of its kind.
#[derive(Clone, Copy)]
enum Failing {
    Read(usize),
    /// A create or an append.
    Write(usize),
    /// A put of 16 bytes of the summary.
    Put(usize),
}

/// The kinds of calls that may fail.
#[derive(Clone, Copy)]
enum Kind {
    Reads,
    Writes,
    Puts,
}

impl Kind {
    fn at(self, call: usize) -> Failing {
        match self {
            Kind::Reads => Failing::Read(call),
            Kind::Writes => Failing::Write(call),
            Kind::Puts => Failing::Put(call),
        }
    }

    /// A run has more calls of this kind than so many.
    fn least(self) -> usize {
        match self {
            Kind::Reads => 5,
            Kind::Writes => 6,
            Kind::Puts => 3,
        }
    }
}

/// The run of this line over this capture, in which this call is to fail.
fn run_failing<R: Threads + Wait + Sync>(
    rt: &R,
    alloc: Global,
    line: &str,
    capture: &[u8],
    failing: Failing,
) -> Result<Ran, Fail> {
    let mut files = files_of(alloc, capture, part(line, TABLE), part(line, WORDS))?;
    let mut out = Narrow::wide(alloc);
    match failing {
        Failing::Read(call) => files.reading.files.fail_at(alloc, call as u64)?,
        Failing::Write(call) => files.writing.files.fail_at(alloc, call as u64)?,
        Failing::Put(put) => {
            out.sink.fail_at(alloc, put as u64)?;
            out.most = 16;
        }
    }
    run_over(rt, alloc, part(line, WORDS), files, out, &OpenGate)
}

/// Two records, as a line of `given` tells a run, and how many reads there are before the outputs are made.
const TWO: &str = "two records|whole||P@1+1*2|0..2 0 up 1||\
    records 2 held 0 forwarded 2 dropped 0 packets 2 version 0|p@1+1*2|done|4";

/// What each read that fails leaves of a run over two records: OUT has 24 bytes and 48 for each, VERDICTS 9 for each, VERSIONS
/// 18, and the summary 59. The table and the capture are read until nothing is left, and the records are written behind the read that
/// finds nothing more.
const READ: &str = "\
read t0.toml: read fault - - - 0
read t0.toml: read fault - - - 0
read in.pcap: read fault - - - 0
read in.pcap: read fault - - - 0
read in.pcap: read fault 24 0 18 59
read in.pcap: read fault 120 18 18 59
no call: done 120 18 18 59";

/// What each create or append that fails leaves of it.
const WRITTEN: &str = "\
create out.pcap: write fault - - - 0
create verdicts.txt: write fault 0 - - 0
create versions.txt: write fault 0 0 - 0
append out.pcap: write fault 0 0 0 0
append versions.txt: write fault 24 0 0 0
append out.pcap: write fault 24 0 18 0
append verdicts.txt: write fault 120 0 18 0
no call: done 120 18 18 59";

/// What a put that fails leaves, of a summary of 59 bytes that is put 16 bytes at a time.
const PUT: &str = "\
no call: write fault 120 18 18 0
no call: write fault 120 18 18 16
no call: write fault 120 18 18 32
no call: write fault 120 18 18 48
no call: done 120 18 18 59";

/// What a run left: the call that failed, the status, how long OUT, VERDICTS and VERSIONS are, or `-` where there is no such file, and how
/// much was put.
fn told(alloc: Global, ran: &Ran) -> Result<String, Fail> {
    let (call, name) = if ran.files.reading.lost > 0 {
        ("read", ran.files.reading.failed)
    } else {
        ran.files.writing.failed
    };
    let status = status_line(alloc, &ran.status)?;
    let status = status.as_str().trim_end_matches('\n');
    let mut text = format!(in alloc; "{call} {name}: {status}")?;
    for name in ["out.pcap", "verdicts.txt", "versions.txt"] {
        match ran.files.writing.files.get(name) {
            Some(bytes) => {
                let length = bytes.len();
                text.push_str(&format!(in alloc; " {length}")?)?;
            }
            None => text.push_str(" -")?,
        }
    }
    let said = ran.said().len();
    text.push_str(&format!(in alloc; " {said}")?)?;
    Ok(text)
}

/// What the run of two records leaves where this call fails, in which the capture and the table are as they were.
fn left<R: Threads + Wait + Sync>(rt: &R, alloc: Global, failing: Failing) -> Result<String, Fail> {
    let capture = capture_of(alloc, Form::Micro, part(TWO, RECORDS))?;
    let table = table_text(alloc, part(TWO, TABLE))?;
    let ran = run_failing(rt, alloc, TWO, &capture, failing)?;
    let text = told(alloc, &ran)?;
    let reading = &ran.files.reading;
    if reading.bytes("in.pcap") != capture.as_slice() || reading.text("t0.toml") != table.as_str() {
        return Err("the capture and the table".into());
    }
    Ok(text)
}

#[test]
fn each_read_may_fail(rt: HostRuntime) -> Result<(), Fail> {
    for (call, line) in READ.lines().enumerate() {
        assert_eq!(rt; left(&rt, rt.alloc(), Failing::Read(call))?.as_str(), line);
    }
    Ok(())
}

#[test]
fn each_create_and_append_may_fail(rt: HostRuntime) -> Result<(), Fail> {
    for (call, line) in WRITTEN.lines().enumerate() {
        assert_eq!(rt; left(&rt, rt.alloc(), Failing::Write(call))?.as_str(), line);
    }
    Ok(())
}

#[test]
fn each_put_may_fail(rt: HostRuntime) -> Result<(), Fail> {
    for (put, line) in PUT.lines().enumerate() {
        assert_eq!(rt; left(&rt, rt.alloc(), Failing::Put(put))?.as_str(), line);
    }
    Ok(())
}

/// The run of the window whose point is not reached.
const UNREACHED: &str =
    "no point|whole|2-4:none --workers 4|P@1+1*6|0..6 0 up 1|- none not-reached|\
    records 6 held 0 forwarded 6 dropped 0 packets 6 version 0|p@1+1*6|done";

/// Many rounds of records.
const MANY: &str = "many rounds|whole|--workers {workers}|P@1+1*50000|0..50000 0 up 1||\
    records 50000 held 0 forwarded 50000 dropped 0 packets 50000 version 0|p@1+1*50000|done";

/// Whether the run of this line leaves what it may where this call fails, and nothing is left to fail. Of the window what
/// is due hangs on the point, if VERSIONS names it. The reads before the outputs are those that leave nothing.
fn step<R: Threads + Wait + Sync>(
    rt: &R,
    alloc: Global,
    line: &str,
    (capture, due): (&[u8], &Due),
    failing: Failing,
) -> Result<Option<bool>, Fail> {
    let ran = run_failing(rt, alloc, line, capture, failing)?;
    let put = match failing {
        Failing::Put(put) => Some(put),
        Failing::Read(_) | Failing::Write(_) => None,
    };
    let versions = ran.files.writing.text("versions.txt");
    if line.contains("{point}") && versions.ends_with('\n') && versions.contains(" at ") {
        let line = at_point(alloc, line, &ran)?;
        return Ok(due_of(alloc, Form::Micro, &line)?.allows(&ran, put));
    }
    let leaves_nothing = ran.status == Status::ReadFault && !ran.has_outputs();
    match (failing, part(line, READS).parse::<usize>()) {
        (Failing::Read(call), Ok(reads)) if leaves_nothing != (call < reads) => Ok(None),
        _ => Ok(due.allows(&ran, put)),
    }
}

/// The run of this line by so many workers ends well whichever call of this kind fails: each of them, or one of so many, up to where none
/// is left; and there are more than a few.
fn ends_well<R: Threads + Wait + Sync>(
    rt: &R,
    alloc: Global,
    line: &str,
    workers: &str,
    stride: usize,
    kind: Kind,
) -> Result<bool, Fail> {
    let line = line.replace(alloc, "{workers}", workers)?;
    let capture = capture_of(alloc, Form::Micro, part(&line, RECORDS))?;
    let told = if line.contains("{point}") {
        UNREACHED
    } else {
        line.as_str()
    };
    let due = due_of(alloc, Form::Micro, told)?;
    for turn in 0..200usize {
        let at = turn.wrapping_mul(stride);
        match step(rt, alloc, &line, (&capture, &due), kind.at(at))? {
            Some(true) => return Ok(at > kind.least()),
            Some(false) => {}
            None => return Ok(false),
        }
    }
    Ok(false)
}

/// The first run that ends otherwise where a call of this kind fails, of those in which tables are loaded and of the first one.
fn first_wrong<R: Threads + Wait + Sync>(
    rt: &R,
    alloc: Global,
    kind: Kind,
) -> Result<Option<&'static str>, Fail> {
    for text in [RUNS, TWO, FIVE, WINDOW] {
        for line in text.lines() {
            let loads = line.contains("workers") || line.contains("city") || text != RUNS;
            if loads && !ends_well(rt, alloc, line, "4", 1, kind)? {
                return Ok(Some(line));
            }
        }
    }
    Ok(None)
}

#[test]
fn each_read_may_fail_where_tables_are_loaded(rt: HostRuntime) -> Result<(), Fail> {
    let wrong = first_wrong(&rt, rt.alloc(), Kind::Reads)?;
    assert_eq!(rt; wrong, None);
    Ok(())
}

#[test]
fn each_create_and_append_may_fail_where_tables_are_loaded(rt: HostRuntime) -> Result<(), Fail> {
    let wrong = first_wrong(&rt, rt.alloc(), Kind::Writes)?;
    assert_eq!(rt; wrong, None);
    Ok(())
}

#[test]
fn each_put_may_fail_where_tables_are_loaded(rt: HostRuntime) -> Result<(), Fail> {
    let wrong = first_wrong(&rt, rt.alloc(), Kind::Puts)?;
    assert_eq!(rt; wrong, None);
    Ok(())
}

#[test]
fn each_call_may_fail_over_many_rounds(rt: HostRuntime) -> Result<(), Fail> {
    let alloc = rt.alloc();
    for (workers, stride) in [("1", 1), ("4", 3), ("16", 5)] {
        for kind in [Kind::Reads, Kind::Writes] {
            let right = ends_well(&rt, alloc, MANY, workers, stride, kind)?;
            assert!(rt; right, "{workers}");
        }
    }
    Ok(())
}
