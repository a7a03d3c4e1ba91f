// The callers that the READMEs of reload_plan, load_files, error_limit, traffic_gen and aftr_text show, and what they answer.
use crate::plans::words_of;
use aftr_base::{Bytes, OutOfMemory, Text};
use aftr_io::{Fault, MemWriting, Writing, append_all};
use aftr_text::{
    Job, JobError, Totals, fault_line, push_point_line, push_verdict_line, read_job, summary,
    verdict_line,
};
use binding_file::{FileRefused, read_table};
use binding_rules::Table;
use case_data::{PORT_SET_TABLE, WHOLE_TABLE};
use error_limit::Limiter;
use load_files::{LoadFile, loads_of};
use reload_plan::{Load, Loaded, Made, Slot, plan};
use std::alloc::Global;
use std::test::Fail;
use std::thread::Threads;
use swap_core::Window;
use table_words::compile;
use traffic_gen::{Traffic, traffic_of};
use verdict_core::Verdict;

/// The plan of a run whose second table comes into force in a window.
fn plan_of_two(alloc: Global, first: &Table, second: &Table) -> Result<Made, OutOfMemory> {
    let words = compile(alloc, second)?;
    let load = Load {
        window: Window {
            earliest: 100,
            latest: 200,
        },
        loaded: Loaded::Words(words), // or Loaded::Refused(cause)
    };
    let mut loads = Vec::new(alloc);
    loads.push(load)?;
    plan(alloc, compile(alloc, first)?, loads) // a plan for the areas, and slots for the lines
}

/// The loads of files with these texts, which are all read, judged and compiled side by side.
fn loads_of_texts<R: Threads>(
    rt: &R,
    alloc: Global,
    texts: Vec<Bytes>,
) -> Result<Vec<Load>, OutOfMemory> {
    let mut files = Vec::new(alloc);
    'texts: for text in texts {
        let window = Window {
            earliest: 100,
            latest: 200,
        };
        files.push(LoadFile { window, text })?;
    }
    loads_of(rt, alloc, files) // loads for `plan` of reload_plan
}

/// Which errors are sent of those that come at these times, in nanoseconds, where ten may be sent in a second and ten at once.
fn times_sent(alloc: Global, times: &[u64]) -> Result<Vec<u64>, OutOfMemory> {
    let mut limiter = Limiter::new(10);
    let mut sent = Vec::new(alloc);
    'times: for time in times {
        if limiter.pass(*time) {
            sent.push(*time)?;
        }
    }
    Ok(sent)
}

/// Writes the capture of a seed, and answers the table that is in force first.
fn write_capture<O: Writing>(
    alloc: Global,
    files: &mut O,
    name: &str,
    seed: u64,
) -> Result<Table, Fault> {
    let Traffic { capture, first, .. } = traffic_of(alloc, seed, 1000)?; // 1 to 1,000,000 records
    files.create(alloc, name)?;
    append_all(alloc, files, name, capture.as_slice())?;
    Ok(first)
}

/// Which capture is read for these words, or why none is: the words behind the program's name.
fn capture_for(alloc: Global, words: &[&str]) -> Result<Text, OutOfMemory> {
    match read_job(alloc, words) {
        Ok(Job::Run(run)) => Ok(run.input), // and run.output, run.loads, run.workers, run.errors, ..
        Ok(_) => Text::copy(alloc, "no capture is read\n"),
        Err(JobError::Refused(fault)) => fault_line(alloc, words, fault),
        Err(JobError::OutOfMemory) => Err(OutOfMemory),
    }
}

/// The line of the first record, as `0 0 up 1`, and the last line of a run.
fn first_and_last(
    alloc: Global,
    verdict: Verdict,
    packets: u32,
    totals: Totals,
) -> Result<(Text, Text), OutOfMemory> {
    let line = verdict_line(alloc, 0, 0, verdict, packets)?;
    let last = summary(alloc, totals)?;
    Ok((line, last))
}

/// Puts the line of a record behind those of the records before it, and the line of the table that came with it, as `1 t1.toml at 4`,
/// at the end of a text.
fn push_lines(
    lines: &mut Vec<u8>,
    text: &mut String,
    number: u32,
    verdict: &Verdict,
) -> Result<(), OutOfMemory> {
    push_verdict_line(lines, number, 1, verdict, 1)?;
    push_point_line(text, 1, "t1.toml", number)
}

// The versions and windows of what the loads became.
fn second_window(alloc: Global) -> Result<Option<(u32, Window)>, Fail> {
    let first = read_table(alloc, WHOLE_TABLE.as_bytes())?;
    let second = read_table(alloc, PORT_SET_TABLE.as_bytes())?;
    let made = plan_of_two(alloc, &first, &second)?;
    match made.slots.as_slice().first() {
        Some(Slot::Version(1)) if made.plan.len() == 2 => Ok(Some((1, made.plan.window(1)))),
        _ => Ok(None),
    }
}

#[test]
fn a_second_table_has_its_window(rt: HostRuntime) -> Result<(), Fail> {
    let window = Window {
        earliest: 100,
        latest: 200,
    };
    assert_eq!(rt; second_window(rt.alloc())?, Some((1, window)));
    Ok(())
}

// Whether a table and a text that is none are the loads that they ought to be.
fn are_loaded<R: Threads>(rt: &R, alloc: Global) -> Result<bool, Fail> {
    let mut texts = Vec::new(alloc);
    texts.push(Bytes::copy(alloc, WHOLE_TABLE.as_bytes())?)?;
    texts.push(Bytes::copy(alloc, b"=")?)?;
    let loads = loads_of_texts(rt, alloc, texts)?;
    let words = words_of(alloc, WHOLE_TABLE)?;
    let first = match loads.first() {
        Some(load) => match &load.loaded {
            Loaded::Words(list) => list.as_slice() == words.as_slice(),
            Loaded::Refused(_) => false,
        },
        None => false,
    };
    let second = match loads.last() {
        Some(load) => matches!(&load.loaded, Loaded::Refused(FileRefused::NotToml)),
        None => false,
    };
    Ok(loads.len() == 2 && first && second)
}

#[test]
fn files_are_loaded_side_by_side(rt: HostRuntime) -> Result<(), Fail> {
    assert!(rt; are_loaded(&rt, rt.alloc())?);
    Ok(())
}

// Ten at once, and the next one a tenth of a second later.
#[test]
fn ten_errors_are_sent_in_a_second(rt: HostRuntime) -> Result<(), Fail> {
    let times = [0, 0, 0, 0, 0, 0, 0, 0, 0, 0, 0, 99_999_999, 100_000_000];
    let sent = times_sent(rt.alloc(), &times)?;
    assert_eq!(rt; sent.len(), 11);
    assert_eq!(rt; sent.last().copied(), Some(100_000_000));
    Ok(())
}

// A record has 48 or 88 bytes; the capture's head is that of little-endian microseconds.
#[test]
fn a_capture_is_written(rt: HostRuntime) -> Result<(), Fail> {
    let mut files = MemWriting::new(rt.alloc());
    let table = write_capture(rt.alloc(), &mut files, "in", 7)?;
    assert_eq!(rt; table.bindings().len(), 256);
    let bytes = files.get("in").unwrap_or(&[]);
    assert!(rt; bytes.starts_with(b"\xd4\xc3\xb2\xa1") && bytes.len() >= 24 + 1000 * 48);
    Ok(())
}

#[test]
fn words_name_a_capture(rt: HostRuntime) -> Result<(), Fail> {
    let alloc = rt.alloc();
    let run = capture_for(alloc, &["run", "in", "out", "v", "w", "t"])?;
    assert_eq!(rt; run.as_str(), "in");
    let check = capture_for(alloc, &["check", "t"])?;
    assert_eq!(rt; check.as_str(), "no capture is read\n");
    let walk = capture_for(alloc, &["walk", "t"])?;
    assert!(rt; walk.as_str().contains("walk"));
    Ok(())
}

const UP: Verdict = Verdict::Outward { mtu: 1500 };

#[test]
fn a_run_of_one_record_has_these_lines(rt: HostRuntime) -> Result<(), Fail> {
    let totals = Totals {
        records: 1,
        held: 0,
        forwarded: 1,
        dropped: 0,
        packets: 1,
        version: 0,
    };
    let (line, last) = first_and_last(rt.alloc(), UP, 1, totals)?;
    assert_eq!(rt; line.as_str(), "0 0 up 1\n");
    assert_eq!(rt;
        last.as_str(),
        "records 1 held 0 forwarded 1 dropped 0 packets 1 version 0\n"
    );
    Ok(())
}

#[test]
fn lines_stand_behind_lines(rt: HostRuntime) -> Result<(), Fail> {
    let mut lines = Vec::new(rt.alloc());
    lines.extend_from_slice(b"3 0 up 1\n")?;
    let mut text = String::new(rt.alloc());
    push_lines(&mut lines, &mut text, 4, &UP)?;
    assert_eq!(rt; lines.as_slice(), b"3 0 up 1\n4 1 up 1\n".as_slice());
    assert_eq!(rt; text.as_str(), "1 t1.toml at 4\n");
    Ok(())
}
