// The caller that the README of lwaftr_engine shows, and what it answers.
use aftr_base::{OutOfMemory, Text};
use aftr_io::{MemReading, MemSink, MemWriting, Outside, Reading, Sink, Writing};
use case_data::WHOLE_TABLE;
use lwaftr_engine::{code, lwaftr, status_line};
use std::alloc::Global;
use std::sync::Wait;
use std::test::Fail;
use std::thread::Threads;
use worker_gate::OpenGate;

/// Does the job that the words behind the program's name ask for. It answers the exit code, and the status in words.
fn do_job<R: Threads + Wait + Sync, I: Reading, O: Writing, S: Sink>(
    rt: &R,
    alloc: Global,
    words: &[&str],
    files: &mut Outside<I, O>,
    out: &mut S,
) -> Result<(u8, Text), OutOfMemory> {
    let mut history = None; // of a run's tables, once it has ended
    let status = lwaftr(rt, alloc, words, files, out, &OpenGate, &mut history);
    let line = status_line(alloc, &status)?;
    Ok((code(&status), line))
}

#[test]
fn a_job_has_a_code_and_a_line(rt: HostRuntime) -> Result<(), Fail> {
    let alloc = rt.alloc();
    let mut reading = MemReading::new(alloc);
    reading.set(alloc, "t", WHOLE_TABLE.as_bytes())?;
    let mut files = Outside {
        reading,
        writing: MemWriting::new(alloc),
    };
    let mut out = MemSink::new(alloc);
    let (code, line) = do_job(&rt, alloc, &["check", "t"], &mut files, &mut out)?;
    assert_eq!(rt; (code, line.as_str()), (0, "done\n"));
    assert_eq!(rt; out.bytes(), b"valid 1 bindings\n".as_slice());
    let (code, line) = do_job(&rt, alloc, &["walk", "t"], &mut files, &mut out)?;
    assert_eq!(rt; (code, line.as_str()), (2, "usage\n"));
    Ok(())
}
