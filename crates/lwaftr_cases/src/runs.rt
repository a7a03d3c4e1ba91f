// A run over files in memory.
use crate::captures::{Form, capture_of};
use crate::cases::{part, words_of};
use crate::due::{RECORDS, TABLE, WORDS};
use crate::outside::{Narrow, Watched, watched};
use crate::tables::table_text;
use aftr_io::MemReading;
use area_swap::History;
use lwaftr_engine::{Status, lwaftr};
use std::alloc::Global;
use std::sync::Wait;
use std::test::Fail;
use std::thread::Threads;
use worker_gate::{Gate, OpenGate};

/// What a run left.
#[derive(Drop)]
pub struct Ran {
    pub status: Status,
    pub files: Watched,
    pub out: Narrow,
    pub history: Option<History>,
}

impl Ran {
    /// What the sink took, as text.
    pub fn said(&self) -> &str {
        std::str::from_utf8(self.out.sink.bytes()).unwrap_or("")
    }

    /// The bytes of the capture that was written.
    pub fn packets(&self) -> &[u8] {
        self.files.writing.files.get("out.pcap").unwrap_or(&[])
    }

    /// Some output was made.
    pub fn has_outputs(&self) -> bool {
        self.files.writing.files.get("out.pcap").is_some()
            || self.files.writing.files.get("verdicts.txt").is_some()
            || self.files.writing.files.get("versions.txt").is_some()
    }

    /// So many reads failed, and so many creates and appends.
    pub fn failed(&self, lost: u32, spoiled: u32) -> bool {
        self.files.reading.lost == lost && self.files.writing.spoiled == spoiled
    }
}

/// A capture, a table by some names, and a table for each load that words name, but for `not-there`; no files for the table `-`.
pub fn files_of(alloc: Global, capture: &[u8], table: &str, words: &str) -> Result<Watched, Fail> {
    let mut files = MemReading::new(alloc);
    if table == "-" {
        return Ok(watched(alloc, files));
    }
    files.set(alloc, "in.pcap", capture)?;
    let text = table_text(alloc, table)?;
    for name in ["t0.toml", "t", "-"] {
        files.set(alloc, name, text.as_bytes())?;
    }
    for word in words.split(' ') {
        let (_, name) = word.split_once(':').unwrap_or(("", "not-there"));
        if name != "not-there" {
            files.set(alloc, name, table_text(alloc, name)?.as_bytes())?;
        }
    }
    Ok(watched(alloc, files))
}

/// Does what the words ask for, over these files and this sink, with each record drawn passing this gate.
pub fn ask<R: Threads + Wait + Sync, G: Gate + Sync>(
    rt: &R,
    alloc: Global,
    words: &str,
    mut files: Watched,
    mut out: Narrow,
    gate: &G,
) -> Result<Ran, Fail> {
    let words = words_of(alloc, words)?;
    let mut history = None;
    let status = lwaftr(rt, alloc, &words, &mut files, &mut out, gate, &mut history);
    Ok(Ran {
        status,
        files,
        out,
        history,
    })
}

/// Runs over these files and this sink, with these words behind the table.
pub fn run_over<R: Threads + Wait + Sync, G: Gate + Sync>(
    rt: &R,
    alloc: Global,
    behind: &str,
    files: Watched,
    out: Narrow,
    gate: &G,
) -> Result<Ran, Fail> {
    let words = format!(in alloc;
        "run in.pcap out.pcap verdicts.txt versions.txt t0.toml {behind}"
    )?;
    ask(rt, alloc, &words, files, out, gate)
}

/// Runs over a capture and a table.
pub fn run<R: Threads + Wait + Sync>(
    rt: &R,
    alloc: Global,
    capture: &[u8],
    table: &str,
) -> Result<Ran, Fail> {
    let files = files_of(alloc, capture, table, "")?;
    run_over(rt, alloc, "", files, Narrow::wide(alloc), &OpenGate)
}

/// The files of a line, its capture in this form.
pub fn line_files(alloc: Global, form: Form, line: &str) -> Result<Watched, Fail> {
    let capture = capture_of(alloc, form, part(line, RECORDS))?;
    files_of(alloc, &capture, part(line, TABLE), part(line, WORDS))
}

/// The run of a line over a capture of this form, with each record drawn passing this gate.
pub fn run_line<R: Threads + Wait + Sync, G: Gate + Sync>(
    rt: &R,
    alloc: Global,
    form: Form,
    line: &str,
    gate: &G,
) -> Result<Ran, Fail> {
    let files = line_files(alloc, form, line)?;
    run_over(
        rt,
        alloc,
        part(line, WORDS),
        files,
        Narrow::wide(alloc),
        gate,
    )
}
