// More records than one round takes.
use crate::captures::{Form, capture_of};
use crate::cases::{part, words_of};
use crate::due::{RECORDS, WORDS, due_of, is_right};
use crate::outside::{Narrow, WatchedReading, WatchedWriting};
use crate::runs::{Ran, line_files};
use aftr_io::{Fault, Outside, Reading, Writing};
use lwaftr_engine::lwaftr;
use std::alloc::Global;
use std::cell::Cell;
use std::sync::Wait;
use std::test::Fail;
use std::thread::Threads;
use worker_gate::OpenGate;

/// Records of one length, up and down, a second apart, as lines of `given` tell them: each third one, from the first on, is of a port that
/// is another subscriber's.
const UPWARDS: &str =
    "up|shared|--workers {workers}|Q/P/P@0.5+1*{count}|0..{count} 0 drop no-binding 0;0 up 1;0 up 1||\
    records 49153 held 0 forwarded 32768 dropped 16385 packets 32768 version 0|-/p/p@0.5+1*{count}|done";

const DOWNWARDS: &str =
    "down|shared|--workers {workers}|d-other/d/d@0.5+1*{count}|0..{count} 0 drop no-binding 0;0 down 1;0 down 1||\
    records 49153 held 0 forwarded 32768 dropped 16385 packets 32768 version 0|-/d-sent/d-sent@0.5+1*{count}|done";

/// Each line has the way, the number of workers, how many records are written, before which record is read. A full round has 16,384
/// records; one of one worker ends behind the record that brings it to 262,144 captured bytes, of which each upwards has 72.
const ROUNDS: &str = "\
up|1|16384|32768
up|16|16384|32768
up|1|32768|49152
up|16|32768|49152
down|1|16384|32768
down|16|16384|32768
down|1|32768|49152
down|16|32768|49152
up|1|3641|7282
up|1|7282|10923
up|1|14564|18205
up|1|21846|25487";

/// Files that are read, which look at how much is written when a place of the capture is read for the first time.
#[derive(Drop)]
struct Looking<'a> {
    files: WatchedReading,
    /// How many bytes of lines and of packets are written.
    lines: &'a Cell<usize>,
    packets: &'a Cell<usize>,
    /// A place of the capture.
    place: u64,
    /// So many bytes of lines and of packets are due by then.
    due: (usize, usize),
    /// It was read at that place or behind it.
    late: bool,
    /// What was due was written before that.
    early: bool,
}

impl Reading for Looking<'_> {
    ghost readable = { λ looking. ⟦<WatchedReading as Reading>⟧.readable looking.files };

    fn read(
        &mut self,
        alloc: Global,
        name: &str,
        at: u64,
        into: &mut [u8],
    ) -> Result<usize, Fault> {
        if !self.late && name == "in.pcap" && at >= self.place {
            self.late = true;
            self.early = self.lines.get() >= self.due.0 && self.packets.get() >= self.due.1;
        }
        self.files.read(alloc, name, at, into)
    }
}

/// Files that are written, which count bytes of lines and of packets.
#[derive(Drop)]
struct Counting<'a> {
    files: WatchedWriting,
    lines: &'a Cell<usize>,
    packets: &'a Cell<usize>,
}

impl Writing for Counting<'_> {
    ghost written = { λ counting. ⟦<WatchedWriting as Writing>⟧.written counting.files };

    fn create(&mut self, alloc: Global, name: &str) -> Result<(), Fault> {
        self.files.create(alloc, name)
    }

    fn append(&mut self, alloc: Global, name: &str, bytes: &[u8]) -> Result<usize, Fault> {
        let count = self.files.append(alloc, name, bytes)?;
        match name {
            "verdicts.txt" => self.lines.set(self.lines.get().saturating_add(count)),
            "out.pcap" => self.packets.set(self.packets.get().saturating_add(count)),
            _ => {}
        }
        Ok(count)
    }
}

/// Of three full rounds of records and one more, the packets and lines of as many records as the line says are written before its next
/// record is read; and in the end all are.
fn are_written<R: Threads + Wait + Sync>(rt: &R, alloc: Global, case: &str) -> Result<bool, Fail> {
    let way = if part(case, 0) == "up" {
        UPWARDS
    } else {
        DOWNWARDS
    };
    let way = way.replace(alloc, "{workers}", part(case, 1))?;
    let line = way.replace(alloc, "{count}", "49153")?;
    let first = due_of(
        alloc,
        Form::Micro,
        &way.replace(alloc, "{count}", part(case, 2))?,
    )?;
    let until = way.replace(alloc, "{count}", part(case, 3))?;
    let Outside { reading, writing } = line_files(alloc, Form::Micro, &line)?;
    let lines = Cell::new(0);
    let packets = Cell::new(0);
    let mut files = Outside {
        reading: Looking {
            files: reading,
            lines: &lines,
            packets: &packets,
            place: capture_of(alloc, Form::Micro, part(&until, RECORDS))?.len() as u64,
            due: (first.verdicts.len(), first.packets.len()),
            late: false,
            early: false,
        },
        writing: Counting {
            files: writing,
            lines: &lines,
            packets: &packets,
        },
    };
    let behind = part(&line, WORDS);
    let words = format!(in alloc;
        "run in.pcap out.pcap verdicts.txt versions.txt t0.toml {behind}"
    )?;
    let words = words_of(alloc, &words)?;
    let mut out = Narrow::wide(alloc);
    let mut history = None;
    let status = lwaftr(
        rt,
        alloc,
        &words,
        &mut files,
        &mut out,
        &OpenGate,
        &mut history,
    );
    let Outside { reading, writing } = files;
    let Looking {
        files: read,
        late,
        early,
        ..
    } = reading;
    let Counting { files: written, .. } = writing;
    let ran = Ran {
        status,
        files: Outside {
            reading: read,
            writing: written,
        },
        out,
        history,
    };
    Ok(late && early && is_right(alloc, Form::Micro, &line, &ran)?)
}

#[test]
fn records_are_written_in_rounds(rt: HostRuntime) -> Result<(), Fail> {
    for case in ROUNDS.lines() {
        assert!(rt; are_written(&rt, rt.alloc(), case)?, "{case}");
    }
    Ok(())
}
