// Files and a sink that a test looks at.
ghost use Rattle.std.specs.Prelude.{min, take, length};

use aftr_io::{Fault, MemReading, MemSink, MemWriting, Outside, Reading, Sink, Writing};
use std::alloc::Global;

/// Files in memory, each half of which notes its calls that fail.
pub type Watched = Outside<WatchedReading, WatchedWriting>;

/// Files in memory that are read, and what is noted of the reads that fail.
#[derive(Drop)]
pub struct WatchedReading {
    pub files: MemReading,
    /// How many reads failed.
    pub lost: u32,
    /// The file of the read that failed last.
    pub failed: &'static str,
}

/// Files in memory that are written, and what is noted of the calls that fail.
#[derive(Drop)]
pub struct WatchedWriting {
    pub files: MemWriting,
    /// How many creates and appends failed.
    pub spoiled: u32,
    /// The call that failed last, and of which file.
    pub failed: (&'static str, &'static str),
}

// A name that outlives the call that it is noted of.
fn known(name: &str) -> &'static str {
    match name {
        "t0.toml" => "t0.toml",
        "in.pcap" => "in.pcap",
        "out.pcap" => "out.pcap",
        "verdicts.txt" => "verdicts.txt",
        "versions.txt" => "versions.txt",
        _ => "another file",
    }
}

/// These files to be read, and none that is written yet.
pub fn watched(alloc: Global, files: MemReading) -> Watched {
    Outside {
        reading: WatchedReading {
            files,
            lost: 0,
            failed: "no file",
        },
        writing: WatchedWriting {
            files: MemWriting::new(alloc),
            spoiled: 0,
            failed: ("no", "call"),
        },
    }
}

impl WatchedReading {
    /// What the name holds; nothing if there is no file.
    pub fn bytes(&self, name: &str) -> &[u8] {
        self.files.get(name).unwrap_or(&[])
    }

    /// What the name holds, as text; nothing if there is no file or no text.
    pub fn text(&self, name: &str) -> &str {
        std::str::from_utf8(self.bytes(name)).unwrap_or("")
    }
}

impl Reading for WatchedReading {
    ghost readable = { λ watched. ⟦<MemReading as Reading>⟧.readable watched.files };

    fn read(
        &mut self,
        alloc: Global,
        name: &str,
        at: u64,
        into: &mut [u8],
    ) -> Result<usize, Fault> {
        let answer = self.files.read(alloc, name, at, into);
        if answer.is_err() {
            self.lost = self.lost.saturating_add(1);
            self.failed = known(name);
        }
        answer
    }
}

impl WatchedWriting {
    /// What the name holds, as text; nothing if there is no file or no text.
    pub fn text(&self, name: &str) -> &str {
        match self.files.get(name) {
            Some(bytes) => std::str::from_utf8(bytes).unwrap_or(""),
            None => "",
        }
    }
}

impl Writing for WatchedWriting {
    ghost written = { λ watched. ⟦<MemWriting as Writing>⟧.written watched.files };

    fn create(&mut self, alloc: Global, name: &str) -> Result<(), Fault> {
        let answer = self.files.create(alloc, name);
        if answer.is_err() {
            self.spoiled = self.spoiled.saturating_add(1);
            self.failed = ("create", known(name));
        }
        answer
    }

    fn append(&mut self, alloc: Global, name: &str, bytes: &[u8]) -> Result<usize, Fault> {
        let answer = self.files.append(alloc, name, bytes);
        if answer.is_err() {
            self.spoiled = self.spoiled.saturating_add(1);
            self.failed = ("append", known(name));
        }
        answer
    }
}

/// A sink in memory that takes so many bytes of a put at most.
#[derive(Drop)]
pub struct Narrow {
    pub sink: MemSink,
    pub most: usize,
}

impl Narrow {
    /// A sink that takes all bytes of each put.
    pub fn wide(alloc: Global) -> Narrow {
        Narrow {
            sink: MemSink::new(alloc),
            most: usize::MAX,
        }
    }
}

impl Sink for Narrow {
    ghost out = { λ narrow. ⟦<MemSink as Sink>⟧.out narrow.sink };

    ghost faults = { λ narrow. ⟦<MemSink as Sink>⟧.faults narrow.sink };

    fn put(&mut self, alloc: Global, bytes: &[u8]) -> Result<usize, Fault> {
        let count = bytes.len().min(self.most.max(1));
        self.sink.put(alloc, &bytes[..count])
    }
}
