// Captures as a pipe gives them: each byte once and in order, in pieces of any size.
use aftr_io::{Fault, MemReading, Reading};
use std::alloc::Global;
use std::test::Fail;

/// Files that give at most `most` bytes a read, and count the reads that are not of the byte behind those already given.
#[derive(Drop)]
pub(crate) struct Pipe {
    files: MemReading,
    most: usize,
    /// The place of the byte behind those already given, or of the read that failed.
    pub at: u64,
    pub strays: u32,
    pub failed: bool,
}

impl Reading for Pipe {
    ghost readable = { λ pipe. ⟦<MemReading as Reading>⟧.readable pipe.files };

    fn read(
        &mut self,
        alloc: Global,
        name: &str,
        at: u64,
        into: &mut [u8],
    ) -> Result<usize, Fault> {
        if at != self.at {
            self.strays = self.strays.saturating_add(1);
        }
        let most = into.len().min(self.most.max(1));
        let answer = self.files.read(alloc, name, at, &mut into[..most]);
        match answer {
            Ok(count) => self.at = at.saturating_add(count as u64),
            Err(_) => self.failed = true,
        }
        answer
    }
}

/// A pipe that gives these bytes, at most `most` a read. The read of number `call` fails.
pub(crate) fn pipe_of(alloc: Global, bytes: &[u8], most: usize, call: u64) -> Result<Pipe, Fail> {
    let mut files = MemReading::new(alloc);
    files.set(alloc, "in", bytes)?;
    files.fail_at(alloc, call)?;
    Ok(Pipe {
        files,
        most,
        at: 0,
        strays: 0,
        failed: false,
    })
}
