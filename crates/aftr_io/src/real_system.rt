// The calls of the system that the program runs on.
ghost use Rattle.std.specs.Prelude.{◌≡◌, false};
ghost use Rattle.std.specs.FinMap.{empty};
ghost use Rattle.aftr_io.specs.Known.{not_read, not_written};

use crate::outside::Outside;
use crate::system::System;
use crate::system_reading::SystemReading;
use crate::system_writing::SystemWriting;
use std::alloc::Global;
use std::fs::OpenOptions;
use std::io::{Read, Seek, SeekFrom, Write};
use std::rt::Files as FileSystem;
use std::{fs, io};

/// The system's own calls. No clause says what files hold, so what each call does is trusted:
/// - `open`: the handle reads the file of this name from its start on. A name that is not there is an error.
/// - `create`: the file is there and empty, and the handle writes behind what it wrote before: so behind all that the file holds, as
///   long as nobody else writes there.
/// - `open_end`: the handle writes behind the last byte of the file, whoever wrote it. The file is not made.
/// - `seek`: the handle's next read is at this place.
/// - `read`: the answer is how many bytes it read at the handle's place, which moves behind them; 0 says that there is none.
/// - `write`: the answer is how many of the first bytes it put, once each and in order; the handle's place moves behind them.
/// - closing, when a handle is dropped: what `write` took is not lost. An error of closing is not seen.
///
/// An error of any of them did nothing that a later call would have to know of.
#[derive(Drop)]
pub struct RealSystem<R: FileSystem + Drop> {
    runtime: R,
}

impl<R: FileSystem + Drop> System for RealSystem<R> {
    ghost use Rattle.std.specs.Prelude.{None, false, []};
    ghost use Rattle.std.specs.FinMap.{empty};

    type ReadHandle = R::File;

    type WriteHandle = R::File;

    ghost tells = { false };

    ghost held = { λ _. empty };

    ghost reads = { λ _. ([], 0) };

    ghost writes = { λ _. ([], None) };

    fn open(&mut self, _alloc: Global, name: &str) -> io::Result<R::File> {
        fs::open(&self.runtime, name)
    }

    fn seek(&mut self, file: &mut R::File, at: u64) -> io::Result<()> {
        file.seek(SeekFrom::Start(at))?;
        Ok(())
    }

    fn read(&mut self, file: &mut R::File, into: &mut [u8]) -> io::Result<usize> {
        file.read(into)
    }

    fn create(&mut self, _alloc: Global, name: &str) -> io::Result<R::File> {
        fs::create(&self.runtime, name)
    }

    fn open_end(&mut self, _alloc: Global, name: &str) -> io::Result<R::File> {
        OpenOptions::new().append(true).open(&self.runtime, name)
    }

    fn write(&mut self, _alloc: Global, file: &mut R::File, bytes: &[u8]) -> io::Result<usize> {
        file.write(bytes)
    }
}

/// The files of the system that the program runs on, to be read. No clause says what they hold.
pub type RealReading<R> = SystemReading<RealSystem<R>>;

/// The files of the system that the program runs on, to be written. No clause says what they hold.
pub type RealWriting<R> = SystemWriting<RealSystem<R>>;

/// Both halves over the system that the program runs on.
pub type RealFiles<R> = Outside<RealReading<R>, RealWriting<R>>;

/// Both halves over one system: no file is open, and nothing has failed. The caller may not write a file that it reads: see `SystemReading`.
pub fn real_files<R: FileSystem + Copy + Drop>(rt: R, alloc: Global) -> RealFiles<R>
    ensures reading { result.reading ≡ not_read false empty }
    ensures writing { result.writing ≡ not_written false empty }
{
    Outside {
        reading: SystemReading::over(RealSystem { runtime: rt }),
        writing: SystemWriting::over(RealSystem { runtime: rt }, alloc),
    }
}
