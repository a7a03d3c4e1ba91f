// Standard output. The bytes that it took are not known.
ghost use Rattle.std.specs.Prelude.{◌≡◌, ◌↔◌, IsNone};
ghost use Rattle.aftr_io.specs.declared.outside.Fault.{Fault};
ghost use Rattle.aftr_io.specs.Outside.{Rose};

use crate::{Fault, Sink};
use std::alloc::Global;
use std::io;
use std::io::ErrorKind;

/// Standard output of the system. The bytes that it took are not known. Each `put` is one write.
#[derive(Drop)]
pub struct RealSink<R: Print + Drop> {
    system: R,
    faults: u64,
    // what the system said of the last write that failed
    last_error: Option<io::Error>,
    ghost tied: { IsNone last_error ↔ (faults ≡ 0) },
}

impl<R: Print + Drop> RealSink<R> {
    /// Nothing has failed.
    pub fn new(rt: R) -> RealSink<R>
        ensures { ⟦<RealSink<R> as Sink>⟧.faults result ≡ 0 }
    {
        RealSink {
            system: rt,
            faults: 0,
            last_error: None,
        }
    }

    /// What the system said of the last `put` that failed.
    pub fn last_error(&self) -> Option<io::Error>
        ensures { IsNone result ↔ (⟦<RealSink<R> as Sink>⟧.faults self.now ≡ 0) }
    {
        self.last_error
    }

    // Counts a write that failed.
    fn fail(&mut self, error: io::Error) -> Fault
        ensures failed { result ≡ Fault.Failed }
        ensures faults { Rose self.old.faults self.new.faults }
    {
        self.last_error = Some(error);
        self.faults = self.faults.saturating_add(1);
        Fault::Failed
    }
}

impl<R: Print + Drop> Sink for RealSink<R> {
    ghost use Rattle.std.specs.Prelude.{None};

    ghost out = { λ _. None };

    ghost faults = { λ sink. sink.faults };

    fn put(&mut self, _alloc: Global, bytes: &[u8]) -> Result<usize, Fault> {
        if bytes.is_empty() {
            return Ok(0);
        }
        match self.system.write_some(bytes) {
            Ok(0) => Err(self.fail(io::Error::from(ErrorKind::WriteZero))),
            Ok(count) => Ok(count),
            Err(error) => Err(self.fail(error)),
        }
    }
}
