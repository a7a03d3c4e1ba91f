// A sink in memory that fails at chosen calls.
ghost use Rattle.std.specs.Prelude.{◌≡◌, [], ◌∷◌, ◌++◌, length, IsTrue, IsFalse, IsOk, IsErrOf, IfOk, OnOk, OnErr};
ghost use Rattle.aftr_io.specs.declared.outside.Fault.{Fault};
ghost use Rattle.aftr_io.specs.Memory.{no_bytes, is_to_fail, after_put};
ghost use Rattle.aftr_io.specs.Outside.{Rises, has_failed};

use crate::memory::count_call;
use crate::{Fault, Sink};
use aftr_base::OutOfMemory;
use std::alloc::Global;
use std::marker::Model;

/// A list of bytes. A `put` fails exactly if `fail_at` chose it.
#[derive(Drop)]
pub struct MemSink {
    bytes: Vec<u8>,
    calls: u64,
    failing: Vec<u64>,
    faults: u64,
}

impl Model for MemSink {
    ghost use Rattle.aftr_io.specs.Memory.{SinkInMemory, sink_code};

    ghost Value = { SinkInMemory };

    ghost coded = { sink_code };

    ghost view = { λ s. record {
      out = s.bytes.items;
      calls = s.calls;
      failing = s.failing.items;
      faults = s.faults;
    } };
}

impl MemSink {
    /// No bytes, and no call that is to fail.
    pub fn new(alloc: Global) -> MemSink
        ensures { result ≡ no_bytes }
    {
        MemSink {
            bytes: Vec::new(alloc),
            calls: 0,
            failing: Vec::new(alloc),
            faults: 0,
        }
    }

    /// The call of `put` of this number, counted from 0, is to fail.
    pub fn fail_at(&mut self, _alloc: Global, call: u64) -> Result<(), OutOfMemory>
        ensures ok { OnOk result (self.new ≡ record self.old { failing = self.old.failing ++ call ∷ [] }) }
        ensures err { OnErr result (self.new ≡ self.old) }
    {
        Ok(self.failing.push(call)?)
    }

    /// The bytes taken so far.
    pub fn bytes(&self) -> &[u8]
        ensures { result.now ≡ self.now.out }
    {
        &self.bytes
    }
}

impl Sink for MemSink {
    ghost use Rattle.std.specs.Prelude.{Some};

    ghost out = { λ s. Some s.out };

    ghost faults = { λ s. s.faults };

    fn put(&mut self, _alloc: Global, bytes: &[u8]) -> Result<usize, Fault>
        ensures count { IfOk result (λ n. n ≡ length bytes.now) }
        ensures faults { Rises (has_failed result) self.old.faults self.new.faults }
        ensures answered { IsOk result → IsFalse (is_to_fail self.old.calls self.old.failing) }
        ensures failed { IsErrOf result Fault.Failed → IsTrue (is_to_fail self.old.calls self.old.failing) }
        ensures state { self.new ≡ after_put result bytes.now self.old }
    {
        if count_call(&mut self.calls, &self.failing) {
            self.faults = self.faults.saturating_add(1);
            return Err(Fault::Failed);
        }
        self.bytes.extend_from_slice(bytes)?;
        Ok(bytes.len())
    }
}
