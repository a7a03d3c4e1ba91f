// Files in memory whose chosen calls fail: those that are read, and those that are written.
ghost use Rattle.std.specs.Prelude.{◌≡◌, [], ◌∷◌, ◌++◌, ◌||◌, length, take, drop, min, IsTrue, IsFalse, IsOk, IsErrOf, IfOk, OnOk, OnErr};
ghost use Rattle.std.specs.Option.{option_copied};
ghost use Rattle.std.specs.FinMap as map;
ghost use Rattle.aftr_io.specs.declared.outside.Fault.{Fault};
ghost use Rattle.aftr_io.specs.Contents.{content, Created, Appended};
ghost use Rattle.aftr_io.specs.Memory.{nothing_to_read, nothing_written, is_to_fail, is_missing};
ghost use Rattle.aftr_io.specs.Memory.{next_read_fails, next_write_fails, after_read, after_write};
ghost use Rattle.aftr_io.specs.Outside.{Rises, Rose, has_failed, one_more};

use crate::copying::copy_from;
use crate::shelf::Shelf;
use crate::{Fault, Reading, Writing};
use aftr_base::OutOfMemory;
use std::alloc::Global;
use std::marker::Model;

// The name and the place of a read that failed.
#[derive(Drop)]
struct LostRead {
    name: String,
    at: u64,
}

impl Model for LostRead {
    ghost use Rattle.std.specs.Prelude.{ℕ, List, string_bytes};

    ghost Value = { List ℕ × ℕ };

    ghost view = { λ read. (string_bytes read.name, read.at) };
}

/// Counts a call, and answers whether it is one of those that are to fail.
pub fn count_call(calls: &mut u64, failing: &[u64]) -> bool
    ensures fails { result ≡ is_to_fail calls.old failing.now }
    ensures calls { calls.new ≡ one_more calls.old }
{
    let call = *calls;
    *calls = call.saturating_add(1);
    failing.contains(&call)
}

/// Files in memory to be read. A read fails exactly if `fail_at` chose it, or if its name is not there.
#[derive(Drop)]
pub struct MemReading {
    shelf: Shelf,
    calls: u64,
    failing: Vec<u64>,
    lost: u64,
    last: Option<LostRead>,
}

impl Model for MemReading {
    ghost use Rattle.aftr_io.specs.Memory.{ReadInMemory, read_code};

    ghost Value = { ReadInMemory };

    ghost coded = { read_code };

    ghost view = { λ m. record { held = m.shelf; calls = m.calls; failing = m.failing.items; lost = m.lost; last = m.last } };
}

impl MemReading {
    /// No files, and no read that is to fail.
    pub fn new(alloc: Global) -> MemReading
        ensures { result ≡ nothing_to_read }
    {
        MemReading {
            shelf: Shelf::new(alloc),
            calls: 0,
            failing: Vec::new(alloc),
            lost: 0,
            last: None,
        }
    }

    /// Puts a file with these bytes there, in place of what it held.
    pub fn set(&mut self, alloc: Global, name: &str, bytes: &[u8]) -> Result<(), OutOfMemory>
        ensures ok { OnOk result (self.new ≡ record self.old { held = map.insert self.old.held name.now bytes.now }) }
        ensures err { OnErr result (self.new ≡ self.old) }
    {
        Ok(self.shelf.set(alloc, name, bytes)?)
    }

    /// Makes the read of this number fail. Reads are counted from 0.
    pub fn fail_at(&mut self, _alloc: Global, call: u64) -> Result<(), OutOfMemory>
        ensures ok { OnOk result (self.new ≡ record self.old { failing = self.old.failing ++ call ∷ [] }) }
        ensures err { OnErr result (self.new ≡ self.old) }
    {
        Ok(self.failing.push(call)?)
    }

    /// The bytes of a file, if it is there. It is no read, and never fails.
    pub fn get(&self, name: &str) -> Option<&[u8]>
        ensures { option_copied result ≡ map.get self.now.held name.now }
    {
        self.shelf.get(name)
    }
}

impl Reading for MemReading {
    ghost use Rattle.std.specs.Prelude.{Some};

    ghost readable = { λ m. record { held = Some m.held; lost = m.lost; last = m.last } };

    fn read(&mut self, alloc: Global, name: &str, at: u64, into: &mut [u8]) -> Result<usize, Fault>
        ensures count { IfOk result (λ n. n ≡ min (length into.old) (length (drop at (content self.old.held name.now)))) }
        ensures bytes { IfOk result (λ n. take n into.new ≡ take n (drop at (content self.old.held name.now))) }
        ensures answered { IsOk result → IsFalse (next_read_fails self.old || is_missing self.old.held name.now) }
        ensures failed { IsErrOf result Fault.Failed → IsTrue (next_read_fails self.old || is_missing self.old.held name.now) }
        ensures lost { Rises (has_failed result) self.old.lost self.new.lost }
        ensures state { self.new ≡ after_read result name.now at self.old }
    {
        let fails = count_call(&mut self.calls, &self.failing);
        match self.shelf.get(name) {
            Some(bytes) if !fails => Ok(copy_from(bytes, at, into)),
            _ => {
                let name = String::from_str(alloc, name)?;
                self.last = Some(LostRead { name, at });
                self.lost = self.lost.saturating_add(1);
                Err(Fault::Failed)
            }
        }
    }
}

/// Files in memory to be written. A call fails exactly if `fail_at` chose it, or if it appends to a name that was neither set nor created.
#[derive(Drop)]
pub struct MemWriting {
    shelf: Shelf,
    calls: u64,
    failing: Vec<u64>,
    spoiled: u64,
}

impl Model for MemWriting {
    ghost use Rattle.aftr_io.specs.Memory.{WrittenInMemory, written_code};

    ghost Value = { WrittenInMemory };

    ghost coded = { written_code };

    ghost view = { λ m. record { held = m.shelf; calls = m.calls; failing = m.failing.items; spoiled = m.spoiled } };
}

impl MemWriting {
    /// No files, and no call that is to fail.
    pub fn new(alloc: Global) -> MemWriting
        ensures { result ≡ nothing_written }
    {
        MemWriting {
            shelf: Shelf::new(alloc),
            calls: 0,
            failing: Vec::new(alloc),
            spoiled: 0,
        }
    }

    /// Puts a file with these bytes there, in place of what it held. `fail_at` does not count it.
    pub fn set(&mut self, alloc: Global, name: &str, bytes: &[u8]) -> Result<(), OutOfMemory>
        ensures ok { OnOk result (self.new ≡ record self.old { held = map.insert self.old.held name.now bytes.now }) }
        ensures err { OnErr result (self.new ≡ self.old) }
    {
        Ok(self.shelf.set(alloc, name, bytes)?)
    }

    /// Makes the call of this number fail. Calls of `create` and `append` are counted together, from 0.
    pub fn fail_at(&mut self, _alloc: Global, call: u64) -> Result<(), OutOfMemory>
        ensures ok { OnOk result (self.new ≡ record self.old { failing = self.old.failing ++ call ∷ [] }) }
        ensures err { OnErr result (self.new ≡ self.old) }
    {
        Ok(self.failing.push(call)?)
    }

    /// The bytes of a file, if it is there.
    pub fn get(&self, name: &str) -> Option<&[u8]>
        ensures { option_copied result ≡ map.get self.now.held name.now }
    {
        self.shelf.get(name)
    }

    fn spoil(&mut self) -> Fault
        ensures failed { result ≡ Fault.Failed }
        ensures spoiled { Rose self.old.spoiled self.new.spoiled }
        ensures state { self.new ≡ record self.old { spoiled = one_more self.old.spoiled } }
    {
        self.spoiled = self.spoiled.saturating_add(1);
        Fault::Failed
    }
}

impl Writing for MemWriting {
    ghost use Rattle.std.specs.Prelude.{Some};

    ghost written = { λ m. record { held = Some m.held; spoiled = m.spoiled } };

    fn create(&mut self, alloc: Global, name: &str) -> Result<(), Fault>
        ensures held { Created result (Some self.old.held) (Some self.new.held) name.now }
        ensures spoiled { Rises (has_failed result) self.old.spoiled self.new.spoiled }
        ensures answered { IsOk result → IsFalse (next_write_fails self.old) }
        ensures failed { IsErrOf result Fault.Failed → IsTrue (next_write_fails self.old) }
        ensures state { self.new ≡ after_write result (map.insert self.old.held name.now []) self.old }
    {
        if count_call(&mut self.calls, &self.failing) {
            return Err(self.spoil());
        }
        self.shelf.set(alloc, name, &[])?;
        Ok(())
    }

    fn append(&mut self, alloc: Global, name: &str, bytes: &[u8]) -> Result<usize, Fault>
        ensures count { IfOk result (λ n. n ≡ length bytes.now) }
        ensures held { Appended result (Some self.old.held) (Some self.new.held) name.now bytes.now }
        ensures spoiled { Rises (has_failed result) self.old.spoiled self.new.spoiled }
        ensures answered { IsOk result → IsFalse (next_write_fails self.old || is_missing self.old.held name.now) }
        ensures failed { IsErrOf result Fault.Failed → IsTrue (next_write_fails self.old || is_missing self.old.held name.now) }
        ensures state { self.new
            ≡ after_write result (map.insert self.old.held name.now (content self.old.held name.now ++ bytes.now)) self.old }
    {
        let fails = count_call(&mut self.calls, &self.failing);
        if fails || self.shelf.get(name).is_none() {
            return Err(self.spoil());
        }
        self.shelf.append(alloc, name, bytes)?;
        Ok(bytes.len())
    }
}
