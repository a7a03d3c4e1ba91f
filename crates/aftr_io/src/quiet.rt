// Files in memory that never fail: those that are read, and those that are written.
ghost use Rattle.std.specs.Prelude.{◌≡◌, [], ◌++◌, length, take, drop, min, IsErrOf, IfOk, OnOk, OnErr, Some};
ghost use Rattle.std.specs.Option.{option_copied};
ghost use Rattle.std.specs.FinMap as map;
ghost use Rattle.aftr_io.specs.declared.outside.Fault.{Fault};
ghost use Rattle.aftr_io.specs.Contents.{content, Created, Appended};

use crate::copying::copy_from;
use crate::shelf::Shelf;
use crate::{Fault, Reading, Writing};
use aftr_base::OutOfMemory;
use std::alloc::Global;
use std::marker::Model;

/// Files in memory to be read, seen as the map from names to bytes. No read fails, and none needs memory: a name that is not there is
/// read as an empty file.
#[derive(Drop)]
pub struct QuietReading {
    shelf: Shelf,
}

impl Model for QuietReading {
    ghost use Rattle.aftr_io.specs.Contents.{Contents, contents_code};

    ghost Value = { Contents };

    ghost coded = { contents_code };

    ghost view = { λ files. files.shelf };
}

impl QuietReading {
    /// No files.
    pub fn new(alloc: Global) -> QuietReading
        ensures { result ≡ map.empty }
    {
        QuietReading {
            shelf: Shelf::new(alloc),
        }
    }

    /// Puts a file with these bytes there, in place of what it held.
    pub fn set(&mut self, alloc: Global, name: &str, bytes: &[u8]) -> Result<(), OutOfMemory>
        ensures ok { OnOk result (self.new ≡ map.insert self.old name.now bytes.now) }
        ensures err { OnErr result (self.new ≡ self.old) }
    {
        Ok(self.shelf.set(alloc, name, bytes)?)
    }
}

impl Reading for QuietReading {
    ghost use Rattle.std.specs.Prelude.{Some, None};

    ghost readable = { λ files. record { held = Some files; lost = 0; last = None } };

    fn read(&mut self, _alloc: Global, name: &str, at: u64, into: &mut [u8]) -> Result<usize, Fault>
        ensures count { IfOk result (λ n. n ≡ min (length into.old) (length (drop at (content self.old name.now)))) }
        ensures bytes { IfOk result (λ n. take n into.new ≡ take n (drop at (content self.old name.now))) }
        ensures never_failed { IsErrOf result Fault.Failed → ⊥ }
        ensures same { self.new ≡ self.old }
    {
        match self.shelf.get(name) {
            Some(bytes) => Ok(copy_from(bytes, at, into)),
            None => Ok(0),
        }
    }
}

/// Files in memory to be written, seen as the map from names to bytes. A call fails only if memory runs out: an append makes a file that
/// is not there.
#[derive(Drop)]
pub struct QuietWriting {
    shelf: Shelf,
}

impl Model for QuietWriting {
    ghost use Rattle.aftr_io.specs.Contents.{Contents, contents_code};

    ghost Value = { Contents };

    ghost coded = { contents_code };

    ghost view = { λ files. files.shelf };
}

impl QuietWriting {
    /// No files.
    pub fn new(alloc: Global) -> QuietWriting
        ensures { result ≡ map.empty }
    {
        QuietWriting {
            shelf: Shelf::new(alloc),
        }
    }

    /// Puts a file with these bytes there, in place of what it held.
    pub fn set(&mut self, alloc: Global, name: &str, bytes: &[u8]) -> Result<(), OutOfMemory>
        ensures ok { OnOk result (self.new ≡ map.insert self.old name.now bytes.now) }
        ensures err { OnErr result (self.new ≡ self.old) }
    {
        Ok(self.shelf.set(alloc, name, bytes)?)
    }

    /// The bytes of a file, if it is there.
    pub fn get(&self, name: &str) -> Option<&[u8]>
        ensures { option_copied result ≡ map.get self.now name.now }
    {
        self.shelf.get(name)
    }
}

impl Writing for QuietWriting {
    ghost use Rattle.std.specs.Prelude.{Some};

    ghost written = { λ files. record { held = Some files; spoiled = 0 } };

    fn create(&mut self, alloc: Global, name: &str) -> Result<(), Fault>
        ensures held { Created result (Some self.old) (Some self.new) name.now }
        ensures never_failed { IsErrOf result Fault.Failed → ⊥ }
        ensures map { OnOk result (self.new ≡ map.insert self.old name.now []) }
    {
        self.shelf.set(alloc, name, &[])?;
        Ok(())
    }

    fn append(&mut self, alloc: Global, name: &str, bytes: &[u8]) -> Result<usize, Fault>
        ensures count { IfOk result (λ n. n ≡ length bytes.now) }
        ensures held { Appended result (Some self.old) (Some self.new) name.now bytes.now }
        ensures never_failed { IsErrOf result Fault.Failed → ⊥ }
        ensures map { OnOk result (self.new
            ≡ map.insert self.old name.now (content self.old name.now ++ bytes.now)) }
    {
        self.shelf.append(alloc, name, bytes)?;
        Ok(bytes.len())
    }
}
