// The calls of a system over files in memory, each of which can be made to fail.
ghost use Rattle.std.specs.Prelude.{◌≡◌, ◌+◌, ◌<◌, ◌∷◌, [], ◌++◌, IfOk, OnOk, OnErr, length};
ghost use Rattle.std.specs.Option.{option_copied, option_map};
ghost use Rattle.aftr_io.specs.Contents.{content};
ghost use Rattle.std.specs.FinMap as map;

use crate::System;
use crate::copying::copy_from;
use crate::memory::count_call;
use crate::shelf::Shelf;
use aftr_base::OutOfMemory;
use std::alloc::Global;
use std::io;
use std::io::ErrorKind;

/// A system that is files in memory. A call fails if `fail_at` chose it, if it opens a name that is not there, if it writes before the
/// end of its file, or if memory runs out.
#[derive(Drop)]
pub struct MemSystem {
    shelf: Shelf,
    calls: u64,
    failing: Vec<u64>,
    most: usize,
    ghost some: { 0 < most },
}

/// A file in memory that is open to be read.
#[derive(Drop)]
pub struct MemReadHandle {
    name: String,
    at: u64,
}

/// A file in memory that is open to be written.
#[derive(Drop)]
pub struct MemWriteHandle {
    name: String,
    at: Option<u64>,
}

impl MemSystem {
    /// No files, and no call that is to fail. A call reads or writes at most `most` bytes, or one if `most` is 0.
    pub fn new(alloc: Global, most: usize) -> MemSystem
        ensures { result.shelf ≡ map.empty }
    {
        MemSystem {
            shelf: Shelf::new(alloc),
            calls: 0,
            failing: Vec::new(alloc),
            most: most.max(1),
        }
    }

    /// Puts a file with these bytes there, in place of what it held.
    pub fn set(&mut self, alloc: Global, name: &str, bytes: &[u8]) -> Result<(), OutOfMemory>
        ensures ok { OnOk result (self.new.shelf ≡ map.insert self.old.shelf name.now bytes.now) }
        ensures err { OnErr result (self.new.shelf ≡ self.old.shelf) }
    {
        Ok(self.shelf.set(alloc, name, bytes)?)
    }

    /// Makes the call of this number fail. All calls of the system are counted together, from 0.
    pub fn fail_at(&mut self, _alloc: Global, call: u64) -> Result<(), OutOfMemory>
        ensures ok { OnOk result (self.new.failing.items ≡ self.old.failing.items ++ call ∷ []) }
        ensures files { self.new.shelf ≡ self.old.shelf }
    {
        Ok(self.failing.push(call)?)
    }

    /// The bytes of a file, if it is there.
    pub fn get(&self, name: &str) -> Option<&[u8]>
        ensures { option_copied result ≡ map.get self.now.shelf name.now }
    {
        self.shelf.get(name)
    }
}

// Counts a call, and fails if `fail_at` chose it.
fn count(calls: &mut u64, failing: &[u64]) -> io::Result<()> {
    if count_call(calls, failing) {
        return Err(io::Error::from(ErrorKind::Other));
    }
    Ok(())
}

fn length_of(shelf: &Shelf, name: &str) -> u64
    ensures { result ≡ length (content shelf.now name.now) }
{
    match shelf.get(name) {
        Some(bytes) => bytes.len() as u64,
        None => 0,
    }
}

// The place behind `count` bytes put at a place, which has to be the file's end.
fn place_behind(at: Option<u64>, length: u64, count: u64) -> io::Result<Option<u64>>
    ensures { IfOk result (λ next. next ≡ option_map (λ place. place + count) at) }
{
    let Some(place) = at else {
        return Ok(None);
    };
    if place != length {
        return Err(io::Error::from(ErrorKind::InvalidInput));
    }
    match place.checked_add(count) {
        Some(next) => Ok(Some(next)),
        None => Err(io::Error::from(ErrorKind::FileTooLarge)),
    }
}

impl System for MemSystem {
    ghost use Rattle.std.specs.Prelude.{true, string_bytes};

    type ReadHandle = MemReadHandle;

    type WriteHandle = MemWriteHandle;

    ghost tells = { true };

    ghost held = { λ s. s.shelf };

    ghost reads = { λ file. (string_bytes file.name, file.at) };

    ghost writes = { λ file. (string_bytes file.name, file.at) };

    fn open(&mut self, alloc: Global, name: &str) -> io::Result<MemReadHandle> {
        count(&mut self.calls, &self.failing)?;
        if self.shelf.get(name).is_none() {
            return Err(io::Error::from(ErrorKind::NotFound));
        }
        Ok(MemReadHandle {
            name: String::from_str(alloc, name)?,
            at: 0,
        })
    }

    fn seek(&mut self, file: &mut MemReadHandle, at: u64) -> io::Result<()> {
        count(&mut self.calls, &self.failing)?;
        file.at = at;
        Ok(())
    }

    fn read(&mut self, file: &mut MemReadHandle, into: &mut [u8]) -> io::Result<usize> {
        count(&mut self.calls, &self.failing)?;
        let most = self.most.min(into.len());
        let got = match self.shelf.get(file.name.as_str()) {
            Some(bytes) => copy_from(bytes, file.at, &mut into[..most]),
            None => 0,
        };
        file.at += got as u64;
        Ok(got)
    }

    fn create(&mut self, alloc: Global, name: &str) -> io::Result<MemWriteHandle> {
        count(&mut self.calls, &self.failing)?;
        let kept = String::from_str(alloc, name)?;
        self.shelf.set(alloc, name, &[])?;
        Ok(MemWriteHandle {
            name: kept,
            at: Some(0),
        })
    }

    fn open_end(&mut self, alloc: Global, name: &str) -> io::Result<MemWriteHandle> {
        count(&mut self.calls, &self.failing)?;
        if self.shelf.get(name).is_none() {
            return Err(io::Error::from(ErrorKind::NotFound));
        }
        Ok(MemWriteHandle {
            name: String::from_str(alloc, name)?,
            at: None,
        })
    }

    fn write(
        &mut self,
        alloc: Global,
        file: &mut MemWriteHandle,
        bytes: &[u8],
    ) -> io::Result<usize> {
        count(&mut self.calls, &self.failing)?;
        if bytes.is_empty() {
            return Ok(0);
        }
        let most = self.most.min(bytes.len());
        let length = length_of(&self.shelf, file.name.as_str());
        let behind = place_behind(file.at, length, most as u64)?;
        self.shelf
            .append(alloc, file.name.as_str(), &bytes[..most])?;
        file.at = behind;
        Ok(most)
    }
}
