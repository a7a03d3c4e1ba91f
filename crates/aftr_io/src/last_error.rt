// What the system said of the last call of each half that failed, and how many of its calls have failed.
ghost use Rattle.std.specs.Prelude.{◌≡◌, ◌↔◌, IsErr, IsNone, None, Some, if◌then◌else◌};
ghost use Rattle.std.specs.IoError.{error_kind};
ghost use Rattle.aftr_io.specs.Outside.{Rises, has_failed};

use crate::Fault;
use std::alloc::Global;
use std::io;
use std::marker::Model;

/// The last read that failed.
#[derive(Drop)]
pub struct ReadError {
    /// The file's name, as the call had it.
    pub name: String,
    /// The place of the first byte that was asked for.
    pub at: u64,
    /// What the system said.
    pub error: io::Error,
}

impl Model for ReadError {
    ghost use Rattle.std.specs.Prelude.{string_bytes};
    ghost use Rattle.std.specs.IoError.{error_kind};
    ghost use Rattle.aftr_io.specs.FailedCalls.{FailedRead};

    ghost Value = { FailedRead };

    ghost view = { λ e. record { name = string_bytes e.name; at = e.at; kind = error_kind e.error } };
}

/// What was to be done to a file when the system failed.
#[derive(Clone, Copy, Debug, PartialEq, Eq)]
pub enum WriteCall {
    /// The file was to be made, or emptied.
    Create,
    /// Bytes were to be put behind those that the file holds.
    Append,
}

/// The last create or append that failed.
#[derive(Drop)]
pub struct WriteError {
    pub call: WriteCall,
    /// The file's name, as the call had it.
    pub name: String,
    /// What the system said.
    pub error: io::Error,
}

impl Model for WriteError {
    ghost use Rattle.std.specs.Prelude.{string_bytes};
    ghost use Rattle.std.specs.IoError.{error_kind};
    ghost use Rattle.aftr_io.specs.FailedCalls.{FailedWrite};

    ghost Value = { FailedWrite };

    ghost view = { λ e. record { call = e.call; name = string_bytes e.name; kind = error_kind e.error } };
}

// The reads that failed: how many, and the last one.
#[derive(Drop)]
pub struct LostReads {
    pub lost: u64,
    pub last: Option<ReadError>,
    ghost tied: { IsNone last ↔ (lost ≡ 0) },
}

impl LostReads {
    /// No read has failed.
    pub fn new() -> LostReads
        ensures lost { result.lost ≡ 0 }
        ensures last { result.last ≡ None }
    {
        LostReads {
            lost: 0,
            last: None,
        }
    }

    /// Counts a read that failed, once its name is copied.
    pub fn lose(
        &mut self,
        alloc: Global,
        name: &str,
        at: u64,
        error: io::Error,
    ) -> Result<usize, Fault>
        ensures error { IsErr result }
        ensures lost { Rises (has_failed result) self.old.lost self.new.lost }
        ensures last { self.new.last
            ≡ (if has_failed result then Some (record { name = name.now; at = at; kind = error_kind error }) else self.old.last) }
    {
        let name = String::from_str(alloc, name)?;
        self.last = Some(ReadError { name, at, error });
        self.lost = self.lost.saturating_add(1);
        Err(Fault::Failed)
    }
}

// The calls of `create` and `append` that failed: how many, and the last one.
#[derive(Drop)]
pub struct SpoiledWrites {
    pub spoiled: u64,
    pub last: Option<WriteError>,
    ghost tied: { IsNone last ↔ (spoiled ≡ 0) },
}

impl SpoiledWrites {
    /// No call has failed.
    pub fn new() -> SpoiledWrites
        ensures spoiled { result.spoiled ≡ 0 }
        ensures last { result.last ≡ None }
    {
        SpoiledWrites {
            spoiled: 0,
            last: None,
        }
    }

    /// Counts a create or an append that failed, once its name is copied.
    pub fn spoil<T>(
        &mut self,
        alloc: Global,
        call: WriteCall,
        name: &str,
        error: io::Error,
    ) -> Result<T, Fault>
        ensures error { IsErr result }
        ensures spoiled { Rises (has_failed result) self.old.spoiled self.new.spoiled }
        ensures last { self.new.last
            ≡ (if has_failed result then Some (record { call = call; name = name.now; kind = error_kind error }) else self.old.last) }
    {
        let name = String::from_str(alloc, name)?;
        self.last = Some(WriteError { call, name, error });
        self.spoiled = self.spoiled.saturating_add(1);
        Err(Fault::Failed)
    }
}
