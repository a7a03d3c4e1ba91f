// The half that is written, by the calls of a system.
ghost use Rattle.std.specs.Prelude.{◌≡◌, ◌↔◌, IsNone, [], ◌≤◌, IfOk, length};
ghost use Rattle.std.specs.Option.{option_copied};
ghost use Rattle.aftr_io.specs.Contents.{Created, Appended};
ghost use Rattle.aftr_io.specs.Outside.{Rises, has_failed};
ghost use Rattle.aftr_io.specs.Known.{KeepsWrite, not_written, written_of};
ghost use Rattle.aftr_io.specs.System.{told_if};
ghost use Rattle.aftr_io.specs.declared.last_error.WriteCall.TheVariants as call;

use crate::failure::Failure;
use crate::last_error::{SpoiledWrites, WriteCall, WriteError};
use crate::system::System;
use crate::writers::Writer;
use crate::{Fault, Writing, writers};
use std::alloc::Global;
use std::marker::Model;

/// The files of a system, to be written by their names. It keeps each file open that it wrote: if the system opens no file more, a call
/// answers `Failed`.
#[derive(Drop)]
pub struct SystemWriting<S: System + Drop> {
    system: S,
    writers: Vec<Writer<S>>,
    writes: SpoiledWrites,
}

impl<S: System + Drop> Model for SystemWriting<S> {
    ghost use Rattle.std.specs.Prelude.{IsTrue};
    ghost use Rattle.std.specs.Coded.{codes};
    ghost use Rattle.aftr_io.specs.Contents.{contents_code};
    ghost use Rattle.aftr_io.specs.System.{WriteAtEnds};
    ghost use Rattle.aftr_io.specs.Known.{WrittenSystem, known_to_write};

    ghost Value = { WrittenSystem };

    ghost coded = { Prim.hlevel (codes, contents_code) };

    ghost view = { λ files. known_to_write S.tells (S.held files.system) files.writes };

    ghost invariant = { λ files. IsTrue S.tells → WriteAtEnds (λ w. S.writes w.file) (S.held files.system) files.writers.items };
}

impl<S: System + Drop> SystemWriting<S> {
    /// No file is open, and no call has failed.
    pub fn over(system: S, alloc: Global) -> SystemWriting<S>
        ensures { result ≡ not_written S.tells (S.held system) }
    {
        SystemWriting {
            system,
            writers: Vec::new(alloc),
            writes: SpoiledWrites::new(),
        }
    }

    /// The system, with what it holds.
    pub fn system(&self) -> &S
        ensures { self.now.held ≡ told_if S.tells (S.held result.now) }
    {
        &self.system
    }

    /// What the system said of the last create or append that failed.
    pub fn last_error(&self) -> Option<&WriteError>
        ensures none { IsNone result ↔ (self.now.spoiled ≡ 0) }
        ensures error { option_copied result ≡ self.now.failed }
    {
        self.writes.last.as_ref()
    }
}

impl<S: System + Drop> Writing for SystemWriting<S> {
    ghost written = { written_of };

    fn create(&mut self, alloc: Global, name: &str) -> Result<(), Fault>
        ensures held { Created result self.old.held self.new.held name.now }
        ensures spoiled { Rises (has_failed result) self.old.spoiled self.new.spoiled }
        ensures error { KeepsWrite (has_failed result) call.Create name.now self.old self.new }
    {
        match writers::create(&mut self.system, &mut self.writers, alloc, name) {
            Ok(()) => Ok(()),
            Err(Failure::Refused(error)) => {
                self.writes.spoil(alloc, WriteCall::Create, name, error)
            }
            Err(Failure::OutOfMemory) => Err(Fault::OutOfMemory),
        }
    }

    fn append(&mut self, alloc: Global, name: &str, bytes: &[u8]) -> Result<usize, Fault>
        ensures within { IfOk result (λ n. n ≤ length bytes.now) }
        ensures some { IfOk result (λ n. n ≡ 0 → bytes.now ≡ []) }
        ensures held { Appended result self.old.held self.new.held name.now bytes.now }
        ensures spoiled { Rises (has_failed result) self.old.spoiled self.new.spoiled }
        ensures error { KeepsWrite (has_failed result) call.Append name.now self.old self.new }
    {
        match writers::append(&mut self.system, &mut self.writers, alloc, name, bytes) {
            Ok(count) => Ok(count),
            Err(Failure::Refused(error)) => {
                self.writes.spoil(alloc, WriteCall::Append, name, error)
            }
            Err(Failure::OutOfMemory) => Err(Fault::OutOfMemory),
        }
    }
}
