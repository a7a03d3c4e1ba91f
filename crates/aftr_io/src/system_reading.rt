// The half that is read, by the calls of a system.
ghost use Rattle.std.specs.Prelude.{◌≡◌, ◌↔◌, IsNone, [], ◌≤◌, ◌<◌, IfOk, length, take, drop};
ghost use Rattle.std.specs.Option.{option_copied};
ghost use Rattle.aftr_io.specs.Contents.{content, Told};
ghost use Rattle.aftr_io.specs.Outside.{OnlyReads, has_failed};
ghost use Rattle.aftr_io.specs.Known.{KeepsRead, not_read, readable_of};
ghost use Rattle.aftr_io.specs.System.{told_if};

use crate::failure::Failure;
use crate::last_error::{LostReads, ReadError};
use crate::reader::{Reader, copy_ahead, read_file};
use crate::system::System;
use crate::{Fault, Reading};
use std::alloc::Global;
use std::marker::Model;

/// The files of a system, to be read by their names. It keeps the file open that was read last, and reads ahead in it. So no file that is
/// read may be written meanwhile: the caller owes that no output has the name of an input.
#[derive(Drop)]
pub struct SystemReading<S: System + Drop> {
    system: S,
    reader: Option<Reader<S>>,
    reads: LostReads,
}

impl<S: System + Drop> Model for SystemReading<S> {
    ghost use Rattle.std.specs.Prelude.{IsTrue, string_bytes};
    ghost use Rattle.std.specs.Option.{ForSome};
    ghost use Rattle.std.specs.Coded.{codes};
    ghost use Rattle.aftr_io.specs.Contents.{content, contents_code};
    ghost use Rattle.aftr_io.specs.System.{StandsIn};
    ghost use Rattle.aftr_io.specs.Known.{ReadSystem, known_to_read};

    ghost Value = { ReadSystem };

    ghost coded = { Prim.hlevel (codes, contents_code) };

    ghost view = { λ files. known_to_read S.tells (S.held files.system) files.reads };

    ghost invariant = { λ files.
        IsTrue S.tells → ForSome files.reader (λ r. StandsIn r.window (content (S.held files.system) (string_bytes r.name))) };
}

impl<S: System + Drop> SystemReading<S> {
    /// No file is open, and no read has failed.
    pub fn over(system: S) -> SystemReading<S>
        ensures { result ≡ not_read S.tells (S.held system) }
    {
        SystemReading {
            system,
            reader: None,
            reads: LostReads::new(),
        }
    }

    /// The system, with what it holds.
    pub fn system(&self) -> &S
        ensures { self.now.held ≡ told_if S.tells (S.held result.now) }
    {
        &self.system
    }

    /// What the system said of the last read that failed.
    pub fn last_error(&self) -> Option<&ReadError>
        ensures none { IsNone result ↔ (self.now.lost ≡ 0) }
        ensures error { option_copied result ≡ self.now.failed }
    {
        self.reads.last.as_ref()
    }

    // A read that finds nothing read ahead.
    #[inline(never)]
    fn read_system(
        &mut self,
        alloc: Global,
        name: &str,
        at: u64,
        into: &mut [u8],
    ) -> Result<usize, Fault>
        ensures within { IfOk result (λ n. n ≤ length into.old) }
        ensures bytes { IfOk result (λ n. Told self.old.held
            (λ m. take n into.new ≡ take n (drop at (content m name.now)))) }
        ensures nothing { IfOk result (λ n. Told self.old.held
            (λ m. n ≡ 0 → 0 < length into.old → drop at (content m name.now) ≡ [])) }
        ensures reads { OnlyReads (has_failed result) name.now (λ place. place ≡ at) (readable_of self.old) (readable_of self.new) }
        ensures error { KeepsRead (has_failed result) name.now at self.old self.new }
    {
        match read_file(&mut self.system, &mut self.reader, alloc, name, at, into) {
            Ok(count) => Ok(count),
            Err(Failure::Refused(error)) => self.reads.lose(alloc, name, at, error),
            Err(Failure::OutOfMemory) => Err(Fault::OutOfMemory),
        }
    }
}

impl<S: System + Drop> Reading for SystemReading<S> {
    ghost readable = { readable_of };

    fn read(&mut self, alloc: Global, name: &str, at: u64, into: &mut [u8]) -> Result<usize, Fault>
        ensures within { IfOk result (λ n. n ≤ length into.old) }
        ensures bytes { IfOk result (λ n. Told self.old.held
            (λ m. take n into.new ≡ take n (drop at (content m name.now)))) }
        ensures nothing { IfOk result (λ n. Told self.old.held
            (λ m. n ≡ 0 → 0 < length into.old → drop at (content m name.now) ≡ [])) }
        ensures reads { OnlyReads (has_failed result) name.now (λ place. place ≡ at) (readable_of self.old) (readable_of self.new) }
        ensures error { KeepsRead (has_failed result) name.now at self.old self.new }
    {
        let count = copy_ahead(&self.reader, name, at, into);
        if count > 0 {
            return Ok(count);
        }
        self.read_system(alloc, name, at, into)
    }
}
