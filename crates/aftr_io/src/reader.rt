// The file that was read last.
ghost use Rattle.std.specs.Prelude.{◌≡◌, ◌<◌, ◌≤◌, [], None, IsTrue, IfOk, OnOk, length, take, drop, string_bytes};
ghost use Rattle.std.specs.Option.{ForSome};
ghost use Rattle.aftr_io.specs.Contents.{Contents, content};
ghost use Rattle.aftr_io.specs.System.{StandsIn};

use crate::failure::Failure;
use crate::system::System;
use crate::window::Window;
use std::alloc::Global;

// A read that finds nothing read ahead goes past the window if it asks for this many bytes or more.
const DIRECT: usize = 1 << 18;

#[derive(Drop)]
pub struct Reader<S: System> {
    pub name: String,
    file: S::ReadHandle,
    // the place of the handle's next read, if it is known
    place: Option<u64>,
    pub window: Window,
    ghost of_name: { IsTrue S.tells → (S.reads file).0 ≡ string_bytes name },
    ghost at_place: { IsTrue S.tells → ForSome place (λ p. (S.reads file).1 ≡ p) },
}

impl<S: System> Reader<S> {
    /// Opens a file, and takes the window of the reader before it.
    pub fn open(
        system: &mut S,
        alloc: Global,
        name: &str,
        before: Option<Reader<S>>,
    ) -> Result<Reader<S>, Failure>
        ensures name { IfOk result (λ r. string_bytes r.name ≡ name.now) }
        ensures nothing { IfOk result (λ r. r.window.bytes ≡ []) }
        ensures same { IsTrue S.tells → S.held system.new ≡ S.held system.old }
    {
        let file = system.open(alloc, name)?;
        let mut window = match before {
            Some(reader) => reader.window,
            None => Window::new(alloc),
        };
        window.clear();
        Ok(Reader {
            name: String::from_str(alloc, name)?,
            file,
            place: Some(0),
            window,
        })
    }

    // Puts the handle at a place of the file. `place` is unknown until the next read has succeeded.
    fn go_to(&mut self, system: &mut S, at: u64) -> Result<(), Failure>
        ensures name { string_bytes self.new.name ≡ string_bytes self.old.name }
        ensures window { self.new.window ≡ self.old.window }
        ensures place { IsTrue S.tells → OnOk result ((S.reads self.new.file).1 ≡ at) }
        ensures unknown { self.new.place ≡ None }
        ensures same { IsTrue S.tells → S.held system.new ≡ S.held system.old }
    {
        let place = self.place.take();
        if place != Some(at) {
            system.seek(&mut self.file, at)?;
        }
        Ok(())
    }

    // Reads the window again, from a place on.
    fn refill(&mut self, system: &mut S, at: u64) -> Result<usize, Failure>
        requires { IsTrue S.tells → StandsIn self.old.window (content (S.held system.old) (string_bytes self.old.name)) }
        ensures name { string_bytes self.new.name ≡ string_bytes self.old.name }
        ensures stands { IsTrue S.tells → StandsIn self.new.window (content (S.held system.new) (string_bytes self.new.name)) }
        ensures front { IfOk result (λ n. (self.new.window.start ≡ at) × (length self.new.window.bytes ≡ n)) }
        ensures nothing { IsTrue S.tells
            → IfOk result (λ n. n ≡ 0 → drop at (content (S.held system.old) (string_bytes self.old.name)) ≡ []) }
        ensures same { IsTrue S.tells → S.held system.new ≡ S.held system.old }
    {
        self.go_to(system, at)?;
        let count = self.window.refill(system, &mut self.file, at)?;
        self.place = at.checked_add(count as u64);
        Ok(count)
    }

    // Reads past the window.
    fn read_direct(&mut self, system: &mut S, at: u64, into: &mut [u8]) -> Result<usize, Failure>
        ensures name { string_bytes self.new.name ≡ string_bytes self.old.name }
        ensures window { self.new.window ≡ self.old.window }
        ensures within { IfOk result (λ n. n ≤ length into.old) }
        ensures bytes { IsTrue S.tells → IfOk result (λ n. take n into.new
            ≡ take n (drop at (content (S.held system.old) (string_bytes self.old.name)))) }
        ensures nothing { IsTrue S.tells → IfOk result (λ n. n ≡ 0 → 0 < length into.old
            → drop at (content (S.held system.old) (string_bytes self.old.name)) ≡ []) }
        ensures same { IsTrue S.tells → S.held system.new ≡ S.held system.old }
    {
        self.go_to(system, at)?;
        let count = system.read(&mut self.file, into)?;
        self.place = at.checked_add(count as u64);
        Ok(count)
    }

    /// Bytes of the file from a place on, as `Reading::read` has them. What was read ahead is not asked.
    pub fn read(&mut self, system: &mut S, at: u64, into: &mut [u8]) -> Result<usize, Failure>
        requires { IsTrue S.tells → StandsIn self.old.window (content (S.held system.old) (string_bytes self.old.name)) }
        ensures name { string_bytes self.new.name ≡ string_bytes self.old.name }
        ensures stands { IsTrue S.tells → StandsIn self.new.window (content (S.held system.new) (string_bytes self.new.name)) }
        ensures within { IfOk result (λ n. n ≤ length into.old) }
        ensures bytes { IsTrue S.tells → IfOk result (λ n. take n into.new
            ≡ take n (drop at (content (S.held system.old) (string_bytes self.old.name)))) }
        ensures nothing { IsTrue S.tells → IfOk result (λ n. n ≡ 0 → 0 < length into.old
            → drop at (content (S.held system.old) (string_bytes self.old.name)) ≡ []) }
        ensures same { IsTrue S.tells → S.held system.new ≡ S.held system.old }
    {
        if into.is_empty() {
            return Ok(0);
        }
        if into.len() >= DIRECT {
            return self.read_direct(system, at, into);
        }
        self.refill(system, at)?;
        Ok(self.window.copy(at, into))
    }
}

/// Copies what the reader, if it is of this name, has read ahead from a place on.
pub fn copy_ahead<S: System>(
    reader: &Option<Reader<S>>,
    name: &str,
    at: u64,
    into: &mut [u8],
) -> usize
    ensures within { result ≤ length into.old }
    ensures bytes { (held : Contents) → ForSome reader.now (λ r. StandsIn r.window (content held (string_bytes r.name)))
        → take result into.new ≡ take result (drop at (content held name.now)) }
{
    if let Some(open) = reader {
        if open.name.as_str() == name {
            return open.window.copy(at, into);
        }
    }
    0
}

/// Reads by the reader, if it is of this name, and else opens the file in its place.
pub fn read_file<S: System>(
    system: &mut S,
    reader: &mut Option<Reader<S>>,
    alloc: Global,
    name: &str,
    at: u64,
    into: &mut [u8],
) -> Result<usize, Failure>
    requires { IsTrue S.tells → ForSome reader.old (λ r. StandsIn r.window (content (S.held system.old) (string_bytes r.name))) }
    ensures stands { IsTrue S.tells → ForSome reader.new (λ r. StandsIn r.window (content (S.held system.new) (string_bytes r.name))) }
    ensures within { IfOk result (λ n. n ≤ length into.old) }
    ensures bytes { IsTrue S.tells → IfOk result (λ n. take n into.new ≡ take n (drop at (content (S.held system.old) name.now))) }
    ensures nothing { IsTrue S.tells → IfOk result (λ n. n ≡ 0 → 0 < length into.old
        → drop at (content (S.held system.old) name.now) ≡ []) }
    ensures same { IsTrue S.tells → S.held system.new ≡ S.held system.old }
{
    if let Some(open) = reader {
        if open.name.as_str() == name {
            return open.read(system, at, into);
        }
    }
    let mut open = Reader::open(system, alloc, name, reader.take())?;
    let count = open.read(system, at, into);
    *reader = Some(open);
    count
}
