// The files that are open to be written, one handle a name.
ghost use Rattle.std.specs.Prelude.{◌≡◌, ◌≢◌, ◌<◌, ◌≤◌, [], ◌++◌, length, take, string_bytes};
ghost use Rattle.std.specs.Prelude.{IsTrue, IfOk, IfNone, IfSome, OnErr, OnOk};
ghost use Rattle.std.specs.List.{All};
ghost use Rattle.aftr_io.specs.Contents.{Contents, content, Writes};
ghost use Rattle.aftr_io.specs.System.{IsAtEnd, IsNamed, NoneWrites, WriteAtEnds, moved};

use crate::failure::Failure;
use crate::system::System;
use std::alloc::Global;
use std::io;
use std::io::ErrorKind;

#[derive(Drop)]
pub struct Writer<S: System> {
    name: String,
    pub file: S::WriteHandle,
    ghost of_name: { IsTrue S.tells → (S.writes file).0 ≡ string_bytes name },
}

impl<S: System> Writer<S> {
    // Puts bytes at the handle's place, of which it takes at least one.
    fn write(&mut self, system: &mut S, alloc: Global, bytes: &[u8]) -> Result<usize, Failure>
        ensures within { IfOk result (λ n. n ≤ length bytes.now) }
        ensures some { IfOk result (λ n. 0 < n) }
        ensures bytes { IsTrue S.tells → IsAtEnd (S.held system.old) (S.writes self.old.file) → IfOk result (λ n.
            Writes (S.held system.old) (S.held system.new) (S.writes self.old.file).0
            (content (S.held system.old) (S.writes self.old.file).0 ++ take n bytes.now)) }
        ensures place { IsTrue S.tells → IfOk result (λ n. S.writes self.new.file ≡ moved (S.writes self.old.file) n) }
        ensures same { IsTrue S.tells → OnErr result (S.held system.new ≡ S.held system.old) }
        ensures stays { IsTrue S.tells → OnErr result (S.writes self.new.file ≡ S.writes self.old.file) }
    {
        let count = system.write(alloc, &mut self.file, bytes)?;
        if count == 0 {
            return Err(Failure::Refused(io::Error::from(ErrorKind::WriteZero)));
        }
        Ok(count)
    }
}

fn place_of<S: System>(writers: &[Writer<S>], name: &str) -> Option<usize>
    ensures within { IfSome result (λ place. place < length writers.now) }
    ensures named { IfSome result (IsNamed (λ w. string_bytes w.name) writers.now name.now) }
    ensures none { IfNone result (All (λ w. string_bytes w.name ≢ name.now) writers.now) }
{
    'writers: for (place, writer) in writers.iter().enumerate() {
        if writer.name.as_str() == name {
            return Some(place);
        }
    }
    None
}

// Gives the writer of this name up, if there is one.
fn close<S: System>(writers: &mut Vec<Writer<S>>, name: &str)
    ensures ends { IsTrue S.tells → (held : Contents) → WriteAtEnds (λ w. S.writes w.file) held writers.old.items
        → WriteAtEnds (λ w. S.writes w.file) held writers.new.items }
    ensures none { IsTrue S.tells → (held : Contents) → WriteAtEnds (λ w. S.writes w.file) held writers.old.items
        → NoneWrites (λ w. S.writes w.file) name.now writers.new.items }
{
    if let Some(place) = place_of(writers, name) {
        drop(writers.remove(place));
    }
}

/// Makes a file, empty, whose writer takes the place of the one before it.
pub fn create<S: System>(
    system: &mut S,
    writers: &mut Vec<Writer<S>>,
    alloc: Global,
    name: &str,
) -> Result<(), Failure>
    requires { IsTrue S.tells → WriteAtEnds (λ w. S.writes w.file) (S.held system.old) writers.old.items }
    ensures ends { IsTrue S.tells → WriteAtEnds (λ w. S.writes w.file) (S.held system.new) writers.new.items }
    ensures made { IsTrue S.tells → OnOk result (Writes (S.held system.old) (S.held system.new) name.now []) }
    ensures same { IsTrue S.tells → OnErr result (S.held system.new ≡ S.held system.old) }
{
    let kept = String::from_str(alloc, name)?;
    close(writers, name);
    writers.reserve(1)?;
    let file = system.create(alloc, name)?;
    writers.push(Writer { name: kept, file })?;
    Ok(())
}

// The place of the writer of this name, which is opened if there is none.
fn writer_of<S: System>(
    system: &mut S,
    writers: &mut Vec<Writer<S>>,
    alloc: Global,
    name: &str,
) -> Result<usize, Failure>
    requires { IsTrue S.tells → WriteAtEnds (λ w. S.writes w.file) (S.held system.old) writers.old.items }
    ensures ends { IsTrue S.tells → WriteAtEnds (λ w. S.writes w.file) (S.held system.new) writers.new.items }
    ensures within { IfOk result (λ place. place < length writers.new.items) }
    ensures named { IfOk result (IsNamed (λ w. string_bytes w.name) writers.new.items name.now) }
    ensures same { IsTrue S.tells → S.held system.new ≡ S.held system.old }
{
    if let Some(place) = place_of(writers, name) {
        return Ok(place);
    }
    let kept = String::from_str(alloc, name)?;
    writers.reserve(1)?;
    let file = system.open_end(alloc, name)?;
    writers.push(Writer { name: kept, file })?;
    Ok(writers.len() - 1)
}

/// Puts bytes behind those that a file holds, as `Writing::append` has it.
pub fn append<S: System>(
    system: &mut S,
    writers: &mut Vec<Writer<S>>,
    alloc: Global,
    name: &str,
    bytes: &[u8],
) -> Result<usize, Failure>
    requires { IsTrue S.tells → WriteAtEnds (λ w. S.writes w.file) (S.held system.old) writers.old.items }
    ensures ends { IsTrue S.tells → WriteAtEnds (λ w. S.writes w.file) (S.held system.new) writers.new.items }
    ensures within { IfOk result (λ n. n ≤ length bytes.now) }
    ensures some { IfOk result (λ n. n ≡ 0 → bytes.now ≡ []) }
    ensures bytes { IsTrue S.tells → IfOk result (λ n. Writes (S.held system.old) (S.held system.new) name.now
        (content (S.held system.old) name.now ++ take n bytes.now)) }
    ensures same { IsTrue S.tells → OnErr result (S.held system.new ≡ S.held system.old) }
{
    let place = writer_of(system, writers, alloc, name)?;
    if bytes.is_empty() {
        return Ok(0);
    }
    writers[place].write(system, alloc, bytes)
}
