// Bytes of one file that are read ahead.
ghost use Rattle.std.specs.Prelude.{◌≡◌, ◌+◌, ◌<◌, ◌≤◌, List, ℕ, [], IsTrue, IfOk, OnOk, OnErr, length, take, drop, min};
ghost use Rattle.aftr_io.specs.Contents.{content};
ghost use Rattle.aftr_io.specs.System.{StandsIn};

use crate::copying::copy_from;
use crate::failure::Failure;
use crate::system::System;
use std::alloc::{AllocError, Global};
use std::io;
use std::marker::Model;

// The most bytes that are read ahead at once.
const MOST: usize = 1 << 20;

// The bytes that are read ahead at first; each time twice as many follow. So a caller who reads a header and goes on by large reads has
// read no more than a page ahead.
const FIRST: usize = 1 << 12;

#[derive(Drop)]
pub struct Window {
    buffer: Vec<u8>,
    // the place of the buffer's first byte
    start: u64,
    // how many of its bytes were read
    ahead: usize,
    // how many are read the next time
    next: usize,
}

impl Model for Window {
    ghost use Rattle.std.specs.Prelude.{◌<◌, ◌≤◌, length, take};
    ghost use Rattle.aftr_io.specs.System.{Ahead};

    ghost Value = { Ahead };

    ghost view = { λ w. record { start = w.start; bytes = take w.ahead w.buffer.items } };

    ghost invariant = { λ w. (w.ahead ≤ length w.buffer.items) × (0 < w.next) };
}

impl Window {
    /// Nothing is read ahead.
    pub fn new(alloc: Global) -> Window
        ensures { result.bytes ≡ [] }
    {
        Window {
            buffer: Vec::new(alloc),
            start: 0,
            ahead: 0,
            next: FIRST,
        }
    }

    /// Nothing is read ahead any more.
    pub fn clear(&mut self)
        ensures { self.new.bytes ≡ [] }
    {
        self.ahead = 0;
        self.next = FIRST;
    }

    /// Copies what is read ahead from a place of the file on.
    pub fn copy(&self, at: u64, into: &mut [u8]) -> usize
        ensures within { result ≤ length into.old }
        ensures bytes { (file : List ℕ) → StandsIn self.now file → take result into.new ≡ take result (drop at file) }
        ensures front { at ≡ self.now.start → result ≡ min (length into.old) (length self.now.bytes) }
    {
        if at < self.start {
            return 0;
        }
        copy_from(&self.buffer[..self.ahead], at - self.start, into)
    }

    /// Reads ahead from the handle's place, which has to be `at`.
    pub fn refill<S: System>(
        &mut self,
        system: &mut S,
        file: &mut S::ReadHandle,
        at: u64,
    ) -> Result<usize, Failure>
        ensures front { IfOk result (λ n. (self.new.start ≡ at) × (length self.new.bytes ≡ n)) }
        ensures stands { IsTrue S.tells → (S.reads file.old).1 ≡ at
            → StandsIn self.new (content (S.held system.old) (S.reads file.old).0) }
        ensures nothing { IsTrue S.tells → (S.reads file.old).1 ≡ at
            → IfOk result (λ n. n ≡ 0 → drop at (content (S.held system.old) (S.reads file.old).0) ≡ []) }
        ensures file { IsTrue S.tells → (S.reads file.new).0 ≡ (S.reads file.old).0 }
        ensures place { IsTrue S.tells → IfOk result (λ n. (S.reads file.new).1 ≡ (S.reads file.old).1 + n) }
        ensures same { IsTrue S.tells → S.held system.new ≡ S.held system.old }
    {
        self.ahead = 0;
        make_room(&mut self.buffer, self.next)?;
        let count = read_front(system, file, &mut self.buffer, self.next)?;
        self.start = at;
        self.ahead = count;
        self.next = self.next.saturating_mul(2).min(MOST);
        Ok(count)
    }
}

fn make_room(buffer: &mut Vec<u8>, wanted: usize) -> Result<(), AllocError>
    ensures { OnOk result (wanted ≤ length buffer.new.items) }
{
    if buffer.len() < wanted {
        buffer.resize(wanted, 0)?;
    }
    Ok(())
}

// Reads into the first `wanted` bytes of a buffer.
fn read_front<S: System>(
    system: &mut S,
    file: &mut S::ReadHandle,
    buffer: &mut [u8],
    wanted: usize,
) -> io::Result<usize>
    requires { wanted ≤ length buffer.old }
    ensures within { IfOk result (λ n. n ≤ wanted) }
    ensures bytes { IsTrue S.tells → IfOk result (λ n. take n buffer.new
        ≡ take n (drop (S.reads file.old).1 (content (S.held system.old) (S.reads file.old).0))) }
    ensures nothing { IsTrue S.tells → IfOk result (λ n. n ≡ 0 → 0 < wanted
        → drop (S.reads file.old).1 (content (S.held system.old) (S.reads file.old).0) ≡ []) }
    ensures file { IsTrue S.tells → (S.reads file.new).0 ≡ (S.reads file.old).0 }
    ensures place { IsTrue S.tells → IfOk result (λ n. (S.reads file.new).1 ≡ (S.reads file.old).1 + n) }
    ensures same { IsTrue S.tells → S.held system.new ≡ S.held system.old }
{
    system.read(file, &mut buffer[..wanted])
}
