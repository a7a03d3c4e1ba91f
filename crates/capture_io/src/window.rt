// Bytes that were read of a file and are not used yet.
ghost use Rattle.std.specs.Prelude.{◌≡◌, ℕ, ◌+◌, ◌-◌, ◌^◌, ◌<◌, ◌≤◌, [], false, if◌then◌else◌, IfOk, IsErr, IsFalse, All, List, drop, length, map, take};
ghost use Rattle.aftr_io.specs.Contents.{content, Told};
ghost use Rattle.aftr_io.specs.Outside.{OnlyReads, has_failed};
ghost use Rattle.capture_io.specs.Records.{IsWithin, placed};
ghost use Rattle.capture_io.specs.Windows.{Ahead, IsBehind, IsMore};

use crate::{Place, Records};
use aftr_base::OutOfMemory;
use aftr_io::{Fault, Reading};
use std::alloc::Global;
use std::marker::Model;
use std::mem;

/// The least room of a round.
pub const ROOM: usize = 524_288;

// So many bytes are copied once more for a smaller cost than another buffer has.
const FEW: usize = 4_096;

/// The bytes of a file from a place on that were read and are not used yet, and whether nothing stands behind them. They stand at
/// the front of one buffer.
#[derive(Drop)]
pub struct Window {
    buffer: Vec<u8>,
    filled: usize,
    last: bool,
}

impl Model for Window {
    ghost use Rattle.std.specs.Prelude.{◌≤◌, length, take};
    ghost use Rattle.capture_io.specs.Windows.{Ahead};

    ghost Value = { Ahead };

    ghost view = { λ w. record { bytes = take w.filled w.buffer.items; last = w.last } };

    ghost invariant = { λ w. w.filled ≤ length w.buffer.items };
}

impl Window {
    /// No bytes, and no room yet.
    pub fn new(alloc: Global) -> Window
        ensures { result ≡ record { bytes = []; last = false } }
    {
        Window {
            buffer: Vec::new(alloc),
            filled: 0,
            last: false,
        }
    }

    /// These bytes.
    pub fn with(alloc: Global, bytes: &[u8]) -> Result<Window, OutOfMemory>
        ensures { IfOk result (λ window. window ≡ record { bytes = bytes.now; last = false }) }
    {
        let mut buffer = Vec::new(alloc);
        buffer.extend_from_slice(bytes)?;
        Ok(Window {
            buffer,
            filled: bytes.len(),
            last: false,
        })
    }

    pub fn as_slice(&self) -> &[u8]
        ensures { result.now ≡ self.now.bytes }
    {
        &self.buffer[..self.filled]
    }

    pub fn is_last(&self) -> bool
        ensures { result ≡ self.now.last }
    {
        self.last
    }

    /// Lets all bytes go, and keeps their room.
    pub fn clear(&mut self)
        ensures { self.new ≡ record { bytes = []; last = false } }
    {
        self.filled = 0;
        self.last = false;
    }

    /// Makes ready for a round: there is room for so many bytes, and what stands behind those that are there is asked for.
    pub fn make_ready(&mut self, room: usize) -> Result<(), OutOfMemory>
        ensures { IfOk result (λ _. self.new ≡ record { bytes = self.old.bytes; last = false }) }
    {
        make_room(&mut self.buffer, room.max(ROOM))?;
        self.last = false;
        Ok(())
    }

    /// Begins a round, with the room of an earlier one: there is room for so many bytes, and what stands behind those that are there is
    /// asked for. Where these are few, they go over into that room, so that a caller who judges a round before the next one has
    /// always the same buffer read into, and a processor's cache keeps it.
    pub fn begin_round(&mut self, size: usize, room: &mut Vec<u8>) -> Result<(), OutOfMemory>
        ensures { IfOk result (λ _. self.new ≡ record { bytes = self.old.bytes; last = false }) }
    {
        if self.filled <= FEW {
            make_room(room, self.filled)?;
            put_front(room, &self.buffer[..self.filled]);
            mem::swap(&mut self.buffer, room);
        }
        self.make_ready(size)?;
        Ok(())
    }

    /// Lets the first bytes go, so many of them.
    pub fn pass(&mut self, count: usize)
        requires { count ≤ length self.old.bytes }
        ensures bytes { self.new.bytes ≡ drop count self.old.bytes }
        ensures last { self.new.last ≡ self.old.last }
    {
        if count > 0 {
            move_front(&mut self.buffer, count, self.filled);
            self.filled -= count;
        }
    }

    /// Reads a piece of so many bytes at most behind the bytes, of which the first stands at the place `at`. The buffer grows where
    /// it is full, by the piece (no more than its least room) or to twice its length.
    pub fn read_more<I: Reading>(
        &mut self,
        alloc: Global,
        files: &mut I,
        name: &str,
        at: u64,
        piece: usize,
    ) -> Result<(), Fault>
        requires place { at + length self.old.bytes < 2 ^ 63 }
        requires some { 1 ≤ piece }
        ensures told { IfOk result (λ _. IsMore (I.readable files.old).held name.now at self.old self.new) }
        ensures longer { IfOk result (λ _. IsFalse self.new.last → length self.old.bytes < length self.new.bytes) }
        ensures least { length self.old.bytes ≤ length self.new.bytes }
        ensures kept { IsErr result → self.new ≡ self.old }
        ensures reads { OnlyReads (has_failed result) name.now (λ place. place ≡ at + length self.old.bytes)
            (I.readable files.old) (I.readable files.new) }
    {
        grow(&mut self.buffer, self.filled, piece)?;
        let place = at + self.filled as u64;
        let count = read_behind(
            alloc,
            files,
            name,
            place,
            &mut self.buffer,
            self.filled,
            piece,
        )?;
        self.filled += count;
        self.last = count == 0;
        Ok(())
    }

    /// The records that stand at these places of the bytes, with the buffer in which they stand. What stands behind the first `used` bytes
    /// goes over into another buffer, which is the window's from then on; where the records have ended nothing does, so that no
    /// memory is asked for.
    pub fn hand_out(
        &mut self,
        places: Vec<Place>,
        other: Vec<u8>,
        used: usize,
        ended: bool,
    ) -> Result<Records, OutOfMemory>
        requires within { All (IsWithin self.old.bytes) places.items }
        requires used { used ≤ length self.old.bytes }
        ensures records { IfOk result (λ records. records ≡ map (placed self.old.bytes) places.items) }
        ensures rest { IfOk result (λ _. self.new.bytes ≡ (if ended then [] else drop used self.old.bytes)) }
        ensures well { IsErr result → IsFalse ended }
    {
        let mut next = other;
        if ended {
            self.filled = 0;
            let buffer = mem::replace(&mut self.buffer, next);
            return Ok(Records::of(buffer, places));
        }
        let rest = &self.buffer[used..self.filled];
        make_room(&mut next, rest.len())?;
        put_front(&mut next, rest);
        self.filled -= used;
        let buffer = mem::replace(&mut self.buffer, next);
        Ok(Records::of(buffer, places))
    }
}

// Makes a buffer as long as this, where it is shorter.
fn make_room(buffer: &mut Vec<u8>, size: usize) -> Result<(), OutOfMemory>
    ensures front { (count : ℕ) → count ≤ length buffer.old.items → take count buffer.new.items ≡ take count buffer.old.items }
    ensures size { IfOk result (λ _. size ≤ length buffer.new.items) }
    ensures longer { length buffer.old.items ≤ length buffer.new.items }
{
    if buffer.len() < size {
        buffer.resize(size, 0)?;
    }
    Ok(())
}

// Moves the bytes from a place up to an end to the front.
fn move_front(buffer: &mut Vec<u8>, from: usize, end: usize)
    requires order { from ≤ end }
    requires within { end ≤ length buffer.old.items }
    ensures front { take (end - from) buffer.new.items ≡ drop from (take end buffer.old.items) }
    ensures size { length buffer.new.items ≡ length buffer.old.items }
{
    move_first(buffer.as_mut_slice(), from, end);
}

fn move_first(buffer: &mut [u8], from: usize, end: usize)
    requires order { from ≤ end }
    requires within { end ≤ length buffer.old }
    ensures front { take (end - from) buffer.new ≡ drop from (take end buffer.old) }
    ensures size { length buffer.new ≡ length buffer.old }
{
    buffer.copy_within(from..end, 0);
}

// Room behind the first bytes of a buffer.
fn grow(buffer: &mut Vec<u8>, filled: usize, piece: usize) -> Result<(), OutOfMemory>
    requires some { 1 ≤ piece }
    requires within { filled ≤ length buffer.old.items }
    ensures front { take filled buffer.new.items ≡ take filled buffer.old.items }
    ensures room { IfOk result (λ _. filled < length buffer.new.items) }
    ensures size { filled ≤ length buffer.new.items }
{
    if filled == buffer.len() {
        let more = filled.max(piece.min(ROOM));
        buffer.resize(filled + more, 0)?;
    }
    Ok(())
}

// Reads behind the first bytes of a buffer, once. It answers how many bytes came.
fn read_behind<I: Reading>(
    alloc: Global,
    files: &mut I,
    name: &str,
    place: u64,
    buffer: &mut Vec<u8>,
    filled: usize,
    piece: usize,
) -> Result<usize, Fault>
    requires room { filled < length buffer.old.items }
    requires some { 1 ≤ piece }
    ensures front { take filled buffer.new.items ≡ take filled buffer.old.items }
    ensures size { length buffer.new.items ≡ length buffer.old.items }
    ensures within { IfOk result (λ count. filled + count ≤ length buffer.old.items) }
    ensures behind { IfOk result (λ count. IsBehind (I.readable files.old).held name.now place buffer.new.items filled count) }
    ensures nothing { IfOk result (λ count. Told (I.readable files.old).held
        (λ m. count ≡ 0 → drop place (content m name.now) ≡ [])) }
    ensures reads { OnlyReads (has_failed result) name.now (λ at. at ≡ place) (I.readable files.old) (I.readable files.new) }
{
    let slice = buffer.as_mut_slice();
    let count = read_into(alloc, files, name, place, slice, filled, piece)?;
    Ok(count)
}

fn read_into<I: Reading>(
    alloc: Global,
    files: &mut I,
    name: &str,
    place: u64,
    buffer: &mut [u8],
    filled: usize,
    piece: usize,
) -> Result<usize, Fault>
    requires room { filled < length buffer.old }
    requires some { 1 ≤ piece }
    ensures front { take filled buffer.new ≡ take filled buffer.old }
    ensures size { length buffer.new ≡ length buffer.old }
    ensures within { IfOk result (λ count. filled + count ≤ length buffer.old) }
    ensures behind { IfOk result (λ count. IsBehind (I.readable files.old).held name.now place buffer.new filled count) }
    ensures nothing { IfOk result (λ count. Told (I.readable files.old).held
        (λ m. count ≡ 0 → drop place (content m name.now) ≡ [])) }
    ensures reads { OnlyReads (has_failed result) name.now (λ at. at ≡ place) (I.readable files.old) (I.readable files.new) }
{
    let end = filled + piece.min(buffer.len() - filled);
    let count = files.read(alloc, name, place, &mut buffer[filled..end])?;
    Ok(count)
}

// Puts bytes in front.
fn put_front(buffer: &mut Vec<u8>, ahead: &[u8])
    requires { length ahead.now ≤ length buffer.old.items }
    ensures front { take (length ahead.now) buffer.new.items ≡ ahead.now }
    ensures size { length buffer.new.items ≡ length buffer.old.items }
{
    put_first(buffer.as_mut_slice(), ahead);
}

fn put_first(buffer: &mut [u8], ahead: &[u8])
    requires { length ahead.now ≤ length buffer.old }
    ensures { take (length ahead.now) buffer.new ≡ ahead.now }
{
    buffer[..ahead.len()].copy_from_slice(ahead);
}
