// Blocks that are longer than what is kept of one: their rest is read and let go.
ghost use Rattle.std.specs.Prelude.{◌≡◌, ℕ, ◌+◌, ◌-◌, ◌^◌, ◌<◌, ◌≤◌, All, IfErr, IfOk, IsFalse, Ok, drop, false, length};
ghost use Rattle.aftr_io.specs.Contents.{Told};
ghost use Rattle.aftr_io.specs.Outside.{OnlyReads, has_failed};
ghost use Rattle.capture_io.specs.Answers.{Agrees, is_read_fault};
ghost use Rattle.pcapng_io.specs.declared.fronts.Front.TheVariants as front;
ghost use Rattle.pcapng_io.specs.Answers.{IsOfBlock, RefusesBlock};
ghost use Rattle.pcapng_io.specs.Blocks.{block_in, body_in};
ghost use Rattle.pcapng_io.specs.Files.{IsSound};
ghost use Rattle.pcapng_io.specs.Frames.{head_in, least_total};
ghost use Rattle.pcapng_io.specs.Fronts.{front_in};
ghost use Rattle.pcapng_io.specs.Interfaces.{interface_in, option_bytes, options_in, resolution_of};
ghost use Rattle.pcapng_io.specs.Long.{HasBytes, IsEnd, IsInLong, IsLonger, IsPassed, StandsAt, StandsIn, WithFront, ended, tail_in, tail_of};
ghost use Rattle.pcapng_io.specs.Seen.{Seen, seen_by};

use crate::block::{Block, Known, Sought};
use crate::frame::{Frame, INTERFACE, head_of};
use crate::fronts::body_of_fields;
use crate::interface::{Interface, Walked, block_of, start_of, walk_options};
use aftr_base::OutOfMemory;
use aftr_io::{Fault, Reading};
use capture_io::{CaptureBad, CaptureError, NgBad, Window, word};
use std::alloc::Global;

// Where the captured bytes of the largest packet end in its block.
const PACKET_END: usize = 262_172;

/// The most bytes of a block that are kept: so many, and four behind them, which may be the block's last.
pub const MOST_KEPT: usize = 262_176;

const OPTIONS: u64 = 16;

/// What stands at the place that is known, where the window has as much of it as is kept and not all of it. The rest is read to the
/// block's last byte and let go; so no block takes more memory than another. Behind a packet the window is as it was, and behind another block
/// it stands behind that. It is rare, and stands apart from the ways of short blocks.
#[inline(never)]
pub fn read_long<I: Reading>(
    alloc: Global,
    files: &mut I,
    name: &str,
    sought: Sought,
    interfaces: &[Interface],
    window: &mut Window,
) -> Result<Block, CaptureError>
    requires number { sought.number ≤ 2 ^ 31 }
    requires time { sought.known.nanos < 1000000000 }
    requires counted { All (λ interface. 0 < interface.ticks) interfaces.now }
    requires is_open { front_in (seen_by sought.known interfaces.now) window.old.bytes window.old.last sought.number ≡ front.More }
    requires kept { 262176 ≤ length window.old.bytes }
    ensures told { WithFront (I.readable files.old).held name.now sought.known.at window.old
        (λ all. Agrees result (block_in (seen_by sought.known interfaces.now) (drop sought.known.at all) sought.number)) }
    ensures sound { IfOk result (λ block. IsSound sought.number block) }
    ensures near { IfOk result (λ _. sought.known.at ≤ 2 ^ 62) }
    ensures stands { IfOk result (λ block. WithFront (I.readable files.old).held name.now sought.known.at window.old
        (λ all. StandsIn all sought.known.at window.new block)) }
    ensures there { IfOk result (λ block. HasBytes block window.new) }
    ensures longer { IfOk result (IsLonger (length window.old.bytes)) }
    ensures refused { IfErr result (RefusesBlock (seen_by sought.known interfaces.now)) }
    ensures reads { OnlyReads (is_read_fault result) name.now
        (IsInLong (I.readable files.old).held name.now (seen_by sought.known interfaces.now) sought.number window.old)
        (I.readable files.old) (I.readable files.new) }
{
    let frame = match head_of(sought.known.big, window.as_slice(), sought.known.at) {
        Ok(frame) => frame,
        Err(refusal) => return Err(CaptureError::Bad(refusal)),
    };
    let block = read_body(alloc, files, name, sought, interfaces, frame, window)?;
    Ok(block)
}

// The block of a frame, of which the window has no more than the front.
fn read_body<I: Reading>(
    alloc: Global,
    files: &mut I,
    name: &str,
    sought: Sought,
    interfaces: &[Interface],
    frame: Frame,
    window: &mut Window,
) -> Result<Block, CaptureError>
    requires number { sought.number ≤ 2 ^ 31 }
    requires time { sought.known.nanos < 1000000000 }
    requires counted { All (λ interface. 0 < interface.ticks) interfaces.now }
    requires near { sought.known.at ≤ 2 ^ 62 }
    requires least { least_total frame.kind ≤ frame.total }
    requires kept { 262176 ≤ length window.old.bytes }
    requires less { length window.old.bytes < frame.total }
    ensures told { WithFront (I.readable files.old).held name.now sought.known.at window.old
        (λ all. Agrees result (ended frame (drop sought.known.at all) sought.known.at
        (body_in (seen_by sought.known interfaces.now) (drop sought.known.at all) sought.number frame))) }
    ensures sound { IfOk result (λ block. IsSound sought.number block) }
    ensures stands { IfOk result (λ block. WithFront (I.readable files.old).held name.now sought.known.at window.old
        (λ all. StandsIn all sought.known.at window.new block)) }
    ensures there { IfOk result (λ block. HasBytes block window.new) }
    ensures longer { IfOk result (IsLonger (length window.old.bytes)) }
    ensures refused { IfErr result (RefusesBlock (seen_by sought.known interfaces.now)) }
    ensures reads { OnlyReads (is_read_fault result) name.now (λ place. (sought.known.at ≤ place) × (place < sought.known.at + frame.total))
        (I.readable files.old) (I.readable files.new) }
{
    if frame.kind == INTERFACE {
        let block = read_interface(alloc, files, name, sought.known, interfaces, frame, window)?;
        return Ok(block);
    }
    let block = match body_of_fields(
        sought.known,
        interfaces,
        window.as_slice(),
        frame,
        sought.number,
    ) {
        Ok(block) => block,
        Err(refusal) => {
            read_end(
                alloc,
                files,
                name,
                frame,
                sought.known.at,
                sought.known.at,
                window,
            )?;
            return Err(CaptureError::Bad(refusal));
        }
    };
    match block {
        Block::Packet(_) => {
            read_options(alloc, files, name, frame, sought.known.at, window)?;
            Ok(block)
        }
        Block::Passed(_) => {
            read_end(
                alloc,
                files,
                name,
                frame,
                sought.known.at,
                sought.known.at,
                window,
            )?;
            Ok(block)
        }
        Block::End => Ok(block),
    }
}

// Reads over the options behind a packet, whose bytes stay in the window.
fn read_options<I: Reading>(
    alloc: Global,
    files: &mut I,
    name: &str,
    frame: Frame,
    at: u64,
    window: &Window,
) -> Result<Frame, CaptureError>
    requires near { at ≤ 2 ^ 62 }
    requires kept { 262176 ≤ length window.now.bytes }
    requires less { length window.now.bytes < frame.total }
    ensures told { WithFront (I.readable files.old).held name.now at window.now
        (λ all. Agrees result (tail_of frame (drop at all) at)) }
    ensures refused { IfErr result (λ e. (seen : Seen) → RefusesBlock seen e) }
    ensures reads { OnlyReads (is_read_fault result) name.now (λ place. (at ≤ place) × (place < at + frame.total))
        (I.readable files.old) (I.readable files.new) }
{
    let mut rest = match rest_of(alloc, window) {
        Ok(rest) => rest,
        Err(_) => return Err(CaptureError::OutOfMemory),
    };
    let from = at + PACKET_END as u64;
    let frame = read_end(alloc, files, name, frame, at, from, &mut rest)?;
    Ok(frame)
}

// What the window has behind the largest packet, with room for as much as is kept of a block.
fn rest_of(alloc: Global, window: &Window) -> Result<Window, OutOfMemory>
    requires { 262176 ≤ length window.now.bytes }
    ensures { IfOk result (λ rest. rest ≡ record { bytes = drop 262172 window.now.bytes; last = false }) }
{
    let mut rest = Window::with(alloc, &window.as_slice()[PACKET_END..])?;
    rest.make_ready(MOST_KEPT)?;
    Ok(rest)
}

// The interface of such a block. Its options are walked over as they come.
fn read_interface<I: Reading>(
    alloc: Global,
    files: &mut I,
    name: &str,
    known: Known,
    interfaces: &[Interface],
    frame: Frame,
    window: &mut Window,
) -> Result<Block, CaptureError>
    requires near { known.at ≤ 2 ^ 62 }
    requires least { 20 ≤ frame.total }
    requires fields { 16 ≤ length window.old.bytes }
    ensures told { WithFront (I.readable files.old).held name.now known.at window.old
        (λ all. Agrees result (ended frame (drop known.at all) known.at (interface_in (seen_by known interfaces.now) (drop known.at all) frame))) }
    ensures sound { IfOk result (λ block. (number : ℕ) → IsSound number block) }
    ensures passed { IfOk result (IsPassed frame.total) }
    ensures stands { IfOk result (λ block. WithFront (I.readable files.old).held name.now known.at window.old
        (StandsAt (known.at + frame.total) window.new)) }
    ensures refused { IfErr result (RefusesBlock (seen_by known interfaces.now)) }
    ensures reads { OnlyReads (is_read_fault result) name.now (λ place. (known.at ≤ place) × (place < known.at + frame.total))
        (I.readable files.old) (I.readable files.new) }
{
    let start = match start_of(known, interfaces, window.as_slice(), frame) {
        Ok(start) => start,
        Err(refusal) => {
            read_end(alloc, files, name, frame, known.at, known.at, window)?;
            return Err(CaptureError::Bad(refusal));
        }
    };
    window.pass(OPTIONS as usize);
    let found = read_resolution(alloc, files, name, frame, known.at, window)?;
    match block_of(known.at, start, found, frame) {
        Ok(block) => Ok(block),
        Err(refusal) => Err(CaptureError::Bad(refusal)),
    }
}

// The resolution that the options of a block give, which stands at the place `at`; the window stands at the first of them, and then
// behind the block.
fn read_resolution<I: Reading>(
    alloc: Global,
    files: &mut I,
    name: &str,
    frame: Frame,
    at: u64,
    window: &mut Window,
) -> Result<Option<u8>, CaptureError>
    requires near { at ≤ 2 ^ 62 }
    requires least { 20 ≤ frame.total }
    ensures told { WithFront (I.readable files.old).held name.now (at + 16) window.old
        (λ all. Agrees result (ended frame (drop at all) at (resolution_of at (options_in frame.big (option_bytes frame (drop at all)))))) }
    ensures stands { IfOk result (λ _. WithFront (I.readable files.old).held name.now (at + 16) window.old
        (StandsAt (at + frame.total) window.new)) }
    ensures refused { IfErr result (λ e. (seen : Seen) → RefusesBlock seen e) }
    ensures reads { OnlyReads (is_read_fault result) name.now (λ place. (at ≤ place) × (place < at + frame.total))
        (I.readable files.old) (I.readable files.new) }
{
    let end = at + u64::from(frame.total) - 4;
    let mut here = at + OPTIONS;
    let mut place = 0;
    let mut found = None;
    'options: loop {
        let left = (end - here) as usize;
        match walk_options(window.as_slice(), place, left, at, frame.big, found) {
            Walked::Over(found) => {
                read_end(alloc, files, name, frame, at, here, window)?;
                return Ok(found);
            }
            Walked::Bad(refusal) => {
                read_end(alloc, files, name, frame, at, here, window)?;
                return Err(CaptureError::Bad(refusal));
            }
            Walked::More {
                place: next,
                found: now,
            } => {
                if window.is_last() {
                    return Err(CaptureError::Bad(CaptureBad::Ng(NgBad::Cut { at })));
                }
                let count = next.min(window.as_slice().len());
                window.pass(count);
                here += count as u64;
                place = next - count;
                found = now;
                let missing = missing_of(end, here, window.as_slice().len());
                window.read_more(alloc, files, name, here, missing.max(1))?;
            }
        }
    }
}

// Reads to the last byte of the block of a frame, which stands at the place `at`, and lets its bytes go; the window stands in it.
// It answers the frame, unless the last four bytes refuse it.
fn read_end<I: Reading>(
    alloc: Global,
    files: &mut I,
    name: &str,
    frame: Frame,
    at: u64,
    from: u64,
    window: &mut Window,
) -> Result<Frame, CaptureError>
    requires near { at ≤ 2 ^ 62 }
    requires behind { at ≤ from }
    requires inside { from + 4 ≤ at + frame.total }
    ensures told { WithFront (I.readable files.old).held name.now from window.old
        (λ all. Agrees result (tail_of frame (drop at all) at)) }
    ensures stands { IfOk result (λ _. WithFront (I.readable files.old).held name.now from window.old
        (StandsAt (at + frame.total) window.new)) }
    ensures refused { IfErr result (λ e. (seen : Seen) → RefusesBlock seen e) }
    ensures reads { OnlyReads (is_read_fault result) name.now (λ place. (at ≤ place) × (place < at + frame.total))
        (I.readable files.old) (I.readable files.new) }
{
    let end = at + u64::from(frame.total) - 4;
    read_over(alloc, files, name, from, end, window)?;
    match end_of(frame, window.as_slice(), at) {
        Ok(frame) => {
            window.pass(4);
            Ok(frame)
        }
        Err(refusal) => Err(CaptureError::Bad(refusal)),
    }
}

// Reads up to the fourth byte from the place `end` on, as far as there are any, and lets those in front of it go; the window stands at the
// place `from`.
fn read_over<I: Reading>(
    alloc: Global,
    files: &mut I,
    name: &str,
    from: u64,
    end: u64,
    window: &mut Window,
) -> Result<(), Fault>
    requires near { end < 2 ^ 62 + 2 ^ 32 }
    requires order { from ≤ end }
    ensures told { IfOk result (λ _. WithFront (I.readable files.old).held name.now from window.old
        (λ all. IsEnd window.new.bytes (drop end all))) }
    ensures stands { IfOk result (λ _. 4 ≤ length window.new.bytes → WithFront (I.readable files.old).held name.now from window.old
        (StandsAt end window.new)) }
    ensures reads { OnlyReads (has_failed result) name.now (λ place. (from ≤ place) × (place < end + 4))
        (I.readable files.old) (I.readable files.new) }
{
    let mut here = from;
    'passing: loop {
        let count = passable(window.as_slice().len(), end - here);
        window.pass(count);
        here += count as u64;
        let missing = missing_of(end, here, window.as_slice().len());
        if missing == 0 {
            return Ok(());
        }
        if window.is_last() {
            return Ok(());
        }
        window.read_more(alloc, files, name, here, missing)?;
    }
}

// How many of so many bytes are let go, where so many are left in front of the last four.
fn passable(count: usize, left: u64) -> usize
    ensures within { result ≤ count }
    ensures few { result ≤ left }
    ensures all { result < left → result ≡ count }
{
    if (count as u64) < left {
        count
    } else {
        left as usize
    }
}

// How many bytes are missing up to the block's last, of which four stand from `end` on, where so many are there from `here` on.
fn missing_of(end: u64, here: u64, count: usize) -> usize
    requires near { end < 2 ^ 63 }
    requires order { here ≤ end }
    ensures none { result ≡ 0 → end + 4 ≤ here + count }
    ensures some { 1 ≤ result → here + count < end + 4 }
{
    (end + 4 - here).saturating_sub(count as u64) as usize
}

// The frame, by the bytes from its last four on.
fn end_of(frame: Frame, last: &[u8], at: u64) -> Result<Frame, CaptureBad>
    ensures says { result ≡ tail_in frame last.now at }
    ensures refused { IfErr result (λ refusal. (seen : Seen) → IsOfBlock seen refusal) }
    ensures there { IfOk result (λ _. 4 ≤ length last.now) }
{
    if last.len() < 4 {
        return Err(CaptureBad::Ng(NgBad::Cut { at }));
    }
    if word(frame.big, last, 0) != frame.total {
        return Err(CaptureBad::Ng(NgBad::Length { at }));
    }
    Ok(frame)
}
