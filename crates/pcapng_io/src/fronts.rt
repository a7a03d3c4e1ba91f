// The block that stands at the front of bytes that were read.
ghost use Rattle.std.specs.Prelude.{◌≡◌, ℕ, ◌+◌, ◌-◌, ◌^◌, ◌<◌, ◌≤◌, nat_lt, All, IfOk, IfSome, IsTrue, Ok, length};
ghost use Rattle.pcapng_io.specs.Blocks.{block_in, body_in};
ghost use Rattle.pcapng_io.specs.Files.{IsSound};
ghost use Rattle.pcapng_io.specs.Frames.{enhanced_packet_type, frame_in, least_total};
ghost use Rattle.pcapng_io.specs.Fronts.{front_in, is_more, is_short, needed, IsSaidAnywhere, IsSoundAnywhere, IsSoundFront};
ghost use Rattle.pcapng_io.specs.Seen.{seen_by};

use crate::block::{Block, FARTHEST, Known, Packet, Passed};
use crate::frame::{
    ENHANCED_PACKET, Frame, HEAD_LEN, INTERFACE, OLD_PACKET, SECTION, SIMPLE_PACKET, head_of,
};
use crate::interface::{Interface, interface_of_front};
use crate::long::MOST_KEPT;
use crate::packets::{enhanced_of, section_of, simple_of};
use capture_io::{CaptureBad, NgBad, word};

const LEAST_ENHANCED: u32 = 32;

/// What the front of what is left says.
#[derive(Clone, Copy)]
pub enum Front {
    Packet(Packet),
    /// A block that is no packet.
    Passed(Passed),
    /// No byte is left.
    End,
    /// What is left is no block.
    Bad(CaptureBad),
    /// The bytes that follow will say it.
    More,
}

/// What the front says of the block that stands at the place that is known, for a packet of this number. `last` says that
/// nothing follows.
pub fn front_of(
    known: Known,
    interfaces: &[Interface],
    first: &[u8],
    last: bool,
    number: u32,
) -> Front
    requires number { number ≤ 2 ^ 31 }
    requires time { known.nanos < 1000000000 }
    requires counted { All (λ interface. 0 < interface.ticks) interfaces.now }
    ensures says { result ≡ front_in (seen_by known interfaces.now) first.now last number }
    ensures sound { IsSoundFront number result }
    ensures short { IsTrue (is_more result) → length first.now < 2 ^ 32 }
{
    let wanted = bytes_wanted(known, interfaces, first);
    if !last && first.len() < wanted {
        return Front::More;
    }
    match block_of_front(known, interfaces, first, number) {
        Ok(Block::End) => Front::End,
        Ok(Block::Packet(packet)) => Front::Packet(packet),
        Ok(Block::Passed(passed)) => Front::Passed(passed),
        Err(refusal) => Front::Bad(refusal),
    }
}

// How many bytes have to be there before the front says something.
fn bytes_wanted(known: Known, interfaces: &[Interface], first: &[u8]) -> usize
    ensures short { nat_lt (length first.now) result ≡ is_short (seen_by known interfaces.now) first.now }
    ensures few { result < 2 ^ 32 }
{
    if known.at > FARTHEST {
        return 0;
    }
    bytes_needed(known.big, first, known.at)
}

/// How many bytes to ask for, if the front says nothing yet: those that the block lacks, or that are missing of as much as is kept of it.
/// It is at least one.
pub fn lacking(known: Known, first: &[u8]) -> usize
    ensures { 1 ≤ result }
{
    let wanted = bytes_needed(known.big, first, known.at);
    wanted.min(MOST_KEPT).saturating_sub(first.len()).max(1)
}

// How many bytes say what stands at the front.
fn bytes_needed(big: bool, first: &[u8], at: u64) -> usize
    ensures needed { result ≡ needed big first.now at }
    ensures few { result < 2 ^ 32 }
{
    match head_of(big, first, at) {
        Ok(frame) => frame.total as usize,
        Err(_) => HEAD_LEN,
    }
}

// The block at the front, of bytes behind which nothing is asked for.
fn block_of_front(
    known: Known,
    interfaces: &[Interface],
    first: &[u8],
    number: u32,
) -> Result<Block, CaptureBad>
    requires number { number ≤ 2 ^ 31 }
    requires time { known.nanos < 1000000000 }
    requires counted { All (λ interface. 0 < interface.ticks) interfaces.now }
    ensures says { result ≡ block_in (seen_by known interfaces.now) first.now number }
    ensures sound { IfOk result (λ block. IsSound number block) }
{
    if known.at > FARTHEST {
        return Err(CaptureBad::Ng(NgBad::Far { at: known.at }));
    }
    if first.is_empty() {
        return Ok(Block::End);
    }
    let frame = frame_of_front(known.big, first, known.at)?;
    if frame.kind == INTERFACE {
        return interface_of_front(known, interfaces, first, frame);
    }
    body_of_fields(known, interfaces, first, frame, number)
}

// The frame at the front.
fn frame_of_front(big: bool, first: &[u8], at: u64) -> Result<Frame, CaptureBad>
    ensures says { result ≡ frame_in big first.now at }
    ensures least { IfOk result (λ frame. least_total frame.kind ≤ frame.total) }
    ensures some { IfOk result (λ frame. 12 ≤ frame.total) }
    ensures whole { IfOk result (λ frame. frame.total ≤ length first.now) }
{
    let frame = head_of(big, first, at)?;
    let total = frame.total as usize;
    if first.len() < total {
        return Err(CaptureBad::Ng(NgBad::Cut { at }));
    }
    if word(frame.big, first, total - 4) != frame.total {
        return Err(CaptureBad::Ng(NgBad::Length { at }));
    }
    Ok(frame)
}

/// The block of a frame that is no interface, by the fields that it begins with.
pub fn body_of_fields(
    known: Known,
    interfaces: &[Interface],
    first: &[u8],
    frame: Frame,
    number: u32,
) -> Result<Block, CaptureBad>
    requires number { number ≤ 2 ^ 31 }
    requires time { known.nanos < 1000000000 }
    requires counted { All (λ interface. 0 < interface.ticks) interfaces.now }
    requires kind { frame.kind ≡ 1 → ⊥ }
    requires least { least_total frame.kind ≤ frame.total }
    requires some { 12 ≤ length first.now }
    requires fields { 28 ≤ frame.total → 28 ≤ length first.now }
    ensures says { result ≡ body_in (seen_by known interfaces.now) first.now number frame }
    ensures sound { IfOk result (λ block. IsSound number block) }
{
    match frame.kind {
        SECTION => section_of(known.at, first, frame),
        OLD_PACKET => Err(CaptureBad::Ng(NgBad::Old { at: known.at })),
        ENHANCED_PACKET => enhanced_of(known, interfaces, first, frame, number),
        SIMPLE_PACKET => simple_of(known, interfaces, first, frame, number),
        _ => Ok(Block::Passed(Passed::Other { total: frame.total })),
    }
}

/// The packet at the front, if an enhanced packet block stands there, all of it, and nothing that it says is refused. The front then
/// says this packet wherever the block stands and whatever its number is, where both are in range, so neither is asked for. Nearly all blocks of a
/// capture are such ones, and less has to be asked for them than by `front_of`. None says nothing of what stands there.
#[inline(always)]
pub fn plain_packet(big: bool, interfaces: &[Interface], first: &[u8]) -> Option<Packet>
    requires counted { All (λ interface. 0 < interface.ticks) interfaces.now }
    ensures says { IfSome result (IsSaidAnywhere big interfaces.now first.now) }
    ensures sound { IfSome result IsSoundAnywhere }
{
    if big {
        plain_by_order(true, interfaces, first)
    } else {
        plain_by_order(false, interfaces, first)
    }
}

// As `plain_packet`, with the order as a constant, so that it is not asked for each number.
#[inline(always)]
fn plain_by_order(big: bool, interfaces: &[Interface], first: &[u8]) -> Option<Packet>
    requires counted { All (λ interface. 0 < interface.ticks) interfaces.now }
    ensures says { IfSome result (IsSaidAnywhere big interfaces.now first.now) }
    ensures sound { IfSome result IsSoundAnywhere }
{
    let total = match enhanced_len(big, first) {
        Some(total) => total,
        None => return None,
    };
    let frame = Frame {
        big,
        kind: ENHANCED_PACKET,
        total,
    };
    // Nothing is refused for this place, nor for the number 0.
    let somewhere = Known {
        at: 0,
        big,
        link: None,
        seconds: 0,
        nanos: 0,
    };
    let block = match enhanced_of(somewhere, interfaces, first, frame, 0) {
        Ok(block) => block,
        Err(_) => return None,
    };
    match block {
        Block::Packet(packet) => Some(packet),
        Block::End => None,
        Block::Passed(_) => None,
    }
}

// The length of the enhanced packet block at the front, if one stands there and all of it is there.
#[inline(always)]
fn enhanced_len(big: bool, first: &[u8]) -> Option<u32>
    ensures is { IfSome result (λ total. (at : ℕ) →
        frame_in big first.now at ≡ Ok (record { big = big; kind = enhanced_packet_type; total = total })) }
    ensures least { IfSome result (λ total. 32 ≤ total) }
    ensures whole { IfSome result (λ total. total ≤ length first.now) }
{
    if first.len() < LEAST_ENHANCED as usize {
        return None;
    }
    let mark = word(false, first, 0);
    if mark == SECTION {
        return None;
    }
    let kind = word(big, first, 0);
    if kind != ENHANCED_PACKET {
        return None;
    }
    let total = word(big, first, 4);
    if total % 4 != 0 {
        return None;
    }
    if total < LEAST_ENHANCED {
        return None;
    }
    if first.len() < total as usize {
        return None;
    }
    let tail = word(big, first, total as usize - 4);
    if tail != total {
        return None;
    }
    Some(total)
}
