// Section headers and packet blocks.
ghost use Rattle.std.specs.Prelude.{◌≡◌, ℕ, ◌+◌, ◌-◌, ◌*◌, ◌/◌, ◌%◌, ◌^◌, ◌<◌, ◌≤◌, All, IfOk, length};
ghost use Rattle.pcapng_io.specs.Files.{IsSound};
ghost use Rattle.pcapng_io.specs.Packets.{enhanced_in, nanos_of, seconds_of, section_in, simple_captured, simple_in};
ghost use Rattle.pcapng_io.specs.Seen.{seen_by};

use crate::block::{Block, Known, Packet, Passed};
use crate::frame::Frame;
use crate::interface::Interface;
use capture_io::{CaptureBad, MOST_BYTES, MOST_RECORDS, NgBad, half, word};

const BILLION: u64 = 1_000_000_000;

// Most captures count their times in these or in billionths of a second, and a division by a constant costs less.
const MILLION: u64 = 1_000_000;

pub fn section_of(at: u64, front: &[u8], frame: Frame) -> Result<Block, CaptureBad>
    requires long { 14 ≤ length front.now }
    requires least { 28 ≤ frame.total }
    ensures says { result ≡ section_in at front.now frame }
    ensures sound { IfOk result (λ block. (number : ℕ) → IsSound number block) }
{
    if half(frame.big, front, 12) != 1 {
        return Err(CaptureBad::Ng(NgBad::Version { at }));
    }
    Ok(Block::Passed(Passed::Section {
        big: frame.big,
        total: frame.total,
    }))
}

#[inline(always)]
pub fn enhanced_of(
    known: Known,
    interfaces: &[Interface],
    front: &[u8],
    frame: Frame,
    number: u32,
) -> Result<Block, CaptureBad>
    requires long { 24 ≤ length front.now }
    requires number { number ≤ 2 ^ 31 }
    requires least { 32 ≤ frame.total }
    requires counted { All (λ interface. 0 < interface.ticks) interfaces.now }
    ensures says { result ≡ enhanced_in (seen_by known interfaces.now) front.now number frame }
    ensures sound { IfOk result (λ block. IsSound number block) }
{
    let at = known.at;
    let sender = word(frame.big, front, 8) as usize;
    if sender >= interfaces.len() {
        return Err(CaptureBad::Ng(NgBad::Interface { at }));
    }
    let interface = interfaces[sender];
    if number == MOST_RECORDS {
        return Err(CaptureBad::Ng(NgBad::TooMany { at }));
    }
    let count = word(frame.big, front, 20);
    if count > MOST_BYTES {
        return Err(CaptureBad::Ng(NgBad::TooLong { at }));
    }
    if count > frame.total - 32 {
        return Err(CaptureBad::Ng(NgBad::Captured { at }));
    }
    let ticks = ticks_of(word(frame.big, front, 12), word(frame.big, front, 16));
    let time = time_of(interface, ticks);
    if time.seconds > u64::from(u32::MAX) {
        return Err(CaptureBad::Ng(NgBad::Time { at }));
    }
    Ok(Block::Packet(Packet {
        seconds: time.seconds as u32,
        nanos: time.nanos,
        start: 28,
        count,
        total: frame.total,
    }))
}

fn ticks_of(high: u32, low: u32) -> u64
    ensures { result ≡ high * 2 ^ 32 + low }
{
    u64::from(high) * 0x1_0000_0000 + u64::from(low)
}

/// Whole seconds, and what is left behind them in nanoseconds, rounded down.
#[derive(Clone, Copy)]
struct Time {
    seconds: u64,
    nanos: u32,
}

fn time_of(interface: Interface, ticks: u64) -> Time
    requires { 0 < interface.ticks }
    ensures is { result ≡ record { seconds = seconds_of interface ticks; nanos = nanos_of interface ticks } }
    ensures few { result.nanos < 1000000000 }
{
    match interface.ticks {
        MILLION => time_of_millionths(ticks),
        BILLION => time_of_billionths(ticks),
        number => time_of_parts(ticks, number),
    }
}

// Of these three the last two stand apart, so that the first two divide by their constants.
fn time_of_millionths(ticks: u64) -> Time
    ensures is { result ≡ record { seconds = ticks / 1000000; nanos = ticks % 1000000 * 1000 } }
    ensures few { result.nanos < 1000000000 }
{
    Time {
        seconds: ticks / MILLION,
        nanos: (ticks % MILLION * 1_000) as u32,
    }
}

#[inline(never)]
fn time_of_billionths(ticks: u64) -> Time
    ensures is { result ≡ record { seconds = ticks / 1000000000; nanos = ticks % 1000000000 } }
    ensures few { result.nanos < 1000000000 }
{
    Time {
        seconds: ticks / BILLION,
        nanos: (ticks % BILLION) as u32,
    }
}

#[inline(never)]
fn time_of_parts(ticks: u64, number: u64) -> Time
    requires { 0 < number }
    ensures is { result ≡ record { seconds = ticks / number; nanos = ticks % number * 1000000000 / number } }
    ensures few { result.nanos < 1000000000 }
{
    Time {
        seconds: ticks / number,
        nanos: part_in_nanos(ticks % number, number),
    }
}

/// A part of a second that has so many ticks.
fn part_in_nanos(part: u64, ticks: u64) -> u32
    requires { part < ticks }
    ensures is { result ≡ part * 1000000000 / ticks }
    ensures few { result < 1000000000 }
{
    if ticks <= BILLION {
        return (part * BILLION / ticks) as u32;
    }
    (u128::from(part) * u128::from(BILLION) / u128::from(ticks)) as u32
}

pub fn simple_of(
    known: Known,
    interfaces: &[Interface],
    front: &[u8],
    frame: Frame,
    number: u32,
) -> Result<Block, CaptureBad>
    requires long { 12 ≤ length front.now }
    requires number { number ≤ 2 ^ 31 }
    requires time { known.nanos < 1000000000 }
    requires least { 16 ≤ frame.total }
    ensures says { result ≡ simple_in (seen_by known interfaces.now) front.now number frame }
    ensures sound { IfOk result (λ block. IsSound number block) }
{
    let at = known.at;
    if interfaces.is_empty() {
        return Err(CaptureBad::Ng(NgBad::Interface { at }));
    }
    if number == MOST_RECORDS {
        return Err(CaptureBad::Ng(NgBad::TooMany { at }));
    }
    let count = captured_of(interfaces[0], word(frame.big, front, 8));
    if count > MOST_BYTES {
        return Err(CaptureBad::Ng(NgBad::TooLong { at }));
    }
    if count > frame.total - 16 {
        return Err(CaptureBad::Ng(NgBad::Captured { at }));
    }
    Ok(Block::Packet(Packet {
        seconds: known.seconds,
        nanos: known.nanos,
        start: 12,
        count,
        total: frame.total,
    }))
}

/// How many bytes an interface captures of a packet.
fn captured_of(interface: Interface, original: u32) -> u32
    ensures { result ≡ simple_captured interface original }
{
    if interface.most != 0 && interface.most < original {
        interface.most
    } else {
        original
    }
}
