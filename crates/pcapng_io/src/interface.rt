// Interfaces of a section.
ghost use Rattle.std.specs.Prelude.{◌≡◌, ℕ, ◌+◌, ◌-◌, ◌*◌, ◌/◌, ◌^◌, ◌<◌, ◌≤◌, List, IfOk, length};
ghost use Rattle.capture_io.specs.Fronts.{IsStart};
ghost use Rattle.pcapng_io.specs.Files.{IsSound};
ghost use Rattle.pcapng_io.specs.Interfaces.{block_by, interface_in, interface_of, is_other_link, option_at, options_in, padded};
ghost use Rattle.pcapng_io.specs.Interfaces.{resolution_of, rest_from, resolution_or_default, start_in, value_in};
ghost use Rattle.pcapng_io.specs.Long.{IsBadWalk, IsPassed, StopsIn, Walks};
ghost use Rattle.pcapng_io.specs.Seen.{seen_by};

use crate::block::{Block, Known, Passed};
use crate::frame::Frame;
use capture_io::{CaptureBad, ETHERNET, NgBad, PLAIN_IP, half, word};

const MOST_INTERFACES: usize = 65_536;

const END_OF_OPTIONS: u16 = 0;

const RESOLUTION: u16 = 9;

/// Microseconds.
const DEFAULT_RESOLUTION: u8 = 6;

const POWERS_OF_TEN: [u64; 20] = [
    1,
    10,
    100,
    1_000,
    10_000,
    100_000,
    1_000_000,
    10_000_000,
    100_000_000,
    1_000_000_000,
    10_000_000_000,
    100_000_000_000,
    1_000_000_000_000,
    10_000_000_000_000,
    100_000_000_000_000,
    1_000_000_000_000_000,
    10_000_000_000_000_000,
    100_000_000_000_000_000,
    1_000_000_000_000_000_000,
    10_000_000_000_000_000_000,
];

/// How the times of an interface's packets are counted, and how much of a packet it keeps.
#[derive(Clone, Copy, Debug)]
pub struct Interface {
    /// Ticks a second, never 0.
    pub ticks: u64,
    /// The most bytes that it captures of a packet; 0 for any number.
    pub most: u32,
}

/// The fixed fields of an interface.
#[derive(Clone, Copy)]
pub struct Start {
    link: u32,
    most: u32,
}

pub fn start_of(
    known: Known,
    interfaces: &[Interface],
    front: &[u8],
    frame: Frame,
) -> Result<Start, CaptureBad>
    requires { 16 ≤ length front.now }
    ensures { result ≡ start_in (seen_by known interfaces.now) front.now frame }
{
    let at = known.at;
    if interfaces.len() >= MOST_INTERFACES {
        return Err(CaptureBad::Ng(NgBad::Interfaces { at }));
    }
    let link = u32::from(half(frame.big, front, 8));
    if link != ETHERNET && link != PLAIN_IP {
        return Err(CaptureBad::Ng(NgBad::Link { at, number: link }));
    }
    if is_other(known.link, link) {
        return Err(CaptureBad::Ng(NgBad::MixedLinks { at }));
    }
    Ok(Start {
        link,
        most: word(frame.big, front, 12),
    })
}

fn is_other(first: Option<u32>, link: u32) -> bool
    ensures { result ≡ is_other_link first link }
{
    match first {
        Some(first) => link != first,
        None => false,
    }
}

/// The interface, by the resolution that its options gave, if they gave one.
pub fn block_of(at: u64, start: Start, found: Option<u8>, frame: Frame) -> Result<Block, CaptureBad>
    requires { 20 ≤ frame.total }
    ensures says { result ≡ block_by at start found frame }
    ensures sound { IfOk result (λ block. (number : ℕ) → IsSound number block) }
    ensures passed { IfOk result (IsPassed frame.total) }
{
    let byte = match found {
        Some(byte) => byte,
        None => DEFAULT_RESOLUTION,
    };
    let interface = interface_by(at, start.most, byte)?;
    Ok(Block::Passed(Passed::Interface {
        interface,
        link: start.link,
        total: frame.total,
    }))
}

fn interface_by(at: u64, most: u32, byte: u8) -> Result<Interface, CaptureBad>
    ensures says { result ≡ interface_of at most byte }
    ensures counted { IfOk result (λ interface. 0 < interface.ticks) }
{
    if byte < 128 {
        if byte > 19 {
            return Err(CaptureBad::Ng(NgBad::Resolution { at }));
        }
        return Ok(Interface {
            ticks: POWERS_OF_TEN[usize::from(byte)],
            most,
        });
    }
    if byte - 128 > 63 {
        return Err(CaptureBad::Ng(NgBad::Resolution { at }));
    }
    Ok(Interface {
        ticks: 1 << (byte - 128),
        most,
    })
}

/// The interface block of a frame that is all there.
pub fn interface_of_front(
    known: Known,
    interfaces: &[Interface],
    first: &[u8],
    frame: Frame,
) -> Result<Block, CaptureBad>
    requires least { 20 ≤ frame.total }
    requires whole { frame.total ≤ length first.now }
    ensures says { result ≡ interface_in (seen_by known interfaces.now) first.now frame }
    ensures sound { IfOk result (λ block. (number : ℕ) → IsSound number block) }
{
    let start = match start_of(known, interfaces, first, frame) {
        Ok(start) => start,
        Err(refusal) => return Err(refusal),
    };
    let end = frame.total as usize - 4;
    let found = match resolution_in(first, end, known.at, frame.big) {
        Ok(found) => found,
        Err(refusal) => return Err(refusal),
    };
    block_of(known.at, start, found, frame)
}

/// The resolution that the options of a block at the front give, which end at a place of it.
fn resolution_in(first: &[u8], end: usize, at: u64, big: bool) -> Result<Option<u8>, CaptureBad>
    requires least { 16 ≤ end }
    requires whole { end ≤ length first.now }
    requires most { end < 2 ^ 32 }
    ensures { result ≡ resolution_of at (options_in big (rest_from first.now 16 end)) }
{
    match walk_options(first, 16, end, at, big, None) {
        Walked::Over(found) => Ok(found),
        Walked::Bad(refusal) => Err(refusal),
        // All options are there.
        Walked::More { found, .. } => Ok(found),
    }
}

/// What a walk over options came to.
#[derive(Clone, Copy)]
pub enum Walked {
    /// There are no more; they gave this resolution, if they gave one.
    Over(Option<u8>),
    Bad(CaptureBad),
    /// The option at this place is not all there; those before it gave this resolution.
    More { place: usize, found: Option<u8> },
}

/// Walks over options of a block, of which the first bytes are there, from a place on; they end at another one. Those before
/// gave the resolution `given`.
pub fn walk_options(
    first: &[u8],
    from: usize,
    end: usize,
    at: u64,
    big: bool,
    given: Option<u8>,
) -> Walked
    requires most { end < 2 ^ 32 }
    requires within { from ≤ end }
    ensures says { (bytes : List ℕ) → IsStart first.now bytes → end ≤ length bytes →
        Walks big bytes at from end given result }
    ensures bad { IsBadWalk at result }
    ensures stops { StopsIn from (length first.now) end result }
{
    let mut place = from;
    let mut found = given;
    'options: while place + 4 <= end {
        if first.len() < place + 4 {
            return Walked::More { place, found };
        }
        let option = option_of_front(&first[place..place + 4], big);
        if option.code == END_OF_OPTIONS {
            return Walked::Over(found);
        }
        let value = place + 4;
        let behind = value + usize::from(option.count);
        if behind > end {
            return Walked::Bad(CaptureBad::Ng(NgBad::Options { at }));
        }
        if first.len() < behind {
            return Walked::More { place, found };
        }
        found = match value_of(at, option.code, &first[value..behind], found) {
            Ok(found) => found,
            Err(refusal) => return Walked::Bad(refusal),
        };
        place += 4 + padded_len(option.count) as usize;
    }
    Walked::Over(found)
}

fn option_of_front(four: &[u8], big: bool) -> OptionHead
    requires { 4 ≤ length four.now }
    ensures { result ≡ option_at big four.now }
{
    OptionHead {
        code: half(big, four, 0),
        count: half(big, four, 2),
    }
}

/// The resolution after an option, where `found` was it before.
fn value_of(at: u64, code: u16, value: &[u8], found: Option<u8>) -> Result<Option<u8>, CaptureBad>
    ensures { result ≡ value_in at found (record { code = code; value = value.now }) }
{
    if code != RESOLUTION {
        return Ok(found);
    }
    if value.len() != 1 {
        return Err(CaptureBad::Ng(NgBad::Options { at }));
    }
    Ok(Some(found.unwrap_or(value[0])))
}

/// What an option begins with: its code, and how many bytes its value has.
#[derive(Clone, Copy)]
struct OptionHead {
    code: u16,
    count: u16,
}

fn padded_len(count: u16) -> u64
    ensures is { result ≡ padded count }
    ensures more { count ≤ result }
    ensures few { result ≤ count + 3 }
{
    (u64::from(count) + 3) / 4 * 4
}
