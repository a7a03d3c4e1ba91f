// The packets that stand in bytes that were read.
ghost use Rattle.std.specs.Prelude.{◌≡◌, ℕ, ◌+◌, ◌-◌, ◌^◌, ◌<◌, ◌≤◌, [], None, All, Bool, IfOk, IsErr, IsFalse, drop, length, map, vec_capacity};
ghost use Rattle.capture_io.specs.Records.{IsWithin, placed};
ghost use Rattle.capture_io.specs.Refusals.{EndsInRecords};
ghost use Rattle.capture_io.specs.Rounds.{bytes_captured, is_cut};
ghost use Rattle.pcapng_io.specs.Blocks.{interfaces_after};
ghost use Rattle.pcapng_io.specs.Pieces.{AreBlocks, Ended, IsOpen, IsTimed, last_place, place_of};
ghost use Rattle.pcapng_io.specs.Seen.{IsSoundSeen, Seen, seen_by};

use crate::block::{FARTHEST, Known, Packet, Passed, Sought};
use crate::fronts::{Front, front_of, plain_packet};
use crate::interface::Interface;
use crate::walk::{behind_packet, behind_passed, len_of};
use aftr_base::OutOfMemory;
use capture_io::{Ending, MOST_RECORDS, MOST_TAKEN, Place};

/// What a round is asked for: packets from one on, until so many bytes of them were captured, by reads of so many bytes.
#[derive(Clone, Copy)]
pub struct Search {
    pub from: Sought,
    pub most_bytes: usize,
    pub piece: usize,
}

/// How far blocks were taken off the front of a piece.
#[derive(Clone, Copy)]
pub struct Taken {
    /// How many bytes they have.
    pub used: usize,
    /// What is known behind them, but for the section's interfaces.
    pub known: Known,
    /// The number of the next packet.
    pub number: u32,
    /// How the packets ended, if these are the last.
    pub ending: Option<Ending>,
}

/// Takes whole blocks off the front of a piece, which stands where `known` says, until the rest of it is none, or its packets are
/// 16,384, or one of them brings their captured bytes to `most_bytes`. `interfaces` are those of the section, before and after.
/// There is room for the places of the packets.
pub fn take_blocks(
    known: Known,
    interfaces: &mut Vec<Interface>,
    piece: &[u8],
    last: bool,
    number: u32,
    most_bytes: usize,
    places: &mut Vec<Place>,
) -> Result<Taken, OutOfMemory>
    requires none { places.old.items ≡ [] }
    requires room { 16384 ≤ vec_capacity places.old }
    requires number { number ≤ 2 ^ 31 }
    requires some { 1 ≤ most_bytes }
    requires most { most_bytes ≤ 67108864 }
    requires size { length piece.now ≤ 2 ^ 63 }
    requires sound { IsSoundSeen (seen_by known interfaces.old.items) }
    ensures taken { IfOk result (λ taken.
        AreBlocks (seen_by known interfaces.old.items) (seen_by taken.known interfaces.new.items) piece.now last number most_bytes
        (map (placed piece.now) places.new.items) taken.used taken.number
        (bytes_captured (map (placed piece.now) places.new.items))) }
    ensures ended { IfOk result (λ taken.
        Ended (seen_by known interfaces.old.items) (seen_by taken.known interfaces.new.items) piece.now last taken.number taken.ending) }
    ensures unsaid { IfOk result (λ taken. taken.ending ≡ None → places.new.items ≡ [] →
        IsOpen (seen_by taken.known interfaces.new.items) (drop taken.used piece.now) last taken.number) }
    ensures in_records { IfOk result (λ taken. EndsInRecords taken.ending) }
    ensures within { IfOk result (λ _. All (IsWithin piece.now) places.new.items) }
    ensures well { IfOk result (λ taken. IsFalse (is_cut taken.ending)) }
    ensures counted { All (λ interface. 0 < interface.ticks) interfaces.new.items }
    ensures room { 16384 ≤ vec_capacity places.new }
{
    let mut here = known;
    let mut used = 0;
    let mut next = number;
    let mut bytes = 0;
    'blocks: while places.len() < MOST_TAKEN && bytes < most_bytes {
        match front_of(here, interfaces, &piece[used..], last, next) {
            Front::Packet(packet) => {
                places.push_reserved(place_of(packet, used, here.at));
                let first = Run {
                    used: used + packet.total as usize,
                    known: behind_packet(here, packet),
                    number: next + 1,
                    bytes: bytes + packet.count as usize,
                };
                let run = take_plain(first, interfaces, piece, most_bytes, places);
                used = run.used;
                here = run.known;
                next = run.number;
                bytes = run.bytes;
            }
            Front::Passed(passed) => {
                pass(interfaces, passed)?;
                used += len_of(passed);
                here = behind_passed(here, passed);
            }
            Front::End => return Ok(Taken {
                used,
                known: here,
                number: next,
                ending: Some(Ending::End),
            }),
            Front::Bad(refusal) => {
                return Ok(Taken {
                    used,
                    known: here,
                    number: next,
                    ending: Some(Ending::Bad(refusal)),
                });
            }
            Front::More => return Ok(Taken {
                used,
                known: here,
                number: next,
                ending: None,
            }),
        }
    }
    Ok(Taken {
        used,
        known: here,
        number: next,
        ending: None,
    })
}

// How far packets were taken: what `Taken` says, and how many bytes of them were captured.
#[derive(Clone, Copy)]
struct Run {
    used: usize,
    known: Known,
    number: u32,
    bytes: usize,
}

// Takes plain packets off the piece, from behind those that were taken on, until something else stands there or the round is full.
// It stands apart, so that its loop has the registers for itself, and keeps what changes from packet to packet alone; what
// holds of all packets of the piece is asked once.
#[inline(never)]
fn take_plain(
    before: Run,
    interfaces: &[Interface],
    piece: &[u8],
    most_bytes: usize,
    places: &mut Vec<Place>,
) -> Run
    requires inside { before.used ≤ length piece.now }
    requires number { before.number ≤ 2 ^ 31 }
    requires most { most_bytes ≤ 67108864 }
    requires size { length piece.now ≤ 2 ^ 63 }
    requires counted { All (λ interface. 0 < interface.ticks) interfaces.now }
    requires timed { IsTimed before.known places.old.items }
    requires room { 16384 ≤ vec_capacity places.old }
    ensures taken { (old : Seen) (last : Bool) (number : ℕ) →
        AreBlocks old (seen_by before.known interfaces.now) piece.now last number most_bytes
        (map (placed piece.now) places.old.items) before.used before.number before.bytes →
        AreBlocks old (seen_by result.known interfaces.now) piece.now last number most_bytes
        (map (placed piece.now) places.new.items) result.used result.number result.bytes }
    ensures within { All (IsWithin piece.now) places.old.items → All (IsWithin piece.now) places.new.items }
    ensures inside { result.used ≤ length piece.now }
    ensures forward { before.used ≤ result.used }
    ensures room { 16384 ≤ vec_capacity places.new }
{
    let begun = places.len();
    let most = most_places(before, begun, piece.len());
    let mut used = before.used;
    let mut bytes = before.bytes;
    'packets: while places.len() < most && bytes < most_bytes {
        let packet = match plain_packet(before.known.big, interfaces, &piece[used..]) {
            Some(packet) => packet,
            None => break,
        };
        places.push_reserved(place_of(packet, used, place_behind(before, used)));
        used += packet.total as usize;
        bytes += packet.count as usize;
    }
    let last = last_of(places);
    Run {
        used,
        known: Known {
            at: place_behind(before, used),
            seconds: last.seconds,
            nanos: last.fraction,
            ..before.known
        },
        number: before.number + (places.len() - begun) as u32,
        bytes,
    }
}

// The most packets that a round may have behind a run, after which there are `begun`, in a piece that ends there: as many as a round has,
// and none whose number or place might be refused.
fn most_places(before: Run, begun: usize, end: usize) -> usize
    requires inside { before.used ≤ end }
    requires number { before.number ≤ 2 ^ 31 }
    requires size { end ≤ 2 ^ 63 }
    ensures few { result ≤ 16384 }
    ensures numbered { result ≤ begun + (2 ^ 31 - before.number) }
    ensures near { 0 < result → before.known.at + (end - before.used) ≤ 2 ^ 62 }
{
    let left = (end - before.used) as u64;
    if before.known.at > FARTHEST || left > FARTHEST - before.known.at {
        return 0;
    }
    MOST_TAKEN.min(begun.saturating_add((MOST_RECORDS - before.number) as usize))
}

// The last of the places, of which there is one.
fn last_of(places: &[Place]) -> Place
    requires { 0 < length places.now }
    ensures { result ≡ last_place places.now }
{
    places[places.len() - 1]
}

// The place of the file behind the bytes that were taken.
fn place_behind(before: Run, used: usize) -> u64
    requires forward { before.used ≤ used }
    requires place { before.known.at + (used - before.used) < 2 ^ 64 }
    ensures { result ≡ before.known.at + (used - before.used) }
{
    before.known.at + (used - before.used) as u64
}

pub fn place_of(packet: Packet, from: usize, at: u64) -> Place
    requires from { from ≤ 2 ^ 63 }
    requires at { at + packet.total < 2 ^ 64 }
    ensures { result ≡ place_of packet from at }
{
    Place {
        seconds: packet.seconds,
        fraction: packet.nanos,
        from: from + packet.start as usize,
        count: packet.count as usize,
        next_at: at + u64::from(packet.total),
    }
}

/// The section's interfaces behind a block that is no packet.
pub fn pass(interfaces: &mut Vec<Interface>, passed: Passed) -> Result<(), OutOfMemory>
    ensures after { IfOk result (λ _. interfaces.new.items ≡ interfaces_after interfaces.old.items passed) }
    ensures kept { IsErr result → interfaces.new.items ≡ interfaces.old.items }
{
    match passed {
        Passed::Section { .. } => interfaces.clear(),
        Passed::Interface { interface, .. } => interfaces.push(interface)?,
        Passed::Other { .. } => {}
    }
    Ok(())
}
