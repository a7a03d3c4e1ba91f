// The next packet, with its bytes.
ghost use Rattle.std.specs.Prelude.{◌≡◌, ◌+◌, ◌^◌, ◌<◌, ◌≤◌, IfOk, IfSome, length, take};
ghost use Rattle.aftr_io.specs.Contents.{Told};
ghost use Rattle.aftr_io.specs.Outside.{OnlyReads};
ghost use Rattle.capture_io.specs.Answers.{is_read_fault};
ghost use Rattle.pcapng_io.specs.Answers.{IsBeforePacket, IsFound, IsSoundFound};
ghost use Rattle.pcapng_io.specs.Blocks.{record_of};
ghost use Rattle.pcapng_io.specs.Captures.{next_in};
ghost use Rattle.pcapng_io.specs.Files.{left_at};
ghost use Rattle.pcapng_io.specs.Seen.{IsSoundSeen, seen_by};
ghost use Rattle.capture_io.specs.Windows.{IsAtFront};

use crate::block::{Known, Packet};
use crate::interface::Interface;
use crate::walk::{behind_packet, find_packet};
use aftr_base::{Bytes, OutOfMemory};
use aftr_io::Reading;
use capture_io::{CaptureError, Rec, Window};
use std::alloc::Global;

/// A packet's record, and what is known behind it. Of the interfaces that are kept, those of its section begin at `first`.
#[derive(Drop)]
pub struct Found {
    pub record: Rec,
    pub known: Known,
    pub first: usize,
}

/// The record of the next packet, which has this number, from what is known on. The interfaces of blocks that are passed are
/// put behind those that are kept. The window has the bytes from there on, as far as they were read.
pub fn find_record<I: Reading>(
    alloc: Global,
    files: &mut I,
    name: &str,
    known: Known,
    interfaces: &mut Vec<Interface>,
    number: u32,
    window: &mut Window,
) -> Result<Option<Found>, CaptureError>
    requires number { number ≤ 2 ^ 31 }
    requires sound { IsSoundSeen (seen_by known interfaces.old.items) }
    requires stands { IsAtFront (I.readable files.old).held name.now known.at window.old }
    ensures front { take (length interfaces.old.items) interfaces.new.items ≡ interfaces.old.items }
    ensures told { Told (I.readable files.old).held
        (λ m. IsFound result interfaces.new.items (next_in (seen_by known interfaces.old.items) (left_at m name.now known.at) number)) }
    ensures sound { IfOk result (λ found. IfSome found (λ f. IsSoundFound f known number interfaces.new.items)) }
    ensures reads { OnlyReads (is_read_fault result) name.now
        (IsBeforePacket (I.readable files.old).held name.now (seen_by known interfaces.old.items) number)
        (I.readable files.old) (I.readable files.new) }
{
    let Some(sighted) = find_packet(alloc, files, name, known, interfaces, number, window)? else {
        return Ok(None);
    };
    match record_of(alloc, sighted.known, window.as_slice(), sighted.packet) {
        Ok(record) => Ok(Some(Found {
            record,
            known: behind_packet(sighted.known, sighted.packet),
            first: sighted.first,
        })),
        Err(_) => Err(CaptureError::OutOfMemory),
    }
}

// The record of a packet whose block stands at what is known, and is the first of these bytes.
fn record_of(alloc: Global, known: Known, first: &[u8], packet: Packet) -> Result<Rec, OutOfMemory>
    requires near { known.at + packet.total < 2 ^ 64 }
    requires there { packet.start + packet.count ≤ length first.now }
    ensures { IfOk result (λ r. r ≡ record_of known first.now packet) }
{
    let start = packet.start as usize;
    let end = start + packet.count as usize;
    let mut list = Vec::with_capacity(alloc, packet.count as usize)?;
    list.extend_from_slice(&first[start..end])?;
    Ok(Rec {
        seconds: packet.seconds,
        fraction: packet.nanos,
        bytes: Bytes::of(list),
        next_at: known.at + u64::from(packet.total),
    })
}
