// From block to block.
ghost use Rattle.std.specs.Prelude.{◌≡◌, ◌+◌, ◌^◌, ◌<◌, ◌≤◌, IfOk, IfSome, drop, length, take};
ghost use Rattle.aftr_io.specs.Contents.{content, Told};
ghost use Rattle.aftr_io.specs.Outside.{OnlyReads};
ghost use Rattle.capture_io.specs.Answers.{is_read_fault};
ghost use Rattle.pcapng_io.specs.Answers.{IsBeforePacket, IsSighted, IsSoundSight};
ghost use Rattle.pcapng_io.specs.Blocks.{interfaces_after, known_after, known_behind, size_of};
ghost use Rattle.pcapng_io.specs.Captures.{next_in};
ghost use Rattle.pcapng_io.specs.Files.{left_at};
ghost use Rattle.pcapng_io.specs.Seen.{IsSoundSeen, seen_by};
ghost use Rattle.capture_io.specs.Windows.{IsAtFront};

use crate::block::{Block, Known, Packet, Passed, read_block};
use crate::interface::Interface;
use aftr_base::OutOfMemory;
use aftr_io::Reading;
use capture_io::{CaptureError, Window};
use std::alloc::Global;

/// A packet that stands at a place. Of the interfaces that are kept, those of its section begin at `first`.
#[derive(Clone, Copy)]
pub struct Sighted {
    pub packet: Packet,
    pub known: Known,
    pub first: usize,
}

/// The next packet, which has this number, from what is known on; the front of its block is then in the window. The interfaces of
/// blocks that are passed are put behind those that are kept.
pub fn find_packet<I: Reading>(
    alloc: Global,
    files: &mut I,
    name: &str,
    known: Known,
    interfaces: &mut Vec<Interface>,
    number: u32,
    window: &mut Window,
) -> Result<Option<Sighted>, CaptureError>
    requires number { number ≤ 2 ^ 31 }
    requires sound { IsSoundSeen (seen_by known interfaces.old.items) }
    requires stands { IsAtFront (I.readable files.old).held name.now known.at window.old }
    ensures front { take (length interfaces.old.items) interfaces.new.items ≡ interfaces.old.items }
    ensures told { Told (I.readable files.old).held
        (λ m. IsSighted result interfaces.new.items (content m name.now) (next_in (seen_by known interfaces.old.items) (left_at m name.now known.at) number)) }
    ensures stands { IfOk result (λ found. IfSome found (λ s. IsAtFront (I.readable files.old).held name.now s.known.at window.new)) }
    ensures there { IfOk result (λ found. IfSome found (λ s. s.packet.start + s.packet.count ≤ length window.new.bytes)) }
    ensures sound { IfOk result (λ found. IfSome found (λ s. IsSoundSight s known number interfaces.new.items)) }
    ensures reads { OnlyReads (is_read_fault result) name.now
        (IsBeforePacket (I.readable files.old).held name.now (seen_by known interfaces.old.items) number)
        (I.readable files.old) (I.readable files.new) }
{
    let mut here = known;
    let mut first = 0;
    'passing: loop {
        match read_block(
            alloc,
            files,
            name,
            here,
            behind(interfaces, first),
            number,
            window,
        )? {
            Block::End => return Ok(None),
            Block::Packet(packet) => {
                return Ok(Some(Sighted {
                    packet,
                    known: here,
                    first,
                }));
            }
            Block::Passed(passed) => {
                first = match keep(interfaces, first, passed) {
                    Ok(first) => first,
                    Err(_) => return Err(CaptureError::OutOfMemory),
                };
                here = behind_passed(here, passed);
            }
        }
    }
}

fn behind(interfaces: &[Interface], first: usize) -> &[Interface]
    requires { first ≤ length interfaces.now }
    ensures { result.now ≡ drop first interfaces.now }
{
    &interfaces[first..]
}

/// Keeps an interface, and answers where those of the section then begin.
fn keep(interfaces: &mut Vec<Interface>, first: usize, passed: Passed) -> Result<usize, OutOfMemory>
    requires { first ≤ length interfaces.old.items }
    ensures front { take (length interfaces.old.items) interfaces.new.items ≡ interfaces.old.items }
    ensures first { IfOk result (λ first. first ≤ length interfaces.new.items) }
    ensures section { IfOk result (λ now. drop now interfaces.new.items ≡ interfaces_after (drop first interfaces.old.items) passed) }
{
    match passed {
        Passed::Section { .. } => Ok(interfaces.len()),
        Passed::Interface { interface, .. } => {
            interfaces.push(interface)?;
            Ok(first)
        }
        Passed::Other { .. } => Ok(first),
    }
}

/// What is known behind a packet's block.
pub fn behind_packet(known: Known, packet: Packet) -> Known
    requires { known.at + packet.total < 2 ^ 64 }
    ensures { result ≡ known_behind known packet }
{
    Known {
        at: known.at + u64::from(packet.total),
        seconds: packet.seconds,
        nanos: packet.nanos,
        ..known
    }
}

/// What is known behind a block that is no packet.
pub fn behind_passed(known: Known, passed: Passed) -> Known
    requires { known.at + size_of passed < 2 ^ 64 }
    ensures { result ≡ known_after known passed }
{
    match passed {
        Passed::Section { big, total } => Known {
            at: known.at + u64::from(total),
            big,
            ..known
        },
        Passed::Interface { link, total, .. } => Known {
            at: known.at + u64::from(total),
            link: Some(known.link.unwrap_or(link)),
            ..known
        },
        Passed::Other { total } => Known {
            at: known.at + u64::from(total),
            ..known
        },
    }
}

/// How many bytes a block has that is no packet.
pub fn len_of(passed: Passed) -> usize
    ensures { result ≡ size_of passed }
{
    match passed {
        Passed::Section { total, .. } => total as usize,
        Passed::Interface { total, .. } => total as usize,
        Passed::Other { total } => total as usize,
    }
}
