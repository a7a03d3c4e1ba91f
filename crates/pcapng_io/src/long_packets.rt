// A long block, as one of a round.
ghost use Rattle.std.specs.Prelude.{◌≡◌, ◌+◌, ◌^◌, ◌<◌, ◌≤◌, [], Some, All, IfOk, length, vec_capacity};
ghost use Rattle.pcapng_io.specs.declared.fronts.Front.TheVariants as front;
ghost use Rattle.pcapng_io.specs.Fronts.{front_in};
ghost use Rattle.pcapng_io.specs.Pieces.{EndsLong, IsLongTaken, LongReads};
ghost use Rattle.pcapng_io.specs.Seen.{IsSoundSeen, seen_by};

use crate::block::{Block, Known, Sought};
use crate::interface::Interface;
use crate::long::read_long;
use crate::pieces::{Search, Taken, pass, place_of};
use crate::walk::{behind_packet, behind_passed};
use aftr_base::OutOfMemory;
use aftr_io::Reading;
use capture_io::{CaptureError, Ending, Place, Window};
use std::alloc::Global;

/// What a long block came to.
#[derive(Clone, Copy)]
pub enum Long {
    /// It is no packet, and this is known behind it.
    Passed(Known),
    /// It ends the round: by its packet, which is there, or by how the packets ended.
    Taken(Taken),
}

/// Takes the block at the place that is known, of which the window has as much as is kept and not all. Nothing behind it is read.
#[inline(never)]
pub fn take_long<I: Reading>(
    alloc: Global,
    files: &mut I,
    name: &str,
    search: Search,
    interfaces: &mut Vec<Interface>,
    window: &mut Window,
    places: &mut Vec<Place>,
) -> Result<Long, OutOfMemory>
    requires none { places.old.items ≡ [] }
    requires room { 16384 ≤ vec_capacity places.old }
    requires number { search.from.number ≤ 2 ^ 31 }
    requires some { 1 ≤ search.most_bytes }
    requires sound { IsSoundSeen (seen_by search.from.known interfaces.old.items) }
    requires is_open { front_in (seen_by search.from.known interfaces.old.items) window.old.bytes window.old.last search.from.number ≡ front.More }
    requires kept { 262176 ≤ length window.old.bytes }
    ensures taken { IfOk result (λ long. IsLongTaken (I.readable files.old).held name.now (seen_by search.from.known interfaces.old.items)
        interfaces.new.items window.old.bytes window.new places.new.items search.from.number search.most_bytes long) }
    ensures in_records { IfOk result EndsLong }
    ensures counted { All (λ interface. 0 < interface.ticks) interfaces.new.items }
    ensures room { 16384 ≤ vec_capacity places.new }
    ensures reads { LongReads result name.now (seen_by search.from.known interfaces.old.items) interfaces.new.items window.old.bytes
        (I.readable files.old) (I.readable files.new) }
{
    let block = match read_long(alloc, files, name, search.from, interfaces, window) {
        Ok(block) => block,
        Err(CaptureError::Bad(refusal)) => {
            return Ok(Long::Taken(ended(window, search.from, Ending::Bad(refusal))));
        }
        Err(CaptureError::ReadFault) => {
            return Ok(Long::Taken(ended(window, search.from, Ending::ReadFault)));
        }
        Err(CaptureError::OutOfMemory) => return Err(OutOfMemory),
    };
    match block {
        Block::Packet(packet) => {
            places.push_reserved(place_of(packet, 0, search.from.known.at));
            Ok(Long::Taken(Taken {
                used: window.as_slice().len(),
                known: behind_packet(search.from.known, packet),
                number: search.from.number + 1,
                ending: None,
            }))
        }
        Block::Passed(passed) => {
            pass(interfaces, passed)?;
            Ok(Long::Passed(behind_passed(search.from.known, passed)))
        }
        Block::End => Ok(Long::Taken(ended(window, search.from, Ending::End))),
    }
}

// The packets ended here, and none of the window's bytes is left.
fn ended(window: &Window, sought: Sought, ending: Ending) -> Taken
    ensures { result ≡ record { used = length window.now.bytes; known = sought.known; number = sought.number; ending = Some ending } }
{
    Taken {
        used: window.as_slice().len(),
        known: sought.known,
        number: sought.number,
        ending: Some(ending),
    }
}
