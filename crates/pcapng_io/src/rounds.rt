// A pcapng file, read in rounds.
ghost use Rattle.std.specs.Prelude.{◌≡◌, ◌^◌, ◌<◌, ◌≤◌, [], None, All, IfOk, IsTrue, IsFalse, length, vec_capacity};
ghost use Rattle.capture_io.specs.Records.{IsWithin};
ghost use Rattle.capture_io.specs.Refusals.{EndsInRecords};
ghost use Rattle.capture_io.specs.Rounds.{IsCount, IsPlaced};
ghost use Rattle.pcapng_io.specs.Captures.{form_of};
ghost use Rattle.pcapng_io.specs.Pieces.{FindReads, IsFound, round_of};
ghost use Rattle.pcapng_io.specs.Rounds.{left_of};
ghost use Rattle.pcapng_io.specs.Seen.{IsSoundSeen, seen_by};
ghost use Rattle.pcapng_io.specs.Standing.{stands_in};

use crate::NgReader;
use crate::block::Sought;
use crate::interface::Interface;
use crate::long::MOST_KEPT;
use crate::long_packets::{Long, take_long};
use crate::pieces::{Search, Taken, take_blocks};
use aftr_base::OutOfMemory;
use aftr_io::{Fault, Reading};
use capture_io::{CaptureReader, Ending, Form, Place, Records, Round, Window, fitting, piece_of};
use std::alloc::Global;

/// The reader reads the file in order and each place once, and a block that is longer than a piece into a longer buffer.
impl CaptureReader for NgReader {
    ghost stands = { stands_in };

    ghost left = { λ reader bytes number rs ending. left_of reader.seen bytes number rs ending };

    ghost at = { λ reader. reader.seen.known.at };

    ghost ready = { λ reader number. Unit {0} };

    ghost form = { λ reader. form_of reader.seen.known };

    fn form(&self) -> Form {
        NgReader::form(self)
    }

    fn read_round<I: Reading>(
        &mut self,
        alloc: Global,
        files: &mut I,
        name: &str,
        number: u32,
        most_bytes: usize,
        room: Records,
    ) -> Result<Round, OutOfMemory> {
        let (mut buffer, mut places) = room.into_room()?;
        let piece = piece_of(most_bytes).min(self.fits).max(1);
        self.window.begin_round(piece, &mut buffer)?;
        let search = Search {
            from: Sought {
                known: self.known,
                number,
            },
            most_bytes,
            piece,
        };
        let taken = find_packets(
            alloc,
            files,
            name,
            search,
            &mut self.interfaces,
            &mut self.window,
            &mut places,
        )?;
        self.known = taken.known;
        self.fits = fitting(self.fits, places.len(), taken.used);
        let ended = taken.ending.is_some();
        let records = self.window.hand_out(places, buffer, taken.used, ended)?;
        Ok(Round {
            records,
            number: taken.number,
            ending: taken.ending,
        })
    }

    fn one_left() {}

    fn some_left() {}
}

// Takes the next packets off the bytes that were read, and reads until there are some, or they have ended. Blocks without
// packets are let go.
fn find_packets<I: Reading>(
    alloc: Global,
    files: &mut I,
    name: &str,
    search: Search,
    interfaces: &mut Vec<Interface>,
    window: &mut Window,
    places: &mut Vec<Place>,
) -> Result<Taken, OutOfMemory>
    requires none { places.old.items ≡ [] }
    requires room { 16384 ≤ vec_capacity places.old }
    requires number { search.from.number ≤ 2 ^ 31 }
    requires some { 1 ≤ search.most_bytes }
    requires most { search.most_bytes ≤ 67108864 }
    requires piece { 1 ≤ search.piece }
    requires sound { IsSoundSeen (seen_by search.from.known interfaces.old.items) }
    requires begins { IsFalse window.old.last }
    ensures told { IfOk result (λ taken. IsFound (I.readable files.old).held name.now (seen_by search.from.known interfaces.old.items)
        (seen_by taken.known interfaces.new.items) window.old.bytes window.new.bytes places.new.items search.from.number taken) }
    ensures in_records { IfOk result (λ taken. EndsInRecords taken.ending) }
    ensures count { IfOk result (λ taken. IsCount search.from.number search.most_bytes (round_of window.new.bytes places.new.items taken)) }
    ensures placed { IfOk result (λ taken. IsPlaced search.from.known.at taken.known.at (round_of window.new.bytes places.new.items taken)) }
    ensures within { IfOk result (λ _. All (IsWithin window.new.bytes) places.new.items) }
    ensures used { IfOk result (λ taken. taken.used ≤ length window.new.bytes) }
    ensures link { IfOk result (λ taken. taken.known.link ≡ search.from.known.link) }
    ensures sound { IfOk result (λ taken. IsSoundSeen (seen_by taken.known interfaces.new.items)) }
    ensures counted { All (λ interface. 0 < interface.ticks) interfaces.new.items }
    ensures reads { FindReads result name.now (seen_by search.from.known interfaces.old.items) interfaces.new.items window.old.bytes
        (I.readable files.old) (I.readable files.new) }
{
    let mut here = search.from.known;
    'reads: loop {
        let taken = take_blocks(
            here,
            interfaces,
            window.as_slice(),
            window.is_last(),
            search.from.number,
            search.most_bytes,
            places,
        )?;
        if is_done(taken.ending, places) {
            return Ok(taken);
        }
        window.pass(taken.used);
        here = taken.known;
        if window.as_slice().len() >= MOST_KEPT {
            let from = Sought {
                known: here,
                ..search.from
            };
            let rest = Search { from, ..search };
            match take_long(alloc, files, name, rest, interfaces, window, places)? {
                Long::Taken(taken) => return Ok(taken),
                Long::Passed(known) => here = known,
            }
            continue;
        }
        match window.read_more(alloc, files, name, here.at, search.piece) {
            Ok(()) => {}
            Err(Fault::Failed) => return Ok(Taken {
                used: 0,
                known: here,
                number: search.from.number,
                ending: Some(Ending::ReadFault),
            }),
            Err(Fault::OutOfMemory) => return Err(OutOfMemory),
        }
    }
}

// There are some packets, or they have ended.
fn is_done(ending: Option<Ending>, places: &[Place]) -> bool
    ensures done { IsTrue result → ending ≡ None → 0 < length places.now }
    ensures unsaid { IsFalse result → (ending ≡ None) × (places.now ≡ []) }
{
    ending.is_some() || !places.is_empty()
}
