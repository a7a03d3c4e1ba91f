// Captures of the pcap format, read in rounds.
ghost use Rattle.std.specs.Prelude.{◌≡◌, ◌+◌, ◌*◌, ◌^◌, ◌<◌, ◌≤◌, [], IfErr, IfOk, IsFalse, IsTrue, length, take, vec_capacity};
ghost use Rattle.aftr_io.specs.Contents.{content, Told};
ghost use Rattle.aftr_io.specs.Outside.{OnlyReads};
ghost use Rattle.capture_io.specs.Answers.{is_read_fault};
ghost use Rattle.capture_io.specs.Classic.{FetchReads, IsTaken, Opens};
ghost use Rattle.capture_io.specs.Fronts.{front_in, is_more};
ghost use Rattle.capture_io.specs.Header.{is_known_link};
ghost use Rattle.capture_io.specs.Refusals.{RefusesHeader};
ghost use Rattle.capture_io.specs.Windows.{IsMore};

use crate::fronts::{Taken, Upcoming, is_open, take_records};
use crate::header::read_header_behind;
use crate::records::MOST_TAKEN;
use crate::window::{ROOM, Window};
use crate::{
    CaptureError, CaptureReader, Ending, FILE_HEADER_LEN, Form, Place, Records, Round, read_header,
};
use aftr_base::OutOfMemory;
use aftr_io::{Fault, Reading};
use std::alloc::Global;

// A piece of so many bytes is still in a processor's second-level cache when its records are looked for, beside the bytes of the
// file that it was copied from.
const PIECE: usize = 262_144;

/// The most bytes that are read at once.
pub const MOST_PIECE: usize = 1_048_576;

const FIRST_RECORD: u64 = FILE_HEADER_LEN as u64;

/// A reader of a pcap file, version 2.4.
#[derive(Drop)]
pub struct ClassicReader {
    form: Form,
    at: u64,
    // what was read already of the bytes from `at` on
    window: Window,
    // the most bytes of which a round takes nearly all
    fits: usize,
}

impl ClassicReader {
    /// Reads the file header, as `read_header` does, and stands before the first record.
    pub fn open<I: Reading>(
        alloc: Global,
        files: &mut I,
        name: &str,
    ) -> Result<ClassicReader, CaptureError>
        ensures told { Told (I.readable files.old).held (λ m. Opens result (content m name.now)) }
        ensures refused { IfErr result RefusesHeader }
        ensures link { IfOk result (λ reader. IsTrue (is_known_link (⟦<ClassicReader as CaptureReader>⟧.form reader).link)) }
        ensures at { IfOk result (λ reader. ⟦<ClassicReader as CaptureReader>⟧.at reader ≡ 24) }
        ensures ready { IfOk result (λ reader. ⟦<ClassicReader as CaptureReader>⟧.ready reader 0) }
        ensures reads { OnlyReads (is_read_fault result) name.now (λ place. place < 24) (I.readable files.old) (I.readable files.new) }
    {
        let form = read_header(alloc, files, name)?;
        Ok(ClassicReader {
            form,
            at: FIRST_RECORD,
            window: Window::new(alloc),
            fits: MOST_PIECE,
        })
    }

    /// The same, where the first four bytes were read already, or as many of them as the file has: they are not read again.
    pub fn open_behind<I: Reading>(
        alloc: Global,
        files: &mut I,
        name: &str,
        first: &[u8],
    ) -> Result<ClassicReader, CaptureError>
        requires first { Told (I.readable files.old).held (λ m. first.now ≡ take 4 (content m name.now)) }
        requires few { length first.now ≤ 4 }
        ensures told { Told (I.readable files.old).held (λ m. Opens result (content m name.now)) }
        ensures refused { IfErr result RefusesHeader }
        ensures link { IfOk result (λ reader. IsTrue (is_known_link (⟦<ClassicReader as CaptureReader>⟧.form reader).link)) }
        ensures at { IfOk result (λ reader. ⟦<ClassicReader as CaptureReader>⟧.at reader ≡ 24) }
        ensures ready { IfOk result (λ reader. ⟦<ClassicReader as CaptureReader>⟧.ready reader 0) }
        ensures reads { OnlyReads (is_read_fault result) name.now (λ place. place < 24) (I.readable files.old) (I.readable files.new) }
    {
        let form = read_header_behind(alloc, files, name, first)?;
        Ok(ClassicReader {
            form,
            at: FIRST_RECORD,
            window: Window::new(alloc),
            fits: MOST_PIECE,
        })
    }
}

/// How many bytes a reader asks for at once, where a round may have so many captured bytes: a piece that stays in a processor's
/// second-level cache, or, where they are more than one processor's share, as many as they are, up to 1,048,576.
pub fn piece_of(most_bytes: usize) -> usize
    ensures least { 262144 ≤ result }
    ensures few { result ≤ 1048576 }
{
    if most_bytes > ROOM {
        most_bytes.min(MOST_PIECE)
    } else {
        PIECE
    }
}

/// How many bytes fit a round, behind a round of so many records, which took so many bytes: no more than are taken of small records,
/// since what is left of a read is copied for the next round.
pub fn fitting(fits: usize, records: usize, bytes: usize) -> usize
    ensures full { records ≡ 16384 → result ≡ bytes }
    ensures more { (records ≡ 16384 → ⊥) → fits ≤ result }
{
    if records == MOST_TAKEN {
        return bytes;
    }
    // A round of what was left brought no piece.
    if bytes < fits / 2 {
        return fits;
    }
    fits.saturating_add(fits / 8)
}

// Reads pieces until the front of the window says what the next record is. It answers whether a read failed before that. It stands
// apart from the walk over the records, which is then left with more registers.
#[inline(never)]
fn fetch<I: Reading>(
    alloc: Global,
    files: &mut I,
    name: &str,
    next: Upcoming,
    window: &mut Window,
    piece: usize,
) -> Result<bool, OutOfMemory>
    requires some { 1 ≤ piece }
    requires place { next.at ≤ 2 ^ 62 }
    requires begins { IsFalse window.old.last }
    ensures told { IfOk result (λ _. IsMore (I.readable files.old).held name.now next.at window.old window.new) }
    ensures open { IfOk result (λ failed. is_more (front_in next.big window.new.bytes window.new.last next.at next.number) ≡ failed) }
    ensures reads { FetchReads result name.now next.at window.new (I.readable files.old) (I.readable files.new) }
{
    'reads: while is_open(window, next) {
        match window.read_more(alloc, files, name, next.at, piece) {
            Ok(()) => {}
            Err(Fault::Failed) => return Ok(true),
            Err(Fault::OutOfMemory) => return Err(OutOfMemory),
        }
    }
    Ok(false)
}

// Takes the records of the bytes that are there; where a read failed behind them, there are none.
fn take(
    failed: bool,
    next: Upcoming,
    window: &Window,
    most_bytes: usize,
    places: &mut Vec<Place>,
) -> Taken
    requires none { places.old.items ≡ [] }
    requires room { 16384 ≤ vec_capacity places.old }
    requires number { next.number ≤ 2 ^ 31 }
    requires some { 1 ≤ most_bytes }
    requires most { most_bytes ≤ 67108864 }
    requires place { next.at ≤ 2 ^ 62 }
    requires open { is_more (front_in next.big window.now.bytes window.now.last next.at next.number) ≡ failed }
    ensures { IsTaken next.big window.now failed next.at next.number most_bytes places.new.items result }
{
    if failed {
        return Taken {
            used: 0,
            number: next.number,
            ending: Some(Ending::ReadFault),
        };
    }
    take_records(
        next.big,
        window.as_slice(),
        window.is_last(),
        next.at,
        next.number,
        most_bytes,
        places,
    )
}

impl CaptureReader for ClassicReader {
    ghost use Rattle.std.specs.Prelude.{◌≤◌, ◌+◌, ◌*◌};
    ghost use Rattle.capture_io.specs.Classic.{left_of, stands_in};

    ghost stands = { stands_in };

    ghost left = { left_of };

    ghost at = { λ reader. reader.at };

    ghost ready = { λ reader number. (24 ≤ reader.at) × (reader.at ≤ 24 + 262160 * number) };

    ghost form = { λ reader. reader.form };

    fn form(&self) -> Form {
        self.form
    }

    fn read_round<I: Reading>(
        &mut self,
        alloc: Global,
        files: &mut I,
        name: &str,
        number: u32,
        most_bytes: usize,
        room: Records,
    ) -> Result<Round, OutOfMemory> {
        let (mut buffer, mut places) = room.into_room()?;
        let piece = piece_of(most_bytes).min(self.fits).max(1);
        self.window.begin_round(piece, &mut buffer)?;
        let next = Upcoming {
            big: self.form.big,
            at: self.at,
            number,
        };
        let failed = fetch(alloc, files, name, next, &mut self.window, piece)?;
        let taken = take(failed, next, &self.window, most_bytes, &mut places);
        self.at += taken.used as u64;
        self.fits = fitting(self.fits, places.len(), taken.used);
        let ended = taken.ending.is_some();
        let records = self.window.hand_out(places, buffer, taken.used, ended)?;
        Ok(Round {
            records,
            number: taken.number,
            ending: taken.ending,
        })
    }

    fn one_left() {}

    fn some_left() {}
}
