// The records that stand in bytes that were read.
ghost use Rattle.std.specs.Prelude.{◌≡◌, ◌+◌, ◌^◌, ◌<◌, ◌≤◌, [], None, All, IsFalse, IsTrue, false, length, map, vec_capacity};
ghost use Rattle.capture_io.specs.Fronts.{front_in, if_last, is_more, place_behind};
ghost use Rattle.capture_io.specs.Records.{IsWithin, placed};
ghost use Rattle.capture_io.specs.Rounds.{bytes_captured, is_cut};
ghost use Rattle.capture_io.specs.Taken.{AreTaken, Ended};

use crate::record::{Head, MOST_BYTES, MOST_RECORDS, RECORD_HEADER_LEN};
use crate::records::MOST_TAKEN;
use crate::window::Window;
use crate::words::word;
use crate::{CaptureBad, Ending, Place};

/// What the front of what is left says.
#[derive(Clone, Copy)]
pub enum Front {
    /// A whole record.
    Whole(Head),
    /// No byte is left.
    End,
    /// What is left is no record.
    Bad(CaptureBad),
    /// The bytes that follow will say it.
    More,
}

// What is said where nothing more comes.
fn at_last(last: bool, ending: Front) -> Front
    ensures { result ≡ if_last last ending }
{
    if last { ending } else { Front::More }
}

/// What the front says of the record of this number, which stands at the place `at`. `last` says that nothing follows. The order
/// of the numbers is asked once, and not for each of them.
#[inline(always)]
pub fn front_of(big: bool, first: &[u8], last: bool, at: u64, number: u32) -> Front
    ensures { result ≡ front_in big first.now last at number }
{
    if big {
        return front_by_order(true, first, last, at, number);
    }
    front_by_order(false, first, last, at, number)
}

#[inline(always)]
fn front_by_order(big: bool, first: &[u8], last: bool, at: u64, number: u32) -> Front
    ensures { result ≡ front_in big first.now last at number }
{
    if first.is_empty() {
        return at_last(last, Front::End);
    }
    if number == MOST_RECORDS {
        return Front::Bad(CaptureBad::TooMany { at });
    }
    if first.len() < RECORD_HEADER_LEN {
        return at_last(last, Front::Bad(CaptureBad::CutHeader { at }));
    }
    let captured = word(big, first, 8);
    if captured > MOST_BYTES {
        return Front::Bad(CaptureBad::TooLong { at });
    }
    if first.len() < RECORD_HEADER_LEN + captured as usize {
        return at_last(last, Front::Bad(CaptureBad::CutRecord { at }));
    }
    Front::Whole(Head {
        seconds: word(big, first, 0),
        fraction: word(big, first, 4),
        captured,
    })
}

/// The record that comes next: the order of the file's numbers, its place and its number.
#[derive(Clone, Copy)]
pub struct Upcoming {
    pub big: bool,
    pub at: u64,
    pub number: u32,
}

/// More has to be read before the front of these bytes says something.
pub fn is_open(window: &Window, next: Upcoming) -> bool
    ensures open { result ≡ is_more (front_in next.big window.now.bytes window.now.last next.at next.number) }
    ensures more { IsTrue result → IsFalse window.now.last }
    ensures short { IsTrue result → length window.now.bytes < 262160 }
{
    match front_of(
        next.big,
        window.as_slice(),
        window.is_last(),
        next.at,
        next.number,
    ) {
        Front::More => true,
        Front::Whole(_) => false,
        Front::End => false,
        Front::Bad(_) => false,
    }
}

fn place_of(head: Head, from: usize, at: u64) -> Place
    requires from { from ≤ 2 ^ 63 }
    requires at { at ≤ 2 ^ 62 + 2 ^ 63 }
    ensures { result ≡ place_behind head from at }
{
    Place {
        seconds: head.seconds,
        fraction: head.fraction,
        from: from + RECORD_HEADER_LEN,
        count: head.captured as usize,
        next_at: at + 16 + u64::from(head.captured),
    }
}

/// How far records were taken off the front of a piece.
#[derive(Clone, Copy)]
pub struct Taken {
    /// How many bytes they and their headers have.
    pub used: usize,
    /// The number of the next record.
    pub number: u32,
    /// How the records ended, if these are the last.
    pub ending: Option<Ending>,
}

/// Takes whole records off the front of a piece, which stands at the place `at` of the file, until the rest of it is none, 16,384
/// are taken, or one brings their captured bytes to `most_bytes`. There is room for their places.
pub fn take_records(
    big: bool,
    piece: &[u8],
    last: bool,
    at: u64,
    number: u32,
    most_bytes: usize,
    places: &mut Vec<Place>,
) -> Taken
    requires none { places.old.items ≡ [] }
    requires room { 16384 ≤ vec_capacity places.old }
    requires number { number ≤ 2 ^ 31 }
    requires some { 1 ≤ most_bytes }
    requires most { most_bytes ≤ 67108864 }
    requires place { at ≤ 2 ^ 62 }
    requires size { length piece.now ≤ 2 ^ 63 }
    requires decided { IsFalse (is_more (front_in big piece.now last at number)) }
    ensures taken { AreTaken big piece.now last at number most_bytes
        (map (placed piece.now) places.new.items) result.used result.number
        (bytes_captured (map (placed piece.now) places.new.items)) }
    ensures ended { Ended big piece.now last at result.used result.number result.ending }
    ensures some { result.ending ≡ None → 0 < length places.new.items }
    ensures within { All (IsWithin piece.now) places.new.items }
    ensures well { IsFalse (is_cut result.ending) }
{
    let mut used = 0;
    let mut bytes = 0;
    'records: while places.len() < MOST_TAKEN && bytes < most_bytes {
        let here = at + used as u64;
        let next = number + places.len() as u32;
        let head = match front_of(big, &piece[used..], last, here, next) {
            Front::Whole(head) => head,
            Front::End => return Taken {
                used,
                number: next,
                ending: Some(Ending::End),
            },
            Front::Bad(refusal) => {
                return Taken {
                    used,
                    number: next,
                    ending: Some(Ending::Bad(refusal)),
                };
            }
            Front::More => return Taken {
                used,
                number: next,
                ending: None,
            },
        };
        places.push_reserved(place_of(head, used, here));
        let count = head.captured as usize;
        used += RECORD_HEADER_LEN + count;
        bytes += count;
    }
    Taken {
        used,
        number: number + places.len() as u32,
        ending: None,
    }
}
