// The records of a round, in one buffer.
ghost use Rattle.std.specs.Prelude.{◌≡◌, ◌<◌, ◌≤◌, ◌↔◌, [], IfOk, IsTrue, Some, All, drop, length, map, slice_get, take, vec_capacity};
ghost use Rattle.capture_io.specs.Records.{IsWithin, placed, seen};

use aftr_base::OutOfMemory;
use std::alloc::Global;
use std::marker::Model;

/// The most records of a round.
pub const MOST_TAKEN: usize = 16_384;

/// A record whose bytes stand in a buffer.
#[derive(Clone, Copy, Debug)]
pub struct Place {
    pub seconds: u32,
    pub fraction: u32,
    /// Where its bytes begin in the buffer, and how many there are.
    pub from: usize,
    pub count: usize,
    /// The place of the file where the next record stands.
    pub next_at: u64,
}

/// A record, with its bytes where they were read.
#[derive(Clone, Copy, Debug)]
pub struct RecordView<'a> {
    pub seconds: u32,
    pub fraction: u32,
    /// At most 262,144 bytes.
    pub bytes: &'a [u8],
    /// The place of the file where the next record stands.
    pub next_at: u64,
}

/// Records, in order, seen as their list. All their bytes stand in one buffer, which is kept when they are cleared.
#[derive(Drop)]
pub struct Records {
    buffer: Vec<u8>,
    places: Vec<Place>,
}

impl Model for Records {
    ghost use Rattle.std.specs.Prelude.{List, All, map};
    ghost use Rattle.capture_io.specs.declared.forms.Rec.{Rec as Record};
    ghost use Rattle.capture_io.specs.Records.{IsWithin, placed};

    ghost Value = { List Record };

    ghost view = { λ r. map (placed r.buffer.items) r.places.items };

    ghost invariant = { λ r. All (IsWithin r.buffer.items) r.places.items };
}

impl Records {
    /// No records, and no room yet.
    pub fn new(alloc: Global) -> Records
        ensures { result ≡ [] }
    {
        Records {
            buffer: Vec::new(alloc),
            places: Vec::new(alloc),
        }
    }

    /// The records that stand at these places of a buffer, with the room of both lists.
    pub fn of(buffer: Vec<u8>, places: Vec<Place>) -> Records
        requires { All (IsWithin buffer.items) places.items }
        ensures { result ≡ map (placed buffer.items) places.items }
    {
        Records { buffer, places }
    }

    /// Gives the buffer back, and the list of places with room for those of a round.
    pub fn into_room(self) -> Result<(Vec<u8>, Vec<Place>), OutOfMemory>
        ensures none { IfOk result (λ parts. parts.1.items ≡ []) }
        ensures room { IfOk result (λ parts. 16384 ≤ vec_capacity parts.1) }
    {
        let mut places = self.places;
        places.clear();
        places.reserve(MOST_TAKEN)?;
        Ok((self.buffer, places))
    }

    /// How many records there are.
    pub fn len(&self) -> usize
        ensures { result ≡ length self.now }
    {
        self.places.len()
    }

    pub fn is_empty(&self) -> bool
        ensures { IsTrue result ↔ (self.now ≡ []) }
    {
        self.places.is_empty()
    }

    /// Lets the records go, and keeps their room.
    pub fn clear(&mut self)
        ensures { self.new ≡ [] }
    {
        self.places.clear();
    }

    /// Takes the records from the index `count` on out, into the room of `room`, and leaves those before it. The bytes are copied.
    pub fn split_off(&mut self, count: usize, room: Records) -> Result<Records, OutOfMemory>
        requires inside { count ≤ length self.old }
        ensures front { IfOk result (λ _. self.new ≡ take count self.old) }
        ensures rest { IfOk result (λ rest. rest ≡ drop count self.old) }
    {
        let Records { buffer, places } = room;
        let mut buffer = buffer;
        let mut places = places;
        buffer.clear();
        buffer.extend_from_slice(&self.buffer)?;
        places.clear();
        places.extend_from_slice(&self.places[count..])?;
        self.places.truncate(count);
        Ok(Records { buffer, places })
    }

    /// One record.
    pub fn get(&self, i: usize) -> RecordView<'_>
        requires { i < length self.now }
        ensures { slice_get self.now i ≡ Some (seen result) }
    {
        let place = self.places[i];
        RecordView {
            seconds: place.seconds,
            fraction: place.fraction,
            bytes: &self.buffer[place.from..place.from + place.count],
            next_at: place.next_at,
        }
    }
}
