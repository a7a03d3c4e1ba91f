// The room of a round.
ghost use Rattle.std.specs.Prelude.{◌≡◌, ◌<◌, ◌≤◌, ◌^◌, [], IfOk, length};
ghost use Rattle.run_output.specs.Counting.{no_totals};

use aftr_base::OutOfMemory;
use aftr_text::{NO_TOTALS, Totals};
use output_journal::RoundPart;
use std::alloc::Global;
use std::marker::Model;

/// How many bytes the packet of a small record has, with what stands in front of it, and how many its line.
const PACKET_ROOM: usize = 256;

const LINE_ROOM: usize = 24;

/// What neighbouring records write. Its room is kept when it is cleared.
#[derive(Drop)]
pub struct Part {
    /// The packets sent, as the capture that is written records them.
    pub packets: Vec<u8>,
    /// The lines of the records.
    pub lines: Vec<u8>,
    /// The totals of these records alone.
    pub counted: Totals,
    /// Memory was wanted, so that not all was written.
    pub(crate) failed: bool,
}

impl Part {
    /// Nothing, and no room yet.
    pub fn new(alloc: Global) -> Part
        ensures packets { result.packets.items ≡ [] }
        ensures lines { result.lines.items ≡ [] }
        ensures counted { result.counted ≡ no_totals }
    {
        Part {
            packets: Vec::new(alloc),
            lines: Vec::new(alloc),
            counted: NO_TOTALS,
            failed: false,
        }
    }

    /// Lets go what was written, and keeps the room.
    pub(crate) fn clear(&mut self)
        ensures packets { self.new.packets.items ≡ [] }
        ensures lines { self.new.lines.items ≡ [] }
        ensures counted { self.new.counted ≡ no_totals }
    {
        self.packets.clear();
        self.lines.clear();
        self.counted = NO_TOTALS;
        self.failed = false;
    }

    /// Room for what so many records write, if their packets are small ones: where rooms grow step by step, what stands in them is
    /// copied at each step.
    pub(crate) fn reserve(&mut self, records: usize) -> Result<(), OutOfMemory>
        requires { records ≤ 2 ^ 31 }
        ensures packets { self.new.packets.items ≡ self.old.packets.items }
        ensures lines { self.new.lines.items ≡ self.old.lines.items }
        ensures counted { self.new.counted ≡ self.old.counted }
    {
        self.packets.reserve(records * PACKET_ROOM)?;
        self.lines.reserve(records * LINE_ROOM)?;
        Ok(())
    }
}

impl RoundPart for Part {
    ghost packet_bytes = { λ part. part.packets.items };

    ghost line_bytes = { λ part. part.lines.items };

    fn packets(&self) -> &[u8] {
        &self.packets
    }

    fn lines(&self) -> &[u8] {
        &self.lines
    }
}

/// What the records of a round write, in parts that follow one another. A contract sees it as the list of the parts. Its room is
/// kept from round to round, so that a round takes memory only where it writes more than those before it.
#[derive(Drop)]
pub struct Rendered {
    pub(crate) parts: Vec<Part>,
    /// Which of the round's records have an error that is kept back.
    pub(crate) limited: Vec<bool>,
}

impl Model for Rendered {
    ghost use Rattle.std.specs.Prelude.{◌<◌, ◌≤◌, List, length};
    ghost use Rattle.run_output.specs.declared.parts.Part.{Part};

    ghost Value = { List Part };

    ghost view = { λ r. r.parts.items };

    ghost invariant = { λ r. (0 < length r.parts.items) × (length r.parts.items ≤ 16) };
}

impl Rendered {
    ghost use Rattle.run_output.specs.Rendering.{lines_in, packets_in};

    /// Room for a round whose records are rendered by so many threads, from 1 to 16: one part a thread, with nothing in it.
    pub fn new(alloc: Global, threads: u32) -> Result<Rendered, OutOfMemory>
        requires some { 1 ≤ threads }
        requires most { threads ≤ 16 }
        ensures parts { IfOk result (λ rendered. length rendered ≡ threads) }
        ensures packets { IfOk result (λ rendered. packets_in rendered ≡ []) }
        ensures lines { IfOk result (λ rendered. lines_in rendered ≡ []) }
    {
        let mut parts = Vec::with_capacity(alloc, threads as usize)?;
        for _ in 0..threads {
            parts.push(Part::new(alloc))?;
        }
        Ok(Rendered {
            parts,
            limited: Vec::new(alloc),
        })
    }

    /// The parts, in the order of the records.
    pub fn parts(&self) -> &[Part]
        ensures { result.now ≡ self.now }
    {
        self.parts.as_slice()
    }
}
