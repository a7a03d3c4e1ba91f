// Blocks, and what is known in front of one.
ghost use Rattle.std.specs.Prelude.{◌≡◌, ◌+◌, ◌^◌, ◌<◌, ◌≤◌, All, IfErr, IfOk, length};
ghost use Rattle.aftr_io.specs.Contents.{Told};
ghost use Rattle.aftr_io.specs.Outside.{OnlyReads};
ghost use Rattle.capture_io.specs.Answers.{Agrees, is_read_fault};
ghost use Rattle.pcapng_io.specs.Answers.{RefusesBlock};
ghost use Rattle.pcapng_io.specs.Blocks.{block_in};
ghost use Rattle.pcapng_io.specs.Files.{IsInBlock, IsSound, left_at};
ghost use Rattle.pcapng_io.specs.Long.{StandsBy};
ghost use Rattle.pcapng_io.specs.Seen.{seen_by};
ghost use Rattle.capture_io.specs.Windows.{IsAtFront};

use crate::fronts::{Front, front_of, lacking};
use crate::interface::Interface;
use crate::long::{MOST_KEPT, read_long};
use crate::walk::len_of;
use aftr_io::Reading;
use capture_io::{CaptureBad, CaptureError, Window};
use std::alloc::Global;

/// The last place of a block that is read, so that the places behind it have a number (ours).
pub const FARTHEST: u64 = 0x4000_0000_0000_0000;

/// What the blocks in front of a place say, but for the section's interfaces.
#[derive(Clone, Copy, Debug)]
pub struct Known {
    pub at: u64,
    /// The section has the most significant byte of a number first.
    pub big: bool,
    /// The link type of the file's first interface.
    pub link: Option<u32>,
    /// The time of the last packet.
    pub seconds: u32,
    pub nanos: u32,
}

/// A packet that is looked for: what is known in front of it, and the number that it would have.
#[derive(Clone, Copy)]
pub struct Sought {
    pub known: Known,
    pub number: u32,
}

/// What stands at a place. The `total` of each is the length of the block.
#[derive(Clone, Copy)]
pub enum Block {
    /// No byte is left.
    End,
    Packet(Packet),
    /// A block that is no packet.
    Passed(Passed),
}

/// A packet, whose captured bytes begin behind `start` bytes of the block.
#[derive(Clone, Copy)]
pub struct Packet {
    pub seconds: u32,
    pub nanos: u32,
    pub start: u32,
    pub count: u32,
    pub total: u32,
}

/// A block that is no packet.
#[derive(Clone, Copy)]
pub enum Passed {
    Section {
        big: bool,
        total: u32,
    },
    Interface {
        interface: Interface,
        link: u32,
        total: u32,
    },
    /// A block that says nothing of packets.
    Other {
        total: u32,
    },
}

/// What stands at the place that is known, for a packet of this number. The window has the bytes from there on, as far as they
/// were read, and behind them those are read that are missing. Then it stands behind the block; where that is a packet's, it has still
/// the front of it, up to the packet's last byte.
pub fn read_block<I: Reading>(
    alloc: Global,
    files: &mut I,
    name: &str,
    known: Known,
    interfaces: &[Interface],
    number: u32,
    window: &mut Window,
) -> Result<Block, CaptureError>
    requires number { number ≤ 2 ^ 31 }
    requires time { known.nanos < 1000000000 }
    requires counted { All (λ interface. 0 < interface.ticks) interfaces.now }
    requires stands { IsAtFront (I.readable files.old).held name.now known.at window.old }
    ensures told { Told (I.readable files.old).held
        (λ m. Agrees result (block_in (seen_by known interfaces.now) (left_at m name.now known.at) number)) }
    ensures refused { IfErr result (RefusesBlock (seen_by known interfaces.now)) }
    ensures sound { IfOk result (λ block. IsSound number block) }
    ensures near { IfOk result (λ _. known.at ≤ 2 ^ 62) }
    ensures stands { IfOk result (λ block. StandsBy (I.readable files.old).held name.now known.at window.new block) }
    ensures reads { OnlyReads (is_read_fault result) name.now
        (IsInBlock (I.readable files.old).held name.now (seen_by known interfaces.now) number)
        (I.readable files.old) (I.readable files.new) }
{
    'reading: loop {
        match front_of(
            known,
            interfaces,
            window.as_slice(),
            window.is_last(),
            number,
        ) {
            Front::Packet(packet) => return Ok(Block::Packet(packet)),
            Front::Passed(passed) => {
                window.pass(len_of(passed));
                return Ok(Block::Passed(passed));
            }
            Front::End => return Ok(Block::End),
            Front::Bad(refusal) => return Err(CaptureError::Bad(refusal)),
            Front::More => {
                if window.as_slice().len() >= MOST_KEPT {
                    let sought = Sought { known, number };
                    let block = read_long(alloc, files, name, sought, interfaces, window)?;
                    return Ok(block);
                }
                let count = lacking(known, window.as_slice());
                window.read_more(alloc, files, name, known.at, count)?;
            }
        }
    }
}
