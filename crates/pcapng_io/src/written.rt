// Captures of blocks as they are written.
ghost use Rattle.std.specs.Prelude.{◌≡◌, ◌<◌, ◌≤◌, IfOk, length};
ghost use Rattle.capture_io.specs.Packets.{packet_bytes, section_bytes};
ghost use Rattle.capture_io.specs.declared.written.Written.TheVariants as written;

use aftr_base::{Bytes, OutOfMemory};
use capture_io::{Written, section};
use std::alloc::Global;

/// A section header and an interface of plain IP (link type 101), with a snapshot length of 262,144 and times in nanoseconds;
/// little-endian.
pub fn put_section() -> [u8; 60]
    ensures { result ≡ section_bytes }
{
    section()
}

/// An enhanced packet block of that interface: the packet's length both as the captured and as the original one, padded with
/// zeros, and no options. The packet has at most 65,575 bytes, and `nanos` is below a second.
pub fn put_enhanced(
    alloc: Global,
    seconds: u32,
    nanos: u32,
    packet: &[u8],
) -> Result<Bytes, OutOfMemory>
    requires time { nanos < 1000000000 }
    requires size { length packet.now ≤ 65575 }
    ensures { IfOk result (λ bytes. bytes ≡ packet_bytes written.Blocks seconds nanos packet.now) }
{
    let count = packet.len() as u32;
    let mut list = Vec::with_capacity(alloc, 40 + packet.len())?;
    Written::Blocks.push_head(&mut list, seconds, nanos, count)?;
    list.extend_from_slice(packet)?;
    Written::Blocks.push_tail(&mut list, count)?;
    Ok(Bytes::of(list))
}
