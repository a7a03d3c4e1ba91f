// Records made by hand.
ghost use Rattle.std.specs.Prelude.{◌≡◌, length, IfOk};

use crate::words::bytes_of;
use aftr_base::OutOfMemory;
use capture_io::{Place, Records};
use std::alloc::Global;
use std::test::Fail;

/// A record: its time in seconds and microseconds, and its bytes.
#[derive(Debug, Drop)]
pub struct Packet {
    pub seconds: u32,
    pub micros: u32,
    pub bytes: Vec<u8>,
}

/// Seconds, and the microseconds behind a point.
fn time_of(text: &str) -> Result<(u32, u32), Fail> {
    let (seconds, micros) = text.split_once('.').unwrap_or((text, "0"));
    Ok((seconds.parse()?, micros.parse()?))
}

/// The packet of a line's words in front of `=`.
fn packet_of(alloc: Global, text: &str) -> Result<Packet, Fail> {
    let (time, words) = text.trim().split_once(' ').ok_or("a time")?;
    let (seconds, micros) = time_of(time)?;
    let bytes = bytes_of(alloc, words)?;
    Ok(Packet {
        seconds,
        micros,
        bytes,
    })
}

/// The packets of a round's lines.
pub fn packets_of(alloc: Global, round: &str) -> Result<Vec<Packet>, Fail> {
    let mut packets = Vec::new(alloc);
    for line in round.lines() {
        if let Some((packet, _)) = line.split_once('=') {
            packets.push(packet_of(alloc, packet)?)?;
        }
    }
    Ok(packets)
}

/// Records that stand one behind the other in a buffer.
pub fn records_of(alloc: Global, packets: &[Packet]) -> Result<Records, OutOfMemory>
    ensures { IfOk result (λ records. length records ≡ length packets.now) }
{
    let mut buffer = Vec::new(alloc);
    let mut places = Vec::new(alloc);
    'packets: for packet in packets {
        let place = Place {
            seconds: packet.seconds,
            fraction: packet.micros,
            from: buffer.len(),
            count: packet.bytes.len(),
            next_at: 24,
        };
        buffer.extend_from_slice(&packet.bytes)?;
        places.push(place)?;
    }
    Ok(Records::of(buffer, places))
}
