// Captures of blocks, packet by packet: parts of them, and what is written.
use crate::captures::is_first;
use crate::parts::parts_of;
use crate::pipes::{Pipe, pipe_of};
use aftr_io::QuietReading;
use capture_io::{CaptureError, Form, Next};
use case_data::UP_LOWERED;
use pcapng_io::{NgReader, is_ng, put_enhanced, put_section};
use std::alloc::Global;
use std::test::Fail;

/// A section header, as the format's section 4.1 has it.
pub(crate) const SECTION: &[u8; 28] =
    b"\x0a\x0d\x0d\x0a\x1c\0\0\0\x4d\x3c\x2b\x1a\x01\0\0\0\xff\xff\xff\xff\xff\xff\xff\xff\x1c\0\0\0";

/// An interface of plain IP, with a snapshot length of 262,144 and no options.
pub(crate) const INTERFACE: &[u8; 20] = b"\x01\0\0\0\x14\0\0\0\x65\0\0\0\0\0\x04\0\x14\0\0\0";

/// The same of Ethernet.
pub(crate) const ETHERNET: &[u8; 20] = b"\x01\0\0\0\x14\0\0\0\x01\0\0\0\0\0\x04\0\x14\0\0\0";

/// The same of plain IP, with ticks of a nanosecond.
pub(crate) const IN_NANOS: &[u8; 32] =
    b"\x01\0\0\0\x20\0\0\0\x65\0\0\0\0\0\x04\0\x09\0\x01\0\x09\0\0\0\0\0\0\0\x20\0\0\0";

/// What stands before and behind a packet of 72 bytes at tick 1,000,000 of interface 0.
pub(crate) const HEAD: &[u8; 28] =
    b"\x06\0\0\0\x68\0\0\0\0\0\0\0\0\0\0\0\x40\x42\x0f\0\x48\0\0\0\x48\0\0\0";

pub(crate) const TAIL: &[u8; 4] = b"\x68\0\0\0";

/// A block of a type that says nothing of packets.
pub(crate) const OTHER: &[u8; 12] = b"\x05\0\0\0\x0c\0\0\0\x0c\0\0\0";

/// A block whose length is no multiple of 4.
pub(crate) const ODD: &[u8; 12] = b"\x05\0\0\0\x0d\0\0\0\x0d\0\0\0";

pub(crate) const BIG_SECTION: &[u8; 28] =
    b"\x0a\x0d\x0d\x0a\0\0\0\x1c\x1a\x2b\x3c\x4d\0\x01\0\0\xff\xff\xff\xff\xff\xff\xff\xff\0\0\0\x1c";

/// With a snapshot length of 80.
pub(crate) const BIG_INTERFACE: &[u8; 20] = b"\0\0\0\x01\0\0\0\x14\0\x65\0\0\0\0\0\x50\0\0\0\x14";

/// What stands before and behind a simple packet of 100 bytes, of which 80 were captured.
pub(crate) const SIMPLE_HEAD: &[u8; 12] = b"\0\0\0\x03\0\0\0\x60\0\0\0\x64";

pub(crate) const SIMPLE_TAIL: &[u8; 4] = b"\0\0\0\x60";

pub(crate) fn joined(alloc: Global, parts: &[&[u8]]) -> Result<Vec<u8>, Fail> {
    let mut bytes = Vec::new(alloc);
    for part in parts {
        bytes.extend_from_slice(part)?;
    }
    Ok(bytes)
}

// A word for a record that has as many bytes as the first datagram in its tunnel, and is another.
fn other_word(bytes: &[u8]) -> &'static str {
    if bytes.len() == 72 && !is_first(bytes) {
        return "other ";
    }
    ""
}

/// The seconds, fraction, length and end of a record. Of 72 bytes it is the first datagram in its tunnel, or told to be another.
pub(crate) fn record_text(
    alloc: Global,
    seconds: u32,
    fraction: u32,
    bytes: &[u8],
    next_at: u64,
) -> Result<String, Fail> {
    let (other, size) = (other_word(bytes), bytes.len());
    Ok(format!(in alloc; "{seconds}.{fraction} {other}{size} {next_at}; ")?)
}

/// Tells what was found, and where the next record stands if it was one.
pub(crate) fn push_next(
    alloc: Global,
    told: &mut String,
    found: Result<Next, CaptureError>,
) -> Result<Option<u64>, Fail> {
    let text = match found {
        Ok(Next::Rec(record)) => {
            let (bytes, next_at) = (record.bytes.as_slice(), record.next_at);
            let text = record_text(alloc, record.seconds, record.fraction, bytes, next_at)?;
            told.push_str(&text)?;
            return Ok(Some(next_at));
        }
        Ok(Next::End) => format!(in alloc; "end")?,
        Err(error) => format!(in alloc; "{error}")?,
    };
    told.push_str(&text)?;
    Ok(None)
}

/// What a file reads as, from the packet of this number on: each record's time, its length and where it ends, and then how they
/// end.
pub(crate) fn packets(alloc: Global, pipe: &mut Pipe, first: u32) -> Result<String, Fail> {
    let mut reader = match NgReader::open(alloc, pipe, "in") {
        Ok(reader) => reader,
        Err(error) => return Ok(format!(in alloc; "{error}")?),
    };
    let mut told = String::new(alloc);
    'packets: for turn in 0..9u32 {
        let number = first.saturating_add(turn).min(0x8000_0000);
        let found = reader.next(alloc, pipe, "in", number);
        if push_next(alloc, &mut told, found)?.is_none() {
            return Ok(told);
        }
    }
    Ok(told)
}

// Whether bytes read as this, from the packet of this number on.
fn reads_as(alloc: Global, bytes: &[u8], first: u32, wanted: &str) -> Result<bool, Fail> {
    let mut pipe = pipe_of(alloc, bytes, 1_000, 1_000_000)?;
    Ok(packets(alloc, &mut pipe, first)?.as_str() == wanted)
}

// The same of the bytes of these parts.
fn parts_read_as(alloc: Global, parts: &str, first: u32, wanted: &str) -> Result<bool, Fail> {
    let bytes = parts_of(alloc, parts)?;
    reads_as(alloc, &bytes, first, wanted)
}

// Others stand in `all_pieces`.
#[test]
fn what_has_no_packet_or_too_many_is_told_so(rt: HostRuntime) -> Result<(), Fail> {
    let told = [
        parts_read_as(rt.alloc(), "", 0, "end")?,
        parts_read_as(rt.alloc(), "sihtur", 0x8000_0000, "ng too-many 48")?,
        parts_read_as(rt.alloc(), "SIHtu8R", 0x8000_0000, "ng too-many 48")?,
    ];
    assert_eq!(rt; told, [true; 3]);
    Ok(())
}

/// What stands before and behind a packet of 32 bytes at 1 second, in nanoseconds, and before one of three bytes at the last one.
const FIRST_HEAD: &[u8; 28] =
    b"\x06\0\0\0\x40\0\0\0\0\0\0\0\0\0\0\0\0\xca\x9a\x3b\x20\0\0\0\x20\0\0\0";

const FIRST_TAIL: &[u8; 4] = b"\x40\0\0\0";

const LAST_HEAD: &[u8; 28] =
    b"\x06\0\0\0\x24\0\0\0\0\0\0\0\xff\xc9\x9a\x3b\xff\xff\xff\xff\x03\0\0\0\x03\0\0\0";

// A section, and two packets.
fn written(alloc: Global) -> Result<Vec<u8>, Fail> {
    let mut bytes = put_section().to_vec(alloc)?;
    bytes.extend_from_slice(put_enhanced(alloc, 1, 0, UP_LOWERED)?.as_slice())?;
    bytes.extend_from_slice(put_enhanced(alloc, u32::MAX, 999_999_999, b"abc")?.as_slice())?;
    Ok(bytes)
}

const WRITTEN: &str = "1.0 32 124; 4294967295.999999999 3 160; end";

const IN_BLOCKS: Form = Form {
    big: false,
    nano: true,
    link: 101,
};

// The bytes that they have.
fn wanted(alloc: Global) -> Result<Vec<u8>, Fail> {
    let last = b"abc\0\x24\0\0\0";
    joined(
        alloc,
        &[
            SECTION, IN_NANOS, FIRST_HEAD, UP_LOWERED, FIRST_TAIL, LAST_HEAD, last,
        ],
    )
}

// Whether the file is one of blocks, and whether another is, and what packets it has.
fn form_of(alloc: Global, bytes: &[u8]) -> Result<(bool, bool, Form), Fail> {
    let mut files = QuietReading::new(alloc);
    files.set(alloc, "in", bytes)?;
    let is_one = is_ng(alloc, &mut files, "in")?;
    let is_other = is_ng(alloc, &mut files, "out")?;
    Ok((
        is_one,
        is_other,
        NgReader::open(alloc, &mut files, "in")?.form(),
    ))
}

#[test]
fn what_is_written_is_read_back(rt: HostRuntime) -> Result<(), Fail> {
    let bytes = written(rt.alloc())?;
    assert!(rt; bytes == wanted(rt.alloc())?);
    assert!(rt; reads_as(rt.alloc(), &bytes, 0, WRITTEN)?);
    assert_eq!(rt; form_of(rt.alloc(), &bytes)?, (true, false, IN_BLOCKS));
    Ok(())
}
