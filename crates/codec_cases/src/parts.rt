// Captures by the letters of their parts: whole captures, blocks, parts of blocks and of packets, and blocks that are longer than what is
// kept of one.
use crate::blocks::{
    BIG_INTERFACE, BIG_SECTION, ETHERNET, HEAD, IN_NANOS, INTERFACE, ODD, OTHER, SECTION,
    SIMPLE_HEAD, SIMPLE_TAIL, TAIL, joined,
};
use crate::captures::{BY_SCAPY, BY_TEXT2PCAP};
use crate::rounds::{SECOND, THIRD, TOO_LONG};
use case_data::{CAPTURE, UP, UP_TUNNEL};
use std::alloc::Global;
use std::test::Fail;

// A short part.
fn part(letter: u8) -> &'static [u8] {
    match letter {
        b'c' => CAPTURE,
        b'x' => &BY_TEXT2PCAP,
        b'y' => &BY_SCAPY,
        b'k' => b"\xd4\xc3\xb2\xa1\x02\0\x04\0\0\0\0\0\0\0\0\0\0\0\x04\0\x65\0\0\0",
        b'm' => b"\0\0\0\0\0\0\0\0\0\0\0\0\0\0\0\0",
        b'2' => &SECOND,
        b'3' => &THIRD,
        b'l' => &TOO_LONG,
        b's' => SECTION,
        b'S' => BIG_SECTION,
        b'i' | b'j' => INTERFACE,
        b'n' => IN_NANOS,
        b'e' => ETHERNET,
        b'I' => BIG_INTERFACE,
        b'N' => b"\0\0\0\x01\0\0\0\x14\0\x65\0\0\0\0\0\0\0\0\0\x14",
        b'h' => HEAD,
        b'H' => SIMPLE_HEAD,
        b't' => UP_TUNNEL,
        b'u' => UP,
        b'8' => b"abcdefgh",
        b'r' => TAIL,
        b'R' => SIMPLE_TAIL,
        b'o' => OTHER,
        b'd' => ODD,
        b'L' => b"\0\0\0\x03\0\0\0\x10\0\x04\0\x01\0\0\0\x10",
        b'b' => b"\0\0\0\x03\0\0\0\x0c\0\0\0\x0c",
        b'B' => b"\x06\0\0\0\x20\0\0\0\0\0\0\0\0\0\0\0\0\0\0\0\0\0\0\0\0\0\0\0\x20\0\0\0",
        b'f' => b"\x05\0\0\0\x60\xe3\x16\0",
        b'g' => b"\0\0\0\0\0\0\0\0\0\0\0\0",
        b'F' => b"\x60\xe3\x16\0",
        _ => b"",
    }
}

// How often it stands there: 65,536 interfaces, 20,000 records and blocks of no bytes, and the zeros of a block of 1,500,000 bytes.
fn times_of(letter: u8) -> u32 {
    match letter {
        b'j' => 65_536,
        b'm' | b'B' => 20_000,
        b'g' => 124_999,
        _ => 1,
    }
}

const OTHER_TYPE: [u8; 4] = [5, 0, 0, 0];

const OLD_TYPE: [u8; 4] = [2, 0, 0, 0];

const SIMPLE_TYPE: [u8; 4] = [3, 0, 0, 0];

const ENHANCED_TYPE: [u8; 4] = [6, 0, 0, 0];

const SECTION_TYPE: [u8; 4] = [0x0a, 0x0d, 0x0d, 0x0a];

const INTERFACE_TYPE: [u8; 4] = [1, 0, 0, 0];

/// Plain IP, and a snapshot length of 262,144.
const INTERFACE_FIELDS: [u8; 8] = [101, 0, 0, 0, 0, 0, 4, 0];

/// Little-endian, version 1.0, of any length.
const SECTION_FIELDS: [u8; 16] = [
    0x4d, 0x3c, 0x2b, 0x1a, 1, 0, 0, 0, 255, 255, 255, 255, 255, 255, 255, 255,
];

/// 72 captured bytes at tick 1,000,000 of interface 0, the first datagram in its tunnel.
const ENHANCED: &[u8; 92] =
    b"\0\0\0\0\0\0\0\0\x40\x42\x0f\0\x48\0\0\0\x48\0\0\0\x60\0\0\0\0\x20\x04\x40\x20\x01\x0d\xb8\0\x01\0\0\0\0\0\0\0\0\0\x01\x20\x01\x0d\xb8\0\0\0\0\0\0\0\
     \0\0\0\0\x01\x45\0\0\x20\0\x01\0\0\x40\x11\x14\x90\xcb\0\x71\x01\xc6\x33\x64\x07\x04\xd0\0\x35\0\x0c\0\0test";

/// The same as a simple packet.
const SIMPLE: &[u8; 76] =
    b"\x48\0\0\0\x60\0\0\0\0\x20\x04\x40\x20\x01\x0d\xb8\0\x01\0\0\0\0\0\0\0\0\0\x01\x20\x01\x0d\xb8\0\0\0\0\0\0\0\0\0\0\0\x01\x45\0\0\x20\0\x01\0\0\x40\
     \x11\x14\x90\xcb\0\x71\x01\xc6\x33\x64\x07\x04\xd0\0\x35\0\x0c\0\0test";

const NANOSECONDS: [u8; 8] = [9, 0, 1, 0, 9, 0, 0, 0];

const RESOLUTION_OF_TWO_BYTES: [u8; 8] = [9, 0, 2, 0, 9, 9, 0, 0];

const PAST_THE_END: [u8; 8] = [1, 0, 5, 0, 1, 2, 3, 4];

// A block of this type with these parts of its body, and between them five comments of 65,532 zeros.
fn block(alloc: Global, kind: [u8; 4], front: &[u8], rest: &[u8]) -> Result<Vec<u8>, Fail> {
    let zeros = vec![in alloc; 0; 65_532]?;
    let head = [1, 0, 0xfc, 0xff];
    let body = joined(
        alloc,
        &[
            front, &head, &zeros, &head, &zeros, &head, &zeros, &head, &zeros, &head, &zeros, rest,
        ],
    )?;
    let total = u32::try_from(body.len().saturating_add(12))
        .unwrap_or(0)
        .to_le_bytes();
    joined(alloc, &[&kind, &total, &body, &total])
}

// A long block by a letter: interfaces whose resolution is of nanoseconds, of two bytes or past the end, others, of which one is old, a
// section, and packets. None where the letter is of a short part.
fn long(alloc: Global, letter: u8) -> Result<Option<Vec<u8>>, Fail> {
    let (kind, front, rest): ([u8; 4], &[u8], &[u8]) = match letter {
        b'A' => (INTERFACE_TYPE, &INTERFACE_FIELDS, &NANOSECONDS),
        b'T' => (INTERFACE_TYPE, &INTERFACE_FIELDS, &RESOLUTION_OF_TWO_BYTES),
        b'P' => (INTERFACE_TYPE, &INTERFACE_FIELDS, &PAST_THE_END),
        b'O' => (OTHER_TYPE, b"", b""),
        b'D' => (OLD_TYPE, b"", b""),
        b'Q' => (SECTION_TYPE, &SECTION_FIELDS, b""),
        b'E' => (ENHANCED_TYPE, ENHANCED, b""),
        b'M' => (SIMPLE_TYPE, SIMPLE, b""),
        _ => return Ok(None),
    };
    Ok(Some(block(alloc, kind, front, rest)?))
}

fn push_part(alloc: Global, bytes: &mut Vec<u8>, letter: u8) -> Result<(), Fail> {
    if let Some(block) = long(alloc, letter)? {
        bytes.extend_from_slice(&block)?;
    }
    'times: for _ in 0..times_of(letter) {
        bytes.extend_from_slice(part(letter))?;
    }
    Ok(())
}

/// So many of the first bytes of these parts.
pub(crate) fn first_bytes(alloc: Global, parts: &str, size: usize) -> Result<Vec<u8>, Fail> {
    let mut bytes = parts_of(alloc, parts)?;
    bytes.truncate(size);
    Ok(bytes)
}

/// The bytes of these parts, one behind the other.
pub(crate) fn parts_of(alloc: Global, parts: &str) -> Result<Vec<u8>, Fail> {
    let mut bytes = Vec::new(alloc);
    'parts: for letter in parts.bytes() {
        push_part(alloc, &mut bytes, letter)?;
    }
    Ok(bytes)
}
