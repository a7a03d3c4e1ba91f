// The readers that take most packets by a few tests, and those of bytes that were tested before, beside the plain readers.
use crate::headers::GREATEST;
use case_data::{DOWN, OPTIONS, UP, UP_TUNNEL};
use ip_codec::{
    Ip4View, Ip6View, ip4, ip6, is_ip6, is_plain4, known_ip6, known_packet, plain_packet,
};
use std::alloc::Global;
use std::test::Fail;

// Time exceeded (RFC 792) from outside, that quotes a packet of a subscriber.
const ERROR: &[u8; 56] =
    b"\x45\0\0\x38\0\x07\0\0\x40\x01\x14\x82\xc6\x33\x64\x07\xcb\0\x71\x01\x0b\0\xef\xee\0\0\0\0\x45\0\0\x20\0\x01\0\0\x01\x11\x53\x90\xcb\0\x71\x01\xc6\x33\
     \x64\x07\x04\xd0\0\x35\0\x0c\0\0";

fn same4(one: &Ip4View<'_>, other: &Ip4View<'_>) -> bool {
    (one.tos, one.id, one.reserved, one.df, one.mf, one.offset)
        == (
            other.tos,
            other.id,
            other.reserved,
            other.df,
            other.mf,
            other.offset,
        )
        && (one.ttl, one.protocol, one.src, one.dst)
            == (other.ttl, other.protocol, other.src, other.dst)
        && one.header == other.header
        && one.payload == other.payload
}

fn same6(one: &Ip6View<'_>, other: &Ip6View<'_>) -> bool {
    (one.word, one.next, one.hop, one.src, one.dst)
        == (other.word, other.next, other.hop, other.src, other.dst)
        && one.body == other.body
}

// All readers tell the same of these bytes.
fn agree4(bytes: &[u8]) -> bool {
    let is_plain = is_plain4(bytes);
    let Ok(packet) = ip4(bytes) else {
        return !is_plain;
    };
    let known = same4(&known_packet(bytes).view, &packet);
    let plain = !is_plain || same4(&plain_packet(bytes).view, &packet);
    known && plain && is_plain == (packet.header.len() == 20 && !packet.is_fragment())
}

fn agree6(bytes: &[u8]) -> bool {
    let Ok(packet) = ip6(bytes) else {
        return !is_ip6(bytes);
    };
    is_ip6(bytes) && same6(&known_ip6(bytes), &packet)
}

// By the version of the packet that the bytes were.
fn agree(version: u8, bytes: &[u8]) -> bool {
    if version == 6 {
        agree6(bytes)
    } else {
        agree4(bytes)
    }
}

// So they do of each front of a packet, and with each byte changed in turn: one bit of it, each, and to the ends of its range.
fn agree_about(alloc: Global, version: u8, packet: &[u8]) -> Result<bool, Fail> {
    let mut bytes = Vec::from_slice(alloc, packet)?;
    let mut right = agree(version, packet);
    for place in 0..packet.len() {
        right &= agree(version, &packet[..place]);
        for bit in 0..8u32 {
            bytes[place] = packet[place] ^ (1u8 << bit);
            right &= agree(version, &bytes);
        }
        for value in [0, 255] {
            bytes[place] = value;
            right &= agree(version, &bytes);
        }
        bytes[place] = packet[place];
    }
    Ok(right)
}

#[test]
fn fast_readers_of_ip4_read_as_the_plain_one(rt: HostRuntime) -> Result<(), Fail> {
    let packets: [&[u8]; 5] = [UP, DOWN, OPTIONS, GREATEST, ERROR];
    for packet in packets {
        assert!(rt; agree_about(rt.alloc(), 4, packet)?, "{}", packet.len());
    }
    assert!(rt; is_plain4(UP) && is_plain4(ERROR) && !is_plain4(OPTIONS));
    Ok(())
}

#[test]
fn fast_readers_of_ip6_read_as_the_plain_one(rt: HostRuntime) -> Result<(), Fail> {
    let mut packet = Vec::from_slice(rt.alloc(), UP_TUNNEL)?;
    packet.extend_from_slice(UP)?;
    assert!(rt; agree_about(rt.alloc(), 6, &packet)?);
    assert!(rt; is_ip6(&packet));
    Ok(())
}
