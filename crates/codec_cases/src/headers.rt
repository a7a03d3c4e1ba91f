// Packets from outside: hand-made ones of a softwire, and others whose fields an independent packet builder gave.
ghost use Rattle.std.specs.Prelude.{◌≡◌};

use crate::blocks::joined;
use crate::captures::is_both;
use aftr_base::V4;
use case_data::{AFTR, DOWN, LAST_HOP, OPTIONS, SERVER, SHARED, SUBSCRIBER, UP, UP_TUNNEL};
use ip_codec::{
    Head4, Head6, Ip4Bad, Ip6Bad, ReadPacket, Rule, head4_bytes, head6_bytes, ip4, ip6, push_head4,
    push_head6, put4, put6, read_packet, sum_of_both,
};
use std::alloc::Global;
use std::test::Fail;

// All bits of flags and offset, forty bytes of options, no payload.
pub(crate) const GREATEST: &[u8; 60] =
    b"\x4f\xff\0\x3c\xff\xff\xff\xff\xff\xff\x9b\xaf\xff\xff\xff\xff\0\0\0\x01\x01\x01\x01\x01\x01\x01\x01\x01\x01\x01\x01\x01\x01\x01\x01\x01\x01\x01\x01\x01\
     \x01\x01\x01\x01\x01\x01\x01\x01\x01\x01\x01\x01\x01\x01\x01\x01\x01\x01\x01\x01";

fn udp(id: u16, ttl: u8, src: V4, dst: V4) -> Head4
    ensures { result.offset ≡ 0 }
{
    Head4 {
        tos: 0,
        id,
        reserved: false,
        df: false,
        mf: false,
        offset: 0,
        ttl,
        protocol: 17,
        src,
        dst,
    }
}

const FRAGMENT: Head4 = Head4 {
    tos: 0xb8,
    id: 0xbeef,
    reserved: true,
    df: false,
    mf: true,
    offset: 185,
    ttl: 7,
    protocol: 6,
    src: V4(0x0a00_0001),
    dst: V4(0xffff_fffe),
};

const GREATEST_HEAD: Head4 = Head4 {
    tos: 255,
    id: 65535,
    reserved: true,
    df: true,
    mf: true,
    offset: 8191,
    ttl: 255,
    protocol: 255,
    src: V4(0xffff_ffff),
    dst: V4(1),
};

// Whether a packet has this header, of so many bytes, and is what is written of its parts.
fn is_read_and_written(
    alloc: Global,
    bytes: &[u8],
    want: Head4,
    header_len: usize,
) -> Result<bool, Fail> {
    let Ok(view) = ip4(bytes) else {
        return Ok(false);
    };
    let head = Head4 {
        tos: view.tos,
        id: view.id,
        reserved: view.reserved,
        df: view.df,
        mf: view.mf,
        offset: view.offset,
        ttl: view.ttl,
        protocol: view.protocol,
        src: view.src,
        dst: view.dst,
    };
    let written = put4(alloc, &head, &view.header[20..], view.payload)?;
    Ok(head == want && view.header.len() == header_len && written.as_slice() == bytes)
}

#[test]
fn ip4_packets_are_read_and_written(rt: HostRuntime) -> Result<(), Fail> {
    let cases: [(&[u8], Head4, usize); 5] = [
        (UP, udp(1, 64, SHARED, SERVER), 20),
        (DOWN, udp(2, 64, SERVER, SHARED), 20),
        (LAST_HOP, udp(1, 1, SHARED, SERVER), 20),
        (OPTIONS, FRAGMENT, 28),
        (GREATEST, GREATEST_HEAD, 60),
    ];
    for (bytes, want, header_len) in cases {
        assert!(rt;
            is_read_and_written(rt.alloc(), bytes, want, header_len)?,
            "id {}, ttl {}",
            want.id,
            want.ttl
        );
    }
    Ok(())
}

// Why a packet is refused of which one byte is changed.
fn refusal_with(packet: &[u8], place: usize, value: u8) -> Option<Ip4Bad> {
    let mut bytes = [0; 32];
    let count = packet.len().min(32);
    bytes[..count].copy_from_slice(&packet[..count]);
    if place < count {
        bytes[place] = value;
    }
    ip4(&bytes[..count]).err()
}

// How many bytes of the first datagram are not told to be too few for a header.
fn first_not_short() -> Option<usize> {
    for have in 0..20 {
        if ip4(&UP[..have]).err() != Some(Ip4Bad::Short { have }) {
            return Some(have);
        }
    }
    None
}

#[test]
fn faulty_ip4_packets_are_refused(rt: HostRuntime) {
    assert_eq!(rt; first_not_short(), None);
    let cases: [(&[u8], usize, u8, Ip4Bad); 10] = [
        (&UP[..20], 0, 0x45, Ip4Bad::TotalLength),
        (UP, 0, 0x55, Ip4Bad::Version),
        (UP, 0, 0x44, Ip4Bad::HeaderLength),
        (UP, 0, 0x49, Ip4Bad::HeaderLength),
        (UP, 3, 19, Ip4Bad::TotalLength),
        (UP, 3, 33, Ip4Bad::TotalLength),
        (UP, 3, 31, Ip4Bad::Checksum),
        (UP, 11, 0x91, Ip4Bad::Checksum),
        (UP, 19, 8, Ip4Bad::Checksum),
        (OPTIONS, 27, 1, Ip4Bad::Checksum),
    ];
    for (packet, place, value, refusal) in cases {
        assert!(rt;
            refusal_with(packet, place, value) == Some(refusal),
            "{value} at {place}"
        );
    }
}

// How many bytes are kept of those that are no packet, and why they are none.
fn unread(bytes: &[u8]) -> Option<(usize, Ip4Bad)> {
    match read_packet(bytes) {
        Ok(_) => None,
        Err(unread) => Some((unread.bytes.len(), unread.why)),
    }
}

// Whether the bytes are the first datagram, read with what stands behind it left out.
fn is_datagram(bytes: &[u8]) -> bool {
    let Ok(ReadPacket { view, .. }) = read_packet(bytes) else {
        return false;
    };
    (view.src, view.dst) == (SHARED, SERVER)
        && view.header.len() == 20
        && view.total_len() == UP.len()
        && is_both(UP, view.header, view.payload)
}

#[test]
fn a_packet_is_read_once(rt: HostRuntime) {
    let padded =
        b"\x45\0\0\x20\0\x01\0\0\x40\x11\x14\x90\xcb\0\x71\x01\xc6\x33\x64\x07\x04\xd0\0\x35\0\x0c\0\0test\0\0\0\0";
    let faulty =
        b"\x45\0\0\x20\0\x01\0\0\x40\x11\x14\x91\xcb\0\x71\x01\xc6\x33\x64\x07\x04\xd0\0\x35\0\x0c\0\0test\0\0\0\0";
    assert_eq!(rt; [is_datagram(UP), is_datagram(padded)], [true; 2]);
    let cut = Some((31, Ip4Bad::TotalLength));
    let wrong = Some((36, Ip4Bad::Checksum));
    assert_eq!(rt;
        [unread(UP), unread(&UP[..31]), unread(faulty)],
        [None, cut, wrong]
    );
}

// The header of the first datagram's tunnel packet.
const TUNNEL: Head6 = Head6 {
    word: 0x6000_0000,
    next: 4,
    hop: 64,
    src: SUBSCRIBER,
    dst: AFTR,
};

// Whether the bytes read as that packet.
fn is_tunnel_packet(bytes: &[u8]) -> bool {
    let Ok(view) = ip6(bytes) else {
        return false;
    };
    (view.word, view.next, view.hop) == (TUNNEL.word, TUNNEL.next, TUNNEL.hop)
        && (view.src, view.dst) == (TUNNEL.src, TUNNEL.dst)
        && view.body == UP.as_slice()
}

#[test]
fn ip6_packets_are_read_and_written(rt: HostRuntime) -> Result<(), Fail> {
    let packet = put6(rt.alloc(), &TUNNEL, UP)?;
    let bytes = packet.as_slice();
    assert!(rt; is_both(bytes, UP_TUNNEL, UP) && is_tunnel_packet(bytes));
    let cases: [(&[u8], Ip6Bad); 4] = [
        (&bytes[..39], Ip6Bad::Short { have: 39 }),
        (&bytes[..71], Ip6Bad::Payload),
        (UP, Ip6Bad::Short { have: 32 }),
        (
            b"\x46\0\0\0\0\x20\x04\x40\x20\x01\x0d\xb8\0\x01\0\0\0\0\0\0\0\0\0\x01\x20\x01\x0d\xb8\0\0\0\0\0\0\0\0\0\0\0\x01",
            Ip6Bad::Version,
        ),
    ];
    for (faulty, refusal) in cases {
        assert_eq!(rt; ip6(faulty).err(), Some(refusal));
    }
    Ok(())
}

// A byte, and the headers of the tunnel packet and of the datagram behind it.
fn pushed(alloc: Global) -> Result<Vec<u8>, Fail> {
    let mut out = Vec::new(alloc);
    out.push(7)?;
    push_head6(&mut out, &TUNNEL, 32)?;
    push_head4(&mut out, &udp(1, 64, SHARED, SERVER), &[], 12)?;
    Ok(out)
}

#[test]
fn headers_are_put_behind_what_is_there(rt: HostRuntime) -> Result<(), Fail> {
    let (header, _) = UP.split_at(20);
    let (front, addresses) = header.split_at(8);
    let written = pushed(rt.alloc())? == joined(rt.alloc(), &[b"\x07", UP_TUNNEL, header])?;
    let built = head6_bytes(TUNNEL, 32) == *UP_TUNNEL;
    let built4 = head4_bytes(udp(1, 64, SHARED, SERVER), 12).as_slice() == header;
    assert_eq!(rt; [written, built, built4], [true; 3]);
    assert_eq!(rt; sum_of_both(front, addresses), 0);
    Ok(())
}

fn has_name(alloc: Global, rule: Rule, name: &str) -> Result<bool, Fail> {
    Ok(format!(in alloc; "{rule}")?.as_str() == name)
}

#[test]
fn rules_have_names(rt: HostRuntime) -> Result<(), Fail> {
    let cases = [
        (Rule::FrameShort, "frame-short"),
        (Rule::Ip4Checksum, "ip4-checksum"),
        (Rule::NotOurs, "not-ours"),
        (Rule::NoBinding, "no-binding"),
        (Rule::Ttl, "ttl"),
        (Rule::HairpinNoBinding, "hairpin-no-binding"),
        (Rule::Relayed, "relayed"),
        (Rule::RelayBad, "relay-bad"),
        (Rule::RelayNoBinding, "relay-no-binding"),
        (Rule::RelayMute, "relay-mute"),
    ];
    for (rule, name) in cases {
        assert!(rt; has_name(rt.alloc(), rule, name)?, "{name}");
    }
    Ok(())
}
