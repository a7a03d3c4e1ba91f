// The callers that the READMEs of ipv6_chain and fragmenter show, and what they answer.
ghost use Rattle.std.specs.Prelude.{◌≤◌, length};

use aftr_base::{OutOfMemory, V6};
use fragmenter::Cuts6;
use ip_codec::{Head6, Ip6View, ip6, put6};
use ipv6_chain::{ChainBad, Start, walk};
use std::test::Fail;

/// The upper-layer protocol of an IPv6 packet and its bytes; none where the packet is a fragment.
fn upper_layer<'a>(packet: &Ip6View<'a>) -> Result<Option<(u8, &'a [u8])>, ChainBad> {
    let chain = walk(packet.next, packet.body, Start::Packet)?; // Short, Routing, Order
    if chain.fragment.is_some() {
        return Ok(None);
    }
    Ok(Some((chain.next, &packet.body[chain.at..])))
}

/// Appends the fragments of a tunnel packet that does not fit a link, each behind its length.
fn push_fragments(
    out: &mut Vec<u8>,
    packet: &Ip6View<'_>,
    mtu: u16,
    id: u32,
) -> Result<(), OutOfMemory>
    requires least_mtu { 1280 ≤ mtu }
    requires most { length packet.now.body.now ≤ 65535 }
{
    let mut cuts = Cuts6::of(packet, &[], mtu, id);
    'fragments: while let Some(len) = cuts.next_len() {
        out.extend_from_slice(&(len as u16).to_be_bytes())?;
        cuts.push_next(out)?;
    }
    Ok(())
}

// A packet from 1 to 2 with this body.
const HEAD: Head6 = Head6 {
    word: 0x6000_0000,
    next: 4,
    hop: 64,
    src: V6(1),
    dst: V6(2),
};

#[test]
fn extension_headers_are_passed(rt: HostRuntime) -> Result<(), Fail> {
    let options = [4, 0, 1, 4, 0, 0, 0, 0, 0x45];
    let packet = put6(rt.alloc(), &Head6 { next: 60, ..HEAD }, &options)?;
    let Ok(view) = ip6(packet.as_slice()) else {
        return Err("a packet".into());
    };
    assert_eq!(rt; upper_layer(&view), Ok(Some((4, [0x45].as_slice()))));
    let fragment = [4, 0, 0x05, 0xa9, 1, 2, 3, 4, 0x45];
    let packet = put6(rt.alloc(), &Head6 { next: 44, ..HEAD }, &fragment)?;
    let Ok(view) = ip6(packet.as_slice()) else {
        return Err("a packet".into());
    };
    assert_eq!(rt; upper_layer(&view), Ok(None));
    let packet = put6(rt.alloc(), &Head6 { next: 60, ..HEAD }, &[4, 0])?;
    let Ok(view) = ip6(packet.as_slice()) else {
        return Err("a packet".into());
    };
    assert_eq!(rt; upper_layer(&view), Err(ChainBad::Short));
    Ok(())
}

// Whether the bytes have this part at a place.
fn has(bytes: &[u8], at: usize, part: &[u8]) -> bool {
    match bytes.get(at..) {
        Some(rest) => rest.starts_with(part),
        None => false,
    }
}

// 1,461 bytes on a link that takes 1,500: 1,448 of them, and 13.
#[test]
fn fragments_stand_behind_their_lengths(rt: HostRuntime) -> Result<(), Fail> {
    let alloc = rt.alloc();
    let body = vec![in alloc; 7_u8; 1461]?;
    let packet = put6(alloc, &HEAD, &body)?;
    let Ok(view) = ip6(packet.as_slice()) else {
        return Err("a packet".into());
    };
    let mut out = Vec::new(alloc);
    push_fragments(&mut out, &view, 1500, 9)?;
    assert_eq!(rt; out.len(), 1561);
    assert!(rt; has(&out, 0, &[5, 0xd8]) && has(&out, 6, &[5, 0xb0, 44, 64]));
    assert!(rt; has(&out, 1498, &[0, 61]) && has(&out, 1504, &[0, 21, 44, 64]));
    Ok(())
}
