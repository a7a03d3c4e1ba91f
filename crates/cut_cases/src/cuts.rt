// Packets that are too long for a link. The numbers follow from RFC 791 and RFC 8200, and the headers with options and their
// checksums were computed by Python alone.
use aftr_base::{Packets, V4, V6};
use fragmenter::{cut4, cut6};
use ip_codec::{Head4, Head6, ip4, ip6, put4, put6};
use std::alloc::Global;
use std::process::Abort;
use std::test::Fail;

// The pieces of a tunnel packet that carries this many bytes.
fn tunnelled(alloc: Global, len: usize, mtu: u16, id: u32) -> Result<Packets, Fail> {
    let head = Head6 {
        word: 0x6000_0000,
        next: 4,
        hop: 64,
        src: V6(1),
        dst: V6(2),
    };
    if len > 65535 {
        return Err("too long".into());
    }
    let body = vec![in alloc; 7_u8; len]?;
    let packet = put6(alloc, &head, &body)?;
    cut_tunnel(alloc, packet.as_slice(), mtu, id)
}

fn cut_tunnel(alloc: Global, packet: &[u8], mtu: u16, id: u32) -> Result<Packets, Fail> {
    let Ok(view) = ip6(packet) else {
        return Err("no packet".into());
    };
    if packet.len() != 40 + view.body.len() || mtu < 1280 {
        return Err("no case".into());
    }
    Ok(cut6(alloc, packet, mtu, id)?)
}

// The pieces of an IPv4 packet with these options that carries this many bytes.
fn passed_on(alloc: Global, options: &[u8], len: usize, mtu: u16) -> Result<Packets, Fail> {
    let head = Head4 {
        tos: 0xb8,
        id: 7,
        reserved: false,
        df: false,
        mf: false,
        offset: 0,
        ttl: 63,
        protocol: 17,
        src: V4(0xc633_6407),
        dst: V4(0xcb00_7101),
    };
    if len > 65000 || options.len() > 40 || options.len() % 4 != 0 {
        return Err("no case".into());
    }
    let payload = vec![in alloc; 7_u8; len]?;
    let packet = put4(alloc, &head, options, &payload)?;
    cut_packet(alloc, packet.as_slice(), mtu)
}

fn cut_packet(alloc: Global, packet: &[u8], mtu: u16) -> Result<Packets, Fail> {
    let Ok(view) = ip4(packet) else {
        return Err("no packet".into());
    };
    if view.is_fragment() || view.df || mtu < 576 {
        return Err("no case".into());
    }
    Ok(cut4(alloc, packet, mtu)?)
}

// Whether a piece has this many bytes, and these from a place on.
fn is_piece(pieces: &Packets, number: usize, len: usize, at: usize, bytes: &[u8]) -> bool {
    if number >= pieces.len() {
        return false;
    }
    let piece = pieces.get(number);
    piece.len() == len && piece.len() >= at && piece[at..].starts_with(bytes)
}

fn expect(rt: &impl Abort, pieces: &Packets, number: usize, len: usize, at: usize, bytes: &[u8]) {
    assert!(rt; is_piece(pieces, number, len, at, bytes));
}

#[test]
fn a_tunnel_packet_of_1500_bytes_stays(rt: HostRuntime) -> Result<(), Fail> {
    let pieces = tunnelled(rt.alloc(), 1460, 1500, 9)?;
    assert_eq!(rt; pieces.len(), 1);
    expect(&rt, &pieces, 0, 1500, 4, &[5, 0xb4, 4, 64]);
    Ok(())
}

#[test]
fn a_tunnel_packet_of_1501_bytes_is_cut(rt: HostRuntime) -> Result<(), Fail> {
    let pieces = tunnelled(rt.alloc(), 1461, 1500, 9)?;
    assert_eq!(rt; pieces.len(), 2);
    expect(&rt, &pieces, 0, 1496, 4, &[5, 0xb0, 44, 64]);
    expect(&rt, &pieces, 0, 1496, 40, &[4, 0, 0, 1, 0, 0, 0, 9]);
    expect(&rt, &pieces, 1, 61, 4, &[0, 21, 44, 64]);
    expect(&rt, &pieces, 1, 61, 40, &[4, 0, 5, 0xa8, 0, 0, 0, 9]);
    Ok(())
}

#[test]
fn the_longest_tunnel_packet_has_54_pieces(rt: HostRuntime) -> Result<(), Fail> {
    let pieces = tunnelled(rt.alloc(), 65535, 1280, 0x8000_0001)?;
    assert_eq!(rt; pieces.len(), 54);
    expect(
        &rt,
        &pieces,
        53,
        287,
        40,
        &[4, 0, 0xff, 0x10, 0x80, 0, 0, 1],
    );
    Ok(())
}

#[test]
fn options_go_into_later_pieces_by_their_flag(rt: HostRuntime) -> Result<(), Fail> {
    let options = [130, 3, 9, 7, 3, 4, 1, 148, 4, 1, 2, 0];
    let pieces = passed_on(rt.alloc(), &options, 1200, 576)?;
    let first = [
        0x48, 0xb8, 2, 0x40, 0, 7, 0x20, 0, 0x3f, 0x11, 0x5a, 0x0e, 0xc6, 0x33, 0x64, 7, 0xcb, 0,
        0x71, 1, 0x82, 3, 9, 7, 3, 4, 1, 0x94, 4, 1, 2, 0,
    ];
    let second = [
        0x47, 0xb8, 2, 0x3c, 0, 7, 0x20, 0x44, 0x3f, 0x11, 0x5e, 0xd9, 0xc6, 0x33, 0x64, 7, 0xcb,
        0, 0x71, 1, 0x82, 3, 9, 0x94, 4, 1, 2, 0,
    ];
    let third = [0x47, 0xb8, 0, 0x8c, 0, 7, 0, 0x88, 0x3f, 0x11, 0x80, 0x45];
    assert_eq!(rt; pieces.len(), 3);
    expect(&rt, &pieces, 0, 576, 0, &first);
    expect(&rt, &pieces, 1, 572, 0, &second);
    expect(&rt, &pieces, 2, 140, 0, &third);
    Ok(())
}

#[test]
fn all_that_fits_beside_a_header_is_the_last_piece(rt: HostRuntime) -> Result<(), Fail> {
    assert_eq!(rt; passed_on(rt.alloc(), &[], 556, 576)?.len(), 1);
    assert_eq!(rt; passed_on(rt.alloc(), &[], 552 + 556, 576)?.len(), 2);
    assert_eq!(rt; passed_on(rt.alloc(), &[], 552 + 557, 576)?.len(), 3);
    Ok(())
}
