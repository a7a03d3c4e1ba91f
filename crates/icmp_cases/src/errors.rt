// The router's errors, and which packets get one.
ghost use Rattle.std.specs.Prelude.{◌≡◌, IfOk, vec_len};

use aftr_base::{V4, V6};
use icmp_errors::{
    error_len, gets_answer, gets_answer6, host_unreachable, policy_len, source_policy6,
    time_exceeded, too_big,
};
use ip_codec::{Ip4View, Outer, ip4};
use std::test::Fail;

pub(crate) const OWN: V4 = V4(0xc000_0201);

pub(crate) const AFTR: V6 = V6(0x2001_0db8_0000_0000_0000_0000_0000_0001);

const SUBSCRIBER: V6 = V6(0x2001_0db8_0001_0000_0000_0000_0000_0001);

const ANOTHER: V6 = V6(0x2001_0db8_0001_0000_0000_0000_0000_0002);

const UP: &[u8; 32] =
    b"\x45\0\0\x20\0\x01\0\0\x40\x11\x14\x90\xcb\0\x71\x01\xc6\x33\x64\x07\x04\xd0\0\x35\0\x0c\0\0test";

const POLICY: &[u8; 120] =
    b"\x60\0\0\0\0\x50\x3a\x40\x20\x01\x0d\xb8\0\0\0\0\0\0\0\0\0\0\0\x01\x20\x01\x0d\xb8\0\x01\0\0\0\0\0\0\0\0\0\x02\x01\x05\xf6\x38\0\0\0\0\x60\0\0\0\0\x20\
     \x04\x40\x20\x01\x0d\xb8\0\x01\0\0\0\0\0\0\0\0\0\x02\x20\x01\x0d\xb8\0\0\0\0\0\0\0\0\0\0\0\x01\x45\0\0\x20\0\x01\0\0\x40\x11\x14\x90\xcb\0\x71\x01\xc6\x33\
     \x64\x07\x04\xd0\0\x35\0\x0c\0\0test";

pub(crate) const LAST_HOP: &[u8; 32] =
    b"\x45\0\0\x20\0\x01\0\0\x01\x11\x53\x90\xcb\0\x71\x01\xc6\x33\x64\x07\x04\xd0\0\x35\0\x0c\0\0test";

pub(crate) const EXCEEDED: &[u8; 60] =
    b"\x45\0\0\x3c\0\0\x40\0\x40\x01\x3c\xbe\xc0\0\x02\x01\xcb\0\x71\x01\x0b\0\x08\x15\0\0\0\0\x45\0\0\x20\0\x01\0\0\x01\x11\x53\x90\xcb\0\x71\x01\xc6\x33\x64\
     \x07\x04\xd0\0\x35\0\x0c\0\0test";

const HAIRPIN: &[u8; 32] =
    b"\x45\0\0\x20\0\x01\0\0\x40\x11\x02\xc9\xcb\0\x71\x01\xcb\0\x71\x01\x04\xd0\x04\xd8\0\x0c\0\0test";

const HAIRPIN_UNREACHABLE: &[u8; 60] =
    b"\x45\0\0\x3c\0\0\x40\0\x40\x01\x3c\xbe\xc0\0\x02\x01\xcb\0\x71\x01\x03\x01\x0b\x71\0\0\0\0\x45\0\0\x20\0\x01\0\0\x40\x11\x02\xc9\xcb\0\x71\x01\xcb\0\x71\
     \x01\x04\xd0\x04\xd8\0\x0c\0\0test";

const LONG_HEAD: &[u8; 28] =
    b"\x45\0\x05\xb5\0\x07\x40\0\x40\x11\xce\xf4\xc6\x33\x64\x07\xcb\0\x71\x01\0\x35\x04\xd0\x05\xa1\0\0";

const TOO_BIG_HEAD: &[u8; 56] =
    b"\x45\0\x02\x40\0\0\x40\0\x40\x01\x4c\x81\xc0\0\x02\x01\xc6\x33\x64\x07\x03\x04\xec\xa1\0\0\x05\xb4\x45\0\x05\xb5\0\x07\x40\0\x40\x11\xce\xf4\xc6\x33\x64\
     \x07\xcb\0\x71\x01\0\x35\x04\xd0\x05\xa1\0\0";

const LONG_POLICY_HEAD: &[u8; 116] =
    b"\x60\0\0\0\x04\xd8\x3a\xff\x20\x01\x0d\xb8\0\0\0\0\0\0\0\0\0\0\0\x01\x20\x01\x0d\xb8\0\x01\0\0\0\0\0\0\0\0\0\x01\x01\x05\xc3\x19\0\0\0\0\x6b\x80\0\0\x05\
     \xb5\x04\x09\x20\x01\x0d\xb8\0\x01\0\0\0\0\0\0\0\0\0\x01\x20\x01\x0d\xb8\0\0\0\0\0\0\0\0\0\0\0\x01\x45\0\x05\xb5\0\x07\x40\0\x40\x11\xce\xf4\xc6\x33\x64\
     \x07\xcb\0\x71\x01\0\x35\x04\xd0\x05\xa1\0\0";

#[test]
fn errors_quote_whole_packets(rt: HostRuntime) -> Result<(), Fail> {
    let Ok(last_hop) = ip4(LAST_HOP) else {
        return Err("a packet".into());
    };
    let exceeded = time_exceeded(rt.alloc(), OWN, &last_hop)?;
    assert_eq!(rt; exceeded.as_slice(), EXCEEDED.as_slice());
    let Ok(hairpin) = ip4(HAIRPIN) else {
        return Err("a packet".into());
    };
    let unreachable = host_unreachable(rt.alloc(), OWN, &hairpin)?;
    assert_eq!(rt; unreachable.as_slice(), HAIRPIN_UNREACHABLE.as_slice());
    Ok(())
}

#[test]
fn policy_errors_quote_the_tunnel_packet(rt: HostRuntime) -> Result<(), Fail> {
    let outer = Outer {
        word: 0x6000_0000,
        hop: 64,
        src: ANOTHER,
        dst: AFTR,
    };
    let policy = source_policy6(rt.alloc(), AFTR, ANOTHER, 64, &outer, UP)?;
    assert_eq!(rt; policy.as_slice(), POLICY.as_slice());
    Ok(())
}

// A packet of 1,461 bytes with DF, all zeros behind its UDP header.
fn long_packet(rt: &HostRuntime) -> Result<Vec<u8>, Fail>
    ensures { IfOk result (λ list. vec_len list ≡ 1461) }
{
    let mut list = vec![in rt.alloc(); 0; 1461]?;
    list[..28].copy_from_slice(LONG_HEAD);
    Ok(list)
}

// Whether the bytes begin with these and go on with zeros.
fn has_zeros_behind(bytes: &[u8], head: &[u8]) -> bool {
    match bytes.strip_prefix(head) {
        Some(rest) => rest.iter().all(|byte| *byte == 0),
        None => false,
    }
}

#[test]
fn errors_about_long_packets_are_cut(rt: HostRuntime) -> Result<(), Fail> {
    let list = long_packet(&rt)?;
    let Ok(long) = ip4(&list) else {
        return Err("a packet".into());
    };
    let big = too_big(rt.alloc(), OWN, 1460, &long)?;
    assert_eq!(rt; big.as_slice().len(), 576);
    assert!(rt; has_zeros_behind(big.as_slice(), TOO_BIG_HEAD));
    Ok(())
}

#[test]
fn policy_errors_about_long_packets_are_cut(rt: HostRuntime) -> Result<(), Fail> {
    let list = long_packet(&rt)?;
    let outer = Outer {
        word: 0x6b80_0000,
        hop: 9,
        src: SUBSCRIBER,
        dst: AFTR,
    };
    let policy = source_policy6(rt.alloc(), AFTR, SUBSCRIBER, 255, &outer, &list)?;
    assert_eq!(rt; policy.as_slice().len(), 1280);
    assert!(rt; has_zeros_behind(policy.as_slice(), LONG_POLICY_HEAD));
    Ok(())
}

#[test]
fn lengths_of_errors_are_known_before(rt: HostRuntime) {
    assert_eq!(rt;
        (error_len(32), error_len(548), error_len(1461)),
        (60, 576, 576)
    );
    assert_eq!(rt;
        (policy_len(32), policy_len(1192), policy_len(1461)),
        (120, 1280, 1280)
    );
}

fn answered(protocol: u8, offset: u16, src: u32, dst: u32, payload: &[u8]) -> bool {
    gets_answer(&Ip4View {
        tos: 0,
        id: 0,
        reserved: false,
        df: false,
        mf: false,
        offset,
        ttl: 1,
        protocol,
        src: V4(src),
        dst: V4(dst),
        header: &[],
        payload,
    })
}

const HOST: u32 = 0xcb00_7101;

const SERVER: u32 = 0xc633_6407;

#[test]
fn echoes_and_other_packets_are_answered(rt: HostRuntime) {
    let mut count = 0;
    count += u32::from(answered(17, 0, HOST, SERVER, &[]));
    count += u32::from(answered(1, 0, HOST, SERVER, &[8]));
    count += u32::from(answered(1, 0, HOST, SERVER, &[0]));
    count += u32::from(answered(6, 0, 0xdfff_ffff, 0xdfff_ffff, &[3]));
    count += u32::from(answered(6, 0, 0x0100_0000, 0xf000_0000, &[3]));
    assert_eq!(rt; count, 5);
}

#[test]
fn these_packets_get_no_answer(rt: HostRuntime) {
    let mut count = 0;
    count += u32::from(answered(17, 1, HOST, SERVER, &[]));
    count += u32::from(answered(1, 0, HOST, SERVER, &[]));
    count += u32::from(answered(1, 0, HOST, SERVER, &[3]));
    count += u32::from(answered(1, 0, HOST, SERVER, &[13]));
    count += u32::from(answered(17, 0, HOST, 0xe000_0000, &[]));
    count += u32::from(answered(17, 0, HOST, 0xefff_ffff, &[]));
    count += u32::from(answered(17, 0, HOST, 0xffff_ffff, &[]));
    assert_eq!(rt; count, 0);
}

#[test]
fn these_sources_get_no_answer(rt: HostRuntime) {
    let sources = [
        0,
        0x00ff_ffff,
        0x7f00_0001,
        0x7fff_ffff,
        0xe000_0001,
        0xf000_0001,
        0xffff_ffff,
    ];
    for src in sources {
        assert!(rt; !answered(17, 0, src, SERVER, &[]), "{src:x}");
    }
    assert!(rt; gets_answer6(SUBSCRIBER));
    assert!(rt; gets_answer6(V6(1)));
    assert!(rt; !gets_answer6(V6(0)));
    assert!(rt; !gets_answer6(V6(0xff02_0000_0000_0000_0000_0000_0000_0001)));
}
