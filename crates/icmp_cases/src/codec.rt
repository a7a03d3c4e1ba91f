// Messages read and written.
use aftr_base::V6;
use icmp_codec::{
    IcmpBad, IcmpHead, icmp4, icmp6, is_echo, push_icmp4, push_icmp6, put_icmp4, put_icmp6,
};
use std::test::Fail;

// An echo with the identifier 1232; the same with a wrong checksum.
pub(crate) const ECHO: &[u8; 12] = b"\x08\0\x0b\x55\x04\xd0\0\x01test";

const WRONG_ECHO: &[u8; 12] = b"\x08\0\x5e\x55\x04\xd0\0\x01test";

// A port unreachable that quotes a header with four bytes of options and 8 bytes of UDP from port 1232.
pub(crate) const UNREACHABLE: &[u8; 40] =
    b"\x03\x03\xf7\xeb\0\0\0\0\x46\0\0\x24\0\x01\0\0\x40\x11\x11\x8b\xcb\0\x71\x01\xc6\x33\x64\x07\x01\x01\x01\0\x04\xd0\0\x35\0\x0c\0\0";

// What it quotes.
const QUOTED: &[u8; 32] =
    b"\x46\0\0\x24\0\x01\0\0\x40\x11\x11\x8b\xcb\0\x71\x01\xc6\x33\x64\x07\x01\x01\x01\0\x04\xd0\0\x35\0\x0c\0\0";

// The same with a wrong checksum; with a wrong sum of the quoted header; of another version; of a length below 20; cut in
// its options; a quote of 19 bytes; a timestamp.
const WRONG_SUM: &[u8; 40] =
    b"\x03\x03\xf6\xeb\0\0\0\0\x46\0\0\x24\0\x01\0\0\x40\x11\x11\x8b\xcb\0\x71\x01\xc6\x33\x64\x07\x01\x01\x01\0\x04\xd0\0\x35\0\x0c\0\0";

const WRONG_QUOTE: &[u8; 40] =
    b"\x03\x03\xf8\xeb\0\0\0\0\x46\0\0\x24\0\x01\0\0\x40\x11\x10\x8b\xcb\0\x71\x01\xc6\x33\x64\x07\x01\x01\x01\0\x04\xd0\0\x35\0\x0c\0\0";

const VERSION_SIX: &[u8; 40] =
    b"\x03\x03\xf5\xea\0\0\0\0\x65\0\0\x24\0\x01\0\0\x40\x11\xf4\x8b\xcb\0\x71\x01\xc6\x33\x64\x07\x01\x01\x01\0\x04\xd0\0\x35\0\x0c\0\0";

const SHORT_LENGTH: &[u8; 40] =
    b"\x03\x03\xcb\xaf\0\0\0\0\x44\0\0\x24\0\x01\0\0\x40\x11\x3f\xc7\xcb\0\x71\x01\xc6\x33\x64\x07\x01\x01\x01\0\x04\xd0\0\x35\0\x0c\0\0";

const CUT_OPTIONS: &[u8; 31] =
    b"\x03\x03\xfc\xfc\0\0\0\0\x46\0\0\x24\0\x01\0\0\x40\x11\x11\x8b\xcb\0\x71\x01\xc6\x33\x64\x07\x01\x01\x01";

const CUT_QUOTE: &[u8; 27] =
    b"\x03\x03\xfd\x03\0\0\0\0\x45\0\0\x24\0\0\0\0\x40\x11\x14\x8d\xcb\0\x71\x01\xc6\x33\x64";

const TIMESTAMP: &[u8; 20] = b"\x0d\0\xee\x2e\x04\xd0\0\x01\0\0\0\0\0\0\0\0\0\0\0\0";

// A time exceeded that quotes a header and nothing behind it.
const HEADER_ALONE: &[u8; 28] =
    b"\x0b\0\xf4\xff\0\0\0\0\x45\0\0\x24\0\0\0\0\x40\x11\x14\x8d\xcb\0\x71\x01\xc6\x33\x64\x07";

// Of a message that is read: type, code, identifier, word, and the protocol and payload of what it quotes.
type Told = (u8, u8, u16, u32, u8, usize);

fn told(bytes: &[u8]) -> Result<Told, IcmpBad> {
    let view = match icmp4(bytes) {
        Ok(view) => view,
        Err(refusal) => return Err(refusal),
    };
    let (protocol, payload) = match view.embedded {
        Some(quoted) => (quoted.protocol, quoted.payload.len()),
        None => (0, 0),
    };
    Ok((view.kind, view.code, view.id, view.word, protocol, payload))
}

#[test]
fn echoes_are_told_by_their_type(rt: HostRuntime) {
    assert!(rt; is_echo(0) && is_echo(8));
    assert!(rt; !is_echo(3) && !is_echo(13));
}

#[test]
fn messages_are_read(rt: HostRuntime) {
    assert_eq!(rt; told(ECHO), Ok((8, 0, 1232, 0x04d0_0001, 0, 0)));
    assert_eq!(rt; told(WRONG_ECHO), Ok((8, 0, 1232, 0x04d0_0001, 0, 0)));
    assert_eq!(rt; told(UNREACHABLE), Ok((3, 3, 0, 0, 17, 8)));
    assert_eq!(rt; told(HEADER_ALONE), Ok((11, 0, 0, 0, 17, 0)));
}

#[test]
fn faulty_messages_are_refused(rt: HostRuntime) {
    let cases: [(&[u8], IcmpBad); 8] = [
        (&ECHO[..7], IcmpBad::Short),
        (WRONG_SUM, IcmpBad::Checksum),
        (WRONG_QUOTE, IcmpBad::Embedded),
        (VERSION_SIX, IcmpBad::Embedded),
        (SHORT_LENGTH, IcmpBad::Embedded),
        (CUT_OPTIONS, IcmpBad::Embedded),
        (CUT_QUOTE, IcmpBad::Embedded),
        (TIMESTAMP, IcmpBad::Embedded),
    ];
    for (bytes, refusal) in cases {
        assert_eq!(rt; told(bytes), Err(refusal), "of {bytes:?}");
    }
}

#[test]
fn messages_are_written(rt: HostRuntime) -> Result<(), Fail> {
    let echo = put_icmp4(rt.alloc(), 8, 0, 0x04d0_0001, b"test")?;
    assert_eq!(rt; echo.as_slice(), ECHO.as_slice());
    let mut list = Vec::new(rt.alloc());
    list.push(7)?;
    let head = IcmpHead {
        kind: 3,
        code: 3,
        word: 0,
    };
    let (quoted, ports) = QUOTED.split_at(24);
    push_icmp4(&mut list, head, quoted, ports)?;
    assert_eq!(rt; list.len(), 41);
    assert_eq!(rt; &list[1..], UNREACHABLE.as_slice());
    Ok(())
}

// From 2001:db8:9::1 to 2001:db8::1: packet too big, with 1,400 as the size that would fit, and the word 'test'.
const TOO_BIG: &[u8; 12] = b"\x02\0\xb4\xea\0\0\x05\x78test";

const HOST: V6 = V6(0x2001_0db8_0009_0000_0000_0000_0000_0001);

const ROUTER: V6 = V6(0x2001_0db8_0000_0000_0000_0000_0000_0001);

const OTHER: V6 = V6(0x2001_0db8_0000_0000_0000_0000_0000_0002);

fn told6(src: V6, dst: V6, bytes: &[u8]) -> Result<(u8, u8, u32, usize), IcmpBad> {
    match icmp6(src, dst, bytes) {
        Ok(view) => Ok((view.kind, view.code, view.word, view.rest.len())),
        Err(refusal) => Err(refusal),
    }
}

#[test]
fn messages_of_version_six(rt: HostRuntime) -> Result<(), Fail> {
    assert_eq!(rt; told6(HOST, ROUTER, TOO_BIG), Ok((2, 0, 1400, 4)));
    assert_eq!(rt; told6(HOST, OTHER, TOO_BIG), Err(IcmpBad::Checksum));
    assert_eq!(rt; told6(HOST, ROUTER, &TOO_BIG[..11]), Err(IcmpBad::Checksum));
    assert_eq!(rt; told6(HOST, ROUTER, &TOO_BIG[..7]), Err(IcmpBad::Short));
    let message = put_icmp6(rt.alloc(), HOST, ROUTER, 2, 0, 1400, b"test")?;
    assert_eq!(rt; message.as_slice(), TOO_BIG.as_slice());
    let mut list = Vec::new(rt.alloc());
    list.push(7)?;
    let head = IcmpHead {
        kind: 2,
        code: 0,
        word: 1400,
    };
    push_icmp6(&mut list, HOST, ROUTER, head, b"te", b"st")?;
    assert_eq!(rt; list.len(), 13);
    assert_eq!(rt; &list[1..], TOO_BIG.as_slice());
    Ok(())
}
