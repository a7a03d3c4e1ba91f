// The keys of ICMP messages in both directions.
use binding_rules::Want;
use ip_codec::ip4;
use port_locate::{Key, key_down, key_up};
use std::test::Fail;

// Echo replies with the identifiers 1232 and 208, and one with a wrong checksum.
const ECHO_REPLY: &[u8; 32] =
    b"\x45\0\0\x20\0\x03\0\0\x40\x01\x14\x9e\xc6\x33\x64\x07\xcb\0\x71\x01\0\0\x13\x55\x04\xd0\0\x01test";

const ECHO_OF_208: &[u8; 32] =
    b"\x45\0\0\x20\0\x03\0\0\x40\x01\x14\x9e\xc6\x33\x64\x07\xcb\0\x71\x01\0\0\x17\x55\0\xd0\0\x01test";

const WRONG_ECHO: &[u8; 32] =
    b"\x45\0\0\x20\0\x03\0\0\x40\x01\x14\x9e\xc6\x33\x64\x07\xcb\0\x71\x01\x08\0\x5e\x55\x04\xd0\0\x01test";

// Port unreachable about UDP from port 1232 to port 53, with four bytes of options in the quoted header.
const UNREACHABLE: &[u8; 60] =
    b"\x45\0\0\x3c\0\x03\0\0\x40\x01\x14\x82\xc6\x33\x64\x07\xcb\0\x71\x01\x03\x03\xf7\xeb\0\0\0\0\x46\0\0\x24\0\x01\0\0\x40\x11\x11\x8b\xcb\0\x71\x01\xc6\x33\
     \x64\x07\x01\x01\x01\0\x04\xd0\0\x35\0\x0c\0\0";

// About an echo with the identifier 1232; about a packet without ports.
const ABOUT_AN_ECHO: &[u8; 56] =
    b"\x45\0\0\x38\0\x03\0\0\x40\x01\x14\x86\xc6\x33\x64\x07\xcb\0\x71\x01\x03\x03\xfc\xfc\0\0\0\0\x45\0\0\x1c\0\x01\0\0\x40\x01\x14\xa4\xcb\0\x71\x01\xc6\x33\
     \x64\x07\x08\0\xf3\x2e\x04\xd0\0\x01";

const ABOUT_GRE: &[u8; 56] =
    b"\x45\0\0\x38\0\x03\0\0\x40\x01\x14\x86\xc6\x33\x64\x07\xcb\0\x71\x01\x03\x03\xfc\xfc\0\0\0\0\x45\0\0\x1c\0\x01\0\0\x40\x2f\x14\x76\xcb\0\x71\x01\xc6\x33\
     \x64\x07\0\0\0\0\0\0\0\0";

// About a later piece; about three bytes of UDP; about an error; the first piece of an echo reply.
const ABOUT_A_LATER_PIECE: &[u8; 56] =
    b"\x45\0\0\x38\0\x03\0\0\x40\x01\x14\x86\xc6\x33\x64\x07\xcb\0\x71\x01\x03\x03\xf7\xeb\0\0\0\0\x45\0\0\x1c\0\x01\0\x01\x40\x11\x14\x93\xcb\0\x71\x01\xc6\
     \x33\x64\x07\x04\xd0\0\x35\0\x0c\0\0";

const ABOUT_THREE_BYTES: &[u8; 51] =
    b"\x45\0\0\x33\0\x03\0\0\x40\x01\x14\x8b\xc6\x33\x64\x07\xcb\0\x71\x01\x03\x03\xf8\x2c\0\0\0\0\x45\0\0\x20\0\x01\0\0\x40\x11\x14\x90\xcb\0\x71\x01\xc6\x33\
     \x64\x07\x04\xd0\0";

const ABOUT_AN_ERROR: &[u8; 56] =
    b"\x45\0\0\x38\0\x03\0\0\x40\x01\x14\x86\xc6\x33\x64\x07\xcb\0\x71\x01\x03\x03\xfc\xfc\0\0\0\0\x45\0\0\x1c\0\x01\0\0\x40\x01\x14\xa4\xcb\0\x71\x01\xc6\x33\
     \x64\x07\x03\x03\xf8\x2b\x04\xd0\0\x01";

const FRAGMENT: &[u8; 32] =
    b"\x45\0\0\x20\0\x03\x20\0\x40\x01\xf4\x9d\xc6\x33\x64\x07\xcb\0\x71\x01\0\0\x13\x55\x04\xd0\0\x01test";

// A message of 7 bytes; a port unreachable with a wrong checksum; one whose quoted header does not sum up.
const SHORT: &[u8; 27] =
    b"\x45\0\0\x1b\0\x03\0\0\x40\x01\x14\xa3\xc6\x33\x64\x07\xcb\0\x71\x01\x03\x03\xfc\xfc\0\0\0";

const WRONG_SUM: &[u8; 60] =
    b"\x45\0\0\x3c\0\x03\0\0\x40\x01\x14\x82\xc6\x33\x64\x07\xcb\0\x71\x01\x03\x03\xf6\xeb\0\0\0\0\x46\0\0\x24\0\x01\0\0\x40\x11\x11\x8b\xcb\0\x71\x01\xc6\x33\
     \x64\x07\x01\x01\x01\0\x04\xd0\0\x35\0\x0c\0\0";

const WRONG_QUOTE: &[u8; 60] =
    b"\x45\0\0\x3c\0\x03\0\0\x40\x01\x14\x82\xc6\x33\x64\x07\xcb\0\x71\x01\x03\x03\xf8\xeb\0\0\0\0\x46\0\0\x24\0\x01\0\0\x40\x11\x10\x8b\xcb\0\x71\x01\xc6\x33\
     \x64\x07\x01\x01\x01\0\x04\xd0\0\x35\0\x0c\0\0";

const REFUSED: (Key, Key) = (Key::IcmpBad, Key::IcmpBad);

const NO_PORT: (Key, Key) = (Key::NoPort, Key::NoPort);

const WHOLE: (Key, Key) = (Key::At(Want::Whole), Key::At(Want::Whole));

fn keys(bytes: &[u8]) -> Option<(Key, Key)> {
    match ip4(bytes) {
        Ok(packet) => Some((key_up(&packet), key_down(&packet))),
        Err(_) => None,
    }
}

// Up by this port, and down by that.
fn ports(up: u16, down: u16) -> Option<(Key, Key)> {
    Some((Key::At(Want::Port(up)), Key::At(Want::Port(down))))
}

#[test]
fn echoes_have_their_identifiers(rt: HostRuntime) {
    assert_eq!(rt; keys(ECHO_REPLY), ports(1232, 1232));
    assert_eq!(rt; keys(ECHO_OF_208), ports(208, 208));
    assert_eq!(rt; keys(WRONG_ECHO), ports(1232, 1232));
}

#[test]
fn errors_have_the_ports_that_they_quote(rt: HostRuntime) {
    assert_eq!(rt; keys(UNREACHABLE), ports(53, 1232));
    assert_eq!(rt; keys(ABOUT_AN_ECHO), ports(1232, 1232));
    assert_eq!(rt; keys(ABOUT_GRE), Some(WHOLE));
}

#[test]
fn other_messages_name_no_port(rt: HostRuntime) {
    assert_eq!(rt; keys(ABOUT_A_LATER_PIECE), Some(NO_PORT));
    assert_eq!(rt; keys(ABOUT_THREE_BYTES), Some(NO_PORT));
    assert_eq!(rt; keys(ABOUT_AN_ERROR), Some(NO_PORT));
    assert_eq!(rt; keys(FRAGMENT), Some(NO_PORT));
}

#[test]
fn faulty_messages_are_told_apart(rt: HostRuntime) {
    assert_eq!(rt; keys(SHORT), Some(REFUSED));
    assert_eq!(rt; keys(WRONG_SUM), Some(REFUSED));
    assert_eq!(rt; keys(WRONG_QUOTE), Some(REFUSED));
}
