// Errors about the router's own tunnel packets, read and passed on.
use aftr_base::{V4, V6};
use binding_rules::Want;
use icmp_codec::{IcmpBad, icmp6};
use icmp_relay::{QuoteBad, may_relay, quote_from, quote_to, read_quote, relay};
use port_set::{owns, shape_of};
use std::test::Fail;

const OWN: V4 = V4(0xc000_0201);

const AFTR: V6 = V6(0x2001_0db8_0000_0000_0000_0000_0000_0001);

const SUBSCRIBER: V6 = V6(0x2001_0db8_0001_0000_0000_0000_0000_0001);

pub(crate) const ON_THE_WAY: V6 = V6(0x2001_0db8_0009_0000_0000_0000_0000_0001);

const TUNNEL: &[u8; 72] =
    b"\x60\0\0\0\0\x20\x04\x40\x20\x01\x0d\xb8\0\0\0\0\0\0\0\0\0\0\0\x01\x20\x01\x0d\xb8\0\x01\0\0\0\0\0\0\0\0\0\x01\x45\0\0\x20\0\x02\0\0\x3f\x11\x15\x8f\xc6\
     \x33\x64\x07\xcb\0\x71\x01\0\x35\x04\xd0\0\x0c\0\0test";

pub(crate) const MESSAGE: &[u8; 80] =
    b"\x02\0\xef\xbf\0\0\x05\x78\x60\0\0\0\0\x20\x04\x40\x20\x01\x0d\xb8\0\0\0\0\0\0\0\0\0\0\0\x01\x20\x01\x0d\xb8\0\x01\0\0\0\0\0\0\0\0\0\x01\x45\0\0\x20\0\
     \x02\0\0\x3f\x11\x15\x8f\xc6\x33\x64\x07\xcb\0\x71\x01\0\x35\x04\xd0\0\x0c\0\0test";

pub(crate) const RELAYED: &[u8; 60] =
    b"\x45\0\0\x3c\0\0\x40\0\x40\x01\x4e\x85\xc0\0\x02\x01\xc6\x33\x64\x07\x03\x04\x0a\xc1\0\0\x05\x50\x45\0\0\x20\0\x02\0\0\x3f\x11\x15\x8f\xc6\x33\x64\x07\
     \xcb\0\x71\x01\0\x35\x04\xd0\0\x0c\0\0test";

const FIRST_PIECE: &[u8; 80] =
    b"\x60\0\0\0\0\x28\x2c\x40\x20\x01\x0d\xb8\0\0\0\0\0\0\0\0\0\0\0\x01\x20\x01\x0d\xb8\0\x01\0\0\0\0\0\0\0\0\0\x01\x04\0\0\x01\0\0\0\x09\x45\0\0\x20\0\x02\0\
     \0\x3f\x11\x15\x8f\xc6\x33\x64\x07\xcb\0\x71\x01\0\x35\x04\xd0\0\x0c\0\0test";

#[test]
fn an_error_about_a_tunnel_packet_is_passed_on(rt: HostRuntime) -> Result<(), Fail> {
    let Ok(message) = icmp6(ON_THE_WAY, AFTR, MESSAGE) else {
        return Err("a message".into());
    };
    assert_eq!(rt; (message.kind, message.word), (2, 1400));
    let Ok(quote) = read_quote(message.rest) else {
        return Err("a quote".into());
    };
    assert_eq!(rt; (quote.src6, quote.dst6), (AFTR, SUBSCRIBER));
    assert_eq!(rt; quote_to(&quote), Some(Want::Port(1232)));
    assert_eq!(rt; quote_from(&quote), Some(Want::Port(53)));
    assert!(rt; may_relay(&quote));
    let packet = relay(rt.alloc(), OWN, 4, 1360, &quote)?;
    assert_eq!(rt; packet.as_slice(), RELAYED.as_slice());
    Ok(())
}

// The ports 1232 to 1235 are those of the identifier 52, and not of 53.
#[test]
fn the_quoted_destination_port_tells_the_subscriber(rt: HostRuntime) -> Result<(), Fail> {
    let Ok(shape) = shape_of(6, 8) else {
        return Err("a shape".into());
    };
    let Ok(quote) = read_quote(TUNNEL) else {
        return Err("a quote".into());
    };
    let Some(Want::Port(port)) = quote_to(&quote) else {
        return Err("a port".into());
    };
    assert!(rt; owns(shape, 52, port));
    assert!(rt; !owns(shape, 53, port));
    Ok(())
}

#[test]
fn one_wrong_bit_is_refused(rt: HostRuntime) {
    let mut bytes = *MESSAGE;
    bytes[3] ^= 1;
    assert_eq!(rt;
        icmp6(ON_THE_WAY, AFTR, &bytes).err(),
        Some(IcmpBad::Checksum)
    );
}

fn refusal(bytes: &[u8]) -> Option<QuoteBad> {
    read_quote(bytes).err()
}

fn of_front(bytes: &[u8], len: usize) -> Option<QuoteBad> {
    match bytes.get(..len) {
        Some(front) => refusal(front),
        None => None,
    }
}

fn with_byte(at: usize, byte: u8) -> Option<QuoteBad> {
    let mut bytes = *FIRST_PIECE;
    if at < bytes.len() {
        bytes[at] = byte;
    }
    refusal(&bytes)
}

#[test]
fn quotes_without_a_tunnel_are_refused(rt: HostRuntime) {
    let tunnel = Some(QuoteBad::Tunnel);
    assert_eq!(rt; of_front(TUNNEL, 39), tunnel);
    assert_eq!(rt; with_byte(0, 0x45), tunnel);
    assert_eq!(rt; of_front(FIRST_PIECE, 47), tunnel);
    assert_eq!(rt; with_byte(0, 0x40), tunnel);
    assert_eq!(rt; with_byte(6, 41), tunnel);
    assert_eq!(rt; with_byte(40, 41), tunnel);
    assert_eq!(rt; with_byte(42, 1), tunnel);
    assert_eq!(rt; with_byte(43, 9), tunnel);
}

#[test]
fn quotes_without_an_inner_header_are_refused(rt: HostRuntime) {
    let inner = Some(QuoteBad::Inner);
    assert_eq!(rt; of_front(TUNNEL, 59), inner);
    assert_eq!(rt; with_byte(48, 0x65), inner);
    assert_eq!(rt; with_byte(58, 0), inner);
    assert_eq!(rt; of_front(TUNNEL, 60), None);
    assert_eq!(rt; with_byte(43, 7), None);
    assert_eq!(rt; with_byte(43, 0), None);
}

#[test]
fn cut_quotes_name_no_port(rt: HostRuntime) -> Result<(), Fail> {
    let Ok(quote) = read_quote(&TUNNEL[..63]) else {
        return Err("a quote".into());
    };
    assert_eq!(rt; (quote_from(&quote), quote_to(&quote)), (None, None));
    Ok(())
}
