// What a packet asks of the binding table.
ghost use Rattle.std.specs.Prelude.{◌≡◌, Err, IfErr, IfOk};
ghost use Rattle.std.specs.Option.{option_map};
ghost use Rattle.icmp_codec.specs.Message4.{icmp4_of};
ghost use Rattle.icmp_codec.specs.Quoted.{embedded_packet};
ghost use Rattle.ip_codec.specs.Packet4.{packet4};
ghost use Rattle.port_locate.specs.Keys.{destination_at, destination_key, downstream_key, has_ports, icmp_key, identifier_want};
ghost use Rattle.port_locate.specs.Keys.{key_of, plain_want, port_want, quoted_want, source_at, source_key, upstream_key};

use aftr_base::be16;
use binding_rules::Want;
use icmp_codec::{Embedded, ICMP_HEAD_LEN, IcmpBad, icmp4, is_echo};
use ip_codec::{ICMP, Ip4View, TCP, UDP};

/// What a binding must own for a packet to be its subscriber's: the packet's IPv4 address and its port (RFC 7596, section
/// 6.2). What stands for the port where a packet names none is this router's own choice.
#[derive(Clone, Copy, Debug, PartialEq, Eq)]
pub enum Key {
    /// The port, the identifier of an ICMP echo, or the whole address where the protocol has no ports.
    At(Want),
    /// The packet names no port: it is a fragment, of a protocol with ports and with a payload under four bytes, or an
    /// ICMP error that quotes such a packet, or an ICMP message other than an echo.
    NoPort,
    /// An ICMP message that is cut off, has a wrong checksum, or quotes no IPv4 header.
    IcmpBad,
}

/// What a packet asks of the table at its source and at its destination.
#[derive(Clone, Copy, Debug, PartialEq, Eq)]
pub struct Wants {
    pub source: Want,
    pub destination: Want,
}

/// Both keys of a packet, which are read together: there are two or none.
#[derive(Clone, Copy, Debug, PartialEq, Eq)]
pub enum Keys {
    At(Wants),
    /// As in `Key`.
    NoPort,
    /// As in `Key`.
    IcmpBad,
}

// The two ports, of 16 bits each.
const PORTS_LEN: usize = 4;

const SOURCE_PORT: usize = 0;

const DESTINATION_PORT: usize = 2;

// Where the identifier of an echo stands in its message (RFC 792).
const IDENTIFIER: usize = 4;

/// The key of a packet from a subscriber: its source port, or the identifier of an ICMP echo. An ICMP error has the
/// destination port of the packet that it quotes, which came to the subscriber. Protocols without ports ask for the
/// whole address.
#[inline(always)]
pub fn key_up(p: &Ip4View<'_>) -> Key
    ensures { result ≡ upstream_key (packet4 p.now) }
{
    match keys_of(p) {
        Keys::At(wants) => Key::At(wants.source),
        Keys::NoPort => Key::NoPort,
        Keys::IcmpBad => Key::IcmpBad,
    }
}

/// The key of a packet to a subscriber: its destination port, or the identifier of an ICMP echo. An ICMP error has the
/// source port of the packet that it quotes, which came from the subscriber (RFC 7596, section 8.1). Protocols without
/// ports ask for the whole address.
#[inline(always)]
pub fn key_down(p: &Ip4View<'_>) -> Key
    ensures { result ≡ downstream_key (packet4 p.now) }
{
    match keys_of(p) {
        Keys::At(wants) => Key::At(wants.destination),
        Keys::NoPort => Key::NoPort,
        Keys::IcmpBad => Key::IcmpBad,
    }
}

/// What `key_up` and `key_down` answer, by one reading: the checksum of an ICMP message is summed once.
#[inline(always)]
pub fn keys_of(p: &Ip4View<'_>) -> Keys
    ensures up { source_key result ≡ upstream_key (packet4 p.now) }
    ensures down { destination_key result ≡ downstream_key (packet4 p.now) }
{
    if p.is_fragment() {
        return Keys::NoPort;
    }
    // Nearly every packet is of these two: asked for by themselves they take two compares, and no jump by a table.
    if p.protocol == UDP || p.protocol == TCP {
        return keys_at(port_wants(p.payload));
    }
    if p.protocol != ICMP {
        return keys_at(plain_wants(p.protocol, p.payload));
    }
    match message_wants(p.payload) {
        Ok(wants) => keys_at(wants),
        Err(_) => Keys::IcmpBad,
    }
}

// What an ICMP message asks for. What it quotes went the other way.
#[cold]
#[inline(never)]
fn message_wants(message: &[u8]) -> Result<Option<Wants>, IcmpBad>
    ensures up { IfOk result (λ wants. icmp_key (icmp4_of message.now) destination_at ≡ key_of (option_map (λ w. w.source) wants)) }
    ensures down { IfOk result (λ wants. icmp_key (icmp4_of message.now) source_at ≡ key_of (option_map (λ w. w.destination) wants)) }
    ensures bad { IfErr result (λ why. icmp4_of message.now ≡ Err why) }
{
    let view = icmp4(message)?;
    match view.embedded {
        None => Ok(Some(both(Want::Port(view.id)))),
        Some(quoted) => Ok(reversed(quoted_wants(&quoted))),
    }
}

#[inline(always)]
fn keys_at(wants: Option<Wants>) -> Keys
    ensures source { source_key result ≡ key_of (option_map (λ w. w.source) wants) }
    ensures destination { destination_key result ≡ key_of (option_map (λ w. w.destination) wants) }
{
    match wants {
        Some(wants) => Keys::At(wants),
        None => Keys::NoPort,
    }
}

// What a packet that goes the other way asks for.
fn reversed(wants: Option<Wants>) -> Option<Wants>
    ensures source { option_map (λ w. w.source) result ≡ option_map (λ w. w.destination) wants }
    ensures destination { option_map (λ w. w.destination) result ≡ option_map (λ w. w.source) wants }
{
    let Wants {
        source,
        destination,
    } = wants?;
    Some(Wants {
        source: destination,
        destination: source,
    })
}

// One thing at both ends.
fn both(want: Want) -> Wants
    ensures { result ≡ record { source = want; destination = want } }
{
    Wants {
        source: want,
        destination: want,
    }
}

/// What the sender of a quoted packet must own, or nothing where the quote names no port.
pub fn quoted_source(quoted: &Embedded<'_>) -> Option<Want>
    ensures { result ≡ quoted_want (embedded_packet quoted.now) source_at }
{
    let wants = quoted_wants(quoted)?;
    Some(wants.source)
}

/// What the receiver of a quoted packet must own, or nothing where the quote names no port.
pub fn quoted_destination(quoted: &Embedded<'_>) -> Option<Want>
    ensures { result ≡ quoted_want (embedded_packet quoted.now) destination_at }
{
    let wants = quoted_wants(quoted)?;
    Some(wants.destination)
}

// What a packet asks for that an ICMP message quotes.
fn quoted_wants(quoted: &Embedded<'_>) -> Option<Wants>
    ensures source { option_map (λ w. w.source) result ≡ quoted_want (embedded_packet quoted.now) source_at }
    ensures destination { option_map (λ w. w.destination) result ≡ quoted_want (embedded_packet quoted.now) destination_at }
{
    if quoted.offset != 0 {
        return None;
    }
    if quoted.protocol == ICMP {
        let want = identifier_want(quoted.payload)?;
        return Some(both(want));
    }
    plain_wants(quoted.protocol, quoted.payload)
}

// The identifier of an echo or echo reply.
fn identifier_want(message: &[u8]) -> Option<Want>
    ensures { result ≡ identifier_want message.now }
{
    if message.len() < ICMP_HEAD_LEN || !is_echo(message[0]) {
        return None;
    }
    Some(Want::Port(be16(message, IDENTIFIER)))
}

// By the ports of the payload, or the whole address where the protocol has no ports.
#[cold]
#[inline(never)]
fn plain_wants(protocol: u8, payload: &[u8]) -> Option<Wants>
    ensures source { option_map (λ w. w.source) result ≡ plain_want protocol payload.now source_at }
    ensures destination { option_map (λ w. w.destination) result ≡ plain_want protocol payload.now destination_at }
{
    if has_ports(protocol) {
        port_wants(payload)
    } else {
        Some(both(Want::Whole))
    }
}

// By the ports of a payload that begins with two.
#[inline(always)]
fn port_wants(payload: &[u8]) -> Option<Wants>
    ensures source { option_map (λ w. w.source) result ≡ port_want payload.now source_at }
    ensures destination { option_map (λ w. w.destination) result ≡ port_want payload.now destination_at }
{
    if payload.len() < PORTS_LEN {
        return None;
    }
    Some(Wants {
        source: Want::Port(be16(payload, SOURCE_PORT)),
        destination: Want::Port(be16(payload, DESTINATION_PORT)),
    })
}

// Whether the payload of the protocol begins with a source port and a destination port.
fn has_ports(protocol: u8) -> bool
    ensures { result ≡ has_ports protocol }
{
    matches!(protocol, TCP | UDP | 33 | 132 | 136)
}
