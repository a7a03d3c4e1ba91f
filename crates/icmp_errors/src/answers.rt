// Which packets get an ICMP error.
ghost use Rattle.std.specs.Prelude.{◌≡◌, ◌==◌, not, ◌||◌};
ghost use Rattle.icmp_codec.specs.Quoted.{embedded_packet};
ghost use Rattle.ip_codec.specs.Packet4.{packet4};
ghost use Rattle.icmp_errors.specs.Answers.{about, first_bits, first_byte, gets_answer, gets_answer6, holds_echo};

use aftr_base::{V4, V6};
use icmp_codec::{Embedded, is_echo};
use ip_codec::{ICMP, Ip4View};

/// Whether an ICMP error may be sent about the packet (RFC 1122, section 3.2.2; RFC 1812, section 4.3.2.7).
pub fn gets_answer(p: &Ip4View<'_>) -> bool
    ensures { result ≡ gets_answer (about (packet4 p.now)) }
{
    gets_answer_about(&Embedded {
        protocol: p.protocol,
        offset: p.offset,
        src: p.src,
        dst: p.dst,
        payload: p.payload,
    })
}

/// Whether an ICMP error may be sent about a packet of which these fields and this much of its payload are known.
pub fn gets_answer_about(packet: &Embedded<'_>) -> bool
    ensures { result ≡ gets_answer (embedded_packet packet.now) }
{
    let is_piece = packet.offset != 0;
    let is_message = packet.protocol == ICMP && !holds_echo(packet.payload);
    !is_piece && !is_message && !is_for_many(packet.dst) && is_one_host(packet.src)
}

// Whether the ICMP message is an echo or an echo reply.
fn holds_echo(message: &[u8]) -> bool
    ensures { result ≡ holds_echo message.now }
{
    match message {
        [kind, ..] => is_echo(*kind),
        [] => false,
    }
}

// Whether the address is a group's or the broadcast.
fn is_for_many(address: V4) -> bool
    ensures { result ≡ ((first_bits address.0 == 14) || (address.0 == 4294967295)) }
{
    address.0 >> 28 == 14 || address.0 == u32::MAX
}

// Whether the address is that of one host: of no network, loopback or group, and not reserved.
fn is_one_host(address: V4) -> bool
    ensures { result ≡ not ((first_byte address.0 == 0) || (first_byte address.0 == 127)
        || (first_bits address.0 == 14) || (first_bits address.0 == 15)) }
{
    let network = address.0 >> 24;
    network != 0 && network != 127 && network < 0xe0
}

/// Whether an ICMPv6 error may be sent to the address (RFC 4443, section 2.4 (e)): it is not the unspecified address, and
/// no multicast address.
pub fn gets_answer6(src: V6) -> bool
    ensures { result ≡ gets_answer6 src.0 }
{
    src.0 != 0 && src.0 >> 120 != 0xff
}
