// The IPv4 packets of items that are known to have one.
ghost use Rattle.std.specs.Prelude.{◌≡◌, Some, drop, is_some, true};
ghost use Rattle.capture_io.specs.Frames.{said};
ghost use Rattle.ip_codec.specs.Packet4.{fields4, ip4_of};
ghost use Rattle.ip_codec.specs.Packet6.{ip6_of};
ghost use Rattle.ip_codec.specs.declared.items.Outer.{Outer as OuterFields};
ghost use Rattle.item_stage.specs.Alone.{at_end, behind_fragment, from_network, from_tunnel, in_frame, item_alone, item_of, item_inside};
ghost use Rattle.item_stage.specs.Marks.{outcome_item};
ghost use Rattle.item_stage.specs.Packets.{if_packet, packet_in};

use crate::joining::Parts;
use crate::marks::{Mark, Outcome};
use capture_io::{Form, Frame, frame_of};
use ip_codec::{IPV4_IN_IPV6, known_ip6, known_packet};
use ipv6_chain::{Chain, Start, walk};

/// The bytes that the IPv4 packet of a record's item is read from, where the item is known to have one: whether they read is not
/// tested again. They are found without a call where the packet stands at once behind the fixed header of its tunnel, or came from the IPv4 network.
#[inline(always)]
pub(crate) fn bytes_known(form: Form, bytes: &[u8]) -> &[u8]
    requires { is_some (packet_in (item_of form bytes.now)) ≡ true }
    ensures { packet_in (item_of form bytes.now) ≡ if_packet (ip4_of result.now) }
{
    bytes_in_frame(frame_of(form.link, bytes))
}

#[inline(always)]
fn bytes_in_frame<'a>(frame: Frame<'a>) -> &'a [u8]
    requires { is_some (packet_in (item_alone (in_frame (said frame)))) ≡ true }
    ensures { packet_in (item_alone (in_frame (said frame.entry))) ≡ if_packet (ip4_of result.now) }
{
    match frame {
        Frame::V4(packet) => bytes_from_network(packet),
        Frame::V6(packet) => bytes_in_tunnel(packet),
        Frame::Short => unreachable!(),
        Frame::Kind => unreachable!(),
    }
}

// Those of a packet from the IPv4 network.
#[inline(always)]
fn bytes_from_network(bytes: &[u8]) -> &[u8]
    requires { is_some (packet_in (item_alone (from_network (ip4_of bytes.now)))) ≡ true }
    ensures { packet_in (item_alone (from_network (ip4_of bytes.now))) ≡ if_packet (ip4_of result.now) }
{
    bytes
}

// Those of a packet in the tunnel: mostly at once behind the fixed header.
#[inline(always)]
fn bytes_in_tunnel(bytes: &[u8]) -> &[u8]
    requires { is_some (packet_in (item_alone (from_tunnel (ip6_of bytes.now)))) ≡ true }
    ensures { packet_in (item_alone (from_tunnel (ip6_of bytes.now))) ≡ if_packet (ip4_of result.now) }
{
    let packet = known_ip6(bytes);
    if packet.next == IPV4_IN_IPV6 {
        return packet.body;
    }
    bytes_behind_headers(bytes)
}

// The same wherever they stand.
#[cold]
#[inline(never)]
fn bytes_behind_headers(bytes: &[u8]) -> &[u8]
    requires { is_some (packet_in (item_alone (from_tunnel (ip6_of bytes.now)))) ≡ true }
    ensures { packet_in (item_alone (from_tunnel (ip6_of bytes.now))) ≡ if_packet (ip4_of result.now) }
{
    let packet = known_ip6(bytes);
    match walk(packet.next, packet.body, Start::Packet) {
        Ok(chain) => bytes_at_end(chain, &packet.body[chain.at..]),
        Err(_) => unreachable!(),
    }
}

// What stands behind all headers of a packet, where its own chain ends so.
fn bytes_at_end(chain: Chain, bytes: &[u8]) -> &[u8]
    ensures { (outer : OuterFields) → is_some (packet_in (item_alone (at_end outer chain.next bytes.now chain.fragment))) ≡ true →
        packet_in (item_alone (at_end outer chain.next bytes.now chain.fragment)) ≡ if_packet (ip4_of result.now) }
{
    match chain.fragment {
        Some(_) => bytes_behind_fragment(chain.next, bytes),
        None => bytes,
    }
}

// What stands behind all headers that a Fragment header carried, whole.
fn bytes_behind_fragment(next: u8, body: &[u8]) -> &[u8]
    ensures { (outer : OuterFields) → is_some (packet_in (item_inside (behind_fragment outer next body.now))) ≡ true →
        packet_in (item_inside (behind_fragment outer next body.now)) ≡ if_packet (ip4_of result.now) }
{
    match walk(next, body, Start::AfterFragment) {
        Ok(chain) => &body[chain.at..],
        Err(_) => body,
    }
}

/// The packet of a mark's item, which is known to have one. Few records have a mark.
#[cold]
#[inline(never)]
pub(crate) fn parts_marked(mark: &Mark) -> Parts<'_>
    requires { is_some (packet_in (outcome_item mark.now.outcome)) ≡ true }
    ensures { packet_in (outcome_item mark.now.outcome) ≡ Some (fields4 result.header.now result.payload.now) }
{
    match &mark.outcome {
        Outcome::Down(datagram) => datagram.parts(),
        Outcome::Up { packet, .. } => packet.parts(),
        Outcome::Carries { next, body, .. } => {
            parts_of(bytes_behind_fragment(*next, body.as_slice()))
        }
        Outcome::Held => unreachable!(),
        Outcome::Bad(_) => unreachable!(),
    }
}

/// The packet of bytes that are known to be one: they are not tested again.
#[inline(always)]
pub(crate) fn parts_of(bytes: &[u8]) -> Parts<'_>
    requires { is_some (if_packet (ip4_of bytes.now)) ≡ true }
    ensures { if_packet (ip4_of bytes.now) ≡ Some (fields4 result.header.now result.payload.now) }
{
    let packet = known_packet(bytes);
    Parts {
        header: packet.view.header,
        payload: packet.view.payload,
    }
}
