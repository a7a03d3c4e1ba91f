// Packets that go on.
ghost use Rattle.std.specs.Prelude.{◌≡◌, ◌∷◌, ◌≤◌, [], IfOk, IsErr, IfSome};
ghost use Rattle.aftr_base.specs.Appended.{Extends};
ghost use Rattle.capture_io.specs.Packets.{packet_bytes};
ghost use Rattle.fragmenter.specs.Pieces4.{fragments4};
ghost use Rattle.fragmenter.specs.Pieces6.{fragments6};
ghost use Rattle.ip_codec.specs.Packet4.{packet4, IsBounded4};
ghost use Rattle.ip_codec.specs.Seen.{seen};
ghost use Rattle.packet_render.specs.Pushed.{ArePushed, one_hop_on};
ghost use Rattle.packet_render.specs.Sent.{inward, made_of, outward, packet_of_item};
ghost use Rattle.softwire_encap.specs.Passing.{lowered};
ghost use Rattle.softwire_encap.specs.Tunnel.{tunnelled, wrapped};

use crate::carried::packet_of;
use crate::pieces::{push_pieces4, push_pieces6};
use crate::stamps::Stamp;
use aftr_base::{OutOfMemory, V6};
use fragmenter::{MOST_PIECES4, MOST_PIECES6};
use ip_codec::{HEADER6_LEN, Ip4View, ItemView, ReadPacket};
use softwire_encap::{lowered_header, push_lowered, push_tunnelled, tunnel_view};

// Where an IPv6 packet comes from and goes to, and its hop limit.
#[derive(Clone, Copy, Debug)]
pub(crate) struct Ends {
    pub from: V6,
    pub to: V6,
    pub hop: u8,
}

// Appends the item's packet as it goes out, in pieces where it does not fit.
pub(crate) fn push_outward(
    out: &mut Vec<u8>,
    stamp: Stamp,
    item: &ItemView<'_>,
    mtu: u16,
) -> Result<u32, OutOfMemory>
    requires alive { IfSome (packet_of_item (seen item.now)) (λ packet. 1 ≤ packet.ttl) }
    requires least_mtu { 576 ≤ mtu }
    ensures pushed { IfOk result (λ count. ArePushed (packet_bytes stamp.form stamp.seconds stamp.fraction)
        (made_of (packet_of_item (seen item.now)) (outward mtu)) out.old.items out.new.items count) }
    ensures few { IfOk result (λ count. count ≤ MOST_PIECES4) }
    ensures kept { IsErr result → Extends out.old.items out.new.items }
{
    let Some(packet) = packet_of(item) else {
        return Ok(0);
    };
    let count = push_packet_outward(out, stamp, &packet, mtu)?;
    Ok(count)
}

// Appends this packet as it goes out. It is inlined down to the bytes, so that of the packet's fields only those are made that are
// written; a view of all of them is made where the packet is cut.
#[inline(always)]
pub(crate) fn push_packet_outward(
    out: &mut Vec<u8>,
    stamp: Stamp,
    packet: &ReadPacket<'_>,
    mtu: u16,
) -> Result<u32, OutOfMemory>
    requires alive { 1 ≤ packet.now.view.ttl }
    requires least_mtu { 576 ≤ mtu }
    ensures pushed { IfOk result (λ count. ArePushed (packet_bytes stamp.form stamp.seconds stamp.fraction)
        (outward mtu (packet4 packet.now.view)) out.old.items out.new.items count) }
    ensures few { IfOk result (λ count. count ≤ MOST_PIECES4) }
    ensures kept { IsErr result → Extends out.old.items out.new.items }
{
    if packet.view.total_len() <= usize::from(mtu) {
        let count = push_whole_outward(out, stamp, packet)?;
        return Ok(count);
    }
    let count = push_cut_outward(out, stamp, packet, mtu)?;
    Ok(count)
}

#[inline(always)]
fn push_whole_outward(
    out: &mut Vec<u8>,
    stamp: Stamp,
    packet: &ReadPacket<'_>,
) -> Result<u32, OutOfMemory>
    requires alive { 1 ≤ packet.now.view.ttl }
    ensures pushed { IfOk result (λ count. ArePushed (packet_bytes stamp.form stamp.seconds stamp.fraction)
        (lowered (packet4 packet.now.view) ∷ []) out.old.items out.new.items count) }
    ensures one { IfOk result (λ count. count ≡ 1) }
    ensures kept { IsErr result → Extends out.old.items out.new.items }
{
    let len = packet.view.total_len();
    stamp.push_head(out, len)?;
    push_lowered(out, &packet.view)?;
    stamp.push_tail(out, len)?;
    Ok(1)
}

// Apart from the packet that fits, which takes fewer instructions so.
#[inline(always)]
fn push_cut_outward(
    out: &mut Vec<u8>,
    stamp: Stamp,
    packet: &ReadPacket<'_>,
    mtu: u16,
) -> Result<u32, OutOfMemory>
    requires alive { 1 ≤ packet.now.view.ttl }
    requires least_mtu { 576 ≤ mtu }
    ensures pushed { IfOk result (λ count. ArePushed (packet_bytes stamp.form stamp.seconds stamp.fraction)
        (fragments4 (one_hop_on (packet4 packet.now.view)) mtu 0) out.old.items out.new.items count) }
    ensures few { IfOk result (λ count. count ≤ MOST_PIECES4) }
    ensures kept { IsErr result → Extends out.old.items out.new.items }
{
    let count = push_pieces4(out, stamp, &lowered_field(packet), mtu)?;
    Ok(count)
}

// The packet with its time to live one less in the field, and not in the bytes of its header.
#[inline(always)]
fn lowered_field<'a>(packet: &ReadPacket<'a>) -> Ip4View<'a>
    requires { 1 ≤ packet.now.view.ttl }
    ensures fields { packet4 result ≡ one_hop_on (packet4 packet.now.view) }
    ensures bounded { IsBounded4 (packet4 result) }
{
    let mut view = packet.view;
    view.ttl -= 1;
    view
}

// Appends the item's packet as it goes to a subscriber, in the tunnel; the tunnel packet is cut where it does not fit.
pub(crate) fn push_inward(
    out: &mut Vec<u8>,
    stamp: Stamp,
    item: &ItemView<'_>,
    tunnel: Ends,
    mtu: u16,
    number: u32,
) -> Result<u32, OutOfMemory>
    requires alive { IfSome (packet_of_item (seen item.now)) (λ packet. 1 ≤ packet.ttl) }
    requires least_mtu { 1280 ≤ mtu }
    ensures pushed { IfOk result (λ count. ArePushed (packet_bytes stamp.form stamp.seconds stamp.fraction)
        (made_of (packet_of_item (seen item.now)) (inward tunnel.from tunnel.to tunnel.hop mtu number)) out.old.items out.new.items count) }
    ensures few { IfOk result (λ count. count ≤ MOST_PIECES6) }
    ensures kept { IsErr result → Extends out.old.items out.new.items }
{
    let Some(packet) = packet_of(item) else {
        return Ok(0);
    };
    let count = push_packet_inward(out, stamp, &packet, tunnel, mtu, number)?;
    Ok(count)
}

// Appends this packet as it goes to a subscriber.
#[inline(always)]
pub(crate) fn push_packet_inward(
    out: &mut Vec<u8>,
    stamp: Stamp,
    packet: &ReadPacket<'_>,
    tunnel: Ends,
    mtu: u16,
    number: u32,
) -> Result<u32, OutOfMemory>
    requires alive { 1 ≤ packet.now.view.ttl }
    requires least_mtu { 1280 ≤ mtu }
    ensures pushed { IfOk result (λ count. ArePushed (packet_bytes stamp.form stamp.seconds stamp.fraction)
        (inward tunnel.from tunnel.to tunnel.hop mtu number (packet4 packet.now.view)) out.old.items out.new.items count) }
    ensures few { IfOk result (λ count. count ≤ MOST_PIECES6) }
    ensures kept { IsErr result → Extends out.old.items out.new.items }
{
    if HEADER6_LEN + packet.view.total_len() <= usize::from(mtu) {
        let count = push_whole_inward(out, stamp, packet, tunnel)?;
        return Ok(count);
    }
    let count = push_cut_inward(out, stamp, packet, tunnel, mtu, number)?;
    Ok(count)
}

#[inline(always)]
fn push_whole_inward(
    out: &mut Vec<u8>,
    stamp: Stamp,
    packet: &ReadPacket<'_>,
    tunnel: Ends,
) -> Result<u32, OutOfMemory>
    requires alive { 1 ≤ packet.now.view.ttl }
    ensures pushed { IfOk result (λ count. ArePushed (packet_bytes stamp.form stamp.seconds stamp.fraction)
        (wrapped tunnel.from tunnel.to tunnel.hop (lowered (packet4 packet.now.view)) ∷ []) out.old.items out.new.items count) }
    ensures one { IfOk result (λ count. count ≡ 1) }
    ensures kept { IsErr result → Extends out.old.items out.new.items }
{
    let len = HEADER6_LEN + packet.view.total_len();
    stamp.push_head(out, len)?;
    push_tunnelled(out, tunnel.from, tunnel.to, tunnel.hop, &packet.view)?;
    stamp.push_tail(out, len)?;
    Ok(1)
}

// The packet's header is made apart, and its payload is cut where it stands.
#[inline(always)]
fn push_cut_inward(
    out: &mut Vec<u8>,
    stamp: Stamp,
    packet: &ReadPacket<'_>,
    tunnel: Ends,
    mtu: u16,
    number: u32,
) -> Result<u32, OutOfMemory>
    requires alive { 1 ≤ packet.now.view.ttl }
    requires least_mtu { 1280 ≤ mtu }
    ensures pushed { IfOk result (λ count. ArePushed (packet_bytes stamp.form stamp.seconds stamp.fraction)
        (fragments6 (tunnelled tunnel.from tunnel.to tunnel.hop (lowered (packet4 packet.now.view))) mtu number 0) out.old.items out.new.items count) }
    ensures few { IfOk result (λ count. count ≤ MOST_PIECES6) }
    ensures kept { IsErr result → Extends out.old.items out.new.items }
{
    let lowered = lowered_header(&packet.view);
    let header = &lowered[..packet.view.header.len()];
    let view = tunnel_view(tunnel.from, tunnel.to, tunnel.hop, header);
    let count = push_pieces6(out, stamp, &view, packet.view.payload, mtu, number)?;
    Ok(count)
}
