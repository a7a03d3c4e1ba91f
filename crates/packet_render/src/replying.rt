// What the sender of a dropped packet is told.
ghost use Rattle.std.specs.Prelude.{◌≡◌, ◌∷◌, ◌≤◌, ◌++◌, ℕ, List, [], length, if◌then◌else◌, is_ok, IfOk, IsErr};
ghost use Rattle.aftr_base.specs.Appended.{Extends};
ghost use Rattle.capture_io.specs.Packets.{packet_bytes, packet_head};
ghost use Rattle.icmp_errors.specs.Errors4.{error_len};
ghost use Rattle.icmp_errors.specs.Policy6.{policy6};
ghost use Rattle.icmp_relay.specs.Relayed.{relayed};
ghost use Rattle.ip_codec.specs.Packet4.{packet4, packet_len, whole4};
ghost use Rattle.ip_codec.specs.Seen.{seen};
ghost use Rattle.packet_render.specs.Pushed.{ArePushed};
ghost use Rattle.packet_render.specs.Told.{told_bytes};
ghost use Rattle.packet_render.specs.Sent.{along, made_of, packet_of_item, policies, quote_of_item, relayed_bytes, replies};
ghost use Rattle.softwire_encap.specs.Tunnel.{tos_of};

use crate::carried::{packet_of, quote_of};
use crate::forwarding::Ends;
use crate::stamps::Stamp;
use aftr_base::{OutOfMemory, V4};
use icmp_errors::{
    error_len, policy_len, push_host_unreachable, push_source_policy6, push_time_exceeded,
    push_too_big,
};
use icmp_relay::{Quote, push_relay};
use ip_codec::{HEADER6_LEN, Ip4View, ItemView, Outer, ReadPacket};
use softwire_encap::push_tunnel_head;
use verdict_core::{Path, Reply};

// What an ICMPv4 error tells the source of a packet.
#[derive(Clone, Copy, Debug)]
enum Told {
    Unreachable,
    TooBig { mtu: u16 },
    Exceeded,
}

// Appends the packet of a reply, where there is one to send.
pub(crate) fn push_reply(
    out: &mut Vec<u8>,
    stamp: Stamp,
    item: &ItemView<'_>,
    reply: Reply,
) -> Result<u32, OutOfMemory>
    ensures pushed { IfOk result (λ count. ArePushed (packet_bytes stamp.form stamp.seconds stamp.fraction)
        (replies (seen item.now) reply) out.old.items out.new.items count) }
    ensures few { IfOk result (λ count. count ≤ 1) }
    ensures kept { IsErr result → Extends out.old.items out.new.items }
{
    match reply {
        Reply::Silent => Ok(0),
        Reply::Unreachable { own, path } => {
            push_about(out, stamp, item, path, own, Told::Unreachable)
        }
        Reply::TooBig { own, mtu, path } => {
            push_about(out, stamp, item, path, own, Told::TooBig { mtu })
        }
        Reply::Exceeded { own, path } => push_about(out, stamp, item, path, own, Told::Exceeded),
        Reply::Policy { from, to, hop } => push_policy(out, stamp, item, Ends { from, to, hop }),
        Reply::Relay {
            own,
            code,
            mtu,
            path,
        } => push_relayed(out, stamp, item, path, own, code, mtu),
    }
}

// Appends an error about the item's packet, to its source.
fn push_about(
    out: &mut Vec<u8>,
    stamp: Stamp,
    item: &ItemView<'_>,
    path: Path,
    own: V4,
    told: Told,
) -> Result<u32, OutOfMemory>
    ensures pushed { IfOk result (λ count. ArePushed (packet_bytes stamp.form stamp.seconds stamp.fraction)
        (made_of (packet_of_item (seen item.now)) (λ packet. along path (told_bytes own told packet) ∷ []))
        out.old.items out.new.items count) }
    ensures few { IfOk result (λ count. count ≤ 1) }
    ensures kept { IsErr result → Extends out.old.items out.new.items }
{
    let Some(packet) = packet_of(item) else {
        return Ok(0);
    };
    push_error(out, stamp, path, own, told, &packet.view)?;
    Ok(1)
}

// Appends an error about a packet to its source, as it is or in the tunnel.
fn push_error(
    out: &mut Vec<u8>,
    stamp: Stamp,
    path: Path,
    own: V4,
    told: Told,
    p: &Ip4View<'_>,
) -> Result<(), OutOfMemory>
    ensures bytes { IfOk result (λ _. out.new.items ≡ out.old.items
        ++ packet_bytes stamp.form stamp.seconds stamp.fraction (along path (told_bytes own told (packet4 p.now)))) }
    ensures kept { IsErr result → Extends out.old.items out.new.items }
{
    let total = push_front(out, stamp, path, error_len(p.total_len()))?;
    push_told(out, own, told, p)?;
    stamp.push_tail(out, total)?;
    Ok(())
}

// Appends the error alone.
fn push_told(out: &mut Vec<u8>, own: V4, told: Told, p: &Ip4View<'_>) -> Result<(), OutOfMemory>
    ensures bytes { out.new.items ≡ (if is_ok result then out.old.items ++ told_bytes own told (packet4 p.now) else out.old.items) }
    ensures size { length (told_bytes own told (packet4 p.now)) ≡ error_len (packet_len (packet4 p.now)) }
    ensures tos { tos_of (told_bytes own told (packet4 p.now)) ≡ 0 }
{
    match told {
        Told::Unreachable => push_host_unreachable(out, own, p),
        Told::TooBig { mtu } => push_too_big(out, own, mtu, p),
        Told::Exceeded => push_time_exceeded(out, own, p),
    }
}

// Appends an error about the IPv4 packet that the item's message quotes in its tunnel packet, to that packet's source.
fn push_relayed(
    out: &mut Vec<u8>,
    stamp: Stamp,
    item: &ItemView<'_>,
    path: Path,
    own: V4,
    code: u8,
    mtu: u16,
) -> Result<u32, OutOfMemory>
    ensures pushed { IfOk result (λ count. ArePushed (packet_bytes stamp.form stamp.seconds stamp.fraction)
        (made_of (quote_of_item (seen item.now)) (λ quote. along path (relayed_bytes own code mtu quote) ∷ []))
        out.old.items out.new.items count) }
    ensures few { IfOk result (λ count. count ≤ 1) }
    ensures kept { IsErr result → Extends out.old.items out.new.items }
{
    let Some(quote) = quote_of(item) else {
        return Ok(0);
    };
    push_relayed_error(out, stamp, path, own, code, mtu, &quote)?;
    Ok(1)
}

// Appends an error about a quoted packet to its source, as it is or in the tunnel.
fn push_relayed_error(
    out: &mut Vec<u8>,
    stamp: Stamp,
    path: Path,
    own: V4,
    code: u8,
    mtu: u16,
    quote: &Quote<'_>,
) -> Result<(), OutOfMemory>
    ensures bytes { IfOk result (λ _. out.new.items ≡ out.old.items
        ++ packet_bytes stamp.form stamp.seconds stamp.fraction (along path (relayed own code mtu quote.now))) }
    ensures kept { IsErr result → Extends out.old.items out.new.items }
{
    let total = push_front(out, stamp, path, error_len(quote.packet.len()))?;
    push_relay(out, own, code, mtu, quote)?;
    stamp.push_tail(out, total)?;
    Ok(())
}

// Appends what stands before an IPv4 packet of this length with no type of service, recorded as it is or in the tunnel. It
// answers how long what is recorded is.
fn push_front(out: &mut Vec<u8>, stamp: Stamp, path: Path, len: usize) -> Result<usize, OutOfMemory>
    requires { len ≤ 576 }
    ensures front { IfOk result (λ total. (packet : List ℕ) → tos_of packet ≡ 0 → length packet ≡ len →
        (out.new.items ++ packet ≡ out.old.items ++ (packet_head stamp.form stamp.seconds stamp.fraction total ++ along path packet))
        × (length (along path packet) ≡ total)) }
    ensures small { IfOk result (λ total. total ≤ 616) }
    ensures kept { Extends out.old.items out.new.items }
{
    match path {
        Path::Plain => {
            stamp.push_head(out, len)?;
            Ok(len)
        }
        Path::Tunnel { from, to, hop } => {
            stamp.push_head(out, HEADER6_LEN + len)?;
            push_tunnel_head(out, from, to, hop, 0, len as u16)?;
            Ok(HEADER6_LEN + len)
        }
    }
}

// Appends the error that the packet's source failed the policy.
fn push_policy(
    out: &mut Vec<u8>,
    stamp: Stamp,
    item: &ItemView<'_>,
    ends: Ends,
) -> Result<u32, OutOfMemory>
    ensures pushed { IfOk result (λ count. ArePushed (packet_bytes stamp.form stamp.seconds stamp.fraction)
        (made_of (packet_of_item (seen item.now)) (policies (seen item.now) ends.from ends.to ends.hop))
        out.old.items out.new.items count) }
    ensures few { IfOk result (λ count. count ≤ 1) }
    ensures kept { IsErr result → Extends out.old.items out.new.items }
{
    match item {
        ItemView::Up { outer, inner } => push_policy_about(out, stamp, ends, outer, inner),
        ItemView::Down { .. }
        | ItemView::UpUnread { .. }
        | ItemView::OtherIp6 { .. }
        | ItemView::Icmp6 { .. }
        | ItemView::Held
        | ItemView::Bad(_) => Ok(0),
    }
}

fn push_policy_about(
    out: &mut Vec<u8>,
    stamp: Stamp,
    ends: Ends,
    outer: &Outer,
    inner: &ReadPacket<'_>,
) -> Result<u32, OutOfMemory>
    ensures pushed { IfOk result (λ count. ArePushed (packet_bytes stamp.form stamp.seconds stamp.fraction)
        (policy6 ends.from ends.to ends.hop outer.now (whole4 (packet4 inner.now.view)) ∷ []) out.old.items out.new.items count) }
    ensures few { IfOk result (λ count. count ≤ 1) }
    ensures kept { IsErr result → Extends out.old.items out.new.items }
{
    let len = policy_len(inner.view.total_len());
    stamp.push_head(out, len)?;
    push_source_policy6(
        out,
        ends.from,
        ends.to,
        ends.hop,
        outer,
        inner.view.header,
        inner.view.payload,
    )?;
    stamp.push_tail(out, len)?;
    Ok(1)
}
