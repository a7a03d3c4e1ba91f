// The packets of a verdict.
ghost use Rattle.std.specs.Prelude.{◌≡◌, ◌≤◌, ◌++◌, true, Some, length, IfOk, IsErr};
ghost use Rattle.std.specs.List.{flat_map};
ghost use Rattle.aftr_base.specs.Appended.{Extends};
ghost use Rattle.capture_io.specs.Packets.{packet_bytes};
ghost use Rattle.ip_codec.specs.Packet4.{packet4};
ghost use Rattle.ip_codec.specs.Seen.{seen};
ghost use Rattle.ip_codec.specs.declared.items.Item.{Item};
ghost use Rattle.packet_render.specs.Pushed.{ArePushed};
ghost use Rattle.packet_render.specs.Sent.{is_forwarded, packet_of_item, sent};
ghost use Rattle.verdict_core.specs.Fitting.{Fits, HasRoom};

use crate::forwarding::{Ends, push_inward, push_outward, push_packet_inward, push_packet_outward};
use crate::replying::push_reply;
use crate::stamps::Stamp;
use aftr_base::OutOfMemory;
use capture_io::Written;
use fragmenter::MOST_PIECES4;
use ip_codec::{ItemView, ReadPacket};
use verdict_core::Verdict;

/// The most packets that are sent for one item: the pieces of an IPv4 packet of 65,535 bytes on a link that takes 576.
pub const MOST_PACKETS: u32 = MOST_PIECES4 as u32;

/// Appends the packets that are sent for an item, by the verdict on it, each as a capture of this form records it, with the time of
/// the item's record (RFC 7596, section 6.2): none for an item that is held or dropped in silence; its IPv4 packet with the time to
/// live one less where it goes out, and the same in the tunnel where it goes to a subscriber, in pieces where it does not fit; an
/// ICMP error where a sender is told. The verdict fits the item, and names sizes that every link takes. `number` is the number of
/// the item's record, which the fragments of a tunnel packet have as identification. It answers how many packets there are. After
/// an `Err` some of them may stand behind what stood there.
pub fn push_packets(
    out: &mut Vec<u8>,
    form: Written,
    item: &ItemView<'_>,
    verdict: &Verdict,
    number: u32,
    seconds: u32,
    fraction: u32,
) -> Result<u32, OutOfMemory>
    requires fits { Fits (seen item.now) verdict.now }
    requires room { HasRoom verdict.now }
    ensures bytes { IfOk result (λ _. out.new.items ≡ out.old.items
        ++ flat_map (packet_bytes form seconds fraction) (sent (seen item.now) verdict.now number)) }
    ensures count { IfOk result (λ count. count ≡ length (sent (seen item.now) verdict.now number)) }
    ensures few { IfOk result (λ count. count ≤ MOST_PACKETS) }
    ensures kept { IsErr result → Extends out.old.items out.new.items }
{
    let stamp = Stamp {
        form,
        seconds,
        fraction,
    };
    let count = push_stamped(out, stamp, item, verdict, number)?;
    Ok(count)
}

/// Appends the packets that `push_packets` appends for an item with a verdict by which its IPv4 packet is forwarded, out or to a
/// subscriber, and with this packet, which is what it needs of the item.
#[inline(always)]
pub fn push_forwarded(
    out: &mut Vec<u8>,
    form: Written,
    packet: &ReadPacket<'_>,
    verdict: &Verdict,
    number: u32,
    seconds: u32,
    fraction: u32,
) -> Result<u32, OutOfMemory>
    requires alive { 1 ≤ packet.now.view.ttl }
    requires forwarded { is_forwarded verdict.now ≡ true }
    requires room { HasRoom verdict.now }
    ensures bytes { IfOk result (λ _. (i : Item) → packet_of_item i ≡ Some (packet4 packet.now.view) →
        out.new.items ≡ out.old.items ++ flat_map (packet_bytes form seconds fraction) (sent i verdict.now number)) }
    ensures count { IfOk result (λ count. (i : Item) → packet_of_item i ≡ Some (packet4 packet.now.view) →
        count ≡ length (sent i verdict.now number)) }
    ensures few { IfOk result (λ count. count ≤ MOST_PACKETS) }
    ensures kept { IsErr result → Extends out.old.items out.new.items }
{
    let stamp = Stamp {
        form,
        seconds,
        fraction,
    };
    match *verdict {
        Verdict::Outward { mtu } => push_packet_outward(out, stamp, packet, mtu),
        Verdict::Inward {
            from,
            to,
            hop,
            mtu,
            ..
        } => {
            let tunnel = Ends { from, to, hop };
            let count = push_packet_inward(out, stamp, packet, tunnel, mtu, number)?;
            Ok(count)
        }
        Verdict::Drop { .. } | Verdict::Held => Ok(0),
    }
}

fn push_stamped(
    out: &mut Vec<u8>,
    stamp: Stamp,
    item: &ItemView<'_>,
    verdict: &Verdict,
    number: u32,
) -> Result<u32, OutOfMemory>
    requires fits { Fits (seen item.now) verdict.now }
    requires room { HasRoom verdict.now }
    ensures pushed { IfOk result (λ count. ArePushed (packet_bytes stamp.form stamp.seconds stamp.fraction)
        (sent (seen item.now) verdict.now number) out.old.items out.new.items count) }
    ensures few { IfOk result (λ count. count ≤ MOST_PACKETS) }
    ensures kept { IsErr result → Extends out.old.items out.new.items }
{
    match *verdict {
        Verdict::Held => Ok(0),
        Verdict::Drop { reply, .. } => push_reply(out, stamp, item, reply),
        Verdict::Outward { mtu } => push_outward(out, stamp, item, mtu),
        Verdict::Inward {
            from,
            to,
            hop,
            mtu,
            ..
        } => push_inward(out, stamp, item, Ends { from, to, hop }, mtu, number),
    }
}
