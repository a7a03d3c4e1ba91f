// Packets that do not fit, in pieces.
ghost use Rattle.std.specs.Prelude.{◌≡◌, ◌+◌, ◌≤◌, length, IfOk, IsErr};
ghost use Rattle.aftr_base.specs.Appended.{Extends};
ghost use Rattle.capture_io.specs.Packets.{packet_bytes};
ghost use Rattle.fragmenter.specs.Pieces4.{fragments4};
ghost use Rattle.fragmenter.specs.Pieces6.{fragments6, with_rest};
ghost use Rattle.ip_codec.specs.Packet4.{packet4, IsBounded4};
ghost use Rattle.ip_codec.specs.Packet6.{packet6};
ghost use Rattle.packet_render.specs.Pushed.{ArePushed};

use crate::stamps::Stamp;
use aftr_base::OutOfMemory;
use fragmenter::{Cuts4, Cuts6, MOST_PIECES4, MOST_PIECES6};
use ip_codec::{Ip4View, Ip6View};

// Appends the pieces of an IPv4 packet that does not fit. Of its header's bytes nothing but the options is taken.
#[inline(never)]
pub(crate) fn push_pieces4(
    out: &mut Vec<u8>,
    stamp: Stamp,
    packet: &Ip4View<'_>,
    mtu: u16,
) -> Result<u32, OutOfMemory>
    requires bounded { IsBounded4 (packet4 packet.now) }
    requires least_mtu { 576 ≤ mtu }
    ensures pushed { IfOk result (λ count. ArePushed (packet_bytes stamp.form stamp.seconds stamp.fraction)
        (fragments4 (packet4 packet.now) mtu 0) out.old.items out.new.items count) }
    ensures few { IfOk result (λ count. count ≤ MOST_PIECES4) }
    ensures kept { IsErr result → Extends out.old.items out.new.items }
{
    let mut cuts = Cuts4::of(packet, mtu);
    let mut count = 0;
    'pieces: while let Some(len) = cuts.next_len() {
        stamp.push_head(out, len)?;
        cuts.push_next(out)?;
        stamp.push_tail(out, len)?;
        count += 1;
    }
    Ok(count)
}

// Appends the fragments of a tunnel packet that does not fit. What its body has behind that of the view stands in `rest`.
#[inline(never)]
pub(crate) fn push_pieces6(
    out: &mut Vec<u8>,
    stamp: Stamp,
    packet: &Ip6View<'_>,
    rest: &[u8],
    mtu: u16,
    id: u32,
) -> Result<u32, OutOfMemory>
    requires least_mtu { 1280 ≤ mtu }
    requires most { length packet.now.body.now + length rest.now ≤ 65535 }
    ensures pushed { IfOk result (λ count. ArePushed (packet_bytes stamp.form stamp.seconds stamp.fraction)
        (fragments6 (with_rest (packet6 packet.now) rest.now) mtu id 0) out.old.items out.new.items count) }
    ensures few { IfOk result (λ count. count ≤ MOST_PIECES6) }
    ensures kept { IsErr result → Extends out.old.items out.new.items }
{
    let mut cuts = Cuts6::of(packet, rest, mtu, id);
    let mut count = 0;
    'pieces: while let Some(len) = cuts.next_len() {
        stamp.push_head(out, len)?;
        cuts.push_next(out)?;
        stamp.push_tail(out, len)?;
        count += 1;
    }
    Ok(count)
}
