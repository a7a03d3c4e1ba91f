// Tunnel packets cut into fragments.
ghost use Rattle.std.specs.Prelude.{◌≡◌, ◌≢◌, ℕ, ◌+◌, ◌-◌, ◌*◌, ◌/◌, ◌%◌, ◌<◌, ◌≤◌, ◌++◌, [], length, drop, take, IfOk, IsOk, IsErr, IfSome, MatchOption, Ok};
ghost use Rattle.ip_codec.specs.Packet6.{packet6, ip6_of, Packet6};
ghost use Rattle.fragmenter.specs.Pieces6.{Pieces6, pieces6, fragments6, room6, with_rest};

use crate::headers::push_piece6;
use crate::single::only;
use aftr_base::{Bytes, OutOfMemory, Packets};
use ip_codec::{FRAGMENT_LEN, HEADER6_LEN, Ip6View, ip6};
use std::alloc::Global;

/// The most fragments that `cut6` and `Cuts6` give: a body of 65,535 bytes on a link that takes 1,280.
pub const MOST_PIECES6: usize = 54;

// How many bytes the headers of a fragment have: the IPv6 header, and the Fragment header behind it (RFC 8200, sections 3 and
// 4.5).
const HEADERS: usize = HEADER6_LEN + FRAGMENT_LEN;

/// The fragments of a tunnel packet that are not written yet (RFC 8200, section 4.5), one after the other.
#[derive(Drop)]
pub struct Cuts6<'a> {
    packet: Ip6View<'a>,
    // What stands behind the view's body.
    rest: &'a [u8],
    mtu: u16,
    id: u32,
    // How many bytes of the body the fragments that were written carry.
    before: usize,
    ghost least_mtu: { 1280 ≤ mtu },
    ghost most: { length packet.body.now + length rest.now ≤ 65535 },
    ghost place: { before ≤ length packet.body.now + length rest.now },
}

impl<'a> Cuts6<'a> {
    ghost use Rattle.aftr_base.specs.Appended.{Extends};
    ghost use Rattle.fragmenter.specs.Cutting.{HasFirst, IsWritten, part_len};
    ghost use Rattle.fragmenter.specs.Left6.{left6};

    /// The fragments of a packet that does not fit a link, for links that take 1,280 bytes or more. `packet` is one that `ip6`
    /// reads, without extension headers; `rest` is what its body has behind that of the view, so that a body in two parts is
    /// cut where it stands. `id` is their identification.
    pub fn of(packet: &Ip6View<'a>, rest: &'a [u8], mtu: u16, id: u32) -> Self
        requires least_mtu { 1280 ≤ mtu }
        requires most { length packet.now.body.now + length rest.now ≤ 65535 }
        ensures left { left6 result ≡ fragments6 (with_rest (packet6 packet.now) rest.now) mtu id 0 }
        ensures few { length (left6 result) ≤ MOST_PIECES6 }
    {
        Cuts6 {
            packet: *packet,
            rest,
            mtu,
            id,
            before: 0,
        }
    }

    /// How many bytes the next fragment has; none where all are written.
    pub fn next_len(&self) -> Option<usize>
        ensures first { MatchOption result (left6 self.now ≡ []) (λ len. HasFirst (left6 self.now) len) }
        ensures small { IfSome result (λ len. len ≤ 65535) }
    {
        if self.before == self.body_len() {
            None
        } else {
            Some(HEADERS + self.part_len())
        }
    }

    /// Appends the next fragment. After an `Err` some of it may stand behind what stood there, and it
    /// is the next one still.
    pub fn push_next(&mut self, out: &mut Vec<u8>) -> Result<(), OutOfMemory>
        requires { left6 self.old ≢ [] }
        ensures written { IfOk result (λ _. IsWritten (left6 self.old) (left6 self.new) out.old.items out.new.items) }
        ensures kept { IsErr result → left6 self.new ≡ left6 self.old }
        ensures list_kept { IsErr result → Extends out.old.items out.new.items }
    {
        let len = self.part_len();
        let end = self.before + len;
        let more = end < self.body_len();
        let first = part_of(self.packet.body, self.before, len);
        let behind = self.before.saturating_sub(self.packet.body.len());
        let second = part_of(self.rest, behind, len - first.len());
        push_piece6(out, &self.packet, self.id, self.before, more, first, second)?;
        self.before = end;
        Ok(())
    }

    // How many bytes the body has.
    fn body_len(&self) -> usize
        ensures { result ≡ length (self.now.packet.body.now ++ self.now.rest.now) }
    {
        self.packet.body.len() + self.rest.len()
    }

    // How many bytes of the body the next fragment carries.
    fn part_len(&self) -> usize
        ensures part { result ≡ part_len (room6 self.now.mtu self.now.before)
            (drop self.now.before (self.now.packet.body.now ++ self.now.rest.now)) }
        ensures within { self.now.before + result ≤ length (self.now.packet.body.now ++ self.now.rest.now) }
        ensures small { result ≤ 65487 }
    {
        let room = (usize::from(self.mtu) - HEADERS) / 8 * 8;
        let left = self.body_len() - self.before;
        if room < left { room } else { left }
    }
}

// The bytes of a list from a place on, so many at most.
fn part_of(list: &[u8], from: usize, len: usize) -> &[u8]
    ensures { result.now ≡ take len (drop from list.now) }
{
    let rest = &list[from.min(list.len())..];
    &rest[..len.min(rest.len())]
}

/// The packets that a tunnel packet becomes on a link, in order: itself where it has at most `mtu` bytes, and else fragments
/// with the identification `id` (RFC 8200, section 4.5). `packet` is one whole packet without extension headers, as the header
/// of a tunnel makes it, and a link takes 1,280 bytes or more.
pub fn cut6(alloc: Global, packet: &[u8], mtu: u16, id: u32) -> Result<Packets, OutOfMemory>
    requires read { IsOk (ip6_of packet.now) }
    requires whole { (p : Packet6) → ip6_of packet.now ≡ Ok p → length packet.now ≡ 40 + length p.body }
    requires least_mtu { 1280 ≤ mtu }
    ensures pieces { IfOk result (λ list. (p : Packet6) → ip6_of packet.now ≡ Ok p → Pieces6 packet.now p mtu id list) }
    ensures only { IfOk result (λ list. (p : Packet6) → ip6_of packet.now ≡ Ok p → list ≡ pieces6 packet.now p mtu id) }
    ensures few { IfOk result (λ list. length list ≤ MOST_PIECES6) }
{
    if packet.len() <= usize::from(mtu) {
        return only(alloc, packet);
    }
    let Ok(view) = ip6(packet) else {
        unreachable!();
    };
    let list = cut_view(alloc, &view, mtu, id)?;
    Ok(list)
}

// All fragments of a packet that does not fit.
fn cut_view(alloc: Global, packet: &Ip6View<'_>, mtu: u16, id: u32) -> Result<Packets, OutOfMemory>
    requires least_mtu { 1280 ≤ mtu }
    requires most { length packet.now.body.now ≤ 65535 }
    ensures { IfOk result (λ list. list ≡ fragments6 (packet6 packet.now) mtu id 0) }
{
    let mut list = Vec::new(alloc);
    let mut cuts = Cuts6::of(packet, &[], mtu, id);
    'pieces: while let Some(len) = cuts.next_len() {
        let mut piece = Vec::with_capacity(alloc, len)?;
        cuts.push_next(&mut piece)?;
        list.push(Bytes::of(piece))?;
    }
    Ok(Packets::of(list))
}
