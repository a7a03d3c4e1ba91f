// IPv4 packets cut into pieces.
ghost use Rattle.std.specs.Prelude.{◌≡◌, ◌≢◌, ℕ, ◌+◌, ◌-◌, ◌*◌, ◌/◌, ◌%◌, ◌<◌, ◌≤◌, ◌++◌, ◌∷◌, ◌==◌, if◌then◌else◌};
ghost use Rattle.std.specs.Prelude.{[], false, length, drop, IfOk, IsOk, IsErr, IfSome, MatchOption, Ok};
ghost use Rattle.ip_codec.specs.Packet4.{packet4, ip4_of, packet_len, is_fragment, Packet4, IsBounded4};
ghost use Rattle.fragmenter.specs.Kept.{copied_of};
ghost use Rattle.fragmenter.specs.Pieces4.{Pieces4, pieces4, fragments4, options_at, piece_head, room4};

use crate::options::{Options, copied};
use crate::single::only;
use aftr_base::{Bytes, OutOfMemory, Packets};
use ip_codec::{HEADER4_LEN, Head4, Ip4View, known_packet, push_head4};
use std::alloc::Global;

/// The most pieces that `cut4` and `Cuts4` give: a payload of 65,515 bytes or less on a link that takes 576, behind headers of
/// 60 bytes or less.
pub const MOST_PIECES4: usize = 128;

/// The pieces of an IPv4 packet that are not written yet (RFC 791, section 3.2), one after the other.
#[derive(Drop)]
pub struct Cuts4<'a> {
    packet: Ip4View<'a>,
    // The options of every piece but the first.
    copied: Options,
    mtu: u16,
    // How many bytes of the payload the pieces that were written carry.
    before: usize,
    ghost options: { copied ≡ copied_of (drop 20 packet.header.now) },
    ghost whole_words: { length copied % 4 ≡ 0 },
    ghost no_more: { length copied ≤ 40 },
    ghost least_mtu: { 576 ≤ mtu },
    ghost header_words: { length packet.header.now % 4 ≡ 0 },
    ghost least_header: { 20 ≤ length packet.header.now },
    ghost most_header: { length packet.header.now ≤ 60 },
    ghost most: { length packet.header.now + length packet.payload.now ≤ 65535 },
    ghost place: { before ≤ length packet.payload.now },
}

impl<'a> Cuts4<'a> {
    ghost use Rattle.aftr_base.specs.Appended.{Extends};
    ghost use Rattle.fragmenter.specs.Cutting.{HasFirst, IsWritten, part_len};
    ghost use Rattle.fragmenter.specs.Left4.{left4};

    /// The pieces of a packet that does not fit a link, for links that take 576 bytes or more. `packet` is one that `ip4`
    /// reads, and no fragment; of its header nothing but the options is taken from the bytes, so its time to live may be
    /// lowered in the field alone. Takes no memory.
    pub fn of(packet: &Ip4View<'a>, mtu: u16) -> Self
        requires bounded { IsBounded4 (packet4 packet.now) }
        requires least_mtu { 576 ≤ mtu }
        ensures left { left4 result ≡ fragments4 (packet4 packet.now) mtu 0 }
        ensures few { length (left4 result) ≤ MOST_PIECES4 }
    {
        Cuts4 {
            packet: *packet,
            copied: copied(&packet.header[HEADER4_LEN..]),
            mtu,
            before: 0,
        }
    }

    /// How many bytes the next piece has; none where all are written.
    pub fn next_len(&self) -> Option<usize>
        ensures first { MatchOption result (left4 self.now ≡ []) (λ len. HasFirst (left4 self.now) len) }
        ensures small { IfSome result (λ len. len ≤ 65535) }
    {
        if self.before == self.packet.payload.len() {
            None
        } else {
            Some(HEADER4_LEN + self.options().len() + self.part_len())
        }
    }

    /// Appends the next piece. After an `Err` some of it may stand behind what stood there, and it
    /// is the next one still.
    pub fn push_next(&mut self, out: &mut Vec<u8>) -> Result<(), OutOfMemory>
        requires { left4 self.old ≢ [] }
        ensures written { IfOk result (λ _. IsWritten (left4 self.old) (left4 self.new) out.old.items out.new.items) }
        ensures kept { IsErr result → left4 self.new ≡ left4 self.old }
        ensures list_kept { IsErr result → Extends out.old.items out.new.items }
    {
        let end = self.before + self.part_len();
        let more = end < self.packet.payload.len();
        let part = &self.packet.payload[self.before..end];
        let head = head_of(&self.packet, self.before, more);
        let options = self.options();
        push_head4(out, &head, options, part.len())?;
        out.extend_from_slice(part)?;
        self.before = end;
        Ok(())
    }

    // The options of the next piece.
    fn options(&self) -> &[u8]
        ensures are { result.now ≡ options_at (packet4 self.now.packet) self.now.before }
        ensures few { length result.now ≤ 40 }
    {
        if self.before == 0 {
            &self.packet.header[HEADER4_LEN..]
        } else {
            self.copied.as_slice()
        }
    }

    // How many bytes of the payload the next piece carries.
    fn part_len(&self) -> usize
        ensures part { result ≡ part_len (room4 (packet4 self.now.packet) self.now.mtu self.now.before)
            (drop self.now.before self.now.packet.payload.now) }
        ensures within { self.now.before + result ≤ length self.now.packet.payload.now }
        ensures small { result + 20 + length (options_at (packet4 self.now.packet) self.now.before) ≤ 65535 }
    {
        let room = usize::from(self.mtu) - (HEADER4_LEN + self.options().len());
        let left = self.packet.payload.len() - self.before;
        if room < left { room / 8 * 8 } else { left }
    }
}

// The fields of a piece.
fn head_of(packet: &Ip4View<'_>, before: usize, more: bool) -> Head4
    requires { before ≤ 65535 }
    ensures { result ≡ piece_head (packet4 packet.now) before more }
{
    Head4 {
        tos: packet.tos,
        id: packet.id,
        reserved: packet.reserved,
        df: false,
        mf: more,
        offset: (before / 8) as u16,
        ttl: packet.ttl,
        protocol: packet.protocol,
        src: packet.src,
        dst: packet.dst,
    }
}

/// The packets that an IPv4 packet becomes on a link, in order: itself where it has at most `mtu` bytes, and else pieces
/// (RFC 791, section 3.2). `packet` is one that `ip4` reads and no fragment, whose DF is clear where it does not fit; bytes
/// behind it are left out. A link takes 576 bytes or more.
pub fn cut4(alloc: Global, packet: &[u8], mtu: u16) -> Result<Packets, OutOfMemory>
    requires read { IsOk (ip4_of packet.now) }
    requires whole { (p : Packet4) → ip4_of packet.now ≡ Ok p → is_fragment p ≡ false }
    requires may_be_cut { (p : Packet4) → ip4_of packet.now ≡ Ok p → mtu < packet_len p → p.df ≡ false }
    requires least_mtu { 576 ≤ mtu }
    ensures pieces { IfOk result (λ list. (p : Packet4) → ip4_of packet.now ≡ Ok p → Pieces4 p mtu list) }
    ensures only { IfOk result (λ list. (p : Packet4) → ip4_of packet.now ≡ Ok p → list ≡ pieces4 p mtu) }
    ensures few { IfOk result (λ list. length list ≤ MOST_PIECES4) }
{
    let view = known_packet(packet).view;
    if view.total_len() <= usize::from(mtu) {
        return only(alloc, &packet[..view.total_len()]);
    }
    let list = cut_view(alloc, &view, mtu)?;
    Ok(list)
}

// All pieces of a packet that does not fit.
fn cut_view(alloc: Global, packet: &Ip4View<'_>, mtu: u16) -> Result<Packets, OutOfMemory>
    requires bounded { IsBounded4 (packet4 packet.now) }
    requires least_mtu { 576 ≤ mtu }
    ensures { IfOk result (λ list. list ≡ fragments4 (packet4 packet.now) mtu 0) }
{
    let mut list = Vec::new(alloc);
    let mut cuts = Cuts4::of(packet, mtu);
    'pieces: while let Some(len) = cuts.next_len() {
        let mut piece = Vec::with_capacity(alloc, len)?;
        cuts.push_next(&mut piece)?;
        list.push(Bytes::of(piece))?;
    }
    Ok(Packets::of(list))
}
