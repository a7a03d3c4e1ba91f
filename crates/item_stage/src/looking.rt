// A look at a record, before it is read.
ghost use Rattle.std.specs.Prelude.{◌≡◌, true, false};
ghost use Rattle.ip_codec.specs.Packet4.{ip4_of};
ghost use Rattle.ip_codec.specs.Packet6.{ip6_of};
ghost use Rattle.item_stage.specs.Alone.{alone_of, from_network, from_tunnel, needs_lane};
ghost use Rattle.item_stage.specs.Looks.{is_extension, is_uncut};

use aftr_base::be16;
use capture_io::{Form, Frame, frame_of};
use ip_codec::{FRAGMENT, HEADER4_LEN, HEADER6_LEN, IPV4_IN_IPV6};
use ipv6_chain::is_skipped;

/// Whether no lane takes anything of these bytes, as far as the fragment's bits and the number of the next header tell: where
/// they do not, the record has to be read.
#[inline(always)]
pub(crate) fn needs_no_lane(form: Form, bytes: &[u8]) -> bool
    ensures { result ≡ true → needs_lane (alone_of form bytes.now) ≡ false }
{
    match frame_of(form.link, bytes) {
        Frame::V4(packet) => is_whole(packet),
        Frame::V6(packet) => carries_whole(packet),
        Frame::Short => true,
        Frame::Kind => true,
    }
}

// An IPv4 packet from the IPv4 network that is no fragment.
fn is_whole(packet: &[u8]) -> bool
    ensures { result ≡ true → needs_lane (from_network (ip4_of packet.now)) ≡ false }
{
    is_uncut(packet)
}

// An IPv6 packet with no extension header, and no fragment in it.
fn carries_whole(packet: &[u8]) -> bool
    ensures { result ≡ true → needs_lane (from_tunnel (ip6_of packet.now)) ≡ false }
{
    if packet.len() < HEADER6_LEN {
        return true;
    }
    let next = packet[6];
    if next == IPV4_IN_IPV6 {
        return is_uncut(&packet[HEADER6_LEN..]);
    }
    !is_extension(next)
}

// Whether a walk over headers goes past one with this number, or ends behind it.
fn is_extension(next: u8) -> bool
    ensures { result ≡ is_extension next }
{
    is_skipped(next) || next == FRAGMENT
}

// Whether an IPv4 header has no bit of a fragment, or there are too few bytes for one.
fn is_uncut(bytes: &[u8]) -> bool
    ensures { result ≡ is_uncut bytes.now }
{
    bytes.len() < HEADER4_LEN || be16(bytes, 6) % 0x4000 == 0
}
