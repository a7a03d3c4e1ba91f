// IPv4 packets that were read, with what is known of them.
ghost use Rattle.std.specs.Prelude.{◌≡◌, ◌++◌, take, IfOk, IfErr, Ok, Err, is_ok, true};
ghost use Rattle.ip_codec.specs.Packet4.{ip4_of, is_plain, packet4, packet_len, whole4, IsBounded4};

use crate::packet4::{HEADER4_LEN, Ip4Bad, Ip4View, ip4, uncut_view, view_of};
use aftr_base::be16;

/// An IPv4 packet that was read: it reads the same from its header and payload alone, and keeps the format's limits.
#[derive(Clone, Copy, Debug)]
pub struct ReadPacket<'a> {
    pub view: Ip4View<'a>,
    pub ghost alone: { ip4_of (view.header.now ++ view.payload.now) ≡ Ok (packet4 view) },
    pub ghost bounded: { IsBounded4 (packet4 view) },
}

/// Bytes that are no IPv4 packet, and why.
#[derive(Clone, Copy, Debug)]
pub struct Unread<'a> {
    pub bytes: &'a [u8],
    pub why: Ip4Bad,
    pub ghost refused: { ip4_of bytes.now ≡ Err why },
}

/// Reads an IPv4 packet as `ip4` does (RFC 791, section 3.1), and keeps the answer with what it says. Bytes past the packet's
/// total length are left out; bytes that are no packet stay as they are.
#[inline(always)]
pub fn read_packet(bytes: &[u8]) -> Result<ReadPacket<'_>, Unread<'_>>
    ensures read { IfOk result (λ packet. ip4_of bytes.now ≡ Ok (packet4 packet.view)) }
    ensures front { IfOk result (λ packet.
        whole4 (packet4 packet.view) ≡ take (packet_len (packet4 packet.view)) bytes.now) }
    ensures refused { IfErr result (λ unread. ip4_of bytes.now ≡ Err unread.why) }
    ensures kept { IfErr result (λ unread. unread.bytes.now ≡ bytes.now) }
{
    match ip4(bytes) {
        Ok(view) => Ok(ReadPacket { view }),
        Err(why) => Err(Unread { bytes, why }),
    }
}

/// The packet of bytes that are known to be one, as `read_packet` reads it: they are not tested again.
#[inline(always)]
pub fn known_packet(bytes: &[u8]) -> ReadPacket<'_>
    requires { is_ok (ip4_of bytes.now) ≡ true }
    ensures read { ip4_of bytes.now ≡ Ok (packet4 result.view) }
    ensures front { whole4 (packet4 result.view) ≡ take (packet_len (packet4 result.view)) bytes.now }
{
    let header_len = 4 * usize::from(bytes[0] & 0x0f);
    let total_len = usize::from(be16(bytes, 2));
    let view = view_of(&bytes[..header_len], &bytes[header_len..total_len]);
    ReadPacket { view }
}

/// The packet of bytes that `is_plain4` tells, as `read_packet` reads it: they are not tested again.
#[inline(always)]
pub fn plain_packet(bytes: &[u8]) -> ReadPacket<'_>
    requires { is_plain (ip4_of bytes.now) ≡ true }
    ensures read { ip4_of bytes.now ≡ Ok (packet4 result.view) }
    ensures front { whole4 (packet4 result.view) ≡ take (packet_len (packet4 result.view)) bytes.now }
{
    let total_len = usize::from(be16(bytes, 2));
    let view = uncut_view(&bytes[..HEADER4_LEN], &bytes[HEADER4_LEN..total_len]);
    ReadPacket { view }
}
