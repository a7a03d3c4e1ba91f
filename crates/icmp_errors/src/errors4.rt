// The ICMPv4 errors that the router sends.
ghost use Rattle.std.specs.Prelude.{◌≡◌, ◌+◌, ◌^◌, ◌<◌, ◌≤◌, ◌++◌, false, length, take, if◌then◌else◌, is_ok, IfOk, Ok, Some, []};
ghost use Rattle.icmp_codec.specs.Message4.{icmp4_bytes, is_echo};
ghost use Rattle.icmp_codec.specs.Quoted.{EmbeddedPacket, embedded_of};
ghost use Rattle.ip_codec.specs.Packet4.{header4, ip4_of, made4, packet4, packet_len};
ghost use Rattle.icmp_errors.specs.Errors4.{TellsOf, TellsSource, error4, error_about, error_head, error_len};
ghost use Rattle.icmp_errors.specs.Errors4.{exceeded_bytes, most_quoted, too_big_bytes, unreachable_bytes};

use crate::fronts::front;
use aftr_base::{Bytes, OutOfMemory, V4};
use icmp_codec::{ICMP_HEAD_LEN, IcmpHead, UNREACHABLE, push_icmp4};
use ip_codec::{HEADER4_LEN, Head4, ICMP, Ip4View, head4_bytes};
use std::alloc::Global;

// How much of a packet is quoted at most.
const MOST_QUOTED: usize = 548;

// The time to live that hosts start with.
const TTL: u8 = 64;

// Codes and messages (RFC 792; RFC 1191, section 4).
const DF_SET: u8 = 4;

const HOST_UNREACHABLE: IcmpHead = IcmpHead {
    kind: UNREACHABLE,
    code: 1,
    word: 0,
};

const TIME_EXCEEDED: IcmpHead = IcmpHead {
    kind: 11,
    code: 0,
    word: 0,
};

/// How many bytes an ICMPv4 error has that quotes a packet of so many bytes, or the first of them.
pub fn error_len(quoted: usize) -> usize
    ensures { result ≡ error_len quoted }
{
    HEADER4_LEN + ICMP_HEAD_LEN + MOST_QUOTED.min(quoted)
}

/// Destination unreachable, code 1, to the packet's source from the address `own` (RFC 792). It quotes the first 548 bytes
/// of the packet, and has 576 at most.
pub fn host_unreachable(alloc: Global, own: V4, p: &Ip4View<'_>) -> Result<Bytes, OutOfMemory>
    ensures bytes { IfOk result (λ packet. packet ≡ unreachable_bytes own (packet4 p.now)) }
    ensures size { IfOk result (λ packet. length packet ≡ error_len (packet_len (packet4 p.now))) }
    ensures most { IfOk result (λ packet. length packet ≤ 576) }
    ensures told { IfOk result (λ packet. TellsSource own 3 1 0 (packet4 p.now) packet) }
{
    let mut list = Vec::new(alloc);
    push_host_unreachable(&mut list, own, p)?;
    Ok(Bytes::of(list))
}

/// Destination unreachable, code 4, to the packet's source from the address `own`: the packet does not fit, has DF set,
/// and `mtu` bytes would fit (RFC 1191, section 4). It quotes the first 548 bytes of the packet, and has 576 at most.
pub fn too_big(alloc: Global, own: V4, mtu: u16, p: &Ip4View<'_>) -> Result<Bytes, OutOfMemory>
    ensures bytes { IfOk result (λ packet. packet ≡ too_big_bytes own mtu (packet4 p.now)) }
    ensures size { IfOk result (λ packet. length packet ≡ error_len (packet_len (packet4 p.now))) }
    ensures most { IfOk result (λ packet. length packet ≤ 576) }
    ensures told { IfOk result (λ packet. TellsSource own 3 4 mtu (packet4 p.now) packet) }
{
    let mut list = Vec::new(alloc);
    push_too_big(&mut list, own, mtu, p)?;
    Ok(Bytes::of(list))
}

/// Time exceeded in transit to the packet's source from the address `own` (RFC 792). It quotes the first 548 bytes of the
/// packet, and has 576 at most.
pub fn time_exceeded(alloc: Global, own: V4, p: &Ip4View<'_>) -> Result<Bytes, OutOfMemory>
    ensures bytes { IfOk result (λ packet. packet ≡ exceeded_bytes own (packet4 p.now)) }
    ensures size { IfOk result (λ packet. length packet ≡ error_len (packet_len (packet4 p.now))) }
    ensures most { IfOk result (λ packet. length packet ≤ 576) }
    ensures told { IfOk result (λ packet. TellsSource own 11 0 0 (packet4 p.now) packet) }
{
    let mut list = Vec::new(alloc);
    push_time_exceeded(&mut list, own, p)?;
    Ok(Bytes::of(list))
}

/// Appends what `host_unreachable` writes. Where there is no memory, the list stays as it was.
pub fn push_host_unreachable(
    list: &mut Vec<u8>,
    own: V4,
    p: &Ip4View<'_>,
) -> Result<(), OutOfMemory>
    ensures bytes { list.new.items ≡ (if is_ok result then list.old.items ++ unreachable_bytes own (packet4 p.now) else list.old.items) }
    ensures size { length (unreachable_bytes own (packet4 p.now)) ≡ error_len (packet_len (packet4 p.now)) }
    ensures told { IfOk result (λ _. TellsSource own 3 1 0 (packet4 p.now) (unreachable_bytes own (packet4 p.now))) }
{
    push_about(list, own, HOST_UNREACHABLE, p)
}

/// Appends what `too_big` writes. Where there is no memory, the list stays as it was.
pub fn push_too_big(
    list: &mut Vec<u8>,
    own: V4,
    mtu: u16,
    p: &Ip4View<'_>,
) -> Result<(), OutOfMemory>
    ensures bytes { list.new.items ≡ (if is_ok result then list.old.items ++ too_big_bytes own mtu (packet4 p.now) else list.old.items) }
    ensures size { length (too_big_bytes own mtu (packet4 p.now)) ≡ error_len (packet_len (packet4 p.now)) }
    ensures told { IfOk result (λ _. TellsSource own 3 4 mtu (packet4 p.now) (too_big_bytes own mtu (packet4 p.now))) }
{
    let head = IcmpHead {
        kind: UNREACHABLE,
        code: DF_SET,
        word: u32::from(mtu),
    };
    push_about(list, own, head, p)
}

/// Appends what `time_exceeded` writes. Where there is no memory, the list stays as it was.
pub fn push_time_exceeded(list: &mut Vec<u8>, own: V4, p: &Ip4View<'_>) -> Result<(), OutOfMemory>
    ensures bytes { list.new.items ≡ (if is_ok result then list.old.items ++ exceeded_bytes own (packet4 p.now) else list.old.items) }
    ensures size { length (exceeded_bytes own (packet4 p.now)) ≡ error_len (packet_len (packet4 p.now)) }
    ensures told { IfOk result (λ _. TellsSource own 11 0 0 (packet4 p.now) (exceeded_bytes own (packet4 p.now))) }
{
    push_about(list, own, TIME_EXCEEDED, p)
}

// An error about a packet to its source.
fn push_about(
    list: &mut Vec<u8>,
    own: V4,
    head: IcmpHead,
    p: &Ip4View<'_>,
) -> Result<(), OutOfMemory>
    requires { is_echo head.kind ≡ false }
    ensures bytes { list.new.items ≡ (if is_ok result
        then list.old.items ++ error_about own head.kind head.code head.word (packet4 p.now) else list.old.items) }
    ensures size { length (error_about own head.kind head.code head.word (packet4 p.now)) ≡ error_len (packet_len (packet4 p.now)) }
    ensures told { IfOk result (λ _.
        TellsSource own head.kind head.code head.word (packet4 p.now) (error_about own head.kind head.code head.word (packet4 p.now))) }
{
    push_error4(list, own, p.src, head, p.header, p.payload)
}

/// Appends an ICMPv4 error from the address `own`, with this type, code and word, to another address. It quotes the first
/// 548 bytes of a packet, whose header and payload stand one behind the other. Where there is no memory, the list stays
/// as it was.
pub fn push_error4(
    list: &mut Vec<u8>,
    own: V4,
    to: V4,
    head: IcmpHead,
    header: &[u8],
    payload: &[u8],
) -> Result<(), OutOfMemory>
    ensures bytes { list.new.items ≡ (if is_ok result
        then list.old.items ++ error4 own to head.kind head.code head.word (header.now ++ payload.now) else list.old.items) }
    ensures size { length (error4 own to head.kind head.code head.word (header.now ++ payload.now)) ≡ error_len (length header.now + length payload.now) }

    // It is read as a packet from one address to the other, which holds the message.
    ensures read { IfOk result (λ _. ip4_of (error4 own to head.kind head.code head.word (header.now ++ payload.now))
        ≡ Ok (made4 (error_head own to) [] (icmp4_bytes head.kind head.code head.word (take most_quoted (header.now ++ payload.now))))) }

    // Where it quotes a packet, that is the packet that it is about.
    ensures told { IfOk result (λ _. is_echo head.kind ≡ false → (quoted : EmbeddedPacket) → embedded_of (header.now ++ payload.now) ≡ Some quoted →
        TellsOf own to head.kind head.code head.word (header.now ++ payload.now) quoted
        (error4 own to head.kind head.code head.word (header.now ++ payload.now))) }
{
    let quote = front(header, MOST_QUOTED);
    let more = front(payload, MOST_QUOTED - quote.len());
    let message_len = ICMP_HEAD_LEN + quote.len() + more.len();
    list.reserve(HEADER4_LEN + message_len)?;
    list.extend_from_slice(&error_header(own, to, message_len as u16))?;
    push_icmp4(list, head, quote, more)
}

// The header of an error, before a message of this length.
fn error_header(own: V4, to: V4, message_len: u16) -> [u8; 20]
    requires { message_len ≤ 556 }
    ensures bytes { result ≡ header4 (error_head own to) [] message_len }
    ensures addresses_fit { (own.0 < 2 ^ 32) × (to.0 < 2 ^ 32) }
{
    let head = Head4 {
        tos: 0,
        id: 0,
        reserved: false,
        df: true,
        mf: false,
        offset: 0,
        ttl: TTL,
        protocol: ICMP,
        src: own,
        dst: to,
    };
    head4_bytes(head, message_len)
}
