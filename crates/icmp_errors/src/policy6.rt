// The ICMPv6 error to a subscriber whose packets no binding covers.
ghost use Rattle.std.specs.Prelude.{◌≡◌, ◌+◌, ◌^◌, ◌<◌, ◌≤◌, ◌++◌, min, take, length, if◌then◌else◌, is_ok, IfOk};
ghost use Rattle.icmp_errors.specs.Policy6.{TellsPolicy, policy6, policy_len, quoted_head};
ghost use Rattle.ip_codec.specs.Packet6.{header6};

use crate::fronts::front;
use aftr_base::{Bytes, OutOfMemory, V6};
use icmp_codec::{ICMP_HEAD_LEN, IcmpHead, push_icmp6};
use ip_codec::{HEADER6_LEN, Head6, ICMP6, IPV4_IN_IPV6, Outer, VERSION6, head6_bytes};
use std::alloc::Global;

// How much of the inner packet is quoted at most behind the header of its tunnel.
const MOST_INNER: usize = 1192;

// Destination unreachable: the source address failed the ingress or egress policy (RFC 4443, section 3.1).
const SOURCE_POLICY: IcmpHead = IcmpHead {
    kind: 1,
    code: 5,
    word: 0,
};

/// How many bytes the error has about an inner packet of so many bytes, at most 65,535.
pub fn policy_len(inner: usize) -> usize
    requires { inner ≤ 65535 }
    ensures { result ≡ policy_len inner }
{
    HEADER6_LEN + ICMP_HEAD_LEN + (HEADER6_LEN + MOST_INNER).min(HEADER6_LEN + inner)
}

/// Destination unreachable, code 5, from one address to another with this hop limit (RFC 7596, section 6.2; RFC 4443,
/// section 3.1). It quotes the tunnel packet that came: its header's first word, hop limit and addresses, and the inner
/// packet of at most 65,535 bytes. It quotes 1,232 bytes at most, and has 1,280 at most.
pub fn source_policy6(
    alloc: Global,
    from: V6,
    to: V6,
    hop: u8,
    outer: &Outer,
    inner: &[u8],
) -> Result<Bytes, OutOfMemory>
    requires { length inner.now ≤ 65535 }
    ensures bytes { IfOk result (λ packet. packet ≡ policy6 from to hop outer.now inner.now) }
    ensures size { IfOk result (λ packet. length packet ≡ policy_len (length inner.now)) }
    ensures most { IfOk result (λ packet. length packet ≤ 1280) }
    ensures told { IfOk result (λ packet. TellsPolicy from to hop outer.now inner.now packet) }
{
    let mut list = Vec::new(alloc);
    push_source_policy6(&mut list, from, to, hop, outer, &[], inner)?;
    Ok(Bytes::of(list))
}

/// Appends what `source_policy6` writes, of an inner packet whose header and payload stand one behind the other. Where there
/// is no memory, the list stays as it was.
pub fn push_source_policy6(
    list: &mut Vec<u8>,
    from: V6,
    to: V6,
    hop: u8,
    outer: &Outer,
    header: &[u8],
    payload: &[u8],
) -> Result<(), OutOfMemory>
    requires header { length header.now ≤ 60 }
    requires most { length header.now + length payload.now ≤ 65535 }
    ensures bytes { list.new.items ≡ (if is_ok result then list.old.items ++ policy6 from to hop outer.now (header.now ++ payload.now) else list.old.items) }
    ensures size { length (policy6 from to hop outer.now (header.now ++ payload.now)) ≡ policy_len (length header.now + length payload.now) }
    ensures told { IfOk result (λ _.
        TellsPolicy from to hop outer.now (header.now ++ payload.now) (policy6 from to hop outer.now (header.now ++ payload.now))) }
{
    let head = Head6 {
        word: VERSION6,
        next: ICMP6,
        hop,
        src: from,
        dst: to,
    };
    let tunnel = tunnel_header(outer, (header.len() + payload.len()) as u16);
    let headers = joined(&tunnel, header);
    let quote = front(&headers, HEADER6_LEN + header.len());
    let more = front(payload, MOST_INNER - header.len());
    let message_len = ICMP_HEAD_LEN + HEADER6_LEN + header.len() + more.len();
    list.reserve(HEADER6_LEN + message_len)?;
    list.extend_from_slice(&head6_bytes(head, message_len as u16))?;
    push_icmp6(list, from, to, SOURCE_POLICY, quote, more)
}

// The header of a tunnel, and the inner packet's header behind it.
fn joined(tunnel: &[u8; 40], header: &[u8]) -> [u8; 100]
    requires { length header.now ≤ 60 }
    ensures { take (40 + length header.now) result ≡ tunnel.now ++ header.now }
{
    let mut bytes = [0; 100];
    bytes[..HEADER6_LEN].copy_from_slice(tunnel);
    bytes[HEADER6_LEN..HEADER6_LEN + header.len()].copy_from_slice(header);
    bytes
}

// The header of the tunnel packet that came, with IPv4 behind it and this payload length.
fn tunnel_header(outer: &Outer, payload_len: u16) -> [u8; 40]
    ensures { result ≡ header6 (quoted_head outer.now) payload_len }
{
    let head = Head6 {
        word: outer.word,
        next: IPV4_IN_IPV6,
        hop: outer.hop,
        src: outer.src,
        dst: outer.dst,
    };
    head6_bytes(head, payload_len)
}
