// IPv4 packets in IPv6 packets.
ghost use Rattle.std.specs.Prelude.{◌≡◌, ℕ, ◌+◌, ◌*◌, ◌≤◌, ◌++◌, List, length, IfOk, IsErr, Ok};
ghost use Rattle.aftr_base.specs.Appended.{Extends};
ghost use Rattle.ip_codec.specs.Packet4.{ip4_of, packet4, packet_len};
ghost use Rattle.ip_codec.specs.Packet6.{Packet6, ip6_of, packet6};
ghost use Rattle.softwire_encap.specs.Passing.{lowered};
ghost use Rattle.softwire_encap.specs.Tunnel.{IsFirstWord, tos_of, tunnel_front, tunnel_head, with_body, wrapped, tunnelled};

use crate::passing::push_lowered;
use aftr_base::{Bytes, OutOfMemory, V6};
use ip_codec::{Head6, IPV4_IN_IPV6, Ip4View, Ip6View, VERSION6, push_head6, put6};
use std::alloc::Global;

// How far the traffic class is moved up in the first word of an IPv6 header (RFC 8200, section 3).
const CLASS: u32 = 0x10_0000;

/// The tunnel packet that carries the packet `inner` from one end of the tunnel to the other, in memory of its own final
/// size (RFC 2473, sections 5 and 6; RFC 7596, section 6.2). The traffic class is the inner type of service, the flow
/// label is 0, and `hop` is the hop limit. `inner` has 20 to 65,535 bytes.
pub fn encap(alloc: Global, from: V6, to: V6, hop: u8, inner: &[u8]) -> Result<Bytes, OutOfMemory>
    requires least { 20 ≤ length inner.now }
    requires most { length inner.now ≤ 65535 }
    ensures bytes { IfOk result (λ packet. packet ≡ wrapped from to hop inner.now) }
    ensures read { IfOk result (λ packet. ip6_of packet ≡ Ok (tunnelled from to hop inner.now)) }
    ensures first_word { IfOk result (λ packet.
        (p : Packet6) → ip6_of packet ≡ Ok p → IsFirstWord p.word (tos_of inner.now) 0) }
    ensures size { IfOk result (λ packet. length packet ≡ length inner.now + 40) }
{
    put6(alloc, &tunnel_head(from, to, hop, inner[1]), inner)
}

// The fields of the header, before a packet with this type of service.
fn tunnel_head(from: V6, to: V6, hop: u8, tos: u8) -> Head6
    ensures { result ≡ tunnel_head from to hop tos }
{
    Head6 {
        word: first_word(tos),
        next: IPV4_IN_IPV6,
        hop,
        src: from,
        dst: to,
    }
}

// Its first word.
fn first_word(tos: u8) -> u32
    ensures { result ≡ 6 * 268435456 + tos * 1048576 }
{
    VERSION6 + u32::from(tos) * CLASS
}

/// The tunnel packet that `encap` makes of `inner`, as a view of it. `inner` has 20 bytes or more; with more bytes behind it, the
/// tunnel packet differs in nothing but its body.
pub fn tunnel_view<'a>(from: V6, to: V6, hop: u8, inner: &'a [u8]) -> Ip6View<'a>
    requires { 20 ≤ length inner.now }
    ensures is { packet6 result ≡ tunnelled from to hop inner.now }
    ensures longer { (rest : List ℕ) → with_body (packet6 result) (inner.now ++ rest) ≡ tunnelled from to hop (inner.now ++ rest) }
{
    let head = tunnel_head(from, to, hop, inner[1]);
    Ip6View {
        word: head.word,
        next: head.next,
        hop: head.hop,
        src: head.src,
        dst: head.dst,
        body: inner,
    }
}

/// Appends the header of the tunnel packet that `encap` makes, for an inner packet of `len` bytes with the type of service `tos`.
/// The inner packet goes behind it. After an `Err` some of the header may stand behind what stood there.
#[inline(always)]
pub fn push_tunnel_head(
    out: &mut Vec<u8>,
    from: V6,
    to: V6,
    hop: u8,
    tos: u8,
    len: u16,
) -> Result<(), OutOfMemory>
    ensures bytes { IfOk result (λ _. out.new.items ≡ out.old.items ++ tunnel_front from to hop tos len) }
    ensures kept { IsErr result → Extends out.old.items out.new.items }
{
    push_head6(out, &tunnel_head(from, to, hop, tos), len)
}

/// Appends the packet that `lower` makes, in the tunnel packet that `encap` makes of it. After an `Err` some of it may stand
/// behind what stood there. It is inlined down to the bytes, so that the packet's fields go through no memory.
#[inline(always)]
pub fn push_tunnelled(
    out: &mut Vec<u8>,
    from: V6,
    to: V6,
    hop: u8,
    p: &Ip4View<'_>,
) -> Result<(), OutOfMemory>
    requires whole { ip4_of (p.now.header.now ++ p.now.payload.now) ≡ Ok (packet4 p.now) }
    requires alive { 1 ≤ p.now.ttl }
    requires most { packet_len (packet4 p.now) ≤ 65535 }
    ensures bytes { IfOk result (λ _. out.new.items ≡ out.old.items ++ wrapped from to hop (lowered (packet4 p.now))) }
    ensures size { IfOk result (λ _. length (wrapped from to hop (lowered (packet4 p.now))) ≡ packet_len (packet4 p.now) + 40) }
    ensures kept { IsErr result → Extends out.old.items out.new.items }
{
    push_tunnel_head(out, from, to, hop, p.tos, p.total_len() as u16)?;
    push_lowered(out, p)?;
    Ok(())
}
