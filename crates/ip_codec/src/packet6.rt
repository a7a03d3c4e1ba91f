// IPv6 packets, read and written.
ghost use Rattle.std.specs.Prelude.{◌≡◌, ◌+◌, ◌^◌, ◌<◌, ◌≤◌, ◌++◌, length, IfOk, IsErr, Ok, is_ok, true};
ghost use Rattle.std.specs.Int.{w64, w128, to_be_bytes};
ghost use Rattle.aftr_base.specs.Appended.{Extends};
ghost use Rattle.ip_codec.specs.Packet6.{ip6_of, packet6, Reads6, IsBounded6, version6, bytes6, fields6, header6, made6, payload_len};

use aftr_base::{Bytes, OutOfMemory, V6, be16, be32, be128};
use std::alloc::Global;

/// How many bytes the fixed header has (RFC 8200, section 3).
pub const HEADER6_LEN: usize = 40;

/// The first word of a header with no traffic class and no flow label: the version alone (RFC 8200, section 3).
pub const VERSION6: u32 = 0x6000_0000;

/// An IPv6 packet as it stands in bytes (RFC 8200, section 3).
#[derive(Clone, Copy, Debug)]
pub struct Ip6View<'a> {
    /// The first 32 bits: version, traffic class and flow label, the version in the highest four.
    pub word: u32,
    /// The number of the first header in the body, or of its data.
    pub next: u8,
    /// The hop limit.
    pub hop: u8,
    pub src: V6,
    pub dst: V6,
    /// What stands behind the 40 bytes of the header, as many bytes as it claims.
    pub body: &'a [u8],
}

/// Why bytes are no IPv6 packet: the first of these that is true.
#[derive(Clone, Copy, Debug, PartialEq, Eq)]
pub enum Ip6Bad {
    /// There are fewer than 40 bytes. `have` is their number.
    Short { have: usize },
    /// The first four bits are not 6.
    Version,
    /// The payload length is more than the bytes behind the header.
    Payload,
}

/// The fields of an IPv6 header that is to be written. Its payload length follows from the body.
#[derive(Clone, Copy, Debug, PartialEq, Eq)]
pub struct Head6 {
    /// The first 32 bits: version, traffic class and flow label, the version in the highest four.
    pub word: u32,
    /// The number of the first header in the body, or of its data.
    pub next: u8,
    /// The hop limit.
    pub hop: u8,
    pub src: V6,
    pub dst: V6,
}

/// Reads an IPv6 packet (RFC 8200, section 3). Bytes past its body are ignored.
#[inline(always)]
pub fn ip6(bytes: &[u8]) -> Result<Ip6View<'_>, Ip6Bad>
    ensures reads { Reads6 result (ip6_of bytes.now) }
    ensures bounded { IfOk result (λ view. IsBounded6 (packet6 view)) }
{
    if bytes.len() < HEADER6_LEN {
        return Err(Ip6Bad::Short { have: bytes.len() });
    }
    if bytes[0] >> 4 != 6 {
        return Err(Ip6Bad::Version);
    }
    let payload_len = usize::from(be16(bytes, 4));
    if bytes.len() - HEADER6_LEN < payload_len {
        return Err(Ip6Bad::Payload);
    }
    Ok(view_of(bytes, payload_len))
}

/// Whether the bytes are an IPv6 packet, as `ip6` reads them.
#[inline(always)]
pub fn is_ip6(bytes: &[u8]) -> bool
    ensures { result ≡ is_ok (ip6_of bytes.now) }
{
    if bytes.len() < HEADER6_LEN || bytes[0] >> 4 != 6 {
        return false;
    }
    bytes.len() - HEADER6_LEN >= usize::from(be16(bytes, 4))
}

/// The packet of bytes that are known to be one, as `ip6` reads it: they are not tested again.
#[inline(always)]
pub fn known_ip6(bytes: &[u8]) -> Ip6View<'_>
    requires { is_ok (ip6_of bytes.now) ≡ true }
    ensures { ip6_of bytes.now ≡ Ok (packet6 result) }
{
    view_of(bytes, usize::from(be16(bytes, 4)))
}

// The fields of a header, and so many bytes behind it.
#[inline(always)]
fn view_of(bytes: &[u8], body_len: usize) -> Ip6View<'_>
    requires claimed { body_len ≡ payload_len bytes.now }
    requires within { 40 + body_len ≤ length bytes.now }
    ensures { packet6 result ≡ fields6 bytes.now }
{
    Ip6View {
        word: be32(bytes, 0),
        next: bytes[6],
        hop: bytes[7],
        src: V6(be128(bytes, 8)),
        dst: V6(be128(bytes, 24)),
        body: &bytes[HEADER6_LEN..HEADER6_LEN + body_len],
    }
}

/// Writes an IPv6 packet with these fields and body, in memory of its own final size (RFC 8200, section 3). The
/// version in `word` is 6, and the body has at most 65,535 bytes.
pub fn put6(alloc: Global, head: &Head6, body: &[u8]) -> Result<Bytes, OutOfMemory>
    requires version { version6 head.now.word ≡ 6 }
    requires most { length body.now ≤ 65535 }
    ensures bytes { IfOk result (λ packet. packet ≡ bytes6 head.now body.now) }
    ensures read { IfOk result (λ packet. ip6_of packet ≡ Ok (made6 head.now body.now)) }
{
    let mut list = Vec::with_capacity(alloc, HEADER6_LEN + body.len())?;
    list.extend_from_slice(&head6_bytes(*head, body.len() as u16))?;
    list.extend_from_slice(body)?;
    Ok(Bytes::of(list))
}

/// Appends the fixed header with these fields, before a body of a length (RFC 8200, section 3). After an `Err` some of it may stand
/// behind what stood there.
#[inline(always)]
pub fn push_head6(out: &mut Vec<u8>, head: &Head6, payload_len: u16) -> Result<(), OutOfMemory>
    ensures bytes { IfOk result (λ _. out.new.items ≡ out.old.items ++ header6 head.now payload_len) }
    ensures kept { IsErr result → Extends out.old.items out.new.items }
{
    out.extend_from_slice(&head6_bytes(*head, payload_len))?;
    Ok(())
}

/// The fixed header with these fields, before a body of a length (RFC 8200, section 3).
#[inline(always)]
pub fn head6_bytes(head: Head6, payload_len: u16) -> [u8; 40]
    ensures bytes { result ≡ header6 head payload_len }
    ensures word_fits { head.word < 2 ^ 32 }
    ensures addresses_fit { (head.src.0 < 2 ^ 128) × (head.dst.0 < 2 ^ 128) }
{
    let mut bytes = [0; 40];
    bytes[..4].copy_from_slice(&head.word.to_be_bytes());
    bytes[4..6].copy_from_slice(&payload_len.to_be_bytes());
    bytes[6] = head.next;
    bytes[7] = head.hop;
    bytes[8..24].copy_from_slice(&address_bytes(head.src));
    bytes[24..].copy_from_slice(&address_bytes(head.dst));
    bytes
}

// By halves, each of which a processor turns round at once.
#[inline(always)]
fn address_bytes(address: V6) -> [u8; 16]
    ensures { result ≡ to_be_bytes w128 address.0 }
{
    let mut bytes = [0; 16];
    bytes[..8].copy_from_slice(&half_bytes((address.0 >> 64) as u64));
    bytes[8..].copy_from_slice(&half_bytes((address.0 % (1 << 64)) as u64));
    bytes
}

// Turned round as one number: where the bytes are taken one by one, a compiler takes them from the whole address, and turns nothing.
#[inline(always)]
fn half_bytes(half: u64) -> [u8; 8]
    ensures { result ≡ to_be_bytes w64 half }
{
    half.swap_bytes().to_le_bytes()
}
