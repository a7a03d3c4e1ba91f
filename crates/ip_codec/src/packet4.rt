// IPv4 packets, read and written.
ghost use Rattle.std.specs.Prelude.{◌≡◌, ◌≢◌, ◌==◌, ◌+◌, ◌-◌, ◌%◌, ◌^◌, ◌<◌, ◌≤◌, ◌++◌, ◌&&◌, length, slice_index, take, IfOk, IsErr, Ok, [], true, false};
ghost use Rattle.aftr_base.specs.Appended.{Extends};
ghost use Rattle.aftr_base.specs.Numbers.{big_endian, span};
ghost use Rattle.aftr_base.specs.Sums.{checksum, folded, word_sum};
ghost use Rattle.ip_codec.specs.Packet4.{ip4_of, packet4, Reads4, IsBounded4, fields4, header4, fixed4};
ghost use Rattle.ip_codec.specs.Packet4.{flags_of, flag_worth, made4, is_fragment, is_plain, packet_len};

use aftr_base::{Bytes, OutOfMemory, V4, be16, be32, patch16, put_be16, put_checksum, sum16};
use std::alloc::Global;

/// How many bytes a header has without its options (RFC 791, section 3.1).
pub const HEADER4_LEN: usize = 20;

// The first byte of a header without options: the version, and the length in words of four bytes.
const PLAIN_FIRST: u8 = 0x45;

/// An IPv4 packet as it stands in bytes (RFC 791, section 3.1).
#[derive(Clone, Copy, Debug)]
pub struct Ip4View<'a> {
    /// The type of service.
    pub tos: u8,
    /// The identification.
    pub id: u16,
    /// The reserved bit before DF.
    pub reserved: bool,
    /// Don't fragment.
    pub df: bool,
    /// More fragments follow.
    pub mf: bool,
    /// The fragment offset in units of 8 bytes, at most 8,191.
    pub offset: u16,
    /// The time to live.
    pub ttl: u8,
    pub protocol: u8,
    pub src: V4,
    pub dst: V4,
    /// All bytes of the header, 20 to 60 of them; its options stand from place 20 on.
    pub header: &'a [u8],
    /// What stands behind the header, up to the total length.
    pub payload: &'a [u8],
}

impl<'a> Ip4View<'a> {
    /// Whether the packet is a fragment of a datagram: more of them follow, or some come before it.
    pub fn is_fragment(&self) -> bool
        ensures { result ≡ is_fragment (packet4 self.now) }
    {
        self.mf || self.offset != 0
    }

    /// How many bytes the packet has, header and payload.
    pub fn total_len(&self) -> usize
        ensures { result ≡ packet_len (packet4 self.now) }
    {
        self.header.len() + self.payload.len()
    }
}

/// Why bytes are no IPv4 packet: the first of these that is true.
#[derive(Clone, Copy, Debug, PartialEq, Eq)]
pub enum Ip4Bad {
    /// There are fewer than 20 bytes. `have` is their number.
    Short { have: usize },
    /// The first four bits are not 4.
    Version,
    /// The header's length is below 20 bytes, or above the bytes that there are.
    HeaderLength,
    /// The total length is below the header's, or above the bytes that there are.
    TotalLength,
    /// The header's checksum is wrong.
    Checksum,
}

/// The fields of an IPv4 header that is to be written. Its lengths and its checksum follow from the packet.
#[derive(Clone, Copy, Debug, PartialEq, Eq)]
pub struct Head4 {
    /// The type of service.
    pub tos: u8,
    /// The identification.
    pub id: u16,
    /// The reserved bit before DF.
    pub reserved: bool,
    /// Don't fragment.
    pub df: bool,
    /// More fragments follow.
    pub mf: bool,
    /// The fragment offset in units of 8 bytes, at most 8,191.
    pub offset: u16,
    /// The time to live.
    pub ttl: u8,
    pub protocol: u8,
    pub src: V4,
    pub dst: V4,
}

/// Reads an IPv4 packet (RFC 791, section 3.1). Bytes past its total length are ignored.
#[inline(always)]
pub fn ip4(bytes: &[u8]) -> Result<Ip4View<'_>, Ip4Bad>
    ensures reads { Reads4 result (ip4_of bytes.now) }

    // What holds of every packet that is read: its limits, where it stands, and that it reads the same alone.
    ensures bounded { IfOk result (λ view. IsBounded4 (packet4 view)) }
    ensures front { IfOk result (λ view.
        view.header.now ++ view.payload.now ≡ take (length view.header.now + length view.payload.now) bytes.now) }
    ensures alone { IfOk result (λ view. ip4_of (view.header.now ++ view.payload.now) ≡ Ok (packet4 view)) }
{
    if bytes.len() < HEADER4_LEN {
        return Err(Ip4Bad::Short { have: bytes.len() });
    }
    if bytes[0] >> 4 != 4 {
        return Err(Ip4Bad::Version);
    }
    let header_len = 4 * usize::from(bytes[0] & 0x0f);
    if header_len < HEADER4_LEN || bytes.len() < header_len {
        return Err(Ip4Bad::HeaderLength);
    }
    let total_len = usize::from(be16(bytes, 2));
    if total_len < header_len || bytes.len() < total_len {
        return Err(Ip4Bad::TotalLength);
    }
    let header = &bytes[..header_len];
    if !sums_up(header) {
        return Err(Ip4Bad::Checksum);
    }
    Ok(view_of(header, &bytes[header_len..total_len]))
}

/// Whether the bytes are a packet that `ip4` reads, that is no fragment, and whose header has no options. Most are, and these few
/// tests tell it.
#[inline(always)]
pub fn is_plain4(bytes: &[u8]) -> bool
    ensures { result ≡ is_plain (ip4_of bytes.now) }
{
    if !starts_plain(bytes) {
        return false;
    }
    fills(plain_sum(&bytes[..HEADER4_LEN]))
}

// Whether the bytes are such a packet but for the checksum of its header.
#[inline(always)]
fn starts_plain(bytes: &[u8]) -> bool
    ensures told { is_plain (ip4_of bytes.now) ≡ (result && (checksum (take 20 bytes.now) == 0)) }
    ensures first { result ≡ true → (20 ≤ length bytes.now) × (slice_index bytes.now 0 ≡ 69) }
{
    if bytes.len() < HEADER4_LEN || bytes[0] != PLAIN_FIRST {
        return false;
    }
    let total_len = usize::from(be16(bytes, 2));
    HEADER4_LEN <= total_len && total_len <= bytes.len() && be16(bytes, 6) % 0x4000 == 0
}

// Whether a header holds its own checksum. Most have no options, and are summed as five words.
#[inline(always)]
fn sums_up(header: &[u8]) -> bool
    ensures { result ≡ (checksum header.now == 0) }
{
    if header.len() == HEADER4_LEN {
        return is_full(plain_sum(header));
    }
    sum16(header) == 0
}

// The sum of a header without options, two words of 16 bits at a time. The first of the two counts 65,536 times, and that folds
// to once.
#[inline(always)]
fn plain_sum(header: &[u8]) -> u64
    requires { length header.now ≡ 20 }
    ensures folds { folded result ≡ folded (word_sum header.now) }
    ensures least { big_endian (span header.now 0 4) ≤ result }
{
    u64::from(be32(header, 0))
        + u64::from(be32(header, 4))
        + u64::from(be32(header, 8))
        + u64::from(be32(header, 12))
        + u64::from(be32(header, 16))
}

// Whether a sum folds to 16 bits that are all set, as that of bytes does which hold their own checksum (RFC 1071).
#[inline(always)]
fn is_full(sum: u64) -> bool
    ensures { result ≡ (65535 - folded sum == 0) }
{
    sum != 0 && fills(sum)
}

// The same of a sum of which it is known that it is not 0, as that of a header is: its first byte is not.
#[inline(always)]
fn fills(sum: u64) -> bool
    requires { sum ≢ 0 }
    ensures { result ≡ (65535 - folded sum == 0) }
{
    sum % 65535 == 0
}

/// The fields of a header before a payload, whatever they say of its lengths and its checksum (RFC 791, section 3.1).
#[inline(always)]
pub fn view_of<'a>(header: &'a [u8], payload: &'a [u8]) -> Ip4View<'a>
    requires { 20 ≤ length header.now }
    ensures { packet4 result ≡ fields4 header.now payload.now }
{
    let flags = be16(header, 6);
    Ip4View {
        tos: header[1],
        id: be16(header, 4),
        reserved: (flags >> 15) & 1 == 1,
        df: (flags >> 14) & 1 == 1,
        mf: (flags >> 13) & 1 == 1,
        offset: flags & 0x1fff,
        ttl: header[8],
        protocol: header[9],
        src: V4(be32(header, 12)),
        dst: V4(be32(header, 16)),
        header,
        payload,
    }
}

// The same of a header of no fragment: it says so without a look at its bits.
#[inline(always)]
pub(crate) fn uncut_view<'a>(header: &'a [u8], payload: &'a [u8]) -> Ip4View<'a>
    requires least { 20 ≤ length header.now }
    requires uncut { is_fragment (fields4 header.now payload.now) ≡ false }
    ensures { packet4 result ≡ fields4 header.now payload.now }
{
    Ip4View {
        mf: false,
        offset: 0,
        ..view_of(header, payload)
    }
}

/// Writes an IPv4 packet with these fields, options and payload, in memory of its own final size (RFC 791, section
/// 3.1). The options fill whole words of four bytes, ten at most; the packet has at most 65,535 bytes.
pub fn put4(
    alloc: Global,
    head: &Head4,
    options: &[u8],
    payload: &[u8],
) -> Result<Bytes, OutOfMemory>
    requires whole_words { length options.now % 4 ≡ 0 }
    requires most_options { length options.now ≤ 40 }
    requires offset { head.now.offset ≤ 8191 }
    requires most { 20 + length options.now + length payload.now ≤ 65535 }
    ensures bytes { IfOk result (λ packet. packet ≡ header4 head.now options.now (length payload.now) ++ payload.now) }
    ensures read { IfOk result (λ packet. ip4_of packet ≡ Ok (made4 head.now options.now payload.now)) }
    ensures options { IfOk result (λ packet. span packet 20 (length options.now) ≡ options.now) }
{
    let header_len = HEADER4_LEN + options.len();
    let total_len = header_len + payload.len();
    let mut list = Vec::with_capacity(alloc, total_len)?;
    list.extend_from_slice(&fixed_part(*head, header_len as u8, total_len as u16))?;
    list.extend_from_slice(options)?;
    put_checksum(&mut list, 10);
    list.extend_from_slice(payload)?;
    Ok(Bytes::of(list))
}

/// Appends the header with these fields, options and its checksum, before a payload of a length (RFC 791, section 3.1). The
/// options fill whole words of four bytes, ten at most; the packet has at most 65,535 bytes. After an `Err` some of it may stand
/// behind what stood there.
pub fn push_head4(
    out: &mut Vec<u8>,
    head: &Head4,
    options: &[u8],
    payload_len: usize,
) -> Result<(), OutOfMemory>
    requires whole_words { length options.now % 4 ≡ 0 }
    requires most_options { length options.now ≤ 40 }
    requires offset { head.now.offset ≤ 8191 }
    requires most { 20 + length options.now + payload_len ≤ 65535 }
    ensures bytes { IfOk result (λ _. out.new.items ≡ out.old.items ++ header4 head.now options.now payload_len) }
    ensures kept { IsErr result → Extends out.old.items out.new.items }
{
    let header_len = HEADER4_LEN + options.len();
    let total_len = header_len + payload_len;
    let mut fixed = fixed_part(*head, header_len as u8, total_len as u16);
    let sum = sum_of_both(&fixed, options);
    put_be16(&mut fixed, 10, sum);
    out.extend_from_slice(&fixed)?;
    out.extend_from_slice(options)?;
    Ok(())
}

/// The header without options with these fields and its checksum, before a payload of a length (RFC 791, section 3.1).
#[inline(always)]
pub fn head4_bytes(head: Head4, payload_len: u16) -> [u8; 20]
    requires offset { head.offset ≤ 8191 }
    requires most { 20 + payload_len ≤ 65535 }
    ensures bytes { result ≡ header4 head [] payload_len }
    ensures addresses_fit { (head.src.0 < 2 ^ 32) × (head.dst.0 < 2 ^ 32) }
{
    let mut header = fixed_part(head, HEADER4_LEN as u8, HEADER4_LEN as u16 + payload_len);
    put_checksum(&mut header, 10);
    header
}

/// The checksum of bytes of an even number and of others behind them (RFC 1071).
pub fn sum_of_both(first: &[u8], rest: &[u8]) -> u16
    requires { length first.now % 2 ≡ 0 }
    ensures { result ≡ checksum (first.now ++ rest.now) }
{
    // Patching adds up the complements of two sums.
    patch16(sum16(first), sum16(rest), 0)
}

// The twenty bytes before the options, with zero in the place of the checksum.
#[inline(always)]
fn fixed_part(head: Head4, header_len: u8, total_len: u16) -> [u8; 20]
    requires offset { head.offset ≤ 8191 }
    requires most { header_len ≤ 60 }
    ensures bytes { result ≡ fixed4 head header_len total_len }
    ensures addresses_fit { (head.src.0 < 2 ^ 32) × (head.dst.0 < 2 ^ 32) }
{
    let [total_high, total_low] = total_len.to_be_bytes();
    let [id_high, id_low] = head.id.to_be_bytes();
    let [flags_high, flags_low] = flags_word(head).to_be_bytes();
    let [s0, s1, s2, s3] = head.src.0.to_be_bytes();
    let [d0, d1, d2, d3] = head.dst.0.to_be_bytes();
    [
        0x40 + header_len / 4,
        head.tos,
        total_high,
        total_low,
        id_high,
        id_low,
        flags_high,
        flags_low,
        head.ttl,
        head.protocol,
        0,
        0,
        s0,
        s1,
        s2,
        s3,
        d0,
        d1,
        d2,
        d3,
    ]
}

// The three flags and the offset, in one word.
#[inline(always)]
fn flags_word(head: Head4) -> u16
    requires { head.offset ≤ 8191 }
    ensures { result ≡ flags_of head }
{
    flag(head.reserved, 0x8000) + flag(head.df, 0x4000) + flag(head.mf, 0x2000) + head.offset
}

#[inline(always)]
fn flag(on: bool, worth: u16) -> u16
    ensures { result ≡ flag_worth on worth }
{
    if on { worth } else { 0 }
}
