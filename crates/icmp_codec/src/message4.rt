// ICMPv4 messages, read and written.
ghost use Rattle.std.specs.Prelude.{◌≡◌, ◌+◌, ◌≤◌, ◌++◌, length, if◌then◌else◌, is_ok, IsOk, IfOk, vec_len, vec_capacity, IsTrue, Ok, Bool, not, ◌||◌};
ghost use Rattle.icmp_codec.specs.Message4.{ReadsMessage4, message_fields4, icmp4_bytes, icmp4_of, is_echo, made_message4, message4};
ghost use Rattle.icmp_codec.specs.Quoted.{lacks_header, quoted};

use crate::head::{CHECKSUM, ICMP_HEAD_LEN, IcmpHead, head_bytes};
use crate::quoted::{Embedded, read_embedded};
use aftr_base::{Bytes, OutOfMemory, be16, be32, put_checksum, sum16};
use std::alloc::Global;

/// An ICMPv4 message as it stands in bytes (RFC 792).
#[derive(Clone, Copy, Debug)]
pub struct Icmp4View<'a> {
    /// The type of the message.
    pub kind: u8,
    pub code: u8,
    /// The identifier of an echo or echo reply: the 16 bits behind the checksum.
    pub id: u16,
    /// The 32 bits behind the checksum.
    pub word: u32,
    /// What stands behind the first 8 bytes.
    pub rest: &'a [u8],
    /// The packet that `rest` quotes. There is none for echo and echo reply alone.
    pub embedded: Option<Embedded<'a>>,
}

/// Why bytes are no ICMP message: the first of these that is true.
#[derive(Clone, Copy, Debug, PartialEq, Eq)]
pub enum IcmpBad {
    /// There are fewer than 8 bytes.
    Short,
    /// The checksum is wrong. It is not looked at in an ICMPv4 echo or echo reply.
    Checksum,
    /// An ICMPv4 message other than echo and echo reply quotes no IPv4 header.
    Embedded,
}

/// Reads an ICMPv4 message (RFC 792). Every message but echo and echo reply has to sum up and to quote an IPv4 header
/// that does (RFC 5508, requirement 3).
pub fn icmp4(bytes: &[u8]) -> Result<Icmp4View<'_>, IcmpBad>
    ensures { ReadsMessage4 result (icmp4_of bytes.now) }
{
    if bytes.len() < ICMP_HEAD_LEN {
        return Err(IcmpBad::Short);
    }
    if is_echo(bytes[0]) {
        return Ok(view_of(bytes, None));
    }
    if sum16(bytes) != 0 {
        return Err(IcmpBad::Checksum);
    }
    let Some(embedded) = read_embedded(&bytes[ICMP_HEAD_LEN..]) else {
        return Err(IcmpBad::Embedded);
    };
    Ok(view_of(bytes, Some(embedded)))
}

fn view_of<'a>(bytes: &'a [u8], embedded: Option<Embedded<'a>>) -> Icmp4View<'a>
    requires { 8 ≤ length bytes.now }
    ensures { message4 result ≡ message_fields4 bytes.now (quoted embedded.entry) }
{
    Icmp4View {
        kind: bytes[0],
        code: bytes[1],
        id: be16(bytes, 4),
        word: be32(bytes, 4),
        rest: &bytes[ICMP_HEAD_LEN..],
        embedded,
    }
}

/// Whether a message of this type is an echo reply or an echo (RFC 792).
pub fn is_echo(kind: u8) -> bool
    ensures { result ≡ is_echo kind }
{
    matches!(kind, 0 | 8)
}

/// Writes an ICMPv4 message with its checksum (RFC 792): its type, its code, the 32 bits behind the checksum, and what
/// it quotes, at most 65,000 bytes.
pub fn put_icmp4(
    alloc: Global,
    kind: u8,
    code: u8,
    word: u32,
    quote: &[u8],
) -> Result<Bytes, OutOfMemory>
    requires { length quote.now ≤ 65000 }
    ensures bytes { IfOk result (λ message. message ≡ icmp4_bytes kind code word quote.now) }
    ensures size { IfOk result (λ message. length message ≡ 8 + length quote.now) }
    ensures read { IfOk result (λ message. IsTrue (is_echo kind || not (lacks_header quote.now)) →
        icmp4_of message ≡ Ok (made_message4 kind code word quote.now)) }
{
    let mut list = Vec::new(alloc);
    push_icmp4(&mut list, IcmpHead { kind, code, word }, quote, &[])?;
    Ok(Bytes::of(list))
}

/// Appends the message that `put_icmp4` writes to a list. What it quotes comes in two parts that stand one behind the
/// other, as a packet's header and its payload. Where there is no memory, the list stays as it was.
pub fn push_icmp4(
    list: &mut Vec<u8>,
    head: IcmpHead,
    quote: &[u8],
    more: &[u8],
) -> Result<(), OutOfMemory>
    requires { length quote.now + length more.now ≤ 65000 }
    ensures bytes { list.new.items ≡ (if is_ok result
        then list.old.items ++ icmp4_bytes head.kind head.code head.word (quote.now ++ more.now) else list.old.items) }
    ensures size { IfOk result (λ _. vec_len list.new ≡ vec_len list.old + (8 + length quote.now + length more.now)) }

    // What is appended is read back.
    ensures read { IsTrue (is_echo head.kind || not (lacks_header (quote.now ++ more.now))) →
        icmp4_of (icmp4_bytes head.kind head.code head.word (quote.now ++ more.now))
        ≡ Ok (made_message4 head.kind head.code head.word (quote.now ++ more.now)) }

    // It takes memory only where the list has no room.
    ensures room { vec_len list.old + (8 + length quote.now + length more.now) ≤ vec_capacity list.old → IsOk result }
{
    let start = list.len();
    list.reserve(ICMP_HEAD_LEN + quote.len() + more.len())?;
    list.extend_from_slice(&head_bytes(head))?;
    list.extend_from_slice(quote)?;
    list.extend_from_slice(more)?;
    put_checksum(&mut list[start..], CHECKSUM);
    Ok(())
}
