// ICMPv6 messages, read and written.
ghost use Rattle.std.specs.Prelude.{◌≡◌, ◌+◌, ◌≤◌, ◌++◌, length, if◌then◌else◌, is_ok, IsOk, IfOk, vec_len, vec_capacity, Ok};
ghost use Rattle.icmp_codec.specs.Message6.{ReadsMessage6, icmp6_bytes, icmp6_of, made_message6};

use crate::head::{CHECKSUM, ICMP_HEAD_LEN, IcmpHead, head_bytes};
use crate::message4::IcmpBad;
use crate::sums::sum_message6;
use aftr_base::{Bytes, OutOfMemory, V6, be32, put_be16};
use std::alloc::Global;

/// An ICMPv6 message as it stands in bytes (RFC 4443, section 2.1).
#[derive(Clone, Copy, Debug)]
pub struct Icmp6View<'a> {
    /// The type of the message.
    pub kind: u8,
    pub code: u8,
    /// The 32 bits behind the checksum.
    pub word: u32,
    /// What stands behind the first 8 bytes.
    pub rest: &'a [u8],
}

/// Reads an ICMPv6 message between two addresses, which its checksum covers (RFC 4443, section 2.3). It is refused as
/// `Short` or `Checksum`, and never as `Embedded`.
pub fn icmp6(src: V6, dst: V6, bytes: &[u8]) -> Result<Icmp6View<'_>, IcmpBad>
    ensures { ReadsMessage6 result (icmp6_of src.0 dst.0 bytes.now) }
{
    if bytes.len() < ICMP_HEAD_LEN {
        return Err(IcmpBad::Short);
    }
    if sum_message6(src, dst, bytes) != 0 {
        return Err(IcmpBad::Checksum);
    }
    Ok(Icmp6View {
        kind: bytes[0],
        code: bytes[1],
        word: be32(bytes, 4),
        rest: &bytes[ICMP_HEAD_LEN..],
    })
}

/// Writes an ICMPv6 message between two addresses with its checksum (RFC 4443, sections 2.1 and 2.3): its type, its
/// code, the 32 bits behind the checksum, and what it quotes, at most 65,000 bytes.
pub fn put_icmp6(
    alloc: Global,
    src: V6,
    dst: V6,
    kind: u8,
    code: u8,
    word: u32,
    quote: &[u8],
) -> Result<Bytes, OutOfMemory>
    requires { length quote.now ≤ 65000 }
    ensures bytes { IfOk result (λ message. message ≡ icmp6_bytes src.0 dst.0 kind code word quote.now) }
    ensures size { IfOk result (λ message. length message ≡ 8 + length quote.now) }
    ensures read { IfOk result (λ message. icmp6_of src.0 dst.0 message ≡ Ok (made_message6 kind code word quote.now)) }
{
    let mut list = Vec::new(alloc);
    push_icmp6(
        &mut list,
        src,
        dst,
        IcmpHead { kind, code, word },
        quote,
        &[],
    )?;
    Ok(Bytes::of(list))
}

/// Appends the message that `put_icmp6` writes to a list. What it quotes comes in two parts that stand one behind the
/// other. Where there is no memory, the list stays as it was.
pub fn push_icmp6(
    list: &mut Vec<u8>,
    src: V6,
    dst: V6,
    head: IcmpHead,
    quote: &[u8],
    more: &[u8],
) -> Result<(), OutOfMemory>
    requires { length quote.now + length more.now ≤ 65000 }
    ensures bytes { list.new.items ≡ (if is_ok result
        then list.old.items ++ icmp6_bytes src.0 dst.0 head.kind head.code head.word (quote.now ++ more.now) else list.old.items) }
    ensures size { IfOk result (λ _. vec_len list.new ≡ vec_len list.old + (8 + length quote.now + length more.now)) }

    // What is appended is read back.
    ensures read { icmp6_of src.0 dst.0 (icmp6_bytes src.0 dst.0 head.kind head.code head.word (quote.now ++ more.now))
        ≡ Ok (made_message6 head.kind head.code head.word (quote.now ++ more.now)) }

    // It takes memory only where the list has no room.
    ensures room { vec_len list.old + (8 + length quote.now + length more.now) ≤ vec_capacity list.old → IsOk result }
{
    let start = list.len();
    list.reserve(ICMP_HEAD_LEN + quote.len() + more.len())?;
    list.extend_from_slice(&head_bytes(head))?;
    list.extend_from_slice(quote)?;
    list.extend_from_slice(more)?;
    let sum = sum_message6(src, dst, &list[start..]);
    put_be16(&mut list[start..], CHECKSUM, sum);
    Ok(())
}
