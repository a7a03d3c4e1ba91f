// Packets that are passed on.
ghost use Rattle.std.specs.Prelude.{◌≡◌, ℕ, ◌+◌, ◌-◌, ◌≤◌, ◌++◌, drop, length, take, IfOk, IsErr, Ok};
ghost use Rattle.aftr_base.specs.Appended.{Extends};
ghost use Rattle.aftr_base.specs.Sums.{patched};
ghost use Rattle.ip_codec.specs.Packet4.{ip4_of, packet4, packet_len};
ghost use Rattle.softwire_encap.specs.Passing.{lowered, lowered_header, passed};

use aftr_base::{Bytes, OutOfMemory, be16};
use ip_codec::{HEADER4_LEN, Ip4View};
use std::alloc::Global;

// Where the time to live and the checksum stand in a header (RFC 791, section 3.1).
const TTL: usize = 8;

const CHECKSUM: usize = 10;

// How many bytes a header has at most (RFC 791, section 3.1).
const MOST_HEADER: usize = 60;

/// The packet as a router passes it on, in memory of its own final size: the time to live is one less, and the header's
/// checksum is the one that belongs to it (RFC 791, section 3.2; RFC 1812, section 5.3.1). `p` is a packet as `ip4` reads
/// one, with a time to live of at least 1.
pub fn lower(alloc: Global, p: &Ip4View<'_>) -> Result<Bytes, OutOfMemory>
    requires whole { ip4_of (p.now.header.now ++ p.now.payload.now) ≡ Ok (packet4 p.now) }
    requires alive { 1 ≤ p.now.ttl }
    ensures bytes { IfOk result (λ packet. packet ≡ lowered (packet4 p.now)) }
    ensures read { IfOk result (λ packet. ip4_of packet ≡ Ok (passed (packet4 p.now))) }
    ensures size { IfOk result (λ packet. length packet ≡ packet_len (packet4 p.now)) }
{
    let mut list = Vec::with_capacity(alloc, p.total_len())?;
    push_lowered(&mut list, p)?;
    Ok(Bytes::of(list))
}

/// Appends the packet that `lower` makes. After an `Err` some of it may stand behind what stood there.
#[inline(always)]
pub fn push_lowered(out: &mut Vec<u8>, p: &Ip4View<'_>) -> Result<(), OutOfMemory>
    requires whole { ip4_of (p.now.header.now ++ p.now.payload.now) ≡ Ok (packet4 p.now) }
    requires alive { 1 ≤ p.now.ttl }
    ensures bytes { IfOk result (λ _. out.new.items ≡ out.old.items ++ lowered (packet4 p.now)) }
    ensures read { IfOk result (λ _. ip4_of (lowered (packet4 p.now)) ≡ Ok (passed (packet4 p.now))) }
    ensures size { IfOk result (λ _. length (lowered (packet4 p.now)) ≡ packet_len (packet4 p.now)) }
    ensures kept { IsErr result → Extends out.old.items out.new.items }
{
    let from = out.len();
    push_header(out, p.header)?;
    lower_front(&mut out[from..], p);
    out.extend_from_slice(p.payload)?;
    Ok(())
}

// Appends a header. One without options, as most are, has a length that the compiler knows, and needs no call.
#[inline(always)]
fn push_header(out: &mut Vec<u8>, header: &[u8]) -> Result<(), OutOfMemory>
    ensures bytes { IfOk result (λ _. out.new.items ≡ out.old.items ++ header.now) }
    ensures kept { IsErr result → Extends out.old.items out.new.items }
{
    if header.len() == HEADER4_LEN {
        out.extend_from_slice(&header[..HEADER4_LEN])?;
        return Ok(());
    }
    out.extend_from_slice(header)?;
    Ok(())
}

/// The header of the packet that `lower` makes, in front of 60 bytes; it has as many as that of `p`. So a packet that is not put
/// together can be cut.
#[inline(always)]
pub fn lowered_header(p: &Ip4View<'_>) -> [u8; 60]
    requires whole { ip4_of (p.now.header.now ++ p.now.payload.now) ≡ Ok (packet4 p.now) }
    requires alive { 1 ≤ p.now.ttl }
    requires least { 20 ≤ length p.now.header.now }
    requires most { length p.now.header.now ≤ 60 }
    ensures { take (length p.now.header.now) result ≡ lowered_header (packet4 p.now) }
{
    let mut bytes = [0; MOST_HEADER];
    bytes[..p.header.len()].copy_from_slice(p.header);
    lower_front(&mut bytes, p);
    bytes
}

// Makes the time to live one less in the packet's header, which these bytes begin with, and patches the checksum for that.
#[inline(always)]
fn lower_front(bytes: &mut [u8], p: &Ip4View<'_>)
    requires whole { ip4_of (p.now.header.now ++ p.now.payload.now) ≡ Ok (packet4 p.now) }
    requires alive { 1 ≤ p.now.ttl }
    requires least { 20 ≤ length p.now.header.now }
    requires begun { bytes.old ≡ p.now.header.now ++ drop (length p.now.header.now) bytes.old }
    ensures { bytes.new ≡ lowered_header (packet4 p.now) ++ drop (length p.now.header.now) bytes.old }
{
    let ttl = p.ttl - 1;
    let sum = patched_sum(be16(p.header, CHECKSUM));
    bytes[TTL] = ttl;
    bytes[CHECKSUM] = (sum / 256) as u8;
    bytes[CHECKSUM + 1] = (sum % 256) as u8;
}

// The checksum once the word of the time to live is 256 less. For a header that sums up it is the one that is computed anew (RFC
// 1624, section 3); of the two forms of zero it is 0.
#[inline(always)]
fn patched_sum(sum: u16) -> u16
    ensures { (was : ℕ) → 256 ≤ was → was ≤ 65535 → result ≡ patched sum was (was - 256) }
{
    let more = u32::from(sum) + 256;
    if more < 65535 {
        more as u16
    } else {
        (more - 65535) as u16
    }
}
