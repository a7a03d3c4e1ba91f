// The extension headers of an IPv6 packet.
ghost use Rattle.std.specs.Prelude.{◌≡◌, ◌+◌, ◌^◌, ◌≤◌, length, IfOk, MatchResult, true, false};
ghost use Rattle.ipv6_chain.specs.Chains.{chain_of, is_skipped, is_misplaced, has_segments, header_len, fragment_end, is_short};

use aftr_base::{be16, be32};
use ip_codec::{FRAGMENT, FRAGMENT_LEN};

// The numbers of the headers that the walk knows (RFC 8200, section 4.1; the numbers are IANA's).
const HOP_BY_HOP: u8 = 0;

const ROUTING: u8 = 43;

const DESTINATION: u8 = 60;

// How many bytes every one of them has at least.
const LEAST: usize = 8;

/// What a walk begins with.
#[derive(Clone, Copy, Debug, PartialEq, Eq)]
pub enum Start {
    /// The body of a packet: all that stands behind its fixed header.
    Packet,
    /// What a Fragment header carried, of a datagram that is whole.
    AfterFragment,
}

/// The fields of a Fragment header (RFC 8200, section 4.5).
#[derive(Clone, Copy, Debug, PartialEq, Eq)]
pub struct Frag {
    /// The offset in units of 8 bytes, at most 8,191.
    pub offset: u16,
    /// More fragments follow: the M flag.
    pub more: bool,
    /// The identification.
    pub id: u32,
}

/// Where a chain of extension headers ends.
#[derive(Clone, Copy, Debug, PartialEq, Eq)]
pub struct Chain {
    /// The number of what stands there: a protocol, or a header that the walk does not pass.
    pub next: u8,
    /// The place in the body where it begins.
    pub at: usize,
    /// The Fragment header that the chain ends behind, if it does.
    pub fragment: Option<Frag>,
}

/// Why there is no end: what the first header that is not passed has.
#[derive(Clone, Copy, Debug, PartialEq, Eq)]
pub enum ChainBad {
    /// Fewer than 8 bytes are left for it, or fewer than it claims.
    Short,
    /// It is a Routing header with segments left (RFC 8200, section 4.4; RFC 5095).
    Routing,
    /// It is a Hop-by-Hop Options header that is not the packet's first one, or a second Fragment header.
    Order,
}

/// Walks over the extension headers of a body whose first header has the number `next`, without taking memory. It passes
/// Hop-by-Hop Options, Routing and Destination Options headers, and ends behind a Fragment header or before anything else
/// (RFC 8200, sections 4.1 to 4.6). Each header passed has at least 8 bytes, so the walk looks at no more than an eighth as
/// many headers as the body has bytes.
pub fn walk(next: u8, body: &[u8], start: Start) -> Result<Chain, ChainBad>
    ensures chain { result ≡ chain_of next body.now start }
    ensures inside { IfOk result (λ chain. chain.at ≤ length body.now) }
{
    let mut number = next;
    let mut at = 0;
    'headers: while is_skipped(number) {
        let left = &body[at..];
        if is_misplaced(number, at, start) {
            return Err(ChainBad::Order);
        }
        let len = header_len(left)?;
        if has_segments(number, left) {
            return Err(ChainBad::Routing);
        }
        number = left[0];
        at += len;
    }
    if number == FRAGMENT {
        return fragment_end(at, &body[at..], start);
    }
    Ok(Chain {
        next: number,
        at,
        fragment: None,
    })
}

/// Whether `walk` passes a header with this number: Hop-by-Hop Options, Routing or Destination Options.
#[inline(always)]
pub fn is_skipped(number: u8) -> bool
    ensures { result ≡ is_skipped number }
{
    number == HOP_BY_HOP || number == ROUTING || number == DESTINATION
}

// Whether this is a Hop-by-Hop Options header that does not stand in front of a packet's body.
fn is_misplaced(number: u8, at: usize, start: Start) -> bool
    ensures { result ≡ is_misplaced number at start }
{
    number == HOP_BY_HOP && !(at == 0 && start == Start::Packet)
}

// Whether this is a Routing header with segments left.
fn has_segments(number: u8, left: &[u8]) -> bool
    requires { 8 ≤ length left.now }
    ensures { result ≡ has_segments number left.now }
{
    number == ROUTING && left[3] != 0
}

// How many bytes a header has that is passed: its second byte counts those past the first eight, eight at a time.
fn header_len(left: &[u8]) -> Result<usize, ChainBad>
    ensures { MatchResult result
        (λ len. (len ≡ header_len left.now) × (is_short left.now ≡ false) × (8 ≤ len) × (len ≤ length left.now))
        (λ bad. (bad ≡ ChainBad.Short) × (is_short left.now ≡ true)) }
{
    if left.len() < LEAST {
        return Err(ChainBad::Short);
    }
    let len = LEAST * (1 + usize::from(left[1]));
    if left.len() < len {
        return Err(ChainBad::Short);
    }
    Ok(len)
}

// The end of a chain behind a Fragment header, which stands at this place and in front of `left`.
fn fragment_end(at: usize, left: &[u8], start: Start) -> Result<Chain, ChainBad>
    requires { at + length left.now ≤ 2 ^ 63 }
    ensures { result ≡ fragment_end at left.now start }
{
    if start == Start::AfterFragment {
        return Err(ChainBad::Order);
    }
    if left.len() < FRAGMENT_LEN {
        return Err(ChainBad::Short);
    }
    let word = be16(left, 2);
    Ok(Chain {
        next: left[0],
        at: at + FRAGMENT_LEN,
        fragment: Some(Frag {
            offset: word / 8,
            more: word % 2 == 1,
            id: be32(left, 4),
        }),
    })
}
