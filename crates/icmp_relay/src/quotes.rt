// The tunnel packets that ICMPv6 errors quote.
ghost use Rattle.std.specs.Prelude.{◌≡◌, ◌≤◌, length, IfOk, MatchOption, Some, true, false};
ghost use Rattle.icmp_codec.specs.Quoted.{embedded_of, embedded_packet};
ghost use Rattle.icmp_errors.specs.Answers.{gets_answer};
ghost use Rattle.icmp_relay.specs.Quotes.{ReadsQuote, inner_packet, is_first_piece, lacks_tunnel, quote_of, tunnel_len};
ghost use Rattle.port_locate.specs.Keys.{destination_at, quoted_want, source_at};

use aftr_base::{V4, V6, be16, be128};
use binding_rules::Want;
use icmp_codec::{Embedded, read_embedded};
use icmp_errors::gets_answer_about;
use ip_codec::{FRAGMENT, FRAGMENT_LEN, HEADER6_LEN, IPV4_IN_IPV6};
use port_locate::{quoted_destination, quoted_source};

/// A tunnel packet as an ICMPv6 error quotes it, and the IPv4 packet in it.
#[derive(Clone, Copy, Debug)]
pub struct Quote<'a> {
    /// The ends of the tunnel: where the quoted packet came from, and where it was to go.
    pub src6: V6,
    pub dst6: V6,
    /// Fields of the IPv4 packet's header, and as much of its payload as is quoted.
    pub protocol: u8,
    /// The fragment offset in units of 8 bytes, at most 8,191.
    pub offset: u16,
    pub src: V4,
    pub dst: V4,
    pub payload: &'a [u8],
    /// The IPv4 packet, header and payload, as far as it is quoted: all that follows the tunnel's header.
    pub packet: &'a [u8],
}

/// Why bytes quote no tunnel packet: the first of these that is true.
#[derive(Clone, Copy, Debug, PartialEq, Eq)]
pub enum QuoteBad {
    /// They do not begin with an IPv6 header that has IPv4 behind it, or a Fragment header with the offset 0 and IPv4
    /// behind that.
    Tunnel,
    /// No IPv4 header that sums up stands behind the tunnel's header.
    Inner,
}

/// Reads the tunnel packet that an ICMPv6 error quotes behind its first 8 bytes (RFC 4443, section 3; RFC 2473, section
/// 8). The payload length is not looked at, since quotes are cut.
pub fn read_quote(rest: &[u8]) -> Result<Quote<'_>, QuoteBad>
    ensures reads { ReadsQuote result (quote_of rest.now) }
    ensures packet { IfOk result (λ q. embedded_of q.packet.now ≡ Some (inner_packet q)) }
{
    let Some(tunnel_len) = tunnel_len(rest) else {
        return Err(QuoteBad::Tunnel);
    };
    let packet = &rest[tunnel_len..];
    let Some(inner) = read_embedded(packet) else {
        return Err(QuoteBad::Inner);
    };
    Ok(Quote {
        src6: V6(be128(rest, 8)),
        dst6: V6(be128(rest, 24)),
        protocol: inner.protocol,
        offset: inner.offset,
        src: inner.src,
        dst: inner.dst,
        payload: inner.payload,
        packet,
    })
}

// How many bytes the headers of the tunnel have; none where they are not there.
fn tunnel_len(rest: &[u8]) -> Option<usize>
    ensures { MatchOption result (lacks_tunnel rest.now ≡ true)
        (λ len. (lacks_tunnel rest.now ≡ false) × (len ≡ tunnel_len rest.now) × (40 ≤ len) × (len ≤ length rest.now)) }
{
    if rest.len() < HEADER6_LEN || rest[0] >> 4 != 6 {
        return None;
    }
    if rest[6] == IPV4_IN_IPV6 {
        return Some(HEADER6_LEN);
    }
    if is_first_piece(rest) {
        return Some(HEADER6_LEN + FRAGMENT_LEN);
    }
    None
}

// Whether a Fragment header of the first piece with IPv4 behind it follows.
fn is_first_piece(rest: &[u8]) -> bool
    requires { 40 ≤ length rest.now }
    ensures { result ≡ is_first_piece rest.now }
{
    rest[6] == FRAGMENT
        && rest.len() >= HEADER6_LEN + FRAGMENT_LEN
        && rest[HEADER6_LEN] == IPV4_IN_IPV6
        && be16(rest, HEADER6_LEN + 2) >> 3 == 0
}

impl<'a> Quote<'a> {
    // The IPv4 packet alone.
    fn inner(&self) -> Embedded<'a>
        ensures { embedded_packet result ≡ inner_packet self.now }
    {
        Embedded {
            protocol: self.protocol,
            offset: self.offset,
            src: self.src,
            dst: self.dst,
            payload: self.payload,
        }
    }
}

/// What the source of the quoted IPv4 packet must own for it to be its own: the source port, the identifier of an echo, or
/// the whole address. Nothing where the quote names no port.
pub fn quote_from(q: &Quote<'_>) -> Option<Want>
    ensures { result ≡ quoted_want (inner_packet q.now) source_at }
{
    quoted_source(&q.inner())
}

/// What the destination of the quoted IPv4 packet must own for it to be the one at the tunnel's end: the destination port,
/// the identifier of an echo, or the whole address. Nothing where the quote names no port.
pub fn quote_to(q: &Quote<'_>) -> Option<Want>
    ensures { result ≡ quoted_want (inner_packet q.now) destination_at }
{
    quoted_destination(&q.inner())
}

/// Whether an ICMP error may be sent about the quoted IPv4 packet (RFC 1122, section 3.2.2).
pub fn may_relay(q: &Quote<'_>) -> bool
    ensures { result ≡ gets_answer (inner_packet q.now) }
{
    gets_answer_about(&q.inner())
}
