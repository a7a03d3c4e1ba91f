// IPv4 packets as ICMP errors quote them.
ghost use Rattle.std.specs.Prelude.{◌≡◌};
ghost use Rattle.icmp_codec.specs.Quoted.{embedded_of, quoted};

use aftr_base::{V4, be16, be32, sum16};
use ip_codec::HEADER4_LEN;

/// An IPv4 packet as an ICMP error quotes it: fields of its header, and as much of its payload as is quoted (RFC 792).
#[derive(Clone, Copy, Debug)]
pub struct Embedded<'a> {
    pub protocol: u8,
    /// The fragment offset in units of 8 bytes, at most 8,191.
    pub offset: u16,
    pub src: V4,
    pub dst: V4,
    /// What stands behind the header. Where the quote was cut, it is shorter than the packet's payload was.
    pub payload: &'a [u8],
}

/// Reads the IPv4 packet that the bytes quote, or nothing where they do not begin with an IPv4 header that sums up (RFC
/// 791, section 3.1; RFC 5508, requirement 3). Its total length is not looked at, since a quote may be cut.
pub fn read_embedded(bytes: &[u8]) -> Option<Embedded<'_>>
    ensures { quoted result ≡ embedded_of bytes.now }
{
    if bytes.len() < HEADER4_LEN || bytes[0] >> 4 != 4 {
        return None;
    }
    let header_len = 4 * usize::from(bytes[0] & 0x0f);
    if header_len < HEADER4_LEN || bytes.len() < header_len || sum16(&bytes[..header_len]) != 0 {
        return None;
    }
    Some(Embedded {
        protocol: bytes[9],
        offset: be16(bytes, 6) & 0x1fff,
        src: V4(be32(bytes, 12)),
        dst: V4(be32(bytes, 16)),
        payload: &bytes[header_len..],
    })
}
