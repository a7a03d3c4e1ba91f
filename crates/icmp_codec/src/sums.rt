// The checksum of an ICMPv6 message.
ghost use Rattle.std.specs.Prelude.{◌≡◌};
ghost use Rattle.icmp_codec.specs.Message6.{checksum6, pseudo_header};

use aftr_base::V6;
use ip_codec::{ICMP6, sum_of_both};

// The checksum of an ICMPv6 message: that of its pseudo-header and the message (RFC 4443, section 2.3).
pub fn sum_message6(src: V6, dst: V6, message: &[u8]) -> u16
    ensures { result ≡ checksum6 src.0 dst.0 message.now }
{
    sum_of_both(&pseudo_header(src, dst, message.len()), message)
}

// The pseudo-header of an ICMPv6 message (RFC 8200, section 8.1).
fn pseudo_header(src: V6, dst: V6, message_len: usize) -> [u8; 40]
    ensures { result ≡ pseudo_header src.0 dst.0 message_len }
{
    let mut bytes = [0; 40];
    bytes[..16].copy_from_slice(&src.0.to_be_bytes());
    bytes[16..32].copy_from_slice(&dst.0.to_be_bytes());
    bytes[32..36].copy_from_slice(&message_len.to_be_bytes()[4..]);
    bytes[39] = ICMP6;
    bytes
}
