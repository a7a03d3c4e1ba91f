// What a record's bytes carry, by the link type of the capture.
ghost use Rattle.std.specs.Prelude.{◌≡◌, ◌+◌, ◌≤◌, length};
ghost use Rattle.capture_io.specs.Frames.{behind_type, carried, ethernet, plain, said};

use crate::header::{ETHERNET, PLAIN_IP};
use aftr_base::be16;

const IPV4: u16 = 0x0800;

const IPV6: u16 = 0x86dd;

const VLAN_TAG: u16 = 0x8100;

/// What a frame carries.
#[derive(Clone, Copy, Debug, PartialEq, Eq)]
pub enum Frame<'a> {
    /// An IPv4 packet, with whatever stands behind it in the frame.
    V4(&'a [u8]),
    /// An IPv6 packet, with whatever stands behind it in the frame.
    V6(&'a [u8]),
    /// Too few bytes for the link's header.
    Short,
    /// Something else.
    Kind,
}

/// What a record's bytes carry. Link type 101 is plain IP, link type 1 is Ethernet with at most one VLAN tag (IEEE
/// 802.1Q); a record of any other link is of another kind.
pub fn frame_of(link: u32, bytes: &[u8]) -> Frame
    ensures { said result ≡ carried link bytes.now }
{
    match link {
        PLAIN_IP => plain_frame(bytes),
        ETHERNET => ethernet_frame(bytes),
        _ => Frame::Kind,
    }
}

fn plain_frame(bytes: &[u8]) -> Frame
    ensures { said result ≡ plain bytes.now }
{
    if bytes.is_empty() {
        return Frame::Short;
    }
    match bytes[0] / 16 {
        4 => Frame::V4(bytes),
        6 => Frame::V6(bytes),
        _ => Frame::Kind,
    }
}

fn ethernet_frame(bytes: &[u8]) -> Frame
    ensures { said result ≡ ethernet bytes.now }
{
    if bytes.len() < 14 {
        return Frame::Short;
    }
    if be16(bytes, 12) != VLAN_TAG {
        return packet_behind(bytes, 12);
    }
    if bytes.len() < 18 {
        return Frame::Short;
    }
    packet_behind(bytes, 16)
}

/// What the Ethernet type at a place says of the bytes behind it.
fn packet_behind(bytes: &[u8], at: usize) -> Frame
    requires { at + 2 ≤ length bytes.now }
    ensures { said result ≡ behind_type bytes.now at }
{
    match be16(bytes, at) {
        IPV4 => Frame::V4(&bytes[at + 2..]),
        IPV6 => Frame::V6(&bytes[at + 2..]),
        _ => Frame::Kind,
    }
}
