// What the fragments of one datagram have in common.
ghost use Rattle.std.specs.Prelude.{◌≡◌, ◌<◌};
ghost use Rattle.item_stage.specs.Fragments.{down_key, inner_key, lane_count, lane_of, outer_key};
ghost use Rattle.ip_codec.specs.Packet4.{packet4};

use aftr_base::{V4, V6};
use ip_codec::{Ip4View, Outer};

/// How many lanes a row has (ours).
pub(crate) const LANES: usize = 16;

/// A tunnel packet that was cut: its addresses, and the identification of its Fragment header (RFC 8200, section 4.5).
#[derive(Clone, Copy, Debug, PartialEq, Eq, PartialOrd, Ord)]
pub(crate) struct OuterKey {
    pub(crate) src: V6,
    pub(crate) dst: V6,
    pub(crate) id: u32,
}

/// A datagram in the tunnel: the addresses of the tunnel packet, and its own addresses, protocol and identification
/// (RFC 791, section 3.2). Two subscribers may use the same identification.
#[derive(Clone, Copy, Debug, PartialEq, Eq, PartialOrd, Ord)]
pub(crate) struct InnerKey {
    pub(crate) tunnel_src: V6,
    pub(crate) tunnel_dst: V6,
    pub(crate) src: V4,
    pub(crate) dst: V4,
    pub(crate) protocol: u8,
    pub(crate) id: u16,
}

/// A datagram from the IPv4 network: its addresses, protocol and identification (RFC 791, section 3.2).
#[derive(Clone, Copy, Debug, PartialEq, Eq, PartialOrd, Ord)]
pub(crate) struct DownKey {
    pub(crate) src: V4,
    pub(crate) dst: V4,
    pub(crate) protocol: u8,
    pub(crate) id: u16,
}

impl OuterKey {
    pub(crate) fn of(outer: &Outer, id: u32) -> OuterKey
        ensures { result ≡ outer_key outer.now id }
    {
        OuterKey {
            src: outer.src,
            dst: outer.dst,
            id,
        }
    }
}

impl InnerKey {
    pub(crate) fn of(outer: &Outer, packet: &Ip4View<'_>) -> InnerKey
        ensures { result ≡ inner_key outer.now (packet4 packet.now) }
    {
        InnerKey {
            tunnel_src: outer.src,
            tunnel_dst: outer.dst,
            src: packet.src,
            dst: packet.dst,
            protocol: packet.protocol,
            id: packet.id,
        }
    }
}

impl DownKey {
    pub(crate) fn of(packet: &Ip4View<'_>) -> DownKey
        ensures { result ≡ down_key (packet4 packet.now) }
    {
        DownKey {
            src: packet.src,
            dst: packet.dst,
            protocol: packet.protocol,
            id: packet.id,
        }
    }
}

/// The lane of an identification.
pub(crate) fn lane_of(id: u32) -> usize
    ensures lane { result ≡ lane_of id }
    ensures few { result < lane_count }
{
    id as usize % LANES
}
