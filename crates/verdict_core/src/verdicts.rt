// What becomes of an item.
use aftr_base::{V4, V6};
use ip_codec::Rule;

/// How a reply goes back: as it is, or in the tunnel to the sender. The hop limit stands before the addresses, where there is room: so a
/// verdict, which is kept for each record of a round, has 80 bytes and not 96.
#[derive(Clone, Copy, Debug, PartialEq, Eq)]
pub enum Path {
    Plain,
    Tunnel { hop: u8, from: V6, to: V6 },
}

/// What the sender of a dropped packet is told.
#[derive(Clone, Copy, Debug, PartialEq, Eq)]
pub enum Reply {
    /// Nothing.
    Silent,
    /// ICMP host unreachable, from the router's address `own` (RFC 792).
    Unreachable {
        own: V4,
        path: Path,
    },
    /// ICMP fragmentation needed, with the greatest size in bytes (RFC 1191).
    TooBig {
        own: V4,
        mtu: u16,
        path: Path,
    },
    /// ICMP time exceeded (RFC 792).
    Exceeded {
        own: V4,
        path: Path,
    },
    /// ICMPv6 source address failed the policy (RFC 4443, section 3.1).
    Policy {
        from: V6,
        to: V6,
        hop: u8,
    },
    /// An ICMPv6 error about a tunnel packet, passed on as ICMP destination unreachable with this code, 1 or 4, and the
    /// greatest size in bytes, from the router's address `own` (RFC 2473, section 8).
    Relay {
        own: V4,
        code: u8,
        mtu: u16,
        path: Path,
    },
}

/// What becomes of an item.
#[derive(Clone, Copy, Debug, PartialEq, Eq)]
pub enum Verdict {
    /// A fragment that waits until its datagram is whole.
    Held,
    /// It goes nowhere, for this rule.
    Drop {
        why: Rule,
        reply: Reply,
    },
    /// Into the tunnel to a subscriber, in packets of at most `mtu` bytes; `back` for a packet that came from one.
    Inward {
        from: V6,
        to: V6,
        hop: u8,
        mtu: u16,
        back: bool,
    },
    /// Out to the IPv4 network, in packets of at most `mtu` bytes.
    Outward {
        mtu: u16,
    },
}
