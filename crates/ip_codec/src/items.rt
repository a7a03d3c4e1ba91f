// What records become.
use crate::Rule;
use crate::readings::{ReadPacket, Unread};
use aftr_base::{Bytes, V6};

/// The fields of an upstream packet's outer header that its judgement and its replies need.
#[derive(Clone, Copy, Debug, PartialEq, Eq)]
pub struct Outer {
    /// The first 32 bits of the IPv6 header: version, traffic class and flow label (RFC 8200, section 3).
    pub word: u32,
    /// The hop limit.
    pub hop: u8,
    pub src: V6,
    pub dst: V6,
}

/// What a record of the capture is, before any table is asked. Definitions speak of it; `ItemView` is the same without a copy
/// of the bytes.
#[derive(Debug, Drop)]
pub enum Item {
    /// A whole IPv4 packet towards a subscriber.
    Down { packet: Bytes },
    /// What a softwire packet from a subscriber carries, and the outer header's fields. An IPv4 packet was read once, and
    /// cut to its total length; anything else stands as it came.
    Up { outer: Outer, inner: Bytes },
    /// An IPv6 packet that carries neither an IPv4 packet nor an ICMPv6 message.
    OtherIp6 { dst: V6 },
    /// An IPv6 packet that carries an ICMPv6 message (RFC 4443): its bytes, whatever they hold.
    Icmp6 { src: V6, dst: V6, message: Bytes },
    /// A fragment that waits until its datagram is whole.
    Held,
    /// A record that is dropped before any table is asked.
    Bad(Rule),
}

/// An item as a view of bytes that stand elsewhere, those of its record or of a datagram that was put together. Its IPv4
/// packet was read once. Contracts see by `seen` which item it is.
#[derive(Clone, Copy, Debug)]
pub enum ItemView<'a> {
    /// A whole IPv4 packet towards a subscriber.
    Down { packet: ReadPacket<'a> },
    /// A softwire packet from a subscriber: the outer header's fields, and the IPv4 packet that it carries.
    Up { outer: Outer, inner: ReadPacket<'a> },
    /// The same where what it carries is no IPv4 packet.
    UpUnread { outer: Outer, inner: Unread<'a> },
    /// An IPv6 packet that carries neither an IPv4 packet nor an ICMPv6 message.
    OtherIp6 { dst: V6 },
    /// An IPv6 packet that carries an ICMPv6 message (RFC 4443): its bytes, whatever they hold.
    Icmp6 { src: V6, dst: V6, message: &'a [u8] },
    /// A fragment that waits until its datagram is whole.
    Held,
    /// A record that is dropped before any table is asked.
    Bad(Rule),
}
