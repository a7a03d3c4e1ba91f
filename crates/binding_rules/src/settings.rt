// What holds for all bindings of a table.
use aftr_base::{V4, V6};

/// Which rule the bindings of one address keep. In edition One they have one shape, and in edition Two their shapes may
/// differ. In both no port is in two of them.
#[derive(Clone, Copy, Debug, PartialEq, Eq)]
pub enum Edition {
    One,
    Two,
}

/// The least size of a packet that every IPv6 link takes (RFC 8200, section 5).
pub const LEAST_MTU6: u16 = 1280;

/// The least size of a packet that every host takes, in pieces or whole (RFC 791, section 3.1).
pub const LEAST_MTU4: u16 = 576;

/// The router's own addresses and settings.
#[derive(Clone, Copy, Debug, PartialEq, Eq)]
pub struct Softwire {
    /// The tunnel's end at the router.
    pub aftr: V6,
    /// The router's own IPv4 address, from which its ICMP errors come; no binding has it.
    pub own: V4,
    /// The greatest size of a packet towards the subscribers, in bytes, at least 1,280.
    pub mtu6: u16,
    /// The greatest size of a packet towards the IPv4 network, in bytes, at least 576.
    pub mtu4: u16,
    /// The hop limit of a packet towards the subscribers, at least 1.
    pub hop_limit: u8,
    /// Whether a packet from one subscriber to another is turned round in the router.
    pub hairpin: bool,
    /// Whether ICMP messages from the IPv4 network pass towards the subscribers. It is not asked of those from one
    /// subscriber to another.
    pub icmp_in: bool,
    /// Whether a subscriber's packet that no binding allows is answered with an ICMPv6 error into its tunnel (RFC 7596
    /// section 6.2). Errors for a time to live that is used up and for a packet that is too big do not ask it.
    pub errors_up: bool,
    /// Whether a packet to an address and port that no binding has is answered with an ICMP error: to the IPv4 network, and
    /// into the tunnel of the subscriber where one sent it. Errors for a time to live that is used up and for a packet that
    /// is too big do not ask it.
    pub errors_down: bool,
}
