// The numbers by which the headers of IPv4 and IPv6 say what stands behind them (RFC 791, section 3.1; RFC 8200, section 3; IANA
// assigns them).

/// ICMP (RFC 792).
pub const ICMP: u8 = 1;

/// An IPv4 packet, in a tunnel packet (RFC 2473, section 5).
pub const IPV4_IN_IPV6: u8 = 4;

/// TCP (RFC 9293).
pub const TCP: u8 = 6;

/// UDP (RFC 768).
pub const UDP: u8 = 17;

/// The Fragment header of IPv6 (RFC 8200, section 4.5).
pub const FRAGMENT: u8 = 44;

/// How many bytes a Fragment header has.
pub const FRAGMENT_LEN: usize = 8;

/// ICMPv6 (RFC 4443, section 1).
pub const ICMP6: u8 = 58;
