// The rules by which packets are dropped.
ghost use Rattle.std.specs.Prelude.{◌≡◌, Some};
ghost use Rattle.std.specs.Str.{IsAscii};
ghost use Rattle.ip_codec.specs.Rules.{name_of};

use std::fmt;

/// Why a packet is dropped. Each rule has a printed name.
#[derive(Clone, Copy, Debug, PartialEq, Eq)]
pub enum Rule {
    /// A record has too few bytes for the frame header of its link type.
    FrameShort,
    /// A frame holds neither an IPv4 nor an IPv6 packet.
    FrameType,
    /// A downstream packet has a faulty IPv4 header, or is shorter than its header says (RFC 791).
    Ip4Malformed,
    /// The header checksum of a downstream packet is wrong.
    Ip4Checksum,
    /// An upstream packet has a faulty IPv6 header, or is shorter than its header says (RFC 8200).
    Ip6Malformed,
    /// The extension headers of an upstream packet are cut off, out of order, or ask for source routing.
    Ip6Chain,
    /// A fragment is empty, or is not the last and has a length that is no multiple of 8.
    FragOdd,
    /// A fragment reaches past 65,535 bytes, or the datagram would.
    FragLong,
    /// Fragments of one datagram overlap or contradict one another.
    FragOverlap,
    /// A datagram comes in more than 256 distinct fragments.
    FragMany,
    /// A fragment begins a datagram while 256 are open in its lane.
    FragFull,
    /// An upstream packet is not for the router's tunnel address.
    NotOurs,
    /// An upstream packet for the tunnel address carries no IPv4 packet.
    NotSoftwire,
    /// The tunnelled packet has a faulty IPv4 header, or is shorter than its header says.
    InnerMalformed,
    /// The header checksum of the tunnelled packet is wrong.
    InnerChecksum,
    /// The packet is for the router's own IPv4 address.
    ToSelf,
    /// A downstream ICMP packet came while the table forwards none.
    IcmpOff,
    /// An ICMP message is cut off, has a wrong checksum, or quotes no IPv4 header.
    IcmpBad,
    /// The packet names no port: a fragment, or too short for its protocol.
    NoPort,
    /// No subscriber owns the address and port, or the sender is another one (RFC 7596, section 6.2).
    NoBinding,
    /// The time to live is used up.
    Ttl,
    /// The packet is too large for the way out and may not be cut.
    TooBig,
    /// A packet from one subscriber to another, while the table turns none around.
    HairpinOff,
    /// A packet to an address of subscribers whose port none of them owns.
    HairpinNoBinding,
    /// An ICMPv6 error about a tunnel packet, passed on to the sender of the packet inside (RFC 2473, section 8).
    Relayed,
    /// An ICMPv6 error about a tunnel packet that has a wrong checksum, or quotes no tunnel packet of the router's.
    RelayBad,
    /// An ICMPv6 error about a tunnel packet that the table has no binding for.
    RelayNoBinding,
    /// An ICMPv6 error about a tunnel packet whose inner packet gets no ICMP error (RFC 1122, section 3.2.2).
    RelayMute,
}

impl Rule {
    /// The rule's printed name: lower-case words of ASCII letters and digits, joined by `-`.
    pub fn name(&self) -> &'static str
        ensures value { result.now ≡ name_of self.now }
        ensures ascii { IsAscii result.now }
    {
        match self {
            Rule::FrameShort => "frame-short",
            Rule::FrameType => "frame-type",
            Rule::Ip4Malformed => "ip4-malformed",
            Rule::Ip4Checksum => "ip4-checksum",
            Rule::Ip6Malformed => "ip6-malformed",
            Rule::Ip6Chain => "ip6-chain",
            Rule::FragOdd => "frag-odd",
            Rule::FragLong => "frag-long",
            Rule::FragOverlap => "frag-overlap",
            Rule::FragMany => "frag-many",
            Rule::FragFull => "frag-full",
            Rule::NotOurs => "not-ours",
            Rule::NotSoftwire => "not-softwire",
            Rule::InnerMalformed => "inner-malformed",
            Rule::InnerChecksum => "inner-checksum",
            Rule::ToSelf => "to-self",
            Rule::IcmpOff => "icmp-off",
            Rule::IcmpBad => "icmp-bad",
            Rule::NoPort => "no-port",
            Rule::NoBinding => "no-binding",
            Rule::Ttl => "ttl",
            Rule::TooBig => "too-big",
            Rule::HairpinOff => "hairpin-off",
            Rule::HairpinNoBinding => "hairpin-no-binding",
            Rule::Relayed => "relayed",
            Rule::RelayBad => "relay-bad",
            Rule::RelayNoBinding => "relay-no-binding",
            Rule::RelayMute => "relay-mute",
        }
    }
}

impl fmt::Display for Rule {
    ghost output = { λ rule. Some (name_of rule) };

    fn fmt<W: fmt::Write>(&self, f: &mut fmt::Formatter<W>) -> fmt::Result {
        f.write_str(self.name())
    }
}
