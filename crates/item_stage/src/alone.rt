// What one record is by itself.
ghost use Rattle.std.specs.Prelude.{◌≡◌};
ghost use Rattle.capture_io.specs.Frames.{said};
ghost use Rattle.ip_codec.specs.Packet4.{ip4_of, packet4};
ghost use Rattle.ip_codec.specs.Packet6.{ip6_of, packet6};
ghost use Rattle.item_stage.specs.Alone.{alone_of, at_end, behind_fragment, behind_headers, by_chain, outer_of};
ghost use Rattle.item_stage.specs.Alone.{from_network, from_tunnel, in_frame, in_tunnel, refused_from_network};
ghost use Rattle.item_stage.specs.Shown.{shown, shown_inside};
ghost use Rattle.ipv6_chain.specs.Chains.{chain_of};
ghost use Rattle.ipv6_chain.specs.declared.headers.Start.TheVariants.{Packet};

use capture_io::{Form, Frame, frame_of};
use ip_codec::{
    ICMP6, IPV4_IN_IPV6, Ip4Bad, Ip6View, ItemView, Outer, ReadPacket, Rule, ip6, read_packet,
};
use ipv6_chain::{Chain, Start, walk};

/// What an IPv6 packet carries, its Fragment header left behind.
#[derive(Clone, Copy)]
pub(crate) enum Inside<'a> {
    /// An item of its own.
    Settled(ItemView<'a>),
    /// A fragment of an IPv4 datagram, in the tunnel with these outer fields.
    Fragment {
        outer: Outer,
        packet: ReadPacket<'a>,
    },
}

/// A fragment of a tunnel packet: what stands behind its Fragment header.
#[derive(Clone, Copy)]
pub(crate) struct Cut<'a> {
    pub(crate) outer: Outer,
    pub(crate) id: u32,
    /// In units of 8 bytes.
    pub(crate) offset: u16,
    pub(crate) more: bool,
    /// The number of the first header in what was cut.
    pub(crate) next: u8,
    pub(crate) body: &'a [u8],
}

/// What a record is by itself.
#[derive(Clone, Copy)]
pub(crate) enum Alone<'a> {
    /// An item of its own.
    Ready(ItemView<'a>),
    /// A fragment of an IPv4 datagram from the IPv4 network.
    Downstream(ReadPacket<'a>),
    /// A fragment of a tunnel packet.
    Cut(Cut<'a>),
    /// What an IPv6 packet carries.
    Carries(Inside<'a>),
}

/// What a record's bytes are, in a capture of this form.
pub(crate) fn read_alone(form: Form, bytes: &[u8]) -> Alone<'_>
    ensures { shown result ≡ alone_of form bytes.now }
{
    read_frame(frame_of(form.link, bytes))
}

fn read_frame<'a>(frame: Frame<'a>) -> Alone<'a>
    ensures { shown result ≡ in_frame (said frame.entry) }
{
    match frame {
        Frame::V4(packet) => read_network(packet),
        Frame::V6(packet) => read_tunnel(packet),
        Frame::Short => Alone::Ready(ItemView::Bad(Rule::FrameShort)),
        Frame::Kind => Alone::Ready(ItemView::Bad(Rule::FrameType)),
    }
}

/// An IPv4 packet from the IPv4 network.
pub(crate) fn read_network(bytes: &[u8]) -> Alone<'_>
    ensures { shown result ≡ from_network (ip4_of bytes.now) }
{
    match read_packet(bytes) {
        Ok(packet) => {
            if packet.view.is_fragment() {
                return Alone::Downstream(packet);
            }
            Alone::Ready(ItemView::Down { packet })
        }
        Err(unread) => Alone::Ready(ItemView::Bad(rule_of_refusal(unread.why))),
    }
}

fn rule_of_refusal(why: Ip4Bad) -> Rule
    ensures { refused_from_network why ≡ result }
{
    match why {
        Ip4Bad::Checksum => Rule::Ip4Checksum,
        Ip4Bad::Short { .. } | Ip4Bad::Version | Ip4Bad::HeaderLength | Ip4Bad::TotalLength => {
            Rule::Ip4Malformed
        }
    }
}

/// An IPv6 packet.
pub(crate) fn read_tunnel(bytes: &[u8]) -> Alone<'_>
    ensures { shown result ≡ from_tunnel (ip6_of bytes.now) }
{
    match ip6(bytes) {
        Ok(packet) => read_chain(outer_fields(&packet), packet.next, packet.body),
        Err(_) => Alone::Ready(ItemView::Bad(Rule::Ip6Malformed)),
    }
}

pub(crate) fn outer_fields(packet: &Ip6View<'_>) -> Outer
    ensures { result ≡ outer_of (packet6 packet.now) }
{
    Outer {
        word: packet.word,
        hop: packet.hop,
        src: packet.src,
        dst: packet.dst,
    }
}

fn read_chain(outer: Outer, next: u8, body: &[u8]) -> Alone<'_>
    ensures { shown result ≡ by_chain outer body.now (chain_of next body.now Packet) }
{
    match walk(next, body, Start::Packet) {
        Ok(chain) => read_end(outer, chain, &body[chain.at..]),
        Err(_) => Alone::Ready(ItemView::Bad(Rule::Ip6Chain)),
    }
}

// What stands behind the chain of a packet's own headers.
fn read_end(outer: Outer, chain: Chain, bytes: &[u8]) -> Alone<'_>
    ensures { shown result ≡ at_end outer chain.next bytes.now chain.fragment }
{
    match chain.fragment {
        Some(fragment) => {
            if fragment.offset != 0 || fragment.more {
                return Alone::Cut(Cut {
                    outer,
                    id: fragment.id,
                    offset: fragment.offset,
                    more: fragment.more,
                    next: chain.next,
                    body: bytes,
                });
            }
            Alone::Carries(behind_fragment(outer, chain.next, bytes))
        }
        None => Alone::Carries(behind_headers(outer, chain.next, bytes)),
    }
}

/// What a Fragment header carried, whole, of which the first header has the number `next`.
pub(crate) fn behind_fragment(outer: Outer, next: u8, body: &[u8]) -> Inside<'_>
    ensures { shown_inside result ≡ behind_fragment outer next body.now }
{
    match walk(next, body, Start::AfterFragment) {
        Ok(chain) => behind_headers(outer, chain.next, &body[chain.at..]),
        Err(_) => Inside::Settled(ItemView::Bad(Rule::Ip6Chain)),
    }
}

// What stands behind the last header.
fn behind_headers(outer: Outer, next: u8, bytes: &[u8]) -> Inside<'_>
    ensures { shown_inside result ≡ behind_headers outer next bytes.now }
{
    match next {
        IPV4_IN_IPV6 => in_tunnel(outer, bytes),
        ICMP6 => Inside::Settled(ItemView::Icmp6 {
            src: outer.src,
            dst: outer.dst,
            message: bytes,
        }),
        _ => Inside::Settled(ItemView::OtherIp6 { dst: outer.dst }),
    }
}

// A packet in the tunnel.
fn in_tunnel(outer: Outer, bytes: &[u8]) -> Inside<'_>
    ensures { shown_inside result ≡ in_tunnel outer bytes.now (ip4_of bytes.now) }
{
    match read_packet(bytes) {
        Ok(packet) => {
            if packet.view.is_fragment() {
                return Inside::Fragment { outer, packet };
            }
            Inside::Settled(ItemView::Up {
                outer,
                inner: packet,
            })
        }
        Err(inner) => Inside::Settled(ItemView::UpUnread { outer, inner }),
    }
}
