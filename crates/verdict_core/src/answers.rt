// What the lines answer: drops, with what the sender is told, and ways out.
ghost use Rattle.std.specs.Prelude.{◌≡◌, ◌-◌, ◌≤◌, ◌&&◌, min, max};
ghost use Rattle.icmp_errors.specs.Answers.{about, gets_answer, gets_answer6};
ghost use Rattle.ip_codec.specs.Packet4.{packet4};
ghost use Rattle.verdict_core.specs.Answers.{dropped, ends_at, inward, inward_room, is_too_large, is_expired, no_owner};
ghost use Rattle.verdict_core.specs.Answers.{not_sender, relayed, relayed_code, relayed_mtu, silent, too_large, time_exceeded, way_back};

use crate::verdicts::{Path, Reply, Verdict};
use aftr_base::V6;
use binding_rules::{LEAST_MTU6, Softwire};
use icmp_errors::{gets_answer, gets_answer6};
use ip_codec::{HEADER6_LEN, Ip4View, Outer, Rule};

// With less a packet's time to live would be used up here.
const LEAST_TTL: u8 = 2;

// How many bytes the header of a tunnel packet has (RFC 2473, section 3.1).
const TUNNEL_HEADER_LEN: u16 = HEADER6_LEN as u16;

// The type of an ICMPv6 error about a packet that was too big (RFC 4443, section 3.2).
const PACKET_TOO_BIG: u8 = 2;

// The least size that a tunnel's link can have, and the greatest of a tunnel packet.
const LEAST_MTU: u32 = LEAST_MTU6 as u32;

const GREATEST_MTU: u32 = 65_575;

// Dropped, and nobody is told.
pub fn silent(why: Rule) -> Verdict
    ensures { result ≡ silent why }
{
    Verdict::Drop {
        why,
        reply: Reply::Silent,
    }
}

// Drops are rare, and a verdict has many words: it is made out of the way of packets that pass, where the caller keeps it.
#[cold]
#[inline(never)]
pub fn drop_silently(why: Rule, verdict: &mut Verdict)
    ensures { verdict.new ≡ silent why }
{
    *verdict = silent(why);
}

// Dropped, and the sender is told of it if so.
fn dropped(why: Rule, tells: bool, told: Reply) -> Verdict
    ensures { result ≡ dropped why tells told }
{
    if tells {
        Verdict::Drop { why, reply: told }
    } else {
        silent(why)
    }
}

// The way back through the tunnel that a packet came through.
pub fn way_back(settings: &Softwire, outer: &Outer) -> Path
    ensures { result ≡ way_back settings.now outer.now }
{
    Path::Tunnel {
        from: settings.aftr,
        to: outer.src,
        hop: settings.hop_limit,
    }
}

// The sender does not own its source.
pub fn not_sender(settings: &Softwire, outer: &Outer) -> Verdict
    ensures { result ≡ not_sender settings.now outer.now }
{
    let told = Reply::Policy {
        from: settings.aftr,
        to: outer.src,
        hop: settings.hop_limit,
    };
    dropped(Rule::NoBinding, tells_subscriber(settings, outer), told)
}

fn tells_subscriber(settings: &Softwire, outer: &Outer) -> bool
    ensures { result ≡ (settings.now.errors_up && gets_answer6 outer.now.src.0) }
{
    settings.errors_up && gets_answer6(outer.src)
}

// Nobody owns the destination.
pub fn no_owner(settings: &Softwire, why: Rule, path: Path, packet: &Ip4View<'_>) -> Verdict
    ensures { result ≡ no_owner settings.now why path (packet4 packet.now) }
{
    let told = Reply::Unreachable {
        own: settings.own,
        path,
    };
    dropped(why, tells_sender(settings, packet), told)
}

fn tells_sender(settings: &Softwire, packet: &Ip4View<'_>) -> bool
    ensures { result ≡ (settings.now.errors_down && gets_answer (about (packet4 packet.now))) }
{
    settings.errors_down && gets_answer(packet)
}

// The time to live is used up.
pub fn time_exceeded(settings: &Softwire, path: Path, packet: &Ip4View<'_>) -> Verdict
    ensures { result ≡ time_exceeded settings.now path (packet4 packet.now) }
{
    let told = Reply::Exceeded {
        own: settings.own,
        path,
    };
    dropped(Rule::Ttl, gets_answer(packet), told)
}

// The packet is larger than this and must not be cut.
pub fn too_large(settings: &Softwire, room: u16, path: Path, packet: &Ip4View<'_>) -> Verdict
    ensures { result ≡ too_large settings.now room path (packet4 packet.now) }
{
    let told = Reply::TooBig {
        own: settings.own,
        mtu: room,
        path,
    };
    dropped(Rule::TooBig, gets_answer(packet), told)
}

// How large an IPv4 packet fits into the tunnel.
pub fn inward_room(settings: &Softwire) -> u16
    ensures { result ≡ inward_room settings.now }
{
    settings.mtu6.saturating_sub(TUNNEL_HEADER_LEN)
}

pub fn is_expired(packet: &Ip4View<'_>) -> bool
    ensures { result ≡ is_expired (packet4 packet.now) }
{
    packet.ttl < LEAST_TTL
}

pub fn is_too_large(room: u16, packet: &Ip4View<'_>) -> bool
    ensures { result ≡ is_too_large room (packet4 packet.now) }
{
    packet.df && usize::from(room) < packet.total_len()
}

// Into the tunnel that ends there.
pub fn inward(settings: &Softwire, back: bool, to: V6) -> Verdict
    ensures { result ≡ inward settings.now back to }
{
    Verdict::Inward {
        from: settings.aftr,
        to,
        hop: settings.hop_limit,
        mtu: settings.mtu6,
        back,
    }
}

// Whether the owner's tunnel ends there.
pub fn ends_at(end: Option<V6>, address: V6) -> bool
    ensures { result ≡ ends_at end address.0 }
{
    match end {
        Some(end) => end == address,
        None => false,
    }
}

// An ICMPv6 error of this type and word, passed on.
pub fn relayed(settings: &Softwire, kind: u8, word: u32, path: Path) -> Verdict
    ensures { result ≡ relayed settings.now kind word path }
{
    Verdict::Drop {
        why: Rule::Relayed,
        reply: Reply::Relay {
            own: settings.own,
            code: relayed_code(kind),
            mtu: relayed_mtu(kind, word),
            path,
        },
    }
}

// Fragmentation needed, or host unreachable (RFC 792).
fn relayed_code(kind: u8) -> u8
    ensures { result ≡ relayed_code kind }
{
    if kind == PACKET_TOO_BIG { 4 } else { 1 }
}

// The greatest size of the packet inside.
fn relayed_mtu(kind: u8, word: u32) -> u16
    ensures { result ≡ relayed_mtu kind word }
{
    if kind != PACKET_TOO_BIG {
        return 0;
    }
    (possible_mtu(word) - u32::from(TUNNEL_HEADER_LEN)) as u16
}

// The nearest size that a link can have and a tunnel packet can reach.
fn possible_mtu(word: u32) -> u32
    ensures value { result ≡ min (max word 1280) 65575 }
    ensures least { 1280 ≤ result }
    ensures most { result ≤ 65575 }
{
    if word < LEAST_MTU {
        return LEAST_MTU;
    }
    if word > GREATEST_MTU {
        return GREATEST_MTU;
    }
    word
}
