// What the lines of packets that are sent share: items with their packet read, what is recorded for verdicts on them, and the
// records taken apart.
ghost use Rattle.std.specs.Prelude.{◌≡◌, ◌≤◌, true, false};
ghost use Rattle.ip_codec.specs.Packet4.{is_fragment, packet4, packet_len};
ghost use Rattle.ip_codec.specs.Seen.{seen};
ghost use Rattle.verdict_core.specs.Fitting.{Fits, HasRoom};

use crate::named_packets::packet;
use crate::stages::{PLAIN, form, records_of};
use aftr_base::{V4, V6};
use capture_io::Written;
use case_data::{AFTR, OWN, SUBSCRIBER};
use icmp_codec::icmp6;
use icmp_relay::read_quote;
use ip_codec::{ItemView, Outer, ReadPacket, Rule, read_packet};
use item_stage::{RoundItems, Stage};
use packet_render::push_packets;
use std::alloc::Global;
use std::test::Fail;
use verdict_core::{Path, Reply, Verdict};

// The form and the time of every record in these tests.
const FORM: Written = Written::Classic { nano: false };

const SECONDS: u32 = 1;

const FRACTION: u32 = 0x0201;

const TIME: &[u8; 8] = b"\x01\0\0\0\x01\x02\0\0";

// What is recorded, and how many packets the call said.
type Recorded = (u32, Vec<u8>);

// The header of a subscriber's tunnel packet.
fn outer(from: V6) -> Outer {
    Outer {
        word: 0x6000_0000,
        hop: 64,
        src: from,
        dst: AFTR,
    }
}

// What is recorded for record `number`.
fn record(
    alloc: Global,
    item: &ItemView<'_>,
    verdict: Verdict,
    number: u32,
) -> Result<Recorded, Fail>
    requires fits { Fits (seen item.now) verdict }
    requires room { HasRoom verdict }
{
    let mut out = Vec::new(alloc);
    let count = push_packets(&mut out, FORM, item, &verdict, number, SECONDS, FRACTION)?;
    Ok((count, out))
}

// Whether a packet may be sent on in packets of so many bytes.
fn is_sendable(packet: &ReadPacket<'_>, room: usize) -> bool
    ensures { result ≡ true → (is_fragment (packet4 packet.now.view) ≡ false) × (2 ≤ packet.now.view.ttl)
        × (packet.now.view.df ≡ true → packet_len (packet4 packet.now.view) ≤ room) }
{
    if packet.view.is_fragment() {
        return false;
    }
    if packet.view.ttl < 2 {
        return false;
    }
    !packet.view.df || packet.view.total_len() <= room
}

// What is recorded for a packet of a subscriber that goes out.
fn sent_out(alloc: Global, bytes: &[u8], mtu: u16) -> Result<Recorded, Fail> {
    let Ok(inner) = read_packet(bytes) else {
        return Err("a packet".into());
    };
    if mtu < 576 {
        return Err("a size that every host takes".into());
    }
    if is_sendable(&inner, usize::from(mtu)) {
        let item = ItemView::Up {
            outer: outer(SUBSCRIBER),
            inner,
        };
        return record(alloc, &item, Verdict::Outward { mtu }, 7);
    }
    Err("a packet that can be sent on".into())
}

// What is recorded for a packet that goes to a subscriber, as record `number`.
fn sent_in(alloc: Global, bytes: &[u8], mtu: u16, number: u32) -> Result<Recorded, Fail> {
    let Ok(packet) = read_packet(bytes) else {
        return Err("a packet".into());
    };
    if mtu < 1280 {
        return Err("a size that every link takes".into());
    }
    if is_sendable(&packet, usize::from(mtu) - 40) {
        let item = ItemView::Down { packet };
        let verdict = Verdict::Inward {
            from: AFTR,
            to: SUBSCRIBER,
            hop: 64,
            mtu,
            back: false,
        };
        return record(alloc, &item, verdict, number);
    }
    Err("a packet that can be sent on".into())
}

// What is recorded for a packet of one subscriber that goes to another.
fn sent_back(alloc: Global, bytes: &[u8], to: V6, mtu: u16) -> Result<Recorded, Fail> {
    let Ok(inner) = read_packet(bytes) else {
        return Err("a packet".into());
    };
    if mtu < 1280 {
        return Err("a size that every link takes".into());
    }
    if is_sendable(&inner, usize::from(mtu) - 40) {
        let item = ItemView::Up {
            outer: outer(SUBSCRIBER),
            inner,
        };
        let verdict = Verdict::Inward {
            from: AFTR,
            to,
            hop: 64,
            mtu,
            back: true,
        };
        return record(alloc, &item, verdict, 7);
    }
    Err("a packet that can be sent on".into())
}

// What is recorded for a packet of a subscriber that is dropped in silence.
fn dropped(alloc: Global, bytes: &[u8]) -> Result<Recorded, Fail> {
    let Ok(inner) = read_packet(bytes) else {
        return Err("a packet".into());
    };
    let item = ItemView::Up {
        outer: outer(SUBSCRIBER),
        inner,
    };
    let verdict = Verdict::Drop {
        why: Rule::NoBinding,
        reply: Reply::Silent,
    };
    record(alloc, &item, verdict, 7)
}

// What a subscriber is told of a packet whose time to live is used up.
fn exceeded(alloc: Global, bytes: &[u8], own: V4, path: Path) -> Result<Recorded, Fail> {
    let Ok(inner) = read_packet(bytes) else {
        return Err("a packet".into());
    };
    let item = ItemView::Up {
        outer: outer(SUBSCRIBER),
        inner,
    };
    let verdict = Verdict::Drop {
        why: Rule::Ttl,
        reply: Reply::Exceeded { own, path },
    };
    record(alloc, &item, verdict, 7)
}

// What a subscriber is told of a packet to an address and port that nobody has.
fn unreachable(alloc: Global, bytes: &[u8], own: V4, path: Path) -> Result<Recorded, Fail> {
    let Ok(inner) = read_packet(bytes) else {
        return Err("a packet".into());
    };
    let item = ItemView::Up {
        outer: outer(SUBSCRIBER),
        inner,
    };
    let verdict = Verdict::Drop {
        why: Rule::HairpinNoBinding,
        reply: Reply::Unreachable { own, path },
    };
    record(alloc, &item, verdict, 7)
}

// What the end of a tunnel is told of a packet that is not its own.
fn policy_on(alloc: Global, outer: Outer, inner: ReadPacket<'_>) -> Result<Recorded, Fail> {
    let reply = Reply::Policy {
        from: AFTR,
        to: outer.src,
        hop: 64,
    };
    let verdict = Verdict::Drop {
        why: Rule::NoBinding,
        reply,
    };
    record(alloc, &ItemView::Up { outer, inner }, verdict, 7)
}

// The same of an IPv4 packet that came from this end.
fn policy(alloc: Global, bytes: &[u8], end: V6) -> Result<Recorded, Fail> {
    let Ok(inner) = read_packet(bytes) else {
        return Err("a packet".into());
    };
    policy_on(alloc, outer(end), inner)
}

// The same of a tunnel packet, as a stage takes it from a record without a frame.
fn policy_about(alloc: Global, bytes: &[u8]) -> Result<Recorded, Fail> {
    let mut stage = Stage::new(alloc, form(PLAIN))?;
    let records = records_of(alloc, &[bytes])?;
    let items = stage.items(alloc, &records, 0)?;
    if items.len() != 1 {
        return Err("one record".into());
    }
    match items.item(0) {
        ItemView::Up { outer, inner } => policy_on(alloc, outer, inner),
        _ => Err("a packet in a tunnel".into()),
    }
}

// What a host is told of a packet that is too big.
fn too_big(alloc: Global, bytes: &[u8], own: V4, mtu: u16) -> Result<Recorded, Fail> {
    let Ok(packet) = read_packet(bytes) else {
        return Err("a packet".into());
    };
    let reply = Reply::TooBig {
        own,
        mtu,
        path: Path::Plain,
    };
    let verdict = Verdict::Drop {
        why: Rule::TooBig,
        reply,
    };
    record(alloc, &ItemView::Down { packet }, verdict, 7)
}

// What a sender is told of an ICMPv6 error about the tunnel packet that carried its own.
fn relayed(
    alloc: Global,
    src: V6,
    message: &[u8],
    own: V4,
    mtu: u16,
    path: Path,
) -> Result<Recorded, Fail> {
    let Ok(view) = icmp6(src, AFTR, message) else {
        return Err("an ICMPv6 message".into());
    };
    let Ok(quote) = read_quote(view.rest) else {
        return Err("a quoted tunnel packet".into());
    };
    if quote.src6 != AFTR {
        return Err("a tunnel packet of the router".into());
    }
    let reply = Reply::Relay {
        own,
        code: 4,
        mtu,
        path,
    };
    let verdict = Verdict::Drop {
        why: Rule::Relayed,
        reply,
    };
    let item = ItemView::Icmp6 {
        src,
        dst: AFTR,
        message,
    };
    record(alloc, &item, verdict, 7)
}

// The packet of record `index`, where every record before it has the time of the tests and its length twice. The numbers of
// the form are little-endian.
fn packet_at(out: &[u8], index: usize) -> Option<&[u8]> {
    let mut rest = out;
    for _ in 0..index {
        let (_, behind) = first_record(rest)?;
        rest = behind;
    }
    let (packet, _) = first_record(rest)?;
    Some(packet)
}

// The first record's packet, and what stands behind it.
fn first_record(bytes: &[u8]) -> Option<(&[u8], &[u8])> {
    let (head, rest) = bytes.split_at_checked(16)?;
    let (time, lens) = head.split_at_checked(8)?;
    if time != TIME.as_slice() {
        return None;
    }
    let captured = u32::from_le_bytes([lens[0], lens[1], lens[2], lens[3]]);
    let original = u32::from_le_bytes([lens[4], lens[5], lens[6], lens[7]]);
    if captured != original {
        return None;
    }
    rest.split_at_checked(captured as usize)
}

// Whether the packet of record `index` is just these bytes.
fn is_packet(out: &[u8], index: usize, bytes: &[u8]) -> bool {
    match packet_at(out, index) {
        Some(packet) => packet == bytes,
        None => false,
    }
}

// Whether just so many packets are recorded, as the call said.
fn are_just(recorded: &Recorded, count: u32) -> bool {
    let (said, out) = recorded;
    let all = match count.checked_sub(1) {
        Some(last) => {
            packet_at(out, last as usize).is_some() && packet_at(out, count as usize).is_none()
        }
        None => out.is_empty(),
    };
    *said == count && all
}

// Puts a part behind bytes: a packet by its name, or `FROM..TO` of bytes that tell their places.
fn push_part(alloc: Global, bytes: &mut Vec<u8>, part: &str) -> Result<(), Fail> {
    match part.split_once("..") {
        Some((from, to)) => {
            for place in from.parse::<usize>()?..to.parse::<usize>()? {
                bytes.push((place % 251) as u8)?;
            }
        }
        None => bytes.extend_from_slice(&packet(alloc, part)?)?,
    }
    Ok(())
}

/// The bytes of parts that are apart by `+`.
pub fn bytes_of(alloc: Global, parts: &str) -> Result<Vec<u8>, Fail> {
    let mut bytes = Vec::new(alloc);
    for part in parts.split('+') {
        push_part(alloc, &mut bytes, part)?;
    }
    Ok(bytes)
}

// Another subscriber's end of its tunnel.
const OTHER: V6 = V6(0x2001_0db8_0001_0000_0000_0000_0000_0002);

// A host on the way of the tunnel packets.
const ON_THE_WAY: V6 = V6(0x2001_0db8_0009_0000_0000_0000_0000_0001);

const BACK: Path = Path::Tunnel {
    from: AFTR,
    to: SUBSCRIBER,
    hop: 64,
};

// What is recorded of a packet on this way, by the greatest size, or the one that is told, and the number of the record.
fn recorded(
    alloc: Global,
    way: &str,
    bytes: &[u8],
    mtu: u16,
    number: u32,
) -> Result<Recorded, Fail> {
    match way {
        "out" => sent_out(alloc, bytes, mtu),
        "in" => sent_in(alloc, bytes, mtu, number),
        "back" => sent_back(alloc, bytes, OTHER, mtu),
        "dropped" => dropped(alloc, bytes),
        "exceeded" => exceeded(alloc, bytes, OWN, BACK),
        "unreachable" => unreachable(alloc, bytes, OWN, BACK),
        "policy" => policy(alloc, bytes, OTHER),
        "too-big" => too_big(alloc, bytes, OWN, mtu),
        "relayed" => relayed(alloc, ON_THE_WAY, bytes, OWN, mtu, Path::Plain),
        "relayed-back" => relayed(alloc, ON_THE_WAY, bytes, OWN, mtu, BACK),
        _ => Err("a way".into()),
    }
}

// The same by the words of a line.
fn recorded_as(alloc: Global, words: &str, bytes: &[u8]) -> Result<Recorded, Fail> {
    let mut words = words.split(' ');
    let way = words.next().unwrap_or("");
    if way == "policy-about" {
        return policy_about(alloc, bytes);
    }
    let mtu = words.next().unwrap_or("0").parse()?;
    let number = words.next().unwrap_or("0").parse()?;
    recorded(alloc, way, bytes, mtu, number)
}

// Whether the packet that a part of a line tells of is recorded: its place among them, and its parts.
fn is_recorded(alloc: Global, out: &[u8], told: &str) -> Result<bool, Fail> {
    let (index, parts) = told.split_once(' ').ok_or("a place")?;
    Ok(is_packet(out, index.parse()?, &bytes_of(alloc, parts)?))
}

// Whether what is recorded is what a line says: how many packets, and some of them.
fn are_recorded(alloc: Global, recorded: &Recorded, line: &str) -> Result<bool, Fail> {
    let mut told = line.split('|');
    let mut right = are_just(recorded, told.next().unwrap_or("").parse()?);
    for packet in told {
        right &= is_recorded(alloc, &recorded.1, packet)?;
    }
    Ok(right)
}

fn is_right(alloc: Global, line: &str) -> Result<bool, Fail> {
    let (way, rest) = line.split_once('|').ok_or("a packet")?;
    let (parts, rest) = rest.split_once('|').ok_or("what is recorded")?;
    let recorded = recorded_as(alloc, way, &bytes_of(alloc, parts)?)?;
    are_recorded(alloc, &recorded, rest)
}

/// The first line of which something else is recorded. Those behind `#` say what the next ones are about.
pub fn first_wrong(alloc: Global, lines: &'static str) -> Result<&'static str, Fail> {
    for line in lines.lines() {
        if !line.starts_with('#') && !is_right(alloc, line)? {
            return Ok(line);
        }
    }
    Ok("")
}
