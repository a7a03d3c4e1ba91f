// What the tests of verdicts share: tables, and the verdict on an item under the words of a table.
ghost use Rattle.std.specs.Prelude.{◌≡◌, ◌<◌};
ghost use Rattle.table_words.specs.Layout.{AreCompiled};

use crate::named_packets::packet;
use aftr_base::{V4, V6, WordList};
use binding_rules::{Binding, Edition, Softwire, Table, TableError, table_of};
use case_data::{AFTR, OWN, SETTINGS, SHARED, subscriber};
use ip_codec::{Ip4Bad, ItemView, Outer, Rule, read_packet};
use std::alloc::Global;
use std::marker::Brand;
use std::sync::ledger::{Blank, Ledger};
use std::test::Fail;
use table_words::{SliceWords, Steps, compile, softwire};
use verdict_core::{Path, Reply, Verdict, judge, judge_into};

pub const FORWARDED: Verdict = Verdict::Outward { mtu: 1500 };

pub fn dropped(why: Rule) -> Verdict {
    Verdict::Drop {
        why,
        reply: Reply::Silent,
    }
}

// Into the tunnel of the subscriber with this number.
pub fn inward(number: u32, back: bool) -> Verdict {
    Verdict::Inward {
        from: AFTR,
        to: subscriber(number),
        hop: 64,
        mtu: 1500,
        back,
    }
}

// A table of bindings of the shared address (offset, length, identifier), of subscribers from 1 on.
pub fn table(alloc: Global, rows: &[(u8, u8, u16)]) -> Result<Table, TableError> {
    table_under(alloc, SETTINGS, rows)
}

// The same with other settings.
pub fn table_under(
    alloc: Global,
    settings: Softwire,
    rows: &[(u8, u8, u16)],
) -> Result<Table, TableError> {
    let mut bindings = Vec::new(alloc);
    let mut number = 0u32;
    for (offset, length, psid) in rows {
        number = number.wrapping_add(1);
        let binding = Binding {
            b4: subscriber(number),
            v4: SHARED,
            offset: *offset,
            length: *length,
            psid: *psid,
        };
        if bindings.push(binding).is_err() {
            return Err(TableError::OutOfMemory);
        }
    }
    if bindings.len() > 65_536 {
        return Err(TableError::OutOfMemory);
    }
    table_of(alloc, Edition::One, settings, bindings)
}

fn judged_in<L: Ledger>(words: &[u64], item: &ItemView<'_>, blank: Blank) -> Verdict
    requires compiled { AreCompiled words.now }
    requires name { blank.name ≡ L.name }
    requires parts { blank.parts ≡ L.parts }
    requires some { 0 < blank.parts }
{
    let mut words = SliceWords(words);
    let mut steps = Steps::<L>::start(blank);
    judge(&mut words, item, &mut steps)
}

pub fn judged(words: &WordList, item: &ItemView<'_>) -> Verdict
    requires { AreCompiled words.now }
{
    judged_in::<Brand>(words.as_slice(), item, Blank::new(1))
}

// The same with the settings read first, written where another verdict stands.
fn judged_over_in<L: Ledger>(words: &[u64], item: &ItemView<'_>, blank: Blank) -> Verdict
    requires compiled { AreCompiled words.now }
    requires name { blank.name ≡ L.name }
    requires parts { blank.parts ≡ L.parts }
    requires some { 0 < blank.parts }
{
    let mut words = SliceWords(words);
    let mut steps = Steps::<L>::start(blank);
    let settings = softwire(&mut words, &mut steps);
    let mut verdict = Verdict::Outward { mtu: 576 };
    judge_into(&mut words, &settings, item, &mut verdict, &mut steps);
    verdict
}

pub fn judged_over(words: &WordList, item: &ItemView<'_>) -> Verdict
    requires { AreCompiled words.now }
{
    judged_over_in::<Brand>(words.as_slice(), item, Blank::new(1))
}

// An upstream packet from a tunnel's end to an address of the router.
pub fn up(src: V6, dst: V6, inner: &[u8]) -> ItemView<'_> {
    let outer = Outer {
        word: 0x6000_0000,
        hop: 64,
        src,
        dst,
    };
    match read_packet(inner) {
        Ok(inner) => ItemView::Up { outer, inner },
        Err(inner) => ItemView::UpUnread { outer, inner },
    }
}

// An upstream packet in the tunnel of the subscriber with this number.
pub fn sent_by(number: u32, inner: &[u8]) -> ItemView<'_> {
    up(subscriber(number), AFTR, inner)
}

// A downstream packet; of bytes that are none, what a record of them is.
pub fn down(packet: &[u8]) -> ItemView<'_> {
    match read_packet(packet) {
        Ok(packet) => ItemView::Down { packet },
        Err(unread) => ItemView::Bad(if unread.why == Ip4Bad::Checksum {
            Rule::Ip4Checksum
        } else {
            Rule::Ip4Malformed
        }),
    }
}

// A table of bindings of the shared address, by words: an identifier behind an offset of 6 and in 8 bits, or `whole`.
fn rows_of(alloc: Global, table: &str) -> Result<Vec<(u8, u8, u16)>, Fail> {
    let mut rows = Vec::new(alloc);
    for word in table.split_whitespace() {
        rows.push(match word.parse() {
            Ok(psid) => (6, 8, psid),
            Err(_) => (0, 0, 0),
        })?;
    }
    Ok(rows)
}

fn settings_of(word: &str) -> Option<Softwire> {
    let mut settings = SETTINGS;
    match word {
        "" => {}
        "no-icmp" => settings.icmp_in = false,
        "no-hairpin" => settings.hairpin = false,
        "errors-up" => settings.errors_up = true,
        "errors-down" => settings.errors_down = true,
        "mtu4-576" => settings.mtu4 = 576,
        _ => return None,
    }
    Some(settings)
}

// Changes a packet as words say: `port N` is another source port, `long N` more zeros, and `front N` the front of so many bytes.
fn change(bytes: &mut Vec<u8>, what: &str, number: u16) -> Result<(), Fail> {
    match what {
        "long" => bytes.resize(usize::from(number), 0)?,
        "front" => bytes.truncate(usize::from(number)),
        _ => {
            if bytes.len() < 22 {
                return Err("a port".into());
            }
            bytes[20..22].copy_from_slice(&number.to_be_bytes());
        }
    }
    Ok(())
}

// A packet by the words of its name and of the change.
fn changed(alloc: Global, words: &str) -> Result<Vec<u8>, Fail> {
    let Some((name, change_of)) = words.split_once(' ') else {
        return packet(alloc, words);
    };
    let (what, number) = change_of.split_once(' ').ok_or("a number")?;
    let mut bytes = packet(alloc, name)?;
    change(&mut bytes, what, number.parse()?)?;
    Ok(bytes)
}

const ELSEWHERE: V6 = V6(AFTR.0 + 1);

const GROUP: V6 = V6(0xff02_0000_0000_0000_0000_0000_0000_0001);

// A host on the way of the tunnel packets, 2001:db8:9::1.
const ON_THE_WAY: V6 = V6(0x2001_0db8_0009_0000_0000_0000_0000_0001);

// An ICMPv6 message from there.
fn message(dst: V6, message: &[u8]) -> ItemView<'_> {
    ItemView::Icmp6 {
        src: ON_THE_WAY,
        dst,
        message,
    }
}

// An item of these bytes: from the tunnel of a subscriber with a number, to the router or elsewhere, from that of a group of hosts,
// from the IPv4 network, or an IPv6 packet with a message or without.
fn item_of<'a>(kind: &str, bytes: &'a [u8]) -> Option<ItemView<'a>> {
    Some(match kind {
        "1" => sent_by(1, bytes),
        "2" => sent_by(2, bytes),
        "1-elsewhere" => up(subscriber(1), ELSEWHERE, bytes),
        "group" => up(GROUP, AFTR, bytes),
        "plain" => down(bytes),
        "message" => message(AFTR, bytes),
        "message-elsewhere" => message(ELSEWHERE, bytes),
        "six" => ItemView::OtherIp6 { dst: AFTR },
        "six-elsewhere" => ItemView::OtherIp6 { dst: ELSEWHERE },
        _ => return None,
    })
}

// The router, or the subscriber with a number, by its end of the tunnel.
fn end_name(address: V6) -> &'static str {
    if address == AFTR {
        "router"
    } else if address == subscriber(1) {
        "1"
    } else if address == subscriber(2) {
        "2"
    } else {
        "another"
    }
}

fn own_name(address: V4) -> &'static str {
    if address == OWN { "own" } else { "another" }
}

// The ends of a tunnel, and the hop limit of its packets.
fn text_of_path(alloc: Global, path: Path) -> Result<String, Fail> {
    Ok(match path {
        Path::Plain => String::from_str(alloc, "plain")?,
        Path::Tunnel { hop, from, to } => text_of_tunnel(alloc, from, to, hop)?,
    })
}

fn text_of_tunnel(alloc: Global, from: V6, to: V6, hop: u8) -> Result<String, Fail> {
    Ok(format!(in alloc; "{} {} {hop}", end_name(from), end_name(to))?)
}

// An error of a kind from the address of the router.
fn text_of_error(alloc: Global, kind: &str, own: V4, path: Path) -> Result<String, Fail> {
    let path = text_of_path(alloc, path)?;
    Ok(format!(in alloc; "{kind}{} {}", own_name(own), path.as_str())?)
}

fn text_of_reply(alloc: Global, reply: Reply) -> Result<String, Fail> {
    match reply {
        Reply::Silent => Ok(String::from_str(alloc, "silent")?),
        Reply::Unreachable { own, path } => text_of_error(alloc, "unreachable ", own, path),
        Reply::Exceeded { own, path } => text_of_error(alloc, "exceeded ", own, path),
        Reply::TooBig { own, mtu, path } => {
            let kind = format!(in alloc; "too-big {mtu} ")?;
            text_of_error(alloc, kind.as_str(), own, path)
        }
        Reply::Policy { from, to, hop } => {
            let tunnel = text_of_tunnel(alloc, from, to, hop)?;
            Ok(format!(in alloc; "policy {}", tunnel.as_str())?)
        }
        Reply::Relay {
            own,
            code,
            mtu,
            path,
        } => {
            let kind = format!(in alloc; "relay {code} {mtu} ")?;
            text_of_error(alloc, kind.as_str(), own, path)
        }
    }
}

// A verdict in words, each of its fields among them.
fn text_of(alloc: Global, verdict: Verdict) -> Result<String, Fail> {
    match verdict {
        Verdict::Held => Ok(String::from_str(alloc, "held")?),
        Verdict::Outward { mtu } => Ok(format!(in alloc; "out {mtu}")?),
        Verdict::Inward {
            from,
            to,
            hop,
            mtu,
            back,
        } => {
            let tunnel = text_of_tunnel(alloc, from, to, hop)?;
            let way = if back { "back" } else { "in" };
            Ok(format!(in alloc; "{way} {} {mtu}", tunnel.as_str())?)
        }
        Verdict::Drop { why, reply } => {
            let reply = text_of_reply(alloc, reply)?;
            Ok(format!(in alloc; "{why} {}", reply.as_str())?)
        }
    }
}

// Whether the verdict of a line is right, also with the settings read first: an item, and the verdict in words.
fn is_right(alloc: Global, words: &WordList, line: &str) -> Result<bool, Fail>
    requires { AreCompiled words.now }
{
    let (item, wanted) = line.split_once('|').ok_or("a verdict")?;
    let (kind, name) = item.split_once(' ').unwrap_or((item, ""));
    let bytes = changed(alloc, name)?;
    let item = item_of(kind, &bytes).ok_or("an item of a kind")?;
    let verdict = judged(words, &item);
    Ok(judged_over(words, &item) == verdict && text_of(alloc, verdict)?.as_str() == wanted)
}

// The table of a section, with its settings, and the first line whose verdict is not right under it.
fn first_wrong_in(
    alloc: Global,
    section: &'static str,
) -> Result<(&'static str, &'static str), Fail> {
    let (head, lines) = section.split_once('\n').ok_or("lines")?;
    let (table, settings) = head.split_once('|').ok_or("settings")?;
    let settings = settings_of(settings).ok_or("settings of this name")?;
    let rows = rows_of(alloc, table)?;
    let words = compile(alloc, &table_under(alloc, settings, &rows)?)?;
    for line in lines.lines() {
        if !line.starts_with('#') && !is_right(alloc, &words, line)? {
            return Ok((head, line));
        }
    }
    Ok((head, ""))
}

/// The first line whose verdict is not right, and its table. Sections are apart by an empty line; lines behind `#` say what the next
/// ones are about.
pub fn first_wrong(
    alloc: Global,
    sections: &'static str,
) -> Result<Option<(&'static str, &'static str)>, Fail> {
    for section in sections.split("\n\n") {
        let (table, line) = first_wrong_in(alloc, section)?;
        if line != "" {
            return Ok(Some((table, line)));
        }
    }
    Ok(None)
}
