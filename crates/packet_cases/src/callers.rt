// The callers that the READMEs of port_locate, verdict_core, packet_render and softwire_encap show, and what they answer.
ghost use Rattle.std.specs.Prelude.{◌≡◌, ◌<◌};
ghost use Rattle.table_words.specs.Layout.{AreCompiled};

use crate::under_tables::{FORWARDED, down, inward, sent_by, table};
use aftr_base::{OutOfMemory, V6, WordList};
use binding_rules::{Table, find};
use capture_io::Written;
use case_data::{
    AFTR, DOWN, DOWN_LOWERED, DOWN_TUNNEL, FIRST_FRAGMENT, LAST_HOP, SUBSCRIBER, UP, UP_LOWERED,
};
use ip_codec::{Ip4View, ItemView, ip4, read_packet};
use packet_render::push_packets;
use port_locate::{Key, key_down};
use softwire_encap::push_tunnelled;
use std::alloc::Global;
use std::marker::Brand;
use std::sync::ledger::{Blank, Ledger};
use std::test::Fail;
use table_words::{SliceWords, Steps, Words, compile};
use verdict_core::{Verdict, judge};

/// The place of the binding whose subscriber a packet from the IPv4 network is for.
fn place_of_receiver(table: &Table, packet: &Ip4View<'_>) -> Option<usize> {
    match key_down(packet) {
        Key::At(want) => find(table, packet.dst, want),
        Key::NoPort | Key::IcmpBad => None,
    }
}

/// The verdict on an item under a table, by its words.
fn verdict_on<L: Ledger>(
    alloc: Global,
    table: &Table,
    item: &ItemView<'_>,
    blank: Blank,
) -> Result<Verdict, OutOfMemory>
    requires name { blank.name ≡ L.name }
    requires parts { blank.parts ≡ L.parts }
    requires some { 0 < blank.parts }
{
    let words = compile(alloc, table)?; // once, for all items
    let mut reader = SliceWords(words.as_slice());
    let mut steps = Steps::<L>::start(blank); // counts the words that are read, in contracts alone
    Ok(judge(&mut reader, item, &mut steps))
}

/// Appends the packets that are sent for the item of a record, as a pcapng file has them, and answers how many there are.
fn push_sent<W: Words, L: Ledger>(
    out: &mut Vec<u8>,
    words: &mut W,
    item: &ItemView<'_>,
    number: u32,
    seconds: u32,
    steps: &mut Steps<L>,
) -> Result<u32, OutOfMemory>
    requires { AreCompiled (W.list words.old) }
{
    let verdict = judge(words, item, steps);
    push_packets(out, Written::Blocks, item, &verdict, number, seconds, 0)
}

/// Appends a packet on its way to a subscriber: one hop less, behind the tunnel's header. It answers whether there is one.
fn push_inward(out: &mut Vec<u8>, aftr: V6, b4: V6, bytes: &[u8]) -> Result<bool, OutOfMemory> {
    let Ok(packet) = read_packet(bytes) else {
        return Ok(false);
    };
    if packet.view.ttl < 2 {
        return Ok(false);
    }
    push_tunnelled(out, aftr, b4, 64, &packet.view)?;
    Ok(true)
}

// Whether the bytes are these parts, one behind the other.
fn is_joined(bytes: &[u8], parts: &[&[u8]]) -> bool {
    let mut rest = bytes;
    for part in parts {
        match rest.strip_prefix(*part) {
            Some(behind) => rest = behind,
            None => return false,
        }
    }
    rest.is_empty()
}

// Identifier 52 has the port 1232 (RFC 7597, appendix A).
#[test]
fn the_receiver_of_a_packet_is_found(rt: HostRuntime) -> Result<(), Fail> {
    let table = table(rt.alloc(), &[(6, 8, 53), (6, 8, 52)])?;
    let cases: [(&[u8], Option<usize>); 3] = [(DOWN, Some(1)), (UP, None), (FIRST_FRAGMENT, None)];
    for (bytes, place) in cases {
        let packet = ip4(bytes).ok().ok_or("a packet")?;
        assert_eq!(rt; place_of_receiver(&table, &packet), place);
    }
    Ok(())
}

// The verdict on an item, where the identifier 52 is the first subscriber's.
fn verdict(alloc: Global, item: &ItemView<'_>) -> Result<Verdict, Fail> {
    let table = table(alloc, &[(6, 8, 52)])?;
    Ok(verdict_on::<Brand>(alloc, &table, item, Blank::new(1))?)
}

#[test]
fn an_item_has_a_verdict(rt: HostRuntime) -> Result<(), Fail> {
    assert_eq!(rt; verdict(rt.alloc(), &sent_by(1, UP))?, FORWARDED);
    assert_eq!(rt; verdict(rt.alloc(), &down(DOWN))?, inward(1, false));
    Ok(())
}

fn push_sent_by<L: Ledger>(
    out: &mut Vec<u8>,
    words: &WordList,
    item: &ItemView<'_>,
    blank: Blank,
) -> Result<u32, OutOfMemory>
    requires compiled { AreCompiled words.now }
    requires name { blank.name ≡ L.name }
    requires parts { blank.parts ≡ L.parts }
    requires some { 0 < blank.parts }
{
    let mut steps = Steps::<L>::start(blank);
    let mut reader = SliceWords(words.as_slice());
    push_sent(out, &mut reader, item, 7, 1, &mut steps)
}

// What is sent for an item where the identifier 52 is the first subscriber's, and how many packets that is.
fn sent(alloc: Global, item: &ItemView<'_>) -> Result<(u32, Vec<u8>), Fail> {
    let words = compile(alloc, &table(alloc, &[(6, 8, 52)])?)?;
    let mut out = Vec::new(alloc);
    let count = push_sent_by::<Brand>(&mut out, &words, item, Blank::new(1))?;
    Ok((count, out))
}

// A block of 64 bytes: an enhanced packet of 32 bytes of interface 0, a second behind the start (the format's section 4.3).
const BLOCK_HEAD: &[u8; 28] =
    b"\x06\0\0\0\x40\0\0\0\0\0\0\0\0\0\0\0\0\xca\x9a\x3b\x20\0\0\0\x20\0\0\0";

#[test]
fn what_is_sent_stands_in_blocks(rt: HostRuntime) -> Result<(), Fail> {
    let (count, out) = sent(rt.alloc(), &sent_by(1, UP))?;
    assert_eq!(rt; count, 1);
    assert!(rt; is_joined(&out, &[BLOCK_HEAD, UP_LOWERED, b"\x40\0\0\0"]));
    assert_eq!(rt; sent(rt.alloc(), &sent_by(2, UP))?.0, 0);
    Ok(())
}

#[test]
fn a_packet_goes_into_the_tunnel(rt: HostRuntime) -> Result<(), Fail> {
    let mut out = Vec::new(rt.alloc());
    assert!(rt; push_inward(&mut out, AFTR, SUBSCRIBER, DOWN)?);
    assert!(rt; is_joined(&out, &[DOWN_TUNNEL, DOWN_LOWERED]));
    assert!(rt; !push_inward(&mut out, AFTR, SUBSCRIBER, LAST_HOP)?);
    assert!(rt; !push_inward(&mut out, AFTR, SUBSCRIBER, &DOWN[..31])?);
    Ok(())
}
