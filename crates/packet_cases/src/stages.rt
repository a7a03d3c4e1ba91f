// Frames and packets made by hand; the changed header checksums are computed by another program.
ghost use Rattle.std.specs.Prelude.{◌≡◌, length, IfOk};

use crate::sending::bytes_of;
use aftr_base::OutOfMemory;
use capture_io::{Form, Place, Records};
use case_data::{AFTR, SUBSCRIBER, UP};
use ip_codec::{Ip4Bad, ItemView, Outer};
use item_stage::{RoundItems, Stage};
use std::alloc::Global;
use std::test::Fail;

pub const PLAIN: u32 = 101;

pub fn form(link: u32) -> Form {
    Form {
        big: false,
        nano: false,
        link,
    }
}

// The fields of the tunnel packet's header in `case_data`.
fn of_tunnel() -> Outer {
    Outer {
        word: 0x6000_0000,
        hop: 64,
        src: SUBSCRIBER,
        dst: AFTR,
    }
}

// Whether an item is this: a packet of these bytes that goes up, bytes that are none by their version, one that waits, or a refusal.
fn is_wanted(item: &ItemView<'_>, what: &str, bytes: &[u8]) -> bool {
    match item {
        ItemView::Up { outer, inner } => {
            what == "up"
                && *outer == of_tunnel()
                && inner.view.total_len() == bytes.len()
                && bytes.starts_with(inner.view.header)
                && bytes.ends_with(inner.view.payload)
        }
        ItemView::UpUnread { outer, inner } => {
            what == "version"
                && *outer == of_tunnel()
                && inner.bytes == bytes
                && inner.why == Ip4Bad::Version
        }
        ItemView::Bad(why) => why.name() == what,
        ItemView::Held => what == "held",
        _ => false,
    }
}

// Records that stand one behind the other in a buffer.
pub fn records_of(alloc: Global, packets: &[&[u8]]) -> Result<Records, OutOfMemory>
    ensures { IfOk result (λ records. length records ≡ length packets.now) }
{
    let mut buffer = Vec::new(alloc);
    let mut places = Vec::new(alloc);
    'packets: for packet in packets {
        let place = Place {
            seconds: 1,
            fraction: 0,
            from: buffer.len(),
            count: packet.len(),
            next_at: 24,
        };
        buffer.extend_from_slice(packet)?;
        places.push(place)?;
    }
    Ok(Records::of(buffer, places))
}

// Whether a stage to which nothing else came makes just this of a record with these bytes.
fn becomes(
    alloc: Global,
    link: u32,
    bytes: &[u8],
    what: &str,
    wanted: &[u8],
) -> Result<bool, OutOfMemory> {
    let mut stage = Stage::new(alloc, form(link))?;
    let records = records_of(alloc, &[bytes])?;
    let items = stage.items(alloc, &records, 0)?;
    Ok(items.len() == 1 && is_wanted(&items.item(0), what, wanted))
}

// A line is the link, the parts of a record, and what it becomes: the parts of what goes up, or of what is no packet.
const LINES: &str = "\
101|longer-tunnel+up+more|up up
101|up-tunnel+text|version text
1|tagged+up-tunnel+up+padded|up up
101||frame-short
1|short-frame|frame-short
1|arp|frame-type
101|up-tunnel+up-31|ip6-malformed
101|up-tunnel+first-fragment|frag-odd
101|up-tunnel+later-fragment|held
101|up-tunnel+icmp|up icmp";

fn is_right(alloc: Global, line: &str) -> Result<bool, Fail> {
    let (link, rest) = line.split_once('|').ok_or("parts")?;
    let (parts, told) = rest.split_once('|').ok_or("an item")?;
    let (what, wanted) = told.split_once(' ').unwrap_or((told, ""));
    let wanted = bytes_of(alloc, wanted)?;
    let bytes = bytes_of(alloc, parts)?;
    Ok(becomes(alloc, link.parse()?, &bytes, what, &wanted)?)
}

#[test]
fn records_become_items(rt: HostRuntime) -> Result<(), Fail> {
    for line in LINES.lines() {
        assert!(rt; is_right(rt.alloc(), line)?, "{line}");
    }
    Ok(())
}

// Whether three items are those of a packet that goes up, of an empty record, and of a packet that goes up.
fn are_up_short_up<I: RoundItems + Sync>(items: &I) -> bool {
    items.len() == 3
        && is_wanted(&items.item(0), "up", UP)
        && is_wanted(&items.item(1), "frame-short", b"")
        && is_wanted(&items.item(2), "up", UP)
}

// A packet, an empty record, and the packet again.
fn three_records(alloc: Global) -> Result<Records, Fail>
    ensures { IfOk result (λ records. length records ≡ 3) }
{
    let packet = bytes_of(alloc, "up-tunnel+up")?;
    let records = records_of(alloc, &[&packet, b"", &packet])?;
    Ok(records)
}

// Whether a stage makes their items of three records, and gives no datagram up.
fn makes_three(alloc: Global, stage: &mut Stage, records: &Records) -> Result<bool, OutOfMemory>
    requires start { stage.old.number ≡ 0 }
    requires three { length records.now ≡ 3 }
    ensures { IfOk result (λ _. stage.new.number ≡ 3) }
{
    let items = stage.items(alloc, records, 0)?;
    Ok(items.len() > 1 && items.ended(1).is_empty() && are_up_short_up(&items))
}

// Whether it makes none of no records behind them.
fn makes_none(alloc: Global, stage: &mut Stage) -> Result<bool, OutOfMemory>
    requires start { stage.old.number ≡ 3 }
{
    let records = records_of(alloc, &[])?;
    let items = stage.items(alloc, &records, 3)?;
    Ok(items.len() == 0)
}

// Whether a stage takes these two rounds, and nothing waits then.
fn takes_rounds(alloc: Global) -> Result<[bool; 3], Fail> {
    let records = three_records(alloc)?;
    let mut stage = Stage::new(alloc, form(PLAIN))?;
    let three = makes_three(alloc, &mut stage, &records)?;
    let none = makes_none(alloc, &mut stage)?;
    let waiting = stage.unfinished(alloc)?;
    Ok([three, none, waiting.as_slice().is_empty()])
}

#[test]
fn a_stage_takes_records_in_rounds(rt: HostRuntime) -> Result<(), Fail> {
    assert_eq!(rt; takes_rounds(rt.alloc())?, [true; 3]);
    Ok(())
}
