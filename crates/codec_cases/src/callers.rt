// The callers that the READMEs of addr_text, aftr_io, ip_codec, capture_io and pcapng_io show, and what they answer.
ghost use Rattle.std.specs.Prelude.{◌≤◌};

use crate::blocks::{HEAD, INTERFACE, SECTION, TAIL, joined};
use crate::captures::{BY_SCAPY, BY_TEXT2PCAP};
use crate::rounds::{SECOND, THIRD};
use addr_text::{BadText, read_v6, write_v6};
use aftr_base::{OutOfMemory, V4, sum16};
use aftr_io::{Fault, MemReading, Outside, QuietWriting, Reading, Writing, append_all, fill};
use capture_io::{
    CaptureBad, CaptureError, CaptureReader, ClassicReader, Ending, Frame, Next, Records, frame_of,
    next_record, read_header,
};
use case_data::{AFTR, CAPTURE, SERVER, SHARED, SUBSCRIBER, UP, UP_TUNNEL};
use ip_codec::{Ip4Bad, ItemView, Outer, ip4, read_packet};
use pcapng_io::NgReader;
use std::alloc::Global;
use std::test::Fail;

/// Whether a text is the canonical one of its address, as 2001:db8::1 is and 2001:DB8:0::1 is not.
fn is_canonical(text: &str) -> Result<bool, BadText> {
    let address = read_v6(text)?;
    Ok(write_v6(address).as_str() == text)
}

/// Copies the first 16 bytes of a file into a new one, and answers their checksum.
fn copy_front<I: Reading, O: Writing>(
    alloc: Global,
    files: &mut Outside<I, O>,
    from: &str,
    to: &str,
) -> Result<u16, Fault> {
    let mut front = [0; 16];
    let count = fill(alloc, &mut files.reading, from, 0, &mut front)?; // fewer than 16 only if the file ends
    files.writing.create(alloc, to)?;
    append_all(alloc, &mut files.writing, to, &front[..count])?;
    Ok(sum16(&front[..count]))
}

/// How many records of a capture carry an IPv6 packet.
fn count_ipv6<I: Reading>(alloc: Global, files: &mut I, name: &str) -> Result<u32, CaptureError> {
    let form = read_header(alloc, files, name)?;
    let (mut at, mut number, mut found) = (24, 0, 0);
    'records: while let Next::Rec(record) = next_record(alloc, files, name, form, at, number)? {
        if let Frame::V6(_) = frame_of(form.link, record.bytes.as_slice()) {
            found += 1;
        }
        at = record.next_at;
        number += 1;
    }
    Ok(found)
}

/// How many bytes the longest record of a capture has, and how its records ended, by the rounds of a reader of any format.
fn longest_record<R: CaptureReader, I: Reading>(
    alloc: Global,
    reader: &mut R,
    files: &mut I,
    name: &str,
) -> Result<(usize, Ending), OutOfMemory>
    requires { R.ready reader.old 0 }
{
    let (mut records, mut number, mut longest) = (Records::new(alloc), 0, 0);
    'rounds: loop {
        let round = reader.read_round(alloc, files, name, number, 1_048_576, records)?;
        'records: for i in 0..round.records.len() {
            longest = longest.max(round.records.get(i).bytes.len());
        }
        (records, number) = (round.records, round.number); // the next round is read into the room of this one
        if let Some(ending) = round.ending {
            return Ok((longest, ending));
        }
    }
}

/// How many packets of a pcapng file are IPv6 packets.
fn count_ipv6_in_blocks<I: Reading>(
    alloc: Global,
    files: &mut I,
    name: &str,
) -> Result<u32, CaptureError> {
    let mut reader = NgReader::open(alloc, files, name)?;
    let link = reader.form().link;
    let (mut number, mut found) = (0, 0);
    'packets: while let Next::Rec(record) = reader.next(alloc, files, name, number)? {
        if let Frame::V6(_) = frame_of(link, record.bytes.as_slice()) {
            found += 1;
        }
        number += 1;
    }
    Ok(found)
}

/// From where to where a packet goes, or the first refusal: `Short`, `Version`, ..
fn ends_of(bytes: &[u8]) -> Result<(V4, V4), Ip4Bad> {
    let view = ip4(bytes)?;
    Ok((view.src, view.dst))
}

/// What a tunnel packet becomes that carries these bytes: they are read once.
fn item_of(outer: Outer, bytes: &[u8]) -> ItemView<'_> {
    match read_packet(bytes) {
        Ok(inner) => ItemView::Up { outer, inner }, // inner.view has the packet's fields
        Err(inner) => ItemView::UpUnread { outer, inner }, // inner.why is the refusal
    }
}

#[test]
fn one_text_is_canonical(rt: HostRuntime) {
    assert_eq!(rt; is_canonical("2001:db8::1"), Ok(true));
    assert_eq!(rt; is_canonical("2001:DB8:0::1"), Ok(false));
    assert_eq!(rt; is_canonical("2001:db8::1::"), Err(BadText));
}

// 7465 and 7374 are e7d9 together.
#[test]
fn a_copied_front_is_summed(rt: HostRuntime) -> Result<(), Fail> {
    let alloc = rt.alloc();
    let mut files = Outside {
        reading: MemReading::new(alloc),
        writing: QuietWriting::new(alloc),
    };
    files.reading.set(alloc, "in", b"test")?;
    assert_eq!(rt; copy_front(alloc, &mut files, "in", "out"), Ok(0x1826));
    assert_eq!(rt; files.writing.get("out"), Some(b"test".as_slice()));
    Ok(())
}

// How many records of this capture carry an IPv6 packet.
fn ipv6_of(alloc: Global, bytes: &[u8]) -> Result<Result<u32, CaptureError>, Fail> {
    let mut files = MemReading::new(alloc);
    files.set(alloc, "in", bytes)?;
    Ok(count_ipv6(alloc, &mut files, "in"))
}

#[test]
fn records_with_an_ipv6_packet_are_counted(rt: HostRuntime) -> Result<(), Fail> {
    let alloc = rt.alloc();
    assert_eq!(rt; ipv6_of(alloc, &BY_TEXT2PCAP)?, Ok(1));
    assert_eq!(rt; ipv6_of(alloc, &BY_SCAPY)?, Ok(0));
    let cut = CaptureError::Bad(CaptureBad::CutRecord { at: 24 });
    assert_eq!(rt; ipv6_of(alloc, &CAPTURE[..111])?, Err(cut));
    Ok(())
}

#[test]
fn the_longest_record_is_told(rt: HostRuntime) -> Result<(), Fail> {
    let alloc = rt.alloc();
    let mut files = MemReading::new(alloc);
    files.set(alloc, "in", &joined(alloc, &[CAPTURE, &SECOND, &THIRD])?)?;
    let mut reader = ClassicReader::open(alloc, &mut files, "in")?;
    let (longest, ending) = longest_record(alloc, &mut reader, &mut files, "in")?;
    assert_eq!(rt; longest, 72);
    assert!(rt; matches!(ending, Ending::End));
    Ok(())
}

#[test]
fn packets_in_blocks_are_counted(rt: HostRuntime) -> Result<(), Fail> {
    let alloc = rt.alloc();
    let bytes = joined(alloc, &[SECTION, INTERFACE, HEAD, UP_TUNNEL, UP, TAIL])?;
    let mut files = MemReading::new(alloc);
    files.set(alloc, "in", &bytes)?;
    assert_eq!(rt; count_ipv6_in_blocks(alloc, &mut files, "in")?, 1);
    Ok(())
}

#[test]
fn the_ends_of_a_packet_are_read(rt: HostRuntime) {
    assert_eq!(rt; ends_of(UP), Ok((SHARED, SERVER)));
    assert_eq!(rt; ends_of(&UP[..19]), Err(Ip4Bad::Short { have: 19 }));
}

#[test]
fn what_a_tunnel_carries_is_read_once(rt: HostRuntime) {
    let outer = Outer {
        word: 0x6000_0000,
        hop: 64,
        src: SUBSCRIBER,
        dst: AFTR,
    };
    let ItemView::Up { inner, .. } = item_of(outer, UP) else {
        return assert!(rt; false, "a packet");
    };
    assert_eq!(rt; (inner.view.src, inner.view.ttl), (SHARED, 64));
    let ItemView::UpUnread { inner, .. } = item_of(outer, &UP[..31]) else {
        return assert!(rt; false, "no packet");
    };
    assert_eq!(rt; inner.why, Ip4Bad::TotalLength);
}
