// Captures that other tools wrote, frames, and what is written.
use aftr_base::OutOfMemory;
use aftr_io::QuietReading;
use capture_io::{
    CaptureBad, CaptureError, Form, Frame, Next, frame_of, next_record, put_header, put_record,
    read_header, time_of,
};
use case_data::{CAPTURE, UP, UP_LOWERED, UP_TUNNEL};
use std::alloc::Global;
use std::test::Fail;

/// The first datagram in its tunnel, as `text2pcap -F nsecpcap -l 101` wrote it (Wireshark 4.0.17).
pub(crate) const BY_TEXT2PCAP: [u8; 112] = [
    0x4d, 0x3c, 0xb2, 0xa1, 0x02, 0x00, 0x04, 0x00, 0x00, 0x00, 0x00, 0x00, 0x00, 0x00, 0x00, 0x00,
    0x00, 0x00, 0x04, 0x00, 0x65, 0x00, 0x00, 0x00, 0x45, 0xcf, 0x08, 0x6b, 0xe8, 0x03, 0x00, 0x00,
    0x48, 0x00, 0x00, 0x00, 0x48, 0x00, 0x00, 0x00, 0x60, 0x00, 0x00, 0x00, 0x00, 0x20, 0x04, 0x40,
    0x20, 0x01, 0x0d, 0xb8, 0x00, 0x01, 0x00, 0x00, 0x00, 0x00, 0x00, 0x00, 0x00, 0x00, 0x00, 0x01,
    0x20, 0x01, 0x0d, 0xb8, 0x00, 0x00, 0x00, 0x00, 0x00, 0x00, 0x00, 0x00, 0x00, 0x00, 0x00, 0x01,
    0x45, 0x00, 0x00, 0x20, 0x00, 0x01, 0x00, 0x00, 0x40, 0x11, 0x14, 0x90, 0xcb, 0x00, 0x71, 0x01,
    0xc6, 0x33, 0x64, 0x07, 0x04, 0xd0, 0x00, 0x35, 0x00, 0x0c, 0x00, 0x00, 0x74, 0x65, 0x73, 0x74,
];

/// A packet behind a VLAN tag, as `PcapWriter(linktype=1, endianness=">", nano=True)` of scapy 2.5.0 wrote it.
pub(crate) const BY_SCAPY: [u8; 90] = [
    0xa1, 0xb2, 0x3c, 0x4d, 0x00, 0x02, 0x00, 0x04, 0x00, 0x00, 0x00, 0x00, 0x00, 0x00, 0x00, 0x00,
    0x00, 0x00, 0xff, 0xff, 0x00, 0x00, 0x00, 0x01, 0x65, 0x53, 0xf1, 0x00, 0x07, 0x5b, 0xcd, 0x15,
    0x00, 0x00, 0x00, 0x32, 0x00, 0x00, 0x00, 0x32, 0x02, 0x00, 0x00, 0x00, 0x00, 0x02, 0x02, 0x00,
    0x00, 0x00, 0x00, 0x01, 0x81, 0x00, 0x00, 0x07, 0x08, 0x00, 0x45, 0x00, 0x00, 0x20, 0x00, 0x02,
    0x00, 0x00, 0x40, 0x11, 0x04, 0x8f, 0xc6, 0x33, 0x64, 0x07, 0xcb, 0x00, 0x71, 0x01, 0x00, 0x35,
    0x04, 0xd0, 0x00, 0x0c, 0x00, 0x00, 0x74, 0x65, 0x73, 0x74,
];

pub(crate) const CAPTURED: Form = Form {
    big: false,
    nano: false,
    link: 101,
};

fn files_with(alloc: Global, bytes: &[u8]) -> Result<QuietReading, OutOfMemory> {
    let mut files = QuietReading::new(alloc);
    files.set(alloc, "in", bytes)?;
    Ok(files)
}

/// The bytes are these parts, one behind the other.
pub(crate) fn is_both(bytes: &[u8], first: &[u8], second: &[u8]) -> bool {
    match bytes.strip_prefix(first) {
        Some(rest) => rest == second,
        None => false,
    }
}

/// The bytes are the first datagram in its tunnel.
pub(crate) fn is_first(bytes: &[u8]) -> bool {
    is_both(bytes, UP_TUNNEL, UP)
}

// Whether a capture of this form has one record, of this time and this frame.
fn has_just(
    alloc: Global,
    capture: &[u8],
    form: Form,
    time: u64,
    frame: Frame<'_>,
) -> Result<bool, Fail> {
    let mut files = files_with(alloc, capture)?;
    let told = read_header(alloc, &mut files, "in")?;
    let Next::Rec(record) = next_record(alloc, &mut files, "in", told, 24, 0)? else {
        return Ok(false);
    };
    let behind = next_record(alloc, &mut files, "in", told, record.next_at, 1)?;
    Ok(
        told == form
            && time_of(told, record.seconds, record.fraction) == time
            && frame_of(told.link, record.bytes.as_slice()) == frame
            && record.next_at == capture.len() as u64
            && matches!(behind, Next::End),
    )
}

const OF_TEXT2PCAP: Form = Form {
    big: false,
    nano: true,
    link: 101,
};

const OF_SCAPY: Form = Form {
    big: true,
    nano: true,
    link: 1,
};

#[test]
fn what_other_tools_wrote_is_read(rt: HostRuntime) -> Result<(), Fail> {
    let (_, datagram) = CAPTURE.split_at(40);
    let (_, behind_tag) = BY_SCAPY.split_at(58);
    let read = [
        has_just(
            rt.alloc(),
            &BY_TEXT2PCAP,
            OF_TEXT2PCAP,
            1_795_739_461_000_001_000,
            Frame::V6(datagram),
        )?,
        has_just(
            rt.alloc(),
            &BY_SCAPY,
            OF_SCAPY,
            1_700_000_000_123_456_789,
            Frame::V4(behind_tag),
        )?,
    ];
    assert_eq!(rt; read, [true; 2]);
    Ok(())
}

// Others stand in `all_pieces`.
#[test]
fn a_capture_has_so_many_records_at_most(rt: HostRuntime) -> Result<(), Fail> {
    let mut files = files_with(rt.alloc(), CAPTURE)?;
    let answer = next_record(rt.alloc(), &mut files, "in", CAPTURED, 111, 0x8000_0000);
    let too_many = CaptureError::Bad(CaptureBad::TooMany { at: 111 });
    assert_eq!(rt; answer.err(), Some(too_many));
    let answer = next_record(rt.alloc(), &mut files, "in", CAPTURED, 112, 0x8000_0000)?;
    assert!(rt; matches!(answer, Next::End));
    Ok(())
}

// An Ethernet header of ARP, and one cut short.
const ARP: &[u8] = b"\x02\0\0\0\0\x02\x02\0\0\0\0\x01\x08\x06";

const SHORT_ARP: &[u8] = b"\x02\0\0\0\0\x02\x02\0\0\0\0\x01\x08";

// An Ethernet header with a VLAN tag and a byte of IPv6 behind it, one cut short, and one with two tags.
const TAGGED: &[u8] = b"\x02\0\0\0\0\x02\x02\0\0\0\0\x01\x81\0\0\x07\x86\xdd\x60";

const SHORT_TAG: &[u8] = b"\x02\0\0\0\0\x02\x02\0\0\0\0\x01\x81\0\0\x07\x86";

const TWICE: &[u8] = b"\x02\0\0\0\0\x02\x02\0\0\0\0\x01\x81\0\0\x07\x81\0\0\x08\x08\0";

#[test]
fn frames_are_told_by_their_link(rt: HostRuntime) {
    let cases: [(u32, &[u8], Frame<'_>); 10] = [
        (101, b"", Frame::Short),
        (101, UP_LOWERED, Frame::V4(UP_LOWERED)),
        (101, b"\x60", Frame::V6(b"\x60")),
        (101, ARP, Frame::Kind),
        (1, SHORT_ARP, Frame::Short),
        (1, ARP, Frame::Kind),
        (1, SHORT_TAG, Frame::Short),
        (1, TAGGED, Frame::V6(b"\x60")),
        (1, TWICE, Frame::Kind),
        (113, UP_LOWERED, Frame::Kind),
    ];
    for (link, bytes, frame) in cases {
        assert_eq!(rt;
            frame_of(link, bytes),
            frame,
            "of {} on {link}",
            bytes.len()
        );
    }
}

// What stands before a record of 32 bytes at second 1.
const RECORD: &[u8] = b"\x01\0\0\0\0\0\0\0\x20\0\0\0\x20\0\0\0";

#[test]
fn a_written_capture_has_these_bytes(rt: HostRuntime) -> Result<(), Fail> {
    let record = put_record(rt.alloc(), 1, 0, UP_LOWERED)?;
    let written = [
        CAPTURE.starts_with(&put_header(false)),
        put_header(true).starts_with(b"\x4d\x3c\xb2\xa1"),
        is_both(record.as_slice(), RECORD, UP_LOWERED),
    ];
    assert_eq!(rt; written, [true; 3]);
    Ok(())
}
