// Captures as they are spelled, where they end, which are refused, and what is written of them.
use crate::captures::{Form, capture_of, hex};
use crate::cases::{lines_of, part};
use crate::runs::run;
use capture_io::{CaptureBad, NgBad};
use lwaftr_engine::{Status, code, status_line};
use std::alloc::Global;
use std::sync::Wait;
use std::test::Fail;
use std::thread::Threads;

/// Each line has a title, the table, the capture, the lines of VERDICTS, the summary, OUT (or `-` where none is made), and the line of
/// the status.
const CASES: &str = "\
a big-endian frame with a tag, in nanoseconds|whole|\
    a1b23c4d00020004 0000000000000000 0004000000000001 000000013b9ac9ff 0000005a0000005a 020000000002020000000001 8100006486dd \
    600000000020044020010db800010000000000000000000120010db8000000000000000000000001450000200001000040111490cb007101c633640704d00035000c000074657374|0 0 up 1|\
    records 1 held 0 forwarded 1 dropped 0 packets 1 version 0|\
    4d3cb2a102000400 0000000000000000 0000040065000000 01000000ffc99a3b 2000000020000000 45000020000100003f111590cb007101c633640704d00035000c000074657374|done
a block of a packet, in microseconds|whole|\
    0a0d0d0a1c0000004d3c2b1a01000000ffffffffffffffff1c000000 0100000014000000 6500000000000400 14000000 0600000068000000 00000000 0000000040420f00 \
    4800000048000000 \
    600000000020044020010db800010000000000000000000120010db8000000000000000000000001450000200001000040111490cb007101c633640704d00035000c000074657374 68000000|\
    0 0 up 1|records 1 held 0 forwarded 1 dropped 0 packets 1 version 0|\
    0a0d0d0a1c0000004d3c2b1a01000000ffffffffffffffff1c000000 01000000200000006500000000000400 09000100090000000000000020000000 0600000040000000 00000000 \
    0000000000ca9a3b 2000000020000000 45000020000100003f111590cb007101c633640704d00035000c000074657374 40000000|done
a block that is passed over|whole|\
    0a0d0d0a1c0000004d3c2b1a01000000ffffffffffffffff1c000000 0100000014000000 6500000000000400 14000000 050000000c0000000c000000 0600000068000000 00000000 \
    0000000040420f00 4800000048000000 \
    600000000020044020010db800010000000000000000000120010db8000000000000000000000001450000200001000040111490cb007101c633640704d00035000c000074657374 68000000|\
    0 0 up 1|records 1 held 0 forwarded 1 dropped 0 packets 1 version 0|\
    0a0d0d0a1c0000004d3c2b1a01000000ffffffffffffffff1c000000 01000000200000006500000000000400 09000100090000000000000020000000 0600000040000000 00000000 \
    0000000000ca9a3b 2000000020000000 45000020000100003f111590cb007101c633640704d00035000c000074657374 40000000|done
a block that is cut off|whole|\
    0a0d0d0a1c0000004d3c2b1a01000000ffffffffffffffff1c000000 0100000014000000 6500000000000400 14000000 0600000068000000 00000000 0000000040420f00 \
    4800000048000000 \
    600000000020044020010db800010000000000000000000120010db8000000000000000000000001450000200001000040111490cb007101c633640704d00035000c000074657374 680000||\
    records 0 held 0 forwarded 0 dropped 0 packets 0 version 0|\
    0a0d0d0a1c0000004d3c2b1a01000000ffffffffffffffff1c000000 01000000200000006500000000000400 09000100090000000000000020000000|capture refused: ng cut 48
no interface|whole|0a0d0d0a1c0000004d3c2b1a01000000ffffffffffffffff1c000000||records 0 held 0 forwarded 0 dropped 0 packets 0 version 0|\
    0a0d0d0a1c0000004d3c2b1a01000000ffffffffffffffff1c000000 01000000200000006500000000000400 09000100090000000000000020000000|done
an interface of another link type than its first|whole|\
    0a0d0d0a1c0000004d3c2b1a01000000ffffffffffffffff1c000000 0100000014000000 6500000000000400 14000000 0600000068000000 00000000 0000000040420f00 \
    4800000048000000 \
    600000000020044020010db800010000000000000000000120010db8000000000000000000000001450000200001000040111490cb007101c633640704d00035000c000074657374 68000000 \
    0100000014000000 0100000000000400 14000000 0600000068000000 00000000 0000000040420f00 4800000048000000 \
    600000000020044020010db800010000000000000000000120010db8000000000000000000000001450000200001000040111490cb007101c633640704d00035000c000074657374 68000000|\
    0 0 up 1|records 1 held 0 forwarded 1 dropped 0 packets 1 version 0|\
    0a0d0d0a1c0000004d3c2b1a01000000ffffffffffffffff1c000000 01000000200000006500000000000400 09000100090000000000000020000000 0600000040000000 00000000 \
    0000000000ca9a3b 2000000020000000 45000020000100003f111590cb007101c633640704d00035000c000074657374 40000000|capture refused: ng mixed-links 152
a packet before any interface|whole|\
    0a0d0d0a1c0000004d3c2b1a01000000ffffffffffffffff1c000000 0600000068000000 00000000 0000000040420f00 4800000048000000 \
    600000000020044020010db800010000000000000000000120010db8000000000000000000000001450000200001000040111490cb007101c633640704d00035000c000074657374 68000000||\
    |-|capture refused: ng interface 28
a big-endian frame with a tag, in nanoseconds, and one of ARP|shared|\
    a1b23c4d0002000400000000000000000004000000000001 6553f100075bcd150000005e0000005e 0200000000020200000000018100000786dd \
    600000000020044020010db800010000000000000000000120010db8000000000000000000000001450000200001000040111490cb007101c633640704d00035000c000074657374 00000000 \
    6553f101000000000000000e0000000e 0200000000020200000000010806|0 0 up 1, 1 0 drop frame-type 0|records 2 held 0 forwarded 1 dropped 1 packets 1 version 0|\
    4d3cb2a1020004000000000000000000000004006500000000f1536515cd5b072000000020000000 \
    45000020000100003f111590cb007101c633640704d00035000c000074657374|done
no capture|whole|1fc3b2a10200040000000000000000000000040065000000 01000000000000004800000048000000 \
    600000000020044020010db800010000000000000000000120010db8000000000000000000000001450000200001000040111490cb007101c633640704d00035000c000074657374|\
    ||-|capture refused: magic
another version|whole|d4c3b2a10300040000000000000000000000040065000000 01000000000000004800000048000000 \
    600000000020044020010db800010000000000000000000120010db8000000000000000000000001450000200001000040111490cb007101c633640704d00035000c000074657374|\
    ||-|capture refused: version
another link type|whole|d4c3b2a10200040000000000000000000000040071000000 01000000000000004800000048000000 \
    600000000020044020010db800010000000000000000000120010db8000000000000000000000001450000200001000040111490cb007101c633640704d00035000c000074657374|\
    ||-|capture refused: link 113";

/// Each line has how many bytes of a capture of one datagram are there, from one number to another, which is left out; then it goes on as
/// those lines.
const FRONTS: &str = "\
0..24|whole||||-|capture refused: cut header at 0
24..25|whole|||records 0 held 0 forwarded 0 dropped 0 packets 0 version 0|d4c3b2a10200040000000000000000000000040065000000|done
25..40|whole|||records 0 held 0 forwarded 0 dropped 0 packets 0 version 0|d4c3b2a10200040000000000000000000000040065000000|capture refused: cut header at 24
40..112|whole|||records 0 held 0 forwarded 0 dropped 0 packets 0 version 0|d4c3b2a10200040000000000000000000000040065000000|capture refused: cut record at 24
112..113|whole||0 0 up 1|records 1 held 0 forwarded 1 dropped 0 packets 1 version 0|\
    d4c3b2a1020004000000000000000000000004006500000001000000000000002000000020000000 45000020000100003f111590cb007101c633640704d00035000c000074657374|done";

/// The status that has this line, of those that end the runs of these lines.
fn status_of(line: &str) -> Option<Status> {
    let refusal = match line {
        "done" => return Some(Status::Done),
        "capture refused: magic" => CaptureBad::Magic,
        "capture refused: version" => CaptureBad::Version,
        "capture refused: link 113" => CaptureBad::Link { number: 113 },
        "capture refused: cut header at 0" => CaptureBad::CutHeader { at: 0 },
        "capture refused: cut header at 24" => CaptureBad::CutHeader { at: 24 },
        "capture refused: cut record at 24" => CaptureBad::CutRecord { at: 24 },
        "capture refused: ng cut 48" => CaptureBad::Ng(NgBad::Cut { at: 48 }),
        "capture refused: ng mixed-links 152" => CaptureBad::Ng(NgBad::MixedLinks { at: 152 }),
        "capture refused: ng interface 28" => CaptureBad::Ng(NgBad::Interface { at: 28 }),
        _ => return None,
    };
    Some(Status::BadCapture(refusal))
}

/// The run over this capture leaves what the line says. OUT is what its digits spell, and was made, unless they are `-`.
fn is_left<R: Threads + Wait + Sync>(
    rt: &R,
    alloc: Global,
    capture: &[u8],
    case: &str,
) -> Result<bool, Fail> {
    let ran = run(rt, alloc, capture, part(case, 1))?;
    let lines = lines_of(alloc, "", part(case, 3))?;
    let sent = hex(alloc, part(case, 5))?;
    let told = status_line(alloc, &ran.status)?;
    let status = part(case, 6);
    Ok(
        told.as_str().trim_end_matches('\n') == status
            && status_of(status) == Some(ran.status)
            && code(&ran.status) == if status == "done" { 0 } else { 6 }
            && ran.said().trim_end_matches('\n') == part(case, 4)
            && ran.files.writing.text("verdicts.txt") == lines.as_str()
            && ran.has_outputs() == (part(case, 5) != "-")
            && ran.history.is_some() == ran.has_outputs()
            && ran.packets() == sent.as_slice(),
    )
}

#[test]
fn captures_as_they_are_spelled(rt: HostRuntime) -> Result<(), Fail> {
    let alloc = rt.alloc();
    for case in CASES.lines() {
        let capture = hex(alloc, part(case, 2))?;
        assert!(rt; is_left(&rt, alloc, &capture, case)?, "{case}");
    }
    Ok(())
}

/// The fronts of a capture that this line has leave what the line says.
fn fronts_are_left<R: Threads + Wait + Sync>(
    rt: &R,
    alloc: Global,
    case: &str,
) -> Result<bool, Fail> {
    let whole = capture_of(alloc, Form::Micro, "P@1")?;
    let (first, last) = part(case, 0).split_once("..").ok_or("two numbers")?;
    for size in first.parse::<usize>()?..last.parse::<usize>()? {
        if !is_left(rt, alloc, whole.get(..size).unwrap_or(&[]), case)? {
            return Ok(false);
        }
    }
    Ok(true)
}

#[test]
fn a_capture_may_end_at_any_byte(rt: HostRuntime) -> Result<(), Fail> {
    for case in FRONTS.lines() {
        assert!(rt; fronts_are_left(&rt, rt.alloc(), case)?, "{case}");
    }
    Ok(())
}
