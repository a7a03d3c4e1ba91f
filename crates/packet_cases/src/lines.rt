// The lines of verdicts, of tables and of the summary.
use aftr_base::{OutOfMemory, Text};
use aftr_text::{Totals, ended_line, initial_line, push_verdict_line, summary, verdict_line};
use case_data::{AFTR, SUBSCRIBER};
use ip_codec::Rule;
use std::test::Fail;
use verdict_core::{Reply, Verdict};

#[test]
fn verdicts_have_lines(rt: HostRuntime) -> Result<(), Fail> {
    let up = Verdict::Outward { mtu: 1500 };
    let down = Verdict::Inward {
        from: AFTR,
        to: SUBSCRIBER,
        hop: 64,
        mtu: 1500,
        back: false,
    };
    let hairpin = Verdict::Inward {
        from: AFTR,
        to: SUBSCRIBER,
        hop: 64,
        mtu: 1500,
        back: true,
    };
    let no_binding = Verdict::Drop {
        why: Rule::NoBinding,
        reply: Reply::Silent,
    };
    let longest = Verdict::Drop {
        why: Rule::HairpinNoBinding,
        reply: Reply::Silent,
    };
    let most = u32::MAX;
    let cases = [
        (0, 0, up, 1, "0 0 up 1\n"),
        (0, 0, no_binding, 0, "0 0 drop no-binding 0\n"),
        (3, 1, down, 2, "3 1 down 2\n"),
        (10, 255, hairpin, 1, "10 255 hairpin 1\n"),
        (2, 0, Verdict::Held, 0, "2 0 held 0\n"),
        (9, 0, Verdict::Held, 1, "9 0 held 1\n"),
        (10, 9, down, 1, "10 9 down 1\n"),
        (99, 9, hairpin, 1, "99 9 hairpin 1\n"),
        (100, 10, up, 1, "100 10 up 1\n"),
        (54_321, 1, no_binding, 1, "54321 1 drop no-binding 1\n"),
        (9_999, 2, up, 1, "9999 2 up 1\n"),
        (10_000, 2, up, 0, "10000 2 up 0\n"),
        (most, 9, hairpin, 1, "4294967295 9 hairpin 1\n"),
        (
            most,
            most,
            longest,
            most,
            "4294967295 4294967295 drop hairpin-no-binding 4294967295\n",
        ),
    ];
    let mut pushed = Vec::new(rt.alloc());
    let mut expected = String::new(rt.alloc());
    for (number, version, verdict, packets, line) in cases {
        let written = verdict_line(rt.alloc(), number, version, verdict, packets)?;
        assert_eq!(rt; written.as_str(), line);
        push_verdict_line(&mut pushed, number, version, &verdict, packets)?;
        expected.push_str(line)?;
    }
    assert_eq!(rt; pushed.as_slice(), expected.as_bytes());
    Ok(())
}

// Whether a line was written, and is this.
fn is_line(line: Result<Text, OutOfMemory>, wanted: &str) -> bool {
    match line {
        Ok(line) => line.as_str() == wanted,
        Err(_) => false,
    }
}

#[test]
fn other_lines_are_written(rt: HostRuntime) {
    let alloc = rt.alloc();
    let few = Totals {
        records: 1,
        held: 0,
        forwarded: 1,
        dropped: 0,
        packets: 1,
        version: 0,
    };
    let many = Totals {
        records: 9,
        held: 2,
        forwarded: 3,
        dropped: 4,
        packets: u64::MAX,
        version: 5,
    };
    let written = [
        is_line(ended_line(alloc, true, 0), "expired 0\n"),
        is_line(ended_line(alloc, false, 1), "unfinished 1\n"),
        is_line(initial_line(alloc, "t0.toml"), "0 t0.toml initial\n"),
        is_line(initial_line(alloc, "tä\n0"), "0 tä\n0 initial\n"),
        is_line(
            summary(alloc, few),
            "records 1 held 0 forwarded 1 dropped 0 packets 1 version 0\n",
        ),
        is_line(
            summary(alloc, many),
            "records 9 held 2 forwarded 3 dropped 4 packets 18446744073709551615 version 5\n",
        ),
    ];
    assert_eq!(rt; written, [true; 6]);
}
