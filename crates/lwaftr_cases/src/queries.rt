// What words ask for, tables of version 2, and generated traffic.
use crate::captures::{Form, capture_of};
use crate::cases::{lines_of, part};
use crate::outside::Narrow;
use crate::runs::{Ran, ask, files_of};
use crate::tables::table_text;
use binding_file::{FileRefused, Name, Place};
use lwaftr_engine::{Status, code, status_line};
use std::alloc::Global;
use std::sync::Wait;
use std::test::Fail;
use std::thread::Threads;
use worker_gate::OpenGate;

/// Each line has the words, the table, the exit code, the line that is put, or the line of the status, if it is not 0, and the lines of
/// VERSIONS, if there are any.
const CASES: &str = "\
check t|whole|0|valid 1 bindings
check t|shared|0|valid 1 bindings
check t|none|0|valid 0 bindings
check t|odd/2|0|valid 2 bindings
check t|odd|5|table refused: rules mixed-shape 0 1
check t|clash/2|5|table refused: rules twice 0 1
check t|odd/3|5|table refused: version
check t|empty|5|table refused: missing version
check other|whole|3|read fault
check t|crowd|5|table refused: rules twice 0 64
check t|city|0|valid 64 bindings
check t|most|0|valid 65536 bindings
check t|more|5|table refused: rules too-many 65537
who t 203.0.113.1 1232|shared|0|2001:db8:1::1
who t 203.0.113.1 1235|shared|0|2001:db8:1::1
who t 203.0.113.1 1236|shared|0|none
who t 203.0.113.1 208|shared|0|none
who t 203.0.113.2 1232|shared|0|none
who t 203.0.113.1 0|whole|0|2001:db8:1::1
who t 203.0.113.1 65535|whole|0|2001:db8:1::1
who t 192.0.2.1 1232|whole|0|none
who t 203.0.113.1 80|odd/2|0|2001:db8:1::2
who t 203.0.113.1 1232|odd/2|0|2001:db8:1::1
who t 203.0.113.1 81|odd/2|0|none
who t 203.0.113.1 80|odd|5|table refused: rules mixed-shape 0 1
who t 203.0.113.1 80|clash/2|5|table refused: rules twice 0 1
who t 203.0.113.1 80|odd/3|5|table refused: version
who t 10.1.255.255 9|most|0|2001:db8:1::ffff
who t 203.0.113.1 1232|=2001:0DB8::0:1|0|2001:db8::1
who t 203.0.113.1 1232|=1:0:0:2:0:0:3:4|0|1::2:0:0:3:4
who t 203.0.113.1 1232|=1:0:2:3:4:5:6:7|0|1:0:2:3:4:5:6:7
who t 203.0.113.1 1232|=::ffff:192.0.2.1|0|::ffff:c000:201
who t 203.0.113.1 1232|=1::2::3|5|table refused: address binding 0 b4
who t 203.0.113.1 1232|=1:2:3:4:5:6:7|5|table refused: address binding 0 b4
who t 203.0.113.1 1232|=12345::|5|table refused: address binding 0 b4
who other 203.0.113.1 80|whole|3|read fault
check|whole|2|usage
check ~|whole|2|usage
check -x|whole|2|usage
check --|whole|2|usage
check -- t|whole|0|valid 1 bindings
check t t|whole|2|usage
Check t|whole|2|usage
who t 203.0.113.1|whole|2|usage
who t 203.0.113.1 1232 1233|whole|2|usage
who -x 203.0.113.1 1232|whole|2|usage
who ~ 203.0.113.1 1232|whole|2|usage
who t 203.0.113.01 1232|whole|2|usage
who t 203.0.113 1232|whole|2|usage
who t 256.1.1.1 1232|whole|2|usage
who t ::1 1232|whole|2|usage
who t 203.0.113.1 65536|whole|2|usage
who t 203.0.113.1 01|whole|2|usage
who t 203.0.113.1 +1|whole|2|usage
who t 203.0.113.1 -1|whole|2|usage
who t 203.0.113.1 ~|whole|2|usage
who t 203.0.113.1 0x1|whole|2|usage
migrate t u|shared|0|migrated 1 bindings
migrate t u|odd/2|0|migrated 2 bindings
migrate t u|odd|5|table refused: rules mixed-shape 0 1
migrate other u|whole|3|read fault
migrate t t|whole|2|usage
migrate t|whole|2|usage
migrate t u v|whole|2|usage
demo 0 1 1|whole|0|records 1 held 0 forwarded 0 dropped 1 packets 0 version 1
demo 13 2 1|whole|0|records 2 held 0 forwarded 2 dropped 0 packets 2 version 1
demo 7 2000 1|-|0|records 2000 held 0 forwarded 1296 dropped 704 packets 1296 version 1
demo 7 2000 2|-|0|records 2000 held 0 forwarded 1296 dropped 704 packets 1296 version 1
demo 7 2000 3|-|0|records 2000 held 0 forwarded 1296 dropped 704 packets 1296 version 1
demo 7 2000 3|whole|0|records 2000 held 0 forwarded 1296 dropped 704 packets 1296 version 1
demo 7 2000 4|-|0|records 2000 held 0 forwarded 1296 dropped 704 packets 1296 version 1
demo 7 2000 5|-|0|records 2000 held 0 forwarded 1296 dropped 704 packets 1296 version 1
demo 7 2000 6|-|0|records 2000 held 0 forwarded 1296 dropped 704 packets 1296 version 1
demo 7 2000 7|-|0|records 2000 held 0 forwarded 1296 dropped 704 packets 1296 version 1
demo 7 2000 8|-|0|records 2000 held 0 forwarded 1296 dropped 704 packets 1296 version 1
demo 7 2000 9|-|0|records 2000 held 0 forwarded 1296 dropped 704 packets 1296 version 1
demo 7 2000 10|-|0|records 2000 held 0 forwarded 1296 dropped 704 packets 1296 version 1
demo 7 2000 11|-|0|records 2000 held 0 forwarded 1296 dropped 704 packets 1296 version 1
demo 7 2000 12|-|0|records 2000 held 0 forwarded 1296 dropped 704 packets 1296 version 1
demo 7 2000 13|-|0|records 2000 held 0 forwarded 1296 dropped 704 packets 1296 version 1
demo 7 2000 14|-|0|records 2000 held 0 forwarded 1296 dropped 704 packets 1296 version 1
demo 7 2000 15|-|0|records 2000 held 0 forwarded 1296 dropped 704 packets 1296 version 1
demo 7 2000 16|-|0|records 2000 held 0 forwarded 1296 dropped 704 packets 1296 version 1
demo 1 200000 4|-|0|records 200000 held 0 forwarded 131448 dropped 68552 packets 131448 version 1
demo 18446744073709551615 1001 16|whole|0|records 1001 held 0 forwarded 644 dropped 357 packets 644 version 1
demo 18446744073709551616 1 1|whole|2|usage
demo 0 0 1|whole|2|usage
demo 0 1000001 1|whole|2|usage
demo 0 1 0|whole|2|usage
demo 0 1 17|whole|2|usage
demo 0 1|whole|2|usage
|-|2|usage
~|-|2|usage
run|-|2|usage
run a b c d|-|2|usage
run a b c d e f|-|2|usage
Run a b c d e|-|2|usage
walk a b c d e|-|2|usage
run a b b d e|-|2|usage
run a b c b e|-|2|usage
run a b c c e|-|2|usage
run a a c d e|-|2|usage
run a b a d e|-|2|usage
run a b c a e|-|2|usage
run a b c d b|-|2|usage
run a b c d c|-|2|usage
run a b c d d|-|2|usage
run -- a b c d|-|2|usage
run a b -- d e|-|2|usage
run a -b c d e|-|2|usage
run --workers b c d e|-|2|usage
run ~ b c d e|-|2|usage
run a b c ~ e|-|2|usage
run a b c d ~|-|2|usage
run a b c d e --workers 17|-|2|usage
run a b c d e --workers 0|-|2|usage
run a b c d e --errors 0|-|2|usage
run a b c d e --errors 1 --errors 2|-|2|usage
run a b c d e 4-2:f|-|2|usage
run a b c d e 4-6:f 3-7:g|-|2|usage
run a b c d e 1-2:b|-|2|usage
migrate t0.toml t0.toml|-|2|usage
run in.pcap out.pcap verdicts.txt versions.txt -|whole|0|records 1 held 0 forwarded 1 dropped 0 packets 1 version 0|0 - initial
run in.pcap out.pcap verdicts.txt versions.txt t0.toml|bare|5|table refused: missing softwire
run not-there out.pcap verdicts.txt versions.txt t0.toml|bare|5|table refused: missing softwire
run not-there out.pcap verdicts.txt versions.txt t0.toml|whole|3|read fault
run in.pcap out.pcap verdicts.txt versions.txt not-there|whole|3|read fault
run t out.pcap verdicts.txt versions.txt t0.toml 1-1:not-there|whole|3|read fault
run in.pcap out.pcap verdicts.txt versions.txt t0.toml 1-1:bad 1-1:clash 2-2:not-there 3-3:bad 4-4:none --workers 1|whole|3|read fault
run in.pcap out.pcap verdicts.txt versions.txt t0.toml 1-1:bad 1-1:clash 2-2:not-there 3-3:bad 4-4:none --workers 2|whole|3|read fault
run in.pcap out.pcap verdicts.txt versions.txt t0.toml 1-1:bad 1-1:clash 2-2:not-there 3-3:bad 4-4:none --workers 4|whole|3|read fault";

/// It ended with the code of the line, and put its line, or, if the code is not 0, nothing; that is then the line of the status. The
/// table is as it was, what VERSIONS has stands there, and a read failed only where that is the status.
fn is_answer(alloc: Global, ran: &Ran, case: &str) -> Result<bool, Fail> {
    let (number, line) = (part(case, 2), part(case, 3));
    let (said, status) = if number == "0" {
        (line, "done")
    } else {
        ("", line)
    };
    let ended = status_line(alloc, &ran.status)?;
    let table = table_text(alloc, part(case, 1))?;
    let versions = lines_of(alloc, "", part(case, 4))?;
    let lines = lines_of(alloc, "", said)?;
    let missing = FileRefused::Missing(Place::Top(Name::Softwire));
    let lacks_section = line == "table refused: missing softwire";
    Ok(
        lacks_section == (ran.status == Status::BadTable(missing))
            && code(&ran.status) == number.parse::<u8>()?
            && ran.said() == lines.as_str()
            && ended.as_str().trim_end_matches('\n') == status
            && ran.files.reading.text("t") == table.as_str()
            && ran.files.writing.text("versions.txt") == versions.as_str()
            && ran.has_outputs() == (versions.as_str() != "")
            && ran.history.is_some() == said.starts_with("records ")
            && ran.failed(if number == "3" { 1 } else { 0 }, 0),
    )
}

/// What the words of this line ask for has the answer of the line.
fn has_answer<R: Threads + Wait + Sync>(rt: &R, alloc: Global, case: &str) -> Result<bool, Fail> {
    let words = part(case, 0);
    let capture = capture_of(alloc, Form::Micro, "P@1")?;
    let files = files_of(alloc, &capture, part(case, 1), words)?;
    let ran = ask(rt, alloc, words, files, Narrow::wide(alloc), &OpenGate)?;
    is_answer(alloc, &ran, case)
}

#[test]
fn words_are_answered(rt: HostRuntime) -> Result<(), Fail> {
    for case in CASES.lines() {
        assert!(rt; has_answer(&rt, rt.alloc(), case)?, "{case}");
    }
    Ok(())
}

/// The question ends with a write fault where the sink fails, having taken so many bytes of the line.
fn is_lost_at_the_sink<R: Threads + Wait + Sync>(
    rt: &R,
    alloc: Global,
    question: &str,
    taken: usize,
) -> Result<bool, Fail> {
    let mut out = Narrow::wide(alloc);
    out.most = taken;
    out.sink.fail_at(alloc, if taken > 0 { 1 } else { 0 })?;
    let ran = ask(
        rt,
        alloc,
        question,
        files_of(alloc, &[], "whole", "")?,
        out,
        &OpenGate,
    )?;
    Ok(
        ran.status == Status::WriteFault
            && ran.said().len() == taken
            && ran.failed(0, 0)
            && ran.history.is_none(),
    )
}

/// The question is done if this read is to fail, or this create or append, as it comes to no such call; otherwise it ends with a fault
/// of that kind, and nothing is put.
fn is_done_without<R: Threads + Wait + Sync>(
    rt: &R,
    alloc: Global,
    question: &str,
    fails_reads: bool,
    call: u64,
) -> Result<Option<bool>, Fail> {
    let mut files = files_of(alloc, &[], "whole", "")?;
    if fails_reads {
        files.reading.files.fail_at(alloc, call)?;
    } else {
        files.writing.files.fail_at(alloc, call)?;
    }
    let ran = ask(rt, alloc, question, files, Narrow::wide(alloc), &OpenGate)?;
    Ok(match ran.status {
        Status::Done => Some(true),
        Status::ReadFault if ran.said() == "" && ran.failed(1, 0) => Some(false),
        Status::WriteFault if ran.said() == "" && ran.failed(0, 1) => Some(false),
        _ => None,
    })
}

#[test]
fn a_question_may_fail(rt: HostRuntime) -> Result<(), Fail> {
    let alloc = rt.alloc();
    for question in ["check t", "who t 203.0.113.1 1232", "migrate t u"] {
        for taken in [0, 1, 4] {
            assert!(rt;
                is_lost_at_the_sink(&rt, alloc, question, taken)?,
                "{question}"
            );
        }
        for fails_reads in [true, false] {
            let mut done = None;
            for call in 0..12 {
                done = is_done_without(&rt, alloc, question, fails_reads, call)?;
                assert!(rt; done.is_some(), "{question} {call}");
            }
            assert!(rt; done == Some(true), "{question}");
        }
    }
    Ok(())
}

#[test]
fn a_table_is_moved_into_version_2(rt: HostRuntime) -> Result<(), Fail> {
    let alloc = rt.alloc();
    let mut files = files_of(alloc, &[], "shared", "")?;
    for (question, line) in [
        ("migrate t u", "migrated 1 bindings\n"),
        ("check u", "valid 1 bindings\n"),
        ("who u 203.0.113.1 1232", "2001:db8:1::1\n"),
        ("who u 203.0.113.1 1236", "none\n"),
    ] {
        let ran = ask(&rt, alloc, question, files, Narrow::wide(alloc), &OpenGate)?;
        assert_eq!(rt; ran.said(), line);
        files = ran.files;
        let text = String::from_str(alloc, files.writing.text("u"))?;
        files.reading.files.set(alloc, "u", text.as_bytes())?;
    }
    assert!(rt; files.writing.text("u").contains("version = 2"));
    assert_eq!(rt;
        files.reading.text("t"),
        table_text(alloc, "shared")?.as_str()
    );
    Ok(())
}
