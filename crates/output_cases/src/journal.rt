// A run of one round, and what its outputs and its sink hold if a call fails.
ghost use Rattle.output_journal.specs.Log.{AreDistinct, output_names};

use crate::callers::write_run;
use aftr_io::{Fault, MemSink, MemWriting};
use output_journal::{Names, RoundPart, open, write_round};
use std::alloc::Global;
use std::test::Fail;

// What one record writes: a packet and a line.
#[derive(Clone, Copy)]
struct Record {
    packet: &'static str,
    line: &'static str,
}

impl RoundPart for Record {
    ghost packet_bytes = { λ r. r.packet.now };

    ghost line_bytes = { λ r. r.line.now };

    fn packets(&self) -> &[u8] {
        self.packet.as_bytes()
    }

    fn lines(&self) -> &[u8] {
        self.line.as_bytes()
    }
}

const RECORDS: [Record; 2] = [
    Record {
        packet: "AB",
        line: "up;",
    },
    Record {
        packet: "C",
        line: "down;",
    },
];

// The call that fails, of `create` and `append` by its number; then what the packets, the verdicts, the versions and the sink hold. `-` is a
// file that is not there.
const RUNS: &str = "0|-|-|-|
1||-|-|
2|||-|
3||||
4|HEAD|||
5|HEAD||first;|
6|HEAD||first;second;|
7|HEADAB||first;second;|
8|HEADABC||first;second;|
9|HEADABC|up;|first;second;|
10|HEADABC|up;down;|first;second;|
11|HEADABC|up;down;|first;second;third;|
put|HEADABC|up;down;unfinished;|first;second;third;|
none|HEADABC|up;down;unfinished;|first;second;third;|2 records;";

fn names() -> Names<'static>
    ensures { AreDistinct (output_names result) }
{
    Names {
        packets: "p",
        verdicts: "d",
        versions: "v",
    }
}

// Whether a file is as a field says.
fn is_held(held: Option<&[u8]>, field: Option<&str>) -> bool {
    let field = field.unwrap_or("");
    match held {
        Some(bytes) => bytes == field.as_bytes(),
        None => field == "-",
    }
}

// Whether a run leaves what a line says.
fn leaves(alloc: Global, line: &str) -> Result<bool, Fail> {
    let mut fields = line.split('|');
    let call = fields.next().unwrap_or("");
    let mut files = MemWriting::new(alloc);
    files.set(alloc, "other", b"kept")?;
    let mut sink = MemSink::new(alloc);
    match call {
        "none" => {}
        "put" => sink.fail_at(alloc, 0)?,
        _ => files.fail_at(alloc, call.parse().unwrap_or(0))?,
    }
    let result = write_run(alloc, &mut files, &mut sink, names(), &RECORDS);
    let failed = result == Err(Fault::Failed);
    Ok(
        (failed || result == Ok(()))
            && failed == (call != "none")
            && is_held(files.get("p"), fields.next())
            && is_held(files.get("d"), fields.next())
            && is_held(files.get("v"), fields.next())
            && is_held(Some(sink.bytes()), fields.next())
            && is_held(files.get("other"), Some("kept")),
    )
}

// The first line of which a run leaves something else.
fn first_other(alloc: Global, lines: &'static str) -> Result<&'static str, Fail> {
    'lines: for line in lines.lines() {
        if !leaves(alloc, line)? {
            return Ok(line);
        }
    }
    Ok("")
}

#[test]
fn a_front_of_the_log_is_written_if_a_call_fails(rt: HostRuntime) -> Result<(), Fail> {
    assert_eq!(rt; first_other(rt.alloc(), RUNS)?, "");
    Ok(())
}

#[test]
fn nothing_to_add_is_no_call(rt: HostRuntime) -> Result<(), Fail> {
    let alloc = rt.alloc();
    let mut files = MemWriting::new(alloc);
    files.fail_at(alloc, 3)?;
    assert_eq!(rt; open(alloc, &mut files, names(), b"", b""), Ok(()));
    assert_eq!(rt;
        write_round(
            alloc,
            &mut files,
            names(),
            b"",
            &[Record {
                packet: "",
                line: ""
            }]
        ),
        Ok(())
    );
    assert_eq!(rt;
        write_round(alloc, &mut files, names(), b"", &RECORDS),
        Err(Fault::Failed)
    );
    Ok(())
}
