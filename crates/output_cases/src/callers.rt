// The callers that the READMEs of run_output and output_journal show, and what the first answers.
ghost use Rattle.std.specs.Prelude.{◌≡◌, length};
ghost use Rattle.output_journal.specs.Log.{AreDistinct, output_names};

use crate::versions::{SLOTS, loads};
use aftr_base::OutOfMemory;
use aftr_io::{Fault, Sink, Writing};
use aftr_text::LoadWords;
use output_journal::{Last, Names, RoundPart, open, write_last, write_round};
use reload_plan::Slot;
use run_output::{push_last_versions, push_new_versions};
use std::alloc::Global;
use std::test::Fail;

/// The lines of a run's loads: of the tables that came into force at these points, and of all others once the run has ended.
fn load_lines(
    alloc: Global,
    loads: &[LoadWords],
    slots: &[Slot],
    points: &[u32],
) -> Result<String, OutOfMemory>
    requires { length slots.now ≡ length loads.now }
{
    let mut lines = String::new(alloc);
    let next = push_new_versions(alloc, &mut lines, loads, slots, points, 0)?; // as often as there is a new point
    push_last_versions(alloc, &mut lines, loads, slots, points, next)?;
    Ok(lines)
}

/// Writes a run of one round: the outputs are opened, the round is written, and the summary ends it.
pub fn write_run<O: Writing, S: Sink, P: RoundPart>(
    alloc: Global,
    files: &mut O,
    sink: &mut S,
    names: Names<'_>,
    parts: &[P],
) -> Result<(), Fault>
    requires { AreDistinct (output_names names) }
{
    open(alloc, files, names, b"HEAD", b"first;")?;
    write_round(alloc, files, names, b"second;", parts)?;
    let last = Last {
        versions: b"third;",
        verdicts: b"unfinished;",
        summary: b"2 records;",
    };
    write_last(alloc, files, sink, names, last) // the sink gets nothing unless all of this is written
}

#[test]
fn each_load_has_a_line(rt: HostRuntime) -> Result<(), Fail> {
    let alloc = rt.alloc();
    let list = loads(alloc)?;
    assert_eq!(rt; list.len(), SLOTS.len());
    assert_eq!(rt;
        load_lines(alloc, &list, &SLOTS, &[5, 6])?.as_str(),
        "1 a at 5\n2 b at 6\n- c refused too-big\n- d not-reached\n"
    );
    Ok(())
}
