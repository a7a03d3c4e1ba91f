// What a run writes at its end.
ghost use Rattle.aftr_io.specs.Outside.{has_failed};
ghost use Rattle.output_journal.specs.Ends.{Ends, OneRises, sink_state};
ghost use Rattle.output_journal.specs.Log.{AreDistinct, last_log, output_names};

use crate::journal::{Entry, write};
use crate::names::{Names, Output};
use aftr_io::{Fault, Sink, Writing, put_all};
use std::alloc::Global;

/// What is left to be written when the records have ended.
#[derive(Clone, Copy)]
pub struct Last<'a> {
    /// The lines of the tables that have none yet.
    pub versions: &'a [u8],
    /// The lines of the datagrams that never became whole.
    pub verdicts: &'a [u8],
    /// The summary, for the sink.
    pub summary: &'a [u8],
}

/// Writes the last lines of the versions, then those of the verdicts, and puts the summary into the sink if all of this is written.
pub fn write_last<O: Writing, S: Sink>(
    alloc: Global,
    files: &mut O,
    sink: &mut S,
    names: Names<'_>,
    last: Last<'_>,
) -> Result<(), Fault>
    requires distinct { AreDistinct (output_names names) }
    ensures end { Ends (output_names names.entry) result (last_log last.entry.versions.now last.entry.verdicts.now) last.entry.summary.now
        (O.written files.old) (O.written files.new) (sink_state (S.out sink.old) (S.faults sink.old)) (sink_state (S.out sink.new) (S.faults sink.new)) }
    ensures counts { OneRises (has_failed result) (O.written files.old).spoiled (O.written files.new).spoiled (S.faults sink.old) (S.faults sink.new) }
{
    let lines = [
        Entry::Add(Output::Versions, last.versions),
        Entry::Add(Output::Verdicts, last.verdicts),
    ];
    write(alloc, files, names, &lines)?;
    put_all(alloc, sink, last.summary)
}
