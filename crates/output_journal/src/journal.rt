// The entries of the log, and how they are written.
ghost use Rattle.output_journal.specs.Log.{AreDistinct, Logs, entry_steps, log_of, opening_log, output_names};

use crate::names::{Names, Output, name};
use aftr_io::{Fault, Writing, append_all};
use std::alloc::Global;

/// What is done to one output.
#[derive(Clone, Copy)]
pub enum Entry<'a> {
    /// It is made, empty. If it was there, it loses its bytes.
    Make(Output),
    /// These bytes are added at its end.
    Add(Output, &'a [u8]),
}

/// Writes the entries in order. The first call of `files` that fails ends it with its fault: then a front of the log is written.
pub fn write<O: Writing>(
    alloc: Global,
    files: &mut O,
    names: Names<'_>,
    entries: &[Entry<'_>],
) -> Result<(), Fault>
    requires distinct { AreDistinct (output_names names) }
    ensures log { Logs (output_names names.entry) result (log_of entries.now) (O.written files.old) (O.written files.new) }
{
    let mut i = 0;
    'entries: while i < entries.len() {
        write_entry(alloc, files, names, entries[i])?;
        i += 1;
    }
    Ok(())
}

// Writes one entry.
pub fn write_entry<O: Writing>(
    alloc: Global,
    files: &mut O,
    names: Names<'_>,
    entry: Entry<'_>,
) -> Result<(), Fault>
    requires distinct { AreDistinct (output_names names) }
    ensures log { Logs (output_names names.entry) result (entry_steps entry.entry) (O.written files.old) (O.written files.new) }
{
    match entry {
        Entry::Make(output) => files.create(alloc, name(names, output)),
        Entry::Add(output, bytes) => append_all(alloc, files, name(names, output), bytes),
    }
}

/// Makes the three outputs, in the order of `Output`, and then adds the header to the packets and the line to the versions.
pub fn open<'a, O: Writing>(
    alloc: Global,
    files: &mut O,
    names: Names<'_>,
    header: &'a [u8],
    line: &'a [u8],
) -> Result<(), Fault>
    requires distinct { AreDistinct (output_names names) }
    ensures log { Logs (output_names names.entry) result (opening_log header.now line.now) (O.written files.old) (O.written files.new) }
{
    let entries = [
        Entry::Make(Output::Packets),
        Entry::Make(Output::Verdicts),
        Entry::Make(Output::Versions),
        Entry::Add(Output::Packets, header),
        Entry::Add(Output::Versions, line),
    ];
    write(alloc, files, names, &entries)
}
