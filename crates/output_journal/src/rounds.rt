// What a round writes.
ghost use Rattle.std.specs.Prelude.{◌≡◌, ℕ, List, flat_map};
ghost use Rattle.output_journal.specs.Log.{AreDistinct, Logs, adds, output_names, round_log};
ghost use Rattle.output_journal.specs.Parts.{bytes_for};

use crate::journal::{Entry, write_entry};
use crate::names::{Names, Output};
use aftr_io::{Fault, Writing};
use std::alloc::Global;

/// A part of what a round writes.
pub trait RoundPart {
    /// Its packets, as the capture that is written records them.
    ghost packet_bytes: { Self → List ℕ };

    /// Its lines of records.
    ghost line_bytes: { Self → List ℕ };

    fn packets(&self) -> &[u8]
        ensures { result.now ≡ packet_bytes self.now };

    fn lines(&self) -> &[u8]
        ensures { result.now ≡ line_bytes self.now };
}

/// Writes what a round made: its lines of tables, then the packets of all parts, then the lines of all parts.
pub fn write_round<O: Writing, P: RoundPart>(
    alloc: Global,
    files: &mut O,
    names: Names<'_>,
    versions: &[u8],
    parts: &[P],
) -> Result<(), Fault>
    requires distinct { AreDistinct (output_names names) }
    ensures log { Logs (output_names names.entry) result (round_log versions.now (flat_map P.packet_bytes parts.now) (flat_map P.line_bytes parts.now))
        (O.written files.old) (O.written files.new) }
{
    write_entry(alloc, files, names, Entry::Add(Output::Versions, versions))?;
    write_parts(alloc, files, names, Output::Packets, parts)?;
    write_parts(alloc, files, names, Output::Verdicts, parts)
}

// What a part adds to an output. Lines of tables are not made in parts.
fn part_bytes<P: RoundPart>(part: &P, output: Output) -> &[u8]
    ensures { result.now ≡ bytes_for (P.packet_bytes part.now) (P.line_bytes part.now) output }
{
    match output {
        Output::Packets => part.packets(),
        Output::Verdicts => part.lines(),
        Output::Versions => &[],
    }
}

// Adds what all parts have for an output.
fn write_parts<O: Writing, P: RoundPart>(
    alloc: Global,
    files: &mut O,
    names: Names<'_>,
    output: Output,
    parts: &[P],
) -> Result<(), Fault>
    requires distinct { AreDistinct (output_names names) }
    ensures log { Logs (output_names names.entry) result (flat_map (λ p. adds output (bytes_for (P.packet_bytes p) (P.line_bytes p) output)) parts.now)
        (O.written files.old) (O.written files.new) }
{
    let mut i = 0;
    'parts: while i < parts.len() {
        let bytes = part_bytes(&parts[i], output);
        write_entry(alloc, files, names, Entry::Add(output, bytes))?;
        i += 1;
    }
    Ok(())
}
