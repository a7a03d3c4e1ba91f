// The outputs of a run: their names, and what they hold before the first record.
ghost use Rattle.std.specs.Prelude.{◌≡◌};
ghost use Rattle.aftr_text.specs.Jobs.{AreApart};
ghost use Rattle.lwaftr_engine.specs.Writing.{opening_steps, outputs_of};
ghost use Rattle.output_journal.specs.Log.{Logs, output_names};

use aftr_io::{Fault, Writing};
use aftr_text::{RunJob, initial_line};
use capture_io::Written;
use output_journal::{Names, open};
use std::alloc::Global;

/// The names of a run's outputs.
pub fn names_of(job: &RunJob) -> Names<'_>
    ensures { output_names result ≡ outputs_of job.now }
{
    Names {
        packets: job.output.as_str(),
        verdicts: job.verdicts.as_str(),
        versions: job.versions.as_str(),
    }
}

/// Makes the three outputs, and writes the header of the capture and the line of the first table.
pub fn open_outputs<O: Writing>(
    alloc: Global,
    files: &mut O,
    job: &RunJob,
    written: Written,
) -> Result<(), Fault>
    requires apart { AreApart job.now }
    ensures log { Logs (outputs_of job.now) result (opening_steps job.now written) (O.written files.old) (O.written files.new) }
{
    let mut header = Vec::new(alloc);
    written.push_header(&mut header)?;
    let line = initial_line(alloc, job.table.as_str())?;
    open(
        alloc,
        files,
        names_of(job),
        &header,
        line.as_str().as_bytes(),
    )
}
