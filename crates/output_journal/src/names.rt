// The three outputs, and what their files are called.
ghost use Rattle.std.specs.Prelude.{◌≡◌};
ghost use Rattle.output_journal.specs.Log.{name_of, output_names};

/// One of the three files that a run writes.
#[derive(Clone, Copy, Debug, PartialEq, Eq)]
pub enum Output {
    /// The capture of the packets sent.
    Packets,
    /// The lines of the records.
    Verdicts,
    /// The lines of the tables.
    Versions,
}

/// The names of the three files. Different names are different files.
#[derive(Clone, Copy)]
pub struct Names<'a> {
    pub packets: &'a str,
    pub verdicts: &'a str,
    pub versions: &'a str,
}

// The name of one of them.
pub fn name<'a>(names: Names<'a>, output: Output) -> &'a str
    ensures { result.now ≡ name_of (output_names names.entry) output }
{
    match output {
        Output::Packets => names.packets,
        Output::Verdicts => names.verdicts,
        Output::Versions => names.versions,
    }
}
