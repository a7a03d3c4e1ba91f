// How a job ended.
ghost use Rattle.std.specs.Prelude.{◌≡◌, IfOk};
ghost use Rattle.lwaftr_engine.specs.Statuses.{code_of, status_text};

use aftr_base::{OutOfMemory, Text};
use binding_file::FileRefused;
use capture_io::CaptureBad;
use std::alloc::Global;

/// How a job ended.
#[derive(Clone, Copy, Debug, PartialEq, Eq)]
pub enum Status {
    /// All was done.
    Done,
    /// All was done, and a later table was refused.
    DoneRefused,
    /// The words ask for no job. Nothing was touched.
    Usage,
    /// A read failed.
    ReadFault,
    /// A file could not be made or written, or the sink not be written to.
    WriteFault,
    /// The table file is refused. Nothing was written.
    BadTable(FileRefused),
    /// The capture is refused: in its file header, and then nothing was written; or in a record, and then all records
    /// before it were judged and written.
    BadCapture(CaptureBad),
    /// The allocator had no room.
    OutOfMemory,
}

/// The program's exit code: 0 to 7, in the order of the statuses.
pub fn code(status: &Status) -> u8
    ensures { result ≡ code_of status.now }
{
    match status {
        Status::Done => 0,
        Status::DoneRefused => 1,
        Status::Usage => 2,
        Status::ReadFault => 3,
        Status::WriteFault => 4,
        Status::BadTable(_) => 5,
        Status::BadCapture(_) => 6,
        Status::OutOfMemory => 7,
    }
}

/// The status in words, with a line feed at the end: `done`, `table refused: rules twice 0 64`, `capture refused: link 113`.
pub fn status_line(alloc: Global, status: &Status) -> Result<Text, OutOfMemory>
    ensures { IfOk result (λ line. line ≡ status_text status.now) }
{
    let line = match status {
        Status::Done => format!(in alloc; "done\n"),
        Status::DoneRefused => format!(in alloc; "done, a load was refused\n"),
        Status::Usage => format!(in alloc; "usage\n"),
        Status::ReadFault => format!(in alloc; "read fault\n"),
        Status::WriteFault => format!(in alloc; "write fault\n"),
        Status::BadTable(refusal) => format!(in alloc; "table refused: {refusal}\n"),
        Status::BadCapture(refusal) => format!(in alloc; "capture refused: {refusal}\n"),
        Status::OutOfMemory => format!(in alloc; "out of memory\n"),
    };
    Ok(Text::of(line?))
}
