// What the system said of a call that failed, for people.
ghost use Rattle.std.specs.Prelude.{◌≡◌, ℕ, List, IfOk, string_bytes};
ghost use Rattle.aftr_text.specs.Messages.{file_text, output_text, read_text, write_text};

use aftr_base::{OutOfMemory, Text};
use aftr_io::{ReadError, WriteCall, WriteError};
use std::alloc::Global;
use std::io;

/// Which file could not be read, and why, in one line that begins with two blanks: also the place, if that is not the first byte. What
/// the system said of it stands behind a colon, whatever it is.
pub fn unread_line(alloc: Global, last: &ReadError) -> Result<Text, OutOfMemory>
    ensures { IfOk result (λ line. (said : List ℕ) × (line ≡ file_text last.now.name (read_text last.now.at) said)) }
{
    let error = last.error;
    let said = format!(in alloc; "{error}")?;
    let failed = failed_read(alloc, last.at)?;
    let line = told_line(alloc, last.name.as_str(), failed.as_str(), said.as_str())?;
    Ok(line)
}

/// Which file could not be made or written, and why, in such a line.
pub fn unwritten_line(alloc: Global, last: &WriteError) -> Result<Text, OutOfMemory>
    ensures { IfOk result (λ line. (said : List ℕ) × (line ≡ file_text last.now.name (write_text last.now.call) said)) }
{
    let error = last.error;
    let said = format!(in alloc; "{error}")?;
    let failed = failed_write(alloc, last.call)?;
    let line = told_line(alloc, last.name.as_str(), failed.as_str(), said.as_str())?;
    Ok(line)
}

fn told_line(alloc: Global, name: &str, failed: &str, said: &str) -> Result<Text, OutOfMemory>
    ensures { IfOk result (λ line. line ≡ file_text name.now failed.now said.now) }
{
    let mut line = String::new(alloc);
    line.push_str("  ")?;
    line.push_str(name)?;
    line.push_str(failed)?;
    line.push_str(": ")?;
    line.push_str(said)?;
    line.push_str("\n")?;
    Ok(Text::of(line))
}

// What could not be done with a file that is written.
fn failed_write(alloc: Global, call: WriteCall) -> Result<String, OutOfMemory>
    ensures { IfOk result (λ text. string_bytes text ≡ write_text call) }
{
    match call {
        WriteCall::Create => Ok(String::from_str(alloc, " could not be made")?),
        WriteCall::Append => Ok(String::from_str(alloc, " could not be written")?),
    }
}

fn failed_read(alloc: Global, at: u64) -> Result<String, OutOfMemory>
    ensures { IfOk result (λ text. string_bytes text ≡ read_text at) }
{
    if at == 0 {
        return Ok(String::from_str(alloc, " could not be read")?);
    }
    Ok(format!(in alloc; " could not be read at byte {at}")?)
}

/// Why standard output could not be written, in such a line.
pub fn output_line(alloc: Global, error: io::Error) -> Result<Text, OutOfMemory>
    ensures { IfOk result (λ line. (said : List ℕ) × (line ≡ output_text said)) }
{
    let said = format!(in alloc; "{error}")?;
    let line = told_output(alloc, said.as_str())?;
    Ok(line)
}

fn told_output(alloc: Global, said: &str) -> Result<Text, OutOfMemory>
    ensures { IfOk result (λ line. line ≡ output_text said.now) }
{
    let line = format!(in alloc; "  standard output could not be written: {said}\n")?;
    Ok(Text::of(line))
}
