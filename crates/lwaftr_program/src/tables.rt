// What is told of table files below the status line, for which they are read once more: which lines and which key a refusal is about, and
// which loads were refused. A file that is none by now, or is too big, is not looked at.
ghost use Rattle.std.specs.Prelude.{◌≡◌, [], IfOk};
ghost use Rattle.lwaftr_engine.specs.declared.status.Status.TheVariants as status_is;

use crate::hints::hint_for;
use crate::keys::push_about;
use crate::loads::push_loads;
use crate::naming::table_name;
use aftr_base::{OutOfMemory, Text};
use aftr_text::{Job, read_job};
use binding_file::{FileRefused, MOST_FILE_BYTES};
use lwaftr_engine::Status;
use std::alloc::Global;
use std::fs;
use std::rt::Files;
use table_hints::Lines;

/// The lines below the status line that tell of table files. The words are those behind the program's name.
pub fn table_lines<R: Files + Alloc<A = Global>>(
    rt: &R,
    alloc: Global,
    words: &[&str],
    status: &Status,
) -> Result<Text, OutOfMemory>
    ensures done { status.now ≡ status_is.Done → IfOk result (λ lines. lines ≡ []) }
{
    let mut text = String::new(alloc);
    match status {
        Status::BadTable(refused) => {
            if let Ok(job) = read_job(alloc, words) {
                push_refused(rt, alloc, &mut text, &job, refused)?;
            }
        }
        Status::DoneRefused => {
            if let Ok(Job::Run(run)) = read_job(alloc, words) {
                push_loads(rt, alloc, &mut text, &run)?;
            }
        }
        Status::OutOfMemory => text.push_str("  memory was wanted\n")?,
        _ => {}
    }
    Ok(Text::of(text))
}

/// The bytes of a file, where it is one that can be read at once and is no bigger than a table may be.
pub(crate) fn bytes_of<R: Files + Alloc<A = Global>>(rt: &R, name: &str) -> Option<Vec<u8>> {
    let about = fs::metadata(rt, name).ok()?;
    if !about.is_file() || about.len() > MOST_FILE_BYTES as u64 {
        return None;
    }
    fs::read(rt, name).ok()
}

// The file that was refused, with the lines of it and the key where they can be told, and what would be right.
fn push_refused<R: Files + Alloc<A = Global>>(
    rt: &R,
    alloc: Global,
    text: &mut String,
    job: &Job,
    refused: &FileRefused,
) -> Result<(), OutOfMemory> {
    let Some(name) = table_name(job) else {
        return Ok(());
    };
    text.push_str("  the table file is ")?;
    text.push_str(name)?;
    if let Some(bytes) = bytes_of(rt, name) {
        push_about(alloc, text, &bytes, refused)?;
    }
    text.push_str("\n")?;
    text.push_str(hint_for(refused))?;
    Ok(())
}

/// Which lines, behind a name.
pub(crate) fn push_lines(
    alloc: Global,
    text: &mut String,
    lines: Option<Lines>,
) -> Result<(), OutOfMemory> {
    let told = match lines {
        None => return Ok(()),
        Some(Lines::One(line)) => format!(in alloc; ", line {line}")?,
        Some(Lines::Both(first, second)) => format!(in alloc; ", lines {first} and {second}")?,
        Some(Lines::Through(first, last)) => format!(in alloc; ", lines {first} to {last}")?,
    };
    text.push_str(told.as_str())?;
    Ok(())
}
