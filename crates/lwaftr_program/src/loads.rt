// The loads that were refused, told from VERSIONS, which has a line for each table in the order of the words.
use crate::keys::push_about;
use crate::naming::push_named;
use crate::tables::bytes_of;
use aftr_base::OutOfMemory;
use aftr_text::RunJob;
use binding_file::{FileError, FileRefused, LoadText, read_table};
use std::alloc::Global;
use std::rt::Files;
use std::str;

/// So many loads are told, and no more.
const MOST_TOLD: usize = 10;

/// The files of so many of them are read once more for their lines.
const MOST_READ: usize = 3;

/// A larger file is not read as a table once more, which may take as long as the run.
const MOST_BYTES_AGAIN: usize = 8_388_608;

/// A line for each load that was refused.
pub(crate) fn push_loads<R: Files + Alloc<A = Global>>(
    rt: &R,
    alloc: Global,
    text: &mut String,
    run: &RunJob,
) -> Result<(), OutOfMemory> {
    let versions = run.versions.as_str();
    let Some(bytes) = bytes_of(rt, versions) else {
        return push_named(text, "which load, and why, is in", versions);
    };
    let Ok(lines) = str::from_utf8(&bytes) else {
        return push_named(text, "which load, and why, is in", versions);
    };
    let Some((_, mut rest)) = next_line(lines, run.table.as_str()) else {
        return push_named(text, "which load, and why, is in", versions);
    };
    let mut number = 0usize;
    let mut told = 0usize;
    'loads: for load in run.loads.as_slice() {
        let name = load.name.as_str();
        let Some((cause, later)) = next_line(rest, name) else {
            return Ok(());
        };
        number = number.saturating_add(1);
        rest = later;
        let Some(cause) = cause else {
            continue;
        };
        if told == MOST_TOLD {
            return push_named(text, "those of more loads are in", versions);
        }
        push_load(text, alloc, number, name, cause)?;
        if told < MOST_READ {
            push_about_load(rt, alloc, text, name, cause)?;
        }
        text.push_str("\n")?;
        told = told.saturating_add(1);
    }
    Ok(())
}

// The cause in the line of a table, where it was refused, and what follows the line.
fn next_line<'a>(lines: &'a str, name: &str) -> Option<(Option<&'a str>, &'a str)> {
    let (version, named) = lines.split_once(' ')?;
    let (said, later) = named.strip_prefix(name)?.split_once('\n')?;
    if version == "-" {
        Some((said.strip_prefix(" refused "), later))
    } else {
        Some((None, later))
    }
}

fn push_load(
    text: &mut String,
    alloc: Global,
    number: usize,
    name: &str,
    cause: &str,
) -> Result<(), OutOfMemory> {
    let line = format!(in alloc; "  load {number}, {name}: {cause}")?;
    text.push_str(line.as_str())?;
    Ok(())
}

// The lines of a load and the key, where its file still has this cause.
fn push_about_load<R: Files + Alloc<A = Global>>(
    rt: &R,
    alloc: Global,
    text: &mut String,
    name: &str,
    cause: &str,
) -> Result<(), OutOfMemory> {
    let Some(bytes) = bytes_of(rt, name) else {
        return Ok(());
    };
    match refusal_of(alloc, &bytes, cause)? {
        Some(refused) => push_about(alloc, text, &bytes, &refused),
        None => Ok(()),
    }
}

// The refusal with this text, where the bytes have it. Of a text that is no TOML `line_of` finds that by itself.
fn refusal_of(
    alloc: Global,
    bytes: &[u8],
    cause: &str,
) -> Result<Option<FileRefused>, OutOfMemory> {
    if cause == "not-toml" {
        return Ok(Some(FileRefused::NotToml));
    }
    if bytes.len() > MOST_BYTES_AGAIN {
        return Ok(None);
    }
    let Err(FileError::Refused(refused)) = read_table(alloc, bytes) else {
        return Ok(None);
    };
    let found = LoadText(refused);
    let found = format!(in alloc; "{found}")?;
    if found.as_str() == cause {
        return Ok(Some(refused));
    }
    Ok(None)
}
