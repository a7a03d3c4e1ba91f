// What is told of a file that was refused, behind its name: its lines, and a key that its table does not have.
use crate::naming::push_shown;
use crate::tables::push_lines;
use aftr_base::OutOfMemory;
use binding_file::FileRefused;
use std::alloc::Global;
use table_hints::{KeyPlace, UnknownKey, line_of, unknown_key};

/// The lines of a refusal; of an unknown key that of its binding, and below it the key and its table. The last line is not ended.
pub(crate) fn push_about(
    alloc: Global,
    text: &mut String,
    bytes: &[u8],
    refused: &FileRefused,
) -> Result<(), OutOfMemory> {
    match refused {
        FileRefused::UnknownKey => match unknown_key(alloc, bytes)? {
            Some(found) => push_key(alloc, text, &found),
            None => Ok(()),
        },
        _ => push_lines(alloc, text, line_of(alloc, bytes, refused)?),
    }
}

fn push_key(alloc: Global, text: &mut String, found: &UnknownKey) -> Result<(), OutOfMemory> {
    push_lines(alloc, text, found.line)?;
    text.push_str("\n  unknown key ")?;
    push_shown(text, found.key.as_str())?;
    let place = place_text(alloc, found.place)?;
    text.push_str(place.as_str())?;
    Ok(())
}

fn place_text(alloc: Global, place: KeyPlace) -> Result<String, OutOfMemory> {
    Ok(match place {
        KeyPlace::Top => format!(in alloc; " at the top")?,
        KeyPlace::Softwire => format!(in alloc; " in softwire")?,
        KeyPlace::Binding(at) => format!(in alloc; " in binding {at}")?,
    })
}
