// Where a text stops being TOML.
ghost use Rattle.std.specs.Prelude.{◌≡◌, ◌≤◌, true, false, length, Ok, Err, Some, None, IfOk, IfSome, IsUtf8};
ghost use Rattle.toml.specs.Parse.{parse_document};
ghost use Rattle.binding_file.specs.Files.{IsDocument, TableOf, most_bytes};
ghost use Rattle.table_costs.specs.FirstLines.{begins_toml, first_place};
ghost use Rattle.table_hints.specs.Lines.{AreTrouble, IsOfNoToml, IsReadAsNone, IsSound, line_at};
ghost use Rattle.table_hints.specs.declared.lines.Lines.TheVariants as lines;
ghost use Rattle.binding_file.specs.declared.refusals.FileRefused.TheVariants as refused;

use crate::about::is_told;
use crate::lines::{Lines, first_lines, last_begun, line_behind};
use aftr_base::OutOfMemory;
use binding_file::MOST_FILE_BYTES;
use std::alloc::Global;
use std::str;
use table_costs::{begins_toml, first_place, is_too_costly};

/// The lines where a text that is no TOML goes wrong.
pub(crate) fn of_no_toml(alloc: Global, text: &[u8]) -> Result<Option<Lines>, OutOfMemory>
    ensures lines { length text.now ≤ most_bytes → IfOk result (IsOfNoToml text.now) }
    ensures its_own { IfOk result (λ o. IfSome o (λ _. TableOf text.now (Err refused.NotToml))) }
{
    if text.len() > MOST_FILE_BYTES {
        return Ok(None);
    }
    match str::from_utf8(text) {
        Ok(text) => of_text(alloc, text),
        Err(error) => Ok(Some(Lines::One(line_at(text, error.valid_up_to())))),
    }
}

fn line_at(text: &[u8], at: usize) -> usize
    requires { at ≤ length text.now }
    ensures { result ≡ line_at text.now at }
{
    let (front, _) = text.split_at(at);
    line_behind(front)
}

// The same of a text in UTF-8.
fn of_text(alloc: Global, text: &str) -> Result<Option<Lines>, OutOfMemory>
    requires { IsUtf8 text.now }
    ensures no_line { begins_toml text.now ≡ false → IfOk result (λ o. o ≡ Some (lines.One (line_at text.now (first_place text.now)))) }
    ensures trouble { begins_toml text.now ≡ true → IfOk result (λ o. IfSome o (AreTrouble text.now)) }
    ensures its_own { IfOk result (λ o. IfSome o (λ _. IsReadAsNone text.now)) }
{
    let bytes = text.as_bytes();
    if !begins_toml(alloc, text)? {
        return Ok(Some(Lines::One(line_at(bytes, first_place(text)))));
    }
    if is_too_costly(bytes) || !is_told(bytes) {
        return Ok(None);
    }
    match error_place(alloc, text)? {
        Some(at) => trouble(alloc, bytes, line_at(bytes, at)),
        None => Ok(None),
    }
}

// The place where `toml` found that the text is no document.
fn error_place(alloc: Global, text: &str) -> Result<Option<usize>, OutOfMemory>
    ensures within { IfOk result (λ o. IfSome o (λ at. at ≤ length text.now)) }
    ensures none { IfOk result (λ o. IfSome o (λ _. parse_document text.now ≡ None)) }
{
    match toml::table_from_str(alloc, text) {
        Ok(_) => Ok(None),
        Err(error) => match error.span() {
            Some(span) => Ok(Some(span.start)),
            None => Err(OutOfMemory),
        },
    }
}

// The lines from the one that begins what goes wrong up to the last one, where those before them are a document, and with them none.
fn trouble(alloc: Global, text: &[u8], last: usize) -> Result<Option<Lines>, OutOfMemory>
    requires { 1 ≤ last }
    ensures { IfOk result (λ o. IfSome o (AreTrouble text.now)) }
{
    let first = last_begun(first_lines(text, last - 1));
    if !is_document(alloc, first_lines(text, first - 1))?
        || is_document(alloc, first_lines(text, last))?
    {
        return Ok(None);
    }
    if first < last {
        Ok(Some(Lines::Through(first, last)))
    } else {
        Ok(Some(Lines::One(last)))
    }
}

fn is_document(alloc: Global, text: &[u8]) -> Result<bool, OutOfMemory>
    ensures sound { IfOk result (λ is. is ≡ true → IsSound text.now) }
    ensures broken { IfOk result (λ is. is ≡ false → IsDocument text.now (Err refused.NotToml)) }
{
    match toml::table_from_slice(alloc, text) {
        Ok(_) => Ok(true),
        Err(error) if error.is_memory() => Err(OutOfMemory),
        Err(_) => Ok(false),
    }
}
