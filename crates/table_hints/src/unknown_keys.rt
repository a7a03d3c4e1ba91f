// Which key of a file is the first that its table does not have, and where it stands.
ghost use Rattle.std.specs.Prelude.{◌≡◌, true, false, Err, IfOk, IsUtf8, is_some, option_map};
ghost use Rattle.toml.specs.View.{view, table_view, items_view};
ghost use Rattle.binding_file.specs.Files.{TableOf};
ghost use Rattle.table_hints.specs.Lines.{is_told};
ghost use Rattle.binding_file.specs.declared.refusals.FileRefused.TheVariants as refused;
ghost use Rattle.table_hints.specs.UnknownKeys.{IsUnknownKey, is_looked_at, first_unknown, found_of, softwire_key};
ghost use Rattle.table_hints.specs.UnknownKeys.{in_bindings, binding_key, line_in, told_key};

use crate::about::{is_told, lines_of_bindings, one_of};
use crate::keys::other_key;
use crate::lines::Lines;
use crate::rereading::binding_count;
use aftr_base::{OutOfMemory, Text};
use binding_file::{
    BINDING_NAMES, FileError, MOST_FILE_BYTES, Name, Place, SOFTWIRE_NAMES, TOP_NAMES, document_of,
    elements_of, table_at,
};
use std::alloc::Global;
use std::str;
use table_costs::is_too_costly;
use toml::Value;

/// A table of a file: its top, `softwire`, or the element of `binding` with this place, counted from 0.
#[derive(Clone, Copy, Debug, PartialEq, Eq)]
pub enum KeyPlace {
    Top,
    Softwire,
    Binding(usize),
}

/// A key that its table does not have.
#[derive(Debug, Drop)]
pub struct UnknownKey {
    pub place: KeyPlace,
    pub key: Text,
    /// The line of the header of its binding, where it can be told.
    pub line: Option<Lines>,
}

#[derive(Clone, Copy)]
struct Found<'a> {
    place: KeyPlace,
    key: &'a str,
}

/// The first key of a file that its table does not have: at the top, else in `softwire`, else in the first binding that has one; of
/// several in one table the first in the order of their bytes. A file that is refused as `UnknownKey` has one, and others may. Nothing
/// is told of a text that is too big, no TOML, or too costly, nor where to read it once more would take long, as by `line_of`.
/// `OutOfMemory` comes where the allocator has no room for the document, the list of lines or the key.
pub fn unknown_key(alloc: Global, text: &[u8]) -> Result<Option<UnknownKey>, OutOfMemory>
    ensures first { IfOk result (IsUnknownKey text.now) }
    ensures told { TableOf text.now (Err refused.UnknownKey) → is_told text.now ≡ true → IfOk result (λ o. is_some o ≡ true) }
{
    key_of(alloc, text)
}

fn key_of(alloc: Global, text: &[u8]) -> Result<Option<UnknownKey>, OutOfMemory>
    ensures { IfOk result (IsUnknownKey text.now) }
{
    if !is_looked_at(text) {
        return Ok(None);
    }
    match str::from_utf8(text) {
        Ok(text) => unknown_in(alloc, text),
        Err(_) => Ok(None),
    }
}

fn is_looked_at(text: &[u8]) -> bool
    ensures { result ≡ is_looked_at text.now }
{
    text.len() <= MOST_FILE_BYTES && !is_too_costly(text) && is_told(text)
}

// The same of a text in UTF-8 that is looked at.
fn unknown_in(alloc: Global, text: &str) -> Result<Option<UnknownKey>, OutOfMemory>
    requires utf8 { IsUtf8 text.now }
    requires looked_at { is_looked_at text.now ≡ true }
    ensures { IfOk result (IsUnknownKey text.now) }
{
    let document = match document_of(alloc, text) {
        Ok(document) => document,
        Err(FileError::Refused(_)) => return Ok(None),
        Err(FileError::OutOfMemory) => return Err(OutOfMemory),
    };
    match first_unknown(&document) {
        Some(found) => Ok(Some(told_key(alloc, text, &document, found)?)),
        None => Ok(None),
    }
}

fn first_unknown(document: &toml::Table) -> Option<Found<'_>>
    ensures { option_map found_of result ≡ first_unknown (table_view document.now) }
{
    if let Some(key) = other_key(&TOP_NAMES, document) {
        let place = KeyPlace::Top;
        return Some(Found { place, key });
    }
    if let Some(key) = softwire_key(document) {
        let place = KeyPlace::Softwire;
        return Some(Found { place, key });
    }
    match elements_of(document) {
        Ok(values) => in_bindings(values),
        Err(_) => None,
    }
}

fn softwire_key(document: &toml::Table) -> Option<&str>
    ensures { option_map (λ k. k.now) result ≡ softwire_key (table_view document.now) }
{
    match table_at(document, Place::Top(Name::Softwire)) {
        Ok(softwire) => other_key(&SOFTWIRE_NAMES, softwire),
        Err(_) => None,
    }
}

fn in_bindings(values: &[Value]) -> Option<Found<'_>>
    ensures { option_map found_of result ≡ in_bindings 0 (items_view values.now) }
{
    let mut at = 0;
    let mut rest = values;
    'bindings: while let [value, after @ ..] = rest {
        if let Some(key) = binding_key(value) {
            let place = KeyPlace::Binding(at);
            return Some(Found { place, key });
        }
        at += 1;
        rest = after;
    }
    None
}

fn binding_key(value: &Value) -> Option<&str>
    ensures { option_map (λ k. k.now) result ≡ binding_key (view value.now) }
{
    match value.as_table() {
        Some(table) => other_key(&BINDING_NAMES, table),
        None => None,
    }
}

// What is told of a key that was found.
fn told_key(
    alloc: Global,
    text: &str,
    document: &toml::Table,
    found: Found<'_>,
) -> Result<UnknownKey, OutOfMemory>
    ensures { IfOk result (λ told. told ≡ told_key text.now (table_view document.now) (found_of found.entry)) }
{
    let line = line_in(alloc, text, document, found.place)?;
    Ok(UnknownKey {
        place: found.place,
        key: Text::copy(alloc, found.key)?,
        line,
    })
}

fn line_in(
    alloc: Global,
    text: &str,
    document: &toml::Table,
    place: KeyPlace,
) -> Result<Option<Lines>, OutOfMemory>
    ensures { IfOk result (λ line. line ≡ line_in text.now (table_view document.now) place) }
{
    match place {
        KeyPlace::Top | KeyPlace::Softwire => Ok(None),
        KeyPlace::Binding(at) => {
            let lines = lines_of_bindings(alloc, text, binding_count(document))?;
            Ok(one_of(&lines, at))
        }
    }
}
