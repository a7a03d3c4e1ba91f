// Which lines of a file its refusal is about.
ghost use Rattle.std.specs.Prelude.{◌≡◌, ◌≤◌, ◌↔◌, true, length, Result, Some, Err, IfOk, IfSome, IsUtf8, option_map};
ghost use Rattle.std.specs.Option.{option_and_then};
ghost use Rattle.binding_rules.specs.Tables.{BindingTable};
ghost use Rattle.binding_file.specs.Files.{TableOf, most_bytes};
ghost use Rattle.binding_file.specs.declared.refusals.FileRefused.{FileRefused as SpecRefused};
ghost use Rattle.table_hints.specs.Lines.{AreAbout, AreBindingLines, is_told, lines_for, one_of, both_of, subject_at, subject_of, subject_of_rule, tells_bindings};

use crate::headers::header_lines;
use crate::lines::Lines;
use crate::rereading::reread;
use crate::trouble::of_no_toml;
use aftr_base::OutOfMemory;
use binding_file::{FileRefused, MOST_FILE_BYTES, Place, Refused, one_table};
use std::alloc::Global;
use std::str;
use table_costs::{MOST_FREE, has_few_marks, is_too_costly};

/// The most marks outside of comments and quoted texts of a text of more than 131,072 bytes that is read once more for its lines: more
/// than the 458,771 of a table of 65,536 bindings.
const MOST_TOLD: usize = 524_288;

/// What a refusal is about: nothing that has a line of its own, the text, one binding, or two.
#[derive(Clone, Copy)]
enum Subject {
    Nothing,
    Text,
    Binding(usize),
    Bindings(usize, usize),
}

/// The lines of a file that its refusal is about, where they can be told. A text that is no TOML is told by the line of its first byte
/// that is no UTF-8, or its first line where that is no line of TOML, or by the lines between which its trouble stands: those before
/// them are a document by themselves, with them they are none. A binding is told by the line of its header `[[binding]]`, where each
/// has one. Other refusals have no line. Nothing is told where the text has another refusal, as of a file that was changed since, or
/// where to read it once more would take long: it has more than 131,072 bytes, and more than 524,288 of the bytes `.`, `=`, `[`, `{`
/// outside of comments and quoted texts.
/// `OutOfMemory` comes where the allocator has no room for the document or the list of lines.
pub fn line_of(
    alloc: Global,
    text: &[u8],
    refused: &FileRefused,
) -> Result<Option<Lines>, OutOfMemory>
    ensures lines { TableOf text.now (Err refused.now) → IfOk result (AreAbout text.now refused.now) }
    ensures its_own { IfOk result (λ o. IfSome o (λ _. TableOf text.now (Err refused.now))) }
{
    match subject_of(*refused) {
        Subject::Nothing => Ok(None),
        Subject::Text => of_no_toml(alloc, text),
        Subject::Binding(at) => {
            let lines = binding_lines(alloc, text, refused)?;
            Ok(one_of(&lines, at))
        }
        Subject::Bindings(first, second) => {
            let lines = binding_lines(alloc, text, refused)?;
            Ok(both_of(&lines, first, second))
        }
    }
}

fn subject_of(refused: FileRefused) -> Subject
    ensures { result ≡ subject_of refused }
{
    match refused {
        FileRefused::NotToml => Subject::Text,
        FileRefused::Missing(place) => subject_at(place),
        FileRefused::Kind(place) => subject_at(place),
        FileRefused::Address(place) => subject_at(place),
        FileRefused::Range(place) => subject_at(place),
        FileRefused::Rules(rule) => subject_of_rule(rule),
        FileRefused::TooBig
        | FileRefused::TooCostly
        | FileRefused::UnknownKey
        | FileRefused::Version => Subject::Nothing,
    }
}

fn subject_at(place: Place) -> Subject
    ensures { result ≡ subject_at place }
{
    match place {
        Place::Top(_) | Place::Softwire(_) => Subject::Nothing,
        Place::Binding { at, .. } => Subject::Binding(at as usize),
    }
}

fn subject_of_rule(rule: Refused) -> Subject
    ensures { result ≡ subject_of_rule rule }
{
    match rule {
        Refused::Shape { at } => Subject::Binding(at as usize),
        Refused::Psid { at } => Subject::Binding(at as usize),
        Refused::OwnAddress { at } => Subject::Binding(at as usize),
        Refused::MixedShape { first, second } => Subject::Bindings(first as usize, second as usize),
        Refused::Twice { first, second } => Subject::Bindings(first as usize, second as usize),
        Refused::TooMany { .. } | Refused::Mtu | Refused::Hop => Subject::Nothing,
    }
}

/// The line of one binding, of those of all.
pub(crate) fn one_of(lines: &Option<Vec<usize>>, at: usize) -> Option<Lines>
    ensures { result ≡ option_and_then (one_of at) (option_map (λ v. v.items) lines.now) }
{
    let line = lines.as_ref()?.get(at)?;
    Some(Lines::One(*line))
}

fn both_of(lines: &Option<Vec<usize>>, first: usize, second: usize) -> Option<Lines>
    ensures { result ≡ option_and_then (both_of first second) (option_map (λ v. v.items) lines.now) }
{
    let lines = lines.as_ref()?;
    let earlier = lines.get(first)?;
    let later = lines.get(second)?;
    Some(Lines::Both(*earlier, *later))
}

// The lines of the headers of a file's bindings, if each has one and the file has this refusal.
fn binding_lines(
    alloc: Global,
    text: &[u8],
    refused: &FileRefused,
) -> Result<Option<Vec<usize>>, OutOfMemory>
    requires { tells_bindings (subject_of refused.now) ≡ true }
    ensures lines { TableOf text.now (Err refused.now) → IfOk result (λ o. AreBindingLines text.now (option_map (λ v. v.items) o)) }
    ensures its_own { IfOk result (λ o. IfSome o (λ _. TableOf text.now (Err refused.now))) }
{
    one_table();
    if text.len() > MOST_FILE_BYTES || !is_told(text) {
        return Ok(None);
    }
    match str::from_utf8(text) {
        Ok(text) => lines_in(alloc, text, refused),
        Err(_) => Ok(None),
    }
}

fn lines_in(
    alloc: Global,
    text: &str,
    refused: &FileRefused,
) -> Result<Option<Vec<usize>>, OutOfMemory>
    requires size { length text.now ≤ most_bytes }
    requires utf8 { IsUtf8 text.now }
    requires told { is_told text.now ≡ true }
    requires bindings { tells_bindings (subject_of refused.now) ≡ true }
    requires one { (answer other : Result BindingTable SpecRefused) → TableOf text.now answer → TableOf text.now other → answer ≡ other }
    ensures lines { TableOf text.now (Err refused.now) → IfOk result (λ o. AreBindingLines text.now (option_map (λ v. v.items) o)) }
    ensures its_own { IfOk result (λ o. IfSome o (λ _. TableOf text.now (Err refused.now))) }
{
    if is_too_costly(text.as_bytes()) {
        return Ok(None);
    }
    let Some(reading) = reread(alloc, text)? else {
        return Ok(None);
    };
    if has_refusal(reading.refused, *refused) {
        lines_of_bindings(alloc, text, reading.count)
    } else {
        Ok(None)
    }
}

fn has_refusal(found: Option<FileRefused>, refused: FileRefused) -> bool
    ensures { (result ≡ true) ↔ (found ≡ Some refused) }
{
    match found {
        Some(found) => is_same(found, refused),
        None => false,
    }
}

/// The line of each binding's header, if there are as many headers as bindings.
pub(crate) fn lines_of_bindings(
    alloc: Global,
    text: &str,
    count: usize,
) -> Result<Option<Vec<usize>>, OutOfMemory>
    ensures { IfOk result (λ o. option_map (λ v. v.items) o ≡ lines_for text.now count) }
{
    let lines = header_lines(alloc, text.as_bytes())?;
    if lines.len() == count {
        Ok(Some(lines))
    } else {
        Ok(None)
    }
}

// `found == refused`, which is proved of places and of rules, but not at once of all ten causes.
fn is_same(found: FileRefused, refused: FileRefused) -> bool
    ensures { (result ≡ true) ↔ (found ≡ refused) }
{
    match refused {
        FileRefused::TooBig => matches!(found, FileRefused::TooBig),
        FileRefused::NotToml => matches!(found, FileRefused::NotToml),
        FileRefused::Missing(place) =>
            matches!(found, FileRefused::Missing(at) if same_place(at, place)),
        FileRefused::Kind(place) => matches!(found, FileRefused::Kind(at) if same_place(at, place)),
        FileRefused::UnknownKey => matches!(found, FileRefused::UnknownKey),
        FileRefused::Address(place) =>
            matches!(found, FileRefused::Address(at) if same_place(at, place)),
        FileRefused::Range(place) =>
            matches!(found, FileRefused::Range(at) if same_place(at, place)),
        FileRefused::Rules(rule) =>
            matches!(found, FileRefused::Rules(broken) if same_rule(broken, rule)),
        FileRefused::Version => matches!(found, FileRefused::Version),
        FileRefused::TooCostly => matches!(found, FileRefused::TooCostly),
    }
}

fn same_place(found: Place, place: Place) -> bool
    ensures { (result ≡ true) ↔ (found ≡ place) }
{
    found == place
}

fn same_rule(found: Refused, rule: Refused) -> bool
    ensures { (result ≡ true) ↔ (found ≡ rule) }
{
    found == rule
}

/// Whether a text is read once more for its lines.
pub(crate) fn is_told(text: &[u8]) -> bool
    ensures { result ≡ is_told text.now }
{
    text.len() <= MOST_FREE || has_few_marks(text, MOST_TOLD)
}
