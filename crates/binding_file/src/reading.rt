// Reads a table file: the document's tree first, then the keys in their order, then the rules of tables.
ghost use Rattle.std.specs.Prelude.{◌≡◌, ◌<◌, ◌≤◌, true, length, Err, IfOk, IfErr, IsUtf8, vec_len};
ghost use Rattle.toml.specs.View.{view, table_view, items_view};
ghost use Rattle.binding_rules.specs.Tables.{binding_table};
ghost use Rattle.binding_file.specs.Files.{top_edition, settings_of, port_set_of, elements_of, are_tables, IsSoftwire};
ghost use Rattle.binding_file.specs.Files.{IsElement, AreBindings, IsDocument, IsTree, Says, TableOf, IsFileCause, most_bytes};
ghost use Rattle.table_costs.specs.Costs.{is_too_costly};
ghost use Rattle.binding_file.specs.Parts.{IsRead, value_or_refusal};
ghost use Rattle.binding_file.specs.declared.refusals.FileError.TheVariants as file_error;
ghost use Rattle.binding_file.specs.declared.refusals.FileRefused.TheVariants as refused;

use crate::element::element_of;
use crate::keys::{
    address4_at, address6_at, byte_at, flag_at, has_other, member_at, number_at, required, table_at,
};
use crate::names::{Name, Place};
use crate::plain::plain_tree;
use crate::refusals::{FileError, FileRefused};
use aftr_base::{OutOfMemory, V4, V6};
use binding_rules::{Binding, Edition, Softwire, Table, table_of};
use std::alloc::Global;
use std::str;
use table_costs::{begins_toml, is_too_costly};
use toml::Value;

/// The most bytes of a table file. One with more is refused as `TooBig`.
pub const MOST_FILE_BYTES: usize = 16_777_216;

/// The keys at the top.
pub const TOP_NAMES: [Name; 3] = [Name::Version, Name::Softwire, Name::Binding];

/// The keys of the settings.
pub const SOFTWIRE_NAMES: [Name; 9] = [
    Name::Aftr,
    Name::Own,
    Name::Mtu6,
    Name::Mtu4,
    Name::HopLimit,
    Name::Hairpin,
    Name::IcmpIn,
    Name::ErrorsUp,
    Name::ErrorsDown,
];

/// The table that a file spells. A refusal is the first in this order: `TooBig`; `NotToml` of a text that is not UTF-8 or whose first line is
/// no TOML; `TooCostly` (see `is_too_costly`); `NotToml` of any other text; of the key `version` `Missing`, `Kind`, `Version`;
/// `UnknownKey` at the top; of `softwire` `Missing`, `Kind`, then its keys in the order of `Name`, each with `Missing`, `Kind` and
/// then `Address` or `Range`, then `UnknownKey` in it; `Kind` of `binding` if it is no array of tables; then each of its elements in
/// order, its keys like those of `softwire`; and last the first refusal by the rules of tables. `OutOfMemory` comes if the allocator
/// has no room for the document, the bindings or the test of the rules.
pub fn read_table(alloc: Global, text: &[u8]) -> Result<Table, FileError>
    ensures table { IfOk result (λ t. TableOf text.now (Ok t)) }
    ensures cause { IfErr result (IsFileCause text.now) }
    ensures too_big { most_bytes < length text.now → result ≡ Err (file_error.Refused refused.TooBig) }
    ensures no_text { length text.now ≤ most_bytes → (IsUtf8 text.now → ⊥) → result ≡ Err (file_error.Refused refused.NotToml) }
{
    if text.len() > MOST_FILE_BYTES {
        return Err(FileError::Refused(FileRefused::TooBig));
    }
    match str::from_utf8(text) {
        Ok(text) => read_text(alloc, text),
        Err(_) => Err(FileError::Refused(FileRefused::NotToml)),
    }
}

// The table of a text within the size.
fn read_text(alloc: Global, text: &str) -> Result<Table, FileError>
    requires size { length text.now ≤ most_bytes }
    requires utf8 { IsUtf8 text.now }
    ensures table { IfOk result (λ t. TableOf text.now (Ok t)) }
    ensures cause { IfErr result (IsFileCause text.now) }
{
    if is_too_costly(text.as_bytes()) {
        return Err(costly_error(alloc, text));
    }
    let spelled = spelled_of(alloc, text)?;
    Ok(table_of(alloc, spelled.edition, spelled.softwire, spelled.bindings)?)
}

/// What a text says, before the rules of tables: read line by line if it has the plain form, else by the document's tree.
fn spelled_of(alloc: Global, text: &str) -> Result<Spelled, FileError>
    requires utf8 { IsUtf8 text.now }
    ensures read { IsRead (λ s. binding_table s.edition s.softwire s.bindings.items) (Says text.now) result }
    ensures few { IfOk result (λ s. vec_len s.bindings ≤ most_bytes) }
{
    match plain_tree(alloc, text) {
        Ok(Some(spelled)) => Ok(spelled),
        Ok(None) => whole_tree(alloc, text),
        Err(OutOfMemory) => Err(FileError::OutOfMemory),
    }
}

fn whole_tree(alloc: Global, text: &str) -> Result<Spelled, FileError>
    requires utf8 { IsUtf8 text.now }
    ensures read { IsRead (λ s. binding_table s.edition s.softwire s.bindings.items) (Says text.now) result }
    ensures few { IfOk result (λ s. vec_len s.bindings ≤ most_bytes) }
{
    let document = document_of(alloc, text)?;
    tree_of(alloc, &document)
}

/// The refusal of a text that costs too much.
fn costly_error(alloc: Global, text: &str) -> FileError
    requires size { length text.now ≤ most_bytes }
    requires utf8 { IsUtf8 text.now }
    requires costly { is_too_costly text.now ≡ true }
    ensures { IsFileCause text.now result }
{
    match begins_toml(alloc, text) {
        Ok(true) => FileError::Refused(FileRefused::TooCostly),
        Ok(false) => FileError::Refused(FileRefused::NotToml),
        Err(OutOfMemory) => FileError::OutOfMemory,
    }
}

/// What a tree says, before the rules of tables.
#[derive(Drop)]
pub struct Spelled {
    pub edition: Edition,
    pub softwire: Softwire,
    pub bindings: Vec<Binding>,
}

/// The document that a text is.
pub fn document_of(alloc: Global, text: &str) -> Result<toml::Table, FileError>
    requires { IsUtf8 text.now }
    ensures read { IsRead (λ t. table_view t) (IsDocument text.now) result }
{
    match toml::table_from_str(alloc, text) {
        Ok(document) => Ok(document),
        Err(error) if error.is_memory() => Err(FileError::OutOfMemory),
        Err(_) => Err(FileError::Refused(FileRefused::NotToml)),
    }
}

/// What a document says, before the rules of tables.
pub fn tree_of(alloc: Global, document: &toml::Table) -> Result<Spelled, FileError>
    ensures read { IsRead (λ s. binding_table s.edition s.softwire s.bindings.items) (IsTree (table_view document.now)) result }
    ensures few { IfOk result (λ s. vec_len s.bindings ≤ most_bytes) }
{
    let edition = edition_of(document)?;
    let softwire = softwire_of(table_at(document, Place::Top(Name::Softwire))?)?;
    let bindings = bindings_of(alloc, document)?;
    Ok(Spelled {
        edition,
        softwire,
        bindings,
    })
}

/// The edition, of a top that has no unknown key.
fn edition_of(document: &toml::Table) -> Result<Edition, FileRefused>
    ensures { result ≡ top_edition (table_view document.now) }
{
    let place = Place::Top(Name::Version);
    let edition = match required(document, place)?.as_integer() {
        Some(1) => Edition::One,
        Some(2) => Edition::Two,
        Some(_) => return Err(FileRefused::Version),
        None => return Err(FileRefused::Kind(place)),
    };
    if has_other(&TOP_NAMES, document) {
        return Err(FileRefused::UnknownKey);
    }
    Ok(edition)
}

pub(crate) fn softwire_of(table: &toml::Table) -> Result<Softwire, FileRefused>
    ensures { IsSoftwire (table_view table.now) result }
{
    let aftr = address6_at(table, Place::Softwire(Name::Aftr))?;
    let own = address4_at(table, Place::Softwire(Name::Own))?;
    settings_of(table, aftr, own)
}

/// The settings behind the two addresses.
#[tactic(auto, unfolding(crate::specs::Files::settings_of))]
fn settings_of(table: &toml::Table, aftr: V6, own: V4) -> Result<Softwire, FileRefused>
    ensures { result ≡ settings_of (table_view table.now) aftr own }
{
    let softwire = Softwire {
        aftr,
        own,
        mtu6: number_at(table, Place::Softwire(Name::Mtu6), 65535, 1500)?,
        mtu4: number_at(table, Place::Softwire(Name::Mtu4), 65535, 1500)?,
        hop_limit: byte_at(table, Place::Softwire(Name::HopLimit), 64)?,
        hairpin: flag_at(table, Place::Softwire(Name::Hairpin), true)?,
        icmp_in: flag_at(table, Place::Softwire(Name::IcmpIn), true)?,
        errors_up: flag_at(table, Place::Softwire(Name::ErrorsUp), false)?,
        errors_down: flag_at(table, Place::Softwire(Name::ErrorsDown), false)?,
    };
    if has_other(&SOFTWIRE_NAMES, table) {
        return Err(FileRefused::UnknownKey);
    }
    Ok(softwire)
}

/// The elements of `binding`, none where the key is not there.
pub fn elements_of(document: &toml::Table) -> Result<&[Value], FileRefused>
    ensures { value_or_refusal (λ values. items_view values.now) result ≡ elements_of (table_view document.now) }
{
    let place = Place::Top(Name::Binding);
    let Some(value) = member_at(document, place) else {
        return Ok(&[]);
    };
    match value.as_array() {
        Some(array) if are_tables(array) => Ok(array),
        _ => Err(FileRefused::Kind(place)),
    }
}

fn are_tables(values: &[Value]) -> bool
    ensures { result ≡ are_tables (items_view values.now) }
{
    values.iter().all(|value| value.is_table())
}

/// The bindings. An array with more elements than a file has bytes never comes from one; `OutOfMemory` would answer it.
fn bindings_of(alloc: Global, document: &toml::Table) -> Result<Vec<Binding>, FileError>
    ensures read { IsRead (λ v. v.items) (AreBindings (table_view document.now)) result }
    ensures few { IfOk result (λ v. vec_len v ≤ most_bytes) }
{
    let values = elements_of(document)?;
    if values.len() > MOST_FILE_BYTES {
        return Err(FileError::OutOfMemory);
    }
    let mut bindings = Vec::with_capacity(alloc, values.len())?;
    'elements: for at in 0..values.len() {
        bindings.push(element_of(at as u32, &values[at])?)?;
    }
    Ok(bindings)
}
