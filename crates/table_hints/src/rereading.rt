// A file that is read once more: why it is no table, and how many bindings it has, from one reading.
ghost use Rattle.std.specs.Prelude.{◌≡◌, ◌≤◌, false, length, Ok, IfOk, IsUtf8, vec_len};
ghost use Rattle.toml.specs.View.{table_view};
ghost use Rattle.binding_rules.specs.Tables.{binding_table};
ghost use Rattle.binding_file.specs.Files.{IsDocument, most_bytes};
ghost use Rattle.binding_file.specs.PlainHeads.{IsPlainTree};
ghost use Rattle.table_costs.specs.Costs.{is_too_costly};
ghost use Rattle.table_hints.specs.Lines.{binding_count};
ghost use Rattle.table_hints.specs.Rereading.{IsRereading, IsRuling, HasRead};

use aftr_base::OutOfMemory;
use binding_file::{
    FileError, FileRefused, Spelled, document_of, elements_of, plain_tree, tree_of,
};
use binding_rules::{TableError, table_of};
use std::alloc::Global;

/// What was read of a text that is TOML.
#[derive(Clone, Copy)]
pub(crate) struct Rereading {
    /// Why it is no table; nothing if it is one.
    pub refused: Option<FileRefused>,
    /// How many bindings its document has.
    pub count: usize,
}

/// What a text within the size says, if it is TOML.
pub(crate) fn reread(alloc: Global, text: &str) -> Result<Option<Rereading>, OutOfMemory>
    requires size { length text.now ≤ most_bytes }
    requires utf8 { IsUtf8 text.now }
    requires cheap { is_too_costly text.now ≡ false }
    ensures { IfOk result (HasRead text.now) }
{
    if let Some(spelled) = plain_tree(alloc, text)? {
        return Ok(Some(plain_reading(alloc, text, spelled)?));
    }
    match document_of(alloc, text) {
        Ok(document) => Ok(Some(tree_reading(alloc, text, &document)?)),
        Err(FileError::Refused(_)) => Ok(None),
        Err(FileError::OutOfMemory) => Err(OutOfMemory),
    }
}

fn plain_reading(alloc: Global, text: &str, spelled: Spelled) -> Result<Rereading, OutOfMemory>
    requires size { length text.now ≤ most_bytes }
    requires utf8 { IsUtf8 text.now }
    requires cheap { is_too_costly text.now ≡ false }
    requires few { vec_len spelled.bindings ≤ most_bytes }
    requires plain { IsPlainTree text.now (binding_table spelled.edition spelled.softwire spelled.bindings.items) }
    ensures { IfOk result (IsRereading text.now) }
{
    let count = spelled.bindings.len();
    let refused = broken_rule(alloc, spelled)?;
    Ok(Rereading { refused, count })
}

fn tree_reading(alloc: Global, text: &str, document: &toml::Table) -> Result<Rereading, OutOfMemory>
    requires size { length text.now ≤ most_bytes }
    requires cheap { is_too_costly text.now ≡ false }
    requires document { IsDocument text.now (Ok (table_view document.now)) }
    ensures { IfOk result (IsRereading text.now) }
{
    let count = binding_count(document);
    let refused = match tree_of(alloc, document) {
        Ok(spelled) => broken_rule(alloc, spelled)?,
        Err(FileError::Refused(refused)) => Some(refused),
        Err(FileError::OutOfMemory) => return Err(OutOfMemory),
    };
    Ok(Rereading { refused, count })
}

// Which rule of tables is broken first.
fn broken_rule(alloc: Global, spelled: Spelled) -> Result<Option<FileRefused>, OutOfMemory>
    requires few { vec_len spelled.bindings ≤ most_bytes }
    ensures { IfOk result (IsRuling (binding_table spelled.edition spelled.softwire spelled.bindings.items)) }
{
    match table_of(alloc, spelled.edition, spelled.softwire, spelled.bindings) {
        Ok(_) => Ok(None),
        Err(TableError::Refused(rule)) => Ok(Some(FileRefused::Rules(rule))),
        Err(TableError::OutOfMemory) => Err(OutOfMemory),
    }
}

/// How many bindings a document has.
pub(crate) fn binding_count(document: &toml::Table) -> usize
    ensures { result ≡ binding_count (table_view document.now) }
{
    match elements_of(document) {
        Ok(values) => values.len(),
        Err(_) => 0,
    }
}
