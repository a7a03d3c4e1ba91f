// Reads a text of the plain form line by line: `version`, then `[softwire]` and its keys, then `[[binding]]` and its keys, and so on. The
// keys and values are those that `toml_parser` reads; no tree is made of the bindings, of which there may be many.
ghost use Rattle.std.specs.Prelude.{◌≡◌, ◌≤◌, IfOk, IfSome, vec_len};
ghost use Rattle.toml.specs.View.{table_view};
ghost use Rattle.binding_rules.specs.Tables.{binding_table};
ghost use Rattle.binding_file.specs.Files.{most_bytes};
ghost use Rattle.binding_file.specs.PlainHeads.{IsEditionLine, AreSettings, AreMembers, IsPlainTree};

use crate::keys::member_at;
use crate::names::{Name, Place};
use crate::plain_blocks::{bindings_at, name_in};
use crate::plain_lines::{behind_settings, pair_at};
use crate::reading::{SOFTWIRE_NAMES, Spelled, softwire_of};
use crate::writing::put;
use aftr_base::OutOfMemory;
use binding_rules::{Edition, Softwire};
use std::alloc::Global;
use table_costs::skip_bom;
use toml::Table;
use toml_parser::text::{first, skip_blank};

/// What a text of the plain form says; nothing where it has another form, or says no table.
pub fn plain_tree(alloc: Global, text: &str) -> Result<Option<Spelled>, OutOfMemory>
    ensures read { IfOk result (λ o. IfSome o (λ s. IsPlainTree text.now (binding_table s.edition s.softwire s.bindings.items))) }
    ensures few { IfOk result (λ o. IfSome o (λ s. vec_len s.bindings ≤ most_bytes)) }
{
    let Some((edition, rest)) = edition_at(alloc, skip_bom(text))? else {
        return Ok(None);
    };
    let Some(body) = behind_settings(skip_blank(rest, true)) else {
        return Ok(None);
    };
    let Some((softwire, rest)) = settings_at(alloc, body)? else {
        return Ok(None);
    };
    let Some(bindings) = bindings_at(alloc, rest)? else {
        return Ok(None);
    };
    Ok(Some(Spelled {
        edition,
        softwire,
        bindings,
    }))
}

// The line of the edition, and the text behind it.
fn edition_at(alloc: Global, text: &str) -> Result<Option<(Edition, &str)>, OutOfMemory>
    ensures { IfOk result (λ o. IfSome o (λ p. IsEditionLine text.now p.0 p.1.now)) }
{
    let start = skip_blank(text, true);
    if start.is_empty() || first(start) == b'[' {
        return Ok(None);
    }
    let Some(((key, value), after)) = pair_at(alloc, start)? else {
        return Ok(None);
    };
    if key.as_str() != "version" {
        return Ok(None);
    }
    match value.as_integer() {
        Some(1) => Ok(Some((Edition::One, after))),
        Some(2) => Ok(Some((Edition::Two, after))),
        _ => Ok(None),
    }
}

// The settings, and the text behind their keys.
fn settings_at(alloc: Global, text: &str) -> Result<Option<(Softwire, &str)>, OutOfMemory>
    ensures { IfOk result (λ o. IfSome o (λ p. AreSettings text.now p.0 p.1.now)) }
{
    let Some((table, rest)) = members_at(alloc, text)? else {
        return Ok(None);
    };
    match softwire_of(&table) {
        Ok(softwire) => Ok(Some((softwire, rest))),
        Err(_) => Ok(None),
    }
}

// The keys of the settings up to the next header or the end.
fn members_at(alloc: Global, text: &str) -> Result<Option<(Table, &str)>, OutOfMemory>
    ensures { IfOk result (λ o. IfSome o (λ p. AreMembers text.now (table_view p.0) p.1.now)) }
{
    let mut table = Table::new(alloc);
    let mut rest = text;
    'lines: loop {
        let start = skip_blank(rest, true);
        if start.is_empty() || first(start) == b'[' {
            return Ok(Some((table, rest)));
        }
        let Some(((key, value), after)) = pair_at(alloc, start)? else {
            return Ok(None);
        };
        let Some(name) = name_in(&SOFTWIRE_NAMES, key.as_str()) else {
            return Ok(None);
        };
        if member_at(&table, Place::Softwire(name)).is_some() {
            return Ok(None);
        }
        put(alloc, &mut table, name, value)?;
        rest = after;
    }
}
