// Writes a table file: the tree of a table, which `toml` prints.
ghost use Rattle.std.specs.Prelude.{◌≡◌, ◌<◌, ◌≤◌, ◌^◌, pos, IfOk, OnOk};
ghost use Rattle.toml.specs.Data.{boolean, integer, members_depth};
ghost use Rattle.toml.specs.View.{view, table_view};
ghost use Rattle.binding_rules.specs.Tables.{IsValid};
ghost use Rattle.binding_file.specs.Names.{key_of};
ghost use Rattle.binding_file.specs.Files.{IsTree, TextOf};
ghost use Rattle.binding_file.specs.Parts.{edition_number, with_member, IsSpelled, IsSoftwireData, AreBindingsData};

use crate::names::Name;
use addr_text::{write_v4, write_v6};
use aftr_base::{OutOfMemory, Text};
use binding_rules::{Binding, Edition, Softwire, Table};
use std::alloc::Global;
use toml::Value;

/// A text that spells the table, whatever its size, with each key written out. `read_table` reads it as the same table
/// where it has no more than 16,777,216 bytes.
pub fn write_table(alloc: Global, table: &Table) -> Result<Text, OutOfMemory>
    ensures { IfOk result (λ text. TextOf text (Ok table.now)) }
{
    let document = document_of(alloc, table)?;
    match toml::table_to_string(alloc, &document) {
        Ok(text) => Ok(Text::of(text)),
        // There is no date in it that could be invalid.
        Err(_) => Err(OutOfMemory),
    }
}

fn document_of(alloc: Global, table: &Table) -> Result<toml::Table, OutOfMemory>
    ensures tree { IfOk result (λ t. IsTree (table_view t) (Ok table.now)) }
    ensures flat { IfOk result (λ t. members_depth (table_view t) ≤ 2) }
    ensures valid { IsValid table.now }
{
    let version = number(version_of(table.edition()));
    let softwire = softwire_value(alloc, table.softwire())?;
    let bindings = bindings_value(alloc, table.bindings())?;
    let mut document = toml::Table::new(alloc);
    put(alloc, &mut document, Name::Version, version)?;
    put(alloc, &mut document, Name::Softwire, softwire)?;
    put(alloc, &mut document, Name::Binding, bindings)?;
    Ok(document)
}

fn version_of(edition: Edition) -> u16
    ensures { result ≡ edition_number edition }
{
    match edition {
        Edition::One => 1,
        Edition::Two => 2,
    }
}

fn number(number: u16) -> Value
    ensures view { view result ≡ integer (pos number) }
    ensures fits { number < 2 ^ 16 }
{
    Value::Integer(i64::from(number))
}

fn byte(number: u8) -> Value
    ensures view { view result ≡ integer (pos number) }
    ensures fits { number < 2 ^ 8 }
{
    Value::Integer(i64::from(number))
}

fn flag(flag: bool) -> Value
    ensures { view result ≡ boolean flag }
{
    Value::Boolean(flag)
}

/// Puts a value at a key.
pub(crate) fn put(
    alloc: Global,
    table: &mut toml::Table,
    name: Name,
    value: Value,
) -> Result<(), OutOfMemory>
    ensures { OnOk result (table_view table.new ≡ with_member (key_of name) (view value) (table_view table.old)) }
{
    let key = String::from_str(alloc, name.key())?;
    table.insert(key, value)?;
    Ok(())
}

fn softwire_value(alloc: Global, softwire: Softwire) -> Result<Value, OutOfMemory>
    ensures { IfOk result (λ v. IsSoftwireData (view v) softwire) }
{
    let aftr = Value::string(alloc, write_v6(softwire.aftr).as_str())?;
    let own = Value::string(alloc, write_v4(softwire.own).as_str())?;
    let mut table = toml::Table::new(alloc);
    put(alloc, &mut table, Name::Aftr, aftr)?;
    put(alloc, &mut table, Name::Own, own)?;
    put(alloc, &mut table, Name::Mtu6, number(softwire.mtu6))?;
    put(alloc, &mut table, Name::Mtu4, number(softwire.mtu4))?;
    put(alloc, &mut table, Name::HopLimit, byte(softwire.hop_limit))?;
    put(alloc, &mut table, Name::Hairpin, flag(softwire.hairpin))?;
    put(alloc, &mut table, Name::IcmpIn, flag(softwire.icmp_in))?;
    put(alloc, &mut table, Name::ErrorsUp, flag(softwire.errors_up))?;
    put(
        alloc,
        &mut table,
        Name::ErrorsDown,
        flag(softwire.errors_down),
    )?;
    Ok(Value::Table(table))
}

fn bindings_value(alloc: Global, bindings: &[Binding]) -> Result<Value, OutOfMemory>
    ensures { IfOk result (λ v. AreBindingsData (view v) bindings.now) }
{
    let mut values = Vec::with_capacity(alloc, bindings.len())?;
    'bindings: for binding in bindings {
        values.push(binding_value(alloc, *binding)?)?;
    }
    Ok(Value::Array(values))
}

fn binding_value(alloc: Global, binding: Binding) -> Result<Value, OutOfMemory>
    ensures { IfOk result (λ v. IsSpelled (view v) binding) }
{
    let b4 = Value::string(alloc, write_v6(binding.b4).as_str())?;
    let v4 = Value::string(alloc, write_v4(binding.v4).as_str())?;
    let mut table = toml::Table::new(alloc);
    put(alloc, &mut table, Name::B4, b4)?;
    put(alloc, &mut table, Name::Ipv4, v4)?;
    put(alloc, &mut table, Name::Offset, byte(binding.offset))?;
    put(alloc, &mut table, Name::Length, byte(binding.length))?;
    put(alloc, &mut table, Name::Psid, number(binding.psid))?;
    Ok(Value::Table(table))
}
