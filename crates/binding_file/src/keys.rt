// What one key of a TOML table gives.
ghost use Rattle.std.specs.Prelude.{◌≡◌, ◌≤◌, IfOk, option_map};
ghost use Rattle.toml.specs.View.{view, table_view};
ghost use Rattle.binding_file.specs.Keys.{member_at, required, table_at, number_at, flag_at, IsAddress6At, IsAddress4At, is_one_of, has_other};
ghost use Rattle.binding_file.specs.Parts.{value_or_refusal, data_of, text_from, number_from, IsAddress6From, IsAddress4From};

use crate::names::{Name, Place};
use crate::refusals::FileRefused;
use addr_text::{read_v4, read_v6};
use aftr_base::{V4, V6};
use toml::{Table, Value};

/// The value at a place, given the table where it stands.
pub(crate) fn member_at(table: &Table, place: Place) -> Option<&Value>
    ensures { option_map (λ v. view v.now) result ≡ member_at (table_view table.now) place }
{
    table.get(place.name().key())
}

/// The value at a place that has to be there.
pub(crate) fn required(table: &Table, place: Place) -> Result<&Value, FileRefused>
    ensures { value_or_refusal (λ v. view v.now) result ≡ required place (member_at (table_view table.now) place) }
{
    match member_at(table, place) {
        Some(value) => Ok(value),
        None => Err(FileRefused::Missing(place)),
    }
}

pub fn table_at(table: &Table, place: Place) -> Result<&Table, FileRefused>
    ensures { value_or_refusal (λ t. table_view t.now) result ≡ table_at (table_view table.now) place }
{
    match required(table, place)?.as_table() {
        Some(inner) => Ok(inner),
        None => Err(FileRefused::Kind(place)),
    }
}

/// The text that a place has to have, given what stands there.
fn text_of(member: Option<&Value>, place: Place) -> Result<&str, FileRefused>
    ensures { value_or_refusal (λ t. t.now) result ≡ text_from place (data_of member.entry) }
{
    let Some(value) = member else {
        return Err(FileRefused::Missing(place));
    };
    match value.as_str() {
        Some(text) => Ok(text),
        None => Err(FileRefused::Kind(place)),
    }
}

/// The address that a place has to have, given what stands there.
pub(crate) fn address6_of(member: Option<&Value>, place: Place) -> Result<V6, FileRefused>
    ensures { IsAddress6From (data_of member.entry) place result }
{
    match read_v6(text_of(member, place)?) {
        Ok(address) => Ok(address),
        Err(_) => Err(FileRefused::Address(place)),
    }
}

pub(crate) fn address6_at(table: &Table, place: Place) -> Result<V6, FileRefused>
    ensures { IsAddress6At (table_view table.now) place result }
{
    address6_of(member_at(table, place), place)
}

pub(crate) fn address4_of(member: Option<&Value>, place: Place) -> Result<V4, FileRefused>
    ensures { IsAddress4From (data_of member.entry) place result }
{
    match read_v4(text_of(member, place)?) {
        Ok(address) => Ok(address),
        Err(_) => Err(FileRefused::Address(place)),
    }
}

pub(crate) fn address4_at(table: &Table, place: Place) -> Result<V4, FileRefused>
    ensures { IsAddress4At (table_view table.now) place result }
{
    address4_of(member_at(table, place), place)
}

/// An integer from 0 to `most`, given what stands at its place.
#[tactic(auto, unfolding(crate::specs::Parts::number_from))]
pub(crate) fn number_of(
    member: Option<&Value>,
    place: Place,
    most: u16,
    default: u16,
) -> Result<u16, FileRefused>
    requires { default ≤ most }
    ensures value { result ≡ number_from place most default (data_of member.entry) }
    ensures within { IfOk result (λ n. n ≤ most) }
{
    let Some(value) = member else {
        return Ok(default);
    };
    let Some(number) = value.as_integer() else {
        return Err(FileRefused::Kind(place));
    };
    match u16::try_from(number) {
        Ok(number) if number <= most => Ok(number),
        _ => Err(FileRefused::Range(place)),
    }
}

/// An integer from 0 to `most`.
#[tactic(auto, unfolding(crate::specs::Keys::number_at, crate::specs::Parts::number_from))]
pub(crate) fn number_at(
    table: &Table,
    place: Place,
    most: u16,
    default: u16,
) -> Result<u16, FileRefused>
    requires { default ≤ most }
    ensures value { result ≡ number_at (table_view table.now) place most default }
    ensures within { IfOk result (λ n. n ≤ most) }
{
    number_of(member_at(table, place), place, most, default)
}

/// An integer from 0 to 255, given what stands at its place.
pub(crate) fn byte_of(member: Option<&Value>, place: Place, default: u8) -> Result<u8, FileRefused>
    ensures { result ≡ number_from place 255 default (data_of member.entry) }
{
    Ok(number_of(member, place, 255, u16::from(default))? as u8)
}

/// An integer from 0 to 255.
pub(crate) fn byte_at(table: &Table, place: Place, default: u8) -> Result<u8, FileRefused>
    ensures { result ≡ number_at (table_view table.now) place 255 default }
{
    Ok(number_at(table, place, 255, u16::from(default))? as u8)
}

#[tactic(auto, unfolding(crate::specs::Keys::flag_at))]
pub(crate) fn flag_at(table: &Table, place: Place, default: bool) -> Result<bool, FileRefused>
    ensures { result ≡ flag_at (table_view table.now) place default }
{
    let Some(value) = member_at(table, place) else {
        return Ok(default);
    };
    match value.as_bool() {
        Some(flag) => Ok(flag),
        None => Err(FileRefused::Kind(place)),
    }
}

/// Whether a key is that of one of these names.
pub fn is_one_of(names: &[Name], key: &str) -> bool
    ensures { result ≡ is_one_of names.now key.now }
{
    names.iter().any(|name| name.key() == key)
}

/// Whether the table has a key that is none of these.
pub(crate) fn has_other(names: &[Name], table: &Table) -> bool
    ensures { result ≡ has_other names.now (table_view table.now) }
{
    table.keys().any(|key| !is_one_of(names, key.as_str()))
}
