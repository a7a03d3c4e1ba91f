// One element of `binding`: what stands at each of its keys, found in one walk over them, and the binding that this makes.
ghost use Rattle.std.specs.Prelude.{◌≡◌, if◌then◌else◌, Some, None};
ghost use Rattle.std.specs.Option.{option_or};
ghost use Rattle.toml.specs.View.{view, table_view};
ghost use Rattle.binding_file.specs.Files.{IsElement};
ghost use Rattle.binding_file.specs.Parts.{data_of, port_set_from, AreFields, IsBindingFrom, IsWith};

use crate::keys::{address4_of, address6_of, byte_of, number_of};
use crate::names::{Name, Place};
use crate::refusals::FileRefused;
use aftr_base::{V4, V6};
use binding_rules::Binding;
use toml::{Table, Value};

/// The keys of a binding.
pub const BINDING_NAMES: [Name; 5] = [Name::B4, Name::Ipv4, Name::Offset, Name::Length, Name::Psid];

/// What stands at each key of a binding, and whether there is another key.
#[derive(Clone, Copy)]
pub(crate) struct Fields<'a> {
    pub b4: Option<&'a Value>,
    pub ipv4: Option<&'a Value>,
    pub offset: Option<&'a Value>,
    pub length: Option<&'a Value>,
    pub psid: Option<&'a Value>,
    pub has_other: bool,
}

/// The binding of the element that has this place in the array.
pub(crate) fn element_of(at: u32, value: &Value) -> Result<Binding, FileRefused>
    ensures { IsElement at (view value.now) result }
{
    match value.as_table() {
        Some(table) => binding_of(at, fields_of(table)),
        None => Err(FileRefused::Kind(Place::Top(Name::Binding))),
    }
}

pub(crate) fn binding_of(at: u32, fields: Fields<'_>) -> Result<Binding, FileRefused>
    ensures { IsBindingFrom at fields.entry result }
{
    let b4 = address6_of(fields.b4, Place::Binding { at, name: Name::B4 })?;
    let v4 = address4_of(
        fields.ipv4,
        Place::Binding {
            at,
            name: Name::Ipv4,
        },
    )?;
    port_set_of(at, fields, b4, v4)
}

/// A binding's port set, behind its two addresses.
fn port_set_of(at: u32, fields: Fields<'_>, b4: V6, v4: V4) -> Result<Binding, FileRefused>
    ensures { result ≡ port_set_from at fields.entry b4 v4 }
{
    let offset = Place::Binding {
        at,
        name: Name::Offset,
    };
    let length = Place::Binding {
        at,
        name: Name::Length,
    };
    let psid = Place::Binding {
        at,
        name: Name::Psid,
    };
    let binding = Binding {
        b4,
        v4,
        offset: byte_of(fields.offset, offset, 0)?,
        length: byte_of(fields.length, length, 0)?,
        psid: number_of(fields.psid, psid, 65535, 0)?,
    };
    if fields.has_other {
        return Err(FileRefused::UnknownKey);
    }
    Ok(binding)
}

fn fields_of(table: &Table) -> Fields<'_>
    ensures { AreFields result (table_view table.now) }
{
    let mut fields = Fields {
        b4: None,
        ipv4: None,
        offset: None,
        length: None,
        psid: None,
        has_other: false,
    };
    'keys: for (key, value) in table {
        fields = with_key(fields, key.as_str(), value);
    }
    fields
}

/// The fields, and what stands at one more key.
fn with_key<'a>(fields: Fields<'a>, key: &str, value: &'a Value) -> Fields<'a>
    ensures { IsWith result fields.entry key.now (view value.now) }
{
    let is_b4 = Name::B4.key() == key;
    let is_ipv4 = Name::Ipv4.key() == key;
    let is_offset = Name::Offset.key() == key;
    let is_length = Name::Length.key() == key;
    let is_psid = Name::Psid.key() == key;
    let is_known = is_b4 | (is_ipv4 | (is_offset | (is_length | is_psid)));
    Fields {
        b4: found(fields.b4, is_b4, value),
        ipv4: found(fields.ipv4, is_ipv4, value),
        offset: found(fields.offset, is_offset, value),
        length: found(fields.length, is_length, value),
        psid: found(fields.psid, is_psid, value),
        has_other: fields.has_other | !is_known,
    }
}

/// What was found before or, where it stands here, this value.
fn found<'a>(before: Option<&'a Value>, is_here: bool, value: &'a Value) -> Option<&'a Value>
    ensures { data_of result ≡ option_or (data_of before.entry) (if is_here then Some (view value.now) else None) }
{
    if is_here {
        before.or(Some(value))
    } else {
        before
    }
}
