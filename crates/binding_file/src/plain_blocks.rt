// The bindings of a text of the plain form, one after the other, of which no tree is made.
ghost use Rattle.std.specs.Prelude.{◌≡◌, ◌≤◌, IfOk, IfSome, length, vec_len};
ghost use Rattle.toml.specs.Data.{no_members};
ghost use Rattle.toml.specs.View.{view};
ghost use Rattle.binding_file.specs.Files.{most_bytes};
ghost use Rattle.binding_file.specs.Names.{key_of};
ghost use Rattle.binding_file.specs.Parts.{AreFields};
ghost use Rattle.binding_file.specs.PlainBlocks.{AreHeld, IsPut, IsBlock, IsBindingBlock, AreBindingBlocks, ShowsHeld};

use crate::element::{BINDING_NAMES, Fields, binding_of};
use crate::names::Name;
use crate::plain_lines::{behind_binding, pair_at};
use crate::reading::MOST_FILE_BYTES;
use aftr_base::OutOfMemory;
use binding_rules::Binding;
use std::alloc::Global;
use toml::Value;
use toml_parser::text::{first, skip_blank};

/// What stands at each key of a binding.
#[derive(Drop)]
pub(crate) struct Held {
    b4: Option<Value>,
    ipv4: Option<Value>,
    offset: Option<Value>,
    length: Option<Value>,
    psid: Option<Value>,
}

/// The bindings of a text that begins with the header of one and has nothing else; nothing where it has another form, or where one of
/// them is refused.
pub(crate) fn bindings_at(alloc: Global, text: &str) -> Result<Option<Vec<Binding>>, OutOfMemory>
    ensures read { IfOk result (λ o. IfSome o (λ v. AreBindingBlocks text.now v.items)) }
    ensures few { IfOk result (λ o. IfSome o (λ v. vec_len v ≤ most_bytes)) }
{
    let Some((first, after)) = binding_at(alloc, 0, text)? else {
        return Ok(None);
    };
    let mut bindings = Vec::new(alloc);
    bindings.push(first)?;
    let mut rest = after;
    'bindings: loop {
        if skip_blank(rest, true).is_empty() {
            return Ok(Some(bindings));
        }
        if bindings.len() >= MOST_FILE_BYTES {
            return Ok(None);
        }
        let Some((binding, after)) = binding_at(alloc, bindings.len() as u32, rest)? else {
            return Ok(None);
        };
        bindings.push(binding)?;
        rest = after;
    }
}

// One binding with its header, and the text behind it.
fn binding_at(alloc: Global, at: u32, text: &str) -> Result<Option<(Binding, &str)>, OutOfMemory>
    ensures { IfOk result (λ o. IfSome o (λ p. IsBindingBlock at text.now p.0 p.1.now)) }
{
    let Some(body) = behind_binding(skip_blank(text, true)) else {
        return Ok(None);
    };
    let Some((held, rest)) = held_at(alloc, body)? else {
        return Ok(None);
    };
    match binding_of(at, fields_in(&held)) {
        Ok(binding) => Ok(Some((binding, rest))),
        Err(_) => Ok(None),
    }
}

// The keys of a binding up to the next header or the end.
fn held_at(alloc: Global, text: &str) -> Result<Option<(Held, &str)>, OutOfMemory>
    ensures read { IfOk result (λ o. IfSome o (λ p. IsBlock text.now p.0 p.1.now)) }
    ensures within { IfOk result (λ o. IfSome o (λ p. length p.1.now ≤ length text.now)) }
{
    let mut held = nothing_held();
    let mut rest = text;
    'lines: loop {
        let start = skip_blank(rest, true);
        if start.is_empty() || first(start) == b'[' {
            return Ok(Some((held, rest)));
        }
        let Some(((key, value), after)) = pair_at(alloc, start)? else {
            return Ok(None);
        };
        let Some(name) = name_in(&BINDING_NAMES, key.as_str()) else {
            return Ok(None);
        };
        let Some(more) = put(held, name, value) else {
            return Ok(None);
        };
        held = more;
        rest = after;
    }
}

/// The one of these names that has this key.
pub(crate) fn name_in(names: &[Name], key: &str) -> Option<Name>
    ensures { IfSome result (λ name. key_of name ≡ key.now) }
{
    'names: for name in names {
        if name.key() == key {
            return Some(*name);
        }
    }
    None
}

#[tactic(auto, unfolding(crate::specs::Keys::has_other))]
fn nothing_held() -> Held
    ensures { AreHeld result no_members }
{
    Held {
        b4: None,
        ipv4: None,
        offset: None,
        length: None,
        psid: None,
    }
}

fn fields_in(held: &Held) -> Fields<'_>
    ensures { ShowsHeld held.now result }
{
    Fields {
        b4: held.b4.as_ref(),
        ipv4: held.ipv4.as_ref(),
        offset: held.offset.as_ref(),
        length: held.length.as_ref(),
        psid: held.psid.as_ref(),
        has_other: false,
    }
}

// The same with a value at one more key; nothing where that has one already.
fn put(held: Held, name: Name, value: Value) -> Option<Held>
    ensures { IfSome result (IsPut held name (view value)) }
{
    match name {
        Name::B4 if held.b4.is_none() => Some(Held {
            b4: Some(value),
            ..held
        }),
        Name::Ipv4 if held.ipv4.is_none() => Some(Held {
            ipv4: Some(value),
            ..held
        }),
        Name::Offset if held.offset.is_none() => Some(Held {
            offset: Some(value),
            ..held
        }),
        Name::Length if held.length.is_none() => Some(Held {
            length: Some(value),
            ..held
        }),
        Name::Psid if held.psid.is_none() => Some(Held {
            psid: Some(value),
            ..held
        }),
        _ => None,
    }
}
