// One line of a text of the plain form, as `toml_parser` reads it.
ghost use Rattle.std.specs.Prelude.{◌≡◌, ◌==◌, ◌||◌, ◌<◌, ◌+◌, ◌++◌, false, length, IfOk, IfSome, string_bytes, [], ◌∷◌, codes, Some};
ghost use Rattle.toml_parser.specs.Lexical as lexical;
ghost use Rattle.toml.specs.Parse as parse;
ghost use Rattle.toml.specs.Tables.{array_table, std_table};
ghost use Rattle.toml.specs.View.{view};
ghost use Rattle.binding_file.specs.Plain.{ReadsOne, IsShorter, pair_view, ReadsHeader};

use aftr_base::OutOfMemory;
use std::alloc::Global;
use table_costs::ends_line;
use toml::Value;
use toml_parser::text::{first, skip, skip_ws};
use toml_parser::{Key, ParseError, Scalar, dotted_key, quoted, starts_string, unquoted};

/// A key alone, `=` and an atom, which have their line to themselves; nothing where the line has another form.
pub(crate) fn pair_at(
    alloc: Global,
    text: &str,
) -> Result<Option<((String, Value), &str)>, OutOfMemory>
    requires { (lexical.first text.now == 91) ≡ false }
    ensures reads { IfOk result (λ o. ReadsOne pair_view o (parse.line text.now)) }
    ensures shorter { IfOk result (IsShorter text.now) }
{
    let Some((key, value)) = key_at(alloc, text)? else {
        return Ok(None);
    };
    if opens(value) {
        return Ok(None);
    }
    match atom_at(alloc, value)? {
        Some((value, rest)) if ends_line(rest) => Ok(Some(((key, value), rest))),
        _ => Ok(None),
    }
}

// A key alone and `=`, and what stands behind them.
#[tactic(auto, unfolding(crate::specs::Plain::key_equals))]
fn key_at(alloc: Global, text: &str) -> Result<Option<(String, &str)>, OutOfMemory>
    ensures reads { IfOk result (λ o. ReadsOne (λ k. ([], string_bytes k)) o (parse.key_equals text.now)) }
    ensures shorter { IfOk result (IsShorter text.now) }
{
    match dotted_key(alloc, text) {
        Ok((Key { path, last }, rest)) => {
            if path.is_empty() && first(rest) == b'=' {
                Ok(Some((last, skip_ws(skip(rest, 1)))))
            } else {
                Ok(None)
            }
        }
        Err(ParseError::OutOfMemory) => Err(OutOfMemory),
        Err(ParseError::At(_, _, _)) => Ok(None),
    }
}

fn opens(value: &str) -> bool
    ensures { result ≡ (lexical.first value.now == 91 || lexical.first value.now == 123) }
{
    matches!(first(value), b'[' | b'{')
}

#[tactic(auto, unfolding(crate::specs::Plain::atom))]
fn atom_at(alloc: Global, text: &str) -> Result<Option<(Value, &str)>, OutOfMemory>
    ensures reads { IfOk result (λ o. ReadsOne view o (parse.atom text.now)) }
    ensures shorter { IfOk result (IsShorter text.now) }
{
    if starts_string(text) {
        match quoted(alloc, text) {
            Ok((said, rest)) => Ok(Some((Value::String(said), rest))),
            Err(ParseError::OutOfMemory) => Err(OutOfMemory),
            Err(ParseError::At(_, _, _)) => Ok(None),
        }
    } else {
        match unquoted(alloc, text) {
            Ok((scalar, rest)) => Ok(Some((value_of(scalar), rest))),
            Err(ParseError::OutOfMemory) => Err(OutOfMemory),
            Err(ParseError::At(_, _, _)) => Ok(None),
        }
    }
}

fn value_of(scalar: Scalar) -> Value
    ensures { view result ≡ parse.scalar_data scalar }
{
    match scalar {
        Scalar::Boolean(b) => Value::Boolean(b),
        Scalar::Integer(n) => Value::Integer(n),
        Scalar::Float(x) => Value::Float(x),
        Scalar::Datetime(datetime) => Value::Datetime(datetime),
    }
}

/// What stands behind the header of a binding, which has its line to itself.
pub(crate) fn behind_binding(text: &str) -> Option<&str>
    ensures { ReadsHeader (([], codes "binding"), array_table) text.now result }
{
    let rest = behind_word(text, "[[binding]]")?;
    if ends_line(rest) { Some(rest) } else { None }
}

/// What stands behind the header of the settings, which has its line to itself.
pub(crate) fn behind_settings(text: &str) -> Option<&str>
    ensures { ReadsHeader (([], codes "softwire"), std_table) text.now result }
{
    let rest = behind_word(text, "[softwire]")?;
    if ends_line(rest) { Some(rest) } else { None }
}

fn behind_word<'a>(text: &'a str, word: &str) -> Option<&'a str>
    ensures { IfSome result (λ rest. (text.now ≡ word.now ++ rest.now) × (length rest.now + length word.now ≡ length text.now)) }
{
    text.strip_prefix(word)
}
