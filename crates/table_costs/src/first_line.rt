// Whether a text can begin as TOML, by its first line alone.
ghost use Rattle.std.specs.Prelude.{◌≡◌, ◌==◌, ◌≤◌, length, ◌||◌, false, is_some, option_map, IfOk};
ghost use Rattle.toml_parser.specs.Lexical as lexical;
ghost use Rattle.toml_parser.specs.Strings.{key};
ghost use Rattle.toml.specs.Parse as parse;
ghost use Rattle.table_costs.specs.FirstLines.{begins_line, begins_toml, first_place};

use aftr_base::OutOfMemory;
use std::alloc::Global;
use toml_parser::text::{byte_at, first, skip, skip_blank, skip_ws};
use toml_parser::{ParseError, dotted_key, quoted, starts_string, unquoted};

/// Whether behind blank lines and comments there is nothing, or a line of TOML begins. What follows that line is not looked at.
#[tactic(auto, unfolding(crate::specs::FirstLines::begins_toml))]
pub fn begins_toml(alloc: Global, text: &str) -> Result<bool, OutOfMemory>
    ensures { IfOk result (λ is. is ≡ begins_toml text.now) }
{
    let start = skip_blank(skip_bom(text), true);
    if start.is_empty() {
        return Ok(true);
    }
    begins_line(alloc, start)
}

/// Where the first line that is neither blank nor a comment begins.
pub fn first_place(text: &str) -> usize
    ensures { result ≡ first_place text.now }
{
    text.len()
        .saturating_sub(skip_blank(skip_bom(text), true).len())
}

#[tactic(auto, using(crate::proofs::FirstLineLemmas::bom_boundary), unfolding(crate::specs::FirstLines::skip_bom))]
pub fn skip_bom(text: &str) -> &str
    ensures { result.now ≡ parse.skip_bom text.now }
{
    if first(text) == 0xEF && byte_at(text, 1) == 0xBB && byte_at(text, 2) == 0xBF {
        &text[3..]
    } else {
        text
    }
}

fn begins_line(alloc: Global, text: &str) -> Result<bool, OutOfMemory>
    ensures { IfOk result (λ is. is ≡ begins_line text.now) }
{
    if first(text) == b'[' {
        is_header(alloc, text)
    } else {
        begins_pair(alloc, text)
    }
}

// A header, with nothing but a comment behind it.
#[tactic(auto, unfolding(crate::specs::FirstLines::line, crate::specs::FirstLines::expression))]
fn is_header(alloc: Global, text: &str) -> Result<bool, OutOfMemory>
    requires { lexical.first text.now ≡ 91 }
    ensures { IfOk result (λ is. is ≡ is_some (parse.line text.now)) }
{
    if byte_at(text, 1) == b'[' {
        match after_header_key(alloc, skip(text, 2))? {
            Some(rest) if first(rest) == b']' => Ok(ends_line(skip(rest, 1))),
            _ => Ok(false),
        }
    } else {
        match after_header_key(alloc, skip(text, 1))? {
            Some(rest) => Ok(ends_line(rest)),
            None => Ok(false),
        }
    }
}

// A key and `=`, and a value that is whole, or is a list or a table.
fn begins_pair(alloc: Global, text: &str) -> Result<bool, OutOfMemory>
    requires { (lexical.first text.now == 91) ≡ false }
    ensures { IfOk result (λ is. is ≡ begins_line text.now) }
{
    let Some(value) = after_equals(alloc, text)? else {
        return Ok(false);
    };
    if opens(value) {
        return Ok(true);
    }
    match after_atom(alloc, value)? {
        Some(rest) => Ok(ends_line(rest)),
        None => Ok(false),
    }
}

fn opens(value: &str) -> bool
    ensures { result ≡ (lexical.first value.now == 91 || lexical.first value.now == 123) }
{
    matches!(first(value), b'[' | b'{')
}

// What stands behind the key of a header and its first closing bracket, where they are there.
#[tactic(auto, unfolding(crate::specs::FirstLines::header_key))]
fn after_header_key(alloc: Global, text: &str) -> Result<Option<&str>, OutOfMemory>
    ensures { IfOk result (λ rest. option_map (λ r. r.now) rest ≡ option_map (λ read. read.1) (parse.header_key text.now)) }
{
    match after_key(alloc, skip_ws(text))? {
        Some(rest) if first(rest) == b']' => Ok(Some(skip(rest, 1))),
        _ => Ok(None),
    }
}

#[tactic(auto, unfolding(crate::specs::FirstLines::key_equals))]
fn after_equals(alloc: Global, text: &str) -> Result<Option<&str>, OutOfMemory>
    ensures { IfOk result (λ rest. option_map (λ r. r.now) rest ≡ option_map (λ read. read.1) (parse.key_equals text.now)) }
{
    match after_key(alloc, text)? {
        Some(rest) if first(rest) == b'=' => Ok(Some(skip_ws(skip(rest, 1)))),
        _ => Ok(None),
    }
}

fn after_key(alloc: Global, text: &str) -> Result<Option<&str>, OutOfMemory>
    ensures { IfOk result (λ rest. option_map (λ r. r.now) rest ≡ option_map (λ read. read.1) (key text.now)) }
{
    match dotted_key(alloc, text) {
        Ok((_, rest)) => Ok(Some(rest)),
        Err(ParseError::OutOfMemory) => Err(OutOfMemory),
        Err(ParseError::At(_, _, _)) => Ok(None),
    }
}

// What stands behind a value that is neither a list nor a table.
#[tactic(auto, unfolding(crate::specs::FirstLines::atom))]
fn after_atom(alloc: Global, text: &str) -> Result<Option<&str>, OutOfMemory>
    ensures { IfOk result (λ rest. option_map (λ r. r.now) rest ≡ option_map (λ read. read.1) (parse.atom text.now)) }
{
    if starts_string(text) {
        match quoted(alloc, text) {
            Ok((_, rest)) => Ok(Some(rest)),
            Err(ParseError::OutOfMemory) => Err(OutOfMemory),
            Err(ParseError::At(_, _, _)) => Ok(None),
        }
    } else {
        match unquoted(alloc, text) {
            Ok((_, rest)) => Ok(Some(rest)),
            Err(ParseError::OutOfMemory) => Err(OutOfMemory),
            Err(ParseError::At(_, _, _)) => Ok(None),
        }
    }
}

// Whether nothing is left of the line but blanks and a comment.
pub fn ends_line(text: &str) -> bool
    ensures { result ≡ parse.ends_line (lexical.skip_ws text.now) }
{
    let end = skip_ws(text);
    end.is_empty() || matches!(first(end), b'#' | b'\n' | b'\r')
}
