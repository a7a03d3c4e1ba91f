// The lines of the tables in force: one for the first table, and one for each load, in the order of the command words.
ghost use Rattle.std.specs.Prelude.{◌≡◌, ◌++◌, IfOk, IsErr, string_bytes};
ghost use Rattle.aftr_base.specs.Appended.{Extends};
ghost use Rattle.aftr_text.specs.Lines.{initial_text, point_text, refused_load_text, unreached_text};

use crate::numbers::{push_count, push_number};
use aftr_base::{OutOfMemory, Text};
use binding_file::{FileRefused, LoadText};
use std::alloc::Global;

/// More bytes than a line has beside the name, unless it tells a refusal: two numbers of ten digits and two words.
const ROOM: usize = 32;

/// The line of the table that is in force from the first record on, by the name of its file, which is any text.
pub fn initial_line(alloc: Global, name: &str) -> Result<Text, OutOfMemory>
    ensures { IfOk result (λ line. line ≡ initial_text name.now) }
{
    let line = format!(in alloc; "0 {name} initial\n")?;
    Ok(Text::of(line))
}

/// The line of a load whose table came into force as `version`, once `point` records were drawn.
pub fn point_line(alloc: Global, version: u32, name: &str, point: u32) -> Result<Text, OutOfMemory>
    ensures { IfOk result (λ line. line ≡ point_text version name.now point) }
{
    let mut line = String::with_capacity(alloc, name.len().saturating_add(ROOM))?;
    push_point_line(&mut line, version, name, point)?;
    Ok(Text::of(line))
}

/// Puts the line of `point_line` at the end of a text. After an `Err` some of it may stand behind what stood there.
pub fn push_point_line(
    text: &mut String,
    version: u32,
    name: &str,
    point: u32,
) -> Result<(), OutOfMemory>
    ensures bytes { IfOk result (λ _. string_bytes text.new ≡ string_bytes text.old ++ point_text version name.now point) }
    ensures kept { IsErr result → Extends (string_bytes text.old) (string_bytes text.new) }
{
    push_number(text, u64::from(version))?;
    text.push_str(" ")?;
    text.push_str(name)?;
    push_count(text, " at ", u64::from(point))?;
    text.push_str("\n")?;
    Ok(())
}

/// The line of a load whose file is no table, and why. A rule of tables stands without the word `rules`, which the status
/// line has.
pub fn refused_line(alloc: Global, name: &str, cause: FileRefused) -> Result<Text, OutOfMemory>
    ensures { IfOk result (λ line. line ≡ refused_load_text name.now cause) }
{
    let mut line = String::with_capacity(alloc, name.len().saturating_add(ROOM))?;
    push_refused_line(alloc, &mut line, name, cause)?;
    Ok(Text::of(line))
}

/// Puts the line of `refused_line` at the end of a text. After an `Err` some of it may stand behind what stood there.
pub fn push_refused_line(
    alloc: Global,
    text: &mut String,
    name: &str,
    cause: FileRefused,
) -> Result<(), OutOfMemory>
    ensures bytes { IfOk result (λ _. string_bytes text.new ≡ string_bytes text.old ++ refused_load_text name.now cause) }
    ensures kept { IsErr result → Extends (string_bytes text.old) (string_bytes text.new) }
{
    let cause = LoadText(cause);
    let told = format!(in alloc; "{cause}")?;
    text.push_str("- ")?;
    text.push_str(name)?;
    text.push_str(" refused ")?;
    text.push_str(told.as_str())?;
    text.push_str("\n")?;
    Ok(())
}

/// The line of a load whose window opens behind the last record.
pub fn unreached_line(alloc: Global, name: &str) -> Result<Text, OutOfMemory>
    ensures { IfOk result (λ line. line ≡ unreached_text name.now) }
{
    let mut line = String::with_capacity(alloc, name.len().saturating_add(ROOM))?;
    push_unreached_line(&mut line, name)?;
    Ok(Text::of(line))
}

/// Puts the line of `unreached_line` at the end of a text. After an `Err` some of it may stand behind what stood there.
pub fn push_unreached_line(text: &mut String, name: &str) -> Result<(), OutOfMemory>
    ensures bytes { IfOk result (λ _. string_bytes text.new ≡ string_bytes text.old ++ unreached_text name.now) }
    ensures kept { IsErr result → Extends (string_bytes text.old) (string_bytes text.new) }
{
    text.push_str("- ")?;
    text.push_str(name)?;
    text.push_str(" not-reached\n")?;
    Ok(())
}
