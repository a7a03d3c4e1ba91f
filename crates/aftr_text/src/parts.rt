// The words behind a command's own: its arguments, and the values of its options.
ghost use Rattle.std.specs.Prelude.{◌≡◌, ◌≢◌, ◌++◌, ◌∷◌, [], ℕ, List, IfOk, IfErr, IsTrue, ◌↔◌, false, Some, None, option_and_then, option_map};
ghost use Rattle.aftr_text.specs.Parts.{Kind as SpecKind, Parts as SpecParts, in_front, kind_of, no_parts, parts_of};
ghost use Rattle.aftr_text.specs.Parts.{plain_kind, slot_of, texts, with_value, ends, unknown, wants};
ghost use Rattle.aftr_text.specs.Commands.{line as line_of};
ghost use Rattle.aftr_text.specs.declared.parts.Slot.{Slot as SpecSlot};
ghost use Rattle.aftr_text.specs.Seen.{joined, kind_seen};
ghost use Rattle.aftr_text.specs.Faults.{EndsInOption, IsFaultBehind, IsStray};
ghost use Rattle.aftr_text.specs.declared.faults.Fault.{Fault as SpecFault};
ghost use Rattle.aftr_text.specs.declared.faults.Fault.TheVariants as fault;
ghost use Rattle.aftr_text.specs.declared.faults.JobError.TheVariants as error_is;

use crate::faults::{Fault, JobError};
use aftr_base::OutOfMemory;
use std::alloc::Global;
use std::marker::Model;

/// Behind this word all words are arguments.
const MARK: &str = "--";

/// The options of `run`.
#[derive(Clone, Copy, Debug, PartialEq, Eq)]
pub enum Slot {
    /// `--workers N`
    Workers,
    /// `--errors N`
    Errors,
}

/// What one word is by itself.
#[derive(Clone, Copy, Debug)]
enum Kind<'a> {
    /// The mark behind which all words are arguments.
    Ends,
    /// An option whose value is the next word.
    Wants(Slot),
    /// An option with its value.
    Gives(Slot, &'a str),
    /// It begins like an option, and is none.
    Unknown,
    Argument,
}

/// The words behind a command's own, taken apart.
#[derive(Debug, Drop)]
pub(crate) struct Parts<'a> {
    arguments: Vec<&'a str>,
    workers: Vec<&'a str>,
    errors: Vec<&'a str>,
}

impl<'a> Model for Parts<'a> {
    ghost use Rattle.aftr_text.specs.Parts.{Parts as SpecParts, texts};

    ghost Value = { SpecParts };

    ghost view = { λ p. record { arguments = texts p.arguments.items; workers = texts p.workers.items; errors = texts p.errors.items } };
}

impl<'a> Parts<'a> {
    pub(crate) fn none(alloc: Global) -> Self
        ensures { result ≡ no_parts }
    {
        Parts {
            arguments: Vec::new(alloc),
            workers: Vec::new(alloc),
            errors: Vec::new(alloc),
        }
    }

    // One value more for an option.
    fn give(&mut self, slot: Slot, value: &'a str) -> Result<(), OutOfMemory>
        ensures { IfOk result (λ _. self.new ≡ in_front self.old (with_value slot value.entry.now no_parts)) }
    {
        match slot {
            Slot::Workers => self.workers.push(value)?,
            Slot::Errors => self.errors.push(value)?,
        }
        Ok(())
    }

    // All these words are arguments.
    fn take_rest(&mut self, words: &[&'a str]) -> Result<(), OutOfMemory>
        ensures { IfOk result (λ _. self.new ≡ in_front self.old (record no_parts { arguments = texts words.now })) }
    {
        self.arguments.extend_from_slice(words)?;
        Ok(())
    }

    // One word more, behind an option that waits for its value or behind none; the answer is the option that waits then.
    fn take(
        &mut self,
        waiting: Option<Slot>,
        word: &'a str,
        place: usize,
    ) -> Result<Option<Slot>, JobError>
        requires inside { waiting ≡ None → kind_of word.now ≢ ends }
        ensures taken { IfOk result (λ next. (rest : List (List ℕ)) →
            joined self.new (parts_of next rest) ≡ joined self.old (parts_of waiting (word.entry.now ∷ rest))) }
        ensures waits { IfOk result (λ next. (slot : SpecSlot) → next ≡ Some slot → (waiting ≡ None) × (kind_of word.entry.now ≡ wants slot)) }
        ensures usage { IfErr result (λ e. e ≢ error_is.OutOfMemory → (rest : List (List ℕ)) → parts_of waiting (word.entry.now ∷ rest) ≡ None) }
        ensures stray { IfErr result (λ e. e ≢ error_is.OutOfMemory →
            (e ≡ error_is.Refused (fault.Stray place)) × (waiting ≡ None) × (kind_of word.entry.now ≡ unknown)) }
    {
        if let Some(slot) = waiting {
            self.give(slot, word)?;
            return Ok(None);
        }
        match read_kind(word) {
            Kind::Wants(slot) => Ok(Some(slot)),
            Kind::Gives(slot, value) => {
                self.give(slot, value)?;
                Ok(None)
            }
            Kind::Argument => {
                self.arguments.push(word)?;
                Ok(None)
            }
            Kind::Ends | Kind::Unknown => Err(JobError::Refused(Fault::Stray(place))),
        }
    }

    /// Whether an option is given.
    pub(crate) fn has_options(&self) -> bool
        ensures { (result ≡ false) ↔ ((self.now.workers ≡ []) × (self.now.errors ≡ [])) }
    {
        !self.workers.is_empty() || !self.errors.is_empty()
    }

    pub(crate) fn arguments(&self) -> &[&'a str]
        ensures { texts result.now ≡ self.now.arguments }
    {
        &self.arguments
    }

    pub(crate) fn workers(&self) -> &[&'a str]
        ensures { texts result.now ≡ self.now.workers }
    {
        &self.workers
    }

    pub(crate) fn errors(&self) -> &[&'a str]
        ensures { texts result.now ≡ self.now.errors }
    {
        &self.errors
    }

    /// The command and its arguments, with the mark between them.
    pub(crate) fn line(&self, alloc: Global, command: &'a str) -> Result<Vec<&'a str>, OutOfMemory>
        ensures { IfOk result (λ line. texts line.items ≡ line_of command.entry.now self.now.arguments) }
    {
        let mut line = Vec::with_capacity(alloc, self.arguments.len().saturating_add(2))?;
        line.push(command)?;
        line.push(MARK)?;
        line.extend_from_slice(&self.arguments)?;
        Ok(line)
    }
}

/// The words taken apart, from left to right. Refused where an option lacks its value, or a word in front of `--` begins
/// with `-` and is no option.
pub(crate) fn split<'a>(alloc: Global, words: &[&'a str]) -> Result<Parts<'a>, JobError>
    ensures parts { IfOk result (λ parts. parts_of None (texts words.now) ≡ Some parts) }
    ensures usage { IfErr result (λ e. e ≢ error_is.OutOfMemory → parts_of None (texts words.now) ≡ None) }
    ensures cause { IfErr result (λ e. (f : SpecFault) → e ≡ error_is.Refused f → (command : List ℕ) → IsFaultBehind command (texts words.now) f) }
{
    let mut parts = Parts::none(alloc);
    let mut waiting = None;
    'words: for at in 0..words.len() {
        if is_mark(waiting, words[at]) {
            parts.take_rest(&words[at + 1..])?;
            return Ok(parts);
        }
        waiting = parts.take(waiting, words[at], at)?;
    }
    match waiting {
        Some(slot) => Err(JobError::Refused(Fault::NoValue(slot))),
        None => Ok(parts),
    }
}

// The word is the mark, and no value of an option.
fn is_mark(waiting: Option<Slot>, word: &str) -> bool
    ensures { IsTrue result ↔ ((waiting ≡ None) × (kind_of word.now ≡ ends)) }
{
    waiting.is_none() && word == MARK
}

fn read_kind<'a>(word: &'a str) -> Kind<'a>
    ensures { kind_seen result ≡ kind_of word.entry.now }
{
    if word == MARK {
        return Kind::Ends;
    }
    match word.split_once('=') {
        Some((name, value)) => match read_slot(name) {
            Some(slot) => Kind::Gives(slot, value),
            None => read_plain(word),
        },
        None => match read_slot(word) {
            Some(slot) => Kind::Wants(slot),
            None => read_plain(word),
        },
    }
}

// A word that names no option.
fn read_plain<'a>(word: &str) -> Kind<'a>
    ensures { kind_seen result ≡ plain_kind word.now }
{
    let bytes = word.as_bytes();
    if bytes.len() > 1 && bytes[0] == b'-' {
        Kind::Unknown
    } else {
        Kind::Argument
    }
}

// The option of this name.
fn read_slot(name: &str) -> Option<Slot>
    ensures { result ≡ slot_of name.now }
{
    if name == "--workers" {
        Some(Slot::Workers)
    } else if name == "--errors" {
        Some(Slot::Errors)
    } else {
        None
    }
}
