// A datagram of which pieces have come.
ghost use Rattle.std.specs.Prelude.{◌≡◌, ◌≤◌, IfOk, OnErr, None, false, insert, length};
ghost use Rattle.std.specs.List.{list_any};
ghost use Rattle.reassembly_lane.specs.Contexts.{refusing, staying, with_part};
ghost use Rattle.reassembly_lane.specs.Lanes.{fresh, part_of};
ghost use Rattle.reassembly_lane.specs.declared.answer.Answer.TheVariants.{Held};
ghost use Rattle.reassembly_lane.specs.Parts.{clash, is_same};
ghost use Rattle.reassembly_lane.specs.Sound.{IsPlace, IsSound, IsSoundPart, clash_behind, clash_in_front};

use crate::answer::{Answer, FragBad};
use crate::parts::{Part, clash_with, is_repeat, new_part, place_of};
use crate::piece::Fragment;
use crate::whole::{end_with, whole};
use aftr_base::OutOfMemory;
use std::alloc::Global;
use std::marker::Model;

/// How many parts of a datagram are kept.
const MOST_PARTS: usize = 256;

/// A datagram of which pieces have come.
#[derive(Debug, Drop)]
pub(crate) struct Context {
    /// When its first piece came.
    begun: u64,
    /// The record's number of that piece.
    number: u32,
    /// In the order of their offsets; none where it is refused.
    parts: Vec<Part>,
    /// How many bytes the parts have.
    size: u32,
    refused: Option<FragBad>,
}

impl Model for Context {
    ghost use Rattle.std.specs.Prelude.{◌≡◌};
    ghost use Rattle.reassembly_lane.specs.Contexts.{Partial};
    ghost use Rattle.reassembly_lane.specs.Sound.{IsSound, total_size};

    ghost Value = { Partial };

    ghost view = { λ c. record { begun = c.begun; number = c.number; parts = c.parts.items; refused = c.refused } };

    ghost invariant = { λ c. IsSound c.parts.items × (c.size ≡ total_size c.parts.items) };
}

/// What becomes of a datagram with one more piece.
pub(crate) enum Turn {
    Stays(Answer),
    Ends(Answer),
}

impl Context {
    ghost use Rattle.reassembly_lane.specs.Turns.{outcome};

    /// A datagram of which nothing has come.
    pub(crate) fn new(alloc: Global, begun: u64, number: u32) -> Self
        ensures { result ≡ fresh begun number }
    {
        Context {
            begun,
            number,
            parts: Vec::new(alloc),
            size: 0,
            refused: None,
        }
    }

    /// When its first piece came.
    pub(crate) fn begun(&self) -> u64
        ensures { result ≡ self.now.begun }
    {
        self.begun
    }

    /// The record's number of its first piece.
    pub(crate) fn number(&self) -> u32
        ensures { result ≡ self.now.number }
    {
        self.number
    }

    /// One more piece.
    pub(crate) fn take(
        &mut self,
        alloc: Global,
        fragment: Fragment<'_>,
    ) -> Result<Turn, OutOfMemory>
        requires { IsSoundPart (part_of fragment) }
        ensures turn { IfOk result (λ turn. outcome turn self.new ≡ with_part self.old (part_of fragment.entry)) }
        ensures err { OnErr result (self.new ≡ self.old) }
    {
        match self.refused {
            Some(why) => Ok(Turn::Stays(Answer::Refused(why))),
            None => self.take_new(alloc, fragment),
        }
    }

    fn take_new(&mut self, alloc: Global, fragment: Fragment<'_>) -> Result<Turn, OutOfMemory>
        requires part { IsSoundPart (part_of fragment) }
        requires not_refused { self.old.refused ≡ None }
        ensures turn { IfOk result (λ turn. outcome turn self.new ≡ with_part self.old (part_of fragment.entry)) }
        ensures err { OnErr result (self.new ≡ self.old) }
    {
        let parts = self.parts.as_slice();
        let place = place_of(parts, fragment.offset);
        if has_repeat(parts, place, fragment) {
            return Ok(Turn::Stays(Answer::Held));
        }
        if has_clash(parts, place, fragment) {
            return Ok(self.refuse(alloc, FragBad::Overlap));
        }
        if parts.len() >= MOST_PARTS {
            return Ok(self.refuse(alloc, FragBad::Many));
        }
        if let Some(end) = end_with(parts, self.size, place, fragment) {
            return Ok(Turn::Ends(whole(alloc, parts, place, fragment, end)?));
        }
        self.keep(alloc, place, fragment)
    }

    fn refuse(&mut self, alloc: Global, why: FragBad) -> Turn
        ensures { outcome result self.new ≡ refusing self.old why }
    {
        self.parts = Vec::new(alloc);
        self.size = 0;
        self.refused = Some(why);
        Turn::Stays(Answer::Refused(why))
    }

    fn keep(
        &mut self,
        alloc: Global,
        place: usize,
        fragment: Fragment<'_>,
    ) -> Result<Turn, OutOfMemory>
        requires part { IsSoundPart (part_of fragment) }
        requires place { IsPlace self.old.parts fragment.offset place }
        requires apart { list_any (clash (part_of fragment)) self.old.parts ≡ false }
        ensures turn { IfOk result (λ turn. outcome turn self.new
            ≡ staying (record self.old { parts = insert self.old.parts place (part_of fragment.entry) }) Held) }
        ensures err { OnErr result (self.new ≡ self.old) }
    {
        let part = new_part(alloc, fragment)?;
        let size = self.size + fragment.body.len() as u32;
        self.parts.insert(place, part)?;
        self.size = size;
        Ok(Turn::Stays(Answer::Held))
    }
}

/// Whether a fragment at its place came before.
fn has_repeat(parts: &[Part], place: usize, fragment: Fragment<'_>) -> bool
    requires sound { IsSound parts.now }
    requires place { IsPlace parts.now fragment.offset place }
    ensures { result ≡ list_any (λ other. is_same other (part_of fragment.entry)) parts.now }
{
    if place >= parts.len() {
        return false;
    }
    is_repeat(&parts[place], fragment)
}

/// Whether a fragment at its place clashes with a part: it is enough to ask its neighbours.
fn has_clash(parts: &[Part], place: usize, fragment: Fragment<'_>) -> bool
    requires sound { IsSound parts.now }
    requires part { IsSoundPart (part_of fragment) }
    requires place { IsPlace parts.now fragment.offset place }
    ensures { result ≡ list_any (clash (part_of fragment.entry)) parts.now }
{
    clashes_in_front(parts, place, fragment) || clashes_behind(parts, place, fragment)
}

fn clashes_in_front(parts: &[Part], place: usize, fragment: Fragment<'_>) -> bool
    requires { place ≤ length parts.now }
    ensures { result ≡ clash_in_front parts.now place (part_of fragment.entry) }
{
    if place == 0 {
        return false;
    }
    clash_with(&parts[place - 1], fragment)
}

fn clashes_behind(parts: &[Part], place: usize, fragment: Fragment<'_>) -> bool
    ensures { result ≡ clash_behind parts.now place (part_of fragment.entry) }
{
    if place >= parts.len() {
        return false;
    }
    clash_with(&parts[place], fragment)
}
