// The desk: it alone replaces a table.
ghost use Rattle.std.specs.Prelude.{◌≡◌, ◌⊎◌, ◌≤◌, ◌<◌, ◌+◌, [], length, min, vec_capacity};
ghost use Rattle.swap_core.specs.Plans.{AreAlike};
ghost use Rattle.swap_core.specs.declared.actors.DeskState.TheVariants.{Writing};
ghost use Rattle.area_swap.specs.Answers.{HasPublished, IsDue, IsQuiet};
ghost use Rattle.area_swap.specs.Changes.{AreChanges, block_words};
ghost use Rattle.area_swap.specs.Rule.{Moment};
ghost use Rattle.area_swap.specs.Values.{HasWritten, IsClear, IsDesk, IsFull, IsOf, IsReady, IsResting};
ghost use Rattle.area_swap.specs.Views.{next_of, stale_of};

use crate::answers::{Due, Quiet};
use crate::areas::Areas;
use crate::board::{Place, SharedWords};
use crate::changes::{BLOCK, blocks_of};
use crate::places::{VERSION_PLACE, claims_at, row_at};
use crate::plays::{CountClaims, FindDue, FindWord, PassWords, PublishTable, WriteWord};
use crate::worker::halves;
use std::marker::Model;

/// The one right to replace a table, with the points: for each table after the first the number of records drawn when it
/// came into force. It rests, or the next table is due, or the spare area is clear, or full.
#[derive(Drop)]
pub struct Desk {
    pub(crate) place: Place,
    pub(crate) points: Vec<u32>,
}

impl Model for Desk {
    ghost use Rattle.std.specs.Prelude.{◌≡◌, ◌≤◌, ◌+◌, [], length, vec_capacity};
    ghost use Rattle.area_swap.specs.Values.{IsDesk, SeatValue};

    ghost Value = { SeatValue };

    ghost view = { λ d. record { table_id = d.place.table_id; known = d.place.me.0 } };

    ghost invariant = { λ d. IsDesk d.place.me.0 × (d.place.me.1 ≡ []) × (d.points.items ≡ d.place.me.0.points)
        × (length d.place.me.0.plan.tables ≤ vec_capacity d.points + 1) };
}

impl Desk {
    pub(crate) fn at(place: Place, points: Vec<u32>) -> Desk
        requires desk { IsDesk place.me.0 }
        requires bare { place.me.1 ≡ [] }
        requires points { points.items ≡ place.me.0.points }
        requires room { length place.me.0.plan.tables ≤ vec_capacity points + 1 }
        ensures areas { result.table_id ≡ place.table_id }
        ensures known { result.known ≡ place.me.0 }
    {
        Desk { place, points }
    }

    /// The points so far, in order.
    pub fn points(&self) -> &[u32]
        ensures points { result.now ≡ self.now.known.points }
        ensures is_desk { IsDesk self.now.known }
    {
        self.points.as_slice()
    }
}

/// Passes over words of the next table that stand in the spare area already, by one step and without looking at them.
fn pass_over(
    shared: &SharedWords,
    place: &mut Place,
    words: &[u64],
    row: usize,
    from: usize,
    end: usize,
)
    requires table { place.old.table_id ≡ shared.now.table_id }
    requires written { HasWritten shared.now.table_id shared.now.key words.now row from place.old.me.0 }
    requires order { from ≤ end }
    requires inside { end ≤ length words.now }
    requires alike { AreAlike (stale_of place.old.me.0) words.now from end }
    ensures table { place.new.table_id ≡ place.old.table_id }
    ensures seat { place.new.me ≡ (record place.old.me.0 { desk = Writing end }, place.old.me.1) }
    ensures rule { from < end → Moment place.new.me.0 }
{
    if from >= end {
        return;
    }
    shared.load::<PassWords>(place, row + end);
}

/// Writes the words of the block that begins there, one after another. A word that stands there already is not stored again: tables
/// are mostly alike, and a store takes many times as long as a load. The answer is where the block ends.
fn write_block(
    shared: &SharedWords,
    place: &mut Place,
    words: &[u64],
    row: usize,
    first: usize,
) -> usize
    requires table { place.old.table_id ≡ shared.now.table_id }
    requires written { HasWritten shared.now.table_id shared.now.key words.now row first place.old.me.0 }
    requires inside { first < length words.now }
    ensures end { result ≡ min (length words.now) (first + block_words) }
    ensures table { place.new.table_id ≡ place.old.table_id }
    ensures seat { place.new.me ≡ (record place.old.me.0 { desk = Writing result }, place.old.me.1) }
    ensures rule { Moment place.new.me.0 }
{
    let end = words.len().min(first + BLOCK);
    'words: for j in first..end {
        let word = words[j];
        let stands = shared.load::<FindWord>(place, row + j);
        if stands != word {
            shared.store::<WriteWord>(place, row + j, word);
        }
    }
    end
}

/// Writes the next table into the row of the spare area. Outside of these blocks its words stand there already: tables are mostly
/// alike, and the table two before it was the last to be written there.
fn write_words(shared: &SharedWords, place: &mut Place, words: &[u64], row: usize, blocks: &[u32])
    requires table { place.old.table_id ≡ shared.now.table_id }
    requires written { HasWritten shared.now.table_id shared.now.key words.now row 0 place.old.me.0 }
    requires blocks { AreChanges (stale_of place.old.me.0) words.now 0 (length words.now) blocks.now }
    ensures table { place.new.table_id ≡ place.old.table_id }
    ensures seat { place.new.me ≡ (record place.old.me.0 { desk = Writing (length words.now) }, place.old.me.1) }
    ensures rule { 0 < length words.now → Moment place.new.me.0 }
{
    let mut reached = 0;
    let mut left = blocks;
    'listed: while let [block, behind @ ..] = left {
        let first = *block as usize * BLOCK;
        pass_over(shared, place, words, row, reached, first);
        reached = write_block(shared, place, words, row, first);
        left = behind;
    }
    pass_over(shared, place, words, row, reached, words.len());
}

impl Areas {
    /// Whether the next table may come into force, by one reading.
    pub fn due(&self, desk: &mut Desk) -> Due
        requires areas { IsOf self.now desk.old }
        requires phase { IsResting desk.old.known ⊎ IsReady desk.old.known }
        ensures areas { IsOf self.now desk.new }
        ensures is_desk { IsDesk desk.new.known }
        ensures due { IsDue result self.now.plan desk.old.known desk.new.known }
        ensures rule { Moment desk.new.known }
    {
        let seen = halves(
            self.table
                .shared
                .load::<FindDue>(&mut desk.place, VERSION_PLACE),
        );
        let next = seen.version + 1;
        if next >= self.plan.len() {
            return Due::None;
        }
        let earliest = self.plan.window(next).earliest;
        if seen.records < earliest {
            return Due::Later {
                records: seen.records,
                earliest,
            };
        }
        Due::Now
    }

    /// Whether nobody asks for the spare area or holds it, by one reading of its count.
    pub fn quiet(&self, desk: &mut Desk) -> Quiet
        requires areas { IsOf self.now desk.old }
        requires phase { IsReady desk.old.known }
        ensures areas { IsOf self.now desk.new }
        ensures is_desk { IsDesk desk.new.known }
        ensures quiet { IsQuiet result desk.old.known desk.new.known }
        ensures rule { Moment desk.new.known }
    {
        let claims = claims_at((desk.points.len() + 1) % 2);
        let count = self
            .table
            .shared
            .load::<CountClaims>(&mut desk.place, claims);
        if count == 0 {
            Quiet::Free
        } else {
            Quiet::Claimed { count }
        }
    }

    /// Writes the next table into the spare area.
    pub fn write(&self, desk: &mut Desk)
        requires areas { IsOf self.now desk.old }
        requires phase { IsClear desk.old.known }
        ensures areas { IsOf self.now desk.new }
        ensures is_desk { IsDesk desk.new.known }
        ensures desk { desk.new.known ≡ record desk.old.known { desk = Writing (length (next_of desk.old.known)) } }
        ensures rule { Moment desk.new.known }
    {
        let version = desk.points.len();
        let next = version + 1;
        let area = next % 2;
        let row = row_at(self.long, area);
        let words = self.plan.words(next as u32);
        let blocks = blocks_of(self.changes.as_slice(), version);
        write_words(&self.table.shared, &mut desk.place, words, row, blocks);
    }

    /// Puts the next table into force. The answer is its point: the number of records drawn until then.
    pub fn publish(&self, desk: &mut Desk) -> u32
        requires areas { IsOf self.now desk.old }
        requires phase { IsFull desk.old.known }
        ensures areas { IsOf self.now desk.new }
        ensures is_desk { IsDesk desk.new.known }
        ensures published { HasPublished result desk.old.known desk.new.known }
        ensures rule { Moment desk.new.known }
    {
        let found = self
            .table
            .shared
            .fetch_add::<PublishTable>(&mut desk.place, VERSION_PLACE, 1 << 32);
        let point = halves(found).records;
        desk.points.push_reserved(point);
        point
    }
}
