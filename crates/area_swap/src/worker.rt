// A worker's seat: the claims, readings and draws of one thread.
ghost use Rattle.std.specs.Prelude.{◌≡◌, ℕ, ◌%◌, ◌+◌, ◌-◌, ◌<◌, ◌≤◌, min, [], length, slice_index};
ghost use Rattle.swap_core.specs.Sound.{once_below, times};
ghost use Rattle.swap_core.specs.declared.actors.ActorState.TheVariants.{Idle};
ghost use Rattle.area_swap.specs.Answers.{Claimed, Drawn, RunDrawn};
ghost use Rattle.area_swap.specs.Rule.{Moment, Sees};
ghost use Rattle.area_swap.specs.Values.{HasWholeShare, HoldsOne, HoldsStill, IsIdle, IsOf, IsWorker, MayDraw};
ghost use Rattle.area_swap.specs.Views.{acting, held_row, held_table, held_version, kept_half, kept_lending, lent_half, new_half, reading, together, unpacked};

use crate::answers::{Claim, Draw, DrawRun, Seen};
use crate::areas::Areas;
use crate::board::Place;
use crate::places::{FIRST_ROW, VERSION_PLACE, claims_at, row_at};
use crate::plays::{
    Confirm, Enter, Exchange, Glance, Halves, Leave, Lending, Look, ReadWord, Together,
};
use std::marker::Model;

/// A right to work on the areas, for one thread at a time. Its share, its draws and its readings take no memory: contracts
/// alone see them.
#[derive(Drop)]
pub struct WorkerSeat {
    pub(crate) place: Place,
    /// The version that it holds, where it holds one.
    pub(crate) held: u32,
    /// Where the row of that version's area begins: a word of the held table is found in one addition.
    pub(crate) row: usize,
}

impl Model for WorkerSeat {
    ghost use Rattle.std.specs.Prelude.{◌≡◌, []};
    ghost use Rattle.area_swap.specs.Values.{HoldsAtMost, IsRowOf, IsWorker, SeatValue};

    ghost Value = { SeatValue };

    ghost view = { λ s. record { table_id = s.place.table_id; known = s.place.me.0 } };

    ghost invariant = { λ s. IsWorker s.place.me.0 × HoldsAtMost s.held s.place.me.0 × (s.place.me.1 ≡ []) × IsRowOf s.held s.row s.place.me.0 };
}

impl WorkerSeat {
    pub(crate) fn at(place: Place) -> WorkerSeat
        requires worker { IsWorker place.me.0 }
        requires idle { IsIdle place.me.0 }
        requires bare { place.me.1 ≡ [] }
        ensures areas { result.table_id ≡ place.table_id }
        ensures known { result.known ≡ place.me.0 }
    {
        WorkerSeat {
            place,
            held: 0,
            row: FIRST_ROW,
        }
    }

    /// Where the words of the held table begin in the areas.
    pub fn row(&self) -> usize
        requires { HoldsOne self.now.known }
        ensures { result ≡ held_row self.now.known }
    {
        self.row
    }
}

/// The two halves of the version word.
pub(crate) fn halves(word: u64) -> Seen
    ensures { result ≡ unpacked word }
{
    Seen {
        version: (word >> 32) as u32,
        records: (word % (1 << 32)) as u32,
    }
}

/// How many numbers from this one on may be taken at once.
fn count_within(number: u32, end: u32, limit: u32, most: u32) -> u32
    requires end { number < end }
    requires limit { number < limit }
    requires some_one { 1 ≤ most }
    ensures count { result ≡ min most (min (end - number) (limit - number)) }
    ensures some_one { 1 ≤ result }
    ensures below_end { number + result ≤ end }
    ensures below_limit { number + result ≤ limit }
{
    most.min(end - number).min(limit - number)
}

impl Areas {
    /// The version in force and the records drawn, by one reading.
    pub fn see(&self, seat: &mut WorkerSeat) -> Seen
        requires areas { IsOf self.now seat.old }
        requires idle { IsIdle seat.old.known }
        ensures areas { IsOf self.now seat.new }
        ensures worker { IsWorker seat.new.known }
        ensures seat { seat.new.known ≡ reading seat.old.known result }
        ensures sees { Sees seat.old.known result }
        ensures rule { Moment seat.new.known }
    {
        halves(
            self.table
                .shared
                .load::<Glance>(&mut seat.place, VERSION_PLACE),
        )
    }

    /// The number of records drawn. The seat, which has the whole share, has drawn the numbers below it, each once.
    pub fn tally(&self, seat: &mut WorkerSeat) -> u32
        requires areas { IsOf self.now seat.old }
        requires idle { IsIdle seat.old.known }
        requires whole { HasWholeShare seat.old.known }
        ensures areas { IsOf self.now seat.new }
        ensures seat { (seat.new.known ≡ reading seat.old.known seat.new.known.seen) × (seat.new.known.seen.records ≡ result) }
        ensures sees { Sees seat.old.known seat.new.known.seen }
        ensures all_drawn { length seat.old.known.actor.draws ≡ result }
        ensures each_once { (number : ℕ) → times number seat.old.known.actor ≡ once_below number result }
        ensures rule { Moment seat.new.known }
    {
        halves(
            self.table
                .shared
                .load::<Glance>(&mut seat.place, VERSION_PLACE),
        )
        .records
    }

    /// Splits the seat: each has half of the share, and the new one has drawn nothing.
    pub fn split(&self, seat: &mut WorkerSeat) -> WorkerSeat
        requires areas { IsOf self.now seat.old }
        requires idle { IsIdle seat.old.known }
        requires even { seat.old.known.share % 2 ≡ 0 }
        ensures areas { IsOf self.now seat.new × IsOf self.now result }
        ensures kept { seat.new.known ≡ kept_half seat.old.known }
        ensures new { result.known ≡ new_half seat.old.known }
    {
        WorkerSeat::at(self.table.shared.split_seat::<Halves>(&mut seat.place))
    }

    /// Splits off a seat that may hold tables but never draws: it gets half of the share. This seat keeps its right to draw.
    pub fn lend(&self, seat: &mut WorkerSeat) -> WorkerSeat
        requires areas { IsOf self.now seat.old }
        requires idle { IsIdle seat.old.known }
        requires even { seat.old.known.share % 2 ≡ 0 }
        ensures areas { IsOf self.now seat.new × IsOf self.now result }
        ensures kept { seat.new.known ≡ kept_lending seat.old.known }
        ensures new { result.known ≡ lent_half seat.old.known }
    {
        WorkerSeat::at(self.table.shared.split_seat::<Lending>(&mut seat.place))
    }

    /// Joins another seat into this one: the shares are added, and the draws of the other follow those of this one.
    pub fn join(&self, seat: &mut WorkerSeat, other: WorkerSeat)
        requires areas { IsOf self.now seat.old }
        requires other_areas { IsOf self.now other }
        requires idle { IsIdle seat.old.known }
        requires other_idle { IsIdle other.known }
        ensures areas { IsOf self.now seat.new }
        ensures seat { seat.new.known ≡ together seat.old.known other.known }
    {
        let WorkerSeat { place, .. } = other;
        self.table
            .shared
            .join_seat::<Together>(&mut seat.place, place);
    }

    /// Tries to hold the table in force: reads the version, claims its area, and reads the version again.
    pub fn claim(&self, seat: &mut WorkerSeat) -> Claim
        requires areas { IsOf self.now seat.old }
        requires idle { IsIdle seat.old.known }
        ensures areas { IsOf self.now seat.new }
        ensures claimed { Claimed result seat.old.known seat.new.known }
        ensures rule { Moment seat.new.known }
    {
        let shared = &self.table.shared;
        let before = halves(shared.load::<Look>(&mut seat.place, VERSION_PLACE)).version;
        let area = before % 2;
        let claims = claims_at(area as usize);
        shared.fetch_add::<Enter>(&mut seat.place, claims, 1);
        let after = halves(shared.load::<Confirm>(&mut seat.place, VERSION_PLACE)).version;
        let found = after % 2;
        if found == area {
            seat.held = after;
            seat.row = row_at(self.long, found as usize);
            return Claim::Held { version: after };
        }
        shared.fetch_sub::<Leave>(&mut seat.place, claims, 1);
        Claim::Moved { before, after }
    }

    /// Word j of the held table.
    pub fn word(&self, seat: &mut WorkerSeat, j: u32) -> u64
        requires areas { IsOf self.now seat.old }
        requires holding { HoldsOne seat.old.known }
        requires inside { j < length (held_table seat.old.known) }
        ensures areas { IsOf self.now seat.new }
        ensures holding { HoldsStill seat.old.known seat.new.known }
        ensures word { result ≡ slice_index (held_table seat.old.known) j }
        ensures seat { seat.new.known ≡ record seat.old.known { reads = seat.old.known.reads + 1 } }
        ensures rule { Moment seat.new.known }
    {
        let row = seat.row();
        self.word_from(seat, row, j)
    }

    /// Word j of the held table, whose words begin at this row: whoever reads many words asks the seat for the row once.
    pub fn word_from(&self, seat: &mut WorkerSeat, row: usize, j: u32) -> u64
        requires areas { IsOf self.now seat.old }
        requires holding { HoldsOne seat.old.known }
        requires row { row ≡ held_row seat.old.known }
        requires inside { j < length (held_table seat.old.known) }
        ensures areas { IsOf self.now seat.new }
        ensures holding { HoldsStill seat.old.known seat.new.known }
        ensures word { result ≡ slice_index (held_table seat.old.known) j }
        ensures seat { seat.new.known ≡ record seat.old.known { reads = seat.old.known.reads + 1 } }
        ensures rule { Moment seat.new.known }
    {
        self.table
            .shared
            .load::<ReadWord>(&mut seat.place, row + j as usize)
    }

    /// Tries to draw the next number of a record, under the held version. One exchange is tried. A seat of `lend` may not draw.
    pub fn draw(&self, seat: &mut WorkerSeat, end: u32) -> Draw
        requires areas { IsOf self.now seat.old }
        requires holding { HoldsOne seat.old.known }
        requires may_draw { MayDraw seat.old.known }
        ensures areas { IsOf self.now seat.new }
        ensures holding { HoldsStill seat.old.known seat.new.known }
        ensures drawn { Drawn result self.now.plan end (held_version seat.old.known) seat.old.known seat.new.known }
        ensures rule { Moment seat.new.known }
    {
        self.draw_run(seat, end, 1).one()
    }

    /// Tries to draw the next numbers of records, up to `most` in a row, under the held version. One exchange is tried,
    /// whatever their number: where threads meet on the version word, fewer of them meet.
    pub fn draw_run(&self, seat: &mut WorkerSeat, end: u32, most: u32) -> DrawRun
        requires areas { IsOf self.now seat.old }
        requires holding { HoldsOne seat.old.known }
        requires may_draw { MayDraw seat.old.known }
        requires some_one { 1 ≤ most }
        ensures areas { IsOf self.now seat.new }
        ensures holding { HoldsStill seat.old.known seat.new.known }
        ensures drawn { RunDrawn result self.now.plan end most (held_version seat.old.known) seat.old.known seat.new.known }
        ensures rule { Moment seat.new.known }
    {
        let shared = &self.table.shared;
        let saw = shared.load::<Glance>(&mut seat.place, VERSION_PLACE);
        let seen = halves(saw);
        let in_force = seen.version;
        if in_force != seat.held {
            return DrawRun::Moved { now: in_force };
        }
        if seen.records >= end {
            return DrawRun::End;
        }
        let limit = self.plan.limit(seen.version);
        if seen.records == limit {
            return DrawRun::Hold { limit };
        }
        let count = count_within(seen.records, end, limit, most);
        let found = shared.compare_exchange::<Exchange>(
            &mut seat.place,
            VERSION_PLACE,
            saw,
            saw + count as u64,
        );
        if found != saw {
            return DrawRun::Lost { saw, found };
        }
        DrawRun::Taken {
            number: seen.records,
            count,
        }
    }

    /// Gives up the claim.
    pub fn leave(&self, seat: &mut WorkerSeat)
        requires areas { IsOf self.now seat.old }
        requires holding { HoldsOne seat.old.known }
        ensures areas { IsOf self.now seat.new }
        ensures seat { seat.new.known ≡ acting seat.old.known Idle }
        ensures rule { Moment seat.new.known }
    {
        let its_claims = claims_at((seat.held % 2) as usize);
        self.table
            .shared
            .fetch_sub::<Leave>(&mut seat.place, its_claims, 1);
    }
}
