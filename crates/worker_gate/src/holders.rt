// Seats without the right to draw. One that holds a version goes with a round, and whoever has both can judge the round.
ghost use Rattle.std.specs.Prelude.{◌≡◌, ◌%◌, All};
ghost use Rattle.table_words.specs.Layout.{AreCompiled};
ghost use Rattle.area_swap.specs.Values.{IsIdle, IsOf};
ghost use Rattle.area_swap.specs.Views.{IsUpTo, kept_lending, lent_half, together};

use area_swap::{Areas, WorkerSeat};
use std::marker::Model;

/// An idle seat of a worker, with its areas. It has drawn nothing and may not draw. Each table of the areas is compiled. Contracts see
/// the areas, and what the seat knows.
#[derive(Drop)]
pub struct FreeSeat<'a> {
    pub(crate) areas: &'a Areas,
    pub(crate) seat: WorkerSeat,
}

impl<'a> Model for FreeSeat<'a> {
    ghost use Rattle.std.specs.Prelude.{All};
    ghost use Rattle.table_words.specs.Layout.{AreCompiled};
    ghost use Rattle.worker_gate.specs.Holders.{FreeValue, IsFreeSeat};

    ghost Value = { FreeValue };

    ghost view = { λ f. record { areas = f.areas.now; known = f.seat.known } };

    ghost invariant = { λ f. IsFreeSeat f.areas.now f.seat × All AreCompiled f.areas.now.plan.tables };
}

/// A seat that holds the version under which another seat drew the records of a round. It has drawn nothing and may not draw. It may
/// go to any thread together with its round. Until it gives the version up, nobody writes the area of that version. Contracts see the
/// areas, the version, and what the seat knows.
#[derive(Drop)]
pub struct HeldSeat<'a> {
    pub(crate) areas: &'a Areas,
    pub(crate) seat: WorkerSeat,
    pub(crate) version: u32,
}

impl<'a> Model for HeldSeat<'a> {
    ghost use Rattle.std.specs.Prelude.{All};
    ghost use Rattle.table_words.specs.Layout.{AreCompiled};
    ghost use Rattle.worker_gate.specs.Holders.{HeldValue, IsHeldSeat};

    ghost Value = { HeldValue };

    ghost view = { λ h. record { areas = h.areas.now; version = h.version; known = h.seat.known } };

    ghost invariant = { λ h. IsHeldSeat h.areas.now h.version h.seat × All AreCompiled h.areas.now.plan.tables };
}

impl<'a> FreeSeat<'a> {
    ghost use Rattle.std.specs.Prelude.{◌≡◌, ◌%◌};
    ghost use Rattle.area_swap.specs.Views.{kept_lending, lent_half};

    /// Splits off a seat for another worker, with half of this seat's share.
    pub fn lend(&mut self) -> FreeSeat<'a>
        requires even { self.old.known.share % 2 ≡ 0 }
        ensures same_areas { (self.new.areas ≡ self.old.areas) × (result.areas ≡ self.old.areas) }
        ensures kept { self.new.known ≡ kept_lending self.old.known }
        ensures lent { result.known ≡ lent_half self.old.known }
    {
        let part = self.areas.lend(&mut self.seat);
        FreeSeat {
            areas: self.areas,
            seat: part,
        }
    }
}

impl<'a> HeldSeat<'a> {
    ghost use Rattle.std.specs.Prelude.{◌≡◌};

    /// The version that the seat holds.
    pub fn version(&self) -> u32
        ensures { result ≡ self.now.version }
    {
        self.version
    }
}

/// Splits off a seat for a worker: it gets half of this seat's share, and none of its right to draw.
pub fn lend<'a>(areas: &'a Areas, seat: &mut WorkerSeat) -> FreeSeat<'a>
    requires areas { IsOf areas.now seat.old }
    requires idle { IsIdle seat.old.known }
    requires even { seat.old.known.share % 2 ≡ 0 }
    requires compiled { All AreCompiled areas.now.plan.tables }
    ensures areas { IsOf areas.now seat.new }
    ensures kept { seat.new.known ≡ kept_lending seat.old.known }
    ensures same_areas { result.areas ≡ areas.now }
    ensures lent { result.known ≡ lent_half seat.old.known }
{
    let part = areas.lend(seat);
    FreeSeat { areas, seat: part }
}

/// Joins a worker's seat into this one, which gets its share and its count of reads. The draws of this seat and its right to draw stay
/// as they are.
pub fn take_back(areas: &Areas, seat: &mut WorkerSeat, free: FreeSeat<'_>)
    requires areas { IsOf areas.now seat.old }
    requires idle { IsIdle seat.old.known }
    requires same_areas { free.areas ≡ areas.now }
    ensures areas { IsOf areas.now seat.new }
    ensures idle { IsIdle seat.new.known }
    ensures joined { seat.new.known ≡ together seat.old.known free.entry.known }
    ensures draws { seat.new.known.actor.draws ≡ seat.old.known.actor.draws }
    ensures right { seat.new.known.right ≡ seat.old.known.right }
    ensures later { IsUpTo seat.old.known.seen seat.new.known.seen }
{
    let FreeSeat { seat: part, .. } = free;
    areas.join(seat, part);
}
