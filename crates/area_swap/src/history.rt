// What is left of closed areas.
ghost use Rattle.std.specs.Prelude.{◌≡◌, length};
ghost use Rattle.area_swap.specs.Histories.{AreDrawn, IsHistory};
ghost use Rattle.area_swap.specs.Values.{HasWholeShare, IsIdle, IsOf};

use crate::areas::Areas;
use crate::board::Place;
use crate::desk::Desk;
use crate::places::VERSION_PLACE;
use crate::plays::{Glance, WithDesk};
use crate::worker::{WorkerSeat, halves};
use std::marker::Model;
use swap_core::Plan;

/// What was done in areas that are closed: their plan, the points, the number of records drawn, and, seen by contracts
/// alone, how many words of the areas were read.
#[derive(Drop)]
pub struct History {
    plan: Plan,
    points: Vec<u32>,
    records: u32,
    /// The last seat, which knows what was read and drawn.
    last: Place,
}

impl Model for History {
    ghost use Rattle.area_swap.specs.Histories.{HistoryValue, IsHistory};

    ghost Value = { HistoryValue };

    ghost view = { λ h. record { plan = h.plan; points = h.points.items; records = h.records; reads = h.last.me.0.reads } };

    ghost invariant = { λ h. IsHistory (record { plan = h.plan; points = h.points.items; records = h.records; reads = h.last.me.0.reads }) };
}

impl History {
    /// For each table after the first the number of records drawn when it came into force, in order.
    pub fn points(&self) -> &[u32]
        ensures points { result.now ≡ self.now.points }
        ensures history { IsHistory self.now }
    {
        self.points.as_slice()
    }

    /// The number of records drawn.
    pub fn records(&self) -> u32
        ensures records { result ≡ self.now.records }
        ensures history { IsHistory self.now }
    {
        self.records
    }
}

impl Areas {
    /// Closes the areas. The seat has the whole share, so all draws are its own.
    pub fn close(self, seat: WorkerSeat, desk: Desk) -> History
        requires seat_areas { IsOf self seat }
        requires desk_areas { IsOf self desk }
        requires idle { IsIdle seat.known }
        requires whole { HasWholeShare seat.known }
        ensures plan { result.plan ≡ self.plan }
        ensures points { result.points ≡ desk.known.points }
        ensures records { result.records ≡ length seat.known.actor.draws }
        ensures draws { AreDrawn result seat.known.actor.draws }
        ensures reads { result.reads ≡ seat.known.reads }
        ensures history { IsHistory result }
    {
        let Areas {
            plan,
            table,
            long: _,
            changes: _,
        } = self;
        let WorkerSeat { mut place, .. } = seat;
        let Desk {
            place: desk_place,
            points,
        } = desk;
        table.shared.join_seat::<WithDesk>(&mut place, desk_place);
        let records = halves(table.shared.load::<Glance>(&mut place, VERSION_PLACE)).records;
        History {
            plan,
            points,
            records,
            last: place,
        }
    }
}
