// The areas, and how they begin.
ghost use Rattle.std.specs.Prelude.{◌≡◌, IfOk};
ghost use Rattle.area_swap.specs.Rule.{Moment};
ghost use Rattle.area_swap.specs.Values.{AreasValue, IsOf, SeatValue};
ghost use Rattle.area_swap.specs.Views.{desk_view, first_view, worker_view};

use crate::board::{Board, Place};
use crate::changes::{Changes, changes_of};
use crate::desk::Desk;
use crate::places::{row_at, word_count};
use crate::plays::DeskApart;
use crate::worker::WorkerSeat;
use aftr_base::OutOfMemory;
use std::alloc::Global;
use std::marker::Model;
use swap_core::Plan;

/// Two areas of words, of which one holds the table in force. Threads share it.
#[derive(Drop)]
pub struct Areas {
    pub(crate) plan: Plan,
    pub(crate) table: Board,
    pub(crate) long: usize,
    /// For each table but the first, which of its words are not those that stand in its area when it comes next.
    pub(crate) changes: Vec<Changes>,
}

impl Model for Areas {
    ghost use Rattle.std.specs.Prelude.{◌≡◌, ◌≤◌};
    ghost use Rattle.swap_core.specs.Plans.{IsPlan, width};
    ghost use Rattle.area_swap.specs.Changes.{AreListed};
    ghost use Rattle.area_swap.specs.Places.{all_places};
    ghost use Rattle.area_swap.specs.Values.{AreasValue};

    ghost Value = { AreasValue };

    ghost view = { λ a. record { table_id = a.table.shared.table_id; plan = a.plan } };

    ghost invariant = { λ a. (a.table.shared.key ≡ a.plan) × (a.long ≡ width a.plan)
        × (a.table.shared.table_id.words ≡ all_places (width a.plan)) × (width a.plan ≤ 16777216) × IsPlan a.plan × AreListed a.plan a.changes.items };
}

impl Areas {
    ghost use Rattle.std.specs.Prelude.{◌≡◌};
    ghost use Rattle.swap_core.specs.Plans.{limit as limit_of, threshold as threshold_of};

    /// The most records that may be drawn while the version is in force.
    pub fn limit(&self, version: u32) -> u32
        ensures { result ≡ limit_of self.now.plan version }
    {
        self.plan.limit(version)
    }

    /// The fewest records that have to be drawn before another version may follow this one.
    pub fn threshold(&self, version: u32) -> u32
        ensures { result ≡ threshold_of self.now.plan version }
    {
        self.plan.threshold(version)
    }
}

/// The areas at the opening, with the one worker's seat and the desk: table 0 is in force, no record is drawn, and the
/// seat has the whole share of 65,536. After want of memory the plan is dropped.
pub fn prepare(alloc: Global, plan: Plan) -> Result<(Areas, WorkerSeat, Desk), OutOfMemory>
    ensures areas { IfOk result (λ made. made.0.plan ≡ plan) }
    ensures seat { IfOk result (λ made. (made.1.table_id ≡ made.0.table_id) × (made.1.known ≡ worker_view (first_view plan))) }
    ensures rule { IfOk result (λ made. Moment made.1.known × Moment made.2.known) }
    ensures desk { IfOk result (λ made. (made.2.table_id ≡ made.0.table_id) × (made.2.known ≡ desk_view (first_view plan))) }
{
    let long = plan.width();
    let count = word_count(long);
    let mut words: Vec<u64> = Vec::with_capacity(alloc, count)?;
    words.resize(row_at(long, 0), 0)?;
    words.extend_from_slice(plan.words(0))?;
    words.resize(count, 0)?;
    let points = Vec::with_capacity(alloc, plan.len() as usize - 1)?;
    let changes = changes_of(alloc, &plan)?;
    let (table, mut place) = Board::of_words(alloc, &words, &plan)?;
    let desk_place: Place = table.shared.split_seat::<DeskApart>(&mut place);
    Ok((
        Areas {
            plan,
            table,
            long,
            changes,
        },
        WorkerSeat::at(place),
        Desk::at(desk_place, points),
    ))
}
