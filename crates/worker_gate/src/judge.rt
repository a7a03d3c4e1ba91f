// Judging record by record, under a version that a seat holds.
ghost use Rattle.std.specs.Prelude.{◌≡◌, ◌+◌, ◌<◌, ◌≤◌};
ghost use Rattle.binding_rules.specs.Tables.{BindingTable};
ghost use Rattle.ip_codec.specs.Seen.{seen};
ghost use Rattle.table_words.specs.Layout.{AreCompiled, IsCompiled};
ghost use Rattle.verdict_core.specs.Fitting.{AsksTable};
ghost use Rattle.area_swap.specs.Reading.{OnlyReads};
ghost use Rattle.area_swap.specs.Values.{HoldsOne, IsOf};
ghost use Rattle.area_swap.specs.Views.{held_table};
ghost use Rattle.worker_gate.specs.Judging.{IsOutcome};
ghost use Rattle.worker_gate.specs.Serving.{IsHolding};

use crate::claims::give_up;
use crate::holders::{FreeSeat, HeldSeat};
use crate::judging::{held_settings, judge_held};
use crate::outcomes::Outcome;
use area_swap::{Areas, WorkerSeat};
use binding_rules::Softwire;
use ip_codec::ItemView;
use std::marker::{Brand, Model};
use std::sync::ledger::{Blank, Ledger};
use table_words::Steps;
use verdict_core::access;

/// Judges records one by one under the version that a seat holds, and keeps none of the outcomes. It knows the settings of that version's
/// table. Contracts see what they see of the seat.
#[derive(Drop)]
pub struct Judge<'a> {
    areas: &'a Areas,
    seat: WorkerSeat,
    version: u32,
    settings: Softwire,
}

impl<'a> Model for Judge<'a> {
    ghost use Rattle.std.specs.Prelude.{All};
    ghost use Rattle.table_words.specs.Layout.{AreCompiled};
    ghost use Rattle.worker_gate.specs.Holders.{HeldValue, IsHeldSeat};
    ghost use Rattle.worker_gate.specs.Serving.{IsHolding};

    ghost Value = { HeldValue };

    ghost view = { λ j. record { areas = j.areas.now; version = j.version; known = j.seat.known } };

    ghost invariant = { λ j. IsHeldSeat j.areas.now j.version j.seat × IsHolding j.areas.now j.version j.settings j.seat
        × All AreCompiled j.areas.now.plan.tables };
}

// The settings of the held table.
fn settings_of<L: Ledger>(areas: &Areas, seat: &mut WorkerSeat, blank: Blank) -> Softwire
    requires areas { IsOf areas.now seat.old }
    requires holding { HoldsOne seat.old.known }
    requires compiled { AreCompiled (held_table seat.old.known) }
    requires name { blank.name ≡ L.name }
    requires parts { blank.parts ≡ L.parts }
    requires some { 0 < blank.parts }
    ensures reads { OnlyReads seat.old seat.new }
    ensures value { (t : BindingTable) → IsCompiled t (held_table seat.old.known) → result ≡ t.softwire }
{
    let mut steps = Steps::<L>::start(blank);
    held_settings(areas, seat, &mut steps)
}

// Writes the verdict on the record's item into the outcome, which has the record's number and the held version.
fn judge_item<L: Ledger>(
    areas: &Areas,
    seat: &mut WorkerSeat,
    settings: &Softwire,
    item: &ItemView<'_>,
    outcome: &mut Outcome,
    blank: Blank,
)
    requires holding { IsHolding areas.now outcome.old.version settings.now seat.old }
    requires name { blank.name ≡ L.name }
    requires parts { blank.parts ≡ L.parts }
    requires some { 0 < blank.parts }
    ensures holding { IsHolding areas.now outcome.old.version settings.now seat.new }
    ensures outcome { IsOutcome areas.now.plan outcome.old.number outcome.old.version (seen item.now) outcome.new }
    ensures reads { OnlyReads seat.old seat.new }
    ensures asks { AsksTable (seen item.now) → seat.old.known.reads + 1 ≤ seat.new.known.reads }
{
    access();
    let mut steps = Steps::<L>::start(blank);
    judge_held(
        areas,
        seat,
        settings,
        item,
        &mut outcome.verdict,
        &mut steps,
    );
}

impl<'a> Judge<'a> {
    ghost use Rattle.std.specs.Prelude.{◌≡◌};
    ghost use Rattle.ip_codec.specs.Seen.{seen};
    ghost use Rattle.worker_gate.specs.Judging.{HasJudgedOne, HasRead};
    ghost use Rattle.worker_gate.specs.Turns.{DrawsNothing};

    /// A judge under the version that the seat holds.
    pub fn of(held: HeldSeat<'a>) -> Judge<'a>
        ensures { HasRead held.entry result }
    {
        let HeldSeat {
            areas,
            seat,
            version,
        } = held;
        let mut seat = seat;
        let settings = settings_of::<Brand>(areas, &mut seat, Blank::new(1));
        Judge {
            areas,
            seat,
            version,
            settings,
        }
    }

    /// The version under which it judges.
    pub fn version(&self) -> u32
        ensures { result ≡ self.now.version }
    {
        self.version
    }

    /// Judges the item of the record with this number, and writes the outcome over the one that is handed in.
    pub fn judge(&mut self, number: u32, item: &ItemView<'_>, outcome: &mut Outcome)
        ensures { HasJudgedOne number (seen item.now) self.old self.new outcome.new }
    {
        outcome.number = number;
        outcome.version = self.version;
        judge_item::<Brand>(
            self.areas,
            &mut self.seat,
            &self.settings,
            item,
            outcome,
            Blank::new(1),
        );
    }

    /// Gives the version up. The seat holds nothing now.
    pub fn end(self) -> FreeSeat<'a>
        ensures same_areas { result.areas ≡ self.entry.areas }
        ensures nothing { DrawsNothing self.entry.known result.known }
    {
        let Judge { areas, seat, .. } = self;
        let mut seat = seat;
        give_up(areas, &mut seat);
        FreeSeat { areas, seat }
    }
}
