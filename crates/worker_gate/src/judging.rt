// The words of a held table, and what is judged under it.
ghost use Rattle.std.specs.Prelude.{◌≡◌, ◌+◌, ◌≤◌};
ghost use Rattle.binding_rules.specs.Tables.{BindingTable};
ghost use Rattle.ip_codec.specs.Seen.{seen};
ghost use Rattle.table_words.specs.Layout.{IsCompiled, AreCompiled};
ghost use Rattle.verdict_core.specs.Fitting.{AsksTable};
ghost use Rattle.verdict_core.specs.Verdicts.{verdict_of};
ghost use Rattle.area_swap.specs.Reading.{OnlyReads};
ghost use Rattle.area_swap.specs.Values.{HoldsOne, IsOf};
ghost use Rattle.area_swap.specs.Views.{held_row, held_table};

use area_swap::{Areas, WorkerSeat};
use binding_rules::Softwire;
use ip_codec::ItemView;
use std::sync::ledger::Ledger;
use table_words::{Steps, Words, softwire};
use verdict_core::{Verdict, judge_into};

/// The words of the table that a seat holds, read through the areas from the row where they begin.
#[derive(Drop)]
pub struct HeldArea<'a> {
    areas: &'a Areas,
    seat: &'a mut WorkerSeat,
    row: usize,
    ghost held: { IsOf areas.now seat.now × HoldsOne seat.now.known },
    ghost begins: { row ≡ held_row seat.now.known },
}

impl<'a> Words for HeldArea<'a> {
    ghost use Rattle.std.proofs.Common.{◌∙◌};
    ghost use Rattle.std.specs.Prelude.{Some, refl};
    ghost use Rattle.area_swap.proofs.ReadLemmas.{reads_nothing, reads_on};
    ghost use Rattle.area_swap.specs.Reading.{OnlyReads};
    ghost use Rattle.area_swap.specs.Views.{held_table};

    ghost list = { λ h. held_table h.seat.now.known };

    ghost reads = { λ h. Some h.seat.now.known.reads };

    ghost goes = { λ h k. (k.seat.ghost_name ≡ h.seat.ghost_name) × OnlyReads h.seat.now k.seat.now };

    ghost stays = { λ h. (refl, reads_nothing h.seat.now) };

    ghost goes_on = { λ x y z h k. (k.0 ∙ h.0, reads_on x.seat.now y.seat.now z.seat.now h.1 k.1) };

    fn word<L: Ledger>(&mut self, j: u32, steps: &mut Steps<L>) -> u64 {
        steps.tick();
        self.areas.word_from(self.seat, self.row, j)
    }
}

impl<'a> HeldArea<'a> {
    ghost use Rattle.std.specs.Prelude.{◌≡◌};
    ghost use Rattle.area_swap.specs.Values.{HoldsOne, IsOf};

    /// The words of the table that the seat holds. What is read through them is the seat's reading: they keep the seat itself.
    pub fn of(areas: &'a Areas, seat: &'a mut WorkerSeat) -> HeldArea<'a>
        requires areas { IsOf areas.now seat.old }
        requires holding { HoldsOne seat.old.known }
        ensures same_reference { result.seat.ghost_name ≡ seat.entry.ghost_name }
        ensures same_seat { result.seat.now ≡ seat.old }
    {
        let row = seat.row();
        HeldArea { areas, seat, row }
    }
}

/// The settings of the held table.
pub(crate) fn held_settings<L: Ledger>(
    areas: &Areas,
    seat: &mut WorkerSeat,
    steps: &mut Steps<L>,
) -> Softwire
    requires areas { IsOf areas.now seat.old }
    requires holding { HoldsOne seat.old.known }
    requires compiled { AreCompiled (held_table seat.old.known) }
    ensures reads { OnlyReads seat.old seat.new }
    ensures value { (t : BindingTable) → IsCompiled t (held_table seat.old.known) → result ≡ t.softwire }
{
    let row = seat.row();
    let mut held = HeldArea { areas, seat, row };
    softwire(&mut held, steps)
}

/// The verdict on an item under the held table, whose settings are handed in, written where the caller keeps it.
pub(crate) fn judge_held<L: Ledger>(
    areas: &Areas,
    seat: &mut WorkerSeat,
    settings: &Softwire,
    item: &ItemView<'_>,
    verdict: &mut Verdict,
    steps: &mut Steps<L>,
)
    requires areas { IsOf areas.now seat.old }
    requires holding { HoldsOne seat.old.known }
    requires compiled { AreCompiled (held_table seat.old.known) }
    requires settings { (t : BindingTable) → IsCompiled t (held_table seat.old.known) → settings.now ≡ t.softwire }
    ensures reads { OnlyReads seat.old seat.new }
    ensures value { (t : BindingTable) → IsCompiled t (held_table seat.old.known) → verdict.new ≡ verdict_of t (seen item.now) }
    ensures rises { AsksTable (seen item.now) → seat.old.known.reads + 1 ≤ seat.new.known.reads }
{
    let row = seat.row();
    let mut held = HeldArea { areas, seat, row };
    judge_into(&mut held, settings, item, verdict, steps);
}
