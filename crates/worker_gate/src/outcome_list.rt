// The outcomes that a worker puts down.
use crate::judging::judge_held;
use crate::outcomes::Outcome;
use aftr_base::OutOfMemory;
use area_swap::{Areas, WorkerSeat};
use binding_rules::Softwire;
use ip_codec::ItemView;
use std::alloc::Global;
use std::marker::Model;
use std::sync::ledger::Ledger;
use table_words::Steps;
use verdict_core::Verdict;

/// A record that was drawn, and the version that is held.
#[derive(Clone, Copy)]
pub(crate) struct Drawn {
    pub(crate) number: u32,
    pub(crate) version: u32,
}

/// Outcomes in the order in which they were put down. Their numbers stand side by side as well: whoever looks through these alone
/// reads a small part of the memory. It is seen as the list of outcomes, and for how many there is room.
#[derive(Drop)]
pub(crate) struct OutcomeList {
    outcomes: Vec<Outcome>,
    numbers: Vec<u32>,
}

impl Model for OutcomeList {
    ghost use Rattle.std.specs.Prelude.{◌≡◌, map, min, vec_capacity};
    ghost use Rattle.worker_gate.specs.OutcomeLists.{OutcomeListValue, number_of};

    ghost Value = { OutcomeListValue };

    ghost view = { λ o. record { items = o.outcomes.items; room = min (vec_capacity o.outcomes) (vec_capacity o.numbers) } };

    ghost invariant = { λ o. o.numbers.items ≡ map number_of o.outcomes.items };
}

impl OutcomeList {
    ghost use Rattle.std.specs.Prelude.{◌≡◌, ◌+◌, ◌<◌, ◌≤◌, [], ◌∷◌, ◌++◌, IfOk, Some, length, map, slice_get};
    ghost use Rattle.binding_rules.specs.Tables.{BindingTable};
    ghost use Rattle.ip_codec.specs.Seen.{seen};
    ghost use Rattle.table_words.specs.Layout.{IsCompiled, AreCompiled};
    ghost use Rattle.verdict_core.specs.Fitting.{AsksTable};
    ghost use Rattle.area_swap.specs.Reading.{OnlyReads};
    ghost use Rattle.area_swap.specs.Values.{HoldsOne, IsOf};
    ghost use Rattle.area_swap.specs.Views.{held_table};
    ghost use Rattle.worker_gate.specs.OutcomeLists.{HasPutJudged, number_of};

    /// None yet, with room for so many.
    pub(crate) fn with_capacity(alloc: Global, room: usize) -> Result<OutcomeList, OutOfMemory>
        ensures items { IfOk result (λ list. list.items ≡ []) }
        ensures room { IfOk result (λ list. room ≤ list.room) }
    {
        let outcomes = Vec::with_capacity(alloc, room)?;
        let numbers = Vec::with_capacity(alloc, room)?;
        Ok(OutcomeList { outcomes, numbers })
    }

    /// None again, with the same room.
    pub(crate) fn clear(&mut self)
        ensures items { self.new.items ≡ [] }
        ensures room { self.new.room ≡ self.old.room }
    {
        self.outcomes.clear();
        self.numbers.clear();
    }

    /// One more for the end.
    pub(crate) fn push(&mut self, outcome: Outcome)
        requires room { length self.old.items < self.old.room }
        ensures items { self.new.items ≡ self.old.items ++ outcome ∷ [] }
        ensures room { self.new.room ≡ self.old.room }
    {
        self.numbers.push_reserved(outcome.number);
        self.outcomes.push_reserved(outcome);
    }

    /// One more for the end, of the record that was drawn, with the verdict on its item under the held table, whose settings are handed in. A verdict has
    /// many words: it is made where it stays.
    pub(crate) fn put_judged<L: Ledger>(
        &mut self,
        drawn: Drawn,
        areas: &Areas,
        seat: &mut WorkerSeat,
        settings: &Softwire,
        item: &ItemView<'_>,
        steps: &mut Steps<L>,
    )
        requires room { length self.old.items < self.old.room }
        requires areas { IsOf areas.now seat.old }
        requires holding { HoldsOne seat.old.known }
        requires compiled { AreCompiled (held_table seat.old.known) }
        requires settings { (t : BindingTable) → IsCompiled t (held_table seat.old.known) → settings.now ≡ t.softwire }
        ensures judged { HasPutJudged drawn.number drawn.version (seen item.now) (held_table seat.old.known) self.old self.new }
        ensures reads { OnlyReads seat.old seat.new }
        ensures rises { AsksTable (seen item.now) → seat.old.known.reads + 1 ≤ seat.new.known.reads }
    {
        let last = self.outcomes.len();
        self.numbers.push_reserved(drawn.number);
        self.outcomes.push_reserved(Outcome {
            number: drawn.number,
            version: drawn.version,
            verdict: Verdict::Held,
        });
        let outcome = &mut self.outcomes[last];
        judge_held(areas, seat, settings, item, &mut outcome.verdict, steps);
    }

    /// Their numbers, in the same order.
    pub(crate) fn numbers(&self) -> &[u32]
        ensures { result.now ≡ map number_of self.now.items }
    {
        self.numbers.as_slice()
    }

    /// One of them.
    pub(crate) fn get(&self, index: usize) -> &Outcome
        requires { index < length self.now.items }
        ensures { slice_get self.now.items index ≡ Some result.now }
    {
        &self.outcomes[index]
    }

    /// The outcomes alone.
    pub(crate) fn part(self) -> Vec<Outcome>
        ensures { result.items ≡ self.items }
    {
        let OutcomeList { outcomes, .. } = self;
        outcomes
    }
}
