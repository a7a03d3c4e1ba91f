// One worker judges a whole round, by a seat that holds the version under which the records were drawn.
ghost use Rattle.std.specs.Prelude.{◌≡◌, ℕ, ◌+◌, ◌-◌, ◌≤◌, [], All, length, map, vec_capacity};
ghost use Rattle.std.specs.List.{range_with_len};
ghost use Rattle.worker_gate.specs.Crews.{IsPlaced, outcomes_at};
ghost use Rattle.worker_gate.specs.Judging.{HasJudgedRun};
ghost use Rattle.worker_gate.specs.WholeRounds.{HasJudgedWhole, place_in};

use crate::crew::{Crew, Place, Sheet};
use crate::gate::Gate;
use crate::holders::{FreeSeat, HeldSeat};
use crate::judge::Judge;
use crate::outcome_list::OutcomeList;
use crate::outcomes::Outcome;
use crate::task::Work;
use ip_codec::ItemView;
use item_stage::RoundItems;
use verdict_core::Verdict;

// Judges all records of the round, and lists their outcomes.
fn judge_records<S: RoundItems, G: Gate>(
    judge: &mut Judge<'_>,
    work: &Work<'_, S, G>,
    outcomes: &mut OutcomeList,
)
    requires range { work.now.start ≤ work.now.end }
    requires inside { work.now.end ≡ work.now.start + length (S.items work.now.items.now) }
    requires none { outcomes.old.items ≡ [] }
    requires room { work.now.end - work.now.start ≤ outcomes.old.room }
    ensures judged { HasJudgedRun (S.items work.now.items.now) work.now.start judge.old judge.new outcomes.new.items }
    ensures many { length outcomes.new.items ≡ work.now.end - work.now.start }
    ensures room { outcomes.new.room ≡ outcomes.old.room }
{
    let mut item = ItemView::Held;
    let mut outcome = Outcome {
        number: 0,
        version: 0,
        verdict: Verdict::Held,
    };
    let count = work.end - work.start;
    'records: for index in 0..count {
        let number = work.start + index;
        work.gate.pass(number, judge.version());
        work.items.item_into(index as usize, &mut item);
        judge.judge(number, &item, &mut outcome);
        outcomes.push(outcome);
    }
}

// The places of the first `count` outcomes of one sheet, in their order.
fn list_places(places: &mut Vec<Place>, sheet: u32, count: u32)
    requires room { count ≤ vec_capacity places.old }
    ensures places { places.new.items ≡ map (place_in sheet) (range_with_len 0 count) }
    ensures room { vec_capacity places.old ≤ vec_capacity places.new }
{
    places.clear();
    'places: for index in 0..count {
        places.push_reserved(Place { sheet, index });
    }
}

// Judges a round over the parts of a crew, of which the last sheet takes the outcomes.
fn judge_sheet<'a, S: RoundItems, G: Gate>(
    held: HeldSeat<'a>,
    sheets: &mut Vec<Sheet>,
    places: &mut Vec<Place>,
    work: &Work<'_, S, G>,
) -> FreeSeat<'a>
    requires range { work.now.start ≤ work.now.end }
    requires inside { work.now.end ≡ work.now.start + length (S.items work.now.items.now) }
    requires some_sheet { 1 ≤ length sheets.old.items }
    requires few { length sheets.old.items ≤ 16 }
    requires rooms { All (λ s. work.now.end - work.now.start ≤ s.outcomes.room) sheets.old.items }
    requires sheets { length sheets.old.items ≤ vec_capacity sheets.old }
    requires places { work.now.end - work.now.start ≤ vec_capacity places.old }
    ensures same_areas { result.areas ≡ held.entry.areas }
    ensures judged { HasJudgedWhole held.entry.areas.plan (S.items work.now.items.now) work.now.start held.entry.version held.entry.known result.known
        (outcomes_at sheets.new.items places.new.items) }
    ensures sheets { (length sheets.new.items ≡ length sheets.old.items) × (vec_capacity sheets.new ≡ vec_capacity sheets.old) }
    ensures rooms { (room : ℕ) → All (λ s. room ≤ s.outcomes.room) sheets.old.items → All (λ s. room ≤ s.outcomes.room) sheets.new.items }
    ensures places { All (IsPlaced sheets.new.items) places.new.items × (work.now.start + length places.new.items ≡ work.now.end) }
    ensures room { vec_capacity places.old ≤ vec_capacity places.new }
{
    let Some(sheet) = sheets.pop() else {
        unreachable!()
    };
    let mut outcomes = sheet.outcomes;
    outcomes.clear();
    let mut judge = Judge::of(held);
    judge_records(&mut judge, work, &mut outcomes);
    let free = judge.end();
    list_places(places, sheets.len() as u32, work.end - work.start);
    sheets.push_reserved(Sheet { outcomes });
    free
}

/// Judges the records of a round, which were drawn under the held version, and then gives that version up. The outcomes are those of the
/// crew. In parallel, other workers may judge other rounds under this version or another one, and the next table may be written and come
/// into force. The call takes no memory: the crew has room for the round.
pub fn judge_whole<'a, S: RoundItems, G: Gate>(
    held: HeldSeat<'a>,
    crew: &mut Crew,
    work: &Work<'_, S, G>,
) -> FreeSeat<'a>
    requires range { work.now.start ≤ work.now.end }
    requires inside { work.now.end ≡ work.now.start + length (S.items work.now.items.now) }
    requires room { length (S.items work.now.items.now) ≤ crew.old.room }
    requires small { work.now.end ≤ 2147483648 }
    ensures same_areas { result.areas ≡ held.entry.areas }
    ensures judged { HasJudgedWhole held.entry.areas.plan (S.items work.now.items.now) work.now.start held.entry.version held.entry.known result.known
        crew.new.outcomes }
    ensures crew { (crew.new.workers ≡ crew.old.workers) × (crew.new.room ≡ crew.old.room) }
{
    judge_sheet(held, &mut crew.sheets, &mut crew.places, work)
}
