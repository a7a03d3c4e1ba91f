// The memory of rounds: a list of outcomes for each worker, and where the outcome of each number stands.
ghost use Rattle.std.specs.Prelude.{◌≡◌, ◌≤◌, All, IfOk, length, vec_capacity};
ghost use Rattle.worker_gate.specs.Crews.{IsPlaced, outcome_at};

use crate::outcome_list::OutcomeList;
use crate::outcomes::Outcome;
use crate::worker::Worker;
use aftr_base::OutOfMemory;
use std::alloc::Global;
use std::marker::Model;

/// One worker's list of outcomes, in the order in which it drew them.
#[derive(Drop)]
pub(crate) struct Sheet {
    pub(crate) outcomes: OutcomeList,
}

/// Where an outcome stands: the sheet, and its index there.
#[derive(Clone, Copy, Debug)]
pub(crate) struct Place {
    pub(crate) sheet: u32,
    pub(crate) index: u32,
}

/// The workers of a run, 1 to 16, and all the memory of its rounds: it is taken once, and each round uses it again. It keeps
/// the outcomes of its last round. It is seen as the number of its workers, the greatest number of records of a round, and those
/// outcomes.
#[derive(Drop)]
pub struct Crew {
    /// One for each worker; none while they are at work.
    pub(crate) sheets: Vec<Sheet>,
    /// The workers while they are at work.
    pub(crate) workers: Vec<Worker>,
    /// Where the outcomes of the last round stand, in the order of numbers.
    pub(crate) places: Vec<Place>,
    /// The greatest number of records of a round.
    room: usize,
}

impl Model for Crew {
    ghost use Rattle.std.specs.Prelude.{◌≡◌, ◌≤◌, ◌<◌, [], length, vec_capacity, All};
    ghost use Rattle.worker_gate.specs.Crews.{CrewValue, AreSheets, IsPlaced, outcomes_at};

    ghost Value = { CrewValue };

    ghost view = { λ c. record { workers = length c.sheets.items; room = c.room; outcomes = outcomes_at c.sheets.items c.places.items } };

    ghost invariant = { λ c. AreSheets c.room c.sheets.items × (length c.sheets.items ≤ vec_capacity c.sheets) × (c.workers.items ≡ [])
        × (length c.sheets.items ≤ vec_capacity c.workers) × (c.room ≤ vec_capacity c.places)
        × (length c.places.items < 4294967296) × All (IsPlaced c.sheets.items) c.places.items };
}

// The sheets of so many workers, each with room for so many outcomes.
fn sheets_of(alloc: Global, workers: u32, room: usize) -> Result<Vec<Sheet>, OutOfMemory>
    ensures sheets { IfOk result (λ sheets. (length sheets.items ≡ workers) × (length sheets.items ≤ vec_capacity sheets)) }
    ensures room { IfOk result (λ sheets. All (λ s. room ≤ s.outcomes.room) sheets.items) }
{
    let mut sheets = Vec::with_capacity(alloc, workers as usize)?;
    'sheets: for _ in 0..workers {
        let outcomes = OutcomeList::with_capacity(alloc, room)?;
        sheets.push_reserved(Sheet { outcomes });
    }
    Ok(sheets)
}

impl Crew {
    ghost use Rattle.std.specs.Prelude.{◌≡◌, ◌≤◌, [], IfOk};

    /// So many workers, 1 to 16, with room for the outcomes of rounds of at most `room` records. No round was run yet.
    pub fn with(alloc: Global, workers: u32, room: usize) -> Result<Crew, OutOfMemory>
        requires some_one { 1 ≤ workers }
        requires few { workers ≤ 16 }
        ensures workers { IfOk result (λ crew. crew.workers ≡ workers) }
        ensures room { IfOk result (λ crew. crew.room ≡ room) }
        ensures outcomes { IfOk result (λ crew. crew.outcomes ≡ []) }
    {
        let sheets = sheets_of(alloc, workers, room)?;
        let hands = Vec::with_capacity(alloc, workers as usize)?;
        let places = Vec::with_capacity(alloc, room)?;
        Ok(Crew {
            sheets,
            workers: hands,
            places,
            room,
        })
    }

    /// The outcomes of its last round.
    pub fn outcomes(&self) -> Outcomes<'_>
        ensures { result ≡ self.now.outcomes }
    {
        Outcomes {
            sheets: self.sheets.as_slice(),
            places: self.places.as_slice(),
        }
    }
}

/// The outcomes of a round in the order of numbers, read where the workers put them down. They are seen as their list.
#[derive(Drop)]
pub struct Outcomes<'a> {
    sheets: &'a [Sheet],
    places: &'a [Place],
}

impl<'a> Model for Outcomes<'a> {
    ghost use Rattle.std.specs.Prelude.{◌<◌, List, All, length};
    ghost use Rattle.worker_gate.specs.Crews.{IsPlaced, outcomes_at};
    ghost use Rattle.worker_gate.specs.declared.outcomes.Outcome.{Outcome};

    ghost Value = { List Outcome };

    ghost view = { λ o. outcomes_at o.sheets.now o.places.now };

    ghost invariant = { λ o. (length o.places.now < 4294967296) × All (IsPlaced o.sheets.now) o.places.now };
}

// The outcome at a place.
fn outcome_in(sheets: &[Sheet], place: Place) -> &Outcome
    requires { IsPlaced sheets.now place }
    ensures { result.now ≡ outcome_at sheets.now place }
{
    sheets[place.sheet as usize]
        .outcomes
        .get(place.index as usize)
}

impl<'a> Outcomes<'a> {
    ghost use Rattle.std.specs.Prelude.{◌≡◌, ◌<◌, Some, length, slice_get};

    /// How many there are.
    pub fn len(&self) -> usize
        ensures { result ≡ length self.now }
    {
        self.places.len()
    }

    /// One of them; that of the round's first number has the index 0.
    pub fn get(&self, index: usize) -> &'a Outcome
        requires { index < length self.now }
        ensures { slice_get self.now index ≡ Some result.now }
    {
        outcome_in(self.sheets, self.places[index])
    }
}
