// The workers of a round: hired from one seat, and taken apart again.
ghost use Rattle.std.specs.Prelude.{◌≡◌, ℕ, ◌+◌, ◌-◌, ◌<◌, ◌≤◌, List, [], All, length, vec_capacity};
ghost use Rattle.area_swap.specs.Values.{DrawsAlone, HasWholeShare, IsIdle, IsOf};
ghost use Rattle.ip_codec.specs.declared.items.Item.{Item};
ghost use Rattle.worker_gate.specs.Gathering.{AreNoted, Gathered, HasJudged, HasRoom, IsAtHand, shares};

use crate::crew::{Place, Sheet};
use crate::worker::Worker;
use area_swap::{Areas, WorkerSeat};

// A worker for each sheet, each with half of the share that the seat has left. All of them begin at the number `start`.
pub(crate) fn hire(
    areas: &Areas,
    seat: &mut WorkerSeat,
    sheets: &mut Vec<Sheet>,
    workers: &mut Vec<Worker>,
    start: u32,
    end: u32,
)
    requires areas { IsOf areas.now seat.old }
    requires idle { IsIdle seat.old.known }
    requires whole { HasWholeShare seat.old.known }
    requires alone { DrawsAlone seat.old.known }
    requires seen { start ≤ seat.old.known.seen.records }
    requires range { start ≤ end }
    requires few { length sheets.old.items ≤ 16 }
    requires rooms { All (λ s. end - start ≤ s.outcomes.room) sheets.old.items }
    requires none { workers.old.items ≡ [] }
    requires places { length sheets.old.items ≤ vec_capacity workers.old }
    ensures areas { IsOf areas.now seat.new }
    ensures seat { seat.new.known ≡ record seat.old.known { share = seat.new.known.share; right = seat.new.known.right } }
    ensures whole { seat.new.known.share + shares workers.new.items ≡ 65536 }
    ensures sheets { (sheets.new.items ≡ []) × (vec_capacity sheets.new ≡ vec_capacity sheets.old) }
    ensures workers { (length workers.new.items ≡ length sheets.old.items) × (vec_capacity workers.new ≡ vec_capacity workers.old) }
    ensures rooms { (room : ℕ) → All (λ s. room ≤ s.outcomes.room) sheets.old.items → All (HasRoom room) workers.new.items }
    ensures at_hand { All (IsAtHand areas.now start end) workers.new.items }
    ensures judged { (items : List Item) → All (HasJudged areas.now.plan items start) workers.new.items }
{
    'sheets: while let Some(mut sheet) = sheets.pop() {
        sheet.outcomes.clear();
        let part = areas.split(seat);
        let worker = Worker::of(part, sheet.outcomes, start);
        workers.push_reserved(worker);
    }
}

// As many places as the round has numbers.
fn fit(places: &mut Vec<Place>, count: usize)
    requires room { count ≤ vec_capacity places.old }
    ensures size { length places.new.items ≡ count }
    ensures room { vec_capacity places.old ≤ vec_capacity places.new }
{
    match places.resize(count, Place { sheet: 0, index: 0 }) {
        Ok(()) => {}
        Err(_) => unreachable!(),
    }
}

// Notes at the number of each outcome of a sheet where it stands.
fn note_places(places: &mut [Place], numbers: &[u32], sheet: u32, start: u32)
    requires inside { All (λ n. (start ≤ n) × (n < start + length places.old)) numbers.now }
    requires few { length numbers.now < 4294967296 }
    ensures size { length places.new ≡ length places.old }
    ensures noted { AreNoted start sheet numbers.now (length numbers.now) places.old places.new }
{
    'numbers: for index in 0..numbers.len() {
        let at = (numbers[index] - start) as usize;
        places[at] = Place {
            sheet,
            index: index as u32,
        };
    }
}

// The same in a list of places.
fn note_sheet(places: &mut Vec<Place>, numbers: &[u32], sheet: u32, start: u32)
    requires inside { All (λ n. (start ≤ n) × (n < start + length places.old.items)) numbers.now }
    requires few { length numbers.now < 4294967296 }
    ensures size { length places.new.items ≡ length places.old.items }
    ensures room { vec_capacity places.new ≡ vec_capacity places.old }
    ensures noted { AreNoted start sheet numbers.now (length numbers.now) places.old.items places.new.items }
{
    note_places(places.as_mut_slice(), numbers, sheet, start);
}

// Takes the workers of a round apart: their seats are joined into one, each has its sheet back, and each number has its place.
pub(crate) fn gather(
    areas: &Areas,
    seat: &mut WorkerSeat,
    workers: &mut Vec<Worker>,
    sheets: &mut Vec<Sheet>,
    places: &mut Vec<Place>,
    start: u32,
    end: u32,
)
    requires areas { IsOf areas.now seat.old }
    requires idle { IsIdle seat.old.known }
    requires at_hand { All (IsAtHand areas.now start end) workers.old.items }
    requires range { start ≤ end }
    requires room { end - start ≤ vec_capacity places.old }
    requires none { sheets.old.items ≡ [] }
    requires few { length workers.old.items ≤ 16 }
    requires sheets { length workers.old.items ≤ vec_capacity sheets.old }
    ensures areas { IsOf areas.now seat.new }
    ensures idle { IsIdle seat.new.known }
    ensures whole { seat.new.known.share ≡ seat.old.known.share + shares workers.old.items }
    ensures workers { (workers.new.items ≡ []) × (vec_capacity workers.new ≡ vec_capacity workers.old) }
    ensures sheets { (length sheets.new.items ≡ length workers.old.items) × (vec_capacity sheets.new ≡ vec_capacity sheets.old) }
    ensures rooms { (room : ℕ) → All (HasRoom room) workers.old.items → All (λ s. room ≤ s.outcomes.room) sheets.new.items }
    ensures places { (start + length places.new.items ≡ end) × (vec_capacity places.old ≤ vec_capacity places.new) }
    ensures gathered { (items : List Item) → All (HasJudged areas.now.plan items start) workers.old.items →
        Gathered areas.now.plan items start end seat.old.known seat.new.known sheets.new.items places.new.items }
{
    fit(places, (end - start) as usize);
    'workers: while let Some(worker) = workers.pop() {
        let Worker {
            seat: part,
            outcomes,
            ..
        } = worker;
        areas.join(seat, part);
        note_sheet(places, outcomes.numbers(), sheets.len() as u32, start);
        sheets.push_reserved(Sheet { outcomes });
    }
}
