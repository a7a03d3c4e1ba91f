// A round: all its records are drawn and judged by workers, beside the desk that puts the next tables into force.
ghost use Rattle.std.specs.Prelude.{◌≡◌, ℕ, ◌+◌, ◌-◌, ◌<◌, ◌≤◌, ◌⊎◌, [], All, length, map, vec_capacity};
ghost use Rattle.std.specs.Thread.{IsSync};
ghost use Rattle.table_words.specs.Layout.{AreCompiled};
ghost use Rattle.area_swap.specs.Values.{HasWholeShare, IsDesk, IsIdle, IsOf, IsReady, IsResting};
ghost use Rattle.worker_gate.specs.Crews.{IsPlaced, outcomes_at};
ghost use Rattle.worker_gate.specs.Gathering.{IsIdleSeat, IsOfRound, hand_of};
ghost use Rattle.worker_gate.specs.Reloading.{CanReload, IsSettled, KeepsPoints};
ghost use Rattle.worker_gate.specs.Rounds.{IsRound};
ghost use Rattle.worker_gate.specs.Turns.{DrawsNothing};

use crate::crew::{Crew, Place, Sheet};
use crate::gate::Gate;
use crate::gathering::{gather, hire};
use crate::reloading::reload_beside;
use crate::serving::serve_in;
use crate::settling::settle;
use crate::task::{Task, Work};
use crate::worker::Worker;
use area_swap::{Areas, Desk, Due, WorkerSeat};
use item_stage::RoundItems;
use std::marker::Brand;
use std::sync::Wait;
use std::sync::ledger::Blank;
use std::thread::{Threads, join_mut};

// At most so many numbers are drawn at once.
const MOST: u32 = 64;

// How many numbers a worker draws at once: few enough that all have work to the end, as many as make an exchange worth its cost.
fn draw_size(count: u32, workers: usize) -> u32
    requires { 0 < workers }
    ensures { 1 ≤ result }
{
    let share = count as usize / workers / 16;
    (share.min(MOST as usize) as u32).max(1)
}

// One worker serves for a pass of a round.
fn serve_one<R: Wait, S: RoundItems, G: Gate>(rt: &R, task: &Task<'_, S, G>, worker: &mut Worker)
    requires round { IsOfRound task.now.areas.now (S.items task.now.items.now) task.now.start task.now.end worker.old }
    ensures round { IsOfRound task.now.areas.now (S.items task.now.items.now) task.now.start task.now.end worker.new }
    ensures hand { hand_of worker.new ≡ hand_of worker.old }
{
    serve_in::<R, S, G, Brand>(rt, task, worker, Blank::new(1));
}

// The first worker serves in a new thread, and the others beside it.
#[cycle(beside)]
fn serve_beside<R: Threads + Wait + Sync, S: RoundItems + Sync, G: Gate + Sync>(
    rt: &R,
    task: &Task<'_, S, G>,
    first: &mut Worker,
    others: &mut [Worker],
)
    requires first { IsOfRound task.now.areas.now (S.items task.now.items.now) task.now.start task.now.end first.old }
    requires others { All (IsOfRound task.now.areas.now (S.items task.now.items.now) task.now.start task.now.end) others.old }
    ensures first { IsOfRound task.now.areas.now (S.items task.now.items.now) task.now.start task.now.end first.new }
    ensures others { All (IsOfRound task.now.areas.now (S.items task.now.items.now) task.now.start task.now.end) others.new }
    ensures first_hand { hand_of first.new ≡ hand_of first.old }
    ensures other_hands { map hand_of others.new ≡ map hand_of others.old }
{
    let mut one = ||
        requires { IsSync R.row × (IsSync S.row × (IsSync G.row
            × (IsOfRound task.now.areas.now (S.items task.now.items.now) task.now.start task.now.end first.now))) }
        ensures { IsOfRound task.entry.now.areas.now (S.items task.entry.now.items.now) task.entry.now.start task.entry.now.end first.exit.now
            × (hand_of first.exit.now ≡ hand_of first.entry.now) }
    { serve_one(rt, task, first) };
    let mut rest = ||
        requires { IsSync R.row × (IsSync S.row × (IsSync G.row
            × (All (IsOfRound task.now.areas.now (S.items task.now.items.now) task.now.start task.now.end) others.now))) }
        ensures { All (IsOfRound task.entry.now.areas.now (S.items task.entry.now.items.now) task.entry.now.start task.entry.now.end) others.exit.now
            × (map hand_of others.exit.now ≡ map hand_of others.entry.now) }
    { serve_all(rt, task, others) };
    join_mut(rt, &mut one, &mut rest);
}

// All workers serve: each in a thread of its own where that pays, and else one behind the other. One thread makes all the others: what a
// thread makes that was just made itself begins late.
#[cycle(beside)]
fn serve_all<R: Threads + Wait + Sync, S: RoundItems + Sync, G: Gate + Sync>(
    rt: &R,
    task: &Task<'_, S, G>,
    workers: &mut [Worker],
)
    requires round { All (IsOfRound task.now.areas.now (S.items task.now.items.now) task.now.start task.now.end) workers.old }
    ensures round { All (IsOfRound task.now.areas.now (S.items task.now.items.now) task.now.start task.now.end) workers.new }
    ensures hands { map hand_of workers.new ≡ map hand_of workers.old }
{
    let Some((first, others)) = workers.split_first_mut() else {
        return;
    };
    if task.apart && !others.is_empty() {
        serve_beside(rt, task, first, others);
    } else {
        serve_one(rt, task, first);
        serve_all(rt, task, others);
    }
}

// Whether a table can come into force before so many records are drawn.
fn may_come(areas: &Areas, desk: &mut Desk, end: u32) -> bool
    requires desk { CanReload areas.now desk.old }
    ensures desk { CanReload areas.now desk.new }
    ensures points { KeepsPoints desk.old.known desk.new.known }
{
    match areas.due(desk) {
        Due::None => false,
        Due::Later { earliest, .. } => earliest < end,
        Due::Now => true,
    }
}

// The workers serve until none of them can draw more. Where a table can come into force before the end, the desk is at work
// beside them.
fn pass<R: Threads + Wait + Sync, S: RoundItems + Sync, G: Gate + Sync>(
    rt: &R,
    task: &Task<'_, S, G>,
    workers: &mut [Worker],
    desk: &mut Desk,
)
    requires round { All (IsOfRound task.now.areas.now (S.items task.now.items.now) task.now.start task.now.end) workers.old }
    requires desk { CanReload task.now.areas.now desk.old }
    ensures round { All (IsOfRound task.now.areas.now (S.items task.now.items.now) task.now.start task.now.end) workers.new }
    ensures hands { map hand_of workers.new ≡ map hand_of workers.old }
    ensures desk { CanReload task.now.areas.now desk.new }
    ensures points { KeepsPoints desk.old.known desk.new.known }
{
    if !may_come(task.areas, desk, task.end) {
        serve_all(rt, task, workers);
        return;
    }
    join_mut(
        rt,
        &mut ||
            requires { IsSync R.row × (IsSync S.row × (IsSync G.row
                × (All (IsOfRound task.now.areas.now (S.items task.now.items.now) task.now.start task.now.end) workers.now))) }
            ensures { All (IsOfRound task.entry.now.areas.now (S.items task.entry.now.items.now) task.entry.now.start task.entry.now.end) workers.exit.now
                × (map hand_of workers.exit.now ≡ map hand_of workers.entry.now) }
        { serve_all(rt, task, workers) },
        &mut ||
            requires { CanReload task.now.areas.now desk.now }
            ensures { CanReload task.entry.now.areas.now desk.exit.now × KeepsPoints desk.entry.now.known desk.exit.now.known }
        { reload_beside(task.areas, desk, task.end) },
    );
}

// Passes, and between them all that is due is put into force, until all records of the round are drawn.
fn passes<R: Threads + Wait + Sync, S: RoundItems + Sync, G: Gate + Sync>(
    rt: &R,
    task: &Task<'_, S, G>,
    workers: &mut Vec<Worker>,
    seat: &mut WorkerSeat,
    desk: &mut Desk,
)
    requires round { All (IsOfRound task.now.areas.now (S.items task.now.items.now) task.now.start task.now.end) workers.old.items }
    requires seat { IsIdleSeat task.now.areas.now seat.old }
    requires desk { CanReload task.now.areas.now desk.old }
    ensures round { All (IsOfRound task.now.areas.now (S.items task.now.items.now) task.now.start task.now.end) workers.new.items }
    ensures hands { map hand_of workers.new.items ≡ map hand_of workers.old.items }
    ensures room { vec_capacity workers.new ≡ vec_capacity workers.old }
    ensures seat { IsIdleSeat task.now.areas.now seat.new }
    ensures desk { CanReload task.now.areas.now desk.new }
    ensures nothing { DrawsNothing seat.old.known seat.new.known }
    ensures reached { task.now.end ≤ seat.new.known.seen.records }
    ensures points { KeepsPoints desk.old.known desk.new.known }
{
    'passes: for _ in rt.forever() {
        pass(rt, task, workers.as_mut_slice(), desk);
        if task.areas.see(seat).records >= task.end {
            return;
        }
        settle(rt, task.areas, seat, desk);
    }
    unreachable!()
}

// A round over the parts of a crew.
fn run<R: Threads + Wait + Sync, S: RoundItems + Sync, G: Gate + Sync>(
    rt: &R,
    task: &Task<'_, S, G>,
    seat: &mut WorkerSeat,
    desk: &mut Desk,
    sheets: &mut Vec<Sheet>,
    workers: &mut Vec<Worker>,
    places: &mut Vec<Place>,
)
    requires seat { IsIdleSeat task.now.areas.now seat.old }
    requires desk { CanReload task.now.areas.now desk.old }
    requires whole { HasWholeShare seat.old.known }
    requires drawn { length seat.old.known.actor.draws ≡ task.now.start }
    requires compiled { All AreCompiled task.now.areas.now.plan.tables }
    requires range { task.now.start ≤ task.now.end }
    requires few { length sheets.old.items ≤ 16 }
    requires rooms { All (λ s. task.now.end - task.now.start ≤ s.outcomes.room) sheets.old.items }
    requires sheets { length sheets.old.items ≤ vec_capacity sheets.old }
    requires workers { (workers.old.items ≡ []) × (length sheets.old.items ≤ vec_capacity workers.old) }
    requires places { task.now.end - task.now.start ≤ vec_capacity places.old }
    ensures areas { IsOf task.now.areas.now seat.new × IsOf task.now.areas.now desk.new }
    ensures round { IsRound (S.items task.now.items.now) task.now.start task.now.end seat.old.known seat.new.known
        (outcomes_at sheets.new.items places.new.items) }
    ensures points { KeepsPoints desk.old.known desk.new.known }
    ensures desk { IsDesk desk.new.known }
    ensures settled { IsSettled seat.new.known desk.new.known }
    ensures sheets { (length sheets.new.items ≡ length sheets.old.items) × (vec_capacity sheets.new ≡ vec_capacity sheets.old) }
    ensures rooms { (room : ℕ) → All (λ s. room ≤ s.outcomes.room) sheets.old.items → All (λ s. room ≤ s.outcomes.room) sheets.new.items }
    ensures workers { (workers.new.items ≡ []) × (vec_capacity workers.new ≡ vec_capacity workers.old) }
    ensures places { All (IsPlaced sheets.new.items) places.new.items × (task.now.start + length places.new.items ≡ task.now.end) }
    ensures room { vec_capacity places.old ≤ vec_capacity places.new }
{
    task.areas.see(seat);
    hire(task.areas, seat, sheets, workers, task.start, task.end);
    passes(rt, task, workers, seat, desk);
    gather(
        task.areas, seat, workers, sheets, places, task.start, task.end,
    );
    task.areas.tally(seat);
    settle(rt, task.areas, seat, desk);
}

/// All records are drawn and judged by the crew's workers, beside the desk that puts the next tables into force. Afterwards the
/// crew has an outcome for each, all that is due is in force, and the seat has drawn them. It may wait, and takes no memory: so the
/// records of a round are at most as many as the crew has room for.
pub fn round<R: Threads + Wait + Sync, S: RoundItems + Sync, G: Gate + Sync>(
    rt: &R,
    areas: &Areas,
    seat: &mut WorkerSeat,
    desk: &mut Desk,
    crew: &mut Crew,
    work: &Work<'_, S, G>,
)
    requires areas { IsOf areas.now seat.old × IsOf areas.now desk.old }
    requires idle { IsIdle seat.old.known }
    requires whole { HasWholeShare seat.old.known }
    requires drawn { length seat.old.known.actor.draws ≡ work.now.start }
    requires phase { IsResting desk.old.known ⊎ IsReady desk.old.known }
    requires compiled { All AreCompiled areas.now.plan.tables }
    requires range { work.now.start ≤ work.now.end }
    requires inside { work.now.end ≡ work.now.start + length (S.items work.now.items.now) }
    requires room { length (S.items work.now.items.now) ≤ crew.old.room }

    // An outcome for each number, and what the seat drew and read.
    ensures areas { IsOf areas.now seat.new × IsOf areas.now desk.new }
    ensures round { IsRound (S.items work.now.items.now) work.now.start work.now.end seat.old.known seat.new.known crew.new.outcomes }
    ensures crew { (crew.new.workers ≡ crew.old.workers) × (crew.new.room ≡ crew.old.room) }

    // What came into force.
    ensures points { KeepsPoints desk.old.known desk.new.known }
    ensures desk { IsDesk desk.new.known }
    ensures settled { IsSettled seat.new.known desk.new.known }
    ensures versions { All (λ o. o.version ≤ length desk.new.known.points) crew.new.outcomes }
{
    let count = work.end - work.start;
    let task = Task {
        areas,
        items: work.items,
        start: work.start,
        end: work.end,
        most: draw_size(count, crew.sheets.len()),
        apart: count >= work.gate.threads_from(),
        gate: work.gate,
    };
    run(
        rt,
        &task,
        seat,
        desk,
        &mut crew.sheets,
        &mut crew.workers,
        &mut crew.places,
    );
}
