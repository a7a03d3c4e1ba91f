// A worker's way through the records: it holds a table, draws, judges, and puts down what came of it.
ghost use Rattle.std.specs.Prelude.{◌≡◌, ◌+◌, ◌-◌, ◌<◌, ◌≤◌, All, IfSome, length};
ghost use Rattle.table_words.specs.Layout.{AreCompiled};
ghost use Rattle.area_swap.specs.Values.{HoldsOne, IsIdle, IsOf};
ghost use Rattle.area_swap.specs.Views.{held_table, held_version};
ghost use Rattle.worker_gate.specs.Serving.{ArePutDown, CanServe, HasEnded, HasServed, HeldLast, HoldsLast, IsHolding, IsPutDown};
ghost use Rattle.worker_gate.specs.Turns.{DrawsNothing};

use crate::claims::{Turn, give_up, take_run, try_claim};
use crate::gate::Gate;
use crate::judging::held_settings;
use crate::outcome_list::Drawn;
use crate::outcomes::Stop;
use crate::task::{Task, Work};
use crate::worker::Worker;
use area_swap::{Areas, WorkerSeat};
use binding_rules::Softwire;
use ip_codec::ItemView;
use item_stage::RoundItems;
use std::marker::Brand;
use std::sync::Wait;
use std::sync::ledger::{Blank, Ledger};
use std::thread::yield_now;
use table_words::Steps;

// So often a worker looks at most whether the next table came that may come.
const LOOKS: u32 = 2_097_152;

// So often it looks before the time slice is given up.
const LOOKS_BETWEEN: u32 = 8_192;

// Judges the item of a record under the held table, and puts its outcome down. The item is written to a place that the caller
// keeps.
fn put_down<'a, S: RoundItems, G: Gate, L: Ledger>(
    task: &Task<'a, S, G>,
    worker: &mut Worker,
    settings: &Softwire,
    number: u32,
    version: u32,
    item: &mut ItemView<'a>,
    steps: &mut Steps<L>,
)
    requires holding { IsHolding task.now.areas.now version settings.now worker.old.seat }
    requires from { task.now.start ≤ number }
    requires inside { number < task.now.start + length (S.items task.now.items.now) }
    requires room { length worker.old.outcomes.items < worker.old.outcomes.room }
    ensures holding { IsHolding task.now.areas.now version settings.now worker.new.seat }
    ensures down { IsPutDown task.now.areas.now.plan (S.items task.now.items.now) task.now.start number version worker.old worker.new }
{
    task.items.item_into((number - task.start) as usize, item);
    worker.outcomes.put_judged(
        Drawn { number, version },
        task.areas,
        &mut worker.seat,
        settings,
        item,
        steps,
    );
}

// The same for the records of a draw, with one place for the items of all.
fn put_run<S: RoundItems, G: Gate, L: Ledger>(
    task: &Task<'_, S, G>,
    worker: &mut Worker,
    settings: &Softwire,
    version: u32,
    first: u32,
    count: u32,
    steps: &mut Steps<L>,
)
    requires holding { IsHolding task.now.areas.now version settings.now worker.old.seat }
    requires from { task.now.start ≤ first }
    requires inside { first + count ≤ task.now.start + length (S.items task.now.items.now) }
    requires small { first + count < 4294967296 }
    requires room { length worker.old.outcomes.items + count ≤ worker.old.outcomes.room }
    ensures holding { IsHolding task.now.areas.now version settings.now worker.new.seat }
    ensures down { ArePutDown task.now.areas.now.plan (S.items task.now.items.now) task.now.start first count version worker.old worker.new }
{
    let mut item = ItemView::Held;
    'numbers: for i in 0..count {
        task.gate.pass(first + i, version);
        put_down(task, worker, settings, first + i, version, &mut item, steps);
    }
}

// Draws and judges under the held table, until another is in force, or may be and the worker is patient, or there is a reason to
// stop.
fn serve_under<R: Wait, S: RoundItems, G: Gate, L: Ledger>(
    rt: &R,
    task: &Task<'_, S, G>,
    worker: &mut Worker,
    version: u32,
    patient: bool,
    settings: &Softwire,
    steps: &mut Steps<L>,
) -> Option<Stop>
    requires work { CanServe task.now.areas.now task.now.start task.now.end worker.old }
    requires holding { IsHolding task.now.areas.now version settings.now worker.old.seat }
    ensures work { CanServe task.now.areas.now task.now.start task.now.end worker.new }
    ensures holding { IsHolding task.now.areas.now version settings.now worker.new.seat }
    ensures served { HasServed task.now.areas.now.plan (S.items task.now.items.now) task.now.start worker.old worker.new }
    ensures ended { IfSome result (λ stop. HasEnded stop task.now.end worker.new.seat.known) }
    ensures last { IfSome result (λ _. HoldsLast worker.new.seat.known) }
{
    'turns: for _ in rt.forever() {
        match take_run(task.areas, &mut worker.seat, task.end, task.most) {
            Turn::Run { first, count } => {
                put_run(task, worker, settings, version, first, count, steps);
                worker.next = first + count;
                if patient && task.areas.threshold(version) <= worker.next {
                    return None;
                }
            }
            Turn::Lost => {}
            Turn::Moved => return None,
            Turn::Stop(stop) => return Some(stop),
        }
    }
    unreachable!()
}

// The same, with the settings of the held table, which are read once.
fn serve_held<R: Wait, S: RoundItems, G: Gate, L: Ledger>(
    rt: &R,
    task: &Task<'_, S, G>,
    worker: &mut Worker,
    version: u32,
    patient: bool,
    steps: &mut Steps<L>,
) -> Option<Stop>
    requires work { CanServe task.now.areas.now task.now.start task.now.end worker.old }
    requires holding { HoldsOne worker.old.seat.known }
    requires version { held_version worker.old.seat.known ≡ version }
    requires compiled { AreCompiled (held_table worker.old.seat.known) }
    ensures work { CanServe task.now.areas.now task.now.start task.now.end worker.new }
    ensures holding { HoldsOne worker.new.seat.known }
    ensures served { HasServed task.now.areas.now.plan (S.items task.now.items.now) task.now.start worker.old worker.new }
    ensures ended { IfSome result (λ stop. HasEnded stop task.now.end worker.new.seat.known) }
    ensures last { IfSome result (λ _. HoldsLast worker.new.seat.known) }
{
    let settings = held_settings(task.areas, &mut worker.seat, steps);
    serve_under(rt, task, worker, version, patient, &settings, steps)
}

// Whether another version than this one came into force, by many looks. A worker that holds nothing waits so for the desk, which else
// gets no turn before all records are drawn: where more threads want to run than there are processors, or where its thread was just made.
fn comes_next(areas: &Areas, seat: &mut WorkerSeat, version: u32) -> bool
    requires areas { IsOf areas.now seat.old }
    requires idle { IsIdle seat.old.known }
    ensures areas { IsOf areas.now seat.new }
    ensures idle { IsIdle seat.new.known }
    ensures nothing { DrawsNothing seat.old.known seat.new.known }
{
    'looks: for turn in 0..LOOKS {
        if areas.see(seat).version != version {
            return true;
        }
        if turn % LOOKS_BETWEEN == LOOKS_BETWEEN - 1 {
            yield_now();
        }
    }
    false
}

// Draws and judges, until all records are drawn or the version in force allows no record more. Once under a version it waits for the
// next table, where that may come.
pub(crate) fn serve_in<R: Wait, S: RoundItems, G: Gate, L: Ledger>(
    rt: &R,
    task: &Task<'_, S, G>,
    worker: &mut Worker,
    blank: Blank,
) -> Stop
    requires work { CanServe task.now.areas.now task.now.start task.now.end worker.old }
    requires idle { IsIdle worker.old.seat.known }
    requires compiled { All AreCompiled task.now.areas.now.plan.tables }
    requires name { blank.name ≡ L.name }
    requires parts { blank.parts ≡ L.parts }
    requires some { 0 < blank.parts }
    ensures work { CanServe task.now.areas.now task.now.start task.now.end worker.new }
    ensures idle { IsIdle worker.new.seat.known }
    ensures served { HasServed task.now.areas.now.plan (S.items task.now.items.now) task.now.start worker.old worker.new }
    ensures ended { HasEnded result task.now.end worker.new.seat.known }
    ensures last { HeldLast worker.new.seat.known }
{
    let mut steps = Steps::<L>::start(blank);
    let mut patient = true;
    'claims: for _ in rt.forever() {
        if let Some(version) = try_claim(task.areas, &mut worker.seat) {
            let ended = serve_held(rt, task, worker, version, patient, &mut steps);
            give_up(task.areas, &mut worker.seat);
            if let Some(stop) = ended {
                return stop;
            }
            patient = comes_next(task.areas, &mut worker.seat, version);
        }
    }
    unreachable!()
}

/// Draws records, up to `most` at once, and judges the item of each under the table that was in force at its draw, until all are
/// drawn or the version in force allows no record more. It may wait, and takes no memory.
pub fn serve<R: Wait, S: RoundItems, G: Gate>(
    rt: &R,
    worker: &mut Worker,
    areas: &Areas,
    work: &Work<'_, S, G>,
    most: u32,
) -> Stop
    requires work { CanServe areas.now work.now.start work.now.end worker.old }
    requires idle { IsIdle worker.old.seat.known }
    requires compiled { All AreCompiled areas.now.plan.tables }
    requires inside { work.now.end ≤ work.now.start + length (S.items work.now.items.now) }
    requires some_one { 1 ≤ most }
    ensures work { CanServe areas.now work.now.start work.now.end worker.new }
    ensures idle { IsIdle worker.new.seat.known }
    ensures served { HasServed areas.now.plan (S.items work.now.items.now) work.now.start worker.old worker.new }
    ensures ended { HasEnded result work.now.end worker.new.seat.known }
    ensures last { HeldLast worker.new.seat.known }
{
    let task = Task {
        areas,
        items: work.items,
        start: work.start,
        end: work.end,
        most,
        apart: false,
        gate: work.gate,
    };
    serve_in::<R, S, G, Brand>(rt, &task, worker, Blank::new(1))
}
