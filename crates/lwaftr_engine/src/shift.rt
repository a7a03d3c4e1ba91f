// The workers of a run, and the desk that puts the next tables into force beside them.
ghost use Rattle.std.specs.Prelude.{◌≡◌, ◌+◌, ◌≤◌, [], All, IfOk, length};
ghost use Rattle.item_stage.specs.Items.{items_in};
ghost use Rattle.lwaftr_engine.specs.Progress.{IsClosed, IsOnDuty, Suits, state_by};
ghost use Rattle.lwaftr_engine.specs.Runs.{all_asking};
ghost use Rattle.lwaftr_engine.specs.Underway.{StaysOnDuty};
ghost use Rattle.lwaftr_engine.specs.declared.rounds.Progress.{Progress};
ghost use Rattle.run_output.specs.Outputs.{Course};
ghost use Rattle.run_output.specs.Rendering.{AreFitting, HasOutcomes};
ghost use Rattle.table_words.specs.Layout.{AreCompiled};
ghost use Rattle.worker_gate.specs.Reloading.{IsSettled};

use aftr_base::OutOfMemory;
use area_swap::{Areas, Desk, History, WorkerSeat, prepare};
use capture_io::MOST_TAKEN;
use item_stage::Items;
use std::alloc::Global;
use std::sync::Wait;
use std::thread::Threads;
use swap_core::Plan;
use verdict_core::access;
use worker_gate::{Crew, Gate, Work, outcomes_are_in_force, round};

/// So many of the workers are at work in a round: they judge as fast as one thread reads and writes.
const MOST_AT_WORK: u32 = 2;

/// The areas in which tables are swapped, the seat of all workers, the desk, and the memory of rounds.
#[derive(Drop)]
pub struct Shift {
    pub areas: Areas,
    pub seat: WorkerSeat,
    pub desk: Desk,
    pub crew: Crew,
}

/// The workers before the first record, with all the memory that their rounds take.
pub fn begin_shift(alloc: Global, plan: Plan, workers: u32) -> Result<Shift, OutOfMemory>
    requires some_one { 1 ≤ workers }
    requires few { workers ≤ 16 }
    ensures duty { IfOk result (λ shift. IsOnDuty plan shift) }
    ensures drawn { IfOk result (λ shift. shift.seat.known.actor.draws ≡ []) }
    ensures points { IfOk result (λ shift. shift.desk.known.points ≡ []) }
    ensures reads { IfOk result (λ shift. shift.seat.known.reads ≡ 0) }
{
    let crew = Crew::with(alloc, workers.min(MOST_AT_WORK), MOST_TAKEN)?;
    let (areas, seat, desk) = prepare(alloc, plan)?;
    Ok(Shift {
        areas,
        seat,
        desk,
        crew,
    })
}

/// Judges the items of a round, of which the first has the number `start`: each has an outcome, and what is due is in force.
pub fn judge_round<R: Threads + Wait + Sync, G: Gate + Sync>(
    rt: &R,
    shift: &mut Shift,
    items: &Items<'_>,
    start: u32,
    end: u32,
    gate: &G,
)
    requires duty { IsOnDuty shift.old.areas.plan shift.old }
    requires drawn { length shift.old.seat.known.actor.draws ≡ start }
    requires compiled { All AreCompiled shift.old.areas.plan.tables }
    requires count { end ≡ start + length items.now }
    requires few { length items.now ≤ 16384 }
    ensures duty { StaysOnDuty shift.old shift.new end }
    ensures drawn { length shift.new.seat.known.actor.draws ≡ end }
    ensures reads { shift.old.seat.known.reads + all_asking (items_in items.now) ≤ shift.new.seat.known.reads }
    ensures settled { IsSettled shift.new.seat.known shift.new.desk.known }
    ensures outcomes { (c : Course) → Suits shift.old.areas.plan shift.new.seat.known.actor.draws c → HasOutcomes c start items.now shift.new.crew.outcomes }
    ensures fitting { AreFitting items.now shift.new.crew.outcomes }
    ensures versions { All (λ o. o.version ≤ length shift.new.desk.known.points) shift.new.crew.outcomes }
{
    // Laws, and no steps: what holds of every verdict.
    access();
    let work = Work {
        items,
        start,
        end,
        gate,
    };
    round(
        rt,
        &shift.areas,
        &mut shift.seat,
        &mut shift.desk,
        &mut shift.crew,
        &work,
    );
}

/// Closes the areas.
pub fn end_shift(shift: Shift) -> History
    requires duty { IsOnDuty shift.areas.plan shift }
    ensures { (p : Progress) → IsClosed (state_by p shift) result }
{
    let Shift {
        areas,
        seat,
        desk,
        crew: _,
    } = shift;
    areas.close(seat, desk)
}
