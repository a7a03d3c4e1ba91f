// Single tries to hold a table and to draw.
ghost use Rattle.std.specs.Prelude.{◌≡◌, ℕ, ◌≤◌, All, IfSome};
ghost use Rattle.binding_rules.specs.declared.settings.Softwire.{Softwire};
ghost use Rattle.table_words.specs.Layout.{AreCompiled};
ghost use Rattle.swap_core.specs.declared.actors.ActorState.TheVariants.{Idle};
ghost use Rattle.area_swap.specs.Rule.{Moment};
ghost use Rattle.area_swap.specs.Values.{HoldsOne, HoldsStill, IsIdle, IsOf, MayDraw};
ghost use Rattle.area_swap.specs.Views.{acting, held_table};
ghost use Rattle.worker_gate.specs.Serving.{IsHolding};
ghost use Rattle.worker_gate.specs.Turns.{DrawsNothing, HasTried, HasTurned};

use crate::outcomes::Stop;
use area_swap::{Areas, Claim, DrawRun, WorkerSeat};

/// What one try to draw gave.
#[derive(Clone, Copy, Debug)]
pub(crate) enum Turn {
    /// So many numbers from this one on.
    Run { first: u32, count: u32 },
    /// Another seat was faster.
    Lost,
    /// Another version than the held one is in force.
    Moved,
    Stop(Stop),
}

/// Tries to hold the table in force: its version, where it is held.
pub(crate) fn try_claim(areas: &Areas, seat: &mut WorkerSeat) -> Option<u32>
    requires areas { IsOf areas.now seat.old }
    requires idle { IsIdle seat.old.known }
    requires compiled { All AreCompiled areas.now.plan.tables }
    ensures areas { IsOf areas.now seat.new }
    ensures tried { HasTried result seat.old.known seat.new.known }
    ensures compiled { IfSome result (λ _. AreCompiled (held_table seat.new.known)) }
{
    match areas.claim(seat) {
        Claim::Held { version } => Some(version),
        Claim::Moved { .. } => None,
    }
}

/// Tries to draw up to `most` numbers below `end`.
pub(crate) fn take_run(areas: &Areas, seat: &mut WorkerSeat, end: u32, most: u32) -> Turn
    requires areas { IsOf areas.now seat.old }
    requires holding { HoldsOne seat.old.known }
    requires may_draw { MayDraw seat.old.known }
    requires some_one { 1 ≤ most }
    ensures areas { IsOf areas.now seat.new }
    ensures holding { HoldsStill seat.old.known seat.new.known }
    ensures turned { HasTurned result end seat.old.known seat.new.known }
    ensures rule { Moment seat.new.known }
    ensures goes_on_holding { (version : ℕ) (settings : Softwire) → IsHolding areas.now version settings seat.old →
        IsHolding areas.now version settings seat.new }
{
    match areas.draw_run(seat, end, most) {
        DrawRun::Taken { number, count } => Turn::Run {
            first: number,
            count,
        },
        DrawRun::Lost { .. } => Turn::Lost,
        DrawRun::Moved { .. } => Turn::Moved,
        DrawRun::End => Turn::Stop(Stop::End),
        DrawRun::Hold { limit } => Turn::Stop(Stop::Hold { limit }),
    }
}

/// Gives up the claim.
pub(crate) fn give_up(areas: &Areas, seat: &mut WorkerSeat)
    requires areas { IsOf areas.now seat.old }
    requires holding { HoldsOne seat.old.known }
    ensures areas { IsOf areas.now seat.new }
    ensures idle { IsIdle seat.new.known }
    ensures nothing { DrawsNothing seat.old.known seat.new.known }
    ensures after { seat.new.known ≡ acting seat.old.known Idle }
    ensures same { (seat.new.known.seen ≡ seat.old.known.seen) × (seat.new.known.actor.draws ≡ seat.old.known.actor.draws) }
{
    areas.leave(seat);
}
