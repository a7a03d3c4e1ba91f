// One seat draws all numbers. Another seat, which judges them, comes to hold the version under which they are drawn.
ghost use Rattle.std.specs.Prelude.{◌≡◌, ◌<◌, All, length};
ghost use Rattle.table_words.specs.Layout.{AreCompiled};
ghost use Rattle.area_swap.specs.Rule.{Moment};
ghost use Rattle.area_swap.specs.Values.{DrawsAlone, HoldsOne, HoldsStill, IsIdle, IsOf};
ghost use Rattle.worker_gate.specs.Drawing.{HasAttempted, HasDrawnFor, HaveTried};

use crate::claims::{give_up, try_claim};
use crate::holders::{FreeSeat, HeldSeat};
use area_swap::{Areas, DrawRun, WorkerSeat};
use std::sync::Wait;

// What a single attempt to draw a round gave.
#[derive(Clone, Copy, Debug)]
pub(crate) enum Attempt {
    // This many numbers.
    Taken { count: u32 },
    // None, since the version word changed meanwhile.
    Nothing,
    // None, since the version in force allows no record more.
    Hold,
}

/// What `draw_for` gave.
#[derive(Drop)]
pub enum RoundDraw<'a> {
    /// `count` numbers are drawn, and the seat holds the version under which they were drawn.
    Taken { held: HeldSeat<'a>, count: u32 },
    /// No number is drawn: the version in force allows no record more, so the next table has to come first.
    Hold { free: FreeSeat<'a> },
}

// Tries to hold the table in force by both seats. It gives the version if both hold it; else neither holds anything.
fn try_both(areas: &Areas, drawer: &mut WorkerSeat, holder: &mut WorkerSeat) -> Option<u32>
    requires areas { IsOf areas.now drawer.old × IsOf areas.now holder.old }
    requires idle { IsIdle drawer.old.known × IsIdle holder.old.known }
    requires compiled { All AreCompiled areas.now.plan.tables }
    ensures areas { IsOf areas.now drawer.new × IsOf areas.now holder.new }
    ensures tried { HaveTried result drawer.old.known holder.old.known drawer.new.known holder.new.known }
{
    let Some(version) = try_claim(areas, holder) else {
        return None;
    };
    if let Some(found) = try_claim(areas, drawer) {
        if found == version {
            return Some(version);
        }
        give_up(areas, drawer);
    }
    give_up(areas, holder);
    None
}

// Tries once to draw the numbers from `start` to below `end`, or the first of them that the held version allows.
fn try_draw(areas: &Areas, seat: &mut WorkerSeat, start: u32, end: u32) -> Attempt
    requires areas { IsOf areas.now seat.old }
    requires holding { HoldsOne seat.old.known }
    requires alone { DrawsAlone seat.old.known }
    requires drawn { length seat.old.known.actor.draws ≡ start }
    requires some_one { start < end }
    ensures areas { IsOf areas.now seat.new }
    ensures holding { HoldsStill seat.old.known seat.new.known }
    ensures attempted { HasAttempted result areas.now.plan start end seat.old.known seat.new.known }
    ensures rule { Moment seat.new.known }
{
    match areas.draw_run(seat, end, end - start) {
        DrawRun::Taken { count, .. } => Attempt::Taken { count },
        DrawRun::Hold { .. } => Attempt::Hold,
        _ => Attempt::Nothing,
    }
}

/// Draws the numbers from `start` to below `end` by one exchange, and lets the free seat hold the version under which they are drawn. It
/// draws only the first of them if the version in force does not allow all, and none if it allows no record more. The drawing seat has
/// all of the right to draw, and has drawn all numbers below `start`. The call may wait.
pub fn draw_for<'a, R: Wait>(
    rt: &R,
    drawer: &mut WorkerSeat,
    free: FreeSeat<'a>,
    start: u32,
    end: u32,
) -> RoundDraw<'a>
    requires areas { IsOf free.areas drawer.old }
    requires idle { IsIdle drawer.old.known }
    requires alone { DrawsAlone drawer.old.known }
    requires drawn { length drawer.old.known.actor.draws ≡ start }
    requires some_one { start < end }
    ensures areas { IsOf free.entry.areas drawer.new }
    ensures idle { IsIdle drawer.new.known }
    ensures drawn { HasDrawnFor result start end free.entry drawer.old.known drawer.new.known }
{
    let FreeSeat { areas, seat } = free;
    let mut holder = seat;
    'tries: for _ in rt.forever() {
        if let Some(version) = try_both(areas, drawer, &mut holder) {
            let attempt = try_draw(areas, drawer, start, end);
            give_up(areas, drawer);
            if let Attempt::Taken { count } = attempt {
                let held = HeldSeat {
                    areas,
                    seat: holder,
                    version,
                };
                return RoundDraw::Taken { held, count };
            }
            give_up(areas, &mut holder);
            if let Attempt::Hold = attempt {
                let free = FreeSeat {
                    areas,
                    seat: holder,
                };
                return RoundDraw::Hold { free };
            }
        }
    }
    unreachable!()
}
