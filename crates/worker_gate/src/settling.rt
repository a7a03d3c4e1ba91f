// All that is due is put into force.
ghost use Rattle.std.specs.Prelude.{◌≡◌, ◌⊎◌, true};
ghost use Rattle.area_swap.specs.Values.{IsDesk, IsIdle, IsOf, IsReady, IsResting};
ghost use Rattle.worker_gate.specs.Reloading.{HasMorePoints, HasTurns, IsSettled};
ghost use Rattle.worker_gate.specs.Turns.{DrawsNothing};

use crate::reloading::reload;
use area_swap::{Areas, Desk, Due, WorkerSeat};
use std::sync::Wait;
use std::thread::yield_now;

// Whether the version that is read is the desk's, and no table is due at the records that are read with it.
fn is_settled(areas: &Areas, seat: &mut WorkerSeat, desk: &mut Desk) -> bool
    requires areas { IsOf areas.now seat.old × IsOf areas.now desk.old }
    requires idle { IsIdle seat.old.known }
    requires phase { IsResting desk.old.known ⊎ IsReady desk.old.known }
    ensures areas { IsOf areas.now seat.new × IsOf areas.now desk.new }
    ensures idle { IsIdle seat.new.known }
    ensures phase { IsResting desk.new.known ⊎ IsReady desk.new.known }
    ensures desk { IsDesk desk.new.known }
    ensures nothing { DrawsNothing seat.old.known seat.new.known }
    ensures turns { HasTurns desk.old.known desk.new.known }
    ensures settled { result ≡ true → IsSettled seat.new.known desk.new.known }
{
    let seen = areas.see(seat);
    if seen.version as usize != desk.points().len() {
        return false;
    }
    match areas.due(desk) {
        Due::None => true,
        Due::Later { earliest, .. } => seen.records < earliest,
        Due::Now => false,
    }
}

/// Puts all that is due into force: afterwards the version that the seat read last is that of the desk's last point, and no table
/// is left or the next one waits for more records than the seat read with it. The answer is how many tables it put into force. It
/// may wait for seats that claim the spare area, and takes no memory.
pub fn settle<R: Wait>(rt: &R, areas: &Areas, seat: &mut WorkerSeat, desk: &mut Desk) -> u32
    requires areas { IsOf areas.now seat.old × IsOf areas.now desk.old }
    requires idle { IsIdle seat.old.known }
    requires phase { IsResting desk.old.known ⊎ IsReady desk.old.known }
    ensures areas { IsOf areas.now seat.new × IsOf areas.now desk.new }
    ensures idle { IsIdle seat.new.known }
    ensures nothing { DrawsNothing seat.old.known seat.new.known }
    ensures desk { IsDesk desk.new.known }
    ensures points { HasMorePoints result desk.old.known desk.new.known }
    ensures settled { IsSettled seat.new.known desk.new.known }
{
    let mut published = 0;
    'tries: for _ in rt.forever() {
        published += reload(areas, desk, 0);
        if is_settled(areas, seat, desk) {
            return published;
        }
        yield_now();
    }
    unreachable!()
}
