// As many seats as the shares allow, under two versions, joined again.
ghost use Rattle.std.specs.Prelude.{◌≡◌, ◌<◌, ◌⊎◌};
ghost use Rattle.area_swap.specs.Values.{IsIdle, IsOf, IsReady, IsResting, MayDraw};

use crate::words::table;
use area_swap::{Areas, Claim, Desk, DrawRun, Due, Quiet, WorkerSeat, prepare};
use std::test::Fail;
use swap_core::{Plan, Window};

/// Draws three numbers. The answer is whether the seat got them.
pub fn draw_three(areas: &Areas, seat: &mut WorkerSeat) -> bool
    requires areas { IsOf areas.now seat.old }
    requires idle { IsIdle seat.old.known }
    requires may_draw { MayDraw seat.old.known }
    ensures areas { IsOf areas.now seat.new }
    ensures idle { IsIdle seat.new.known }
    ensures share { (seat.new.known.share ≡ seat.old.known.share) × (seat.new.known.right ≡ seat.old.known.right) }
{
    let Claim::Held { .. } = areas.claim(seat) else {
        return false;
    };
    let drawn = areas.draw_run(seat, 1_000, 3);
    areas.leave(seat);
    matches!(drawn, DrawRun::Taken { count: 3, .. })
}

/// Puts the next table into force, if it is time, the table is due and its area is free.
pub fn publish_next(areas: &Areas, desk: &mut Desk, is_time: bool)
    requires areas { IsOf areas.now desk.old }
    requires phase { IsResting desk.old.known ⊎ IsReady desk.old.known }
    ensures areas { IsOf areas.now desk.new }
    ensures phase { IsResting desk.new.known ⊎ IsReady desk.new.known }
{
    if !is_time {
        return;
    }
    if let Due::Now = areas.due(desk) {
        if let Quiet::Free = areas.quiet(desk) {
            areas.write(desk);
            areas.publish(desk);
        }
    }
}

// Splits a seat off, again and again, until the share is odd. Each of the seats draws, and all are joined again. The next
// table comes into force in the middle. False where a seat did not get its numbers.
fn draw_by_all(areas: &Areas, seat: &mut WorkerSeat, desk: &mut Desk, share: u64) -> bool
    requires areas { IsOf areas.now seat.old × IsOf areas.now desk.old }
    requires idle { IsIdle seat.old.known }
    requires phase { IsResting desk.old.known ⊎ IsReady desk.old.known }
    requires share { (seat.old.known.share ≡ share) × (seat.old.known.right ≡ share) }
    requires some { 0 < share }
    ensures areas { IsOf areas.now seat.new × IsOf areas.now desk.new }
    ensures idle { IsIdle seat.new.known }
    ensures share { (seat.new.known.share ≡ share) × (seat.new.known.right ≡ share) }
    ensures phase { IsResting desk.new.known ⊎ IsReady desk.new.known }
{
    publish_next(areas, desk, share == 256);
    if share % 2 != 0 {
        return draw_three(areas, seat);
    }
    let mut other = areas.split(seat);
    let drawn = draw_three(areas, &mut other);
    let others = draw_by_all(areas, seat, desk, share / 2);
    areas.join(seat, other);
    drawn & others
}

#[test]
fn seventeen_seats_draw_under_two_versions(rt: HostRuntime) -> Result<(), Fail> {
    let window = Window {
        earliest: 1,
        latest: 100,
    };
    let mut plan = Plan::of(rt.alloc(), table(rt.alloc(), 1, 7)?)?;
    plan.add(window, table(rt.alloc(), 1, 8)?)?;
    let (areas, mut seat, mut desk) = prepare(rt.alloc(), plan)?;
    assert!(rt; draw_by_all(&areas, &mut seat, &mut desk, 65_536));
    assert_eq!(rt; areas.tally(&mut seat), 51);
    let history = areas.close(seat, desk);
    assert_eq!(rt;
        (history.points(), history.records()),
        ([24].as_slice(), 51)
    );
    Ok(())
}
