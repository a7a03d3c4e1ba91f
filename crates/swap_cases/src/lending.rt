// Seats that are lent: each holds a table, and one seat draws all numbers.
ghost use Rattle.std.specs.Prelude.{◌≡◌, ◌+◌, ◌<◌, ◌⊎◌};
ghost use Rattle.area_swap.specs.Values.{DrawsAlone, IsIdle, IsOf, IsReady, IsResting, MayDraw};

use crate::seats::{draw_three, publish_next};
use crate::words::table;
use area_swap::{Areas, Claim, Desk, WorkerSeat, prepare};
use std::test::Fail;
use swap_core::{Plan, Window};

// Lends a seat, which may not draw.
fn lend_one(areas: &Areas, seat: &mut WorkerSeat, share: u64) -> WorkerSeat
    requires areas { IsOf areas.now seat.old }
    requires idle { IsIdle seat.old.known }
    requires alone { DrawsAlone seat.old.known }
    requires share { seat.old.known.share ≡ share + share }
    ensures areas { IsOf areas.now seat.new × IsOf areas.now result }
    ensures idle { IsIdle seat.new.known × IsIdle result.known }
    ensures alone { DrawsAlone seat.new.known }
    ensures share { (seat.new.known.share ≡ share) × (result.known.share ≡ share) }
    ensures no_right { (result.known.right ≡ 0) × (MayDraw result.known → ⊥) }
{
    areas.lend(seat)
}

// The version that the seat holds, and the first word of its table; nothing if the claim has to be tried again.
fn hold_one(areas: &Areas, seat: &mut WorkerSeat) -> Option<(u32, u64)>
    requires areas { IsOf areas.now seat.old }
    requires idle { IsIdle seat.old.known }
    ensures areas { IsOf areas.now seat.new }
    ensures idle { IsIdle seat.new.known }
    ensures share { (seat.new.known.share ≡ seat.old.known.share) × (seat.new.known.right ≡ seat.old.known.right) }
{
    let Claim::Held { version } = areas.claim(seat) else {
        return None;
    };
    let word = areas.word(seat, 0);
    areas.leave(seat);
    Some((version, word))
}

// Lends a seat, again and again, until the share is odd. Each time this seat draws three numbers, and the lent one holds the table in
// force, whose word is its version and 7. The next table comes into force when the share is 256. All seats are joined again. The answer
// is how many seats were lent and did so.
fn lend_all(areas: &Areas, seat: &mut WorkerSeat, desk: &mut Desk, share: u64) -> u32
    requires areas { IsOf areas.now seat.old × IsOf areas.now desk.old }
    requires idle { IsIdle seat.old.known }
    requires alone { DrawsAlone seat.old.known }
    requires phase { IsResting desk.old.known ⊎ IsReady desk.old.known }
    requires share { seat.old.known.share ≡ share }
    requires some { 0 < share }
    ensures areas { IsOf areas.now seat.new × IsOf areas.now desk.new }
    ensures idle { IsIdle seat.new.known }
    ensures alone { DrawsAlone seat.new.known }
    ensures share { seat.new.known.share ≡ share }
    ensures phase { IsResting desk.new.known ⊎ IsReady desk.new.known }
{
    publish_next(areas, desk, share == 256);
    if share % 2 != 0 {
        return 0;
    }
    let mut lent = lend_one(areas, seat, share / 2);
    let drew = draw_three(areas, seat);
    let expected = if share > 256 { (0, 7) } else { (1, 8) };
    let held = hold_one(areas, &mut lent) == Some(expected);
    let others = lend_all(areas, seat, desk, share / 2);
    areas.join(seat, lent);
    if drew && held {
        others.saturating_add(1)
    } else {
        others
    }
}

#[test]
fn sixteen_lent_seats_hold_while_one_seat_draws(rt: HostRuntime) -> Result<(), Fail> {
    let window = Window {
        earliest: 1,
        latest: 100,
    };
    let mut plan = Plan::of(rt.alloc(), table(rt.alloc(), 1, 7)?)?;
    plan.add(window, table(rt.alloc(), 1, 8)?)?;
    let (areas, mut seat, mut desk) = prepare(rt.alloc(), plan)?;
    assert_eq!(rt; lend_all(&areas, &mut seat, &mut desk, 65_536), 16);
    assert_eq!(rt; areas.tally(&mut seat), 48);
    let history = areas.close(seat, desk);
    assert_eq!(rt;
        (history.points(), history.records()),
        ([24].as_slice(), 48)
    );
    Ok(())
}
