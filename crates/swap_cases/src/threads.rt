// Seats in threads of their own, beside one another and the desk.
ghost use Rattle.std.specs.Prelude.{◌≡◌, ℕ, ◌%◌, ◌<◌, ◌≤◌, ◌⊎◌, List, All, length};
ghost use Rattle.std.specs.Thread.{IsSync};
ghost use Rattle.area_swap.specs.Values.{HoldsOne, IsIdle, IsOf, IsReady, IsResting, MayDraw};
ghost use Rattle.area_swap.specs.Views.{held_table};

use crate::words::table;
use area_swap::{Areas, Claim, Desk, Draw, Due, Quiet, WorkerSeat, prepare};
use std::test::Fail;
use std::thread::{Threads, join, yield_now};
use swap_core::{Plan, Window};

const TURNS: u32 = 1 << 30;

// What a thread did: how many numbers it drew, their sum, and how many words it found that are not its version's.
#[derive(Clone, Copy, Debug, PartialEq, Eq)]
struct Done {
    count: u64,
    sum: u64,
    wrong: u64,
}

impl Done {
    fn and(self, other: Done) -> Done {
        Done {
            count: self.count.wrapping_add(other.count),
            sum: self.sum.wrapping_add(other.sum),
            wrong: self.wrong.wrapping_add(other.wrong),
        }
    }
}

// Draws under the held version, whose number each word of its table has, and reads a word for each draw; false where
// another version comes first. The table has at least `long` words.
fn draw_on(
    areas: &Areas,
    seat: &mut WorkerSeat,
    version: u32,
    long: u32,
    end: u32,
    done: &mut Done,
) -> bool
    requires areas { IsOf areas.now seat.old }
    requires holding { HoldsOne seat.old.known }
    requires may_draw { MayDraw seat.old.known }
    requires some { 0 < long }
    requires long { long ≤ length (held_table seat.old.known) }
    ensures areas { IsOf areas.now seat.new }
    ensures holding { HoldsOne seat.new.known }
    ensures share { seat.new.known.share ≡ seat.old.known.share }
    ensures right { seat.new.known.right ≡ seat.old.known.right }
{
    'turns: for _ in 0..TURNS {
        match areas.draw(seat, end) {
            Draw::Taken { number } => {
                let right = areas.word(seat, number % long) == u64::from(version);
                *done = done.and(Done {
                    count: 1,
                    sum: u64::from(number),
                    wrong: u64::from(!right),
                });
            }
            Draw::Lost { .. } => {}
            Draw::End => return true,
            Draw::Moved { .. } | Draw::Hold { .. } => return false,
        }
    }
    true
}

// Draws until the end.
fn draw_all(areas: &Areas, mut seat: WorkerSeat, long: u32, end: u32) -> (WorkerSeat, Done)
    requires areas { IsOf areas.now seat }
    requires idle { IsIdle seat.known }
    requires may_draw { MayDraw seat.known }
    requires some { 0 < long }
    requires long { All (λ (words : List ℕ). long ≤ length words) areas.now.plan.tables }
    ensures areas { IsOf areas.now result.0 }
    ensures idle { IsIdle result.0.known }
    ensures share { result.0.known.share ≡ seat.known.share }
{
    let mut done = Done {
        count: 0,
        sum: 0,
        wrong: 0,
    };
    'turns: for _ in 0..TURNS {
        if let Claim::Held { version } = areas.claim(&mut seat) {
            let ended = draw_on(areas, &mut seat, version, long, end, &mut done);
            areas.leave(&mut seat);
            if ended {
                break;
            }
            yield_now();
        }
    }
    (seat, done)
}

// The same by two seats in two threads.
fn by_two<R: Threads + Sync>(
    rt: &R,
    areas: &Areas,
    mut seat: WorkerSeat,
    long: u32,
    end: u32,
) -> (WorkerSeat, Done)
    requires areas { IsOf areas.now seat }
    requires idle { IsIdle seat.known }
    requires some { 0 < long }
    requires long { All (λ (words : List ℕ). long ≤ length words) areas.now.plan.tables }
    requires even { (seat.known.share % 2 ≡ 0) × (2 ≤ seat.known.right) }
    ensures areas { IsOf areas.now result.0 }
    ensures idle { IsIdle result.0.known }
    ensures share { result.0.known.share ≡ seat.known.share }
{
    let other = areas.split(&mut seat);
    let (mut one, two) = join(
        rt,
        || -> (WorkerSeat, Done)
            requires { IsOf areas.now seat × (IsIdle seat.known × (MayDraw seat.known × ((0 < long) × All (λ (words : List ℕ). long ≤ length words) areas.now.plan.tables))) }
            ensures { IsOf areas.entry.now result.0 × (IsIdle result.0.known × (result.0.known.share ≡ seat.known.share)) }
        { draw_all(areas, seat, long, end) },
        || -> (WorkerSeat, Done)
            requires { IsOf areas.now other × (IsIdle other.known × (MayDraw other.known × ((0 < long) × All (λ (words : List ℕ). long ≤ length words) areas.now.plan.tables))) }
            ensures { IsOf areas.entry.now result.0 × (IsIdle result.0.known × (result.0.known.share ≡ other.known.share)) }
        { draw_all(areas, other, long, end) },
    );
    areas.join(&mut one.0, two.0);
    (one.0, one.1.and(two.1))
}

// The same by four.
fn by_four<R: Threads + Sync>(
    rt: &R,
    areas: &Areas,
    mut seat: WorkerSeat,
    long: u32,
    end: u32,
) -> (WorkerSeat, Done)
    requires areas { IsOf areas.now seat }
    requires idle { IsIdle seat.known }
    requires some { 0 < long }
    requires long { All (λ (words : List ℕ). long ≤ length words) areas.now.plan.tables }
    requires fourfold { (seat.known.share % 4 ≡ 0) × (4 ≤ seat.known.right) }
    ensures areas { IsOf areas.now result.0 }
    ensures idle { IsIdle result.0.known }
    ensures share { result.0.known.share ≡ seat.known.share }
{
    let other = areas.split(&mut seat);
    let (mut one, two) = join(
        rt,
        || -> (WorkerSeat, Done)
            requires { IsSync R.row × (IsOf areas.now seat × (IsIdle seat.known × ((seat.known.share % 2 ≡ 0) × ((2 ≤ seat.known.right)
                × ((0 < long) × All (λ (words : List ℕ). long ≤ length words) areas.now.plan.tables))))) }
            ensures { IsOf areas.entry.now result.0 × (IsIdle result.0.known × (result.0.known.share ≡ seat.known.share)) }
        { by_two(rt, areas, seat, long, end) },
        || -> (WorkerSeat, Done)
            requires { IsSync R.row × (IsOf areas.now other × (IsIdle other.known × ((other.known.share % 2 ≡ 0) × ((2 ≤ other.known.right)
                × ((0 < long) × All (λ (words : List ℕ). long ≤ length words) areas.now.plan.tables))))) }
            ensures { IsOf areas.entry.now result.0 × (IsIdle result.0.known × (result.0.known.share ≡ other.known.share)) }
        { by_two(rt, areas, other, long, end) },
    );
    areas.join(&mut one.0, two.0);
    (one.0, one.1.and(two.1))
}

// Puts each table into force, as soon as it is due and the spare area is free.
fn publish_all(areas: &Areas, mut desk: Desk) -> Desk
    requires areas { IsOf areas.now desk }
    requires phase { IsResting desk.known ⊎ IsReady desk.known }
    ensures areas { IsOf areas.now result }
{
    'turns: for _ in 0..TURNS {
        match areas.due(&mut desk) {
            Due::None => return desk,
            Due::Later { .. } => yield_now(),
            Due::Now => {
                if areas.quiet(&mut desk) == Quiet::Free {
                    areas.write(&mut desk);
                    areas.publish(&mut desk);
                } else {
                    yield_now();
                }
            }
        }
    }
    desk
}

// Four workers, beside the desk.
fn by_five<R: Threads + Sync>(
    rt: &R,
    areas: &Areas,
    seat: WorkerSeat,
    desk: Desk,
    long: u32,
    end: u32,
) -> (WorkerSeat, Done, Desk)
    requires areas { IsOf areas.now seat × IsOf areas.now desk }
    requires idle { IsIdle seat.known }
    requires some { 0 < long }
    requires long { All (λ (words : List ℕ). long ≤ length words) areas.now.plan.tables }
    requires fourfold { (seat.known.share % 4 ≡ 0) × (4 ≤ seat.known.right) }
    requires resting { IsResting desk.known }
    ensures areas { IsOf areas.now result.0 × IsOf areas.now result.2 }
    ensures idle { IsIdle result.0.known }
    ensures share { result.0.known.share ≡ seat.known.share }
{
    let (drawn, desk) = join(
        rt,
        || -> (WorkerSeat, Done)
            requires { IsSync R.row × (IsOf areas.now seat × (IsIdle seat.known × ((seat.known.share % 4 ≡ 0) × ((4 ≤ seat.known.right)
                × ((0 < long) × All (λ (words : List ℕ). long ≤ length words) areas.now.plan.tables))))) }
            ensures { IsOf areas.entry.now result.0 × (IsIdle result.0.known × (result.0.known.share ≡ seat.known.share)) }
        { by_four(rt, areas, seat, long, end) },
        || -> Desk
            requires { IsOf areas.now desk × IsResting desk.known }
            ensures { IsOf areas.entry.now result }
        { publish_all(areas, desk) },
    );
    (drawn.0, drawn.1, desk)
}

#[test]
fn four_seats_draw_each_number_once(rt: HostRuntime) -> Result<(), Fail> {
    let plan = Plan::of(rt.alloc(), table(rt.alloc(), 4, 0)?)?;
    let (areas, seat, desk) = prepare(rt.alloc(), plan)?;
    let (mut seat, done) = by_four(&rt, &areas, seat, 4, 1_000);
    assert_eq!(rt;
        (areas.tally(&mut seat), done),
        (
            1_000,
            Done {
                count: 1_000,
                sum: 499_500,
                wrong: 0
            }
        )
    );
    let history = areas.close(seat, desk);
    assert_eq!(rt; (history.points().len(), history.records()), (0, 1_000));
    Ok(())
}

#[test]
fn four_seats_draw_beside_the_desk(rt: HostRuntime) -> Result<(), Fail> {
    let first = Window {
        earliest: 5_000,
        latest: 8_000,
    };
    let second = Window {
        earliest: 10_000,
        latest: 15_000,
    };
    let mut plan = Plan::of(rt.alloc(), table(rt.alloc(), 1_000, 0)?)?;
    plan.add(first, table(rt.alloc(), 1_000, 1)?)?;
    plan.add(second, table(rt.alloc(), 1_000, 2)?)?;
    let (areas, seat, desk) = prepare(rt.alloc(), plan)?;
    let (seat, done, desk) = by_five(&rt, &areas, seat, desk, 1_000, 20_000);
    let all = Done {
        count: 20_000,
        sum: 199_990_000,
        wrong: 0,
    };
    assert_eq!(rt; done, all);
    let history = areas.close(seat, desk);
    assert_eq!(rt; (history.points().len(), history.records()), (2, 20_000));
    Ok(())
}
