// Rounds that one seat draws and other seats judge, each under the version that its seat holds.
ghost use Rattle.std.specs.Prelude.{◌≡◌, All, IfErr, IfOk, IfSome};
ghost use Rattle.std.specs.Thread.{IsSync};
ghost use Rattle.area_swap.specs.Values.{DrawsAlone, IsIdle, IsOf};
ghost use Rattle.table_words.specs.Layout.{AreCompiled};
ghost use Rattle.worker_gate.specs.Reloading.{CanReload};

use crate::gates::{Meeting, UntilTold};
use crate::items::{Alike, OUTER, is_judged_under};
use crate::plans::{behind, three_from_10, two_tables};
use area_swap::{Areas, Desk, WorkerSeat, prepare};
use case_data::UP;
use ip_codec::{ItemView, read_packet};
use std::alloc::{AllocError, Global};
use std::sync::Wait;
use std::test::Fail;
use std::thread::{Threads, for_each_mut, join, yield_now};
use worker_gate::{
    Crew, FreeSeat, Gate, HeldSeat, OpenGate, Outcomes, RoundDraw, Work, draw_for, judge_whole,
    lend, put_due, take_back,
};

// A round that is drawn: the seat that holds its version, its first number, and how many there are.
#[derive(Drop)]
struct Round<'a> {
    held: HeldSeat<'a>,
    start: u32,
    count: u32,
}

// Draws the next numbers below `end` for a worker. It gives the worker's seat back if none may be drawn.
fn draw_next<'a, R: Wait>(
    rt: &R,
    areas: &Areas,
    drawer: &mut WorkerSeat,
    free: FreeSeat<'a>,
    end: u32,
) -> Result<Round<'a>, FreeSeat<'a>>
    requires areas { IsOf areas.now drawer.old }
    requires same_areas { free.areas ≡ areas.now }
    requires idle { IsIdle drawer.old.known }
    requires alone { DrawsAlone drawer.old.known }
    ensures areas { IsOf areas.now drawer.new }
    ensures idle { IsIdle drawer.new.known }
    ensures alone { DrawsAlone drawer.new.known }
    ensures share { drawer.new.known.share ≡ drawer.old.known.share }
    ensures held { IfOk result (λ round. (round.held.areas ≡ areas.now) × (round.held.known.share ≡ free.entry.known.share)) }
    ensures back { IfErr result (λ back. (back.areas ≡ areas.now) × (back.known.share ≡ free.entry.known.share)) }
{
    let start = areas.see(drawer).records;
    if start >= end {
        return Err(free);
    }
    match draw_for(rt, drawer, free, start, end) {
        RoundDraw::Taken { held, count } => Ok(Round { held, start, count }),
        RoundDraw::Hold { free } => Err(free),
    }
}

// Whether these are the outcomes of the numbers from `start` on, in order, under this version.
fn are_judged_under(outcomes: &Outcomes<'_>, start: u32, version: u32) -> bool {
    let mut number = start;
    for index in 0..outcomes.len() {
        if !is_judged_under(outcomes.get(index), number, version) {
            return false;
        }
        number = number.wrapping_add(1);
    }
    true
}

// Judges a round of packets of the subscriber. Nothing if an outcome is wrong.
fn judge_round<'a, G: Gate>(alloc: Global, round: Round<'a>, gate: &G) -> Option<FreeSeat<'a>>
    ensures same_areas { IfSome result (λ free. free.areas ≡ round.entry.held.areas) }
    ensures share { IfSome result (λ free. free.known.share ≡ round.entry.held.known.share) }
{
    let Round { held, start, count } = round;
    if start > 1_000_000 || count > 1_000_000 {
        return None;
    }
    let version = held.version();
    let Ok(mut crew) = Crew::with(alloc, 1, count as usize) else {
        return None;
    };
    let Ok(inner) = read_packet(UP) else {
        return None;
    };
    let items = Alike {
        item: ItemView::Up {
            outer: OUTER,
            inner,
        },
        count: count as usize,
    };
    let work = Work {
        items: &items,
        start,
        end: start + count,
        gate,
    };
    let free = judge_whole(held, &mut crew, &work);
    let outcomes = crew.outcomes();
    if outcomes.len() == count as usize && are_judged_under(&outcomes, start, version) {
        Some(free)
    } else {
        None
    }
}

#[test]
fn a_round_is_cut_where_the_next_table_comes(rt: HostRuntime) -> Result<(), Fail> {
    let alloc = rt.alloc();
    let (areas, mut drawer, mut desk) = prepare(alloc, two_tables(alloc, behind(7))?)?;
    let worker = lend(&areas, &mut drawer);
    let Ok(first) = draw_next(&rt, &areas, &mut drawer, worker, 5) else {
        panic!(rt; "no first round")
    };
    assert_eq!(rt; (first.start, first.count, first.held.version()), (0, 5, 0));
    assert!(rt; !put_due(&areas, &mut desk));
    let Some(worker) = judge_round(alloc, first, &OpenGate) else {
        panic!(rt; "a wrong outcome of the first round")
    };
    let Ok(second) = draw_next(&rt, &areas, &mut drawer, worker, 9) else {
        panic!(rt; "no second round")
    };
    assert_eq!(rt;
        (second.start, second.count, second.held.version()),
        (5, 2, 0)
    );
    let Some(worker) = judge_round(alloc, second, &OpenGate) else {
        panic!(rt; "a wrong outcome of the second round")
    };
    let Err(worker) = draw_next(&rt, &areas, &mut drawer, worker, 9) else {
        panic!(rt; "a number past the limit")
    };
    assert!(rt; put_due(&areas, &mut desk));
    let Ok(third) = draw_next(&rt, &areas, &mut drawer, worker, 9) else {
        panic!(rt; "no third round")
    };
    assert_eq!(rt; (third.start, third.count, third.held.version()), (7, 2, 1));
    let Some(worker) = judge_round(alloc, third, &OpenGate) else {
        panic!(rt; "a wrong outcome of the third round")
    };
    take_back(&areas, &mut drawer, worker);
    assert_eq!(rt; areas.tally(&mut drawer), 9);
    let history = areas.close(drawer, desk);
    assert_eq!(rt; (history.points(), history.records()), ([7].as_slice(), 9));
    Ok(())
}

#[test]
fn a_third_table_waits_for_all_who_hold_the_first(rt: HostRuntime) -> Result<(), Fail> {
    let alloc = rt.alloc();
    let (areas, mut drawer, mut desk) = prepare(alloc, three_from_10(alloc)?)?;
    let one = lend(&areas, &mut drawer);
    let two = lend(&areas, &mut drawer);
    let three = lend(&areas, &mut drawer);
    let Ok(first) = draw_next(&rt, &areas, &mut drawer, one, 5) else {
        panic!(rt; "no first round")
    };
    let Ok(second) = draw_next(&rt, &areas, &mut drawer, two, 10) else {
        panic!(rt; "no second round")
    };
    assert!(rt; put_due(&areas, &mut desk));
    let Ok(third) = draw_next(&rt, &areas, &mut drawer, three, 15) else {
        panic!(rt; "no third round")
    };
    let versions = (
        first.held.version(),
        second.held.version(),
        third.held.version(),
    );
    assert_eq!(rt; versions, (0, 0, 1));
    assert!(rt; !put_due(&areas, &mut desk));
    let Some(one) = judge_round(alloc, first, &OpenGate) else {
        panic!(rt; "a wrong outcome of the first round")
    };
    assert!(rt; !put_due(&areas, &mut desk));
    assert!(rt; judge_round(alloc, second, &OpenGate).is_some());
    assert!(rt; put_due(&areas, &mut desk));
    assert!(rt; judge_round(alloc, third, &OpenGate).is_some());
    let Ok(fourth) = draw_next(&rt, &areas, &mut drawer, one, 20) else {
        panic!(rt; "no fourth round")
    };
    assert_eq!(rt;
        (fourth.start, fourth.count, fourth.held.version()),
        (15, 5, 2)
    );
    assert!(rt; judge_round(alloc, fourth, &OpenGate).is_some());
    assert!(rt; !put_due(&areas, &mut desk));
    assert_eq!(rt; desk.points(), [10, 15].as_slice());
    Ok(())
}

// Puts the next table into force, once it is due and its area is free, and then tells the gate.
fn put_and_tell(areas: &Areas, desk: &mut Desk, gate: &UntilTold) -> bool
    requires desk { CanReload areas.now desk.old }
    ensures desk { CanReload areas.now desk.new }
{
    'turns: for _ in 0..1_000_000 {
        if put_due(areas, desk) {
            gate.tell();
            return true;
        }
        yield_now();
    }
    false
}

// Judges two rounds in two threads, which a gate holds until a third thread has put the next table into force. The answer is whether all
// of that was done.
fn judge_while_a_table_comes<R: Threads + Sync>(
    rt: &R,
    alloc: Global,
    areas: &Areas,
    desk: &mut Desk,
    rounds: (Round<'_>, Round<'_>),
) -> bool
    requires desk { CanReload areas.now desk.old }
{
    let gate = UntilTold::new();
    let told = &gate;
    let (first, second) = rounds;
    let (one, others) = join(
        rt,
        || -> bool { judge_round(alloc, first, told).is_some() },
        || -> (bool, bool)
            requires { IsSync R.row × CanReload areas.now desk.now }
        {
            join(
                rt,
                || -> bool { judge_round(alloc, second, told).is_some() },
                || -> bool
                    requires { CanReload areas.now desk.now }
                { put_and_tell(areas, desk, told) },
            )
        },
    );
    one && others.0 && others.1 && !gate.was_late()
}

#[test]
fn a_table_comes_while_two_workers_judge(rt: HostRuntime) -> Result<(), Fail> {
    let alloc = rt.alloc();
    let (areas, mut drawer, mut desk) = prepare(alloc, three_from_10(alloc)?)?;
    let one = lend(&areas, &mut drawer);
    let two = lend(&areas, &mut drawer);
    let Ok(first) = draw_next(&rt, &areas, &mut drawer, one, 5) else {
        panic!(rt; "no first round")
    };
    let Ok(second) = draw_next(&rt, &areas, &mut drawer, two, 10) else {
        panic!(rt; "no second round")
    };
    let rounds = (first, second);
    assert!(rt; judge_while_a_table_comes(&rt, alloc, &areas, &mut desk, rounds));
    assert_eq!(rt; desk.points(), [10].as_slice());
    Ok(())
}

// A round for a thread to judge, and whether each of its outcomes is right.
#[derive(Drop)]
struct Slot<'a> {
    round: Option<Round<'a>>,
    is_right: bool,
}

// Lends a seat, again and again, until the share is odd, and draws a round of four numbers for each.
fn draw_for_all<'a, R: Wait>(
    rt: &R,
    areas: &'a Areas,
    drawer: &mut WorkerSeat,
    share: u64,
    slots: &mut Vec<Slot<'a>>,
) -> Result<(), AllocError>
    requires areas { IsOf areas.now drawer.old }
    requires idle { IsIdle drawer.old.known }
    requires alone { DrawsAlone drawer.old.known }
    requires share { drawer.old.known.share ≡ share }
    requires compiled { All AreCompiled areas.now.plan.tables }
{
    let mut left = share;
    let mut end = 0_u32;
    'seats: while left % 2 == 0 && left > 0 {
        let free = lend(areas, drawer);
        left /= 2;
        end = end.saturating_add(4);
        let Ok(round) = draw_next(rt, areas, drawer, free, end) else {
            return Ok(());
        };
        slots.push(Slot {
            round: Some(round),
            is_right: false,
        })?;
    }
    Ok(())
}

// Judges the rounds, each in a thread of its own.
fn judge_each<R: Threads + Sync, G: Gate + Sync>(
    rt: &R,
    alloc: Global,
    slots: &mut [Slot<'_>],
    gate: &G,
) {
    for_each_mut(
        rt,
        slots,
        16,
        &|_, slot: &mut Slot<'_>| {
            if let Some(round) = slot.round.take() {
                slot.is_right = judge_round(alloc, round, gate).is_some();
            }
        },
    );
}

#[test]
fn sixteen_workers_judge_sixteen_rounds_at_once(rt: HostRuntime) -> Result<(), Fail> {
    let alloc = rt.alloc();
    let (areas, mut drawer, _) = prepare(alloc, two_tables(alloc, behind(1_000))?)?;
    let mut slots = Vec::new(alloc);
    draw_for_all(&rt, &areas, &mut drawer, 65_536, &mut slots)?;
    let gate = Meeting::of(16);
    judge_each(&rt, alloc, slots.as_mut_slice(), &gate);
    assert!(rt; !gate.was_late());
    assert_eq!(rt; slots.as_slice().len(), 16);
    for slot in slots.as_slice() {
        assert!(rt; slot.is_right);
    }
    Ok(())
}
