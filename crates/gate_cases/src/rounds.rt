// Rounds of a crew, beside a desk that puts tables into force.
ghost use Rattle.std.specs.Prelude.{◌≡◌, ◌+◌, ◌<◌, ◌≤◌, length};

use crate::gates::{Adding, Alone, Behind, Slow, UntilTheNext};
use crate::items::{Alike, OUTER, is_judged};
use crate::plans::{behind, four_tables, three_tables, two_tables};
use area_swap::prepare;
use binding_rules::TableError;
use case_data::UP;
use ip_codec::{ItemView, Rule, read_packet};
use std::alloc::Global;
use std::sync::Wait;
use std::sync::atomic::AtomicUsize;
use std::sync::atomic::Ordering::SeqCst;
use std::test::Fail;
use std::thread::Threads;
use swap_core::Window;
use worker_gate::{Crew, Gate, OpenGate, Outcomes, SparingGate, Work, round};

// Whether these are the outcomes of the numbers from `start` on, in order.
fn are_judged(outcomes: &Outcomes<'_>, start: u32, second: u32) -> bool {
    let mut number = start;
    for index in 0..outcomes.len() {
        if !is_judged(outcomes.get(index), number, second) {
            return false;
        }
        number = number.wrapping_add(1);
    }
    true
}

// Whether the numbers are those from 0 on, in order, and the versions never fall.
fn are_in_order(outcomes: &Outcomes<'_>) -> bool {
    let mut number = 0;
    let mut version = 0;
    for index in 0..outcomes.len() {
        let outcome = outcomes.get(index);
        if outcome.number != number || outcome.version < version {
            return false;
        }
        number = number.wrapping_add(1);
        version = outcome.version;
    }
    true
}

#[test]
fn rounds_put_each_outcome_at_its_number(rt: HostRuntime) -> Result<(), Fail> {
    let alloc = rt.alloc();
    let (areas, mut seat, mut desk) = prepare(alloc, two_tables(alloc, behind(7))?)?;
    let mut crew = Crew::with(alloc, 2, 5)?;
    let Ok(inner) = read_packet(UP) else {
        panic!(rt; "no packet")
    };
    let item = ItemView::Up {
        outer: OUTER,
        inner,
    };
    let five = Alike { item, count: 5 };
    let four = Alike { item, count: 4 };
    let none = Alike { item, count: 0 };
    let work = Work {
        items: &five,
        start: 0,
        end: 5,
        gate: &OpenGate,
    };
    round(&rt, &areas, &mut seat, &mut desk, &mut crew, &work);
    assert_eq!(rt; crew.outcomes().len(), 5);
    assert!(rt; are_judged(&crew.outcomes(), 0, 7));
    let work = Work {
        items: &four,
        start: 5,
        end: 9,
        gate: &OpenGate,
    };
    round(&rt, &areas, &mut seat, &mut desk, &mut crew, &work);
    assert_eq!(rt; crew.outcomes().len(), 4);
    assert!(rt; are_judged(&crew.outcomes(), 5, 7));
    let work = Work {
        items: &none,
        start: 9,
        end: 9,
        gate: &OpenGate,
    };
    round(&rt, &areas, &mut seat, &mut desk, &mut crew, &work);
    assert_eq!(rt; crew.outcomes().len(), 0);
    let history = areas.close(seat, desk);
    assert_eq!(rt; (history.points(), history.records()), ([7].as_slice(), 9));
    Ok(())
}

#[test]
fn four_records_run_beside_one_another(rt: HostRuntime) -> Result<(), Fail> {
    let alloc = rt.alloc();
    let (areas, mut seat, mut desk) = prepare(alloc, two_tables(alloc, behind(9))?)?;
    let mut crew = Crew::with(alloc, 2, 4)?;
    let items = Alike {
        item: ItemView::Bad(Rule::FrameShort),
        count: 4,
    };
    let gate = Behind::of(1, 2);
    let work = Work {
        items: &items,
        start: 0,
        end: 4,
        gate: &gate,
    };
    round(&rt, &areas, &mut seat, &mut desk, &mut crew, &work);
    assert!(rt; !gate.was_late());
    assert!(rt; are_in_order(&crew.outcomes()));
    Ok(())
}

// Whether sixteen workers draw each of a thousand records once, under two tables of which the second comes inside its window.
fn sixteen_serve<R: Threads + Wait + Sync, G: Gate + Sync>(
    rt: &R,
    alloc: Global,
    gate: &G,
) -> Result<bool, Fail> {
    let window = Window {
        earliest: 100,
        latest: 900,
    };
    let (areas, mut seat, mut desk) = prepare(alloc, two_tables(alloc, window)?)?;
    let mut crew = Crew::with(alloc, 16, 1_000)?;
    let items = Alike {
        item: ItemView::Bad(Rule::FrameShort),
        count: 1_000,
    };
    let work = Work {
        items: &items,
        start: 0,
        end: 1_000,
        gate,
    };
    round(rt, &areas, &mut seat, &mut desk, &mut crew, &work);
    Ok(
        crew.outcomes().len() == 1_000
            && are_in_order(&crew.outcomes())
            && areas.tally(&mut seat) == 1_000
            && desk.points().len() == 1,
    )
}

#[test]
fn sixteen_workers_serve_under_two_tables(rt: HostRuntime) -> Result<(), Fail> {
    assert!(rt; sixteen_serve(&rt, rt.alloc(), &OpenGate)?);
    Ok(())
}

#[test]
fn workers_of_few_records_serve_one_behind_the_other(rt: HostRuntime) -> Result<(), Fail> {
    assert!(rt; sixteen_serve(&rt, rt.alloc(), &SparingGate)?);
    let gate = Alone::new();
    assert!(rt; sixteen_serve(&rt, rt.alloc(), &gate)?);
    assert!(rt; !gate.has_met_two());
    Ok(())
}

// The point of a table that may come with any record but the first of 64, over two workers that wait for it.
fn point_beside_workers<R: Threads + Wait + Sync>(
    rt: &R,
    alloc: Global,
) -> Result<u32, TableError> {
    let window = Window {
        earliest: 1,
        latest: 64,
    };
    let Ok((areas, mut seat, mut desk)) = prepare(alloc, two_tables(alloc, window)?) else {
        return Err(TableError::OutOfMemory);
    };
    let Ok(mut crew) = Crew::with(alloc, 2, 64) else {
        return Err(TableError::OutOfMemory);
    };
    let items = Alike {
        item: ItemView::Bad(Rule::FrameShort),
        count: 64,
    };
    let gate = UntilTheNext::new();
    let work = Work {
        items: &items,
        start: 0,
        end: 64,
        gate: &gate,
    };
    round(rt, &areas, &mut seat, &mut desk, &mut crew, &work);
    let points = desk.points();
    Ok(if points.len() == 1 { points[0] } else { 64 })
}

#[test]
fn a_table_comes_while_workers_run(rt: HostRuntime) -> Result<(), Fail> {
    for _ in 0..20 {
        if point_beside_workers(&rt, rt.alloc())? < 64 {
            return Ok(());
        }
    }
    panic!(rt; "no table came before the last record")
}

#[test]
fn a_held_area_is_not_written(rt: HostRuntime) -> Result<(), Fail> {
    let alloc = rt.alloc();
    let (areas, mut seat, mut desk) = prepare(alloc, four_tables(alloc)?)?;
    let mut crew = Crew::with(alloc, 2, 10)?;
    let items = Alike {
        item: ItemView::Bad(Rule::FrameShort),
        count: 10,
    };
    let gate = Behind::of(0, 5);
    let work = Work {
        items: &items,
        start: 0,
        end: 10,
        gate: &gate,
    };
    round(&rt, &areas, &mut seat, &mut desk, &mut crew, &work);
    assert!(rt; !gate.was_late());
    assert!(rt; are_in_order(&crew.outcomes()));
    let [first, second, third] = *desk.points() else {
        panic!(rt; "not three points")
    };
    assert!(rt; 1 <= first && first <= second && second <= third && third <= 9);
    assert!(rt; 6 <= second);
    Ok(())
}

// The points of two tables that may come from records 10 and 8,192 on, in a round of 16,384 by two workers.
fn points_of_a_round<R: Threads + Wait + Sync>(
    rt: &R,
    alloc: Global,
) -> Result<(u32, u32), TableError> {
    let Ok((areas, mut seat, mut desk)) = prepare(alloc, three_tables(alloc)?) else {
        return Err(TableError::OutOfMemory);
    };
    let Ok(mut crew) = Crew::with(alloc, 2, 16_384) else {
        return Err(TableError::OutOfMemory);
    };
    let items = Alike {
        item: ItemView::Bad(Rule::FrameShort),
        count: 16_384,
    };
    let gate = Slow::new();
    let work = Work {
        items: &items,
        start: 0,
        end: 16_384,
        gate: &gate,
    };
    round(rt, &areas, &mut seat, &mut desk, &mut crew, &work);
    let points = desk.points();
    Ok(if points.len() == 2 {
        (points[0], points[1])
    } else {
        (16_384, 16_384)
    })
}

#[test]
fn each_table_of_a_round_comes_while_workers_run(rt: HostRuntime) -> Result<(), Fail> {
    for _ in 0..20 {
        let (first, second) = points_of_a_round(&rt, rt.alloc())?;
        assert!(rt; 10 <= first && 8_192 <= second && first <= second);
        if first < 8_192 && second < 16_384 {
            return Ok(());
        }
    }
    panic!(rt; "no two tables came one after another")
}

// What a gate counts in a round of 4,096 packets of the subscriber by so many workers, which draw several records at once, where the
// second table comes behind 1,000 of them: all of it, or nothing where an outcome is wrong.
fn sums_of_a_round<R: Threads + Wait + Sync>(
    rt: &R,
    alloc: Global,
    workers: u32,
) -> Result<(usize, usize, usize), TableError>
    requires some_one { 1 ≤ workers }
    requires few { workers ≤ 16 }
{
    let Ok((areas, mut seat, mut desk)) = prepare(alloc, two_tables(alloc, behind(1_000))?) else {
        return Err(TableError::OutOfMemory);
    };
    let Ok(mut crew) = Crew::with(alloc, workers, 4_096) else {
        return Err(TableError::OutOfMemory);
    };
    let Ok(inner) = read_packet(UP) else {
        return Ok((0, 0, 0));
    };
    let items = Alike {
        item: ItemView::Up {
            outer: OUTER,
            inner,
        },
        count: 4_096,
    };
    let gate = Adding::new();
    let work = Work {
        items: &items,
        start: 0,
        end: 4_096,
        gate: &gate,
    };
    round(rt, &areas, &mut seat, &mut desk, &mut crew, &work);
    let outcomes = crew.outcomes();
    Ok(if outcomes.len() == 4_096 && are_judged(&outcomes, 0, 1_000) {
        gate.sums()
    } else {
        (0, 0, 0)
    })
}

// 0 + 1 + .. + 4,095, and one for each record from number 1,000 on.
const ONCE_EACH: (usize, usize, usize) = (4_096, 8_386_560, 3_096);

#[test]
fn two_workers_pass_a_gate_once_with_each_number(rt: HostRuntime) -> Result<(), Fail> {
    assert_eq!(rt; sums_of_a_round(&rt, rt.alloc(), 2)?, ONCE_EACH);
    Ok(())
}

#[test]
fn sixteen_workers_pass_a_gate_once_with_each_number(rt: HostRuntime) -> Result<(), Fail> {
    assert_eq!(rt; sums_of_a_round(&rt, rt.alloc(), 16)?, ONCE_EACH);
    Ok(())
}
