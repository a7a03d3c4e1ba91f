// The caller that the README of worker_gate shows, one of `round`, and what they answer.
ghost use Rattle.std.specs.Prelude.{◌≤◌, All, length};
ghost use Rattle.table_words.specs.Layout.{AreCompiled};

use crate::items::{Alike, OUTER};
use crate::plans::{behind, two_tables};
use aftr_base::OutOfMemory;
use area_swap::{History, prepare};
use case_data::UP;
use ip_codec::{ItemView, read_packet};
use item_stage::RoundItems;
use std::alloc::Global;
use std::sync::Wait;
use std::test::Fail;
use std::thread::Threads;
use swap_core::Plan;
use verdict_core::Verdict;
use worker_gate::{
    Crew, OpenGate, Outcome, RoundDraw, Work, draw_for, judge_whole, lend, put_due, round,
    take_back,
};

/// Judges the records of one round by a seat of their own. The answer is how many numbers are drawn, or nothing if the first table does not
/// allow all of them. Between the draw and the judgement any table that is due comes into force.
fn judge_apart<R: Wait, S: RoundItems>(
    rt: &R,
    alloc: Global,
    plan: Plan,
    items: &S,
) -> Result<Option<u32>, OutOfMemory>
    requires compiled { All AreCompiled plan.tables }
    requires some_one { 1 ≤ length (S.items items.now) }
    requires few { length (S.items items.now) ≤ 16384 }
{
    let (areas, mut drawer, mut desk) = prepare(alloc, plan)?;
    let mut crew = Crew::with(alloc, 1, 16_384)?;
    let worker = lend(&areas, &mut drawer);
    let end = items.len() as u32;
    let RoundDraw::Taken { held, count } = draw_for(rt, &mut drawer, worker, 0, end) else {
        return Ok(None);
    };
    if count < end {
        return Ok(None);
    }
    put_due(&areas, &mut desk); // `held` keeps its table, whatever comes into force
    let work = Work {
        items,
        start: 0,
        end,
        gate: &OpenGate,
    };
    let worker = judge_whole(held, &mut crew, &work);
    take_back(&areas, &mut drawer, worker);
    Ok(Some(areas.tally(&mut drawer)))
}

/// Judges the records of two rounds by one crew of four workers. The answer is how many of the second round are dropped, and when
/// each table of the plan came into force.
fn judge_two_rounds<R: Threads + Wait + Sync, S: RoundItems + Sync>(
    rt: &R,
    alloc: Global,
    plan: Plan,
    first: &S,
    second: &S,
) -> Result<(u32, History), OutOfMemory>
    requires compiled { All AreCompiled plan.tables }
    requires first { length (S.items first.now) ≤ 16384 }
    requires second { length (S.items second.now) ≤ 16384 }
{
    let (areas, mut seat, mut desk) = prepare(alloc, plan)?;
    let mut crew = Crew::with(alloc, 4, 16_384)?;
    let middle = first.len() as u32;
    let end = middle + second.len() as u32;
    let work = Work {
        items: first,
        start: 0,
        end: middle,
        gate: &OpenGate,
    };
    round(rt, &areas, &mut seat, &mut desk, &mut crew, &work);
    let work = Work {
        items: second,
        start: middle,
        end,
        gate: &OpenGate,
    };
    round(rt, &areas, &mut seat, &mut desk, &mut crew, &work);
    let outcomes = crew.outcomes();
    let mut dropped = 0;
    'outcomes: for index in 0..outcomes.len() {
        let Outcome { verdict, .. } = *outcomes.get(index);
        if let Verdict::Drop { .. } = verdict {
            dropped += 1;
        }
    }
    Ok((dropped, areas.close(seat, desk)))
}

// The subscriber's packet is dropped under the second table, which comes behind seven records.
#[test]
fn a_crew_judges_two_rounds(rt: HostRuntime) -> Result<(), Fail> {
    let alloc = rt.alloc();
    let plan = two_tables(alloc, behind(7))?;
    let Ok(inner) = read_packet(UP) else {
        return Err("a packet".into());
    };
    let item = ItemView::Up {
        outer: OUTER,
        inner,
    };
    let five = Alike { item, count: 5 };
    let (dropped, history) = judge_two_rounds(&rt, alloc, plan, &five, &five)?;
    assert_eq!(rt; dropped, 3);
    assert_eq!(rt; (history.points(), history.records()), ([7].as_slice(), 10));
    Ok(())
}

#[test]
fn a_round_is_judged_apart(rt: HostRuntime) -> Result<(), Fail> {
    let alloc = rt.alloc();
    let Ok(inner) = read_packet(UP) else {
        return Err("a packet".into());
    };
    let item = ItemView::Up {
        outer: OUTER,
        inner,
    };
    let five = Alike { item, count: 5 };
    let drawn = judge_apart(&rt, alloc, two_tables(alloc, behind(5))?, &five)?;
    assert_eq!(rt; drawn, Some(5));
    let cut = judge_apart(&rt, alloc, two_tables(alloc, behind(4))?, &five)?;
    assert_eq!(rt; cut, None);
    Ok(())
}
