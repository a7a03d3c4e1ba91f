// Workers that judge records, one alone and two beside one another, under a table that changes.
ghost use Rattle.std.specs.Prelude.{◌≡◌, ◌+◌, ◌<◌, ◌≤◌, All, length};
ghost use Rattle.area_swap.specs.Values.{IsIdle};
ghost use Rattle.table_words.specs.Layout.{AreCompiled};
ghost use Rattle.worker_gate.specs.Serving.{CanServe};

use crate::gates::Behind;
use crate::items::{Alike, OUTER, is_judged};
use crate::plans::{behind, two_tables};
use area_swap::{Areas, prepare};
use case_data::UP;
use ip_codec::{ItemView, Rule, read_packet};
use item_stage::RoundItems;
use std::sync::Wait;
use std::sync::atomic::AtomicUsize;
use std::sync::atomic::Ordering::SeqCst;
use std::test::Fail;
use std::thread::{Threads, join_mut};
use worker_gate::{Gate, OpenGate, Outcome, Stop, Work, Worker, serve, settle};

// Whether these are the outcomes of the numbers from 0 on, in order.
fn are_judged(outcomes: &[Outcome], second: u32) -> bool {
    let mut number = 0;
    for outcome in outcomes {
        if !is_judged(outcome, number, second) {
            return false;
        }
        number = number.wrapping_add(1);
    }
    true
}

#[test]
fn a_worker_judges_under_the_table_of_each_draw(rt: HostRuntime) -> Result<(), Fail> {
    let alloc = rt.alloc();
    let (areas, mut seat, mut desk) = prepare(alloc, two_tables(alloc, behind(3))?)?;
    let part = areas.split(&mut seat);
    let Ok(mut worker) = Worker::with(alloc, part, 0, 8) else {
        panic!(rt; "no worker")
    };
    let Ok(inner) = read_packet(UP) else {
        panic!(rt; "no packet")
    };
    let items = Alike {
        item: ItemView::Up {
            outer: OUTER,
            inner,
        },
        count: 8,
    };
    let work = Work {
        items: &items,
        start: 0,
        end: 8,
        gate: &OpenGate,
    };
    let first = serve(&rt, &mut worker, &areas, &work, 2);
    assert_eq!(rt; first, Stop::Hold { limit: 3 });
    assert_eq!(rt; settle(&rt, &areas, &mut seat, &mut desk), 1);
    let second = serve(&rt, &mut worker, &areas, &work, 64);
    assert_eq!(rt; second, Stop::End);
    let (part, outcomes) = worker.part();
    areas.join(&mut seat, part);
    assert_eq!(rt; areas.tally(&mut seat), 8);
    assert_eq!(rt; outcomes.as_slice().len(), 8);
    assert!(rt; are_judged(outcomes.as_slice(), 3));
    let history = areas.close(seat, desk);
    assert_eq!(rt; (history.points(), history.records()), ([3].as_slice(), 8));
    Ok(())
}

// Two workers serve beside one another, one number at a time.
fn serve_by_two<R: Threads + Wait + Sync, S: RoundItems + Sync, G: Gate + Sync>(
    rt: &R,
    areas: &Areas,
    one: &mut Worker,
    two: &mut Worker,
    items: &S,
    end: u32,
    gate: &G,
)
    requires one { CanServe areas.now 0 end one.old × IsIdle one.old.seat.known }
    requires two { CanServe areas.now 0 end two.old × IsIdle two.old.seat.known }
    requires compiled { All AreCompiled areas.now.plan.tables }
    requires inside { end ≤ length (S.items items.now) }
    ensures one { CanServe areas.now 0 end one.new × (IsIdle one.new.seat.known × (one.new.seat.known.share ≡ one.old.seat.known.share)) }
    ensures two { CanServe areas.now 0 end two.new × (IsIdle two.new.seat.known × (two.new.seat.known.share ≡ two.old.seat.known.share)) }
{
    join_mut(
        rt,
        &mut ||
            requires { CanServe areas.now 0 end one.now × (IsIdle one.now.seat.known
                × (All AreCompiled areas.now.plan.tables × (end ≤ length (S.items items.now)))) }
            ensures { CanServe areas.entry.now 0 end one.exit.now × (IsIdle one.exit.now.seat.known
                × (one.exit.now.seat.known.share ≡ one.entry.now.seat.known.share)) }
        {
            let work = Work {
                items,
                start: 0,
                end,
                gate,
            };
            serve(rt, one, areas, &work, 1);
        },
        &mut ||
            requires { CanServe areas.now 0 end two.now × (IsIdle two.now.seat.known
                × (All AreCompiled areas.now.plan.tables × (end ≤ length (S.items items.now)))) }
            ensures { CanServe areas.entry.now 0 end two.exit.now × (IsIdle two.exit.now.seat.known
                × (two.exit.now.seat.known.share ≡ two.entry.now.seat.known.share)) }
        {
            let work = Work {
                items,
                start: 0,
                end,
                gate,
            };
            serve(rt, two, areas, &work, 1);
        },
    );
}

#[test]
fn two_workers_run_beside_one_another(rt: HostRuntime) -> Result<(), Fail> {
    let alloc = rt.alloc();
    let (areas, mut seat, _) = prepare(alloc, two_tables(alloc, behind(9))?)?;
    let part = areas.split(&mut seat);
    let Ok(mut one) = Worker::with(alloc, part, 0, 4) else {
        panic!(rt; "no worker")
    };
    let part = areas.split(&mut seat);
    let Ok(mut two) = Worker::with(alloc, part, 0, 4) else {
        panic!(rt; "no second worker")
    };
    let items = Alike {
        item: ItemView::Bad(Rule::FrameShort),
        count: 4,
    };
    let gate = Behind::of(1, 2);
    serve_by_two(&rt, &areas, &mut one, &mut two, &items, 4, &gate);
    assert!(rt; !gate.was_late());
    let (part, outcomes) = one.part();
    areas.join(&mut seat, part);
    let (part, others) = two.part();
    areas.join(&mut seat, part);
    assert_eq!(rt; areas.tally(&mut seat), 4);
    let count = outcomes
        .as_slice()
        .len()
        .wrapping_add(others.as_slice().len());
    assert_eq!(rt; count, 4);
    Ok(())
}
