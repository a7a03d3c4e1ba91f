// Tables that a reloader puts into force, over one thread.
use crate::plans::table;
use area_swap::{Claim, Due, prepare};
use std::test::Fail;
use swap_core::{Plan, Window};
use worker_gate::{reload, settle};

const FROM_THE_FIRST: Window = Window {
    earliest: 0,
    latest: 9,
};

#[test]
fn a_reload_puts_all_that_is_due_into_force(rt: HostRuntime) -> Result<(), Fail> {
    let mut plan = Plan::of(rt.alloc(), table(rt.alloc(), 1, 7)?)?;
    plan.add(FROM_THE_FIRST, table(rt.alloc(), 1, 8)?)?;
    plan.add(FROM_THE_FIRST, table(rt.alloc(), 1, 9)?)?;
    let (areas, _, mut desk) = prepare(rt.alloc(), plan)?;
    assert_eq!(rt; reload(&areas, &mut desk, 1), 2);
    assert_eq!(rt; areas.due(&mut desk), Due::None);
    assert_eq!(rt; desk.points(), [0, 0].as_slice());
    Ok(())
}

#[test]
fn a_held_area_ends_a_reload(rt: HostRuntime) -> Result<(), Fail> {
    let mut plan = Plan::of(rt.alloc(), table(rt.alloc(), 1, 7)?)?;
    plan.add(FROM_THE_FIRST, table(rt.alloc(), 1, 8)?)?;
    plan.add(FROM_THE_FIRST, table(rt.alloc(), 1, 9)?)?;
    let (areas, mut seat, mut desk) = prepare(rt.alloc(), plan)?;
    let Claim::Held { version: 0 } = areas.claim(&mut seat) else {
        panic!(rt; "not held")
    };
    assert_eq!(rt; reload(&areas, &mut desk, 1), 1);
    assert_eq!(rt; areas.due(&mut desk), Due::Now);
    areas.leave(&mut seat);
    assert_eq!(rt; settle(&rt, &areas, &mut seat, &mut desk), 1);
    assert_eq!(rt; areas.see(&mut seat).version, 2);
    Ok(())
}

#[test]
fn a_table_whose_window_is_not_reached_waits(rt: HostRuntime) -> Result<(), Fail> {
    let window = Window {
        earliest: 5,
        latest: 9,
    };
    let mut plan = Plan::of(rt.alloc(), table(rt.alloc(), 1, 7)?)?;
    plan.add(window, table(rt.alloc(), 1, 8)?)?;
    let (areas, mut seat, mut desk) = prepare(rt.alloc(), plan)?;
    assert_eq!(rt; reload(&areas, &mut desk, 0), 0);
    assert_eq!(rt; settle(&rt, &areas, &mut seat, &mut desk), 0);
    let Claim::Held { version: 0 } = areas.claim(&mut seat) else {
        panic!(rt; "not held")
    };
    let _drawn = areas.draw_run(&mut seat, 5, 5);
    areas.leave(&mut seat);
    assert_eq!(rt; settle(&rt, &areas, &mut seat, &mut desk), 1);
    assert_eq!(rt; desk.points(), [5].as_slice());
    Ok(())
}
