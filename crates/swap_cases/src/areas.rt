// Tables that change under a claim, and where draws end, over one thread.
use crate::words::table;
use area_swap::{Claim, Draw, DrawRun, Due, Quiet, Seen, prepare};
use std::test::Fail;
use swap_core::{Plan, Window};

#[test]
fn a_table_changes_under_a_held_claim(rt: HostRuntime) -> Result<(), Fail> {
    let window = Window {
        earliest: 0,
        latest: 9,
    };
    let mut plan = Plan::of(rt.alloc(), table(rt.alloc(), 1, 7)?)?;
    plan.add(window, table(rt.alloc(), 1, 8)?)?;
    plan.add(window, table(rt.alloc(), 1, 9)?)?;
    let (areas, mut seat, mut desk) = prepare(rt.alloc(), plan)?;
    let Claim::Held { version: 0 } = areas.claim(&mut seat) else {
        panic!(rt; "not held")
    };
    assert_eq!(rt; areas.draw(&mut seat, 10), Draw::Taken { number: 0 });
    let Due::Now = areas.due(&mut desk) else {
        panic!(rt; "not due")
    };
    let Quiet::Free = areas.quiet(&mut desk) else {
        panic!(rt; "not free")
    };
    areas.write(&mut desk);
    assert_eq!(rt; areas.publish(&mut desk), 1);
    let Due::Now = areas.due(&mut desk) else {
        panic!(rt; "not due again")
    };
    let Quiet::Claimed { count } = areas.quiet(&mut desk) else {
        panic!(rt; "not claimed")
    };
    assert_eq!(rt; (count, areas.word(&mut seat, 0)), (1, 7));
    assert_eq!(rt; areas.draw(&mut seat, 10), Draw::Moved { now: 1 });
    areas.leave(&mut seat);
    assert_eq!(rt; areas.quiet(&mut desk), Quiet::Free);
    assert_eq!(rt; desk.points(), [1].as_slice());
    assert_eq!(rt;
        areas.see(&mut seat),
        Seen {
            version: 1,
            records: 1
        }
    );
    assert_eq!(rt; areas.tally(&mut seat), 1);
    let history = areas.close(seat, desk);
    assert_eq!(rt; (history.points(), history.records()), ([1].as_slice(), 1));
    Ok(())
}

#[test]
fn a_window_decides_when_a_table_is_due(rt: HostRuntime) -> Result<(), Fail> {
    let plan = Plan::of(rt.alloc(), table(rt.alloc(), 1, 7)?)?;
    let (areas, _, mut desk) = prepare(rt.alloc(), plan)?;
    assert_eq!(rt; areas.due(&mut desk), Due::None);
    let window = Window {
        earliest: 5,
        latest: 9,
    };
    let mut plan = Plan::of(rt.alloc(), table(rt.alloc(), 1, 7)?)?;
    plan.add(window, table(rt.alloc(), 1, 8)?)?;
    let (areas, _, mut desk) = prepare(rt.alloc(), plan)?;
    assert_eq!(rt;
        areas.due(&mut desk),
        Due::Later {
            records: 0,
            earliest: 5
        }
    );
    Ok(())
}

#[test]
fn draws_stop_at_the_end_and_at_the_limit(rt: HostRuntime) -> Result<(), Fail> {
    let window = Window {
        earliest: 1,
        latest: 1,
    };
    let mut plan = Plan::of(rt.alloc(), table(rt.alloc(), 1, 7)?)?;
    plan.add(window, table(rt.alloc(), 1, 8)?)?;
    let (areas, mut seat, _) = prepare(rt.alloc(), plan)?;
    let Claim::Held { .. } = areas.claim(&mut seat) else {
        panic!(rt; "not held")
    };
    let first = areas.draw(&mut seat, 9);
    let second = areas.draw(&mut seat, 1);
    let third = areas.draw(&mut seat, 9);
    assert_eq!(rt; first, Draw::Taken { number: 0 });
    assert_eq!(rt; (second, third), (Draw::End, Draw::Hold { limit: 1 }));
    Ok(())
}

#[test]
fn several_numbers_come_at_once_up_to_the_limit(rt: HostRuntime) -> Result<(), Fail> {
    let window = Window {
        earliest: 5,
        latest: 9,
    };
    let mut plan = Plan::of(rt.alloc(), table(rt.alloc(), 1, 7)?)?;
    plan.add(window, table(rt.alloc(), 1, 8)?)?;
    let (areas, mut seat, _) = prepare(rt.alloc(), plan)?;
    let Claim::Held { .. } = areas.claim(&mut seat) else {
        panic!(rt; "not held")
    };
    let first = areas.draw_run(&mut seat, 20, 4);
    let second = areas.draw_run(&mut seat, 20, 64);
    let third = areas.draw_run(&mut seat, 20, 64);
    assert_eq!(rt;
        first,
        DrawRun::Taken {
            number: 0,
            count: 4
        }
    );
    assert_eq!(rt;
        second,
        DrawRun::Taken {
            number: 4,
            count: 5
        }
    );
    assert_eq!(rt; third, DrawRun::Hold { limit: 9 });
    areas.leave(&mut seat);
    assert_eq!(rt; areas.tally(&mut seat), 9);
    Ok(())
}

#[test]
fn several_numbers_come_at_once_up_to_the_end(rt: HostRuntime) -> Result<(), Fail> {
    let plan = Plan::of(rt.alloc(), table(rt.alloc(), 1, 7)?)?;
    let (areas, mut seat, desk) = prepare(rt.alloc(), plan)?;
    let Claim::Held { .. } = areas.claim(&mut seat) else {
        panic!(rt; "not held")
    };
    let first = areas.draw_run(&mut seat, 6, 1);
    let second = areas.draw_run(&mut seat, 6, 5);
    let third = areas.draw_run(&mut seat, 6, 5);
    assert_eq!(rt;
        first,
        DrawRun::Taken {
            number: 0,
            count: 1
        }
    );
    assert_eq!(rt;
        second,
        DrawRun::Taken {
            number: 1,
            count: 5
        }
    );
    assert_eq!(rt;
        (third, areas.draw(&mut seat, 7)),
        (DrawRun::End, Draw::Taken { number: 6 })
    );
    areas.leave(&mut seat);
    assert_eq!(rt; areas.close(seat, desk).records(), 7);
    Ok(())
}
