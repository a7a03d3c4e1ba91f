// Runs of the machine, a step at a time.
use crate::words::table;
use std::test::Fail;
use swap_core::{Core, NotNow, Plan, Step, Took, Window};

const LOOK: Step = Step::Look { who: 0 };

const ENTER: Step = Step::Enter { who: 0 };

const CONFIRM: Step = Step::Confirm { who: 0 };

const DRAW: Step = Step::Draw { who: 0 };

const LEAVE: Step = Step::Leave { who: 0 };

fn read(place: u32) -> Step {
    Step::Read { who: 0, place }
}

fn yes(value: u64) -> Took {
    Took::Yes { value }
}

fn no(cause: NotNow) -> Took {
    Took::No { cause }
}

#[test]
fn one_table_and_one_actor(rt: HostRuntime) -> Result<(), Fail> {
    let plan = Plan::of(rt.alloc(), table(rt.alloc(), 1, 7)?)?;
    assert_eq!(rt; (plan.len(), plan.limit(0)), (1, 1 << 31));
    let mut core = Core::opening(rt.alloc(), plan, 1)?;
    let table = [
        (DRAW, no(NotNow::Phase)),
        (Step::Look { who: 1 }, no(NotNow::Stranger)),
        (LOOK, yes(0)),
        (ENTER, yes(0)),
        (CONFIRM, yes(0)),
        (read(1), no(NotNow::Past)),
        (read(0), yes(7)),
        (Step::Due, no(NotNow::NoLoad)),
    ];
    for (step, took) in table {
        assert_eq!(rt; core.step(step)?, took, "{step:?}");
    }
    Ok(())
}

#[test]
fn a_window_holds_the_draws(rt: HostRuntime) -> Result<(), Fail> {
    let mut plan = Plan::of(rt.alloc(), table(rt.alloc(), 1, 7)?)?;
    let window = Window {
        earliest: 1,
        latest: 1,
    };
    plan.add(window, table(rt.alloc(), 1, 8)?)?;
    assert_eq!(rt; (plan.len(), plan.limit(0), plan.limit(1)), (2, 1, 1 << 31));
    assert_eq!(rt; (plan.threshold(0), plan.threshold(1)), (1, 1 << 31));
    assert_eq!(rt; (plan.window(1), plan.words(1)[0]), (window, 8));
    let mut core = Core::opening(rt.alloc(), plan, 1)?;
    core.run(&[LOOK, ENTER, CONFIRM])?;
    let table = [
        (Step::Due, no(NotNow::Later)),
        (DRAW, yes(0)),
        (DRAW, no(NotNow::Hold)),
        (Step::Due, yes(0)),
    ];
    for (step, took) in table {
        assert_eq!(rt; core.step(step)?, took, "{step:?}");
    }
    Ok(())
}

#[test]
fn a_table_changes_under_its_reader(rt: HostRuntime) -> Result<(), Fail> {
    let mut plan = Plan::of(rt.alloc(), table(rt.alloc(), 1, 7)?)?;
    let window = Window {
        earliest: 0,
        latest: 9,
    };
    plan.add(window, table(rt.alloc(), 1, 8)?)?;
    plan.add(window, table(rt.alloc(), 1, 9)?)?;
    let mut core = Core::opening(rt.alloc(), plan, 1)?;
    let table = [
        (LOOK, yes(0)),
        (ENTER, yes(0)),
        (CONFIRM, yes(0)),
        (DRAW, yes(0)),
        (Step::Due, yes(0)),
        (Step::Count, yes(0)),
        (Step::Publish, no(NotNow::Phase)),
        (Step::Write, yes(0)),
        (Step::Publish, yes(1)),
        (DRAW, no(NotNow::Moved)),
        (read(0), yes(7)),
        (Step::Due, yes(0)),
        (Step::Count, no(NotNow::Claimed)),
        (LEAVE, yes(0)),
        (Step::Count, yes(0)),
    ];
    for (step, took) in table {
        assert_eq!(rt; core.step(step)?, took, "{step:?}");
    }
    Ok(())
}
