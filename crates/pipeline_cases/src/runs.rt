// Runs that end, with all rounds in order and all buffers back.
ghost use Rattle.std.specs.Prelude.{◌<◌};

use crate::callers::{Crew, run};
use crate::numbers::{Checker, Counter, NEVER, Run};
use std::alloc::{AllocError, Global};
use std::sync::Wait;
use std::test::Fail;
use std::thread::Threads;

// How many buffers come back, of all workers.
fn buffers_back(finished: &mut Run) -> u64 {
    let mut count = 0u64;
    for number in 0..finished.seats.len() {
        for _ in 0..1_000u32 {
            if finished.take_buffer(number).is_none() {
                break;
            }
            count = count.saturating_add(1);
        }
    }
    count
}

// How many rounds the judges judged, all in all.
fn rounds_judged(finished: &Run) -> u64 {
    let mut count = 0u64;
    for seat in &finished.seats {
        count = count.saturating_add(seat.judge.judged);
    }
    count
}

// What a test sees of a run.
#[derive(Clone, Copy, Debug, PartialEq, Eq)]
struct Outcome {
    read: u64,
    judged: u64,
    put: u64,
    wrong: u64,
    answer: Option<u64>,
    buffers: u64,
}

fn outcome_of<R: Threads + Wait + Sync>(
    rt: &R,
    alloc: Global,
    crew: Crew,
    source: Counter,
    sink: Checker,
) -> Result<Outcome, AllocError>
    requires { 0 < crew.workers }
{
    let mut finished = run(rt, alloc, crew, source, sink)?;
    Ok(Outcome {
        read: finished.source.next,
        judged: rounds_judged(&finished),
        put: finished.sink.next,
        wrong: finished.sink.wrong,
        answer: finished.answer,
        buffers: buffers_back(&mut finished),
    })
}

// A run whose rounds are all read, judged and put.
fn whole(rounds: u64, answer: Option<u64>, buffers: u64) -> Outcome {
    Outcome {
        read: rounds,
        judged: rounds,
        put: rounds,
        wrong: 0,
        answer,
        buffers,
    }
}

#[test]
fn all_rounds_are_put_in_order(rt: HostRuntime) -> Result<(), Fail> {
    for workers in [1u64, 2, 3, 16] {
        for buffers in [1u64, 2, 3] {
            let crew = Crew { workers, buffers };
            let made = outcome_of(
                &rt,
                rt.alloc(),
                crew,
                Counter::new(500, false),
                Checker::new(NEVER),
            )?;
            assert_eq!(rt; made, whole(500, None, workers.saturating_mul(buffers)));
        }
    }
    Ok(())
}

#[test]
fn a_fault_of_the_sink_ends_the_run_at_each_round(rt: HostRuntime) -> Result<(), Fail> {
    for fails_at in 0..40u64 {
        let crew = Crew {
            workers: 3,
            buffers: 2,
        };
        let made = outcome_of(
            &rt,
            rt.alloc(),
            crew,
            Counter::new(60, false),
            Checker::new(fails_at),
        )?;
        let put = fails_at.saturating_add(1);
        assert_eq!(rt; made.answer, Some(fails_at));
        assert_eq!(rt; made.put, put);
        assert_eq!(rt; made.wrong, 0);
        assert_eq!(rt; made.buffers, 6);
        assert!(rt; made.read >= put);
        assert!(rt; made.read <= fails_at.saturating_add(6));
        assert_eq!(rt; made.judged, made.read);
    }
    Ok(())
}

#[test]
fn rounds_before_a_fault_of_the_source_are_put(rt: HostRuntime) -> Result<(), Fail> {
    for rounds in 1..40u64 {
        let crew = Crew {
            workers: 4,
            buffers: 2,
        };
        let made = outcome_of(
            &rt,
            rt.alloc(),
            crew,
            Counter::new(rounds, true),
            Checker::new(NEVER),
        )?;
        assert_eq!(rt; made, whole(rounds, rounds.checked_sub(1), 8));
    }
    Ok(())
}

// One round by each crew.
fn one_round_by<R: Threads + Wait + Sync>(
    rt: &R,
    alloc: Global,
    workers: u64,
    fails: bool,
) -> Result<Outcome, AllocError>
    requires { 0 < workers }
{
    let crew = Crew {
        workers,
        buffers: 3,
    };
    outcome_of(rt, alloc, crew, Counter::new(1, fails), Checker::new(NEVER))
}

#[test]
fn the_first_round_is_the_last_one(rt: HostRuntime) -> Result<(), Fail> {
    for workers in [1u64, 2, 16] {
        let made = one_round_by(&rt, rt.alloc(), workers, false)?;
        assert_eq!(rt; made, whole(1, None, workers.saturating_mul(3)));
    }
    Ok(())
}

#[test]
fn a_source_that_fails_at_once_gives_one_round_with_its_fault(rt: HostRuntime) -> Result<(), Fail> {
    for workers in [1u64, 2, 16] {
        let made = one_round_by(&rt, rt.alloc(), workers, true)?;
        assert_eq!(rt; made, whole(1, Some(0), workers.saturating_mul(3)));
    }
    Ok(())
}
