// Workers beside one another and beside the reloader, held by gates.
use crate::captures::Form;
use crate::due::{has_history, is_right, points};
use crate::runs::{Ran, run_line};
use lwaftr_engine::Status;
use std::alloc::Global;
use std::sync::Wait;
use std::sync::atomic::AtomicUsize;
use std::sync::atomic::Ordering::SeqCst;
use std::test::Fail;
use std::thread::{Threads, yield_now};
use worker_gate::{Gate, OpenGate};

/// A gate that holds records until another one has passed, for so many turns each. Where they run out it notes that, and holds no
/// more.
#[derive(Drop)]
struct Held {
    /// Which record is held: the first one, or each under the first table but record 0.
    number: Option<u32>,
    /// Which record it waits for: this one, or any under a later table.
    other: Option<u32>,
    turns: u32,
    passed: AtomicUsize,
    late: AtomicUsize,
}

impl Held {
    fn new(number: Option<u32>, other: Option<u32>, turns: u32) -> Held {
        Held {
            number,
            other,
            turns,
            passed: AtomicUsize::new(0),
            late: AtomicUsize::new(0),
        }
    }

    /// The record is one that is held.
    fn holds(&self, number: u32, version: u32) -> bool {
        match self.number {
            Some(held) => number == held,
            None => version == 0 && number > 0,
        }
    }

    /// The record is one that is waited for.
    fn waits_for(&self, number: u32, version: u32) -> bool {
        match self.other {
            Some(other) => number == other,
            None => version > 0,
        }
    }
}

impl Gate for Held {
    fn pass(&self, number: u32, version: u32) {
        if self.waits_for(number, version) {
            self.passed.store(1, SeqCst);
        }
        if self.holds(number, version) && self.late.load(SeqCst) == 0 {
            for turn in 0..self.turns {
                if self.passed.load(SeqCst) == 1 {
                    return;
                }
                if turn % 16 == 0 {
                    yield_now();
                }
            }
            self.late.store(1, SeqCst);
        }
    }
}

/// Six packets, of which those from the point on come under a table without the subscriber, which may come into force from record 2 to
/// record 4.
pub const WINDOW: &str =
    "a load in a window|whole|2-4:none --workers {workers}|P@1+1*6|0..{point} 0 up 1, {point}..6 1 drop no-binding 0|1 none at {point}|\
    records 6 held 0 forwarded {point} dropped {rest} packets {point} version 1|p@1+1*{point}|done";

/// The line of that run with the point that its VERSIONS name.
pub fn at_point(alloc: Global, line: &str, ran: &Ran) -> Result<String, Fail> {
    let printed = points(alloc, ran.files.writing.text("versions.txt"))?;
    let (point, rest) = match printed.as_slice() {
        [2] => ("2", "4"),
        [3] => ("3", "3"),
        [4] => ("4", "2"),
        _ => return Err("a point of the window".into()),
    };
    Ok(
        line.replace(alloc, "{point}", point)?
            .replace(alloc, "{rest}", rest)?,
    )
}

/// The run over those packets by so many workers leaves the files of the point that it prints.
fn is_split<R: Threads + Wait + Sync>(rt: &R, alloc: Global, workers: &str) -> Result<bool, Fail> {
    let line = WINDOW.replace(alloc, "{workers}", workers)?;
    let ran = run_line(rt, alloc, Form::Micro, &line, &OpenGate)?;
    is_right(alloc, Form::Micro, &at_point(alloc, &line, &ran)?, &ran)
}

#[test]
fn a_table_comes_into_force_inside_its_window(rt: HostRuntime) -> Result<(), Fail> {
    let alloc = rt.alloc();
    for workers in ["1", "2", "4", "16", "4", "4", "4", "4"] {
        assert!(rt; is_split(&rt, alloc, workers)?, "{workers}");
    }
    Ok(())
}

/// Four packets by two workers.
const PAIR: &str = "two workers|whole|--workers 2|P@1+1*4|0..4 0 up 1||\
    records 4 held 0 forwarded 4 dropped 0 packets 4 version 0|p@1+1*4|done";

#[test]
fn two_workers_run_beside_one_another(rt: HostRuntime) -> Result<(), Fail> {
    let gate = Held::new(Some(1), Some(2), 100_000_000);
    let ran = run_line(&rt, rt.alloc(), Form::Micro, PAIR, &gate)?;
    assert!(rt; is_right(rt.alloc(), Form::Micro, PAIR, &ran)?);
    assert_eq!(rt; gate.late.load(SeqCst), 0);
    Ok(())
}

/// The point of a table that may come into force from record 1 to record 64, where records under the first table wait for one
/// under the next.
fn point_beside<R: Threads + Wait + Sync>(rt: &R, alloc: Global) -> Result<u32, Fail> {
    let gate = Held::new(None, None, 1_000_000);
    let ran = run_line(
        rt,
        alloc,
        Form::Micro,
        "|whole|1-64:whole --workers 2|P@1+1*64",
        &gate,
    )?;
    let printed = points(alloc, ran.files.writing.text("versions.txt"))?;
    Ok(printed.first().copied().unwrap_or(64))
}

#[test]
fn a_table_comes_into_force_while_workers_run(rt: HostRuntime) -> Result<(), Fail> {
    let alloc = rt.alloc();
    let mut least = 64;
    for _ in 0..20 {
        if least == 64 {
            least = point_beside(&rt, alloc)?;
        }
    }
    assert!(rt; 1 <= least && least < 64, "{least}");
    Ok(())
}

#[test]
fn a_held_record_keeps_the_area_of_its_table(rt: HostRuntime) -> Result<(), Fail> {
    let alloc = rt.alloc();
    let gate = Held::new(Some(0), Some(5), 100_000_000);
    let line = "|whole|1-9:whole 1-9:whole 1-9:whole --workers 2|P@1+1*10";
    let ran = run_line(&rt, alloc, Form::Micro, line, &gate)?;
    let printed = points(alloc, ran.files.writing.text("versions.txt"))?;
    assert!(rt; ran.status == Status::Done);
    assert_eq!(rt; gate.late.load(SeqCst), 0);
    let [first, second, third] = printed.as_slice() else {
        panic!(rt; "three points")
    };
    assert!(rt; 1 <= *first && *first <= *second && *second <= *third && *third <= 9);
    assert!(rt; *second >= 6, "{second}");
    assert!(rt; ran.said().starts_with("records 10 ") && has_history(alloc, &ran)?);
    Ok(())
}
