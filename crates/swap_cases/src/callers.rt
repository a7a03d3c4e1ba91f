// The callers that the READMEs of swap_core, area_swap and hand_over show, and what they answer.
ghost use Rattle.std.specs.Thread.{IsSync};
ghost use Rattle.area_swap.specs.Values.{IsIdle, IsOf, MayDraw};
ghost use Rattle.swap_core.specs.Plans.{IsTableSize};

use crate::words::table;
use aftr_base::{OutOfMemory, WordList};
use area_swap::{Areas, Claim, DrawRun, WorkerSeat, prepare};
use hand_over::{Answerer, Asker, Bells, Protocol, line};
use std::alloc::{AllocError, Global};
use std::sync::Wait;
use std::test::Fail;
use std::thread::{Threads, join_mut};
use swap_core::{Core, Plan, Step, Took, Window};

/// What the first draw gives of a machine of four actors and two tables, of which the second comes into force behind 100 records at
/// the earliest and 200 at the latest: the last actor holds the first table, and draws.
fn first_draw(alloc: Global, first: WordList, second: WordList) -> Result<Took, OutOfMemory>
    requires first { IsTableSize first }
    requires second { IsTableSize second }
{
    let mut plan = Plan::of(alloc, first)?;
    plan.add(
        Window {
            earliest: 100,
            latest: 200,
        },
        second,
    )?;
    let mut core = Core::opening(alloc, plan, 4)?;
    core.run(&[
        Step::Look { who: 3 },
        Step::Enter { who: 3 },
        Step::Confirm { who: 3 },
    ])?;
    core.step(Step::Draw { who: 3 })
}

/// Draws up to 64 numbers of records below `end` under the table in force. The answer is the first of them, how many they are, and the
/// first word of the table; it is nothing if the claim or the draw has to be tried again, or no record is left.
fn draw_some(areas: &Areas, seat: &mut WorkerSeat, end: u32) -> Option<(u32, u32, u64)>
    requires areas { IsOf areas.now seat.old }
    requires idle { IsIdle seat.old.known }
    requires may_draw { MayDraw seat.old.known }
{
    let Claim::Held { .. } = areas.claim(seat) else {
        return None;
    };
    let word = areas.word(seat, 0); // of the table that is held, whatever other seats do
    let drawn = areas.draw_run(seat, end, 64);
    areas.leave(seat);
    match drawn {
        DrawRun::Taken { number, count } => Some((number, count, word)),
        _ => None,
    }
}

// Any number may be asked.
pub(crate) struct AnyNumber;

impl Protocol<u32> for AnyNumber {
    ghost allows = { λ _ _. Unit {0} };
}

// Asks for the square of each number.
pub(crate) fn ask_all<R: Wait>(
    rt: &R,
    alloc: Global,
    numbers: &[u32],
    asker: &mut Asker<'_, u32, u64, AnyNumber>,
) -> Result<Vec<u64>, AllocError> {
    let mut squares = Vec::new(alloc);
    if asker.wait_for_answerer(rt) {
        'numbers: for number in numbers {
            asker.ask(rt, *number);
            squares.push(asker.hear(rt))?;
        }
    }
    Ok(squares)
}

// Gives the square of each number, until nothing more is asked.
pub(crate) fn answer_all<R: Wait>(rt: &R, answerer: &mut Answerer<'_, u32, u64, AnyNumber>) {
    if !answerer.begin() {
        return;
    }
    'answers: for _ in rt.forever() {
        let Some(number) = answerer.take(rt) else {
            return;
        };
        answerer.answer(rt, u64::from(number) * u64::from(number));
    }
}

/// The squares of some numbers, by two threads. There are none where no thread can be made.
fn squares<R: Threads + Wait + Sync>(
    rt: &R,
    alloc: Global,
    numbers: &[u32],
    asker: &mut Asker<'_, u32, u64, AnyNumber>,
    answerer: &mut Answerer<'_, u32, u64, AnyNumber>,
) -> Result<Vec<u64>, AllocError> {
    let mut answering = ||
        requires { IsSync R.row }
    { answer_all(rt, answerer) };
    let mut asking = || -> Result<Vec<u64>, AllocError> {
        let asked = ask_all(rt, alloc, numbers, asker);
        asker.end();
        asked
    };
    let (_, squares) = join_mut(rt, &mut answering, &mut asking);
    squares
}

#[test]
fn the_first_number_is_drawn(rt: HostRuntime) -> Result<(), Fail> {
    let alloc = rt.alloc();
    let took = first_draw(alloc, table(alloc, 1, 7)?, table(alloc, 1, 8)?)?;
    assert_eq!(rt; took, Took::Yes { value: 0 });
    Ok(())
}

#[test]
fn numbers_are_drawn_under_a_table(rt: HostRuntime) -> Result<(), Fail> {
    let plan = Plan::of(rt.alloc(), table(rt.alloc(), 1, 7)?)?;
    let (areas, mut seat, _) = prepare(rt.alloc(), plan)?;
    assert_eq!(rt; draw_some(&areas, &mut seat, 100), Some((0, 64, 7)));
    Ok(())
}

#[test]
fn each_question_has_its_answer_in_order(rt: HostRuntime) -> Result<(), Fail> {
    let alloc = rt.alloc();
    let mut numbers = Vec::new(alloc);
    let mut due = Vec::new(alloc);
    for number in 0..2000u32 {
        numbers.push(number)?;
        due.push(u64::from(number) * u64::from(number))?;
    }
    let bells = Bells::new();
    let (mut asker, mut answerer) = line(alloc, &bells)?;
    let got = squares(&rt, alloc, numbers.as_slice(), &mut asker, &mut answerer)?;
    assert_eq!(rt; got.as_slice(), due.as_slice());
    Ok(())
}
