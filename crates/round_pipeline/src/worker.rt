// A worker: it takes turns at the source, and judges what was read for it.
ghost use Rattle.std.specs.Prelude.{◌≡◌, ◌∷◌, ◌++◌, [], IfSome, Option, true};
ghost use Rattle.rtrb.specs.Ring.{SameConsumer, received, sent};
ghost use Rattle.round_pipeline.specs.Ends.{SameJudgeEnd};
ghost use Rattle.round_pipeline.specs.Threads.{CanServe, HasServed, IsJudging};

use crate::bells::LineBells;
use crate::capture::Turn;
use crate::desk::{Desk, Naming};
use crate::finished::Seat;
use crate::rings::{Filled, Judged, send};
use crate::traits::{Judge, RoundBuffer, Source};
use rtrb::{Consumer, Producer};
use std::alloc::Global;
use std::sync::{Arc, Mutex, Wait};

/// The ends of a line that its worker has.
#[derive(Drop)]
pub(crate) struct JudgeEnd<T: RoundBuffer + Drop> {
    pub(crate) work: Consumer<Option<T>, Global, Filled<T>>,
    pub(crate) made: Producer<Option<T>, Global, Judged<T>>,
    pub(crate) bells: Arc<LineBells, Global>,
}

// Takes a turn for a line, unless a round lies there already. The lock is given up before the thread sleeps.
fn turn_if_idle<B: Naming<T, S>, R: Wait, T: RoundBuffer + Drop, S: Source<T> + Drop>(
    rt: &R,
    desk: &Mutex<Desk<B, T, S>>,
    number: usize,
    work: &mut Consumer<Option<T>, Global, Filled<T>>,
) -> Turn
    ensures { SameConsumer work.old work.new × (received work.new ≡ received work.old) }
{
    let mut desk = desk.lock(rt);
    if work.slots() > 0 {
        return Turn::Read;
    }
    desk.take_turn(rt, number)
}

// The next round of this worker: one that another thread read for it, or one that it reads itself.
fn next_round<B: Naming<T, S>, R: Wait, T: RoundBuffer + Drop, S: Source<T> + Drop>(
    rt: &R,
    desk: &Mutex<Desk<B, T, S>>,
    number: usize,
    work: &mut Consumer<Option<T>, Global, Filled<T>>,
    bells: &LineBells,
) -> Option<T>
    ensures same { SameConsumer work.old work.new }
    ensures received { received work.new ≡ received work.old ++ result ∷ [] }
    ensures allowed { IfSome result (λ t. T.filled t) }
{
    'waits: for _ in rt.forever() {
        if let Ok(round) = work.pop() {
            return round;
        }
        if turn_if_idle(rt, desk, number, work) == Turn::NoBuffer {
            bells.worker.park(rt);
        }
    }
    unreachable!()
}

// Takes turns for a line until no more is read, so that its worker can judge meanwhile.
pub(crate) fn take_turns<B: Naming<T, S>, R: Wait, T: RoundBuffer + Drop, S: Source<T> + Drop>(
    rt: &R,
    desk: &Mutex<Desk<B, T, S>>,
    number: usize,
    bells: &LineBells,
) {
    'turns: for _ in rt.forever() {
        let turn = desk.lock(rt).take_turn(rt, number);
        match turn {
            Turn::Read => {}
            Turn::NoBuffer => bells.taker.park(rt),
            Turn::Over => return,
        }
    }
    unreachable!()
}

// Takes turns and judges until no more is read.
fn judge_rounds<B: Naming<T, S>, R: Wait, T: RoundBuffer + Drop, S: Source<T> + Drop, J: Judge<T>>(
    rt: &R,
    desk: &Mutex<Desk<B, T, S>>,
    number: usize,
    judge: &mut J,
    line: &mut JudgeEnd<T>,
)
    requires ready { J.ready judge.old }
    requires none { (received line.old.work ≡ []) × (sent line.old.made ≡ []) }
    ensures same { SameJudgeEnd line.old line.new }
    ensures ready { J.ready judge.new }
    ensures judged { IsJudging J.judges judge.old judge.new (received line.new.work) (sent line.new.made) true }
{
    'rounds: for _ in rt.forever() {
        let Some(buffer) = next_round(rt, desk, number, &mut line.work, &line.bells) else {
            send(rt, &mut line.made, &line.bells.writer, None);
            return;
        };
        let mut buffer = buffer;
        judge.judge(&mut buffer);
        send(rt, &mut line.made, &line.bells.writer, Some(buffer));
    }
    unreachable!()
}

// One worker.
pub(crate) fn serve<
    B: Naming<T, S>,
    R: Wait,
    T: RoundBuffer + Drop,
    S: Source<T> + Drop,
    J: Judge<T>,
>(rt: &R, desk: &Mutex<Desk<B, T, S>>, number: usize, seat: &mut Seat<T, J>)
    requires { CanServe J.ready seat.old }
    ensures { HasServed J.ready J.judges seat.old seat.new }
{
    judge_rounds(rt, desk, number, &mut seat.judge, &mut seat.line)
}
