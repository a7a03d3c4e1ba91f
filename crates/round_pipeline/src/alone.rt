// The run goes on in one thread, as far as the threads did not bring it: one loop that reads, judges and puts.
ghost use Rattle.std.specs.Prelude.{◌≡◌, ◌<◌, ◌++◌, ◌∷◌, ℕ, [], ◌⊎◌, IsFalse, IsSome, None, Option, false, length, slice_index_or, true};
ghost use Rattle.rtrb.specs.Ring.{IsPair, known_items, received, sent};
ghost use Rattle.round_pipeline.specs.Ends.{SameReadEnd, SameWriteEnd};
ghost use Rattle.round_pipeline.specs.Pipelines.{IsReady, IsRunning};

use crate::capture::ReadEnd;
use crate::finished::Finished;
use crate::rings::{Returned, receive, send, stuck};
use crate::traits::{Judge, RoundBuffer, Sink, Source};
use crate::writer::WriteEnd;
use std::sync::Wait;

// Takes a buffer that has come back while the sink went on.
fn take_buffer<R: Wait, T: RoundBuffer + Drop>(rt: &R, line: &mut ReadEnd<T>) -> T
    ensures same { SameReadEnd line.old line.new }
    ensures took { received line.new.back ≡ received line.old.back ++ record { buffer = result; over = false } ∷ [] }
    ensures empty { T.empty result }
{
    let Returned { buffer, over } = receive(rt, &mut line.back, &line.bells.worker);
    if over {
        stuck(rt);
        unreachable!()
    }
    buffer
}

// Gives a buffer back.
fn give_back<R: Wait, T: RoundBuffer + Drop>(rt: &R, line: &mut WriteEnd<T>, buffer: T, over: bool)
    requires { T.empty buffer }
    ensures same { SameWriteEnd line.old line.new }
    ensures gave { sent line.new.back ≡ sent line.old.back ++ record { buffer = buffer; over = over } ∷ [] }
{
    let back = Returned { buffer, over };
    send(rt, &mut line.back, &line.bells.worker, back);
}

// One round: it is read, judged and put.
fn one_round<
    R: Wait,
    T: RoundBuffer + Drop,
    S: Source<T> + Drop,
    J: Judge<T> + Drop,
    E: Drop,
    W: Sink<T, E> + Drop,
>(rt: &R, run: &mut Finished<T, S, J, W, E>)
    requires some { 0 < length run.old.seats.items }
    requires ready { IsReady S.fills J.judges W.puts S.ready J.ready W.ready (length run.old.seats.items) run.old }
    requires on { (run.old.more ≡ true) × (run.old.answer ≡ None) }
    requires sizes { (length run.old.reads.items ≡ length run.old.seats.items) × (length run.old.writes.items ≡ length run.old.seats.items) }
    ensures sizes { (length run.new.seats.items ≡ length run.old.seats.items) × (length run.new.reads.items ≡ length run.old.seats.items) × (length run.new.writes.items ≡ length run.old.seats.items) }
    ensures ready { IsReady S.fills J.judges W.puts S.ready J.ready W.ready (length run.old.seats.items) run.new }
    ensures running { (source : S) (seats : _) (sink : W) (first : _) → IsRunning S.fills J.judges W.puts (length run.old.seats.items) source seats sink first run.old →
        IsRunning S.fills J.judges W.puts (length run.old.seats.items) source seats sink first run.new }
{
    let mut buffer = take_buffer(rt, &mut run.reads[0]);
    run.more = run.source.fill(&mut buffer);
    run.seats[0].judge.judge(&mut buffer);
    run.answer = run.sink.put(&mut buffer);
    give_back(rt, &mut run.writes[0], buffer, run.answer.is_some());
}

// Goes on until the source has given its last round, or the sink ends.
pub(crate) fn run_alone<
    R: Wait,
    T: RoundBuffer + Drop,
    S: Source<T> + Drop,
    J: Judge<T> + Drop,
    E: Drop,
    W: Sink<T, E> + Drop,
>(rt: &R, run: &mut Finished<T, S, J, W, E>)
    requires some { 0 < length run.old.seats.items }
    requires ready { IsReady S.fills J.judges W.puts S.ready J.ready W.ready (length run.old.seats.items) run.old }
    requires sizes { (length run.old.reads.items ≡ length run.old.seats.items) × (length run.old.writes.items ≡ length run.old.seats.items) }
    ensures ready { IsReady S.fills J.judges W.puts S.ready J.ready W.ready (length run.old.seats.items) run.new }
    ensures ended { (run.new.more ≡ false) ⊎ IsSome run.new.answer }
    ensures running { (source : S) (seats : _) (sink : W) (first : _) → IsRunning S.fills J.judges W.puts (length run.old.seats.items) source seats sink first run.old →
        IsRunning S.fills J.judges W.puts (length run.old.seats.items) source seats sink first run.new }
{
    'rounds: for _ in rt.forever() {
        if !run.more || run.answer.is_some() {
            return;
        }
        one_round(rt, run);
    }
    unreachable!()
}

// What lies in the ring of buffers of the first line, once this thread is done with it.
pub(crate) fn settle<
    T: RoundBuffer + Drop,
    S: Source<T> + Drop,
    J: Judge<T> + Drop,
    E: Drop,
    W: Sink<T, E> + Drop,
>(run: &mut Finished<T, S, J, W, E>)
    requires some { (0 < length run.old.reads.items) × (0 < length run.old.writes.items) }
    requires pair { (r : _) (w : _) → IsPair (slice_index_or run.old.writes.items 0 w).back (slice_index_or run.old.reads.items 0 r).back }
    ensures same { (run.new.source ≡ run.old.source) × (run.new.seats ≡ run.old.seats) × (run.new.sink ≡ run.old.sink) × (run.new.answer ≡ run.old.answer) × (run.new.more ≡ run.old.more) }
    ensures running { (n : ℕ) (source : S) (seats : _) (sink : W) (first : _) → 0 < n → IsRunning S.fills J.judges W.puts n source seats sink first run.old →
        IsRunning S.fills J.judges W.puts n source seats sink first run.new }
    ensures left { (r : _) (w : _) → received (slice_index_or run.new.reads.items 0 r).back ++ known_items (slice_index_or run.new.reads.items 0 r).back
        ≡ sent (slice_index_or run.new.writes.items 0 w).back }
{
    let read = &mut run.reads[0];
    let write = &mut run.writes[0];
    read.back.slots_beside(&mut write.back);
}
