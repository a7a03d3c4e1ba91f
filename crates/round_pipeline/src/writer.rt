// The writer: it puts the rounds in the order in which they were read.
ghost use Rattle.std.specs.Prelude.{◌≡◌, ◌<◌, ◌++◌, ◌∷◌, ℕ, [], IfNone, IfSome, None, Option, Some, false, length, slice_index_or, true};
ghost use Rattle.rtrb.specs.Ring.{SameConsumer, received, sent};
ghost use Rattle.round_pipeline.specs.Ends.{HasPut, SameWriteEnd};
ghost use Rattle.round_pipeline.specs.Threads.{IsWriting};

use crate::bells::{LineBells, OrderBells};
use crate::rings::{Emptied, Judged, Returned, receive, send, stuck};
use crate::traits::{RoundBuffer, Sink};
use rtrb::{Consumer, Producer};
use std::alloc::Global;
use std::sync::{Arc, Wait};

/// The ends of a line that the writer has.
#[derive(Drop)]
pub(crate) struct WriteEnd<T: RoundBuffer + Drop> {
    pub(crate) made: Consumer<Option<T>, Global, Judged<T>>,
    pub(crate) back: Producer<Returned<T>, Global, Emptied<T>>,
    pub(crate) bells: Arc<LineBells, Global>,
}

/// What tells the writer whose round is next.
#[derive(Drop)]
pub(crate) struct OrderEnd {
    pub(crate) turns: Consumer<Option<usize>, Global>,
    pub(crate) bells: Arc<OrderBells, Global>,
    /// No more comes.
    pub(crate) ended: bool,
}

/// The sink, the writing ends of all lines, the order, and why the sink ended, if it did.
#[derive(Drop)]
pub(crate) struct Writing<T: RoundBuffer + Drop, E: Drop, W: Drop> {
    pub(crate) sink: W,
    pub(crate) lines: Vec<WriteEnd<T>>,
    pub(crate) order: OrderEnd,
    pub(crate) answer: Option<E>,
}

// Whose round is next.
fn next_turn<R: Wait>(rt: &R, order: &mut OrderEnd, count: usize) -> Option<usize>
    requires { order.old.ended ≡ false }
    ensures same { SameConsumer order.old.turns order.new.turns }
    ensures some { IfSome result (λ at. (at < count) × (received order.new.turns ≡ received order.old.turns ++ Some at ∷ []) × (order.new.ended ≡ false)) }
    ensures none { IfNone result ((received order.new.turns ≡ received order.old.turns ++ None ∷ []) × (order.new.ended ≡ true)) }
{
    let Some(at) = receive(rt, &mut order.turns, &order.bells.writer) else {
        order.ended = true;
        return None;
    };
    if at >= count {
        stuck(rt);
        unreachable!()
    }
    Some(at)
}

// Takes the next round of a line.
fn next_product<R: Wait, T: RoundBuffer + Drop>(rt: &R, line: &mut WriteEnd<T>) -> T
    ensures same { SameWriteEnd line.old line.new }
    ensures took { received line.new.made ≡ received line.old.made ++ Some result ∷ [] }
    ensures kept { sent line.new.back ≡ sent line.old.back }
    ensures judged { T.judged result }
{
    let Some(buffer) = receive(rt, &mut line.made, &line.bells.writer) else {
        stuck(rt);
        unreachable!()
    };
    buffer
}

// Puts the next round of a line, unless the sink has ended, and gives the buffer back.
fn put_round<R: Wait, T: RoundBuffer + Drop, E: Drop, W: Sink<T, E>>(
    rt: &R,
    sink: &mut W,
    line: &mut WriteEnd<T>,
    answer: &mut Option<E>,
)
    requires ready { W.ready sink.old }
    ensures same { SameWriteEnd line.old line.new }
    ensures ready { W.ready sink.new }
    ensures put { HasPut W.puts sink.old answer.old line.old sink.new answer.new line.new }
{
    let mut buffer = next_product(rt, line);
    if answer.is_none() {
        *answer = sink.put(&mut buffer);
    }
    let back = Returned {
        buffer,
        over: answer.is_some(),
    };
    send(rt, &mut line.back, &line.bells.worker, back);
    line.bells.taker.unpark();
}

// Puts rounds in order, until no more comes. It can begin anew where it was left.
fn write_rounds<R: Wait, T: RoundBuffer + Drop, E: Drop, W: Sink<T, E>>(
    rt: &R,
    sink: &mut W,
    lines: &mut [WriteEnd<T>],
    order: &mut OrderEnd,
    answer: &mut Option<E>,
)
    requires ready { W.ready sink.old }
    ensures same { (i : ℕ) (d : _) → i < length lines.old → SameWriteEnd (slice_index_or lines.old i d) (slice_index_or lines.new i d) }
    ensures turns { SameConsumer order.old.turns order.new.turns }
    ensures ended { order.new.ended ≡ true }
    ensures ready { W.ready sink.new }
    ensures written { (start : W) (first : _) → IsWriting W.puts (length lines.old) start first (received order.old.turns) order.old.ended sink.old answer.old lines.old →
        IsWriting W.puts (length lines.old) start first (received order.new.turns) order.new.ended sink.new answer.new lines.new }
{
    let count = lines.len();
    'rounds: for _ in rt.forever() {
        if order.ended {
            return;
        }
        if let Some(at) = next_turn(rt, order, count) {
            put_round(rt, sink, &mut lines[at], answer);
        }
    }
    unreachable!()
}

// Goes on writing until no more comes.
pub(crate) fn write_on<R: Wait, T: RoundBuffer + Drop, E: Drop, W: Sink<T, E> + Drop>(
    rt: &R,
    mut writing: Writing<T, E, W>,
) -> Writing<T, E, W>
    requires ready { W.ready writing.sink }
    ensures size { length result.lines.items ≡ length writing.lines.items }
    ensures same { (i : ℕ) (d : _) → i < length writing.lines.items → SameWriteEnd (slice_index_or writing.lines.items i d) (slice_index_or result.lines.items i d) }
    ensures turns { SameConsumer writing.order.turns result.order.turns }
    ensures ended { result.order.ended ≡ true }
    ensures ready { W.ready result.sink }
    ensures written { (start : W) (first : _) →
        IsWriting W.puts (length writing.lines.items) start first (received writing.order.turns) writing.order.ended writing.sink writing.answer writing.lines.items →
        IsWriting W.puts (length writing.lines.items) start first (received result.order.turns) result.order.ended result.sink result.answer result.lines.items }
{
    write_rounds(
        rt,
        &mut writing.sink,
        writing.lines.as_mut_slice(),
        &mut writing.order,
        &mut writing.answer,
    );
    writing
}
