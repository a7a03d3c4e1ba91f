// The one call that runs a pipeline.
ghost use Rattle.std.specs.Prelude.{◌≡◌, ◌<◌, [], All, IfOk, Option, false, length};
ghost use Rattle.rtrb.specs.Ring.{IsPair, received, sent};
ghost use Rattle.round_pipeline.specs.Pipelines.{HasBegun, IsReady, buffers_left, judges_of};
ghost use Rattle.round_pipeline.specs.Rounds.{HasRun};

use crate::alone::{run_alone, settle};
use crate::bells::OrderBells;
use crate::capture::{Capture, OrderStart};
use crate::finished::Finished;
use crate::meeting::meet_lines;
use crate::pipeline::Pipeline;
use crate::threads::run_in_threads;
use crate::traits::{Judge, RoundBuffer, Sink, Source};
use crate::writer::{OrderEnd, Writing};
use rtrb::RingBuffer;
use std::alloc::{AllocError, Global};
use std::marker::Brand;
use std::sync::{Arc, Wait};
use std::thread::Threads;

// Both ends of the order.
#[derive(Drop)]
struct Order {
    start: OrderStart,
    end: OrderEnd,
}

fn new_order(alloc: Global, room: usize) -> Result<Order, AllocError>
    ensures pair { IfOk result (λ o. IsPair o.start.turns o.end.turns) }
    ensures none { IfOk result (λ o. (sent o.start.turns ≡ []) × (received o.end.turns ≡ []) × (o.end.ended ≡ false)) }
{
    let (turns, to_write) = RingBuffer::new(alloc, room)?;
    let bells = Arc::new(alloc, OrderBells::new())?;
    let start = OrderStart {
        turns,
        bells: bells.clone()?,
    };
    let end = OrderEnd {
        turns: to_write,
        bells,
        ended: false,
    };
    Ok(Order { start, end })
}

// In threads. All begin with nothing read and nothing put.
fn with_threads<
    R: Threads + Wait + Sync,
    T: RoundBuffer + Drop + Send,
    S: Source<T> + Drop + Send,
    J: Judge<T> + Drop + Send,
    E: Drop + Send,
    W: Sink<T, E> + Drop + Send,
>(rt: &R, order: Order, pipeline: Pipeline<T, J>, source: S, sink: W) -> Finished<T, S, J, W, E>
    requires some { 0 < length pipeline.judges }
    requires order { IsPair order.start.turns order.end.turns × (sent order.start.turns ≡ []) × (received order.end.turns ≡ []) × (order.end.ended ≡ false) }
    requires ready { S.ready source × W.ready sink × All (λ j. J.ready j) pipeline.judges }
    ensures ready { IsReady S.fills J.judges W.puts S.ready J.ready W.ready (length pipeline.judges) result }
    ensures ran { HasBegun S.fills J.judges W.puts pipeline source sink result }
{
    let Pipeline {
        reads,
        seats,
        writes,
        taker,
        ..
    } = pipeline;
    let capture = Capture {
        source,
        lines: reads,
        order: order.start,
        closed: false,
        more: true,
    };
    let writing = Writing {
        sink,
        lines: writes,
        order: order.end,
        answer: None,
    };
    run_in_threads::<Brand, R, T, S, J, E, W>(rt, capture, (seats, taker), writing)
}

// Nothing is read yet, and no thread was made.
fn without_threads<
    T: RoundBuffer + Drop,
    S: Source<T> + Drop,
    J: Judge<T> + Drop,
    E: Drop,
    W: Sink<T, E> + Drop,
>(pipeline: Pipeline<T, J>, source: S, sink: W) -> Finished<T, S, J, W, E>
    requires some { 0 < length pipeline.judges }
    requires ready { S.ready source × W.ready sink × All (λ j. J.ready j) pipeline.judges }
    ensures ready { IsReady S.fills J.judges W.puts S.ready J.ready W.ready (length pipeline.judges) result }
    ensures ran { HasBegun S.fills J.judges W.puts pipeline source sink result }
{
    let Pipeline {
        mut reads,
        mut seats,
        mut writes,
        ..
    } = pipeline;
    meet_lines(&mut reads, &mut seats, &mut writes);
    Finished {
        source,
        seats,
        sink,
        answer: None,
        more: true,
        reads,
        writes,
    }
}

// In threads, or without if memory for the order is refused.
fn begin<
    R: Threads + Wait + Sync,
    T: RoundBuffer + Drop + Send,
    S: Source<T> + Drop + Send,
    J: Judge<T> + Drop + Send,
    E: Drop + Send,
    W: Sink<T, E> + Drop + Send,
>(rt: &R, alloc: Global, pipeline: Pipeline<T, J>, source: S, sink: W) -> Finished<T, S, J, W, E>
    requires some { 0 < length pipeline.judges }
    requires ready { S.ready source × W.ready sink × All (λ j. J.ready j) pipeline.judges }
    ensures ready { IsReady S.fills J.judges W.puts S.ready J.ready W.ready (length pipeline.judges) result }
    ensures ran { HasBegun S.fills J.judges W.puts pipeline source sink result }
{
    match new_order(alloc, pipeline.room) {
        Ok(order) => with_threads(rt, order, pipeline, source, sink),
        Err(_) => without_threads(pipeline, source, sink),
    }
}

impl<T: RoundBuffer + Drop + Send, J: Judge<T> + Drop + Send> Pipeline<T, J> {
    ghost use Rattle.std.specs.Prelude.{◌≡◌, ◌<◌, All, Option, length};
    ghost use Rattle.round_pipeline.specs.Pipelines.{IsReady, buffers_left, judges_of};
    ghost use Rattle.round_pipeline.specs.Rounds.{HasRun};

    /// Runs until the source has given its last round, or the sink ends: each worker in a thread of its own, the writer in
    /// this one. The order of rounds is kept. If no thread can be made, or if memory for the run is refused, this thread does all
    /// the work; it has then waited for half a second at most.
    pub fn run<
        R: Threads + Wait + Sync,
        S: Source<T> + Drop + Send,
        E: Drop + Send,
        W: Sink<T, E> + Drop + Send,
    >(self, rt: &R, alloc: Global, source: S, sink: W) -> Finished<T, S, J, W, E>
        requires some { 0 < length self.judges }
        requires buffers { All (λ bs. 0 < length bs) self.buffers }
        requires ready { S.ready source × W.ready sink × All (λ j. J.ready j) self.judges }
        ensures ready { S.ready result.source × W.ready result.sink × All (λ s. J.ready s.judge) result.seats.items }
        ensures ran { HasRun S.fills J.judges W.puts (length self.judges) source self.judges sink self.buffers
            result.source (judges_of result.seats.items) result.sink (buffers_left result) result.answer }
    {
        let mut finished = begin(rt, alloc, self, source, sink);
        run_alone(rt, &mut finished);
        settle(&mut finished);
        finished
    }
}
