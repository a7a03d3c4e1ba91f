// The source, and one turn at it: a round is read for one line.
ghost use Rattle.std.specs.Prelude.{◌≡◌, ◌<◌, ℕ, IfOk, OnErr, false, length, slice_index_or, true};
ghost use Rattle.rtrb.specs.Ring.{SameProducer, sent};
ghost use Rattle.round_pipeline.specs.Ends.{HasFilled, IsUnread, SameReadEnd, WasEnded};
ghost use Rattle.round_pipeline.specs.Threads.{IsDesk, IsTurning};

use crate::bells::{LineBells, OrderBells};
use crate::rings::{Emptied, Filled, Returned, send};
use crate::traits::{RoundBuffer, Source};
use rtrb::{Consumer, Producer};
use std::alloc::Global;
use std::sync::{Arc, Wait};

/// The ends of a line that whoever reads has.
#[derive(Drop)]
pub(crate) struct ReadEnd<T: RoundBuffer + Drop> {
    pub(crate) work: Producer<Option<T>, Global, Filled<T>>,
    pub(crate) back: Consumer<Returned<T>, Global, Emptied<T>>,
    pub(crate) bells: Arc<LineBells, Global>,
}

/// What tells the writer whose round is next.
#[derive(Drop)]
pub(crate) struct OrderStart {
    pub(crate) turns: Producer<Option<usize>, Global>,
    pub(crate) bells: Arc<OrderBells, Global>,
}

/// What a turn needs: the source, the reading ends of all lines, and the beginning of the order.
#[derive(Drop)]
pub(crate) struct Capture<T: RoundBuffer + Drop, S: Source<T> + Drop> {
    pub(crate) source: S,
    pub(crate) lines: Vec<ReadEnd<T>>,
    pub(crate) order: OrderStart,
    /// All threads were told that no more is read.
    pub(crate) closed: bool,
    /// The source may give more.
    pub(crate) more: bool,
}

/// Why no round was read.
#[derive(Clone, Copy, Debug, PartialEq, Eq)]
pub(crate) enum Unread {
    /// No buffer has come back to this line.
    NoBuffer,
    /// The sink has ended.
    SinkEnded,
}

/// What came of a turn.
#[derive(Clone, Copy, Debug, PartialEq, Eq)]
pub(crate) enum Turn {
    /// A round was read, and more may come.
    Read,
    /// No buffer has come back to this line.
    NoBuffer,
    /// No more is read.
    Over,
}

// Reads a round into a buffer that has come back, and hands it to the worker of the line. The answer says whether more may come.
fn read_round<R: Wait, T: RoundBuffer + Drop, S: Source<T>>(
    rt: &R,
    source: &mut S,
    line: &mut ReadEnd<T>,
) -> Result<bool, Unread>
    requires ready { S.ready source.old }
    ensures same { SameReadEnd line.old line.new }
    ensures ready { S.ready source.new }
    ensures unread { OnErr result ((source.new ≡ source.old) × IsUnread line.old line.new) }
    ensures read { IfOk result (λ more. HasFilled S.fills source.old source.new line.old line.new more) }
{
    if line.back.slots() == 0 {
        return Err(Unread::NoBuffer);
    }
    if line.back.peek_known().over {
        return Err(Unread::SinkEnded);
    }
    let Returned { buffer, .. } = line.back.pop_known();
    let mut buffer = buffer;
    let more = source.fill(&mut buffer);
    send(rt, &mut line.work, &line.bells.worker, Some(buffer));
    Ok(more)
}

// One turn: reads a round for a line, and tells the writer whose it is.
fn read_turn<R: Wait, T: RoundBuffer + Drop, S: Source<T>>(
    rt: &R,
    source: &mut S,
    lines: &mut [ReadEnd<T>],
    order: &mut OrderStart,
    number: usize,
) -> Result<bool, Unread>
    requires ready { S.ready source.old }
    requires inside { number < length lines.old }
    ensures same { (i : ℕ) (d : _) → i < length lines.old → SameReadEnd (slice_index_or lines.old i d) (slice_index_or lines.new i d) }
    ensures turns { SameProducer order.old.turns order.new.turns }
    ensures ready { S.ready source.new }
    ensures read { IfOk result (λ more. (start : S) → IsTurning S.fills (length lines.old) start source.old lines.old (sent order.old.turns) true false →
        IsTurning S.fills (length lines.old) start source.new lines.new (sent order.new.turns) more false) }
    ensures unread { OnErr result ((start : S) → IsTurning S.fills (length lines.old) start source.old lines.old (sent order.old.turns) true false →
        IsTurning S.fills (length lines.old) start source.new lines.new (sent order.new.turns) true false) }
{
    match read_round(rt, source, &mut lines[number]) {
        Ok(more) => {
            send(rt, &mut order.turns, &order.bells.writer, Some(number));
            Ok(more)
        }
        Err(unread) => Err(unread),
    }
}

// Tells each worker that no more is read.
fn end_lines<R: Wait, T: RoundBuffer + Drop>(rt: &R, lines: &mut [ReadEnd<T>])
    ensures same { (i : ℕ) (d : _) → i < length lines.old → SameReadEnd (slice_index_or lines.old i d) (slice_index_or lines.new i d) }
    ensures ended { (i : ℕ) (d : _) → i < length lines.old → WasEnded (slice_index_or lines.old i d) (slice_index_or lines.new i d) }
{
    let mut at = 0;
    'lines: while at < lines.len() {
        let line = &mut lines[at];
        send(rt, &mut line.work, &line.bells.worker, None);
        line.bells.taker.unpark();
        at += 1;
    }
}

// Tells all workers and the writer that no more is read.
fn close<R: Wait, T: RoundBuffer + Drop, S: Source<T> + Drop>(rt: &R, capture: &mut Capture<T, S>)
    requires open { capture.old.closed ≡ false }
    requires ready { S.ready capture.old.source }
    ensures { (first : _) → IsDesk S.ready S.fills first capture.old → IsDesk S.ready S.fills first capture.new }
{
    end_lines(rt, capture.lines.as_mut_slice());
    send(
        rt,
        &mut capture.order.turns,
        &capture.order.bells.writer,
        None,
    );
    capture.closed = true;
}

// Reads a round for a line.
fn read_for<R: Wait, T: RoundBuffer + Drop, S: Source<T> + Drop>(
    rt: &R,
    capture: &mut Capture<T, S>,
    number: usize,
) -> Result<bool, Unread>
    requires open { (capture.old.closed ≡ false) × (capture.old.more ≡ true) }
    requires ready { S.ready capture.old.source }
    requires inside { number < length capture.old.lines.items }
    ensures open { capture.new.closed ≡ false }
    ensures ready { S.ready capture.new.source }
    ensures desk { (first : _) → IsDesk S.ready S.fills first capture.old → IsDesk S.ready S.fills first capture.new }
{
    let more = read_turn(
        rt,
        &mut capture.source,
        capture.lines.as_mut_slice(),
        &mut capture.order,
        number,
    )?;
    capture.more = more;
    Ok(more)
}

// One turn, for a line. Nothing is read once all were told so, or if the writer has called the run off.
pub(crate) fn take_turn<R: Wait, T: RoundBuffer + Drop, S: Source<T> + Drop>(
    rt: &R,
    capture: &mut Capture<T, S>,
    number: usize,
) -> Turn
    requires { S.ready capture.old.source }
    ensures { (first : _) → IsDesk S.ready S.fills first capture.old → IsDesk S.ready S.fills first capture.new }
{
    if capture.closed || !capture.more || number >= capture.lines.len() {
        return Turn::Over;
    }
    if capture.order.bells.begin() {
        match read_for(rt, capture, number) {
            Ok(true) => return Turn::Read,
            Ok(false) | Err(Unread::SinkEnded) => {}
            Err(Unread::NoBuffer) => return Turn::NoBuffer,
        }
    }
    close(rt, capture);
    Turn::Over
}
