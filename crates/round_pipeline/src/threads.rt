// A run in threads: the workers each in a thread of its own, the writer in this one.
ghost use Rattle.std.specs.Prelude.{◌≡◌, ◌<◌, All, ℕ, Option, false, length, slice_index_or};
ghost use Rattle.std.specs.Thread.{IsSync};
ghost use Rattle.rtrb.specs.Ring.{IsPair};
ghost use Rattle.round_pipeline.specs.Pipelines.{CanWrite, IsReady, IsRunning};
ghost use Rattle.round_pipeline.specs.Threads.{AreLines, CanServe, HasServed, HasWritten, HaveServed, IsDesk};

use crate::bells::LineBells;
use crate::capture::Capture;
use crate::desk::{Desk, Naming};
use crate::finished::{Finished, Seat};
use crate::meeting::meet_lines;
use crate::traits::{Judge, RoundBuffer, Sink, Source};
use crate::worker::{serve, take_turns};
use crate::writer::{Writing, write_on};
use std::alloc::Global;
use std::sync::{Arc, Mutex, Wait};
use std::thread::{Threads, for_each_mut, join};

/// The source under its lock, and who takes turns at it.
#[derive(Drop)]
pub(crate) struct Shop<B: Naming<T, S>, T: RoundBuffer + Drop, S: Source<T> + Drop, J> {
    desk: Mutex<Desk<B, T, S>>,
    seats: Vec<Seat<T, J>>,
    /// If there is one worker: the bells of its line, for a thread that takes turns for it.
    taker: Option<Arc<LineBells, Global>>,
}

// Each worker in a thread of its own.
fn serve_all<
    B: Naming<T, S> + Send + Sync,
    R: Threads + Wait + Sync,
    T: RoundBuffer + Drop + Send,
    S: Source<T> + Drop + Send,
    J: Judge<T> + Drop + Send,
>(rt: &R, desk: &Mutex<Desk<B, T, S>>, seats: &mut [Seat<T, J>])
    requires some { 0 < length seats.old }
    requires all { All (λ s. CanServe J.ready s) seats.old }
    ensures { HaveServed J.ready J.judges (length seats.old) seats.old seats.new }
{
    let threads = seats.len();
    for_each_mut(
        rt,
        seats,
        threads,
        &|number, seat: &mut Seat<T, J>|
            requires { IsSync R.row × CanServe J.ready seat.old }
            ensures { HasServed J.ready J.judges seat.old seat.new }
        { serve(rt, desk, number, seat) },
    );
}

fn serve_seats<
    B: Naming<T, S> + Send + Sync,
    R: Threads + Wait + Sync,
    T: RoundBuffer + Drop + Send,
    S: Source<T> + Drop + Send,
    J: Judge<T> + Drop + Send,
>(rt: &R, desk: &Mutex<Desk<B, T, S>>, mut seats: Vec<Seat<T, J>>) -> Vec<Seat<T, J>>
    requires some { 0 < length seats.items }
    requires all { All (λ s. CanServe J.ready s) seats.items }
    ensures { HaveServed J.ready J.judges (length seats.items) seats.items result.items }
{
    serve_all(rt, desk, seats.as_mut_slice());
    seats
}

// A thread takes turns for the only worker, which works in this one.
fn serve_beside<
    B: Naming<T, S> + Send + Sync,
    R: Threads + Wait + Sync,
    T: RoundBuffer + Drop + Send,
    S: Source<T> + Drop + Send,
    J: Judge<T> + Drop + Send,
>(rt: &R, desk: &Mutex<Desk<B, T, S>>, seats: Vec<Seat<T, J>>, bells: &LineBells) -> Vec<Seat<T, J>>
    requires some { 0 < length seats.items }
    requires all { All (λ s. CanServe J.ready s) seats.items }
    ensures { HaveServed J.ready J.judges (length seats.items) seats.items result.items }
{
    let (_, seats) = join(
        rt,
        ||
            requires { IsSync R.row }
        { take_turns(rt, desk, 0, bells) },
        || -> Vec<Seat<T, J>>
            requires { IsSync R.row × ((0 < length seats.items) × All (λ s. CanServe J.ready s) seats.items) }
            ensures { HaveServed J.ready J.judges (length seats.items) seats.items result.items }
        { serve_seats(rt, desk, seats) },
    );
    seats
}

fn serve_shop<
    B: Naming<T, S> + Send + Sync,
    R: Threads + Wait + Sync,
    T: RoundBuffer + Drop + Send,
    S: Source<T> + Drop + Send,
    J: Judge<T> + Drop + Send,
>(rt: &R, shop: Shop<B, T, S, J>) -> Shop<B, T, S, J>
    requires some { 0 < length shop.seats.items }
    requires all { All (λ s. CanServe J.ready s) shop.seats.items }
    ensures { HaveServed J.ready J.judges (length shop.seats.items) shop.seats.items result.seats.items }
{
    let Shop { desk, seats, taker } = shop;
    let seats = match &taker {
        Some(bells) => serve_beside(rt, &desk, seats, bells),
        None => serve_seats(rt, &desk, seats),
    };
    Shop { desk, seats, taker }
}

// Writes once a thread reads. If none does within half a second, the run is called off, and nothing is written yet.
fn write_all<R: Wait, T: RoundBuffer + Drop, E: Drop, W: Sink<T, E> + Drop>(
    rt: &R,
    writing: Writing<T, E, W>,
) -> Writing<T, E, W>
    requires { CanWrite W.ready W.puts (length writing.lines.items) writing }
    ensures { HasWritten W.puts W.ready (length writing.lines.items) writing.sink result.sink result.answer writing.lines.items result.lines.items
        writing.order result.order }
{
    if writing.order.bells.wait_for_reader(rt) {
        write_on(rt, writing)
    } else {
        writing
    }
}

// The workers each in a thread of its own, and the writer in this one.
fn work_and_write<
    B: Naming<T, S> + Send + Sync,
    R: Threads + Wait + Sync,
    T: RoundBuffer + Drop + Send,
    S: Source<T> + Drop + Send,
    J: Judge<T> + Drop + Send,
    E: Drop + Send,
    W: Sink<T, E> + Drop + Send,
>(rt: &R, shop: Shop<B, T, S, J>, writing: Writing<T, E, W>) -> (Shop<B, T, S, J>, Writing<T, E, W>)
    requires some { 0 < length shop.seats.items }
    requires all { All (λ s. CanServe J.ready s) shop.seats.items }
    requires write { CanWrite W.ready W.puts (length writing.lines.items) writing }
    ensures served { HaveServed J.ready J.judges (length shop.seats.items) shop.seats.items result.0.seats.items }
    ensures written { HasWritten W.puts W.ready (length writing.lines.items) writing.sink result.1.sink result.1.answer writing.lines.items result.1.lines.items
        writing.order result.1.order }
{
    join(
        rt,
        || -> Shop<B, T, S, J>
            requires { IsSync R.row × ((0 < length shop.seats.items) × All (λ s. CanServe J.ready s) shop.seats.items) }
            ensures { HaveServed J.ready J.judges (length shop.seats.items) shop.seats.items result.seats.items }
        { serve_shop(rt, shop) },
        || -> Writing<T, E, W>
            requires { CanWrite W.ready W.puts (length writing.lines.items) writing }
            ensures { HasWritten W.puts W.ready (length writing.lines.items) writing.sink result.sink result.answer writing.lines.items result.lines.items
                writing.order result.order }
        { write_all(rt, writing) },
    )
}

// Runs in threads, under a name that the caller picks. What the threads leave is gathered once all have ended.
pub(crate) fn run_in_threads<
    B: Naming<T, S> + Send + Sync,
    R: Threads + Wait + Sync,
    T: RoundBuffer + Drop + Send,
    S: Source<T> + Drop + Send,
    J: Judge<T> + Drop + Send,
    E: Drop + Send,
    W: Sink<T, E> + Drop + Send,
>(
    rt: &R,
    capture: Capture<T, S>,
    crew: (Vec<Seat<T, J>>, Option<Arc<LineBells, Global>>),
    writing: Writing<T, E, W>,
) -> Finished<T, S, J, W, E>
    requires named { B.begins capture × ((c : _) → B.begins c → c ≡ capture) }
    requires some { 0 < length crew.0.items }
    requires sizes { (length capture.lines.items ≡ length crew.0.items) × (length writing.lines.items ≡ length crew.0.items) }
    requires desk { IsDesk S.ready S.fills capture capture × (capture.closed ≡ false) }
    requires all { All (λ s. CanServe J.ready s) crew.0.items }
    requires write { CanWrite W.ready W.puts (length crew.0.items) writing × (writing.order.ended ≡ false) }
    requires lines { AreLines (length crew.0.items) capture.lines.items crew.0.items writing.lines.items }
    requires told { IsPair capture.order.turns writing.order.turns }
    ensures ready { IsReady S.fills J.judges W.puts S.ready J.ready W.ready (length crew.0.items) result }
    ensures ran { IsRunning S.fills J.judges W.puts (length crew.0.items) capture.source crew.0.items writing.sink writing.lines.items result }
{
    let (seats, taker) = crew;
    let shop = Shop::<B, T, S, J> {
        desk: Mutex::new(Desk::new(capture)),
        seats,
        taker,
    };
    let (shop, writing) = work_and_write(rt, shop, writing);
    let Shop {
        desk,
        mut seats,
        ..
    } = shop;
    let mut capture = desk.into_inner().into_capture();
    let mut writing = write_on(rt, writing);
    writing.order.turns.slots_beside(&mut capture.order.turns);
    meet_lines(&mut capture.lines, &mut seats, &mut writing.lines);
    let Capture {
        source,
        lines,
        more,
        ..
    } = capture;
    let Writing {
        sink,
        lines: writes,
        answer,
        ..
    } = writing;
    Finished {
        source,
        seats,
        sink,
        answer,
        more,
        reads: lines,
        writes,
    }
}
