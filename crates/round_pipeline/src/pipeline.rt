// A pipeline: workers, each with a judge and buffers, that run over a source and a sink.
ghost use Rattle.std.specs.Prelude.{◌≡◌, ◌<◌, ◌++◌, ◌∷◌, [], All, IfOk, OnErr, OnOk, Option, length, map};
ghost use Rattle.rtrb.specs.Ring.{SameProducer, sent};
ghost use Rattle.round_pipeline.specs.Ends.{IsNewLine};
ghost use Rattle.round_pipeline.specs.Lists.{fresh};

use crate::bells::LineBells;
use crate::capture::ReadEnd;
use crate::finished::Seat;
use crate::rings::{Emptied, Filled, Judged, Returned};
use crate::traits::RoundBuffer;
use crate::worker::JudgeEnd;
use crate::writer::WriteEnd;
use rtrb::{Producer, RingBuffer};
use std::alloc::{AllocError, Global};
use std::marker::Model;
use std::sync::Arc;

/// Workers that are ready to run. Contracts see the judges and the buffers, in the order in which they were added.
#[derive(Drop)]
pub struct Pipeline<T: RoundBuffer + Drop, J: Drop> {
    pub(crate) reads: Vec<ReadEnd<T>>,
    pub(crate) seats: Vec<Seat<T, J>>,
    pub(crate) writes: Vec<WriteEnd<T>>,
    /// How many values the ring of the order has to hold.
    pub(crate) room: usize,
    /// If there is one worker: its bells, for a thread that takes turns for it.
    pub(crate) taker: Option<Arc<LineBells, Global>>,
}

impl<T: RoundBuffer + Drop, J: Drop> Model for Pipeline<T, J> {
    ghost use Rattle.round_pipeline.specs.Pipelines.{Crew, IsFresh, crew_of};

    ghost Value = { Crew J T };

    ghost view = { λ p. crew_of p.seats.items p.writes.items };

    ghost invariant = { λ p. IsFresh p.reads.items p.seats.items p.writes.items };
}

// Puts buffers into the ring that brings them to whoever reads.
fn lay_out<T: RoundBuffer + Drop>(
    back: &mut Producer<Returned<T>, Global, Emptied<T>>,
    buffers: Vec<T>,
) -> Result<(), AllocError>
    requires { All (λ b. T.empty b) buffers.items }
    ensures same { SameProducer back.old back.new }
    ensures laid { OnOk result (sent back.new ≡ sent back.old ++ fresh buffers.items) }
{
    'buffers: for buffer in buffers {
        let first = Returned {
            buffer,
            over: false,
        };
        match back.push(first) {
            Ok(()) => {}
            Err(_) => return Err(AllocError),
        }
    }
    Ok(())
}

// The ends of a line.
#[derive(Drop)]
struct Line<T: RoundBuffer + Drop> {
    read: ReadEnd<T>,
    judge: JudgeEnd<T>,
    write: WriteEnd<T>,
    taker: Arc<LineBells, Global>,
}

// Makes a line, with its buffers on their way to whoever reads. Each ring has room for all buffers and one end.
fn new_line<T: RoundBuffer + Drop>(alloc: Global, buffers: Vec<T>) -> Result<Line<T>, AllocError>
    requires { All (λ b. T.empty b) buffers.items }
    ensures { IfOk result (λ l. IsNewLine l.read l.judge l.write × (sent l.write.back ≡ fresh buffers.items)) }
{
    let room = buffers.len().checked_add(1).ok_or(AllocError)?;
    let (work, to_judge) = RingBuffer::with_protocol::<Global, Filled<T>>(alloc, room)?;
    let (made, to_write) = RingBuffer::with_protocol::<Global, Judged<T>>(alloc, room)?;
    let (mut back, to_read) = RingBuffer::with_protocol::<Global, Emptied<T>>(alloc, room)?;
    let bells = Arc::new(alloc, LineBells::new())?;
    let read = ReadEnd {
        work,
        back: to_read,
        bells: bells.clone()?,
    };
    let judge = JudgeEnd {
        work: to_judge,
        made,
        bells: bells.clone()?,
    };
    lay_out(&mut back, buffers)?;
    let write = WriteEnd {
        made: to_write,
        back,
        bells: bells.clone()?,
    };
    Ok(Line {
        read,
        judge,
        write,
        taker: bells,
    })
}

impl<T: RoundBuffer + Drop, J: Drop> Pipeline<T, J> {
    ghost use Rattle.std.specs.Prelude.{◌≡◌, ◌<◌, ◌++◌, ◌∷◌, [], All, OnErr, OnOk, Option, length};

    /// A pipeline with no worker.
    pub fn new(alloc: Global) -> Pipeline<T, J>
        ensures { result ≡ record { judges = []; buffers = [] } }
    {
        Pipeline {
            reads: Vec::new(alloc),
            seats: Vec::new(alloc),
            writes: Vec::new(alloc),
            room: 1,
            taker: None,
        }
    }

    /// Adds a worker with its judge and its buffers, at least one; two or three let it read while the writer has the others.
    /// If memory runs out, the judge and the buffers are dropped.
    pub fn add_worker(&mut self, alloc: Global, judge: J, buffers: Vec<T>) -> Result<(), AllocError>
        requires { All (λ b. T.empty b) buffers.items }
        ensures added { OnOk result (self.new ≡ record { judges = self.old.judges ++ judge ∷ []; buffers = self.old.buffers ++ buffers.items ∷ [] }) }
        ensures refused { OnErr result (self.new ≡ self.old) }
    {
        self.reads.reserve(1)?;
        self.seats.reserve(1)?;
        self.writes.reserve(1)?;
        let count = buffers.len();
        let Line {
            read,
            judge: line,
            write,
            taker,
        } = new_line(alloc, buffers)?;
        self.room = self.room.saturating_add(count);
        self.taker = if self.seats.is_empty() {
            Some(taker)
        } else {
            None
        };
        self.reads.push_reserved(read);
        self.seats.push_reserved(Seat { judge, line });
        self.writes.push_reserved(write);
        Ok(())
    }
}
