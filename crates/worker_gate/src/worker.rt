// A worker: a seat, and the outcomes of its draws.
ghost use Rattle.std.specs.Prelude.{◌≡◌, ◌≤◌, [], IfErr, IfOk};
ghost use Rattle.worker_gate.specs.Failures.{seat_of};
ghost use Rattle.worker_gate.specs.Serving.{MustReach};

use crate::outcome_list::OutcomeList;
use crate::outcomes::Outcome;
use area_swap::WorkerSeat;
use std::alloc::Global;

/// A seat and the outcomes of its draws. The numbers of its draws to come are `next` or above.
#[derive(Drop)]
pub struct Worker {
    /// Words that nobody uses, so that no two workers side by side write to one cache line.
    apart: [u64; 16],
    pub(crate) seat: WorkerSeat,
    pub(crate) outcomes: OutcomeList,
    pub(crate) next: u32,
}

/// Why there is no worker, with the seat.
#[derive(Drop)]
pub enum WorkerError {
    OutOfMemory(WorkerSeat),
}

impl Worker {
    pub(crate) fn of(seat: WorkerSeat, outcomes: OutcomeList, next: u32) -> Worker
        ensures seat { result.seat ≡ seat }
        ensures outcomes { result.outcomes.items ≡ outcomes.items }
        ensures room { result.outcomes.room ≡ outcomes.room }
        ensures next { result.next ≡ next }
    {
        Worker {
            apart: [0; 16],
            seat,
            outcomes,
            next,
        }
    }

    /// A worker with this seat, with room for so many outcomes, for the records from the number `first` on; so many the seat
    /// has seen drawn.
    pub fn with(
        alloc: Global,
        seat: WorkerSeat,
        first: u32,
        room: usize,
    ) -> Result<Worker, WorkerError>
        requires seen { first ≤ seat.known.seen.records }
        ensures seat { IfOk result (λ worker. worker.seat ≡ seat) }
        ensures outcomes { IfOk result (λ worker. worker.outcomes.items ≡ []) }
        ensures room { IfOk result (λ worker. room ≤ worker.outcomes.room) }
        ensures next { IfOk result (λ worker. worker.next ≡ first) }
        ensures reached { IfOk result (λ worker. MustReach worker.seat.known worker.next) }
        ensures back { IfErr result (λ e. seat_of e ≡ seat) }
    {
        let outcomes = match OutcomeList::with_capacity(alloc, room) {
            Ok(outcomes) => outcomes,
            Err(_) => return Err(WorkerError::OutOfMemory(seat)),
        };
        Ok(Worker::of(seat, outcomes, first))
    }

    /// Its seat and its outcomes.
    pub fn part(self) -> (WorkerSeat, Vec<Outcome>)
        ensures seat { result.0 ≡ self.seat }
        ensures outcomes { result.1.items ≡ self.outcomes.items }
    {
        let Worker { seat, outcomes, .. } = self;
        (seat, outcomes.part())
    }
}
