// What a run gives back.
ghost use Rattle.std.specs.Prelude.{◌≡◌, ◌∷◌, ℕ, [], ◌⊎◌, IfNone, IfSome, slice_index_or};
ghost use Rattle.round_pipeline.specs.Pipelines.{buffers_left, IsLeft};

use crate::capture::ReadEnd;
use crate::traits::RoundBuffer;
use crate::worker::JudgeEnd;
use crate::writer::WriteEnd;

/// A worker's judge.
#[derive(Drop)]
pub struct Seat<T: RoundBuffer + Drop, J> {
    pub judge: J,
    pub(crate) line: JudgeEnd<T>,
}

/// A run that has ended: the source, the judges, the sink, and all buffers.
#[derive(Drop)]
pub struct Finished<T: RoundBuffer + Drop, S: Drop, J: Drop, W: Drop, E: Drop> {
    pub source: S,
    /// The workers, in the order in which they were added.
    pub seats: Vec<Seat<T, J>>,
    pub sink: W,
    /// Why the sink ended, if it did.
    pub answer: Option<E>,
    pub(crate) more: bool,
    pub(crate) reads: Vec<ReadEnd<T>>,
    pub(crate) writes: Vec<WriteEnd<T>>,
}

impl<T: RoundBuffer + Drop, S: Drop, J: Drop, W: Drop, E: Drop> Finished<T, S, J, W, E> {
    /// The next buffer of a worker, the oldest first; none if the worker has no more, or if there is no such worker. A buffer
    /// is empty, or holds a round that was judged and not put.
    pub fn take_buffer(&mut self, number: usize) -> Option<T>
        ensures some { IfSome result (λ t. slice_index_or (buffers_left self.old) number [] ≡ t ∷ slice_index_or (buffers_left self.new) number []) }
        ensures none { IfNone result ((slice_index_or (buffers_left self.old) number [] ≡ []) × (self.new ≡ self.old)) }
        ensures others { IsLeft number self.old self.new }
        ensures holds { IfSome result (λ t. T.empty t ⊎ T.judged t) }
    {
        if number >= self.reads.len() || self.reads[number].back.cached_slots() == 0 {
            return None;
        }
        let line = &mut self.reads[number];
        Some(line.back.pop_known().buffer)
    }
}
