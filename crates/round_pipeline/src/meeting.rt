// The ends of all rings in one hand again, after the threads have ended.
ghost use Rattle.std.specs.Prelude.{◌≡◌, ◌<◌, ℕ, length, slice_index_or};
ghost use Rattle.round_pipeline.specs.Ends.{AreEnds, HaveMet};
ghost use Rattle.round_pipeline.specs.Threads.{AreLines};

use crate::capture::ReadEnd;
use crate::finished::Seat;
use crate::traits::RoundBuffer;
use crate::worker::JudgeEnd;
use crate::writer::WriteEnd;

// What lies in the rings of one line.
fn meet<T: RoundBuffer + Drop>(
    read: &mut ReadEnd<T>,
    judge: &mut JudgeEnd<T>,
    write: &mut WriteEnd<T>,
)
    requires { AreEnds read.old judge.old write.old }
    ensures { HaveMet read.old judge.old write.old read.new write.new }
{
    judge.work.slots_beside(&mut read.work);
    write.made.slots_beside(&mut judge.made);
    read.back.slots_beside(&mut write.back);
}

// What lies in the rings of all lines.
fn meet_all<T: RoundBuffer + Drop, J>(
    reads: &mut [ReadEnd<T>],
    seats: &mut [Seat<T, J>],
    writes: &mut [WriteEnd<T>],
)
    requires sizes { (length seats.old ≡ length reads.old) × (length writes.old ≡ length reads.old) }
    requires lines { AreLines (length reads.old) reads.old seats.old writes.old }
    ensures met { (i : ℕ) (r : _) (j : _) (w : _) → i < length reads.old →
        HaveMet (slice_index_or reads.old i r) (slice_index_or seats.old i j).line (slice_index_or writes.old i w) (slice_index_or reads.new i r) (slice_index_or writes.new i w) }
    ensures judges { (i : ℕ) (j : _) → i < length reads.old → (slice_index_or seats.new i j).judge ≡ (slice_index_or seats.old i j).judge }
{
    let mut at = 0;
    'lines: while at < reads.len() {
        meet(&mut reads[at], &mut seats[at].line, &mut writes[at]);
        at += 1;
    }
}

pub(crate) fn meet_lines<T: RoundBuffer + Drop, J>(
    reads: &mut Vec<ReadEnd<T>>,
    seats: &mut Vec<Seat<T, J>>,
    writes: &mut Vec<WriteEnd<T>>,
)
    requires sizes { (length seats.old.items ≡ length reads.old.items) × (length writes.old.items ≡ length reads.old.items) }
    requires lines { AreLines (length reads.old.items) reads.old.items seats.old.items writes.old.items }
    ensures sizes { (length reads.new.items ≡ length reads.old.items) × (length seats.new.items ≡ length reads.old.items) × (length writes.new.items ≡ length reads.old.items) }
    ensures met { (i : ℕ) (r : _) (j : _) (w : _) → i < length reads.old.items →
        HaveMet (slice_index_or reads.old.items i r) (slice_index_or seats.old.items i j).line (slice_index_or writes.old.items i w)
        (slice_index_or reads.new.items i r) (slice_index_or writes.new.items i w) }
    ensures judges { (i : ℕ) (j : _) → i < length reads.old.items → (slice_index_or seats.new.items i j).judge ≡ (slice_index_or seats.old.items i j).judge }
{
    meet_all(
        reads.as_mut_slice(),
        seats.as_mut_slice(),
        writes.as_mut_slice(),
    )
}
