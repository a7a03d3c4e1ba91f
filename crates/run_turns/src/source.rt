// The source: whoever has it reads a round, draws its numbers, and stages it.
ghost use Rattle.std.specs.Prelude.{◌≡◌, ◌+◌, ◌^◌, ◌++◌, ◌≤◌, ◌≢◌, [], All, IfNone, IfOk, IfSome, None, length, string_bytes, true};
ghost use Rattle.run_turns.specs.Rounds.{IsStaged, TellsLoads};
ghost use Rattle.run_turns.specs.Setups.{setup_of};
ghost use Rattle.run_turns.specs.Turns.{IsFree, reads_in, reads_of, share_of, shares_in};

use crate::capture::{Capture, next_records, put_ahead};
use crate::dealing::{Dealer, Dealt, deal_numbers};
use crate::tasks::Task;
use crate::turn::{Naming, Turn, TurnSeat};
use aftr_base::OutOfMemory;
use aftr_io::Reading;
use capture_io::{CaptureReader, Ending, Records};
use item_stage::{Stage, StagedRound};
use round_pipeline::Source;
use run_output::push_new_versions;
use std::alloc::Global;
use std::marker::PhantomData;
use std::mem;
use std::sync::Wait;
use worker_gate::FreeSeat;

/// Where the rounds of a run come from.
#[derive(Drop)]
pub struct Intake<'a, 'f, 'r, N: Naming, R, I, C> {
    pub rt: &'a R,
    pub capture: Capture<'a, 'f, 'r, I, C>,
    pub dealer: Dealer<'a>,
    /// Seats that no buffer has yet.
    pub seats: Vec<FreeSeat<'a>>,
    /// What is known of the datagrams of earlier records.
    pub stage: Stage,
    /// The number of the next record.
    pub number: u32,
    /// How many loads have their line.
    pub printed: usize,
    /// Memory was refused: nothing more is read.
    pub refused: bool,
    pub(crate) of: PhantomData<N>,
}

/// Records of which the first `count` have their numbers, from `start` on.
#[derive(Drop)]
struct Batch {
    records: Records,
    start: u32,
    count: u32,
}

// Stages the records that have numbers, and puts the others ahead.
fn stage_batch(
    alloc: Global,
    stage: &mut Stage,
    round: &mut StagedRound,
    batch: Batch,
    ahead: &mut Records,
) -> Result<(), OutOfMemory>
    requires inside { batch.count ≤ length batch.records }
    requires start { batch.start ≡ stage.old.number }
    requires few { batch.start + length batch.records ≤ 2 ^ 31 }
    requires none { ahead.old ≡ [] }
    ensures split { IfOk result (λ _. batch.records ≡ round.new.records ++ ahead.new) }
    ensures count { IfOk result (λ _. length round.new.records ≡ batch.count) }
    ensures staged { IfOk result (λ _. IsStaged stage.old stage.new round.new.records round.new.entries) }
{
    let Batch {
        records,
        start,
        count,
    } = batch;
    let mut records = records;
    put_ahead(alloc, &mut records, count as usize, ahead)?;
    round.put_records(records);
    stage.stage(alloc, round, start)
}

// The lines of the loads that are told by now, from a place on. It answers the place of the first load whose line is still to come.
fn new_lines(
    alloc: Global,
    lines: &mut String,
    task: Task<'_>,
    points: &[u32],
    printed: usize,
) -> Result<usize, OutOfMemory>
    requires same { length (setup_of task).slots ≡ length (setup_of task).run.loads }
    requires inside { printed ≤ length (setup_of task).slots }
    ensures { IfOk result (λ to. TellsLoads (setup_of task.entry) points.now printed to (string_bytes lines.new)) }
{
    lines.clear();
    push_new_versions(
        alloc,
        lines,
        task.job.loads.as_slice(),
        task.slots,
        points,
        printed,
    )
}

// Takes the seat out of a buffer, or else one of those that no buffer has. There are as many seats as buffers.
fn take_seat<'a, N: Naming>(
    turn: &mut Turn<'a, N>,
    seats: &mut Vec<FreeSeat<'a>>,
) -> Option<FreeSeat<'a>>
    requires free { IsFree N.areas turn.old.seat }
    requires its_areas { All (λ f. f.areas ≡ N.areas) seats.old.items }
    ensures its_areas { IfSome result (λ f. f.areas ≡ N.areas) }
    ensures left { All (λ f. f.areas ≡ N.areas) seats.new.items }
    ensures share { IfSome result (λ f. f.known.share + shares_in seats.new.items ≡ share_of turn.old.seat + shares_in seats.old.items) }
    ensures reads { IfSome result (λ f. f.known.reads + reads_in seats.new.items ≡ reads_of turn.old.seat + reads_in seats.old.items) }
    ensures none { IfNone result ((turn.new ≡ turn.old) × (seats.new.items ≡ seats.old.items)) }
    ensures rest { (turn.new.round ≡ turn.old.round) × (turn.new.refused ≡ turn.old.refused) }
{
    match mem::replace(&mut turn.seat, TurnSeat::Away) {
        TurnSeat::Free(free) => Some(free),
        TurnSeat::Held(_) => unreachable!(),
        TurnSeat::Away => seats.pop(),
    }
}

// Whether no record is to come.
fn is_last(ahead: &Records, ending: Option<Ending>) -> bool
    ensures { result ≡ true → (ahead.now ≡ []) × (ending ≢ None) }
{
    ending.is_some() && ahead.is_empty()
}

impl<'a, N: Naming, R: Wait, I: Reading, C: CaptureReader> Source<Turn<'a, N>>
    for Intake<'a, '_, '_, N, R, I, C> {
    ghost use Rattle.std.specs.Prelude.{◌≡◌, string_bytes};
    ghost use Rattle.run_turns.specs.Fills.{CanFill, HasFilled, filled, standing, taking};
    ghost use Rattle.run_turns.specs.Setups.{setup_of, spot};

    ghost ready = { λ s. CanFill (setup_of s.capture.task) N.areas (λ r n. C.ready r n)
        (taking (standing (I.readable s.capture.files.now) s.capture.reader.now s.capture.ahead s.capture.ending) s.dealer s.seats.items s.stage s.number s.printed s.refused) };

    ghost fills = { λ s t r u more. HasFilled (setup_of s.capture.task) (λ v. spot (C.stands v) (C.left v) (C.at v))
        (taking (standing (I.readable s.capture.files.now) s.capture.reader.now s.capture.ahead s.capture.ending) s.dealer s.seats.items s.stage s.number s.printed s.refused)
        (taking (standing (I.readable r.capture.files.now) r.capture.reader.now r.capture.ahead r.capture.ending) r.dealer r.seats.items r.stage r.number r.printed r.refused)
        (filled t.start t.round t.seat (string_bytes t.versions) t.refused) (filled u.start u.round u.seat (string_bytes u.versions) u.refused) more
        × ((r.capture.task ≡ s.capture.task)
        × ((r.capture.files.ghost_name ≡ s.capture.files.ghost_name) × (r.capture.reader.ghost_name ≡ s.capture.reader.ghost_name))) };

    fn fill(&mut self, turn: &mut Turn<'a, N>) -> bool {
        turn.refused = true;
        if self.refused {
            return false;
        }
        self.refused = true;
        let alloc = self.capture.alloc;
        let start = self.number;
        let room = turn.round.take_records(alloc);
        let Ok(records) = next_records(&mut self.capture, start, room) else {
            return false;
        };
        if records.is_empty() {
            turn.round.put_records(records);
            turn.start = start;
            turn.refused = false;
            self.refused = false;
            return false;
        }
        let end = start + records.len() as u32;
        let Some(free) = take_seat(turn, &mut self.seats) else {
            return false;
        };
        let Dealt { held, count } = deal_numbers(self.rt, &mut self.dealer, free, start, end);
        turn.seat = TurnSeat::Held(held);
        let batch = Batch {
            records,
            start,
            count,
        };
        if stage_batch(
            alloc,
            &mut self.stage,
            &mut turn.round,
            batch,
            &mut self.capture.ahead,
        )
        .is_err()
        {
            return false;
        }
        let Ok(printed) = new_lines(
            alloc,
            &mut turn.versions,
            self.capture.task,
            self.dealer.desk.points(),
            self.printed,
        ) else {
            return false;
        };
        turn.start = start;
        turn.refused = false;
        self.number = start + count;
        self.printed = printed;
        self.refused = false;
        !is_last(&self.capture.ahead, self.capture.ending)
    }
}
