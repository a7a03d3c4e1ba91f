// The run: its workers with their buffers, the source, and the sink.
ghost use Rattle.std.specs.Prelude.{◌≡◌, ◌+◌, ◌≤◌, ◌≢◌, ℕ, [], All, IfOk, None, Result, length, slice_index_or, vec_capacity};
ghost use Rattle.aftr_text.specs.Jobs.{AreApart, IsWorkers};
ghost use Rattle.area_swap.specs.Values.{HasWholeShare, IsIdle, IsOf};
ghost use Rattle.round_pipeline.specs.Lists.{total};
ghost use Rattle.round_pipeline.specs.Pipelines.{buffers_left};
ghost use Rattle.run_turns.specs.Fills.{CanFill, standing, taking};
ghost use Rattle.run_turns.specs.Passes.{putting};
ghost use Rattle.run_turns.specs.Runs.{AreFresh, EndsBy, IsAtStart, IsBench, IsNewLine, IsOffDuty, Leaves, state_by, state_of};
ghost use Rattle.run_turns.specs.Seats.{HasJoined};
ghost use Rattle.run_turns.specs.Setups.{setup_of, spot};
ghost use Rattle.run_turns.specs.Turns.{reads_in, reads_of, share_of, shares_in};
ghost use Rattle.run_turns.specs.declared.turn.TurnSeat.TheVariants as turn_seat;
ghost use Rattle.std.specs.List.{sum_by};
ghost use Rattle.worker_gate.specs.Reloading.{CanReload, IsSettled};
ghost use Rattle.aftr_io.specs.declared.outside.Fault.{Fault as Faulty};
ghost use Rattle.capture_io.specs.declared.rounds.Ending.{Ending as Ended};

use crate::capture::Capture;
use crate::dealing::Dealer;
use crate::laws::round_laws;
use crate::passing::{Bench, Court};
use crate::progress::Progress;
use crate::seats::{SEATS, lend_seats, seat_of};
use crate::sink::Outputs;
use crate::source::Intake;
use crate::tasks::{RunMeans, Task};
use crate::turn::{Naming, Turn};
use aftr_base::OutOfMemory;
use aftr_io::{Fault, Outside, Reading, Writing};
use area_swap::{Areas, Desk, WorkerSeat};
use capture_io::{CaptureReader, Ending, Records};
use round_pipeline::{Finished, Pipeline};
use std::alloc::Global;
use std::marker::{Brand, PhantomData};
use std::sync::Wait;
use std::thread::Threads;
use worker_gate::{FreeSeat, Gate, settle, take_back};

/// How many buffers each worker has: one to read into while the writer has the others.
const BUFFERS: u32 = 3;

/// What a run keeps from round to round: the seat that draws, the desk, and how far it has come.
#[derive(Drop)]
pub struct Work {
    pub seat: WorkerSeat,
    pub desk: Desk,
    pub progress: Progress,
}

/// A run whose rounds are over.
#[derive(Drop)]
pub struct Taken {
    pub work: Work,
    /// How the records ended, or why the run did.
    pub ended: Result<Ending, Fault>,
}

// The workers of a run with their buffers, and room for the seats.
#[derive(Drop)]
struct Team<'a, N: Naming, G> {
    pipeline: Pipeline<Turn<'a, N>, Bench<'a, N, G>>,
    seats: Vec<FreeSeat<'a>>,
}

// What a run reads from, and what it writes to.
#[derive(Drop)]
struct Open<'f, 'r, 'w, I, O, C> {
    reading: &'f mut I,
    reader: &'r mut C,
    writing: &'w mut O,
}

// A reference that comes back.
#[derive(Drop)]
struct Lent<'f, T> {
    at: &'f mut T,
}

// A run whose rounds are over, with what it read from and wrote to.
#[derive(Drop)]
struct Ran<'f, 'r, 'w, I, O, C> {
    reading: Lent<'f, I>,
    reader: Lent<'r, C>,
    writing: Lent<'w, O>,
    taken: Taken,
}

// A run through the pipeline that has ended.
type Over<'a, 'f, 'r, 'w, N, R, I, O, C, G> = Finished<
    Turn<'a, N>,
    Intake<'a, 'f, 'r, N, R, I, C>,
    Bench<'a, N, G>,
    Outputs<'a, 'w, N, O, G>,
    Fault,
>;

// Buffers for one worker.
fn buffers_of<'a, N: Naming>(alloc: Global, task: Task<'_>) -> Result<Vec<Turn<'a, N>>, OutOfMemory>
    ensures { IfOk result (λ buffers. IsNewLine (λ t. t.seat ≡ turn_seat.Away) buffers.items) }
{
    let mut buffers = Vec::with_capacity(alloc, BUFFERS as usize)?;
    'buffers: for _ in 0..BUFFERS {
        buffers.push(Turn::new(alloc, task.form))?;
    }
    Ok(buffers)
}

// The workers of a run.
fn team_of<'a, N: Naming, R, G: Gate>(
    means: &RunMeans<'a, R, G>,
    task: Task<'a>,
) -> Result<Team<'a, N, G>, OutOfMemory>
    ensures many { IfOk result (λ team. (length team.pipeline.judges ≡ (setup_of task.entry).run.workers) × (length team.pipeline.buffers ≡ (setup_of task.entry).run.workers)) }
    ensures judges { IfOk result (λ team. All (λ b. IsBench task.entry b.court.task b.limited) team.pipeline.judges) }
    ensures buffers { IfOk result (λ team. All (λ bs. IsNewLine (λ t. t.seat ≡ turn_seat.Away) bs) team.pipeline.buffers) }
    ensures seats { IfOk result (λ team. (team.seats.items ≡ []) × (64 ≤ vec_capacity team.seats)) }
{
    let alloc = means.alloc;
    let mut pipeline = Pipeline::new(alloc);
    'workers: for _ in 0..task.job.workers {
        let bench = Bench {
            court: Court {
                gate: means.gate,
                task,
            },
            limited: task.job.errors.is_some(),
            of: PhantomData,
        };
        let buffers = buffers_of(alloc, task)?;
        pipeline.add_worker(alloc, bench, buffers)?;
    }
    Ok(Team {
        pipeline,
        seats: Vec::with_capacity(alloc, SEATS)?,
    })
}

// Takes the seats of a worker's buffers back.
fn give_line_back<'a, N: Naming, R, I, O, C, G>(
    finished: &mut Over<'a, '_, '_, '_, N, R, I, O, C, G>,
    worker: usize,
)
    requires its_areas { finished.old.source.dealer.areas.now ≡ N.areas }
    requires seat { IsOf N.areas finished.old.source.dealer.seat × IsIdle finished.old.source.dealer.seat.known }
    ensures joined { HasJoined N.areas (sum_by (λ t. share_of t.seat) (slice_index_or (buffers_left finished.old) worker []))
        (sum_by (λ t. reads_of t.seat) (slice_index_or (buffers_left finished.old) worker [])) finished.old.source.dealer.seat finished.new.source.dealer.seat }
    ensures none { slice_index_or (buffers_left finished.new) worker [] ≡ [] }
    ensures others { (i : ℕ) → i ≢ worker → slice_index_or (buffers_left finished.new) i [] ≡ slice_index_or (buffers_left finished.old) i [] }
    ensures source { finished.new.source ≡ record finished.old.source { dealer = record finished.old.source.dealer { seat = finished.new.source.dealer.seat } } }
    ensures rest { (finished.new.sink ≡ finished.old.sink) × (finished.new.answer ≡ finished.old.answer) }
{
    'buffers: while let Some(turn) = finished.take_buffer(worker) {
        if let Some(free) = seat_of(turn) {
            let areas = finished.source.dealer.areas;
            take_back(areas, &mut finished.source.dealer.seat, free);
        }
    }
}

// Takes the seats of all buffers back.
fn give_lines_back<'a, N: Naming, R, I, O, C, G>(
    finished: &mut Over<'a, '_, '_, '_, N, R, I, O, C, G>,
    workers: u32,
)
    requires its_areas { finished.old.source.dealer.areas.now ≡ N.areas }
    requires seat { IsOf N.areas finished.old.source.dealer.seat × IsIdle finished.old.source.dealer.seat.known }
    ensures joined { HasJoined N.areas (total (λ i. sum_by (λ t. share_of t.seat) (slice_index_or (buffers_left finished.old) i [])) workers)
        (total (λ i. sum_by (λ t. reads_of t.seat) (slice_index_or (buffers_left finished.old) i [])) workers) finished.old.source.dealer.seat finished.new.source.dealer.seat }
    ensures source { finished.new.source ≡ record finished.old.source { dealer = record finished.old.source.dealer { seat = finished.new.source.dealer.seat } } }
    ensures rest { (finished.new.sink ≡ finished.old.sink) × (finished.new.answer ≡ finished.old.answer) }
{
    'workers: for worker in 0..workers {
        give_line_back(finished, worker as usize);
    }
}

// Takes the seats back that no buffer had.
fn give_spare_back(areas: &Areas, seat: &mut WorkerSeat, seats: Vec<FreeSeat<'_>>)
    requires its_areas { IsOf areas.now seat.old }
    requires idle { IsIdle seat.old.known }
    requires same_areas { All (λ f. f.areas ≡ areas.now) seats.items }
    ensures { HasJoined areas.now (shares_in seats.entry.items) (reads_in seats.entry.items) seat.old seat.new }
{
    let mut seats = seats;
    'seats: while let Some(free) = seats.pop() {
        take_back(areas, seat, free);
    }
}

// How the records ended, or why the sink did.
fn ended_of(answer: Option<Fault>, ending: Option<Ending>) -> Result<Ending, Fault>
    requires { answer ≡ None → ending ≢ None }
    ensures { EndsBy answer ending result }
{
    match answer {
        Some(why) => Err(why),
        None => match ending {
            Some(ending) => Ok(ending),
            None => unreachable!(),
        },
    }
}

// Runs the pipeline, and takes the seats of its buffers back.
fn run_through<
    'a,
    'f,
    'r,
    'w,
    N: Naming + Send,
    R: Threads + Wait + Sync,
    I: Reading + Send,
    O: Writing + Send,
    C: CaptureReader + Send,
    G: Gate + Sync,
>(
    means: &RunMeans<'a, R, G>,
    task: Task<'a>,
    pipeline: Pipeline<Turn<'a, N>, Bench<'a, N, G>>,
    source: Intake<'a, 'f, 'r, N, R, I, C>,
    sink: Outputs<'a, 'w, N, O, G>,
) -> Over<'a, 'f, 'r, 'w, N, R, I, O, C, G>
    requires apart { AreApart (setup_of task).run }
    requires workers { IsWorkers (setup_of task).run.workers }
    requires many { (length pipeline.judges ≡ (setup_of task).run.workers) × (length pipeline.buffers ≡ (setup_of task).run.workers) }
    requires judges { All (λ b. IsBench task b.court.task b.limited) pipeline.judges }
    requires buffers { All (λ bs. IsNewLine (λ t. t.seat ≡ turn_seat.Away) bs) pipeline.buffers }
    requires tasks { (source.capture.task ≡ task) × (sink.court.task ≡ task) }
    requires ready { CanFill (setup_of task) N.areas (λ r n. C.ready r n)
        (taking (standing (I.readable source.capture.files.now) source.capture.reader.now source.capture.ahead source.capture.ending)
        source.dealer source.seats.items source.stage source.number source.printed source.refused) }
    requires fresh { AreFresh (setup_of task) N.areas
        (taking (standing (I.readable source.capture.files.now) source.capture.reader.now source.capture.ahead source.capture.ending)
        source.dealer source.seats.items source.stage source.number source.printed source.refused)
        (putting (O.written sink.files.now) sink.totals sink.limit) }
    requires share { source.dealer.seat.known.share + shares_in source.seats.items ≡ 65536 }
    ensures same_files { result.source.capture.files.ghost_name ≡ source.entry.capture.files.ghost_name }
    ensures same_reader { result.source.capture.reader.ghost_name ≡ source.entry.capture.reader.ghost_name }
    ensures same_outputs { result.sink.files.ghost_name ≡ sink.entry.files.ghost_name }
    ensures ended { result.answer ≡ None → result.source.capture.ending ≢ None }
    ensures seat { IsOf N.areas result.source.dealer.seat × IsIdle result.source.dealer.seat.known }
    ensures desk { CanReload N.areas result.source.dealer.desk }
    ensures seats { All (λ f. f.areas ≡ N.areas) result.source.seats.items }
    ensures share { result.source.dealer.seat.known.share + shares_in result.source.seats.items ≡ 65536 }
    ensures leaves { (ended : Result Ended Faulty) → EndsBy result.answer result.source.capture.ending ended → Leaves (setup_of task.entry)
        (state_by N.areas
        (taking (standing (I.readable result.source.capture.files.now) result.source.capture.reader.now result.source.capture.ahead result.source.capture.ending)
        result.source.dealer result.source.seats.items result.source.stage result.source.number result.source.printed result.source.refused)
        (putting (O.written result.sink.files.now) result.sink.totals result.sink.limit)
        (result.source.dealer.seat.known.reads + reads_in result.source.seats.items))
        (spot (C.stands source.entry.capture.reader.now) (C.left source.entry.capture.reader.now) (C.at source.entry.capture.reader.now))
        (spot (C.stands result.source.capture.reader.now) (C.left result.source.capture.reader.now) (C.at result.source.capture.reader.now))
        (I.readable source.entry.capture.files.now) (I.readable result.source.capture.files.now)
        (O.written sink.entry.files.now) (O.written result.sink.files.now) ended }
{
    // Laws, and no steps: whatever is left has some ending, and what holds of every round.
    C::some_left();
    round_laws();
    let mut finished = pipeline.run(means.rt, means.alloc, source, sink);
    give_lines_back(&mut finished, task.job.workers);
    finished
}

// Lends the seats, runs the pipeline, and takes everything back.
fn run_team<
    'a,
    'f,
    'r,
    'w,
    N: Naming + Send,
    R: Threads + Wait + Sync,
    I: Reading + Send,
    O: Writing + Send,
    C: CaptureReader + Send,
    G: Gate + Sync,
>(
    means: &RunMeans<'a, R, G>,
    task: Task<'a>,
    team: Team<'a, N, G>,
    work: Work,
    opened: Open<'f, 'r, 'w, I, O, C>,
) -> Ran<'f, 'r, 'w, I, O, C>
    requires its_areas { means.now.areas.now ≡ N.areas }
    requires apart { AreApart (setup_of task).run }
    requires workers { IsWorkers (setup_of task).run.workers }
    requires many { (length team.pipeline.judges ≡ (setup_of task).run.workers) × (length team.pipeline.buffers ≡ (setup_of task).run.workers) }
    requires judges { All (λ b. IsBench task b.court.task b.limited) team.pipeline.judges }
    requires buffers { All (λ bs. IsNewLine (λ t. t.seat ≡ turn_seat.Away) bs) team.pipeline.buffers }
    requires seats { (team.seats.items ≡ []) × (64 ≤ vec_capacity team.seats) }
    requires start { IsAtStart (setup_of task) means.now.areas.now work }
    requires ready { C.ready opened.reader.now 0 }
    ensures same_reading { result.reading.at.ghost_name ≡ opened.entry.reading.ghost_name }
    ensures same_reader { result.reader.at.ghost_name ≡ opened.entry.reader.ghost_name }
    ensures same_writing { result.writing.at.ghost_name ≡ opened.entry.writing.ghost_name }
    ensures leaves { Leaves (setup_of task.entry) (state_of means.now.areas.now.plan result.taken.work)
        (spot (C.stands opened.entry.reader.now) (C.left opened.entry.reader.now) (C.at opened.entry.reader.now))
        (spot (C.stands result.reader.at.now) (C.left result.reader.at.now) (C.at result.reader.at.now))
        (I.readable opened.entry.reading.now) (I.readable result.reading.at.now)
        (O.written opened.entry.writing.now) (O.written result.writing.at.now) result.taken.ended }
    ensures off_duty { IsOffDuty means.now.areas.now result.taken.work }
{
    let Team {
        pipeline,
        mut seats,
    } = team;
    let Open {
        reading,
        reader,
        writing,
    } = opened;
    let Work {
        mut seat,
        desk,
        progress,
    } = work;
    lend_seats(means.areas, &mut seat, &mut seats);
    let source = Intake {
        rt: means.rt,
        capture: Capture {
            alloc: means.alloc,
            task,
            files: reading,
            reader,
            ahead: Records::new(means.alloc),
            ending: None,
        },
        dealer: Dealer {
            areas: means.areas,
            seat,
            desk,
        },
        seats,
        stage: progress.stage,
        number: progress.number,
        printed: progress.printed,
        refused: false,
        of: PhantomData,
    };
    let sink = Outputs {
        alloc: means.alloc,
        files: writing,
        court: Court {
            gate: means.gate,
            task,
        },
        totals: progress.totals,
        limit: progress.limit,
        of: PhantomData,
    };
    let Finished {
        source,
        sink,
        answer,
        ..
    } = run_through(means, task, pipeline, source, sink);
    let Intake {
        capture,
        dealer,
        seats,
        stage,
        number,
        printed,
        ..
    } = source;
    let Dealer { mut seat, desk, .. } = dealer;
    give_spare_back(means.areas, &mut seat, seats);
    let progress = Progress {
        stage,
        number,
        totals: sink.totals,
        limit: sink.limit,
        printed,
    };
    Ran {
        reading: Lent { at: capture.files },
        reader: Lent { at: capture.reader },
        writing: Lent { at: sink.files },
        taken: Taken {
            work: Work {
                seat,
                desk,
                progress,
            },
            ended: ended_of(answer, capture.ending),
        },
    }
}

// Takes all records, unless there is no memory for the workers.
fn take_all<
    'a,
    N: Naming + Send,
    R: Threads + Wait + Sync,
    I: Reading + Send,
    O: Writing + Send,
    C: CaptureReader + Send,
    G: Gate + Sync,
>(
    means: &RunMeans<'a, R, G>,
    task: Task<'a>,
    work: Work,
    reading: &mut I,
    reader: &mut C,
    writing: &mut O,
) -> Taken
    requires its_areas { means.now.areas.now ≡ N.areas }
    requires apart { AreApart (setup_of task).run }
    requires workers { IsWorkers (setup_of task).run.workers }
    requires start { IsAtStart (setup_of task) means.now.areas.now work }
    requires ready { C.ready reader.old 0 }
    ensures leaves { Leaves (setup_of task.entry) (state_of means.now.areas.now.plan result.work)
        (spot (C.stands reader.old) (C.left reader.old) (C.at reader.old)) (spot (C.stands reader.new) (C.left reader.new) (C.at reader.new))
        (I.readable reading.old) (I.readable reading.new) (O.written writing.old) (O.written writing.new) result.ended }
    ensures off_duty { IsOffDuty means.now.areas.now result.work }
{
    // A law, and no steps: whatever is left has some ending.
    C::some_left();
    let Ok(team) = team_of::<N, R, G>(means, task) else {
        return Taken {
            work,
            ended: Err(Fault::OutOfMemory),
        };
    };
    let opened = Open {
        reading,
        reader,
        writing,
    };
    let Ran {
        reading,
        reader,
        writing,
        taken,
    } = run_team(means, task, team, work, opened);
    let Lent { at: _reading } = reading;
    let Lent { at: _reader } = reader;
    let Lent { at: _writing } = writing;
    taken
}

/// Takes all records of the capture, writes what they write, and puts the tables into force that are due. Each worker has a thread
/// of its own; if none can be made, the calling thread does all the work. A fault is one of writing, or memory was refused. The
/// reader stands before the first record.
pub fn run_records<
    'a,
    R: Threads + Wait + Sync,
    I: Reading + Send,
    O: Writing + Send,
    C: CaptureReader + Send,
    G: Gate + Sync,
>(
    means: &RunMeans<'a, R, G>,
    files: &mut Outside<I, O>,
    task: Task<'a>,
    reader: &mut C,
    work: Work,
) -> Taken
    requires apart { AreApart (setup_of task).run }
    requires workers { IsWorkers (setup_of task).run.workers }
    requires start { IsAtStart (setup_of task) means.now.areas.now work }
    requires ready { C.ready reader.old 0 }
    ensures leaves { Leaves (setup_of task.entry) (state_of means.now.areas.now.plan result.work)
        (spot (C.stands reader.old) (C.left reader.old) (C.at reader.old)) (spot (C.stands reader.new) (C.left reader.new) (C.at reader.new))
        (I.readable files.old.reading) (I.readable files.new.reading) (O.written files.old.writing) (O.written files.new.writing) result.ended }
    ensures off_duty { IsOffDuty means.now.areas.now result.work }
    ensures settled { IsSettled result.work.seat.known result.work.desk.known }
{
    let mut taken = take_all::<Brand, R, I, O, C, G>(
        means,
        task,
        work,
        &mut files.reading,
        reader,
        &mut files.writing,
    );
    settle(
        means.rt,
        means.areas,
        &mut taken.work.seat,
        &mut taken.work.desk,
    );
    taken
}
