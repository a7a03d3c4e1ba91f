// Judging a round in its buffer.
ghost use Rattle.std.specs.Prelude.{◌≡◌, ◌+◌, ◌^◌, ◌≤◌, IsTrue, false, length, string_bytes};
ghost use Rattle.area_swap.specs.Values.{AreasValue};
ghost use Rattle.run_output.specs.Limiting.{rate_of};
ghost use Rattle.run_turns.specs.Passes.{HasPassedTurn, IsPassed, judged};
ghost use Rattle.run_turns.specs.Setups.{setup_of};
ghost use Rattle.run_turns.specs.Turns.{IsReadRound};

use crate::tasks::Task;
use crate::turn::{Naming, Turn, TurnSeat};
use error_limit::Limiter;
use item_stage::StagedRound;
use round_pipeline::Judge as RoundJudge;
use run_output::{DrawnRound, Part, judge_and_render};
use std::marker::PhantomData;
use std::mem;
use worker_gate::{FreeSeat, Gate, HeldSeat, Judge};

/// What judging needs besides the round.
#[derive(Drop)]
pub struct Court<'a, G> {
    /// What workers pass between a draw and its judgement.
    pub gate: &'a G,
    pub task: Task<'a>,
}

/// What a judgement leaves.
#[derive(Drop)]
pub(crate) struct Passed<'a> {
    pub(crate) free: FreeSeat<'a>,
    pub(crate) refused: bool,
}

// Judges the records of a round under the version that the seat holds.
fn judge_held<'a, G: Gate>(
    court: &Court<'_, G>,
    limit: &mut Option<Limiter>,
    round: &StagedRound,
    start: u32,
    held: HeldSeat<'a>,
    part: &mut Part,
) -> Passed<'a>
    requires same { length round.now.entries ≡ length round.now.records }
    requires few { start + length round.now.records ≤ 2 ^ 31 }
    ensures areas { result.free.areas ≡ held.entry.areas }
    ensures share { result.free.known.share ≡ held.entry.known.share }
    ensures reads { held.entry.known.reads ≤ result.free.known.reads }
    ensures rate { rate_of limit.new ≡ rate_of limit.old }
    ensures passed { result.refused ≡ false → IsPassed (setup_of court.now.task) limit.old limit.new start round.now held.entry part.new result.free.known.reads }
{
    let mut judge = Judge::of(held);
    let items = round.items();
    let drawn = DrawnRound {
        form: court.task.form,
        written: court.task.written,
        start,
        records: round.records(),
        items: &items,
    };
    let done = judge_and_render(&mut judge, court.gate, &drawn, limit, part);
    let refused = done.is_err();
    let free = judge.end();
    Passed { free, refused }
}

// Gives the version up.
pub(crate) fn let_go<'a>(held: HeldSeat<'a>) -> FreeSeat<'a>
    ensures areas { result.areas ≡ held.entry.areas }
    ensures share { result.known.share ≡ held.entry.known.share }
    ensures reads { held.entry.known.reads ≤ result.known.reads }
{
    Judge::of(held).end()
}

/// Judges a round that holds a version, and writes what its records write into its part. The seat holds nothing afterwards. If memory
/// is refused, the round says so.
pub fn judge_turn<'a, N: Naming, G: Gate>(
    court: &Court<'_, G>,
    limit: &mut Option<Limiter>,
    turn: &mut Turn<'a, N>,
)
    requires { IsReadRound N.areas turn.old.start turn.old.round turn.old.seat turn.old.refused }
    ensures passed { HasPassedTurn (setup_of court.now.task) N.areas limit.old limit.new
        (judged turn.old.start turn.old.round turn.old.seat (string_bytes turn.old.versions) turn.old.part turn.old.refused)
        (judged turn.new.start turn.new.round turn.new.seat (string_bytes turn.new.versions) turn.new.part turn.new.refused) }
    ensures rate { rate_of limit.new ≡ rate_of limit.old }
{
    match mem::replace(&mut turn.seat, TurnSeat::Away) {
        TurnSeat::Held(held) => {
            if turn.refused {
                turn.seat = TurnSeat::Free(let_go(held));
                return;
            }
            let passed = judge_held(court, limit, &turn.round, turn.start, held, &mut turn.part);
            turn.refused = passed.refused;
            turn.seat = TurnSeat::Free(passed.free);
        }
        TurnSeat::Free(free) => turn.seat = TurnSeat::Free(free),
        TurnSeat::Away => {}
    }
}

/// Judges rounds apart, if no limit on errors needs their order.
#[derive(Drop)]
pub struct Bench<'a, N: Naming, G> {
    pub court: Court<'a, G>,
    /// The errors of a second are limited: the sink judges, in order.
    pub limited: bool,
    pub(crate) of: PhantomData<N>,
}

impl<'a, N: Naming, G: Gate> RoundJudge<Turn<'a, N>> for Bench<'a, N, G> {
    ghost use Rattle.std.specs.Prelude.{◌≡◌, None, false, true, string_bytes};
    ghost use Rattle.run_turns.specs.Passes.{HasPassedTurn, JudgesTurn, judged};
    ghost use Rattle.run_turns.specs.Setups.{setup_of};

    ghost ready = { λ b. Unit {0} };

    ghost judges = { λ b t c u. JudgesTurn (setup_of b.court.task) N.areas b.limited
        (judged t.start t.round t.seat (string_bytes t.versions) t.part t.refused)
        (judged u.start u.round u.seat (string_bytes u.versions) u.part u.refused) × ((c.court.task ≡ b.court.task) × (c.limited ≡ b.limited)) };

    fn judge(&mut self, turn: &mut Turn<'a, N>) {
        if self.limited {
            return;
        }
        let mut none = None;
        judge_turn(&self.court, &mut none, turn);
    }
}
