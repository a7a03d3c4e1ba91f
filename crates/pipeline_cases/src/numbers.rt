// Rounds that hold their number, and what reads, judges and puts them.
ghost use Rattle.std.specs.Prelude.{◌<◌, IfOk, length};

use round_pipeline::{Finished, Judge, RoundBuffer, Sink, Source};
use std::alloc::{AllocError, Global};

/// No round has this number.
pub const NEVER: u64 = 1 << 60;

/// A round: its number, the judge that judged it, and whether the read that ends the source failed.
#[derive(Drop)]
pub struct Round {
    pub number: u64,
    pub judge: u64,
    pub failed: bool,
}

impl RoundBuffer for Round {
    ghost empty = { λ x. Unit {0} };

    ghost filled = { λ x. Unit {0} };

    ghost judged = { λ x. Unit {0} };
}

/// Gives the rounds 0, 1, .. `rounds` - 1, the last one with a fault if `fails`.
#[derive(Drop)]
pub struct Counter {
    pub next: u64,
    pub rounds: u64,
    pub fails: bool,
}

impl Counter {
    pub fn new(rounds: u64, fails: bool) -> Counter {
        Counter {
            next: 0,
            rounds,
            fails,
        }
    }
}

impl Source<Round> for Counter {
    ghost ready = { λ x. Unit {0} };

    ghost fills = { λ a b c d e. Unit {0} };

    fn fill(&mut self, buffer: &mut Round) -> bool {
        buffer.number = self.next;
        self.next = self.next.saturating_add(1);
        let more = self.next < self.rounds;
        buffer.failed = !more && self.fails;
        more
    }
}

/// Writes its own number into each round.
#[derive(Drop)]
pub struct Marker {
    pub number: u64,
    pub judged: u64,
}

impl Marker {
    pub fn new(number: u64) -> Marker {
        Marker { number, judged: 0 }
    }
}

impl Judge<Round> for Marker {
    ghost ready = { λ x. Unit {0} };

    ghost judges = { λ a b c d. Unit {0} };

    fn judge(&mut self, buffer: &mut Round) {
        buffer.judge = self.number;
        self.judged = self.judged.saturating_add(1);
    }
}

/// Counts the rounds, and how many came in another order. It ends at round `fails_at`, or at a round that says that its read failed.
#[derive(Drop)]
pub struct Checker {
    pub next: u64,
    pub wrong: u64,
    pub fails_at: u64,
}

impl Checker {
    pub fn new(fails_at: u64) -> Checker {
        Checker {
            next: 0,
            wrong: 0,
            fails_at,
        }
    }
}

impl Sink<Round, u64> for Checker {
    ghost ready = { λ x. Unit {0} };

    ghost puts = { λ a b c d e. Unit {0} };

    fn put(&mut self, buffer: &mut Round) -> Option<u64> {
        if buffer.number != self.next {
            self.wrong = self.wrong.saturating_add(1);
        }
        self.next = self.next.saturating_add(1);
        if buffer.failed || buffer.number == self.fails_at {
            Some(buffer.number)
        } else {
            None
        }
    }
}

pub type Run = Finished<Round, Counter, Marker, Checker, u64>;

/// Empty buffers for one worker, at least one.
pub fn buffers_of(alloc: Global, count: u64) -> Result<Vec<Round>, AllocError>
    ensures { IfOk result (λ buffers. 0 < length buffers.items) }
{
    let mut buffers = Vec::new(alloc);
    buffers.push(blank())?;
    'more: for _ in 1..count {
        buffers.push(blank())?;
    }
    Ok(buffers)
}

fn blank() -> Round {
    Round {
        number: NEVER,
        judge: NEVER,
        failed: false,
    }
}
