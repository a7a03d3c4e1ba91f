// The bucket.
ghost use Rattle.std.specs.Prelude.{◌≡◌, ◌≤◌, ◌*◌, List, ℕ, Bool, [], ◌∷◌, ◌++◌};
ghost use Rattle.error_limit.specs.Limits.{Bucket, Stands, second};

use std::marker::Model;

// Nanoseconds in a second, and so billionths of an error that an error fills the bucket with.
const SECOND: u64 = 1_000_000_000;

/// A token bucket for errors: it lets so many through in a second, and as many at once. Times are nanoseconds of a capture; a
/// time before the latest one counts as the latest.
#[derive(Debug, Drop)]
pub struct Limiter {
    rate: u32,
    level: u64,
    time: u64,
}

impl Model for Limiter {
    ghost use Rattle.std.specs.Prelude.{◌*◌, ◌≤◌};
    ghost use Rattle.error_limit.specs.Limits.{Bucket, second};

    ghost Value = { Bucket };

    ghost view = { λ l. record { rate = l.rate; level = l.level; time = l.time } };

    ghost invariant = { λ l. (1 ≤ l.rate) × (l.rate ≤ 1000000) × (l.level ≤ l.rate * second) };
}

impl Limiter {
    /// A limiter that has let nothing through: `rate` errors a second, from 1 to 1,000,000, and as many at once.
    pub fn new(rate: u32) -> Self
        requires some { 1 ≤ rate }
        requires most { rate ≤ 1000000 }
        ensures rate { result.rate ≡ rate }
        ensures stands { Stands result [] [] }
    {
        Limiter {
            rate,
            level: 0,
            time: 0,
        }
    }

    /// Whether an error may be sent at this time; if so, it is counted as sent.
    pub fn pass(&mut self, time: u64) -> bool
        ensures rate { self.new.rate ≡ self.old.rate }
        ensures stands { (times : List ℕ) (marks : List Bool) → Stands self.old times marks →
            Stands self.new (times ++ time ∷ []) (marks ++ result ∷ []) }
    {
        let now = self.time.max(time);
        let rate = u64::from(self.rate);
        let drained = rate.saturating_mul(now - self.time);
        let level = self.level.saturating_sub(drained);
        self.time = now;
        if level + SECOND > rate * SECOND {
            self.level = level;
            return false;
        }
        self.level = level + SECOND;
        true
    }
}
