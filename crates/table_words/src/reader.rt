// A list of words that is read one word at a time.
ghost use Rattle.std.specs.Prelude.{◌≡◌, ℕ, ◌+◌, ◌<◌, List, Option, None, length, slice_index};
ghost use Rattle.table_words.specs.Reads.{read_more};

use crate::counter::Steps;
use std::sync::ledger::Ledger;

/// A list of 64-bit words, which no call changes. `reads` is how many reads were made, where that is told. `goes` says
/// what a run of calls of `word` may leave: after any number of calls the value is related so to the one before.
pub trait Words {
    ghost list: { Self → List ℕ };

    ghost reads: { Self → Option ℕ };

    ghost goes: { Self → Self → Type 0 };

    /// The word at a place. It is one step.
    fn word<L: Ledger>(&mut self, j: u32, steps: &mut Steps<L>) -> u64
        requires { j < length (list self.old) }
        ensures value { result ≡ slice_index (list self.old) j }
        ensures list { list self.new ≡ list self.old }
        ensures reads { reads self.new ≡ read_more (reads self.old) 1 }
        ensures goes { goes self.old self.new }
        ensures steps { steps.new ≡ steps.old + 1 };

    ghost stays: { (x : Self) → goes x x };

    ghost goes_on: { (x y z : Self) → goes x y → goes y z → goes x z };
}

/// The words of a slice. How many reads were made is not told.
#[derive(Clone, Copy, Debug)]
pub struct SliceWords<'a>(pub &'a [u64]);

impl<'a> Words for SliceWords<'a> {
    ghost use Rattle.std.specs.Prelude.{refl};
    ghost use Rattle.std.proofs.Common.{◌∙◌};

    ghost list = { λ s. s.0.now };

    ghost reads = { λ _. None };

    ghost goes = { λ x y. y.0.now ≡ x.0.now };

    ghost stays = { λ _. refl };

    ghost goes_on = { λ x y z h k. k ∙ h };

    fn word<L: Ledger>(&mut self, j: u32, steps: &mut Steps<L>) -> u64 {
        steps.tick();
        self.0[j as usize]
    }
}
