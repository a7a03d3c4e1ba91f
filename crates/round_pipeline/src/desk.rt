// The source under a lock, with the history of what was made of it.
ghost use Rattle.std.specs.Prelude.{◌≡◌};
ghost use Rattle.round_pipeline.specs.Threads.{IsDeskOf};

use crate::capture::{Capture, Turn, take_turn};
use crate::traits::{RoundBuffer, Source};
use std::marker::{Brand, Model, PhantomData};
use std::sync::Wait;

/// What a run begins with. Each run picks it.
pub(crate) trait Naming<T, S> {
    ghost use Rattle.round_pipeline.specs.declared.capture.Capture.{Capture};

    ghost begins: { Capture T S → Type 0 };
}

impl<T, S> Naming<T, S> for Brand {
    ghost begins = { λ c. Unit {0} };
}

/// What lies under the lock. Its invariant is the history: what the run began with, and what was made of it.
#[derive(Drop)]
pub(crate) struct Desk<B: Naming<T, S>, T: RoundBuffer + Drop, S: Source<T> + Drop> {
    capture: Capture<T, S>,
    of: PhantomData<B>,
}

impl<B: Naming<T, S>, T: RoundBuffer + Drop, S: Source<T> + Drop> Model for Desk<B, T, S> {
    ghost use Rattle.round_pipeline.specs.declared.capture.Capture.{Capture};
    ghost use Rattle.round_pipeline.specs.Threads.{IsDeskOf};

    ghost Value = { Capture T S };

    ghost view = { λ d. d.capture };

    ghost invariant = { λ d. IsDeskOf S.ready S.fills B.begins d.capture };
}

impl<B: Naming<T, S>, T: RoundBuffer + Drop, S: Source<T> + Drop> Desk<B, T, S> {
    pub(crate) fn new(capture: Capture<T, S>) -> Desk<B, T, S>
        requires { IsDeskOf S.ready S.fills B.begins capture }
        ensures { result ≡ capture }
    {
        Desk {
            capture,
            of: PhantomData,
        }
    }

    pub(crate) fn into_capture(self) -> Capture<T, S>
        ensures { IsDeskOf S.ready S.fills B.begins result }
    {
        let Self { capture, of: _ } = self;
        capture
    }

    // One turn, for a line. Any thread may take it.
    pub(crate) fn take_turn<R: Wait>(&mut self, rt: &R, number: usize) -> Turn {
        take_turn(rt, &mut self.capture, number)
    }
}
