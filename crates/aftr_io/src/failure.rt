// Why a call over a system gave no answer.
ghost use Rattle.std.specs.Prelude.{◌≡◌};

use std::alloc::{AllocError, AllocFailed};
use std::io;

#[derive(Clone, Copy)]
pub enum Failure {
    /// What the system said.
    Refused(io::Error),
    /// The allocator had no room.
    OutOfMemory,
}

impl From<io::Error> for Failure {
    ghost use Rattle.aftr_io.specs.declared.failure.Failure.TheVariants as failure;

    ghost from_gives = { λ e f. f ≡ failure.Refused e };

    fn from(error: io::Error) -> Self {
        Failure::Refused(error)
    }
}

impl From<AllocError> for Failure {
    ghost use Rattle.aftr_io.specs.declared.failure.Failure.TheVariants as failure;

    ghost from_gives = { λ _ f. f ≡ failure.OutOfMemory };

    fn from(_: AllocError) -> Self {
        Failure::OutOfMemory
    }
}

impl<T: Drop> From<AllocFailed<T>> for Failure {
    ghost use Rattle.aftr_io.specs.declared.failure.Failure.TheVariants as failure;

    ghost from_gives = { λ _ f. f ≡ failure.OutOfMemory };

    fn from(_: AllocFailed<T>) -> Self {
        Failure::OutOfMemory
    }
}
