// Why command words ask for no job.
ghost use Rattle.std.specs.Prelude.{◌≡◌};

use crate::parts::Slot;
use aftr_base::OutOfMemory;
use clap::error::ErrorKind;
use std::alloc::{AllocError, AllocFailed};
use thiserror::Error;

/// The first thing that is wrong with command words, as they are read. Arguments, loads and the words behind the command are
/// counted from 0.
#[derive(Clone, Copy, Debug, PartialEq, Eq)]
pub enum Fault {
    /// There is no word.
    Nothing,
    /// The first word is no command.
    Command,
    /// The word at this place behind the command begins with `-`, in front of `--`, and is no option.
    Stray(usize),
    /// The option is the last word, and lacks its value.
    NoValue(Slot),
    /// An option is given to another command than `run`.
    OptionOfRun,
    /// The option is given more than once.
    Twice(Slot),
    /// The option's value is no number in its range.
    Value(Slot),
    /// The command takes more arguments, or fewer.
    Count,
    /// The argument names a file, and is empty.
    Empty(usize),
    /// The argument is no number from the second to the third of these.
    Number(usize, u64, u64),
    /// The argument of `who` is no IPv4 address.
    Address,
    /// The load is not written as one, its window ends before it begins or past 2^31, or it has no name.
    Load(usize),
    /// Both arguments of `migrate` are the same name.
    SameTable,
    /// The argument names a file that is written, and another file of the run has that name too.
    Same(usize),
    /// The window of this load begins or ends earlier than that of the load in front of it.
    Falls(usize),
}

/// Why command words gave no job.
#[derive(Clone, Copy, Debug, PartialEq, Eq, Error)]
pub enum JobError {
    /// They ask for none.
    #[error("the words ask for no job")]
    Refused(Fault),
    #[error("out of memory")]
    OutOfMemory,
}

impl From<OutOfMemory> for JobError {
    ghost use Rattle.std.specs.Prelude.{◌≡◌};
    ghost use Rattle.aftr_text.specs.declared.faults.JobError.TheVariants as error_is;

    ghost from_gives = { λ _ error. error ≡ error_is.OutOfMemory };

    fn from(_: OutOfMemory) -> Self {
        JobError::OutOfMemory
    }
}

impl From<AllocError> for JobError {
    ghost use Rattle.std.specs.Prelude.{◌≡◌};
    ghost use Rattle.aftr_text.specs.declared.faults.JobError.TheVariants as error_is;

    ghost from_gives = { λ _ error. error ≡ error_is.OutOfMemory };

    fn from(_: AllocError) -> Self {
        JobError::OutOfMemory
    }
}

impl<T: Drop> From<AllocFailed<T>> for JobError {
    ghost use Rattle.std.specs.Prelude.{◌≡◌};
    ghost use Rattle.aftr_text.specs.declared.faults.JobError.TheVariants as error_is;

    ghost from_gives = { λ _ error. error ≡ error_is.OutOfMemory };

    fn from(_: AllocFailed<T>) -> Self {
        JobError::OutOfMemory
    }
}

// `clap` knows no options of ours, so what it refuses is how many arguments there are.
impl From<clap::Error> for JobError {
    ghost use Rattle.std.specs.Prelude.{◌≡◌, ◌≢◌};
    ghost use Rattle.clap.specs.Words.{kind_of};
    ghost use Rattle.clap.specs.declared.error.kind.ErrorKind.TheVariants as kind;
    ghost use Rattle.aftr_text.specs.declared.faults.Fault.TheVariants as fault;
    ghost use Rattle.aftr_text.specs.declared.faults.JobError.TheVariants as error_is;

    ghost from_gives = { λ cause error. (kind_of cause ≡ kind.OutOfMemory → error ≡ error_is.OutOfMemory)
        × (kind_of cause ≢ kind.OutOfMemory → error ≡ error_is.Refused fault.Count) };

    fn from(cause: clap::Error) -> Self {
        if cause.kind() == ErrorKind::OutOfMemory {
            JobError::OutOfMemory
        } else {
            JobError::Refused(Fault::Count)
        }
    }
}
