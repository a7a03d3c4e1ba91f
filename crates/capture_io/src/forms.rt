// What a capture says of itself, and why one is refused.
ghost use Rattle.std.specs.Prelude.{◌≡◌};
ghost use Rattle.capture_io.specs.Answers.{error_of};

use crate::NgBad;
use aftr_base::Bytes;
use aftr_io::Fault;
use std::fmt;
use thiserror::Error;

/// What the file header of a capture says.
#[derive(Clone, Copy, Debug, PartialEq, Eq)]
pub struct Form {
    /// The numbers of the file have their most significant byte first.
    pub big: bool,
    /// The fraction of a record's time counts nanoseconds; otherwise microseconds.
    pub nano: bool,
    /// The link type: 1 is Ethernet, 101 is plain IP.
    pub link: u32,
}

/// A record: its time, as seconds and a fraction that is not tested, and its captured bytes.
#[derive(Debug, Drop)]
pub struct Rec {
    pub seconds: u32,
    /// Micro- or nanoseconds, as `Form::nano` says.
    pub fraction: u32,
    /// At most 262,144 bytes.
    pub bytes: Bytes,
    /// The place of the file where the next record stands.
    pub next_at: u64,
}

/// What stands at a place of a capture.
#[derive(Debug, Drop)]
pub enum Next {
    Rec(Rec),
    /// No byte is left.
    End,
}

/// Why a capture is refused. A refusal in a record has the place where that record's header stands or ought to stand. It
/// prints as `magic`, `link 113`, `cut record at 24`.
#[derive(Clone, Copy, Debug, PartialEq, Eq)]
pub enum CaptureBad {
    /// The file does not begin with a magic number of the format.
    Magic,
    /// The version is not 2.4.
    Version,
    /// The link type is neither 1 nor 101.
    Link { number: u32 },
    /// Fewer than 24 bytes are there for the file header (place 0), or fewer than 16 for a record's header.
    CutHeader { at: u64 },
    /// Fewer bytes are left than the record's header says.
    CutRecord { at: u64 },
    /// The record's header says more than 262,144 bytes.
    TooLong { at: u64 },
    /// Something stands behind 2^31 records.
    TooMany { at: u64 },
    /// A pcapng file is refused.
    Ng(NgBad),
}

impl fmt::Display for CaptureBad {
    ghost use Rattle.std.specs.Prelude.{Some};
    ghost use Rattle.capture_io.specs.Texts.{capture_text};

    ghost output = { λ refusal. Some (capture_text refusal) };

    fn fmt<W: fmt::Write>(&self, f: &mut fmt::Formatter<W>) -> fmt::Result {
        match *self {
            CaptureBad::Magic => f.write_str("magic"),
            CaptureBad::Version => f.write_str("version"),
            CaptureBad::Link { number } => write!(f, "link {number}"),
            CaptureBad::CutHeader { at } => write!(f, "cut header at {at}"),
            CaptureBad::CutRecord { at } => write!(f, "cut record at {at}"),
            CaptureBad::TooLong { at } => write!(f, "too long at {at}"),
            CaptureBad::TooMany { at } => write!(f, "too many at {at}"),
            CaptureBad::Ng(refusal) => write!(f, "{refusal}"),
        }
    }
}

/// Why reading a capture gave no answer.
#[derive(Clone, Copy, Debug, PartialEq, Eq, Error)]
pub enum CaptureError {
    #[error("{0}")]
    Bad(CaptureBad),
    /// A read failed.
    #[error("a read failed")]
    ReadFault,
    #[error("out of memory")]
    OutOfMemory,
}

impl From<Fault> for CaptureError {
    ghost from_gives = { λ fault error. error ≡ error_of fault };

    fn from(fault: Fault) -> Self {
        match fault {
            Fault::Failed => CaptureError::ReadFault,
            Fault::OutOfMemory => CaptureError::OutOfMemory,
        }
    }
}
