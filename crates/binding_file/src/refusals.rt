// Why a file is no table.
use crate::names::Place;
use binding_rules::{Refused, TableError};
use std::alloc::{AllocError, AllocFailed};
use std::fmt;
use thiserror::Error;

/// What is wrong with a file. It prints as `missing softwire aftr`, `range binding 3 psid`, `rules twice 0 64`.
#[derive(Clone, Copy, Debug, PartialEq, Eq)]
pub enum FileRefused {
    /// The file has more than 16,777,216 bytes.
    TooBig,
    /// The file is no TOML 1.1 document in UTF-8.
    NotToml,
    /// A required key is not there.
    Missing(Place),
    /// A value has the wrong type.
    Kind(Place),
    /// A table has a key that is none of its own.
    UnknownKey,
    /// A text is no address.
    Address(Place),
    /// An integer is too small or too large.
    Range(Place),
    /// The settings and bindings break a rule of tables.
    Rules(Refused),
    /// The version is neither 1 nor 2.
    Version,
    /// The file would cost too much to read: see `is_too_costly`.
    TooCostly,
}

impl FileRefused {
    ghost use Rattle.std.specs.Prelude.{◌≡◌};
    ghost use Rattle.binding_file.specs.Names.{file_refusal_number};

    /// The number of the cause, from 1 to 10 in the order written here.
    pub fn number(&self) -> u8
        ensures { result ≡ file_refusal_number self.now }
    {
        match self {
            FileRefused::TooBig => 1,
            FileRefused::NotToml => 2,
            FileRefused::Missing(_) => 3,
            FileRefused::Kind(_) => 4,
            FileRefused::UnknownKey => 5,
            FileRefused::Address(_) => 6,
            FileRefused::Range(_) => 7,
            FileRefused::Rules(_) => 8,
            FileRefused::Version => 9,
            FileRefused::TooCostly => 10,
        }
    }
}

impl fmt::Display for FileRefused {
    ghost use Rattle.std.specs.Prelude.{Some};
    ghost use Rattle.binding_file.specs.Names.{refused_text};

    ghost output = { λ refused. Some (refused_text refused) };

    fn fmt<W: fmt::Write>(&self, f: &mut fmt::Formatter<W>) -> fmt::Result {
        match *self {
            FileRefused::TooBig => f.write_str("too-big"),
            FileRefused::NotToml => f.write_str("not-toml"),
            FileRefused::Missing(place) => write!(f, "missing {place}"),
            FileRefused::Kind(place) => write!(f, "kind {place}"),
            FileRefused::UnknownKey => f.write_str("unknown-key"),
            FileRefused::Address(place) => write!(f, "address {place}"),
            FileRefused::Range(place) => write!(f, "range {place}"),
            FileRefused::Rules(refused) => {
                let rule = RuleText(refused);
                write!(f, "rules {rule}")
            }
            FileRefused::Version => f.write_str("version"),
            FileRefused::TooCostly => f.write_str("too-costly"),
        }
    }
}

/// A refusal by the rules of tables, to be printed without the word `rules`, as `too-many 65537` or `twice 0 64`.
#[derive(Clone, Copy, Debug, PartialEq, Eq)]
pub struct RuleText(pub Refused);

impl fmt::Display for RuleText {
    ghost use Rattle.std.specs.Prelude.{Some};
    ghost use Rattle.binding_file.specs.Names.{rule_text};

    ghost output = { λ rule. Some (rule_text rule.0) };

    fn fmt<W: fmt::Write>(&self, f: &mut fmt::Formatter<W>) -> fmt::Result {
        match self.0 {
            Refused::TooMany { count } => write!(f, "too-many {count}"),
            Refused::Shape { at } => write!(f, "shape {at}"),
            Refused::Psid { at } => write!(f, "psid {at}"),
            Refused::MixedShape { first, second } => write!(f, "mixed-shape {first} {second}"),
            Refused::Twice { first, second } => write!(f, "twice {first} {second}"),
            Refused::OwnAddress { at } => write!(f, "own-address {at}"),
            Refused::Mtu => f.write_str("mtu"),
            Refused::Hop => f.write_str("hop"),
        }
    }
}

/// A refusal as the line of a load tells it: `missing softwire aftr`, `twice 0 64`. It differs from the refusal's own text
/// by the word `rules` alone.
#[derive(Clone, Copy, Debug, PartialEq, Eq)]
pub struct LoadText(pub FileRefused);

impl fmt::Display for LoadText {
    ghost use Rattle.std.specs.Prelude.{Some};
    ghost use Rattle.binding_file.specs.Names.{load_text};

    ghost output = { λ load. Some (load_text load.0) };

    fn fmt<W: fmt::Write>(&self, f: &mut fmt::Formatter<W>) -> fmt::Result {
        match self.0 {
            FileRefused::Rules(refused) => {
                let rule = RuleText(refused);
                write!(f, "{rule}")
            }
            cause => write!(f, "{cause}"),
        }
    }
}

/// Why a file was not read.
#[derive(Clone, Copy, Debug, PartialEq, Eq, Error)]
pub enum FileError {
    #[error("{0}")]
    Refused(FileRefused),
    #[error("out of memory")]
    OutOfMemory,
}

impl From<FileRefused> for FileError {
    ghost use Rattle.std.specs.Prelude.{◌≡◌};
    ghost use Rattle.binding_file.specs.declared.refusals.FileError.TheVariants as file_error;

    ghost from_gives = { λ refused e. e ≡ file_error.Refused refused };

    fn from(refused: FileRefused) -> Self {
        FileError::Refused(refused)
    }
}

impl From<AllocError> for FileError {
    ghost use Rattle.std.specs.Prelude.{◌≡◌};
    ghost use Rattle.binding_file.specs.declared.refusals.FileError.TheVariants as file_error;

    ghost from_gives = { λ _ e. e ≡ file_error.OutOfMemory };

    fn from(_: AllocError) -> Self {
        FileError::OutOfMemory
    }
}

impl<T: Drop> From<AllocFailed<T>> for FileError {
    ghost use Rattle.std.specs.Prelude.{◌≡◌};
    ghost use Rattle.binding_file.specs.declared.refusals.FileError.TheVariants as file_error;

    ghost from_gives = { λ _ e. e ≡ file_error.OutOfMemory };

    fn from(_: AllocFailed<T>) -> Self {
        FileError::OutOfMemory
    }
}

impl From<TableError> for FileError {
    ghost use Rattle.std.specs.Prelude.{◌≡◌};
    ghost use Rattle.binding_file.specs.Parts.{file_error_of};

    ghost from_gives = { λ error e. e ≡ file_error_of error };

    fn from(error: TableError) -> Self {
        match error {
            TableError::Refused(refused) => FileError::Refused(FileRefused::Rules(refused)),
            TableError::OutOfMemory => FileError::OutOfMemory,
        }
    }
}
