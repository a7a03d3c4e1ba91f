// Why settings and bindings are no table.
ghost use Rattle.std.specs.Prelude.{◌≡◌};
ghost use Rattle.binding_rules.specs.Refusals.{refusal_number};
ghost use Rattle.binding_rules.specs.declared.refused.TableError.TheVariants as table_error;

use aftr_base::OutOfMemory;
use std::alloc::{AllocError, AllocFailed};
use thiserror::Error;

/// What is wrong with settings and bindings, with the places of the bindings, counted from 0.
#[derive(Clone, Copy, Debug, PartialEq, Eq)]
pub enum Refused {
    /// There are more than 65,536 bindings.
    TooMany { count: u32 },
    /// The offset and the length are no shape (RFC 7597 section 5.1).
    Shape { at: u32 },
    /// The identifier has more bits than the length says.
    Psid { at: u32 },
    /// Two bindings of one address have unlike shapes, in edition One.
    MixedShape { first: u32, second: u32 },
    /// Two bindings of one address own a port in common.
    Twice { first: u32, second: u32 },
    /// The address is the router's own.
    OwnAddress { at: u32 },
    /// `mtu6` is below 1,280, or `mtu4` is below 576.
    Mtu,
    /// `hop_limit` is 0.
    Hop,
}

impl Refused {
    /// The number of the cause, from 1 to 8 in the order written here.
    pub fn number(&self) -> u8
        ensures { result ≡ refusal_number self.now }
    {
        match self {
            Refused::TooMany { .. } => 1,
            Refused::Shape { .. } => 2,
            Refused::Psid { .. } => 3,
            Refused::MixedShape { .. } => 4,
            Refused::Twice { .. } => 5,
            Refused::OwnAddress { .. } => 6,
            Refused::Mtu => 7,
            Refused::Hop => 8,
        }
    }
}

/// Why no table was made.
#[derive(Clone, Copy, Debug, PartialEq, Eq, Error)]
pub enum TableError {
    #[error("the table breaks rule {}", .0.number())]
    Refused(Refused),
    #[error("out of memory")]
    OutOfMemory,
}

impl From<Refused> for TableError {
    ghost from_gives = { λ refused e. e ≡ table_error.Refused refused };

    fn from(refused: Refused) -> Self {
        TableError::Refused(refused)
    }
}

impl From<OutOfMemory> for TableError {
    ghost from_gives = { λ _ e. e ≡ table_error.OutOfMemory };

    fn from(_: OutOfMemory) -> Self {
        TableError::OutOfMemory
    }
}
