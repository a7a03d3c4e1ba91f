// What the calls answer.

/// The version in force and the number of records drawn, as one reading gave them.
#[derive(Clone, Copy, Debug, PartialEq, Eq)]
pub struct Seen {
    pub version: u32,
    pub records: u32,
}

/// What a try to hold the table in force gave.
#[derive(Clone, Copy, Debug, PartialEq, Eq)]
pub enum Claim {
    /// The seat holds this version.
    Held { version: u32 },
    /// The version changed between the two readings, and with it the area.
    Moved { before: u32, after: u32 },
}

/// What a try to draw the next number of a record gave.
#[derive(Clone, Copy, Debug, PartialEq, Eq)]
pub enum Draw {
    /// The number belongs to the seat, under the version that it holds.
    Taken { number: u32 },
    /// Another version than the held one is in force.
    Moved { now: u32 },
    /// All records below the end were drawn.
    End,
    /// The held version allows no record more: the next table has to come first.
    Hold { limit: u32 },
    /// Another seat was faster. Both are words as they stand in the areas: the version in the high 32 bits, the number
    /// of records drawn in the low ones.
    Lost { saw: u64, found: u64 },
}

/// What a try to draw several numbers in a row gave.
#[derive(Clone, Copy, Debug, PartialEq, Eq)]
pub enum DrawRun {
    /// So many numbers from this one on belong to the seat, under the version that it holds.
    Taken { number: u32, count: u32 },
    /// As in `Draw`.
    Moved { now: u32 },
    /// As in `Draw`.
    End,
    /// As in `Draw`.
    Hold { limit: u32 },
    /// As in `Draw`.
    Lost { saw: u64, found: u64 },
}

impl DrawRun {
    ghost use Rattle.std.specs.Prelude.{◌≡◌};
    ghost use Rattle.area_swap.specs.Answers.{one_of};

    /// The answer of a draw of one number.
    pub(crate) fn one(self) -> Draw
        ensures { result ≡ one_of self }
    {
        match self {
            DrawRun::Taken { number, .. } => Draw::Taken { number },
            DrawRun::Moved { now } => Draw::Moved { now },
            DrawRun::End => Draw::End,
            DrawRun::Hold { limit } => Draw::Hold { limit },
            DrawRun::Lost { saw, found } => Draw::Lost { saw, found },
        }
    }
}

/// Whether the next table may come into force.
#[derive(Clone, Copy, Debug, PartialEq, Eq)]
pub enum Due {
    Now,
    /// Fewer records were drawn than the table's window wants.
    Later { records: u32, earliest: u32 },
    /// There is no next table.
    None,
}

/// Whether the spare area may be written.
#[derive(Clone, Copy, Debug, PartialEq, Eq)]
pub enum Quiet {
    Free,
    /// So many seats ask for the spare area or hold it.
    Claimed { count: u64 },
}
