// What becomes of records.
use verdict_core::Verdict;

/// A record's number, the version that it was drawn under, and the verdict on its item under that version's table.
#[derive(Clone, Copy, Debug, PartialEq, Eq)]
pub struct Outcome {
    pub number: u32,
    pub version: u32,
    pub verdict: Verdict,
}

/// Why a worker stopped.
#[derive(Clone, Copy, Debug, PartialEq, Eq)]
pub enum Stop {
    /// All records below the end were drawn.
    End,
    /// The version in force allows no record more: the next table has to come first.
    Hold { limit: u32 },
}
