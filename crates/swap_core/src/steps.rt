// The kinds of step, and how a step is answered.

/// One step of an actor or of the desk.
#[derive(Clone, Copy, Debug, PartialEq, Eq)]
pub enum Step {
    /// Read the version.
    Look { who: u32 },
    /// Claim the area of the version that was read.
    Enter { who: u32 },
    /// Read the version again, and hold it if it stands in the claimed area.
    Confirm { who: u32 },
    /// Read one word of the held table.
    Read { who: u32, place: u32 },
    /// Draw the next number of a record under the held table.
    Draw { who: u32 },
    /// Give up the claim.
    Leave { who: u32 },
    /// Whether the next table's window is reached.
    Due,
    /// Whether nobody has claimed the spare area.
    Count,
    /// Write one word of the next table into the spare area.
    Write,
    /// Put the next table into force.
    Publish,
}

/// Why a step was not taken.
#[derive(Clone, Copy, Debug, PartialEq, Eq)]
pub enum NotNow {
    /// There is no such actor.
    Stranger,
    /// The actor or the desk is not in the state that the step goes on from.
    Phase,
    /// Another version is in force.
    Moved,
    /// The place is behind the end of the held table.
    Past,
    /// As many records were drawn as the version in force allows.
    Hold,
    /// No table is left.
    NoLoad,
    /// Fewer records were drawn than the next table waits for.
    Later,
    /// An actor has claimed the spare area.
    Claimed,
}

/// The answer of a step.
#[derive(Clone, Copy, Debug, PartialEq, Eq)]
pub enum Took {
    /// The step was taken. The value is what it read: a version, a word of a table, a number of records; else 0.
    Yes { value: u64 },
    /// Nothing changed.
    No { cause: NotNow },
}
