// Captures of any format, read in rounds.
ghost use Rattle.std.specs.Prelude.{◌≡◌, ℕ, ◌^◌, ◌≤◌, List, Option, IfOk};
ghost use Rattle.aftr_io.specs.Contents.{content, Told};
ghost use Rattle.capture_io.specs.declared.forms.Rec.{Rec as Record};
ghost use Rattle.capture_io.specs.declared.forms.Form.{Form as CaptureForm};
ghost use Rattle.capture_io.specs.declared.forms.CaptureBad.{CaptureBad as Refusal};
ghost use Rattle.capture_io.specs.Refusals.{EndsInRecords};
ghost use Rattle.capture_io.specs.Rounds.{IsCount, IsPlaced, GoesOn, ReadsRound};

use crate::{CaptureBad, Form, Records};
use aftr_base::OutOfMemory;
use aftr_io::Reading;
use std::alloc::Global;

/// How the records ended.
#[derive(Clone, Copy, Debug)]
pub enum Ending {
    /// No byte is left.
    End,
    /// What is left is no record.
    Bad(CaptureBad),
    /// A read failed.
    ReadFault,
}

/// Records of a capture, in order.
#[derive(Drop)]
pub struct Round {
    pub records: Records,
    /// The number of the next record.
    pub number: u32,
    /// How the records ended, if these are the last.
    pub ending: Option<Ending>,
}

/// A reader of one capture, which stands between two of its records. It may have read bytes ahead, and goes on from them:
/// so it reads each place of the file once and in order, and the file may be a pipe.
///
/// A file's bytes are those that it is read from only where the reader `stands` in them: it does from its opening on, as
/// long as the file holds the same bytes.
pub trait CaptureReader {
    /// The reader goes on in these bytes of a file: what it read ahead of them stands there.
    ghost stands: { Self → List ℕ → Type 0 };

    /// What is left to be read of these bytes, and how it ends, where the next record has this number. It is a matter of
    /// the format, of the place and of what was said before it, and not of what was read ahead.
    ghost left: { Self → List ℕ → ℕ → List Record → Option Refusal → Type 0 };

    /// The place of the file where the next record begins.
    ghost at: { Self → ℕ };

    /// The next record may have this number.
    ghost ready: { Self → ℕ → Type 0 };

    ghost form: { Self → CaptureForm };

    /// What the file header says.
    fn form(&self) -> Form
        ensures { result ≡ form self.now };

    /// Reads the next records into the room of `room`: at least one, unless they have ended; at most 16,384, and none
    /// behind the one that brings their captured bytes to `most_bytes` (from 1 to 67,108,864) or more. The first has this
    /// number. A round may be shorter: it has what one read brought. The room of each round serves the next one. After want of
    /// memory the reader is not used again.
    ///
    /// Where a read fails, the records that end at or before its place come first, and then `ReadFault`. A refusal is told
    /// only where no read failed.
    fn read_round<I: Reading>(
        &mut self,
        alloc: Global,
        files: &mut I,
        name: &str,
        number: u32,
        most_bytes: usize,
        room: Records,
    ) -> Result<Round, OutOfMemory>
        requires ready { ready self.old number }
        requires number { number ≤ 2 ^ 31 }
        requires some { 1 ≤ most_bytes }
        requires bytes { most_bytes ≤ 67108864 }
        ensures form { form self.new ≡ form self.old }
        ensures ready { IfOk result (λ round. ready self.new round.number) }
        ensures told { IfOk result (λ round. Told (I.readable files.old).held (λ m. stands self.old (content m name.now) →
            GoesOn (stands self.new) (left self.old) (left self.new) (content m name.now) number round)) }
        ensures count { IfOk result (λ round. IsCount number most_bytes round) }
        ensures ended { IfOk result (λ round. EndsInRecords round.ending) }
        ensures placed { IfOk result (λ round. IsPlaced (at self.old) (at self.new) round) }
        ensures reads { ReadsRound result name.now (stands self.old) (left self.new) (at self.new)
            (I.readable files.old) (I.readable files.new) };

    /// What is left is one list with one ending. It does nothing: its contract is the law.
    fn one_left()
        ensures { (reader : Self) (bytes : List ℕ) (number : ℕ) (rs others : List Record) (ending other : Option Refusal) →
            left reader bytes number rs ending → left reader bytes number others other → (rs ≡ others) × (ending ≡ other) };

    /// There is such a list with an ending, whatever the bytes are.
    fn some_left()
        ensures { (reader : Self) (bytes : List ℕ) (number : ℕ) →
            (rs : List Record) × (ending : Option Refusal) × left reader bytes number rs ending };
}
