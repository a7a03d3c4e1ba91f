// What holds of every round.
ghost use Rattle.run_turns.specs.Rounds.{RoundLaws};

use run_output::{limits_begin, load_lines_join, passes_are_whole, rounds_join};

/// A law, and no steps: what the laws of run_output say of every round.
pub(crate) fn round_laws()
    ensures { RoundLaws }
{
    limits_begin();
    rounds_join();
    load_lines_join();
    passes_are_whole();
}
