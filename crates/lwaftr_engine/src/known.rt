// What holds of every run.
ghost use Rattle.lwaftr_engine.specs.RunLaws.{RunLaws};

use packet_render::forwarded_is_sent;
use run_output::{counts_are_totals, limits_are_some, limits_begin, load_lines_join, rounds_join};
use swap_core::settled_points_are_all;
use verdict_core::access;

/// A law, and no steps: what the laws of the crates below say of every run.
pub fn run_laws()
    ensures { RunLaws }
{
    access();
    forwarded_is_sent();
    limits_are_some();
    limits_begin();
    counts_are_totals();
    rounds_join();
    load_lines_join();
    settled_points_are_all();
}
