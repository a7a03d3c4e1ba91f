// The sink: one writer puts the rounds into the outputs.
ghost use Rattle.std.specs.Prelude.{◌≡◌, ◌∷◌, []};
ghost use Rattle.aftr_text.specs.Jobs.{AreApart};
ghost use Rattle.output_journal.specs.Log.{Logs, output_names, round_log};
ghost use Rattle.run_output.specs.Rendering.{lines_in, packets_in};
ghost use Rattle.run_turns.specs.Setups.{outputs_of, setup_of};

use crate::passing::{Court, judge_turn};
use crate::tasks::Task;
use crate::turn::{Naming, Turn};
use aftr_io::{Fault, Writing};
use aftr_text::{RunJob, Totals};
use error_limit::Limiter;
use output_journal::{Names, write_round};
use round_pipeline::Sink;
use run_output::{Part, count_part};
use std::alloc::Global;
use std::marker::PhantomData;
use std::slice;
use worker_gate::Gate;

/// Where the rounds of a run go.
#[derive(Drop)]
pub struct Outputs<'a, 'f, N: Naming, O, G> {
    pub alloc: Global,
    pub files: &'f mut O,
    pub court: Court<'a, G>,
    pub totals: Totals,
    /// The limit on errors, if there is one.
    pub limit: Option<Limiter>,
    pub(crate) of: PhantomData<N>,
}

// The names of a run's outputs.
fn names_of(job: &RunJob) -> Names<'_>
    ensures { output_names result ≡ outputs_of job.now }
{
    Names {
        packets: job.output.as_str(),
        verdicts: job.verdicts.as_str(),
        versions: job.versions.as_str(),
    }
}

// Writes the lines of tables and what the records of a round write.
fn write_turn<O: Writing>(
    alloc: Global,
    files: &mut O,
    task: Task<'_>,
    versions: &str,
    part: &Part,
) -> Result<(), Fault>
    requires apart { AreApart (setup_of task).run }
    ensures log { Logs (outputs_of (setup_of task.entry).run) result (round_log versions.now (packets_in (part.now ∷ [])) (lines_in (part.now ∷ [])))
        (O.written files.old) (O.written files.new) }
{
    write_round(
        alloc,
        files,
        names_of(task.job),
        versions.as_bytes(),
        slice::from_ref(part),
    )
}

impl<'a, N: Naming, O: Writing, G: Gate> Sink<Turn<'a, N>, Fault> for Outputs<'a, '_, N, O, G> {
    ghost use Rattle.std.specs.Prelude.{◌≡◌, string_bytes};
    ghost use Rattle.aftr_text.specs.Jobs.{AreApart};
    ghost use Rattle.run_output.specs.Limiting.{rate_of};
    ghost use Rattle.run_turns.specs.Passes.{HasPut, judged, putting};
    ghost use Rattle.run_turns.specs.Setups.{setup_of};

    ghost ready = { λ s. AreApart (setup_of s.court.task).run };

    ghost puts = { λ s t r u why. HasPut (setup_of s.court.task) N.areas (putting (O.written s.files.now) s.totals s.limit)
        (putting (O.written r.files.now) r.totals r.limit)
        (judged t.start t.round t.seat (string_bytes t.versions) t.part t.refused) u.seat why
        × ((r.court.task ≡ s.court.task) × ((r.files.ghost_name ≡ s.files.ghost_name) × (rate_of r.limit ≡ rate_of s.limit))) };

    fn put(&mut self, turn: &mut Turn<'a, N>) -> Option<Fault> {
        judge_turn(&self.court, &mut self.limit, turn);
        if turn.refused {
            return Some(Fault::OutOfMemory);
        }
        if turn.round.records().is_empty() {
            return None;
        }
        count_part(&turn.part, &mut self.totals);
        let written = write_turn(
            self.alloc,
            self.files,
            self.court.task,
            &turn.versions,
            &turn.part,
        );
        if let Err(why) = written {
            return Some(why);
        }
        None
    }
}
