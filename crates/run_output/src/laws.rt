// What follows from the definitions for whoever runs rounds, as laws: nothing is done here.
ghost use Rattle.run_output.specs.Laws.{CountsAreTotals, LimitsAreSome, LimitsBegin, LoadLinesJoin, RoundsJoin};
ghost use Rattle.run_output.specs.Passing.{PassesAreWhole, PassesGiveOutcomes};
ghost use Rattle.run_output.specs.Strangers.{OutputsStay, OutputsStayUnlimited, StrangersAreTreatedAlike};

/// The limit keeps back the same errors of a run's first records, whatever comes behind them.
pub fn limits_begin()
    ensures { LimitsBegin }
{}

/// Where a limiter was asked about all errors of a run, there is a course that keeps back just those that it does not let through.
pub fn limits_are_some()
    ensures { LimitsAreSome }
{}

/// What a pass over a round leaves of its outcomes is what every form of a round leaves.
pub fn passes_give_outcomes()
    ensures { PassesGiveOutcomes }
{}

/// If a judge is made of a held seat, passes over the seat's round and ends, the seat has judged the round whole.
pub fn passes_are_whole()
    ensures { PassesAreWhole }
{}

/// What records write is what the first of them write, and then the others.
pub fn rounds_join()
    ensures { RoundsJoin }
{}

/// What was counted record by record are the totals of a run.
pub fn counts_are_totals()
    ensures { CountsAreTotals }
{}

/// The lines of the first loads, and those of the next ones.
pub fn load_lines_join()
    ensures { LoadLinesJoin }
{}

/// A change of the tables touches nobody else. In two runs over one capture, a record that names only addresses with the same set of
/// bindings in both has the same verdict and the same packets, if the limit on errors treats it alike. If all records are such, the
/// captures that are written are the same bytes. Without a limit on errors, the tables alone decide.
pub fn strangers_stay()
    ensures alike { StrangersAreTreatedAlike }
    ensures outputs { OutputsStay }
    ensures unlimited { OutputsStayUnlimited }
{}
