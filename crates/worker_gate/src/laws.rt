// What follows for whoever runs rounds, as a law over its definitions: nothing is done here.
ghost use Rattle.worker_gate.specs.Laws.{DrawnAreInForce, OutcomesAreInForce, RoundsGiveOutcomes, WholesAreRounds};

/// Each outcome of a round has the version that the points of the closed areas put in force at its number.
pub fn outcomes_are_in_force()
    ensures { OutcomesAreInForce }
{}

/// What `round` says of its outcomes is what every form of a round says.
pub fn rounds_give_outcomes()
    ensures { RoundsGiveOutcomes }
{}

/// Each outcome of any form of a round has the version that the points of the closed areas put in force at its number.
pub fn drawn_are_in_force()
    ensures { DrawnAreInForce }
{}

/// If one seat draws a round whole and another one judges it, the two seats joined have done what `round` does.
pub fn wholes_are_rounds()
    ensures { WholesAreRounds }
{}
