// What the machine is for, as laws over its definitions: each function's contract is one, and it does nothing.
ghost use Rattle.swap_core.specs.Laws.{DrawnInForce, MergeKeepsSound, NewcomerKeepsSound, NoneTwice, ReadsItsTable, RunsAreSound};
ghost use Rattle.swap_core.specs.Laws.{SettledPointsAreAll, SeveralDrawsAreSteps, StandingWordsAreWrites, StepsKeepSound, WritesWhereNobodyHolds};
ghost use Rattle.swap_core.specs.Sound.{Sound};
ghost use Rattle.swap_core.specs.States.{CoreState};

/// A step of any kind leaves a sound state sound.
pub fn steps_keep_sound()
    ensures { StepsKeepSound }
{}

/// Whatever is done from the opening, the state is sound.
pub fn runs_are_sound()
    ensures { RunsAreSound }
{}

/// An actor that holds a version reads the words of its table, each place of it.
pub fn held_tables_are_whole()
    ensures { (c : CoreState) → Sound c → ReadsItsTable c }
{}

/// A write goes to the area that no actor holds, and to no other.
pub fn writes_disturb_nobody()
    ensures { (c : CoreState) → Sound c → WritesWhereNobodyHolds c }
{}

/// No number is drawn twice, by one actor or by two.
pub fn no_number_is_drawn_twice()
    ensures { (c : CoreState) → Sound c → NoneTwice c }
{}

/// Each number is drawn under the version that the points put in force at it.
pub fn draws_are_in_force()
    ensures { (c : CoreState) → Sound c → DrawnInForce c }
{}

/// Draws in a row by one actor give it so many numbers in a row: what one step of its own may do at once.
pub fn several_draws_are_steps()
    ensures { SeveralDrawsAreSteps }
{}

/// Writes of words that stand in the spare area already change no word: what one step of the desk's may pass over at once.
pub fn standing_words_are_writes()
    ensures { StandingWordsAreWrites }
{}

/// One actor more, which is idle and has drawn nothing, leaves a sound state sound.
pub fn newcomers_keep_sound()
    ensures { NewcomerKeepsSound }
{}

/// Two idle actors: that the draws of one move behind those of the other leaves a sound state sound.
pub fn merges_keep_sound()
    ensures { MergeKeepsSound }
{}

/// Where no table is left, or fewer records were drawn than the next one waits for, each window that is reached has a point.
pub fn settled_points_are_all()
    ensures { SettledPointsAreAll }
{}
