// Laws of cells, as contracts of functions that do nothing.
ghost use Rattle.inc_cell.specs.laws.Laws.{EndsReopen, OpeningsAreStates, PartsAreApart, PartsReopen};
ghost use Rattle.inc_cell.specs.laws.Runs.{CrashesReopen, RunsByOne, RunsFromNow, RunsGoOn, RunsJoin};
ghost use Rattle.inc_cell.specs.seen.Spots.{MountsOpened};

/// A file that was opened soundly begins in an opening, whose parts are those that the file tells.
pub fn openings_are_states()
    ensures opening { OpeningsAreStates }
{}

/// Each file that was opened and synced has the facts with which a fill begins.
pub fn opened_files_can_be_filled()
    ensures mounts { MountsOpened }
{}

/// A run of events leaves at any moment what keeps a state that its history passed: no event, one, one
/// more, and one run after another.
pub fn images_of_a_run()
    ensures none { RunsFromNow }
    ensures one { RunsByOne }
    ensures more { RunsGoOn }
    ensures joined { RunsJoin }
{}

/// What a mount finds in bytes that a crash left begins in a reopening of the state that they keep; after a clean end with all of the map.
pub fn kept_states_reopen()
    ensures reopened { PartsReopen }
    ensures apart { PartsAreApart }
    ensures crashed { CrashesReopen }
    ensures ended { EndsReopen }
{}
