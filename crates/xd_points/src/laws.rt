//! Laws of the definitions: each call does nothing, and its contract is the law.

ghost use Rattle.xd_points.specs.FirstRuns.{AcceptingRunsAreAll, AcceptsByEachKind, FirstRunsArePreferred};
ghost use Rattle.xd_points.specs.Following.{FollowsAllRuns};
ghost use Rattle.xd_points.specs.Laws.{ExpandedStays, MeaningsStay, ServingStays};
ghost use Rattle.xd_points.specs.Tables.{TablesStay};

/// PatternStates go on to serve points while the automaton of the lefts extends.
pub fn serving_stays()
    ensures { ServingStays }
{}

/// So do the meanings of its points.
pub fn meanings_stay()
    ensures { MeaningsStay }
{}

/// A run is the first of its state exactly where at each item no move before its own leads over the
/// document.
pub fn first_runs_are_preferred()
    ensures { FirstRunsArePreferred }
{}

/// Where moves before the run's own may lead over it too, these are just the accepting runs.
pub fn accepting_runs_are_all()
    ensures { AcceptingRunsAreAll }
{}

/// A state has a first run exactly where it accepts the document, and so it is with all runs.
pub fn accepts_by_each_kind()
    ensures { AcceptsByEachKind }
{}

/// Runs through points are just the pattern's runs on documents that the points mean: all runs, or
/// first runs alone.
pub fn follows_all_runs()
    ensures { FollowsAllRuns }
{}

/// Points with their moves stay so while the automaton extends.
pub fn expanded_stays()
    ensures { ExpandedStays }
{}

/// A table goes on to serve while the automaton of the lefts extends.
pub fn tables_stay()
    ensures { TablesStay }
{}
