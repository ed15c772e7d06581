//! Laws of the definitions, each the contract of a function that does nothing.

ghost use Rattle.xd_pattern_runs.specs.Steps.{StepsFind, OptionsFind};
ghost use Rattle.xd_pattern_runs.specs.Clauses.{ClausesAreLinear, PartsAreLinear};
ghost use Rattle.xd_pattern_runs.specs.Finite.{ChoicesStopOnce, FewReached, FinitelyManyOfSound, FinitelyManyReached, HeightsOfSound, MarksAreVariables};
ghost use Rattle.xd_pattern_runs.specs.FirstRun.{AcceptsByRuns, FirstMovesFirst};
ghost use Rattle.xd_pattern_runs.specs.Laws.{FirstRunIsFirstMatch, GivenNever, GivenOnce, NamesBindNothing, NoFaultIsLinear, RunsAreWays, RunsDecide, WaysAreRuns};
ghost use Rattle.xd_pattern_runs.specs.Mirrors.{MirrorsRun};
ghost use Rattle.xd_pattern_runs.specs.Together.{RunsKeepTogether};

/// Types bind nothing, and a pattern that has no fault of names binds each of its variables once in
/// each way.
pub fn programs_are_linear()
    ensures types { NamesBindNothing }
    ensures patterns { NoFaultIsLinear }
    ensures clauses { ClausesAreLinear }
    ensures parts { PartsAreLinear }
{}

/// The first run of a pattern over a document is its first match.
pub fn first_run_is_first_match()
    ensures { FirstRunIsFirstMatch }
{}

/// Bindings that give a variable once are looked up as such.
pub fn bindings_are_found()
    ensures once { GivenOnce }
    ensures never { GivenNever }
{}

/// The runs of a pattern over a document and its whole ways bind the same.
pub fn runs_are_ways()
    ensures runs { RunsAreWays }
    ensures ways { WaysAreRuns }
    ensures fits { RunsDecide }
{}

/// In each run of a pattern the items of one variable stand directly one after another.
pub fn runs_keep_together()
    ensures { RunsKeepTogether }
{}

/// A state of an automaton that mirrors a pattern has the pattern's runs.
pub fn mirrors_run()
    ensures { MirrorsRun }
{}

/// In a sound program finitely many continuations are reached from a pattern, since its names have
/// heights.
pub fn finitely_many_reached()
    ensures heights { HeightsOfSound }
    ensures reached { FinitelyManyReached }
    ensures sound { FinitelyManyOfSound }
    ensures few { FewReached }
{}

/// What is reached from a pattern is marked with its variables alone, and choices stop once at
/// most.
pub fn choices_are_plain()
    ensures marks { MarksAreVariables }
    ensures stops { ChoicesStopOnce }
{}

/// A state accepts a document where it has a run over it, and the first run takes the first move
/// that can succeed.
pub fn first_moves_first()
    ensures accepts { AcceptsByRuns }
    ensures first { FirstMovesFirst }
{}

/// The choices of what stands ahead are found step by step.
pub fn steps_find_choices()
    ensures steps { StepsFind }
    ensures options { OptionsFind }
{}
