//! Laws, each the contract of a function that does nothing.

ghost use Rattle.xd_patterns.specs.CompiledState.{CompiledStatesStay};

/// The states of patterns stay that, with the marks of their moves, while their automaton extends.
pub fn compiled_states_stay()
    ensures { CompiledStatesStay }
{}
