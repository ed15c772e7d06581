//! A compiled pattern, as matches walk it.

ghost use Rattle.std.specs.Prelude.{◌≡◌};
ghost use Rattle.xd_auto.specs.Automaton.{IsState};
ghost use Rattle.xd_match.specs.Compiled.{PatternStands};
ghost use Rattle.xd_match.specs.Tails.{is_mixed};

use xd_auto::{Auto, State};
use xd_patterns::Marked;

/// A compiled pattern. Compiled patterns share no states, so each has an automaton of its own.
#[derive(Drop)]
pub(crate) struct CompiledPattern {
    pub auto: Auto,
    pub marked: Marked,
    /// For each state whether it is mixed (see `tails`).
    pub mixed: Vec<bool>,
}

impl CompiledPattern {
    pub(crate) fn is_mixed(&self, state: State) -> bool
        requires stands { PatternStands self.now }
        requires state { IsState self.now.auto state }
        ensures { result ≡ is_mixed self.now.mixed.items state }
    {
        self.mixed[state.number()]
    }
}
