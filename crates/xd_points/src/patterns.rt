//! The states of patterns.

ghost use Rattle.std.specs.Prelude.{◌≡◌, true, IfOk};
ghost use Rattle.xd_auto.specs.declared.auto.State.{State};
ghost use Rattle.xd_auto.specs.Automaton.{Automaton, Extends, IsState};
ghost use Rattle.xd_empty.specs.Parts.{is_marked};
ghost use Rattle.xd_points.specs.Meaning.{ServePoints, may_leave_out};

use std::alloc::Global;
use xd_auto::Auto;
use xd_boole::{Taken, taken_from};
use xd_doc::NoMemory;

/// An automaton with the states of patterns, and the same with like states made one, for those that
/// must refuse.
#[derive(Drop)]
pub struct PatternStates {
    /// The states as they are: by their moves it is known what belongs to variables.
    pub auto: Auto,
    pub(crate) taken: Taken,
    /// So many of the first states are states of the automaton of the lefts, too.
    pub(crate) shared: usize,
    /// Of each state whether it may be left out, where nothing must refuse and it takes everything,
    /// or is the left itself.
    pub(crate) left_out: Vec<bool>,
}

impl PatternStates {
    /// States of patterns that no automaton of lefts has. Each may be left out.
    ///
    /// Fails only where memory is refused.
    pub fn new(alloc: Global, auto: Auto) -> Result<Self, NoMemory>
        ensures auto { IfOk result (λ made. made.auto ≡ auto) }
        ensures serve { IfOk result (λ made. (a : Automaton) → ServePoints a made) }
        ensures left_out { IfOk result (λ made. (s : State) → IsState auto s → may_leave_out made s ≡ true) }
    {
        let taken = taken_from(alloc, &auto)?;
        let left_out = vec![in alloc; true; auto.len()]?;
        Ok(Self {
            auto,
            taken,
            shared: 0,
            left_out,
        })
    }

    /// States of patterns that are the first states of the automaton of the lefts, which has the
    /// same moves for them. Each may be left out.
    ///
    /// Fails only where memory is refused.
    pub fn shared(alloc: Global, auto: Auto) -> Result<Self, NoMemory>
        ensures auto { IfOk result (λ made. made.auto ≡ auto) }
        ensures serve { IfOk result (λ made. (a : Automaton) → Extends auto a → ServePoints a made) }
        ensures left_out { IfOk result (λ made. (s : State) → IsState auto s → may_leave_out made s ≡ true) }
    {
        let count = auto.len();
        let taken = taken_from(alloc, &auto)?;
        let left_out = vec![in alloc; true; count]?;
        Ok(Self {
            auto,
            taken,
            shared: count,
            left_out,
        })
    }

    /// The same, but that only marked states may be left out.
    ///
    /// Where a table is asked what variables are given, it is to leave out no state by whose moves
    /// this is told: only states that give nothing, or give some variables all that they take.
    pub fn leaving_out(self, marks: Vec<bool>) -> Self
        ensures auto { result.auto ≡ self.auto }
        ensures serve { (a : Automaton) → ServePoints a self → ServePoints a result }
        ensures left_out { (s : State) → may_leave_out result s ≡ is_marked marks.items s }
    {
        let Self {
            auto,
            taken,
            shared,
            left_out: _,
        } = self;
        Self {
            auto,
            taken,
            shared,
            left_out: marks,
        }
    }
}
