//! Which moves belong to variables.

ghost use Rattle.std.specs.Prelude.{◌≡◌, ℕ};
ghost use Rattle.xd_bind.specs.Owning.{is_owned};

use xd_auto::{MoveKind, State};

/// What says which moves of an automaton belong to which variables; both are numbered from 0.
pub trait Holds {
    ghost use Rattle.xd_auto.specs.Traces.{Owned};

    /// The moves of the variable of this number.
    ghost owned: { Self → ℕ → Owned };

    /// Whether the state's move of this kind and number belongs to the variable.
    fn holds(&self, state: State, kind: MoveKind, number: usize, variable: usize) -> bool
        ensures { result ≡ is_owned (owned self.now variable) kind state number };
}
