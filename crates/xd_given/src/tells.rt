//! What tells which variables moves belong to.

ghost use Rattle.std.specs.Prelude.{◌≡◌, ℕ, true};
ghost use Rattle.std.specs.List.{Contains};
ghost use Rattle.xd_bind.specs.Owning.{is_owned};

use xd_auto::State;
use xd_bind::{Holds, MoveKind};

/// What says which moves belong to which variables, and lists the variables of a move.
pub trait TellsVariables: Holds {
    /// The variables that the state's move of this kind and number belongs to, and maybe others.
    fn variables(&self, state: State, kind: MoveKind, number: usize) -> &[usize]
        ensures { (x : ℕ) → is_owned (Self.owned self.now x) kind state number ≡ true → Contains result.now x };
}
