//! What moves lead to.

ghost use Rattle.std.specs.Prelude.{◌≡◌, ◌<◌, ℕ};
ghost use Rattle.std.specs.List.{All};
ghost use Rattle.xd_auto.specs.Automaton.{LeadsBelow, StateMoves, state_number};
ghost use Rattle.xd_auto.specs.Leading.{EndsAre, LabelFilled, TextFilled, label_ends, text_ends};
ghost use Rattle.xd_auto.specs.declared.kind.MoveKind.{MoveKind as Kind};
ghost use Rattle.xd_auto.specs.declared.kind.MoveKind.TheVariants.{Label, Text};
ghost use Rattle.xd_auto.specs.declared.leading.Ends.{Ends as EndsView};

use crate::auto::{LabelMove, Move, State, TextMove};
use crate::kind::MoveKind;

/// The states that a move leads to.
#[derive(Clone, Copy)]
pub struct Ends {
    /// The state of an element's content; a text has none.
    pub inside: Option<State>,
    /// The state of what follows.
    pub behind: State,
}

/// A move of one of the two kinds, and the states that it leads to.
pub trait Leads: Move {
    ghost KIND: { Kind };

    ghost ends_of: { Self → EndsView };

    /// Its class has a name.
    ghost Filled: { Self → Type 0 };

    /// The kind.
    const KIND: MoveKind;

    /// The states that it leads to. Some name leads there.
    fn ends(&self) -> Ends
        ensures ends { result ≡ ends_of self.now }
        ensures filled { Filled self.now };

    /// The moves of a closed automaton lead to its states.
    ghost closed: { (n : ℕ) (moves : StateMoves) → LeadsBelow n moves → All (λ m. EndsAre (λ s. state_number s < n) (ends_of m)) (Self.moves_in moves) };
}

impl Leads for LabelMove {
    ghost KIND = { Label };

    ghost ends_of = { label_ends };

    ghost Filled = { LabelFilled };

    ghost closed = { λ n moves below i m there. (let both = below.labels i m there in (both.1, both.0)) };

    const KIND: MoveKind = MoveKind::Label;

    fn ends(&self) -> Ends {
        self.class.has_some();
        Ends {
            inside: Some(self.content),
            behind: self.rest,
        }
    }
}

impl Leads for TextMove {
    ghost KIND = { Text };

    ghost ends_of = { text_ends };

    ghost Filled = { TextFilled };

    ghost closed = { λ n moves below i m there. (below.texts i m there, tt) };

    const KIND: MoveKind = MoveKind::Text;

    fn ends(&self) -> Ends {
        self.words.has_some();
        Ends {
            inside: None,
            behind: self.rest,
        }
    }
}
