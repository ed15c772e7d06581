//! States and moves that are added.

ghost use Rattle.std.specs.Prelude.{◌≡◌, ◌++◌, OnOk, map};
ghost use Rattle.std.specs.List.{All};
ghost use Rattle.xd_auto.specs.Automaton.{ChangesOnly, Extends, IsState, moves_at, no_moves};
ghost use Rattle.xd_bind.specs.Changes.{IsChange, with_labels, with_texts};

use xd_auto::{Auto, LabelMove, State, TextMove};
use xd_doc::NoMemory;

/// Adds states without moves. Where memory is refused, some of them may be there.
pub fn add_states(auto: &mut Auto, lasts: &[bool]) -> Result<(), NoMemory>
    ensures ok { OnOk result (auto.new ≡ auto.old ++ map no_moves lasts.now) }
    ensures extends { Extends auto.old auto.new }
{
    for last in lasts {
        auto.add_state(*last)?;
    }
    Ok(())
}

/// Gives a state more moves on an element. Where memory is refused, it may have some of them.
pub fn put_labels(auto: &mut Auto, at: State, labels: Vec<LabelMove>) -> Result<(), NoMemory>
    requires at { IsState auto.old at }
    requires lead { All (λ m. IsState auto.old m.content × IsState auto.old m.rest) labels.items }
    ensures ok { OnOk result (IsChange auto.old auto.new at (with_labels labels.items (moves_at auto.old at))) }
    ensures others { ChangesOnly at auto.old auto.new }
{
    for step in labels {
        auto.add_label_move(at, step.class, step.content, step.rest)?;
    }
    Ok(())
}

/// Gives a state more moves on a text. Where memory is refused, it may have some of them.
pub fn put_texts(auto: &mut Auto, at: State, texts: Vec<TextMove>) -> Result<(), NoMemory>
    requires at { IsState auto.old at }
    requires lead { All (λ m. IsState auto.old m.rest) texts.items }
    ensures ok { OnOk result (IsChange auto.old auto.new at (with_texts texts.items (moves_at auto.old at))) }
    ensures others { ChangesOnly at auto.old auto.new }
{
    for step in texts {
        auto.add_text_move(at, step.words, step.rest)?;
    }
    Ok(())
}
