//! With what documents begin that states accept.

ghost use Rattle.std.specs.Prelude.{◌≡◌, ◌||◌, [], false, true, IfOk, OnOk, Ok};
ghost use Rattle.xd_doc.specs.Document.{Document};
ghost use Rattle.xd_auto.specs.Automaton.{ChangesOnly, IsState, accepts, moves_at};
ghost use Rattle.xd_clauses.specs.Begins.{AddsNames, ShareNoName, begins_so, may_begin};

use std::alloc::Global;
use xd_auto::{Auto, Move, State};
use xd_doc::NoMemory;

/// With which items documents of some states begin, and whether one of these is empty.
#[derive(Drop)]
pub struct Begins {
    auto: Auto,
    /// It has a move of the same class for each move of these states.
    state: State,
}

/// Whether no name is one of these moves and of a move of the state, too.
fn share_no_name<M: Move>(
    alloc: Global,
    moves: &[M],
    auto: &Auto,
    state: State,
) -> Result<bool, NoMemory>
    requires { IsState auto.now state }
    ensures { result ≡ Ok true → ShareNoName M.has moves.now (M.moves_in (moves_at auto.now state)) }
{
    for step in moves {
        let numbers = step.matching(alloc, auto, state)?;
        if !numbers.is_empty() {
            return Ok(false);
        }
    }
    Ok(true)
}

/// Adds moves of the same classes as those of a state on an element.
fn add_labels(made: &mut Auto, to: State, auto: &Auto, state: State) -> Result<(), NoMemory>
    requires to { IsState made.old to }
    requires state { IsState auto.now state }
    ensures changes { OnOk result (ChangesOnly to made.old made.new) }
    ensures adds { OnOk result (AddsNames false (moves_at auto.now state).labels [] (moves_at made.old to) (moves_at made.new to)) }
{
    for step in auto.label_moves(state) {
        let class = step.class.share()?;
        made.add_label_move(to, class, to, to)?;
    }
    Ok(())
}

/// The same of those on a text.
fn add_texts(made: &mut Auto, to: State, auto: &Auto, state: State) -> Result<(), NoMemory>
    requires to { IsState made.old to }
    requires state { IsState auto.now state }
    ensures changes { OnOk result (ChangesOnly to made.old made.new) }
    ensures adds { OnOk result (AddsNames false [] (moves_at auto.now state).texts (moves_at made.old to) (moves_at made.new to)) }
{
    for step in auto.text_moves(state) {
        let words = step.words.share()?;
        made.add_text_move(to, words, to)?;
    }
    Ok(())
}

impl Begins {
    /// That of no states.
    pub(crate) fn new(alloc: Global) -> Result<Self, NoMemory>
        ensures { IfOk result (λ made. IsState made.auto made.state) }
    {
        let mut auto = Auto::new(alloc);
        let state = auto.add_state(false)?;
        Ok(Self { auto, state })
    }

    /// Whether no document that this state accepts begins as one of those states.
    ///
    /// Moves on the same name are found in an index, so it costs no more than the state has moves,
    /// and the logarithm of what those have for each.
    pub(crate) fn is_apart(
        &self,
        alloc: Global,
        auto: &Auto,
        state: State,
    ) -> Result<bool, NoMemory>
        requires own { IsState self.now.auto self.now.state }
        requires state { IsState auto.now state }
        ensures { result ≡ Ok true → (d : Document) → accepts auto.now d state ≡ true → begins_so self.now d ≡ false }
    {
        if auto.is_last(state) && self.auto.is_last(self.state) {
            return Ok(false);
        }
        let labels = auto.label_moves(state);
        if !share_no_name(alloc, labels, &self.auto, self.state)? {
            return Ok(false);
        }
        let texts = auto.text_moves(state);
        if !share_no_name(alloc, texts, &self.auto, self.state)? {
            return Ok(false);
        }
        Ok(true)
    }

    /// One state more.
    pub(crate) fn add(self, auto: &Auto, state: State) -> Result<Self, NoMemory>
        requires own { IsState self.auto self.state }
        requires state { IsState auto.now state }
        ensures own { IfOk result (λ made. IsState made.auto made.state) }
        ensures adds { IfOk result (λ made. (d : Document) → begins_so made d ≡ (begins_so self d || may_begin (moves_at auto.now state) d)) }
    {
        let Self {
            auto: made,
            state: to,
        } = self;
        let mut made = made;
        let last = made.is_last(to) || auto.is_last(state);
        made.set_last(to, last);
        add_labels(&mut made, to, auto, state)?;
        add_texts(&mut made, to, auto, state)?;
        Ok(Self {
            auto: made,
            state: to,
        })
    }
}
