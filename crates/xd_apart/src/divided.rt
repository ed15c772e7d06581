//! Moves on elements and on texts, and how they are divided.

ghost use Rattle.std.specs.Prelude.{◌≡◌, ◌+◌, ◌^◌, ◌<◌, ◌≤◌, List, length, slice_index_or, IfOk, OnOk};
ghost use Rattle.std.specs.Option.{IfSome};
ghost use Rattle.xd_doc.specs.Document.{Document};
ghost use Rattle.xd_auto.specs.Automaton.{Automaton, IsState, StateMoves, moves_at, with_moves};
ghost use Rattle.xd_auto.specs.Leading.{label_ends, text_ends};
ghost use Rattle.xd_apart.specs.declared.over_approximation.Clash.{Clash as ClashView};
ghost use Rattle.xd_apart.specs.declared.over_approximation.OverApproximation.{OverApproximation as OverApproximationView};
ghost use Rattle.xd_apart.specs.OverApproximation.{AreBelow, EndsBelow, First as FirstView, IsClash, IsClashOf, IsKind, IsPartOf, behind_to, element_first, in_both, in_first, inside_to, label_kind, text_first, text_kind};

use std::alloc::Global;
use xd_auto::{Auto, Ends, LabelMove, Leads, State, TextMove};
use xd_doc::{Label, NoMemory, Text};

/// A move of one of the two kinds, of which there may be equal ones.
pub(crate) trait SharedMove: Leads + Drop {
    /// An equal move.
    fn share(&self) -> Result<Self, NoMemory>
        ensures { IfOk result (λ made. made ≡ self.now) };
}

/// One that may be divided by another one.
pub(crate) trait DividedMove: SharedMove {
    /// The documents that moves of this kind take, by how they begin.
    ghost document: { FirstView → Document };

    /// These moves in place of those of this kind among a state's moves.
    ghost exchanged: { StateMoves → List Self → StateMoves };

    /// What the names are that it takes: labels or texts.
    type Name;

    /// Whether it takes the name.
    fn takes(&self, name: &Self::Name) -> bool;

    /// The number of the first of the state's moves of this kind, from this number on, that takes
    /// the name.
    fn next(auto: &Auto, state: State, name: &Self::Name, from: usize) -> Option<usize>
        requires state { IsState auto.now state }
        requires from { from ≤ length (Self.moves_in (moves_at auto.now state)) }
        ensures { IfSome result (λ number. (from ≤ number) × (number < length (Self.moves_in (moves_at auto.now state)))) };

    /// The move on the names that the other one has too.
    fn meet(&self, other: &Self) -> Result<Option<Self>, NoMemory>
        ensures { IfOk result (IsPartOf Self.has Self.ends_of (in_both Self.has self.now other.now) (Self.ends_of self.now)) };

    /// The move on the names that the other one doesn't have.
    fn without(&self, other: &Self) -> Result<Option<Self>, NoMemory>
        ensures { IfOk result (IsPartOf Self.has Self.ends_of (in_first Self.has self.now other.now) (Self.ends_of self.now)) };

    /// The move to another state inside, if it leads there.
    fn to_inside(self, state: State) -> Self
        ensures has { Self.has result ≡ Self.has self }
        ensures ends { Self.ends_of result ≡ inside_to state (Self.ends_of self) };

    /// The move to another state behind.
    fn to_behind(self, state: State) -> Self
        ensures has { Self.has result ≡ Self.has self }
        ensures ends { Self.ends_of result ≡ behind_to state (Self.ends_of self) };

    /// Gives a state these moves in place of its own ones of this kind.
    fn set(alloc: Global, over: &mut Auto, state: State, made: Vec<Self>) -> Result<(), NoMemory>
        requires state { IsState over.old state }
        requires below { AreBelow Self.ends_of (length over.old) made.items }
        ensures { OnOk result (over.new ≡ with_moves over.old state (exchanged (moves_at over.old state) made.items)) };

    /// Moves of its kind take what begins as their documents do, and stay over-approximating where exchanged.
    ghost kind: { IsKind Self.has Self.ends_of Self.moves_in exchanged document };

    /// Two moves of its kind clash by that kind.
    ghost clashes: { (b : Automaton) (l : OverApproximationView) (c : ClashView) → IsClash Self.moves_in b l c → IsClashOf Self.KIND b l c };
}

impl SharedMove for LabelMove {
    fn share(&self) -> Result<Self, NoMemory> {
        let class = self.class.share()?;
        Ok(Self { class, ..*self })
    }
}

impl DividedMove for LabelMove {
    ghost document = { element_first };

    ghost exchanged = { λ moves labels. record moves { labels = labels } };

    ghost kind = { label_kind };

    ghost clashes = { λ b l c h. h };

    type Name = Label;

    fn takes(&self, name: &Label) -> bool {
        self.class.has(name)
    }

    fn next(auto: &Auto, state: State, name: &Label, from: usize) -> Option<usize> {
        auto.next_label_move(state, name, from)
    }

    fn meet(&self, other: &Self) -> Result<Option<Self>, NoMemory> {
        let Some(class) = self.class.meet(&other.class)? else {
            return Ok(None);
        };
        Ok(Some(Self { class, ..*self }))
    }

    fn without(&self, other: &Self) -> Result<Option<Self>, NoMemory> {
        let Some(class) = self.class.without(&other.class)? else {
            return Ok(None);
        };
        Ok(Some(Self { class, ..*self }))
    }

    fn to_inside(self, content: State) -> Self {
        Self { content, ..self }
    }

    fn to_behind(self, rest: State) -> Self {
        Self { rest, ..self }
    }

    fn set(alloc: Global, over: &mut Auto, state: State, made: Vec<Self>) -> Result<(), NoMemory>
        requires state { IsState over.old state }
        requires below { AreBelow label_ends (length over.old) made.items }
        ensures { OnOk result (over.new ≡ with_moves over.old state (record (moves_at over.old state) { labels = made.items })) }
    {
        let texts = share_all(alloc, over.text_moves(state))?;
        over.set_moves(state, made, texts);
        Ok(())
    }
}

impl SharedMove for TextMove {
    fn share(&self) -> Result<Self, NoMemory> {
        let words = self.words.share()?;
        Ok(Self { words, ..*self })
    }
}

impl DividedMove for TextMove {
    ghost document = { text_first };

    ghost exchanged = { λ moves texts. record moves { texts = texts } };

    ghost kind = { text_kind };

    ghost clashes = { λ b l c h. h };

    type Name = Text;

    fn takes(&self, name: &Text) -> bool {
        self.words.has(name)
    }

    fn next(auto: &Auto, state: State, name: &Text, from: usize) -> Option<usize> {
        auto.next_text_move(state, name, from)
    }

    fn meet(&self, other: &Self) -> Result<Option<Self>, NoMemory> {
        let Some(words) = self.words.meet(&other.words)? else {
            return Ok(None);
        };
        Ok(Some(Self { words, ..*self }))
    }

    fn without(&self, other: &Self) -> Result<Option<Self>, NoMemory> {
        let Some(words) = self.words.without(&other.words)? else {
            return Ok(None);
        };
        Ok(Some(Self { words, ..*self }))
    }

    fn to_inside(self, _state: State) -> Self {
        self
    }

    fn to_behind(self, rest: State) -> Self {
        Self { rest, ..self }
    }

    fn set(alloc: Global, over: &mut Auto, state: State, made: Vec<Self>) -> Result<(), NoMemory>
        requires state { IsState over.old state }
        requires below { AreBelow text_ends (length over.old) made.items }
        ensures { OnOk result (over.new ≡ with_moves over.old state (record (moves_at over.old state) { texts = made.items })) }
    {
        let labels = share_all(alloc, over.label_moves(state))?;
        over.set_moves(state, labels, made);
        Ok(())
    }
}

/// Equal moves.
pub(crate) fn share_all<M: SharedMove>(alloc: Global, moves: &[M]) -> Result<Vec<M>, NoMemory>
    ensures { IfOk result (λ made. made.items ≡ moves.now) }
{
    let mut made = Vec::new(alloc);
    for step in moves {
        made.push(step.share()?)?;
    }
    Ok(made)
}

/// What the state's move of this number leads to.
pub(crate) fn ends_at<M: DividedMove>(auto: &Auto, state: State, number: usize) -> Ends
    requires state { IsState auto.now state }
    requires number { number < length (M.moves_in (moves_at auto.now state)) }
    ensures is { (m : M) → result ≡ M.ends_of (slice_index_or (M.moves_in (moves_at auto.now state)) number m) }
    ensures below { EndsBelow (length auto.now) result }
    ensures fits { number + 1 < 2 ^ 64 }
{
    let moves = M::moves(auto, state);
    moves[number].ends()
}
