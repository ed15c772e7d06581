//! The search for a least document, by an automaton that is made closer step by step.

ghost use Rattle.std.specs.Prelude.{◌≡◌, ◌<◌, ◌≤◌, true, false, None, Ok, length, Contains, IfOk, OnOk};
ghost use Rattle.std.specs.Option.{IfSome};
ghost use Rattle.xd_doc.specs.Document.{Document};
ghost use Rattle.xd_doc.specs.Stored.{document_at};
ghost use Rattle.xd_doc.specs.StoredSeq.{BelongsTo};
ghost use Rattle.xd_doc.specs.StoreNodes.{Keeps};
ghost use Rattle.xd_auto.specs.Automaton.{IsState, accepts, moves_at, state_number};
ghost use Rattle.xd_boole.specs.Points.{point_at};
ghost use Rattle.xd_least.specs.Least.{IsLeastOf};
ghost use Rattle.xd_auto.specs.Kept.{AreRight};
ghost use Rattle.xd_apart.specs.Apart.{IsApart};
ghost use Rattle.xd_apart.specs.OverApproximation.{EndsBelow, IsCloser, IsOverApproximation};
ghost use Rattle.xd_apart.specs.Search.{IsFound, IsStep, IsTakenAt, KnowsLefts};

use crate::divided::{DividedMove, ends_at};
use crate::over_approximation::{Clash, OverApproximation};
use std::alloc::Global;
use xd_auto::{Answers, Auto, Ends, LabelMove, MoveKind, State, TextMove, accepts_kept, trim};
use xd_doc::{Item, NoMemory, Seq, Store};
use xd_least::{LeastDocument, LeastInhabitants};

/// How often an over-approximation is made closer at most.
const ROUNDS: usize = 1000;

/// What a search found out about the documents that separate two states.
#[derive(Clone, Copy)]
pub(crate) enum Found {
    /// None of them is smaller than the bound.
    NoneBelow,
    /// A least one.
    Least(Seq),
    /// Nothing, in as many rounds as there are.
    Nothing,
}

/// A state, and a document that it took.
#[derive(Clone, Copy)]
pub(crate) struct Taken {
    pub(crate) state: State,
    pub(crate) seq: Seq,
}

/// Where a document was wrongly taken.
#[derive(Clone, Copy)]
pub(crate) enum Step {
    /// By a move of this kind.
    Move(MoveKind, Clash),
    /// By a state that the first move leads to.
    Down(Taken),
    /// Nowhere that could be told.
    Lost,
}

/// The root's least document, by what is known of the lefts.
fn candidate(
    alloc: Global,
    approximation: &OverApproximation,
    known: &mut LeastInhabitants,
    root: State,
    store: &mut Store,
) -> Result<Option<LeastDocument>, NoMemory>
    requires within { approximation.now.lefts ≤ length approximation.now.over }
    requires known { KnowsLefts approximation.now store.old known.old }
    requires root { IsState approximation.now.over root }
    ensures known { OnOk result (KnowsLefts approximation.now store.new known.new) }
    ensures least { IfOk result (λ found. IfSome found (IsLeastOf approximation.now.over store.new root)) }
    ensures none { result ≡ Ok None → (d : Document) → accepts approximation.now.over d root ≡ false }
    ensures keeps { Keeps store.old store.new }
{
    known.forget_after(approximation.lefts);
    known.learn(alloc, &approximation.over, store)?;
    Ok(known.document(root))
}

/// Whether the left state accepts the document and the right one doesn't.
fn separates(
    alloc: Global,
    auto: &Auto,
    left: State,
    right: State,
    store: &Store,
    seq: Seq,
) -> Result<bool, NoMemory>
    requires left { IsState auto.now left }
    requires right { IsState auto.now right }
    requires seq { BelongsTo store.now seq }
    ensures { IfOk result (λ answer. answer ≡ true → IsApart auto.now left right (document_at store.now seq)) }
{
    let mut answers = Answers::new(alloc);
    if accepts_kept(&mut answers, auto, right, store, seq)? {
        return Ok(false);
    }
    accepts_kept(&mut answers, auto, left, store, seq)
}

/// Whether the document is the one that is known of the state.
fn is_known(known: &LeastInhabitants, state: State, seq: Seq) -> bool {
    match known.document(state) {
        Some(least) => least.seq.place() == seq.place(),
        None => false,
    }
}

/// Whether the documents in the first item and after it are those that are known of the states.
fn are_known(known: &LeastInhabitants, store: &Store, ends: Ends, seq: Seq) -> bool
    requires { BelongsTo store.now seq }
{
    if let Some(inside) = ends.inside {
        if !is_known(known, inside, store.content(seq)) {
            return false;
        }
    }
    is_known(known, ends.behind, store.next(seq))
}

/// The number of the move by which the state took the item of this name.
fn move_over<M: DividedMove>(
    approximation: &OverApproximation,
    known: &LeastInhabitants,
    store: &Store,
    at: Taken,
    name: &M::Name,
) -> Option<usize>
    requires state { IsState approximation.now.over at.state }
    requires seq { BelongsTo store.now at.seq }
    ensures { IfSome result (λ number. number < length (M.moves_in (moves_at approximation.now.over at.state))) }
{
    let moves = M::moves(&approximation.over, at.state);
    for number in 0..moves.len() {
        let step = &moves[number];
        if step.takes(name) && are_known(known, store, step.ends(), at.seq) {
            return Some(number);
        }
    }
    None
}

/// Whether the states accept the documents in the first item and after it.
fn accept_ends(
    auto: &Auto,
    store: &Store,
    answers: &mut Answers,
    ends: Ends,
    seq: Seq,
) -> Result<bool, NoMemory>
    requires ends { EndsBelow (length auto.now) ends }
    requires seq { BelongsTo store.now seq }
    requires right { AreRight auto.now store.now answers.old }
    ensures { AreRight auto.now store.now answers.new }
{
    if let Some(inside) = ends.inside {
        if !accepts_kept(answers, auto, inside, store, store.content(seq))? {
            return Ok(false);
        }
    }
    accepts_kept(answers, auto, ends.behind, store, store.next(seq))
}

/// The number of the right's first move that takes the item of this name.
fn right_move<M: DividedMove>(
    auto: &Auto,
    store: &Store,
    answers: &mut Answers,
    right: Taken,
    name: &M::Name,
) -> Result<Option<usize>, NoMemory>
    requires right { IsTakenAt auto.now store.now right }
    requires answers { AreRight auto.now store.now answers.old }
    ensures number { IfOk result (λ found. IfSome found (λ number. number < length (M.moves_in (moves_at auto.now right.state)))) }
    ensures answers { AreRight auto.now store.now answers.new }
{
    let mut from = 0;
    while let Some(number) = M::next(auto, right.state, name, from) {
        let ends = ends_at::<M>(auto, right.state, number);
        if accept_ends(auto, store, answers, ends, right.seq)? {
            return Ok(Some(number));
        }
        from = number + 1;
    }
    Ok(None)
}

/// Whether the state is a right of the other one's point.
fn has_right(approximation: &OverApproximation, state: State, right: State) -> bool
    requires { state_number state < length approximation.now.points.items }
{
    approximation.points[state.number()].rights.contains(&right)
}

/// The state that took what a right of its point accepts, of those that a move and a move of a right
/// lead to.
fn step_down(
    approximation: &OverApproximation,
    store: &Store,
    own: Ends,
    other: Ends,
    seq: Seq,
) -> Option<Taken>
    requires own { EndsBelow (length approximation.now.points.items) own }
    requires count { length approximation.now.over ≡ length approximation.now.points.items }
    requires seq { BelongsTo store.now seq }
    ensures { IfSome result (IsTakenAt approximation.now.over store.now) }
{
    if let (Some(inside), Some(right)) = (own.inside, other.inside) {
        if has_right(approximation, inside, right) {
            return Some(Taken {
                state: inside,
                seq: store.content(seq),
            });
        }
    }
    if has_right(approximation, own.behind, other.behind) {
        return Some(Taken {
            state: own.behind,
            seq: store.next(seq),
        });
    }
    None
}

/// Where the item of this name was wrongly taken, if a right of the state's point accepts it.
fn step_over<M: DividedMove>(
    auto: &Auto,
    approximation: &OverApproximation,
    known: &LeastInhabitants,
    store: &Store,
    answers: &mut Answers,
    at: Taken,
    name: &M::Name,
) -> Result<Step, NoMemory>
    requires approximation { IsOverApproximation auto.now approximation.now }
    requires at { IsTakenAt approximation.now.over store.now at }
    requires answers { AreRight auto.now store.now answers.old }
    ensures step { IfOk result (IsStep auto.now approximation.now store.now) }
    ensures answers { AreRight auto.now store.now answers.new }
{
    let Some(number) = move_over::<M>(approximation, known, store, at, name) else {
        return Ok(Step::Lost);
    };
    let own = ends_at::<M>(&approximation.over, at.state, number);
    let point = &approximation.points[at.state.number()];
    for right in &point.rights {
        let asked = Taken {
            state: *right,
            seq: at.seq,
        };
        if let Some(taken) = right_move::<M>(auto, store, answers, asked, name)? {
            let other = ends_at::<M>(auto, *right, taken);
            if let Some(below) = step_down(approximation, store, own, other, at.seq) {
                return Ok(Step::Down(below));
            }
            return Ok(Step::Move(
                M::KIND,
                Clash {
                    state: at.state,
                    number,
                    right: *right,
                    taken,
                },
            ));
        }
    }
    Ok(Step::Lost)
}

/// Where the document was wrongly taken, if a right of the state's point accepts it.
fn step_from(
    auto: &Auto,
    approximation: &OverApproximation,
    known: &LeastInhabitants,
    store: &Store,
    answers: &mut Answers,
    at: Taken,
) -> Result<Step, NoMemory>
    requires approximation { IsOverApproximation auto.now approximation.now }
    requires at { IsTakenAt approximation.now.over store.now at }
    requires answers { AreRight auto.now store.now answers.old }
    ensures step { IfOk result (IsStep auto.now approximation.now store.now) }
    ensures answers { AreRight auto.now store.now answers.new }
{
    match store.first(at.seq) {
        None => Ok(Step::Lost),
        Some(Item::Elem(label)) => {
            step_over::<LabelMove>(auto, approximation, known, store, answers, at, label)
        }
        Some(Item::Text(text)) => {
            step_over::<TextMove>(auto, approximation, known, store, answers, at, text)
        }
    }
}

/// Where a document that a right of the state's point accepts was wrongly taken by a move. Each
/// step leads to an older node.
fn clash_below(
    alloc: Global,
    auto: &Auto,
    approximation: &OverApproximation,
    known: &LeastInhabitants,
    store: &Store,
    at: Taken,
) -> Result<Step, NoMemory>
    requires approximation { IsOverApproximation auto.now approximation.now }
    requires at { IsTakenAt approximation.now.over store.now at }
    ensures { IfOk result (IsStep auto.now approximation.now store.now) }
{
    let mut answers = Answers::new(alloc);
    let mut at = at;
    for _ in 0..store.len() {
        match step_from(auto, approximation, known, store, &mut answers, at)? {
            Step::Down(below) => at = below,
            step => return Ok(step),
        }
    }
    Ok(Step::Lost)
}

/// Makes the automaton closer where it took the document wrongly; false where no such place was
/// found.
fn close_in(
    alloc: Global,
    auto: &Auto,
    approximation: &mut OverApproximation,
    known: &LeastInhabitants,
    store: &Store,
    at: Taken,
) -> Result<bool, NoMemory>
    requires approximation { IsOverApproximation auto.now approximation.old }
    requires at { IsTakenAt approximation.old.over store.now at }
    ensures { OnOk result (IsCloser auto.now approximation.old approximation.new) }
{
    match clash_below(alloc, auto, approximation, known, store, at)? {
        Step::Move(MoveKind::Label, clash) => {
            approximation.divide::<LabelMove>(alloc, auto, clash)?;
            Ok(true)
        }
        Step::Move(MoveKind::Text, clash) => {
            approximation.divide::<TextMove>(alloc, auto, clash)?;
            Ok(true)
        }
        Step::Down(_) | Step::Lost => Ok(false),
    }
}

/// Searches for a least document of those that the left state accepts and the right one doesn't, of
/// which there are some.
///
/// An over-approximation accepts all of these, and at first all that the left accepts. If its least
/// document is one of them, it is a least one. Else it is made closer where it took this document,
/// and asked again. (The method is that of counterexamples that guide a refinement: Clarke,
/// Grumberg, Jha, Lu and Veith, *Counterexample-guided abstraction refinement*, CAV 2000.)
pub(crate) fn search(
    alloc: Global,
    auto: &Auto,
    left: State,
    right: State,
    bound: u64,
    store: &mut Store,
) -> Result<Found, NoMemory>
    requires left { IsState auto.now left }
    requires right { IsState auto.now right }
    requires some { (d : Document) × IsApart auto.now left right d }
    ensures { IfOk result (IsFound auto.now left right bound store.new) }
{
    let (part, start) = trim(alloc, auto, left)?;
    let mut approximation = OverApproximation::new(alloc, part)?;
    let mut known = LeastInhabitants::new(alloc);
    known.learn(alloc, &approximation.over, store)?;
    let root = approximation.find_or_add(alloc, auto, start, &[right])?;
    for _ in 0..ROUNDS {
        let Some(least) = candidate(alloc, &approximation, &mut known, root, store)? else {
            unreachable!()
        };
        if bound <= least.size {
            return Ok(Found::NoneBelow);
        }
        if separates(alloc, auto, left, right, store, least.seq)? {
            return Ok(Found::Least(least.seq));
        }
        let at = Taken {
            state: root,
            seq: least.seq,
        };
        if !close_in(alloc, auto, &mut approximation, &known, store, at)? {
            return Ok(Found::Nothing);
        }
    }
    Ok(Found::Nothing)
}
