//! States from which all that is left of a level belongs to the same variables.

ghost use Rattle.std.specs.Prelude.{◌≡◌, ℕ, ◌<◌, [], true, false, length, List, IfOk, OnOk};
ghost use Rattle.xd_auto.specs.Automaton.{IsState, moves_at, state_number};
ghost use Rattle.xd_auto.specs.Leading.{EndsAre};
ghost use Rattle.xd_sound.specs.Emptiness.{is_marked};
ghost use Rattle.xd_sound.specs.Graph.{HasEdge};
ghost use Rattle.xd_patterns.specs.Held.{marking_of, variables_in};
ghost use Rattle.xd_patterns.specs.Variables.{words_of};
ghost use Rattle.xd_match.specs.Tails.{AllLead, AreBehind, AreEven, AreTails, EndsGoOnWith, GoesOnWith, HasEdgeTo, IsEven, IsSpread, tail_marks};

use std::alloc::Global;
use xd_auto::{Auto, Ends, LabelMove, Leads, MoveKind, State, TextMove};
use xd_doc::NoMemory;
use xd_patterns::Marked;
use xd_sound::Graph;

/// The variables of the state's first move. Where the state isn't mixed, all items that are left of
/// a level from it on belong to these.
pub(crate) fn tail_of<'a>(auto: &Auto, marked: &'a Marked, state: State) -> &'a [usize]
    requires { IsState auto.now state }
    ensures { words_of (variables_in marked.now) result.now ≡ tail_marks auto.now (marking_of marked.now) state }
{
    if auto.label_moves(state).is_empty() {
        marked.marks(state, MoveKind::Text, 0)
    } else {
        marked.marks(state, MoveKind::Label, 0)
    }
}

/// For each state, by its number, whether it is mixed: items that are left of a level from it on
/// may belong to different variables, or items in them to some. A state that has such a move is
/// mixed, and one whose moves lead to a mixed one.
pub(crate) fn mixed_states(
    alloc: Global,
    auto: &Auto,
    marked: &Marked,
) -> Result<Vec<bool>, NoMemory>
    ensures { IfOk result (λ mixed. AreTails auto.now (marking_of marked.now) mixed.items) }
{
    let behind = states_behind(alloc, auto)?;
    let mut mixed = Vec::new(alloc);
    let mut waiting = Vec::new(alloc);
    for number in 0..auto.len() {
        mixed.push(false)?;
        if !is_even(auto, marked, auto.state(number)) {
            waiting.push(number)?;
        }
    }
    spread(&behind, &mut mixed, &mut waiting)?;
    Ok(mixed)
}

/// Marks the nodes that wait, and all that edges lead to from them.
fn spread(behind: &Graph, mixed: &mut Vec<bool>, waiting: &mut Vec<usize>) -> Result<(), NoMemory>
    requires count { length mixed.old.items ≡ length behind.now }
    requires waiting { IsSpread behind.now waiting.old.items mixed.old.items waiting.old.items }
    ensures count { length mixed.new.items ≡ length mixed.old.items }
    ensures spread { OnOk result (IsSpread behind.now waiting.old.items mixed.new.items []) }
{
    while let Some(at) = waiting.pop() {
        if mixed[at] {
            continue;
        }
        mixed[at] = true;
        waiting.extend_from_slice(behind.successors(at))?;
    }
    Ok(())
}

/// An edge to each state from those that its moves lead to.
fn states_behind(alloc: Global, auto: &Auto) -> Result<Graph, NoMemory>
    ensures { IfOk result (AreBehind auto.now) }
{
    let mut behind = Graph::new(alloc, auto.len())?;
    for number in 0..auto.len() {
        let state = auto.state(number);
        add_moves::<TextMove>(auto, state, &mut behind)?;
        add_moves::<LabelMove>(auto, state, &mut behind)?;
    }
    Ok(behind)
}

/// Adds an edge to the state from those that its moves of a kind lead to.
fn add_moves<M: Leads>(auto: &Auto, state: State, behind: &mut Graph) -> Result<(), NoMemory>
    requires state { IsState auto.now state }
    requires count { length behind.old ≡ length auto.now }
    ensures count { OnOk result (length behind.new ≡ length behind.old) }
    ensures kept { OnOk result ((v w : ℕ) → HasEdge behind.old v w → HasEdge behind.new v w) }
    ensures added { OnOk result (AllLead M.ends_of (HasEdgeTo behind.new state) (M.moves_in (moves_at auto.now state)) (length (M.moves_in (moves_at auto.now state)))) }
{
    for step in M::moves(auto, state) {
        add_ends(step.ends(), state, behind)?;
    }
    Ok(())
}

/// Adds an edge to the state from these.
fn add_ends(ends: Ends, state: State, behind: &mut Graph) -> Result<(), NoMemory>
    requires state { state_number state < length behind.old }
    requires ends { EndsAre (λ t. state_number t < length behind.old) ends }
    ensures count { OnOk result (length behind.new ≡ length behind.old) }
    ensures kept { OnOk result ((v w : ℕ) → HasEdge behind.old v w → HasEdge behind.new v w) }
    ensures added { OnOk result (EndsAre (HasEdgeTo behind.new state) ends) }
{
    behind.add(ends.behind.number(), state.number())?;
    let Some(inside) = ends.inside else {
        return Ok(());
    };
    behind.add(inside.number(), state.number())?;
    Ok(())
}

/// Whether the items of all moves belong to the same variables, as do the first items after them,
/// and the first ones in them to none.
fn is_even(auto: &Auto, marked: &Marked, state: State) -> bool
    requires { IsState auto.now state }
    ensures { result ≡ true → IsEven auto.now (marking_of marked.now) state }
{
    let own = tail_of(auto, marked, state);
    has_even_moves::<TextMove>(auto, marked, state, own)
        && has_even_moves::<LabelMove>(auto, marked, state, own)
}

/// The same of the moves of a kind, where the items belong to these variables.
fn has_even_moves<M: Leads>(auto: &Auto, marked: &Marked, state: State, own: &[usize]) -> bool
    requires { IsState auto.now state }
    ensures { result ≡ true → AreEven M.ends_of M.KIND auto.now (marking_of marked.now) (words_of (variables_in marked.now) own.now) state (M.moves_in (moves_at auto.now state)) (length (M.moves_in (moves_at auto.now state))) }
{
    let steps = M::moves(auto, state);
    for number in 0..steps.len() {
        let marks = marked.marks(state, M::KIND, number);
        let ends = steps[number].ends();
        if !are_same(marks, own) {
            return false;
        }
        if !ends_go_on_with(auto, marked, ends, own) {
            return false;
        }
    }
    true
}

/// Whether the first items behind, if there are any, belong to these variables, and the first ones
/// inside to none.
fn ends_go_on_with(auto: &Auto, marked: &Marked, ends: Ends, own: &[usize]) -> bool
    requires { EndsAre (IsState auto.now) ends }
    ensures { result ≡ true → EndsGoOnWith auto.now (marking_of marked.now) (words_of (variables_in marked.now) own.now) ends }
{
    let goes_on = goes_on_with(auto, marked, ends.behind, own);
    match ends.inside {
        None => goes_on,
        Some(inside) => goes_on && goes_on_with(auto, marked, inside, &[]),
    }
}

/// Whether the first items from the state on, if there are any, belong to these variables.
fn goes_on_with(auto: &Auto, marked: &Marked, state: State, own: &[usize]) -> bool
    requires { IsState auto.now state }
    ensures { result ≡ true → GoesOnWith auto.now (marking_of marked.now) (words_of (variables_in marked.now) own.now) state }
{
    if auto.label_moves(state).is_empty() && auto.text_moves(state).is_empty() {
        return true;
    }
    are_same(tail_of(auto, marked, state), own)
}

fn are_same(one: &[usize], other: &[usize]) -> bool
    ensures { result ≡ true → one.now ≡ other.now }
{
    one == other
}
