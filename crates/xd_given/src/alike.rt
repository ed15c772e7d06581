//! States that give each variable nothing, or all that they take.

ghost use Rattle.std.specs.Prelude.{◌≡◌, ◌<◌, ℕ, ◌+◌, ◌≤◌, Bool, false, true, IfOk, length};
ghost use Rattle.xd_auto.specs.declared.auto.State.{State as StateView};
ghost use Rattle.xd_auto.specs.Automaton.{IsState, moves_at, state_number};
ghost use Rattle.xd_empty.specs.Parts.{is_marked};
ghost use Rattle.xd_given.specs.Alike.{IsAlikeFor, IsAlikeSet, IsIn, marked_count};
ghost use Rattle.xd_given.specs.Belonging.{AreAlikeMoves, BelongAlike, IsAlikeMove, TheseBelongAlike, owns};
ghost use Rattle.xd_given.specs.Owning.{GivesAlike};

use crate::free::is_inside_marked;
use crate::owner::owns_first;
use crate::tells::TellsVariables;
use std::alloc::Global;
use xd_auto::{Auto, Ends, LabelMove, Leads, State, TextMove};
use xd_bind::{Holds, MoveKind};
use xd_boole::is_marked;
use xd_doc::NoMemory;

/// Moves of a state that may belong to variables.
#[derive(Clone, Copy)]
enum Moves {
    /// The first on an element, and the first on a text.
    First(State),
    /// The one of this kind and number.
    One(State, MoveKind, usize),
    /// None at all.
    Nothing,
}

/// Whether one of the moves belongs to the variable.
fn owns<H: Holds>(owner: &H, variable: usize, moves: Moves) -> bool
    ensures { result ≡ owns (H.owned owner.now variable) moves }
{
    match moves {
        Moves::First(state) => owns_first(owner, variable, state),
        Moves::One(state, kind, number) => owner.holds(state, kind, number, variable),
        Moves::Nothing => false,
    }
}

/// Whether each of these variables that is one of so many has one of both moves, or of neither.
fn these_belong_alike<H: Holds>(
    owner: &H,
    variables: &[usize],
    count: usize,
    one: Moves,
    two: Moves,
) -> bool
    ensures alike { result ≡ true → TheseBelongAlike (H.owned owner.now) variables.now count one two }
    ensures all { TheseBelongAlike (H.owned owner.now) variables.now count one two → result ≡ true }
{
    for variable in variables {
        if *variable < count && owns(owner, *variable, one) != owns(owner, *variable, two) {
            return false;
        }
    }
    true
}

/// Whether each variable does that is listed at some moves.
fn listed_belong_alike<H: TellsVariables>(
    owner: &H,
    count: usize,
    listed: Moves,
    one: Moves,
    two: Moves,
) -> bool
    ensures alike { result ≡ true → (x : ℕ) → x < count → owns (H.owned owner.now x) listed ≡ true → owns (H.owned owner.now x) one ≡ owns (H.owned owner.now x) two }
    ensures all { BelongAlike (H.owned owner.now) count one two → result ≡ true }
{
    match listed {
        Moves::First(state) => {
            let labels = owner.variables(state, MoveKind::Label, 0);
            let texts = owner.variables(state, MoveKind::Text, 0);
            these_belong_alike(owner, labels, count, one, two)
                && these_belong_alike(owner, texts, count, one, two)
        }
        Moves::One(state, kind, number) => {
            let variables = owner.variables(state, kind, number);
            these_belong_alike(owner, variables, count, one, two)
        }
        Moves::Nothing => true,
    }
}

/// Whether each of so many variables has one of both moves, or of neither. Only those are looked at
/// that are listed at the moves, since others have none of them.
fn belong_alike<H: TellsVariables>(owner: &H, count: usize, one: Moves, two: Moves) -> bool
    ensures alike { result ≡ true → BelongAlike (H.owned owner.now) count one two }
    ensures all { BelongAlike (H.owned owner.now) count one two → result ≡ true }
{
    listed_belong_alike(owner, count, one, one, two)
        && listed_belong_alike(owner, count, two, one, two)
}

/// Whether for each of so many variables a move of a kind is the variable's where the state's first
/// one is, and the marked states that it leads to go on so, with nothing of it in contents.
fn is_alike<H: TellsVariables>(
    owner: &H,
    count: usize,
    marks: &[bool],
    state: State,
    kind: MoveKind,
    number: usize,
    ends: Ends,
) -> bool
    ensures alike { result ≡ true → IsAlikeMove (H.owned owner.now) count (is_marked marks.now) state kind number ends }
    ensures all { 0 < count → IsAlikeMove (H.owned owner.now) count (is_marked marks.now) state kind number ends → result ≡ true }
{
    if !is_inside_marked(marks, ends.inside) || !is_marked(marks, ends.behind) {
        return false;
    }
    let first = Moves::First(state);
    let own = Moves::One(state, kind, number);
    if !belong_alike(owner, count, first, own)
        || !belong_alike(owner, count, first, Moves::First(ends.behind))
    {
        return false;
    }
    match ends.inside {
        Some(inside) => belong_alike(owner, count, Moves::Nothing, Moves::First(inside)),
        None => true,
    }
}

/// Whether all moves of a state are such, of a kind.
fn moves_are_alike<M: Leads, H: TellsVariables>(
    auto: &Auto,
    owner: &H,
    count: usize,
    marks: &[bool],
    state: State,
) -> bool
    requires state { IsState auto.now state }
    requires some { 0 < count }
    ensures alike { result ≡ true → AreAlikeMoves M.ends_of (H.owned owner.now) count (is_marked marks.now) state M.KIND (M.moves_in (moves_at auto.now state)) }
    ensures all { AreAlikeMoves M.ends_of (H.owned owner.now) count (is_marked marks.now) state M.KIND (M.moves_in (moves_at auto.now state)) → result ≡ true }
{
    let moves = M::moves(auto, state);
    for number in 0..moves.len() {
        let ends = moves[number].ends();
        if !is_alike(owner, count, marks, state, M::KIND, number, ends) {
            return false;
        }
    }
    true
}

/// Whether all moves of a state are such.
fn are_alike<H: TellsVariables>(
    auto: &Auto,
    owner: &H,
    count: usize,
    marks: &[bool],
    state: State,
) -> bool
    requires { IsState auto.now state }
    ensures alike { result ≡ true → IsAlikeFor auto.now (H.owned owner.now) count (is_marked marks.now) state }
    ensures all { IsAlikeFor auto.now (H.owned owner.now) count (is_marked marks.now) state → result ≡ true }
{
    count == 0
        || (moves_are_alike::<LabelMove, H>(auto, owner, count, marks, state)
            && moves_are_alike::<TextMove, H>(auto, owner, count, marks, state))
}

/// Takes the mark of a state away whose moves aren't such, and says whether it did.
fn unmark_state<H: TellsVariables>(
    auto: &Auto,
    owner: &H,
    count: usize,
    marks: &mut Vec<bool>,
    state: State,
) -> bool
    requires state { IsState auto.now state }
    requires sized { length marks.old.items ≡ length auto.now }
    ensures sized { length marks.new.items ≡ length auto.now }
    ensures fewer { (s : StateView) → is_marked marks.new.items s ≡ true → is_marked marks.old.items s ≡ true }
    ensures kept { (set : StateView → Bool) → IsAlikeSet auto.now (H.owned owner.now) count set → IsIn set (is_marked marks.old.items) → IsIn set (is_marked marks.new.items) }
    ensures same { result ≡ false → marks.new.items ≡ marks.old.items }
    ensures alike { result ≡ false → is_marked marks.new.items state ≡ true → IsAlikeFor auto.now (H.owned owner.now) count (is_marked marks.new.items) state }
    ensures counted { result ≡ true → marked_count marks.new.items < marked_count marks.old.items }
{
    if !is_marked(marks, state) || are_alike(auto, owner, count, marks, state) {
        return false;
    }
    marks[state.number()] = false;
    true
}

/// Does so for each state, from the last one on, and says whether any mark is gone.
fn unmark<H: TellsVariables>(auto: &Auto, owner: &H, count: usize, marks: &mut Vec<bool>) -> bool
    requires { length marks.old.items ≡ length auto.now }
    ensures sized { length marks.new.items ≡ length auto.now }
    ensures kept { (set : StateView → Bool) → IsAlikeSet auto.now (H.owned owner.now) count set → IsIn set (is_marked marks.old.items) → IsIn set (is_marked marks.new.items) }
    ensures alike { result ≡ false → IsAlikeSet auto.now (H.owned owner.now) count (is_marked marks.new.items) }
    ensures counted { result ≡ true → marked_count marks.new.items < marked_count marks.old.items }
{
    let mut changed = false;
    let states = auto.len();
    for done in 0..states {
        let state = auto.state(states - 1 - done);
        if unmark_state(auto, owner, count, marks, state) {
            changed = true;
        }
    }
    changed
}

/// Marks the states of an automaton each of which gives each of so many variables nothing, or all
/// that it takes, by moves that all belong to the variable or none does, with nothing of it in
/// contents: the largest set of states that go on to one another so.
///
/// Where such states accept everything they may be left out of points
/// ([`bindings`](crate::bindings)). Each pass over the marked states takes the time of their moves
/// for the variables that are listed at a move and at the first moves before and after it, however
/// many others there are. A pass goes from the last state to the first. What a state leads to mostly
/// has a higher number, so few passes mostly do; at most there are as many as states that lead one
/// after another to one that isn't such.
pub fn alike_states<H: TellsVariables>(
    alloc: Global,
    auto: &Auto,
    owner: &H,
    count: usize,
) -> Result<Vec<bool>, NoMemory>
    ensures gives { IfOk result (λ marks. (x : ℕ) → x < count → (s : StateView) → is_marked marks.items s ≡ true → GivesAlike auto.now (H.owned owner.now x) s) }
    ensures largest { IfOk result (λ marks. (set : StateView → Bool) → ((s : StateView) → set s ≡ true → IsState auto.now s) → IsAlikeSet auto.now (H.owned owner.now) count set → IsIn set (is_marked marks.items)) }
{
    let mut marks = vec![in alloc; true; auto.len()]?;
    while unmark(auto, owner, count, &mut marks) {}
    Ok(marks)
}
