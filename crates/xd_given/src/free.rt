//! Which points can be completed without a variable.

ghost use Rattle.std.specs.Prelude.{◌≡◌, ◌<◌, Bool, true, false, IfOk, length};
ghost use Rattle.xd_auto.specs.declared.auto.State.{State as StateView};
ghost use Rattle.xd_auto.specs.Automaton.{IsState, moves_at, state_number};
ghost use Rattle.xd_bind.specs.Marks.{unmarked};
ghost use Rattle.xd_bind.specs.Owning.{is_owned};
ghost use Rattle.xd_empty.specs.Parts.{is_marked};
ghost use Rattle.xd_points.specs.Tables.{left_of, point_count};
ghost use Rattle.xd_given.specs.Free.{AreFree, AreSettled, AreSound, GoesNowhere, GoesOn, GoesOnBy, NoneGoesOn, goes_free, inside_in};
ghost use Rattle.xd_given.specs.Outline.{can_stop, leaf_free};
ghost use Rattle.xd_given.specs.Owning.{point_moves};

use crate::owner::{PointOwner, leaf_free};
use std::alloc::Global;
use xd_auto::{Auto, Ends, LabelMove, Leads, State, TextMove};
use xd_bind::Holds;
use xd_boole::is_marked;
use xd_doc::NoMemory;
use xd_least::LeastInhabitants;

/// Whether the state inside a move, where there is one, is marked.
pub(crate) fn is_inside_marked(marks: &[bool], inside: Option<State>) -> bool
    ensures { result ≡ inside_in (is_marked marks.now) inside }
{
    match inside {
        Some(inside) => is_marked(marks, inside),
        None => true,
    }
}

/// Whether a move of a kind doesn't belong to the variable, and leads to marked states.
fn goes_free<M: Leads, H: Holds>(
    owner: &H,
    variable: usize,
    marks: &[bool],
    state: State,
    number: usize,
    ends: Ends,
) -> bool
    ensures { result ≡ goes_free (is_owned (H.owned owner.now variable) M.KIND state) (is_marked marks.now) number ends }
{
    is_inside_marked(marks, ends.inside)
        && (is_marked(marks, ends.behind) && !owner.holds(state, M::KIND, number, variable))
}

/// Whether some move of a state does, of this kind.
fn goes_on_by<M: Leads, H: Holds>(
    auto: &Auto,
    owner: &H,
    variable: usize,
    marks: &[bool],
    state: State,
) -> bool
    requires { IsState auto.now state }
    ensures some { result ≡ true → GoesOnBy M.Filled M.ends_of (is_owned (H.owned owner.now variable) M.KIND state) (is_marked marks.now) (M.moves_in (moves_at auto.now state)) }
    ensures none { result ≡ false → NoneGoesOn M.ends_of (is_owned (H.owned owner.now variable) M.KIND state) (is_marked marks.now) (M.moves_in (moves_at auto.now state)) }
{
    let moves = M::moves(auto, state);
    for number in 0..moves.len() {
        let ends = moves[number].ends();
        if goes_free::<M, H>(owner, variable, marks, state, number, ends) {
            return true;
        }
    }
    false
}

/// Whether some move of a state does.
fn goes_on<H: Holds>(auto: &Auto, owner: &H, variable: usize, marks: &[bool], state: State) -> bool
    requires { IsState auto.now state }
    ensures some { result ≡ true → GoesOn auto.now (H.owned owner.now variable) (is_marked marks.now) state }
    ensures none { result ≡ false → GoesNowhere auto.now (H.owned owner.now variable) (is_marked marks.now) state }
{
    goes_on_by::<LabelMove, H>(auto, owner, variable, marks, state)
        || goes_on_by::<TextMove, H>(auto, owner, variable, marks, state)
}

/// Marks a state some move of which does, and says whether it had no mark.
fn mark_state<H: Holds>(
    auto: &Auto,
    owner: &H,
    variable: usize,
    marks: &mut Vec<bool>,
    state: State,
) -> bool
    requires state { IsState auto.now state }
    requires sized { length marks.old.items ≡ length auto.now }
    ensures sized { length marks.new.items ≡ length auto.now }
    ensures kept { (s : StateView) → is_marked marks.old.items s ≡ true → is_marked marks.new.items s ≡ true }
    ensures sound { (s : StateView) → is_marked marks.new.items s ≡ true → is_marked marks.old.items s ≡ false → GoesOn auto.now (H.owned owner.now variable) (is_marked marks.old.items) s }
    ensures same { result ≡ false → marks.new.items ≡ marks.old.items }
    ensures settled { result ≡ false → is_marked marks.new.items state ≡ false → GoesNowhere auto.now (H.owned owner.now variable) (is_marked marks.new.items) state }
    ensures counted { result ≡ true → unmarked marks.new.items < unmarked marks.old.items }
{
    if is_marked(marks, state) || !goes_on(auto, owner, variable, marks, state) {
        return false;
    }
    marks[state.number()] = true;
    true
}

/// Does so for each state, from the last one on, and says whether any is newly marked.
fn mark_all<H: Holds>(auto: &Auto, owner: &H, variable: usize, marks: &mut Vec<bool>) -> bool
    requires { length marks.old.items ≡ length auto.now }
    ensures sized { length marks.new.items ≡ length auto.now }
    ensures kept { (s : StateView) → is_marked marks.old.items s ≡ true → is_marked marks.new.items s ≡ true }
    ensures sound { (stops : StateView → Bool) → AreSound auto.now (H.owned owner.now variable) stops (is_marked marks.old.items) → AreSound auto.now (H.owned owner.now variable) stops (is_marked marks.new.items) }
    ensures settled { result ≡ false → AreSettled auto.now (H.owned owner.now variable) (is_marked marks.new.items) }
    ensures counted { result ≡ true → unmarked marks.new.items < unmarked marks.old.items }
{
    let mut changed = false;
    let count = auto.len();
    for done in 0..count {
        let state = auto.state(count - 1 - done);
        if mark_state(auto, owner, variable, marks, state) {
            changed = true;
        }
    }
    changed
}

/// Whether a point can be completed without the variable with no more moves: by nothing, or where
/// it means what its left accepts, by that.
fn can_stop<H: Holds>(
    auto: &Auto,
    of: &PointOwner<H>,
    known: &LeastInhabitants,
    variable: usize,
    point: State,
) -> bool
    requires point { state_number point < point_count of.now.table.now }
    requires drawn { IsState of.now.drawing.now point }
    requires left { IsState auto.now (left_of of.now.table.now point) }
    ensures { result ≡ can_stop of.now.patterns.now of.now.table.now (leaf_free auto.now of.now.table.now (H.owned of.now.owner.now variable) known.now) of.now.drawing.now point }
{
    if of.table.is_left(of.patterns, point) {
        leaf_free(of, auto, known, variable, point)
    } else {
        of.drawing.is_last(point)
    }
}

/// For each point whether it can.
fn stops_of<H: Holds>(
    alloc: Global,
    auto: &Auto,
    of: &PointOwner<H>,
    known: &LeastInhabitants,
    variable: usize,
) -> Result<Vec<bool>, NoMemory>
    requires count { length of.now.drawing.now ≡ point_count of.now.table.now }
    requires lefts { (s : StateView) → state_number s < point_count of.now.table.now → IsState auto.now (left_of of.now.table.now s) }
    ensures len { IfOk result (λ stops. length stops.items ≡ length of.now.drawing.now) }
    ensures stops { IfOk result (λ stops. (s : StateView) → IsState of.now.drawing.now s → is_marked stops.items s ≡ can_stop of.now.patterns.now of.now.table.now (leaf_free auto.now of.now.table.now (H.owned of.now.owner.now variable) known.now) of.now.drawing.now s) }
{
    let mut stops = Vec::new(alloc);
    for number in 0..of.drawing.len() {
        let point = of.drawing.state(number);
        stops.push(can_stop(auto, of, known, variable, point))?;
    }
    Ok(stops)
}

/// For each point whether it can be completed without the variable.
///
/// Points that can't yet be are gone through again until none is found any more. What a point leads
/// to mostly has a higher number, so two passes mostly do.
pub(crate) fn free_points<H: Holds>(
    alloc: Global,
    auto: &Auto,
    of: &PointOwner<H>,
    known: &LeastInhabitants,
    variable: usize,
) -> Result<Vec<bool>, NoMemory>
    requires count { length of.now.drawing.now ≡ point_count of.now.table.now }
    requires lefts { (s : StateView) → state_number s < point_count of.now.table.now → IsState auto.now (left_of of.now.table.now s) }
    ensures len { IfOk result (λ free. length free.items ≡ length of.now.drawing.now) }
    ensures free { IfOk result (λ free. AreFree of.now.drawing.now (point_moves of.now.table.now (H.owned of.now.owner.now variable)) (can_stop of.now.patterns.now of.now.table.now (leaf_free auto.now of.now.table.now (H.owned of.now.owner.now variable) known.now) of.now.drawing.now) (is_marked free.items)) }
{
    let mut marks = stops_of(alloc, auto, of, known, variable)?;
    while mark_all(of.drawing, of, variable, &mut marks) {}
    Ok(marks)
}
