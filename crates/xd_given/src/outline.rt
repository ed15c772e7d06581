//! From which points the items of a variable can begin, and which points can be completed without
//! it.

ghost use Rattle.std.specs.Prelude.{◌≡◌, ◌<◌, false, IfOk, length};
ghost use Rattle.xd_auto.specs.declared.auto.State.{State as StateView};
ghost use Rattle.xd_auto.specs.Automaton.{ChangesOnly, IsState, moves_at, no_moves, state_number};
ghost use Rattle.xd_empty.specs.Parts.{is_marked};
ghost use Rattle.xd_points.specs.Tables.{left_of, point_count, points_of};
ghost use Rattle.xd_given.specs.Outline.{IsDrawing, IsOutline, leaf_free};

use crate::free::free_points;
use crate::owner::PointOwner;
use std::alloc::Global;
use xd_auto::{Auto, State};
use xd_bind::{Holds, copied, states_ahead};
use xd_doc::NoMemory;
use xd_least::LeastInhabitants;
use xd_points::{PatternStates, PointTable};

/// Which points can be completed without a variable, by their numbers, and which lie ahead of a
/// start.
#[derive(Drop)]
pub(crate) struct PointOutline {
    pub(crate) free: Vec<bool>,
    pub(crate) ahead: Vec<State>,
}

/// Takes the moves of a state away.
fn cut(alloc: Global, auto: &mut Auto, state: State)
    requires { IsState auto.old state }
    ensures cut { moves_at auto.new state ≡ no_moves false }
    ensures others { ChangesOnly state auto.old auto.new }
{
    auto.set_moves(state, Vec::new(alloc), Vec::new(alloc));
    auto.set_last(state, false);
}

/// The moves of the points; none where a point means what its left accepts.
pub(crate) fn draw(
    alloc: Global,
    table: &PointTable,
    patterns: &PatternStates,
) -> Result<Auto, NoMemory>
    requires { length (points_of table.now) ≡ point_count table.now }
    ensures { IfOk result (IsDrawing patterns.now table.now) }
{
    let mut drawing = copied(alloc, table.points())?;
    for number in 0..table.count() {
        let point = drawing.state(number);
        if table.is_left(patterns, point) {
            cut(alloc, &mut drawing, point);
        }
    }
    Ok(drawing)
}

/// The outline of points for a variable, from a start.
pub(crate) fn outline<H: Holds>(
    alloc: Global,
    auto: &Auto,
    of: &PointOwner<H>,
    known: &LeastInhabitants,
    variable: usize,
    start: State,
) -> Result<PointOutline, NoMemory>
    requires count { length of.now.drawing.now ≡ point_count of.now.table.now }
    requires lefts { (s : StateView) → state_number s < point_count of.now.table.now → IsState auto.now (left_of of.now.table.now s) }
    requires start { state_number start < point_count of.now.table.now }
    ensures count { IfOk result (λ outline. length outline.free.items ≡ point_count of.now.table.now) }
    ensures outline { IfOk result (λ outline. IsOutline of.now.patterns.now of.now.table.now (H.owned of.now.owner.now variable) (leaf_free auto.now of.now.table.now (H.owned of.now.owner.now variable) known.now) of.now.drawing.now start (is_marked outline.free.items) outline.ahead.items) }
{
    let free = free_points(alloc, auto, of, known, variable)?;
    let ahead = states_ahead(alloc, of.drawing, of, variable, &free, start)?;
    Ok(PointOutline { free, ahead })
}
