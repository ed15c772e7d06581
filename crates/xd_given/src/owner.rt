//! Whose the moves of points are.

ghost use Rattle.std.specs.Prelude.{◌≡◌, ◌<◌};
ghost use Rattle.xd_auto.specs.Automaton.{IsState, state_number};
ghost use Rattle.xd_points.specs.Tables.{left_of, point_count};
ghost use Rattle.xd_given.specs.Blocks.{is_tail};
ghost use Rattle.xd_given.specs.Outline.{leaf_free};
ghost use Rattle.xd_given.specs.Owning.{owns_first};

use xd_auto::{Auto, State};
use xd_bind::{Holds, MoveKind};
use xd_doc::Label;
use xd_least::LeastInhabitants;
use xd_points::{PatternStates, PointTable};

/// Variables of patterns, and what says which moves of the patterns belong to which of them, by
/// their numbers.
pub struct PatternVariables<'a, H: Holds> {
    pub patterns: &'a PatternStates,
    pub owner: &'a H,
    pub variables: &'a [Label],
}

impl<H: Holds> Drop for PatternVariables<'_, H> {
    fn drop(self) {
        let PatternVariables {
            patterns: _,
            owner: _,
            variables: _,
        } = self;
    }
}

/// Points and their moves, and what says which moves of their pattern belong to which variables.
pub(crate) struct PointOwner<'a, H: Holds> {
    pub(crate) table: &'a PointTable,
    pub(crate) patterns: &'a PatternStates,
    /// The points' moves; none where a point means what its left accepts.
    pub(crate) drawing: &'a Auto,
    pub(crate) owner: &'a H,
}

impl<H: Holds> Drop for PointOwner<'_, H> {
    fn drop(self) {
        let PointOwner {
            table: _,
            patterns: _,
            drawing: _,
            owner: _,
        } = self;
    }
}

impl<H: Holds> Holds for PointOwner<'_, H> {
    ghost use Rattle.xd_given.specs.Owning.{point_moves};

    ghost owned = { λ o x. point_moves o.table.now (H.owned o.owner.now x) };

    fn holds(&self, state: State, kind: MoveKind, number: usize, variable: usize) -> bool {
        if state.number() >= self.table.count() {
            return false;
        }
        let pattern = self.table.pattern(state);
        let origin = match kind {
            MoveKind::Label => self.table.label_origin(state, number),
            MoveKind::Text => self.table.text_origin(state, number),
        };
        self.owner.holds(pattern, kind, origin, variable)
    }
}

/// Whether a first move of a pattern's state belongs to the variable. Where the state may be left
/// out, it then gives the variable all that it takes.
pub(crate) fn owns_first<H: Holds>(owner: &H, variable: usize, pattern: State) -> bool
    ensures { result ≡ owns_first (H.owned owner.now variable) pattern }
{
    owner.holds(pattern, MoveKind::Label, 0, variable)
        || owner.holds(pattern, MoveKind::Text, 0, variable)
}

/// Whether the variable is given all that comes at a point, which is what the left accepts.
pub(crate) fn is_tail<H: Holds>(of: &PointOwner<H>, variable: usize, point: State) -> bool
    requires { state_number point < point_count of.now.table.now }
    ensures { result ≡ is_tail of.now.patterns.now of.now.table.now (H.owned of.now.owner.now variable) point }
{
    of.table.is_left(of.patterns, point) && owns_first(of.owner, variable, of.table.pattern(point))
}

/// Whether a point that means what its left accepts can be completed without the variable.
pub(crate) fn leaf_free<H: Holds>(
    of: &PointOwner<H>,
    auto: &Auto,
    known: &LeastInhabitants,
    variable: usize,
    point: State,
) -> bool
    requires point { state_number point < point_count of.now.table.now }
    requires left { IsState auto.now (left_of of.now.table.now point) }
    ensures { result ≡ leaf_free auto.now of.now.table.now (H.owned of.now.owner.now variable) known.now point }
{
    let left = of.table.left(point);
    if owns_first(of.owner, variable, of.table.pattern(point)) {
        auto.is_last(left)
    } else {
        known.document(left).is_some()
    }
}
