//! The automata of points.

ghost use Rattle.xd_points.specs.Meaning.{ServePoints};

use crate::patterns::PatternStates;
use xd_auto::Auto;

/// What the lefts and the patterns of points are states of.
#[derive(Clone, Copy)]
pub(crate) struct Automata<'a> {
    pub(crate) lefts: &'a Auto,
    pub(crate) patterns: &'a PatternStates,
    ghost serve: { ServePoints lefts.now patterns.now },
}
