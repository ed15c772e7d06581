//! Laws of continuations, each the contract of a function that does nothing; and what `Any` stands
//! for, as a type of a program.
#![tactic(auto)]

ghost use Rattle.xd_continuations.specs.Laws.{PiecesMean, MeaningsAreOne, MovesAreHeads, MovesContinue, MovesDecide, SoundRecursInTail, FinitelyMany, BoundsStayInSound, BoundsGrow, TasksStand, TasksStep, TasksGive, StatesAccept, ProgramsAreMerged, MovesAreNoDeeper};

mod any;
mod bodies;
mod links;

pub use any::meaning_of_any;
pub use bodies::TypeBodies;
pub use links::{Internable, Interned, Link};

/// A continuation is the list of the pieces of the type that it means.
pub fn continuations_are_types()
    ensures pieces { PiecesMean }
    ensures one { MeaningsAreOne }
    ensures merged { ProgramsAreMerged }
{}

/// The moves of a continuation are the heads of the type that it means, and decide what fits it.
pub fn moves_are_heads()
    ensures heads { MovesAreHeads }
    ensures go_on { MovesContinue }
    ensures decide { MovesDecide }
{}

/// In a sound program each type leads to finitely many continuations.
pub fn continuations_are_few()
    ensures tail { SoundRecursInTail }
    ensures few { FinitelyMany }
{}

/// In a sound program a loop over continuations keeps them short.
pub fn bounds_stay()
    ensures bounds { BoundsStayInSound }
    ensures grow { BoundsGrow }
{}

/// What a continuation leads to is no deeper than it and the definitions.
pub fn continuations_are_no_deeper()
    ensures { MovesAreNoDeeper }
{}

/// In a sound program the tasks of a continuation are worked off, and give its moves.
pub fn tasks_give_moves()
    ensures stand { TasksStand }
    ensures step { TasksStep }
    ensures give { TasksGive }
{}

/// In a sound program a state that has the flag and the moves of a continuation accepts what the
/// continuation means.
pub fn states_accept()
    ensures { StatesAccept }
{}
