//! Laws of the definitions, as the contract of a function that does nothing.

ghost use Rattle.std.specs.Prelude.{ℕ};
ghost use Rattle.xd_base.specs.Outside.{HasRisen};
ghost use Rattle.xd_command_steps.specs.Laws.{StepsAreOne, CountsTellNothing};

/// Where the shelf tells what it holds, each step that reads a text ends in one way: with one
/// output or with one thing that it finds. The count of the shelf's faults licenses status 3, and
/// nothing else.
pub fn steps_are_one()
    ensures one { StepsAreOne }
    ensures counts { (before after : ℕ) → CountsTellNothing (HasRisen before after) }
{}
