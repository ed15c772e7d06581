//! The type of a state, where the types of contents are known.

ghost use Rattle.std.specs.Prelude.{◌≡◌, ◌<◌, IfOk, length, get_or};
ghost use Rattle.std.specs.Option.{IfSome};
ghost use Rattle.xd_boole.specs.Universal.{MarkUniversal};
ghost use Rattle.xd_same_types.specs.Grown.{GrowsTypes};
ghost use Rattle.xd_syntax.specs.Types.{BelongsTo};
ghost use Rattle.xd_show_solve.specs.Levels.{AreStateSums, AreWritten, IsStateType, IsWholeLevel, WrittenBelong};
ghost use Rattle.xd_show_solve.specs.Systems.{AllStand};

use crate::places::Level;
use crate::reduce::reduced;
use crate::rows::state_sum;
use crate::solve::solution;
use crate::sums::Sum;
use std::alloc::Global;
use xd_auto::{Auto, State};
use xd_doc::NoMemory;
use xd_same_types::Pool;
use xd_syntax::TypeId;

/// The sums of the states of a level.
fn level_sums(
    alloc: Global,
    pool: &mut Pool,
    auto: &Auto,
    written: &[Option<TypeId>],
    universal: &[bool],
    level: &Level,
) -> Result<Vec<Sum>, NoMemory>
    requires whole { IsWholeLevel auto.now level.now.states.items level.now.places.items }
    requires contents { AreWritten auto.now written.now level.now.states.items }
    requires written { WrittenBelong pool.old.types written.now }
    requires universal { MarkUniversal auto.now universal.now }
    ensures sums { IfOk result (λ sums. AreStateSums auto.now pool.old.types written.now level.now.places.items level.now.states.items pool.new.types sums.items) }
    ensures count { IfOk result (λ sums. length sums.items ≡ length level.now.states.items) }
    ensures stand { IfOk result (λ sums. AllStand pool.new.types sums.items) }
    ensures keeps { GrowsTypes pool.old.types pool.new.types }
{
    let mut sums = Vec::new(alloc);
    for number in 0..level.states.len() {
        let state = level.states[number];
        let sum = state_sum(alloc, pool, auto, written, universal, &level.places, state)?;
        sums.push(sum)?;
    }
    Ok(sums)
}

/// The type of what the first state of a level accepts; `None` where it accepts nothing.
///
/// `written` has, by the number of a state, the type that stands for it as the content of a label:
/// a name, or a type that was made before. `universal` marks states that accept every document, as
/// `universal_states` of `xd_boole` does; these are written as `Any`. What is in the table stays,
/// and no name is added but `Any`.
///
/// The states of the level are unknowns of equations, which are solved for one after the other (J.
/// A. Brzozowski and E. J. McCluskey, Signal flow graph techniques for sequential circuit state
/// diagrams, 1963) by the rule of D. N. Arden (Delayed logic and finite-state machines, 1961), in
/// the order of M. Delgado and J. Morais (Approximation to the smallest regular expression for a
/// given regular language, 2004). The type may be exponentially long in the states of the level, as
/// regular expressions for automata may be. Fails only where memory is refused; the table may have
/// more types then, and keeps its old ones.
pub fn state_type(
    alloc: Global,
    pool: &mut Pool,
    auto: &Auto,
    written: &[Option<TypeId>],
    universal: &[bool],
    level: &Level,
    start: State,
) -> Result<Option<TypeId>, NoMemory>
    requires whole { IsWholeLevel auto.now level.now.states.items level.now.places.items }
    requires some { 0 < length level.now.states.items }
    requires first { get_or level.now.states.items 0 start ≡ start }
    requires contents { AreWritten auto.now written.now level.now.states.items }
    requires written { WrittenBelong pool.old.types written.now }
    requires universal { MarkUniversal auto.now universal.now }
    ensures exact { IfOk result (IsStateType auto.now pool.old.types written.now start pool.new.types) }
    ensures belongs { IfOk result (λ found. IfSome found (BelongsTo pool.new.types)) }
    ensures keeps { GrowsTypes pool.old.types pool.new.types }
{
    let sums = level_sums(alloc, pool, auto, written, universal, level)?;
    let few = reduced(alloc, pool, &sums)?;
    solution(alloc, pool, few)
}
