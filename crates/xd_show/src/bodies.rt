//! What names stand for, as types.

ghost use Rattle.std.specs.Prelude.{◌≡◌, ◌∷◌, [], true, IfOk, length};
ghost use Rattle.std.specs.List.{AllByRecursion};
ghost use Rattle.xd_auto.specs.Automaton.{IsState};
ghost use Rattle.xd_boole.specs.Universal.{MarkUniversal};
ghost use Rattle.xd_show_solve.specs.Levels.{WrittenBelong};
ghost use Rattle.xd_syntax.specs.Types.{BelongsTo};
ghost use Rattle.xd_syntax.specs.Words.{any_word};
ghost use Rattle.xd_syntax.specs.Keywords.{is_type_name};
ghost use Rattle.xd_show.specs.Contents.{AreAllWritten, AreBodiesBy, GrowsNames, IsTypeOf, MeansAnyAnd};

use std::alloc::Global;
use xd_auto::{Auto, State};
use xd_doc::{Label, NoMemory};
use xd_same_types::Pool;
use xd_show_solve::{level_of, state_type};
use xd_shown::none_around;
use xd_syntax::TypeId;

/// What the name of a state stands for; where the state accepts nothing, the label `none` around
/// the name.
fn body_of(
    alloc: Global,
    pool: &mut Pool,
    auto: &Auto,
    universal: &[bool],
    written: &[Option<TypeId>],
    state: State,
    name: &Label,
) -> Result<TypeId, NoMemory>
    requires state { IsState auto.now state }
    requires name { is_type_name name.now ≡ true }
    requires universal { MarkUniversal auto.now universal.now }
    requires written { AreAllWritten auto.now written.now }
    requires belong { WrittenBelong pool.old.types written.now }
    ensures body { IfOk result (IsTypeOf (MeansAnyAnd auto.now name.now state) auto.now pool.old.types written.now state pool.new.types) }
    ensures grows { GrowsNames (any_word ∷ name.now ∷ []) pool.old.types pool.new.types }
{
    let level = level_of(alloc, auto, state)?;
    match state_type(alloc, pool, auto, written, universal, &level, state)? {
        Some(id) => Ok(id),
        None => none_around(alloc, pool, name),
    }
}

/// What the names of states stand for, in order.
pub(crate) fn bodies_by(
    alloc: Global,
    pool: &mut Pool,
    auto: &Auto,
    universal: &[bool],
    written: &[Option<TypeId>],
    named: &[State],
    names: &[Label],
) -> Result<Vec<TypeId>, NoMemory>
    requires named { AllByRecursion (IsState auto.now) named.now }
    requires names { AllByRecursion (λ w. is_type_name w ≡ true) names.now }
    requires count { length names.now ≡ length named.now }
    requires universal { MarkUniversal auto.now universal.now }
    requires written { AreAllWritten auto.now written.now }
    requires belong { WrittenBelong pool.old.types written.now }
    ensures bodies { IfOk result (λ made. AreBodiesBy auto.now names.now named.now pool.old.types written.now pool.new.types made.items) }
    ensures grows { GrowsNames (any_word ∷ names.now) pool.old.types pool.new.types }
{
    let mut made = Vec::new(alloc);
    for number in 0..named.len() {
        let body = body_of(
            alloc,
            pool,
            auto,
            universal,
            written,
            named[number],
            &names[number],
        )?;
        made.push(body)?;
    }
    Ok(made)
}
