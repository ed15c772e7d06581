//! What is written for contents: a name, or a type in place.

ghost use Rattle.std.specs.Prelude.{◌≡◌, ◌<◌, ◌∷◌, [], true, IfOk, OnOk, length};
ghost use Rattle.std.specs.List.{AllByRecursion};
ghost use Rattle.std.specs.Option.{IfSome};
ghost use Rattle.xd_auto.specs.Automaton.{Automaton, IsState, state_number};
ghost use Rattle.xd_auto.specs.declared.auto.LabelMove.{LabelMove};
ghost use Rattle.xd_auto.specs.declared.auto.State.{State};
ghost use Rattle.xd_boole.specs.Universal.{MarkUniversal};
ghost use Rattle.xd_empty.specs.Parts.{is_marked};
ghost use Rattle.xd_same_types.specs.Grown.{GrowsTypes};
ghost use Rattle.xd_show_solve.specs.Levels.{AreWritten, IsWritten, MeansAny, WrittenBelong};
ghost use Rattle.xd_syntax.specs.Keywords.{is_type_name};
ghost use Rattle.xd_show.specs.Contents.{AreAllWritten, AreContentsBy, AreFirst, GrowsContents, GrowsNames, IsTypeOf, MeansState, MeansStates};

use crate::plan::Plan;
use std::alloc::Global;
use xd_auto::{Auto, LabelMove, State};
use xd_boole::is_marked;
use xd_doc::{Label, NoMemory};
use xd_same_types::{Pool, any_type, name_type};
use xd_show_solve::{level_of, state_type};
use xd_syntax::TypeId;

/// Whether anything is written for the state as a content.
fn is_written(written: &[Option<TypeId>], state: State) -> bool
    ensures { result ≡ true → IsWritten written.now state }
{
    if state.number() < written.len() {
        written[state.number()].is_some()
    } else {
        false
    }
}

/// Whether something is written for the contents of these moves.
fn are_written(written: &[Option<TypeId>], moves: &[LabelMove]) -> bool
    ensures { result ≡ true → AllByRecursion (λ (m : LabelMove). IsWritten written.now m.content) moves.now }
{
    for step in moves {
        if !is_written(written, step.content) {
            return false;
        }
    }
    true
}

/// Whether something is written for each content of the moves of these states.
fn is_level_written(auto: &Auto, written: &[Option<TypeId>], states: &[State]) -> bool
    requires { AllByRecursion (IsState auto.now) states.now }
    ensures { result ≡ true → AreWritten auto.now written.now states.now }
{
    for number in 0..states.len() {
        let state = states[number];
        if !are_written(written, auto.label_moves(state)) {
            return false;
        }
    }
    true
}

/// Whether something is written for each content of each move.
pub(crate) fn are_all_written(auto: &Auto, written: &[Option<TypeId>]) -> bool
    ensures { result ≡ true → AreAllWritten auto.now written.now }
{
    for number in 0..auto.len() {
        if !are_written(written, auto.label_moves(auto.state(number))) {
            return false;
        }
    }
    true
}

/// The type of a state, where all that it needs is written.
fn content_type(
    alloc: Global,
    pool: &mut Pool,
    auto: &Auto,
    universal: &[bool],
    written: &[Option<TypeId>],
    state: State,
) -> Result<Option<TypeId>, NoMemory>
    requires state { IsState auto.now state }
    requires universal { MarkUniversal auto.now universal.now }
    requires written { WrittenBelong pool.old.types written.now }
    ensures found { IfOk result (λ found. IfSome found (IsTypeOf MeansAny auto.now pool.old.types written.now state pool.new.types)) }
    ensures keeps { GrowsTypes pool.old.types pool.new.types }
{
    let level = level_of(alloc, auto, state)?;
    if is_level_written(auto, written, &level.states) {
        state_type(alloc, pool, auto, written, universal, &level, state)
    } else {
        Ok(None)
    }
}

/// Writes a content in place, where nothing is written for it yet, and all that it needs is.
fn write_in_place(
    alloc: Global,
    pool: &mut Pool,
    auto: &Auto,
    universal: &[bool],
    written: &mut Vec<Option<TypeId>>,
    state: State,
) -> Result<(), NoMemory>
    requires state { IsState auto.now state }
    requires universal { MarkUniversal auto.now universal.now }
    requires count { length written.old.items ≡ length auto.now }
    requires belong { WrittenBelong pool.old.types written.old.items }
    ensures contents { OnOk result (GrowsContents MeansAny auto.now pool.old.types written.old.items pool.new.types written.new.items) }
    ensures keeps { GrowsTypes pool.old.types pool.new.types }
{
    if is_written(written, state) {
        return Ok(());
    }
    if let Some(id) = content_type(alloc, pool, auto, universal, written, state)? {
        written[state.number()] = Some(id);
    }
    Ok(())
}

/// Writes contents in place, one after the other.
fn write_placed(
    alloc: Global,
    pool: &mut Pool,
    auto: &Auto,
    universal: &[bool],
    written: &mut Vec<Option<TypeId>>,
    placed: &[State],
) -> Result<(), NoMemory>
    requires placed { AllByRecursion (IsState auto.now) placed.now }
    requires universal { MarkUniversal auto.now universal.now }
    requires count { length written.old.items ≡ length auto.now }
    requires belong { WrittenBelong pool.old.types written.old.items }
    ensures contents { OnOk result (GrowsContents MeansAny auto.now pool.old.types written.old.items pool.new.types written.new.items) }
    ensures keeps { GrowsTypes pool.old.types pool.new.types }
{
    for number in 0..placed.len() {
        write_in_place(alloc, pool, auto, universal, written, placed[number])?;
    }
    Ok(())
}

/// Writes a content as a name, where nothing is written for it yet.
fn write_name(
    pool: &mut Pool,
    written: &mut Vec<Option<TypeId>>,
    state: State,
    name: &Label,
) -> Result<(), NoMemory>
    requires within { state_number state < length written.old.items }
    requires name { is_type_name name.now ≡ true }
    requires belong { WrittenBelong pool.old.types written.old.items }
    ensures contents { OnOk result ((a : Automaton) → GrowsContents (MeansState a name.now state) a pool.old.types written.old.items pool.new.types written.new.items) }
    ensures written { OnOk result (IsWritten written.new.items state) }
    ensures grows { GrowsNames (name.now ∷ []) pool.old.types pool.new.types }
{
    if is_written(written, state) {
        return Ok(());
    }
    let id = name_type(pool, name.share()?)?;
    written[state.number()] = Some(id);
    Ok(())
}

/// Writes contents as names.
fn write_names(
    pool: &mut Pool,
    written: &mut Vec<Option<TypeId>>,
    named: &[State],
    names: &[Label],
) -> Result<(), NoMemory>
    requires within { AllByRecursion (λ (s : State). state_number s < length written.old.items) named.now }
    requires names { AllByRecursion (λ w. is_type_name w ≡ true) names.now }
    requires count { length names.now ≡ length named.now }
    requires belong { WrittenBelong pool.old.types written.old.items }
    ensures contents { OnOk result ((a : Automaton) → GrowsContents (MeansStates a names.now named.now) a pool.old.types written.old.items pool.new.types written.new.items) }
    ensures written { OnOk result (AllByRecursion (IsWritten written.new.items) named.now) }
    ensures grows { GrowsNames names.now pool.old.types pool.new.types }
{
    for number in 0..named.len() {
        write_name(pool, written, named[number], &names[number])?;
    }
    Ok(())
}

/// `Any` for a state that is marked to accept every document, and nothing for another.
fn first_content(universal: &[bool], any: TypeId, state: State) -> Option<TypeId>
    ensures { IfSome result (λ id. (id ≡ any) × (is_marked universal.now state ≡ true)) }
{
    if is_marked(universal, state) {
        Some(any)
    } else {
        None
    }
}

/// The same for each state.
fn first_contents(
    alloc: Global,
    pool: &mut Pool,
    auto: &Auto,
    universal: &[bool],
) -> Result<Vec<Option<TypeId>>, NoMemory>
    requires { MarkUniversal auto.now universal.now }
    ensures first { IfOk result (λ made. AreFirst auto.now pool.new.types made.items) }
    ensures keeps { GrowsTypes pool.old.types pool.new.types }
{
    let any = any_type(alloc, pool)?;
    let mut made = Vec::new(alloc);
    for number in 0..auto.len() {
        made.push(first_content(universal, any, auto.state(number)))?;
    }
    Ok(made)
}

/// What is written for the contents of an automaton by a plan: a name for each state that has one,
/// and types in place.
pub(crate) fn contents_by(
    alloc: Global,
    pool: &mut Pool,
    auto: &Auto,
    universal: &[bool],
    plan: &Plan,
    names: &[Label],
) -> Result<Vec<Option<TypeId>>, NoMemory>
    requires none { pool.old.types ≡ [] }
    requires universal { MarkUniversal auto.now universal.now }
    requires named { AllByRecursion (IsState auto.now) plan.now.named.items }
    requires placed { AllByRecursion (IsState auto.now) plan.now.placed.items }
    requires names { AllByRecursion (λ w. is_type_name w ≡ true) names.now }
    requires count { length names.now ≡ length plan.now.named.items }
    ensures contents { IfOk result (λ made. AreContentsBy auto.now names.now plan.now.named.items pool.new.types made.items) }
    ensures written { IfOk result (λ made. AllByRecursion (IsWritten made.items) plan.now.named.items) }
{
    let mut written = first_contents(alloc, pool, auto, universal)?;
    write_names(pool, &mut written, &plan.named, names)?;
    write_placed(alloc, pool, auto, universal, &mut written, &plan.placed)?;
    Ok(written)
}
