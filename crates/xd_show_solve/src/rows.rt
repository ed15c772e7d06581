//! The moves of states as sums.

ghost use Rattle.std.specs.Prelude.{◌≡◌, ◌<◌, ◌++◌, [], Some, IfOk, OnOk, length};
ghost use Rattle.std.specs.List.{AllByRecursion};
ghost use Rattle.std.specs.Option.{IfSome};
ghost use Rattle.xd_auto.specs.Automaton.{Automaton, IsState, moves_at};
ghost use Rattle.xd_boole.specs.Universal.{MarkUniversal};
ghost use Rattle.xd_same_types.specs.Grown.{GrowsTypes};
ghost use Rattle.xd_syntax.specs.Tree.{Name};
ghost use Rattle.xd_syntax.specs.Words.{any_word};
ghost use Rattle.xd_syntax.specs.Types.{BelongsTo};
ghost use Rattle.xd_syntax.specs.declared.types.TypeId.{TypeId};
ghost use Rattle.xd_show_solve.specs.Equations.{SumStands, TermsStand, own_in, product_in, products, side_in};
ghost use Rattle.xd_show_solve.specs.Levels.{AreLabelProducts, AreTextProducts, IsLabelProduct, IsPlaced, IsTextProduct, IsReady, IsStateSide, IsWritten, TextsArePlaced, WrittenBelong, known_of, last_tree};

use crate::sums::{Sum, Term};
use std::alloc::Global;
use xd_auto::{Auto, LabelMove, State, TextMove};
use xd_boole::is_marked;
use xd_doc::NoMemory;
use xd_same_types::{Pool, any_type, node, words_type};
use xd_syntax::{TypeForm, TypeId};

/// The place of a state that has one.
fn place_at(places: &[Option<usize>], state: State) -> usize
    requires { IsPlaced places.now state }
    ensures { known_of places.now state ≡ Some result }
{
    match places[state.number()] {
        Some(place) => place,
        None => unreachable!(),
    }
}

/// What is written for a content of a state, where that is known.
fn written_at(written: &[Option<TypeId>], state: State) -> TypeId
    requires { IsWritten written.now state }
    ensures { known_of written.now state ≡ Some result }
{
    match written[state.number()] {
        Some(content) => content,
        None => unreachable!(),
    }
}

/// A move on an element as a term.
fn label_term(
    pool: &mut Pool,
    written: &[Option<TypeId>],
    places: &[Option<usize>],
    step: &LabelMove,
) -> Result<Term, NoMemory>
    requires ready { IsReady written.now places.now step.now }
    requires written { WrittenBelong pool.old.types written.now }
    ensures product { IfOk result (λ term. (a : Automaton) → IsLabelProduct a pool.old.types written.now places.now step.now (product_in pool.new.types term)) }
    ensures belongs { IfOk result (λ term. BelongsTo pool.new.types term.by) }
    ensures keeps { GrowsTypes pool.old.types pool.new.types }
{
    let content = written_at(written, step.content);
    let to = place_at(places, step.rest);
    let by = node(pool, TypeForm::Elem(step.class.share()?, content))?;
    Ok(Term { by, to })
}

/// Moves on an element as terms, each as one.
fn label_terms(
    alloc: Global,
    pool: &mut Pool,
    written: &[Option<TypeId>],
    places: &[Option<usize>],
    moves: &[LabelMove],
) -> Result<Vec<Term>, NoMemory>
    requires ready { AllByRecursion (IsReady written.now places.now) moves.now }
    requires written { WrittenBelong pool.old.types written.now }
    ensures products { IfOk result (λ terms. (a : Automaton) → AreLabelProducts a pool.old.types written.now places.now moves.now (products pool.new.types terms.items)) }
    ensures stand { IfOk result (λ terms. TermsStand pool.new.types terms.items) }
    ensures keeps { GrowsTypes pool.old.types pool.new.types }
{
    let mut terms = Vec::new(alloc);
    for step in moves {
        terms.push(label_term(pool, written, places, step)?)?;
    }
    Ok(terms)
}

/// A move on a text as a term.
fn text_term(
    alloc: Global,
    pool: &mut Pool,
    places: &[Option<usize>],
    step: &TextMove,
) -> Result<Term, NoMemory>
    requires { IsPlaced places.now step.now.rest }
    ensures product { IfOk result (λ term. (a : Automaton) → IsTextProduct a places.now step.now (product_in pool.new.types term)) }
    ensures belongs { IfOk result (λ term. BelongsTo pool.new.types term.by) }
    ensures keeps { GrowsTypes pool.old.types pool.new.types }
{
    let to = place_at(places, step.rest);
    let by = words_type(alloc, pool, &step.words)?;
    Ok(Term { by, to })
}

/// Moves on a text as terms, each as one.
fn text_terms(
    alloc: Global,
    pool: &mut Pool,
    places: &[Option<usize>],
    moves: &[TextMove],
) -> Result<Vec<Term>, NoMemory>
    requires { TextsArePlaced places.now moves.now }
    ensures products { IfOk result (λ terms. (a : Automaton) → AreTextProducts a places.now moves.now (products pool.new.types terms.items)) }
    ensures stand { IfOk result (λ terms. TermsStand pool.new.types terms.items) }
    ensures keeps { GrowsTypes pool.old.types pool.new.types }
{
    let mut terms = Vec::new(alloc);
    for step in moves {
        terms.push(text_term(alloc, pool, places, step)?)?;
    }
    Ok(terms)
}

/// Puts terms after others.
fn add_terms(terms: &mut Vec<Term>, more: &[Term]) -> Result<(), NoMemory>
    ensures { OnOk result (terms.new.items ≡ terms.old.items ++ more.now) }
{
    for term in more {
        terms.push(*term)?;
    }
    Ok(())
}

/// The empty type, where a run may end.
fn last_type(pool: &mut Pool, last: bool) -> Result<Option<TypeId>, NoMemory>
    ensures tree { IfOk result (λ o. own_in pool.new.types o ≡ last_tree last) }
    ensures belongs { IfOk result (λ o. IfSome o (BelongsTo pool.new.types)) }
    ensures keeps { GrowsTypes pool.old.types pool.new.types }
{
    if !last {
        return Ok(None);
    }
    let id = node(pool, TypeForm::Empty)?;
    Ok(Some(id))
}

/// The moves of a state as a sum.
fn moves_sum(
    alloc: Global,
    pool: &mut Pool,
    auto: &Auto,
    written: &[Option<TypeId>],
    places: &[Option<usize>],
    state: State,
) -> Result<Sum, NoMemory>
    requires state { IsState auto.now state }
    requires ready { AllByRecursion (IsReady written.now places.now) (moves_at auto.now state).labels }
    requires texts { TextsArePlaced places.now (moves_at auto.now state).texts }
    requires written { WrittenBelong pool.old.types written.now }
    ensures side { IfOk result (λ s. IsStateSide auto.now pool.old.types written.now places.now state (side_in pool.new.types s)) }
    ensures stands { IfOk result (SumStands pool.new.types) }
    ensures keeps { GrowsTypes pool.old.types pool.new.types }
{
    let mut terms = label_terms(alloc, pool, written, places, auto.label_moves(state))?;
    let texts = text_terms(alloc, pool, places, auto.text_moves(state))?;
    add_terms(&mut terms, &texts)?;
    let constant = last_type(pool, auto.is_last(state))?;
    Ok(Sum { terms, constant })
}

/// The name `Any` alone.
fn any_sum(alloc: Global, pool: &mut Pool) -> Result<Sum, NoMemory>
    ensures side { IfOk result (λ s. side_in pool.new.types s ≡ record { products = []; constant = Some (Name any_word) }) }
    ensures stands { IfOk result (SumStands pool.new.types) }
    ensures keeps { GrowsTypes pool.old.types pool.new.types }
{
    let any = any_type(alloc, pool)?;
    Ok(Sum {
        terms: Vec::new(alloc),
        constant: Some(any),
    })
}

/// What a state accepts as a sum: its moves, or `Any` where it is marked to accept every document.
pub(crate) fn state_sum(
    alloc: Global,
    pool: &mut Pool,
    auto: &Auto,
    written: &[Option<TypeId>],
    universal: &[bool],
    places: &[Option<usize>],
    state: State,
) -> Result<Sum, NoMemory>
    requires state { IsState auto.now state }
    requires universal { MarkUniversal auto.now universal.now }
    requires ready { AllByRecursion (IsReady written.now places.now) (moves_at auto.now state).labels }
    requires texts { TextsArePlaced places.now (moves_at auto.now state).texts }
    requires written { WrittenBelong pool.old.types written.now }
    ensures side { IfOk result (λ s. IsStateSide auto.now pool.old.types written.now places.now state (side_in pool.new.types s)) }
    ensures stands { IfOk result (SumStands pool.new.types) }
    ensures keeps { GrowsTypes pool.old.types pool.new.types }
{
    if is_marked(universal, state) {
        any_sum(alloc, pool)
    } else {
        moves_sum(alloc, pool, auto, written, places, state)
    }
}
