//! Which number a proof gives to each right head of a goal.

ghost use Rattle.std.specs.Prelude.{◌≡◌, ◌<◌, ◌+◌, ◌++◌, ◌^◌, cond, not, map, length, IfOk, OnOk};
ghost use Rattle.std.specs.List.{AllByRecursion};
ghost use Rattle.xd_auto.specs.Automaton.{Automaton};
ghost use Rattle.xd_heads.specs.Mirrors.{IsTypeState, Mirrors, sorts_at};
ghost use Rattle.xd_syntax.specs.Kept.{ProgramTable};
ghost use Rattle.xd_proof_make.specs.Few.{AreFew};
ghost use Rattle.xd_proof_make.specs.Places.{all_places, new_numbers, numbers_of};

use std::alloc::Global;
use xd_auto::State;
use xd_doc::NoMemory;
use xd_heads::Cells;

/// A right head: its number in a proof, and whether it is a text. It takes two words, so that fewer
/// fit into memory than there are numbers that a proof text can spell.
#[derive(Clone, Copy)]
pub(crate) struct Place {
    pub(crate) number: usize,
    pub(crate) is_text: bool,
}

/// Whether a head is of the sort that is wanted: the texts, or the elements.
fn is_wanted(texts: bool, is_text: bool) -> bool
    ensures { result ≡ cond texts is_text (not is_text) }
{
    if texts { is_text } else { !is_text }
}

/// Adds the heads of one sort, whose numbers are counted from the first.
fn add_places(
    places: &mut Vec<Place>,
    texts: bool,
    first: usize,
    sorts: &[bool],
) -> Result<(), NoMemory>
    requires { first + length sorts.now < 2 ^ 64 }
    ensures { OnOk result (new_numbers places.new.items ≡ new_numbers places.old.items ++ numbers_of texts first sorts.now) }
{
    for (index, is_text) in sorts.iter().enumerate() {
        if is_wanted(texts, *is_text) {
            places.push(Place {
                number: first + index,
                is_text: *is_text,
            })?;
        }
    }
    Ok(())
}

/// Of each state, which of its heads are texts.
pub(crate) fn all_sorts<'a>(
    alloc: Global,
    cells: &'a Cells,
    wanted: &[State],
) -> Result<Vec<&'a [bool]>, NoMemory>
    requires mirrors { (p : ProgramTable) × (a : Automaton) × Mirrors p cells.now a }
    requires states { AllByRecursion (IsTypeState cells.now) wanted.now }
    ensures { IfOk result (λ made. map (λ sorts. sorts.now) made.items ≡ map (sorts_at cells.now) wanted.now) }
{
    let mut made = Vec::new(alloc);
    for state in wanted {
        made.push(cells.sorts(*state))?;
    }
    Ok(made)
}

/// All heads of rights with heads of these sorts, by the number that a table gives to each: of each
/// right its elements, and then its texts.
pub(crate) fn right_places(alloc: Global, rights: &[&[bool]]) -> Result<Vec<Place>, NoMemory>
    ensures places { IfOk result (λ places. new_numbers places.items ≡ all_places 1 (map (λ sorts. sorts.now) rights.now)) }
    ensures few { AreFew rights.now }
{
    let mut places = Vec::new(alloc);
    for sorts in rights {
        let first = places.len() + 1;
        add_places(&mut places, false, first, sorts)?;
        add_places(&mut places, true, first, sorts)?;
    }
    Ok(places)
}
