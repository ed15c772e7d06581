//! Where the variables of a pattern stand first.

ghost use Rattle.std.specs.Prelude.{◌≡◌, ◌++◌, map, IfOk, OnOk};
ghost use Rattle.xd_syntax.specs.Matches.{first_spots, variable_spots};
ghost use Rattle.xd_syntax.specs.Patterns.{IsPattern};
ghost use Rattle.xd_syntax.specs.PlacedTable.{placed_at};
ghost use Rattle.xd_variables.specs.Binders.{spots_of, place_of_spot};

use indexmap::IndexSet;
use std::alloc::Global;
use xd_base::Place;
use xd_doc::{Label, NoMemory};
use xd_syntax::{FormView, Nodes, PatternId, Patterns};

/// An occurrence of a variable in a pattern, and the place of its word.
#[derive(Drop)]
pub(crate) struct Binder {
    pub variable: Label,
    pub place: Place,
}

/// Appends the occurrences of variables in the pattern, in order.
fn push_binders(patterns: &Patterns, id: PatternId, found: &mut Vec<Binder>) -> Result<(), NoMemory>
    requires { IsPattern patterns.now id }
    ensures { OnOk result (spots_of found.new.items ≡ spots_of found.old.items ++ variable_spots (placed_at patterns.now id.at)) }
{
    let node = patterns.view(id);
    match node.form {
        FormView::Val(word, place, part) => {
            let variable = word.share()?;
            found.push(Binder { variable, place })?;
            push_binders(patterns, part, found)?;
        }
        _ => {
            for part in node.parts {
                push_binders(patterns, *part, found)?;
            }
        }
    }
    Ok(())
}

/// The places of the pattern's variables, where each stands first, in order.
pub(crate) fn first_places(
    alloc: Global,
    patterns: &Patterns,
    pattern: PatternId,
) -> Result<Vec<Place>, NoMemory>
    requires { IsPattern patterns.now pattern }
    ensures { IfOk result (λ places. places.items ≡ map place_of_spot (first_spots (variable_spots (placed_at patterns.now pattern.at)))) }
{
    let mut binders = Vec::new(alloc);
    push_binders(patterns, pattern, &mut binders)?;
    places_of_first(alloc, &binders)
}

/// The same of these occurrences.
fn places_of_first(alloc: Global, binders: &[Binder]) -> Result<Vec<Place>, NoMemory>
    ensures { IfOk result (λ places. places.items ≡ map place_of_spot (first_spots (spots_of binders.now))) }
{
    let mut seen = IndexSet::new(alloc);
    let mut places = Vec::new(alloc);
    for binder in binders {
        let is_new = seen.insert(binder.variable.share()?)?;
        if is_new {
            places.push(binder.place)?;
        }
    }
    Ok(places)
}
