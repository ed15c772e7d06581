//! The variables of all clauses of a program.

ghost use Rattle.std.specs.Prelude.{◌≡◌, [], IfOk, OnOk};
ghost use Rattle.xd_syntax.specs.Kept.{program_tree};
ghost use Rattle.xd_syntax.specs.Order.{ordered};
ghost use Rattle.xd_variables.specs.Bound.{AreBound, AreBoundIn, bound_precedes, reading_of};

use crate::reader::{Found, Reader};
use std::alloc::Global;
use xd_auto::{Auto, State};
use xd_base::Place;
use xd_doc::{Label, NoMemory};
use xd_scrutinees::{MatchStates, met_matches};
use xd_sound::Checked;

/// Which matches count for what a pattern gives its variables.
#[derive(Clone, Copy, Debug, PartialEq, Eq)]
pub enum Ways {
    /// Every way in which the pattern takes a whole document, as the check of a program has it.
    Whole,
    /// The first of these ways alone, as a run has it.
    First,
}

/// A variable of a clause, and what it may be.
#[derive(Drop)]
pub struct BoundVariable {
    /// The place of its word where it stands first in the clause's pattern.
    pub place: Place,
    pub word: Label,
    /// The state that accepts what the variable may be.
    pub state: State,
}

/// The variables of a program's clauses.
#[derive(Drop)]
pub struct Bound {
    /// The automaton of all their states.
    pub auto: Auto,
    /// In order of place.
    pub variables: Vec<BoundVariable>,
}

/// For each variable of each clause of each match of the program a state that accepts exactly what
/// the clause's pattern gives it, on documents that the scrutinee may be and no earlier clause
/// takes. Matches inside the bodies of clauses that are never reached are left out; the variables
/// of such a clause itself are there, and their states accept nothing.
///
/// Fails only where memory is refused.
pub fn bound_variables(alloc: Global, checked: &Checked, ways: Ways) -> Result<Bound, NoMemory>
    ensures { IfOk result (AreBound (reading_of ways) (program_tree checked.now)) }
{
    let mut auto = Auto::new(alloc);
    let variables = variables_in(alloc, checked, ways, &mut auto)?;
    Ok(Bound { auto, variables })
}

/// The same as states of an automaton that has none yet.
fn variables_in(
    alloc: Global,
    checked: &Checked,
    ways: Ways,
    auto: &mut Auto,
) -> Result<Vec<BoundVariable>, NoMemory>
    requires { auto.old ≡ [] }
    ensures { IfOk result (λ variables. AreBoundIn (reading_of ways) (program_tree checked.now) auto.new variables.items) }
{
    let met = met_matches(alloc, checked, auto)?;
    let MatchStates {
        sound,
        compiler,
        patterns,
        inhabitants,
        store,
        matches,
    } = met;
    let reader = Reader {
        alloc,
        ways,
        sound,
        compiler,
        patterns,
    };
    let mut found = Found {
        inhabitants,
        store,
        variables: Vec::new(alloc),
    };
    reader.read_matches(&matches, auto, &mut found)?;
    let Found { mut variables, .. } = found;
    sort_variables(&mut variables)?;
    Ok(variables)
}

/// Sorts variables by place; those of one place stay in their order.
fn sort_variables(variables: &mut Vec<BoundVariable>) -> Result<(), NoMemory>
    ensures { OnOk result (variables.new.items ≡ ordered bound_precedes variables.old.items) }
{
    variables.sort_by_key(|variable| variable.place)?;
    Ok(())
}
