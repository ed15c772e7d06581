//! How many arguments a call wants.

ghost use Rattle.std.specs.Prelude.{◌≡◌, ℕ, ◌++◌, List, IfOk, OnOk};
ghost use Rattle.std.specs.BTreeMap.{get};
ghost use Rattle.std.specs.Ordering.{nat_cmp};
ghost use Rattle.std.specs.Cmp.Lexicographic.{slice_cmp};
ghost use Rattle.xd_names.specs.Knows.{arity_of, wanted_faults};

use std::alloc::Global;
use std::collections::BTreeMap;
use xd_base::Place;
use xd_doc::{Label, NoMemory};
use xd_syntax::{Fault, FaultKind, Function};

/// How many parameters the first function of each name has.
pub(crate) fn arities(
    alloc: Global,
    functions: &[Function],
) -> Result<BTreeMap<Label, u64>, NoMemory>
    ensures { IfOk result (λ made. (w : List ℕ) → get (slice_cmp nat_cmp) made w ≡ arity_of functions.now w) }
{
    let mut arities = BTreeMap::new(alloc);
    for number in (0..functions.len()).rev() {
        let function = &functions[number];
        let arity = function.params().len() as u64;
        arities.insert(function.name().share()?, arity)?;
    }
    Ok(arities)
}

/// One more fault where the call's function isn't there or wants another number of arguments.
pub(crate) fn in_call(
    arities: &BTreeMap<Label, u64>,
    place: Place,
    word: &Label,
    given: u64,
    faults: &mut Vec<Fault>,
) -> Result<(), NoMemory>
    ensures { OnOk result (faults.new.items ≡ faults.old.items ++ wanted_faults (get (slice_cmp nat_cmp) arities.now word.now) place word.now given) }
{
    let kind = match arities.get(word) {
        None => FaultKind::UnknownFunction(word.share()?),
        Some(wanted) if *wanted == given => return Ok(()),
        Some(wanted) => FaultKind::Arity(word.share()?, given, *wanted),
    };
    faults.push(Fault {
        place: Some(place),
        kind,
    })?;
    Ok(())
}
