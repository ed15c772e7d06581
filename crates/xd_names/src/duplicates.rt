//! Names that are defined more than once.

ghost use Rattle.std.specs.Prelude.{◌≡◌, ℕ, ◌||◌, ◌++◌, List, map, OnOk};
ghost use Rattle.std.specs.Str.{bytes_eq};
ghost use Rattle.xd_syntax.specs.Words.{has_word};
ghost use Rattle.xd_syntax.specs.NameFaults.{duplicates, fault_if};
ghost use Rattle.xd_syntax.specs.declared.fault.FaultKind.TheVariants.{DuplicateName};
ghost use Rattle.xd_names.specs.Spots.{type_spot, function_spot, param_spot};

use crate::words::Words;
use xd_base::Place;
use xd_doc::{Label, NoMemory};
use xd_syntax::{Fault, FaultKind, Function, Param, TypeDef};

/// Sees a name, with a fault where it was seen before.
fn see(
    name: &Label,
    place: Place,
    seen: &mut Words,
    faults: &mut Vec<Fault>,
) -> Result<(), NoMemory>
    ensures seen { OnOk result ((w : List ℕ) → has_word seen.new w ≡ (bytes_eq name.now w || has_word seen.old w)) }
    ensures faults { OnOk result (faults.new.items ≡ faults.old.items ++ fault_if (has_word seen.old name.now) place (DuplicateName name.now)) }
{
    if !seen.add(name)? {
        faults.push(Fault {
            place: Some(place),
            kind: FaultKind::DuplicateName(name.share()?),
        })?;
    }
    Ok(())
}

/// One more fault for each type whose name was seen before.
pub(crate) fn in_types(
    type_defs: &[TypeDef],
    seen: &mut Words,
    faults: &mut Vec<Fault>,
) -> Result<(), NoMemory>
    ensures { OnOk result (faults.new.items ≡ faults.old.items ++ duplicates seen.old (map type_spot type_defs.now)) }
{
    for def in type_defs {
        see(&def.name, def.place, seen, faults)?;
    }
    Ok(())
}

/// One more fault for each function whose name was seen before.
pub(crate) fn in_functions(
    functions: &[Function],
    seen: &mut Words,
    faults: &mut Vec<Fault>,
) -> Result<(), NoMemory>
    ensures { OnOk result (faults.new.items ≡ faults.old.items ++ duplicates seen.old (map function_spot functions.now)) }
{
    for function in functions {
        see(function.name(), function.place(), seen, faults)?;
    }
    Ok(())
}

/// One more fault for each parameter whose name was seen before.
pub(crate) fn in_params(
    params: &[Param],
    seen: &mut Words,
    faults: &mut Vec<Fault>,
) -> Result<(), NoMemory>
    ensures { OnOk result (faults.new.items ≡ faults.old.items ++ duplicates seen.old (map param_spot params.now)) }
{
    for param in params {
        see(&param.name, param.place, seen, faults)?;
    }
    Ok(())
}
