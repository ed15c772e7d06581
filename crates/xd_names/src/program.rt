//! All faults of names, of numbers of arguments, and of variables that aren't linear.

ghost use Rattle.std.specs.Prelude.{◌≡◌, ℕ, List, [], ◌∷◌, ◌++◌, map, flat_map, IfOk, OnOk};
ghost use Rattle.std.specs.List.{AllByRecursion};
ghost use Rattle.xd_syntax.specs.Types.{BelongsTo};
ghost use Rattle.xd_syntax.specs.Words.{has_word, any_word, string_word};
ghost use Rattle.xd_syntax.specs.PlacedTable.{placed_at};
ghost use Rattle.xd_syntax.specs.Kept.{FunctionStands, TypeDefStands, function_definition, program_tree};
ghost use Rattle.xd_syntax.specs.NameFaults.{duplicates, duplicate_names, unknown_types, function_faults, name_faults};
ghost use Rattle.xd_names.specs.Knows.{Knows, whole, unordered};
ghost use Rattle.xd_names.specs.Spots.{type_spot, function_spot, param_spot};

use crate::duplicates::{in_functions, in_params, in_types};
use crate::expressions::in_expression;
use crate::names::Names;
use crate::scope::Scope;
use crate::types::in_tree;
use crate::words::Words;
use std::alloc::Global;
use xd_doc::NoMemory;
use xd_syntax::{Fault, Function, Param, Program, TypeDef, Types, sort_faults};

/// All faults of names, of numbers of arguments and of linearity, in order of place, then of
/// number.
///
/// `NoMemory` where there is no room for the names in scope or for the list.
pub fn resolve(alloc: Global, program: &Program) -> Result<Vec<Fault>, NoMemory>
    ensures { IfOk result (λ faults. faults.items ≡ name_faults (program_tree program.now)) }
{
    let names = Names::new(alloc, program)?;
    let mut faults = Vec::new(alloc);
    in_program(alloc, program, &names, &mut faults)?;
    sort_faults(&mut faults)?;
    Ok(faults)
}

/// The faults of definitions, then those of types, then those of functions.
fn in_program(
    alloc: Global,
    program: &Program,
    names: &Names,
    faults: &mut Vec<Fault>,
) -> Result<(), NoMemory>
    requires { Knows names.now (whole program.now) }
    ensures { OnOk result (faults.new.items ≡ faults.old.items ++ unordered (whole program.now)) }
{
    duplicated(alloc, program, faults)?;
    let types = program.types();
    in_type_defs(types, program.type_defs(), &names.types, faults)?;
    in_bodies(alloc, program, names, faults)
}

/// Names that are defined twice, those of types, of functions, and of each function's parameters.
fn duplicated(alloc: Global, program: &Program, faults: &mut Vec<Fault>) -> Result<(), NoMemory>
    ensures { OnOk result (faults.new.items ≡ faults.old.items ++ duplicate_names (whole program.now)) }
{
    duplicated_types(alloc, program.type_defs(), faults)?;
    duplicated_functions(alloc, program.functions(), faults)?;
    duplicated_params(alloc, program.functions(), faults)
}

/// Names of types that are defined twice. `Any` and `String` are defined already.
fn duplicated_types(
    alloc: Global,
    type_defs: &[TypeDef],
    faults: &mut Vec<Fault>,
) -> Result<(), NoMemory>
    ensures { OnOk result (faults.new.items ≡ faults.old.items ++ duplicates (string_word ∷ (any_word ∷ [])) (map type_spot type_defs.now)) }
{
    let mut seen = built_in(alloc)?;
    in_types(type_defs, &mut seen, faults)
}

/// `Any` and `String`.
fn built_in(alloc: Global) -> Result<Words, NoMemory>
    ensures { IfOk result (λ words. (w : List ℕ) → has_word words w ≡ has_word (string_word ∷ (any_word ∷ [])) w) }
{
    let mut words = Words::new(alloc);
    words.add_text(alloc, "Any")?;
    words.add_text(alloc, "String")?;
    Ok(words)
}

/// Names of functions that are defined twice.
fn duplicated_functions(
    alloc: Global,
    functions: &[Function],
    faults: &mut Vec<Fault>,
) -> Result<(), NoMemory>
    ensures { OnOk result (faults.new.items ≡ faults.old.items ++ duplicates [] (map function_spot functions.now)) }
{
    let mut seen = Words::new(alloc);
    in_functions(functions, &mut seen, faults)
}

/// Names that are defined twice among the parameters of one function.
fn duplicated_params(
    alloc: Global,
    functions: &[Function],
    faults: &mut Vec<Fault>,
) -> Result<(), NoMemory>
    ensures { OnOk result (faults.new.items ≡ faults.old.items ++ flat_map (λ f. duplicates [] (map param_spot f.params)) functions.now) }
{
    for function in functions {
        let mut seen = Words::new(alloc);
        in_params(function.params(), &mut seen, faults)?;
    }
    Ok(())
}

/// Uses of unknown names in the definitions of types.
fn in_type_defs(
    types: &Types,
    type_defs: &[TypeDef],
    known: &Words,
    faults: &mut Vec<Fault>,
) -> Result<(), NoMemory>
    requires { AllByRecursion (TypeDefStands types.now) type_defs.now }
    ensures { OnOk result (faults.new.items ≡ faults.old.items ++ flat_map (λ t. unknown_types known.now (placed_at types.now t.body.at)) type_defs.now) }
{
    for def in type_defs {
        in_tree(types, def.body, known, faults)?;
    }
    Ok(())
}

fn in_bodies(
    alloc: Global,
    program: &Program,
    names: &Names,
    faults: &mut Vec<Fault>,
) -> Result<(), NoMemory>
    requires { Knows names.now (whole program.now) }
    ensures { OnOk result (faults.new.items ≡ faults.old.items ++ flat_map (λ f. function_faults (whole program.now) (function_definition program.now f)) program.now.functions) }
{
    let functions = program.functions();
    for function in functions {
        in_function(alloc, program, names, function, faults)?;
    }
    Ok(())
}

/// The faults of a function's types and of its body.
fn in_function(
    alloc: Global,
    program: &Program,
    names: &Names,
    function: &Function,
    faults: &mut Vec<Fault>,
) -> Result<(), NoMemory>
    requires knows { Knows names.now (whole program.now) }
    requires stands { FunctionStands program.now.types program.now.exprs function.now }
    ensures { OnOk result (faults.new.items ≡ faults.old.items ++ function_faults (whole program.now) (function_definition program.now function.now)) }
{
    let types = program.types();
    let params = function.params();
    in_declared(types, params, &names.types, faults)?;
    in_tree(types, function.result_type(), &names.types, faults)?;
    let mut scope = params_scope(alloc, params)?;
    in_expression(alloc, program, names, function.body(), &mut scope, faults)
}

/// Uses of unknown names in the types of parameters.
fn in_declared(
    types: &Types,
    params: &[Param],
    known: &Words,
    faults: &mut Vec<Fault>,
) -> Result<(), NoMemory>
    requires { AllByRecursion (λ q. BelongsTo types.now q.body) params.now }
    ensures { OnOk result (faults.new.items ≡ faults.old.items ++ flat_map (λ q. unknown_types known.now (placed_at types.now q.body.at)) params.now) }
{
    for param in params {
        in_tree(types, param.body, known, faults)?;
    }
    Ok(())
}

fn params_scope(alloc: Global, params: &[Param]) -> Result<Scope, NoMemory>
    ensures { IfOk result (λ scope. scope ≡ map (λ q. q.name) params.now) }
{
    let mut scope = Scope::new(alloc);
    for param in params {
        scope.push(&param.name)?;
    }
    Ok(scope)
}
