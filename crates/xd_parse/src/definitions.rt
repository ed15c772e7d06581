//! Definitions from tokens: their heads are read here, and types and expressions by recursive
//! descent.
//!
//! The tokens are known to spell what is read. On tokens that spell nothing there, a function
//! answers something.

ghost use Rattle.std.specs.Prelude.{◌≡◌, ◌∷◌, [], ◌<◌, ◌≤◌, length, map, IfOk};
ghost use Rattle.std.specs.List.{AllByRecursion};
ghost use Rattle.xd_syntax.specs.Table.{KeepsRows};
ghost use Rattle.xd_syntax.specs.Types.{BelongsTo};
ghost use Rattle.xd_syntax.specs.ExpressionTable.{PatternsBelong};
ghost use Rattle.xd_syntax.specs.Kept.{TypeDefStands, FunctionStands, parameter, type_definition, function_definition, program_tree};
ghost use Rattle.xd_grammar.specs.declared.grammar.Nonterminal.TheVariants as nonterminals;
ghost use Rattle.xd_grammar.specs.declared.grammar.Terminal.TheVariants as terminals;
ghost use Rattle.xd_parse_trees.specs.Values.{a_parameter, definitions};
ghost use Rattle.xd_parse_trees.specs.Reading.{Reads, front_terminal, behind};
ghost use Rattle.xd_parse.specs.Definitions.{ReadsInFront, ReadsParameters, one_type, one_function};
ghost use Rattle.xd_parse.specs.Grows.{Grows};
ghost use Rattle.xd_parse_trees.specs.Shallow.{NoDeeper, TreeWithin, ParametersWithin, DefinitionsWithin};

use crate::expressions::read_expr;
use std::alloc::Global;
use xd_doc::NoMemory;
use xd_grammar::Terminal;
use xd_parse_trees::{Cursor, read_type};
use xd_syntax::{Exprs, Function, Param, Patterns, Program, TypeDef, Types};

/// Reads `(val x as T)`.
fn read_param(alloc: Global, cursor: &mut Cursor<'_>, types: &mut Types) -> Result<Param, NoMemory>
    ensures reads { IfOk result (λ q. Reads nonterminals.Param cursor.old cursor.new (a_parameter (parameter types.new q))) }
    ensures belongs { IfOk result (λ q. BelongsTo types.new q.body) }
    ensures keeps { KeepsRows types.old types.new }
    ensures no_deeper { IfOk result (λ q. NoDeeper (TreeWithin (parameter types.new q).declared) types.old types.new) }
    ensures fewer { IfOk result (λ q. length cursor.new ≤ length (behind cursor.old)) }
{
    cursor.step();
    cursor.step();
    let name = cursor.word(alloc)?;
    cursor.step();
    let body = read_type(alloc, cursor, types)?;
    cursor.step();
    Ok(Param {
        name: name.word,
        place: name.place,
        body,
    })
}

/// Reads one parameter or more.
fn read_params(
    alloc: Global,
    cursor: &mut Cursor<'_>,
    types: &mut Types,
) -> Result<Vec<Param>, NoMemory>
    ensures reads { IfOk result (λ params. ReadsParameters cursor.old cursor.new (map (parameter types.new) params.items)) }
    ensures some { IfOk result (λ params. 1 ≤ length params.items) }
    ensures belong { IfOk result (λ params. AllByRecursion (λ q. BelongsTo types.new q.body) params.items) }
    ensures keeps { KeepsRows types.old types.new }
    ensures no_deeper { IfOk result (λ params. NoDeeper (ParametersWithin (map (parameter types.new) params.items)) types.old types.new) }
    ensures fewer { IfOk result (λ params. length cursor.new ≤ length cursor.old) }
{
    let mut params = Vec::new(alloc);
    params.push(read_param(alloc, cursor, types)?)?;
    'params: while cursor.at(Terminal::ParenL) {
        params.push(read_param(alloc, cursor, types)?)?;
    }
    Ok(params)
}

/// Reads the definition of a type.
fn read_type_def(
    alloc: Global,
    cursor: &mut Cursor<'_>,
    types: &mut Types,
) -> Result<TypeDef, NoMemory>
    requires { front_terminal cursor.old ≡ terminals.Type }
    ensures reads { IfOk result (λ def. ReadsInFront (one_type (type_definition types.new def)) cursor.old cursor.new) }
    ensures stands { IfOk result (TypeDefStands types.new) }
    ensures keeps { KeepsRows types.old types.new }
    ensures no_deeper { IfOk result (λ def. NoDeeper (DefinitionsWithin (one_type (type_definition types.new def))) types.old types.new) }
    ensures fewer { IfOk result (λ def. length cursor.new < length cursor.old) }
{
    cursor.step();
    let name = cursor.word(alloc)?;
    cursor.step();
    let body = read_type(alloc, cursor, types)?;
    Ok(TypeDef {
        name: name.word,
        place: name.place,
        body,
    })
}

/// Reads the definition of a function.
fn read_function(
    alloc: Global,
    cursor: &mut Cursor<'_>,
    types: &mut Types,
    patterns: &mut Patterns,
    exprs: &mut Exprs,
) -> Result<Function, NoMemory>
    requires front { front_terminal cursor.old ≡ terminals.Fun }
    requires clauses { PatternsBelong (length patterns.old) exprs.old }
    ensures reads { IfOk result (λ f. ReadsInFront (one_function (function_definition (record { types = types.new; patterns = patterns.new; exprs = exprs.new; type_defs = []; functions = [] }) f)) cursor.old cursor.new) }
    ensures stands { IfOk result (FunctionStands types.new exprs.new) }
    ensures keeps { KeepsRows types.old types.new }
    ensures no_deeper { IfOk result (λ f. NoDeeper (DefinitionsWithin (one_function (function_definition (record { types = types.new; patterns = patterns.new; exprs = exprs.new; type_defs = []; functions = [] }) f))) types.old types.new) }
    ensures grows { IfOk result (λ f. Grows patterns.old exprs.old patterns.new exprs.new) }
    ensures fewer { IfOk result (λ f. length cursor.new < length cursor.old) }
{
    cursor.step();
    let name = cursor.word(alloc)?;
    let params = read_params(alloc, cursor, types)?;
    cursor.step();
    let declared = read_type(alloc, cursor, types)?;
    cursor.step();
    let body = read_expr(alloc, cursor, patterns, exprs)?;
    Ok(Function::new(name.word, name.place, params, declared, body))
}

/// Reads a program: definitions up to the end of the text.
pub(crate) fn read_definitions(alloc: Global, cursor: &mut Cursor<'_>) -> Result<Program, NoMemory>
    ensures reads { IfOk result (λ p. Reads nonterminals.Definitions cursor.old cursor.new (definitions (program_tree p))) }
    ensures no_deeper { IfOk result (λ p. NoDeeper (DefinitionsWithin (program_tree p)) [] p.types) }
{
    let mut types = Types::new(alloc);
    let mut patterns = Patterns::new(alloc);
    let mut exprs = Exprs::new(alloc);
    let mut type_defs = Vec::new(alloc);
    let mut functions = Vec::new(alloc);
    'definitions: loop {
        if cursor.at(Terminal::Type) {
            type_defs.push(read_type_def(alloc, cursor, &mut types)?)?;
        } else if cursor.at(Terminal::Fun) {
            let function = read_function(alloc, cursor, &mut types, &mut patterns, &mut exprs)?;
            functions.push(function)?;
        } else {
            break;
        }
    }
    cursor.step();
    Ok(Program::new(types, patterns, exprs, type_defs, functions))
}
