//! Programs and types from bytes.

ghost use Rattle.std.specs.Prelude.{◌≡◌, Some, true, IfOk, IfErr, OnErr};
ghost use Rattle.xd_lex.specs.Tokens.{tokens_of};
ghost use Rattle.xd_syntax.specs.PlacedTable.{placed_at};
ghost use Rattle.xd_syntax.specs.Table.{KeepsRows};
ghost use Rattle.xd_syntax.specs.Types.{BelongsTo};
ghost use Rattle.xd_syntax.specs.Kept.{program_tree};
ghost use Rattle.xd_grammar.specs.declared.grammar.Nonterminal.TheVariants as nonterminals;
ghost use Rattle.xd_parse.specs.declared.parse.ParseError.TheVariants as errors;
ghost use Rattle.xd_grammar.specs.TextErrors.{is_text};
ghost use Rattle.xd_grammar.specs.Text.{SpellsText};
ghost use Rattle.xd_parse_trees.specs.Means.{IsProgramText, IsTypeText};
ghost use Rattle.xd_parse.specs.Faults.{reported};
ghost use Rattle.xd_syntax.specs.ShallowTables.{IsShallow, AddsWithin};
ghost use Rattle.xd_syntax.specs.Shallow.{nesting_limit};
ghost use Rattle.xd_parse.specs.ParseErrors.{IsParseError, IsFault};

use crate::definitions::read_definitions;
use std::alloc::Global;
use thiserror::Error;
use xd_doc::NoMemory;
use xd_grammar::{Nonterminal, TextError, TextFault, spelled_tokens};
use xd_parse_trees::{Cursor, read_type};
use xd_syntax::{Fault, FaultKind, Program, TypeId, Types};

/// Why no program, or no type, was read.
#[derive(Debug, Drop, Error)]
pub enum ParseError {
    /// The text spells none, or one that is nested too deep. The fault has a place.
    #[error("malformed text")]
    Fault(Fault),
    /// There was not enough memory.
    #[error("out of memory")]
    NoMemory,
}

impl From<NoMemory> for ParseError {
    ghost from_gives = { λ _ e. e ≡ errors.NoMemory };

    fn from(_: NoMemory) -> Self {
        Self::NoMemory
    }
}

/// A text's fault, as a fault of the program.
fn reported(found: TextFault) -> Fault
    ensures { result ≡ reported found }
{
    let (place, kind) = match found {
        TextFault::NotUtf8(place) => (place, FaultKind::NotUtf8),
        TextFault::Syntax(place) => (place, FaultKind::Syntax),
        TextFault::TooDeep(place) => (place, FaultKind::TooDeep),
    };
    Fault {
        place: Some(place),
        kind,
    }
}

/// The tokens of a text, where they spell the nonterminal.
fn cursor_over<'a>(
    alloc: Global,
    part: Nonterminal,
    bytes: &'a [u8],
) -> Result<Cursor<'a>, ParseError>
    requires { is_text part ≡ true }
    ensures tokens { IfOk result (λ cursor. cursor ≡ tokens_of bytes.now) }
    ensures spells { IfOk result (λ cursor. SpellsText part bytes.now) }
    ensures fault { IfErr result (IsParseError part bytes.now) }
    ensures unspelled { IfErr result (λ e. IsFault e → ¬ (SpellsText part bytes.now)) }
{
    match spelled_tokens(alloc, part, bytes) {
        Ok(lexer) => Ok(Cursor::new(lexer)),
        Err(TextError::Fault(found)) => Err(ParseError::Fault(reported(found))),
        Err(TextError::NoMemory) => Err(ParseError::NoMemory),
    }
}

/// Reads the text of a program.
///
/// `ParseError::Fault` comes exactly where the bytes spell no program within the nesting limit:
/// fault 1 where they aren't UTF-8, else fault 2 or 3 at the first token with which no program goes
/// on. `ParseError::NoMemory` comes where memory is refused.
pub fn parse_program(alloc: Global, bytes: &[u8]) -> Result<Program, ParseError>
    ensures program { IfOk result (λ p. IsProgramText bytes.now (program_tree p)) }
    ensures shallow { IfOk result (λ p. IsShallow p.types) }
    ensures fault { IfErr result (IsParseError nonterminals.Definitions bytes.now) }
    ensures unspelled { IfErr result (λ e. IsFault e → ¬ (SpellsText nonterminals.Definitions bytes.now)) }
{
    let mut cursor = cursor_over(alloc, Nonterminal::Definitions, bytes)?;
    let program = read_definitions(alloc, &mut cursor)?;
    Ok(program)
}

/// Reads the text of a type, with the same refusals; its nodes are added to those of the table,
/// which stay. After a refusal the table is as it was.
///
/// Fails with `Fault` exactly where the text spells no type within the nesting limit, with the
/// first fault, and with `NoMemory` where memory is refused.
pub fn parse_type(alloc: Global, types: &mut Types, bytes: &[u8]) -> Result<TypeId, ParseError>
    ensures type_text { IfOk result (λ id. IsTypeText bytes.now (placed_at types.new id.at)) }
    ensures shallow { AddsWithin nesting_limit types.old types.new }
    ensures belongs { IfOk result (BelongsTo types.new) }
    ensures keeps { KeepsRows types.old types.new }
    ensures unchanged { OnErr result (types.new ≡ types.old) }
    ensures fault { IfErr result (IsParseError nonterminals.TypeText bytes.now) }
    ensures unspelled { IfErr result (λ e. IsFault e → ¬ (SpellsText nonterminals.TypeText bytes.now)) }
{
    let mut cursor = cursor_over(alloc, Nonterminal::TypeText, bytes)?;
    let len = types.len();
    match read_type(alloc, &mut cursor, types) {
        Ok(id) => Ok(id),
        Err(NoMemory) => {
            types.truncate(len);
            Err(ParseError::NoMemory)
        }
    }
}
