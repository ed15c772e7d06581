//! Patterns from tokens.

ghost use Rattle.std.specs.Prelude.{◌≤◌, length, IfOk};
ghost use Rattle.xd_syntax.specs.Table.{KeepsRows};
ghost use Rattle.xd_syntax.specs.PlacedTable.{placed_at};
ghost use Rattle.xd_syntax.specs.Patterns.{IsPattern};
ghost use Rattle.xd_grammar.specs.declared.grammar.Nonterminal.TheVariants as nonterminals;
ghost use Rattle.xd_grammar.specs.declared.grammar.Sort.TheVariants as sorts;
ghost use Rattle.xd_parse_trees.specs.Values.{a_tree};
ghost use Rattle.xd_parse_trees.specs.Reading.{Reads};

use crate::cursor::Cursor;
use crate::parts::to_node;
use crate::trees::read_branch;
use std::alloc::Global;
use xd_doc::NoMemory;
use xd_syntax::{PatternId, Patterns};

/// Reads a pattern without alternatives. Fails only where memory is refused; old nodes stay.
pub fn read_pattern_seq(
    alloc: Global,
    cursor: &mut Cursor<'_>,
    patterns: &mut Patterns,
) -> Result<PatternId, NoMemory>
    ensures reads { IfOk result (λ id. Reads (nonterminals.Sequence sorts.Pattern) cursor.old cursor.new (a_tree (placed_at patterns.new id.at))) }
    ensures belongs { IfOk result (IsPattern patterns.new) }
    ensures keeps { KeepsRows patterns.old patterns.new }
    ensures left { IfOk result (λ id. length cursor.new ≤ length cursor.old) }
{
    let parts = read_branch(alloc, cursor, patterns)?;
    to_node(patterns, parts)
}
