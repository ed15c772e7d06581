//! Types from tokens.

ghost use Rattle.std.specs.Prelude.{◌≤◌, length, IfOk};
ghost use Rattle.xd_syntax.specs.Table.{KeepsRows};
ghost use Rattle.xd_syntax.specs.PlacedTable.{placed_at};
ghost use Rattle.xd_syntax.specs.Types.{BelongsTo};
ghost use Rattle.xd_grammar.specs.declared.grammar.Nonterminal.TheVariants as nonterminals;
ghost use Rattle.xd_grammar.specs.declared.grammar.Sort.TheVariants as sorts;
ghost use Rattle.xd_parse_trees.specs.Values.{a_tree};
ghost use Rattle.xd_parse_trees.specs.Reading.{Reads};
ghost use Rattle.xd_parse_trees.specs.Shallow.{NoDeeper, TreeWithin};

use crate::cursor::Cursor;
use crate::parts::to_node;
use crate::trees::read_tree;
use std::alloc::Global;
use xd_doc::NoMemory;
use xd_syntax::{TypeId, Types};

/// Reads a type. Fails only where memory is refused; old nodes stay.
pub fn read_type(
    alloc: Global,
    cursor: &mut Cursor<'_>,
    types: &mut Types,
) -> Result<TypeId, NoMemory>
    ensures reads { IfOk result (λ id. Reads (nonterminals.Alternative sorts.Type) cursor.old cursor.new (a_tree (placed_at types.new id.at))) }
    ensures belongs { IfOk result (BelongsTo types.new) }
    ensures keeps { KeepsRows types.old types.new }
    ensures fewer { IfOk result (λ id. length cursor.new ≤ length cursor.old) }
    ensures no_deeper { IfOk result (λ id. NoDeeper (TreeWithin (placed_at types.new id.at)) types.old types.new) }
{
    let parts = read_tree(alloc, cursor, types)?;
    to_node(types, parts)
}
