//! That the canonical text of a type reads back, and the text of definitions, as contracts of
//! functions that do nothing.
#![tactic(auto)]

ghost use Rattle.xd_type_laws.specs.ReadBackLaws.{TypesReadBack, NodesReadBack, DefinitionsReadBack, KeptDefinitionsReadBack};

/// The canonical text of a type spells an equal type, however deep it nests; so it is for the nodes
/// of a table.
pub fn types_read_back()
    ensures types { TypesReadBack }
    ensures nodes { NodesReadBack }
{}

/// The text of definitions of types, a line for each, spells a program of just these definitions,
/// in order; so it is for the types that a program defines.
pub fn definitions_read_back()
    ensures definitions { DefinitionsReadBack }
    ensures kept { KeptDefinitionsReadBack }
{}
