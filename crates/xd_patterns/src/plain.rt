//! Types as states each of whose moves stands once.

ghost use Rattle.std.specs.Prelude.{◌≡◌, true, ◌↔◌, IfOk};
ghost use Rattle.xd_auto.specs.Automaton.{accepts, Extends, IsState, KeepsAccepting};
ghost use Rattle.xd_doc.specs.Document.{Document};
ghost use Rattle.xd_syntax.specs.Types.{BelongsTo, tree};
ghost use Rattle.xd_syntax.specs.Ways.{Takes};
ghost use Rattle.xd_patterns.specs.Sources.{IsDefined, names_in};

use crate::chains::Marks;
use crate::sources::Sources;
use crate::start::{compile_pieces, piece_of_type};
use std::alloc::Global;
use xd_auto::{Auto, State};
use xd_doc::NoMemory;
use xd_syntax::TypeId;

/// Adds the states of a type, as those of a pattern without variables.
pub(crate) fn compile_plain(
    alloc: Global,
    sources: &Sources<'_>,
    id: TypeId,
    auto: &mut Auto,
) -> Result<State, NoMemory>
    requires sound { IsDefined sources.now }
    requires belongs { BelongsTo sources.now.types.now id }
    ensures extends { Extends auto.old auto.new }
    ensures keeps { KeepsAccepting auto.old auto.new }
    ensures start { IfOk result (IsState auto.new) }
    ensures accepts { IfOk result (λ state. (d : Document) → (accepts auto.new d state ≡ true) ↔ Takes (names_in sources.now) (tree sources.now.types.now id) d) }
{
    sources.types.see_table();
    let mut marks = Marks::new(alloc);
    let piece = piece_of_type(id);
    let (starts, _rows) = compile_pieces(alloc, sources, &[piece], &mut marks, auto)?;
    Ok(starts[0])
}
