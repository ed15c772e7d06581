//! The continuation of a type.

ghost use Rattle.std.specs.Prelude.{◌≡◌, ◌<◌, ◌≤◌, ◌++◌, ◌∷◌, [], length, map, IfOk, OnOk};
ghost use Rattle.std.specs.List.{AllByRecursion};
ghost use Rattle.xd_meaning.specs.Heads.{pieces};
ghost use Rattle.xd_syntax.specs.Table.{PartsBelow, form_tree, tree_at};
ghost use Rattle.xd_syntax.specs.Types.{form_of, type_numbers};
ghost use Rattle.xd_moves.specs.Cells.{StayChosen};
ghost use Rattle.xd_moves.specs.Found.{AddsCells, IsContent, StayBounded, continuation};

use crate::cells::Continuations;
use crate::piece::Piece;
use crate::stand_ins::StandIns;
use xd_doc::NoMemory;
use xd_syntax::{TypeForm, TypeId, Types};

/// The number of the continuation that is the pieces of a type. Fails only where memory is refused;
/// then nothing is known of the cells any more.
pub fn content<S: StandIns>(
    types: &Types,
    part: TypeId,
    cells: &mut Continuations,
    stand_ins: &S,
) -> Result<usize, NoMemory>
    requires part { part.at < length types.now }
    requires serve { S.serve types.now stand_ins.now }
    ensures content { IfOk result (IsContent types.now cells.old cells.new (pieces (tree_at types.now part.at))) }
    ensures chosen { OnOk result (StayChosen (S.chosen types.now stand_ins.now) cells.old cells.new) }
{
    let node = types.node(part);
    match node.form() {
        TypeForm::Empty => Ok(0),
        TypeForm::Seq(parts) => Ok(sequence(types, parts, cells, stand_ins)?),
        _ => Ok(one_piece(types, part, cells, stand_ins)?),
    }
}

/// Makes room for so many more cells. Where there are as many already, it is left to the first new
/// one: it may be that all of them are there.
fn make_room(cells: &mut Continuations, additional: usize) -> Result<(), NoMemory>
    ensures { cells.new ≡ cells.old }
{
    if cells.len() < additional {
        cells.reserve(additional)?;
    }
    Ok(())
}

/// That of a sequence of parts.
fn sequence<S: StandIns>(
    types: &Types,
    parts: &[TypeId],
    cells: &mut Continuations,
    stand_ins: &S,
) -> Result<usize, NoMemory>
    requires parts { AllByRecursion (λ i. i < length types.now) (type_numbers parts.now) }
    requires serve { S.serve types.now stand_ins.now }
    ensures content { IfOk result (IsContent types.now cells.old cells.new (map (tree_at types.now) (type_numbers parts.now))) }
    ensures chosen { OnOk result (StayChosen (S.chosen types.now stand_ins.now) cells.old cells.new) }
{
    make_room(cells, parts.len())?;
    let mut number = 0;
    for at in (0..parts.len()).rev() {
        let part = Piece {
            node: parts[at].at(),
            is_turns: false,
        };
        number = cells.put(stand_ins.stand_in(types, part), number)?;
    }
    Ok(number)
}

/// That of a type that is a piece itself.
fn one_piece<S: StandIns>(
    types: &Types,
    part: TypeId,
    cells: &mut Continuations,
    stand_ins: &S,
) -> Result<usize, NoMemory>
    requires part { part.at < length types.now }
    requires serve { S.serve types.now stand_ins.now }
    ensures content { IfOk result (IsContent types.now cells.old cells.new (tree_at types.now part.at ∷ [])) }
    ensures chosen { OnOk result (StayChosen (S.chosen types.now stand_ins.now) cells.old cells.new) }
{
    let part = Piece {
        node: part.at(),
        is_turns: false,
    };
    let number = cells.put(stand_ins.stand_in(types, part), 0)?;
    Ok(number)
}
