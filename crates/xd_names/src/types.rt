//! Uses of names of types.

ghost use Rattle.std.specs.Prelude.{◌≡◌, ◌<◌, ◌++◌, length, OnOk};
ghost use Rattle.xd_syntax.specs.PlacedTable.{placed_at};
ghost use Rattle.xd_syntax.specs.NameFaults.{unknown_types};

use crate::words::Words;
use xd_doc::NoMemory;
use xd_syntax::{Fault, FaultKind, FormView, Nodes};

/// One more fault for each use in the type, or in the pattern, of a name that isn't among these.
pub(crate) fn in_tree<N: Nodes>(
    nodes: &N,
    id: N::Id,
    known: &Words,
    faults: &mut Vec<Fault>,
) -> Result<(), NoMemory>
    requires { N.at id < length (N.rows nodes.now) }
    ensures { OnOk result (faults.new.items ≡ faults.old.items ++ unknown_types known.now (placed_at (N.rows nodes.now) (N.at id))) }
{
    let node = nodes.view(id);
    match node.form {
        FormView::Name(word) => {
            if !known.has(word) {
                faults.push(Fault {
                    place: Some(node.place),
                    kind: FaultKind::UnknownType(word.share()?),
                })?;
            }
        }
        _ => {
            for part in node.parts {
                in_tree(nodes, *part, known, faults)?;
            }
        }
    }
    Ok(())
}
