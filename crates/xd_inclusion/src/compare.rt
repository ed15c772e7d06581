//! The comparison of two types.

ghost use Rattle.std.specs.Prelude.{◌≡◌, IfOk};
ghost use Rattle.xd_doc.specs.StoreNodes.{Keeps};
ghost use Rattle.xd_heads.specs.Mirrors.{Mirrors};
ghost use Rattle.xd_syntax.specs.Kept.{AddsTypes, program_tree};
ghost use Rattle.xd_syntax.specs.ShallowTables.{IsShallow};
ghost use Rattle.xd_syntax.specs.Tree.{Tree};
ghost use Rattle.xd_syntax.specs.Types as types;
ghost use Rattle.xd_proof_make.specs.Made.{UsesDefined};
ghost use Rattle.xd_inclusion.specs.Compared.{IsInclusion};
ghost use Rattle.xd_inclusion.specs.States.{IsKnownState, IsStateOf};

use crate::states::{compile_both, prove_goal};
use std::alloc::Global;
use xd_apart::least_apart;
use xd_auto::{Auto, State};
use xd_doc::{NoMemory, Seq, Store};
use xd_goals::{Table, Verdict, decide, new_tables_stand};
use xd_heads::Cells;
use xd_sound::SoundProgram;
use xd_syntax::TypeId;

/// What the comparison of two types comes to.
#[derive(Drop)]
pub enum Inclusion {
    /// Every document of the left type is one of the right: a proof text of that, in the second
    /// format.
    Proved(Vec<u8>),
    /// A least document of those of the left type that are none of the right.
    Separated(Seq),
}

/// Whether every document of the one type is one of the other.
///
/// Both types use names alone that the program defines, and stand in it, as after
/// `SoundProgram::find_type` or `SoundProgram::adopt`. What separates them is put into the store.
/// Inclusion of types may take time and memory exponential in them. After `NoMemory` the
/// program may have more types, and the store more documents; all old ones stay.
pub fn compare_types(
    alloc: Global,
    sound: &mut SoundProgram,
    left: TypeId,
    right: TypeId,
    store: &mut Store,
) -> Result<Inclusion, NoMemory>
    requires left { types.BelongsTo sound.old.types left }
    requires right { types.BelongsTo sound.old.types right }
    requires shallow { IsShallow sound.old.types }
    requires left_names { UsesDefined (program_tree sound.old) (types.tree sound.old.types left) }
    requires right_names { UsesDefined (program_tree sound.old) (types.tree sound.old.types right) }
    ensures inclusion { IfOk result (IsInclusion (program_tree sound.old) (types.tree sound.old.types left) (types.tree sound.old.types right) store.new) }

    // after `NoMemory` too
    ensures keeps { Keeps store.old store.new }
    ensures adds { AddsTypes sound.old sound.new }
    ensures same { program_tree sound.new ≡ program_tree sound.old }
    ensures stays_shallow { IsShallow sound.new.types }
{
    let mut cells = Cells::new(alloc);
    let mut auto = Auto::new(alloc);
    compare_in(alloc, sound, left, right, &mut cells, &mut auto, store)
}

/// The same; the cells and the automaton get the states of both types.
fn compare_in(
    alloc: Global,
    sound: &mut SoundProgram,
    left: TypeId,
    right: TypeId,
    cells: &mut Cells,
    auto: &mut Auto,
    store: &mut Store,
) -> Result<Inclusion, NoMemory>
    requires left { types.BelongsTo sound.old.types left }
    requires right { types.BelongsTo sound.old.types right }
    requires shallow { IsShallow sound.old.types }
    requires mirrors { Mirrors sound.old cells.old auto.old }
    requires left_names { UsesDefined (program_tree sound.old) (types.tree sound.old.types left) }
    requires right_names { UsesDefined (program_tree sound.old) (types.tree sound.old.types right) }
    ensures inclusion { IfOk result (IsInclusion (program_tree sound.old) (types.tree sound.old.types left) (types.tree sound.old.types right) store.new) }
    ensures keeps { Keeps store.old store.new }
    ensures adds { AddsTypes sound.old sound.new }
    ensures same { program_tree sound.new ≡ program_tree sound.old }
    ensures stays_shallow { IsShallow sound.new.types }
{
    let (one, other) = compile_both(alloc, sound, left, right, cells, auto)?;
    compare_states(alloc, sound, cells, auto, one, other, store)
}

/// Whether every document that the one state accepts is accepted by the other.
fn compare_states(
    alloc: Global,
    sound: &mut SoundProgram,
    cells: &Cells,
    auto: &Auto,
    left: State,
    right: State,
    store: &mut Store,
) -> Result<Inclusion, NoMemory>
    requires shallow { IsShallow sound.old.types }
    requires mirrors { Mirrors sound.old cells.now auto.now }
    requires left { IsKnownState sound.old cells.now auto.now left }
    requires right { IsKnownState sound.old cells.now auto.now right }
    ensures inclusion { (L R : Tree) → IsStateOf sound.old cells.now auto.now L left → IsStateOf sound.old cells.now auto.now R right → IfOk result (IsInclusion (program_tree sound.old) L R store.new) }
    ensures keeps { Keeps store.old store.new }
    ensures adds { AddsTypes sound.old sound.new }
    ensures same { program_tree sound.new ≡ program_tree sound.old }
    ensures stays_shallow { IsShallow sound.new.types }
{
    let mut table = Table::new(alloc);
    new_tables_stand(auto, store);
    match decide(alloc, auto, &mut table, left, &[right], store)? {
        Verdict::Included(goal) => Ok(Inclusion::Proved(prove_goal(
            alloc, sound, cells, auto, &table, goal,
        )?)),
        Verdict::Separated(found) => Ok(Inclusion::Separated(least_apart(
            alloc, auto, left, right, found, store,
        )?)),
    }
}
