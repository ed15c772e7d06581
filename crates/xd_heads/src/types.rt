//! Types as states.

ghost use Rattle.std.specs.Prelude.{◌≡◌, ◌<◌, ◌≤◌, ◌↔◌, [], true, List, length, IfOk, OnOk, Some};
ghost use Rattle.xd_auto.specs.Automaton.{Automaton, Extends, IsState, KeepsAccepting, accepts, state_number};
ghost use Rattle.xd_auto.specs.declared.auto.State.{State};
ghost use Rattle.xd_doc.specs.Document.{Document};
ghost use Rattle.xd_syntax.specs.Fits.{Fits};
ghost use Rattle.xd_syntax.specs.Kept.{AddsTypes, ProgramTable, program_tree};
ghost use Rattle.xd_syntax.specs.Program.{names_of};
ghost use Rattle.xd_syntax.specs.RecursionFaults.{IsSound};
ghost use Rattle.xd_syntax.specs.ShallowTables.{IsShallow};
ghost use Rattle.xd_syntax.specs.Table.{Row, tree_at};
ghost use Rattle.xd_syntax.specs.Tree.{any_type};
ghost use Rattle.xd_sound.specs.TypeNames.{AreNumbered};
ghost use Rattle.xd_sound.specs.Emptiness.{AreEmptyMarks};
ghost use Rattle.xd_syntax.specs.Types.{BelongsTo, tree};
ghost use Rattle.xd_heads.specs.Compiled.{Spares};
ghost use Rattle.xd_heads.specs.CellsView.{CellsView, no_cells};
ghost use Rattle.xd_heads.specs.Mirrors.{IsTypeState, KeepsStates, Mirrors, MirrorsStay, continuation_of, sorts_at};

use crate::compile::{Made, compile_node};
use crate::states::States;
use crate::typed::continuation_type;
use std::alloc::Global;
use std::marker::Model;
use xd_auto::{Auto, State};
use xd_continuations::{TypeBodies, meaning_of_any};
use xd_doc::NoMemory;
use xd_moves::{Continuations, FirstUses, Sources};
use xd_sound::{KnownTypes, SoundProgram};
use xd_syntax::{Program, TypeId};

/// The continuations of an automaton's states.
///
/// A continuation is what is still to come of a type: a list of its pieces. Each is kept once, as a
/// piece and an older continuation, so that recursive types share states.
#[derive(Drop)]
pub struct Cells {
    made: Made,
    /// For each state, which heads of its type are texts.
    rows: Vec<Vec<bool>>,
    alloc: Global,
}

impl Model for Cells {
    ghost use Rattle.xd_heads.specs.CellsView.{CellsView};
    ghost use Rattle.xd_heads.specs.Sorts.{rows_of};

    ghost Value = { CellsView };

    ghost view = { λ c. record { cells = c.made.cells; states = c.made.states; sorts = rows_of c.rows.items } };
}

impl Cells {
    /// Those of an automaton without states. It takes no memory.
    pub fn new(alloc: Global) -> Self
        ensures none { result ≡ no_cells }
        ensures mirrors { (p : ProgramTable) → Mirrors p result [] }
    {
        let made = Made {
            cells: Continuations::new(alloc),
            uses: FirstUses::new(alloc),
            states: States::new(alloc),
        };
        Self {
            made,
            rows: Vec::new(alloc),
            alloc,
        }
    }

    /// The continuation of a state, as a type of the program; types are added to it for that, and
    /// stay after `NoMemory`, too.
    ///
    /// The cells mirror an automaton on this program, and the state is one of that automaton.
    pub fn state_type(&self, sound: &mut SoundProgram, state: State) -> Result<TypeId, NoMemory>
        requires mirrors { (a : Automaton) × Mirrors sound.old self.now a }
        requires state { IsTypeState self.now state }
        ensures belongs { IfOk result (BelongsTo sound.new.types) }
        ensures continuation { IfOk result (λ id. continuation_of sound.old.types self.now state ≡ Some (tree sound.new.types id)) }
        ensures adds { AddsTypes sound.old sound.new }
        ensures same { program_tree sound.new ≡ program_tree sound.old }
        ensures shallow { IsShallow sound.old.types → IsShallow sound.new.types }
    {
        match self.made.states.continuation(state.number()) {
            Some(number) => {
                let id = continuation_type(self.alloc, sound, &self.made.cells, number)?;
                Ok(id)
            }
            None => unreachable!(),
        }
    }

    /// Which heads of a state's type are texts, in order; the others are elements.
    ///
    /// The cells mirror an automaton, and the state is one of it.
    pub fn sorts(&self, state: State) -> &[bool]
        requires mirrors { (p : ProgramTable) × (a : Automaton) × Mirrors p self.now a }
        requires state { IsTypeState self.now state }
        ensures { result.now ≡ sorts_at self.now state }
    {
        &self.rows[state.number()]
    }
}

/// A state that accepts exactly what fits a type, with all states that it leads to.
///
/// The cells mirror the automaton on this program (`Mirrors`), as new cells mirror a new automaton,
/// and as they do after each call that was answered with a state. States are shared: a continuation
/// that has a state gets no other. It does no recursion, over names or over the parts of a
/// sequence. Old states keep their flags, their moves in order and what they accept, after want of
/// memory too; then nothing is known of the cells any more.
///
/// (Types as automata are those of Hosoya, Vouillon and Pierce, TOPLAS 2005; states for lists of
/// pieces are this project's own.)
pub fn compile_type(
    alloc: Global,
    sound: &mut SoundProgram,
    cells: &mut Cells,
    auto: &mut Auto,
    id: TypeId,
) -> Result<State, NoMemory>
    requires belongs { BelongsTo sound.old.types id }
    requires mirrors { Mirrors sound.old cells.old auto.old }
    ensures state { IfOk result (IsState auto.new) }
    ensures accepts { IfOk result (λ state. (d : Document) → (accepts auto.new d state ≡ true) ↔ Fits (names_of (program_tree sound.old)) (tree sound.old.types id) d) }
    ensures continuation { IfOk result (λ state. continuation_of sound.new.types cells.new state ≡ Some (tree sound.old.types id)) }

    // after `NoMemory` too
    ensures keeps { KeepsAccepting auto.old auto.new }
    ensures extends { Extends auto.old auto.new }

    ensures owners { OnOk result (KeepsStates sound.old.types sound.new.types cells.old cells.new) }
    ensures mirrors { OnOk result (Mirrors sound.new cells.new auto.new) }
    ensures adds { AddsTypes sound.old sound.new }
    ensures same { program_tree sound.new ≡ program_tree sound.old }
    ensures shallow { IsShallow sound.old.types → IsShallow sound.new.types }
{
    let _states = auto.len();
    let any = meaning_of_any(alloc, sound)?;
    let KnownTypes { names, empty_marks } = sound.take_known()?;
    let bodies = TypeBodies {
        names,
        any: any.at(),
    };
    let state = compile_in(
        alloc,
        sound.program(),
        &bodies,
        &empty_marks,
        id,
        cells,
        auto,
    )?;
    let TypeBodies { names, any: _ } = bodies;
    sound.give_back(KnownTypes { names, empty_marks });
    Ok(state)
}

/// The same for a program whose names and marks are known.
fn compile_in(
    alloc: Global,
    program: &Program,
    bodies: &TypeBodies,
    marks: &[bool],
    id: TypeId,
    cells: &mut Cells,
    auto: &mut Auto,
) -> Result<State, NoMemory>
    requires sound { IsSound (program_tree program.now) }
    requires numbered { AreNumbered bodies.now.names program.now.type_defs }
    requires any { bodies.now.any < length program.now.types }
    requires any_type { tree_at program.now.types bodies.now.any ≡ any_type }
    requires marks { AreEmptyMarks program.now.types program.now.type_defs marks.now }
    requires belongs { BelongsTo program.now.types id }
    requires mirrors { Mirrors program.now cells.old auto.old }
    ensures accepts { IfOk result (λ state. (d : Document) → (accepts auto.new d state ≡ true) ↔ Fits (names_of (program_tree program.now)) (tree program.now.types id) d) }
    ensures continuation { IfOk result (λ state. continuation_of program.now.types cells.new state ≡ Some (tree program.now.types id)) }
    ensures spares { Spares (length auto.old) auto.old auto.new }
    ensures owners { OnOk result (KeepsStates program.now.types program.now.types cells.old cells.new) }
    ensures mirrors { OnOk result (Mirrors program.now cells.new auto.new) }
{
    let types = program.types();
    types.see_table();
    cells.made.uses.cover(types)?;
    let sources = Sources {
        types,
        defs: program.type_defs(),
        bodies,
        marks,
    };
    let state = compile_node(alloc, &sources, id, &mut cells.made, &mut cells.rows, auto)?;
    Ok(state)
}

/// What mirrors an automaton goes on to mirror it while types are added to the program.
pub fn mirrors_stay()
    ensures { MirrorsStay }
{}
