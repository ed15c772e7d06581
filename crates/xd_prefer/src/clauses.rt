//! What the variables of a clause are given by first matches.

ghost use Rattle.std.specs.Prelude.{◌≡◌, [], Ok, None, IfOk, IfSome, OnOk};
ghost use Rattle.std.specs.List.{All};
ghost use Rattle.xd_doc.specs.StoreNodes.{Keeps};
ghost use Rattle.xd_auto.specs.Automaton.{Extends, IsState, KeepsAccepting};
ghost use Rattle.xd_least.specs.Least.{Knows};
ghost use Rattle.xd_points.specs.Meaning.{ServePoints};
ghost use Rattle.xd_syntax.specs.Kept.{AddsTypes, program_tree};
ghost use Rattle.xd_syntax.specs.May.{IsLive};
ghost use Rattle.xd_syntax.specs.Placed.{PlacedTree, unplaced};
ghost use Rattle.xd_syntax.specs.Program.{names_of};
ghost use Rattle.xd_syntax.specs.ShallowTables.{IsShallow};
ghost use Rattle.xd_syntax.specs.Tree.{Definitions};
ghost use Rattle.xd_clauses.specs.Cases.{placed_pattern, placed_patterns};
ghost use Rattle.xd_patterns.specs.CompiledProgram.{IsLinearPattern};
ghost use Rattle.xd_clauses.specs.Clauses.{Accepted, AreBindingsOf, AreGivensOf};
ghost use Rattle.xd_clauses.specs.Compiled.{IsNumbered, IsSomePattern};
ghost use Rattle.xd_prefer.specs.Preferred.{Prefers};

use std::alloc::Global;
use xd_auto::{Auto, State};
use xd_bind::{Binding, Given};
use xd_clauses::{NumberedPattern, apart, arriving, given_nothing};
use xd_doc::{NoMemory, Store};
use xd_least::LeastInhabitants;
use xd_sound::SoundProgram;
use xd_syntax::PatternId;

/// For each variable of the pattern, in order of first occurrence, a state that accepts exactly
/// what the first match gives it on a document that comes to the clause, one that the state
/// accepts; `None` where the pattern takes none of these.
///
/// It is to first matches what [`NumberedPattern::bindings`] is to all whole ways. After want of
/// memory old states keep their moves, the store its documents, and what is known stays true.
pub fn first_bindings(
    alloc: Global,
    pattern: NumberedPattern<'_>,
    auto: &mut Auto,
    coming: State,
    known: &mut LeastInhabitants,
    store: &mut Store,
) -> Result<Option<Vec<Given>>, NoMemory>
    requires pattern { IsSomePattern pattern.patterns.now pattern.number }
    requires serve { ServePoints auto.old pattern.patterns.now.states }
    requires coming { IsState auto.old coming }
    requires known { Knows auto.old store.old known.old }
    ensures dead { result ≡ Ok None → (E : Definitions) (P : PlacedTree) → IsNumbered E (unplaced P) pattern.entry.patterns.now pattern.entry.number → IsLive E (Accepted auto.old coming) [] P → ⊥ }
    ensures live { IfOk result (λ found. IfSome found (λ givens. (E : Definitions) (P : PlacedTree) → IsNumbered E (unplaced P) pattern.entry.patterns.now pattern.entry.number → IsLive E (Accepted auto.old coming) [] P)) }
    ensures bindings { IfOk result (λ found. IfSome found (λ givens. (E : Definitions) (P : PlacedTree) → IsNumbered E (unplaced P) pattern.entry.patterns.now pattern.entry.number → AreGivensOf (Prefers E (Accepted auto.old coming) [] P) P auto.new givens.items)) }
    ensures extends { Extends auto.old auto.new }
    ensures accepting { OnOk result (KeepsAccepting auto.old auto.new) }
    ensures known { Knows auto.new store.new known.new }
    ensures keeps { Keeps store.old store.new }
{
    let found = pattern.first_bindings(alloc, auto, coming, known, store)?;
    Ok(found)
}

/// What the variables of a pattern are given by first matches, on documents that the state accepts:
/// nothing where it takes none of these.
fn first_givens(
    alloc: Global,
    pattern: NumberedPattern<'_>,
    auto: &mut Auto,
    coming: State,
) -> Result<Vec<Given>, NoMemory>
    requires pattern { IsSomePattern pattern.patterns.now pattern.number }
    requires serve { ServePoints auto.old pattern.patterns.now.states }
    requires coming { IsState auto.old coming }
    ensures { IfOk result (λ givens. (E : Definitions) (P : PlacedTree) → IsNumbered E (unplaced P) pattern.entry.patterns.now pattern.entry.number → AreGivensOf (Prefers E (Accepted auto.old coming) [] P) P auto.new givens.items) }
{
    let mut known = LeastInhabitants::new(alloc);
    let mut store = Store::new(alloc);
    match first_bindings(alloc, pattern, auto, coming, &mut known, &mut store)? {
        Some(givens) => Ok(givens),
        None => {
            let givens = given_nothing(alloc, pattern.variables(), auto)?;
            Ok(givens)
        }
    }
}

/// For each variable of a pattern, in order of first occurrence and once, what the first match
/// gives it: an automaton whose state accepts exactly this, on a document that the state accepts
/// and no earlier pattern takes.
///
/// Fails only where memory is refused. The program may have more types then.
pub fn preferred_types(
    alloc: Global,
    sound: &mut SoundProgram,
    auto: &Auto,
    state: State,
    earlier: &[PatternId],
    pattern: PatternId,
) -> Result<Vec<Binding>, NoMemory>
    requires state { IsState auto.now state }
    requires earlier { All (IsLinearPattern sound.old.patterns) earlier.now }
    requires pattern { IsLinearPattern sound.old.patterns pattern }
    ensures bindings { IfOk result (λ bindings. AreBindingsOf (Prefers (names_of (program_tree sound.old)) (Accepted auto.now state) (placed_patterns sound.old.patterns earlier.now) (placed_pattern sound.old.patterns pattern)) (placed_pattern sound.old.patterns pattern) bindings.items) }
    ensures adds { AddsTypes sound.old sound.new }
    ensures same { program_tree sound.new ≡ program_tree sound.old }
    ensures shallow { IsShallow sound.old.types → IsShallow sound.new.types }
{
    let mut arrival = arriving(alloc, sound, auto, state, earlier, pattern)?;
    let pattern = arrival.patterns.pattern(arrival.number);
    let givens = first_givens(alloc, pattern, &mut arrival.auto, arrival.state)?;
    let bindings = apart(alloc, &arrival.auto, &givens)?;
    Ok(bindings)
}
