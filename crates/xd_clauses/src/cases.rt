//! What a state accepts, at the clauses of a match.

ghost use Rattle.std.specs.Prelude.{◌≡◌, ◌↔◌, ◌≤◌, ◌^◌, List, true, false, [], Ok, None, IfOk, IfSome, length, map, take};
ghost use Rattle.std.specs.List.{All, AllByRecursion};
ghost use Rattle.xd_doc.specs.Document.{Document};
ghost use Rattle.xd_doc.specs.LeastUpTo.{IsLeastUpTo};
ghost use Rattle.xd_doc.specs.Stored.{document_at};
ghost use Rattle.xd_doc.specs.StoredSeq.{BelongsTo};
ghost use Rattle.xd_doc.specs.StoreNodes.{Keeps};
ghost use Rattle.xd_auto.specs.Automaton.{Automaton, Extends, IsState, KeepsAccepting};
ghost use Rattle.xd_least.specs.Least.{Knows, size_limit};
ghost use Rattle.xd_points.specs.Meaning.{ServePoints};
ghost use Rattle.xd_syntax.specs.Kept.{AddsTypes, program_tree};
ghost use Rattle.xd_syntax.specs.May.{IsLive, NoneTakes};
ghost use Rattle.xd_syntax.specs.Placed.{PlacedTree, unplaced};
ghost use Rattle.xd_syntax.specs.Program.{names_of};
ghost use Rattle.xd_syntax.specs.ShallowTables.{IsShallow};
ghost use Rattle.xd_syntax.specs.Table.{Row};
ghost use Rattle.xd_syntax.specs.Tree.{Definitions};
ghost use Rattle.xd_meaning.specs.KeptFaults.{AllPaired};
ghost use Rattle.xd_clauses.specs.Cases.{HasOwnAutomaton, IsGivenNothing, placed_pattern, placed_patterns};
ghost use Rattle.xd_patterns.specs.CompiledProgram.{IsLinearPattern};
ghost use Rattle.xd_clauses.specs.Clauses.{Accepted, AreMayBindings, AreMayGivens};
ghost use Rattle.xd_clauses.specs.Compiled.{ArePatterns, IsNumbered, IsSomePattern};

use crate::compiled::CompiledPatterns;
use crate::numbered::NumberedPattern;
use std::alloc::Global;
use xd_auto::{Auto, State};
use xd_bind::{Binding, Given};
use xd_doc::{Label, NoMemory, Seq, Store};
use xd_least::LeastInhabitants;
use xd_patterns::PatternCompiler;
use xd_sound::SoundProgram;
use xd_syntax::PatternId;

/// A document that the state accepts, a least one, where there is one. What is found of other
/// states on the way is known from then on.
///
/// Where each document that the state accepts has 2^63 items or more, it is one of these. What is
/// known stays true after `NoMemory`, and the store keeps its documents.
pub fn accepted_document(
    alloc: Global,
    auto: &Auto,
    state: State,
    known: &mut LeastInhabitants,
    store: &mut Store,
) -> Result<Option<Seq>, NoMemory>
    requires state { IsState auto.now state }
    requires known { Knows auto.now store.old known.old }
    ensures least { IfOk result (λ found. IfSome found (λ seq. IsLeastUpTo size_limit (Accepted auto.now state) (document_at store.new seq))) }
    ensures none { result ≡ Ok None → (d : Document) → Accepted auto.now state d → ⊥ }
    ensures belongs { IfOk result (λ found. IfSome found (BelongsTo store.new)) }
    ensures known { Knows auto.now store.new known.new }
    ensures keeps { Keeps store.old store.new }
{
    let _states = auto.len();
    known.learn(alloc, auto, store)?;
    match known.document(state) {
        Some(least) => Ok(Some(least.seq)),
        None => Ok(None),
    }
}

/// These patterns, compiled together. Fails only where memory is refused; the program may have more
/// types then, and nothing else in it changes.
fn compiled_of(
    alloc: Global,
    sound: &mut SoundProgram,
    ids: Vec<PatternId>,
) -> Result<CompiledPatterns, NoMemory>
    requires { AllByRecursion (IsLinearPattern sound.old.patterns) ids.items }
    ensures patterns { IfOk result (ArePatterns (names_of (program_tree sound.old)) sound.old.patterns) }
    ensures ids { IfOk result (λ made. made.ids ≡ ids) }
    ensures serve { IfOk result (λ made. (a : Automaton) → ServePoints a made.states) }
    ensures adds { AddsTypes sound.old sound.new }
    ensures same { program_tree sound.new ≡ program_tree sound.old }
    ensures shallow { IsShallow sound.old.types → IsShallow sound.new.types }
{
    let compiler = PatternCompiler::new(alloc, sound)?;
    let made = CompiledPatterns::alone(alloc, &compiler, sound, ids)?;
    Ok(made)
}

/// A state, in an automaton of its own, for what the state accepts and none of the first patterns
/// takes, so many of them.
fn left_behind(
    alloc: Global,
    patterns: &CompiledPatterns,
    count: usize,
    auto: &Auto,
    state: State,
) -> Result<(Auto, State), NoMemory>
    requires patterns { (E : Definitions) × (rows : List Row) × ArePatterns E rows patterns.now }
    requires count { count ≤ length patterns.now.ids.items }
    requires serve { (a : Automaton) → ServePoints a patterns.now.states }
    requires state { IsState auto.now state }
    ensures belongs { IfOk result (λ left. IsState left.0 left.1) }
    ensures exact { IfOk result (λ left. (E : Definitions) (rows : List Row) → ArePatterns E rows patterns.now → (d : Document) → Accepted left.0 left.1 d ↔ (Accepted auto.now state d × NoneTakes E (placed_patterns rows (take count patterns.now.ids.items)) d)) }
{
    let mut own = Auto::new(alloc);
    let start = own.absorb(auto, state)?;
    let left = patterns.take_first_away(alloc, &mut own, start, count)?;
    Ok((own, left))
}

/// For each variable a state that accepts nothing. Fails only where memory is refused.
pub fn given_nothing(
    alloc: Global,
    variables: &[Label],
    auto: &mut Auto,
) -> Result<Vec<Given>, NoMemory>
    ensures givens { IfOk result (λ givens. AllPaired (IsGivenNothing auto.new) variables.now givens.items) }
    ensures extends { Extends auto.old auto.new }
    ensures accepting { KeepsAccepting auto.old auto.new }
{
    let nothing = auto.add_state(false)?;
    let mut givens = Vec::new(alloc);
    for variable in variables {
        givens.push(Given {
            variable: variable.share()?,
            state: nothing,
        })?;
    }
    Ok(givens)
}

/// What the variables of a pattern may be, on documents that the state accepts: nothing where it
/// takes none of these.
fn givens_of(
    alloc: Global,
    pattern: NumberedPattern<'_>,
    auto: &mut Auto,
    arriving: State,
) -> Result<Vec<Given>, NoMemory>
    requires pattern { IsSomePattern pattern.patterns.now pattern.number }
    requires serve { ServePoints auto.old pattern.patterns.now.states }
    requires arriving { IsState auto.old arriving }
    ensures { IfOk result (λ givens. (E : Definitions) (P : PlacedTree) → IsNumbered E (unplaced P) pattern.entry.patterns.now pattern.entry.number → AreMayGivens E (Accepted auto.old arriving) [] P auto.new givens.items) }
{
    let mut known = LeastInhabitants::new(alloc);
    let mut store = Store::new(alloc);
    match pattern.bindings(alloc, auto, arriving, &mut known, &mut store)? {
        Some(givens) => Ok(givens),
        None => {
            let givens = given_nothing(alloc, pattern.variables(), auto)?;
            Ok(givens)
        }
    }
}

/// The same states, each in an automaton of its own. Fails only where memory is refused.
pub fn apart(alloc: Global, auto: &Auto, givens: &[Given]) -> Result<Vec<Binding>, NoMemory>
    requires { AllByRecursion (λ g. IsState auto.now g.state) givens.now }
    ensures { IfOk result (λ bindings. AllPaired (HasOwnAutomaton auto.now) givens.now bindings.items) }
{
    let mut bindings = Vec::new(alloc);
    for given in givens {
        let mut own = Auto::new(alloc);
        let state = own.absorb(auto, given.state)?;
        bindings.push(Binding {
            variable: given.variable.share()?,
            auto: own,
            state,
        })?;
    }
    Ok(bindings)
}

/// What comes to a clause: a state of an automaton of its own for the documents that no earlier
/// pattern takes, and the clause's pattern, by its number among compiled ones.
#[derive(Drop)]
pub struct Arrival {
    pub auto: Auto,
    pub state: State,
    pub patterns: CompiledPatterns,
    pub number: usize,
}

impl Arrival {
    /// What the variables of the pattern may be.
    fn bindings(&mut self, alloc: Global) -> Result<Vec<Binding>, NoMemory>
        requires state { IsState self.old.auto self.old.state }
        requires serve { ServePoints self.old.auto self.old.patterns.states }
        requires pattern { (E : Definitions) × (P : PlacedTree) × IsNumbered E (unplaced P) self.old.patterns self.old.number }
        ensures { (E : Definitions) (b : Automaton) (s : State) (Ps : List PlacedTree) (P : PlacedTree) → IsNumbered E (unplaced P) self.old.patterns self.old.number → ((d : Document) → Accepted self.old.auto self.old.state d ↔ (Accepted b s d × NoneTakes E Ps d)) → IfOk result (λ bindings. AreMayBindings E (Accepted b s) Ps P bindings.items) }
    {
        let pattern = self.patterns.pattern(self.number);
        let givens = givens_of(alloc, pattern, &mut self.auto, self.state)?;
        let bindings = apart(alloc, &self.auto, &givens)?;
        Ok(bindings)
    }

    /// Whether the pattern takes some document that comes.
    fn is_live(&mut self, alloc: Global) -> Result<bool, NoMemory>
        requires state { IsState self.old.auto self.old.state }
        requires serve { ServePoints self.old.auto self.old.patterns.states }
        requires pattern { IsSomePattern self.old.patterns self.old.number }
        ensures live { (E : Definitions) (b : Automaton) (s : State) (Ps : List PlacedTree) (P : PlacedTree) → IsNumbered E (unplaced P) self.old.patterns self.old.number → ((d : Document) → Accepted self.old.auto self.old.state d ↔ (Accepted b s d × NoneTakes E Ps d)) → result ≡ Ok true → IsLive E (Accepted b s) Ps P }
        ensures dead { (E : Definitions) (b : Automaton) (s : State) (Ps : List PlacedTree) (P : PlacedTree) → IsNumbered E (unplaced P) self.old.patterns self.old.number → ((d : Document) → Accepted self.old.auto self.old.state d ↔ (Accepted b s d × NoneTakes E Ps d)) → result ≡ Ok false → IsLive E (Accepted b s) Ps P → ⊥ }
    {
        let mut known = LeastInhabitants::new(alloc);
        let mut store = Store::new(alloc);
        let pattern = self.patterns.pattern(self.number);
        let found = pattern.bindings(alloc, &mut self.auto, self.state, &mut known, &mut store)?;
        Ok(found.is_some())
    }
}

/// What the state accepts, at a clause with this pattern after the earlier ones. The patterns are
/// linear, as those of clauses are, and belong to the program. Fails only where memory is refused;
/// the program may have more types then, and nothing else in it changes.
pub fn arriving(
    alloc: Global,
    sound: &mut SoundProgram,
    auto: &Auto,
    state: State,
    earlier: &[PatternId],
    pattern: PatternId,
) -> Result<Arrival, NoMemory>
    requires state { IsState auto.now state }
    requires earlier { All (IsLinearPattern sound.old.patterns) earlier.now }
    requires pattern { IsLinearPattern sound.old.patterns pattern }
    ensures belongs { IfOk result (λ arrival. IsState arrival.auto arrival.state) }
    ensures serve { IfOk result (λ arrival. ServePoints arrival.auto arrival.patterns.states) }
    ensures exact { IfOk result (λ arrival. (d : Document) → Accepted arrival.auto arrival.state d ↔ (Accepted auto.now state d × NoneTakes (names_of (program_tree sound.old)) (placed_patterns sound.old.patterns earlier.now) d)) }
    ensures pattern { IfOk result (λ arrival. IsNumbered (names_of (program_tree sound.old)) (unplaced (placed_pattern sound.old.patterns pattern)) arrival.patterns arrival.number) }
    ensures adds { AddsTypes sound.old sound.new }
    ensures same { program_tree sound.new ≡ program_tree sound.old }
    ensures shallow { IsShallow sound.old.types → IsShallow sound.new.types }
{
    let number = earlier.len();
    let mut ids = earlier.to_vec(alloc)?;
    ids.push(pattern)?;
    let patterns = compiled_of(alloc, sound, ids)?;
    let (auto, state) = left_behind(alloc, &patterns, number, auto, state)?;
    Ok(Arrival {
        auto,
        state,
        patterns,
        number,
    })
}

/// For each variable of a pattern, in order of first occurrence and once, what it may be: an
/// automaton that accepts exactly what some whole way gives it, on a document that the state
/// accepts and no earlier pattern takes. The patterns are linear, as those of clauses are, and
/// belong to the program. Fails only where memory is refused; the program may have more types then,
/// and nothing else in it changes.
pub fn case_types(
    alloc: Global,
    sound: &mut SoundProgram,
    auto: &Auto,
    state: State,
    earlier: &[PatternId],
    pattern: PatternId,
) -> Result<Vec<Binding>, NoMemory>
    requires state { IsState auto.now state }
    requires earlier { All (IsLinearPattern sound.old.patterns) earlier.now }
    requires pattern { IsLinearPattern sound.old.patterns pattern }
    ensures bindings { IfOk result (λ bindings. AreMayBindings (names_of (program_tree sound.old)) (Accepted auto.now state) (placed_patterns sound.old.patterns earlier.now) (placed_pattern sound.old.patterns pattern) bindings.items) }
    ensures adds { AddsTypes sound.old sound.new }
    ensures same { program_tree sound.new ≡ program_tree sound.old }
    ensures shallow { IsShallow sound.old.types → IsShallow sound.new.types }
{
    let mut arrival = arriving(alloc, sound, auto, state, earlier, pattern)?;
    arrival.bindings(alloc)
}

/// A state, in an automaton of its own, for what the state accepts and no pattern takes.
fn left_over(
    alloc: Global,
    sound: &mut SoundProgram,
    auto: &Auto,
    state: State,
    patterns: &[PatternId],
) -> Result<(Auto, State), NoMemory>
    requires state { IsState auto.now state }
    requires patterns { All (IsLinearPattern sound.old.patterns) patterns.now }
    ensures belongs { IfOk result (λ left. IsState left.0 left.1) }
    ensures exact { IfOk result (λ left. (d : Document) → Accepted left.0 left.1 d ↔ (Accepted auto.now state d × NoneTakes (names_of (program_tree sound.old)) (placed_patterns sound.old.patterns patterns.now) d)) }
    ensures adds { AddsTypes sound.old sound.new }
    ensures same { program_tree sound.new ≡ program_tree sound.old }
    ensures shallow { IsShallow sound.old.types → IsShallow sound.new.types }
{
    let ids = patterns.to_vec(alloc)?;
    let compiled = compiled_of(alloc, sound, ids)?;
    let (own, left) = left_behind(alloc, &compiled, patterns.len(), auto, state)?;
    Ok((own, left))
}

/// A document that the state accepts and no pattern takes, a least one, where there is one.
///
/// Where each such document has 2^63 items or more, it is one of these. The patterns are linear, as
/// those of clauses are, and belong to the program. Fails only where memory is refused; the program
/// may have more types then, and the store more documents.
pub fn uncovered(
    alloc: Global,
    sound: &mut SoundProgram,
    auto: &Auto,
    state: State,
    patterns: &[PatternId],
    store: &mut Store,
) -> Result<Option<Seq>, NoMemory>
    requires state { IsState auto.now state }
    requires patterns { All (IsLinearPattern sound.old.patterns) patterns.now }
    ensures least { IfOk result (λ found. IfSome found (λ seq. IsLeastUpTo size_limit (λ d. Accepted auto.now state d × NoneTakes (names_of (program_tree sound.old)) (placed_patterns sound.old.patterns patterns.now) d) (document_at store.new seq))) }
    ensures none { result ≡ Ok None → (d : Document) → Accepted auto.now state d → NoneTakes (names_of (program_tree sound.old)) (placed_patterns sound.old.patterns patterns.now) d → ⊥ }
    ensures belongs { IfOk result (λ found. IfSome found (BelongsTo store.new)) }
    ensures keeps { Keeps store.old store.new }
    ensures adds { AddsTypes sound.old sound.new }
    ensures same { program_tree sound.new ≡ program_tree sound.old }
    ensures shallow { IsShallow sound.old.types → IsShallow sound.new.types }
{
    let (own, left) = left_over(alloc, sound, auto, state, patterns)?;
    let mut known = LeastInhabitants::new(alloc);
    let found = accepted_document(alloc, &own, left, &mut known, store)?;
    Ok(found)
}

/// Whether the state accepts a document that the pattern takes and no earlier one. The patterns are
/// linear, as those of clauses are, and belong to the program. Fails only where memory is refused;
/// the program may have more types then, and nothing else in it changes.
pub fn live(
    alloc: Global,
    sound: &mut SoundProgram,
    auto: &Auto,
    state: State,
    earlier: &[PatternId],
    pattern: PatternId,
) -> Result<bool, NoMemory>
    requires state { IsState auto.now state }
    requires earlier { All (IsLinearPattern sound.old.patterns) earlier.now }
    requires pattern { IsLinearPattern sound.old.patterns pattern }
    ensures live { result ≡ Ok true → IsLive (names_of (program_tree sound.old)) (Accepted auto.now state) (placed_patterns sound.old.patterns earlier.now) (placed_pattern sound.old.patterns pattern) }
    ensures dead { result ≡ Ok false → IsLive (names_of (program_tree sound.old)) (Accepted auto.now state) (placed_patterns sound.old.patterns earlier.now) (placed_pattern sound.old.patterns pattern) → ⊥ }
    ensures adds { AddsTypes sound.old sound.new }
    ensures same { program_tree sound.new ≡ program_tree sound.old }
    ensures shallow { IsShallow sound.old.types → IsShallow sound.new.types }
{
    let mut arrival = arriving(alloc, sound, auto, state, earlier, pattern)?;
    arrival.is_live(alloc)
}
