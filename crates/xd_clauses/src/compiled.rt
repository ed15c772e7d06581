//! The patterns of clauses, compiled together.

ghost use Rattle.std.specs.Prelude.{◌≡◌, ◌↔◌, ◌≤◌, ◌&&◌, not, List, Some, length, take, IfOk, IfSome};
ghost use Rattle.std.specs.List.{AllByRecursion, slice_get};
ghost use Rattle.xd_doc.specs.Document.{Document};
ghost use Rattle.xd_auto.specs.Automaton.{Automaton, Extends, IsState, accepts};
ghost use Rattle.xd_auto.specs.Universal.{IsUniversal};
ghost use Rattle.xd_empty.specs.Parts.{is_marked};
ghost use Rattle.xd_meaning.specs.KeptFaults.{AllPaired};
ghost use Rattle.xd_boole.specs.Meaning.{any_accepts};
ghost use Rattle.xd_points.specs.Placing.{accepts_at};
ghost use Rattle.xd_syntax.specs.Kept.{program_tree};
ghost use Rattle.xd_syntax.specs.May.{NoneTakes};
ghost use Rattle.xd_syntax.specs.Table.{Row};
ghost use Rattle.xd_syntax.specs.Tree.{Definitions};
ghost use Rattle.xd_syntax.specs.Program.{names_of};
ghost use Rattle.xd_syntax.specs.Types.{BelongsTo};
ghost use Rattle.xd_patterns.specs.Compiler.{Serves};
ghost use Rattle.xd_patterns.specs.CompiledProgram.{AcceptsType, IsLinearPattern, IsPatternState, marking_of_program, pattern_states, pattern_variables, type_states, variables_of_patterns};
ghost use Rattle.xd_points.specs.Meaning.{ServePoints};
ghost use Rattle.xd_clauses.specs.Cases.{placed_patterns};
ghost use Rattle.xd_clauses.specs.Clauses.{Accepted};
ghost use Rattle.xd_clauses.specs.Compiled.{ArePatterns, AreWordsKnown, GiveAlike, LeavesOut};

use crate::numbered::NumberedPattern;
use crate::owner::NumberOwner;
use std::alloc::Global;
use xd_auto::{Auto, State, add_universal};
use xd_bind::copied;
use xd_doc::NoMemory;
use xd_given::alike_states;
use xd_patterns::{CompiledProgram, PatternCompiler, compiled_states_stay};
use xd_points::{PatternStates, PointParts, PointTable};
use xd_sound::SoundProgram;
use xd_syntax::{PatternId, TypeId};

/// Patterns of clauses as states of one automaton.
///
/// What stands ahead in several of them has one state. So all patterns of a program together cost
/// what is said in them, and once what is said in the types that they name.
#[derive(Drop)]
pub struct CompiledPatterns {
    pub(crate) states: PatternStates,
    /// A state that accepts everything.
    pub(crate) all: State,
    pub(crate) compiled: CompiledProgram,
    pub(crate) ids: Vec<PatternId>,
    /// By the number of a pattern's node which of these patterns it is; any where it is none.
    numbers: Vec<usize>,
}

/// The state that was found, or one that accepts nothing.
fn found_or_nothing(auto: &mut Auto, found: Option<State>) -> Result<State, NoMemory>
    requires { IfSome found (IsState auto.old) }
    ensures belongs { IfOk result (IsState auto.new) }
    ensures exact { IfOk result (λ made. (d : Document) → accepts auto.new d made ≡ accepts_at auto.old d found) }
    ensures extends { Extends auto.old auto.new }
{
    match found {
        Some(state) => Ok(state),
        None => Ok(auto.add_state(false)?),
    }
}

/// Adds the states of types and of patterns, and one that accepts everything.
fn compile_in(
    alloc: Global,
    compiler: &PatternCompiler,
    sound: &SoundProgram,
    types: &[TypeId],
    ids: &[PatternId],
    auto: &mut Auto,
) -> Result<(CompiledProgram, State), NoMemory>
    requires serves { Serves sound.now compiler.now }
    requires types { AllByRecursion (BelongsTo sound.now.types) types.now }
    requires patterns { AllByRecursion (IsLinearPattern sound.now.patterns) ids.now }
    ensures universal { IfOk result (λ made. IsUniversal auto.new made.1) }
    ensures types { IfOk result (λ made. AllPaired (AcceptsType (names_of (program_tree sound.now)) sound.now.types auto.new) types.now (type_states made.0)) }
    ensures patterns { IfOk result (λ made. AllPaired (IsPatternState (names_of (program_tree sound.now)) sound.now.patterns auto.new (marking_of_program made.0)) ids.now (pattern_states made.0)) }
    ensures variables { IfOk result (λ made. pattern_variables made.0 ≡ variables_of_patterns sound.now.patterns ids.now) }
    ensures words { IfOk result (λ made. AreWordsKnown made.0) }
{
    let compiled = compiler.compile_all(alloc, sound, types, ids, auto)?;
    let _states = auto.len();
    let all = add_universal(alloc, auto)?;
    compiled_states_stay();
    Ok((compiled, all))
}

/// By the number of a pattern's node which of these patterns it is.
fn numbers_of(alloc: Global, ids: &[PatternId], count: usize) -> Result<Vec<usize>, NoMemory> {
    let mut numbers = vec![in alloc; 0; count]?;
    for (number, id) in ids.iter().enumerate() {
        if id.at() < numbers.len() {
            numbers[id.at()] = number;
        }
    }
    Ok(numbers)
}

/// Of each state whether it may be left out of points.
fn marks_of(alloc: Global, auto: &Auto, compiled: &CompiledProgram) -> Result<Vec<bool>, NoMemory>
    ensures { IfOk result (λ marks. GiveAlike auto.now compiled.now (is_marked marks.items)) }
{
    let count = compiled.words().len();
    let owner = NumberOwner { compiled };
    let marks = alike_states(alloc, auto, &owner, count)?;
    Ok(marks)
}

impl CompiledPatterns {
    /// Those with these states. Which of them may be left out of points is told by their marks.
    fn of(
        alloc: Global,
        states: PatternStates,
        all: State,
        compiled: CompiledProgram,
        ids: Vec<PatternId>,
        numbers: Vec<usize>,
    ) -> Result<Self, NoMemory>
        ensures auto { IfOk result (λ made. made.states.auto ≡ states.auto) }
        ensures serve { IfOk result (λ made. (a : Automaton) → ServePoints a states → ServePoints a made.states) }
        ensures all { IfOk result (λ made. made.all ≡ all) }
        ensures compiled { IfOk result (λ made. made.compiled ≡ compiled) }
        ensures ids { IfOk result (λ made. made.ids ≡ ids) }
        ensures alike { IfOk result LeavesOut }
    {
        let marks = marks_of(alloc, &states.auto, &compiled)?;
        let states = states.leaving_out(marks);
        Ok(Self {
            states,
            all,
            compiled,
            ids,
            numbers,
        })
    }

    /// Types and patterns of a program, whose states are the first ones of an automaton.
    ///
    /// Where a clause's scrutinee leads to a state of the automaton that its pattern leads to, too,
    /// they are seen to be the same. Fails only where memory is refused; then nothing is known of
    /// the automaton any more.
    pub fn with_types(
        alloc: Global,
        compiler: &PatternCompiler,
        sound: &SoundProgram,
        types: &[TypeId],
        ids: Vec<PatternId>,
        auto: &mut Auto,
    ) -> Result<Self, NoMemory>
        requires serves { Serves sound.now compiler.now }
        requires types { AllByRecursion (BelongsTo sound.now.types) types.now }
        requires patterns { AllByRecursion (IsLinearPattern sound.now.patterns) ids.items }
        ensures patterns { IfOk result (ArePatterns (names_of (program_tree sound.now)) sound.now.patterns) }
        ensures types { IfOk result (λ made. AllPaired (AcceptsType (names_of (program_tree sound.now)) sound.now.types auto.new) types.now (type_states made.compiled)) }
        ensures serve { IfOk result (λ made. ServePoints auto.new made.states) }
    {
        let (compiled, all) = compile_in(alloc, compiler, sound, types, &ids, auto)?;
        let copy = copied(alloc, auto)?;
        let states = PatternStates::shared(alloc, copy)?;
        let numbers = numbers_of(alloc, &ids, sound.program().patterns().len())?;
        let made = Self::of(alloc, states, all, compiled, ids, numbers)?;
        Ok(made)
    }

    /// Patterns of a program, in an automaton of their own. Fails only where memory is refused.
    pub fn alone(
        alloc: Global,
        compiler: &PatternCompiler,
        sound: &SoundProgram,
        ids: Vec<PatternId>,
    ) -> Result<Self, NoMemory>
        requires serves { Serves sound.now compiler.now }
        requires patterns { AllByRecursion (IsLinearPattern sound.now.patterns) ids.items }
        ensures patterns { IfOk result (ArePatterns (names_of (program_tree sound.now)) sound.now.patterns) }
        ensures ids { IfOk result (λ made. made.ids ≡ ids) }
        ensures serve { IfOk result (λ made. (a : Automaton) → ServePoints a made.states) }
    {
        let mut auto = Auto::new(alloc);
        let (compiled, all) = compile_in(alloc, compiler, sound, &[], &ids, &mut auto)?;
        let states = PatternStates::new(alloc, auto)?;
        let made = Self::of(alloc, states, all, compiled, ids, Vec::new(alloc))?;
        Ok(made)
    }

    /// The states of the types, in their order.
    pub fn types(&self) -> &[State]
        ensures { result.now ≡ type_states self.now.compiled }
    {
        self.compiled.types()
    }

    /// Which of the patterns this one is, where it is one of them.
    pub fn number_of(&self, id: PatternId) -> Option<usize>
        ensures { IfSome result (λ number. slice_get self.now.ids.items number ≡ Some id) }
    {
        let number = *self.numbers.get(id.at())?;
        match self.ids.get(number) {
            Some(found) if *found == id => Some(number),
            _ => None,
        }
    }

    /// Adds a state for what a state accepts and none of these states of the patterns does.
    pub(crate) fn take_away(
        &self,
        alloc: Global,
        auto: &mut Auto,
        state: State,
        rights: &[State],
    ) -> Result<State, NoMemory>
        requires universal { IsUniversal self.now.states.auto self.now.all }
        requires serve { ServePoints auto.old self.now.states }
        requires state { IsState auto.old state }
        requires rights { AllByRecursion (IsState self.now.states.auto) rights.now }
        ensures belongs { IfOk result (IsState auto.new) }
        ensures exact { IfOk result (λ made. (d : Document) → accepts auto.new d made ≡ (accepts auto.old d state && not (any_accepts self.now.states.auto rights.now d))) }
        ensures extends { Extends auto.old auto.new }
    {
        if rights.is_empty() {
            return Ok(state);
        }
        let mut table = PointTable::new(alloc);
        let asked = PointParts {
            left: state,
            pattern: self.all,
            rights,
        };
        let found = table.accept(alloc, auto, &self.states, asked)?;
        let made = found_or_nothing(auto, found)?;
        Ok(made)
    }

    /// Adds a state for what a state accepts and none of the first patterns takes, so many of them.
    pub(crate) fn take_first_away(
        &self,
        alloc: Global,
        auto: &mut Auto,
        state: State,
        count: usize,
    ) -> Result<State, NoMemory>
        requires patterns { (E : Definitions) × (rows : List Row) × ArePatterns E rows self.now }
        requires count { count ≤ length self.now.ids.items }
        requires serve { ServePoints auto.old self.now.states }
        requires state { IsState auto.old state }
        ensures belongs { IfOk result (IsState auto.new) }
        ensures exact { IfOk result (λ made. (E : Definitions) (rows : List Row) → ArePatterns E rows self.now → (d : Document) → Accepted auto.new made d ↔ (Accepted auto.old state d × NoneTakes E (placed_patterns rows (take count self.now.ids.items)) d)) }
        ensures extends { Extends auto.old auto.new }
    {
        let firsts = &self.compiled.patterns()[..count];
        let left = self.take_away(alloc, auto, state, firsts)?;
        Ok(left)
    }

    /// The pattern of this number.
    pub fn pattern(&self, number: usize) -> NumberedPattern<'_>
        ensures patterns { result.patterns.now ≡ self.now }
        ensures number { result.number ≡ number }
    {
        NumberedPattern {
            patterns: self,
            number,
        }
    }
}
