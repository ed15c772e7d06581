//! Clauses of a match: their compiled patterns, what their variables may be, what goes on to the
//! next one, and what no clause takes.

ghost use Rattle.std.specs.Prelude.{◌≡◌, ◌≢◌, ◌↔◌, ◌++◌, true, None, IfOk, IfSome, OnOk};
ghost use Rattle.std.specs.List.{AllByRecursion};
ghost use Rattle.xd_doc.specs.Document.{Document};
ghost use Rattle.xd_doc.specs.StoreNodes.{Keeps};
ghost use Rattle.xd_auto.specs.Automaton.{Automaton, IsState};
ghost use Rattle.xd_syntax.specs.CheckFaults.{LineWhere, not_exhaustive};
ghost use Rattle.xd_syntax.specs.Exprs.{clause_numbers};
ghost use Rattle.xd_syntax.specs.Kept.{program_tree};
ghost use Rattle.xd_syntax.specs.Placed.{PlacedTree, unplaced};
ghost use Rattle.xd_syntax.specs.Program.{names_of};
ghost use Rattle.xd_syntax.specs.Tree.{Definitions};
ghost use Rattle.xd_syntax.specs.Ways.{Takes};
ghost use Rattle.xd_clauses.specs.Behind.{AreWaiting, Remains, StandsIn};
ghost use Rattle.xd_clauses.specs.Clauses.{Accepted};
ghost use Rattle.xd_clauses.specs.Compiled.{ArePatterns, IsNumbered, IsSomePattern};
ghost use Rattle.xd_clauses.specs.declared.compiled.CompiledPatterns.{CompiledPatterns as PatternsView};
ghost use Rattle.xd_meaning.specs.KeptFaults.{AllPaired};
ghost use Rattle.xd_patterns.specs.Compiler.{Serves};
ghost use Rattle.xd_check_steps.specs.FoundLines.{AddsLines, told_size};
ghost use Rattle.xd_check_steps.specs.InScope.{given_variables};
ghost use Rattle.xd_check_steps.specs.Known.{IsKnown};
ghost use Rattle.xd_check_steps.specs.Clauses.{AreMatchPatterns, HasNumber, ServesOn, patterns_among};
ghost use Rattle.xd_check_steps.specs.Walkable.{ClauseCanBeWalked};
ghost use Rattle.xd_check_steps.specs.States.{with_found};

use crate::findings::Findings;
use crate::lines::{Finding, FoundLine};
use crate::variables::{Variable, Variables};
use std::alloc::Global;
use xd_auto::{Auto, State};
use xd_base::Place;
use xd_bind::Given;
use xd_clauses::{CompiledPatterns, NumberedPattern, Remaining, accepted_document};
use xd_doc::{NoMemory, Store};
use xd_patterns::PatternCompiler;
use xd_sound::SoundProgram;
use xd_syntax::Clause;

/// The clauses of a match at this place.
#[derive(Clone, Copy)]
pub struct MatchClauses<'a> {
    pub place: Place,
    pub clauses: &'a [Clause],
}

/// A clause, and its compiled pattern.
#[derive(Clone, Copy)]
pub struct CompiledClause<'a> {
    pub clause: Clause,
    pub pattern: NumberedPattern<'a>,
}

/// A match whose clauses' patterns are compiled.
#[derive(Clone, Copy)]
pub struct CompiledMatch<'a> {
    pub place: Place,
    pub clauses: &'a [Clause],
    /// The number of each clause's pattern among these patterns.
    pub numbers: &'a [usize],
    pub patterns: &'a CompiledPatterns,
}

/// Which patterns the clauses of a match have: compiled ones of the program, or, where these aren't
/// all, ones that were compiled for the match alone.
#[derive(Drop)]
pub struct MatchPatterns {
    own: Option<CompiledPatterns>,
    /// The number of each clause's pattern.
    numbers: Vec<usize>,
}

impl MatchPatterns {
    /// Those of these clauses, where the program's patterns are compiled so. Fails only where
    /// memory is refused.
    pub fn new(
        alloc: Global,
        patterns: &CompiledPatterns,
        compiler: &PatternCompiler,
        sound: &SoundProgram,
        clauses: &[Clause],
    ) -> Result<Self, NoMemory>
        requires serves { Serves sound.now compiler.now }
        requires patterns { ArePatterns (names_of (program_tree sound.now)) sound.now.patterns patterns.now }
        requires clauses { AllByRecursion (ClauseCanBeWalked sound.now) (clause_numbers clauses.now) }
        ensures { IfOk result (λ made. (a : Automaton) → ServesOn a patterns.now → AreMatchPatterns sound.now a clauses.now patterns.now made) }
    {
        let found = numbers_among(alloc, patterns, clauses)?;
        match found {
            Some(numbers) => Ok(Self { own: None, numbers }),
            None => own_patterns(alloc, compiler, sound, clauses),
        }
    }

    /// The patterns, where the program's are these.
    pub fn among<'a>(&'a self, patterns: &'a CompiledPatterns) -> &'a CompiledPatterns
        ensures { result.now ≡ patterns_among patterns.now self.now.own }
    {
        match &self.own {
            Some(own) => own,
            None => patterns,
        }
    }

    /// The number of each clause's pattern among them.
    pub fn numbers(&self) -> &[usize]
        ensures { result.now ≡ self.now.numbers.items }
    {
        self.numbers.as_slice()
    }
}

/// The number of each clause's pattern among compiled ones, where all of them are.
fn numbers_among(
    alloc: Global,
    patterns: &CompiledPatterns,
    clauses: &[Clause],
) -> Result<Option<Vec<usize>>, NoMemory>
    ensures { IfOk result (λ found. IfSome found (λ numbers. AllPaired (HasNumber patterns.now) clauses.now numbers.items)) }
{
    let mut numbers = Vec::with_capacity(alloc, clauses.len())?;
    for clause in clauses {
        match patterns.number_of(clause.pattern) {
            Some(number) => numbers.push(number)?,
            None => return Ok(None),
        }
    }
    Ok(Some(numbers))
}

/// The patterns of clauses, compiled for them alone.
fn own_patterns(
    alloc: Global,
    compiler: &PatternCompiler,
    sound: &SoundProgram,
    clauses: &[Clause],
) -> Result<MatchPatterns, NoMemory>
    requires serves { Serves sound.now compiler.now }
    requires clauses { AllByRecursion (ClauseCanBeWalked sound.now) (clause_numbers clauses.now) }
    ensures { IfOk result (λ made. (a : Automaton) (m : PatternsView) → AreMatchPatterns sound.now a clauses.now m made) }
{
    let mut ids = Vec::with_capacity(alloc, clauses.len())?;
    let mut numbers = Vec::with_capacity(alloc, clauses.len())?;
    for (number, clause) in clauses.iter().enumerate() {
        ids.push(clause.pattern)?;
        numbers.push(number)?;
    }
    let patterns = CompiledPatterns::alone(alloc, compiler, sound, ids)?;
    Ok(MatchPatterns {
        own: Some(patterns),
        numbers,
    })
}

/// Brings the variables of a pattern into scope, the first one as the newest.
///
/// After `NoMemory` some of them may be in scope, before those that were.
pub fn bring_in(givens: Vec<Given>, variables: &mut Variables) -> Result<(), NoMemory>
    ensures { OnOk result (variables.new ≡ given_variables givens.items ++ variables.old) }
{
    let mut givens = givens;
    while let Some(given) = givens.pop() {
        let Given { variable, state } = given;
        variables.push(Variable {
            name: variable,
            state,
        })?;
    }
    Ok(())
}

/// What remains after a clause: what its pattern doesn't take, where the clause is live. A dead
/// clause takes nothing.
///
/// Fails only where memory is refused.
pub fn pass_on(
    pattern: NumberedPattern<'_>,
    is_live: bool,
    remaining: Remaining,
) -> Result<Remaining, NoMemory>
    requires pattern { IsSomePattern pattern.patterns.now pattern.number }
    requires waiting { AreWaiting pattern.patterns.now remaining.waiting }
    ensures stands { IfOk result (λ left. (a : Automaton) → StandsIn a pattern.entry.patterns.now remaining → StandsIn a pattern.entry.patterns.now left) }
    ensures remains { IfOk result (λ left. (E : Definitions) (P : PlacedTree) → IsNumbered E (unplaced P) pattern.entry.patterns.now pattern.entry.number → (a : Automaton) (d : Document) → Remains a pattern.entry.patterns.now left d ↔ (Remains a pattern.entry.patterns.now remaining d × (is_live ≡ true → Takes E (unplaced P) d → ⊥))) }
{
    if is_live {
        Ok(remaining.without(pattern)?)
    } else {
        Ok(remaining)
    }
}

/// The same where a state was found if the clause is live. It is put after the others.
///
/// After `NoMemory` nothing is said of what was found so far.
pub fn pass_found(
    pattern: NumberedPattern<'_>,
    found: Option<State>,
    remaining: Remaining,
    states: &mut Vec<State>,
) -> Result<Remaining, NoMemory>
    requires pattern { IsSomePattern pattern.patterns.now pattern.number }
    requires waiting { AreWaiting pattern.patterns.now remaining.waiting }
    ensures stands { IfOk result (λ left. (a : Automaton) → StandsIn a pattern.entry.patterns.now remaining → StandsIn a pattern.entry.patterns.now left) }
    ensures remains { IfOk result (λ left. (E : Definitions) (P : PlacedTree) → IsNumbered E (unplaced P) pattern.entry.patterns.now pattern.entry.number → (a : Automaton) (d : Document) → Remains a pattern.entry.patterns.now left d ↔ (Remains a pattern.entry.patterns.now remaining d × (found ≢ None → Takes E (unplaced P) d → ⊥))) }
    ensures states { OnOk result (states.new.items ≡ with_found states.old.items found) }
{
    match found {
        Some(state) => {
            states.push(state)?;
            Ok(pass_on(pattern, true, remaining)?)
        }
        None => Ok(pass_on(pattern, false, remaining)?),
    }
}

/// The line of a match at this place where documents come after its last clause.
pub fn see_uncovered(
    alloc: Global,
    place: Place,
    auto: &Auto,
    arriving: State,
    findings: &mut Findings,
    store: &mut Store,
) -> Result<(), NoMemory>
    requires arriving { IsState auto.now arriving }
    requires known { IsKnown auto.now store.old findings.old.known }
    ensures lines { OnOk result (AddsLines store.new (LineWhere told_size place not_exhaustive (Accepted auto.now arriving)) findings.old.lines.items findings.new.lines.items) }
    ensures met { findings.new.met.items ≡ findings.old.met.items }
    ensures known { OnOk result (IsKnown auto.now store.new findings.new.known) }
    ensures keeps { Keeps store.old store.new }
{
    let found = accepted_document(
        alloc,
        auto,
        arriving,
        &mut findings.known.inhabitants,
        store,
    )?;
    if let Some(document) = found {
        findings.lines.push(FoundLine {
            place,
            finding: Finding::NotExhaustive(document),
        })?;
    }
    Ok(())
}
