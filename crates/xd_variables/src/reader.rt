//! The clauses of matches, read one after the other.

ghost use Rattle.std.specs.Prelude.{◌≡◌, ◌↔◌, ◌++◌, true, [], List, Ok, None, IfOk, IfSome, OnOk, flat_map, length};
ghost use Rattle.std.specs.List.{AllByRecursion, AllZip};
ghost use Rattle.xd_auto.specs.Automaton.{IsState};
ghost use Rattle.xd_least.specs.Least.{Knows};
ghost use Rattle.xd_syntax.specs.Expression.{Expression};
ghost use Rattle.xd_syntax.specs.ExpressionTable.{clauses_of};
ghost use Rattle.xd_syntax.specs.Exprs.{clause_numbers};
ghost use Rattle.xd_syntax.specs.Kept.{program_tree};
ghost use Rattle.xd_syntax.specs.Matches.{SeenMatch};
ghost use Rattle.xd_syntax.specs.May.{IsLive, Scope};
ghost use Rattle.xd_syntax.specs.Patterns.{pattern_tree};
ghost use Rattle.xd_syntax.specs.Placed.{PlacedTree, unplaced};
ghost use Rattle.xd_syntax.specs.PlacedTable.{placed_at};
ghost use Rattle.xd_syntax.specs.Program.{names_of};
ghost use Rattle.xd_syntax.specs.Tree.{Definitions};
ghost use Rattle.xd_patterns.specs.CompiledProgram.{IsLinearPattern};
ghost use Rattle.xd_clauses.specs.Cases.{placed_pattern};
ghost use Rattle.xd_clauses.specs.Clauses.{Accepted, AreGivensOf};
ghost use Rattle.xd_clauses.specs.Compiled.{IsNumbered, IsSomePattern};
ghost use Rattle.xd_check_steps.specs.Walkable.{ClauseCanBeWalked, expr_at};
ghost use Rattle.xd_check_steps.specs.Clauses.{IsCompiledMatch, ServesOn};
ghost use Rattle.xd_check_steps.specs.Found.{IsMet};
ghost use Rattle.xd_check.specs.Walked.{ComesBehind, ComesTo};
ghost use Rattle.xd_check_steps.specs.States.{Grows};
ghost use Rattle.xd_variables.specs.Bound.{reading_of};
ghost use Rattle.xd_variables.specs.Read.{AddsVariables, CanBeRead, IsClauseRead, IsReader, placed_givens};
ghost use Rattle.xd_variables.specs.Seen.{variables_of_clauses, variables_of_match};

use crate::binders::first_places;
use crate::variables::{BoundVariable, Ways};
use std::alloc::Global;
use xd_auto::{Auto, State};
use xd_base::Place;
use xd_bind::Given;
use xd_check_steps::{CompiledMatch, MatchPatterns, pass_on};
use xd_clauses::{CompiledPatterns, NumberedPattern, Remaining, given_nothing};
use xd_doc::{NoMemory, Store};
use xd_least::LeastInhabitants;
use xd_patterns::PatternCompiler;
use xd_prefer::first_bindings;
use xd_scrutinees::MetMatch;
use xd_sound::SoundProgram;
use xd_syntax::{Clause, ExprForm, PatternId};

/// What the clauses of a program are read with.
#[derive(Drop)]
pub(crate) struct Reader {
    pub alloc: Global,
    pub ways: Ways,
    pub sound: SoundProgram,
    pub compiler: PatternCompiler,
    pub patterns: CompiledPatterns,
}

/// What was found: the variables, and what is known of the states.
#[derive(Drop)]
pub(crate) struct Found {
    pub inhabitants: LeastInhabitants,
    pub store: Store,
    pub variables: Vec<BoundVariable>,
}

/// What a clause's variables may be, and whether the clause is live.
#[derive(Drop)]
pub(crate) struct ClauseGivens {
    pub is_live: bool,
    pub givens: Vec<Given>,
}

/// Appends the variables with their places and states.
fn push_variables(
    places: &[Place],
    givens: &[Given],
    variables: &mut Vec<BoundVariable>,
) -> Result<(), NoMemory>
    requires { length places.now ≡ length givens.now }
    ensures { OnOk result (variables.new.items ≡ variables.old.items ++ placed_givens places.now givens.now) }
{
    for (number, given) in givens.iter().enumerate() {
        variables.push(BoundVariable {
            place: places[number],
            word: given.variable.share()?,
            state: given.state,
        })?;
    }
    Ok(())
}

impl Reader {
    /// The variables of the clauses of these matches.
    pub(crate) fn read_matches(
        &self,
        matches: &[MetMatch],
        auto: &mut Auto,
        found: &mut Found,
    ) -> Result<(), NoMemory>
        requires ready { IsReader self.now auto.old }
        requires matches { AllByRecursion (CanBeRead self.now.sound auto.old) matches.now }
        requires known { Knows auto.old found.old.store found.old.inhabitants }
        ensures { OnOk result ((ms : List SeenMatch) → AllZip (IsMet self.now.sound auto.old) ms matches.now → AddsVariables (reading_of self.now.ways) (program_tree self.now.sound) auto.new (flat_map variables_of_match ms) found.old.variables.items found.new.variables.items) }
    {
        for met in matches {
            self.read_match(*met, auto, found)?;
        }
        Ok(())
    }

    /// Those of the clauses of a match.
    fn read_match(&self, met: MetMatch, auto: &mut Auto, found: &mut Found) -> Result<(), NoMemory>
        requires ready { IsReader self.now auto.old }
        requires met { CanBeRead self.now.sound auto.old met }
        requires known { Knows auto.old found.old.store found.old.inhabitants }
        ensures variables { OnOk result ((m : SeenMatch) → IsMet self.now.sound auto.old m met → AddsVariables (reading_of self.now.ways) (program_tree self.now.sound) auto.new (variables_of_match m) found.old.variables.items found.new.variables.items) }
        ensures grows { OnOk result (Grows auto.old auto.new) }
        ensures known { OnOk result (Knows auto.new found.new.store found.new.inhabitants) }
    {
        let node = self.sound.program().exprs().node(met.expr);
        match node.form() {
            ExprForm::Match(_, clauses) => {
                self.read_clauses(met.place, clauses, met.state, auto, found)
            }
            _ => Ok(()),
        }
    }

    /// Those of the clauses of a match at this place, whose scrutinee may be what the state
    /// accepts.
    fn read_clauses(
        &self,
        place: Place,
        clauses: &[Clause],
        scrutinee: State,
        auto: &mut Auto,
        found: &mut Found,
    ) -> Result<(), NoMemory>
        requires ready { IsReader self.now auto.old }
        requires clauses { AllByRecursion (ClauseCanBeWalked self.now.sound) (clause_numbers clauses.now) }
        requires scrutinee { IsState auto.old scrutinee }
        requires known { Knows auto.old found.old.store found.old.inhabitants }
        ensures variables { OnOk result ((S : Scope) (e : Expression) → ComesBehind (program_tree self.now.sound) S e [] (Accepted auto.old scrutinee) → AddsVariables (reading_of self.now.ways) (program_tree self.now.sound) auto.new (variables_of_clauses S e [] (clauses_of (placed_at self.now.sound.patterns) (expr_at self.now.sound) (clause_numbers clauses.now))) found.old.variables.items found.new.variables.items) }
        ensures grows { OnOk result (Grows auto.old auto.new) }
        ensures known { OnOk result (Knows auto.new found.new.store found.new.inhabitants) }
    {
        let own = MatchPatterns::new(
            self.alloc,
            &self.patterns,
            &self.compiler,
            &self.sound,
            clauses,
        )?;
        let compiled = CompiledMatch {
            place,
            clauses,
            numbers: own.numbers(),
            patterns: own.among(&self.patterns),
        };
        self.read_compiled(compiled, scrutinee, auto, found)
    }

    /// The same where the patterns of the clauses are compiled.
    fn read_compiled(
        &self,
        compiled: CompiledMatch<'_>,
        scrutinee: State,
        auto: &mut Auto,
        found: &mut Found,
    ) -> Result<(), NoMemory>
        requires compiled { IsCompiledMatch self.now.sound auto.old compiled }
        requires clauses { AllByRecursion (ClauseCanBeWalked self.now.sound) (clause_numbers compiled.clauses.now) }
        requires scrutinee { IsState auto.old scrutinee }
        requires known { Knows auto.old found.old.store found.old.inhabitants }
        ensures variables { OnOk result ((S : Scope) (e : Expression) → ComesBehind (program_tree self.now.sound) S e [] (Accepted auto.old scrutinee) → AddsVariables (reading_of self.now.ways) (program_tree self.now.sound) auto.new (variables_of_clauses S e [] (clauses_of (placed_at self.now.sound.patterns) (expr_at self.now.sound) (clause_numbers compiled.entry.clauses.now))) found.old.variables.items found.new.variables.items) }
        ensures grows { OnOk result (Grows auto.old auto.new) }
        ensures known { OnOk result (Knows auto.new found.new.store found.new.inhabitants) }
    {
        let clauses = compiled.clauses;
        let patterns = compiled.patterns;
        let mut remaining = Remaining::new(self.alloc, scrutinee)?;
        for (number, clause) in clauses.iter().enumerate() {
            let pattern = patterns.pattern(compiled.numbers[number]);
            let (left, coming) = remaining.coming_to(self.alloc, auto, pattern)?;
            let is_live = self.read_clause(clause.pattern, pattern, coming, auto, found)?;
            remaining = pass_on(pattern, is_live, left)?;
        }
        Ok(())
    }

    /// Those of a clause with this pattern, which is compiled, and whether it is live.
    fn read_clause(
        &self,
        id: PatternId,
        pattern: NumberedPattern<'_>,
        coming: State,
        auto: &mut Auto,
        found: &mut Found,
    ) -> Result<bool, NoMemory>
        requires linear { IsLinearPattern self.now.sound.patterns id }
        requires pattern { IsNumbered (names_of (program_tree self.now.sound)) (pattern_tree self.now.sound.patterns id) pattern.patterns.now pattern.number }
        requires points { ServesOn auto.old pattern.patterns.now }
        requires coming { IsState auto.old coming }
        requires known { Knows auto.old found.old.store found.old.inhabitants }
        ensures variables { IfOk result (λ live. (S : Scope) (e : Expression) (earlier : List PlacedTree) → ComesTo (program_tree self.now.sound) S e earlier (placed_pattern self.now.sound.patterns id) (Accepted auto.old coming) → IsClauseRead (reading_of self.now.ways) (program_tree self.now.sound) S e earlier (placed_pattern self.now.sound.patterns id) auto.new found.old.variables.items found.new.variables.items live) }
        ensures grows { OnOk result (Grows auto.old auto.new) }
        ensures known { OnOk result (Knows auto.new found.new.store found.new.inhabitants) }
    {
        let places = first_places(self.alloc, self.sound.program().patterns(), id)?;
        let read = self.givens(pattern, coming, auto, found)?;
        push_variables(&places, &read.givens, &mut found.variables)?;
        Ok(read.is_live)
    }

    /// What the variables of a pattern may be, on documents that the state accepts: nothing where
    /// it takes none of these.
    fn givens(
        &self,
        pattern: NumberedPattern<'_>,
        coming: State,
        auto: &mut Auto,
        found: &mut Found,
    ) -> Result<ClauseGivens, NoMemory>
        requires pattern { IsSomePattern pattern.patterns.now pattern.number }
        requires points { ServesOn auto.old pattern.patterns.now }
        requires coming { IsState auto.old coming }
        requires known { Knows auto.old found.old.store found.old.inhabitants }
        ensures live { IfOk result (λ read. (E : Definitions) (P : PlacedTree) → IsNumbered E (unplaced P) pattern.entry.patterns.now pattern.entry.number → (read.is_live ≡ true) ↔ IsLive E (Accepted auto.old coming) [] P) }
        ensures givens { IfOk result (λ read. (E : Definitions) (P : PlacedTree) → IsNumbered E (unplaced P) pattern.entry.patterns.now pattern.entry.number → AreGivensOf (reading_of self.now.ways E (Accepted auto.old coming) [] P) P auto.new read.givens.items) }
        ensures grows { OnOk result (Grows auto.old auto.new) }
        ensures known { OnOk result (Knows auto.new found.new.store found.new.inhabitants) }
        ensures variables { found.new.variables ≡ found.old.variables }
    {
        let bound = self.bindings(pattern, coming, auto, found)?;
        match bound {
            Some(givens) => Ok(ClauseGivens {
                is_live: true,
                givens,
            }),
            None => {
                let givens = given_nothing(self.alloc, pattern.variables(), auto)?;
                Ok(ClauseGivens {
                    is_live: false,
                    givens,
                })
            }
        }
    }

    /// The same where the pattern takes some of these; else `None`.
    fn bindings(
        &self,
        pattern: NumberedPattern<'_>,
        coming: State,
        auto: &mut Auto,
        found: &mut Found,
    ) -> Result<Option<Vec<Given>>, NoMemory>
        requires pattern { IsSomePattern pattern.patterns.now pattern.number }
        requires points { ServesOn auto.old pattern.patterns.now }
        requires coming { IsState auto.old coming }
        requires known { Knows auto.old found.old.store found.old.inhabitants }
        ensures dead { result ≡ Ok None → (E : Definitions) (P : PlacedTree) → IsNumbered E (unplaced P) pattern.entry.patterns.now pattern.entry.number → IsLive E (Accepted auto.old coming) [] P → ⊥ }
        ensures live { IfOk result (λ read. IfSome read (λ givens. (E : Definitions) (P : PlacedTree) → IsNumbered E (unplaced P) pattern.entry.patterns.now pattern.entry.number → IsLive E (Accepted auto.old coming) [] P)) }
        ensures givens { IfOk result (λ read. IfSome read (λ givens. (E : Definitions) (P : PlacedTree) → IsNumbered E (unplaced P) pattern.entry.patterns.now pattern.entry.number → AreGivensOf (reading_of self.now.ways E (Accepted auto.old coming) [] P) P auto.new givens.items)) }
        ensures grows { OnOk result (Grows auto.old auto.new) }
        ensures known { Knows auto.new found.new.store found.new.inhabitants }
        ensures variables { found.new.variables ≡ found.old.variables }
    {
        let inhabitants = &mut found.inhabitants;
        let store = &mut found.store;
        match self.ways {
            Ways::Whole => pattern.bindings(self.alloc, auto, coming, inhabitants, store),
            Ways::First => first_bindings(self.alloc, pattern, auto, coming, inhabitants, store),
        }
    }
}
