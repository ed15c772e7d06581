//! Expressions: a state for what each may be, and the lines and the matches in it.
//!
//! The nodes are walked by recursion, no deeper than expressions stand in one another.

ghost use Rattle.std.specs.Prelude.{◌≡◌, ◌<◌, ◌↔◌, true, List, [], map, IfOk, OnOk};
ghost use Rattle.std.specs.List.{AllByRecursion, slice_get};
ghost use Rattle.xd_doc.specs.Document.{Document};
ghost use Rattle.xd_doc.specs.StoreNodes.{Keeps};
ghost use Rattle.xd_auto.specs.Automaton.{IsState, accepts};
ghost use Rattle.xd_syntax.specs.Kept.{program_tree};
ghost use Rattle.xd_syntax.specs.Placed.{PlacedTree};
ghost use Rattle.xd_syntax.specs.PlacedTable.{placed_at};
ghost use Rattle.std.specs.Option.{IfSome};
ghost use Rattle.xd_syntax.specs.Program.{Parameter, function_of, names_of};
ghost use Rattle.xd_syntax.specs.Table.{tree_at};
ghost use Rattle.xd_syntax.specs.May.{FitsResult, Scope};
ghost use Rattle.xd_syntax.specs.CheckFaults.{parameters_of};
ghost use Rattle.xd_syntax.specs.Expression.{Expression, arguments_of, place_of_expression};
ghost use Rattle.xd_syntax.specs.ExpressionTable.{clauses_of};
ghost use Rattle.xd_syntax.specs.Exprs.{IsExpr, clause_numbers, expr_numbers};
ghost use Rattle.xd_points.specs.Meaning.{ServePoints};
ghost use Rattle.xd_clauses.specs.Clauses.{Accepted};
ghost use Rattle.xd_clauses.specs.Compiled.{IsNumbered};
ghost use Rattle.xd_check_steps.specs.Found.{AddsFound, found_in};
ghost use Rattle.xd_check_steps.specs.FoundLines.{AddsLines};
ghost use Rattle.xd_check_steps.specs.InScope.{AreStates, ScopeStands};
ghost use Rattle.xd_check_steps.specs.Known.{IsKnown};
ghost use Rattle.xd_check_steps.specs.Signed.{AreParameters};
ghost use Rattle.xd_check_steps.specs.Walkable.{CanBeWalked, ClauseCanBeWalked, expr_at};
ghost use Rattle.xd_check_steps.specs.Clauses.{IsCompiledMatch};
ghost use Rattle.xd_check.specs.Ready.{IsReady};
ghost use Rattle.xd_check.specs.Walked.{AreClausesWalked, ArePartsWalked, ComesBehind, ComesTo, IsClauseWalked, IsWalked, LinesOfArgument, SeenInArguments};
ghost use Rattle.xd_check_steps.specs.States.{Grows};

use crate::checker::Checker;
use std::mem;
use xd_auto::{Auto, State};
use xd_check_steps::{
    CompiledClause, CompiledMatch, Finding, Findings, FoundLine, MatchClauses, MatchPatterns,
    MetMatch, Variables, bring_in, join_states, meet_before, misfit, pass_found, see_uncovered,
    text_state, unite_states, variable_state,
};
use xd_clauses::Remaining;
use xd_doc::{Label, NoMemory, Store};
use xd_syntax::{ExprForm, ExprId};

/// The state of the type of the parameter of this number, if there is one.
fn parameter_state(parameters: &[State], number: usize) -> Option<State>
    ensures { result ≡ slice_get parameters.now number }
{
    parameters.get(number).copied()
}

impl Checker {
    /// A state that accepts what the expression may be. Its lines and its matches are added to the
    /// others.
    #[cycle(expressions)]
    pub(crate) fn in_expression(
        &self,
        id: ExprId,
        variables: &mut Variables,
        auto: &mut Auto,
        findings: &mut Findings,
        store: &mut Store,
    ) -> Result<State, NoMemory>
        requires ready { IsReady self.now auto.old }
        requires expression { CanBeWalked self.now.sound id.at }
        requires variables { AreStates auto.old variables.old }
        requires known { IsKnown auto.old store.old findings.old.known }
        ensures belongs { IfOk result (IsState auto.new) }
        ensures walked { IfOk result (λ state. (S : Scope) → ScopeStands (program_tree self.now.sound) S auto.old variables.old → IsWalked self.now.sound S (expr_at self.now.sound id.at) auto.new store.new (found_in findings.old) (found_in findings.new) state) }
        ensures variables { OnOk result (variables.new ≡ variables.old) }
        ensures grows { OnOk result (Grows auto.old auto.new) }
        ensures known { OnOk result (IsKnown auto.new store.new findings.new.known) }
        ensures keeps { Keeps store.old store.new }
    {
        let node = self.sound.program().exprs().node(id);
        match node.form() {
            ExprForm::Empty => Ok(auto.add_state(true)?),
            ExprForm::Text(text) => Ok(text_state(self.alloc, text, auto)?),
            ExprForm::Var(word) => Ok(variable_state(variables, word, auto)?),
            ExprForm::Elem(label, content) => {
                let inside = self.in_expression(*content, variables, auto, findings, store)?;
                Ok(auto.wrap(label, inside)?)
            }
            ExprForm::Seq(parts) => {
                let states = self.in_parts(parts, variables, auto, findings, store)?;
                Ok(join_states(states, auto)?)
            }
            ExprForm::Call(word, arguments) => {
                Ok(self.in_call(word, arguments, variables, auto, findings, store)?)
            }
            ExprForm::Match(scrutinee, clauses) => {
                let place = node.place();
                let earlier = mem::replace(&mut findings.met, Vec::new(self.alloc));
                let state = self.in_expression(*scrutinee, variables, auto, findings, store)?;
                let found = MetMatch {
                    expr: id,
                    place,
                    state,
                };
                meet_before(earlier, found, &mut findings.met)?;
                let matched = MatchClauses { place, clauses };
                Ok(self.in_clauses(matched, state, variables, auto, findings, store)?)
            }
        }
    }

    /// The same of the parts of a sequence, with a state for each.
    #[cycle(expressions)]
    fn in_parts(
        &self,
        parts: &[ExprId],
        variables: &mut Variables,
        auto: &mut Auto,
        findings: &mut Findings,
        store: &mut Store,
    ) -> Result<Vec<State>, NoMemory>
        requires ready { IsReady self.now auto.old }
        requires parts { AllByRecursion (CanBeWalked self.now.sound) (expr_numbers parts.now) }
        requires variables { AreStates auto.old variables.old }
        requires known { IsKnown auto.old store.old findings.old.known }
        ensures belong { IfOk result (λ states. AllByRecursion (IsState auto.new) states.items) }
        ensures walked { IfOk result (λ states. (S : Scope) → ScopeStands (program_tree self.now.sound) S auto.old variables.old → ArePartsWalked self.now.sound S (map (expr_at self.now.sound) (expr_numbers parts.now)) auto.new store.new (found_in findings.old) (found_in findings.new) states.items) }
        ensures variables { OnOk result (variables.new ≡ variables.old) }
        ensures grows { OnOk result (Grows auto.old auto.new) }
        ensures known { OnOk result (IsKnown auto.new store.new findings.new.known) }
        ensures keeps { Keeps store.old store.new }
    {
        let mut states = Vec::new(self.alloc);
        for part in parts {
            let state = self.in_expression(*part, variables, auto, findings, store)?;
            states.push(state)?;
        }
        Ok(states)
    }

    /// The same of a call: its state is that of the declared result, whatever the body is. Where
    /// there is no function of the name, the call may be nothing.
    #[cycle(expressions)]
    fn in_call(
        &self,
        word: &Label,
        arguments: &[ExprId],
        variables: &mut Variables,
        auto: &mut Auto,
        findings: &mut Findings,
        store: &mut Store,
    ) -> Result<State, NoMemory>
        requires ready { IsReady self.now auto.old }
        requires arguments { AllByRecursion (CanBeWalked self.now.sound) (expr_numbers arguments.now) }
        requires variables { AreStates auto.old variables.old }
        requires known { IsKnown auto.old store.old findings.old.known }
        ensures belongs { IfOk result (IsState auto.new) }
        ensures result { IfOk result (λ state. (d : Document) → (accepts auto.new d state ≡ true) ↔ FitsResult (names_of (program_tree self.now.sound)) (function_of (program_tree self.now.sound).functions word.now) d) }
        ensures found { OnOk result ((S : Scope) → ScopeStands (program_tree self.now.sound) S auto.old variables.old → AddsFound self.now.sound auto.new store.new (SeenInArguments (program_tree self.now.sound) S (parameters_of (function_of (program_tree self.now.sound).functions word.now)) (arguments_of (map (expr_at self.now.sound) (expr_numbers arguments.now)))) (found_in findings.old) (found_in findings.new)) }
        ensures variables { OnOk result (variables.new ≡ variables.old) }
        ensures grows { OnOk result (Grows auto.old auto.new) }
        ensures known { OnOk result (IsKnown auto.new store.new findings.new.known) }
        ensures keeps { Keeps store.old store.new }
    {
        match self.signatures.find(word) {
            Some(signature) => {
                let parameters = &signature.parameters;
                self.in_arguments(parameters, arguments, variables, auto, findings, store)?;
                Ok(signature.declared)
            }
            None => {
                self.in_arguments(&[], arguments, variables, auto, findings, store)?;
                Ok(auto.add_state(false)?)
            }
        }
    }

    /// The lines and the matches of arguments, where the parameters' types have these states.
    #[cycle(expressions)]
    fn in_arguments(
        &self,
        parameters: &[State],
        arguments: &[ExprId],
        variables: &mut Variables,
        auto: &mut Auto,
        findings: &mut Findings,
        store: &mut Store,
    ) -> Result<(), NoMemory>
        requires ready { IsReady self.now auto.old }
        requires arguments { AllByRecursion (CanBeWalked self.now.sound) (expr_numbers arguments.now) }
        requires parameters { AllByRecursion (IsState auto.old) parameters.now }
        requires variables { AreStates auto.old variables.old }
        requires known { IsKnown auto.old store.old findings.old.known }
        ensures found { OnOk result ((S : Scope) (qs : List Parameter) → ScopeStands (program_tree self.now.sound) S auto.old variables.old → AreParameters (names_of (program_tree self.now.sound)) auto.old qs parameters.now → AddsFound self.now.sound auto.new store.new (SeenInArguments (program_tree self.now.sound) S qs (arguments_of (map (expr_at self.now.sound) (expr_numbers arguments.now)))) (found_in findings.old) (found_in findings.new)) }
        ensures variables { OnOk result (variables.new ≡ variables.old) }
        ensures grows { OnOk result (Grows auto.old auto.new) }
        ensures known { OnOk result (IsKnown auto.new store.new findings.new.known) }
        ensures keeps { Keeps store.old store.new }
    {
        for (number, argument) in arguments.iter().enumerate() {
            let state = self.in_expression(*argument, variables, auto, findings, store)?;
            let wanted = parameter_state(parameters, number);
            self.see_argument(*argument, state, wanted, auto, findings, store)?;
        }
        Ok(())
    }

    /// The line of an argument where it may be what its parameter's type, with this state, doesn't
    /// have. An argument without a parameter has none.
    fn see_argument(
        &self,
        argument: ExprId,
        state: State,
        wanted: Option<State>,
        auto: &Auto,
        findings: &mut Findings,
        store: &mut Store,
    ) -> Result<(), NoMemory>
        requires argument { IsExpr self.now.sound.exprs argument }
        requires state { IsState auto.now state }
        requires wanted { IfSome wanted (IsState auto.now) }
        requires known { IsKnown auto.now store.old findings.old.known }
        ensures lines { OnOk result (AddsLines store.new (LinesOfArgument auto.now (place_of_expression (expr_at self.now.sound argument.at)) state wanted) findings.old.lines.items findings.new.lines.items) }
        ensures met { findings.new.met.items ≡ findings.old.met.items }
        ensures known { OnOk result (IsKnown auto.now store.new findings.new.known) }
        ensures keeps { Keeps store.old store.new }
    {
        let Some(wanted) = wanted else {
            return Ok(());
        };
        if let Some(document) = misfit(
            self.alloc,
            auto,
            &mut findings.known,
            state,
            wanted,
            store,
        )? {
            findings.lines.push(FoundLine {
                place: self.place_of(argument),
                finding: Finding::Argument(document),
            })?;
        }
        Ok(())
    }

    /// The same of the clauses of a match at this place.
    #[cycle(expressions)]
    fn in_clauses(
        &self,
        matched: MatchClauses<'_>,
        scrutinee: State,
        variables: &mut Variables,
        auto: &mut Auto,
        findings: &mut Findings,
        store: &mut Store,
    ) -> Result<State, NoMemory>
        requires ready { IsReady self.now auto.old }
        requires clauses { AllByRecursion (ClauseCanBeWalked self.now.sound) (clause_numbers matched.clauses.now) }
        requires scrutinee { IsState auto.old scrutinee }
        requires variables { AreStates auto.old variables.old }
        requires known { IsKnown auto.old store.old findings.old.known }
        ensures belongs { IfOk result (IsState auto.new) }
        ensures walked { IfOk result (λ state. (S : Scope) (e : Expression) → ScopeStands (program_tree self.now.sound) S auto.old variables.old → ComesBehind (program_tree self.now.sound) S e [] (Accepted auto.old scrutinee) → AreClausesWalked self.now.sound S matched.entry.place e (clauses_of (placed_at self.now.sound.patterns) (expr_at self.now.sound) (clause_numbers matched.entry.clauses.now)) auto.new store.new (found_in findings.old) (found_in findings.new) state) }
        ensures variables { OnOk result (variables.new ≡ variables.old) }
        ensures grows { OnOk result (Grows auto.old auto.new) }
        ensures known { OnOk result (IsKnown auto.new store.new findings.new.known) }
        ensures keeps { Keeps store.old store.new }
    {
        let own = MatchPatterns::new(
            self.alloc,
            &self.patterns,
            &self.compiler,
            &self.sound,
            matched.clauses,
        )?;
        let compiled = CompiledMatch {
            place: matched.place,
            clauses: matched.clauses,
            numbers: own.numbers(),
            patterns: own.among(&self.patterns),
        };
        self.in_match(compiled, scrutinee, variables, auto, findings, store)
    }

    /// The same where the patterns of the clauses are compiled.
    #[cycle(expressions)]
    fn in_match(
        &self,
        compiled: CompiledMatch<'_>,
        scrutinee: State,
        variables: &mut Variables,
        auto: &mut Auto,
        findings: &mut Findings,
        store: &mut Store,
    ) -> Result<State, NoMemory>
        requires ready { IsReady self.now auto.old }
        requires compiled { IsCompiledMatch self.now.sound auto.old compiled }
        requires clauses { AllByRecursion (ClauseCanBeWalked self.now.sound) (clause_numbers compiled.clauses.now) }
        requires scrutinee { IsState auto.old scrutinee }
        requires variables { AreStates auto.old variables.old }
        requires known { IsKnown auto.old store.old findings.old.known }
        ensures belongs { IfOk result (IsState auto.new) }
        ensures walked { IfOk result (λ state. (S : Scope) (e : Expression) → ScopeStands (program_tree self.now.sound) S auto.old variables.old → ComesBehind (program_tree self.now.sound) S e [] (Accepted auto.old scrutinee) → AreClausesWalked self.now.sound S compiled.entry.place e (clauses_of (placed_at self.now.sound.patterns) (expr_at self.now.sound) (clause_numbers compiled.entry.clauses.now)) auto.new store.new (found_in findings.old) (found_in findings.new) state) }
        ensures variables { OnOk result (variables.new ≡ variables.old) }
        ensures grows { OnOk result (Grows auto.old auto.new) }
        ensures known { OnOk result (IsKnown auto.new store.new findings.new.known) }
        ensures keeps { Keeps store.old store.new }
    {
        let clauses = compiled.clauses;
        let patterns = compiled.patterns;
        let mut remaining = Remaining::new(self.alloc, scrutinee)?;
        let mut states = Vec::new(self.alloc);
        for (number, clause) in clauses.iter().enumerate() {
            let pattern = patterns.pattern(compiled.numbers[number]);
            let (coming, arriving) = remaining.coming_to(self.alloc, auto, pattern)?;
            let clause = CompiledClause {
                clause: *clause,
                pattern,
            };
            let found = self.in_clause(clause, arriving, variables, auto, findings, store)?;
            remaining = pass_found(pattern, found, coming, &mut states)?;
        }
        let left = remaining.left_over(self.alloc, auto, patterns)?;
        see_uncovered(self.alloc, compiled.place, auto, left, findings, store)?;
        Ok(unite_states(states, auto)?)
    }

    /// The same of a clause, whose pattern is compiled: there is a state where the clause is live.
    #[cycle(expressions)]
    fn in_clause(
        &self,
        clause: CompiledClause<'_>,
        arriving: State,
        variables: &mut Variables,
        auto: &mut Auto,
        findings: &mut Findings,
        store: &mut Store,
    ) -> Result<Option<State>, NoMemory>
        requires ready { IsReady self.now auto.old }
        requires clause { ClauseCanBeWalked self.now.sound (clause.clause.pattern.at, clause.clause.body.at) }
        requires pattern { IsNumbered (names_of (program_tree self.now.sound)) (tree_at self.now.sound.patterns clause.clause.pattern.at) clause.pattern.patterns.now clause.pattern.number }
        requires points { ServePoints auto.old clause.pattern.patterns.now.states }
        requires arriving { IsState auto.old arriving }
        requires variables { AreStates auto.old variables.old }
        requires known { IsKnown auto.old store.old findings.old.known }
        ensures belongs { IfOk result (λ found. IfSome found (IsState auto.new)) }
        ensures walked { IfOk result (λ found. (S : Scope) (e : Expression) (earlier : List PlacedTree) → ScopeStands (program_tree self.now.sound) S auto.old variables.old → ComesTo (program_tree self.now.sound) S e earlier (placed_at self.now.sound.patterns clause.entry.clause.pattern.at) (Accepted auto.old arriving) → IsClauseWalked self.now.sound S e earlier (placed_at self.now.sound.patterns clause.entry.clause.pattern.at) (expr_at self.now.sound clause.entry.clause.body.at) auto.new store.new (found_in findings.old) (found_in findings.new) found) }
        ensures variables { OnOk result (variables.new ≡ variables.old) }
        ensures grows { OnOk result (Grows auto.old auto.new) }
        ensures known { OnOk result (IsKnown auto.new store.new findings.new.known) }
        ensures keeps { Keeps store.old store.new }
    {
        let inhabitants = &mut findings.known.inhabitants;
        let found = clause
            .pattern
            .bindings(self.alloc, auto, arriving, inhabitants, store)?;
        let Some(givens) = found else {
            findings.lines.push(FoundLine {
                place: self.pattern_place(clause.clause.pattern),
                finding: Finding::DeadClause,
            })?;
            return Ok(None);
        };
        let before = variables.len();
        bring_in(givens, variables)?;
        let state = self.in_expression(clause.clause.body, variables, auto, findings, store)?;
        variables.truncate(before);
        Ok(Some(state))
    }
}
