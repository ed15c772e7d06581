//! What the walk over a program's functions knows, and the walk over functions.

ghost use Rattle.std.specs.Prelude.{◌≡◌, ◌<◌, length, IfOk, OnOk};
ghost use Rattle.xd_doc.specs.StoreNodes.{Keeps};
ghost use Rattle.xd_syntax.specs.Kept.{AddsTypes, function_definition, program_tree};
ghost use Rattle.xd_auto.specs.Automaton.{IsState};
ghost use Rattle.xd_syntax.specs.Placed.{place_of};
ghost use Rattle.xd_syntax.specs.PlacedTable.{placed_at};
ghost use Rattle.xd_syntax.specs.Patterns.{IsPattern};
ghost use Rattle.xd_syntax.specs.Exprs.{IsExpr};
ghost use Rattle.xd_syntax.specs.Expression.{place_of_expression};
ghost use Rattle.xd_syntax.specs.CheckFaults.{LineWhere, wrong_result};
ghost use Rattle.xd_syntax.specs.Program.{names_of};
ghost use Rattle.xd_patterns.specs.Compiler.{Serves};
ghost use Rattle.xd_clauses.specs.Compiled.{ArePatterns};
ghost use Rattle.xd_check_steps.specs.Found.{AddsFound, found_in};
ghost use Rattle.xd_check_steps.specs.FoundLines.{AddsLines, told_size};
ghost use Rattle.xd_check_steps.specs.InScope.{parameters_in_scope};
ghost use Rattle.xd_check_steps.specs.Known.{IsKnown};
ghost use Rattle.xd_check_steps.specs.Clauses.{ServesOn};
ghost use Rattle.xd_check_steps.specs.Signed.{AreSignatures};

use std::alloc::Global;
use xd_auto::{Auto, State};
use xd_base::Place;
use xd_check_steps::{
    Finding, Findings, FoundLine, Signature, Signatures, Variable, Variables, declared_types,
    misfit, patterns_of,
};
use xd_clauses::CompiledPatterns;
use xd_doc::{NoMemory, Store};
use xd_pattern_runs::laws::programs_are_linear;
use xd_patterns::PatternCompiler;
use xd_points::laws::serving_stays;
use xd_sound::SoundProgram;
use xd_syntax::{ExprId, Function, Param, PatternId};

/// The program, what compiles its patterns, and its clauses' patterns and its functions' declared
/// types as states of an automaton.
#[derive(Drop)]
pub struct Checker {
    pub alloc: Global,
    pub sound: SoundProgram,
    pub compiler: PatternCompiler,
    pub patterns: CompiledPatterns,
    pub signatures: Signatures,
}

impl Checker {
    ghost use Rattle.xd_check.specs.Ready.{AddsFoundOfFunction, IsReady};
    ghost use Rattle.xd_check.specs.Walked.{SeenInFunction, SeenInFunctions};
    ghost use Rattle.xd_check_steps.specs.Walkable.{CanBeWalked, expr_at};
    ghost use Rattle.xd_check_steps.specs.Signed.{IsSignatureOfRow};
    ghost use Rattle.xd_check_steps.specs.States.{Grows, IsMisfit};

    /// The states of declared types and of the clauses' patterns are added to the automaton. After
    /// `NoMemory` nothing is known of it any more.
    pub fn new(alloc: Global, sound: SoundProgram, auto: &mut Auto) -> Result<Self, NoMemory>
        ensures ready { IfOk result (λ made. IsReady made auto.new) }
        ensures adds { IfOk result (λ made. AddsTypes sound made.sound) }
        ensures same { IfOk result (λ made. program_tree made.sound ≡ program_tree sound) }
    {
        let mut sound = sound;
        let compiler = PatternCompiler::new(alloc, &mut sound)?;
        let (patterns, signatures) = compile(alloc, &compiler, &sound, auto)?;
        Ok(Self {
            alloc,
            sound,
            compiler,
            patterns,
            signatures,
        })
    }

    /// The program.
    pub(crate) fn into_sound(self) -> SoundProgram
        ensures { result ≡ self.sound }
    {
        self.sound
    }

    /// The place of an expression.
    pub(crate) fn place_of(&self, id: ExprId) -> Place
        requires { IsExpr self.now.sound.exprs id }
        ensures { result ≡ place_of_expression (expr_at self.now.sound id.at) }
    {
        self.sound.program().exprs().node(id).place()
    }

    /// The place of a pattern.
    pub(crate) fn pattern_place(&self, id: PatternId) -> Place
        requires { IsPattern self.now.sound.patterns id }
        ensures { result ≡ place_of (placed_at self.now.sound.patterns id.at) }
    {
        self.sound.program().patterns().node(id).place()
    }

    /// The lines and the matches of all functions.
    pub fn in_functions(
        &self,
        auto: &mut Auto,
        findings: &mut Findings,
        store: &mut Store,
    ) -> Result<(), NoMemory>
        requires ready { IsReady self.now auto.old }
        requires known { IsKnown auto.old store.old findings.old.known }
        ensures found { OnOk result (AddsFound self.now.sound auto.new store.new (SeenInFunctions (program_tree self.now.sound) (program_tree self.now.sound).functions) (found_in findings.old) (found_in findings.new)) }
        ensures grows { OnOk result (Grows auto.old auto.new) }
        ensures known { OnOk result (IsKnown auto.new store.new findings.new.known) }
        ensures keeps { Keeps store.old store.new }
    {
        let functions = self.sound.program().functions();
        for number in 0..functions.len() {
            self.in_function(number, auto, findings, store)?;
        }
        Ok(())
    }

    /// Those of the function of this number.
    fn in_function(
        &self,
        number: usize,
        auto: &mut Auto,
        findings: &mut Findings,
        store: &mut Store,
    ) -> Result<(), NoMemory>
        requires ready { IsReady self.now auto.old }
        requires number { number < length self.now.sound.functions }
        requires known { IsKnown auto.old store.old findings.old.known }
        ensures found { OnOk result (AddsFoundOfFunction self.now.sound number auto.new store.new (found_in findings.old) (found_in findings.new)) }
        ensures grows { OnOk result (Grows auto.old auto.new) }
        ensures known { OnOk result (IsKnown auto.new store.new findings.new.known) }
        ensures keeps { Keeps store.old store.new }
    {
        programs_are_linear();
        let function = &self.sound.program().functions()[number];
        let signature = &self.signatures.rows()[number];
        self.in_body(function, signature, auto, findings, store)?;
        Ok(())
    }

    /// The same of a function whose declared types have these states.
    fn in_body(
        &self,
        function: &Function,
        signature: &Signature,
        auto: &mut Auto,
        findings: &mut Findings,
        store: &mut Store,
    ) -> Result<(), NoMemory>
        requires ready { IsReady self.now auto.old }
        requires body { CanBeWalked self.now.sound function.now.body.at }
        requires signature { IsSignatureOfRow self.now.sound auto.old function.now signature.now }
        requires known { IsKnown auto.old store.old findings.old.known }
        ensures found { OnOk result (AddsFound self.now.sound auto.new store.new (SeenInFunction (program_tree self.now.sound) (function_definition self.now.sound function.now)) (found_in findings.old) (found_in findings.new)) }
        ensures grows { OnOk result (Grows auto.old auto.new) }
        ensures known { OnOk result (IsKnown auto.new store.new findings.new.known) }
        ensures keeps { Keeps store.old store.new }
    {
        let mut variables = parameters(self.alloc, function.params(), &signature.parameters)?;
        let body = function.body();
        let state = self.in_expression(body, &mut variables, auto, findings, store)?;
        self.see_result(body, state, signature.declared, auto, findings, store)?;
        Ok(())
    }

    /// The line of a body that may be what the declared type of its function's result doesn't have.
    fn see_result(
        &self,
        body: ExprId,
        state: State,
        wanted: State,
        auto: &Auto,
        findings: &mut Findings,
        store: &mut Store,
    ) -> Result<(), NoMemory>
        requires body { IsExpr self.now.sound.exprs body }
        requires state { IsState auto.now state }
        requires wanted { IsState auto.now wanted }
        requires known { IsKnown auto.now store.old findings.old.known }
        ensures lines { OnOk result (AddsLines store.new (LineWhere told_size (place_of_expression (expr_at self.now.sound body.at)) wrong_result (IsMisfit auto.now state wanted)) findings.old.lines.items findings.new.lines.items) }
        ensures met { findings.new.met.items ≡ findings.old.met.items }
        ensures known { OnOk result (IsKnown auto.now store.new findings.new.known) }
        ensures keeps { Keeps store.old store.new }
    {
        if let Some(document) = misfit(
            self.alloc,
            auto,
            &mut findings.known,
            state,
            wanted,
            store,
        )? {
            findings.lines.push(FoundLine {
                place: self.place_of(body),
                finding: Finding::Result(document),
            })?;
        }
        Ok(())
    }
}

/// Adds the states of the types that a program's functions declare, and of the patterns of its
/// clauses.
fn compile(
    alloc: Global,
    compiler: &PatternCompiler,
    sound: &SoundProgram,
    auto: &mut Auto,
) -> Result<(CompiledPatterns, Signatures), NoMemory>
    requires { Serves sound.now compiler.now }
    ensures patterns { IfOk result (λ made. ArePatterns (names_of (program_tree sound.now)) sound.now.patterns made.0) }
    ensures points { IfOk result (λ made. ServesOn auto.new made.0) }
    ensures signatures { IfOk result (λ made. AreSignatures (program_tree sound.now) auto.new made.1) }
{
    let types = declared_types(alloc, sound.program().functions())?;
    let ids = patterns_of(alloc, sound)?;
    let patterns = CompiledPatterns::with_types(alloc, compiler, sound, &types, ids, auto)?;
    let signatures = Signatures::new(alloc, sound, patterns.types())?;
    let _states = auto.len();
    serving_stays();
    Ok((patterns, signatures))
}

/// The parameters of a function in scope, the first one as the newest.
fn parameters(alloc: Global, params: &[Param], states: &[State]) -> Result<Variables, NoMemory>
    requires { length params.now ≡ length states.now }
    ensures { IfOk result (λ variables. variables ≡ parameters_in_scope params.now states.now) }
{
    let mut variables = Variables::new(alloc);
    for number in (0..params.len()).rev() {
        variables.push(Variable {
            name: params[number].name.share()?,
            state: states[number],
        })?;
    }
    Ok(variables)
}
