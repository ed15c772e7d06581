//! Calls about the clauses of a match: the body of the program's first function, on what fits a
//! type.

ghost use Rattle.std.specs.Prelude.{◌≡◌, IfOk, IfSome, List, map};
ghost use Rattle.std.specs.List.{All};
ghost use Rattle.xd_doc.specs.StoredSeq.{BelongsTo};
ghost use Rattle.xd_auto.specs.Automaton.{IsState};
ghost use Rattle.xd_syntax.specs.declared.exprs.Clause.{Clause};
ghost use Rattle.xd_syntax.specs.Table.{Row};
ghost use Rattle.xd_patterns.specs.CompiledProgram.{IsLinearPattern};
ghost use Rattle.xd_calls_clauses.specs.Posed.{IsPosed};

use std::alloc::Global;
use std::io::Write;
use xd_auto::{Auto, State};
use xd_bind::Binding;
use xd_calls_lines::{Call, CallError, show_answer};
use xd_calls_programs::{program_of, show_both_ways, show_members, state_at, state_of, type_of};
use xd_clauses::{case_types, live, uncovered};
use xd_doc::{Label, Seq, Store};
use xd_match::first_way;
use xd_pattern_runs::laws::programs_are_linear;
use xd_prefer::preferred_types;
use xd_read::read_document;
use xd_sound::SoundProgram;
use xd_syntax::{Clause, ExprForm, PatternId};
use xd_write::write_document;

/// The patterns of these clauses.
fn patterns_of(alloc: Global, clauses: &[Clause]) -> Result<Vec<PatternId>, CallError>
    ensures { IfOk result (λ patterns. patterns.items ≡ map (λ (c : Clause). c.pattern) clauses.now) }
{
    let mut patterns = Vec::new(alloc);
    for clause in clauses {
        patterns.push(clause.pattern)?;
    }
    Ok(patterns)
}

/// The patterns of the clauses of the match that is the body of the program's first function.
fn clause_patterns(alloc: Global, sound: &SoundProgram) -> Result<Vec<PatternId>, CallError>
    ensures { IfOk result (λ patterns. All (IsLinearPattern sound.now.patterns) patterns.items) }
{
    programs_are_linear();
    let program = sound.program();
    let Some(function) = program.functions().first() else {
        return Err(CallError::Missing);
    };
    match program.exprs().node(function.body()).form() {
        ExprForm::Match(_, clauses) => patterns_of(alloc, clauses),
        _ => Err(CallError::Missing),
    }
}

/// What a call asks about: the clauses of its program, and a state for the type that its first word
/// names.
#[derive(Drop)]
struct Question {
    sound: SoundProgram,
    auto: Auto,
    state: State,
    patterns: Vec<PatternId>,
}

fn question_of(call: &Call<'_>) -> Result<Question, CallError>
    ensures { IfOk result IsPosed }
{
    let (mut sound, id) = type_of(call, 0)?;
    let (auto, state) = state_at(call.alloc, &mut sound, id)?;
    let patterns = clause_patterns(call.alloc, &sound)?;
    Ok(Question {
        sound,
        auto,
        state,
        patterns,
    })
}

/// `uncovered TYPE`: a document of the type that no clause takes, or `none`.
pub fn show_uncovered(call: &Call<'_>, out: &mut Vec<u8>) -> Result<(), CallError> {
    let mut question = question_of(call)?;
    let mut store = Store::new(call.alloc);
    show_left_over(call.alloc, &mut question, &mut store, out)
}

/// A document that no clause takes, or `none`.
fn show_left_over(
    alloc: Global,
    question: &mut Question,
    store: &mut Store,
    out: &mut Vec<u8>,
) -> Result<(), CallError>
    requires { IsPosed question.old }
{
    let found = uncovered(
        alloc,
        &mut question.sound,
        &question.auto,
        question.state,
        &question.patterns,
        store,
    )?;
    match found {
        Some(seq) => write_document(alloc, store, seq, out)?,
        None => out.extend_from_slice(b"none\n")?,
    }
    Ok(())
}

/// The pattern of the clause of this number, from 1, and those of the clauses before it.
fn at_clause(patterns: &[PatternId], number: usize) -> Result<(&[PatternId], PatternId), CallError>
    ensures earlier { IfOk result (λ found. (rows : List Row) → All (IsLinearPattern rows) patterns.now → All (IsLinearPattern rows) found.0.now) }
    ensures pattern { IfOk result (λ found. (rows : List Row) → All (IsLinearPattern rows) patterns.now → IsLinearPattern rows found.1) }
{
    if number == 0 || number > patterns.len() {
        return Err(CallError::Missing);
    }
    let index = number - 1;
    Ok((&patterns[..index], patterns[index]))
}

/// The pattern of the clause of this number, from 1, of the match that is the body of the program's
/// first function.
pub fn pattern_at(
    alloc: Global,
    sound: &SoundProgram,
    number: usize,
) -> Result<PatternId, CallError>
    ensures { IfOk result (IsLinearPattern sound.now.patterns) }
{
    let patterns = clause_patterns(alloc, sound)?;
    let (_, pattern) = at_clause(&patterns, number)?;
    Ok(pattern)
}

/// `live TYPE CLAUSE`: whether some document of the type comes to the clause of this number, from
/// 1, and is taken by it.
pub fn show_live(call: &Call<'_>, out: &mut Vec<u8>) -> Result<(), CallError> {
    let number = call.size(1)?;
    let mut question = question_of(call)?;
    let is_live = is_live(call.alloc, &mut question, number)?;
    show_answer(is_live, out)
}

/// Whether some document comes to the clause of this number and is taken by it.
fn is_live(alloc: Global, question: &mut Question, number: usize) -> Result<bool, CallError>
    requires { IsPosed question.old }
{
    let (earlier, pattern) = at_clause(&question.patterns, number)?;
    let is_live = live(
        alloc,
        &mut question.sound,
        &question.auto,
        question.state,
        earlier,
        pattern,
    )?;
    Ok(is_live)
}

/// Which ways of a pattern count: all that take the whole document, or the first of them.
#[derive(Clone, Copy)]
pub enum Ways {
    Whole,
    First,
}

/// What these ways give the variables of the clause that the call's second word numbers, on what
/// fits the type that its first word names.
fn bindings_of(call: &Call<'_>, ways: Ways) -> Result<Vec<Binding>, CallError>
    ensures { IfOk result (λ bindings. All (λ (b : Binding). IsState b.auto b.state) bindings.items) }
{
    let number = call.size(1)?;
    let mut question = question_of(call)?;
    bindings_at(call.alloc, &mut question, ways, number)
}

/// What these ways give the variables of the clause of this number.
fn bindings_at(
    alloc: Global,
    question: &mut Question,
    ways: Ways,
    number: usize,
) -> Result<Vec<Binding>, CallError>
    requires { IsPosed question.old }
    ensures { IfOk result (λ bindings. All (λ (b : Binding). IsState b.auto b.state) bindings.items) }
{
    let (earlier, pattern) = at_clause(&question.patterns, number)?;
    let sound = &mut question.sound;
    let bindings = match ways {
        Ways::Whole => case_types(
            alloc,
            sound,
            &question.auto,
            question.state,
            earlier,
            pattern,
        )?,
        Ways::First => preferred_types(
            alloc,
            sound,
            &question.auto,
            question.state,
            earlier,
            pattern,
        )?,
    };
    Ok(bindings)
}

/// What the variable of this name may be.
pub fn binding_of(bindings: Vec<Binding>, name: &str) -> Result<(Auto, State), CallError>
    requires { All (λ (b : Binding). IsState b.auto b.state) bindings.items }
    ensures { IfOk result (λ made. IsState made.0 made.1) }
{
    for binding in bindings {
        if binding.variable.as_str() == name {
            return Ok((binding.auto, binding.state));
        }
    }
    Err(CallError::Unknown)
}

/// `case_types TYPE CLAUSE VARIABLE DOCUMENTS`: which of the documents the variable may be.
/// `preferred_types` with the same words: which of them the first match gives it.
pub fn show_given(call: &Call<'_>, ways: Ways, out: &mut Vec<u8>) -> Result<(), CallError> {
    let variable = call.word(2)?;
    let (auto, state) = binding_of(bindings_of(call, ways)?, variable)?;
    show_members(call, 3, &auto, state, out)
}

/// `bound TYPE CLAUSE VARIABLE OTHER`: whether all that the variable may be is of the other type,
/// and the other way round. `preferred` with the same words: the same of what the first match gives
/// it.
pub fn show_bound(call: &Call<'_>, ways: Ways, out: &mut Vec<u8>) -> Result<(), CallError> {
    let variable = call.word(2)?;
    let bound = binding_of(bindings_of(call, ways)?, variable)?;
    let other = state_of(call, 3)?;
    let mut both = Auto::new(call.alloc);
    show_compared(call.alloc, &bound, &other, &mut both, out)
}

/// Whether all that the one state accepts is accepted by the other, and the other way round. Both
/// are brought into a new automaton.
fn show_compared(
    alloc: Global,
    one: &(Auto, State),
    other: &(Auto, State),
    both: &mut Auto,
    out: &mut Vec<u8>,
) -> Result<(), CallError>
    requires one { IsState one.now.0 one.now.1 }
    requires other { IsState other.now.0 other.now.1 }
{
    let left = both.absorb(&one.0, one.1)?;
    let right = both.absorb(&other.0, other.1)?;
    show_both_ways(alloc, both, left, right, out)?;
    Ok(())
}

/// What the variables are bound to, a line each, or `none`.
pub fn show_bindings(
    alloc: Global,
    store: &Store,
    bindings: Option<Vec<(Label, Seq)>>,
    out: &mut Vec<u8>,
) -> Result<(), CallError>
    requires { IfSome bindings (λ bs. All (λ b. BelongsTo store.now b.1) bs.items) }
{
    let Some(bindings) = bindings else {
        out.extend_from_slice(b"none\n")?;
        return Ok(());
    };
    for (variable, seq) in &bindings {
        write!(out, "{} ", variable.as_str())?;
        write_document(alloc, store, *seq, out)?;
        out.push(b'\n')?;
    }
    Ok(())
}

/// `first_way CLAUSE DOCUMENT`: what the first match of the clause of this number, from 1, binds on
/// the document.
pub fn show_first_way(call: &Call<'_>, out: &mut Vec<u8>) -> Result<(), CallError> {
    let number = call.size(0)?;
    let sound = program_of(call)?;
    let pattern = pattern_at(call.alloc, &sound, number)?;
    let mut store = Store::new(call.alloc);
    show_way(call, &sound, pattern, &mut store, out)
}

/// What the first match of the pattern binds on the document that is the call's second word.
fn show_way(
    call: &Call<'_>,
    sound: &SoundProgram,
    pattern: PatternId,
    store: &mut Store,
    out: &mut Vec<u8>,
) -> Result<(), CallError>
    requires { IsLinearPattern sound.now.patterns pattern }
{
    let document = call.word(1)?;
    let seq = read_document(call.alloc, store, document.as_bytes())?;
    let bindings = first_way(call.alloc, sound, pattern, store, seq)?;
    show_bindings(call.alloc, store, bindings, out)
}
