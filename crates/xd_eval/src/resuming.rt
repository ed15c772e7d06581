//! What a value leads to.

ghost use Rattle.std.specs.Prelude.{◌≡◌, ◌<◌, ◌≤◌, ◌∷◌, ◌++◌, [], ℕ, List, map, length, IfOk, MatchOption, OnOk};
ghost use Rattle.std.specs.List.{AllByRecursion};
ghost use Rattle.std.specs.Option.{IfSome, option_copied};
ghost use Rattle.xd_doc.specs.Stored.{document_at};
ghost use Rattle.xd_doc.specs.StoredSeq.{BelongsTo};
ghost use Rattle.xd_doc.specs.StoreNodes.{Keeps};
ghost use Rattle.xd_syntax.specs.ExpressionTable.{shape_at};
ghost use Rattle.xd_syntax.specs.Exprs.{expr_numbers, clause_numbers};
ghost use Rattle.xd_eval.specs.Functions.{AreFunctionNames, row_of};
ghost use Rattle.xd_eval.specs.Machine.{ClausesStand, HasNoneLeft, HasOneMore, IsAwaited, IsCall, IsChosen, IsNextPart, IsRunnable, IsStep, ScopeStands, as_values, bound_values, clause_numbers_of, function_named, parts_of};
ghost use Rattle.xd_eval.specs.Values.{JoinsStand, world};
ghost use Rattle.xd_eval.specs.declared.joins.Join.{Join};

use crate::entering::{form_of, part_at};
use crate::frame::{Control, Frame, Machine, Parts, Scope, Step};
use crate::functions::NamedProgram;
use crate::joins::{Value, all_joined, read};
use crate::matching::Matching;
use std::alloc::Global;
use xd_doc::{Label, NoMemory, Seq, Store};
use xd_sound::SoundProgram;
use xd_syntax::{Clause, ExprForm, ExprId, Function, Param};

/// What becomes of a value where a frame waited for it.
pub(crate) fn resume<M: Matching>(
    alloc: Global,
    program: NamedProgram<'_>,
    matching: &mut M,
    store: &mut Store,
    machine: &mut Machine,
    frame: Frame,
    value: Value,
) -> Result<Step, NoMemory>
    requires names { AreFunctionNames program.names.now program.sound.now.functions }
    requires serves { M.serves matching.old program.sound.now store.old }
    requires joins { JoinsStand store.old machine.old.joins.items }
    requires awaited { IsAwaited program.sound.now (world store.old machine.old.joins.items) machine.old.frames.items frame value }
    ensures step { IfOk result (λ step. IsStep program.entry.sound.now (world store.old machine.old.joins.items) (machine.old.frames.items ++ frame ∷ []) (Control.Give value) machine.old.left (world store.new machine.new.joins.items) machine.new.frames.items machine.new.left step) }
    ensures joins { OnOk result (JoinsStand store.new machine.new.joins.items) }
    ensures serves { M.serves matching.new program.entry.sound.now store.new }
    ensures keeps { Keeps store.old store.new }
{
    matching.stays_serving();
    match frame {
        Frame::Element(label) => {
            let content = read(alloc, &mut machine.joins, store, value)?;
            let made = store.elem_node(label, content, Seq::empty())?;
            Ok(Step::Next(Control::Give(Value::of(made))))
        }
        Frame::Sequence(parts) => next_of_sequence(program.sound, store, machine, parts, value),
        Frame::Call(parts) => next_of_call(alloc, program, store, machine, parts, value),
        Frame::Match(id, scope) => {
            let seq = read(alloc, &mut machine.joins, store, value)?;
            let clauses = clauses_of(program.sound, id);
            let step = choose(alloc, program.sound, matching, store, clauses, &scope, seq)?;
            Ok(step)
        }
    }
}

/// One more part of a sequence has its value.
fn next_of_sequence(
    sound: &SoundProgram,
    store: &mut Store,
    machine: &mut Machine,
    parts: Parts,
    value: Value,
) -> Result<Step, NoMemory>
    requires joins { JoinsStand store.old machine.old.joins.items }
    requires awaited { IsAwaited sound.now (world store.old machine.old.joins.items) machine.old.frames.items (Frame.Sequence parts) value }
    ensures step { IfOk result (λ step. IsStep sound.now (world store.old machine.old.joins.items) (machine.old.frames.items ++ Frame.Sequence parts ∷ []) (Control.Give value) machine.old.left (world store.new machine.new.joins.items) machine.new.frames.items machine.new.left step) }
    ensures joins { OnOk result (JoinsStand store.new machine.new.joins.items) }
    ensures keeps { Keeps store.old store.new }
{
    let mut parts = parts;
    if let Some((next, scope)) = take_value(sound, &mut parts, value)? {
        machine.frames.push(Frame::Sequence(parts))?;
        return Ok(Step::Next(Control::Evaluate(next, scope)));
    }
    let made = all_joined(&mut machine.joins, store, &parts.values)?;
    Ok(Step::Next(Control::Give(made)))
}

/// One more part has its value. If another one is left, it is next, with the variables for it.
fn take_value(
    sound: &SoundProgram,
    parts: &mut Parts,
    value: Value,
) -> Result<Option<(ExprId, Scope)>, NoMemory>
    requires { IsRunnable sound.now parts.old.expr.at }
    ensures more { OnOk result (HasOneMore parts.old parts.new value) }
    ensures next { IfOk result (λ next. MatchOption next (HasNoneLeft sound.now parts.old) (λ part. IsNextPart sound.now parts.old part.0 part.1)) }
{
    let all = all_parts(sound, parts.expr);
    keep_value(&mut parts.values, value, all.len())?;
    let done = parts.values.as_slice().len();
    if done >= all.len() {
        return Ok(None);
    }
    let scope = parts.scope.share()?;
    Ok(Some((part_at(all, done), scope)))
}

/// Adds the value of one of so many parts. Millions of frames may wait with a few values each, so
/// the first takes no more room than they need.
fn keep_value(values: &mut Vec<Value>, value: Value, parts: usize) -> Result<(), NoMemory>
    ensures { OnOk result (values.new.items ≡ values.old.items ++ value ∷ []) }
{
    if values.is_empty() {
        values.reserve_exact(parts.min(4))?;
    }
    values.push(value)?;
    Ok(())
}

/// The parts of a sequence, or the arguments of a call.
fn all_parts(sound: &SoundProgram, id: ExprId) -> &[ExprId]
    requires { IsRunnable sound.now id.at }
    ensures numbers { expr_numbers result.now ≡ parts_of (shape_at sound.now.exprs id.at) }
    ensures below { AllByRecursion (IsRunnable sound.now) (expr_numbers result.now) }
{
    match form_of(sound, id) {
        ExprForm::Seq(parts) => parts.as_slice(),
        ExprForm::Call(_, arguments) => arguments.as_slice(),
        _ => &[],
    }
}

/// One more argument of a call has its value. With the last one the call is counted, and its
/// function's body is next.
fn next_of_call(
    alloc: Global,
    program: NamedProgram<'_>,
    store: &Store,
    machine: &mut Machine,
    parts: Parts,
    value: Value,
) -> Result<Step, NoMemory>
    requires names { AreFunctionNames program.names.now program.sound.now.functions }
    requires awaited { IsAwaited program.sound.now (world store.now machine.old.joins.items) machine.old.frames.items (Frame.Call parts) value }
    ensures step { IfOk result (λ step. IsStep program.entry.sound.now (world store.now machine.old.joins.items) (machine.old.frames.items ++ Frame.Call parts ∷ []) (Control.Give value) machine.old.left (world store.now machine.new.joins.items) machine.new.frames.items machine.new.left step) }
    ensures joins { machine.new.joins.items ≡ machine.old.joins.items }
{
    let mut parts = parts;
    if let Some((next, scope)) = take_value(program.sound, &mut parts, value)? {
        machine.frames.push(Frame::Call(parts))?;
        return Ok(Step::Next(Control::Evaluate(next, scope)));
    }
    if machine.left == 0 {
        return Ok(Step::Spent);
    }
    machine.left -= 1;
    match called(program, parts.expr) {
        None => Ok(Step::Stuck),
        Some(function) => {
            let bound = bind(alloc, function.params(), &parts.values)?;
            let scope = Scope::new(alloc, bound)?;
            Ok(Step::Next(Control::Evaluate(function.body(), scope)))
        }
    }
}

/// The function that a call names.
fn called<'a>(program: NamedProgram<'a>, id: ExprId) -> Option<&'a Function>
    requires id { IsRunnable program.sound.now id.at }
    requires names { AreFunctionNames program.names.now program.sound.now.functions }
    requires call { IsCall (shape_at program.sound.now.exprs id.at) }
    ensures found { option_copied result ≡ row_of program.entry.sound.now.functions (function_named (shape_at program.entry.sound.now.exprs id.at)) }
    ensures stands { IfSome (option_copied result) (λ function. IsRunnable program.entry.sound.now function.body.at) }
{
    let functions = program.sound.program().functions();
    match form_of(program.sound, id) {
        ExprForm::Call(name, _) => program.names.find(functions, name),
        _ => None,
    }
}

/// The parameters, each with its value.
pub(crate) fn bind(
    alloc: Global,
    params: &[Param],
    values: &[Value],
) -> Result<Vec<(Label, Value)>, NoMemory>
    ensures { IfOk result (λ made. made.items ≡ bound_values params.now values.now) }
{
    let mut made = Vec::with_capacity(alloc, params.len())?;
    let mut left = values;
    for param in params {
        let Some((value, others)) = left.split_first() else {
            return Ok(made);
        };
        made.push((param.name.share()?, *value))?;
        left = others;
    }
    Ok(made)
}

/// The clauses of a match.
fn clauses_of(sound: &SoundProgram, id: ExprId) -> &[Clause]
    requires { IsRunnable sound.now id.at }
    ensures numbers { clause_numbers result.now ≡ clause_numbers_of (shape_at sound.now.exprs id.at) }
    ensures stand { ClausesStand sound.now result.now }
{
    match form_of(sound, id) {
        ExprForm::Match(_, clauses) => clauses.as_slice(),
        _ => &[],
    }
}

/// The body of the first clause whose pattern takes the document.
fn choose<M: Matching>(
    alloc: Global,
    sound: &SoundProgram,
    matching: &mut M,
    store: &mut Store,
    clauses: &[Clause],
    scope: &Scope,
    seq: Seq,
) -> Result<Step, NoMemory>
    requires serves { M.serves matching.old sound.now store.old }
    requires clauses { ClausesStand sound.now clauses.now }
    requires seq { BelongsTo store.old seq }
    ensures chosen { IfOk result (λ step. (js : List Join) → JoinsStand store.old js → ScopeStands (world store.old js) scope.now.bindings.value.items → IsChosen sound.now (world store.old js) (world store.new js) (clause_numbers clauses.now) scope.now.bindings.value.items (document_at store.old seq) step) }
    ensures serves { M.serves matching.new sound.now store.new }
    ensures keeps { Keeps store.old store.new }
{
    for clause in clauses {
        let found = matching.first_match(alloc, sound, clause.pattern, store, seq)?;
        if let Some(bindings) = found {
            let inner = inner_scope(alloc, &bindings, scope)?;
            return Ok(Step::Next(Control::Evaluate(clause.body, inner)));
        }
    }
    Ok(Step::Stuck)
}

/// The bindings, and the outer ones after them.
fn inner_scope(alloc: Global, bindings: &[(Label, Seq)], outer: &Scope) -> Result<Scope, NoMemory>
    ensures { IfOk result (λ scope. scope.bindings.value.items ≡ as_values bindings.now ++ outer.now.bindings.value.items) }
{
    let others = outer.bindings();
    let mut made = Vec::with_capacity(alloc, bindings.len() + others.len())?;
    for (variable, seq) in bindings {
        made.push((variable.share()?, Value::of(*seq)))?;
    }
    for (variable, value) in others {
        made.push((variable.share()?, *value))?;
    }
    Scope::new(alloc, made)
}
