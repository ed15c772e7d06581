//! The first step of an expression.

ghost use Rattle.std.specs.Prelude.{◌≡◌, ◌<◌, ◌≤◌, ℕ, [], length, slice_index_or, IfOk, OnOk};
ghost use Rattle.std.specs.Option.{option_copied};
ghost use Rattle.xd_doc.specs.StoreNodes.{Keeps};
ghost use Rattle.xd_syntax.specs.ExpressionTable.{shape_at, empty_shape, text_shape, var_shape, elem_shape, match_shape};
ghost use Rattle.xd_syntax.specs.Exprs.{expr_numbers, shape_of};
ghost use Rattle.xd_eval.specs.Machine.{FramesStand, IsRunnable, IsStep, IsSequence, IsCall, ScopeStands, environment_in, function_named, parts_of, found_in, given, IsShapeAt};
ghost use Rattle.xd_eval.specs.Values.{JoinsStand, world};

use crate::frame::{Control, Frame, Machine, Parts, Scope, Step};
use crate::joins::Value;
use std::alloc::Global;
use xd_doc::{Label, NoMemory, Seq, Store, Text};
use xd_sound::SoundProgram;
use xd_syntax::{ExprForm, ExprId};

/// What an expression leads to: a value, or its first part, whose value a new frame waits for.
pub(crate) fn enter(
    alloc: Global,
    sound: &SoundProgram,
    store: &mut Store,
    machine: &mut Machine,
    id: ExprId,
    scope: Scope,
) -> Result<Step, NoMemory>
    requires id { IsRunnable sound.now id.at }
    requires joins { JoinsStand store.old machine.old.joins.items }
    requires scope { ScopeStands (world store.old machine.old.joins.items) scope.bindings.value.items }
    requires frames { FramesStand sound.now (world store.old machine.old.joins.items) machine.old.frames.items }
    ensures step { IfOk result (λ step. IsStep sound.now (world store.old machine.old.joins.items) machine.old.frames.items (Control.Evaluate id scope) machine.old.left (world store.new machine.new.joins.items) machine.new.frames.items machine.new.left step) }
    ensures joins { OnOk result (JoinsStand store.new machine.new.joins.items) }
    ensures keeps { Keeps store.old store.new }
{
    match form_of(sound, id) {
        ExprForm::Empty => Ok(Step::Next(Control::Give(Value::Empty))),
        ExprForm::Text(text) => {
            let seq = store.text_node(text.share()?, Seq::empty())?;
            Ok(Step::Next(Control::Give(Value::of(seq))))
        }
        ExprForm::Var(name) => Ok(give(looked_up(scope.bindings(), name))),
        ExprForm::Elem(label, content) => {
            machine.frames.push(Frame::Element(label.share()?))?;
            Ok(Step::Next(Control::Evaluate(*content, scope)))
        }
        ExprForm::Seq(parts) => {
            let first = part_at(parts, 0);
            machine
                .frames
                .push(Frame::Sequence(no_values(alloc, id, &scope)?))?;
            Ok(Step::Next(Control::Evaluate(first, scope)))
        }
        ExprForm::Call(_, arguments) => {
            let first = part_at(arguments, 0);
            machine
                .frames
                .push(Frame::Call(no_values(alloc, id, &scope)?))?;
            Ok(Step::Next(Control::Evaluate(first, scope)))
        }
        ExprForm::Match(scrutinee, _) => {
            machine.frames.push(Frame::Match(id, scope.share()?))?;
            Ok(Step::Next(Control::Evaluate(*scrutinee, scope)))
        }
    }
}

/// What an expression is.
pub(crate) fn form_of(sound: &SoundProgram, id: ExprId) -> &ExprForm
    requires { IsRunnable sound.now id.at }
    ensures { IsShapeAt sound.now id.at (shape_of result.now) }
{
    let program = sound.program();
    let _patterns = program.patterns();
    program.exprs().node(id).form()
}

/// The part of this number.
pub(crate) fn part_at(parts: &[ExprId], number: usize) -> ExprId
    requires { number < length parts.now }
    ensures { (d : ℕ) → result.at ≡ slice_index_or (expr_numbers parts.now) number d }
{
    parts[number]
}

/// None of the parts has a value yet.
fn no_values(alloc: Global, expr: ExprId, scope: &Scope) -> Result<Parts, NoMemory>
    ensures { IfOk result (λ parts. (parts.expr ≡ expr) × (parts.values.items ≡ []) × (parts.scope.bindings.value.items ≡ scope.now.bindings.value.items)) }
{
    Ok(Parts {
        expr,
        values: Vec::new(alloc),
        scope: scope.share()?,
    })
}

/// What the newest variable of this name has.
fn looked_up(scope: &[(Label, Value)], name: &Label) -> Option<Value>
    ensures { result ≡ found_in scope.now name.now }
{
    for (variable, value) in scope {
        if variable.as_str() == name.as_str() {
            return Some(*value);
        }
    }
    None
}

fn give(found: Option<Value>) -> Step
    ensures { result ≡ given found }
{
    match found {
        Some(value) => Step::Next(Control::Give(value)),
        None => Step::Stuck,
    }
}
