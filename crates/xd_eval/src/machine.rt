//! The evaluation of an expression, step by step.

ghost use Rattle.std.specs.Prelude.{[], IfOk, OnOk};
ghost use Rattle.xd_doc.specs.StoreNodes.{Keeps};
ghost use Rattle.xd_eval.specs.Functions.{AreFunctionNames};
ghost use Rattle.xd_eval.specs.Machine.{ControlStands, FramesStand, IsEnding, IsStep, outcome};
ghost use Rattle.xd_eval.specs.Values.{JoinsStand, world};

use crate::entering::enter;
use crate::frame::{Control, Ending, Machine, Step};
use crate::functions::NamedProgram;
use crate::joins::read;
use crate::matching::Matching;
use crate::resuming::resume;
use std::alloc::Global;
use xd_doc::{NoMemory, Store};

/// Evaluates until there is a value that nothing waits for, with so many calls.
pub(crate) fn run<M: Matching>(
    alloc: Global,
    program: NamedProgram<'_>,
    matching: &mut M,
    store: &mut Store,
    start: Control,
    calls: u64,
) -> Result<Ending, NoMemory>
    requires names { AreFunctionNames program.names.now program.sound.now.functions }
    requires serves { M.serves matching.old program.sound.now store.old }
    requires start { ControlStands program.sound.now (world store.old []) start }
    ensures ending { IfOk result (IsEnding store.new (outcome program.entry.sound.now (world store.old []) [] start calls)) }
    ensures serves { M.serves matching.new program.entry.sound.now store.new }
    ensures keeps { Keeps store.old store.new }
{
    let mut machine = Machine {
        frames: Vec::new(alloc),
        left: calls,
        joins: Vec::new(alloc),
    };
    let mut control = start;
    'steps: loop {
        match advance(alloc, program, matching, store, &mut machine, control)? {
            Step::Next(next) => control = next,
            Step::Ended(value) => {
                matching.stays_serving();
                let seq = read(alloc, &mut machine.joins, store, value)?;
                return Ok(Ending::Value(seq, machine.left));
            }
            Step::Spent => return Ok(Ending::Spent),
            Step::Stuck => return Ok(Ending::Stuck),
        }
    }
}

/// One step.
fn advance<M: Matching>(
    alloc: Global,
    program: NamedProgram<'_>,
    matching: &mut M,
    store: &mut Store,
    machine: &mut Machine,
    control: Control,
) -> Result<Step, NoMemory>
    requires names { AreFunctionNames program.names.now program.sound.now.functions }
    requires serves { M.serves matching.old program.sound.now store.old }
    requires joins { JoinsStand store.old machine.old.joins.items }
    requires frames { FramesStand program.sound.now (world store.old machine.old.joins.items) machine.old.frames.items }
    requires control { ControlStands program.sound.now (world store.old machine.old.joins.items) control }
    ensures step { IfOk result (λ step. IsStep program.entry.sound.now (world store.old machine.old.joins.items) machine.old.frames.items control machine.old.left (world store.new machine.new.joins.items) machine.new.frames.items machine.new.left step) }
    ensures joins { OnOk result (JoinsStand store.new machine.new.joins.items) }
    ensures serves { M.serves matching.new program.entry.sound.now store.new }
    ensures keeps { Keeps store.old store.new }
{
    matching.stays_serving();
    match control {
        Control::Evaluate(id, scope) => {
            let step = enter(alloc, program.sound, store, machine, id, scope)?;
            Ok(step)
        }
        Control::Give(value) => match machine.frames.pop() {
            None => Ok(Step::Ended(value)),
            Some(frame) => {
                let step = resume(alloc, program, matching, store, machine, frame, value)?;
                Ok(step)
            }
        },
    }
}
