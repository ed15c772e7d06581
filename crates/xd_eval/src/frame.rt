//! What an evaluation keeps while it works.

ghost use Rattle.std.specs.Prelude.{◌≡◌, IfOk};

use crate::joins::{Join, Value};
use std::alloc::Global;
use std::rc::Rc;
use xd_doc::{Label, NoMemory, Seq};
use xd_syntax::ExprId;

/// Variables and their values, the newest first. Those that wait share it.
#[derive(Drop)]
pub(crate) struct Scope {
    bindings: Rc<Vec<(Label, Value)>>,
}

/// The values of the first parts of a sequence or a call, and the variables for those that are
/// left.
#[derive(Drop)]
pub(crate) struct Parts {
    pub expr: ExprId,
    pub values: Vec<Value>,
    pub scope: Scope,
}

/// What waits for a value.
#[derive(Drop)]
pub(crate) enum Frame {
    Element(Label),
    Sequence(Parts),
    Call(Parts),
    Match(ExprId, Scope),
}

/// What waits for values, the innermost last, how many calls are left, and what is joined where it
/// is read.
#[derive(Drop)]
pub(crate) struct Machine {
    pub frames: Vec<Frame>,
    pub left: u64,
    pub joins: Vec<Join>,
}

/// What is done next.
#[derive(Drop)]
pub(crate) enum Control {
    Evaluate(ExprId, Scope),
    Give(Value),
}

/// What a step leads to.
#[derive(Drop)]
pub(crate) enum Step {
    Next(Control),
    /// Nothing waits for the value.
    Ended(Value),
    Spent,
    Stuck,
}

/// How an evaluation ends.
pub(crate) enum Ending {
    /// A value, and the calls that are left.
    Value(Seq, u64),
    Spent,
    Stuck,
}

impl Scope {
    pub(crate) fn new(alloc: Global, bindings: Vec<(Label, Value)>) -> Result<Self, NoMemory>
        ensures { IfOk result (λ scope. scope.bindings.value.items ≡ bindings.items) }
    {
        let bindings = Rc::new(alloc, bindings)?;
        Ok(Self { bindings })
    }

    pub(crate) fn share(&self) -> Result<Self, NoMemory>
        ensures { IfOk result (λ scope. scope.bindings.value.items ≡ self.now.bindings.value.items) }
    {
        let bindings = self.bindings.clone()?;
        Ok(Self { bindings })
    }

    /// The variables and their values, the newest first.
    pub(crate) fn bindings(&self) -> &[(Label, Value)]
        ensures { result.now ≡ self.now.bindings.value.items }
    {
        self.bindings.as_ref().as_slice()
    }
}
