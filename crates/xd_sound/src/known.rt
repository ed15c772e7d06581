//! What is known of a program's types.

ghost use Rattle.std.specs.Prelude.{◌≡◌, IfOk, OnOk};
ghost use Rattle.std.specs.List.{AllByRecursion};
ghost use Rattle.xd_syntax.specs.Kept.{TypeDefStands};
ghost use Rattle.xd_sound.specs.Known.{AreKnownTypes, AreKnownSoFar};

use crate::empty::{empty_types, mark_more};
use crate::type_names::TypeNames;
use std::alloc::Global;
use xd_doc::NoMemory;
use xd_syntax::{TypeDef, Types};

/// The number of each name's first definition, and for each node of a type whether the empty
/// document fits it.
#[derive(Drop)]
pub struct KnownTypes {
    pub names: TypeNames,
    pub empty_marks: Vec<bool>,
}

impl KnownTypes {
    /// What is known of the types of these definitions. Fails only where memory is refused.
    pub fn new(alloc: Global, types: &Types, defs: &[TypeDef]) -> Result<Self, NoMemory>
        requires { AllByRecursion (TypeDefStands types.now) defs.now }
        ensures { IfOk result (AreKnownTypes types.now defs.now) }
    {
        let names = TypeNames::new(alloc, defs)?;
        let empty_marks = empty_types(alloc, types, defs, &names)?;
        Ok(Self { names, empty_marks })
    }

    /// Completes what is known for nodes that were added since.
    pub(crate) fn complete(self, types: &Types, defs: &[TypeDef]) -> Result<Self, NoMemory>
        requires { AreKnownSoFar types.now defs.now self }
        ensures { IfOk result (AreKnownTypes types.now defs.now) }
    {
        let Self {
            names,
            mut empty_marks,
        } = self;
        mark_more(types, defs, &names, &mut empty_marks)?;
        Ok(Self { names, empty_marks })
    }
}
