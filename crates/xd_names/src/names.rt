//! The names that a program defines.

ghost use Rattle.std.specs.Prelude.{◌≡◌, ℕ, ◌∷◌, List, map, IfOk};
ghost use Rattle.xd_syntax.specs.Words.{has_word, any_word};

use crate::arities::arities;
use crate::words::Words;
use std::alloc::Global;
use std::collections::BTreeMap;
use xd_doc::{Label, NoMemory};
use xd_syntax::{Program, TypeDef};

/// The names of types, and how many parameters the first function of each name has.
#[derive(Drop)]
pub(crate) struct Names {
    pub types: Words,
    pub arities: BTreeMap<Label, u64>,
}

impl Names {
    ghost use Rattle.xd_names.specs.Knows.{Knows, whole};

    /// Those of a program: the names of its types, and of each function how many parameters it has.
    pub fn new(alloc: Global, program: &Program) -> Result<Self, NoMemory>
        ensures { IfOk result (λ names. Knows names (whole program.now)) }
    {
        let types = type_names(alloc, program.type_defs())?;
        let arities = arities(alloc, program.functions())?;
        Ok(Self { types, arities })
    }
}

/// The names of types, `Any` among them.
fn type_names(alloc: Global, type_defs: &[TypeDef]) -> Result<Words, NoMemory>
    ensures { IfOk result (λ types. (w : List ℕ) → has_word types w ≡ has_word (any_word ∷ map (λ t. t.name) type_defs.now) w) }
{
    let mut types = Words::new(alloc);
    for number in (0..type_defs.len()).rev() {
        types.add(&type_defs[number].name)?;
    }
    types.add_text(alloc, "Any")?;
    Ok(types)
}
