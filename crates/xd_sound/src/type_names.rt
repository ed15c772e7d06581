//! Definitions of types by name.

ghost use Rattle.std.specs.Prelude.{◌≡◌, ℕ, List, IfOk};
ghost use Rattle.xd_syntax.specs.SoundTables.{definition_of};
ghost use Rattle.xd_sound.specs.TypeNames.{AreNumbered, body_at, number_of};

use std::alloc::Global;
use std::collections::BTreeMap;
use xd_doc::{Label, NoMemory};
use xd_syntax::TypeDef;

/// The number of each name's first definition.
#[derive(Drop)]
pub struct TypeNames {
    numbers: BTreeMap<Label, usize>,
}

impl TypeNames {
    /// The first definition of each name. `NoMemory` where there is no room for them.
    pub fn new(alloc: Global, defs: &[TypeDef]) -> Result<Self, NoMemory>
        ensures { IfOk result (λ names. AreNumbered names defs.now) }
    {
        let mut numbers = BTreeMap::new(alloc);
        for number in (0..defs.len()).rev() {
            numbers.insert(defs[number].name.share()?, number)?;
        }
        Ok(Self { numbers })
    }

    /// The number of a name's first definition.
    pub fn find(&self, name: &Label) -> Option<usize>
        ensures { result ≡ number_of self.now name.now }
    {
        self.numbers.get(name).copied()
    }
    /// The number of the node that a name stands for, by its first definition.
    pub fn body(&self, defs: &[TypeDef], name: &Label) -> Option<usize>
        requires { AreNumbered self.now defs.now }
        ensures { result ≡ body_at (definition_of defs.now name.now) }
    {
        match self.find(name) {
            Some(number) => Some(defs[number].body.at()),
            None => None,
        }
    }
}
