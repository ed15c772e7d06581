//! Functions by name.

ghost use Rattle.std.specs.Prelude.{◌≡◌, IfOk};
ghost use Rattle.std.specs.Option.{option_copied};
ghost use Rattle.std.specs.Ordering.{nat_cmp};
ghost use Rattle.std.specs.Cmp.Lexicographic.{slice_cmp};
ghost use Rattle.std.specs.BTreeMap.{get};
ghost use Rattle.xd_eval.specs.Functions.{AreFunctionNames, numbered, row_of};

use std::alloc::Global;
use std::collections::BTreeMap;
use xd_doc::{Label, NoMemory};
use xd_sound::SoundProgram;
use xd_syntax::Function;

/// The number of each name's first function.
#[derive(Drop)]
pub(crate) struct FunctionNames {
    numbers: BTreeMap<Label, usize>,
}

/// A program, with its functions by name.
#[derive(Clone, Copy)]
pub(crate) struct NamedProgram<'a> {
    pub sound: &'a SoundProgram,
    pub names: &'a FunctionNames,
}

impl FunctionNames {
    pub(crate) fn new(alloc: Global, functions: &[Function]) -> Result<Self, NoMemory>
        ensures { IfOk result (λ names. AreFunctionNames names functions.now) }
    {
        let mut numbers = BTreeMap::new(alloc);
        for number in (0..functions.len()).rev() {
            numbers.insert(functions[number].name().share()?, number)?;
        }
        Ok(Self { numbers })
    }

    /// The first of these functions that has the name.
    pub(crate) fn find<'a>(&self, functions: &'a [Function], name: &Label) -> Option<&'a Function>
        requires { AreFunctionNames self.now functions.now }
        ensures { option_copied result ≡ row_of functions.now name.now }
    {
        function_at(functions, self.number(name))
    }

    fn number(&self, name: &Label) -> Option<usize>
        ensures { result ≡ get (slice_cmp nat_cmp) self.now.numbers name.now }
    {
        self.numbers.get(name).copied()
    }
}

/// The function of this number, where there is one.
fn function_at(functions: &[Function], number: Option<usize>) -> Option<&Function>
    ensures { option_copied result ≡ numbered functions.now number }
{
    match number {
        Some(number) => functions.get(number),
        None => None,
    }
}
