//! The declared types of functions as states.

ghost use Rattle.std.specs.Prelude.{◌≡◌, ◌<◌, ◌≤◌, ◌+◌, ◌∷◌, ◌++◌, ℕ, List, length, drop, IfOk, OnOk};
ghost use Rattle.std.specs.Option.{option_copied};
ghost use Rattle.std.specs.Ordering.{nat_cmp};
ghost use Rattle.std.specs.Cmp.Lexicographic.{slice_cmp};
ghost use Rattle.std.specs.BTreeMap.{get};
ghost use Rattle.xd_auto.specs.Automaton.{Automaton};
ghost use Rattle.xd_syntax.specs.Kept.{program_tree};
ghost use Rattle.xd_syntax.specs.Program.{names_of};
ghost use Rattle.xd_meaning.specs.KeptFaults.{AllPaired};
ghost use Rattle.xd_patterns.specs.CompiledProgram.{AcceptsType};
ghost use Rattle.xd_check_steps.specs.Signed.{AreSignatures, HasParameters, number_from, signature_of, states_signed, types_declared, types_of};

use std::alloc::Global;
use std::collections::BTreeMap;
use xd_auto::State;
use xd_doc::{Label, NoMemory};
use xd_sound::SoundProgram;
use xd_syntax::{Function, TypeId};

/// A function's declared types as states.
#[derive(Drop)]
pub struct Signature {
    pub parameters: Vec<State>,
    pub declared: State,
}

/// The signatures of a program's functions, and the number of each name's first function.
#[derive(Drop)]
pub struct Signatures {
    rows: Vec<Signature>,
    numbers: BTreeMap<Label, usize>,
}

impl Signatures {
    /// Those of a program's functions, whose declared types have these states.
    pub fn new(alloc: Global, sound: &SoundProgram, states: &[State]) -> Result<Self, NoMemory>
        requires { length states.now ≡ length (types_declared sound.now.functions) }
        ensures { IfOk result (λ made. (a : Automaton) → AllPaired (AcceptsType (names_of (program_tree sound.now)) sound.now.types a) (types_declared sound.now.functions) states.now → AreSignatures (program_tree sound.now) a made) }
    {
        let functions = sound.program().functions();
        let numbers = numbers(alloc, functions)?;
        let rows = signatures_of(alloc, functions, states)?;
        Ok(Self { rows, numbers })
    }

    /// The signature of the first function of the name.
    pub fn find(&self, name: &Label) -> Option<&Signature>
        ensures { option_copied result ≡ signature_of self.now name.now }
    {
        match self.numbers.get(name).copied() {
            Some(number) => self.rows.as_slice().get(number),
            None => None,
        }
    }

    /// The signatures of the functions, in their order.
    pub fn rows(&self) -> &[Signature]
        ensures { result.now ≡ self.now.rows.items }
    {
        self.rows.as_slice()
    }
}

/// The number of each name's first function.
fn numbers(alloc: Global, functions: &[Function]) -> Result<BTreeMap<Label, usize>, NoMemory>
    ensures { IfOk result (λ numbers. (w : List ℕ) → get (slice_cmp nat_cmp) numbers w ≡ number_from 0 functions.now w) }
{
    let mut numbers = BTreeMap::new(alloc);
    for number in (0..functions.len()).rev() {
        numbers.insert(functions[number].name().share()?, number)?;
    }
    Ok(numbers)
}

/// The signatures of all functions, in their order, whose declared types have these states.
fn signatures_of(
    alloc: Global,
    functions: &[Function],
    states: &[State],
) -> Result<Vec<Signature>, NoMemory>
    requires { length states.now ≡ length (types_declared functions.now) }
    ensures states { IfOk result (λ rows. states.now ≡ states_signed rows.items) }
    ensures parameters { IfOk result (λ rows. AllPaired HasParameters functions.now rows.items) }
{
    let mut rows = Vec::new(alloc);
    let mut left = states;
    for function in functions {
        let count = function.params().len();
        rows.push(first_signature(alloc, left, count)?)?;
        left = behind(left, count + 1);
    }
    Ok(rows)
}

/// All but the first so many states.
fn behind(states: &[State], count: usize) -> &[State]
    requires { count ≤ length states.now }
    ensures { result.now ≡ drop count states.now }
{
    &states[count..]
}

/// The signature of a function with so many parameters, whose declared types have the first of
/// these states.
fn first_signature(alloc: Global, states: &[State], count: usize) -> Result<Signature, NoMemory>
    requires { count < length states.now }
    ensures parameters { IfOk result (λ made. length made.parameters.items ≡ count) }
    ensures states { IfOk result (λ made. states.now ≡ made.parameters.items ++ made.declared ∷ drop (count + 1) states.now) }
{
    let parameters = states[..count].to_vec(alloc)?;
    Ok(Signature {
        parameters,
        declared: states[count],
    })
}

/// The declared types of functions: those of the parameters and then that of the result, function
/// after function.
pub fn declared_types(alloc: Global, functions: &[Function]) -> Result<Vec<TypeId>, NoMemory>
    ensures { IfOk result (λ types. types.items ≡ types_declared functions.now) }
{
    let mut types = Vec::new(alloc);
    for function in functions {
        push_declared(function, &mut types)?;
    }
    Ok(types)
}

/// Adds those of a function.
fn push_declared(function: &Function, types: &mut Vec<TypeId>) -> Result<(), NoMemory>
    ensures { OnOk result (types.new.items ≡ types.old.items ++ types_of function.now) }
{
    for param in function.params() {
        types.push(param.body)?;
    }
    types.push(function.result_type())?;
    Ok(())
}
