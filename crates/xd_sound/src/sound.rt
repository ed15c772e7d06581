//! Programs without faults of names, arity, linearity and recursion, and those that are checked
//! besides.

ghost use Rattle.std.specs.Prelude.{◌≡◌, ◌+◌, ◌^◌, ◌<◌, ◌≤◌, true, false, length, IfOk, is_some, IsTrue};
ghost use Rattle.std.specs.List.{AllByRecursion, list_all};
ghost use Rattle.std.specs.Option.{IfSome};
ghost use Rattle.std.specs.Str.{bytes_eq};
ghost use Rattle.xd_doc.specs.Word.{are_word_parts, is_word, is_word_part, is_word_start};
ghost use Rattle.xd_syntax.specs.Words.{has_word, string_word};
ghost use Rattle.xd_syntax.specs.Keywords.{is_type_name};
ghost use Rattle.xd_syntax.specs.Table.{CanFollow, form_tree, tree_at};
ghost use Rattle.xd_syntax.specs.Tree.{Name, uses_only};
ghost use Rattle.xd_syntax.specs.TreeForms.{size};
ghost use Rattle.xd_syntax.specs.Types.{form_of, tree, BelongsTo};
ghost use Rattle.xd_syntax.specs.ShallowTables.{AddsOne, AddsWithin, IsShallow};
ghost use Rattle.xd_syntax.specs.Shallow.{nesting_limit};
ghost use Rattle.xd_syntax.specs.TypeDepth.{depth};
ghost use Rattle.xd_syntax.specs.Kept.{AddsTypes, program_tree};
ghost use Rattle.xd_syntax.specs.Proper.{IsProperProgram};
ghost use Rattle.xd_syntax.specs.RecursionFaults.{IsSound};
ghost use Rattle.xd_syntax.specs.CheckFaults.{IsAccepted};
ghost use Rattle.xd_syntax.specs.NameFaults.{known_types};
ghost use Rattle.xd_sound.specs.Adopt.{AreReached, AreRising, form_known, copy_from, copied_form};
ghost use Rattle.xd_syntax.specs.Nodes.{form_at};
ghost use Rattle.xd_syntax.specs.SoundTables.{IsTypeAt, main_parameter, only_parameter};
ghost use Rattle.xd_syntax.specs.Sound.{type_named, is_defined};
ghost use Rattle.xd_sound.specs.TypeNames.{AreNumbered};
ghost use Rattle.xd_sound.specs.Known.{AreKnown, AreKnownSoFar};

use crate::adopt::{copy_form, copy_of, reached_from};
use crate::known::KnownTypes;
use crate::type_names::TypeNames;
use std::alloc::Global;
use std::collections::BTreeMap;
use std::marker::Model;
use xd_doc::{Label, NoMemory};
use xd_syntax::{Function, Param, Program, TypeForm, TypeId, Types};

/// A program without faults of names, arity, linearity and recursion.
#[derive(Drop)]
pub struct SoundProgram {
    program: Program,
    /// Made when it is first needed. Types that were added since have no mark yet.
    known: Option<KnownTypes>,
    alloc: Global,
}

impl Model for SoundProgram {
    ghost use Rattle.xd_syntax.specs.Kept.{ProgramTable};
    ghost use Rattle.xd_sound.specs.Known.{IsSoundAndKnown};

    ghost Value = { ProgramTable };

    ghost view = { λ s. s.program };

    ghost invariant = { λ s. IsSoundAndKnown s.program s.known };
}

/// A sound program whose matches, arguments and results have no fault.
#[derive(Drop)]
pub struct Checked {
    sound: SoundProgram,
}

impl Model for Checked {
    ghost use Rattle.xd_syntax.specs.Kept.{ProgramTable, program_tree};
    ghost use Rattle.xd_syntax.specs.CheckFaults.{IsAccepted};

    ghost Value = { ProgramTable };

    ghost view = { λ c. c.sound };

    ghost invariant = { λ c. IsAccepted (program_tree c.sound) };
}

impl SoundProgram {
    /// The program, as one without these faults. It takes no memory.
    pub fn new(alloc: Global, program: Program) -> Self
        requires { IsSound (program_tree program) }
        ensures { result ≡ program }
    {
        Self {
            program,
            known: None,
            alloc,
        }
    }

    /// The program itself.
    pub fn program(&self) -> &Program
        ensures program { result.now ≡ self.now }
        ensures proper { IsProperProgram (program_tree self.now) }
        ensures sound { IsSound (program_tree self.now) }
    {
        self.program.see_program();
        &self.program
    }

    /// An equal program, with the same ids. What is known of its types is found anew when it is
    /// first needed. `NoMemory` where there is no room for the copy.
    pub fn copy(&self, alloc: Global) -> Result<Self, NoMemory>
        ensures { IfOk result (λ made. made ≡ self.now) }
    {
        let program = self.program.copy(alloc)?;
        Ok(Self {
            program,
            known: None,
            alloc,
        })
    }

    /// The type that is this name, `String` and `Any` included; `None` exactly where it is not
    /// defined. After `NoMemory` the program has more types at most.
    pub fn find_type(&mut self, word: &str) -> Result<Option<TypeId>, NoMemory>
        ensures defined { IfOk result (λ found. is_some found ≡ is_defined (program_tree self.old) word.now) }
        ensures found { IfOk result (λ found. IfSome found (IsTypeAt self.new.types (type_named word.now))) }
        ensures adds { AddsTypes self.old self.new }
        ensures same { program_tree self.new ≡ program_tree self.old }
        ensures shallow { IsShallow self.old.types → IsShallow self.new.types }
    {
        if word == "String" {
            return Ok(Some(self.add_type(TypeForm::Text)?));
        }
        match self.find_name(word)? {
            None => Ok(None),
            Some(name) => Ok(Some(self.add_type(TypeForm::Name(name))?)),
        }
    }

    /// The word as a name, where `Any` or a definition has it.
    fn find_name(&mut self, word: &str) -> Result<Option<Label>, NoMemory>
        requires { bytes_eq string_word word.now ≡ false }
        ensures defined { IfOk result (λ found. is_some found ≡ has_word (known_types (program_tree self.old)) word.now) }
        ensures found { IfOk result (λ found. IfSome found (λ name. (name ≡ word.now) × (is_type_name name ≡ true))) }
        ensures same { self.new ≡ self.old }
    {
        let known = self.learned()?;
        let found = self.defined_name(&known.names, word);
        self.keep(known);
        found
    }

    fn defined_name(&self, names: &TypeNames, word: &str) -> Result<Option<Label>, NoMemory>
        requires numbered { AreNumbered names.now self.now.type_defs }
        requires other { bytes_eq string_word word.now ≡ false }
        ensures defined { IfOk result (λ found. is_some found ≡ has_word (known_types (program_tree self.now)) word.now) }
        ensures found { IfOk result (λ found. IfSome found (λ name. (name ≡ word.now) × (is_type_name name ≡ true))) }
    {
        self.program.see_program();
        let _stand = self.program.type_defs();
        if !is_word(word) {
            return Ok(None);
        }
        let name = Label::new(self.alloc, word)?;
        if self.is_known(names, &name) {
            return Ok(Some(name));
        }
        Ok(None)
    }

    /// A type of another table, taken into the program; `None` exactly where it uses a name that is
    /// not defined, and then nothing is added.
    ///
    /// It copies the nodes that the type reaches, each once, and each name once, whatever else the
    /// other table holds. After `NoMemory` the program has more types at most.
    pub fn adopt(&mut self, types: &Types, id: TypeId) -> Result<Option<TypeId>, NoMemory>
        requires { BelongsTo types.now id }
        ensures defined { IfOk result (λ adopted. is_some adopted ≡ uses_only (known_types (program_tree self.old)) (tree types.now id)) }
        ensures found { IfOk result (λ adopted. IfSome adopted (IsTypeAt self.new.types (tree types.now id))) }
        ensures none { IfOk result (λ adopted. adopted ≡ None → self.new ≡ self.old) }
        ensures adds { AddsTypes self.old self.new }
        ensures same { program_tree self.new ≡ program_tree self.old }
        ensures few { length self.new.types ≤ length self.old.types + size (tree types.now id) }
        ensures within { AddsWithin (depth (tree types.now id)) self.old.types self.new.types }
        ensures shallow { depth (tree types.now id) ≤ nesting_limit → IsShallow self.old.types → IsShallow self.new.types }
    {
        types.see_table();
        let reached = reached_from(self.alloc, types, id)?;
        if !self.knows_all(types, &reached)? {
            return Ok(None);
        }
        Ok(Some(self.copy_in(types, id, &reached)?))
    }

    /// Whether each of these nodes that is a name is a defined one.
    fn knows_all(&mut self, types: &Types, reached: &[usize]) -> Result<bool, NoMemory>
        requires { AllByRecursion (λ i. i < length types.now) reached.now }
        ensures all { IfOk result (λ all. all ≡ list_all (λ i. form_known (known_types (program_tree self.old)) (form_at types.now i)) reached.now) }
        ensures same { self.new ≡ self.old }
    {
        let known = self.learned()?;
        let all = self.defines_all(&known.names, types, reached);
        self.keep(known);
        Ok(all)
    }

    fn defines_all(&self, names: &TypeNames, types: &Types, reached: &[usize]) -> bool
        requires numbered { AreNumbered names.now self.now.type_defs }
        requires nodes { AllByRecursion (λ i. i < length types.now) reached.now }
        ensures { result ≡ list_all (λ i. form_known (known_types (program_tree self.now)) (form_at types.now i)) reached.now }
    {
        for at in reached {
            if !self.defines(names, types.node(TypeId::of(*at)).form()) {
                return false;
            }
        }
        true
    }

    /// Whether the form, if it is a name, is a defined one.
    fn defines(&self, names: &TypeNames, form: &TypeForm) -> bool
        requires { AreNumbered names.now self.now.type_defs }
        ensures { result ≡ form_known (known_types (program_tree self.now)) (form_of form.now) }
    {
        match form {
            TypeForm::Name(word) => self.is_known(names, word),
            _ => true,
        }
    }

    fn is_known(&self, names: &TypeNames, word: &Label) -> bool
        requires { AreNumbered names.now self.now.type_defs }
        ensures { result ≡ has_word (known_types (program_tree self.now)) word.now }
    {
        if word.as_str() == "Any" {
            return true;
        }
        names.find(word).is_some()
    }

    /// Copies the nodes that a type reaches, the oldest first. Each name is copied once, however
    /// often it stands there.
    fn copy_in(&mut self, types: &Types, id: TypeId, reached: &[usize]) -> Result<TypeId, NoMemory>
        requires belongs { BelongsTo types.now id }
        requires reached { AreReached types.now id.at reached.now }
        ensures ok { IfOk result (IsTypeAt self.new.types (tree types.now id)) }
        ensures adds { AddsTypes self.old self.new }
        ensures same { program_tree self.new ≡ program_tree self.old }
        ensures few { length self.new.types ≤ length self.old.types + length reached.now }
        ensures within { AddsWithin (depth (tree types.now id)) self.old.types self.new.types }
    {
        types.see_table();
        let mut names = BTreeMap::new(self.alloc);
        let mut copies = Vec::with_capacity(self.alloc, reached.len())?;
        for place in 0..reached.len() {
            let form = types.node(TypeId::of(reached[place])).form();
            let copy = self.copy_node(form, &reached[..place], &copies, &mut names)?;
            copies.push(copy)?;
        }
        Ok(copy_of(reached, &copies, id))
    }

    fn copy_node(
        &mut self,
        form: &TypeForm,
        originals: &[usize],
        copies: &[TypeId],
        names: &mut BTreeMap<Label, TypeId>,
    ) -> Result<TypeId, NoMemory>
        requires rising { AreRising originals.now }
        requires follows { CanFollow false self.old.types (copied_form (copy_from copies.now originals.now) (form_of form.now)) }
        ensures ok { IfOk result (IsTypeAt self.new.types (form_tree (tree_at self.old.types) (copied_form (copy_from copies.now originals.now) (form_of form.now)))) }
        ensures adds { AddsTypes self.old self.new }
        ensures same { program_tree self.new ≡ program_tree self.old }
        ensures one { AddsOne (form_tree (tree_at self.old.types) (copied_form (copy_from copies.now originals.now) (form_of form.now))) self.old.types self.new.types }
    {
        if let TypeForm::Name(word) = form {
            return self.name_type(word, names);
        }
        let copy = copy_form(self.alloc, form, originals, copies)?;
        self.add_type(copy)
    }

    /// The type that is this name: the one among these, or else one more.
    fn name_type(
        &mut self,
        word: &Label,
        names: &mut BTreeMap<Label, TypeId>,
    ) -> Result<TypeId, NoMemory>
        requires { is_type_name word.now ≡ true }
        ensures ok { IfOk result (IsTypeAt self.new.types (Name word.now)) }
        ensures adds { AddsTypes self.old self.new }
        ensures same { program_tree self.new ≡ program_tree self.old }
        ensures one { AddsOne (Name word.now) self.old.types self.new.types }
    {
        if let Some(id) = names.get(word).copied() {
            if is_name(self.program.types(), id, word) {
                return Ok(id);
            }
        }
        let id = self.add_type(TypeForm::Name(word.share()?))?;
        names.insert(word.share()?, id)?;
        Ok(id)
    }

    /// One more type, of parts that the program has. After `NoMemory` the program has the types
    /// that it had.
    pub fn add_type(&mut self, form: TypeForm) -> Result<TypeId, NoMemory>
        requires { CanFollow false self.old.types (form_of form) }
        ensures ok { IfOk result (IsTypeAt self.new.types (form_tree (tree_at self.old.types) (form_of form))) }
        ensures last { IfOk result (λ id. id.at ≡ length self.old.types) }
        ensures adds { AddsTypes self.old self.new }
        ensures same { program_tree self.new ≡ program_tree self.old }
        ensures one { AddsOne (form_tree (tree_at self.old.types) (form_of form)) self.old.types self.new.types }
        ensures shallow { depth (form_tree (tree_at self.old.types) (form_of form)) ≤ nesting_limit → IsShallow self.old.types → IsShallow self.new.types }
    {
        self.program.add_type(form)
    }

    /// What is known of its types: found at the first call, and then only for the types that were
    /// added since it was given back ([`Self::give_back`]). After `NoMemory` the program is as it
    /// was, and all is found anew at the next call.
    pub fn take_known(&mut self) -> Result<KnownTypes, NoMemory>
        ensures known { IfOk result (AreKnown self.old) }
        ensures same { self.new ≡ self.old }
    {
        let known = self.learned()?;
        Ok(known.complete(self.program.types(), self.program.type_defs())?)
    }

    /// Keeps what was taken.
    pub fn give_back(&mut self, known: KnownTypes)
        requires { AreKnown self.old known }
        ensures { self.new ≡ self.old }
    {
        let _stands = self.program().type_defs();
        self.keep(known);
    }

    /// What is known so far.
    fn learned(&mut self) -> Result<KnownTypes, NoMemory>
        ensures known { IfOk result (AreKnownSoFar self.old.types self.old.type_defs) }
        ensures same { self.new ≡ self.old }
    {
        match self.known.take() {
            Some(known) => Ok(known),
            None => {
                let types = self.program.types();
                Ok(KnownTypes::new(self.alloc, types, self.program.type_defs())?)
            }
        }
    }

    fn keep(&mut self, known: KnownTypes)
        requires { AreKnownSoFar self.old.types self.old.type_defs known }
        ensures { self.new ≡ self.old }
    {
        self.known = Some(known);
    }
}

impl Checked {
    /// The program, as one without faults of matches, arguments and results. It takes no memory.
    pub fn new(sound: SoundProgram) -> Self
        requires { IsAccepted (program_tree sound) }
        ensures { result ≡ sound }
    {
        Self { sound }
    }

    /// The program as a sound one. What follows for its runs is the law
    /// `accepted_programs_are_safe` of the crate `xd_laws`.
    pub fn sound(&self) -> &SoundProgram
        ensures sound { result.now ≡ self.now }
        ensures proper { IsProperProgram (program_tree self.now) }
        ensures accepted { IsAccepted (program_tree self.now) }
    {
        let _program = self.sound.program();
        &self.sound
    }

    /// The parameter's type of `main`, where it is defined with one parameter.
    pub fn main_type(&self) -> Option<TypeId>
        ensures { result ≡ main_parameter self.now.functions }
    {
        let functions = self.sound.program().functions();
        parameter_of_main(functions)
    }
}

/// Whether the type is this name.
fn is_name(types: &Types, id: TypeId, word: &Label) -> bool
    ensures { IsTrue result → IsTypeAt types.now (Name word.now) id }
{
    if id.at() >= types.len() {
        return false;
    }
    match types.node(id).form() {
        TypeForm::Name(other) => other == word,
        _ => false,
    }
}

/// Whether the text is a word.
fn is_word(text: &str) -> bool
    ensures { result ≡ is_word text.now }
{
    match text.as_bytes() {
        [first, rest @ ..] => is_word_start(*first) && are_word_parts(rest),
        [] => false,
    }
}

fn is_word_start(byte: u8) -> bool
    ensures { result ≡ is_word_start byte }
{
    matches!(byte, b'A'..=b'Z' | b'a'..=b'z' | b'_')
}

fn are_word_parts(bytes: &[u8]) -> bool
    ensures { result ≡ are_word_parts bytes.now }
{
    for byte in bytes {
        if !is_word_part(*byte) {
            return false;
        }
    }
    true
}

fn is_word_part(byte: u8) -> bool
    ensures { result ≡ is_word_part byte }
{
    is_word_start(byte) || byte.is_ascii_digit()
}

/// The parameter's type of the first function called `main`, if it has one parameter.
pub fn parameter_of_main(functions: &[Function]) -> Option<TypeId>
    ensures { result ≡ main_parameter functions.now }
{
    for function in functions {
        if function.name().as_str() == "main" {
            return type_of_only(function.params());
        }
    }
    None
}

fn type_of_only(params: &[Param]) -> Option<TypeId>
    ensures { result ≡ only_parameter params.now }
{
    match params {
        [only] => Some(only.body),
        _ => None,
    }
}
