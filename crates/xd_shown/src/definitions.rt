//! Definitions of types that show a set of documents.

ghost use Rattle.std.specs.Prelude.{◌≡◌, ℕ, List, Some, true, length, IfOk, slice_get};
ghost use Rattle.xd_syntax.specs.Words.{any_word, has_word};
ghost use Rattle.xd_syntax.specs.Keywords.{is_type_name};
ghost use Rattle.xd_syntax.specs.Table.{KeepsRows};
ghost use Rattle.xd_syntax.specs.Types.{BelongsTo, tree};
ghost use Rattle.xd_syntax.specs.Kept.{program_tree};
ghost use Rattle.xd_same_types.specs.Grown.{NamesAmong};
ghost use Rattle.xd_shown.specs.Bodies.{AreBodies, ShowsMeanings, defining, definitions_of};
ghost use Rattle.xd_shown.specs.FreeNames.{AreNewNames};
ghost use Rattle.xd_shown.specs.Shown.{IsShown, none_type};
ghost use Rattle.xd_type_laws.specs.DefinitionsText.{type_definitions};
ghost use Rattle.xd_type_laws.specs.ReadBackLaws.{ReadsWithin};
ghost use Rattle.xd_type_laws.specs.ReadsBack.{AreReadBack};

use crate::names::free_names;
use std::alloc::Global;
use xd_base::Place;
use xd_doc::{Class, Label, NoMemory};
use xd_same_types::{Pool, name_type, node};
use xd_sound::SoundProgram;
use xd_syntax::{Exprs, Patterns, Program, TypeDef, TypeForm, TypeId, Types};

/// Definitions of types that show a set of documents, and the name of the first.
#[derive(Drop)]
pub struct Shown {
    /// The definitions. There are no functions.
    pub sound: SoundProgram,
    /// The name of the first: exactly what is shown fits it.
    pub start: Label,
}

/// A definition for each name. No text has them, so they stand at the place of the first.
fn definitions(alloc: Global, words: &[Label], bodies: &[TypeId]) -> Result<Vec<TypeDef>, NoMemory>
    requires { length bodies.now ≡ length words.now }
    ensures { IfOk result (λ made. made.items ≡ definitions_of words.now bodies.now) }
{
    let mut made = Vec::with_capacity(alloc, words.len())?;
    for number in 0..words.len() {
        made.push(TypeDef {
            name: words[number].share()?,
            place: Place { line: 1, column: 1 },
            body: bodies[number],
        })?;
    }
    Ok(made)
}

/// The program that defines these names.
fn sound_program(
    alloc: Global,
    types: Types,
    words: &[Label],
    bodies: &[TypeId],
) -> Result<SoundProgram, NoMemory>
    requires names { AreNewNames words.now }
    requires bodies { AreBodies types words.now bodies.now }
    ensures { IfOk result (λ made. program_tree made ≡ defining types words.now bodies.now) }
{
    types.see_table();
    let defs = definitions(alloc, words, bodies)?;
    let program = Program::new(
        types,
        Patterns::new(alloc),
        Exprs::new(alloc),
        defs,
        Vec::new(alloc),
    );
    Ok(SoundProgram::new(alloc, program))
}

/// The label `none` around a name: as the name's definition, it is fitted by no document.
///
/// Fails only where memory is refused; the table may have more types then, and keeps its old ones.
pub fn none_around(alloc: Global, pool: &mut Pool, word: &Label) -> Result<TypeId, NoMemory>
    requires { is_type_name word.now ≡ true }
    ensures tree { IfOk result (λ id. tree pool.new.types id ≡ none_type word.now) }
    ensures belongs { IfOk result (BelongsTo pool.new.types) }
    ensures rows { KeepsRows pool.old.types pool.new.types }
    ensures names { (known : List (List ℕ)) → has_word known any_word ≡ true → has_word known word.now ≡ true → NamesAmong known pool.old.types → NamesAmong known pool.new.types }
{
    let name = name_type(pool, word.share()?)?;
    let mut labels = Vec::new(alloc);
    labels.push(Label::new(alloc, "none")?)?;
    let class = Class::new(alloc, labels, false)?;
    node(pool, TypeForm::Elem(class, name))
}

impl Shown {
    /// The definitions of these names by types of a table, the first one's name at the head.
    ///
    /// Whatever meanings of the names are those of their types, the first name's meaning is shown.
    /// A set of no document is shown by [`Self::nothing`]. Fails only where memory is refused.
    pub fn new(
        alloc: Global,
        types: Types,
        words: &[Label],
        bodies: &[TypeId],
    ) -> Result<Self, NoMemory>
        requires names { AreNewNames words.now }
        requires bodies { AreBodies types words.now bodies.now }
        ensures start { IfOk result (λ shown. slice_get words.now 0 ≡ Some shown.start) }
        ensures shown { IfOk result (λ shown. ShowsMeanings types words.now bodies.now (program_tree shown.sound) shown.start) }
    {
        types.see_table();
        let start = words[0].share()?;
        let sound = sound_program(alloc, types, words, bodies)?;
        Ok(Self { sound, start })
    }

    /// No document, as `type S1 = none[S1]`, where `S1` is not taken.
    ///
    /// Fails only where memory is refused.
    pub fn nothing(alloc: Global, taken: &[Label]) -> Result<Self, NoMemory>
        ensures { IfOk result (λ shown. IsShown (λ d. ⊥) taken.now (program_tree shown.sound) shown.start) }
    {
        let words = free_names(alloc, taken, 1)?;
        let start = words[0].share()?;
        let mut pool = Pool::new(alloc);
        let body = none_around(alloc, &mut pool, &start)?;
        let types = pool.into_types();
        types.see_table();
        let sound = sound_program(alloc, types, &words, &[body])?;
        Ok(Self { sound, start })
    }

    /// The text of the definitions reads back. The call does nothing; its contract is the law.
    pub fn see_text(&self)
        ensures text { AreReadBack (type_definitions (program_tree self.now.sound)) }
        ensures within { ReadsWithin (type_definitions (program_tree self.now.sound)) }
    {
        let program = self.sound.program();
        program.types().see_table();
        let _defs = program.type_defs();
    }
}
