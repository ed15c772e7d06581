//! Classes of texts as types.

ghost use Rattle.std.specs.Prelude.{◌≡◌, ◌<◌, true, List, [], ◌∷◌, IfOk, length};
ghost use Rattle.xd_doc.specs.Classes.{class_has, is_named};
ghost use Rattle.xd_same_types.specs.Grown.{GrowsTypes};
ghost use Rattle.xd_syntax.specs.Types.{BelongsTo, tree};
ghost use Rattle.xd_same_types.specs.Same.{IsTextsType};

use crate::alts::alt;
use crate::pool::{Pool, node};
use std::alloc::Global;
use xd_doc::{NoMemory, Text, Words};
use xd_syntax::{TypeForm, TypeId};

/// The type of one text.
fn one_text(alloc: Global, pool: &mut Pool, text: &Text) -> Result<TypeId, NoMemory>
    ensures texts { IfOk result (λ id. IsTextsType (is_named (text.now ∷ [])) (tree pool.new.types id)) }
    ensures belongs { IfOk result (BelongsTo pool.new.types) }
    ensures keeps { GrowsTypes pool.old.types pool.new.types }
{
    let mut texts = Vec::new(alloc);
    texts.push(text.share()?)?;
    let words = Words::new(alloc, texts, false)?;
    node(pool, TypeForm::Words(words))
}

/// The type of these texts.
fn named_type(alloc: Global, pool: &mut Pool, texts: &[Text]) -> Result<TypeId, NoMemory>
    requires { 0 < length texts.now }
    ensures texts { IfOk result (λ id. IsTextsType (is_named texts.now) (tree pool.new.types id)) }
    ensures belongs { IfOk result (BelongsTo pool.new.types) }
    ensures keeps { GrowsTypes pool.old.types pool.new.types }
{
    let mut made = one_text(alloc, pool, &texts[0])?;
    for number in 1..texts.len() {
        let one = one_text(alloc, pool, &texts[number])?;
        made = alt(alloc, pool, made, one)?;
    }
    Ok(made)
}

/// The type of the texts that are not excepted.
fn others_type(pool: &mut Pool, words: &Words) -> Result<TypeId, NoMemory>
    requires { words.now.except ≡ true }
    ensures texts { IfOk result (λ id. IsTextsType (class_has words.now) (tree pool.new.types id)) }
    ensures belongs { IfOk result (BelongsTo pool.new.types) }
    ensures keeps { GrowsTypes pool.old.types pool.new.types }
{
    if words.texts().is_empty() {
        return node(pool, TypeForm::Text);
    }
    node(pool, TypeForm::Words(words.share()?))
}

/// The type of one text of a class: a text alone, several as alternatives, all texts but some, or
/// `String`. Fails only where memory is refused; the table may have more types then, and keeps its
/// old ones.
pub fn words_type(alloc: Global, pool: &mut Pool, words: &Words) -> Result<TypeId, NoMemory>
    ensures texts { IfOk result (λ id. IsTextsType (class_has words.now) (tree pool.new.types id)) }
    ensures belongs { IfOk result (BelongsTo pool.new.types) }
    ensures keeps { GrowsTypes pool.old.types pool.new.types }
{
    if words.takes_others() {
        return others_type(pool, words);
    }
    named_type(alloc, pool, words.texts())
}
