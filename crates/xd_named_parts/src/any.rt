//! Whether every document plainly fits a type.

ghost use Rattle.std.specs.Prelude.{◌≡◌, true};
ghost use Rattle.std.specs.List.{AllByRecursion};
ghost use Rattle.xd_syntax.specs.Tree.{Name, seq_of};
ghost use Rattle.xd_syntax.specs.TreeForms.{alt_of};
ghost use Rattle.xd_syntax.specs.Types.{BelongsTo, tree};
ghost use Rattle.xd_syntax.specs.Words.{any_word};
ghost use Rattle.xd_same_types.specs.Same.{trees};
ghost use Rattle.xd_named_parts.specs.Copies.{TakesAll, TakesElements, TakesMore, TakesTexts, has_each};

use xd_doc::{Class, Label};
use xd_same_types::Pool;
use xd_syntax::{TypeForm, TypeId};

/// Whether the class has all labels.
fn has_all_labels(class: &Class) -> bool
    ensures { result ≡ has_each class.now }
{
    class.takes_others() && class.names().is_empty()
}

fn is_any_word(word: &Label) -> bool
    ensures { result ≡ true → word.now ≡ any_word }
{
    word.as_str() == "Any"
}

/// Whether it is the name `Any`.
fn is_any(pool: &Pool, id: TypeId) -> bool
    requires { BelongsTo pool.now.types id }
    ensures { result ≡ true → tree pool.now.types id ≡ Name any_word }
{
    match pool.types.node(id).form() {
        TypeForm::Name(word) => is_any_word(word),
        _ => false,
    }
}

/// Whether it is the type of all texts.
fn takes_texts(pool: &Pool, id: TypeId) -> bool
    requires { BelongsTo pool.now.types id }
    ensures { result ≡ true → TakesTexts (tree pool.now.types id) }
{
    match pool.types.node(id).form() {
        TypeForm::Text => true,
        _ => false,
    }
}

/// Whether it is the type of all elements.
fn takes_elements(pool: &Pool, id: TypeId) -> bool
    requires { BelongsTo pool.now.types id }
    ensures { result ≡ true → TakesElements (tree pool.now.types id) }
{
    match pool.types.node(id).form() {
        TypeForm::Elem(class, content) => {
            if !has_all_labels(class) {
                return false;
            }
            is_any(pool, *content)
        }
        _ => false,
    }
}

/// Whether one of these alternatives is the type of all texts.
fn some_takes_texts(pool: &Pool, parts: &[TypeId]) -> bool
    requires { AllByRecursion (BelongsTo pool.now.types) parts.now }
    ensures { result ≡ true → TakesTexts (alt_of (trees pool.now.types parts.now)) }
{
    for part in parts {
        if takes_texts(pool, *part) {
            return true;
        }
    }
    false
}

/// Whether one of these alternatives is the type of all elements.
fn some_takes_elements(pool: &Pool, parts: &[TypeId]) -> bool
    requires { AllByRecursion (BelongsTo pool.now.types) parts.now }
    ensures { result ≡ true → TakesElements (alt_of (trees pool.now.types parts.now)) }
{
    for part in parts {
        if takes_elements(pool, *part) {
            return true;
        }
    }
    false
}

/// Whether all texts and all elements are alternatives of a type.
pub(crate) fn takes_items(pool: &Pool, id: TypeId) -> bool
    requires { BelongsTo pool.now.types id }
    ensures texts { result ≡ true → TakesTexts (tree pool.now.types id) }
    ensures elements { result ≡ true → TakesElements (tree pool.now.types id) }
{
    match pool.types.node(id).form() {
        TypeForm::Alt(parts) => {
            if !some_takes_texts(pool, parts) {
                return false;
            }
            some_takes_elements(pool, parts)
        }
        _ => false,
    }
}

/// Whether one of these alternatives is `Any`.
pub(crate) fn some_any(pool: &Pool, parts: &[TypeId]) -> bool
    requires { AllByRecursion (BelongsTo pool.now.types) parts.now }
    ensures { result ≡ true → TakesAll (alt_of (trees pool.now.types parts.now)) }
{
    for part in parts {
        if is_any(pool, *part) {
            return true;
        }
    }
    false
}

/// Whether these parts are all texts and all elements, and then `Any`.
fn row_takes_more(pool: &Pool, parts: &[TypeId]) -> bool
    requires { AllByRecursion (BelongsTo pool.now.types) parts.now }
    ensures { result ≡ true → TakesMore (seq_of (trees pool.now.types parts.now)) }
{
    if parts.len() != 2 {
        return false;
    }
    if !takes_items(pool, parts[0]) {
        return false;
    }
    is_any(pool, parts[1])
}

/// Whether every document that has an item plainly fits a type that is no alternative.
fn part_takes_more(pool: &Pool, id: TypeId) -> bool
    requires { BelongsTo pool.now.types id }
    ensures { result ≡ true → TakesMore (tree pool.now.types id) }
{
    match pool.types.node(id).form() {
        TypeForm::Seq(parts) => row_takes_more(pool, parts),
        _ => is_any(pool, id),
    }
}

/// Whether every document that has an item plainly fits one of these alternatives.
fn some_takes_more(pool: &Pool, parts: &[TypeId]) -> bool
    requires { AllByRecursion (BelongsTo pool.now.types) parts.now }
    ensures { result ≡ true → TakesMore (alt_of (trees pool.now.types parts.now)) }
{
    for part in parts {
        if part_takes_more(pool, *part) {
            return true;
        }
    }
    false
}

/// Whether every document that has an item plainly fits the type.
pub(crate) fn takes_more(pool: &Pool, id: TypeId) -> bool
    requires { BelongsTo pool.now.types id }
    ensures { result ≡ true → TakesMore (tree pool.now.types id) }
{
    match pool.types.node(id).form() {
        TypeForm::Alt(parts) => some_takes_more(pool, parts),
        _ => part_takes_more(pool, id),
    }
}
