//! Types that are made, each form once.

ghost use Rattle.std.specs.Prelude.{◌≡◌, [], IfOk, false, true};
ghost use Rattle.std.specs.Option.{IfSome};
ghost use Rattle.xd_syntax.specs.Table.{CanFollow, form_tree, name_form, tree_at};
ghost use Rattle.xd_syntax.specs.Tree.{Name};
ghost use Rattle.xd_syntax.specs.Keywords.{is_type_name};
ghost use Rattle.xd_same_types.specs.Grown.{GrowsBy, GrowsTypes, form_named};
ghost use Rattle.xd_syntax.specs.Types.{BelongsTo, form_of, tree};

use crate::same::is_same_form;
use std::alloc::Global;
use std::collections::HashMap;
use xd_base::Place;
use xd_doc::{Label, NoMemory};
use xd_syntax::{TypeForm, TypeId, Types};

/// A table of types in which each form is made once, so that equal types have one number.
///
/// Types of the table stay where they are while it grows. After `NoMemory` it may have types
/// that nothing uses.
#[derive(Drop)]
pub struct Pool {
    pub types: Types,
    /// For a number that equal forms share, the newest node with it.
    found: HashMap<u64, TypeId>,
    /// How long the text of each node is, about.
    sizes: Vec<u64>,
}

/// A number with one more part mixed in.
fn mixed(key: u64, part: usize) -> u64 {
    key.wrapping_mul(0x9E37_79B9_7F4A_7C15)
        .wrapping_add(part as u64)
        .rotate_left(23)
}

fn mixed_text(key: u64, text: &str) -> u64 {
    let mut key = mixed(key, text.len());
    for byte in text.as_bytes() {
        key = mixed(key, *byte as usize);
    }
    key
}

fn mixed_parts(key: u64, parts: &[TypeId]) -> u64 {
    let mut key = mixed(key, parts.len());
    for part in parts {
        key = mixed(key, part.at());
    }
    key
}

/// A number that equal forms share.
fn key_of(form: &TypeForm) -> u64 {
    match form {
        TypeForm::Empty => mixed(0, 0),
        TypeForm::Text => mixed(0, 1),
        TypeForm::Words(texts) => {
            let mut key = mixed(0, if texts.takes_others() { 2 } else { 3 });
            for text in texts.texts() {
                key = mixed_text(key, text.as_str());
            }
            key
        }
        TypeForm::Name(word) => mixed_text(4, word.as_str()),
        TypeForm::Elem(class, content) => {
            let mut key = mixed(if class.takes_others() { 11 } else { 5 }, content.at());
            for label in class.names() {
                key = mixed_text(key, label.as_str());
            }
            key
        }
        TypeForm::Seq(parts) => mixed_parts(6, parts),
        TypeForm::Alt(parts) => mixed_parts(7, parts),
        TypeForm::Star(part) => mixed(8, part.at()),
        TypeForm::Plus(part) => mixed(9, part.at()),
        TypeForm::Opt(part) => mixed(10, part.at()),
    }
}

/// How many characters the text of a type has, about; no more than the largest number of its kind.
pub fn size_of(pool: &Pool, id: TypeId) -> u64 {
    pool.sizes.get(id.at()).copied().unwrap_or(1)
}

fn size_of_parts(pool: &Pool, parts: &[TypeId]) -> u64 {
    let mut size = 1u64;
    for part in parts {
        size = size.saturating_add(size_of(pool, *part)).saturating_add(1);
    }
    size
}

fn size_of_form(pool: &Pool, form: &TypeForm) -> u64 {
    match form {
        TypeForm::Empty => 2,
        TypeForm::Text => 6,
        TypeForm::Words(_) => 6,
        TypeForm::Name(_) => 3,
        TypeForm::Elem(class, content) => {
            let names = class.names().len() as u64;
            size_of(pool, *content).saturating_add(names.saturating_mul(6))
        }
        TypeForm::Seq(parts) => size_of_parts(pool, parts),
        TypeForm::Alt(parts) => size_of_parts(pool, parts),
        TypeForm::Star(part) => size_of(pool, *part).saturating_add(1),
        TypeForm::Plus(part) => size_of(pool, *part).saturating_add(1),
        TypeForm::Opt(part) => size_of(pool, *part).saturating_add(1),
    }
}

impl Pool {
    /// A table with no type.
    pub fn new(alloc: Global) -> Self
        ensures { result.types ≡ [] }
    {
        Self {
            types: Types::new(alloc),
            found: HashMap::new(alloc),
            sizes: Vec::new(alloc),
        }
    }

    /// The types alone, as a program has them.
    pub fn into_types(self) -> Types
        ensures { result ≡ self.types }
    {
        let Self { types, .. } = self;
        types
    }
}

/// An old node of this form, if the number leads to one.
fn found_node(pool: &Pool, key: u64, form: &TypeForm) -> Option<TypeId>
    ensures tree { IfSome result (λ id. tree pool.now.types id ≡ form_tree (tree_at pool.now.types) (form_of form.now)) }
    ensures belongs { IfSome result (BelongsTo pool.now.types) }
{
    let Some(id) = pool.found.get(&key).copied() else {
        return None;
    };
    if id.at() >= pool.types.len() {
        return None;
    }
    if is_same_form(pool.types.node(id).form(), form) {
        Some(id)
    } else {
        None
    }
}

/// A node of this form, an old one where there is one.
fn any_node(pool: &mut Pool, form: TypeForm) -> Result<TypeId, NoMemory>
    requires { CanFollow false pool.old.types (form_of form) }
    ensures tree { IfOk result (λ id. tree pool.new.types id ≡ form_tree (tree_at pool.old.types) (form_of form)) }
    ensures belongs { IfOk result (BelongsTo pool.new.types) }
    ensures grows { GrowsBy (form_of form) pool.old.types pool.new.types }
{
    let key = key_of(&form);
    if let Some(id) = found_node(pool, key, &form) {
        return Ok(id);
    }
    let size = size_of_form(pool, &form);
    let id = pool.types.add(Place { line: 1, column: 1 }, form)?;
    pool.sizes.push(size)?;
    pool.found.insert(key, id)?;
    Ok(id)
}

/// A type of this form, which is no name; the one that the table has, if it has one.
///
/// The form is kept as it is: `seq`, `alt` and `star` write types short. Fails only where memory is
/// refused; the table may have more types then, and keeps its old ones.
pub fn node(pool: &mut Pool, form: TypeForm) -> Result<TypeId, NoMemory>
    requires { CanFollow false pool.old.types (form_of form) × (form_named [] (form_of form) ≡ true) }
    ensures tree { IfOk result (λ id. tree pool.new.types id ≡ form_tree (tree_at pool.old.types) (form_of form)) }
    ensures belongs { IfOk result (BelongsTo pool.new.types) }
    ensures keeps { GrowsTypes pool.old.types pool.new.types }
{
    any_node(pool, form)
}

/// The type that is this name; the one that the table has, if it has one. Fails only where memory
/// is refused; the table may have more types then, and keeps its old ones.
pub fn name_type(pool: &mut Pool, word: Label) -> Result<TypeId, NoMemory>
    requires { is_type_name word ≡ true }
    ensures tree { IfOk result (λ id. tree pool.new.types id ≡ Name word) }
    ensures belongs { IfOk result (BelongsTo pool.new.types) }
    ensures grows { GrowsBy (name_form word) pool.old.types pool.new.types }
{
    any_node(pool, TypeForm::Name(word))
}
