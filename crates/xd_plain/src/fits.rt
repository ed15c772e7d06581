//! Whether a document fits a type, by trying each split of the document.

ghost use Rattle.std.specs.Prelude.{◌≡◌, ◌≤◌, ◌↔◌, ◌++◌, ◌∷◌, [], IsTrue, IfOk, OnOk};
ghost use Rattle.xd_syntax.specs.Tree.{Name};
ghost use Rattle.xd_syntax.specs.Fits as types;
ghost use Rattle.xd_meaning.specs.FitsWithin as unfolded;
ghost use Rattle.xd_syntax.specs.Ways.{unfoldings as needed};
ghost use Rattle.xd_plain.specs.PlainDocuments.{document_of};
ghost use Rattle.xd_plain.specs.PlainTrees.{tree_of, definitions_of};
ghost use Rattle.xd_plain.specs.PlainFits.{splits, splits_of, behind_text, behind_element};
ghost use Rattle.xd_syntax.specs.Program.{ProgramTree, names_of};
ghost use Rattle.xd_syntax.specs.RecursionFaults.{IsSound};

use crate::document::PlainDocument;
use crate::tree::{PlainDefinition, PlainTree, body_of};
use std::alloc::Global;
use xd_doc::{Class, Label, NoMemory, Text, Words};

/// Two documents that are one, joined.
#[derive(Drop)]
pub struct Split {
    pub front: PlainDocument,
    pub back: PlainDocument,
}

/// Whether the document fits the type, where names may be unfolded so many times.
///
/// In a sound program no more unfoldings are needed than the document's size plus one times the
/// number of definitions plus one, `Any` among them. Fails only where memory is refused.
pub fn fits_within(
    alloc: Global,
    definitions: &[PlainDefinition],
    unfoldings: u64,
    tree: &PlainTree,
    document: &PlainDocument,
) -> Result<bool, NoMemory>
    ensures within { IfOk result (λ fits. IsTrue fits ↔ unfolded.FitsWithin (definitions_of definitions.now) unfoldings (tree_of tree.now) (document_of document.now)) }
    ensures enough { (P : ProgramTree) → IsSound P → definitions_of definitions.now ≡ names_of P → needed (names_of P) (document_of document.now) ≤ unfoldings → IfOk result (λ fits. IsTrue fits ↔ types.Fits (names_of P) (tree_of tree.now) (document_of document.now)) }
{
    is_fitting(alloc, definitions, unfoldings, tree, document)
}

#[cycle(fits)]
fn is_fitting(
    alloc: Global,
    definitions: &[PlainDefinition],
    unfoldings: u64,
    tree: &PlainTree,
    document: &PlainDocument,
) -> Result<bool, NoMemory>
    ensures { IfOk result (λ fits. IsTrue fits ↔ unfolded.FitsWithin (definitions_of definitions.now) unfoldings (tree_of tree.now) (document_of document.now)) }
{
    match tree {
        PlainTree::Empty => Ok(document.is_empty()),
        PlainTree::Text => Ok(is_one_text(document)),
        PlainTree::Words(texts) => Ok(is_one_of(texts, document)),
        PlainTree::Name(name) => is_defined(alloc, definitions, unfoldings, name, document),
        PlainTree::Elem(class, content) => {
            is_one_element(alloc, definitions, unfoldings, class, content, document)
        }
        PlainTree::Seq(first, second) => {
            in_two_parts(alloc, definitions, unfoldings, first, second, document)
        }
        PlainTree::Alt(left, right) => {
            if is_fitting(alloc, definitions, unfoldings, left, document)? {
                return Ok(true);
            }
            is_fitting(alloc, definitions, unfoldings, right, document)
        }
        PlainTree::Star(part) => in_turns(alloc, definitions, unfoldings, part, document),
        PlainTree::Plus(part) => in_one_turn_or_more(
            alloc,
            definitions,
            unfoldings,
            part,
            document,
        ),
        PlainTree::Opt(part) => {
            if document.is_empty() {
                return Ok(true);
            }
            is_fitting(alloc, definitions, unfoldings, part, document)
        }
        PlainTree::Val(_, part) => is_fitting(alloc, definitions, unfoldings, part, document),
    }
}

/// Whether the document fits what the name is defined as, with one unfolding fewer.
#[cycle(fits)]
fn is_defined(
    alloc: Global,
    definitions: &[PlainDefinition],
    unfoldings: u64,
    name: &Label,
    document: &PlainDocument,
) -> Result<bool, NoMemory>
    ensures { IfOk result (λ fits. IsTrue fits ↔ unfolded.FitsWithin (definitions_of definitions.now) unfoldings (Name name.now) (document_of document.now)) }
{
    let Some(body) = body_of(definitions, name) else {
        return Ok(false);
    };
    if unfoldings == 0 {
        return Ok(false);
    }
    is_fitting(alloc, definitions, unfoldings - 1, body, document)
}

/// Whether the document is one element with a label of the class, whose content fits the type.
#[cycle(fits)]
fn is_one_element(
    alloc: Global,
    definitions: &[PlainDefinition],
    unfoldings: u64,
    class: &Class,
    content: &PlainTree,
    document: &PlainDocument,
) -> Result<bool, NoMemory>
    ensures { IfOk result (λ fits. IsTrue fits ↔ unfolded.IsOneElement class.now (unfolded.FitsWithin (definitions_of definitions.now) unfoldings (tree_of content.now)) (document_of document.now)) }
{
    match document {
        PlainDocument::Empty => Ok(false),
        PlainDocument::Text(_, _) => Ok(false),
        PlainDocument::Elem(label, inner, rest) => {
            if !class.has(label) {
                return Ok(false);
            }
            if !rest.is_empty() {
                return Ok(false);
            }
            is_fitting(alloc, definitions, unfoldings, content, inner)
        }
    }
}

/// Whether some split's front fits the first type and its back the second.
#[cycle(fits)]
fn in_two_parts(
    alloc: Global,
    definitions: &[PlainDefinition],
    unfoldings: u64,
    first: &PlainTree,
    second: &PlainTree,
    document: &PlainDocument,
) -> Result<bool, NoMemory>
    ensures { IfOk result (λ fits. IsTrue fits ↔ types.Split (unfolded.FitsWithin (definitions_of definitions.now) unfoldings (tree_of first.now)) (unfolded.FitsWithin (definitions_of definitions.now) unfoldings (tree_of second.now)) (document_of document.now)) }
{
    let splits = all_splits(alloc, document)?;
    for split in &splits {
        if !is_fitting(alloc, definitions, unfoldings, first, &split.front)? {
            continue;
        }
        if is_fitting(alloc, definitions, unfoldings, second, &split.back)? {
            return Ok(true);
        }
    }
    Ok(false)
}

/// Whether the document is empty, or some split's front has an item and fits the type and its back
/// fits the repetition.
#[cycle(fits)]
fn in_turns(
    alloc: Global,
    definitions: &[PlainDefinition],
    unfoldings: u64,
    part: &PlainTree,
    document: &PlainDocument,
) -> Result<bool, NoMemory>
    ensures { IfOk result (λ fits. IsTrue fits ↔ unfolded.Repeats (unfolded.FitsWithin (definitions_of definitions.now) unfoldings (tree_of part.now)) (document_of document.now)) }
{
    if document.is_empty() {
        return Ok(true);
    }
    let splits = all_splits(alloc, document)?;
    for split in &splits {
        if split.front.is_empty() {
            continue;
        }
        if !is_fitting(alloc, definitions, unfoldings, part, &split.front)? {
            continue;
        }
        if in_turns(alloc, definitions, unfoldings, part, &split.back)? {
            return Ok(true);
        }
    }
    Ok(false)
}

/// Whether some split's front fits the type and its back the repetition.
#[cycle(fits)]
fn in_one_turn_or_more(
    alloc: Global,
    definitions: &[PlainDefinition],
    unfoldings: u64,
    part: &PlainTree,
    document: &PlainDocument,
) -> Result<bool, NoMemory>
    ensures { IfOk result (λ fits. IsTrue fits ↔ types.Split (unfolded.FitsWithin (definitions_of definitions.now) unfoldings (tree_of part.now)) (unfolded.Repeats (unfolded.FitsWithin (definitions_of definitions.now) unfoldings (tree_of part.now))) (document_of document.now)) }
{
    let splits = all_splits(alloc, document)?;
    for split in &splits {
        if !is_fitting(alloc, definitions, unfoldings, part, &split.front)? {
            continue;
        }
        if in_turns(alloc, definitions, unfoldings, part, &split.back)? {
            return Ok(true);
        }
    }
    Ok(false)
}

fn is_one_text(document: &PlainDocument) -> bool
    ensures { IsTrue result ↔ unfolded.IsOneText (document_of document.now) }
{
    match document {
        PlainDocument::Empty => false,
        PlainDocument::Text(_, rest) => rest.is_empty(),
        PlainDocument::Elem(_, _, _) => false,
    }
}

fn is_one_of(texts: &Words, document: &PlainDocument) -> bool
    ensures { IsTrue result ↔ unfolded.IsTextIn texts.now (document_of document.now) }
{
    match document {
        PlainDocument::Empty => false,
        PlainDocument::Text(text, rest) => rest.is_empty() && texts.has(text),
        PlainDocument::Elem(_, _, _) => false,
    }
}

/// All splits of the document, the shortest front first. Fails only where memory is refused.
#[cycle(splits)]
pub fn all_splits(alloc: Global, document: &PlainDocument) -> Result<Vec<Split>, NoMemory>
    ensures { IfOk result (λ made. splits_of made.items ≡ splits (document_of document.now)) }
{
    let mut made = Vec::new(alloc);
    push_splits(alloc, document, &mut made)?;
    Ok(made)
}

/// Appends all splits of the document.
#[cycle(splits)]
fn push_splits(
    alloc: Global,
    document: &PlainDocument,
    made: &mut Vec<Split>,
) -> Result<(), NoMemory>
    ensures { OnOk result (splits_of made.new.items ≡ splits_of made.old.items ++ splits (document_of document.now)) }
{
    push_split(alloc, PlainDocument::Empty, document, made)?;
    match document {
        PlainDocument::Empty => Ok(()),
        PlainDocument::Text(text, rest) => {
            let shorter = all_splits(alloc, rest)?;
            push_behind_text(alloc, text, &shorter, made)
        }
        PlainDocument::Elem(label, content, rest) => {
            let shorter = all_splits(alloc, rest)?;
            push_behind_element(alloc, label, content, &shorter, made)
        }
    }
}

/// Appends the split into this front and a copy of the back.
fn push_split(
    alloc: Global,
    front: PlainDocument,
    back: &PlainDocument,
    made: &mut Vec<Split>,
) -> Result<(), NoMemory>
    ensures { OnOk result (splits_of made.new.items ≡ splits_of made.old.items ++ (document_of front, document_of back.now) ∷ []) }
{
    let back = back.copy(alloc)?;
    made.push(Split { front, back })?;
    Ok(())
}

/// Appends the splits, with the text before each front.
fn push_behind_text(
    alloc: Global,
    text: &Text,
    splits: &[Split],
    made: &mut Vec<Split>,
) -> Result<(), NoMemory>
    ensures { OnOk result (splits_of made.new.items ≡ splits_of made.old.items ++ behind_text text.now (splits_of splits.now)) }
{
    for split in splits {
        let behind = split.front.copy(alloc)?;
        let front = PlainDocument::with_text(alloc, text, behind)?;
        push_split(alloc, front, &split.back, made)?;
    }
    Ok(())
}

/// Appends the splits, with the element before each front.
fn push_behind_element(
    alloc: Global,
    label: &Label,
    content: &PlainDocument,
    splits: &[Split],
    made: &mut Vec<Split>,
) -> Result<(), NoMemory>
    ensures { OnOk result (splits_of made.new.items ≡ splits_of made.old.items ++ behind_element label.now (document_of content.now) (splits_of splits.now)) }
{
    for split in splits {
        let behind = split.front.copy(alloc)?;
        let inside = content.copy(alloc)?;
        let front = PlainDocument::with_element(alloc, label, inside, behind)?;
        push_split(alloc, front, &split.back, made)?;
    }
    Ok(())
}
