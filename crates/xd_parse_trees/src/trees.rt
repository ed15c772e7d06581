//! Reads types and patterns.
//!
//! They have one grammar, but for the variables of patterns. Each function reads what its
//! nonterminal stands for; where no token comes that the nonterminal begins with, it may answer
//! anything.

ghost use Rattle.std.specs.Prelude.{◌≡◌, ◌<◌, ◌⊎◌, ◌∷◌, [], false, true, vec_len, IfOk};
ghost use Rattle.xd_syntax.specs.Table.{KeepsRows};
ghost use Rattle.xd_syntax.specs.Words.{any_word, has_word};
ghost use Rattle.xd_syntax.specs.Keywords.{keywords};
ghost use Rattle.xd_syntax.specs.Placed.{Elem_at, Name_at, Val_at, Words_at};
ghost use Rattle.xd_grammar.specs.declared.grammar.Nonterminal.TheVariants as nonterminals;
ghost use Rattle.xd_grammar.specs.declared.grammar.Terminal.TheVariants as terminals;
ghost use Rattle.xd_grammar.specs.declared.grammar.Sort.TheVariants as sorts;
ghost use Rattle.xd_parse_trees.specs.Merged.{class_of};
ghost use Rattle.xd_parse_trees.specs.Values.{a_tree, mark, named_type, word};
ghost use Rattle.xd_parse_trees.specs.Reading.{front_terminal};
ghost use Rattle.xd_parse_trees.specs.Pieces.{pieces, tree_of, Stand};
ghost use Rattle.xd_parse_trees.specs.Nodes.{AddsAround, Merges, ReadsNode, ReadsInto, BeginsElement, is_operator, repeated_node};

use crate::classes::{Excepted, read_class, read_excepted};
use crate::cursor::{Cursor, Word};
use crate::nodes::{NodeForm, Nodes};
use crate::parts::{Parts, add_part, in_alternative, in_sequence, nothing_at, place_of, to_node};
use std::alloc::Global;
use xd_base::Place;
use xd_doc::{Class, Label, NoMemory, Text, Words};
use xd_grammar::{Sort, Terminal};

/// A word: `String` is the type of texts.
fn add_named<N: Nodes>(nodes: &mut N, word: Word) -> Result<Parts<N::Id>, NoMemory>
    requires { has_word keywords word.word ≡ false }
    ensures merges { IfOk result (λ parts. Merges (N.rows nodes.old) (N.rows nodes.new) (named_type word.word word.place) (pieces N.at parts)) }
    ensures keeps { KeepsRows (N.rows nodes.old) (N.rows nodes.new) }
{
    let Word { word, place } = word;
    if word.as_str() == "String" {
        return add_part(nodes, place, NodeForm::Text);
    }
    add_part(nodes, place, NodeForm::Name(word))
}

/// One text, or all texts but these.
fn add_texts<N: Nodes>(
    alloc: Global,
    nodes: &mut N,
    place: Place,
    texts: Vec<Text>,
    except: bool,
) -> Result<Parts<N::Id>, NoMemory>
    requires some { 0 < vec_len texts }
    requires one { (except ≡ true) ⊎ (vec_len texts ≡ 1) }
    ensures merges { IfOk result (λ parts. Merges (N.rows nodes.old) (N.rows nodes.new) (Words_at place (class_of except texts.items)) (pieces N.at parts)) }
    ensures keeps { KeepsRows (N.rows nodes.old) (N.rows nodes.new) }
{
    let words = Words::new(alloc, texts, except)?;
    add_part(nodes, place, NodeForm::Words(words))
}

/// One text.
fn read_text<N: Nodes>(
    alloc: Global,
    cursor: &mut Cursor<'_>,
    nodes: &mut N,
) -> Result<Parts<N::Id>, NoMemory>
    requires { front_terminal cursor.old ≡ terminals.Text }
    ensures reads { IfOk result (λ parts. ReadsNode (nonterminals.Prim N.sort) cursor.old cursor.new (N.rows nodes.old) (N.rows nodes.new) (pieces N.at parts)) }
    ensures keeps { KeepsRows (N.rows nodes.old) (N.rows nodes.new) }
{
    let quoted = cursor.quoted(alloc)?;
    let mut texts = Vec::new(alloc);
    texts.push(quoted.text)?;
    add_texts(alloc, nodes, quoted.place, texts, false)
}

fn is_operator(kind: Terminal) -> bool
    ensures { result ≡ is_operator kind }
{
    matches!(kind, Terminal::Star | Terminal::Plus | Terminal::Query)
}

/// A part with its operator.
fn repeated<I: Copy>(operator: Terminal, part: I) -> NodeForm<I>
    ensures { result ≡ repeated_node operator part }
{
    match operator {
        Terminal::Star => NodeForm::Star(part),
        Terminal::Plus => NodeForm::Plus(part),
        _ => NodeForm::Opt(part),
    }
}

/// The operator after a part, if one comes.
fn read_operator<N: Nodes>(
    cursor: &mut Cursor<'_>,
    nodes: &mut N,
    parts: Parts<N::Id>,
) -> Result<Parts<N::Id>, NoMemory>
    requires { Stand (N.rows nodes.old) (pieces N.at parts) }
    ensures reads { IfOk result (λ made. ReadsInto (nonterminals.Post N.sort) (a_tree (tree_of (N.rows nodes.old) (pieces N.at parts)) ∷ []) nonterminals.Operator cursor.old cursor.new (N.rows nodes.old) (N.rows nodes.new) (pieces N.at made)) }
    ensures keeps { KeepsRows (N.rows nodes.old) (N.rows nodes.new) }
{
    let operator = cursor.peek();
    if is_operator(operator) {
        cursor.step();
        let place = place_of(&parts);
        let part = to_node(nodes, parts)?;
        return add_part(nodes, place, repeated(operator, part));
    }
    Ok(parts)
}

/// An element around what was read as its content.
fn add_element<N: Nodes>(
    nodes: &mut N,
    place: Place,
    class: Class,
    content: Parts<N::Id>,
) -> Result<Parts<N::Id>, NoMemory>
    requires { Stand (N.rows nodes.old) (pieces N.at content) }
    ensures adds { IfOk result (λ parts. AddsAround (Elem_at place class) (N.rows nodes.old) (N.rows nodes.new) (tree_of (N.rows nodes.old) (pieces N.at content)) (pieces N.at parts)) }
    ensures keeps { KeepsRows (N.rows nodes.old) (N.rows nodes.new) }
{
    let inside = to_node(nodes, content)?;
    add_part(nodes, place, NodeForm::Elem(class, inside))
}

/// A variable around what was read after its `as`.
fn add_bound<N: Nodes>(
    nodes: &mut N,
    place: Place,
    variable: Word,
    part: Parts<N::Id>,
) -> Result<Parts<N::Id>, NoMemory>
    requires pattern { N.sort ≡ sorts.Pattern }
    requires stands { Stand (N.rows nodes.old) (pieces N.at part) }
    ensures adds { IfOk result (λ parts. AddsAround (Val_at place variable.word variable.place) (N.rows nodes.old) (N.rows nodes.new) (tree_of (N.rows nodes.old) (pieces N.at part)) (pieces N.at parts)) }
    ensures keeps { KeepsRows (N.rows nodes.old) (N.rows nodes.new) }
{
    let Word { word, place: at } = variable;
    let bound = to_node(nodes, part)?;
    add_part(nodes, place, NodeForm::Val(word, at, bound))
}

/// A variable that may be anything.
fn add_unbound<N: Nodes>(
    alloc: Global,
    nodes: &mut N,
    place: Place,
    variable: Word,
) -> Result<Parts<N::Id>, NoMemory>
    requires { N.sort ≡ sorts.Pattern }
    ensures adds { IfOk result (λ parts. AddsAround (Val_at place variable.word variable.place) (N.rows nodes.old) (N.rows nodes.new) (Name_at variable.place any_word) (pieces N.at parts)) }
    ensures keeps { KeepsRows (N.rows nodes.old) (N.rows nodes.new) }
{
    let Word { word, place: at } = variable;
    let any = Label::new(alloc, "Any")?;
    let bound = nodes.add(at, NodeForm::Name(any))?;
    add_part(nodes, place, NodeForm::Val(word, at, bound))
}

/// Branches between `|`.
#[cycle(trees)]
pub(crate) fn read_tree<N: Nodes>(
    alloc: Global,
    cursor: &mut Cursor<'_>,
    nodes: &mut N,
) -> Result<Parts<N::Id>, NoMemory>
    ensures reads { IfOk result (λ parts. ReadsNode (nonterminals.Alternative N.sort) cursor.old cursor.new (N.rows nodes.old) (N.rows nodes.new) (pieces N.at parts)) }
    ensures keeps { KeepsRows (N.rows nodes.old) (N.rows nodes.new) }
{
    let mut read = read_branch(alloc, cursor, nodes)?;
    'branches: while cursor.at(Terminal::Bar) {
        cursor.step();
        let branch = read_branch(alloc, cursor, nodes)?;
        read = in_alternative(alloc, nodes, read, branch)?;
    }
    Ok(read)
}

/// Parts between commas.
#[cycle(trees)]
pub(crate) fn read_branch<N: Nodes>(
    alloc: Global,
    cursor: &mut Cursor<'_>,
    nodes: &mut N,
) -> Result<Parts<N::Id>, NoMemory>
    ensures reads { IfOk result (λ parts. ReadsNode (nonterminals.Sequence N.sort) cursor.old cursor.new (N.rows nodes.old) (N.rows nodes.new) (pieces N.at parts)) }
    ensures keeps { KeepsRows (N.rows nodes.old) (N.rows nodes.new) }
{
    let mut read = read_part(alloc, cursor, nodes)?;
    'parts: while cursor.at(Terminal::Comma) {
        cursor.step();
        let part = read_part(alloc, cursor, nodes)?;
        read = in_sequence(alloc, nodes, read, part)?;
    }
    Ok(read)
}

/// A part, with the operator after it.
#[cycle(trees)]
fn read_part<N: Nodes>(
    alloc: Global,
    cursor: &mut Cursor<'_>,
    nodes: &mut N,
) -> Result<Parts<N::Id>, NoMemory>
    ensures reads { IfOk result (λ parts. ReadsNode (nonterminals.Post N.sort) cursor.old cursor.new (N.rows nodes.old) (N.rows nodes.new) (pieces N.at parts)) }
    ensures keeps { KeepsRows (N.rows nodes.old) (N.rows nodes.new) }
{
    if cursor.at(Terminal::Val) {
        return read_variable(alloc, cursor, nodes);
    }
    let part = read_primary(alloc, cursor, nodes)?;
    read_operator(cursor, nodes, part)
}

/// A variable, from its `val` on.
#[cycle(trees)]
fn read_variable<N: Nodes>(
    alloc: Global,
    cursor: &mut Cursor<'_>,
    nodes: &mut N,
) -> Result<Parts<N::Id>, NoMemory>
    requires { front_terminal cursor.old ≡ terminals.Val }
    ensures reads { IfOk result (λ parts. ReadsNode (nonterminals.Post N.sort) cursor.old cursor.new (N.rows nodes.old) (N.rows nodes.new) (pieces N.at parts)) }
    ensures keeps { KeepsRows (N.rows nodes.old) (N.rows nodes.new) }
{
    let place = cursor.step();
    match N::sort() {
        Sort::Type => Ok(nothing_at(alloc, place)),
        Sort::Pattern => {
            let variable = cursor.word(alloc)?;
            read_bound(alloc, cursor, nodes, place, variable)
        }
    }
}

/// What a variable after a `val` at this place is bound to; where no `as` comes it is `Any`.
#[cycle(trees)]
fn read_bound<N: Nodes>(
    alloc: Global,
    cursor: &mut Cursor<'_>,
    nodes: &mut N,
    place: Place,
    variable: Word,
) -> Result<Parts<N::Id>, NoMemory>
    requires { N.sort ≡ sorts.Pattern }
    ensures reads { IfOk result (λ parts. ReadsInto (nonterminals.Post N.sort) (mark terminals.Val place ∷ (word variable.word variable.place ∷ [])) nonterminals.Bound cursor.old cursor.new (N.rows nodes.old) (N.rows nodes.new) (pieces N.at parts)) }
    ensures keeps { KeepsRows (N.rows nodes.old) (N.rows nodes.new) }
{
    if cursor.at(Terminal::As) {
        cursor.step();
        let part = read_part(alloc, cursor, nodes)?;
        return add_bound(nodes, place, variable, part);
    }
    add_unbound(alloc, nodes, place, variable)
}

/// A word, a text, a group in parentheses, what stands after a `^`, or an element: a class of
/// labels and its content.
#[cycle(trees)]
fn read_primary<N: Nodes>(
    alloc: Global,
    cursor: &mut Cursor<'_>,
    nodes: &mut N,
) -> Result<Parts<N::Id>, NoMemory>
    ensures reads { IfOk result (λ parts. ReadsNode (nonterminals.Prim N.sort) cursor.old cursor.new (N.rows nodes.old) (N.rows nodes.new) (pieces N.at parts)) }
    ensures keeps { KeepsRows (N.rows nodes.old) (N.rows nodes.new) }
{
    match cursor.peek() {
        Terminal::Word => {
            let word = cursor.word(alloc)?;
            add_named(nodes, word)
        }
        Terminal::ParenL => {
            if cursor.opens_class(N::sort()) {
                return read_element(alloc, cursor, nodes);
            }
            let place = cursor.step();
            read_group(alloc, cursor, nodes, place)
        }
        Terminal::Text => read_text(alloc, cursor, nodes),
        Terminal::Caret => read_exception(alloc, cursor, nodes),
        Terminal::Tilde | Terminal::Label => read_element(alloc, cursor, nodes),
        _ => Ok(nothing_at(alloc, cursor.step())),
    }
}

/// An element: a class of labels and its content.
#[cycle(trees)]
fn read_element<N: Nodes>(
    alloc: Global,
    cursor: &mut Cursor<'_>,
    nodes: &mut N,
) -> Result<Parts<N::Id>, NoMemory>
    requires { BeginsElement N.sort cursor.old }
    ensures reads { IfOk result (λ parts. ReadsNode (nonterminals.Prim N.sort) cursor.old cursor.new (N.rows nodes.old) (N.rows nodes.new) (pieces N.at parts)) }
    ensures keeps { KeepsRows (N.rows nodes.old) (N.rows nodes.new) }
{
    let class = read_class(alloc, cursor)?;
    let content = read_content(alloc, cursor, nodes)?;
    add_element(nodes, class.place, class.class, content)
}

/// All texts but some, or an element with all labels but some, from the `^` on.
#[cycle(trees)]
fn read_exception<N: Nodes>(
    alloc: Global,
    cursor: &mut Cursor<'_>,
    nodes: &mut N,
) -> Result<Parts<N::Id>, NoMemory>
    requires { front_terminal cursor.old ≡ terminals.Caret }
    ensures reads { IfOk result (λ parts. ReadsNode (nonterminals.Prim N.sort) cursor.old cursor.new (N.rows nodes.old) (N.rows nodes.new) (pieces N.at parts)) }
    ensures keeps { KeepsRows (N.rows nodes.old) (N.rows nodes.new) }
{
    let place = cursor.step();
    let excepted = read_excepted(alloc, cursor)?;
    match excepted {
        Excepted::Texts(texts) => add_texts(alloc, nodes, place, texts, true),
        Excepted::Labels(names) => {
            let class = Class::new(alloc, names, true)?;
            let content = read_content(alloc, cursor, nodes)?;
            add_element(nodes, place, class, content)
        }
    }
}

/// What stands after a `(` at this place that begins no class.
#[cycle(trees)]
fn read_group<N: Nodes>(
    alloc: Global,
    cursor: &mut Cursor<'_>,
    nodes: &mut N,
    place: Place,
) -> Result<Parts<N::Id>, NoMemory>
    ensures reads { IfOk result (λ parts. ReadsInto (nonterminals.Prim N.sort) (mark terminals.ParenL place ∷ []) (nonterminals.Group N.sort) cursor.old cursor.new (N.rows nodes.old) (N.rows nodes.new) (pieces N.at parts)) }
    ensures keeps { KeepsRows (N.rows nodes.old) (N.rows nodes.new) }
{
    if cursor.at(Terminal::ParenR) {
        cursor.step();
        return Ok(nothing_at(alloc, place));
    }
    let inside = read_tree(alloc, cursor, nodes)?;
    cursor.step();
    Ok(inside)
}

/// The content of an element, and the bracket after it.
#[cycle(trees)]
fn read_content<N: Nodes>(
    alloc: Global,
    cursor: &mut Cursor<'_>,
    nodes: &mut N,
) -> Result<Parts<N::Id>, NoMemory>
    ensures reads { IfOk result (λ parts. ReadsNode (nonterminals.Content N.sort) cursor.old cursor.new (N.rows nodes.old) (N.rows nodes.new) (pieces N.at parts)) }
    ensures keeps { KeepsRows (N.rows nodes.old) (N.rows nodes.new) }
{
    if cursor.at(Terminal::BracketR) {
        return Ok(nothing_at(alloc, cursor.step()));
    }
    let inside = read_tree(alloc, cursor, nodes)?;
    cursor.step();
    Ok(inside)
}
