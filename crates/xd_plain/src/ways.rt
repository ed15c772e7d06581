//! The ways of a pattern on a document, all of them and in order.

ghost use Rattle.std.specs.Prelude.{◌≡◌, ◌≤◌, ◌++◌, ◌∷◌, [], suc, nat_lt, cond, map, flat_map, IfOk, OnOk};
ghost use Rattle.xd_syntax.specs.Tree.{Name, Elem, Seq, Alt, Plus, Opt, Val};
ghost use Rattle.xd_syntax.specs.Ways.{no_item_way, then_way, text_ways, words_ways, binding, turns, repetition, ways_within as the_ways_within, unfoldings as needed, item_count};
ghost use Rattle.xd_meaning.specs.FirstMatch.{first, first_whole};
ghost use Rattle.xd_meaning.specs.FirstWithin.{first_within as the_first_within};
ghost use Rattle.xd_plain.specs.PlainDocuments.{document_of};
ghost use Rattle.xd_plain.specs.PlainTrees.{tree_of, definitions_of, map_option};
ghost use Rattle.xd_syntax.specs.Program.{ProgramTree, names_of};
ghost use Rattle.xd_syntax.specs.RecursionFaults.{IsSound};
ghost use Rattle.xd_plain.specs.PlainWays.{way_of, ways_of, bindings_of, element_way, whole_ways};

use crate::document::PlainDocument;
use crate::tree::{PlainDefinition, PlainTree, body_of};
use std::alloc::Global;
use xd_doc::{Class, Label, NoMemory, Words};

/// A variable and its document.
#[derive(Drop)]
pub struct PlainBinding {
    pub variable: Label,
    pub document: PlainDocument,
}

/// What a way binds, the prefix that it takes, and the rest.
#[derive(Drop)]
pub struct PlainWay {
    pub bindings: Vec<PlainBinding>,
    pub taken: PlainDocument,
    pub rest: PlainDocument,
}

/// All ways of a pattern on a document in order of preference, where names may be unfolded so many
/// times. Fails only where memory is refused.
#[cycle(ways)]
pub fn ways_within(
    alloc: Global,
    definitions: &[PlainDefinition],
    unfoldings: u64,
    pattern: &PlainTree,
    document: &PlainDocument,
) -> Result<Vec<PlainWay>, NoMemory>
    ensures { IfOk result (λ ways. ways_of ways.items ≡ the_ways_within (definitions_of definitions.now) unfoldings (tree_of pattern.now) (document_of document.now)) }
{
    match pattern {
        PlainTree::Empty => no_item(alloc, document),
        PlainTree::Text => one_text(alloc, document),
        PlainTree::Words(texts) => one_of(alloc, texts, document),
        PlainTree::Name(name) => defined(alloc, definitions, unfoldings, name, document),
        PlainTree::Elem(class, content) => {
            one_element(alloc, definitions, unfoldings, class, content, document)
        }
        PlainTree::Seq(first, second) => {
            in_sequence(alloc, definitions, unfoldings, first, second, document)
        }
        PlainTree::Alt(left, right) => {
            by_either(alloc, definitions, unfoldings, left, right, document)
        }
        PlainTree::Star(part) => {
            turns_within(alloc, definitions, unfoldings, part, document, document)
        }
        PlainTree::Plus(part) => one_turn_or_more(alloc, definitions, unfoldings, part, document),
        PlainTree::Opt(part) => one_or_none(alloc, definitions, unfoldings, part, document),
        PlainTree::Val(variable, part) => {
            with_bound(alloc, definitions, unfoldings, variable, part, document)
        }
    }
}

/// The ways of the one, each followed by those of the other on its rest.
#[cycle(ways)]
fn in_sequence(
    alloc: Global,
    definitions: &[PlainDefinition],
    unfoldings: u64,
    first: &PlainTree,
    second: &PlainTree,
    document: &PlainDocument,
) -> Result<Vec<PlainWay>, NoMemory>
    ensures { IfOk result (λ ways. ways_of ways.items ≡ the_ways_within (definitions_of definitions.now) unfoldings (Seq (tree_of first.now) (tree_of second.now)) (document_of document.now)) }
{
    let firsts = ways_within(alloc, definitions, unfoldings, first, document)?;
    each_then(alloc, definitions, unfoldings, &firsts, second)
}

/// The ways of the left, and then those of the right.
#[cycle(ways)]
fn by_either(
    alloc: Global,
    definitions: &[PlainDefinition],
    unfoldings: u64,
    left: &PlainTree,
    right: &PlainTree,
    document: &PlainDocument,
) -> Result<Vec<PlainWay>, NoMemory>
    ensures { IfOk result (λ ways. ways_of ways.items ≡ the_ways_within (definitions_of definitions.now) unfoldings (Alt (tree_of left.now) (tree_of right.now)) (document_of document.now)) }
{
    let of_left = ways_within(alloc, definitions, unfoldings, left, document)?;
    let of_right = ways_within(alloc, definitions, unfoldings, right, document)?;
    both(of_left, of_right)
}

/// The ways of the part, each followed by those of its repetition on its rest.
#[cycle(ways)]
fn one_turn_or_more(
    alloc: Global,
    definitions: &[PlainDefinition],
    unfoldings: u64,
    part: &PlainTree,
    document: &PlainDocument,
) -> Result<Vec<PlainWay>, NoMemory>
    ensures { IfOk result (λ ways. ways_of ways.items ≡ the_ways_within (definitions_of definitions.now) unfoldings (Plus (tree_of part.now)) (document_of document.now)) }
{
    let firsts = ways_within(alloc, definitions, unfoldings, part, document)?;
    each_then_turns(alloc, definitions, unfoldings, &firsts, part)
}

/// The ways of the part, and then the one that takes nothing.
#[cycle(ways)]
fn one_or_none(
    alloc: Global,
    definitions: &[PlainDefinition],
    unfoldings: u64,
    part: &PlainTree,
    document: &PlainDocument,
) -> Result<Vec<PlainWay>, NoMemory>
    ensures { IfOk result (λ ways. ways_of ways.items ≡ the_ways_within (definitions_of definitions.now) unfoldings (Opt (tree_of part.now)) (document_of document.now)) }
{
    let present = ways_within(alloc, definitions, unfoldings, part, document)?;
    let absent = no_item(alloc, document)?;
    both(present, absent)
}

/// The ways of the part, which bind the variable too.
#[cycle(ways)]
fn with_bound(
    alloc: Global,
    definitions: &[PlainDefinition],
    unfoldings: u64,
    variable: &Label,
    part: &PlainTree,
    document: &PlainDocument,
) -> Result<Vec<PlainWay>, NoMemory>
    ensures { IfOk result (λ ways. ways_of ways.items ≡ the_ways_within (definitions_of definitions.now) unfoldings (Val variable.now (tree_of part.now)) (document_of document.now)) }
{
    let ways = ways_within(alloc, definitions, unfoldings, part, document)?;
    bound(alloc, variable, &ways)
}

/// The ways of what the name is defined as, with one unfolding fewer.
#[cycle(ways)]
fn defined(
    alloc: Global,
    definitions: &[PlainDefinition],
    unfoldings: u64,
    name: &Label,
    document: &PlainDocument,
) -> Result<Vec<PlainWay>, NoMemory>
    ensures { IfOk result (λ ways. ways_of ways.items ≡ the_ways_within (definitions_of definitions.now) unfoldings (Name name.now) (document_of document.now)) }
{
    let Some(body) = body_of(definitions, name) else {
        return Ok(Vec::new(alloc));
    };
    if unfoldings == 0 {
        return Ok(Vec::new(alloc));
    }
    ways_within(alloc, definitions, unfoldings - 1, body, document)
}

/// The ways that take an element with a label of the class, one for each way that takes its content
/// whole.
#[cycle(ways)]
fn one_element(
    alloc: Global,
    definitions: &[PlainDefinition],
    unfoldings: u64,
    class: &Class,
    content: &PlainTree,
    document: &PlainDocument,
) -> Result<Vec<PlainWay>, NoMemory>
    ensures { IfOk result (λ ways. ways_of ways.items ≡ the_ways_within (definitions_of definitions.now) unfoldings (Elem class.now (tree_of content.now)) (document_of document.now)) }
{
    match document {
        PlainDocument::Empty => Ok(Vec::new(alloc)),
        PlainDocument::Text(_, _) => Ok(Vec::new(alloc)),
        PlainDocument::Elem(label, inner, rest) => {
            if !class.has(label) {
                return Ok(Vec::new(alloc));
            }
            let ways = ways_within(alloc, definitions, unfoldings, content, inner)?;
            whole_elements(alloc, &ways, label, inner, rest)
        }
    }
}

/// The bindings of the first way that takes the whole document, where names may be unfolded so many
/// times.
///
/// In a sound program the first match needs no more unfoldings than the document's size plus one
/// times the number of definitions plus one, `Any` among them. Fails only where memory is refused.
pub fn first_within(
    alloc: Global,
    definitions: &[PlainDefinition],
    unfoldings: u64,
    pattern: &PlainTree,
    document: &PlainDocument,
) -> Result<Option<Vec<PlainBinding>>, NoMemory>
    ensures within { IfOk result (λ found. map_option (λ bindings. bindings_of bindings.items) found ≡ the_first_within (definitions_of definitions.now) unfoldings (tree_of pattern.now) (document_of document.now)) }
    ensures enough { (P : ProgramTree) → IsSound P → definitions_of definitions.now ≡ names_of P → needed (names_of P) (document_of document.now) ≤ unfoldings → IfOk result (λ found. map_option (λ bindings. bindings_of bindings.items) found ≡ first (names_of P) (tree_of pattern.now) (document_of document.now)) }
{
    let ways = ways_within(alloc, definitions, unfoldings, pattern, document)?;
    first_of_whole(alloc, &ways)
}

fn first_of_whole(alloc: Global, ways: &[PlainWay]) -> Result<Option<Vec<PlainBinding>>, NoMemory>
    ensures { IfOk result (λ found. map_option (λ bindings. bindings_of bindings.items) found ≡ first_whole (ways_of ways.now)) }
{
    for way in ways {
        if way.rest.is_empty() {
            return Ok(Some(copied(alloc, &way.bindings)?));
        }
    }
    Ok(None)
}

/// Each of the ways, followed by those of the pattern on its rest.
#[cycle(ways)]
fn each_then(
    alloc: Global,
    definitions: &[PlainDefinition],
    unfoldings: u64,
    firsts: &[PlainWay],
    second: &PlainTree,
) -> Result<Vec<PlainWay>, NoMemory>
    ensures { IfOk result (λ ways. ways_of ways.items ≡ flat_map (λ v. map (then_way v) (the_ways_within (definitions_of definitions.now) unfoldings (tree_of second.now) v.rest)) (ways_of firsts.now)) }
{
    let mut made = Vec::new(alloc);
    for first in firsts {
        let seconds = ways_within(alloc, definitions, unfoldings, second, &first.rest)?;
        push_joined(alloc, &mut made, first, &seconds)?;
    }
    Ok(made)
}

/// Each of the ways, followed by those of the pattern's repetition on its rest.
#[cycle(ways)]
fn each_then_turns(
    alloc: Global,
    definitions: &[PlainDefinition],
    unfoldings: u64,
    firsts: &[PlainWay],
    part: &PlainTree,
) -> Result<Vec<PlainWay>, NoMemory>
    ensures { IfOk result (λ ways. ways_of ways.items ≡ flat_map (λ v. map (then_way v) (repetition (the_ways_within (definitions_of definitions.now) unfoldings (tree_of part.now)) v.rest)) (ways_of firsts.now)) }
{
    let mut made = Vec::new(alloc);
    for first in firsts {
        let counter = &first.rest;
        push_turns(
            alloc,
            definitions,
            unfoldings,
            part,
            counter,
            first,
            &mut made,
        )?;
    }
    Ok(made)
}

/// The ways of a repetition, with at most as many turns as the counter has items.
#[cycle(ways)]
fn turns_within(
    alloc: Global,
    definitions: &[PlainDefinition],
    unfoldings: u64,
    part: &PlainTree,
    counter: &PlainDocument,
    document: &PlainDocument,
) -> Result<Vec<PlainWay>, NoMemory>
    ensures { IfOk result (λ ways. ways_of ways.items ≡ turns (the_ways_within (definitions_of definitions.now) unfoldings (tree_of part.now)) (item_count (document_of counter.now)) (document_of document.now)) }
{
    match counter {
        PlainDocument::Empty => no_item(alloc, document),
        PlainDocument::Text(_, fewer) => {
            one_more_turn(alloc, definitions, unfoldings, part, fewer, document)
        }
        PlainDocument::Elem(_, _, fewer) => {
            one_more_turn(alloc, definitions, unfoldings, part, fewer, document)
        }
    }
}

/// The ways of a repetition, with at most one turn more than the counter has items.
#[cycle(ways)]
fn one_more_turn(
    alloc: Global,
    definitions: &[PlainDefinition],
    unfoldings: u64,
    part: &PlainTree,
    counter: &PlainDocument,
    document: &PlainDocument,
) -> Result<Vec<PlainWay>, NoMemory>
    ensures { IfOk result (λ ways. ways_of ways.items ≡ turns (the_ways_within (definitions_of definitions.now) unfoldings (tree_of part.now)) (suc (item_count (document_of counter.now))) (document_of document.now)) }
{
    let firsts = ways_within(alloc, definitions, unfoldings, part, document)?;
    let turned = each_turned(
        alloc,
        definitions,
        unfoldings,
        part,
        counter,
        document,
        &firsts,
    )?;
    let stop = no_item(alloc, document)?;
    both(turned, stop)
}

/// Each of the ways that leaves fewer items than the document has, followed by those of a
/// repetition on its rest, with at most as many turns as the counter has items.
#[cycle(ways)]
fn each_turned(
    alloc: Global,
    definitions: &[PlainDefinition],
    unfoldings: u64,
    part: &PlainTree,
    counter: &PlainDocument,
    document: &PlainDocument,
    firsts: &[PlainWay],
) -> Result<Vec<PlainWay>, NoMemory>
    ensures { IfOk result (λ ways. ways_of ways.items ≡ flat_map (λ v. cond (nat_lt (item_count v.rest) (item_count (document_of document.now))) (map (then_way v) (turns (the_ways_within (definitions_of definitions.now) unfoldings (tree_of part.now)) (item_count (document_of counter.now)) v.rest)) []) (ways_of firsts.now)) }
{
    let mut made = Vec::new(alloc);
    for first in firsts {
        if first.rest.is_shorter(document) {
            push_turns(
                alloc,
                definitions,
                unfoldings,
                part,
                counter,
                first,
                &mut made,
            )?;
        }
    }
    Ok(made)
}

/// Appends the way, followed by each of a repetition on its rest, with at most as many turns as the
/// counter has items.
#[cycle(ways)]
fn push_turns(
    alloc: Global,
    definitions: &[PlainDefinition],
    unfoldings: u64,
    part: &PlainTree,
    counter: &PlainDocument,
    first: &PlainWay,
    made: &mut Vec<PlainWay>,
) -> Result<(), NoMemory>
    ensures { OnOk result (ways_of made.new.items ≡ ways_of made.old.items ++ map (then_way (way_of first.now)) (turns (the_ways_within (definitions_of definitions.now) unfoldings (tree_of part.now)) (item_count (document_of counter.now)) (document_of first.now.rest))) }
{
    let rest = &first.rest;
    let seconds = turns_within(alloc, definitions, unfoldings, part, counter, rest)?;
    push_joined(alloc, made, first, &seconds)
}

/// The way that takes nothing.
fn no_item(alloc: Global, document: &PlainDocument) -> Result<Vec<PlainWay>, NoMemory>
    ensures { IfOk result (λ ways. ways_of ways.items ≡ no_item_way (document_of document.now) ∷ []) }
{
    let way = leaving(alloc, Vec::new(alloc), PlainDocument::Empty, document)?;
    only(alloc, way)
}

/// The way that binds these, takes this document and leaves a copy of the rest.
fn leaving(
    alloc: Global,
    bindings: Vec<PlainBinding>,
    taken: PlainDocument,
    rest: &PlainDocument,
) -> Result<PlainWay, NoMemory>
    ensures { IfOk result (λ made. way_of made ≡ record { bindings = bindings_of bindings.items; taken = document_of taken; rest = document_of rest.now }) }
{
    let rest = rest.copy(alloc)?;
    Ok(PlainWay {
        bindings,
        taken,
        rest,
    })
}

fn only(alloc: Global, way: PlainWay) -> Result<Vec<PlainWay>, NoMemory>
    ensures { IfOk result (λ ways. ways.items ≡ way ∷ []) }
{
    let mut ways = Vec::new(alloc);
    ways.push(way)?;
    Ok(ways)
}

/// The way that takes a text.
fn one_text(alloc: Global, document: &PlainDocument) -> Result<Vec<PlainWay>, NoMemory>
    ensures { IfOk result (λ ways. ways_of ways.items ≡ text_ways (document_of document.now)) }
{
    match document {
        PlainDocument::Empty => Ok(Vec::new(alloc)),
        PlainDocument::Text(text, rest) => {
            let taken = PlainDocument::with_text(alloc, text, PlainDocument::Empty)?;
            let way = leaving(alloc, Vec::new(alloc), taken, rest)?;
            only(alloc, way)
        }
        PlainDocument::Elem(_, _, _) => Ok(Vec::new(alloc)),
    }
}

/// The way that takes a text of the class.
fn one_of(alloc: Global, texts: &Words, document: &PlainDocument) -> Result<Vec<PlainWay>, NoMemory>
    ensures { IfOk result (λ ways. ways_of ways.items ≡ words_ways texts.now (document_of document.now)) }
{
    match document {
        PlainDocument::Empty => Ok(Vec::new(alloc)),
        PlainDocument::Text(text, _) => {
            if !texts.has(text) {
                return Ok(Vec::new(alloc));
            }
            one_text(alloc, document)
        }
        PlainDocument::Elem(_, _, _) => Ok(Vec::new(alloc)),
    }
}

/// The element, once for each way that takes its content whole.
fn whole_elements(
    alloc: Global,
    ways: &[PlainWay],
    label: &Label,
    content: &PlainDocument,
    rest: &PlainDocument,
) -> Result<Vec<PlainWay>, NoMemory>
    ensures { IfOk result (λ made. ways_of made.items ≡ whole_ways label.now (document_of content.now) (document_of rest.now) (ways_of ways.now)) }
{
    let mut made = Vec::new(alloc);
    for way in ways {
        if way.rest.is_empty() {
            made.push(an_element(alloc, way, label, content, rest)?)?;
        }
    }
    Ok(made)
}

fn an_element(
    alloc: Global,
    way: &PlainWay,
    label: &Label,
    content: &PlainDocument,
    rest: &PlainDocument,
) -> Result<PlainWay, NoMemory>
    ensures { IfOk result (λ made. way_of made ≡ element_way label.now (document_of content.now) (document_of rest.now) (way_of way.now)) }
{
    let content = content.copy(alloc)?;
    let taken = PlainDocument::with_element(alloc, label, content, PlainDocument::Empty)?;
    let bindings = copied(alloc, &way.bindings)?;
    leaving(alloc, bindings, taken, rest)
}

/// Each way, with the variable bound to what it takes.
fn bound(alloc: Global, variable: &Label, ways: &[PlainWay]) -> Result<Vec<PlainWay>, NoMemory>
    ensures { IfOk result (λ made. ways_of made.items ≡ map (binding variable.now) (ways_of ways.now)) }
{
    let mut made = Vec::new(alloc);
    for way in ways {
        let way = one_bound(alloc, variable, way)?;
        made.push(way)?;
    }
    Ok(made)
}

fn one_bound(alloc: Global, variable: &Label, way: &PlainWay) -> Result<PlainWay, NoMemory>
    ensures { IfOk result (λ made. way_of made ≡ binding variable.now (way_of way.now)) }
{
    let bindings = with_variable(alloc, variable, way)?;
    let taken = way.taken.copy(alloc)?;
    leaving(alloc, bindings, taken, &way.rest)
}

/// The variable bound to what the way takes, and the way's bindings after it.
fn with_variable(
    alloc: Global,
    variable: &Label,
    way: &PlainWay,
) -> Result<Vec<PlainBinding>, NoMemory>
    ensures { IfOk result (λ made. bindings_of made.items ≡ (variable.now, document_of way.now.taken) ∷ bindings_of way.now.bindings.items) }
{
    let mut made = Vec::new(alloc);
    push_binding(alloc, &mut made, variable, &way.taken)?;
    push_bindings(alloc, &mut made, &way.bindings)?;
    Ok(made)
}

/// Appends a copy of the variable and of its document.
pub(super) fn push_binding(
    alloc: Global,
    made: &mut Vec<PlainBinding>,
    variable: &Label,
    document: &PlainDocument,
) -> Result<(), NoMemory>
    ensures { OnOk result (bindings_of made.new.items ≡ bindings_of made.old.items ++ (variable.now, document_of document.now) ∷ []) }
{
    let variable = variable.share()?;
    let document = document.copy(alloc)?;
    made.push(PlainBinding { variable, document })?;
    Ok(())
}

pub(super) fn push_bindings(
    alloc: Global,
    made: &mut Vec<PlainBinding>,
    bindings: &[PlainBinding],
) -> Result<(), NoMemory>
    ensures { OnOk result (bindings_of made.new.items ≡ bindings_of made.old.items ++ bindings_of bindings.now) }
{
    for binding in bindings {
        push_binding(alloc, made, &binding.variable, &binding.document)?;
    }
    Ok(())
}

/// A copy of the bindings.
fn copied(alloc: Global, bindings: &[PlainBinding]) -> Result<Vec<PlainBinding>, NoMemory>
    ensures { IfOk result (λ made. bindings_of made.items ≡ bindings_of bindings.now) }
{
    let mut made = Vec::new(alloc);
    push_bindings(alloc, &mut made, bindings)?;
    Ok(made)
}

/// The ways of both, the first's first.
fn both(firsts: Vec<PlainWay>, seconds: Vec<PlainWay>) -> Result<Vec<PlainWay>, NoMemory>
    ensures { IfOk result (λ made. made.items ≡ firsts.items ++ seconds.items) }
{
    let mut made = firsts;
    let mut seconds = seconds;
    made.append(&mut seconds)?;
    Ok(made)
}

/// The first way, followed by each of the others.
fn push_joined(
    alloc: Global,
    made: &mut Vec<PlainWay>,
    first: &PlainWay,
    seconds: &[PlainWay],
) -> Result<(), NoMemory>
    ensures { OnOk result (ways_of made.new.items ≡ ways_of made.old.items ++ map (then_way (way_of first.now)) (ways_of seconds.now)) }
{
    for second in seconds {
        let way = one_joined(alloc, first, second)?;
        made.push(way)?;
    }
    Ok(())
}

fn one_joined(alloc: Global, first: &PlainWay, second: &PlainWay) -> Result<PlainWay, NoMemory>
    ensures { IfOk result (λ made. way_of made ≡ then_way (way_of first.now) (way_of second.now)) }
{
    let bindings = joined(alloc, &first.bindings, &second.bindings)?;
    let taken = first.taken.followed_by(alloc, &second.taken)?;
    leaving(alloc, bindings, taken, &second.rest)
}

/// A copy of these bindings, followed by one of those.
fn joined(
    alloc: Global,
    firsts: &[PlainBinding],
    seconds: &[PlainBinding],
) -> Result<Vec<PlainBinding>, NoMemory>
    ensures { IfOk result (λ made. bindings_of made.items ≡ bindings_of firsts.now ++ bindings_of seconds.now) }
{
    let mut made = copied(alloc, firsts)?;
    push_bindings(alloc, &mut made, seconds)?;
    Ok(made)
}
