//! Which types can be empty.

ghost use Rattle.std.specs.Prelude.{◌≡◌, ◌<◌, ℕ, [], false, length, IfOk, OnOk};
ghost use Rattle.std.specs.List.{AllByRecursion};
ghost use Rattle.xd_syntax.specs.Table.{PartsBelow};
ghost use Rattle.xd_syntax.specs.Types.{form_of, type_numbers};
ghost use Rattle.xd_syntax.specs.Kept.{TypeDefStands};
ghost use Rattle.xd_syntax.specs.SoundTables.{definition_of};
ghost use Rattle.xd_sound.specs.TypeNames.{AreNumbered};
ghost use Rattle.xd_sound.specs.Emptiness.{AddsEdges, AreDependents, AreEmptyMarks, AreEmptySoFar, AreRead, IsMarking, all_marked, body_number, depends_on, form_marked, name_marked, some_marked};
ghost use Rattle.xd_syntax.specs.declared.types.TypeDef.{TypeDef};

use crate::graph::Graph;
use crate::type_names::TypeNames;
use std::alloc::Global;
use xd_doc::{Label, NoMemory};
use xd_syntax::{TypeDef, TypeForm, TypeId, Types};

/// For each node whether the empty document fits it: the least solution, also where definitions are
/// not sound.
///
/// A node is visited once at first and again for each node that it depends on, once that is marked
/// (Dowling and Gallier, Linear-time algorithms for testing the satisfiability of propositional
/// Horn formulae, Journal of Logic Programming 1, 1984).
pub(crate) fn empty_types(
    alloc: Global,
    types: &Types,
    defs: &[TypeDef],
    names: &TypeNames,
) -> Result<Vec<bool>, NoMemory>
    requires numbered { AreNumbered names.now defs.now }
    requires stand { AllByRecursion (TypeDefStands types.now) defs.now }
    ensures { IfOk result (λ marks. AreEmptyMarks types.now defs.now marks.items) }
{
    let mut dependents = Graph::new(alloc, types.len())?;
    add_dependents(types, defs, names, &mut dependents)?;
    let mut marks = Vec::new(alloc);
    let mut waiting = Vec::new(alloc);
    for at in 0..types.len() {
        marks.push(false)?;
        waiting.push(at)?;
    }
    spread(types, defs, names, &dependents, &mut marks, &mut waiting)?;
    Ok(marks)
}

/// Marks the nodes after those that are marked. Their parts are older nodes, so each is looked at
/// once.
pub(crate) fn mark_more(
    types: &Types,
    defs: &[TypeDef],
    names: &TypeNames,
    marks: &mut Vec<bool>,
) -> Result<(), NoMemory>
    requires numbered { AreNumbered names.now defs.now }
    requires marked { AreEmptySoFar types.now defs.now marks.old.items }
    ensures { OnOk result (AreEmptyMarks types.now defs.now marks.new.items) }
{
    for at in marks.len()..types.len() {
        let mark = form_is_marked(types.node(TypeId::of(at)).form(), defs, names, marks);
        marks.push(mark)?;
    }
    Ok(())
}

/// Visits nodes until no node waits.
fn spread(
    types: &Types,
    defs: &[TypeDef],
    names: &TypeNames,
    dependents: &Graph,
    marks: &mut Vec<bool>,
    waiting: &mut Vec<usize>,
) -> Result<(), NoMemory>
    requires numbered { AreNumbered names.now defs.now }
    requires stand { AllByRecursion (TypeDefStands types.now) defs.now }
    requires built { AreRead types.now }
    requires dependents { AreDependents types.now defs.now dependents.now }
    requires marking { IsMarking types.now defs.now marks.old.items waiting.old.items }
    ensures { OnOk result (IsMarking types.now defs.now marks.new.items []) }
{
    while let Some(at) = waiting.pop() {
        if marks[at] {
            continue;
        }
        if form_is_marked(types.node(TypeId::of(at)).form(), defs, names, marks) {
            marks[at] = true;
            waiting.extend_from_slice(dependents.successors(at))?;
        }
    }
    Ok(())
}

/// An edge from each node to each that depends on it.
fn add_dependents(
    types: &Types,
    defs: &[TypeDef],
    names: &TypeNames,
    graph: &mut Graph,
) -> Result<(), NoMemory>
    requires numbered { AreNumbered names.now defs.now }
    requires stand { AllByRecursion (TypeDefStands types.now) defs.now }
    requires count { length graph.old ≡ length types.now }
    ensures dependents { OnOk result (AreDependents types.now defs.now graph.new) }
    ensures built { OnOk result (AreRead types.now) }
{
    for at in 0..types.len() {
        add_edges_to(at, types.node(TypeId::of(at)).form(), defs, names, graph)?;
    }
    Ok(())
}

/// An edge to the node from each that it depends on.
fn add_edges_to(
    at: usize,
    form: &TypeForm,
    defs: &[TypeDef],
    names: &TypeNames,
    graph: &mut Graph,
) -> Result<(), NoMemory>
    requires numbered { AreNumbered names.now defs.now }
    requires at { at < length graph.old }
    requires parts { PartsBelow (length graph.old) (form_of form.now) }
    requires bodies { AllByRecursion (λ (d : TypeDef). d.body.at < length graph.old) defs.now }
    ensures { OnOk result (AddsEdges graph.old graph.new at (depends_on defs.now (form_of form.now))) }
{
    match form {
        TypeForm::Name(name) => add_name(at, name, defs, names, graph)?,
        TypeForm::Seq(parts) => add_parts(at, parts, graph)?,
        TypeForm::Alt(parts) => add_parts(at, parts, graph)?,
        TypeForm::Plus(part) => graph.add(part.at(), at)?,
        _ => {}
    }
    Ok(())
}

/// An edge to the node from the body of a name.
fn add_name(
    at: usize,
    name: &Label,
    defs: &[TypeDef],
    names: &TypeNames,
    graph: &mut Graph,
) -> Result<(), NoMemory>
    requires numbered { AreNumbered names.now defs.now }
    requires at { at < length graph.old }
    requires bodies { AllByRecursion (λ (d : TypeDef). d.body.at < length graph.old) defs.now }
    ensures { OnOk result (AddsEdges graph.old graph.new at (body_number (definition_of defs.now name.now))) }
{
    if let Some(body) = names.body(defs, name) {
        graph.add(body, at)?;
    }
    Ok(())
}

/// An edge to the node from each part.
fn add_parts(at: usize, parts: &[TypeId], graph: &mut Graph) -> Result<(), NoMemory>
    requires at { at < length graph.old }
    requires parts { AllByRecursion (λ i. i < length graph.old) (type_numbers parts.now) }
    ensures { OnOk result (AddsEdges graph.old graph.new at (type_numbers parts.now)) }
{
    for part in parts {
        graph.add(part.at(), at)?;
    }
    Ok(())
}

/// Whether a node can be empty, by the marks of its parts and of the bodies of names.
fn form_is_marked(form: &TypeForm, defs: &[TypeDef], names: &TypeNames, marks: &[bool]) -> bool
    requires numbered { AreNumbered names.now defs.now }
    requires parts { PartsBelow (length marks.now) (form_of form.now) }
    requires bodies { AllByRecursion (λ (d : TypeDef). d.body.at < length marks.now) defs.now }
    ensures { result ≡ form_marked marks.now defs.now (form_of form.now) }
{
    match form {
        TypeForm::Empty => true,
        TypeForm::Text => false,
        TypeForm::Words(_) => false,
        TypeForm::Name(name) => name_is_marked(name, defs, names, marks),
        TypeForm::Elem(_, _) => false,
        TypeForm::Seq(parts) => all_are_marked(parts, marks),
        TypeForm::Alt(parts) => some_is_marked(parts, marks),
        TypeForm::Star(_) => true,
        TypeForm::Plus(part) => marks[part.at()],
        TypeForm::Opt(_) => true,
    }
}

fn name_is_marked(name: &Label, defs: &[TypeDef], names: &TypeNames, marks: &[bool]) -> bool
    requires numbered { AreNumbered names.now defs.now }
    requires bodies { AllByRecursion (λ (d : TypeDef). d.body.at < length marks.now) defs.now }
    ensures { result ≡ name_marked marks.now defs.now name.now }
{
    if name.as_str() == "Any" {
        return true;
    }
    match names.body(defs, name) {
        Some(body) => marks[body],
        None => false,
    }
}

fn all_are_marked(parts: &[TypeId], marks: &[bool]) -> bool
    requires { AllByRecursion (λ i. i < length marks.now) (type_numbers parts.now) }
    ensures { result ≡ all_marked marks.now (type_numbers parts.now) }
{
    for part in parts {
        if !marks[part.at()] {
            return false;
        }
    }
    true
}

fn some_is_marked(parts: &[TypeId], marks: &[bool]) -> bool
    requires { AllByRecursion (λ i. i < length marks.now) (type_numbers parts.now) }
    ensures { result ≡ some_marked marks.now (type_numbers parts.now) }
{
    for part in parts {
        if marks[part.at()] {
            return true;
        }
    }
    false
}
