//! What was read of a type or a pattern, before a node is made of it: no sequence is a part of a
//! sequence, and no alternative a branch of one.

ghost use Rattle.std.specs.Prelude.{◌≡◌, ◌∷◌, [], false, map, IfOk};
ghost use Rattle.xd_syntax.specs.Table.{IsSeqPart, IsAltPart, CanFollow, KeepsRows};
ghost use Rattle.xd_syntax.specs.PlacedTable.{placed_at, placed_form};
ghost use Rattle.xd_parse_trees.specs.Merged.{parts_of_seq, parts_of_alt, sequence, alternative};
ghost use Rattle.xd_parse_trees.specs.Nodes.{binders, shape, merges, has_none, parts_place, IsNothing, IsAdded, Extends, Merges};
ghost use Rattle.xd_parse_trees.specs.Pieces.{pieces, in_row, tree_of, Stand};

use crate::nodes::{NodeForm, Nodes};
use crate::queue::join;
use std::alloc::Global;
use std::collections::VecDeque;
use xd_base::Place;
use xd_doc::NoMemory;

/// What was read. Its parts are handed up, so that what stands around it merges with them; a node
/// is made of it once, when something uses it as one part. The place is that of the first part.
#[derive(Drop)]
pub(crate) enum Parts<I> {
    /// One part, which is no sequence and no alternative.
    One(Place, I),
    /// Parts in a row; of no part it is empty, and one part is itself.
    Sequence(Place, VecDeque<I>),
    /// Branches, two or more.
    Alternative(Place, VecDeque<I>),
}

/// An empty sequence.
pub(crate) fn nothing_at<I: Copy>(alloc: Global, place: Place) -> Parts<I>
    ensures { IsNothing place result }
{
    Parts::Sequence(place, VecDeque::new(alloc))
}

/// Adds a node that is not empty, no sequence and no alternative.
pub(crate) fn add_part<N: Nodes>(
    nodes: &mut N,
    place: Place,
    form: NodeForm<N::Id>,
) -> Result<Parts<N::Id>, NoMemory>
    requires follows { CanFollow (binders N.sort) (N.rows nodes.old) (shape N.at form) }
    requires alone { merges (shape N.at form) ≡ false }
    ensures merges { IfOk result (λ parts. Merges (N.rows nodes.old) (N.rows nodes.new) (placed_form (placed_at (N.rows nodes.old)) place (shape N.at form)) (pieces N.at parts)) }
    ensures keeps { KeepsRows (N.rows nodes.old) (N.rows nodes.new) }
{
    let part = nodes.add(place, form)?;
    Ok(Parts::One(place, part))
}

/// The node of what was read.
pub(crate) fn to_node<N: Nodes>(nodes: &mut N, parts: Parts<N::Id>) -> Result<N::Id, NoMemory>
    requires { Stand (N.rows nodes.old) (pieces N.at parts) }
    ensures added { IfOk result (λ id. IsAdded (N.rows nodes.old) (N.rows nodes.new) (tree_of (N.rows nodes.old) (pieces N.at parts)) (N.at id)) }
    ensures keeps { KeepsRows (N.rows nodes.old) (N.rows nodes.new) }
{
    match parts {
        Parts::One(_, part) => Ok(part),
        Parts::Sequence(place, parts) => sequence_node(nodes, place, parts.into_vec()),
        Parts::Alternative(place, parts) => nodes.add(place, NodeForm::Alt(parts.into_vec())),
    }
}

/// The node of parts in a row: of no part it is empty, and one part is itself.
fn sequence_node<N: Nodes>(
    nodes: &mut N,
    place: Place,
    parts: Vec<N::Id>,
) -> Result<N::Id, NoMemory>
    requires { Stand (N.rows nodes.old) (in_row place (map N.at parts.items)) }
    ensures added { IfOk result (λ id. IsAdded (N.rows nodes.old) (N.rows nodes.new) (tree_of (N.rows nodes.old) (in_row place (map N.at parts.items))) (N.at id)) }
    ensures keeps { KeepsRows (N.rows nodes.old) (N.rows nodes.new) }
{
    match parts.as_slice() {
        [] => nodes.add(place, NodeForm::Empty),
        [part] => Ok(*part),
        _ => nodes.add(place, NodeForm::Seq(parts)),
    }
}

/// Whether it is an empty sequence.
fn is_none<I>(parts: &Parts<I>) -> bool
    ensures { result ≡ has_none parts.now }
{
    match parts {
        Parts::Sequence(_, parts) => parts.is_empty(),
        Parts::One(_, _) | Parts::Alternative(_, _) => false,
    }
}

/// The place of the first part.
pub(crate) fn place_of<I>(parts: &Parts<I>) -> Place
    ensures { result ≡ parts_place parts.now }
{
    match parts {
        Parts::One(place, _) => *place,
        Parts::Sequence(place, _) => *place,
        Parts::Alternative(place, _) => *place,
    }
}

/// A row, and after it what was read as parts of a sequence.
fn with_parts<N: Nodes>(
    nodes: &mut N,
    mut row: VecDeque<N::Id>,
    parts: Parts<N::Id>,
) -> Result<VecDeque<N::Id>, NoMemory>
    requires { Stand (N.rows nodes.old) (pieces N.at parts) }
    ensures extends { IfOk result (λ all. Extends IsSeqPart parts_of_seq (N.rows nodes.old) (N.rows nodes.new) (tree_of (N.rows nodes.old) (pieces N.at parts)) (map N.at row.items) (map N.at all.items)) }
    ensures keeps { KeepsRows (N.rows nodes.old) (N.rows nodes.new) }
{
    match parts {
        Parts::One(_, part) => {
            row.push_back(part)?;
            Ok(row)
        }
        Parts::Sequence(_, more) => join(row, more),
        Parts::Alternative(place, branches) => {
            let id = nodes.add(place, NodeForm::Alt(branches.into_vec()))?;
            row.push_back(id)?;
            Ok(row)
        }
    }
}

/// Branches, and beside them what was read as branches of an alternative.
fn with_branches<N: Nodes>(
    nodes: &mut N,
    mut branches: VecDeque<N::Id>,
    parts: Parts<N::Id>,
) -> Result<VecDeque<N::Id>, NoMemory>
    requires { Stand (N.rows nodes.old) (pieces N.at parts) }
    ensures extends { IfOk result (λ all. Extends IsAltPart parts_of_alt (N.rows nodes.old) (N.rows nodes.new) (tree_of (N.rows nodes.old) (pieces N.at parts)) (map N.at branches.items) (map N.at all.items)) }
    ensures keeps { KeepsRows (N.rows nodes.old) (N.rows nodes.new) }
{
    match parts {
        Parts::One(_, part) => {
            branches.push_back(part)?;
            Ok(branches)
        }
        Parts::Alternative(_, more) => join(branches, more),
        Parts::Sequence(place, row) => {
            let id = sequence_node(nodes, place, row.into_vec())?;
            branches.push_back(id)?;
            Ok(branches)
        }
    }
}

/// What was read in front, and after it what was read then, as one sequence: what is empty is left
/// out of it.
pub(crate) fn in_sequence<N: Nodes>(
    alloc: Global,
    nodes: &mut N,
    front: Parts<N::Id>,
    back: Parts<N::Id>,
) -> Result<Parts<N::Id>, NoMemory>
    requires front { Stand (N.rows nodes.old) (pieces N.at front) }
    requires back { Stand (N.rows nodes.old) (pieces N.at back) }
    ensures merges { IfOk result (λ parts. Merges (N.rows nodes.old) (N.rows nodes.new) (sequence (tree_of (N.rows nodes.old) (pieces N.at front)) (tree_of (N.rows nodes.old) (pieces N.at back) ∷ [])) (pieces N.at parts)) }
    ensures keeps { KeepsRows (N.rows nodes.old) (N.rows nodes.new) }
{
    if is_none(&back) {
        return Ok(front);
    }
    if is_none(&front) {
        return Ok(back);
    }
    let place = place_of(&front);
    let first = with_parts(nodes, VecDeque::new(alloc), front)?;
    let row = with_parts(nodes, first, back)?;
    Ok(Parts::Sequence(place, row))
}

/// What was read in front, and beside it what was read then, as one alternative.
pub(crate) fn in_alternative<N: Nodes>(
    alloc: Global,
    nodes: &mut N,
    front: Parts<N::Id>,
    back: Parts<N::Id>,
) -> Result<Parts<N::Id>, NoMemory>
    requires front { Stand (N.rows nodes.old) (pieces N.at front) }
    requires back { Stand (N.rows nodes.old) (pieces N.at back) }
    ensures merges { IfOk result (λ parts. Merges (N.rows nodes.old) (N.rows nodes.new) (alternative (tree_of (N.rows nodes.old) (pieces N.at front)) (tree_of (N.rows nodes.old) (pieces N.at back) ∷ [])) (pieces N.at parts)) }
    ensures keeps { KeepsRows (N.rows nodes.old) (N.rows nodes.new) }
{
    let place = place_of(&front);
    let first = with_branches(nodes, VecDeque::new(alloc), front)?;
    let branches = with_branches(nodes, first, back)?;
    Ok(Parts::Alternative(place, branches))
}
