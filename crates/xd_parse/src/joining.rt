//! Expressions with commas between them become one sequence.

ghost use Rattle.std.specs.Prelude.{◌≡◌, ◌++◌, ◌∷◌, [], ℕ, List, false, map, IfOk};
ghost use Rattle.std.specs.List.{AllByRecursion};
ghost use Rattle.xd_syntax.specs.Table.{Row};
ghost use Rattle.xd_syntax.specs.PlacedTable.{placed_at};
ghost use Rattle.xd_syntax.specs.ExpressionTable.{ExprCanFollow, KeepsExprs, IsJoinedPart, PatternsBelong, expression_at, is_joined_shape, shape_expression};
ghost use Rattle.xd_syntax.specs.Exprs.{IsExpr, expr_numbers, expression, shape_of};
ghost use Rattle.xd_parse_trees.specs.Merged.{merged_expression};
ghost use Rattle.xd_parse.specs.Items.{AreItems, expression_of};

use std::alloc::Global;
use std::collections::VecDeque;
use xd_base::Place;
use xd_doc::NoMemory;
use xd_parse_trees::{join, queue_of};
use xd_syntax::{ExprForm, ExprId, Exprs};

/// What was read, before a node is made of it: the parts of a sequence, so that what stands around
/// it merges with them. Of no part it is empty, at the place; one part is itself.
#[derive(Drop)]
pub(crate) struct Items {
    pub place: Place,
    pub parts: VecDeque<ExprId>,
}

/// Nothing, at this place.
pub(crate) fn nothing_at(alloc: Global, place: Place) -> Items
    ensures place { result.place ≡ place }
    ensures none { result.parts.items ≡ [] }
{
    Items {
        place,
        parts: VecDeque::new(alloc),
    }
}

/// Adds a node that is not empty and no sequence.
pub(crate) fn add_item(
    alloc: Global,
    exprs: &mut Exprs,
    place: Place,
    form: ExprForm,
) -> Result<Items, NoMemory>
    requires follows { ExprCanFollow exprs.old (shape_of form) }
    requires alone { is_joined_shape (shape_of form) ≡ false }
    ensures expression { IfOk result (λ items. (patterns : List Row) → expression_of patterns exprs.new items ≡ shape_expression (placed_at patterns) (expression_at patterns exprs.old) place (shape_of form)) }
    ensures stand { IfOk result (AreItems exprs.new) }
    ensures grown { IfOk result (λ items. exprs.new ≡ exprs.old ++ record { place = place; form = shape_of form } ∷ []) }
{
    let id = exprs.add(place, form)?;
    // What the table says of the node, for the proof alone.
    let _node = exprs.node(id);
    let parts = queue_of(alloc, id)?;
    Ok(Items { place, parts })
}

/// What was read in front, and after it what was read then.
pub(crate) fn in_row(front: Items, back: Items) -> Result<Items, NoMemory>
    ensures place { IfOk result (λ items. items.place ≡ front.place) }
    ensures parts { IfOk result (λ items. items.parts.items ≡ front.parts.items ++ back.parts.items) }
{
    let parts = join(front.parts, back.parts)?;
    Ok(Items {
        place: front.place,
        parts,
    })
}

/// The sequence of parts that are merged. Where there are none it is empty, at the place given.
fn merged(exprs: &mut Exprs, place: Place, parts: Vec<ExprId>) -> Result<ExprId, NoMemory>
    requires { AllByRecursion (IsJoinedPart exprs.old) (expr_numbers parts.items) }
    ensures value { IfOk result (λ id. (patterns : List Row) → expression patterns exprs.new id ≡ merged_expression place (map (expression patterns exprs.old) parts.items)) }
    ensures belongs { IfOk result (IsExpr exprs.new) }
    ensures keeps { IfOk result (λ id. KeepsExprs exprs.old exprs.new) }
    ensures clauses { IfOk result (λ id. (n : ℕ) → PatternsBelong n exprs.old → PatternsBelong n exprs.new) }
{
    match parts.as_slice() {
        [] => exprs.add(place, ExprForm::Empty),
        [only] => Ok(*only),
        [first, ..] => {
            let place = exprs.node(*first).place();
            exprs.add(place, ExprForm::Seq(parts))
        }
    }
}

/// The node of what was read.
pub(crate) fn to_expr(exprs: &mut Exprs, items: Items) -> Result<ExprId, NoMemory>
    requires { AreItems exprs.old items }
    ensures value { IfOk result (λ id. (patterns : List Row) → expression patterns exprs.new id ≡ expression_of patterns exprs.old items) }
    ensures belongs { IfOk result (IsExpr exprs.new) }
    ensures keeps { IfOk result (λ id. KeepsExprs exprs.old exprs.new) }
    ensures clauses { IfOk result (λ id. (n : ℕ) → PatternsBelong n exprs.old → PatternsBelong n exprs.new) }
{
    merged(exprs, items.place, items.parts.into_vec())
}
