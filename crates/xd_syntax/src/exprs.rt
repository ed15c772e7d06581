//! Expressions: nodes in a table.

ghost use Rattle.std.specs.Prelude.{◌≡◌, ◌++◌, ◌∷◌, [], ℕ, List, length, take, IfOk, OnErr};
ghost use Rattle.xd_syntax.specs.Table.{Row};
ghost use Rattle.xd_syntax.specs.PlacedTable.{placed_at};
ghost use Rattle.xd_syntax.specs.ExpressionTable.{KeepsExprs, ExprCanFollow, ExprPartsBelow, PatternsBelong, ShapePatternsBelong, expression_at, shape_at, shape_expression};
ghost use Rattle.xd_syntax.specs.ProperTables.{IsProperShape, IsExprTable};
ghost use Rattle.xd_syntax.specs.Exprs.{IsExpr, shape_of, expression};

use crate::copies::{Copied, copied_expression, copied_rows};
use crate::patterns::PatternId;
use std::alloc::Global;
use std::marker::Model;
use xd_base::Place;
use xd_doc::{Label, NoMemory, Text};

/// The number of an expression's node.
#[derive(Clone, Copy, Debug, PartialEq, Eq)]
pub struct ExprId {
    at: usize,
}

/// A clause of a match.
#[derive(Clone, Copy, Debug, PartialEq, Eq)]
pub struct Clause {
    pub pattern: PatternId,
    pub body: ExprId,
}

/// What a node is. Its parts are older nodes.
#[derive(Drop)]
pub enum ExprForm {
    /// `()`: the empty document.
    Empty,
    /// A text.
    Text(Text),
    /// A variable.
    Var(Label),
    /// An element: its label and its content.
    Elem(Label, ExprId),
    /// The parts, one after the other.
    Seq(Vec<ExprId>),
    /// A call: the function's name, and the arguments in order.
    Call(Label, Vec<ExprId>),
    /// A match: what is matched, and the clauses in the order in which they are tried.
    Match(ExprId, Vec<Clause>),
}

/// A node, and the place of its first token.
#[derive(Drop)]
pub struct ExprNode {
    place: Place,
    form: ExprForm,
}

impl Model for ExprNode {
    ghost use Rattle.xd_syntax.specs.ExpressionTable.{ExprRow};
    ghost use Rattle.xd_syntax.specs.Exprs.{shape_of};

    ghost Value = { ExprRow };

    ghost view = { λ n. record { place = n.place; form = shape_of n.form } };
}

/// Nodes of expressions, the oldest first.
#[derive(Drop)]
pub struct Exprs {
    nodes: Vec<ExprNode>,
}

impl Model for Exprs {
    ghost use Rattle.std.specs.Prelude.{List};
    ghost use Rattle.xd_syntax.specs.ExpressionTable.{ExprRow};
    ghost use Rattle.xd_syntax.specs.ProperTables.{IsExprTable};

    ghost Value = { List ExprRow };

    ghost view = { λ t. t.nodes.items };

    ghost invariant = { λ t. IsExprTable t.nodes.items };
}

impl ExprForm {
    /// Its words are words, and its text is a text: what its parts say, for the proof alone.
    fn see_words(&self)
        ensures { IsProperShape (shape_of self.now) }
    {
        match self {
            ExprForm::Empty => {}
            ExprForm::Text(text) => {
                let _text = text.as_str();
            }
            ExprForm::Var(variable) => {
                let _word = variable.as_str();
            }
            ExprForm::Elem(label, _) => {
                let _word = label.as_str();
            }
            ExprForm::Seq(_) => {}
            ExprForm::Call(function, _) => {
                let _word = function.as_str();
            }
            ExprForm::Match(_, _) => {}
        }
    }
}

impl ExprNode {
    /// The place of its first token.
    pub fn place(&self) -> Place
        ensures { result ≡ self.now.place }
    {
        self.place
    }

    /// What the node is.
    pub fn form(&self) -> &ExprForm
        ensures { shape_of result.now ≡ self.now.form }
    {
        &self.form
    }
}

impl Copied for ExprNode {
    fn copied(&self, alloc: Global) -> Result<Self, NoMemory> {
        let form = copied_expression(alloc, &self.form)?;
        Ok(Self {
            place: self.place,
            form,
        })
    }
}

impl Exprs {
    /// With no node.
    pub fn new(alloc: Global) -> Self
        ensures { result ≡ [] }
    {
        Self {
            nodes: Vec::new(alloc),
        }
    }

    /// The same expressions, under the same numbers.
    pub(crate) fn copy(&self, alloc: Global) -> Result<Self, NoMemory>
        ensures { IfOk result (λ made. made ≡ self.now) }
    {
        let nodes = copied_rows(alloc, &self.nodes)?;
        Ok(Self { nodes })
    }

    /// The number of nodes.
    pub fn len(&self) -> usize
        ensures { result ≡ length self.now }
    {
        self.nodes.len()
    }

    /// What is so of every table.
    pub(crate) fn see_table(&self)
        ensures { IsExprTable self.now }
    {
        let _nodes = &self.nodes;
    }

    /// One more node. Its parts stand before it. Fails only where memory is refused; the table is
    /// as it was then.
    pub fn add(&mut self, place: Place, form: ExprForm) -> Result<ExprId, NoMemory>
        requires { ExprCanFollow self.old (shape_of form) }
        ensures expression { IfOk result (λ id. (patterns : List Row) → expression patterns self.new id ≡ shape_expression (placed_at patterns) (expression_at patterns self.old) place (shape_of form)) }
        ensures belongs { IfOk result (IsExpr self.new) }
        ensures grown { IfOk result (λ id. self.new ≡ self.old ++ record { place = place; form = shape_of form } ∷ []) }
        ensures keeps { KeepsExprs self.old self.new }
        ensures err { OnErr result (self.new ≡ self.old) }
    {
        let at = self.len();
        form.see_words();
        self.nodes.push(ExprNode { place, form })?;
        Ok(ExprId { at })
    }

    /// The node of an expression.
    pub fn node(&self, id: ExprId) -> &ExprNode
        requires { IsExpr self.now id }
        ensures expression { (patterns : List Row) → expression patterns self.now id ≡ shape_expression (placed_at patterns) (expression_at patterns self.now) result.now.place result.now.form }
        ensures row { shape_at self.now id.at ≡ result.now.form }
        ensures parts { ExprPartsBelow id.at result.now.form }
        ensures merged { ExprCanFollow (take id.at self.now) result.now.form }
        ensures clauses { (n : ℕ) → PatternsBelong n self.now → ShapePatternsBelong n result.now.form }
    {
        &self.nodes[id.at]
    }
}
