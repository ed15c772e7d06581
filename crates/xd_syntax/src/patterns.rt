//! Patterns: nodes in a table.

ghost use Rattle.std.specs.Prelude.{◌≡◌, ◌+◌, ◌++◌, ◌∷◌, [], true, length, take, slice_index_or, IfOk, OnErr};
ghost use Rattle.xd_syntax.specs.PlacedTable.{placed_at, placed_form};
ghost use Rattle.xd_syntax.specs.Table.{KeepsRows, CanFollow, PartsBelow, form_tree, tree_at};
ghost use Rattle.xd_syntax.specs.ProperTables.{IsProperForm, IsTable};
ghost use Rattle.xd_syntax.specs.Patterns.{IsPattern, form_of_pattern, pattern_tree};

use crate::copies::{Copied, copied_pattern, copied_rows};
use std::alloc::Global;
use std::marker::Model;
use xd_base::Place;
use xd_doc::{Class, Label, NoMemory, Words};

/// The number of a pattern's node.
#[derive(Clone, Copy, Debug, PartialEq, Eq)]
pub struct PatternId {
    at: usize,
}

/// What a node is. Its parts are older nodes.
#[derive(Drop)]
pub enum PatternForm {
    /// `()`: the empty document.
    Empty,
    /// `String`: one text.
    Text,
    /// One text of these, or one text but these.
    Words(Words),
    /// The type that this name stands for.
    Name(Label),
    /// One element: the class of its label, and what its content fits.
    Elem(Class, PatternId),
    /// `T,U`: its parts, one after the other. There are at least two, and none is a sequence or
    /// `()`.
    Seq(Vec<PatternId>),
    /// `T|U`: one of its branches. There are at least two, and none is an alternative.
    Alt(Vec<PatternId>),
    /// `T*`: any number of pieces in a row.
    Star(PatternId),
    /// `T+`: one piece or more in a row.
    Plus(PatternId),
    /// `T?`: the part, or nothing.
    Opt(PatternId),
    /// The variable, the place of its word, and what it stands for.
    Val(Label, Place, PatternId),
}

/// A node, and the place of its first token.
#[derive(Drop)]
pub struct PatternNode {
    place: Place,
    form: PatternForm,
}

impl Model for PatternNode {
    ghost use Rattle.xd_syntax.specs.Table.{Row};
    ghost use Rattle.xd_syntax.specs.Patterns.{form_of_pattern};

    ghost Value = { Row };

    ghost view = { λ n. record { place = n.place; form = form_of_pattern n.form } };
}

/// Nodes of patterns, the oldest first.
#[derive(Drop)]
pub struct Patterns {
    nodes: Vec<PatternNode>,
}

impl Model for Patterns {
    ghost use Rattle.std.specs.Prelude.{List, true};
    ghost use Rattle.xd_syntax.specs.Table.{Row};
    ghost use Rattle.xd_syntax.specs.ProperTables.{IsTable};

    ghost Value = { List Row };

    ghost view = { λ t. t.nodes.items };

    ghost invariant = { λ t. IsTable true t.nodes.items };
}

impl PatternId {
    /// The number of the node.
    pub fn at(self) -> usize
        ensures { result ≡ self.at }
    {
        self.at
    }

    /// The pattern of the node with this number.
    pub fn of(at: usize) -> Self
        ensures { result ≡ record { at = at } }
    {
        Self { at }
    }
}

impl PatternForm {
    /// Its words are words, and its class is as classes are built: what its parts say, for the
    /// proof alone.
    fn see_words(&self)
        ensures { IsProperForm (form_of_pattern self.now) }
    {
        match self {
            PatternForm::Empty => {}
            PatternForm::Text => {}
            PatternForm::Words(texts) => {
                let _names = texts.texts();
            }
            PatternForm::Name(word) => {
                let _word = word.as_str();
            }
            PatternForm::Elem(class, _) => {
                let _names = class.names();
            }
            PatternForm::Seq(_) => {}
            PatternForm::Alt(_) => {}
            PatternForm::Star(_) => {}
            PatternForm::Plus(_) => {}
            PatternForm::Opt(_) => {}
            PatternForm::Val(variable, _, _) => {
                let _word = variable.as_str();
            }
        }
    }
}

impl PatternNode {
    /// The place of its first token.
    pub fn place(&self) -> Place
        ensures { result ≡ self.now.place }
    {
        self.place
    }

    /// What the node is.
    pub fn form(&self) -> &PatternForm
        ensures { form_of_pattern result.now ≡ self.now.form }
    {
        &self.form
    }
}

impl Copied for PatternNode {
    fn copied(&self, alloc: Global) -> Result<Self, NoMemory> {
        let form = copied_pattern(alloc, &self.form)?;
        Ok(Self {
            place: self.place,
            form,
        })
    }
}

impl Patterns {
    /// With no node.
    pub fn new(alloc: Global) -> Self
        ensures { result ≡ [] }
    {
        Self {
            nodes: Vec::new(alloc),
        }
    }

    /// The same patterns, under the same numbers.
    pub(crate) fn copy(&self, alloc: Global) -> Result<Self, NoMemory>
        ensures { IfOk result (λ made. made ≡ self.now) }
    {
        let nodes = copied_rows(alloc, &self.nodes)?;
        Ok(Self { nodes })
    }

    /// The number of nodes.
    pub fn len(&self) -> usize
        ensures { result ≡ length self.now }
    {
        self.nodes.len()
    }

    /// What is so of every table.
    pub(crate) fn see_table(&self)
        ensures { IsTable true self.now }
    {
        let _nodes = &self.nodes;
    }

    /// One more node. Its parts stand before it. Fails only where memory is refused; the table is
    /// as it was then.
    pub fn add(&mut self, place: Place, form: PatternForm) -> Result<PatternId, NoMemory>
        requires { CanFollow true self.old (form_of_pattern form) }
        ensures tree { IfOk result (λ id. pattern_tree self.new id ≡ form_tree (tree_at self.old) (form_of_pattern form)) }
        ensures placed { IfOk result (λ id. placed_at self.new id.at ≡ placed_form (placed_at self.old) place (form_of_pattern form)) }
        ensures belongs { IfOk result (IsPattern self.new) }
        ensures grown { IfOk result (λ id. self.new ≡ self.old ++ record { place = place; form = form_of_pattern form } ∷ []) }
        ensures keeps { KeepsRows self.old self.new }
        ensures err { OnErr result (self.new ≡ self.old) }
    {
        let at = self.len();
        form.see_words();
        self.nodes.push(PatternNode { place, form })?;
        Ok(PatternId { at })
    }

    /// The node of a pattern.
    pub fn node(&self, id: PatternId) -> &PatternNode
        requires { IsPattern self.now id }
        ensures row { result.now ≡ slice_index_or self.now id.at result.now }
        ensures tree { pattern_tree self.now id ≡ form_tree (tree_at self.now) result.now.form }
        ensures placed { placed_at self.now id.at ≡ placed_form (placed_at self.now) result.now.place result.now.form }
        ensures parts { PartsBelow id.at result.now.form }
        ensures merged { CanFollow true (take id.at self.now) result.now.form }
    {
        &self.nodes[id.at]
    }
}
