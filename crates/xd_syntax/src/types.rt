//! Types: nodes in a table.

ghost use Rattle.std.specs.Prelude.{◌≡◌, ◌+◌, ◌^◌, ◌<◌, ◌++◌, ◌∷◌, [], false, length, take, slice_index_or, IfOk, OnOk, OnErr};
ghost use Rattle.xd_syntax.specs.PlacedTable.{placed_at, placed_form};
ghost use Rattle.xd_syntax.specs.Table.{KeepsRows, CanFollow, PartsBelow, form_tree, tree_at};
ghost use Rattle.xd_syntax.specs.ProperTables.{IsProperForm, IsTable};
ghost use Rattle.xd_syntax.specs.Types.{BelongsTo, form_of, tree};

use crate::copies::{Copied, copied_rows, copied_type};
use std::alloc::Global;
use std::marker::Model;
use xd_base::Place;
use xd_doc::{Class, Label, NoMemory, Words};

/// The number of a type's node.
#[derive(Clone, Copy, Debug, PartialEq, Eq)]
pub struct TypeId {
    at: usize,
}

/// What a node is. Its parts are older nodes.
#[derive(Drop)]
pub enum TypeForm {
    /// `()`: the empty document.
    Empty,
    /// `String`: one text.
    Text,
    /// One text of these, or one text but these.
    Words(Words),
    /// The type that this name stands for.
    Name(Label),
    /// One element: the class of its label, and what its content fits.
    Elem(Class, TypeId),
    /// `T,U`: its parts, one after the other. There are at least two, and none is a sequence or
    /// `()`.
    Seq(Vec<TypeId>),
    /// `T|U`: one of its branches. There are at least two, and none is an alternative.
    Alt(Vec<TypeId>),
    /// `T*`: any number of pieces in a row.
    Star(TypeId),
    /// `T+`: one piece or more in a row.
    Plus(TypeId),
    /// `T?`: the part, or nothing.
    Opt(TypeId),
}

/// A node, and the place of its first token.
#[derive(Drop)]
pub struct TypeNode {
    place: Place,
    form: TypeForm,
}

impl Model for TypeNode {
    ghost use Rattle.xd_syntax.specs.Table.{Row};
    ghost use Rattle.xd_syntax.specs.Types.{form_of};

    ghost Value = { Row };

    ghost view = { λ n. record { place = n.place; form = form_of n.form } };
}

/// A definition of a type: its name, the place of the name, and what it stands for.
#[derive(Drop)]
pub struct TypeDef {
    pub name: Label,
    pub place: Place,
    pub body: TypeId,
}

/// Nodes of types, the oldest first.
#[derive(Drop)]
pub struct Types {
    nodes: Vec<TypeNode>,
}

impl Model for Types {
    ghost use Rattle.std.specs.Prelude.{List, false};
    ghost use Rattle.xd_syntax.specs.Table.{Row};
    ghost use Rattle.xd_syntax.specs.ProperTables.{IsTable};

    ghost Value = { List Row };

    ghost view = { λ t. t.nodes.items };

    ghost invariant = { λ t. IsTable false t.nodes.items };
}

impl TypeId {
    /// The number of the node.
    pub fn at(self) -> usize
        ensures { result ≡ self.at }
    {
        self.at
    }

    /// The type of the node with this number.
    pub fn of(at: usize) -> Self
        ensures { result ≡ record { at = at } }
    {
        Self { at }
    }
}

impl TypeForm {
    /// Its words are words, and its class is as classes are built: what its parts say, for the
    /// proof alone.
    fn see_words(&self)
        ensures { IsProperForm (form_of self.now) }
    {
        match self {
            TypeForm::Empty => {}
            TypeForm::Text => {}
            TypeForm::Words(texts) => {
                let _names = texts.texts();
            }
            TypeForm::Name(word) => {
                let _word = word.as_str();
            }
            TypeForm::Elem(class, _) => {
                let _names = class.names();
            }
            TypeForm::Seq(_) => {}
            TypeForm::Alt(_) => {}
            TypeForm::Star(_) => {}
            TypeForm::Plus(_) => {}
            TypeForm::Opt(_) => {}
        }
    }
}

impl TypeNode {
    /// The place of its first token.
    pub fn place(&self) -> Place
        ensures { result ≡ self.now.place }
    {
        self.place
    }

    /// What the node is.
    pub fn form(&self) -> &TypeForm
        ensures { form_of result.now ≡ self.now.form }
    {
        &self.form
    }
}

impl Copied for TypeNode {
    fn copied(&self, alloc: Global) -> Result<Self, NoMemory> {
        let form = copied_type(alloc, &self.form)?;
        Ok(Self {
            place: self.place,
            form,
        })
    }
}

impl Copied for TypeDef {
    fn copied(&self, _alloc: Global) -> Result<Self, NoMemory> {
        let name = self.name.share()?;
        Ok(Self {
            name,
            place: self.place,
            body: self.body,
        })
    }
}

impl Types {
    /// With no node.
    pub fn new(alloc: Global) -> Self
        ensures { result ≡ [] }
    {
        Self {
            nodes: Vec::new(alloc),
        }
    }

    /// The same types, under the same numbers. Fails only where memory is refused.
    pub fn copy(&self, alloc: Global) -> Result<Self, NoMemory>
        ensures { IfOk result (λ made. made ≡ self.now) }
    {
        let nodes = copied_rows(alloc, &self.nodes)?;
        Ok(Self { nodes })
    }

    /// The number of nodes.
    pub fn len(&self) -> usize
        ensures { result ≡ length self.now }
    {
        self.nodes.len()
    }

    /// Takes off the newest nodes, so that at most this many are left.
    pub fn truncate(&mut self, len: usize)
        ensures { self.new ≡ take len self.old }
    {
        self.nodes.truncate(len);
    }

    /// What is so of every table.
    pub fn see_table(&self)
        ensures { IsTable false self.now }
    {
        let _nodes = &self.nodes;
    }

    /// One more node. Its parts stand before it. Fails only where memory is refused; the table is
    /// as it was then.
    pub fn add(&mut self, place: Place, form: TypeForm) -> Result<TypeId, NoMemory>
        requires { CanFollow false self.old (form_of form) }
        ensures tree { IfOk result (λ id. tree self.new id ≡ form_tree (tree_at self.old) (form_of form)) }
        ensures placed { IfOk result (λ id. placed_at self.new id.at ≡ placed_form (placed_at self.old) place (form_of form)) }
        ensures belongs { IfOk result (BelongsTo self.new) }
        ensures last { IfOk result (λ id. id.at ≡ length self.old) }
        ensures grown { IfOk result (λ id. self.new ≡ self.old ++ record { place = place; form = form_of form } ∷ []) }
        ensures keeps { KeepsRows self.old self.new }
        ensures err { OnErr result (self.new ≡ self.old) }
    {
        let at = self.len();
        form.see_words();
        self.nodes.push(TypeNode { place, form })?;
        Ok(TypeId { at })
    }

    /// The node of a type.
    pub fn node(&self, id: TypeId) -> &TypeNode
        requires { BelongsTo self.now id }
        ensures row { result.now ≡ slice_index_or self.now id.at result.now }
        ensures tree { tree self.now id ≡ form_tree (tree_at self.now) result.now.form }
        ensures placed { placed_at self.now id.at ≡ placed_form (placed_at self.now) result.now.place result.now.form }
        ensures parts { PartsBelow id.at result.now.form }
        ensures merged { CanFollow false (take id.at self.now) result.now.form }
    {
        &self.nodes[id.at]
    }
}
