//! One view of both tables of nodes, those of types and those of patterns.

ghost use Rattle.std.specs.Prelude.{◌≡◌, ℕ, ◌<◌, Bool, List, length, map};
ghost use Rattle.xd_syntax.specs.Table.{Row};
ghost use Rattle.xd_syntax.specs.Nodes.{IsNode, view_form, form_parts};

use crate::patterns::{PatternForm, PatternId, Patterns};
use crate::types::{TypeForm, TypeId, Types};
use std::slice;
use xd_base::Place;
use xd_doc::{Class, Label, Words};

/// What a node of a type or of a pattern is, borrowed from its table.
#[derive(Drop)]
pub enum FormView<'a, I: Copy> {
    /// `()`: the empty document.
    Empty,
    /// `String`: one text.
    Text,
    /// One text of these, or one text but these.
    Words(&'a Words),
    /// The type that this name stands for.
    Name(&'a Label),
    /// One element: the class of its label, and what its content fits.
    Elem(&'a Class, I),
    /// Its parts, one after the other.
    Seq(&'a [I]),
    /// One of its branches.
    Alt(&'a [I]),
    /// Any number of pieces in a row.
    Star(I),
    /// One piece or more in a row.
    Plus(I),
    /// The part, or nothing.
    Opt(I),
    /// The variable, the place of its word, and what it stands for; in patterns alone.
    Val(&'a Label, Place, I),
}

/// A node of a type or of a pattern, borrowed from its table: the place of its first token, what it
/// is, and its parts in order.
#[derive(Drop)]
pub struct NodeView<'a, I: Copy> {
    pub place: Place,
    pub form: FormView<'a, I>,
    pub parts: &'a [I],
}

/// A table of nodes that can be read: types or patterns.
///
/// A walker that treats both alike is written once, over this trait: it takes `nodes: &N` and an
/// `id: N::Id`, looks at `nodes.view(id)`, and goes on with the `parts`, which are older nodes.
pub trait Nodes {
    /// The number of a node.
    type Id: Copy;

    /// Whether binders may stand in it.
    ghost binders: { Bool };

    /// The nodes.
    ghost rows: { Self → List Row };

    /// The number itself.
    ghost at: { Self.Id → ℕ };

    /// The node with this number.
    fn view(&self, id: Self::Id) -> NodeView<'_, Self::Id>
        requires { at id < length (rows self.now) }
        ensures node { IsNode binders (rows self.now) (at id) result.place (view_form at result.form) }
        ensures parts { map at result.parts.now ≡ form_parts (view_form at result.form) };
}

impl Nodes for Types {
    type Id = TypeId;

    ghost use Rattle.std.specs.Prelude.{false};

    ghost binders = { false };

    ghost rows = { λ t. t };

    ghost at = { λ id. id.at };

    fn view(&self, id: TypeId) -> NodeView<'_, TypeId> {
        let node = self.node(id);
        let place = node.place();
        let (form, parts) = match node.form() {
            TypeForm::Empty => (FormView::Empty, [].as_slice()),
            TypeForm::Text => (FormView::Text, [].as_slice()),
            TypeForm::Words(texts) => (FormView::Words(texts), [].as_slice()),
            TypeForm::Name(word) => (FormView::Name(word), [].as_slice()),
            TypeForm::Elem(class, part) => (FormView::Elem(class, *part), slice::from_ref(part)),
            TypeForm::Seq(parts) => (FormView::Seq(parts), parts.as_slice()),
            TypeForm::Alt(parts) => (FormView::Alt(parts), parts.as_slice()),
            TypeForm::Star(part) => (FormView::Star(*part), slice::from_ref(part)),
            TypeForm::Plus(part) => (FormView::Plus(*part), slice::from_ref(part)),
            TypeForm::Opt(part) => (FormView::Opt(*part), slice::from_ref(part)),
        };
        NodeView { place, form, parts }
    }
}

impl Nodes for Patterns {
    type Id = PatternId;

    ghost use Rattle.std.specs.Prelude.{true};

    ghost binders = { true };

    ghost rows = { λ t. t };

    ghost at = { λ id. id.at };

    fn view(&self, id: PatternId) -> NodeView<'_, PatternId> {
        let node = self.node(id);
        let place = node.place();
        let (form, parts) = match node.form() {
            PatternForm::Empty => (FormView::Empty, [].as_slice()),
            PatternForm::Text => (FormView::Text, [].as_slice()),
            PatternForm::Words(texts) => (FormView::Words(texts), [].as_slice()),
            PatternForm::Name(word) => (FormView::Name(word), [].as_slice()),
            PatternForm::Elem(class, part) => (FormView::Elem(class, *part), slice::from_ref(part)),
            PatternForm::Seq(parts) => (FormView::Seq(parts), parts.as_slice()),
            PatternForm::Alt(parts) => (FormView::Alt(parts), parts.as_slice()),
            PatternForm::Star(part) => (FormView::Star(*part), slice::from_ref(part)),
            PatternForm::Plus(part) => (FormView::Plus(*part), slice::from_ref(part)),
            PatternForm::Opt(part) => (FormView::Opt(*part), slice::from_ref(part)),
            PatternForm::Val(word, place, part) => (
                FormView::Val(word, *place, *part),
                slice::from_ref(part),
            ),
        };
        NodeView { place, form, parts }
    }
}
