//! Tables of nodes: types and patterns, as the parser adds to them.

ghost use Rattle.std.specs.Prelude.{◌≡◌, ℕ, List, false, true, IfOk};
ghost use Rattle.xd_syntax.specs.declared.types.TypeId.{TypeId};
ghost use Rattle.xd_syntax.specs.declared.patterns.PatternId.{PatternId};
ghost use Rattle.xd_syntax.specs.Table.{Row, CanFollow, KeepsRows};
ghost use Rattle.xd_syntax.specs.PlacedTable.{placed_at, placed_form};
ghost use Rattle.xd_parse_trees.specs.Nodes.{binders, shape, IsAdded};
ghost use Rattle.xd_grammar.specs.declared.grammar.Sort.{Sort};
ghost use Rattle.xd_grammar.specs.declared.grammar.Sort.TheVariants as sorts;

use xd_base::Place;
use xd_doc::{Class, Label, NoMemory, Words};
use xd_grammar::Sort;
use xd_syntax::{PatternForm, PatternId, Patterns, TypeForm, TypeId, Types};

/// What a node is. Its parts are older nodes.
#[derive(Drop)]
pub(crate) enum NodeForm<I> {
    Empty,
    Text,
    /// One text, or all but at least one.
    Words(Words),
    Name(Label),
    Elem(Class, I),
    Seq(Vec<I>),
    Alt(Vec<I>),
    Star(I),
    Plus(I),
    Opt(I),
    /// The variable, the place of its word, and what it stands for.
    Val(Label, Place, I),
}

/// A table of nodes: types or patterns.
pub(crate) trait Nodes {
    type Id: Copy;

    ghost sort: { Sort };

    ghost rows: { Self → List Row };

    ghost at: { Self.Id → ℕ };

    /// Whether the nodes are those of types or of patterns.
    fn sort() -> Sort
        ensures { result ≡ sort };

    /// One more node.
    fn add(&mut self, place: Place, form: NodeForm<Self::Id>) -> Result<Self::Id, NoMemory>
        requires { CanFollow (binders sort) (rows self.old) (shape at form) }
        ensures added { IfOk result (λ id. IsAdded (rows self.old) (rows self.new) (placed_form (placed_at (rows self.old)) place (shape at form)) (at id)) }
        ensures keeps { KeepsRows (rows self.old) (rows self.new) };
}

impl Nodes for Types {
    type Id = TypeId;

    ghost sort = { sorts.Type };

    ghost rows = { λ t. t };

    ghost at = { λ id. id.at };

    fn sort() -> Sort {
        Sort::Type
    }

    fn add(&mut self, place: Place, form: NodeForm<TypeId>) -> Result<TypeId, NoMemory>
        requires { CanFollow false self.old (shape (λ (id : TypeId). id.at) form) }
        ensures added { IfOk result (λ id. IsAdded self.old self.new (placed_form (placed_at self.old) place (shape (λ (id : TypeId). id.at) form)) id.at) }
        ensures keeps { KeepsRows self.old self.new }
    {
        let form = match form {
            NodeForm::Empty => TypeForm::Empty,
            NodeForm::Text => TypeForm::Text,
            NodeForm::Words(texts) => TypeForm::Words(texts),
            NodeForm::Name(word) => TypeForm::Name(word),
            NodeForm::Elem(class, content) => TypeForm::Elem(class, content),
            NodeForm::Seq(parts) => TypeForm::Seq(parts),
            NodeForm::Alt(parts) => TypeForm::Alt(parts),
            NodeForm::Star(part) => TypeForm::Star(part),
            NodeForm::Plus(part) => TypeForm::Plus(part),
            NodeForm::Opt(part) => TypeForm::Opt(part),
            NodeForm::Val(_, _, _) => unreachable!(),
        };
        self.add(place, form)
    }
}

impl Nodes for Patterns {
    type Id = PatternId;

    ghost sort = { sorts.Pattern };

    ghost rows = { λ t. t };

    ghost at = { λ id. id.at };

    fn sort() -> Sort {
        Sort::Pattern
    }

    fn add(&mut self, place: Place, form: NodeForm<PatternId>) -> Result<PatternId, NoMemory>
        requires { CanFollow true self.old (shape (λ (id : PatternId). id.at) form) }
        ensures added { IfOk result (λ id. IsAdded self.old self.new (placed_form (placed_at self.old) place (shape (λ (id : PatternId). id.at) form)) id.at) }
        ensures keeps { KeepsRows self.old self.new }
    {
        let form = match form {
            NodeForm::Empty => PatternForm::Empty,
            NodeForm::Text => PatternForm::Text,
            NodeForm::Words(texts) => PatternForm::Words(texts),
            NodeForm::Name(word) => PatternForm::Name(word),
            NodeForm::Elem(class, content) => PatternForm::Elem(class, content),
            NodeForm::Seq(parts) => PatternForm::Seq(parts),
            NodeForm::Alt(parts) => PatternForm::Alt(parts),
            NodeForm::Star(part) => PatternForm::Star(part),
            NodeForm::Plus(part) => PatternForm::Plus(part),
            NodeForm::Opt(part) => PatternForm::Opt(part),
            NodeForm::Val(word, at, part) => PatternForm::Val(word, at, part),
        };
        self.add(place, form)
    }
}
