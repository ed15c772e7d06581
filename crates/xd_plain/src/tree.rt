//! Types and patterns as trees of boxes.

ghost use Rattle.std.specs.Prelude.{◌≡◌};
ghost use Rattle.std.specs.Option.{option_copied};
ghost use Rattle.xd_syntax.specs.Tree.{body};
ghost use Rattle.xd_plain.specs.PlainTrees.{tree_of, definitions_of, map_option};

use xd_doc::{Class, Label, Words};

/// A type or a pattern.
#[derive(Drop)]
pub enum PlainTree {
    Empty,
    Text,
    Words(Words),
    Name(Label),
    Elem(Class, Box<PlainTree>),
    Seq(Box<PlainTree>, Box<PlainTree>),
    Alt(Box<PlainTree>, Box<PlainTree>),
    Star(Box<PlainTree>),
    Plus(Box<PlainTree>),
    Opt(Box<PlainTree>),
    Val(Label, Box<PlainTree>),
}

/// A name, and what it stands for.
#[derive(Drop)]
pub struct PlainDefinition {
    pub name: Label,
    pub body: PlainTree,
}

/// What a name stands for.
pub fn body_of<'a>(definitions: &'a [PlainDefinition], name: &Label) -> Option<&'a PlainTree>
    ensures { map_option tree_of (option_copied result) ≡ body (definitions_of definitions.now) name.now }
{
    for definition in definitions {
        if definition.name.as_str() == name.as_str() {
            return Some(&definition.body);
        }
    }
    None
}
