//! The uses of names that stand for the others.

ghost use Rattle.std.specs.Prelude.{◌≡◌, ◌<◌, length, IsTrue};
ghost use Rattle.xd_syntax.specs.Table.{tree_at};
ghost use Rattle.xd_syntax.specs.Tree.{Name};

use std::alloc::Global;
use std::collections::BTreeMap;
use xd_doc::{Label, NoMemory};
use xd_syntax::{TypeForm, TypeId, Types};

/// For each name of a table of types, the node of its first use.
#[derive(Drop)]
pub struct FirstUses {
    nodes: BTreeMap<Label, usize>,
    /// How many nodes of the table were looked at.
    seen: usize,
}

impl FirstUses {
    /// Of an empty table.
    pub fn new(alloc: Global) -> Self {
        Self {
            nodes: BTreeMap::new(alloc),
            seen: 0,
        }
    }

    /// Looks at the nodes that came after those that were looked at. Fails only where memory is
    /// refused; then some of them were looked at, and a next call looks at all of them.
    pub fn cover(&mut self, types: &Types) -> Result<(), NoMemory> {
        for at in self.seen..types.len() {
            if let TypeForm::Name(word) = types.node(TypeId::of(at)).form() {
                self.see(word, at)?;
            }
        }
        self.seen = types.len();
        Ok(())
    }

    /// A node is a use of this name.
    fn see(&mut self, word: &Label, node: usize) -> Result<(), NoMemory> {
        if self.nodes.get(word).is_none() {
            self.nodes.insert(word.share()?, node)?;
        }
        Ok(())
    }

    /// The node that stands for this one in continuations: for a name the first node of that name,
    /// so that all uses of a name share their continuations; else the node itself.
    pub fn first(&self, types: &Types, node: usize) -> usize
        requires { node < length types.now }
        ensures there { result < length types.now }
        ensures tree { tree_at types.now result ≡ tree_at types.now node }
    {
        let TypeForm::Name(word) = types.node(TypeId::of(node)).form() else {
            return node;
        };
        match self.nodes.get(word).copied() {
            Some(first) if is_name(types, first, word) => first,
            _ => node,
        }
    }
}

/// Whether the node is this name.
fn is_name(types: &Types, node: usize, word: &Label) -> bool
    ensures { IsTrue result → (node < length types.now) × (tree_at types.now node ≡ Name word.now) }
{
    if node >= types.len() {
        return false;
    }
    match types.node(TypeId::of(node)).form() {
        TypeForm::Name(other) => other == word,
        _ => false,
    }
}
