//! Graphs.

ghost use Rattle.std.specs.Prelude.{◌≡◌, ℕ, ◌<◌, ◌++◌, ◌∷◌, [], length, IfOk, OnOk, slice_set};
ghost use Rattle.xd_sound.specs.Graph.{successors, HasEdge, IsClosed};

use std::alloc::Global;
use std::marker::Model;
use xd_doc::NoMemory;

/// A graph whose nodes are numbers from 0 on.
#[derive(Drop)]
pub struct Graph {
    targets: Vec<Vec<usize>>,
}

impl Model for Graph {
    ghost use Rattle.std.specs.Prelude.{List, ℕ, map};
    ghost use Rattle.xd_sound.specs.Graph.{IsClosed};

    ghost Value = { List (List ℕ) };

    ghost view = { λ g. map (λ v. v.items) g.targets.items };

    ghost invariant = { λ g. IsClosed (map (λ v. v.items) g.targets.items) };
}

impl Graph {
    /// With so many nodes and no edge. Fails only where memory is refused.
    pub fn new(alloc: Global, count: usize) -> Result<Self, NoMemory>
        ensures count { IfOk result (λ graph. length graph ≡ count) }
        ensures bare { IfOk result (λ graph. (v w : ℕ) → HasEdge graph v w → ⊥) }
    {
        let mut targets = Vec::new(alloc);
        for _ in 0..count {
            targets.push(Vec::new(alloc))?;
        }
        Ok(Self { targets })
    }

    /// The number of nodes.
    pub fn len(&self) -> usize
        ensures count { result ≡ length self.now }
        ensures closed { IsClosed self.now }
    {
        self.targets.len()
    }

    /// One more edge. Both are nodes of the graph. Fails only where memory is refused; then nothing
    /// is known of the graph any more.
    pub fn add(&mut self, from: usize, to: usize) -> Result<(), NoMemory>
        requires from { from < length self.old }
        requires to { to < length self.old }
        ensures { OnOk result (self.new ≡ slice_set self.old from (successors self.old from ++ to ∷ [])) }
    {
        self.targets[from].push(to)?;
        Ok(())
    }

    /// The nodes that the edges of a node lead to.
    pub fn successors(&self, node: usize) -> &[usize]
        requires { node < length self.now }
        ensures all { result.now ≡ successors self.now node }
        ensures closed { IsClosed self.now }
    {
        self.targets[node].as_slice()
    }
}
