//! Strongly connected components.

ghost use Rattle.std.specs.Prelude.{◌≡◌, ◌+◌, ◌-◌, ◌<◌, ◌≤◌, ◌++◌, ◌∷◌, [], ℕ, take, length, slice_set, get_or, IfOk, OnOk, MatchOption, vec_len};
ghost use Rattle.xd_sound.specs.Graph.{IsClosed, successors};
ghost use Rattle.xd_rec.specs.Components.{AreComponents, IsKnown, IsSearched, IsDoneFrom, IsNextTarget, StaySeen, has_same_number, no_segment, node_at, path_from, standing_of, todo_from, unseen, work_left, Path};

use std::alloc::Global;
use xd_doc::NoMemory;
use xd_sound::Graph;

/// How far a search has come with a node: it is at a place of the path, or done with the number of
/// its component.
#[derive(Clone, Copy)]
pub(crate) enum Standing {
    Unseen,
    Open(usize),
    Done(usize),
}

/// Nodes on the path that reach each other, from a place of the path on up to the next segment, and
/// the place from which on the targets of their edges wait.
#[derive(Clone, Copy)]
struct Segment {
    path_from: usize,
    todo_from: usize,
}

#[derive(Drop)]
struct Search {
    standing: Vec<Standing>,
    path: Vec<usize>,
    todo: Vec<usize>,
    segments: Vec<Segment>,
    finished: usize,
}

/// The number of each node's component. Nodes have the same number exactly where each reaches the
/// other.
///
/// One search along a path of components, each contracted as soon as an edge leads back into the
/// path (Gabow, Path-based depth-first search for strong and biconnected components, Information
/// Processing Letters 74, 2000). Its time and memory are linear in the nodes and edges.
pub(crate) fn components(alloc: Global, graph: &Graph) -> Result<Vec<Standing>, NoMemory>
    ensures { IfOk result (λ standing. AreComponents graph.now standing.items) }
{
    let mut search = Search::new(alloc, graph.len())?;
    for node in 0..graph.len() {
        if let Standing::Unseen = search.standing(node) {
            search.explore(graph, node)?;
        }
    }
    Ok(search.into_standing())
}

/// Whether two nodes are in the same component.
pub(crate) fn are_together(standing: &[Standing], one: usize, two: usize) -> bool
    requires one { one < length standing.now }
    requires two { two < length standing.now }
    ensures { result ≡ has_same_number (standing_of standing.now one) (standing_of standing.now two) }
{
    match (standing[one], standing[two]) {
        (Standing::Done(number), Standing::Done(other)) => number == other,
        _ => false,
    }
}

impl Search {
    fn new(alloc: Global, count: usize) -> Result<Self, NoMemory>
        ensures nodes { IfOk result (λ search. vec_len search.standing ≡ count) }
        ensures unseen { IfOk result (λ search. (v : ℕ) → standing_of search.standing.items v ≡ Standing.Unseen) }
        ensures path { IfOk result (λ search. search.path.items ≡ []) }
        ensures todo { IfOk result (λ search. search.todo.items ≡ []) }
        ensures segments { IfOk result (λ search. search.segments.items ≡ []) }
        ensures finished { IfOk result (λ search. search.finished ≡ 0) }
        ensures all { IfOk result (λ search. unseen search.standing.items ≡ count) }
    {
        let mut standing = Vec::new(alloc);
        for _ in 0..count {
            standing.push(Standing::Unseen)?;
        }
        Ok(Self {
            standing,
            path: Vec::new(alloc),
            todo: Vec::new(alloc),
            segments: Vec::new(alloc),
            finished: 0,
        })
    }

    fn into_standing(self) -> Vec<Standing>
        ensures { result ≡ self.standing }
    {
        let Self { standing, .. } = self;
        standing
    }

    /// Goes on from a node until it and all that it reaches are done.
    fn explore(&mut self, graph: &Graph, root: usize) -> Result<(), NoMemory>
        requires searched { IsSearched graph.now self.old.standing.items self.old.path.items self.old.todo.items self.old.segments.items self.old.finished }
        requires closed { IsClosed graph.now }
        requires idle { self.old.segments.items ≡ [] }
        requires root { root < length graph.now }
        requires unseen { standing_of self.old.standing.items root ≡ Standing.Unseen }
        ensures searched { OnOk result (IsSearched graph.now self.new.standing.items self.new.path.items self.new.todo.items self.new.segments.items self.new.finished) }
        ensures idle { OnOk result (self.new.segments.items ≡ []) }
        ensures seen { OnOk result (standing_of self.new.standing.items root ≡ Standing.Unseen → ⊥) }
        ensures stay { OnOk result (StaySeen self.old.standing.items self.new.standing.items) }
    {
        self.open_segment(graph, root)?;
        while !self.segments.is_empty() {
            self.step(graph)?;
        }
        Ok(())
    }

    /// Follows an edge of the last segment, or closes the segment.
    fn step(&mut self, graph: &Graph) -> Result<(), NoMemory>
        requires searched { IsSearched graph.now self.old.standing.items self.old.path.items self.old.todo.items self.old.segments.items self.old.finished }
        requires closed { IsClosed graph.now }
        requires busy { 0 < vec_len self.old.segments }
        ensures searched { OnOk result (IsSearched graph.now self.new.standing.items self.new.path.items self.new.todo.items self.new.segments.items self.new.finished) }
        ensures stay { OnOk result (StaySeen self.old.standing.items self.new.standing.items) }
        ensures less { OnOk result (work_left self.new.standing.items self.new.todo.items self.new.segments.items < work_left self.old.standing.items self.old.todo.items self.old.segments.items) }
    {
        let Some(target) = self.next_target(graph) else {
            self.close_segment(graph);
            return Ok(());
        };
        match self.standing(target) {
            Standing::Unseen => self.open_segment(graph, target)?,
            Standing::Open(place) => {
                if place < self.last_segment().path_from {
                    self.merge_segments(graph);
                } else {
                    self.skip_edge(graph);
                }
            }
            Standing::Done(_) => self.skip_edge(graph),
        }
        Ok(())
    }

    /// The target of the last segment's last edge that is still to be followed.
    fn next_target(&self, graph: &Graph) -> Option<usize>
        requires searched { IsSearched graph.now self.now.standing.items self.now.path.items self.now.todo.items self.now.segments.items self.now.finished }
        requires closed { IsClosed graph.now }
        requires busy { 0 < vec_len self.now.segments }
        ensures { MatchOption result (length self.now.todo.items ≡ todo_from self.now.segments.items (length self.now.segments.items - 1)) (λ target. IsNextTarget graph.now self.now.path.items self.now.todo.items self.now.segments.items target) }
    {
        let _count = graph.len();
        if self.todo.len() == self.last_segment().todo_from {
            return None;
        }
        Some(self.todo[self.todo.len() - 1])
    }

    fn last_segment(&self) -> Segment
        requires { 0 < vec_len self.now.segments }
        ensures { result ≡ get_or self.now.segments.items (length self.now.segments.items - 1) no_segment }
    {
        self.segments[self.segments.len() - 1]
    }

    /// How far the search has come with a node.
    fn standing(&self, node: usize) -> Standing
        requires { node < vec_len self.now.standing }
        ensures { result ≡ standing_of self.now.standing.items node }
    {
        self.standing[node]
    }

    /// A node that is seen for the first time goes on the path, as a segment of its own.
    fn open_segment(&mut self, graph: &Graph, node: usize) -> Result<(), NoMemory>
        requires searched { IsSearched graph.now self.old.standing.items self.old.path.items self.old.todo.items self.old.segments.items self.old.finished }
        requires node { node < length graph.now }
        requires unseen { standing_of self.old.standing.items node ≡ Standing.Unseen }
        requires reached { (p : ℕ) → p < length self.old.path.items → Path graph.now (node_at self.old.path.items p) node }
        ensures searched { OnOk result (IsSearched graph.now self.new.standing.items self.new.path.items self.new.todo.items self.new.segments.items self.new.finished) }
        ensures stay { OnOk result (StaySeen self.old.standing.items self.new.standing.items) }
        ensures seen { OnOk result (standing_of self.new.standing.items node ≡ Standing.Unseen → ⊥) }
        ensures less { OnOk result (work_left self.new.standing.items self.new.todo.items self.new.segments.items < work_left self.old.standing.items self.old.todo.items self.old.segments.items) }
    {
        let place = self.path.len();
        self.standing[node] = Standing::Open(place);
        self.path.push(node)?;
        self.segments.push(Segment {
            path_from: place,
            todo_from: self.todo.len(),
        })?;
        self.todo.extend_from_slice(graph.successors(node))?;
        Ok(())
    }

    /// The last segment joins the one before it, since an edge leads back to that or further.
    fn merge_segments(&mut self, graph: &Graph)
        requires searched { IsSearched graph.now self.old.standing.items self.old.path.items self.old.todo.items self.old.segments.items self.old.finished }
        requires busy { 0 < length self.old.segments.items }
        requires waiting { todo_from self.old.segments.items (length self.old.segments.items - 1) < length self.old.todo.items }
        requires back { (q : ℕ) × (standing_of self.old.standing.items (node_at self.old.todo.items (length self.old.todo.items - 1)) ≡ Standing.Open q) × (q < path_from self.old.segments.items (length self.old.segments.items - 1)) }
        ensures searched { IsSearched graph.now self.new.standing.items self.new.path.items self.new.todo.items self.new.segments.items self.new.finished }
        ensures same { self.new.standing ≡ self.old.standing }
        ensures less { work_left self.new.standing.items self.new.todo.items self.new.segments.items < work_left self.old.standing.items self.old.todo.items self.old.segments.items }
    {
        let _count = graph.len();
        self.segments.pop();
    }

    /// The last edge leads to a node that is done or in the last segment.
    fn skip_edge(&mut self, graph: &Graph)
        requires searched { IsSearched graph.now self.old.standing.items self.old.path.items self.old.todo.items self.old.segments.items self.old.finished }
        requires busy { 0 < length self.old.segments.items }
        requires waiting { todo_from self.old.segments.items (length self.old.segments.items - 1) < length self.old.todo.items }
        requires known { IsKnown self.old.standing.items (node_at self.old.todo.items (length self.old.todo.items - 1)) (path_from self.old.segments.items (length self.old.segments.items - 1)) }
        ensures searched { IsSearched graph.now self.new.standing.items self.new.path.items self.new.todo.items self.new.segments.items self.new.finished }
        ensures same { self.new.standing ≡ self.old.standing }
        ensures less { work_left self.new.standing.items self.new.todo.items self.new.segments.items < work_left self.old.standing.items self.old.todo.items self.old.segments.items }
    {
        let _count = graph.len();
        self.todo.pop();
    }

    /// The last segment has no edge left to follow: its nodes are a component.
    fn close_segment(&mut self, graph: &Graph)
        requires searched { IsSearched graph.now self.old.standing.items self.old.path.items self.old.todo.items self.old.segments.items self.old.finished }
        requires busy { 0 < length self.old.segments.items }
        requires no_edge { length self.old.todo.items ≡ todo_from self.old.segments.items (length self.old.segments.items - 1) }
        ensures searched { IsSearched graph.now self.new.standing.items self.new.path.items self.new.todo.items self.new.segments.items self.new.finished }
        ensures stay { StaySeen self.old.standing.items self.new.standing.items }
        ensures less { work_left self.new.standing.items self.new.todo.items self.new.segments.items < work_left self.old.standing.items self.old.todo.items self.old.segments.items }
    {
        let _count = graph.len();
        let from = self.segments[self.segments.len() - 1].path_from;
        finish(&mut self.standing, &self.path, from, self.finished);
        self.path.truncate(from);
        self.segments.pop();
        self.finished += 1;
    }
}

/// The nodes of the path from a place on are done.
fn finish(standing: &mut Vec<Standing>, path: &[usize], from: usize, number: usize)
    requires from { from ≤ length path.now }
    requires stands { (p : ℕ) → p < length path.now → standing_of standing.old.items (node_at path.now p) ≡ Standing.Open p }
    requires on_path { (v p : ℕ) → standing_of standing.old.items v ≡ Standing.Open p → (p < length path.now) × (node_at path.now p ≡ v) }
    ensures { IsDoneFrom standing.old.items standing.new.items from number }
{
    for place in from..path.len() {
        standing[path[place]] = Standing::Done(number);
    }
}
