//! The store: documents as nodes that are linked and shared.

ghost use Rattle.std.specs.Prelude.{true, not, ◌↔◌, List, IsSome, None, Some, ◌≡◌, ◌+◌, ◌<◌, ◌++◌, ◌∷◌, [], length, IfOk, OnErr, OnOk, IsTrue, slice_index_or, ◌≤◌, vec_len};
ghost use Rattle.std.specs.BinaryHeap.{KeepsHeap, heap_items};
ghost use Rattle.std.specs.List.Sorted.{IsPermutation};
ghost use Rattle.std.specs.Option.{option_copied, option_to_list};
ghost use Rattle.std.specs.Ordering.{nat_cmp};
ghost use Rattle.xd_doc.specs.Document.{Document, empty, text as text_before, element, is_proper, has_item, join, size};
ghost use Rattle.xd_doc.specs.DocumentCode.{rest_of, content_of, first_then, breadth};
ghost use Rattle.xd_doc.specs.StoreNodes.{IsLinked, IsBare, documents, AreLinked, IsMet, AreClosed, item_before, copy_at, IsSpine, node_document, no_items, place_in_store, is_proper_item, Keeps, IsOlder, first_of_document, joined_at, breadth_before_last};
ghost use Rattle.xd_doc.specs.Stored.{at_node, document_at};
ghost use Rattle.xd_doc.specs.StoredSeq.{IsBelow, BelongsTo};
ghost use Rattle.std.specs.List.{AllByRecursion};

use crate::error::NoMemory;
use crate::label::Label;
use crate::link::Link;
use crate::text::Text;
use std::alloc::Global;
use std::collections::{BinaryHeap, HashMap};
use std::marker::Model;

/// What one item of a document is: a text, or an element with this label.
///
/// An element's content is no part of it: [`Store::content`] gives that.
#[derive(Debug, Drop)]
pub enum Item {
    /// A text.
    Text(Text),
    /// An element with this label.
    Elem(Label),
}

/// A document of a store: the empty one, or the one that begins at a node.
///
/// It means something only beside the store that it came from. Two are equal where both are empty
/// or begin at the same node; equal documents may well begin at different nodes.
#[derive(Clone, Copy, Debug, PartialEq, Eq)]
pub struct Seq {
    node: Option<usize>,
}

/// An item, the content of an element, and what follows.
#[derive(Debug, Drop)]
struct Node {
    item: Item,
    content: Link,
    next: Link,
}

/// Documents, kept as nodes in one vector.
///
/// Contracts see a store as the list of the documents that begin at its nodes, oldest first.
/// A node links older nodes only, so it stands for one finite document for good, documents may
/// share their contents and rests, and dropping a store never recurses.
#[derive(Debug, Drop)]
pub struct Store {
    nodes: Vec<Node>,
}

impl Model for Store {
    ghost use Rattle.std.specs.Prelude.{List, []};
    ghost use Rattle.xd_doc.specs.Document.{Document};
    ghost use Rattle.xd_doc.specs.DocumentCode.{document_code};

    ghost Value = { List Document };

    ghost use Rattle.std.specs.Coded.{coded_list};

    ghost coded = { coded_list document_code };

    ghost use Rattle.xd_doc.specs.StoreNodes.{documents, AreLinked};

    ghost view = { λ s. documents s.nodes.items };

    ghost invariant = { λ s. AreLinked [] s.nodes.items };
}

impl Seq {
    /// The empty document. It belongs to every store.
    pub fn empty() -> Self
        ensures { result ≡ no_items }
    {
        Self { node: None }
    }

    /// The document that begins at this node, or the empty one.
    pub(crate) fn begun_at(node: Option<usize>) -> Self
        ensures { result.node ≡ node }
    {
        Self { node }
    }

    /// Whether it is the empty document.
    pub fn is_empty(self) -> bool
        ensures { (ds : List Document) → BelongsTo ds self → result ≡ not (has_item (document_at ds self)) }
    {
        self.node.is_none()
    }

    /// Whether the other begins at the same node.
    fn is_same(self, other: Self) -> bool
        ensures { result ≡ true → self ≡ other }
    {
        match (self.node, other.node) {
            (None, None) => true,
            (Some(one), Some(two)) => one == two,
            _ => false,
        }
    }

    /// The number of the node where it begins, from 0; `None` for the empty document.
    ///
    /// [`Store::at`] is the way back.
    pub fn place(self) -> Option<usize>
        ensures { result ≡ place_in_store self }
    {
        self.node
    }
}

impl Store {
    /// A store with no node. It takes no memory.
    pub fn new(alloc: Global) -> Self
        ensures { result ≡ [] }
    {
        Self {
            nodes: Vec::new(alloc),
        }
    }

    /// The number of nodes.
    pub fn len(&self) -> usize
        ensures { result ≡ length self.now }
    {
        self.nodes.len()
    }

    /// The document that begins at the node of this number, from 0.
    pub fn at(&self, number: usize) -> Seq
        requires { number < length self.now }
        ensures place { place_in_store result ≡ Some number }
        ensures document { document_at self.now result ≡ slice_index_or self.now number empty }
        ensures belongs { BelongsTo self.now result }
    {
        let _node = &self.nodes[number];
        Seq { node: Some(number) }
    }
}

impl Store {
    /// The text followed by `next`.
    /// After `NoMemory` the store is as it was.
    pub fn text_node(&mut self, text: Text, next: Seq) -> Result<Seq, NoMemory>
        requires { BelongsTo self.old next }
        ensures ok { IfOk result (λ seq. document_at self.new seq ≡ text_before text (document_at self.old next)) }
        ensures belongs { IfOk result (BelongsTo self.new) }
        ensures grown { OnOk result (self.new ≡ self.old ++ text_before text (document_at self.old next) ∷ []) }
        ensures keeps { Keeps self.old self.new }
        ensures err { OnErr result (self.new ≡ self.old) }
    {
        let _spelled = text.as_str();
        let node = Node {
            item: Item::Text(text),
            content: Link::none(),
            next: self.link(next),
        };
        self.push_node(node)
    }

    /// The element followed by `next`.
    /// After `NoMemory` the store is as it was.
    pub fn elem_node(&mut self, label: Label, content: Seq, next: Seq) -> Result<Seq, NoMemory>
        requires content { BelongsTo self.old content }
        requires next { BelongsTo self.old next }
        ensures ok { IfOk result (λ seq. document_at self.new seq ≡ element label (document_at self.old content) (document_at self.old next)) }
        ensures belongs { IfOk result (BelongsTo self.new) }
        ensures grown { OnOk result (self.new ≡ self.old ++ element label (document_at self.old content) (document_at self.old next) ∷ []) }
        ensures keeps { Keeps self.old self.new }
        ensures err { OnErr result (self.new ≡ self.old) }
    {
        let _spelled = label.as_str();
        let node = Node {
            item: Item::Elem(label),
            content: self.link(content),
            next: self.link(next),
        };
        self.push_node(node)
    }

    /// The link to a document of the store.
    fn link(&self, seq: Seq) -> Link
        requires { BelongsTo self.now seq }
        ensures { result ≡ seq }
    {
        let _len = self.nodes.len();
        Link::new(seq)
    }

    fn push_node(&mut self, node: Node) -> Result<Seq, NoMemory>
        requires { IsLinked self.old node }
        ensures ok { IfOk result (λ seq. document_at self.new seq ≡ node_document self.old node) }
        ensures belongs { IfOk result (BelongsTo self.new) }
        ensures grown { OnOk result (self.new ≡ self.old ++ node_document self.old node ∷ []) }
        ensures keeps { Keeps self.old self.new }
        ensures err { OnErr result (self.new ≡ self.old) }
    {
        let place = self.nodes.len();
        self.nodes.push(node)?;
        Ok(Seq { node: Some(place) })
    }

    /// The first item.
    pub fn first(&self, seq: Seq) -> Option<&Item>
        requires { BelongsTo self.now seq }
        ensures { option_copied result ≡ first_of_document (document_at self.now seq) }
    {
        match seq.node {
            None => None,
            Some(place) => Some(&self.nodes[place].item),
        }
    }

    /// What follows the first item.
    pub fn next(&self, seq: Seq) -> Seq
        requires { BelongsTo self.now seq }
        ensures rest { document_at self.now result ≡ rest_of (document_at self.now seq) }
        ensures belongs { BelongsTo self.now result }
        ensures older { IsOlder result seq }
    {
        match seq.node {
            None => Seq::empty(),
            Some(place) => self.nodes[place].next.seq(),
        }
    }

    /// The content of the first item.
    pub fn content(&self, seq: Seq) -> Seq
        requires { BelongsTo self.now seq }
        ensures inner { document_at self.now result ≡ content_of (document_at self.now seq) }
        ensures belongs { BelongsTo self.now result }
        ensures older { IsOlder result seq }
    {
        match seq.node {
            None => Seq::empty(),
            Some(place) => {
                let node = &self.nodes[place];
                match &node.item {
                    Item::Text(_) => Seq::empty(),
                    Item::Elem(_) => node.content.seq(),
                }
            }
        }
    }
}

impl Item {
    /// An equal item.
    fn share(&self) -> Result<Self, NoMemory>
        ensures { IfOk result (λ item. item ≡ self.now) }
    {
        match self {
            Item::Text(text) => Ok(Item::Text(text.share()?)),
            Item::Elem(label) => Ok(Item::Elem(label.share()?)),
        }
    }
}

impl Store {
    /// The first document, and after it the second, whose nodes it shares. It makes at most as
    /// many nodes as the first one has items of its own. After `NoMemory` all documents of the
    /// store are as they were.
    pub fn append(&mut self, front: Seq, back: Seq) -> Result<Seq, NoMemory>
        requires front { BelongsTo self.old front }
        requires back { BelongsTo self.old back }
        ensures ok { IfOk result (λ seq. document_at self.new seq ≡ join (document_at self.old front) (document_at self.old back)) }
        ensures belongs { IfOk result (BelongsTo self.new) }
        ensures keeps { Keeps self.old self.new }
        ensures few { length self.new ≤ length self.old + breadth (document_at self.old front) }
    {
        let mut spine = self.spine(front)?;
        let mut made = back;
        while let Some(seq) = spine.pop() {
            made = self.first_before(seq, made)?;
        }
        Ok(made)
    }

    /// The documents, one after the other. It shares the nodes of the last, and makes at most as
    /// many as the others have items of their own. After `NoMemory` all documents of the store are
    /// as they were.
    pub fn join(&mut self, parts: &[Seq]) -> Result<Seq, NoMemory>
        requires { AllByRecursion (BelongsTo self.old) parts.now }
        ensures ok { IfOk result (λ seq. document_at self.new seq ≡ joined_at self.old parts.now) }
        ensures belongs { IfOk result (BelongsTo self.new) }
        ensures keeps { Keeps self.old self.new }
        ensures few { length self.new ≤ length self.old + breadth_before_last self.old parts.now }
    {
        let mut left = parts.len();
        if left == 0 {
            return Ok(Seq::empty());
        }
        left -= 1;
        let mut made = parts[left];
        while left > 0 {
            left -= 1;
            made = self.append(parts[left], made)?;
        }
        Ok(made)
    }

    /// The nodes of a document's own items.
    fn spine(&self, seq: Seq) -> Result<Vec<Seq>, NoMemory>
        requires { BelongsTo self.now seq }
        ensures { IfOk result (λ spine. IsSpine self.now seq spine.items) }
    {
        let mut spine = Vec::new(*self.nodes.allocator());
        let mut rest = seq;
        while !rest.is_empty() {
            spine.push(rest)?;
            rest = self.next(rest);
        }
        Ok(spine)
    }

    /// The first item of `seq`, followed by `next`. Where `next` is what follows that item anyway,
    /// this is `seq` itself. After `NoMemory` the store is as it was.
    pub fn first_before(&mut self, seq: Seq, next: Seq) -> Result<Seq, NoMemory>
        requires seq { BelongsTo self.old seq }
        requires next { BelongsTo self.old next }
        ensures ok { IfOk result (λ made. document_at self.new made ≡ first_then (document_at self.old seq) (document_at self.old next)) }
        ensures belongs { IfOk result (BelongsTo self.new) }
        ensures keeps { Keeps self.old self.new }
        ensures one { length self.new ≤ length self.old + 1 }
    {
        let Some(place) = seq.node else {
            return Ok(next);
        };
        if self.next(seq).is_same(next) {
            return Ok(seq);
        }
        let node = &self.nodes[place];
        let copy = Node {
            item: node.item.share()?,
            content: node.content,
            next: self.link(next),
        };
        self.push_node(copy)
    }

    /// The same document in another store.
    ///
    /// It copies the n nodes that the document reaches, each once, so contents and rests that are
    /// shared stay shared; while it works it keeps a number for each of them. After `NoMemory` the
    /// other store's documents are as they were.
    pub fn copy_out(&self, alloc: Global, seq: Seq, into: &mut Store) -> Result<Seq, NoMemory>
        requires { BelongsTo self.now seq }
        ensures ok { IfOk result (λ copy. document_at into.new copy ≡ document_at self.now seq) }
        ensures belongs { IfOk result (BelongsTo into.new) }
        ensures keeps { Keeps into.old into.new }
        ensures once { length into.new ≤ length into.old + length self.now }
        ensures few { length into.new ≤ length into.old + size (document_at self.now seq) }
    {
        let nodes = &self.nodes;
        let mut reached = reached_from(alloc, nodes, seq)?;
        let mut copies = HashMap::with_capacity(alloc, reached.len())?;
        while let Some(place) = reached.pop() {
            let copy = copy_node(&nodes[place], &copies, into)?;
            copies.insert(place, copy)?;
        }
        Ok(copy_of(&copies, seq))
    }
}

/// The places of the nodes that a document reaches, each once, the greatest first.
///
/// Links name older nodes, so the greatest place that still waits is met for the last time.
fn reached_from(alloc: Global, nodes: &Vec<Node>, seq: Seq) -> Result<Vec<usize>, NoMemory>
    requires place { IsBelow (vec_len nodes.now) seq.node }
    requires linked { AreLinked [] nodes.now.items }
    ensures start { IfOk result (λ reached. IsMet (λ _. ⊥) reached.items seq.node) }
    ensures closed { IfOk result (λ reached. AreClosed nodes.now.items (λ _. ⊥) reached.items) }
    ensures once { IfOk result (λ reached. vec_len reached ≤ vec_len nodes.now) }
    ensures few { IfOk result (λ reached. vec_len reached ≤ size (at_node (documents nodes.now.items) seq.node)) }
{
    let mut reached = Vec::new(alloc);
    let mut above = nodes.len();
    let mut waiting = BinaryHeap::new(alloc);
    wait_for(&mut waiting, seq)?;
    while let Some(place) = waiting.pop() {
        if place < above {
            above = place;
            reached.push(place)?;
            let node = &nodes[place];
            wait_for(&mut waiting, node.content.seq())?;
            wait_for(&mut waiting, node.next.seq())?;
        }
    }
    Ok(reached)
}

/// Adds the place of the link, if it has one.
fn wait_for(waiting: &mut BinaryHeap<usize>, link: Seq) -> Result<(), NoMemory>
    ensures places { OnOk result (IsPermutation (option_to_list link.node ++ heap_items waiting.old) (heap_items waiting.new)) }
    ensures heap { OnOk result (KeepsHeap nat_cmp (heap_items waiting.old) (heap_items waiting.new)) }
{
    if let Some(place) = link.node {
        waiting.push(place)?;
    }
    Ok(())
}

/// A node in another store, where the copies of its links are known.
fn copy_node(node: &Node, copies: &HashMap<usize, Seq>, into: &mut Store) -> Result<Seq, NoMemory>
    requires item { is_proper_item node.now.item ≡ true }
    requires content { BelongsTo into.old (copy_at copies.now node.now.content.node) }
    requires next { BelongsTo into.old (copy_at copies.now node.now.next.node) }
    requires bare { IsBare node.now.item node.now.content }
    ensures ok { IfOk result (λ copy. document_at into.new copy ≡ item_before node.now.item (document_at into.old (copy_at copies.now node.now.content.node)) (document_at into.old (copy_at copies.now node.now.next.node))) }
    ensures belongs { IfOk result (BelongsTo into.new) }
    ensures keeps { Keeps into.old into.new }
    ensures one { length into.new ≤ length into.old + 1 }
    ensures err { OnErr result (into.new ≡ into.old) }
{
    let copy = Node {
        item: node.item.share()?,
        content: into.link(copy_of(copies, node.content.seq())),
        next: into.link(copy_of(copies, node.next.seq())),
    };
    into.push_node(copy)
}

fn copy_of(copies: &HashMap<usize, Seq>, link: Seq) -> Seq
    ensures { result ≡ copy_at copies.now link.node }
{
    link.node
        .and_then(|place| copies.get(&place).copied())
        .unwrap_or(Seq::empty())
}
