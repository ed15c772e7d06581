//! Interned lists.

ghost use Rattle.std.specs.Prelude.{◌≡◌, ◌+◌, ◌<◌, ◌≤◌, [], ◌∷◌, ◌++◌, ◌/◌, length, true, IfOk, OnErr};
ghost use Rattle.std.specs.Cmp.{unsigned_Decides};
ghost use Rattle.std.specs.Cmp.Rules.{comparing, hashing};
ghost use Rattle.std.specs.Hash.{usize};
ghost use Rattle.std.proofs.Common.{rules};
ghost use Rattle.xd_doc.specs.Members.{IsOneOf};
ghost use Rattle.xd_continuations.specs.Chains.{AreLinks, HasLink, list_at};

use indexmap::IndexSet;
use std::alloc::Global;
use std::hash::{Hash, Hasher};
use std::marker::Model;
use xd_doc::NoMemory;

/// An item, and the number of the list after it.
#[derive(Clone, Copy, Debug, PartialEq, Eq)]
pub struct Link<T> {
    pub item: T,
    pub behind: usize,
}

impl<T: Hash> Hash for Link<T> {
    ghost hash_input = { λ l. T.hash_input l.item ++ usize (l.behind / 4) };

    ghost respects_eq = { Prim.search (hashing, rules) };

    // Four lists that were made one after the other share a hash: a long list, made from its end,
    // then looks at a quarter of the places of the table.
    fn hash<H: Hasher>(&self, state: &mut H) {
        self.item.hash(state);
        (self.behind / 4).hash(state);
    }
}

/// What interned lists are of: equal items are the same.
pub trait Internable: Copy + Eq + Hash {
    ghost exact: { (a b : Self) → Self.eq a b ≡ true → a ≡ b };
}

impl Internable for usize {
    ghost exact = { λ a b. (unsigned_Decides a b).0 };
}

/// Lists by their numbers: 0 is the empty one, and each other one is an item before an older one.
#[derive(Drop)]
pub struct Interned<T: Internable> {
    links: IndexSet<Link<T>>,
}

impl<T: Internable> Model for Interned<T> {
    ghost use Rattle.std.specs.Prelude.{List};
    ghost use Rattle.xd_continuations.specs.declared.links.Link.{Link};
    ghost use Rattle.xd_continuations.specs.Chains.{AreLinks};

    ghost Value = { List (Link T) };

    ghost view = { λ s. s.links.keys };

    ghost invariant = { λ s. AreLinks s.links.keys };
}

impl<T: Internable> Interned<T> {
    /// The empty list alone.
    pub fn new(alloc: Global) -> Self
        ensures { result ≡ [] }
    {
        Self {
            links: IndexSet::new(alloc),
        }
    }

    /// The number of lists but the empty one.
    pub fn len(&self) -> usize
        ensures count { result ≡ length self.now }
        ensures links { AreLinks self.now }
    {
        self.links.len()
    }

    /// Makes room for so many more lists at once. Fails only where memory is refused; the lists are
    /// the same either way.
    pub fn reserve(&mut self, additional: usize) -> Result<(), NoMemory>
        ensures { self.new ≡ self.old }
    {
        self.links.reserve(additional)?;
        Ok(())
    }

    /// The number of the list of an item before another list. Fails only where memory is refused;
    /// the lists are as they were then.
    pub fn put(&mut self, item: T, behind: usize) -> Result<usize, NoMemory>
        requires { behind ≤ length self.old }
        ensures within { IfOk result (λ number. (0 < number) × (number ≤ length self.new)) }
        ensures list { IfOk result (λ number. list_at self.new number ≡ item ∷ list_at self.old behind) }
        ensures links { IfOk result (λ _. HasLink self.old (record { item = item; behind = behind }) self.new) }
        ensures err { OnErr result (self.new ≡ self.old) }
    {
        let (at, _) = self.links.insert_full(Link { item, behind })?;
        let _count = self.links.len();
        Ok(at + 1)
    }

    /// The first item of a list, and the list after it.
    pub fn link(&self, number: usize) -> Link<T>
        requires some { 0 < number }
        requires within { number ≤ length self.now }
        ensures older { result.behind < number }
        ensures stands { IsOneOf result self.now }
        ensures list { list_at self.now number ≡ result.item ∷ list_at self.now result.behind }
    {
        self.links.as_slice()[number - 1]
    }
}
