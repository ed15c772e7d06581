//! Lists of numbers, each by a number of its own.

ghost use Rattle.std.specs.Prelude.{◌≡◌, ◌^◌, ◌<◌, ◌≤◌, [], length, IfOk};
ghost use Rattle.xd_moves.specs.Lists.{AddsList, HasNumber, KeepsLists, StandOnce};

use indexmap::IndexSet;
use std::alloc::Global;
use std::marker::Model;
use xd_doc::NoMemory;

/// Lists by their numbers, which count them in the order in which they were met first.
#[derive(Drop)]
pub(crate) struct Lists {
    lists: IndexSet<Vec<usize>>,
}

impl Model for Lists {
    ghost use Rattle.std.specs.Prelude.{List, ℕ};
    ghost use Rattle.xd_moves.specs.Lists.{StandOnce, lists_of};

    ghost Value = { List (List ℕ) };

    ghost view = { λ l. lists_of l.lists.keys };

    ghost invariant = { λ l. StandOnce (lists_of l.lists.keys) };
}

impl Lists {
    /// No list.
    pub(crate) fn new(alloc: Global) -> Self
        ensures { result ≡ [] }
    {
        Self {
            lists: IndexSet::new(alloc),
        }
    }

    /// How many there are.
    pub(crate) fn len(&self) -> usize
        ensures count { result ≡ length self.now }
        ensures small { result < 2 ^ 63 }
        ensures once { StandOnce self.now }
    {
        self.lists.len()
    }

    /// The number of a list. Equal lists get one number. Takes time linear in the list.
    pub(crate) fn number(&mut self, list: Vec<usize>) -> Result<usize, NoMemory>
        ensures number { IfOk result (HasNumber self.new list.items) }
        ensures within { IfOk result (λ number. number < length self.new) }
        ensures adds { IfOk result (AddsList self.old self.new) }
        ensures keeps { KeepsLists self.old self.new }
    {
        let (at, _) = self.lists.insert_full(list)?;
        let _count = self.lists.len();
        Ok(at)
    }
}
