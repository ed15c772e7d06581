//! Numbers of nodes that wait to be met.

ghost use Rattle.std.specs.Prelude.{◌≡◌, ◌-◌, ◌<◌, ◌≤◌, [], ◌∷◌, ◌++◌, true, false, length, slice_index, OnOk};
ghost use Rattle.std.specs.Option.{IfNone, IfSome};
ghost use Rattle.std.specs.List.{All};
ghost use Rattle.std.specs.List.Sorted.{IsNonDecreasing, IsPermutation};
ghost use Rattle.xd_syntax.specs.Types.{type_numbers};

use std::alloc::Global;
use std::collections::BinaryHeap;
use std::marker::Model;
use xd_doc::NoMemory;
use xd_syntax::TypeId;

/// Numbers that wait, of which the greatest is taken first.
///
/// A number that is no smaller than those before it takes one step. The others take log n steps.
#[derive(Drop)]
pub(crate) struct Waiting {
    /// None is smaller than one before it.
    rising: Vec<usize>,
    /// Those that were smaller than the last of these when they came.
    others: BinaryHeap<usize>,
}

impl Model for Waiting {
    ghost use Rattle.std.specs.Prelude.{ℕ, List, ◌++◌};
    ghost use Rattle.std.specs.BinaryHeap.{IsHeap, heap_items};
    ghost use Rattle.std.specs.List.Sorted.{IsNonDecreasing};
    ghost use Rattle.std.specs.Ordering.{nat_cmp};

    ghost Value = { List ℕ };

    ghost view = { λ w. w.rising.items ++ heap_items w.others };

    ghost invariant = { λ w. IsNonDecreasing w.rising.items × IsHeap nat_cmp (heap_items w.others) };
}

impl Waiting {
    pub(crate) fn new(alloc: Global) -> Self
        ensures { result ≡ [] }
    {
        Self {
            rising: Vec::new(alloc),
            others: BinaryHeap::new(alloc),
        }
    }

    pub(crate) fn push(&mut self, number: usize) -> Result<(), NoMemory>
        ensures { OnOk result (IsPermutation (self.old ++ number ∷ []) self.new) }
    {
        if ends_above(&self.rising, number) {
            self.others.push(number)?;
            return Ok(());
        }
        self.rising.push(number)?;
        Ok(())
    }

    /// Adds the numbers of these nodes.
    pub(crate) fn push_all(&mut self, parts: &[TypeId]) -> Result<(), NoMemory>
        ensures { OnOk result (IsPermutation (self.old ++ type_numbers parts.now) self.new) }
    {
        for part in parts {
            self.push(part.at())?;
        }
        Ok(())
    }

    /// Takes the greatest.
    pub(crate) fn pop(&mut self) -> Option<usize>
        ensures taken { IfSome result (λ top. IsPermutation self.old (top ∷ self.new)) }
        ensures greatest { IfSome result (λ top. All (λ y. y ≤ top) self.new) }
        ensures none { IfNone result (self.old ≡ []) }
    {
        match self.others.peek().copied() {
            Some(top) => {
                if ends_above(&self.rising, top) {
                    self.rising.pop()
                } else {
                    self.others.pop()
                }
            }
            None => self.rising.pop(),
        }
    }
}

/// Whether the last of these, which is the greatest, is greater than the number.
fn ends_above(rising: &[usize], number: usize) -> bool
    requires { IsNonDecreasing rising.now }
    ensures above { result ≡ true → number < slice_index rising.now (length rising.now - 1) }
    ensures below { result ≡ false → All (λ y. y ≤ number) rising.now }
{
    match rising.last() {
        Some(last) => number < *last,
        None => false,
    }
}
