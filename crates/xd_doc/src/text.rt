//! Texts that are shared.

ghost use Rattle.std.specs.Prelude.{◌≡◌, ◌≤◌, true, IfOk, nat_eq, slice_range, Some};
ghost use Rattle.std.specs.Str.{is_utf8, IsCharBoundary};
ghost use Rattle.std.specs.Ordering.{nat_cmp};
ghost use Rattle.std.specs.Hash as fed;
ghost use Rattle.std.specs.Cmp.Lexicographic.{pointwise, slice_cmp, nat_list_eq_equiv, nat_list_cmp_total, texts_ties, texts_po};
ghost use Rattle.std.specs.Cmp.{partial_equiv_from_equiv};
ghost use Rattle.std.specs.Cmp.Rules.{hashing};
ghost use Rattle.std.proofs.Common.{refl, rules};

use crate::error::NoMemory;
use crate::names::Name;
use std::alloc::Global;
use std::cmp::Ordering;
use std::fmt;
use std::hash::{Hash, Hasher};
use std::marker::Model;
use std::rc::RcStr;

/// A text that is shared. Contracts see it as the bytes of its UTF-8.
///
/// Texts are equal, ordered and hashed by their bytes. Many may be parts of one block of memory.
#[derive(Drop)]
pub struct Text {
    block: RcStr,
    start: usize,
    end: usize,
}

impl Model for Text {
    ghost use Rattle.std.specs.Prelude.{List, ℕ, ◌≤◌, slice_range};
    ghost use Rattle.std.specs.Rc.{rc_str_bytes};
    ghost use Rattle.std.specs.Str.{IsCharBoundary};

    ghost Value = { List ℕ };

    ghost view = { λ t. slice_range (rc_str_bytes t.block) t.start t.end };

    ghost invariant = { λ t. (t.start ≤ t.end) × IsCharBoundary (rc_str_bytes t.block) t.start × IsCharBoundary (rc_str_bytes t.block) t.end };
}

impl Text {
    /// A text of these characters.
    /// `NoMemory` where there is no room for them.
    pub fn new(alloc: Global, text: &str) -> Result<Self, NoMemory>
        ensures { IfOk result (λ made. made ≡ text.now) }
    {
        let block = RcStr::from_str(alloc, text)?;
        Ok(Self {
            block,
            start: 0,
            end: text.len(),
        })
    }

    /// The part from byte `start` to byte `end`, in the same block of memory.
    pub fn part(&self, start: usize, end: usize) -> Result<Self, NoMemory>
        requires order { start ≤ end }
        requires start_boundary { IsCharBoundary self.now start }
        requires end_boundary { IsCharBoundary self.now end }
        ensures { IfOk result (λ made. made ≡ slice_range self.now start end) }
    {
        let block = self.block.clone()?;
        Ok(Self {
            block,
            start: self.start + start,
            end: self.start + end,
        })
    }

    /// Its characters.
    pub fn as_str(&self) -> &str
        ensures bytes { result.now ≡ self.now }
        ensures text { is_utf8 self.now ≡ true }
    {
        &self.block.as_str()[self.start..self.end]
    }

    /// An equal text, which shares the characters. `NoMemory` is an answer of its type; the
    /// characters are not copied.
    pub fn share(&self) -> Result<Self, NoMemory>
        ensures { IfOk result (λ text. text ≡ self.now) }
    {
        let block = self.block.clone()?;
        Ok(Self {
            block,
            start: self.start,
            end: self.end,
        })
    }
}

impl PartialEq for Text {
    ghost eq = { λ x y. pointwise nat_eq x y };

    ghost laws = { partial_equiv_from_equiv nat_list_eq_equiv };

    fn eq(&self, other: &Self) -> bool {
        self.as_str() == other.as_str()
    }
}

impl Eq for Text {
    ghost laws = { nat_list_eq_equiv };
}

impl PartialOrd for Text {
    ghost partial_cmp = { λ x y. Some (slice_cmp nat_cmp x y) };

    ghost laws = { texts_po };

    fn partial_cmp(&self, other: &Self) -> Option<Ordering> {
        Some(self.cmp(other))
    }
}

impl Ord for Text {
    ghost cmp = { λ x y. slice_cmp nat_cmp x y };

    ghost total = { nat_list_cmp_total };

    ghost matches_partial_cmp = { λ x y. refl };

    ghost matches_eq = { λ x y. texts_ties x y };

    fn cmp(&self, other: &Self) -> Ordering {
        self.as_str().cmp(other.as_str())
    }
}

impl Hash for Text {
    ghost hash_input = { λ l. fed.str l };

    ghost respects_eq = { Prim.search (hashing, rules) };

    fn hash<H: Hasher>(&self, state: &mut H) {
        self.as_str().hash(state);
    }
}

impl fmt::Debug for Text {
    fn fmt<W: fmt::Write>(&self, f: &mut fmt::Formatter<W>) -> fmt::Result {
        let text = self.as_str();
        write!(f, "{text:?}")
    }
}

impl Name for Text {
    ghost is_name = { is_utf8 };

    fn share(&self) -> Result<Self, NoMemory> {
        Text::share(self)
    }

    fn see(&self) {
        let _bytes = self.as_str();
    }
}
