//! Names in order, or all but these: what classes of labels and classes of texts share.

ghost use Rattle.std.specs.Prelude.{◌≡◌, ◌<◌, ◌⊎◌, [], Bool, true, not, cond, drop, length, None, IfOk, IfSome, vec_len};
ghost use Rattle.std.specs.List.{list_any};
ghost use Rattle.std.specs.List.Sorted.{IsStrictlySortedBy};
ghost use Rattle.xd_doc.specs.ClassForms.{AreClassNames};
ghost use Rattle.xd_doc.specs.Merging.{IsCommon, IsMerged, IsNext, is_kept};

use crate::error::NoMemory;
use std::cmp::Ordering;
use std::rc::Rc;

/// What a class names: a label or a text.
pub(crate) trait Name: Ord + Drop {
    /// Whether it is one.
    ghost is_name: { Self → Bool };

    /// An equal name.
    fn share(&self) -> Result<Self, NoMemory>
        ensures { IfOk result (λ name. name ≡ self.now) };

    /// That it is one. The call is for the proof alone.
    fn see(&self)
        ensures { is_name self.now ≡ true };
}

/// Names in order, each once, and whether they are excepted. Equal classes may have one list of
/// names.
#[derive(Debug, Drop)]
pub(crate) struct Names<N> {
    pub(crate) names: Rc<Vec<N>>,
    pub(crate) except: bool,
}

impl<N: Name> Names<N> {
    /// These names, in any order and with repeats.
    pub(crate) fn new(names: Vec<N>, except: bool) -> Result<Self, NoMemory>
        requires { (0 < vec_len names) ⊎ (except ≡ true) }
        ensures named { IfOk result (λ made. (x : N) → list_any (λ name. N.eq name x) made.names.value.items ≡ list_any (λ name. N.eq name x) names.items) }
        ensures except { IfOk result (λ made. made.except ≡ except) }
        ensures valid { IfOk result (λ made. AreClassNames N.is_name N.cmp made.names.value.items made.except) }
    {
        let mut names = names;
        names.sort()?;
        names.dedup();
        for name in &names {
            name.see();
        }
        let names = Rc::new(*names.allocator(), names)?;
        Ok(Self { names, except })
    }

    /// Whether the name is in the class, by bisection.
    pub(crate) fn has(&self, name: &N) -> bool
        requires { AreClassNames N.is_name N.cmp self.now.names.value.items self.now.except }
        ensures { let named = list_any (λ n. N.eq n name.now) self.now.names.value.items in result ≡ cond self.now.except (not named) named }
    {
        self.names.binary_search(name).is_ok() != self.except
    }

    /// The same class, over the same list of names.
    pub(crate) fn share(&self) -> Result<Self, NoMemory>
        ensures names { IfOk result (λ copy. copy.names.value.items ≡ self.now.names.value.items) }
        ensures except { IfOk result (λ copy. copy.except ≡ self.now.except) }
    {
        let names = self.names.clone()?;
        Ok(Self {
            names,
            except: self.except,
        })
    }

    /// What both classes have, or `None` where that is nothing.
    pub(crate) fn meet(&self, other: &Self) -> Result<Option<Self>, NoMemory>
        requires one { AreClassNames N.is_name N.cmp self.now.names.value.items self.now.except }
        requires two { AreClassNames N.is_name N.cmp other.now.names.value.items other.now.except }
        ensures { IfOk result (IsCommon N.is_name N.cmp N.eq self.now other.now.names.value.items other.now.except) }
    {
        self.common(&other.names, other.except)
    }

    /// What this class has and the other one hasn't, or `None` where that is nothing.
    pub(crate) fn without(&self, other: &Self) -> Result<Option<Self>, NoMemory>
        requires one { AreClassNames N.is_name N.cmp self.now.names.value.items self.now.except }
        requires two { AreClassNames N.is_name N.cmp other.now.names.value.items other.now.except }
        ensures { IfOk result (IsCommon N.is_name N.cmp N.eq self.now other.now.names.value.items (not other.now.except)) }
    {
        self.common(&other.names, !other.except)
    }

    /// What this class has and is among these names, or isn't where `except` is true.
    fn common(&self, others: &[N], except: bool) -> Result<Option<Self>, NoMemory>
        requires one { AreClassNames N.is_name N.cmp self.now.names.value.items self.now.except }
        requires two { IsStrictlySortedBy N.cmp others.now }
        ensures { IfOk result (IsCommon N.is_name N.cmp N.eq self.now others.now except) }
    {
        let names = self.merge(others, except)?;
        let except = self.except && except;
        if names.is_empty() && !except {
            return Ok(None);
        }
        let names = Rc::new(*names.allocator(), names)?;
        Ok(Some(Self { names, except }))
    }

    /// The names of that class, by one walk along both lists.
    fn merge(&self, others: &[N], except: bool) -> Result<Vec<N>, NoMemory>
        requires one { IsStrictlySortedBy N.cmp self.now.names.value.items }
        requires two { IsStrictlySortedBy N.cmp others.now }
        ensures { IfOk result (λ made. IsMerged N.is_name N.cmp N.eq self.now.except except self.now.names.value.items others.now made.items) }
    {
        let mut kept = Vec::new(*self.names.allocator());
        let mut one = self.names.as_slice();
        let mut two = others;
        while let Some(next) = next_of(one, two) {
            if is_kept(self.except, except, next.in_one, next.in_two) {
                kept.push(next.name.share()?)?;
            }
            one = rest(one, next.in_one);
            two = rest(two, next.in_two);
        }
        Ok(kept)
    }
}

/// The least name of two lists, and which of them it stands in.
#[derive(Drop)]
struct Next<'n, N> {
    name: &'n N,
    in_one: bool,
    in_two: bool,
}

/// The next name of two lists in order, or `None` at the end of both.
fn next_of<'n, N: Name>(one: &'n [N], two: &'n [N]) -> Option<Next<'n, N>>
    requires one { IsStrictlySortedBy N.cmp one.now }
    requires two { IsStrictlySortedBy N.cmp two.now }
    ensures some { IfSome result (λ next. IsNext N.is_name N.cmp one.now two.now next.name.now next.in_one next.in_two) }
    ensures none { result ≡ None → (one.now ≡ []) × (two.now ≡ []) }
{
    let (name, in_one, in_two) = match (one.first(), two.first()) {
        (None, None) => return None,
        (Some(name), None) => (name, true, false),
        (None, Some(name)) => (name, false, true),
        (Some(name), Some(other)) => match name.cmp(other) {
            Ordering::Less => (name, true, false),
            Ordering::Equal => (name, true, true),
            Ordering::Greater => (other, false, true),
        },
    };
    name.see();
    Some(Next {
        name,
        in_one,
        in_two,
    })
}

/// Whether a name that one or both of two classes name is named by the class of what they have in
/// common: where it is in both, or, if both except their names, where it isn't.
fn is_kept(except: bool, other_except: bool, in_one: bool, in_two: bool) -> bool
    ensures { result ≡ is_kept except other_except in_one in_two }
{
    let in_both = in_one != except && in_two != other_except;
    in_both != (except && other_except)
}

/// The names after the first, or all of them where that isn't taken.
fn rest<N>(names: &[N], taken: bool) -> &[N]
    requires { taken ≡ true → 0 < length names.now }
    ensures { result.now ≡ cond taken (drop 1 names.now) names.now }
{
    if taken { &names[1..] } else { names }
}
