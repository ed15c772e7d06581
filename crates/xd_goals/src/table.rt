//! The table of goals, as its readers see it.

ghost use Rattle.std.specs.Prelude.{◌≡◌, ◌<◌, [], length, Some, slice_get};
ghost use Rattle.std.specs.List.{AllByRecursion};
ghost use Rattle.std.specs.Option.{IfSome};
ghost use Rattle.xd_doc.specs.StoredSeq.{IsBelow};
ghost use Rattle.xd_goals.specs.Rows.{HasRoot, NodeStands, no_view, row_at};

use crate::goals::Goals;
use std::alloc::Global;
use std::marker::Model;
use xd_auto::State;
use xd_doc::Seq;
use xd_rules::Atom;

/// A goal of a [`Table`]: the claim that every document that a state, the left, accepts is accepted
/// by one of some others, the rights.
#[derive(Clone, Copy, Debug, PartialEq, Eq)]
pub struct GoalId {
    pub(crate) number: usize,
}

/// A case of a goal, by the place of its choice in the goal's list, from 0.
#[derive(Clone, Copy, PartialEq, Eq)]
pub(crate) struct GoalCase {
    pub(crate) goal: GoalId,
    pub(crate) place: usize,
}

/// How far a goal is settled. A goal that holds may rest on goals that wait.
#[derive(Clone, Copy, Debug)]
pub enum Standing {
    /// Its choice trees say why it is true, as far as the goals are that their leaves name.
    Holds,
    /// The document, of the table's store, is one that the left accepts and none of the rights
    /// does.
    Refuted(Seq),
    /// Work on it is still to be done.
    Waiting,
}

/// The choice tree of a goal for a head of its left, by its number from 1 on, at an atom of the
/// head.
#[derive(Debug, Drop)]
pub struct Choice {
    pub head: usize,
    pub atom: Atom,
    pub root: usize,
}

/// A node of a choice tree: a right head, by its number from 1 on, is put on the content's side in
/// one branch and on the rest's in the other; or a goal settles the content, or the rest.
#[derive(Clone, Copy, Debug)]
pub enum ChoiceNode {
    /// The head, and the nodes at which the two branches begin.
    Split {
        right: usize,
        content: usize,
        rest: usize,
    },
    /// The goal settles the content.
    Content(GoalId),
    /// The goal settles the rest.
    Rest(GoalId),
}

/// A goal, its choice trees, for each of these a flag that is set where a leaf may name a refuted
/// goal, where the list of the goal's dependents begins, and a mark that is set where it holds and
/// leads through leaves to goals alone that are marked, so that it holds for good.
#[derive(Drop)]
pub(crate) struct Row {
    pub(crate) left: State,
    pub(crate) rights: Vec<State>,
    pub(crate) standing: Standing,
    pub(crate) choices: Vec<Choice>,
    pub(crate) broken: Vec<bool>,
    pub(crate) dependents: Option<usize>,
    pub(crate) settled: bool,
}

impl Model for Row {
    ghost use Rattle.xd_goals.specs.Rows.{GoalRow};

    ghost Value = { GoalRow };

    ghost view = { λ r. record { left = r.left; rights = r.rights.items; standing = r.standing; choices = r.choices.items; broken = r.broken.items; dependents = r.dependents; settled = r.settled } };
}

/// A case that depends on a goal, and where the list goes on.
#[derive(Clone, Copy)]
pub(crate) struct Link {
    pub(crate) case: GoalCase,
    pub(crate) next: Option<usize>,
}

/// Goals and what they rest on.
#[derive(Drop)]
pub struct Table {
    pub(crate) goals: Goals,
}

impl Model for Table {
    ghost use Rattle.xd_goals.specs.Rows.{TableView};

    ghost Value = { TableView };

    ghost use Rattle.xd_goals.specs.Kept.{view_of};
    ghost use Rattle.xd_goals.specs.Facts.{IsKept};

    ghost view = { λ t. view_of t.goals };

    ghost invariant = { λ t. IsKept t.goals };
}

impl GoalId {
    /// Its number in its table, from 0. [`Table::goal`] is the way back.
    pub fn number(self) -> usize
        ensures { result ≡ self.number }
    {
        self.number
    }
}

impl Table {
    ghost use Rattle.xd_goals.specs.Facts.{KeepsLists};

    /// A table with no goal. It takes no memory.
    pub fn new(alloc: Global) -> Self
        ensures { result ≡ no_view }
    {
        Self {
            goals: Goals::new(alloc),
        }
    }

    /// What is so of every table, whatever automaton its goals speak of: no two goals are alike, a
    /// tree stands at the root of each choice, its case is among the dependents of each goal that a
    /// leaf names, no leaf of a goal that holds names a refuted one, and goals that are kept as
    /// settled hold and lead through leaves to such goals alone. The call does nothing; its
    /// contract is the law.
    pub fn see_lists(&self)
        ensures { KeepsLists self.now }
    {
        let _goals = &self.goals;
    }

    /// The number of goals.
    pub fn rows(&self) -> usize
        ensures { result ≡ length self.now.rows }
    {
        self.goals.rows.len()
    }

    /// The goal of this number, from 0.
    pub fn goal(&self, number: usize) -> GoalId
        requires { number < length self.now.rows }
        ensures { result.number ≡ number }
    {
        let _row = &self.goals.rows[number];
        GoalId { number }
    }

    /// The goal's left.
    pub fn left(&self, goal: GoalId) -> State
        requires { goal.number < length self.now.rows }
        ensures { result ≡ (row_at self.now.rows goal.number).left }
    {
        let row = &self.goals.rows[goal.number];
        row.left
    }

    /// Its rights: of a goal that was asked, in the order in which they were.
    pub fn rights(&self, goal: GoalId) -> &[State]
        requires { goal.number < length self.now.rows }
        ensures { result.now ≡ (row_at self.now.rows goal.number).rights }
    {
        let row = &self.goals.rows[goal.number];
        row.rights.as_slice()
    }

    /// How far it is settled.
    pub fn standing(&self, goal: GoalId) -> Standing
        requires { goal.number < length self.now.rows }
        ensures { result ≡ (row_at self.now.rows goal.number).standing }
    {
        let row = &self.goals.rows[goal.number];
        row.standing
    }

    /// Its choice trees, in order of head number, then of atom. A goal that waits again has those
    /// that it had when it held.
    pub fn choices(&self, goal: GoalId) -> &[Choice]
        requires { goal.number < length self.now.rows }
        ensures choices { result.now ≡ (row_at self.now.rows goal.number).choices }
        ensures roots { AllByRecursion (HasRoot self.now.nodes) result.now }
    {
        let row = &self.goals.rows[goal.number];
        row.choices.as_slice()
    }

    /// A node of a choice tree, by its number: the root of a choice ([`Self::choices`]), or a
    /// branch of a split that this call gave. The branches of a split have lower numbers, and the
    /// goal of a leaf is one of the table.
    pub fn choice_node(&self, number: usize) -> ChoiceNode
        requires { number < length self.now.nodes }
        ensures node { slice_get self.now.nodes number ≡ Some result }
        ensures stands { NodeStands (length self.now.rows) number result }
    {
        self.goals.nodes[number]
    }

    /// Where the list of the goals that depend on this one begins; `None` exactly where there are
    /// none. A goal may come more than once, for one of its cases or for several.
    pub fn first_dependent(&self, goal: GoalId) -> Option<usize>
        requires { goal.number < length self.now.rows }
        ensures value { result ≡ (row_at self.now.rows goal.number).dependents }
        ensures place { IsBelow (length self.now.links) result }
    {
        let row = &self.goals.rows[goal.number];
        row.dependents
    }

    /// Where the list goes on after a link; `None` exactly at its end.
    pub fn next_dependent(&self, link: usize) -> Option<usize>
        requires { link < length self.now.links }
        ensures value { IfSome (slice_get self.now.links link) (λ found. found.next ≡ result) }
        ensures older { IsBelow link result }
    {
        let found = self.goals.links[link];
        found.next
    }

    /// The goal that a link stands for.
    pub fn dependent(&self, link: usize) -> GoalId
        requires { link < length self.now.links }
        ensures value { IfSome (slice_get self.now.links link) (λ found. found.case.goal ≡ result) }
        ensures there { result.number < length self.now.rows }
    {
        let found = self.goals.links[link];
        found.case.goal
    }
}
