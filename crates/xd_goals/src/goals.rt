//! What a table keeps, and the steps by which it changes.

ghost use Rattle.std.specs.Prelude.{◌≡◌, ℕ, ◌<◌, ◌++◌, ◌∷◌, [], cond, List, None, Some, Option, length, nat_eq, slice_set, false, true, slice_get, slice_index_or, IfOk, IfSome, IfNone, OnErr, OnOk, vec_len};
ghost use Rattle.std.specs.Cmp.Lexicographic.{pointwise};
ghost use Rattle.xd_auto.specs.Automaton.{state_number};
ghost use Rattle.xd_doc.specs.StoredSeq.{IsBelow};
ghost use Rattle.xd_state_heads.specs.Moves.{AreBelow, claim_with};
ghost use Rattle.xd_goals.specs.Rows.{IsListed, IsRefuted, NodeStands, claim_at, claim_key, new_row, row_at, Leads};
ghost use Rattle.xd_auto.specs.Keys.{found_at};
ghost use Rattle.xd_goals.specs.Kept.{AreLinked, AreThese, BeginsWith, Grows, GrowsBy, IsConsistent, IsWoken, Refutes, view_of, with_choice, with_flag, with_mark, with_standing};

use crate::table::{Choice, ChoiceNode, GoalCase, GoalId, Link, Row, Standing};
use indexmap::IndexMap;
use std::alloc::Global;
use xd_auto::{State, StateKey};
use xd_doc::{NoMemory, Seq};

/// The goals, the nodes of their choice trees, the links of their lists of dependents, and the
/// goals' numbers by their states.
///
/// Nodes and links never change: a choice tree changes by new nodes, and its root is set last.
#[derive(Drop)]
pub(crate) struct Goals {
    pub(crate) rows: Vec<Row>,
    pub(crate) nodes: Vec<ChoiceNode>,
    pub(crate) links: Vec<Link>,
    pub(crate) found: IndexMap<StateKey, usize>,
}

impl Goals {
    /// No goal.
    pub(crate) fn new(alloc: Global) -> Self
        ensures rows { result.rows.items ≡ [] }
        ensures nodes { result.nodes.items ≡ [] }
        ensures links { result.links.items ≡ [] }
        ensures found { (key : List ℕ) → found_at result.found key ≡ None }
    {
        Self {
            rows: Vec::new(alloc),
            nodes: Vec::new(alloc),
            links: Vec::new(alloc),
            found: IndexMap::new(alloc),
        }
    }

    /// How far a goal is settled.
    pub(crate) fn standing(&self, goal: GoalId) -> Standing
        requires { goal.number < length self.now.rows.items }
        ensures { result ≡ (row_at self.now.rows.items goal.number).standing }
    {
        let row = &self.rows[goal.number];
        row.standing
    }

    /// Whether it is refuted.
    pub(crate) fn is_refuted(&self, goal: GoalId) -> bool
        requires { goal.number < length self.now.rows.items }
        ensures { result ≡ false → ¬ (IsRefuted self.now.rows.items goal.number) }
    {
        matches!(self.standing(goal), Standing::Refuted(_))
    }
}

/// Puts a number under a key.
fn put(found: &mut IndexMap<StateKey, usize>, key: StateKey, number: usize) -> Result<(), NoMemory>
    ensures ok { OnOk result ((q : List ℕ) → found_at found.new q ≡ cond (pointwise nat_eq key q) (Some number) (found_at found.old q)) }
    ensures err { OnErr result ((q : List ℕ) → found_at found.new q ≡ found_at found.old q) }
{
    found.insert(key, number)?;
    Ok(())
}

/// A new goal, which waits.
fn add_row(
    alloc: Global,
    rows: &mut Vec<Row>,
    found: &mut IndexMap<StateKey, usize>,
    key: StateKey,
    left: State,
    rights: &[State],
) -> Result<GoalId, NoMemory>
    ensures ok { OnOk result (rows.new.items ≡ rows.old.items ++ new_row left rights.now ∷ []) }
    ensures place { IfOk result (λ goal. goal.number ≡ length rows.old.items) }
    ensures found { OnOk result ((q : List ℕ) → found_at found.new q ≡ cond (pointwise nat_eq key q) (Some (length rows.old.items)) (found_at found.old q)) }
    ensures err { OnErr result (rows.new.items ≡ rows.old.items) }
    ensures lost { OnErr result ((q : List ℕ) → found_at found.new q ≡ found_at found.old q) }
{
    let number = rows.len();
    let rights = rights.to_vec(alloc)?;
    rows.push(Row {
        left,
        rights,
        standing: Standing::Waiting,
        choices: Vec::new(alloc),
        broken: Vec::new(alloc),
        dependents: None,
        settled: false,
    })?;
    match put(found, key, number) {
        Ok(()) => Ok(GoalId { number }),
        Err(error) => {
            let _row = rows.pop();
            Err(error)
        }
    }
}

/// The goal with these states, which is made where it isn't there.
pub(crate) fn find_or_add(
    alloc: Global,
    goals: &mut Goals,
    states: usize,
    left: State,
    rights: &[State],
) -> Result<GoalId, NoMemory>
    requires consistent { IsConsistent states goals.old }
    requires left { state_number left < states }
    requires rights { AreBelow states rights.now }
    ensures consistent { IsConsistent states goals.new }
    ensures grows { GrowsBy (AreThese rights.now) (view_of goals.old) (view_of goals.new) }
    ensures found { IfOk result (λ goal. claim_at goals.new.rows.items goal.number ≡ Some (claim_with left rights.now)) }
    ensures there { IfOk result (λ goal. goal.number < length goals.new.rows.items) }
{
    let _count = states;
    let key = StateKey::new(alloc, left, rights)?;
    match goals.found.get(&key) {
        Some(number) => Ok(GoalId { number: *number }),
        None => add_row(alloc, &mut goals.rows, &mut goals.found, key, left, rights),
    }
}

/// Whether the list of dependents begins with the case.
fn begins_with(links: &[Link], first: Option<usize>, owner: GoalCase) -> bool
    requires { IsBelow (length links.now) first }
    ensures { result ≡ true → BeginsWith links.now first owner }
{
    match first {
        None => false,
        Some(place) => {
            let link = links[place];
            link.case == owner
        }
    }
}

/// Sets where a goal's list of dependents begins.
fn set_dependents(rows: &mut Vec<Row>, goal: GoalId, link: usize)
    requires { goal.number < length rows.old.items }
    ensures { rows.new.items ≡ slice_set rows.old.items goal.number (record (row_at rows.old.items goal.number) { dependents = Some link }) }
{
    let row = &mut rows[goal.number];
    row.dependents = Some(link);
}

/// Puts a case among those that depend on a goal.
pub(crate) fn depend(
    goals: &mut Goals,
    states: usize,
    on: GoalId,
    owner: GoalCase,
) -> Result<(), NoMemory>
    requires consistent { IsConsistent states goals.old }
    requires on { on.number < length goals.old.rows.items }
    requires owner { owner.goal.number < length goals.old.rows.items }
    ensures consistent { IsConsistent states goals.new }
    ensures grows { Grows (view_of goals.old) (view_of goals.new) }
    ensures count { length goals.new.rows.items ≡ length goals.old.rows.items }
    ensures listed { OnOk result (IsListed (view_of goals.new) on.number owner) }
{
    let _count = states;
    let row = &goals.rows[on.number];
    let next = row.dependents;
    if begins_with(&goals.links, next, owner) {
        return Ok(());
    }
    let link = goals.links.len();
    goals.links.push(Link { case: owner, next })?;
    set_dependents(&mut goals.rows, on, link);
    Ok(())
}

/// A new node.
pub(crate) fn add_node(
    goals: &mut Goals,
    states: usize,
    node: ChoiceNode,
) -> Result<usize, NoMemory>
    requires consistent { IsConsistent states goals.old }
    requires node { NodeStands (length goals.old.rows.items) (length goals.old.nodes.items) node }
    ensures consistent { IsConsistent states goals.new }
    ensures rows { goals.new.rows.items ≡ goals.old.rows.items }
    ensures grows { Grows (view_of goals.old) (view_of goals.new) }
    ensures found { IfOk result (λ n. slice_get goals.new.nodes.items n ≡ Some node) }
    ensures place { IfOk result (λ n. n ≡ length goals.old.nodes.items) }
{
    let _count = states;
    let number = goals.nodes.len();
    goals.nodes.push(node)?;
    Ok(number)
}

/// Says that the goal holds by these choice trees, with a flag for each, as far as those hold that
/// it rests on.
pub(crate) fn hold(rows: &mut Vec<Row>, goal: GoalId, choices: Vec<Choice>, broken: Vec<bool>)
    requires { goal.number < length rows.old.items }
    ensures { rows.new.items ≡ slice_set rows.old.items goal.number (record (row_at rows.old.items goal.number) { standing = Standing.Holds; choices = choices.items; broken = broken.items }) }
{
    let row = &mut rows[goal.number];
    row.choices = choices;
    row.broken = broken;
    row.standing = Standing::Holds;
}

/// Gives a choice another root.
fn set_choice_root(choices: &mut Vec<Choice>, place: usize, root: usize)
    requires { place < length choices.old.items }
    ensures { (k : Choice) → slice_get choices.old.items place ≡ Some k → choices.new.items ≡ slice_set choices.old.items place (record k { root = root }) }
{
    let choice = &mut choices[place];
    choice.root = root;
}

/// Gives a case another choice tree, of which no leaf names a refuted goal, and takes its flag
/// away.
pub(crate) fn set_root(rows: &mut Vec<Row>, case: GoalCase, root: usize)
    requires goal { case.goal.number < length rows.old.items }
    requires choice { case.place < length (row_at rows.old.items case.goal.number).choices }
    requires flag { case.place < length (row_at rows.old.items case.goal.number).broken }
    ensures { (k : Choice) → slice_get (row_at rows.old.items case.goal.number).choices case.place ≡ Some k → rows.new.items ≡ slice_set rows.old.items case.goal.number (with_choice case.place (record k { root = root }) (row_at rows.old.items case.goal.number)) }
{
    let row = &mut rows[case.goal.number];
    set_choice_root(&mut row.choices, case.place, root);
    row.broken[case.place] = false;
}

/// Sets how far a goal is settled.
pub(crate) fn set_standing(rows: &mut Vec<Row>, goal: GoalId, standing: Standing)
    requires { goal.number < length rows.old.items }
    ensures { rows.new.items ≡ slice_set rows.old.items goal.number (with_standing standing (row_at rows.old.items goal.number)) }
{
    let row = &mut rows[goal.number];
    row.standing = standing;
}

/// Sets the flag of a case: a leaf of its tree may name a refuted goal. The case isn't there where
/// work on a new goal was broken off.
fn set_flag(rows: &mut Vec<Row>, case: GoalCase)
    requires { case.goal.number < length rows.old.items }
    ensures { rows.new.items ≡ slice_set rows.old.items case.goal.number (with_flag case.place (row_at rows.old.items case.goal.number)) }
{
    let row = &mut rows[case.goal.number];
    if case.place < row.broken.len() {
        row.broken[case.place] = true;
    }
}

/// Sets the flag of a case, and lets its goal wait where it holds. A goal that is settled stays as
/// it is: no leaf of it names a refuted goal.
fn wake(rows: &mut Vec<Row>, case: GoalCase)
    requires { case.goal.number < length rows.old.items }
    ensures { IsWoken (λ k. k ≡ case) rows.old.items rows.new.items }
{
    let row = &rows[case.goal.number];
    if row.settled {
        return;
    }
    set_flag(rows, case);
    let row = &rows[case.goal.number];
    if let Standing::Holds = row.standing {
        set_standing(rows, case.goal, Standing::Waiting);
    }
}

/// Marks a goal as settled, or takes the mark away.
pub(crate) fn set_settled(rows: &mut Vec<Row>, goal: usize, settled: bool)
    requires { goal < length rows.old.items }
    ensures { rows.new.items ≡ slice_set rows.old.items goal (with_mark settled (row_at rows.old.items goal)) }
{
    let row = &mut rows[goal];
    row.settled = settled;
}

/// Sets the flags of the cases that depend on a goal, and lets those of their goals wait that hold.
fn wake_all(rows: &mut Vec<Row>, links: &[Link], first: Option<usize>)
    requires links { AreLinked rows.old.items links.now }
    requires first { IsBelow (length links.now) first }
    ensures { IsWoken (λ k. Leads links.now k first) rows.old.items rows.new.items }
{
    let mut at = first;
    while let Some(place) = at {
        let link = links[place];
        wake(rows, link.case);
        at = link.next;
    }
}

/// Refutes a goal by a document, sets the flags of the cases that depend on it, and lets those of
/// their goals wait that hold. It takes no memory.
pub(crate) fn refute(rows: &mut Vec<Row>, links: &[Link], goal: GoalId, document: Seq)
    requires goal { goal.number < length rows.old.items }
    requires links { AreLinked rows.old.items links.now }
    ensures { Refutes links.now goal.number document rows.old.items rows.new.items }
{
    let row = &rows[goal.number];
    let first = row.dependents;
    set_standing(rows, goal, Standing::Refuted(document));
    wake_all(rows, links, first);
}
