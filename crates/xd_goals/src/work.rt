//! Work on one goal.

ghost use Rattle.std.specs.Prelude.{◌≡◌, ℕ, ◌<◌, [], false, true, length, IfOk, OnOk, Some, slice_get};
ghost use Rattle.std.specs.List.{AllByRecursion, list_any};
ghost use Rattle.xd_doc.specs.Stored.{document_at};
ghost use Rattle.xd_doc.specs.StoredSeq.{BelongsTo};
ghost use Rattle.xd_doc.specs.StoreNodes.{Keeps};
ghost use Rattle.xd_auto.specs.Automaton.{IsState};
ghost use Rattle.xd_rules.specs.Meaning.{is_text_atom};
ghost use Rattle.xd_state_heads.specs.Moves.{claim_with, is_last_in};
ghost use Rattle.xd_goals.specs.Rows.{IsRefuted, IsUnbroken, claim_of, row_at};
ghost use Rattle.xd_goals.specs.Kept.{view_of};
ghost use Rattle.xd_goals.specs.Cases.{BeginsAs, FailsAt, IsCaseGrown, IsMended, IsMending, IsSettling, IsUncovered, case_end_of};
ghost use Rattle.xd_state_heads.specs.Wants.{IsCaseOf};
ghost use Rattle.xd_goals.specs.Standing.{IsSeparatedBy};
ghost use Rattle.xd_goals.specs.Facts.{ChoiceStands, FactsOn};
ghost use Rattle.xd_goals.specs.Reached.{HasTreeAt, IsLeafAt, IsWaitingIn};
ghost use Rattle.xd_goals.specs.Progress.{CanBegin, CanWork, HasGrown, Progresses, Settles};

use crate::goals::{Goals, hold, refute, set_root, set_standing};
use crate::grow::{Grown, Setting, Task, grow, grow_text, node_at, repair};
use crate::settled::no_marks;
use crate::table::{Choice, ChoiceNode, GoalCase, GoalId, Row, Standing};
use std::alloc::Global;
use xd_auto::{Answers, Auto, State};
use xd_doc::{NoMemory, Seq, Store};
use xd_empty::{some_label, some_text};
use xd_rules::{Atom, is_text, share};
use xd_state_heads::{Unnamed, Want, goal_cases, head_of, sides_of, unnamed_of};

/// Whether some state accepts the empty document.
fn any_last(auto: &Auto, states: &[State]) -> bool
    requires { AllByRecursion (IsState auto.now) states.now }
    ensures { result ≡ list_any (is_last_in auto.now) states.now }
{
    for state in states {
        if auto.is_last(*state) {
            return true;
        }
    }
    false
}

/// A document that begins as the atom says.
fn begin_with(
    alloc: Global,
    store: &mut Store,
    unnamed: &Unnamed,
    atom: &Atom,
    inside: Seq,
    behind: Seq,
) -> Result<Seq, NoMemory>
    requires inside { is_text_atom atom.now ≡ false → BelongsTo store.old inside }
    requires behind { BelongsTo store.old behind }
    ensures keeps { Keeps store.old store.new }
    ensures belongs { IfOk result (BelongsTo store.new) }
    ensures begins { IfOk result (λ seq. BeginsAs unnamed.now.labels unnamed.now.texts atom.now (document_at store.old inside) (document_at store.old behind) (document_at store.new seq)) }
{
    match atom {
        Atom::Label(label) => store.elem_node(label.share()?, inside, behind),
        Atom::OtherLabel => store.elem_node(some_label(alloc, &unnamed.labels)?, inside, behind),
        Atom::Text(text) => store.text_node(text.share()?, behind),
        Atom::OtherText => store.text_node(some_text(alloc, &unnamed.texts)?, behind),
    }
}

/// A document that the left accepts and no right does, where a case fails.
fn separate(
    alloc: Global,
    auto: &Auto,
    goals: &Goals,
    owner: GoalId,
    store: &mut Store,
    failure: &Failure,
) -> Result<Seq, NoMemory>
    requires owner { owner.number < length goals.now.rows.items }
    requires stands { FactsOn auto.now store.old (view_of goals.now) }
    requires fails { FailsAt auto.now store.old (view_of goals.now) (claim_of (row_at goals.now.rows.items owner.number)) failure.now.atom failure.now.inside failure.now.behind }
    ensures keeps { Keeps store.old store.new }
    ensures separated { IfOk result (IsSeparatedBy auto.now store.new (claim_of (row_at goals.now.rows.items owner.number))) }
{
    let row = &goals.rows[owner.number];
    let unnamed = unnamed_of(alloc, auto, row.left, &row.rights)?;
    begin_with(
        alloc,
        store,
        &unnamed,
        &failure.atom,
        failure.inside,
        failure.behind,
    )
}

/// What work on a goal goes by: the automaton, and what was asked of it.
#[derive(Clone, Copy)]
struct Asked<'a> {
    alloc: Global,
    auto: &'a Auto,
    left: State,
    rights: &'a [State],
}

/// A tree for a case of a goal.
fn begin_case(
    asked: &Asked,
    store: &Store,
    answers: &mut Answers,
    goals: &mut Goals,
    owner: GoalCase,
    case: &Want,
) -> Result<Grown, NoMemory>
    requires can { CanBegin asked.now.auto.now store.now (claim_with asked.now.left asked.now.rights.now) owner.goal.number goals.old answers.old }
    requires case { IsCaseOf asked.now.auto.now asked.now.left case.now }
    ensures grows { HasGrown (length asked.now.auto.now) asked.now.auto.now store.now goals.old goals.new answers.new }
    ensures grown { IfOk result (IsCaseGrown asked.now.auto.now store.now (view_of goals.new) owner (claim_with asked.now.left asked.now.rights.now) case.now.head case.now.atom) }
{
    let sides = sides_of(asked.alloc, asked.auto, asked.rights, &case.atom)?;
    let task = Task {
        owner,
        content: case.content,
        rest: case.rest,
        states: asked.auto.len(),
    };
    if is_text(&case.atom) {
        grow_text(asked.alloc, goals, task, &sides)
    } else {
        let setting = Setting {
            alloc: asked.alloc,
            auto: asked.auto,
            store,
            task,
            sides: &sides,
        };
        grow(&setting, answers, goals, &[], &[])
    }
}

/// A case for which there is no tree: an atom of a head, with a content and a rest for a document
/// that separates.
#[derive(Drop)]
struct Failure {
    atom: Atom,
    inside: Seq,
    behind: Seq,
}

/// What a case comes to: a choice with a tree, or how it fails.
#[derive(Drop)]
enum CaseEnd {
    Chosen(Choice),
    Failed(Failure),
}

/// What the case of a head at an atom comes to by what was grown for it.
fn case_end(head: usize, atom: &Atom, grown: Grown) -> Result<CaseEnd, NoMemory>
    ensures { IfOk result (λ end. end ≡ case_end_of head atom.now grown) }
{
    let atom = share(atom)?;
    match grown {
        Grown::Stands(root) => Ok(CaseEnd::Chosen(Choice { head, atom, root })),
        Grown::Fails(inside, behind) => Ok(CaseEnd::Failed(Failure {
            atom,
            inside,
            behind,
        })),
    }
}

/// Trees for all cases of a goal, none of whose leaves names a refuted goal; or a case for which
/// there is none.
#[derive(Drop)]
enum Settled {
    Holds(Vec<Choice>),
    Separates(Failure),
}

/// Trees for the cases of a goal that has none yet.
fn begin(
    asked: &Asked,
    store: &Store,
    answers: &mut Answers,
    goals: &mut Goals,
    owner: GoalId,
) -> Result<Settled, NoMemory>
    requires { CanBegin asked.now.auto.now store.now (claim_with asked.now.left asked.now.rights.now) owner.number goals.old answers.old }
    ensures grows { HasGrown (length asked.now.auto.now) asked.now.auto.now store.now goals.old goals.new answers.new }
    ensures settled { IfOk result (IsSettling asked.now.auto.now store.now (view_of goals.new) owner.number (claim_with asked.now.left asked.now.rights.now)) }
{
    let cases = goal_cases(asked.alloc, asked.auto, asked.left, asked.rights)?;
    let mut made = Vec::new(asked.alloc);
    for number in 0..cases.len() {
        let case = &cases[number];
        let owner = GoalCase {
            goal: owner,
            place: number,
        };
        let grown = begin_case(asked, store, answers, goals, owner, case)?;
        match case_end(case.head, &case.atom, grown)? {
            CaseEnd::Chosen(choice) => made.push(choice)?,
            CaseEnd::Failed(failure) => return Ok(Settled::Separates(failure)),
        }
    }
    Ok(Settled::Holds(made))
}

/// Whether a leaf of the tree names a refuted goal.
fn is_broken(nodes: &[ChoiceNode], rows: &[Row], root: usize) -> bool
    requires tree { HasTreeAt nodes.now root }
    requires within { (g : ℕ) → IsLeafAt nodes.now root g → g < length rows.now }
    ensures { result ≡ false → (g : ℕ) → IsLeafAt nodes.now root g → ¬ (IsRefuted rows.now g) }
{
    match node_at(nodes, root) {
        ChoiceNode::Content(goal) => is_refuted(rows, goal),
        ChoiceNode::Rest(goal) => is_refuted(rows, goal),
        ChoiceNode::Split { content, rest, .. } => {
            is_broken(nodes, rows, content) || is_broken(nodes, rows, rest)
        }
    }
}

/// Whether a goal is refuted.
fn is_refuted(rows: &[Row], goal: GoalId) -> bool
    requires { goal.number < length rows.now }
    ensures { result ≡ false → ¬ (IsRefuted rows.now goal.number) }
{
    let row = &rows[goal.number];
    matches!(row.standing, Standing::Refuted(_))
}

/// A tree for a choice of a goal: the one that is there, unless a leaf names a refuted goal.
fn mend_choice(
    asked: &Asked,
    store: &Store,
    answers: &mut Answers,
    goals: &mut Goals,
    owner: GoalCase,
    choice: &Choice,
) -> Result<Grown, NoMemory>
    requires can { CanBegin asked.now.auto.now store.now (claim_with asked.now.left asked.now.rights.now) owner.goal.number goals.old answers.old }
    requires choice { ChoiceStands asked.now.auto.now (view_of goals.old) owner (claim_with asked.now.left asked.now.rights.now) choice.now }
    ensures grows { HasGrown (length asked.now.auto.now) asked.now.auto.now store.now goals.old goals.new answers.new }
    ensures grown { IfOk result (IsCaseGrown asked.now.auto.now store.now (view_of goals.new) owner (claim_with asked.now.left asked.now.rights.now) choice.now.head choice.now.atom) }
{
    if !is_broken(&goals.nodes, &goals.rows, choice.root) {
        return Ok(Grown::Stands(choice.root));
    }
    let sides = sides_of(asked.alloc, asked.auto, asked.rights, &choice.atom)?;
    let (content, rest) = head_of(asked.auto, asked.left, choice.head);
    let task = Task {
        owner,
        content,
        rest,
        states: asked.auto.len(),
    };
    if is_text(&choice.atom) {
        grow_text(asked.alloc, goals, task, &sides)
    } else {
        let setting = Setting {
            alloc: asked.alloc,
            auto: asked.auto,
            store,
            task,
            sides: &sides,
        };
        repair(&setting, answers, goals, choice.root, &[], &[])
    }
}

/// The choice of a case.
fn choice_of(rows: &[Row], case: GoalCase) -> Result<Choice, NoMemory>
    requires goal { case.goal.number < length rows.now }
    requires choice { case.place < length (row_at rows.now case.goal.number).choices }
    ensures { IfOk result (λ shared. slice_get (row_at rows.now case.goal.number).choices case.place ≡ Some shared) }
{
    let row = &rows[case.goal.number];
    share_choice(&row.choices[case.place])
}

/// An equal choice.
fn share_choice(choice: &Choice) -> Result<Choice, NoMemory>
    ensures { IfOk result (λ shared. shared ≡ choice.now) }
{
    Ok(Choice {
        head: choice.head,
        atom: share(&choice.atom)?,
        root: choice.root,
    })
}

/// Whether the flag of a case is set.
fn is_flagged(rows: &[Row], case: GoalCase) -> bool
    requires goal { case.goal.number < length rows.now }
    requires flag { case.place < length (row_at rows.now case.goal.number).broken }
    ensures { result ≡ false → IsUnbroken (row_at rows.now case.goal.number) case.place }
{
    let row = &rows[case.goal.number];
    row.broken[case.place]
}

/// Repairs the choice tree of a case, or says how the case fails.
fn mend_case(
    asked: &Asked,
    store: &Store,
    answers: &mut Answers,
    goals: &mut Goals,
    owner: GoalCase,
) -> Result<Option<Failure>, NoMemory>
    requires can { CanWork asked.now.auto.now store.now goals.old answers.old }
    requires waits { IsWaitingIn goals.old.rows.items owner.goal }
    requires place { owner.place < length (row_at goals.old.rows.items owner.goal.number).choices }
    requires claim { claim_of (row_at goals.old.rows.items owner.goal.number) ≡ claim_with asked.now.left asked.now.rights.now }
    ensures can { CanWork asked.now.auto.now store.now goals.new answers.new }
    ensures mending { IsMending owner.goal.number (view_of goals.old) (view_of goals.new) }
    ensures mended { IfOk result (IsMended asked.now.auto.now store.now (view_of goals.new) owner) }
{
    let choice = choice_of(&goals.rows, owner)?;
    match mend_choice(asked, store, answers, goals, owner, &choice)? {
        Grown::Stands(root) => {
            set_root(&mut goals.rows, owner, root);
            Ok(None)
        }
        Grown::Fails(inside, behind) => {
            let Choice { atom, .. } = choice;
            Ok(Some(Failure {
                atom,
                inside,
                behind,
            }))
        }
    }
}

/// Refutes a goal of which a case fails, by a document that is made of a content and a rest.
fn refute_at(
    asked: &Asked,
    goals: &mut Goals,
    owner: GoalId,
    store: &mut Store,
    answers: &Answers,
    failure: &Failure,
) -> Result<(), NoMemory>
    requires can { CanWork asked.now.auto.now store.old goals.old answers.now }
    requires waits { IsWaitingIn goals.old.rows.items owner }
    requires fails { FailsAt asked.now.auto.now store.old (view_of goals.old) (claim_of (row_at goals.old.rows.items owner.number)) failure.now.atom failure.now.inside failure.now.behind }
    ensures progresses { Progresses asked.now.auto.now store.old store.new goals.old goals.new }
    ensures settles { OnOk result (Settles asked.now.auto.now store.new goals.old goals.new answers.now) }
{
    let document = separate(asked.alloc, asked.auto, goals, owner, store, failure)?;
    answers.stay_right();
    refute(&mut goals.rows, &goals.links, owner, document);
    Ok(())
}

/// Brings a goal that has no choices yet to hold, or to be refuted where a case of it fails.
fn begin_goal(
    asked: &Asked,
    goals: &mut Goals,
    owner: GoalId,
    store: &mut Store,
    answers: &mut Answers,
) -> Result<(), NoMemory>
    requires can { CanWork asked.now.auto.now store.old goals.old answers.old }
    requires waits { IsWaitingIn goals.old.rows.items owner }
    requires claim { claim_of (row_at goals.old.rows.items owner.number) ≡ claim_with asked.now.left asked.now.rights.now }
    requires last { is_last_in asked.now.auto.now asked.now.left ≡ true → list_any (is_last_in asked.now.auto.now) asked.now.rights.now ≡ true }
    ensures progresses { Progresses asked.now.auto.now store.old store.new goals.old goals.new }
    ensures settles { OnOk result (Settles asked.now.auto.now store.new goals.old goals.new answers.new) }
{
    match begin(asked, store, answers, goals, owner)? {
        Settled::Holds(made) => {
            let broken = no_marks(asked.alloc, made.len())?;
            hold(&mut goals.rows, owner, made, broken);
            Ok(())
        }
        Settled::Separates(failure) => { refute_at(asked, goals, owner, store, answers, &failure) }
    }
}

/// Brings a goal that waits again to hold, or to be refuted where a case of it fails. It looks at
/// the cases alone whose flags are set.
fn mend_goal(
    asked: &Asked,
    goals: &mut Goals,
    owner: GoalId,
    store: &mut Store,
    answers: &mut Answers,
) -> Result<(), NoMemory>
    requires can { CanWork asked.now.auto.now store.old goals.old answers.old }
    requires waits { IsWaitingIn goals.old.rows.items owner }
    requires claim { claim_of (row_at goals.old.rows.items owner.number) ≡ claim_with asked.now.left asked.now.rights.now }
    requires begun { ¬ ((row_at goals.old.rows.items owner.number).choices ≡ []) }
    ensures progresses { Progresses asked.now.auto.now store.old store.new goals.old goals.new }
    ensures settles { OnOk result (Settles asked.now.auto.now store.new goals.old goals.new answers.new) }
{
    let row = &goals.rows[owner.number];
    for place in 0..row.broken.len() {
        let case = GoalCase { goal: owner, place };
        if is_flagged(&goals.rows, case) {
            let failure = mend_case(asked, store, answers, goals, case)?;
            if let Some(failure) = failure {
                return refute_at(asked, goals, owner, store, answers, &failure);
            }
        }
    }
    set_standing(&mut goals.rows, owner, Standing::Holds);
    Ok(())
}

/// Brings a goal that waits to hold, or to be refuted where a case of it fails.
fn work_on_cases(
    asked: &Asked,
    goals: &mut Goals,
    owner: GoalId,
    store: &mut Store,
    answers: &mut Answers,
) -> Result<(), NoMemory>
    requires can { CanWork asked.now.auto.now store.old goals.old answers.old }
    requires waits { IsWaitingIn goals.old.rows.items owner }
    requires claim { claim_of (row_at goals.old.rows.items owner.number) ≡ claim_with asked.now.left asked.now.rights.now }
    requires last { is_last_in asked.now.auto.now asked.now.left ≡ true → list_any (is_last_in asked.now.auto.now) asked.now.rights.now ≡ true }
    ensures progresses { Progresses asked.now.auto.now store.old store.new goals.old goals.new }
    ensures settles { OnOk result (Settles asked.now.auto.now store.new goals.old goals.new answers.new) }
{
    let row = &goals.rows[owner.number];
    if row.choices.is_empty() {
        begin_goal(asked, goals, owner, store, answers)
    } else {
        mend_goal(asked, goals, owner, store, answers)
    }
}

/// Brings a goal that waits to hold or to be refuted.
pub(crate) fn work(
    alloc: Global,
    auto: &Auto,
    goals: &mut Goals,
    owner: GoalId,
    store: &mut Store,
    answers: &mut Answers,
) -> Result<(), NoMemory>
    requires can { CanWork auto.now store.old goals.old answers.old }
    requires waits { IsWaitingIn goals.old.rows.items owner }
    ensures progresses { Progresses auto.now store.old store.new goals.old goals.new }
    ensures settles { OnOk result (Settles auto.now store.new goals.old goals.new answers.new) }
{
    let row = &goals.rows[owner.number];
    let left = row.left;
    let rights = row.rights.as_slice().to_vec(alloc)?;
    if is_uncovered(auto, left, &rights) {
        refute(&mut goals.rows, &goals.links, owner, Seq::empty());
        return Ok(());
    }
    let asked = Asked {
        alloc,
        auto,
        left,
        rights: &rights,
    };
    work_on_cases(&asked, goals, owner, store, answers)
}

/// Whether the left accepts the empty document and no right does.
fn is_uncovered(auto: &Auto, left: State, rights: &[State]) -> bool
    requires left { IsState auto.now left }
    requires rights { AllByRecursion (IsState auto.now) rights.now }
    ensures yes { result ≡ true → IsUncovered auto.now left rights.now }
    ensures no { result ≡ false → is_last_in auto.now left ≡ true → list_any (is_last_in auto.now) rights.now ≡ true }
{
    auto.is_last(left) && !any_last(auto, rights)
}
