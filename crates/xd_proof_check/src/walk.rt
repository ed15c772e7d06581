//! A walk over the steps of a choice tree.

ghost use Rattle.std.specs.Prelude.{◌≡◌, ◌+◌, ◌-◌, ◌<◌, ◌≤◌, ◌∷◌, ◌++◌, [], ℕ, List, true, false, length, drop, IfOk, OnOk, MatchOption};
ghost use Rattle.std.specs.List.{AllByRecursion};
ghost use Rattle.std.specs.Option.{IfNone, option_map};
ghost use Rattle.xd_rules.specs.Rules.{ChoiceTree};
ghost use Rattle.xd_meaning.specs.Consistent.{Goal};
ghost use Rattle.xd_syntax.specs.Tree.{Tree};
ghost use Rattle.xd_rules.specs.Heads.{Head};
ghost use Rattle.xd_laws.proofs.FirstWrong.{wrong_tree};
ghost use Rattle.xd_proof.specs.Steps.{steps_of};
ghost use Rattle.xd_proof.specs.declared.steps.Step.TheVariants as steps;
ghost use Rattle.xd_syntax.specs.Table.{Row};
ghost use Rattle.xd_moves.specs.Cells.{Cell};
ghost use Rattle.xd_proof_check.specs.Atoms.{kinds_of};
ghost use Rattle.xd_proof_check.specs.Corresponds.{Corresponds};
ghost use Rattle.xd_proof_check.specs.Paths.{HasRoom, IsClear, IsPath, KeepsRoom, turns_of};
ghost use Rattle.xd_proof_check.specs.Reasons.{reason_of};
ghost use Rattle.xd_proof_check.specs.Walk.{IsSetting, rest_turns, setting_of, split_fits, turns_after, turns_behind, wrong_step, wrong_steps, wrong_text_step};

use crate::atoms::matches;
use crate::leaves::{leaf_stands, numbered};
use crate::path::{Path, Turn};
use crate::verdict::Reason;
use xd_doc::NoMemory;
use xd_heads::NumberedHead;
use xd_proof::{Atom, ProofGoal, Step};

/// What the steps of a case are looked at in.
#[derive(Clone, Copy)]
pub(crate) struct Setting<'a> {
    pub goals: &'a [ProofGoal],
    /// The number of each type of the program.
    pub numbers: &'a [usize],
    pub atom: &'a Atom,
    pub rights: &'a [NumberedHead],
    /// The numbers of the contents and of the rests of these heads.
    pub contents: &'a [usize],
    pub rests: &'a [usize],
    /// The numbers of the content and of the rest of the left head.
    pub left_content: usize,
    pub left_rest: usize,
}

/// What is wrong first in the tree of a case. The path is clear before, and again where nothing is
/// wrong.
///
/// Takes time linear in the steps and in the rights of the goals that the leaves name; the tree of
/// a text besides in the right heads.
pub(crate) fn check_tree(
    setting: &Setting,
    steps: &[Step],
    path: &mut Path,
) -> Result<Option<Reason>, NoMemory>
    requires setting { IsSetting (setting_of setting.now) path.old }
    requires clear { IsClear path.old }
    ensures found { IfOk result (λ found. (types : List Row) (cells : List Cell) (gs : List Goal) (left : Head Tree) (hs : List (Head Tree)) (t : ChoiceTree) → Corresponds types cells (setting_of setting.now) left hs gs → steps.now ≡ steps_of t → option_map reason_of found ≡ wrong_tree gs (setting_of setting.now).atom left hs t) }
    ensures clear { IfOk result (λ found. (t : ChoiceTree) → steps.now ≡ steps_of t → IfNone found (IsClear path.new)) }
    ensures keeps { IfOk result (λ found. IfNone found (KeepsRoom path.old path.new)) }
{
    match setting.atom {
        Atom::Label(_) => walk(setting, steps, path),
        Atom::OtherLabel => walk(setting, steps, path),
        Atom::Text(_) => text_leaf(setting, steps, path),
        Atom::OtherText => text_leaf(setting, steps, path),
    }
}

/// The same of a label's tree.
fn walk(setting: &Setting, steps: &[Step], path: &mut Path) -> Result<Option<Reason>, NoMemory>
    requires setting { IsSetting (setting_of setting.now) path.old }
    requires path { IsPath setting.now.contents.now setting.now.rests.now path.old }
    ensures found { IfOk result (λ found. option_map reason_of found ≡ wrong_steps (setting_of setting.now) (turns_of path.old) steps.now) }
    ensures path { IfOk result (λ found. IfNone found (IsPath setting.now.contents.now setting.now.rests.now path.new × (turns_of path.new ≡ turns_after (turns_of path.old) steps.now))) }
    ensures keeps { IfOk result (λ found. IfNone found (KeepsRoom path.old path.new)) }
{
    for step in steps {
        if let Some(reason) = take_step(setting, *step, path)? {
            return Ok(Some(reason));
        }
    }
    Ok(None)
}

/// What is wrong with a step; where nothing is, the path goes on after it.
fn take_step(setting: &Setting, step: Step, path: &mut Path) -> Result<Option<Reason>, NoMemory>
    requires setting { IsSetting (setting_of setting.now) path.old }
    requires path { IsPath setting.now.contents.now setting.now.rests.now path.old }
    ensures found { IfOk result (λ found. option_map reason_of found ≡ wrong_step (setting_of setting.now) (turns_of path.old) step) }
    ensures path { IfOk result (λ found. IfNone found (IsPath setting.now.contents.now setting.now.rests.now path.new × (turns_of path.new ≡ turns_behind (turns_of path.old) step))) }
    ensures keeps { IfOk result (λ found. IfNone found (KeepsRoom path.old path.new)) }
{
    match step {
        Step::Content(number) => content_step(setting, number, path),
        Step::Rest(number) => rest_step(setting, number, path),
        Step::Split(number) => split_step(setting, number, path),
    }
}

fn content_step(setting: &Setting, number: u64, path: &mut Path) -> Result<Option<Reason>, NoMemory>
    requires setting { IsSetting (setting_of setting.now) path.old }
    requires path { IsPath setting.now.contents.now setting.now.rests.now path.old }
    ensures found { IfOk result (λ found. option_map reason_of found ≡ wrong_step (setting_of setting.now) (turns_of path.old) (steps.Content number)) }
    ensures path { IfOk result (λ found. IfNone found (IsPath setting.now.contents.now setting.now.rests.now path.new × (turns_of path.new ≡ turns_behind (turns_of path.old) (steps.Content number)))) }
    ensures keeps { IfOk result (λ found. IfNone found (KeepsRoom path.old path.new)) }
{
    let left = setting.left_content;
    if !leaf_stands(setting.goals, setting.numbers, number, left, &path.content) {
        return Ok(Some(Reason::Leaf));
    }
    path.next_branch(setting.contents, setting.rests)?;
    Ok(None)
}

fn rest_step(setting: &Setting, number: u64, path: &mut Path) -> Result<Option<Reason>, NoMemory>
    requires setting { IsSetting (setting_of setting.now) path.old }
    requires path { IsPath setting.now.contents.now setting.now.rests.now path.old }
    ensures found { IfOk result (λ found. option_map reason_of found ≡ wrong_step (setting_of setting.now) (turns_of path.old) (steps.Rest number)) }
    ensures path { IfOk result (λ found. IfNone found (IsPath setting.now.contents.now setting.now.rests.now path.new × (turns_of path.new ≡ turns_behind (turns_of path.old) (steps.Rest number)))) }
    ensures keeps { IfOk result (λ found. IfNone found (KeepsRoom path.old path.new)) }
{
    let left = setting.left_rest;
    if !leaf_stands(setting.goals, setting.numbers, number, left, &path.rest) {
        return Ok(Some(Reason::Leaf));
    }
    path.next_branch(setting.contents, setting.rests)?;
    Ok(None)
}

fn split_step(setting: &Setting, number: u64, path: &mut Path) -> Result<Option<Reason>, NoMemory>
    requires setting { IsSetting (setting_of setting.now) path.old }
    requires path { IsPath setting.now.contents.now setting.now.rests.now path.old }
    ensures found { IfOk result (λ found. option_map reason_of found ≡ wrong_step (setting_of setting.now) (turns_of path.old) (steps.Split number)) }
    ensures path { IfOk result (λ found. IfNone found (IsPath setting.now.contents.now setting.now.rests.now path.new × (turns_of path.new ≡ turns_behind (turns_of path.old) (steps.Split number)))) }
    ensures keeps { IfOk result (λ found. IfNone found (KeepsRoom path.old path.new)) }
{
    let Some(right) = head_to_split(setting, number, path) else {
        return Ok(Some(Reason::Split));
    };
    let turn = Turn {
        right,
        on_rest: false,
    };
    path.take(setting.contents, setting.rests, turn)?;
    Ok(None)
}

/// The position of the right head with this number, where it matches the atom and is not split on
/// yet.
fn head_to_split(setting: &Setting, number: u64, path: &Path) -> Option<usize>
    requires setting { IsSetting (setting_of setting.now) path.now }
    requires path { IsPath setting.now.contents.now setting.now.rests.now path.now }
    ensures { MatchOption result (split_fits (setting_of setting.now) (turns_of path.now) number ≡ false) (λ right. (split_fits (setting_of setting.now) (turns_of path.now) number ≡ true) × (right ≡ number - 1) × (right < length setting.now.contents.now)) }
{
    let Some(head) = numbered(setting.rights, number) else {
        return None;
    };
    if !matches(setting.atom, &head.kind) {
        return None;
    }
    let right = (number - 1) as usize;
    if path.split[right] > 0 {
        return None;
    }
    Some(right)
}

/// What is wrong first in the tree of a text: it is to be one leaf on the rest, where all right
/// heads that match count as put on the rest side.
fn text_leaf(setting: &Setting, steps: &[Step], path: &mut Path) -> Result<Option<Reason>, NoMemory>
    requires setting { IsSetting (setting_of setting.now) path.old }
    requires clear { IsClear path.old }
    ensures found { IfOk result (λ found. (t : ChoiceTree) → steps.now ≡ steps_of t → option_map reason_of found ≡ wrong_text_step (setting_of setting.now) t) }
    ensures clear { IfOk result (λ found. IfNone found (IsClear path.new)) }
    ensures keeps { IfOk result (λ found. IfNone found (KeepsRoom path.old path.new)) }
{
    let Some(Step::Rest(number)) = steps.first() else {
        return Ok(Some(Reason::Split));
    };
    put_matching(setting, path)?;
    rest_step(setting, *number, path)
}

/// Puts all right heads that match on the rest side.
fn put_matching(setting: &Setting, path: &mut Path) -> Result<(), NoMemory>
    requires setting { IsSetting (setting_of setting.now) path.old }
    requires clear { IsClear path.old }
    ensures path { OnOk result (IsPath setting.now.contents.now setting.now.rests.now path.new) }
    ensures turns { OnOk result (turns_of path.new ≡ rest_turns (setting_of setting.now).atom 0 (setting_of setting.now).kinds) }
    ensures keeps { OnOk result (KeepsRoom path.old path.new) }
{
    for right in (0..setting.rights.len()).rev() {
        if matches(setting.atom, &setting.rights[right].kind) {
            let turn = Turn {
                right,
                on_rest: true,
            };
            path.take(setting.contents, setting.rests, turn)?;
        }
    }
    Ok(())
}
