//! The cases of a goal.

ghost use Rattle.std.specs.Prelude.{◌≡◌, ◌+◌, ◌<◌, ◌≤◌, ◌^◌, ◌∷◌, ◌++◌, ◌&&◌, ℕ, List, nat_eq, length, drop, IfOk};
ghost use Rattle.std.specs.Option.{IfNone, IfSome, option_map};
ghost use Rattle.xd_rules.specs.Heads as inclusion;
ghost use Rattle.xd_meaning.specs.Consistent.{Goal, right_heads};
ghost use Rattle.xd_rules.specs.Rules.{HeadAtom, atoms_from, wanted};
ghost use Rattle.xd_meaning.specs.Heads.{heads};
ghost use Rattle.xd_laws.proofs.FirstWrong.{same_atom, wrong_cases};
ghost use Rattle.xd_syntax.specs.Table.{Row};
ghost use Rattle.xd_syntax.specs.Tree.{Definitions};
ghost use Rattle.xd_moves.specs.Cells.{Cell};
ghost use Rattle.xd_proof_check.specs.Atoms.{AreNamed, kinds_of};
ghost use Rattle.xd_proof_check.specs.CaseWalk.{CasesFit, IsKept, IsWithin, Meets, cases_of, wrong_after, wrong_behind};
ghost use Rattle.xd_proof_check.specs.Paths.{IsClear, KeepsRoom};
ghost use Rattle.xd_proof_check.specs.Reasons.{reason_of};

use crate::atoms::{Named, are_same, atoms_of, named_in};
use crate::path::Path;
use crate::verdict::Reason;
use crate::walk::{Setting, check_tree};
use std::alloc::Global;
use xd_doc::NoMemory;
use xd_heads::NumberedHead;
use xd_proof::{Atom, ProofGoal, ReadCase};

/// The cases of a goal, and what they are looked at in.
#[derive(Clone, Copy)]
pub(crate) struct Cases<'a> {
    pub goals: &'a [ProofGoal],
    /// The number of each type of the program.
    pub numbers: &'a [usize],
    pub cases: &'a [ReadCase],
    /// The heads of the goal's left, and of its rights.
    pub left: &'a [NumberedHead],
    pub rights: &'a [NumberedHead],
    /// The numbers of the contents and of the rests of the latter.
    pub contents: &'a [usize],
    pub rests: &'a [usize],
}

/// How far the cases of a left head have come.
pub(crate) enum Progress {
    /// They are right; the next one stands at this position.
    Behind(usize),
    /// The one at this position is wrong.
    Broken(usize, Reason),
}

/// The position of the first case that is wrong, and what is wrong with it. Where one is missing it
/// is the position after the last one.
pub(crate) fn check_cases(
    alloc: Global,
    cases: &Cases,
    path: &mut Path,
) -> Result<Option<(usize, Reason)>, NoMemory>
    requires fit { CasesFit (cases_of cases.now) path.old }
    requires clear { IsClear path.old }
    ensures found { IfOk result (λ found. (types : List Row) (cells : List Cell) (E : Definitions) (gs : List Goal) (g : Goal) (line : ℕ) → Meets types cells E gs g (cases_of cases.now) → wrong_cases E gs g line (wanted (heads E g.left) (right_heads E g)) g.cases ≡ option_map (λ (p : ℕ × Reason). (line + p.0, reason_of p.1)) found) }
    ensures within { IfOk result (λ found. IfSome found (λ p. p.0 ≤ length cases.now.cases.now)) }
    ensures clear { IfOk result (λ found. IfNone found (IsClear path.new)) }
    ensures keeps { IfOk result (λ found. IfNone found (KeepsRoom path.old path.new)) }
{
    let named = named_in(alloc, cases.left, cases.rights)?;
    let mut at = 0;
    for left in 0..cases.left.len() {
        match head_cases(alloc, cases, left, &named, at, path)? {
            Progress::Behind(next) => at = next,
            Progress::Broken(bad, reason) => return Ok(Some((bad, reason))),
        }
    }
    if at < cases.cases.len() {
        return Ok(Some((at, Reason::Case)));
    }
    Ok(None)
}

/// Looks at the cases of a left head, which begin at this position.
fn head_cases(
    alloc: Global,
    cases: &Cases,
    left: usize,
    named: &Named,
    at: usize,
    path: &mut Path,
) -> Result<Progress, NoMemory>
    requires fit { CasesFit (cases_of cases.now) path.old }
    requires clear { IsClear path.old }
    requires left { left < length cases.now.left.now }
    requires named { AreNamed (kinds_of cases.now.left.now ++ kinds_of cases.now.rights.now) named.now }
    requires within { at ≤ length cases.now.cases.now }
    ensures found { IfOk result (λ progress. (types : List Row) (cells : List Cell) (E : Definitions) (gs : List Goal) (g : Goal) (line : ℕ) → Meets types cells E gs g (cases_of cases.now) → wrong_cases E gs g (line + at) (atoms_from (inclusion.named_in (heads E g.left ++ right_heads E g)) (left + 1) (drop left (heads E g.left))) (drop at g.cases) ≡ wrong_behind E gs g line progress (atoms_from (inclusion.named_in (heads E g.left ++ right_heads E g)) (left + 1 + 1) (drop (left + 1) (heads E g.left)))) }
    ensures within { IfOk result (IsWithin (length cases.now.cases.now)) }
    ensures clear { IfOk result (λ progress. IsKept progress (IsClear path.new × KeepsRoom path.old path.new)) }
{
    let atoms = atoms_of(alloc, &cases.left[left].kind, named)?;
    let mut at = at;
    for atom in &atoms {
        if let Some(reason) = check_case(cases, at, left, atom, path)? {
            return Ok(Progress::Broken(at, reason));
        }
        at += 1;
    }
    Ok(Progress::Behind(at))
}

/// What is wrong with the case at this position, which is to be that of this left head and this
/// atom.
fn check_case(
    cases: &Cases,
    at: usize,
    left: usize,
    atom: &Atom,
    path: &mut Path,
) -> Result<Option<Reason>, NoMemory>
    requires fit { CasesFit (cases_of cases.now) path.old }
    requires clear { IsClear path.old }
    requires left { left < length cases.now.left.now }
    ensures found { IfOk result (λ found. (types : List Row) (cells : List Cell) (E : Definitions) (gs : List Goal) (g : Goal) (line : ℕ) (ws : List HeadAtom) → Meets types cells E gs g (cases_of cases.now) → wrong_cases E gs g line ((left + 1, atom.now) ∷ ws) (drop at g.cases) ≡ wrong_after line found (wrong_cases E gs g (line + 1) ws (drop (at + 1) g.cases))) }
    ensures within { IfOk result (λ found. IfNone found (at < length cases.now.cases.now)) }
    ensures clear { IfOk result (λ found. IfNone found (IsClear path.new)) }
    ensures keeps { IfOk result (λ found. IfNone found (KeepsRoom path.old path.new)) }
{
    let Some(case) = cases.cases.get(at) else {
        return Ok(Some(Reason::Case));
    };
    if !is_wanted(case, left, atom) {
        return Ok(Some(Reason::Case));
    }
    let head = &cases.left[left];
    let setting = Setting {
        goals: cases.goals,
        numbers: cases.numbers,
        atom: &case.atom,
        rights: cases.rights,
        contents: cases.contents,
        rests: cases.rests,
        left_content: head.content,
        left_rest: head.rest,
    };
    check_tree(&setting, &case.steps, path)
}

/// Whether the case is that of this left head, by its position, and this atom.
fn is_wanted(case: &ReadCase, left: usize, atom: &Atom) -> bool
    requires { left + 1 < 2 ^ 64 }
    ensures { result ≡ (nat_eq case.now.head (left + 1) && same_atom case.now.atom atom.now) }
{
    case.head == left as u64 + 1 && are_same(&case.atom, atom)
}
