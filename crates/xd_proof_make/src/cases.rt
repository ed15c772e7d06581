//! The choices of a goal of a table as cases of a goal of a proof.

ghost use Rattle.std.specs.Prelude.{◌≡◌, ◌<◌, ◌+◌, ◌++◌, ◌^◌, List, map, length, IfOk, OnOk};
ghost use Rattle.xd_proof.specs.declared.cases.ReadCase.{ReadCase};
ghost use Rattle.std.specs.List.{AllByRecursion, AllZip};
ghost use Rattle.xd_proof.specs.Parts.{IsAtom};
ghost use Rattle.xd_proof_make.specs.Few.{AreFew};
ghost use Rattle.xd_proof_make.specs.Places.{new_numbers};
ghost use Rattle.xd_proof_make.specs.Ordered.{AreWrittenCases, IsCut, IsMadeOf, IsStepWithin, IsWritable, written_step};

use crate::places::Place;
use crate::steps::table_steps;
use std::alloc::Global;
use xd_doc::NoMemory;
use xd_goals::{Choice, Table};
use xd_proof::{ReadCase, Step};
use xd_rules::{Atom, share};

/// The choices before the first whose head has at least this number, and the others.
fn cut_choices(choices: &[Choice], bound: usize) -> (&[Choice], &[Choice])
    ensures { IsCut bound choices.now result.0.now result.1.now }
{
    for (index, choice) in choices.iter().enumerate() {
        if choice.head >= bound {
            return choices.split_at(index);
        }
    }
    choices.split_at(choices.len())
}

/// An equal atom. A proof text can spell each that there is.
fn share_atom(atom: &Atom) -> Result<Atom, NoMemory>
    ensures same { IfOk result (λ made. made ≡ atom.now) }
    ensures spelled { IsAtom atom.now }
{
    match atom {
        Atom::Label(label) => {
            let _word = label.as_str();
        }
        Atom::Text(text) => {
            let _characters = text.as_str();
        }
        _ => {}
    }
    share(atom)
}

/// The step, with a proof's numbers.
fn write_step(goals: &[usize], heads: &[Place], step: Step) -> Step
    requires { IsStepWithin (length goals.now) (length heads.now) step }
    ensures { result ≡ written_step (new_numbers heads.now) goals.now step }
{
    match step {
        Step::Content(goal) => Step::Content(goals[goal as usize] as u64),
        Step::Rest(goal) => Step::Rest(goals[goal as usize] as u64),
        Step::Split(head) => Step::Split(heads[head as usize - 1].number as u64),
    }
}

/// The steps, with a proof's numbers.
fn write_steps(
    alloc: Global,
    goals: &[usize],
    heads: &[Place],
    steps: &[Step],
) -> Result<Vec<Step>, NoMemory>
    requires { AllByRecursion (IsStepWithin (length goals.now) (length heads.now)) steps.now }
    ensures { IfOk result (λ made. made.items ≡ map (written_step (new_numbers heads.now) goals.now) steps.now) }
{
    let mut written = Vec::new(alloc);
    for step in steps {
        written.push(write_step(goals, heads, *step))?;
    }
    Ok(written)
}

/// The choice as a case of the left head with this number.
fn write_case(
    alloc: Global,
    table: &Table,
    goals: &[usize],
    heads: &[Place],
    head: u64,
    choice: &Choice,
) -> Result<ReadCase, NoMemory>
    requires { IsWritable table.now.nodes (length goals.now) (length heads.now) choice.now }
    ensures { IfOk result (IsMadeOf table.now.nodes (new_numbers heads.now) goals.now head choice.now) }
{
    let steps = table_steps(alloc, table, choice.root)?;
    let steps = write_steps(alloc, goals, heads, &steps)?;
    let atom = share_atom(&choice.atom)?;
    Ok(ReadCase { head, atom, steps })
}

/// Adds the choices as cases of the left head with this number.
fn add_cases(
    alloc: Global,
    table: &Table,
    goals: &[usize],
    heads: &[Place],
    head: u64,
    choices: &[Choice],
    cases: &mut Vec<ReadCase>,
) -> Result<(), NoMemory>
    requires { AllByRecursion (IsWritable table.now.nodes (length goals.now) (length heads.now)) choices.now }
    ensures { OnOk result ((more : List ReadCase) × (cases.new.items ≡ cases.old.items ++ more) × AllZip (IsMadeOf table.now.nodes (new_numbers heads.now) goals.now head) choices.now more) }
{
    for choice in choices {
        cases.push(write_case(alloc, table, goals, heads, head, choice)?)?;
    }
    Ok(())
}

/// No more cases fit into memory.
fn see_few(cases: &[ReadCase])
    ensures { AreFew cases.now }
{}

/// The choices of a goal as cases: in the order of its left's heads, of which these are texts and
/// the others elements, so many.
pub(crate) fn write_cases(
    alloc: Global,
    table: &Table,
    goals: &[usize],
    heads: &[Place],
    sorts: &[bool],
    elements: usize,
    choices: &[Choice],
) -> Result<Vec<ReadCase>, NoMemory>
    requires writable { AllByRecursion (IsWritable table.now.nodes (length goals.now) (length heads.now)) choices.now }
    requires small { elements + length sorts.now + 2 < 2 ^ 64 }
    ensures cases { IfOk result (λ made. AreWrittenCases table.now.nodes (new_numbers heads.now) goals.now sorts.now elements choices.now made.items) }
    ensures few_cases { IfOk result (λ made. AreFew made.items) }
    ensures few_heads { AreFew heads.now }
{
    let (mut at_elements, mut at_texts) = cut_choices(choices, elements + 1);
    let mut element = 1;
    let mut text = elements + 1;
    let mut cases = Vec::new(alloc);
    for (index, is_text) in sorts.iter().enumerate() {
        let head = index as u64 + 1;
        if *is_text {
            let (front, back) = cut_choices(at_texts, text + 1);
            add_cases(alloc, table, goals, heads, head, front, &mut cases)?;
            at_texts = back;
            text += 1;
        } else {
            let (front, back) = cut_choices(at_elements, element + 1);
            add_cases(alloc, table, goals, heads, head, front, &mut cases)?;
            at_elements = back;
            element += 1;
        }
    }
    see_few(&cases);
    Ok(cases)
}
