//! The check of a program.

ghost use Rattle.std.specs.Prelude.{◌≡◌, [], IfOk, List};
ghost use Rattle.xd_doc.specs.Document.{Document};
ghost use Rattle.xd_doc.specs.StoreNodes.{Keeps};
ghost use Rattle.xd_syntax.specs.Kept.{AddsTypes, ProgramTable, program_tree};
ghost use Rattle.xd_check_steps.specs.Known.{IsKnown};
ghost use Rattle.xd_check.specs.Outcome.{AreTold, IsOutcome};
ghost use Rattle.xd_check.specs.Ready.{IsReady};

use crate::checker::Checker;
use std::alloc::Global;
use xd_auto::Auto;
use xd_check_steps::{Findings, Told, sort_lines, tell};
use xd_doc::{NoMemory, Store};
use xd_sound::{Checked, SoundProgram};
use xd_syntax::{Fault, Warning};

/// What a check gives: the program as an accepted one, or its faults; and its warnings.
///
/// Both lists are all that there are, in order of place, then of number.
#[derive(Drop)]
pub enum CheckOutcome {
    Accepted {
        checked: Checked,
        warnings: Vec<Warning>,
    },
    Refused {
        faults: Vec<Fault>,
        warnings: Vec<Warning>,
    },
}

/// Looks for all faults of matches, arguments and results in a program, and for all clauses that
/// are never reached; the body of such a clause isn't looked at.
///
/// The documents that faults carry are put into the store. The program is given up where it is
/// refused, and where memory runs out.
pub fn check(
    alloc: Global,
    sound: SoundProgram,
    store: &mut Store,
) -> Result<CheckOutcome, NoMemory>
    ensures outcome { IfOk result (IsOutcome sound store.new) }
    ensures keeps { Keeps store.old store.new }
{
    let mut auto = Auto::new(alloc);
    check_in(alloc, sound, &mut auto, store)
}

/// The same by states of this automaton.
fn check_in(
    alloc: Global,
    sound: SoundProgram,
    auto: &mut Auto,
    store: &mut Store,
) -> Result<CheckOutcome, NoMemory>
    ensures outcome { IfOk result (IsOutcome sound store.new) }
    ensures keeps { Keeps store.old store.new }
{
    let checker = Checker::new(alloc, sound, auto)?;
    let told = told_by(alloc, &checker, auto, store)?;
    Ok(outcome_of(told, checker.into_sound()))
}

/// What a check gives where this was told of a program.
fn outcome_of(told: Told, sound: SoundProgram) -> CheckOutcome
    requires { (ds : List Document) × AreTold (program_tree sound) ds told }
    ensures { (given : ProgramTable) (ds : List Document) → AreTold (program_tree given) ds told → AddsTypes given sound → program_tree sound ≡ program_tree given → IsOutcome given ds result }
{
    let Told { faults, warnings } = told;
    if !faults.is_empty() {
        return CheckOutcome::Refused { faults, warnings };
    }
    CheckOutcome::Accepted {
        checked: Checked::new(sound),
        warnings,
    }
}

/// The lines of all functions as faults and as warnings, in order.
fn told_by(
    alloc: Global,
    checker: &Checker,
    auto: &mut Auto,
    store: &mut Store,
) -> Result<Told, NoMemory>
    requires { IsReady checker.now auto.old }
    ensures told { IfOk result (AreTold (program_tree checker.now.sound) store.new) }
    ensures keeps { Keeps store.old store.new }
{
    let mut findings = Findings::new(alloc, auto, store);
    tell_all(checker, auto, &mut findings, store)
}

/// The same where no line was found yet.
fn tell_all(
    checker: &Checker,
    auto: &mut Auto,
    findings: &mut Findings,
    store: &mut Store,
) -> Result<Told, NoMemory>
    requires ready { IsReady checker.now auto.old }
    requires known { IsKnown auto.old store.old findings.old.known }
    requires lines { findings.old.lines.items ≡ [] }
    ensures told { IfOk result (AreTold (program_tree checker.now.sound) store.new) }
    ensures keeps { Keeps store.old store.new }
{
    checker.in_functions(auto, findings, store)?;
    sort_lines(&mut findings.lines)?;
    let told = tell(checker.alloc, &findings.lines)?;
    Ok(told)
}
