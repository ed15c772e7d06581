//! The lines of faults and of warnings, in order.

ghost use Rattle.std.specs.Prelude.{◌≡◌, ◌+◌, ◌++◌, ◌<◌, ◌≤◌, ℕ, List, length, IfOk};
ghost use Rattle.std.specs.List.{AllByRecursion};
ghost use Rattle.xd_report.specs.Carries.{CarriesFrom};
ghost use Rattle.xd_syntax.specs.Order.{is_earlier};
ghost use Rattle.xd_command_steps.specs.Merging.{IsMerged, IsNextLine, stands_behind};

use std::alloc::Global;
use xd_base::Place;
use xd_doc::{NoMemory, Store};
use xd_report::{fault_line, warning_line};
use xd_syntax::{Fault, Warning};

/// The next line of a report, and the others of its kind.
pub(crate) enum NextLine<'a> {
    Fault(&'a Fault, &'a [Fault]),
    Warning(&'a Warning, &'a [Warning]),
}

fn is_earlier(one: Place, other: Place) -> bool
    ensures { result ≡ is_earlier one other }
{
    one.line < other.line || (one.line == other.line && one.column < other.column)
}

/// Whether the fault stands at a later place than the warning.
fn stands_behind(fault: &Fault, warning: &Warning) -> bool
    ensures { result ≡ stands_behind fault.now warning.now }
{
    match fault.place {
        Some(place) => is_earlier(warning.place, place),
        None => false,
    }
}

/// The line that comes next, where faults and warnings each stand in order: a warning stands after
/// the faults of its place.
fn next_line<'a>(faults: &'a [Fault], warnings: &'a [Warning]) -> Option<NextLine<'a>>
    ensures { IsNextLine faults.now warnings.now result }
{
    match (faults, warnings) {
        ([], []) => None,
        ([fault, rest @ ..], []) => Some(NextLine::Fault(fault, rest)),
        ([], [warning, rest @ ..]) => Some(NextLine::Warning(warning, rest)),
        ([fault, faults_left @ ..], [warning, warnings_left @ ..]) => {
            if stands_behind(fault, warning) {
                Some(NextLine::Warning(warning, warnings_left))
            } else {
                Some(NextLine::Fault(fault, faults_left))
            }
        }
    }
}

/// The lines of faults and of warnings, each of which stand in order, in order of place.
///
/// Fails only where memory is refused.
pub fn report_lines(
    alloc: Global,
    store: &Store,
    faults: &[Fault],
    warnings: &[Warning],
) -> Result<Vec<u8>, NoMemory>
    requires { AllByRecursion (λ f. CarriesFrom store.now f.kind) faults.now }
    ensures { IfOk result (λ text. IsMerged store.now faults.now warnings.now text.items) }
{
    let mut text = Vec::new(alloc);
    let mut faults_left = faults;
    let mut warnings_left = warnings;
    while let Some(line) = next_line(faults_left, warnings_left) {
        match line {
            NextLine::Fault(fault, rest) => {
                fault_line(alloc, store, fault, &mut text)?;
                faults_left = rest;
            }
            NextLine::Warning(warning, rest) => {
                warning_line(alloc, warning, &mut text)?;
                warnings_left = rest;
            }
        }
    }
    Ok(text)
}
