//! Lines of faults and warnings, as they are found.

ghost use Rattle.std.specs.Prelude.{◌≡◌, List, IfOk, OnOk};
ghost use Rattle.xd_doc.specs.Document.{Document};
ghost use Rattle.xd_syntax.specs.CheckFaults.{rank};
ghost use Rattle.xd_syntax.specs.Order.{ordered};
ghost use Rattle.xd_meaning.specs.KeptFaults.{AreFaultsOf, AreWarningsOf};
ghost use Rattle.xd_check_steps.specs.FoundLines.{LinesBelong, fault_kind_of, found_precedes, kind_of, lines_of};

use std::alloc::Global;
use xd_base::Place;
use xd_doc::{NoMemory, Seq};
use xd_syntax::{Fault, FaultKind, Warning};

/// What a line says, with the document that it carries.
#[derive(Clone, Copy)]
pub enum Finding {
    NotExhaustive(Seq),
    Argument(Seq),
    Result(Seq),
    DeadClause,
}

/// A line of the report.
#[derive(Clone, Copy)]
pub struct FoundLine {
    pub place: Place,
    pub finding: Finding,
}

/// Lines as faults and as warnings.
#[derive(Drop)]
pub struct Told {
    pub faults: Vec<Fault>,
    pub warnings: Vec<Warning>,
}

impl Finding {
    /// The order of lines of one place: faults by their numbers in reports, then a warning.
    fn rank(self) -> u64
        ensures { result ≡ rank (kind_of self) }
    {
        match self {
            Finding::NotExhaustive(_) => 0,
            Finding::Argument(_) => 1,
            Finding::Result(_) => 2,
            Finding::DeadClause => 3,
        }
    }

    /// The fault that it is; none for a warning.
    fn fault_kind(self) -> Option<FaultKind>
        ensures { result ≡ fault_kind_of self }
    {
        match self {
            Finding::NotExhaustive(document) => Some(FaultKind::NotExhaustive(document)),
            Finding::Argument(document) => Some(FaultKind::Argument(document)),
            Finding::Result(document) => Some(FaultKind::Result(document)),
            Finding::DeadClause => None,
        }
    }
}

/// Sorts lines by place, then by number; equal ones stay in their order.
///
/// After `NoMemory` nothing is said of their order.
pub fn sort_lines(lines: &mut Vec<FoundLine>) -> Result<(), NoMemory>
    ensures { OnOk result (lines.new.items ≡ ordered found_precedes lines.old.items) }
{
    lines.sort_by_key(|line| (line.place, line.finding.rank()))?;
    Ok(())
}

/// The lines as faults and as warnings, in their order.
pub fn tell(alloc: Global, lines: &[FoundLine]) -> Result<Told, NoMemory>
    ensures faults { IfOk result (λ told. (ds : List Document) → LinesBelong ds lines.now → AreFaultsOf ds (lines_of ds lines.now) told.faults.items) }
    ensures warnings { IfOk result (λ told. (ds : List Document) → AreWarningsOf (lines_of ds lines.now) told.warnings.items) }
{
    let mut faults = Vec::new(alloc);
    let mut warnings = Vec::new(alloc);
    for line in lines {
        match line.finding.fault_kind() {
            Some(kind) => faults.push(Fault {
                place: Some(line.place),
                kind,
            })?,
            None => warnings.push(Warning { place: line.place })?,
        }
    }
    Ok(Told { faults, warnings })
}
