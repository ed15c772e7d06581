//! Faults in order.

ghost use Rattle.std.specs.Prelude.{◌≡◌, OnOk};
ghost use Rattle.xd_syntax.specs.Order.{number_of, in_order};

use crate::fault::{Fault, FaultKind};
use xd_doc::NoMemory;

impl FaultKind {
    /// The number of the fault in reports.
    pub fn number(&self) -> u64
        ensures { result ≡ number_of self.now }
    {
        match self {
            FaultKind::NotUtf8 => 1,
            FaultKind::Syntax => 2,
            FaultKind::TooDeep => 3,
            FaultKind::DuplicateName(_) => 4,
            FaultKind::UnknownType(_) => 5,
            FaultKind::UnknownFunction(_) => 6,
            FaultKind::UnknownVariable(_) => 7,
            FaultKind::Arity(_, _, _) => 8,
            FaultKind::NotLinear(_) => 9,
            FaultKind::NotTail(_) => 10,
            FaultKind::Unguarded(_) => 11,
            FaultKind::NotExhaustive(_) => 12,
            FaultKind::Argument(_) => 13,
            FaultKind::Result(_) => 14,
            FaultKind::NoSuchName(_) => 15,
            FaultKind::NoMain => 16,
        }
    }
}

/// Sorts faults by place, then by number; equal ones stay in their order. `NoMemory` where there is
/// no room to sort them, and then nothing is said of their order.
pub fn sort_faults(faults: &mut Vec<Fault>) -> Result<(), NoMemory>
    ensures { OnOk result (faults.new.items ≡ in_order faults.old.items) }
{
    faults.sort_by_key(|fault| (fault.place, fault.kind.number()))?;
    Ok(())
}
