//! The lines of faults and warnings.

ghost use Rattle.std.specs.Prelude.{◌≡◌, ◌++◌, OnOk, OnErr};
ghost use Rattle.xd_report.specs.Report.{fault_front, fault_text};
ghost use Rattle.xd_report.specs.WarningText.{warning_text};
ghost use Rattle.xd_report.specs.Carries.{CarriesFrom};
ghost use Rattle.xd_report.specs.Kept.{IsKept};

use crate::kind::write_kind;
use crate::texts::{write_place_front, write_texts};
use itoa::Buffer;
use std::alloc::Global;
use xd_base::Place;
use xd_doc::{NoMemory, Store};
use xd_syntax::{Fault, Warning};

/// Appends the line of a fault, its line feed included.
///
/// The documents that the fault carries are documents of the store. After `NoMemory` `out` holds
/// what it held.
pub fn fault_line(
    alloc: Global,
    store: &Store,
    fault: &Fault,
    out: &mut Vec<u8>,
) -> Result<(), NoMemory>
    requires { CarriesFrom store.now fault.now.kind }
    ensures ok { OnOk result (out.new.items ≡ out.old.items ++ fault_text store.now fault.now) }
    ensures err { OnErr result (out.new.items ≡ out.old.items) }
{
    let before = out.len();
    let written = write_fault(alloc, store, fault, out);
    if written.is_err() {
        out.truncate(before);
    }
    written
}

fn write_fault(
    alloc: Global,
    store: &Store,
    fault: &Fault,
    out: &mut Vec<u8>,
) -> Result<(), NoMemory>
    requires { CarriesFrom store.now fault.now.kind }
    ensures ok { OnOk result (out.new.items ≡ out.old.items ++ fault_text store.now fault.now) }
    ensures kept { IsKept out.old.items out.new.items }
{
    let mut digits = Buffer::new();
    write_fault_front(fault.place, out)?;
    write_texts(&["fault ", digits.format(fault.kind.number()), ": "], out)?;
    write_kind(alloc, store, &fault.kind, out)?;
    out.push(b'\n')?;
    Ok(())
}

/// Appends the front of a fault, which is nothing where it has no place.
fn write_fault_front(place: Option<Place>, out: &mut Vec<u8>) -> Result<(), NoMemory>
    ensures ok { OnOk result (out.new.items ≡ out.old.items ++ fault_front place) }
    ensures kept { IsKept out.old.items out.new.items }
{
    match place {
        None => Ok(()),
        Some(place) => write_place_front(place, out),
    }
}

/// Appends the line of a warning, its line feed included.
///
/// After `NoMemory` `out` holds what it held.
pub fn warning_line(_alloc: Global, warning: &Warning, out: &mut Vec<u8>) -> Result<(), NoMemory>
    ensures ok { OnOk result (out.new.items ≡ out.old.items ++ warning_text warning.now) }
    ensures err { OnErr result (out.new.items ≡ out.old.items) }
{
    let before = out.len();
    let written = write_warning(warning.place, out);
    if written.is_err() {
        out.truncate(before);
    }
    written
}

fn write_warning(place: Place, out: &mut Vec<u8>) -> Result<(), NoMemory>
    ensures ok { OnOk result (out.new.items ≡ out.old.items ++ warning_text (record { place = place })) }
    ensures kept { IsKept out.old.items out.new.items }
{
    write_place_front(place, out)?;
    write_texts(&["warning 1: clause is never reached\n"], out)
}
