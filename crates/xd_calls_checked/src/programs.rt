//! What the check says of a program.

use std::io::Write;
use xd_calls_lines::{Call, CallError, show_place};
use xd_calls_programs::program_of;
use xd_check::{CheckOutcome, check};
use xd_doc::Store;
use xd_sound::Checked;
use xd_syntax::{Fault, Warning};

/// What the check says of the program of a call, which is its text.
fn outcome_of(call: &Call<'_>) -> Result<CheckOutcome, CallError> {
    let sound = program_of(call)?;
    let mut store = Store::new(call.alloc);
    Ok(check(call.alloc, sound, &mut store)?)
}

/// `check`: whether the program is accepted, or its faults by number; and its warnings.
pub fn show_check(call: &Call<'_>, out: &mut Vec<u8>) -> Result<(), CallError> {
    match outcome_of(call)? {
        CheckOutcome::Accepted { warnings, .. } => {
            writeln!(out, "accepted")?;
            show_warnings(&warnings, out)
        }
        CheckOutcome::Refused { faults, warnings } => {
            show_faults(&faults, out)?;
            show_warnings(&warnings, out)
        }
    }
}

fn show_faults(faults: &[Fault], out: &mut Vec<u8>) -> Result<(), CallError> {
    for fault in faults {
        if let Some(place) = fault.place {
            show_place(place, out)?;
            out.push(b' ')?;
        }
        writeln!(out, "fault {}", fault.kind.number())?;
    }
    Ok(())
}

fn show_warnings(warnings: &[Warning], out: &mut Vec<u8>) -> Result<(), CallError> {
    for warning in warnings {
        show_place(warning.place, out)?;
        writeln!(out, " warning")?;
    }
    Ok(())
}

/// The program of a call, which the check accepts.
pub fn checked_of(call: &Call<'_>) -> Result<Checked, CallError> {
    match outcome_of(call)? {
        CheckOutcome::Accepted { checked, .. } => Ok(checked),
        CheckOutcome::Refused { .. } => Err(CallError::Malformed),
    }
}
