//! What is written of a run.

use crate::directive::Shown;
use crate::error::CaseError;
use crate::run::Ended;
use std::io::Write;

/// Of a longer output only so many bytes are written.
const LONGEST: usize = 1000;

/// Appends the lines of an output, each after a `>`.
///
/// A line `.. N bytes` follows where it is cut to its first bytes, and `no line end` where it lacks
/// one.
pub fn show_output(out: &mut Vec<u8>, output: &[u8]) -> Result<(), CaseError> {
    let mut begins = true;
    for byte in &output[..output.len().min(LONGEST)] {
        if begins {
            out.extend_from_slice(b"> ")?;
        }
        out.push(*byte)?;
        begins = *byte == b'\n';
    }
    if output.len() > LONGEST {
        writeln!(out, "\n.. {} bytes", output.len())?;
    } else if !begins {
        out.extend_from_slice(b"\nno line end\n")?;
    }
    Ok(())
}

/// Appends the line of a run's status, and after it its output.
pub fn show_run(out: &mut Vec<u8>, status: u8, output: &[u8]) -> Result<(), CaseError> {
    writeln!(out, "status {status}")?;
    show_output(out, output)
}

/// Appends a line for each status and how often it comes in a row: `status 4 x 10`, then `status 0
/// x 1`.
///
/// Where outputs are shown, runs in a row have to write the same too, and what they write stands
/// after the line.
pub fn show_runs(out: &mut Vec<u8>, runs: &[Ended], shown: Shown) -> Result<(), CaseError> {
    let has_outputs = matches!(shown, Shown::Outputs);
    for row in runs.chunk_by(|one, next| {
        one.status == next.status && (!has_outputs || one.output == next.output)
    }) {
        if let Some(run) = row.first() {
            writeln!(out, "status {} x {}", run.status, row.len())?;
            if has_outputs {
                show_output(out, &run.output)?;
            }
        }
    }
    Ok(())
}
