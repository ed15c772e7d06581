//! Definitions of types that show no document.

use std::alloc::Global;
use std::io::Write;
use xd_calls_lines::CallError;
use xd_same_types::Pool;
use xd_shown::{Shown, free_names, none_around};

/// The first name that is free, as it stands for the label `none` around it, and how many
/// definitions there are.
pub(crate) fn show_shown(alloc: Global, out: &mut Vec<u8>) -> Result<(), CallError> {
    let shown = shown_of(alloc)?;
    let count = shown.sound.program().type_defs().len();
    writeln!(out, "{} of {count} definitions", shown.start.as_str())?;
    Ok(())
}

fn shown_of(alloc: Global) -> Result<Shown, CallError> {
    let words = free_names(alloc, &[], 1)?;
    let start = words[0].share()?;
    let mut pool = Pool::new(alloc);
    let body = none_around(alloc, &mut pool, &start)?;
    let types = pool.into_types();
    let shown = Shown::new(alloc, types, &words, &[body])?;
    Ok(shown)
}
