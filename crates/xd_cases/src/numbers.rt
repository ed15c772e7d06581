//! Texts with one number changed. A number of a text is a row of digits, as long as there are.

use crate::error::CaseError;
use std::alloc::Global;
use std::io::Write;

/// Whether a piece of a text, cut where digits begin and end, is a number.
fn is_number(piece: &[u8]) -> bool {
    piece.first().is_some_and(|byte| byte.is_ascii_digit())
}

/// How many numbers a text has.
pub fn count_numbers(text: &[u8]) -> usize {
    let mut count: usize = 0;
    for piece in text.chunk_by(|one, next| one.is_ascii_digit() == next.is_ascii_digit()) {
        if is_number(piece) {
            count = count.saturating_add(1);
        }
    }
    count
}

/// The text with its number of this rank, from 0, one up or one down. A zero has none below it.
pub fn with_changed_number(
    alloc: Global,
    text: &[u8],
    rank: usize,
    up: bool,
) -> Result<Vec<u8>, CaseError> {
    let mut made = Vec::new(alloc);
    let mut count: usize = 0;
    for piece in text.chunk_by(|one, next| one.is_ascii_digit() == next.is_ascii_digit()) {
        if is_number(piece) && count == rank {
            push_changed(&mut made, piece, up)?;
        } else {
            made.extend_from_slice(piece)?;
        }
        if is_number(piece) {
            count = count.saturating_add(1);
        }
    }
    Ok(made)
}

/// Appends the number that these digits spell, one up or one down.
fn push_changed(made: &mut Vec<u8>, digits: &[u8], up: bool) -> Result<(), CaseError> {
    let number = str::from_utf8(digits).unwrap_or("").parse::<u64>()?;
    let changed = if up {
        number.saturating_add(1)
    } else {
        number.saturating_sub(1)
    };
    write!(made, "{changed}")?;
    Ok(())
}
