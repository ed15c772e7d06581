//! Flags and numbers by the numbers of nodes.

/// The number at a place, or 0.
pub(crate) fn at(list: &[u64], place: usize) -> u64 {
    list.get(place).copied().unwrap_or(0)
}

/// Writes a number at a place, if there is one.
pub(crate) fn put(list: &mut [u64], place: usize, value: u64) {
    if place < list.len() {
        list[place] = value;
    }
}

/// Whether the flag at a place is set.
pub(crate) fn is_set(flags: &[bool], place: usize) -> bool {
    flags.get(place).copied().unwrap_or(false)
}

/// Sets the flag at a place, if there is one; whether it wasn't set before.
pub(crate) fn set_new(flags: &mut [bool], place: usize) -> bool {
    if place < flags.len() && !flags[place] {
        flags[place] = true;
        true
    } else {
        false
    }
}
