//! Bits, packed into words of 64.

ghost use Rattle.std.specs.Prelude.{◌≡◌, ◌+◌, ◌*◌, ◌<◌, length, vec_capacity};
ghost use Rattle.xd_auto.specs.Marks.{SetsBit, bit_of};

/// Whether the bit of the word is set.
pub fn is_set(words: &[u64], word: usize, bit: usize) -> bool
    requires word { word < length words.now }
    requires bit { bit < 64 }
    ensures { result ≡ bit_of words.now (64 * word + bit) }
{
    (words[word] >> bit) & 1 == 1
}

/// Sets the bit of the word, or takes it away.
pub fn set_bit(words: &mut Vec<u64>, word: usize, bit: usize, value: bool)
    requires word { word < length words.old.items }
    requires bit { bit < 64 }
    ensures set { SetsBit (64 * word + bit) value words.old.items words.new.items }
    ensures capacity { vec_capacity words.new ≡ vec_capacity words.old }
{
    let mask = 1 << bit;
    let changed = &mut words[word];
    *changed = if value {
        *changed | mask
    } else {
        *changed & !mask
    };
}
