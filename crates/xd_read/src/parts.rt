//! Texts and labels as parts of the text that is read.

ghost use Rattle.std.specs.Prelude.{◌≡◌, IfOk};
ghost use Rattle.xd_lex.specs.Spellings.{IsSpelling};
ghost use Rattle.xd_lex.specs.Spelled.{unescaped};
ghost use Rattle.xd_lex.specs.declared.Kind.TheVariants as kinds;
ghost use Rattle.xd_read.specs.Pending.{StandsAt};
ghost use Rattle.xd_read.specs.Reading.{word_of};

use std::alloc::Global;
use xd_doc::{Label, NoMemory, Text};
use xd_lex::{is_plain, unescape};

/// The text that this token spells, which stands at byte `at` of the source. It shares the source's
/// memory, unless there are escapes in it.
pub fn text_at(alloc: Global, source: &Text, at: usize, token: &str) -> Result<Text, NoMemory>
    requires spelled { IsSpelling kinds.Text token.now }
    requires stands { StandsAt source.now at token.now }
    ensures { IfOk result (λ text. text ≡ unescaped token.now) }
{
    if is_plain(token) {
        source.part(at + 1, at + token.len() - 1)
    } else {
        unescape(alloc, token)
    }
}

/// The label that this token spells together with its bracket. It shares the source's memory.
pub fn label_at(source: &Text, at: usize, token: &str) -> Result<Label, NoMemory>
    requires spelled { IsSpelling kinds.Label token.now }
    requires stands { StandsAt source.now at token.now }
    ensures { IfOk result (λ label. label ≡ word_of token.now) }
{
    let word = source.part(at, at + token.len() - 1)?;
    Ok(Label::from_text(word))
}
