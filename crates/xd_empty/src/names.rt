//! A label or a text of a class.

ghost use Rattle.std.specs.Prelude.{◌≡◌, true, IfOk};
ghost use Rattle.xd_doc.specs.Classes.{class_has};

use std::alloc::Global;
use xd_doc::{Class, Label, NoMemory, Text, Words};

/// A label that the class has: the first that it names, or, of a class that excepts names, the
/// first of `x`, `xx`, `xxx` and so on that isn't excepted.
///
/// Fails only where memory is refused.
pub fn some_label(alloc: Global, class: &Class) -> Result<Label, NoMemory>
    ensures { IfOk result (λ label. class_has class.now label ≡ true) }
{
    let names = class.names();
    if class.takes_others() {
        other_label(alloc, class)
    } else {
        names[0].share()
    }
}

fn other_label(alloc: Global, class: &Class) -> Result<Label, NoMemory>
    requires { class.now.except ≡ true }
    ensures { IfOk result (λ label. class_has class.now label ≡ true) }
{
    let mut word = String::from_str(alloc, "x")?;
    loop {
        let label = Label::new(alloc, word.as_str())?;
        if class.has(&label) {
            return Ok(label);
        }
        word.push('x')?;
    }
}

/// A text that the class has: the first that it names, or, of a class that excepts texts, the first
/// of the empty text, `x`, `xx` and so on that isn't excepted.
///
/// Fails only where memory is refused.
pub fn some_text(alloc: Global, words: &Words) -> Result<Text, NoMemory>
    ensures { IfOk result (λ text. class_has words.now text ≡ true) }
{
    let texts = words.texts();
    if words.takes_others() {
        other_text(alloc, words)
    } else {
        texts[0].share()
    }
}

fn other_text(alloc: Global, words: &Words) -> Result<Text, NoMemory>
    requires { words.now.except ≡ true }
    ensures { IfOk result (λ text. class_has words.now text ≡ true) }
{
    let mut word = String::new(alloc);
    loop {
        let text = Text::new(alloc, word.as_str())?;
        if words.has(&text) {
            return Ok(text);
        }
        word.push('x')?;
    }
}
