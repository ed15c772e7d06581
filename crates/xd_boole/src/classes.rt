//! Classes of labels that are told apart without a new class.

ghost use Rattle.std.specs.Prelude.{◌≡◌, ◌&&◌, not, true, false, List, ℕ, IfOk};
ghost use Rattle.xd_doc.specs.Classes.{class_has, is_named};
ghost use Rattle.xd_doc.specs.ClassForms.{IsPart};

use xd_doc::{Class, Label, NoMemory, Text, Words};

/// Whether none of the labels is in the class.
fn has_none(class: &Class, names: &[Label]) -> bool
    ensures { result ≡ true → (x : List ℕ) → is_named names.now x ≡ true → class_has class.now x ≡ false }
{
    for name in names {
        if class.has(name) {
            return false;
        }
    }
    true
}

/// Whether each of the labels is in the class.
fn has_each(class: &Class, names: &[Label]) -> bool
    ensures { result ≡ true → (x : List ℕ) → is_named names.now x ≡ true → class_has class.now x ≡ true }
{
    for name in names {
        if !class.has(name) {
            return false;
        }
    }
    true
}

/// Whether it is seen that the classes have no label in common. Where one of them names its labels
/// it always is.
pub(crate) fn are_apart(one: &Class, two: &Class) -> bool
    ensures { result ≡ true → (x : List ℕ) → (class_has one.now x && class_has two.now x) ≡ false }
{
    if !two.takes_others() {
        return has_none(one, two.names());
    }
    if !one.takes_others() {
        return has_none(two, one.names());
    }
    false
}

/// Whether it is seen that the first class has all labels of the second.
pub(crate) fn has_all_of(one: &Class, two: &Class) -> bool
    ensures { result ≡ true → (x : List ℕ) → class_has two.now x ≡ true → class_has one.now x ≡ true }
{
    if !two.takes_others() {
        return has_each(one, two.names());
    }
    one.takes_others() && has_none(two, one.names())
}

/// The labels that both classes have, or `None` where there are none. The first class is shared where
/// it is seen that the second has all of them. Fails only where memory is refused.
pub fn common_labels(one: &Class, two: &Class) -> Result<Option<Class>, NoMemory>
    ensures { IfOk result (IsPart true one.now two.now) }
{
    if has_all_of(two, one) {
        let all = one.share()?;
        return Ok(Some(all));
    }
    Ok(one.meet(two)?)
}

/// Whether none of the texts is in the class.
fn has_no_text(words: &Words, texts: &[Text]) -> bool
    ensures { result ≡ true → (x : List ℕ) → is_named texts.now x ≡ true → class_has words.now x ≡ false }
{
    for text in texts {
        if words.has(text) {
            return false;
        }
    }
    true
}

/// The same as [`are_apart`] of classes of texts.
pub(crate) fn are_texts_apart(one: &Words, two: &Words) -> bool
    ensures { result ≡ true → (x : List ℕ) → (class_has one.now x && class_has two.now x) ≡ false }
{
    if !two.takes_others() {
        return has_no_text(one, two.texts());
    }
    if !one.takes_others() {
        return has_no_text(two, one.texts());
    }
    false
}
