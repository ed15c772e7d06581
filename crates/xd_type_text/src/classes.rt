//! Classes of labels and of texts, written.

ghost use Rattle.std.specs.Prelude.{◌≡◌, ◌++◌, OnOk, map};
ghost use Rattle.xd_syntax.specs.TypeText.{class_text, labels_text, words_text, quoted_text};
ghost use Rattle.xd_type_text.specs.Waiting.{each_behind_bar};

use xd_doc::{Class, Label, NoMemory, Text, Words};
use xd_write::write_text;

/// Labels, each after a `|`.
fn write_more_labels(labels: &[Label], out: &mut Vec<u8>) -> Result<(), NoMemory>
    ensures { OnOk result (out.new.items ≡ out.old.items ++ each_behind_bar labels.now) }
{
    for label in labels {
        out.push(b'|')?;
        out.extend_from_slice(label.as_str().as_bytes())?;
    }
    Ok(())
}

/// Texts in quotes, each after a `|`.
fn write_more_texts(texts: &[Text], out: &mut Vec<u8>) -> Result<(), NoMemory>
    ensures { OnOk result (out.new.items ≡ out.old.items ++ each_behind_bar (map quoted_text texts.now)) }
{
    for text in texts {
        out.push(b'|')?;
        write_text(text.as_str(), out)?;
    }
    Ok(())
}

/// One label stands alone, more stand in parentheses.
fn write_label_list(labels: &[Label], out: &mut Vec<u8>) -> Result<(), NoMemory>
    ensures { OnOk result (out.new.items ≡ out.old.items ++ labels_text labels.now) }
{
    let Some((label, others)) = labels.split_first() else {
        out.extend_from_slice(b"()")?;
        return Ok(());
    };
    if others.is_empty() {
        out.extend_from_slice(label.as_str().as_bytes())?;
        return Ok(());
    }
    out.push(b'(')?;
    out.extend_from_slice(label.as_str().as_bytes())?;
    write_more_labels(others, out)?;
    out.push(b')')?;
    Ok(())
}

/// One text stands alone, more stand in parentheses.
fn write_text_list(texts: &[Text], out: &mut Vec<u8>) -> Result<(), NoMemory>
    ensures { OnOk result (out.new.items ≡ out.old.items ++ labels_text (map quoted_text texts.now)) }
{
    let Some((text, others)) = texts.split_first() else {
        out.extend_from_slice(b"()")?;
        return Ok(());
    };
    if others.is_empty() {
        write_text(text.as_str(), out)?;
        return Ok(());
    }
    out.push(b'(')?;
    write_text(text.as_str(), out)?;
    write_more_texts(others, out)?;
    out.push(b')')?;
    Ok(())
}

/// Appends a class of labels.
pub fn write_class(class: &Class, out: &mut Vec<u8>) -> Result<(), NoMemory>
    ensures { OnOk result (out.new.items ≡ out.old.items ++ class_text class.now) }
{
    let labels = class.names();
    if class.takes_others() {
        if labels.is_empty() {
            out.push(b'~')?;
            return Ok(());
        }
        out.push(b'^')?;
    }
    write_label_list(labels, out)
}

/// Appends a class of texts.
pub fn write_words(words: &Words, out: &mut Vec<u8>) -> Result<(), NoMemory>
    ensures { OnOk result (out.new.items ≡ out.old.items ++ words_text words.now) }
{
    if words.takes_others() {
        out.push(b'^')?;
    }
    write_text_list(words.texts(), out)
}
