//! Forms as lists of numbers.

ghost use Rattle.std.specs.Prelude.{◌≡◌, ◌<◌, ◌++◌, ◌∷◌, [], map, length, IfOk, OnOk};
ghost use Rattle.std.specs.List.{AllByRecursion};
ghost use Rattle.xd_syntax.specs.Table.{PartsBelow};
ghost use Rattle.xd_syntax.specs.Types.{form_of, type_numbers};
ghost use Rattle.xd_moves.specs.Codes.{code_except, code_names, form_code, number_at};

use std::alloc::Global;
use xd_doc::{Class, Label, NoMemory, Text, Words};
use xd_syntax::{TypeForm, TypeId};

/// A form as a list of numbers, where the parts of the form have these.
pub(crate) fn code_of(
    alloc: Global,
    form: &TypeForm,
    numbers: &[usize],
) -> Result<Vec<usize>, NoMemory>
    requires { PartsBelow (length numbers.now) (form_of form.now) }
    ensures { IfOk result (λ code. code.items ≡ form_code (number_at numbers.now) (form_of form.now)) }
{
    match form {
        TypeForm::Empty => one_code(alloc, 0),
        TypeForm::Text => one_code(alloc, 1),
        TypeForm::Words(texts) => words_code(alloc, texts),
        TypeForm::Name(word) => name_code(alloc, word),
        TypeForm::Elem(class, content) => element_code(alloc, class, numbers[content.at()]),
        TypeForm::Seq(parts) => parts_code(alloc, 5, parts, numbers),
        TypeForm::Alt(parts) => parts_code(alloc, 6, parts, numbers),
        TypeForm::Star(part) => star_code(alloc, numbers[part.at()]),
        TypeForm::Plus(part) => part_code(alloc, 8, numbers[part.at()]),
        TypeForm::Opt(part) => part_code(alloc, 9, numbers[part.at()]),
    }
}

fn one_code(alloc: Global, kind: usize) -> Result<Vec<usize>, NoMemory>
    ensures { IfOk result (λ code. code.items ≡ kind ∷ []) }
{
    let mut code = Vec::new(alloc);
    code.push(kind)?;
    Ok(code)
}

/// The star of a part with this number.
pub(crate) fn star_code(alloc: Global, part: usize) -> Result<Vec<usize>, NoMemory>
    ensures { IfOk result (λ code. code.items ≡ 7 ∷ (part ∷ [])) }
{
    part_code(alloc, 7, part)
}

fn part_code(alloc: Global, kind: usize, part: usize) -> Result<Vec<usize>, NoMemory>
    ensures { IfOk result (λ code. code.items ≡ kind ∷ (part ∷ [])) }
{
    let mut code = Vec::new(alloc);
    code.push(kind)?;
    code.push(part)?;
    Ok(code)
}

fn parts_code(
    alloc: Global,
    kind: usize,
    parts: &[TypeId],
    numbers: &[usize],
) -> Result<Vec<usize>, NoMemory>
    requires { AllByRecursion (λ i. i < length numbers.now) (type_numbers parts.now) }
    ensures { IfOk result (λ code. code.items ≡ kind ∷ map (number_at numbers.now) (type_numbers parts.now)) }
{
    let mut code = Vec::with_capacity(alloc, parts.len() + 1)?;
    code.push(kind)?;
    push_parts(&mut code, parts, numbers)?;
    Ok(code)
}

fn name_code(alloc: Global, word: &Label) -> Result<Vec<usize>, NoMemory>
    ensures { IfOk result (λ code. code.items ≡ 3 ∷ word.now) }
{
    let mut code = Vec::new(alloc);
    code.push(3)?;
    push_bytes(&mut code, word.as_str())?;
    Ok(code)
}

fn element_code(alloc: Global, class: &Class, content: usize) -> Result<Vec<usize>, NoMemory>
    ensures { IfOk result (λ code. code.items ≡ 4 ∷ (content ∷ (code_except class.now.except ∷ code_names class.now.names))) }
{
    let mut code = Vec::new(alloc);
    code.push(4)?;
    code.push(content)?;
    code.push(except_code(class.takes_others()))?;
    push_labels(&mut code, class.names())?;
    Ok(code)
}

fn words_code(alloc: Global, texts: &Words) -> Result<Vec<usize>, NoMemory>
    ensures { IfOk result (λ code. code.items ≡ 2 ∷ (code_except texts.now.except ∷ code_names texts.now.names)) }
{
    let mut code = Vec::new(alloc);
    code.push(2)?;
    code.push(except_code(texts.takes_others()))?;
    push_texts(&mut code, texts.texts())?;
    Ok(code)
}

fn except_code(except: bool) -> usize
    ensures { result ≡ code_except except }
{
    if except { 1 } else { 0 }
}

fn push_parts(code: &mut Vec<usize>, parts: &[TypeId], numbers: &[usize]) -> Result<(), NoMemory>
    requires { AllByRecursion (λ i. i < length numbers.now) (type_numbers parts.now) }
    ensures { OnOk result (code.new.items ≡ code.old.items ++ map (number_at numbers.now) (type_numbers parts.now)) }
{
    for part in parts {
        code.push(numbers[part.at()])?;
    }
    Ok(())
}

/// The bytes of a name.
fn push_bytes(code: &mut Vec<usize>, name: &str) -> Result<(), NoMemory>
    ensures { OnOk result (code.new.items ≡ code.old.items ++ name.now) }
{
    for byte in name.as_bytes() {
        code.push(usize::from(*byte))?;
    }
    Ok(())
}

/// A name after its length.
fn push_name(code: &mut Vec<usize>, name: &str) -> Result<(), NoMemory>
    ensures { OnOk result (code.new.items ≡ code.old.items ++ (length name.now ∷ name.now)) }
{
    code.push(name.len())?;
    push_bytes(code, name)
}

fn push_labels(code: &mut Vec<usize>, labels: &[Label]) -> Result<(), NoMemory>
    ensures { OnOk result (code.new.items ≡ code.old.items ++ code_names labels.now) }
{
    for label in labels {
        push_name(code, label.as_str())?;
    }
    Ok(())
}

fn push_texts(code: &mut Vec<usize>, texts: &[Text]) -> Result<(), NoMemory>
    ensures { OnOk result (code.new.items ≡ code.old.items ++ code_names texts.now) }
{
    for text in texts {
        push_name(code, text.as_str())?;
    }
    Ok(())
}
