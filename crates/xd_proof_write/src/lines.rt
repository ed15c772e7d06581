//! The lines of a goal that name no type.

ghost use Rattle.std.specs.Prelude.{◌≡◌, ◌∷◌, [], ◌++◌, OnOk, flat_map};
ghost use Rattle.xd_proof.specs.Parts.{atom_word};
ghost use Rattle.xd_proof.specs.Steps.{step_letter, step_number};
ghost use Rattle.xd_proof_write.specs.Written.{number_line, step_text, case_line, empty_line};

use itoa::Buffer;
use xd_doc::NoMemory;
use xd_proof::{Atom, ReadCase, Step};
use xd_write::write_text;

/// Appends a line of a word and a number.
pub(crate) fn write_number_line(word: &str, number: u64, out: &mut Vec<u8>) -> Result<(), NoMemory>
    ensures { OnOk result (out.new.items ≡ out.old.items ++ number_line word.now number) }
{
    let mut digits = Buffer::new();
    out.extend_from_slice(word.as_bytes())?;
    out.push(b' ')?;
    out.extend_from_slice(digits.format(number).as_bytes())?;
    out.push(b'\n')?;
    Ok(())
}

/// Appends the line on being empty, where a right is named for it.
pub(crate) fn write_empty_line(right: Option<u64>, out: &mut Vec<u8>) -> Result<(), NoMemory>
    ensures { OnOk result (out.new.items ≡ out.old.items ++ empty_line right) }
{
    match right {
        None => Ok(()),
        Some(number) => write_number_line("empty", number, out),
    }
}

/// Appends the lines of cases.
pub(crate) fn write_cases(cases: &[ReadCase], out: &mut Vec<u8>) -> Result<(), NoMemory>
    ensures { OnOk result (out.new.items ≡ out.old.items ++ flat_map case_line cases.now) }
{
    for case in cases {
        write_case(case, out)?;
    }
    Ok(())
}

fn write_case(case: &ReadCase, out: &mut Vec<u8>) -> Result<(), NoMemory>
    ensures { OnOk result (out.new.items ≡ out.old.items ++ case_line case.now) }
{
    let mut digits = Buffer::new();
    out.extend_from_slice(b"case ")?;
    out.extend_from_slice(digits.format(case.head).as_bytes())?;
    out.push(b' ')?;
    write_atom(&case.atom, out)?;
    write_steps(&case.steps, out)?;
    out.push(b'\n')?;
    Ok(())
}

fn write_atom(atom: &Atom, out: &mut Vec<u8>) -> Result<(), NoMemory>
    ensures { OnOk result (out.new.items ≡ out.old.items ++ atom_word atom.now) }
{
    match atom {
        Atom::Label(label) => out.extend_from_slice(label.as_str().as_bytes())?,
        Atom::OtherLabel => out.push(b'~')?,
        Atom::Text(text) => write_text(text.as_str(), out)?,
        Atom::OtherText => out.push(b'$')?,
    }
    Ok(())
}

/// Appends the steps of a choice tree, each tree before its parts.
fn write_steps(steps: &[Step], out: &mut Vec<u8>) -> Result<(), NoMemory>
    ensures { OnOk result (out.new.items ≡ out.old.items ++ flat_map step_text steps.now) }
{
    for step in steps {
        write_step(*step, out)?;
    }
    Ok(())
}

fn write_step(step: Step, out: &mut Vec<u8>) -> Result<(), NoMemory>
    ensures { OnOk result (out.new.items ≡ out.old.items ++ step_text step) }
{
    let mut digits = Buffer::new();
    out.push(b' ')?;
    out.push(letter_of(step))?;
    out.push(b' ')?;
    out.extend_from_slice(digits.format(number_of(step)).as_bytes())?;
    Ok(())
}

fn letter_of(step: Step) -> u8
    ensures { result ∷ [] ≡ step_letter step }
{
    match step {
        Step::Content(_) => b'c',
        Step::Rest(_) => b'r',
        Step::Split(_) => b'?',
    }
}

fn number_of(step: Step) -> u64
    ensures { result ≡ step_number step }
{
    match step {
        Step::Content(number) => number,
        Step::Rest(number) => number,
        Step::Split(number) => number,
    }
}
