//! Calls of the slow programs about documents.

ghost use Rattle.std.specs.Prelude.{IfOk};
ghost use Rattle.xd_plain.specs.PlainPrograms.{AnyIsFirst};

use crate::documents::{plain_document, spell};
use crate::plain::{plain_program, plain_tree};
use std::alloc::Global;
use std::io::Write;
use xd_calls_lines::{Call, CallError, show_answer_on};
use xd_calls_programs::Programs;
use xd_doc::NoMemory;
use xd_plain::{
    NoValue, PlainBinding, PlainClauses, PlainDocument, PlainExpression, PlainFunction,
    PlainProgram, PlainTree, Valued, first_within, fits_within, meaning, value, ways_within,
};

/// More unfoldings of names than these small documents need.
const MANY: u64 = 200;

/// What a call asks about each document of its text.
#[derive(Clone, Copy)]
enum Question {
    Fits,
    Ways,
    First,
    Meaning,
}

impl Question {
    fn of_name(name: &str) -> Result<Question, CallError> {
        match name {
            "fits" => Ok(Question::Fits),
            "ways" => Ok(Question::Ways),
            "first" => Ok(Question::First),
            "meaning" => Ok(Question::Meaning),
            _ => Err(CallError::Call),
        }
    }
}

/// About each document of its text, by the definitions of the sound program: `fits`, for the type
/// that was read last; `ways` and `first`, for the pattern of the first clause; `meaning CALLS`,
/// the value of the program. `value CALLS`: that of the first function's body, where it has no
/// variables.
pub fn plain(fixture: &Programs, call: &Call<'_>, out: &mut Vec<u8>) -> Result<(), CallError> {
    let program = sound_program(fixture)?;
    show_asked(fixture, call, &program, out)
}

fn sound_program(fixture: &Programs) -> Result<PlainProgram, CallError>
    ensures { IfOk result AnyIsFirst }
{
    match &fixture.sound {
        Some(sound) => plain_program(fixture.alloc, sound.program()),
        None => Err(CallError::Unknown),
    }
}

fn show_asked(
    fixture: &Programs,
    call: &Call<'_>,
    program: &PlainProgram,
    out: &mut Vec<u8>,
) -> Result<(), CallError>
    requires { AnyIsFirst program.now }
{
    if call.name == "value" {
        return show_value(call, program, out);
    }
    let question = Question::of_name(call.name)?;
    for line in call.text.lines() {
        show_on(fixture, call, question, program, line, out)?;
    }
    Ok(())
}

/// What is asked about the document that a line spells.
fn show_on(
    fixture: &Programs,
    call: &Call<'_>,
    question: Question,
    program: &PlainProgram,
    line: &str,
    out: &mut Vec<u8>,
) -> Result<(), CallError>
    requires { AnyIsFirst program.now }
{
    let document = plain_document(call.alloc, line)?;
    show_about(fixture, call, question, program, &document, line, out)
}

fn show_about(
    fixture: &Programs,
    call: &Call<'_>,
    question: Question,
    program: &PlainProgram,
    document: &PlainDocument,
    line: &str,
    out: &mut Vec<u8>,
) -> Result<(), CallError>
    requires { AnyIsFirst program.now }
{
    match question {
        Question::Fits => show_answer_on(is_fitting(fixture, program, document)?, line, out),
        Question::Ways => show_ways(call.alloc, program, document, out),
        Question::First => show_first(call.alloc, program, document, out),
        Question::Meaning => show_meaning(call, program, document, out),
    }
}

fn show_value(call: &Call<'_>, program: &PlainProgram, out: &mut Vec<u8>) -> Result<(), CallError>
    requires { AnyIsFirst program.now }
{
    let calls = call.number(0)?;
    let body = first_body(&program.functions)?;
    show_valued(value(call.alloc, program, MANY, calls, &[], body), out)
}

fn show_meaning(
    call: &Call<'_>,
    program: &PlainProgram,
    document: &PlainDocument,
    out: &mut Vec<u8>,
) -> Result<(), CallError>
    requires { AnyIsFirst program.now }
{
    let calls = call.number(0)?;
    let document = document.copy(call.alloc)?;
    show_valued(meaning(call.alloc, program, MANY, calls, document), out)
}

fn newest_type(fixture: &Programs) -> Result<PlainTree, CallError> {
    let newest = fixture.newest.ok_or(CallError::Unknown)?;
    if newest.at() >= fixture.types.len() {
        return Err(CallError::Unknown);
    }
    plain_tree(fixture.alloc, &fixture.types, newest)
}

/// The body of the first function.
fn first_body(functions: &[PlainFunction]) -> Result<&PlainExpression, CallError> {
    match functions.first() {
        Some(function) => Ok(&function.body),
        None => Err(CallError::Unknown),
    }
}

/// The pattern of the first clause of the first function's match.
fn first_pattern(functions: &[PlainFunction]) -> Result<&PlainTree, CallError> {
    match first_body(functions)? {
        PlainExpression::Match(_, clauses) => pattern_of(clauses),
        _ => Err(CallError::Unknown),
    }
}

fn pattern_of(clauses: &PlainClauses) -> Result<&PlainTree, CallError> {
    match clauses {
        PlainClauses::NoClause => Err(CallError::Unknown),
        PlainClauses::Clause(pattern, _, _) => Ok(pattern),
    }
}

/// Whether the document fits the type that was read last.
fn is_fitting(
    fixture: &Programs,
    program: &PlainProgram,
    document: &PlainDocument,
) -> Result<bool, CallError> {
    let tree = newest_type(fixture)?;
    Ok(fits_within(fixture.alloc, &program.definitions, MANY, &tree, document)?)
}

fn show_ways(
    alloc: Global,
    program: &PlainProgram,
    document: &PlainDocument,
    out: &mut Vec<u8>,
) -> Result<(), CallError> {
    let pattern = first_pattern(&program.functions)?;
    let ways = ways_within(alloc, &program.definitions, MANY, pattern, document)?;
    writeln!(out, "{} ways", ways.len())?;
    Ok(())
}

/// What the first match binds.
fn show_first(
    alloc: Global,
    program: &PlainProgram,
    document: &PlainDocument,
    out: &mut Vec<u8>,
) -> Result<(), CallError> {
    let pattern = first_pattern(&program.functions)?;
    match first_within(alloc, &program.definitions, MANY, pattern, document)? {
        Some(found) => show_bindings(&found, out),
        None => Ok(out.extend_from_slice(b"no match\n")?),
    }
}

fn show_bindings(bindings: &[PlainBinding], out: &mut Vec<u8>) -> Result<(), CallError> {
    out.extend_from_slice(b"match")?;
    for binding in bindings {
        write!(out, " {} = ", binding.variable.as_str())?;
        spell(&binding.document, out)?;
    }
    out.push(b'\n')?;
    Ok(())
}

/// A value and the calls that are left, or why there is none.
fn show_valued(valued: Result<Valued, NoValue>, out: &mut Vec<u8>) -> Result<(), CallError> {
    match &valued {
        Ok(valued) => show_done(valued, out),
        Err(why) => show_reason(*why, out),
    }
}

fn show_done(valued: &Valued, out: &mut Vec<u8>) -> Result<(), CallError> {
    spell(&valued.document, out)?;
    writeln!(out, " and {} calls left", valued.left)?;
    Ok(())
}

fn show_reason(why: NoValue, out: &mut Vec<u8>) -> Result<(), CallError> {
    match why {
        NoValue::Spent => out.extend_from_slice(b"spent\n")?,
        NoValue::Stuck => out.extend_from_slice(b"stuck\n")?,
        NoValue::NoMemory => return Err(CallError::Memory(NoMemory)),
    }
    Ok(())
}
