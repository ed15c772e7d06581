//! Calls about tables, graphs and lists.

use crate::shown::show_shown;
use std::alloc::Global;
use std::io::Write;
use xd_base::Place;
use xd_calls_lines::{Call, CallError, label, show_place};
use xd_calls_programs::{program_of, show_pattern, show_type_line};
use xd_continuations::Interned;
use xd_doc::NoMemory;
use xd_moves::{Continuations, FirstPieces, FirstUses, content};
use xd_parse::{ParseError, parse_program};
use xd_parse_trees::{join, queue_of};
use xd_report::{write_place_front, write_texts};
use xd_sound::{Graph, KnownTypes, SoundProgram, TypeNames};
use xd_syntax::{
    ExprForm, Exprs, Fault, FaultKind, PatternForm, Patterns, Program, TypeForm, Types, sort_faults,
};

/// A node that is added: `add_type`, `add_pattern`, `add_expression`, and `add_program_type` and
/// `add_sound_type` to the program of the text; `first_uses`, by which node each of its types'
/// nodes is known; `contents`, the number of the continuation of each of its definitions, where
/// equal types have one number. `sort_faults NUMBERS`, the lines on which the faults stand; `graph
/// NODES FROM TO`; `interned NUMBERS`, a list that is made from its end; `queue NUMBER`; `join ONE
/// TWO`, of queues of one number; `names WORDS : PROGRAM`; `known : PROGRAM`; `place_front LINE
/// COLUMN`, `texts WORDS`; `shown`.
pub fn table_calls(call: &Call<'_>, out: &mut Vec<u8>) -> Result<(), CallError> {
    match call.name {
        "add_type" => add_type(call.alloc, out),
        "add_pattern" => add_pattern(call.alloc, out),
        "add_expression" => add_expression(call.alloc, out),
        "add_program_type" => add_program_type(call, out),
        "first_uses" => show_first_uses(call, out),
        "contents" => show_contents(call, out),
        "add_sound_type" => add_sound_type(&mut program_of(call)?, out),
        "sort_faults" => show_sorted(call, out),
        "graph" => show_graph(call, out),
        "interned" => show_interned(call, out),
        "queue" => show_queue(call, out),
        "join" => show_joined(call, out),
        "names" => show_names(call, out),
        "known" => show_known(call.alloc, &mut program_of(call)?, out),
        "place_front" => show_front(call, out),
        "texts" => show_texts(call, out),
        "shown" => show_shown(call.alloc, out),
        _ => Err(CallError::Call),
    }
}

/// The first place of a text.
const FIRST: Place = Place { line: 1, column: 1 };

fn add_type(alloc: Global, out: &mut Vec<u8>) -> Result<(), CallError> {
    let mut types = Types::new(alloc);
    let id = types.add(FIRST, TypeForm::Text)?;
    show_type_line(&types, id, out)
}

fn add_pattern(alloc: Global, out: &mut Vec<u8>) -> Result<(), CallError> {
    let mut patterns = Patterns::new(alloc);
    let id = patterns.add(FIRST, PatternForm::Text)?;
    out.extend_from_slice(b"pattern")?;
    show_pattern(out, &patterns, id)?;
    out.push(b'\n')?;
    Ok(())
}

fn add_expression(alloc: Global, out: &mut Vec<u8>) -> Result<(), CallError> {
    let mut exprs = Exprs::new(alloc);
    let id = exprs.add(FIRST, ExprForm::Empty)?;
    show_place(exprs.node(id).place(), out)?;
    writeln!(out, " of {} nodes", exprs.len())?;
    Ok(())
}

/// The program that the call's text spells.
fn read_program(call: &Call<'_>) -> Result<Program, CallError> {
    match parse_program(call.alloc, call.text.as_bytes()) {
        Ok(program) => Ok(program),
        Err(ParseError::Fault(_)) => Err(CallError::Malformed),
        Err(ParseError::NoMemory) => Err(CallError::Memory(NoMemory)),
    }
}

fn add_program_type(call: &Call<'_>, out: &mut Vec<u8>) -> Result<(), CallError> {
    let mut program = read_program(call)?;
    let id = program.add_type(TypeForm::Text)?;
    show_type_line(program.types(), id, out)
}

fn show_first_uses(call: &Call<'_>, out: &mut Vec<u8>) -> Result<(), CallError> {
    let program = read_program(call)?;
    let types = program.types();
    let mut uses = FirstUses::new(call.alloc);
    uses.cover(types)?;
    for node in 0..types.len() {
        writeln!(out, "{node} by {}", uses.first(types, node))?;
    }
    Ok(())
}

fn show_contents(call: &Call<'_>, out: &mut Vec<u8>) -> Result<(), CallError> {
    let program = read_program(call)?;
    let types = program.types();
    let firsts = FirstPieces::new(call.alloc, types)?;
    let mut cells = Continuations::new(call.alloc);
    for definition in program.type_defs() {
        let number = content(types, definition.body, &mut cells, &firsts)?;
        writeln!(out, "{} {number}", definition.name.as_str())?;
    }
    Ok(())
}

fn add_sound_type(sound: &mut SoundProgram, out: &mut Vec<u8>) -> Result<(), CallError> {
    let id = sound.add_type(TypeForm::Text)?;
    show_type_line(sound.program().types(), id, out)
}

fn show_sorted(call: &Call<'_>, out: &mut Vec<u8>) -> Result<(), CallError> {
    let mut faults = Vec::new(call.alloc);
    for word in call.behind.split_whitespace() {
        let place = Some(Place {
            line: word.parse::<u64>()?,
            column: 1,
        });
        let kind = FaultKind::Syntax;
        faults.push(Fault { place, kind })?;
    }
    sort_faults(&mut faults)?;
    for fault in &faults {
        if let Some(place) = fault.place {
            show_place(place, out)?;
            out.push(b'\n')?;
        }
    }
    Ok(())
}

fn show_graph(call: &Call<'_>, out: &mut Vec<u8>) -> Result<(), CallError> {
    let mut graph = Graph::new(call.alloc, call.size(0)?)?;
    let from = call.size(1)?;
    let to = call.size(2)?;
    if from >= graph.len() || to >= graph.len() {
        return Err(CallError::Words);
    }
    graph.add(from, to)?;
    for node in 0..graph.len() {
        writeln!(out, "{node} to {} nodes", graph.successors(node).len())?;
    }
    Ok(())
}

fn show_interned(call: &Call<'_>, out: &mut Vec<u8>) -> Result<(), CallError> {
    let mut lists = Interned::<usize>::new(call.alloc);
    lists.reserve(8)?;
    let mut behind = 0usize;
    for word in call.behind.split_whitespace() {
        let item = word.parse::<usize>()?;
        if behind > lists.len() {
            return Err(CallError::Words);
        }
        behind = lists.put(item, behind)?;
        writeln!(out, "{behind}")?;
    }
    Ok(())
}

fn show_queue(call: &Call<'_>, out: &mut Vec<u8>) -> Result<(), CallError> {
    let queue = queue_of(call.alloc, call.number(0)?)?;
    for number in &queue {
        writeln!(out, "{number}")?;
    }
    Ok(())
}

fn show_joined(call: &Call<'_>, out: &mut Vec<u8>) -> Result<(), CallError> {
    let front = queue_of(call.alloc, call.number(0)?)?;
    let back = queue_of(call.alloc, call.number(1)?)?;
    for number in &join(front, back)? {
        writeln!(out, "{number}")?;
    }
    Ok(())
}

fn show_names(call: &Call<'_>, out: &mut Vec<u8>) -> Result<(), CallError> {
    let sound = program_of(call)?;
    let names = TypeNames::new(call.alloc, sound.program().type_defs())?;
    for word in call.behind.split_whitespace() {
        match names.find(&label(call.alloc, word)?) {
            Some(number) => writeln!(out, "{word} {number}")?,
            None => writeln!(out, "{word} none")?,
        }
    }
    Ok(())
}

fn show_known(alloc: Global, sound: &mut SoundProgram, out: &mut Vec<u8>) -> Result<(), CallError> {
    let known = sound.take_known()?;
    sound.give_back(known);
    let program = sound.program();
    let _known = KnownTypes::new(alloc, program.types(), program.type_defs())?;
    writeln!(out, "known")?;
    Ok(())
}

fn show_front(call: &Call<'_>, out: &mut Vec<u8>) -> Result<(), CallError> {
    let line = call.number(0)?;
    let column = call.number(1)?;
    write_place_front(Place { line, column }, out)?;
    out.extend_from_slice(b"here\n")?;
    Ok(())
}

fn show_texts(call: &Call<'_>, out: &mut Vec<u8>) -> Result<(), CallError> {
    write_texts(&[call.word(0)?, call.word(1)?, "\n"], out)?;
    Ok(())
}
