//! Calls about the pattern of a clause by itself: its first matches, by matchers that are kept, and
//! what it is compiled to.

ghost use Rattle.std.specs.Prelude.{IfOk, OnOk};
ghost use Rattle.xd_auto.specs.Automaton.{IsState};
ghost use Rattle.xd_patterns.specs.CompiledProgram.{IsLinearPattern};
ghost use Rattle.xd_match.specs.Serving.{Serves};
ghost use Rattle.xd_syntax.specs.Types.{BelongsTo};

use crate::clauses::{pattern_at, show_bindings};
use std::alloc::Global;
use xd_auto::{Auto, State};
use xd_calls_lines::{Call, CallError};
use xd_calls_programs::{program_of, show_members, type_of};
use xd_continuations::{TypeBodies, meaning_of_any};
use xd_doc::Store;
use xd_match::Matchers;
use xd_patterns::{PatternCompiler, compile_pattern};
use xd_read::read_document;
use xd_sound::{SoundProgram, TypeNames};
use xd_syntax::{PatternId, TypeId};

/// `first_ways CLAUSE DOCUMENTS`: what the first match of the clause of this number, from 1, binds
/// on each of the documents, by matchers that are kept from one to the next.
pub fn show_first_ways(call: &Call<'_>, out: &mut Vec<u8>) -> Result<(), CallError> {
    let number = call.size(0)?;
    let sound = program_of(call)?;
    let pattern = pattern_at(call.alloc, &sound, number)?;
    let mut store = Store::new(call.alloc);
    show_ways(call, &sound, pattern, &mut store, out)
}

fn show_ways(
    call: &Call<'_>,
    sound: &SoundProgram,
    pattern: PatternId,
    store: &mut Store,
    out: &mut Vec<u8>,
) -> Result<(), CallError>
    requires { IsLinearPattern sound.now.patterns pattern }
{
    let mut matchers = Matchers::new(call.alloc, sound)?;
    for document in call.behind.split_whitespace().skip(1) {
        show_next_way(
            call.alloc,
            sound,
            pattern,
            &mut matchers,
            store,
            document,
            out,
        )?;
    }
    Ok(())
}

/// What the first match binds on the document, which is put into the store.
fn show_next_way(
    alloc: Global,
    sound: &SoundProgram,
    pattern: PatternId,
    matchers: &mut Matchers,
    store: &mut Store,
    document: &str,
    out: &mut Vec<u8>,
) -> Result<(), CallError>
    requires pattern { IsLinearPattern sound.now.patterns pattern }
    requires serves { Serves sound.now store.old matchers.old }
    ensures { OnOk result (Serves sound.now store.new matchers.new) }
{
    let seq = read_document(alloc, store, document.as_bytes())?;
    matchers.stays_serving();
    let bindings = matchers.first_way(alloc, sound, pattern, store, seq)?;
    show_bindings(alloc, store, bindings, out)
}

/// `compiled CLAUSE DOCUMENTS`: which of the documents the state of the clause's pattern accepts.
pub fn show_compiled(call: &Call<'_>, out: &mut Vec<u8>) -> Result<(), CallError> {
    let number = call.size(0)?;
    let mut sound = program_of(call)?;
    let pattern = pattern_at(call.alloc, &sound, number)?;
    let (auto, state) = compiled(call.alloc, &mut sound, pattern)?;
    show_members(call, 1, &auto, state, out)
}

/// The state of a pattern, in an automaton of its own.
fn compiled(
    alloc: Global,
    sound: &mut SoundProgram,
    pattern: PatternId,
) -> Result<(Auto, State), CallError>
    requires { IsLinearPattern sound.old.patterns pattern }
    ensures { IfOk result (λ made. IsState made.0 made.1) }
{
    let any = meaning_of_any(alloc, sound)?;
    let program = sound.program();
    let names = TypeNames::new(alloc, program.type_defs())?;
    let bodies = TypeBodies {
        names,
        any: any.at(),
    };
    let mut auto = Auto::new(alloc);
    let marked = compile_pattern(
        alloc,
        program.types(),
        program.patterns(),
        program.type_defs(),
        &bodies,
        pattern,
        &mut auto,
    )?;
    Ok((auto, marked.start()))
}

/// `plain TYPE DOCUMENTS`: which of the documents the state accepts that the type is compiled to
/// for tests of membership.
pub fn show_plain(call: &Call<'_>, out: &mut Vec<u8>) -> Result<(), CallError> {
    let (mut sound, id) = type_of(call, 0)?;
    let (auto, state) = plain_state(call.alloc, &mut sound, id)?;
    show_members(call, 1, &auto, state, out)
}

/// That state, in an automaton of its own.
fn plain_state(
    alloc: Global,
    sound: &mut SoundProgram,
    id: TypeId,
) -> Result<(Auto, State), CallError>
    requires { BelongsTo sound.old.types id }
    ensures { IfOk result (λ made. IsState made.0 made.1) }
{
    let compiler = PatternCompiler::new(alloc, sound)?;
    let mut auto = Auto::new(alloc);
    let state = compiler.compile_plain_type(alloc, sound, id, &mut auto)?;
    Ok((auto, state))
}
