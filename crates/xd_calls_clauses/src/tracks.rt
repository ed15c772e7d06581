//! Calls about what the variables of a clause's pattern may be by themselves, on whatever the
//! pattern takes.

ghost use Rattle.std.specs.Prelude.{◌<◌, [], IfOk, OnOk, length};
ghost use Rattle.std.specs.List.{All};
ghost use Rattle.xd_auto.specs.Automaton.{Automaton, IsState};
ghost use Rattle.xd_bind.specs.Projection.{CanProject};
ghost use Rattle.xd_patterns.specs.CompiledProgram.{IsLinearPattern};
ghost use Rattle.xd_patterns.specs.Held.{variables_in};
ghost use Rattle.xd_calls_clauses.specs.Tracked.{IsOfMove, IsOfMoves, IsOfStates, KeepTogether, MoreTracks};

use crate::clauses::{binding_of, pattern_at};
use std::alloc::Global;
use xd_auto::{Auto, State};
use xd_bind::{Binding, MoveKind, Track, Tracks};
use xd_calls_lines::{Call, CallError};
use xd_calls_programs::{program_of, show_members};
use xd_clauses::patterns_tell_variables;
use xd_given::project;
use xd_patterns::{Marked, PatternCompiler};
use xd_sound::SoundProgram;
use xd_syntax::PatternId;

/// Adds a track for each variable that this move belongs to.
fn add_of_move(
    marked: &Marked,
    state: State,
    kind: MoveKind,
    number: usize,
    tracks: &mut Vec<Track>,
) -> Result<(), CallError>
    ensures { OnOk result ((a : Automaton) → IsState a state → MoreTracks a marked.now (IsOfMove state kind number (length (variables_in marked.now))) tracks.old.items tracks.new.items) }
{
    for variable in 0..marked.variables().len() {
        if marked.holds(state, kind, number, variable) {
            tracks.push(Track {
                state,
                kind,
                number,
                variable,
            })?;
        }
    }
    Ok(())
}

/// The same of the state's moves of one kind, so many.
fn add_of_moves(
    marked: &Marked,
    state: State,
    kind: MoveKind,
    count: usize,
    tracks: &mut Vec<Track>,
) -> Result<(), CallError>
    ensures { OnOk result ((a : Automaton) → IsState a state → MoreTracks a marked.now (IsOfMoves state kind count (length (variables_in marked.now))) tracks.old.items tracks.new.items) }
{
    for number in 0..count {
        add_of_move(marked, state, kind, number, tracks)?;
    }
    Ok(())
}

/// The tracks of all moves.
fn tracks_in(alloc: Global, auto: &Auto, marked: &Marked) -> Result<Vec<Track>, CallError>
    ensures { IfOk result (λ tracks. MoreTracks auto.now marked.now (IsOfStates auto.now (length auto.now) (length (variables_in marked.now))) [] tracks.items) }
{
    let mut tracks = Vec::new(alloc);
    for number in 0..auto.len() {
        let state = auto.state(number);
        let labels = auto.label_moves(state).len();
        add_of_moves(marked, state, MoveKind::Label, labels, &mut tracks)?;
        let texts = auto.text_moves(state).len();
        add_of_moves(marked, state, MoveKind::Text, texts, &mut tracks)?;
    }
    Ok(tracks)
}

/// The pattern as an automaton whose moves belong to its variables.
fn tracks_of(
    alloc: Global,
    sound: &mut SoundProgram,
    pattern: PatternId,
) -> Result<Tracks, CallError>
    requires { IsLinearPattern sound.old.patterns pattern }
    ensures { IfOk result CanProject }
{
    let mut auto = Auto::new(alloc);
    let marked = marked_in(alloc, sound, pattern, &mut auto)?;
    tracked(alloc, auto, &marked)
}

/// The pattern's states, whose moves are marked by variables.
fn marked_in(
    alloc: Global,
    sound: &mut SoundProgram,
    pattern: PatternId,
    auto: &mut Auto,
) -> Result<Marked, CallError>
    requires { IsLinearPattern sound.old.patterns pattern }
    ensures start { IfOk result (λ marked. IsState auto.new marked.start) }
    ensures together { IfOk result (λ marked. KeepTogether auto.new marked) }
{
    patterns_tell_variables();
    let compiler = PatternCompiler::new(alloc, sound)?;
    let marked = compiler.compile(alloc, sound, pattern, auto)?;
    Ok(marked)
}

/// The marks of the automaton's moves as tracks.
fn tracked(alloc: Global, auto: Auto, marked: &Marked) -> Result<Tracks, CallError>
    requires start { IsState auto marked.now.start }
    requires together { KeepTogether auto marked.now }
    ensures { IfOk result CanProject }
{
    let marks = tracks_in(alloc, &auto, marked)?;
    let mut variables = Vec::new(alloc);
    for variable in marked.variables() {
        variables.push(variable.share()?)?;
    }
    Ok(Tracks {
        auto,
        start: marked.start(),
        variables,
        marks,
    })
}

/// What the pattern's variables may be.
fn projected(
    alloc: Global,
    sound: &mut SoundProgram,
    pattern: PatternId,
) -> Result<Vec<Binding>, CallError>
    requires { IsLinearPattern sound.old.patterns pattern }
    ensures { IfOk result (λ bindings. All (λ (b : Binding). IsState b.auto b.state) bindings.items) }
{
    let tracks = tracks_of(alloc, sound, pattern)?;
    let bindings = project(alloc, &tracks)?;
    Ok(bindings)
}

/// `project CLAUSE VARIABLE DOCUMENTS`: which of the documents the clause's pattern gives the
/// variable, on whatever it takes.
pub fn show_projected(call: &Call<'_>, out: &mut Vec<u8>) -> Result<(), CallError> {
    let number = call.size(0)?;
    let variable = call.word(1)?;
    let mut sound = program_of(call)?;
    let pattern = pattern_at(call.alloc, &sound, number)?;
    let bindings = projected(call.alloc, &mut sound, pattern)?;
    let (auto, state) = binding_of(bindings, variable)?;
    show_members(call, 2, &auto, state, out)
}
