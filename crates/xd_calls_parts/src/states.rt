//! Calls about the states of types: sets and keys of them, the cases of a goal, and automata that
//! accept the same.

ghost use Rattle.xd_auto.specs.Automaton.{IsState};

use crate::solved::{show_solved, show_types};
use std::alloc::Global;
use std::io::Write;
use xd_auto::{Auto, State, StateKey};
use xd_boole::{merged, set_of, taken_from, text_groups_before};
use xd_calls_lines::{Call, CallError, class, show_answer, show_class, show_words, words};
use xd_calls_programs::{show_members, state_of};
use xd_empty::{Uses, kept_part};
use xd_rules::{Atom, label_atoms, share, text_atoms};
use xd_show_solve::level_of;
use xd_state_heads::{goal_cases, sides_of, unnamed_of};

/// `set_of NUMBERS`; `keys ONE TWO`, whether the key of the one before the other is that of the
/// other before the one; `level TYPE`, to how many states the type's state leads after items,
/// itself included; `cases TYPE`, each head that the type's state begins with, at each of its
/// atoms, and how many heads match there; `unnamed TYPE`; `kept TYPE MARK DOCUMENTS`, with `all`
/// states marked or `none`; `merged TYPE DOCUMENTS`; `taken TYPE DOCUMENTS`; `solved TYPE`, the
/// type of what the type's state accepts, with `Any` for each content; `uses TYPE`, whether moves
/// wait at first, and whether they do once the type's state is found; `shown TYPE NAMES`, the names
/// of the definitions that show what the type's state accepts, without these names, and then the
/// name of the first; `groups TYPE PLACE`, in how many groups the texts of its first move on a text
/// fall by its moves before this place; `label_atoms CLASS` and `text_atoms CLASS`, the atoms of a
/// class where it alone is named.
pub fn states(call: &Call<'_>, out: &mut Vec<u8>) -> Result<(), CallError> {
    match call.name {
        "set_of" => show_set(call, out),
        "keys" => show_keys(call, out),
        "label_atoms" => show_label_atoms(call, out),
        "text_atoms" => show_text_atoms(call, out),
        _ => {
            let (auto, state) = state_of(call, 0)?;
            state_call(call, &auto, state, out)
        }
    }
}

/// Makes a call about the state of a type.
fn state_call(
    call: &Call<'_>,
    auto: &Auto,
    state: State,
    out: &mut Vec<u8>,
) -> Result<(), CallError>
    requires { IsState auto.now state }
{
    match call.name {
        "cases" => show_cases(call.alloc, auto, state, out),
        "level" => show_level(call.alloc, auto, state, out),
        "unnamed" => show_unnamed(call.alloc, auto, state, out),
        "kept" => show_kept(call, auto, state, out),
        "merged" => show_merged(call, auto, state, out),
        "taken" => show_taken(call, auto, state, out),
        "solved" => show_solved(call.alloc, auto, state, out),
        "shown" => show_types(call, auto, state, out),
        "uses" => show_uses(call.alloc, auto, state, out),
        "groups" => show_groups(call, auto, state, out),
        _ => Err(CallError::Call),
    }
}

/// The state of this number, in an automaton of ten.
fn numbered(auto: &Auto, number: usize) -> Result<State, CallError> {
    if number >= auto.len() {
        return Err(CallError::Unknown);
    }
    Ok(auto.state(number))
}

fn ten_states(alloc: Global) -> Result<Auto, CallError> {
    let mut auto = Auto::new(alloc);
    for _ in 0..10 {
        auto.add_state(false)?;
    }
    Ok(auto)
}

fn show_set(call: &Call<'_>, out: &mut Vec<u8>) -> Result<(), CallError> {
    let auto = ten_states(call.alloc)?;
    let mut found = Vec::new(call.alloc);
    for word in call.behind.split_whitespace() {
        found.push(numbered(&auto, word.parse::<usize>()?)?)?;
    }
    for state in &set_of(call.alloc, &found)? {
        writeln!(out, "{}", state.number())?;
    }
    Ok(())
}

fn show_keys(call: &Call<'_>, out: &mut Vec<u8>) -> Result<(), CallError> {
    let auto = ten_states(call.alloc)?;
    let one = numbered(&auto, call.size(0)?)?;
    let two = numbered(&auto, call.size(1)?)?;
    let first = StateKey::new(call.alloc, one, &[two])?;
    let second = StateKey::of_pair(call.alloc, two, one, &[])?;
    let answer = if first == second { "yes\n" } else { "no\n" };
    out.extend_from_slice(answer.as_bytes())?;
    Ok(())
}

fn show_level(alloc: Global, auto: &Auto, state: State, out: &mut Vec<u8>) -> Result<(), CallError>
    requires { IsState auto.now state }
{
    let level = level_of(alloc, auto, state)?;
    writeln!(out, "{} states", level.states.len())?;
    Ok(())
}

fn show_atom(atom: &Atom, out: &mut Vec<u8>) -> Result<(), CallError> {
    match atom {
        Atom::Label(label) => writeln!(out, "label {}", label.as_str())?,
        Atom::OtherLabel => writeln!(out, "another label")?,
        Atom::Text(text) => writeln!(out, "text {}", text.as_str())?,
        Atom::OtherText => writeln!(out, "another text")?,
    }
    Ok(())
}

fn show_cases(alloc: Global, auto: &Auto, state: State, out: &mut Vec<u8>) -> Result<(), CallError>
    requires { IsState auto.now state }
{
    for case in &goal_cases(alloc, auto, state, &[state])? {
        let sides = sides_of(alloc, auto, &[state], &case.atom)?;
        write!(out, "head {}, {} matching, at ", case.head, sides.len())?;
        show_atom(&share(&case.atom)?, out)?;
    }
    Ok(())
}

fn show_unnamed(
    alloc: Global,
    auto: &Auto,
    state: State,
    out: &mut Vec<u8>,
) -> Result<(), CallError>
    requires { IsState auto.now state }
{
    let unnamed = unnamed_of(alloc, auto, state, &[state])?;
    show_class(&unnamed.labels, out)?;
    out.push(b' ')?;
    show_words(&unnamed.texts, out)?;
    out.push(b'\n')?;
    Ok(())
}

fn show_kept(call: &Call<'_>, auto: &Auto, state: State, out: &mut Vec<u8>) -> Result<(), CallError>
    requires { IsState auto.now state }
{
    let mark = call.word(1)? == "all";
    let marks = vec![in call.alloc; mark; auto.len()]?;
    let part = kept_part(call.alloc, auto, &marks)?;
    show_members(call, 2, &part, state, out)
}

fn show_merged(
    call: &Call<'_>,
    auto: &Auto,
    state: State,
    out: &mut Vec<u8>,
) -> Result<(), CallError>
    requires { IsState auto.now state }
{
    let made = merged(call.alloc, auto)?;
    show_members(call, 1, &made, state, out)
}

fn show_taken(
    call: &Call<'_>,
    auto: &Auto,
    state: State,
    out: &mut Vec<u8>,
) -> Result<(), CallError>
    requires { IsState auto.now state }
{
    let taken = taken_from(call.alloc, auto)?;
    show_members(call, 1, &taken.auto, state, out)
}

/// Whether moves wait at first, where all states are new, and whether they do once the state is
/// found.
fn show_uses(alloc: Global, auto: &Auto, state: State, out: &mut Vec<u8>) -> Result<(), CallError>
    requires { IsState auto.now state }
{
    let mut uses = Uses::new(alloc, auto, 0)?;
    show_answer(!uses.waiting.is_empty(), out)?;
    uses.wake(state)?;
    show_answer(!uses.waiting.is_empty(), out)
}

fn show_groups(
    call: &Call<'_>,
    auto: &Auto,
    state: State,
    out: &mut Vec<u8>,
) -> Result<(), CallError>
    requires { IsState auto.now state }
{
    let place = call.size(1)?;
    if let Some(step) = auto.text_moves(state).first() {
        let groups = text_groups_before(call.alloc, auto, step, &[], state, place)?;
        writeln!(out, "{} groups of texts", groups.len())?;
    }
    Ok(())
}

fn show_label_atoms(call: &Call<'_>, out: &mut Vec<u8>) -> Result<(), CallError> {
    let labels = class(call.alloc, call.word(0)?)?;
    for atom in &label_atoms(call.alloc, &labels, &labels)? {
        show_atom(atom, out)?;
    }
    Ok(())
}

fn show_text_atoms(call: &Call<'_>, out: &mut Vec<u8>) -> Result<(), CallError> {
    let texts = words(call.alloc, call.word(0)?)?;
    for atom in &text_atoms(call.alloc, &texts, &texts)? {
        show_atom(atom, out)?;
    }
    Ok(())
}
