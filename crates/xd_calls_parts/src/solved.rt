//! The type of what a state accepts, where `Any` is written for each content; and the definitions
//! of types that show it.

ghost use Rattle.std.specs.Prelude.{◌<◌, IfOk, IfSome, length};
ghost use Rattle.xd_auto.specs.Automaton.{IsState};
ghost use Rattle.xd_calls_parts.specs.Written.{IsWrittenForAll};
ghost use Rattle.xd_syntax.specs.Types.{BelongsTo};

use std::alloc::Global;
use std::io::Write;
use xd_auto::{Auto, State};
use xd_boole::universal_states;
use xd_calls_lines::{Call, CallError, label};
use xd_same_types::{Pool, any_type};
use xd_show::show;
use xd_show_solve::{level_of, state_type};
use xd_syntax::TypeId;
use xd_type_text::type_text;

/// The type of what the state accepts, or `none`.
pub fn show_solved(
    alloc: Global,
    auto: &Auto,
    state: State,
    out: &mut Vec<u8>,
) -> Result<(), CallError>
    requires { IsState auto.now state }
{
    let mut pool = Pool::new(alloc);
    let any = any_type(alloc, &mut pool)?;
    let written = written_any(alloc, any, auto.len())?;
    match solved(alloc, &mut pool, auto, any, &written, state)? {
        Some(id) => type_text(alloc, &pool.types, id, out)?,
        None => out.extend_from_slice(b"none")?,
    }
    out.push(b'\n')?;
    Ok(())
}

/// The name of each definition that shows what the state accepts, without the names that stand in
/// the call after the first word, and the name of the first.
pub fn show_types(
    call: &Call<'_>,
    auto: &Auto,
    state: State,
    out: &mut Vec<u8>,
) -> Result<(), CallError>
    requires { IsState auto.now state }
{
    let mut taken = Vec::new(call.alloc);
    for word in call.behind.split_whitespace().skip(1) {
        taken.push(label(call.alloc, word)?)?;
    }
    let shown = show(call.alloc, auto, state, &taken)?;
    for definition in shown.sound.program().type_defs() {
        writeln!(out, "{}", definition.name.as_str())?;
    }
    writeln!(out, "first {}", shown.start.as_str())?;
    Ok(())
}

/// This type, for each of so many states.
fn written_any(alloc: Global, any: TypeId, count: usize) -> Result<Vec<Option<TypeId>>, CallError>
    ensures { IfOk result (λ made. IsWrittenForAll count any made.items) }
{
    let mut made = Vec::new(alloc);
    for _number in 0..count {
        made.push(Some(any))?;
    }
    Ok(made)
}

/// The type of the state, where this type is written for each content.
fn solved(
    alloc: Global,
    pool: &mut Pool,
    auto: &Auto,
    any: TypeId,
    written: &[Option<TypeId>],
    state: State,
) -> Result<Option<TypeId>, CallError>
    requires state { IsState auto.now state }
    requires any { any.at < length pool.old.types }
    requires written { IsWrittenForAll (length auto.now) any written.now }
    ensures { IfOk result (λ found. IfSome found (BelongsTo pool.new.types)) }
{
    let _states = auto.len();
    let universal = universal_states(alloc, auto)?;
    let level = level_of(alloc, auto, state)?;
    let found = state_type(alloc, pool, auto, written, &universal, &level, state)?;
    Ok(found)
}
