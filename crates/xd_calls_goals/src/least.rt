//! Least documents of states.

ghost use Rattle.xd_auto.specs.Automaton.{IsState};
ghost use Rattle.xd_doc.specs.StoredSeq.{BelongsTo};
ghost use Rattle.xd_goals.specs.Standing.{StandsOn};

use crate::named::NamedState;
use std::alloc::Global;
use std::io::Write;
use xd_apart::least_apart;
use xd_auto::{Auto, State};
use xd_calls_lines::CallError;
use xd_doc::{Seq, Store};
use xd_goals::{Table, Verdict, decide, new_tables_stand};
use xd_least::{
    LeastDocument, LeastInhabitants, document_size, least_inhabitant, least_inhabitants,
};
use xd_write::write_document;

/// A least document of the state and its size, or `none`.
pub fn show_least(
    alloc: Global,
    auto: &Auto,
    state: State,
    out: &mut Vec<u8>,
) -> Result<(), CallError>
    requires { IsState auto.now state }
{
    let mut store = Store::new(alloc);
    match least_inhabitant(alloc, auto, state, &mut store)? {
        Some(seq) => show_sized(alloc, &store, seq, out)?,
        None => out.extend_from_slice(b"none\n")?,
    }
    Ok(())
}

/// A document, and the number of its items at all depths.
fn show_sized(alloc: Global, store: &Store, seq: Seq, out: &mut Vec<u8>) -> Result<(), CallError>
    requires { BelongsTo store.now seq }
{
    let size = document_size(alloc, store, seq)?;
    write_document(alloc, store, seq, out)?;
    writeln!(out, ", size {size}")?;
    Ok(())
}

/// The size of a least document of each of the states, or `none`.
pub fn show_sizes(
    alloc: Global,
    auto: &Auto,
    states: &[NamedState<'_>],
    out: &mut Vec<u8>,
) -> Result<(), CallError> {
    let mut store = Store::new(alloc);
    let found = least_inhabitants(alloc, auto, &mut store)?;
    for named in states {
        show_size(
            named,
            found.get(named.state.number()).copied().flatten(),
            out,
        )?;
    }
    Ok(())
}

/// The same, as it is learnt of an automaton that grows; it is learnt once more after that.
pub fn show_learned(
    alloc: Global,
    auto: &Auto,
    states: &[NamedState<'_>],
    out: &mut Vec<u8>,
) -> Result<(), CallError> {
    let mut store = Store::new(alloc);
    let mut known = LeastInhabitants::new(alloc);
    known.learn(alloc, auto, &mut store)?;
    known.learn(alloc, auto, &mut store)?;
    for named in states {
        show_size(named, known.document(named.state), out)?;
    }
    Ok(())
}

fn show_size(
    named: &NamedState<'_>,
    least: Option<LeastDocument>,
    out: &mut Vec<u8>,
) -> Result<(), CallError> {
    match least {
        Some(least) => writeln!(out, "{} {}", named.name, least.size)?,
        None => writeln!(out, "{} none", named.name)?,
    }
    Ok(())
}

/// A least document that the one alone accepts, with its size, or `included`.
pub fn show_apart(
    alloc: Global,
    auto: &Auto,
    one: State,
    two: State,
    out: &mut Vec<u8>,
) -> Result<(), CallError>
    requires one { IsState auto.now one }
    requires two { IsState auto.now two }
{
    let mut store = Store::new(alloc);
    let mut table = Table::new(alloc);
    new_tables_stand(auto, &store);
    show_apart_in(alloc, auto, &mut table, one, two, &mut store, out)
}

/// The same with this table.
fn show_apart_in(
    alloc: Global,
    auto: &Auto,
    table: &mut Table,
    one: State,
    two: State,
    store: &mut Store,
    out: &mut Vec<u8>,
) -> Result<(), CallError>
    requires stands { StandsOn auto.now store.old table.old }
    requires one { IsState auto.now one }
    requires two { IsState auto.now two }
{
    match decide(alloc, auto, table, one, &[two], store)? {
        Verdict::Included(_) => out.extend_from_slice(b"included\n")?,
        Verdict::Separated(known) => {
            let least = least_apart(alloc, auto, one, two, known, store)?;
            show_sized(alloc, store, least, out)?;
        }
    }
    Ok(())
}
