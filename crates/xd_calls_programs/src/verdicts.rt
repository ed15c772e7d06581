//! Whether a state is included in another.

ghost use Rattle.std.specs.Prelude.{OnOk};
ghost use Rattle.xd_auto.specs.Automaton.{IsState};
ghost use Rattle.xd_goals.specs.Standing.{StandsOn};

use std::alloc::Global;
use xd_auto::{Auto, State};
use xd_calls_lines::CallError;
use xd_doc::Store;
use xd_goals::{Table, Verdict, decide, new_tables_stand};
use xd_write::write_document;

/// Both verdicts, and how many goals the table has then.
pub fn show_both_ways(
    alloc: Global,
    auto: &Auto,
    one: State,
    two: State,
    out: &mut Vec<u8>,
) -> Result<usize, CallError>
    requires one { IsState auto.now one }
    requires two { IsState auto.now two }
{
    let mut store = Store::new(alloc);
    let mut table = Table::new(alloc);
    new_tables_stand(auto, &store);
    show_verdict(alloc, auto, &mut table, one, two, &mut store, out)?;
    show_verdict(alloc, auto, &mut table, two, one, &mut store, out)?;
    Ok(table.rows())
}

/// `included`, or the document that separates the states.
pub fn show_verdict(
    alloc: Global,
    auto: &Auto,
    table: &mut Table,
    left: State,
    right: State,
    store: &mut Store,
    out: &mut Vec<u8>,
) -> Result<(), CallError>
    requires stands { StandsOn auto.now store.old table.old }
    requires left { IsState auto.now left }
    requires right { IsState auto.now right }
    ensures { OnOk result (StandsOn auto.now store.new table.new) }
{
    match decide(alloc, auto, table, left, &[right], store)? {
        Verdict::Included(_) => out.extend_from_slice(b"included")?,
        Verdict::Separated(seq) => write_document(alloc, store, seq, out)?,
    }
    out.push(b'\n')?;
    Ok(())
}
