//! Which documents a state accepts.

ghost use Rattle.xd_auto.specs.Automaton.{IsState};

use std::alloc::Global;
use xd_auto::{Auto, Scratch, State, member};
use xd_calls_lines::{Call, CallError, show_answer_on};
use xd_doc::Store;
use xd_read::read_document;

/// Of each document from the call's word of this number on whether the state accepts it.
pub fn show_members(
    call: &Call<'_>,
    first: usize,
    auto: &Auto,
    state: State,
    out: &mut Vec<u8>,
) -> Result<(), CallError>
    requires { IsState auto.now state }
{
    for document in call.behind.split_whitespace().skip(first) {
        let accepts = is_member(call.alloc, auto, state, document)?;
        show_answer_on(accepts, document, out)?;
    }
    Ok(())
}

/// Whether the state accepts the document.
fn is_member(alloc: Global, auto: &Auto, state: State, document: &str) -> Result<bool, CallError>
    requires { IsState auto.now state }
{
    let mut store = Store::new(alloc);
    let seq = read_document(alloc, &mut store, document.as_bytes())?;
    let mut scratch = Scratch::reserve(alloc, auto.len(), store.len())?;
    Ok(member(auto, state, &store, seq, &mut scratch))
}
