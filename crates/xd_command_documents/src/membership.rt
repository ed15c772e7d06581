//! Whether documents fit a type, by states that accept what fits.

ghost use Rattle.std.specs.Prelude.{◌≡◌, true, ◌↔◌, IfOk};
ghost use Rattle.xd_auto.specs.Automaton.{accepts, IsState};
ghost use Rattle.xd_doc.specs.Stored.{document_at};
ghost use Rattle.xd_doc.specs.StoredSeq.{BelongsTo};
ghost use Rattle.xd_syntax.specs.Kept.{AddsTypes, program_tree};
ghost use Rattle.xd_syntax.specs.Program.{names_of};
ghost use Rattle.xd_syntax.specs.Types as types;
ghost use Rattle.xd_command_documents.specs.FitsByState.{IsAcceptor};

use std::alloc::Global;
use xd_auto::{Auto, Scratch, State, member};
use xd_doc::{NoMemory, Seq, Store};
use xd_patterns::PatternCompiler;
use xd_sound::SoundProgram;
use xd_syntax::TypeId;

/// A state that accepts exactly the documents that fit the type, in an automaton of its own.
///
/// The type is compiled as a pattern without variables: what it has twice, as by names that stand
/// for one another's alternatives, is gone through once.
pub fn acceptor(
    alloc: Global,
    sound: &mut SoundProgram,
    id: TypeId,
) -> Result<(Auto, State), NoMemory>
    requires { types.BelongsTo sound.old.types id }
    ensures acceptor { IfOk result (λ made. IsAcceptor (names_of (program_tree sound.old)) (types.tree sound.old.types id) made.0 made.1) }
    ensures adds { AddsTypes sound.old sound.new }
    ensures same { program_tree sound.new ≡ program_tree sound.old }
{
    let compiler = PatternCompiler::new(alloc, sound)?;
    let mut auto = Auto::new(alloc);
    let state = compiler.compile_plain_type(alloc, sound, id, &mut auto)?;
    Ok((auto, state))
}

/// Whether the state accepts the document.
pub fn accepts(
    alloc: Global,
    auto: &Auto,
    state: State,
    store: &Store,
    seq: Seq,
) -> Result<bool, NoMemory>
    requires state { IsState auto.now state }
    requires seq { BelongsTo store.now seq }
    ensures { IfOk result (λ answer. answer ≡ accepts auto.now (document_at store.now seq) state) }
{
    let mut scratch = Scratch::reserve(alloc, auto.len(), store.len())?;
    Ok(member(auto, state, store, seq, &mut scratch))
}
