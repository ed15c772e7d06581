//! What finds the first matches of a program's patterns.

ghost use Rattle.std.specs.Prelude.{◌≡◌, ◌<◌, List, length, option_map, IfOk};
ghost use Rattle.xd_doc.specs.Document.{Document};
ghost use Rattle.xd_doc.specs.Stored.{document_at};
ghost use Rattle.xd_doc.specs.StoredSeq.{BelongsTo};
ghost use Rattle.xd_doc.specs.StoreNodes.{Keeps};
ghost use Rattle.xd_syntax.specs.Kept.{ProgramTable};
ghost use Rattle.xd_syntax.specs.PlacedTable.{placed_at};
ghost use Rattle.xd_syntax.specs.Placed.{unplaced};
ghost use Rattle.xd_pattern_runs.specs.Linear.{IsLinear};
ghost use Rattle.xd_eval.specs.Matches.{AreBindings, matcher};

use std::alloc::Global;
use xd_doc::{Label, NoMemory, Seq, Store};
use xd_match::Matchers;
use xd_sound::SoundProgram;
use xd_syntax::PatternId;

/// Finds first matches. What it keeps from one match to the next is its own.
pub trait Matching {
    /// It serves this program, on a store with these documents.
    ghost serves: { Self → ProgramTable → List Document → Type 0 };

    /// The bindings of the first match of a clause's pattern, one for each variable, in order of
    /// first occurrence; `None` where the pattern doesn't take the document.
    fn first_match(
        &mut self,
        alloc: Global,
        sound: &SoundProgram,
        pattern: PatternId,
        store: &mut Store,
        seq: Seq,
    ) -> Result<Option<Vec<(Label, Seq)>>, NoMemory>
        requires serves { serves self.old sound.now store.old }
        requires pattern { pattern.at < length sound.now.patterns }
        requires linear { IsLinear (unplaced (placed_at sound.now.patterns pattern.at)) }
        requires seq { BelongsTo store.old seq }
        ensures found { IfOk result (AreBindings store.new (matcher sound.now (unplaced (placed_at sound.now.patterns pattern.at)) (document_at store.old seq))) }
        ensures serves { serves self.new sound.now store.new }
        ensures keeps { Keeps store.old store.new };

    /// The law of growth: what serves a store goes on to serve it while it grows. The call does
    /// nothing; its contract is the law.
    fn stays_serving(&self)
        ensures { (p : ProgramTable) (old new : List Document) → serves self.now p old → Keeps old new → serves self.now p new };
}

impl Matching for Matchers {
    ghost use Rattle.xd_match.specs.Serving.{Serves};

    ghost serves = { λ m p ds. Serves p ds m };

    fn first_match(
        &mut self,
        alloc: Global,
        sound: &SoundProgram,
        pattern: PatternId,
        store: &mut Store,
        seq: Seq,
    ) -> Result<Option<Vec<(Label, Seq)>>, NoMemory> {
        self.first_way(alloc, sound, pattern, store, seq)
    }

    fn stays_serving(&self) {
        self.stays_serving();
    }
}
