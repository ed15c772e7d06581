//! A pattern with the answers of its matches.

ghost use Rattle.std.specs.Prelude.{◌≡◌, List, length, IfOk, option_map};
ghost use Rattle.xd_doc.specs.Document.{Document};
ghost use Rattle.xd_doc.specs.Stored.{document_at};
ghost use Rattle.xd_doc.specs.StoredSeq.{BelongsTo};
ghost use Rattle.xd_doc.specs.StoreNodes.{Keeps};
ghost use Rattle.xd_syntax.specs.Kept.{program_tree};
ghost use Rattle.xd_syntax.specs.Patterns.{IsPattern, pattern_tree};
ghost use Rattle.xd_syntax.specs.Program.{names_of};
ghost use Rattle.xd_syntax.specs.Tree.{Definitions, Tree};
ghost use Rattle.xd_pattern_runs.specs.Laws.{run_bindings};
ghost use Rattle.xd_pattern_runs.specs.Linear.{IsLinear};
ghost use Rattle.xd_patterns.specs.Held.{marking_of, variables_in};
ghost use Rattle.xd_match.specs.First.{first_run};
ghost use Rattle.xd_match.specs.Matches.{AreBindings, named};
ghost use Rattle.xd_match.specs.Meanings.{Means};

use crate::compiled::CompiledPattern;
use crate::front::first_items;
use crate::meanings::Meanings;
use crate::tails::mixed_states;
use std::alloc::Global;
use xd_auto::{Answers, Auto};
use xd_doc::{Label, NoMemory, Seq, Store};
use xd_patterns::compile_pattern;
use xd_sound::SoundProgram;
use xd_syntax::PatternId;

/// A compiled pattern, and the answers that its matches have found so far.
#[derive(Drop)]
pub(crate) struct Matcher {
    compiled: CompiledPattern,
    answers: Answers,
}

impl Matcher {
    ghost use Rattle.xd_match.specs.Matcher.{IsOfPattern, Stands};

    /// Compiles the pattern.
    pub(crate) fn new(
        alloc: Global,
        sound: &SoundProgram,
        meanings: &Meanings,
        pattern: PatternId,
    ) -> Result<Self, NoMemory>
        requires meanings { Means sound.now meanings.now }
        requires pattern { IsPattern sound.now.patterns pattern }
        requires linear { IsLinear (pattern_tree sound.now.patterns pattern) }
        ensures stands { IfOk result (λ matcher. (documents : List Document) → Stands documents matcher) }
        ensures pattern { IfOk result (IsOfPattern (names_of (program_tree sound.now)) (pattern_tree sound.now.patterns pattern)) }
    {
        let program = sound.program();
        let mut auto = Auto::new(alloc);
        let marked = compile_pattern(
            alloc,
            &meanings.types,
            program.patterns(),
            program.type_defs(),
            &meanings.bodies,
            pattern,
            &mut auto,
        )?;
        let mixed = mixed_states(alloc, &auto, &marked)?;
        let compiled = CompiledPattern {
            auto,
            marked,
            mixed,
        };
        Ok(Self {
            compiled,
            answers: Answers::new(alloc),
        })
    }

    /// What the first run over the document binds.
    pub(crate) fn first_way(
        &mut self,
        alloc: Global,
        store: &mut Store,
        seq: Seq,
    ) -> Result<Option<Vec<(Label, Seq)>>, NoMemory>
        requires stands { Stands store.old self.old }
        requires seq { BelongsTo store.old seq }
        ensures found { IfOk result (AreBindings store.new (option_map (run_bindings (variables_in self.old.compiled.marked) (document_at store.old seq)) (first_run self.old.compiled.auto (marking_of self.old.compiled.marked) (document_at store.old seq) self.old.compiled.marked.start))) }
        ensures stands { Stands store.new self.new }
        ensures pattern { (E : Definitions) (P : Tree) → IsOfPattern E P self.old → IsOfPattern E P self.new }
        ensures keeps { Keeps store.old store.new }
    {
        let found = first_items(alloc, &mut self.answers, &self.compiled, store, seq)?;
        let variables = self.compiled.marked.variables();
        match found {
            None => Ok(None),
            Some(bound) => Ok(Some(with_names(alloc, variables, &bound)?)),
        }
    }
}

/// The documents, each with its variable.
fn with_names(
    alloc: Global,
    variables: &[Label],
    bound: &[Seq],
) -> Result<Vec<(Label, Seq)>, NoMemory>
    ensures { IfOk result (λ pairs. pairs.items ≡ named variables.now bound.now) }
{
    let mut pairs = Vec::new(alloc);
    let mut left = bound;
    for variable in variables {
        let Some((seq, others)) = left.split_first() else {
            return Ok(pairs);
        };
        pairs.push((variable.share()?, *seq))?;
        left = others;
    }
    Ok(pairs)
}
