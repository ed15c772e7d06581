//! The patterns of a program, compiled.

ghost use Rattle.std.specs.Prelude.{◌<◌, ℕ, List, IfOk, length};
ghost use Rattle.xd_doc.specs.Document.{Document};
ghost use Rattle.xd_doc.specs.Stored.{document_at};
ghost use Rattle.xd_doc.specs.StoredSeq.{BelongsTo};
ghost use Rattle.xd_doc.specs.StoreNodes.{Keeps};
ghost use Rattle.xd_meaning.specs.Bindings.{first_bindings};
ghost use Rattle.xd_syntax.specs.Kept.{program_tree};
ghost use Rattle.xd_syntax.specs.Patterns.{IsPattern, pattern_tree};
ghost use Rattle.xd_syntax.specs.Program.{names_of};
ghost use Rattle.xd_syntax.specs.Tree.{Definitions, Tree};
ghost use Rattle.xd_pattern_runs.specs.Linear.{IsLinear};
ghost use Rattle.xd_match.specs.Matcher.{AllStand, HasMatcher};
ghost use Rattle.xd_match.specs.Matches.{AreBindings};
ghost use Rattle.xd_match.specs.Meanings.{Means};

use crate::matcher::Matcher;
use crate::meanings::Meanings;
use std::alloc::Global;
use std::collections::HashMap;
use xd_doc::{Label, NoMemory, Seq, Store};
use xd_sound::SoundProgram;
use xd_syntax::PatternId;

/// The patterns of one program. Each is compiled when it is first asked for, and the answers that
/// its matches find are kept. So a run in which each match looks at the front of its document is
/// linear.
#[derive(Drop)]
pub struct Matchers {
    meanings: Meanings,
    /// The number of each pattern's matcher.
    numbers: HashMap<usize, usize>,
    matchers: Vec<Matcher>,
}

impl Matchers {
    ghost use Rattle.xd_match.specs.Serving.{AreNumbered, Serves, StaysServing};

    /// Those of a program, which serve it on every store. The program's types are copied, for what
    /// `Any` stands for is put among them; `NoMemory` where there is no room for the copy.
    pub fn new(alloc: Global, sound: &SoundProgram) -> Result<Self, NoMemory>
        ensures { IfOk result (λ matchers. (documents : List Document) → Serves sound.now documents matchers) }
    {
        let meanings = Meanings::new(alloc, sound.program())?;
        Ok(Self {
            meanings,
            numbers: HashMap::new(alloc),
            matchers: Vec::new(alloc),
        })
    }

    /// The bindings of the first match, one for each variable, in order of first occurrence; `None`
    /// exactly where the pattern doesn't take the document.
    ///
    /// The program and the store are those that the matchers serve: the program that they were made
    /// of, and one store, which may grow in between ([`Self::stays_serving`]). The pattern is
    /// linear, as the patterns of clauses and their parts are. A binding that runs to the end of
    /// its level is the store's own node. After `NoMemory` the matchers serve as before.
    ///
    /// (First matches are those of Hosoya and Pierce, JFP 2003.)
    pub fn first_way(
        &mut self,
        alloc: Global,
        sound: &SoundProgram,
        pattern: PatternId,
        store: &mut Store,
        seq: Seq,
    ) -> Result<Option<Vec<(Label, Seq)>>, NoMemory>
        requires serves { Serves sound.now store.old self.old }
        requires pattern { IsPattern sound.now.patterns pattern }
        requires linear { IsLinear (pattern_tree sound.now.patterns pattern) }
        requires seq { BelongsTo store.old seq }
        ensures found { IfOk result (AreBindings store.new (first_bindings (names_of (program_tree sound.now)) (pattern_tree sound.now.patterns pattern) (document_at store.old seq))) }
        ensures serves { Serves sound.now store.new self.new }
        ensures keeps { Keeps store.old store.new }
    {
        let number = self.number_of(alloc, sound, pattern)?;
        first_way_of(&mut self.matchers, number, alloc, store, seq)
    }

    /// The law of growth: what serves a store goes on to serve it while it grows. The call does
    /// nothing; its contract is the law.
    pub fn stays_serving(&self)
        ensures { StaysServing self.now }
    {
        let _count = self.matchers.len();
    }

    /// The number of the pattern's matcher, which is made where there is none yet.
    fn number_of(
        &mut self,
        alloc: Global,
        sound: &SoundProgram,
        pattern: PatternId,
    ) -> Result<usize, NoMemory>
        requires meanings { Means sound.now self.old.meanings }
        requires numbered { AreNumbered sound.now self.old }
        requires pattern { IsPattern sound.now.patterns pattern }
        requires linear { IsLinear (pattern_tree sound.now.patterns pattern) }
        ensures found { IfOk result (HasMatcher (names_of (program_tree sound.now)) (pattern_tree sound.now.patterns pattern) self.new.matchers.items) }
        ensures numbered { AreNumbered sound.now self.new }
        ensures meanings { Means sound.now self.new.meanings }
        ensures stand { (documents : List Document) → AllStand documents self.old.matchers.items → AllStand documents self.new.matchers.items }
    {
        let at = pattern.at();
        if let Some(number) = self.numbers.get(&at).copied() {
            return Ok(number);
        }
        let matcher = Matcher::new(alloc, sound, &self.meanings, pattern)?;
        let number = self.matchers.len();
        self.matchers.push(matcher)?;
        self.numbers.insert(at, number)?;
        Ok(number)
    }
}

/// What the matcher of this number finds.
fn first_way_of(
    matchers: &mut Vec<Matcher>,
    number: usize,
    alloc: Global,
    store: &mut Store,
    seq: Seq,
) -> Result<Option<Vec<(Label, Seq)>>, NoMemory>
    requires number { number < length matchers.old.items }
    requires stand { AllStand store.old matchers.old.items }
    requires seq { BelongsTo store.old seq }
    ensures found { (E : Definitions) (P : Tree) → HasMatcher E P matchers.old.items number → IfOk result (AreBindings store.new (first_bindings E P (document_at store.old seq))) }
    ensures stand { AllStand store.new matchers.new.items }
    ensures same { (E : Definitions) (P : Tree) (i : ℕ) → HasMatcher E P matchers.old.items i → HasMatcher E P matchers.new.items i }
    ensures keeps { Keeps store.old store.new }
{
    let matcher = &mut matchers[number];
    matcher.first_way(alloc, store, seq)
}

/// The bindings of the first match of one pattern, once: see [`Matchers::first_way`]. After
/// `NoMemory` the store has more documents at most.
pub fn first_way(
    alloc: Global,
    sound: &SoundProgram,
    pattern: PatternId,
    store: &mut Store,
    seq: Seq,
) -> Result<Option<Vec<(Label, Seq)>>, NoMemory>
    requires pattern { IsPattern sound.now.patterns pattern }
    requires linear { IsLinear (pattern_tree sound.now.patterns pattern) }
    requires seq { BelongsTo store.old seq }
    ensures found { IfOk result (AreBindings store.new (first_bindings (names_of (program_tree sound.now)) (pattern_tree sound.now.patterns pattern) (document_at store.old seq))) }
    ensures keeps { Keeps store.old store.new }
{
    let mut matchers = Matchers::new(alloc, sound)?;
    matchers.first_way(alloc, sound, pattern, store, seq)
}
