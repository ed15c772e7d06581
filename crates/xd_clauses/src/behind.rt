//! What the clauses of a match leave, and what comes to the next one.

ghost use Rattle.std.specs.Prelude.{◌≡◌, ◌↔◌, ◌||◌, false, IfOk};
ghost use Rattle.xd_doc.specs.Document.{Document};
ghost use Rattle.xd_auto.specs.Automaton.{Automaton, Extends, IsState, accepts};
ghost use Rattle.xd_auto.specs.Universal.{IsUniversal};
ghost use Rattle.xd_points.specs.Meaning.{ServePoints};
ghost use Rattle.xd_clauses.specs.Behind.{AreWaiting, any_waiting};
ghost use Rattle.xd_clauses.specs.declared.compiled.CompiledPatterns.{CompiledPatterns as PatternsView};

use crate::begins::Begins;
use crate::compiled::CompiledPatterns;
use crate::numbered::NumberedPattern;
use std::alloc::Global;
use xd_auto::{Auto, State};
use xd_doc::NoMemory;

/// What the patterns of a match's clauses so far leave of what its scrutinee may be.
///
/// Some patterns wait, and are taken away together. As long as documents of each further pattern
/// begin otherwise, as those of `a[Any]` and `b[Any]` do, what the waiting ones take is nothing to
/// it. So nothing is to be made for it, and n such patterns cost about n.
#[derive(Drop)]
pub struct Remaining {
    /// A state for what those leave that were taken away.
    state: State,
    waiting: Waiting,
}

/// Patterns that are still to be taken away: of compiled patterns these states.
#[derive(Drop)]
struct Waiting {
    starts: Vec<State>,
    begins: Begins,
}

impl Waiting {
    /// None.
    fn new(alloc: Global) -> Result<Self, NoMemory>
        ensures waiting { IfOk result (λ made. (m : PatternsView) → AreWaiting m made) }
        ensures none { IfOk result (λ made. (m : PatternsView) (d : Document) → any_waiting m made d ≡ false) }
    {
        let starts = Vec::new(alloc);
        let begins = Begins::new(alloc)?;
        Ok(Self { starts, begins })
    }

    /// One more.
    fn add(self, patterns: &CompiledPatterns, start: State) -> Result<Self, NoMemory>
        requires waiting { AreWaiting patterns.now self }
        requires start { IsState patterns.now.states.auto start }
        ensures waiting { IfOk result (AreWaiting patterns.now) }
        ensures adds { IfOk result (λ made. (d : Document) → any_waiting patterns.now made d ≡ (any_waiting patterns.now self d || accepts patterns.now.states.auto d start)) }
    {
        let Self { starts, begins } = self;
        let mut starts = starts;
        starts.push(start)?;
        let begins = begins.add(&patterns.states.auto, start)?;
        Ok(Self { starts, begins })
    }
}

impl Remaining {
    ghost use Rattle.xd_auto.specs.Automaton.{KeepsAccepting};
    ghost use Rattle.xd_syntax.specs.Placed.{PlacedTree, unplaced};
    ghost use Rattle.xd_syntax.specs.Tree.{Definitions};
    ghost use Rattle.xd_syntax.specs.Ways.{Takes};
    ghost use Rattle.xd_clauses.specs.Behind.{Remains, StandsIn};
    ghost use Rattle.xd_clauses.specs.Clauses.{Accepted};
    ghost use Rattle.xd_clauses.specs.Compiled.{IsNumbered, IsSomePattern};

    /// All that a state accepts, of an automaton that only grows. Fails only where memory is
    /// refused.
    pub fn new(alloc: Global, scrutinee: State) -> Result<Self, NoMemory>
        ensures stands { IfOk result (λ made. (a : Automaton) (m : PatternsView) → IsState a scrutinee → StandsIn a m made) }
        ensures remains { IfOk result (λ made. (a : Automaton) (m : PatternsView) (d : Document) → Remains a m made d ↔ Accepted a scrutinee d) }
    {
        let waiting = Waiting::new(alloc)?;
        Ok(Self {
            state: scrutinee,
            waiting,
        })
    }

    /// A state for what comes to a clause with this pattern: of the documents that the pattern
    /// takes it accepts just those that remain.
    ///
    /// All clauses of a match have patterns that are compiled together. Fails only where memory is
    /// refused; the automaton keeps its states then, and may have more.
    pub fn coming_to(
        self,
        alloc: Global,
        auto: &mut Auto,
        pattern: NumberedPattern<'_>,
    ) -> Result<(Self, State), NoMemory>
        requires pattern { IsSomePattern pattern.patterns.now pattern.number }
        requires serve { ServePoints auto.old pattern.patterns.now.states }
        requires stands { StandsIn auto.old pattern.patterns.now self }
        ensures stands { IfOk result (λ made. StandsIn auto.new pattern.entry.patterns.now made.0) }
        ensures remains { IfOk result (λ made. (d : Document) → Remains auto.new pattern.entry.patterns.now made.0 d ↔ Remains auto.old pattern.entry.patterns.now self d) }
        ensures belongs { IfOk result (λ made. IsState auto.new made.1) }
        ensures comes { IfOk result (λ made. (E : Definitions) (P : PlacedTree) → IsNumbered E (unplaced P) pattern.entry.patterns.now pattern.entry.number → (d : Document) → Takes E (unplaced P) d → Accepted auto.new made.1 d ↔ Remains auto.old pattern.entry.patterns.now self d) }
        ensures extends { Extends auto.old auto.new }
        ensures accepting { KeepsAccepting auto.old auto.new }
    {
        let start = pattern.start();
        let begins = &self.waiting.begins;
        let is_apart = begins.is_apart(alloc, &pattern.patterns.states.auto, start)?;
        if is_apart {
            let state = self.state;
            return Ok((self, state));
        }
        let state = self.left_over(alloc, auto, pattern.patterns)?;
        let waiting = Waiting::new(alloc)?;
        Ok((Self { state, waiting }, state))
    }

    /// The same without what the pattern takes. Fails only where memory is refused.
    pub fn without(self, pattern: NumberedPattern<'_>) -> Result<Self, NoMemory>
        requires pattern { IsSomePattern pattern.patterns.now pattern.number }
        requires waiting { AreWaiting pattern.patterns.now self.waiting }
        ensures stands { IfOk result (λ made. (a : Automaton) → StandsIn a pattern.entry.patterns.now self → StandsIn a pattern.entry.patterns.now made) }
        ensures remains { IfOk result (λ made. (E : Definitions) (P : PlacedTree) → IsNumbered E (unplaced P) pattern.entry.patterns.now pattern.entry.number → (a : Automaton) (d : Document) → Remains a pattern.entry.patterns.now made d ↔ (Remains a pattern.entry.patterns.now self d × (Takes E (unplaced P) d → ⊥))) }
    {
        let Self { state, waiting } = self;
        let waiting = waiting.add(pattern.patterns, pattern.start())?;
        Ok(Self { state, waiting })
    }

    /// Adds a state for all that remains.
    ///
    /// Fails only where memory is refused; the automaton keeps its states then, and may have more.
    pub fn left_over(
        self,
        alloc: Global,
        auto: &mut Auto,
        patterns: &CompiledPatterns,
    ) -> Result<State, NoMemory>
        requires universal { IsUniversal patterns.now.states.auto patterns.now.all }
        requires serve { ServePoints auto.old patterns.now.states }
        requires stands { StandsIn auto.old patterns.now self }
        ensures belongs { IfOk result (IsState auto.new) }
        ensures exact { IfOk result (λ made. (d : Document) → Accepted auto.new made d ↔ Remains auto.old patterns.now self d) }
        ensures extends { Extends auto.old auto.new }
        ensures accepting { KeepsAccepting auto.old auto.new }
    {
        let _states = auto.len();
        let Self { state, waiting } = self;
        let left = patterns.take_away(alloc, auto, state, &waiting.starts)?;
        Ok(left)
    }
}
