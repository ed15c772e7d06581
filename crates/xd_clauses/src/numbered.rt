//! What comes to a clause, and what its variables may be.

ghost use Rattle.std.specs.Prelude.{◌≡◌, true, false, [], Ok, None, IfOk, IfSome, OnOk};
ghost use Rattle.xd_doc.specs.Document.{Document};
ghost use Rattle.xd_doc.specs.StoreNodes.{Keeps};
ghost use Rattle.xd_auto.specs.Automaton.{Extends, IsState, KeepsAccepting};
ghost use Rattle.xd_least.specs.Least.{Knows};
ghost use Rattle.xd_points.specs.Meaning.{ServePoints};
ghost use Rattle.xd_points.specs.Tables.{takes_alone};
ghost use Rattle.xd_given.specs.Given.{IsSharedAlone};
ghost use Rattle.xd_syntax.specs.May.{IsLive};
ghost use Rattle.xd_syntax.specs.Placed.{PlacedTree, unplaced};
ghost use Rattle.xd_syntax.specs.Tree.{Definitions, Tree};
ghost use Rattle.xd_meaning.specs.Bindings.{variables_of};
ghost use Rattle.xd_clauses.specs.Clauses.{Accepted, AreMayGivens};
ghost use Rattle.xd_clauses.specs.Compiled.{AreRunsGivens, IsNumbered, IsSomePattern, state_of};

use crate::compiled::CompiledPatterns;
use crate::owner::WordOwner;
use std::alloc::Global;
use xd_auto::{Auto, State};
use xd_bind::Given;
use xd_doc::{Label, NoMemory, Store};
use xd_given::{PatternVariables, bindings, first_bindings};
use xd_least::LeastInhabitants;
use xd_points::PointParts;

/// One of some compiled patterns.
#[derive(Clone, Copy)]
pub struct NumberedPattern<'a> {
    pub(crate) patterns: &'a CompiledPatterns,
    pub(crate) number: usize,
}

impl<'a> NumberedPattern<'a> {
    /// Its variables, in order of first occurrence.
    pub fn variables(self) -> &'a [Label]
        requires { IsSomePattern self.patterns.now self.number }
        ensures { (E : Definitions) (P : Tree) → IsNumbered E P self.entry.patterns.now self.entry.number → result.now ≡ variables_of P }
    {
        self.patterns.compiled.variables(self.number)
    }

    /// Its state.
    pub(crate) fn start(self) -> State
        requires { IsSomePattern self.patterns.now self.number }
        ensures is { result ≡ state_of self.entry.patterns.now self.entry.number }
        ensures belongs { IsState self.entry.patterns.now.states.auto result }
    {
        self.patterns.compiled.patterns()[self.number]
    }

    /// What runs of its state give its variables, all runs or first ones alone, on documents that
    /// come to the clause.
    fn given_by(
        self,
        alloc: Global,
        first: bool,
        auto: &mut Auto,
        arriving: State,
        known: &mut LeastInhabitants,
        store: &mut Store,
    ) -> Result<Option<Vec<Given>>, NoMemory>
        requires pattern { IsSomePattern self.patterns.now self.number }
        requires serve { ServePoints auto.old self.patterns.now.states }
        requires arriving { IsState auto.old arriving }
        requires known { Knows auto.old store.old known.old }
        ensures none { result ≡ Ok None → (d : Document) → takes_alone auto.old self.entry.patterns.now.states arriving (state_of self.entry.patterns.now self.entry.number) [] d ≡ false }
        ensures shared { IfOk result (λ found. IfSome found (λ givens. IsSharedAlone auto.old self.entry.patterns.now.states arriving (state_of self.entry.patterns.now self.entry.number) [])) }
        ensures givens { IfOk result (λ found. IfSome found (λ givens. AreRunsGivens first auto.old self.entry.patterns.now self.entry.number arriving auto.new givens.items)) }
        ensures extends { Extends auto.old auto.new }
        ensures known { Knows auto.new store.new known.new }
        ensures keeps { Keeps store.old store.new }
    {
        let of = self.patterns;
        let start = self.start();
        let variables = of.compiled.variables(self.number);
        let owner = WordOwner {
            compiled: &of.compiled,
            words: variables,
        };
        let given = PatternVariables {
            patterns: &of.states,
            owner: &owner,
            variables,
        };
        let asked = PointParts {
            left: arriving,
            pattern: start,
            rights: &[],
        };
        if first {
            first_bindings(alloc, auto, &given, asked, known, store)
        } else {
            bindings(alloc, auto, &given, asked, known, store)
        }
    }

    /// For each variable of the pattern, in order of first occurrence, a state that accepts exactly
    /// what some whole way gives it on a document that comes to the clause, one that the state
    /// accepts; `None` where the pattern takes none of these.
    ///
    /// The states of variables lead to states that were there, as far as they can: where a variable
    /// takes all that is left, its state is one of these. After `NoMemory` old states keep their
    /// moves, the store its documents, and what is known stays true.
    pub fn bindings(
        self,
        alloc: Global,
        auto: &mut Auto,
        arriving: State,
        known: &mut LeastInhabitants,
        store: &mut Store,
    ) -> Result<Option<Vec<Given>>, NoMemory>
        requires pattern { IsSomePattern self.patterns.now self.number }
        requires serve { ServePoints auto.old self.patterns.now.states }
        requires arriving { IsState auto.old arriving }
        requires known { Knows auto.old store.old known.old }
        ensures dead { result ≡ Ok None → (E : Definitions) (P : PlacedTree) → IsNumbered E (unplaced P) self.entry.patterns.now self.entry.number → IsLive E (Accepted auto.old arriving) [] P → ⊥ }
        ensures live { IfOk result (λ found. IfSome found (λ givens. (E : Definitions) (P : PlacedTree) → IsNumbered E (unplaced P) self.entry.patterns.now self.entry.number → IsLive E (Accepted auto.old arriving) [] P)) }
        ensures bindings { IfOk result (λ found. IfSome found (λ givens. (E : Definitions) (P : PlacedTree) → IsNumbered E (unplaced P) self.entry.patterns.now self.entry.number → AreMayGivens E (Accepted auto.old arriving) [] P auto.new givens.items)) }
        ensures extends { Extends auto.old auto.new }
        ensures accepting { OnOk result (KeepsAccepting auto.old auto.new) }
        ensures known { Knows auto.new store.new known.new }
        ensures keeps { Keeps store.old store.new }
    {
        let _states = auto.len();
        let found = self.given_by(alloc, false, auto, arriving, known, store)?;
        Ok(found)
    }

    /// The same of first runs: for each variable a state that accepts exactly what the first run of
    /// the pattern's state gives it.
    ///
    /// The first run is the first match of the pattern: `xd_prefer` says so of what it gives.
    pub fn first_bindings(
        self,
        alloc: Global,
        auto: &mut Auto,
        arriving: State,
        known: &mut LeastInhabitants,
        store: &mut Store,
    ) -> Result<Option<Vec<Given>>, NoMemory>
        requires pattern { IsSomePattern self.patterns.now self.number }
        requires serve { ServePoints auto.old self.patterns.now.states }
        requires arriving { IsState auto.old arriving }
        requires known { Knows auto.old store.old known.old }
        ensures dead { result ≡ Ok None → (E : Definitions) (P : PlacedTree) → IsNumbered E (unplaced P) self.entry.patterns.now self.entry.number → IsLive E (Accepted auto.old arriving) [] P → ⊥ }
        ensures live { IfOk result (λ found. IfSome found (λ givens. (E : Definitions) (P : PlacedTree) → IsNumbered E (unplaced P) self.entry.patterns.now self.entry.number → IsLive E (Accepted auto.old arriving) [] P)) }
        ensures givens { IfOk result (λ found. IfSome found (λ givens. AreRunsGivens true auto.old self.entry.patterns.now self.entry.number arriving auto.new givens.items)) }
        ensures extends { Extends auto.old auto.new }
        ensures accepting { OnOk result (KeepsAccepting auto.old auto.new) }
        ensures known { Knows auto.new store.new known.new }
        ensures keeps { Keeps store.old store.new }
    {
        let _states = auto.len();
        let found = self.given_by(alloc, true, auto, arriving, known, store)?;
        Ok(found)
    }
}
