//! What is known of the states of an automaton that only grows.

ghost use Rattle.std.specs.Prelude.{◌≡◌, List, OnOk, length, take};
ghost use Rattle.xd_doc.specs.Document.{Document};
ghost use Rattle.xd_doc.specs.StoreNodes.{Keeps};
ghost use Rattle.xd_auto.specs.Automaton.{Automaton};
ghost use Rattle.xd_least.specs.Least.{Knows, StaysKnown, known_of};

use crate::document::LeastDocument;
use crate::finding::find_new;
use std::alloc::Global;
use std::marker::Model;
use xd_auto::{Auto, State};
use xd_doc::{NoMemory, Store};

/// For each of the first states of an automaton, by its number, a least document, or none where the
/// state accepts none.
///
/// It serves an automaton that only grows: what is known stays known ([`Self::stays_known`]), and
/// [`Self::learn`] looks at the states that are new.
#[derive(Debug, Drop)]
pub struct LeastInhabitants {
    documents: Vec<Option<LeastDocument>>,
}

impl Model for LeastInhabitants {
    ghost use Rattle.std.specs.Prelude.{List, Option};
    ghost use Rattle.xd_least.specs.declared.document.LeastDocument.{LeastDocument};

    ghost Value = { List (Option LeastDocument) };

    ghost view = { λ known. known.documents.items };
}

impl LeastInhabitants {
    /// Nothing is known.
    pub fn new(alloc: Global) -> Self
        ensures { (a : Automaton) (ds : List Document) → Knows a ds result }
    {
        Self {
            documents: Vec::new(alloc),
        }
    }

    /// Learns of the states of the automaton that were added since. After `NoMemory` no less is
    /// known than before.
    pub fn learn(&mut self, alloc: Global, auto: &Auto, store: &mut Store) -> Result<(), NoMemory>
        requires { Knows auto.now store.old self.old }
        ensures knows { Knows auto.now store.new self.new }
        ensures all { OnOk result (length self.new ≡ length auto.now) }
        ensures remembers { take (length self.old) self.new ≡ self.old }
        ensures keeps { Keeps store.old store.new }
    {
        let known = self.documents.len();
        match find_new(alloc, auto, &mut self.documents, store) {
            Ok(()) => Ok(()),
            Err(error) => {
                self.documents.truncate(known);
                Err(error)
            }
        }
    }

    /// Forgets all but what is known of the first states, as many as `count` says.
    pub fn forget_after(&mut self, count: usize)
        ensures { self.new ≡ take count self.old }
    {
        self.documents.truncate(count);
    }

    /// A least document of the state, with its size, where it is known to accept any.
    pub fn document(&self, state: State) -> Option<LeastDocument>
        ensures { result ≡ known_of self.now state }
    {
        *self.documents.get(state.number())?
    }

    /// What is known, by the numbers of the states.
    pub(crate) fn into_documents(self) -> Vec<Option<LeastDocument>>
        ensures { result.items ≡ self }
    {
        let Self { documents } = self;
        documents
    }

    /// The law of growth: what is known stays known of an automaton that extends the old one, with
    /// a store that keeps the old documents. The call does nothing; its contract is the law.
    pub fn stays_known(&self)
        ensures { StaysKnown self.now }
    {
        let _count = self.documents.len();
    }
}
