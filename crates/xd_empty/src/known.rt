//! What is known of the states of an automaton that only grows.

ghost use Rattle.std.specs.Prelude.{◌≡◌, List, OnOk, length, take};
ghost use Rattle.xd_doc.specs.Document.{Document};
ghost use Rattle.xd_doc.specs.StoreNodes.{Keeps};
ghost use Rattle.xd_auto.specs.Automaton.{Automaton};
ghost use Rattle.xd_empty.specs.Known.{Knows, StaysKnown, document_of};

use crate::finding::find_new;
use std::alloc::Global;
use std::marker::Model;
use xd_auto::{Auto, State};
use xd_doc::{NoMemory, Seq, Store};

/// For each of the first states of an automaton, by its number, a document that it accepts, or none
/// where it accepts none.
///
/// It serves an automaton that only grows: what is known stays known ([`Self::stays_known`]), and
/// [`Self::learn`] looks at the states that are new.
#[derive(Debug, Drop)]
pub struct Inhabitants {
    documents: Vec<Option<Seq>>,
}

impl Model for Inhabitants {
    ghost use Rattle.std.specs.Prelude.{List, Option};
    ghost use Rattle.xd_doc.specs.declared.store.Seq.{Seq};

    ghost Value = { List (Option Seq) };

    ghost view = { λ known. known.documents.items };
}

impl Inhabitants {
    /// Nothing is known. It takes no memory.
    pub fn new(alloc: Global) -> Self
        ensures { (a : Automaton) (ds : List Document) → Knows a ds result }
    {
        Self {
            documents: Vec::new(alloc),
        }
    }

    /// Learns of the states of the automaton that were added since. After `NoMemory` no less is
    /// known than before.
    ///
    /// The automaton and the store are those of which it knows, which may have grown. It looks at
    /// the moves of the new states alone.
    pub fn learn(&mut self, alloc: Global, auto: &Auto, store: &mut Store) -> Result<(), NoMemory>
        requires { Knows auto.now store.old self.old }
        ensures knows { Knows auto.now store.new self.new }
        ensures all { OnOk result (length self.new ≡ length auto.now) }
        ensures remembers { take (length self.old) self.new ≡ self.old }
        ensures keeps { Keeps store.old store.new }
    {
        let known = self.documents.len();
        match find_new(alloc, auto, &mut self.documents, store) {
            Ok(()) => Ok(()),
            Err(error) => {
                self.documents.truncate(known);
                Err(error)
            }
        }
    }

    /// A document that the state accepts, where it is known to accept any.
    pub fn document(&self, state: State) -> Option<Seq>
        ensures { result ≡ document_of self.now state }
    {
        *self.documents.get(state.number())?
    }

    /// What is known, by the numbers of the states.
    pub(crate) fn into_documents(self) -> Vec<Option<Seq>>
        ensures { result.items ≡ self }
    {
        let Self { documents } = self;
        documents
    }

    /// The law of growth: what is known stays known of an automaton that extends the old one, with
    /// a store that keeps the old documents. The call does nothing; its contract is the law.
    pub fn stays_known(&self)
        ensures { StaysKnown self.now }
    {
        let _count = self.documents.len();
    }
}
