//! Links between nodes.

ghost use Rattle.std.specs.Prelude.{◌≡◌, ◌-◌, ◌^◌};
ghost use Rattle.xd_doc.specs.StoredSeq.{IsBelow};
ghost use Rattle.xd_doc.specs.StoreNodes.{no_items};

use crate::store::Seq;
use std::marker::Model;

/// A document of a store in half the room: 0 for the empty one, else one more than the number of
/// its node.
#[derive(Clone, Copy, Debug)]
pub(crate) struct Link {
    number: usize,
}

impl Model for Link {
    ghost use Rattle.std.proofs.Common.{ap};
    ghost use Rattle.xd_doc.specs.Links.{numbered, number_for, number_for-numbered};
    ghost use Rattle.xd_doc.specs.declared.store.Seq.{Seq};

    ghost Value = { Seq };

    ghost view = { λ l. numbered l.number };

    ghost inverse = { λ seq. record { number = number_for seq.node } };

    ghost inverse_ok = { λ l h. ap (λ n. record { number = n }) (number_for-numbered l.number) };
}

impl Link {
    /// The link to the empty document.
    pub(crate) fn none() -> Self
        ensures { result ≡ no_items }
    {
        Self { number: 0 }
    }

    /// The link to this document.
    pub(crate) fn new(seq: Seq) -> Self
        requires { IsBelow (2 ^ 64 - 1) seq.node }
        ensures { result ≡ seq }
    {
        match seq.place() {
            None => Self::none(),
            Some(place) => Self { number: place + 1 },
        }
    }

    /// The document that it leads to.
    pub(crate) fn seq(self) -> Seq
        ensures { result ≡ self }
    {
        Seq::begun_at(self.number.checked_sub(1))
    }
}
