//! Documents as lists of boxed items.

ghost use Rattle.std.specs.Prelude.{◌≡◌, ◌+◌, not, nat_lt, IfOk};
ghost use Rattle.xd_doc.specs.Document.{text, element, join, has_item};
ghost use Rattle.xd_syntax.specs.Ways.{item_count};
ghost use Rattle.xd_plain.specs.PlainDocuments.{document_of};

use std::alloc::Global;
use xd_doc::{Label, NoMemory, Text};

/// A document: its first item, and what follows.
#[derive(Drop)]
pub enum PlainDocument {
    Empty,
    Text(Text, Box<PlainDocument>),
    /// The label, the content and what follows.
    Elem(Label, Box<PlainDocument>, Box<PlainDocument>),
}

impl PlainDocument {
    /// The text, and the rest after it. Fails only where memory is refused.
    pub fn with_text(
        alloc: Global,
        characters: &Text,
        rest: PlainDocument,
    ) -> Result<PlainDocument, NoMemory>
        ensures { IfOk result (λ made. document_of made ≡ text characters.now (document_of rest)) }
    {
        let rest = Box::new(alloc, rest)?;
        Ok(PlainDocument::Text(characters.share()?, rest))
    }

    /// The element, and the rest after it. Fails only where memory is refused.
    pub fn with_element(
        alloc: Global,
        label: &Label,
        content: PlainDocument,
        rest: PlainDocument,
    ) -> Result<PlainDocument, NoMemory>
        ensures { IfOk result (λ made. document_of made ≡ element label.now (document_of content) (document_of rest)) }
    {
        let content = Box::new(alloc, content)?;
        let rest = Box::new(alloc, rest)?;
        Ok(PlainDocument::Elem(label.share()?, content, rest))
    }

    /// Whether it has no item.
    pub fn is_empty(&self) -> bool
        ensures { result ≡ not (has_item (document_of self.now)) }
    {
        match self {
            PlainDocument::Empty => true,
            PlainDocument::Text(_, _) => false,
            PlainDocument::Elem(_, _, _) => false,
        }
    }

    /// A copy. Fails only where memory is refused.
    pub fn copy(&self, alloc: Global) -> Result<PlainDocument, NoMemory>
        ensures { IfOk result (λ made. document_of made ≡ document_of self.now) }
    {
        match self {
            PlainDocument::Empty => Ok(PlainDocument::Empty),
            PlainDocument::Text(text, rest) => {
                PlainDocument::with_text(alloc, text, rest.copy(alloc)?)
            }
            PlainDocument::Elem(label, content, rest) => {
                let content = content.copy(alloc)?;
                let rest = rest.copy(alloc)?;
                PlainDocument::with_element(alloc, label, content, rest)
            }
        }
    }

    /// A copy of this, followed by the other. Fails only where memory is refused.
    pub fn followed_by(
        &self,
        alloc: Global,
        back: &PlainDocument,
    ) -> Result<PlainDocument, NoMemory>
        ensures { IfOk result (λ made. document_of made ≡ join (document_of self.now) (document_of back.now)) }
    {
        match self {
            PlainDocument::Empty => back.copy(alloc),
            PlainDocument::Text(text, rest) => {
                let rest = rest.followed_by(alloc, back)?;
                PlainDocument::with_text(alloc, text, rest)
            }
            PlainDocument::Elem(label, content, rest) => {
                let content = content.copy(alloc)?;
                let rest = rest.followed_by(alloc, back)?;
                PlainDocument::with_element(alloc, label, content, rest)
            }
        }
    }

    /// Whether this has fewer items, those inside others aside.
    #[cycle(shorter)]
    pub fn is_shorter(&self, than: &PlainDocument) -> bool
        ensures { result ≡ nat_lt (item_count (document_of self.now)) (item_count (document_of than.now)) }
    {
        match than {
            PlainDocument::Empty => false,
            PlainDocument::Text(_, rest) => self.is_no_longer(rest),
            PlainDocument::Elem(_, _, rest) => self.is_no_longer(rest),
        }
    }

    #[cycle(shorter)]
    fn is_no_longer(&self, than: &PlainDocument) -> bool
        ensures { result ≡ nat_lt (item_count (document_of self.now)) (item_count (document_of than.now) + 1) }
    {
        match self {
            PlainDocument::Empty => true,
            PlainDocument::Text(_, rest) => rest.is_shorter(than),
            PlainDocument::Elem(_, _, rest) => rest.is_shorter(than),
        }
    }
}
