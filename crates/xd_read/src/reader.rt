//! The reader's stack.

ghost use Rattle.std.specs.Prelude.{◌≡◌, ◌≤◌, ◌∷◌, ◌++◌, [], length, take, drop, true, false, Err, IfOk, IfNone, IfSome, OnOk};
ghost use Rattle.std.specs.List.{AllByRecursion};
ghost use Rattle.xd_doc.specs.Stored.{document_at};
ghost use Rattle.xd_doc.specs.StoredSeq.{BelongsTo};
ghost use Rattle.xd_doc.specs.StoreNodes.{Keeps};
ghost use Rattle.xd_lex.specs.LexedTokens.{is_last};
ghost use Rattle.xd_lex.specs.Spellings.{IsSpelling};
ghost use Rattle.xd_read.specs.Reading.{terminal};
ghost use Rattle.xd_read.specs.Pending.{items_of, IsInStore, IsClosed, IsReaderReady, StandsAt};
ghost use Rattle.xd_read.specs.Pending.{PassesToken, EndsDocument, StopsAt};
ghost use Rattle.xd_read.specs.declared.moves.Expect.TheVariants as expects;
ghost use Rattle.xd_read.specs.declared.reader.Stop.TheVariants.{NoMemory as OutOfMemory};

use crate::moves::{Expect, Move, move_for};
use crate::parts::{label_at, text_at};
use std::alloc::Global;
use xd_doc::{Label, NoMemory, Seq, Store, Text};
use xd_lex::Cut;

/// An item whose spelling has been read.
#[derive(Drop)]
pub enum Finished {
    Text(Text),
    Element(Label, Seq),
}

/// An element whose `]` has not come: its label, and how many items were finished before it.
#[derive(Drop)]
pub struct OpenElement {
    label: Label,
    start: usize,
}

/// What was read so far.
#[derive(Drop)]
pub struct Reader {
    expect: Expect,
    finished: Vec<Finished>,
    elements: Vec<OpenElement>,
}

/// Why the reader doesn't go past a token.
#[derive(Clone, Copy, Debug, PartialEq, Eq)]
pub enum Stop {
    /// No document goes on with it.
    Refused,
    NoMemory,
}

impl From<NoMemory> for Stop {
    ghost from_gives = { λ _ e. e ≡ OutOfMemory };

    fn from(_error: NoMemory) -> Self {
        Self::NoMemory
    }
}

/// Stores the items from `start` on, and takes them away.
fn store_items(
    store: &mut Store,
    finished: &mut Vec<Finished>,
    start: usize,
) -> Result<Seq, NoMemory>
    requires start { start ≤ length finished.old.items }
    requires items { AllByRecursion (IsInStore store.old) finished.old.items }
    ensures document { IfOk result (λ seq.
        document_at store.new seq ≡ items_of store.old (drop start finished.old.items)) }
    ensures belongs { IfOk result (BelongsTo store.new) }
    ensures taken { OnOk result (finished.new.items ≡ take start finished.old.items) }
    ensures keeps { Keeps store.old store.new }
{
    let mut seq = Seq::empty();
    while finished.len() > start {
        match finished.pop() {
            Some(Finished::Text(text)) => seq = store.text_node(text, seq)?,
            Some(Finished::Element(label, content)) => seq = store.elem_node(label, content, seq)?,
            None => return Ok(seq),
        }
    }
    Ok(seq)
}

impl Reader {
    /// Before the first token.
    pub fn new(alloc: Global) -> Self
        ensures expect { result.expect ≡ expects.Document }
        ensures finished { result.finished.items ≡ [] }
        ensures elements { result.elements.items ≡ [] }
    {
        Self {
            expect: Expect::Document,
            finished: Vec::new(alloc),
            elements: Vec::new(alloc),
        }
    }

    /// Reads a token, which stands at byte `at` of the source: goes on, or ends the document.
    pub fn read(
        &mut self,
        alloc: Global,
        store: &mut Store,
        source: &Text,
        at: usize,
        token: &Cut<'_>,
    ) -> Result<Option<Seq>, Stop>
        requires ready { IsReaderReady store.old self.old }
        requires spelled { IsSpelling token.now.kind token.now.text.now }
        requires stands { StandsAt source.now at token.now.text.now }
        ensures passes { IfOk result (λ end. IfNone end
            (PassesToken store.old self.old (terminal token.now.kind token.now.text.now) store.new self.new)) }
        ensures more { IfOk result (λ end. IfNone end (is_last token.now.kind ≡ false)) }
        ensures ends { IfOk result (λ end. IfSome end (λ seq.
            EndsDocument store.old self.old (terminal token.now.kind token.now.text.now) (document_at store.new seq))) }
        ensures last { IfOk result (λ end. IfSome end (λ seq. is_last token.now.kind ≡ true)) }
        ensures belongs { IfOk result (λ end. IfSome end (BelongsTo store.new)) }
        ensures stops { result ≡ Err Stop.Refused → StopsAt store.old self.old (terminal token.now.kind token.now.text.now) }
        ensures keeps { Keeps store.old store.new }
    {
        match move_for(self.expect, token.kind) {
            Move::Text => {
                let text = text_at(alloc, source, at, token.text)?;
                self.take_text(text)?;
                Ok(None)
            }
            Move::Open => {
                let label = label_at(source, at, token.text)?;
                self.open_element(label)?;
                Ok(None)
            }
            Move::Close => match self.elements.pop() {
                Some(element) => {
                    self.close_element(store, element)?;
                    Ok(None)
                }
                None => Err(Stop::Refused),
            },
            Move::End => {
                if !self.elements.is_empty() {
                    return Err(Stop::Refused);
                }
                let seq = store_items(store, &mut self.finished, 0)?;
                Ok(Some(seq))
            }
            Move::Go(expect) => {
                self.expect = expect;
                Ok(None)
            }
            Move::Refuse => Err(Stop::Refused),
        }
    }

    fn take_text(&mut self, text: Text) -> Result<(), NoMemory>
        ensures finished { OnOk result (self.new.finished.items ≡ self.old.finished.items ++ Finished.Text text ∷ []) }
        ensures expect { OnOk result (self.new.expect ≡ expects.More) }
        ensures elements { OnOk result (self.new.elements.items ≡ self.old.elements.items) }
    {
        self.finished.push(Finished::Text(text))?;
        self.expect = Expect::More;
        Ok(())
    }

    fn open_element(&mut self, label: Label) -> Result<(), NoMemory>
        ensures elements { OnOk result (self.new.elements.items ≡ self.old.elements.items
            ++ record { label = label; start = length self.old.finished.items } ∷ []) }
        ensures expect { OnOk result (self.new.expect ≡ expects.Content) }
        ensures finished { OnOk result (self.new.finished.items ≡ self.old.finished.items) }
    {
        let start = self.finished.len();
        self.elements.push(OpenElement { label, start })?;
        self.expect = Expect::Content;
        Ok(())
    }

    /// Stores the content of the element, which then is a finished item.
    fn close_element(&mut self, store: &mut Store, element: OpenElement) -> Result<(), NoMemory>
        requires start { element.start ≤ length self.old.finished.items }
        requires items { AllByRecursion (IsInStore store.old) self.old.finished.items }
        ensures closed { OnOk result
            (IsClosed store.old self.old.finished.items element store.new self.new.finished.items) }
        ensures expect { OnOk result (self.new.expect ≡ expects.More) }
        ensures elements { OnOk result (self.new.elements.items ≡ self.old.elements.items) }
        ensures keeps { Keeps store.old store.new }
    {
        let content = store_items(store, &mut self.finished, element.start)?;
        self.finished
            .push(Finished::Element(element.label, content))?;
        self.expect = Expect::More;
        Ok(())
    }
}
