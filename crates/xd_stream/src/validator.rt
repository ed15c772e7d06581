//! The frames of open elements, and what may still come.

ghost use Rattle.std.specs.Prelude.{◌≡◌, ◌<◌, ℕ, List, [], true, length, slice_index_or, IfErr, IfOk, OnOk};
ghost use Rattle.std.specs.List.{list_any};
ghost use Rattle.xd_auto.specs.Automaton.{IsState, moves_at, state_number};
ghost use Rattle.xd_empty.specs.Parts.{is_marked};
ghost use Rattle.xd_read.specs.Grammar.{Terminal, QuotedText as text_terminal, Label as label_terminal, ParenL, ParenR, BracketR, Comma, End};
ghost use Rattle.xd_stream.specs.StopByState.{BeginsAccepted};
ghost use Rattle.xd_stream.specs.Positions.{takes_item, takes_close};
ghost use Rattle.xd_stream.specs.Expecting.{IsExpected, some_has};
ghost use Rattle.std.specs.Str.{is_utf8};
ghost use Rattle.xd_stream.specs.Pairs.{AreStates, TakesEveryText};
ghost use Rattle.xd_stream.specs.Standing.{is_alive_at};
ghost use Rattle.xd_stream.specs.declared.validator.Refusal.TheVariants.{NoMemory as OutOfMemory};
ghost use Rattle.xd_stream.specs.Validating.{Ends, Goes, IsReady, IsSameFor, Passes, Refuses, StandsAfter, depth_of, may_be_empty, may_close, may_close_parens, may_end, may_finish, may_go_on, may_open, may_take_text, pairs_of, position_of, tested, tested_from};

use crate::expected::{Expected, add_pair_labels, add_pair_texts};
use crate::marks::item_marks;
use crate::pairs::{
    Pair, Waiting, begin_pairs, every_text_pairs, pairs_behind, takes_every_text, text_pairs,
    waiting_pairs,
};
use crate::position::Position;
use std::alloc::Global;
use std::mem::swap;
use xd_auto::{Auto, State};
use xd_doc::{Class, Label, NoMemory, Text, Words};
use xd_empty::inhabited;

/// Why a token isn't taken.
#[derive(Clone, Copy, Debug, PartialEq, Eq)]
pub enum Refusal {
    /// No document goes on with it.
    Malformed,
    /// No accepted document does.
    Outside,
    NoMemory,
}

impl From<NoMemory> for Refusal {
    ghost from_gives = { λ _ e. e ≡ OutOfMemory };

    fn from(_error: NoMemory) -> Self {
        Self::NoMemory
    }
}

/// What the tokens so far leave open.
#[derive(Drop)]
pub struct Validator {
    automaton: Auto,
    start: State,
    /// Whether each state accepts a document.
    marks: Vec<bool>,
    /// Whether each state accepts one with an item.
    with_items: Vec<bool>,
    position: Position,
    pairs: Vec<Pair>,
    /// Room for the next pairs.
    spare: Vec<Pair>,
    /// Room for what may end where an element closes.
    ended: Vec<usize>,
    /// The moves on the open elements, of the outermost first.
    waiting: Vec<Waiting>,
    /// Where the moves on each open element begin.
    places: Vec<usize>,
}

impl Validator {
    /// Before the first token.
    pub fn new(alloc: Global, automaton: Auto, start: State) -> Result<Self, NoMemory>
        requires { IsState automaton start }
        ensures stands { IfOk result (λ made. StandsAfter made []) }
        ensures automaton { IfOk result (λ made. tested made ≡ automaton) }
        ensures start { IfOk result (λ made. tested_from made ≡ start) }
    {
        let marks = inhabited(alloc, &automaton)?;
        let with_items = item_marks(alloc, &automaton, &marks)?;
        let mut pairs = Vec::new(alloc);
        if marks[start.number()] {
            let begun = Pair {
                first: start,
                present: start,
            };
            pairs.push(begun)?;
        }
        Ok(Self {
            automaton,
            start,
            marks,
            with_items,
            position: Position::Document,
            pairs,
            spare: Vec::new(alloc),
            ended: Vec::new(alloc),
            waiting: Vec::new(alloc),
            places: Vec::new(alloc),
        })
    }

    /// The automaton, for another validator.
    pub fn release(self) -> Auto
        ensures { result ≡ tested self }
    {
        self.automaton
    }

    /// The number of open elements.
    pub fn open_elements(&self) -> usize
        ensures { result ≡ depth_of self.now }
    {
        self.places.len()
    }

    /// Whether some pair accepts what may be left.
    fn is_alive(&self) -> bool
        requires { IsReady self.now }
        ensures { result ≡ list_any (is_alive_at self.now.automaton self.now.with_items.items self.now.position) self.now.pairs.items }
    {
        match self.position {
            Position::Document | Position::Content | Position::More => !self.pairs.is_empty(),
            Position::Item => some_marked(&self.with_items, &self.pairs),
            Position::Closing | Position::Closed => some_last(&self.automaton, &self.pairs),
        }
    }

    /// Whether what there is begins an accepted document.
    fn test(&self) -> Result<(), Refusal>
        requires { IsReady self.now }
        ensures ok { OnOk result ((ts : List Terminal) → StandsAfter self.now ts → BeginsAccepted self.now.automaton self.now.start ts) }
        ensures err { IfErr result (λ e. (ts : List Terminal) → StandsAfter self.now ts → ¬ (BeginsAccepted self.now.automaton self.now.start ts)) }
        ensures outside { IfErr result (λ e. e ≡ Refusal.Outside) }
    {
        if self.is_alive() {
            Ok(())
        } else {
            Err(Refusal::Outside)
        }
    }

    /// Whether the innermost content, or the document, may end here.
    fn may_end(&self) -> bool
        requires { IsReady self.now }
        ensures { result ≡ may_end self.now }
    {
        self.position.takes_close() && some_last(&self.automaton, &self.pairs)
    }

    /// Whether the `]` of an element may come.
    fn may_close(&self) -> bool
        requires { IsReady self.now }
        ensures { result ≡ may_close self.now }
    {
        !self.places.is_empty() && self.may_end()
    }

    /// Whether the document may end here.
    fn may_finish(&self) -> bool
        requires { IsReady self.now }
        ensures { result ≡ may_finish self.now }
    {
        self.places.is_empty() && self.may_end()
    }

    /// Whether a comma may come, and then an item.
    fn may_go_on(&self) -> bool
        requires { IsReady self.now }
        ensures { result ≡ may_go_on self.now }
    {
        match self.position {
            Position::More => some_marked(&self.with_items, &self.pairs),
            _ => false,
        }
    }

    /// Whether `()` may come.
    fn may_be_empty(&self) -> bool
        requires { IsReady self.now }
        ensures { result ≡ may_be_empty self.now }
    {
        self.position.takes_parens() && some_last(&self.automaton, &self.pairs)
    }

    /// Whether the `)` of `()` may come.
    fn may_close_parens(&self) -> bool
        requires { IsReady self.now }
        ensures { result ≡ may_close_parens self.now }
    {
        match self.position {
            Position::Closing => some_last(&self.automaton, &self.pairs),
            _ => false,
        }
    }

    /// The classes of the labels that may come.
    fn expected_labels(&self, alloc: Global) -> Result<Vec<Class>, NoMemory>
        requires { IsReady self.now }
        ensures { IfOk result (λ classes. (l : List ℕ) → some_has classes.items l ≡ may_open self.now l) }
    {
        let mut labels = Vec::new(alloc);
        if self.position.takes_item() {
            add_pair_labels(&self.automaton, &self.marks, &self.pairs, &mut labels)?;
        }
        Ok(labels)
    }

    /// The classes of the texts that may come.
    fn expected_texts(&self, alloc: Global) -> Result<Vec<Words>, NoMemory>
        requires { IsReady self.now }
        ensures { IfOk result (λ classes. (t : List ℕ) → some_has classes.items t ≡ may_take_text self.now t) }
    {
        let mut texts = Vec::new(alloc);
        if self.position.takes_item() {
            add_pair_texts(&self.automaton, &self.marks, &self.pairs, &mut texts)?;
        }
        Ok(texts)
    }

    /// What may come next.
    pub fn expected(&self, alloc: Global) -> Result<Expected, NoMemory>
        requires { IsReady self.now }
        ensures { IfOk result (λ e. (ts : List Terminal) → StandsAfter self.now ts → IsExpected self.now.automaton self.now.start ts e) }
    {
        let labels = self.expected_labels(alloc)?;
        let texts = self.expected_texts(alloc)?;
        Ok(Expected {
            labels,
            texts,
            comma: self.may_go_on(),
            bracket_r: self.may_close(),
            paren_l: self.may_be_empty(),
            paren_r: self.may_close_parens(),
            end: self.may_finish(),
        })
    }

    /// Takes a text.
    pub fn take_text(&mut self, text: &Text) -> Result<(), Refusal>
        requires { IsReady self.old }
        ensures ok { OnOk result (Passes self.old (text_terminal text.now) self.new) }
        ensures err { IfErr result (Refuses self.old (text_terminal text.now)) }
        ensures same { IsSameFor self.old self.new }
    {
        if !self.position.takes_item() {
            return Err(Refusal::Malformed);
        }
        self.go_over_text(text)?;
        self.test()
    }

    fn go_over_text(&mut self, text: &Text) -> Result<(), NoMemory>
        requires ready { IsReady self.old }
        requires takes { takes_item self.old.position ≡ true }
        ensures goes { OnOk result (Goes self.old (text_terminal text.now) self.new) }
        ensures same { IsSameFor self.old self.new }
    {
        let _characters = text.as_str();
        self.spare.clear();
        text_pairs(
            &self.automaton,
            &self.marks,
            &self.pairs,
            text,
            &mut self.spare,
        )?;
        swap(&mut self.pairs, &mut self.spare);
        self.position = Position::More;
        Ok(())
    }

    /// Whether all texts lead to the same.
    pub fn takes_every_text(&self) -> bool
        requires { IsReady self.now }
        ensures { result ≡ true → TakesEveryText (tested self.now) (pairs_of self.now) }
    {
        takes_every_text(&self.automaton, &self.pairs)
    }

    /// Takes a text where all lead to the same, whichever it is.
    pub fn take_every_text(&mut self) -> Result<(), Refusal>
        requires ready { IsReady self.old }
        requires every { TakesEveryText (tested self.old) (pairs_of self.old) }
        ensures ok { OnOk result ((t : List ℕ) → is_utf8 t ≡ true → Passes self.old (text_terminal t) self.new) }
        ensures err { IfErr result (λ e. (t : List ℕ) → is_utf8 t ≡ true → Refuses self.old (text_terminal t) e) }
        ensures same { IsSameFor self.old self.new }
    {
        if !self.position.takes_item() {
            return Err(Refusal::Malformed);
        }
        self.go_over_every_text()?;
        self.test()
    }

    fn go_over_every_text(&mut self) -> Result<(), NoMemory>
        requires ready { IsReady self.old }
        requires every { TakesEveryText (tested self.old) (pairs_of self.old) }
        requires takes { takes_item self.old.position ≡ true }
        ensures goes { OnOk result ((t : List ℕ) → is_utf8 t ≡ true → Goes self.old (text_terminal t) self.new) }
        ensures same { IsSameFor self.old self.new }
    {
        self.spare.clear();
        every_text_pairs(&self.automaton, &self.marks, &self.pairs, &mut self.spare)?;
        swap(&mut self.pairs, &mut self.spare);
        self.position = Position::More;
        Ok(())
    }

    /// Opens an element.
    pub fn open(&mut self, label: &Label) -> Result<(), Refusal>
        requires { IsReady self.old }
        ensures ok { OnOk result (Passes self.old (label_terminal label.now) self.new) }
        ensures err { IfErr result (Refuses self.old (label_terminal label.now)) }
        ensures same { IsSameFor self.old self.new }
    {
        if !self.position.takes_item() {
            return Err(Refusal::Malformed);
        }
        self.go_into_element(label)?;
        self.test()
    }

    fn go_into_element(&mut self, label: &Label) -> Result<(), NoMemory>
        requires ready { IsReady self.old }
        requires takes { takes_item self.old.position ≡ true }
        ensures goes { OnOk result (Goes self.old (label_terminal label.now) self.new) }
        ensures same { IsSameFor self.old self.new }
    {
        let _word = label.as_str();
        let place = self.waiting.len();
        waiting_pairs(
            &self.automaton,
            &self.marks,
            &self.pairs,
            label,
            &mut self.waiting,
        )?;
        self.places.push(place)?;
        self.pairs.clear();
        begin_pairs(&self.waiting[place..], &mut self.pairs)?;
        self.position = Position::Content;
        Ok(())
    }

    /// Closes the innermost open element.
    pub fn close(&mut self) -> Result<(), Refusal>
        requires { IsReady self.old }
        ensures ok { OnOk result (Passes self.old BracketR self.new) }
        ensures err { IfErr result (Refuses self.old BracketR) }
        ensures same { IsSameFor self.old self.new }
    {
        if !self.position.takes_close() || self.places.is_empty() {
            return Err(Refusal::Malformed);
        }
        self.go_behind_element()?;
        self.test()
    }

    fn go_behind_element(&mut self) -> Result<(), NoMemory>
        requires ready { IsReady self.old }
        requires takes { takes_close self.old.position ≡ true }
        requires some { 0 < length self.old.places.items }
        ensures goes { OnOk result (Goes self.old BracketR self.new) }
        ensures same { IsSameFor self.old self.new }
    {
        let Some(place) = self.places.pop() else {
            unreachable!()
        };
        self.spare.clear();
        pairs_behind(
            &self.automaton,
            &self.waiting[place..],
            &self.pairs,
            &mut self.ended,
            &mut self.spare,
        )?;
        swap(&mut self.pairs, &mut self.spare);
        self.waiting.truncate(place);
        self.position = Position::More;
        Ok(())
    }

    /// Takes a comma.
    pub fn take_comma(&mut self) -> Result<(), Refusal>
        requires { IsReady self.old }
        ensures ok { OnOk result (Passes self.old Comma self.new) }
        ensures err { IfErr result (Refuses self.old Comma) }
        ensures same { IsSameFor self.old self.new }
    {
        match self.position {
            Position::More => {
                self.position = Position::Item;
                self.test()
            }
            _ => Err(Refusal::Malformed),
        }
    }

    /// Takes the `(` of `()`.
    pub fn take_paren_l(&mut self) -> Result<(), Refusal>
        requires { IsReady self.old }
        ensures ok { OnOk result (Passes self.old ParenL self.new) }
        ensures closing { OnOk result (position_of self.new ≡ Position.Closing) }
        ensures err { IfErr result (Refuses self.old ParenL) }
        ensures same { IsSameFor self.old self.new }
    {
        if !self.position.takes_parens() {
            return Err(Refusal::Malformed);
        }
        self.position = Position::Closing;
        self.test()
    }

    /// Takes the `)` of `()`.
    pub fn take_paren_r(&mut self) -> Result<(), Refusal>
        requires { IsReady self.old }
        ensures ok { OnOk result (Passes self.old ParenR self.new) }
        ensures err { IfErr result (Refuses self.old ParenR) }
        ensures same { IsSameFor self.old self.new }
    {
        match self.position {
            Position::Closing => {
                self.position = Position::Closed;
                self.test()
            }
            _ => Err(Refusal::Malformed),
        }
    }

    /// Ends the document.
    pub fn end(&self) -> Result<(), Refusal>
        requires { IsReady self.now }
        ensures ok { OnOk result (Ends self.now) }
        ensures err { IfErr result (Refuses self.now End) }
    {
        if !self.position.takes_close() || !self.places.is_empty() {
            return Err(Refusal::Malformed);
        }
        if some_last(&self.automaton, &self.pairs) {
            Ok(())
        } else {
            Err(Refusal::Outside)
        }
    }
}

/// Whether the present state of some pair is marked.
fn some_marked(marks: &[bool], pairs: &[Pair]) -> bool
    requires { (k : ℕ) (d : Pair) → k < length pairs.now → state_number (slice_index_or pairs.now k d).present < length marks.now }
    ensures { result ≡ list_any (λ p. is_marked marks.now p.present) pairs.now }
{
    for pair in pairs {
        if marks[pair.present.number()] {
            return true;
        }
    }
    false
}

/// Whether the present state of some pair accepts the empty document.
fn some_last(auto: &Auto, pairs: &[Pair]) -> bool
    requires { AreStates auto.now pairs.now }
    ensures { result ≡ list_any (λ p. (moves_at auto.now p.present).last) pairs.now }
{
    for pair in pairs {
        if auto.is_last(pair.present) {
            return true;
        }
    }
    false
}
