//! Automata: states with moves.

ghost use Rattle.std.specs.Prelude.{◌≡◌, ◌+◌, ◌<◌, ◌≤◌, ◌++◌, ◌∷◌, [], length, IfOk, OnOk, OnErr};
ghost use Rattle.std.specs.List.{All};
ghost use Rattle.std.specs.Option.{IfSome, unwrap_or};
ghost use Rattle.xd_auto.specs.Automaton.{ChangesOnly, Extends, IsClosed, IsNext, IsState, KeepsAccepting, LeadsBelow, has_label, has_text, moves_at, no_moves, state_number, with_label_move, with_last, with_moves, with_text_move};
ghost use Rattle.xd_auto.specs.Matching.{AreMatching};
ghost use Rattle.xd_auto.specs.Runs.{AcceptsByRuns, RunsAreAccepting};

mod copying;
mod index;
mod matching;
mod operations;

use index::{Index, Step};
pub use matching::Move;
use matching::matching_numbers;
pub use operations::trim;
use std::alloc::Global;
use std::marker::Model;
use xd_doc::{Class, Label, NoMemory, Text, Words};

/// A state of an [`Auto`]. States are ordered by their numbers.
#[derive(Clone, Copy, Debug, PartialEq, Eq, PartialOrd, Ord, Hash)]
pub struct State {
    number: usize,
}

/// A move on an element: its label is in the class, `content` goes on over what is in it, and
/// `rest` over what follows it.
#[derive(Debug, Drop)]
pub struct LabelMove {
    pub class: Class,
    pub content: State,
    pub rest: State,
}

/// A move on a text: the text is in the class, and `rest` goes on over what follows it.
#[derive(Debug, Drop)]
pub struct TextMove {
    pub words: Words,
    pub rest: State,
}

impl Step<Label> for LabelMove {
    ghost takes_name = { has_label };

    ghost has_others = { λ m. m.class.except };

    fn takes(&self, name: &Label) -> bool {
        self.class.has(name)
    }

    fn takes_others(&self) -> bool {
        self.class.takes_others()
    }

    fn names(&self) -> &[Label] {
        self.class.names()
    }
}

impl Step<Text> for TextMove {
    ghost takes_name = { has_text };

    ghost has_others = { λ m. m.words.except };

    fn takes(&self, name: &Text) -> bool {
        self.words.has(name)
    }

    fn takes_others(&self) -> bool {
        self.words.takes_others()
    }

    fn names(&self) -> &[Text] {
        self.words.texts()
    }
}

/// Whether a state accepts the empty document, and its moves.
#[derive(Debug, Drop)]
struct Moves {
    last: bool,
    labels: Vec<LabelMove>,
    texts: Vec<TextMove>,
    label_index: Index<Label>,
    text_index: Index<Text>,
}

impl Model for Moves {
    ghost use Rattle.std.specs.Ordering.{nat_cmp};
    ghost use Rattle.std.specs.Cmp.Lexicographic.{slice_cmp};
    ghost use Rattle.xd_auto.specs.Automaton.{StateMoves, has_label, has_text};
    ghost use Rattle.xd_auto.specs.Index.{IsIndex, numbers_at};

    ghost Value = { StateMoves };

    ghost view = { λ m. record { last = m.last; labels = m.labels.items; texts = m.texts.items } };

    ghost invariant = { λ m.
        IsIndex has_label m.labels.items m.label_index.count (numbers_at (slice_cmp nat_cmp) m.label_index.named) m.label_index.others.items
        × IsIndex has_text m.texts.items m.text_index.count (numbers_at (slice_cmp nat_cmp) m.text_index.named) m.text_index.others.items };
}

/// A tree automaton over documents.
#[derive(Debug, Drop)]
pub struct Auto {
    states: Vec<Moves>,
}

impl Model for Auto {
    ghost use Rattle.xd_auto.specs.Automaton.{Automaton, IsClosed};

    ghost Value = { Automaton };

    ghost view = { λ a. a.states.items };

    ghost invariant = { λ a. IsClosed a.states.items };
}

impl Moves {
    /// No moves.
    fn new(alloc: Global, last: bool) -> Self
        ensures { result ≡ no_moves last }
    {
        Self {
            last,
            labels: Vec::new(alloc),
            texts: Vec::new(alloc),
            label_index: Index::new(alloc),
            text_index: Index::new(alloc),
        }
    }

    /// Whether the empty document is accepted.
    fn set_last(&mut self, last: bool)
        ensures { self.new ≡ record self.old { last = last } }
    {
        self.last = last;
    }

    /// These moves in place of those that it has, in no index yet.
    fn set_moves(&mut self, labels: Vec<LabelMove>, texts: Vec<TextMove>)
        ensures { self.new ≡ record self.old { labels = labels.items; texts = texts.items } }
    {
        let alloc = *labels.allocator();
        *self = Self {
            last: self.last,
            labels,
            texts,
            label_index: Index::new(alloc),
            text_index: Index::new(alloc),
        };
    }

    /// One more move on an element.
    fn push_label(&mut self, step: LabelMove) -> Result<(), NoMemory>
        ensures ok { OnOk result (self.new ≡ record self.old { labels = self.old.labels ++ step ∷ [] }) }
        ensures err { OnErr result (self.new ≡ self.old) }
    {
        self.label_index.extend(&self.labels)?;
        self.labels.push(step)?;
        Ok(())
    }

    /// One more move on a text.
    fn push_text(&mut self, step: TextMove) -> Result<(), NoMemory>
        ensures ok { OnOk result (self.new ≡ record self.old { texts = self.old.texts ++ step ∷ [] }) }
        ensures err { OnErr result (self.new ≡ self.old) }
    {
        self.text_index.extend(&self.texts)?;
        self.texts.push(step)?;
        Ok(())
    }

    /// The first move on an element, from this number on, whose class has the label, or their
    /// number.
    fn next_label(&self, label: &Label, from: usize) -> usize
        requires { from ≤ length self.now.labels }
        ensures { IsNext has_label self.now.labels label.now from result }
    {
        self.label_index.next(&self.labels, label, from)
    }

    /// The first move on a text, from this number on, whose class has the text, or their number.
    fn next_text(&self, text: &Text, from: usize) -> usize
        requires { from ≤ length self.now.texts }
        ensures { IsNext has_text self.now.texts text.now from result }
    {
        self.text_index.next(&self.texts, text, from)
    }

    /// The numbers of the moves on an element that may share a label with this one.
    fn matching_labels(&self, alloc: Global, step: &LabelMove) -> Result<Vec<usize>, NoMemory>
        ensures { IfOk result (λ numbers. AreMatching has_label step.now self.now.labels numbers.items) }
    {
        matching_numbers(alloc, &self.label_index, &self.labels, step)
    }

    /// The numbers of the moves on a text that may share a text with this one.
    fn matching_texts(&self, alloc: Global, step: &TextMove) -> Result<Vec<usize>, NoMemory>
        ensures { IfOk result (λ numbers. AreMatching has_text step.now self.now.texts numbers.items) }
    {
        matching_numbers(alloc, &self.text_index, &self.texts, step)
    }
}

impl State {
    /// Its number in its automaton, from 0. [`Auto::state`] is the way back.
    pub fn number(self) -> usize
        ensures { result ≡ state_number self }
    {
        self.number
    }
}

impl Auto {
    /// An automaton with no state. It takes no memory.
    pub fn new(alloc: Global) -> Self
        ensures { result ≡ [] }
    {
        Self {
            states: Vec::new(alloc),
        }
    }

    /// The number of states.
    pub fn len(&self) -> usize
        ensures value { result ≡ length self.now }
        ensures closed { IsClosed self.now }
    {
        self.states.len()
    }

    /// The state of this number, from 0.
    pub fn state(&self, number: usize) -> State
        requires { number < length self.now }
        ensures number { state_number result ≡ number }
        ensures belongs { IsState self.now result }
    {
        State { number }
    }

    /// Whether the state accepts the empty document.
    pub fn is_last(&self, state: State) -> bool
        requires { IsState self.now state }
        ensures { result ≡ (moves_at self.now state).last }
    {
        let moves = &self.states[state.number];
        moves.last
    }

    /// The state's moves on an element, in the order in which they came.
    pub fn label_moves(&self, state: State) -> &[LabelMove]
        requires { IsState self.now state }
        ensures value { result.now ≡ (moves_at self.now state).labels }
        ensures closed { LeadsBelow (length self.now) (moves_at self.now state) }
    {
        let moves = &self.states[state.number];
        moves.labels.as_slice()
    }

    /// The number of the first of the state's moves on an element, from this number on, whose class
    /// has the label.
    ///
    /// Where the state has many moves it finds this in an index, by a binary search for the label
    /// and one for the number. Moves whose class has all labels but some are walked.
    pub fn next_label_move(&self, state: State, label: &Label, from: usize) -> Option<usize>
        requires state { IsState self.now state }
        requires from { from ≤ length (moves_at self.now state).labels }
        ensures next { IsNext has_label (moves_at self.now state).labels label.now from (unwrap_or result (length (moves_at self.now state).labels)) }
        ensures some { IfSome result (λ number. number < length (moves_at self.now state).labels) }
    {
        let moves = &self.states[state.number];
        let number = moves.next_label(label, from);
        if number < moves.labels.len() {
            Some(number)
        } else {
            None
        }
    }

    /// The same for the state's moves on a text.
    pub fn next_text_move(&self, state: State, text: &Text, from: usize) -> Option<usize>
        requires state { IsState self.now state }
        requires from { from ≤ length (moves_at self.now state).texts }
        ensures next { IsNext has_text (moves_at self.now state).texts text.now from (unwrap_or result (length (moves_at self.now state).texts)) }
        ensures some { IfSome result (λ number. number < length (moves_at self.now state).texts) }
    {
        let moves = &self.states[state.number];
        let number = moves.next_text(text, from);
        if number < moves.texts.len() {
            Some(number)
        } else {
            None
        }
    }

    /// The state's moves on a text, in the order in which they came.
    pub fn text_moves(&self, state: State) -> &[TextMove]
        requires { IsState self.now state }
        ensures value { result.now ≡ (moves_at self.now state).texts }
        ensures closed { LeadsBelow (length self.now) (moves_at self.now state) }
    {
        let moves = &self.states[state.number];
        moves.texts.as_slice()
    }
}

impl Auto {
    /// The laws of runs: a state accepts a document exactly where it has an accepting run over it,
    /// and the list of its runs has just these. The call does nothing; its contract is the laws.
    pub fn accepts_by_runs(&self, state: State)
        ensures accepts { AcceptsByRuns self.now state }
        ensures runs { RunsAreAccepting self.now state }
    {
        let _number = state.number();
    }
}

impl Auto {
    /// A new state with no moves, which accepts the empty document or nothing.
    /// After `NoMemory` the automaton is as it was.
    pub fn add_state(&mut self, last: bool) -> Result<State, NoMemory>
        ensures ok { IfOk result (λ state. (state_number state ≡ length self.old) × (self.new ≡ self.old ++ no_moves last ∷ [])) }
        ensures belongs { IfOk result (IsState self.new) }
        ensures err { OnErr result (self.new ≡ self.old) }
        ensures extends { Extends self.old self.new }
        ensures keeps { KeepsAccepting self.old self.new }
    {
        let number = self.states.len();
        let moves = Moves::new(*self.states.allocator(), last);
        self.states.push(moves)?;
        Ok(State { number })
    }

    /// Adds states with their moves.
    fn extend(&mut self, made: Vec<Moves>) -> Result<(), NoMemory>
        requires { All (LeadsBelow (length self.old + length made.items)) made.items }
        ensures ok { OnOk result (self.new ≡ self.old ++ made.items) }
        ensures err { OnErr result (self.new ≡ self.old) }
        ensures extends { Extends self.old self.new }
        ensures keeps { KeepsAccepting self.old self.new }
    {
        let mut made = made;
        self.states.append(&mut made)?;
        Ok(())
    }

    /// Says whether the state accepts the empty document. It takes no memory.
    pub fn set_last(&mut self, state: State, last: bool)
        requires { IsState self.old state }
        ensures value { self.new ≡ with_last self.old state last }
        ensures others { ChangesOnly state self.old self.new }
    {
        set_last(&mut self.states, state.number, last);
    }

    /// Gives the state these moves, in place of those that it has.
    ///
    /// They go into an index with the next move that is added; until then they are found by a walk.
    /// So this is for automata whose moves aren't sought by name. It takes no memory.
    pub fn set_moves(&mut self, state: State, labels: Vec<LabelMove>, texts: Vec<TextMove>)
        requires state { IsState self.old state }
        requires labels { All (λ m. (state_number m.content < length self.old) × (state_number m.rest < length self.old)) labels.items }
        requires texts { All (λ m. state_number m.rest < length self.old) texts.items }
        ensures value { self.new ≡ with_moves self.old state (record (moves_at self.old state) { labels = labels.items; texts = texts.items }) }
        ensures others { ChangesOnly state self.old self.new }
    {
        set_moves(&mut self.states, state.number, labels, texts);
    }

    /// One more move of the state on an element.
    /// After `NoMemory` the automaton is as it was.
    pub fn add_label_move(
        &mut self,
        from: State,
        class: Class,
        content: State,
        rest: State,
    ) -> Result<(), NoMemory>
        requires from { IsState self.old from }
        requires content { IsState self.old content }
        requires rest { IsState self.old rest }
        ensures ok { OnOk result (self.new ≡ with_label_move self.old from (record { class = class; content = content; rest = rest })) }
        ensures err { OnErr result (self.new ≡ self.old) }
        ensures others { ChangesOnly from self.old self.new }
    {
        let step = LabelMove {
            class,
            content,
            rest,
        };
        push_label(&mut self.states, from.number, step)?;
        Ok(())
    }

    /// One more move of the state on a text.
    /// After `NoMemory` the automaton is as it was.
    pub fn add_text_move(&mut self, from: State, words: Words, rest: State) -> Result<(), NoMemory>
        requires from { IsState self.old from }
        requires rest { IsState self.old rest }
        ensures ok { OnOk result (self.new ≡ with_text_move self.old from (record { words = words; rest = rest })) }
        ensures err { OnErr result (self.new ≡ self.old) }
        ensures others { ChangesOnly from self.old self.new }
    {
        push_text(&mut self.states, from.number, TextMove { words, rest })?;
        Ok(())
    }
}

fn set_last(states: &mut Vec<Moves>, at: usize, last: bool)
    requires { at < length states.old.items }
    ensures { states.new.items ≡ with_last states.old.items (record { number = at }) last }
{
    let moves = &mut states[at];
    moves.set_last(last);
}

fn set_moves(states: &mut Vec<Moves>, at: usize, labels: Vec<LabelMove>, texts: Vec<TextMove>)
    requires { at < length states.old.items }
    ensures { states.new.items ≡ with_moves states.old.items (record { number = at }) (record (moves_at states.old.items (record { number = at })) { labels = labels.items; texts = texts.items }) }
{
    let moves = &mut states[at];
    moves.set_moves(labels, texts);
}

fn push_label(states: &mut Vec<Moves>, at: usize, step: LabelMove) -> Result<(), NoMemory>
    requires { at < length states.old.items }
    ensures ok { OnOk result (states.new.items ≡ with_label_move states.old.items (record { number = at }) step) }
    ensures err { OnErr result (states.new.items ≡ states.old.items) }
{
    let moves = &mut states[at];
    moves.push_label(step)?;
    Ok(())
}

fn push_text(states: &mut Vec<Moves>, at: usize, step: TextMove) -> Result<(), NoMemory>
    requires { at < length states.old.items }
    ensures ok { OnOk result (states.new.items ≡ with_text_move states.old.items (record { number = at }) step) }
    ensures err { OnErr result (states.new.items ≡ states.old.items) }
{
    let moves = &mut states[at];
    moves.push_text(step)?;
    Ok(())
}
