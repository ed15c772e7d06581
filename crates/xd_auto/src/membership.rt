//! Whether a state accepts a document of a store.

ghost use Rattle.std.specs.Prelude.{◌≡◌, ℕ, ◌+◌, ◌*◌, ◌/◌, ◌<◌, ◌≤◌, ◌&&◌, [], ◌∷◌, ◌++◌, None, Some, true, false, length, take, vec_len, vec_capacity, List, IfOk, OnErr, OnOk};
ghost use Rattle.std.specs.List.{list_any};
ghost use Rattle.xd_doc.specs.Document.{Document};
ghost use Rattle.xd_doc.specs.DocumentCode.{content_of, rest_of};
ghost use Rattle.xd_doc.specs.Stored.{document_at};
ghost use Rattle.xd_doc.specs.StoredSeq.{BelongsTo};
ghost use Rattle.xd_doc.specs.StoreNodes.{node_seq, place_in_store, place_of};
ghost use Rattle.xd_auto.specs.Automaton.{Automaton, IsState, IsClosed, accepts, moves_at, state_number, takes_element, takes_word};
ghost use Rattle.xd_auto.specs.Kept.{AreRight, HasRoom, KeepsAnswers, StayRightForAutomaton, StayRightForStore, kept_at, words_of};
ghost use Rattle.xd_auto.specs.Membership.{AnswersFor, MayWait, ProgressAt, ProgressOver, FailsBefore, from_node};

use crate::auto::{Auto, LabelMove, State};
use crate::known::{KnownAnswers, words_for};
use std::alloc::Global;
use std::marker::Model;
use xd_doc::{Item, Label, NoMemory, Seq, Store, Text};

/// A pair of a node and a state that waits for older pairs, and how many moves it tried.
#[derive(Clone, Copy, Debug)]
struct Frame {
    node: usize,
    state: State,
    tried: usize,
}

/// Whether a state accepts a document, or the pair to ask first.
#[derive(Clone, Copy, Debug)]
enum Answer {
    Settled(bool),
    Unasked(usize, State),
}

/// Whether a state accepts a document, or the move and the pair that it waits for.
#[derive(Clone, Copy, Debug)]
enum Progress {
    Done(bool),
    Waits(usize, usize, State),
}

/// Whether the state accepts the document, as far as that is known.
fn ask(auto: &Auto, store: &Store, known: &KnownAnswers, seq: Seq, state: State) -> Answer
    requires state { IsState auto.now state }
    requires seq { BelongsTo store.now seq }
    requires known { AreRight auto.now store.now (words_of known.now.rows.items) }
    ensures { AnswersFor (accepts auto.now (document_at store.now seq) state)
        (λ p t. (place_in_store seq ≡ Some p) × (t ≡ state) × (kept_at (words_of known.now.rows.items) p (state_number t) ≡ None)) result }
{
    match seq.place() {
        None => Answer::Settled(auto.is_last(state)),
        Some(node) => match known.get(node, state.number()) {
            Some(answer) => Answer::Settled(answer),
            None => Answer::Unasked(node, state),
        },
    }
}

/// The same for what follows the first item.
fn ask_rest(auto: &Auto, store: &Store, known: &KnownAnswers, seq: Seq, state: State) -> Answer
    requires state { IsState auto.now state }
    requires seq { BelongsTo store.now seq }
    requires known { AreRight auto.now store.now (words_of known.now.rows.items) }
    ensures { AnswersFor (accepts auto.now (rest_of (document_at store.now seq)) state)
        (MayWait auto.now (words_of known.now.rows.items) (place_of (place_in_store seq))) result }
{
    ask(auto, store, known, store.next(seq), state)
}

/// The same for the content of the first item.
fn ask_content(auto: &Auto, store: &Store, known: &KnownAnswers, seq: Seq, state: State) -> Answer
    requires state { IsState auto.now state }
    requires seq { BelongsTo store.now seq }
    requires known { AreRight auto.now store.now (words_of known.now.rows.items) }
    ensures { AnswersFor (accepts auto.now (content_of (document_at store.now seq)) state)
        (MayWait auto.now (words_of known.now.rows.items) (place_of (place_in_store seq))) result }
{
    ask(auto, store, known, store.content(seq), state)
}

/// Whether the move leads over the first item, an element with a label of its class.
fn try_move(auto: &Auto, store: &Store, known: &KnownAnswers, seq: Seq, step: &LabelMove) -> Answer
    requires content { IsState auto.now step.now.content }
    requires rest { IsState auto.now step.now.rest }
    requires seq { BelongsTo store.now seq }
    requires known { AreRight auto.now store.now (words_of known.now.rows.items) }
    ensures { AnswersFor (accepts auto.now (content_of (document_at store.now seq)) step.now.content && accepts auto.now (rest_of (document_at store.now seq)) step.now.rest)
        (MayWait auto.now (words_of known.now.rows.items) (place_of (place_in_store seq))) result }
{
    match ask_content(auto, store, known, seq, step.content) {
        Answer::Settled(true) => ask_rest(auto, store, known, seq, step.rest),
        other => other,
    }
}

/// Goes on over the moves of a state on a text, from move `tried` on.
fn try_texts(
    auto: &Auto,
    store: &Store,
    known: &KnownAnswers,
    seq: Seq,
    text: &Text,
    state: State,
    tried: usize,
) -> Progress
    requires state { IsState auto.now state }
    requires seq { BelongsTo store.now seq }
    requires known { AreRight auto.now store.now (words_of known.now.rows.items) }
    requires tried { tried ≤ length (moves_at auto.now state).texts }
    requires fails { list_any (takes_word auto.now text.now (rest_of (document_at store.now seq))) (take tried (moves_at auto.now state).texts) ≡ false }
    ensures { ProgressOver (takes_word auto.now text.now (rest_of (document_at store.now seq))) (moves_at auto.now state).texts tried
        (MayWait auto.now (words_of known.now.rows.items) (place_of (place_in_store seq))) result }
{
    let moves = auto.text_moves(state);
    let mut from = tried;
    while let Some(number) = auto.next_text_move(state, text, from) {
        let step = &moves[number];
        match ask_rest(auto, store, known, seq, step.rest) {
            Answer::Settled(true) => return Progress::Done(true),
            Answer::Settled(false) => from = number + 1,
            Answer::Unasked(node, asked) => return Progress::Waits(number, node, asked),
        }
    }
    Progress::Done(false)
}

/// Goes on over the moves of a state on an element, from move `tried` on.
fn try_labels(
    auto: &Auto,
    store: &Store,
    known: &KnownAnswers,
    seq: Seq,
    label: &Label,
    state: State,
    tried: usize,
) -> Progress
    requires state { IsState auto.now state }
    requires seq { BelongsTo store.now seq }
    requires known { AreRight auto.now store.now (words_of known.now.rows.items) }
    requires tried { tried ≤ length (moves_at auto.now state).labels }
    requires fails { list_any (takes_element auto.now label.now (content_of (document_at store.now seq)) (rest_of (document_at store.now seq))) (take tried (moves_at auto.now state).labels) ≡ false }
    ensures { ProgressOver (takes_element auto.now label.now (content_of (document_at store.now seq)) (rest_of (document_at store.now seq))) (moves_at auto.now state).labels tried
        (MayWait auto.now (words_of known.now.rows.items) (place_of (place_in_store seq))) result }
{
    let moves = auto.label_moves(state);
    let mut from = tried;
    while let Some(number) = auto.next_label_move(state, label, from) {
        match try_move(auto, store, known, seq, &moves[number]) {
            Answer::Settled(true) => return Progress::Done(true),
            Answer::Settled(false) => from = number + 1,
            Answer::Unasked(node, asked) => return Progress::Waits(number, node, asked),
        }
    }
    Progress::Done(false)
}

/// Goes on with a pair, until it is settled or waits for another.
fn advance(auto: &Auto, store: &Store, known: &KnownAnswers, frame: Frame) -> Progress
    requires node { frame.node < length store.now }
    requires state { IsState auto.now frame.state }
    requires known { AreRight auto.now store.now (words_of known.now.rows.items) }
    requires fails { FailsBefore auto.now (from_node store.now frame.node) frame.state frame.tried }
    ensures progress { ProgressAt auto.now (from_node store.now frame.node) frame.state frame.tried
        (MayWait auto.now (words_of known.now.rows.items) frame.node) result }
    ensures belongs { BelongsTo store.now (node_seq frame.node) }
{
    let seq = store.at(frame.node);
    match store.first(seq) {
        None => Progress::Done(auto.is_last(frame.state)),
        Some(Item::Text(text)) => try_texts(
            auto,
            store,
            known,
            seq,
            text,
            frame.state,
            frame.tried,
        ),
        Some(Item::Elem(label)) => try_labels(
            auto,
            store,
            known,
            seq,
            label,
            frame.state,
            frame.tried,
        ),
    }
}

/// Settles the pair and all that it needs.
///
/// Of the pairs on the stack each waits for the one above it, whose node is older. So the stack is
/// never higher than there are nodes. After `NoMemory` all that was settled stays.
fn walk(
    auto: &Auto,
    store: &Store,
    known: &mut KnownAnswers,
    stack: &mut Vec<Frame>,
    node: usize,
    state: State,
) -> Result<bool, NoMemory>
    requires state { IsState auto.now state }
    requires node { node < length store.now }
    requires right { AreRight auto.now store.now (words_of known.old.rows.items) }
    requires unasked { kept_at (words_of known.old.rows.items) node (state_number state) ≡ None }
    requires stack { stack.old.items ≡ [] }
    ensures answer { IfOk result (λ answer. answer ≡ accepts auto.now (from_node store.now node) state) }
    ensures right { AreRight auto.now store.now (words_of known.new.rows.items) }
    ensures keeps { KeepsAnswers (words_of known.old.rows.items) (words_of known.new.rows.items) }
    ensures kept { IfOk result (λ answer. kept_at (words_of known.new.rows.items) node (state_number state) ≡ Some answer) }
    ensures stack { OnOk result (stack.new.items ≡ []) }
    ensures capacity { vec_capacity stack.old ≤ vec_capacity stack.new }
    ensures room { (states words : ℕ) → HasRoom states words known.old.rows.items → HasRoom states words known.new.rows.items }
    ensures full { OnErr result (HasRoom (length auto.now) (node / 32 + 1) known.old.rows.items → node < vec_capacity stack.old → ⊥) }
{
    stack.push(Frame {
        node,
        state,
        tried: 0,
    })?;
    while let Some(frame) = stack.pop() {
        match advance(auto, store, known, frame) {
            Progress::Done(answer) => {
                known.keep(frame.node, frame.state.number(), answer)?;
            }
            Progress::Waits(tried, older, asked) => {
                stack.push(Frame {
                    node: frame.node,
                    state: frame.state,
                    tried,
                })?;
                stack.push(Frame {
                    node: older,
                    state: asked,
                    tried: 0,
                })?;
            }
        }
    }
    match known.get(node, state.number()) {
        Some(answer) => Ok(answer),
        None => unreachable!(),
    }
}

/// Room for [`member`]: two bits for each pair of a node and a state, and a stack as high as there
/// are nodes.
#[derive(Debug, Drop)]
pub struct Scratch {
    states: usize,
    nodes: usize,
    known: KnownAnswers,
    stack: Vec<Frame>,
}

impl Model for Scratch {
    ghost use Rattle.std.specs.Prelude.{◌≡◌, ◌+◌, ◌/◌, ◌≤◌, [], vec_capacity};
    ghost use Rattle.xd_auto.specs.Kept.{HasRoom};
    ghost use Rattle.xd_auto.specs.Membership.{Room};

    ghost Value = { Room };

    ghost view = { λ s. record { states = s.states; nodes = s.nodes } };

    ghost invariant = { λ s. HasRoom s.states (s.nodes / 32 + 1) s.known.rows.items × (s.nodes ≤ vec_capacity s.stack) × (s.stack.items ≡ []) };
}

impl Scratch {
    /// A scratch with room for at least so many states and nodes.
    ///
    /// It reserves a bit more than a quarter of a byte for each pair of them, and some words a node
    /// and a state. Of that [`member`] touches the rows of the states that it asks for, as far as
    /// their nodes need. `NoMemory` where there is no room for all of it.
    pub fn reserve(alloc: Global, states: usize, nodes: usize) -> Result<Self, NoMemory>
        ensures { IfOk result (λ scratch. (states ≤ scratch.states) × (nodes ≤ scratch.nodes)) }
    {
        let known = KnownAnswers::with_room(alloc, states, nodes)?;
        let stack = Vec::with_capacity(alloc, nodes)?;
        Ok(Self {
            states,
            nodes,
            known,
            stack,
        })
    }

    /// The states and the nodes that it has room for.
    pub fn room(&self) -> (usize, usize)
        ensures { result ≡ (self.now.states, self.now.nodes) }
    {
        (self.states, self.nodes)
    }
}

/// Whether the state accepts the document. The scratch has room for the automaton's states and the
/// store's nodes.
///
/// It takes no memory beyond the scratch, which keeps its room. It does no recursion. Its work is
/// that of the pairs of a node and a state that are asked for, starting from the document and the
/// state: each is settled once, by its moves in their order, until one leads on. Before that it
/// forgets what it found out for another document.
pub fn member(auto: &Auto, state: State, store: &Store, seq: Seq, scratch: &mut Scratch) -> bool
    requires state { IsState auto.now state }
    requires seq { BelongsTo store.now seq }
    requires states { length auto.now ≤ scratch.old.states }
    requires nodes { length store.now ≤ scratch.old.nodes }
    ensures answer { result ≡ accepts auto.now (document_at store.now seq) state }
    ensures room { scratch.new ≡ scratch.old }
{
    let Some(node) = seq.place() else {
        return auto.is_last(state);
    };
    scratch.known.clear();
    let known = &mut scratch.known;
    match walk(auto, store, known, &mut scratch.stack, node, state) {
        Ok(answer) => answer,
        Err(_) => unreachable!(),
    }
}

/// Answers that are kept over many calls, while the store and the automaton grow.
///
/// They are right for good: an old node stands for its document for good, and an old state accepts
/// what it did as long as the automaton only grows: each state that is there keeps its flag and its
/// moves. A state that was never asked costs an empty vector at most; one that was asked costs two
/// bits for each node up to the newest that it was asked at.
#[derive(Debug, Drop)]
pub struct Answers {
    known: KnownAnswers,
    stack: Vec<Frame>,
}

impl Model for Answers {
    ghost use Rattle.std.specs.Prelude.{List, ℕ};
    ghost use Rattle.xd_auto.specs.Kept.{words_of};

    ghost Value = { List (List ℕ) };

    ghost view = { λ a. words_of a.known.rows.items };
}

impl Answers {
    /// No answer. It takes no memory.
    pub fn new(alloc: Global) -> Self
        ensures none { result ≡ [] }
        ensures right { (auto : Automaton) (documents : List Document) → AreRight auto documents result }
    {
        Self {
            known: KnownAnswers::new(alloc),
            stack: Vec::new(alloc),
        }
    }

    /// Answers that are right stay right while the store and the automaton grow. The call does
    /// nothing; its contract is the law.
    pub fn stay_right(&self)
        ensures store { StayRightForStore self.now }
        ensures automaton { StayRightForAutomaton self.now }
    {
        let _rows = &self.known;
    }
}

/// Whether the state accepts the document, by the answers that are kept and those that it adds.
///
/// Its work is that of the pairs of a node and a state that it needs and that aren't known yet:
/// each is settled once, by its moves in their order, until one leads on. It does no recursion.
/// After `NoMemory` the answers that it has found are kept.
pub fn accepts_kept(
    answers: &mut Answers,
    auto: &Auto,
    state: State,
    store: &Store,
    seq: Seq,
) -> Result<bool, NoMemory>
    requires state { IsState auto.now state }
    requires seq { BelongsTo store.now seq }
    requires right { AreRight auto.now store.now answers.old }
    ensures answer { IfOk result (λ answer. answer ≡ accepts auto.now (document_at store.now seq) state) }
    ensures right { AreRight auto.now store.now answers.new }
    ensures keeps { KeepsAnswers answers.old answers.new }
    ensures kept { IfOk result (λ answer. (node : ℕ) → place_in_store seq ≡ Some node → kept_at answers.new node (state_number state) ≡ Some answer) }
{
    let Some(node) = seq.place() else {
        return Ok(auto.is_last(state));
    };
    if let Some(answer) = answers.known.get(node, state.number()) {
        return Ok(answer);
    }
    answers.stack.clear();
    let known = &mut answers.known;
    walk(auto, store, known, &mut answers.stack, node, state)
}
