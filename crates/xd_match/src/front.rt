//! The first run of a compiled pattern, item by item.

ghost use Rattle.std.specs.Prelude.{◌≡◌, ◌&&◌, ℕ, ◌+◌, ◌<◌, ◌≤◌, ◌++◌, ◌∷◌, [], true, length, slice_index_or, List, Some, IfOk, OnOk, MatchOption, None, Vec};
ghost use Rattle.std.specs.List.{list_any};
ghost use Rattle.xd_doc.specs.DocumentCode.{content_of, rest_of};
ghost use Rattle.xd_doc.specs.Stored.{document_at};
ghost use Rattle.xd_doc.specs.StoredSeq.{BelongsTo};
ghost use Rattle.xd_doc.specs.StoreNodes.{Keeps, first_of_document};
ghost use Rattle.xd_auto.specs.Automaton.{IsState, accepts, moves_at, takes_element, takes_word};
ghost use Rattle.xd_auto.specs.Kept.{AreRight};
ghost use Rattle.xd_patterns.specs.Held.{marking_of, variables_in};
ghost use Rattle.xd_match.specs.Compiled.{PatternStands};
ghost use Rattle.xd_match.specs.First.{AreHeld, first_run};
ghost use Rattle.xd_match.specs.Taking.{AddsPiece, AreTaken, IsFirst, IsReady, TakesItem, TakesTask, work};

use crate::binding::{Piece, bind_each};
use crate::compiled::CompiledPattern;
use crate::tails::tail_of;
use std::alloc::Global;
use xd_auto::{Answers, Auto, LabelMove, MoveKind, State, accepts_kept};
use xd_doc::{Item, Label, NoMemory, Seq, Store, Text};

/// A document that a state accepts, over which its first run is still to be followed.
#[derive(Clone, Copy)]
pub(crate) struct Task {
    pub state: State,
    pub seq: Seq,
}

/// The number of the first move on the text after which the rest is accepted.
fn first_text(
    answers: &mut Answers,
    auto: &Auto,
    store: &Store,
    text: &Text,
    state: State,
    rest: Seq,
) -> Result<usize, NoMemory>
    requires state { IsState auto.now state }
    requires rest { BelongsTo store.now rest }
    requires right { AreRight auto.now store.now answers.old }
    requires accepted { list_any (takes_word auto.now text.now (document_at store.now rest)) (moves_at auto.now state).texts ≡ true }
    ensures first { IfOk result (IsFirst (takes_word auto.now text.now (document_at store.now rest)) (moves_at auto.now state).texts) }
    ensures right { AreRight auto.now store.now answers.new }
{
    let moves = auto.text_moves(state);
    let mut from = 0;
    while let Some(number) = auto.next_text_move(state, text, from) {
        if accepts_kept(answers, auto, moves[number].rest, store, rest)? {
            return Ok(number);
        }
        from = number + 1;
    }
    unreachable!()
}

/// Whether the move's states accept the content and the rest.
fn leads_on(
    answers: &mut Answers,
    auto: &Auto,
    store: &Store,
    step: &LabelMove,
    content: Seq,
    rest: Seq,
) -> Result<bool, NoMemory>
    requires content_state { IsState auto.now step.now.content }
    requires rest_state { IsState auto.now step.now.rest }
    requires content { BelongsTo store.now content }
    requires rest { BelongsTo store.now rest }
    requires right { AreRight auto.now store.now answers.old }
    ensures answer { IfOk result (λ answer. answer ≡ (accepts auto.now (document_at store.now content) step.now.content && accepts auto.now (document_at store.now rest) step.now.rest)) }
    ensures right { AreRight auto.now store.now answers.new }
{
    if accepts_kept(answers, auto, step.content, store, content)? {
        accepts_kept(answers, auto, step.rest, store, rest)
    } else {
        Ok(false)
    }
}

/// The number of the first move on an element of the label by which the content and the rest are
/// accepted.
fn first_label(
    answers: &mut Answers,
    auto: &Auto,
    store: &Store,
    label: &Label,
    state: State,
    content: Seq,
    rest: Seq,
) -> Result<usize, NoMemory>
    requires state { IsState auto.now state }
    requires content { BelongsTo store.now content }
    requires rest { BelongsTo store.now rest }
    requires right { AreRight auto.now store.now answers.old }
    requires accepted { list_any (takes_element auto.now label.now (document_at store.now content) (document_at store.now rest)) (moves_at auto.now state).labels ≡ true }
    ensures first { IfOk result (IsFirst (takes_element auto.now label.now (document_at store.now content) (document_at store.now rest)) (moves_at auto.now state).labels) }
    ensures right { AreRight auto.now store.now answers.new }
{
    let moves = auto.label_moves(state);
    let mut from = 0;
    while let Some(number) = auto.next_label_move(state, label, from) {
        if leads_on(answers, auto, store, &moves[number], content, rest)? {
            return Ok(number);
        }
        from = number + 1;
    }
    unreachable!()
}

/// Adds the piece to those of each variable that is marked, once.
fn note(items: &mut Vec<Vec<Piece>>, marks: &[usize], piece: Piece) -> Result<(), NoMemory>
    ensures len { length items.new.items ≡ length items.old.items }
    ensures ok { OnOk result (AddsPiece items.old.items items.new.items marks.now piece) }
{
    for i in 0..marks.len() {
        let variable = marks[i];
        let is_noted = marks[..i].contains(&variable);
        if variable < items.len() && !is_noted {
            items[variable].push(piece)?;
        }
    }
    Ok(())
}

/// Takes the first item, a text, and gives what waits after it.
fn take_text(
    answers: &mut Answers,
    compiled: &CompiledPattern,
    store: &Store,
    task: Task,
    text: &Text,
    items: &mut Vec<Vec<Piece>>,
) -> Result<Task, NoMemory>
    requires ready { IsReady compiled.now.auto store.now task }
    requires compiled { PatternStands compiled.now }
    requires text { first_of_document (document_at store.now task.seq) ≡ Some (Item.Text text.now) }
    requires right { AreRight compiled.now.auto store.now answers.old }
    ensures taken { IfOk result (λ next. TakesItem compiled.now.auto (marking_of compiled.now.marked) (variables_in compiled.now.marked) store.now task items.old.items items.new.items (next ∷ [])) }
    ensures right { AreRight compiled.now.auto store.now answers.new }
{
    let rest = store.next(task.seq);
    let number = first_text(answers, &compiled.auto, store, text, task.state, rest)?;
    let marks = compiled.marked.marks(task.state, MoveKind::Text, number);
    note(items, marks, Piece::First(task.seq))?;
    let moves = compiled.auto.text_moves(task.state);
    let step = &moves[number];
    Ok(Task {
        state: step.rest,
        seq: rest,
    })
}

/// Takes the first item, an element, and gives what waits after it and in it.
fn take_element(
    answers: &mut Answers,
    compiled: &CompiledPattern,
    store: &Store,
    task: Task,
    label: &Label,
    items: &mut Vec<Vec<Piece>>,
) -> Result<(Task, Task), NoMemory>
    requires ready { IsReady compiled.now.auto store.now task }
    requires compiled { PatternStands compiled.now }
    requires element { first_of_document (document_at store.now task.seq) ≡ Some (Item.Elem label.now) }
    requires right { AreRight compiled.now.auto store.now answers.old }
    ensures taken { IfOk result (λ next. TakesItem compiled.now.auto (marking_of compiled.now.marked) (variables_in compiled.now.marked) store.now task items.old.items items.new.items (next.0 ∷ (next.1 ∷ []))) }
    ensures right { AreRight compiled.now.auto store.now answers.new }
{
    let rest = store.next(task.seq);
    let content = store.content(task.seq);
    let number = first_label(
        answers,
        &compiled.auto,
        store,
        label,
        task.state,
        content,
        rest,
    )?;
    let marks = compiled.marked.marks(task.state, MoveKind::Label, number);
    note(items, marks, Piece::First(task.seq))?;
    let moves = compiled.auto.label_moves(task.state);
    let step = &moves[number];
    let behind = Task {
        state: step.rest,
        seq: rest,
    };
    let inside = Task {
        state: step.content,
        seq: content,
    };
    Ok((behind, inside))
}

/// Takes the first item of a document that was the last to wait, or all of its own where they
/// belong to the same variables, and adds what waits after it and in it.
fn take_task(
    answers: &mut Answers,
    compiled: &CompiledPattern,
    task: Task,
    store: &Store,
    tasks: &mut Vec<Task>,
    items: &mut Vec<Vec<Piece>>,
) -> Result<(), NoMemory>
    requires ready { IsReady compiled.now.auto store.now task }
    requires compiled { PatternStands compiled.now }
    requires right { AreRight compiled.now.auto store.now answers.old }
    ensures taken { OnOk result (TakesTask compiled.now.auto (marking_of compiled.now.marked) (variables_in compiled.now.marked) store.now items.old.items items.new.items (tasks.old.items ++ task ∷ []) tasks.new.items) }
    ensures less { OnOk result (work store.now tasks.new.items < work store.now (tasks.old.items ++ task ∷ [])) }
    ensures right { AreRight compiled.now.auto store.now answers.new }
{
    if !compiled.is_mixed(task.state) {
        let marks = tail_of(&compiled.auto, &compiled.marked, task.state);
        note(items, marks, Piece::Whole(task.seq))?;
        return Ok(());
    }
    match store.first(task.seq) {
        None => Ok(()),
        Some(Item::Text(text)) => {
            let next = take_text(answers, compiled, store, task, text, items)?;
            tasks.push(next)?;
            Ok(())
        }
        Some(Item::Elem(label)) => {
            let next = take_element(answers, compiled, store, task, label, items)?;
            tasks.push(next.0)?;
            tasks.push(next.1)?;
            Ok(())
        }
    }
}

/// The items of each variable in the first run, in order.
fn take_items(
    alloc: Global,
    answers: &mut Answers,
    compiled: &CompiledPattern,
    start: Task,
    store: &Store,
) -> Result<Vec<Vec<Piece>>, NoMemory>
    requires start { IsReady compiled.now.auto store.now start }
    requires compiled { PatternStands compiled.now }
    requires right { AreRight compiled.now.auto store.now answers.old }
    ensures taken { IfOk result (λ items. AreTaken compiled.now.auto (marking_of compiled.now.marked) (variables_in compiled.now.marked) store.now start items.items []) }
    ensures right { AreRight compiled.now.auto store.now answers.new }
{
    let mut items = empty_rows(alloc, compiled.marked.variables().len())?;
    let mut tasks = Vec::new(alloc);
    tasks.push(start)?;
    while let Some(task) = tasks.pop() {
        take_task(answers, compiled, task, store, &mut tasks, &mut items)?;
    }
    Ok(items)
}

/// Empty rows, so many.
fn empty_rows(alloc: Global, count: usize) -> Result<Vec<Vec<Piece>>, NoMemory>
    ensures count { IfOk result (λ rows. length rows.items ≡ count) }
    ensures bare { IfOk result (λ rows. (x : ℕ) (e : Vec Piece Global) → x < count → (slice_index_or rows.items x e).items ≡ []) }
{
    let mut rows = Vec::new(alloc);
    for _ in 0..count {
        rows.push(Vec::new(alloc))?;
    }
    Ok(rows)
}

/// What the first run over the document gives each variable, in order. `None`, where there is no
/// run.
///
/// It takes at each item the first move that can succeed, by the answers that are kept, and adds
/// those that it needs. It stops where all that is left of a level belongs to the same variables.
/// Items at the end of a binding that stand so in the store already are shared.
pub(crate) fn first_items(
    alloc: Global,
    answers: &mut Answers,
    compiled: &CompiledPattern,
    store: &mut Store,
    seq: Seq,
) -> Result<Option<Vec<Seq>>, NoMemory>
    requires compiled { PatternStands compiled.now }
    requires seq { BelongsTo store.old seq }
    requires right { AreRight compiled.now.auto store.old answers.old }
    ensures found { IfOk result (λ found. MatchOption found (first_run compiled.now.auto (marking_of compiled.now.marked) (document_at store.old seq) compiled.now.marked.start ≡ None)
        (λ bound. AreHeld compiled.now.auto (marking_of compiled.now.marked) (document_at store.old seq) compiled.now.marked.start (variables_in compiled.now.marked) store.new bound.items)) }
    ensures right { AreRight compiled.now.auto store.new answers.new }
    ensures keeps { Keeps store.old store.new }
{
    let start = compiled.marked.start();
    if !accepts_kept(answers, &compiled.auto, start, store, seq)? {
        return Ok(None);
    }
    let first = Task { state: start, seq };
    let items = take_items(alloc, answers, compiled, first, store)?;
    answers.stay_right();
    let bound = bind_each(alloc, store, &items)?;
    Ok(Some(bound))
}
