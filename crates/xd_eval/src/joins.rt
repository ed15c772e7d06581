//! Values, and those that are joined only when they are read.

ghost use Rattle.std.specs.Prelude.{◌≡◌, ◌<◌, [], length, map, slice_index_or, IfOk, OnOk};
ghost use Rattle.std.specs.List.{AllByRecursion};
ghost use Rattle.xd_doc.specs.Document.{join};
ghost use Rattle.xd_doc.specs.Stored.{document_at};
ghost use Rattle.xd_doc.specs.StoredSeq.{BelongsTo};
ghost use Rattle.xd_doc.specs.StoreNodes.{Keeps};
ghost use Rattle.xd_eval.specs.Values.{AreMet, JoinsStand, KeepsValues, Stands, fronts_then, value_at, value_of, world};
ghost use Rattle.xd_eval.specs.Waiting.{joined_all};

use std::alloc::Global;
use xd_doc::{NoMemory, Seq, Store};

/// A document: the empty one, the one that begins at the store's node of this number, or the one
/// that the join of this number stands for. It is as small as a [`Seq`], since millions of them
/// may wait.
#[derive(Clone, Copy)]
pub(crate) enum Value {
    Empty,
    Stored(usize),
    Joined(usize),
}

/// One value after another. Joining them takes no time until the document is read. It is then kept
/// as `back`, after nothing.
#[derive(Clone, Copy)]
pub(crate) struct Join {
    pub front: Value,
    pub back: Value,
}

/// A join on the way to a document's end, and the front that it had when it was met.
#[derive(Clone, Copy)]
struct Met {
    number: usize,
    front: Value,
}

impl Value {
    /// The value of a document that is in the store.
    pub(crate) fn of(seq: Seq) -> Self
        ensures { result ≡ value_of seq }
    {
        match seq.place() {
            None => Self::Empty,
            Some(node) => Self::Stored(node),
        }
    }
}

/// One value after the other. A front of one item is put before a document of the store at once.
pub(crate) fn joined(
    joins: &mut Vec<Join>,
    store: &mut Store,
    front: Value,
    back: Value,
) -> Result<Value, NoMemory>
    requires joins { JoinsStand store.old joins.old.items }
    requires front { Stands (world store.old joins.old.items) front }
    requires back { Stands (world store.old joins.old.items) back }
    ensures value { IfOk result (λ value. value_at (world store.new joins.new.items) value ≡ join (value_at (world store.old joins.old.items) front) (value_at (world store.old joins.old.items) back)) }
    ensures stands { IfOk result (Stands (world store.new joins.new.items)) }
    ensures joins { OnOk result (JoinsStand store.new joins.new.items) }
    ensures same { OnOk result (KeepsValues (world store.old joins.old.items) (world store.new joins.new.items)) }
    ensures keeps { Keeps store.old store.new }
{
    match (front, back) {
        (Value::Empty, _) => return Ok(back),
        (_, Value::Empty) => return Ok(front),
        (Value::Stored(item), Value::Stored(rest)) => {
            let item = store.at(item);
            if store.next(item).is_empty() {
                let made = store.first_before(item, store.at(rest))?;
                return Ok(Value::of(made));
            }
        }
        _ => {}
    }
    let number = joins.len();
    joins.push(Join { front, back })?;
    Ok(Value::Joined(number))
}

/// These values, one after the other.
pub(crate) fn all_joined(
    joins: &mut Vec<Join>,
    store: &mut Store,
    values: &[Value],
) -> Result<Value, NoMemory>
    requires joins { JoinsStand store.old joins.old.items }
    requires values { AllByRecursion (Stands (world store.old joins.old.items)) values.now }
    ensures value { IfOk result (λ value. value_at (world store.new joins.new.items) value ≡ joined_all (map (value_at (world store.old joins.old.items)) values.now)) }
    ensures stands { IfOk result (Stands (world store.new joins.new.items)) }
    ensures joins { OnOk result (JoinsStand store.new joins.new.items) }
    ensures same { OnOk result (KeepsValues (world store.old joins.old.items) (world store.new joins.new.items)) }
    ensures keeps { Keeps store.old store.new }
{
    let mut left = values.len();
    let mut made = Value::Empty;
    while left > 0 {
        left -= 1;
        made = joined(joins, store, values[left], made)?;
    }
    Ok(made)
}

/// The document of a value. A join that is read, and those that it ends with, are joined no second
/// time. Nothing is joined that joining at once had not joined, so this makes no more nodes.
pub(crate) fn read(
    alloc: Global,
    joins: &mut Vec<Join>,
    store: &mut Store,
    value: Value,
) -> Result<Seq, NoMemory>
    requires joins { JoinsStand store.old joins.old.items }
    requires value { Stands (world store.old joins.old.items) value }
    ensures document { IfOk result (λ seq. document_at store.new seq ≡ value_at (world store.old joins.old.items) value) }
    ensures belongs { IfOk result (BelongsTo store.new) }
    ensures joins { OnOk result (JoinsStand store.new joins.new.items) }
    ensures same { OnOk result (KeepsValues (world store.old joins.old.items) (world store.new joins.new.items)) }
    ensures keeps { Keeps store.old store.new }
{
    let mut met = Vec::new(alloc);
    let mut made = last_of(joins, store, value, &mut met)?;
    while let Some(join) = met.pop() {
        made = put_before(alloc, joins, store, join.front, made)?;
        joins[join.number] = Join {
            front: Value::Empty,
            back: Value::of(made),
        };
    }
    Ok(made)
}

/// The document at the end of a value, after adding the joins on the way to it.
fn last_of(joins: &[Join], store: &Store, value: Value, met: &mut Vec<Met>) -> Result<Seq, NoMemory>
    requires joins { JoinsStand store.now joins.now }
    requires value { Stands (world store.now joins.now) value }
    requires met { met.old.items ≡ [] }
    ensures document { IfOk result (λ seq. fronts_then (world store.now joins.now) met.new.items (document_at store.now seq) ≡ value_at (world store.now joins.now) value) }
    ensures met { IfOk result (λ seq. AreMet (world store.now joins.now) met.new.items (document_at store.now seq)) }
    ensures belongs { IfOk result (BelongsTo store.now) }
{
    let mut last = value;
    loop {
        match last {
            Value::Empty => return Ok(Seq::empty()),
            Value::Stored(node) => return Ok(store.at(node)),
            Value::Joined(number) => {
                let join = join_at(joins, number);
                met.push(Met {
                    number,
                    front: join.front,
                })?;
                last = join.back;
            }
        }
    }
}

/// The document of a value, and after it this one.
fn put_before(
    alloc: Global,
    joins: &[Join],
    store: &mut Store,
    front: Value,
    back: Seq,
) -> Result<Seq, NoMemory>
    requires joins { JoinsStand store.old joins.now }
    requires front { Stands (world store.old joins.now) front }
    requires back { BelongsTo store.old back }
    ensures document { IfOk result (λ seq. document_at store.new seq ≡ join (value_at (world store.old joins.now) front) (document_at store.old back)) }
    ensures belongs { IfOk result (BelongsTo store.new) }
    ensures keeps { Keeps store.old store.new }
{
    let mut waiting = Vec::new(alloc);
    waiting.push(front)?;
    let mut made = back;
    while let Some(value) = waiting.pop() {
        match value {
            Value::Empty => {}
            Value::Stored(node) => made = store.append(store.at(node), made)?,
            Value::Joined(number) => {
                let join = join_at(joins, number);
                waiting.push(join.front)?;
                waiting.push(join.back)?;
            }
        }
    }
    Ok(made)
}

/// The join of this number.
fn join_at(joins: &[Join], number: usize) -> Join
    requires { number < length joins.now }
    ensures { result ≡ slice_index_or joins.now number result }
{
    joins[number]
}
