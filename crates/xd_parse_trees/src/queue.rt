//! Queues of parts.

ghost use Rattle.std.specs.Prelude.{◌≡◌, ◌∷◌, [], ◌++◌, IfOk};

use std::alloc::Global;
use std::collections::VecDeque;
use xd_doc::NoMemory;

/// A queue of one item. Fails only where memory is refused.
pub fn queue_of<T: Copy>(alloc: Global, item: T) -> Result<VecDeque<T>, NoMemory>
    ensures { IfOk result (λ queue. queue.items ≡ item ∷ []) }
{
    let mut queue = VecDeque::new(alloc);
    queue.push_back(item)?;
    Ok(queue)
}

/// One queue after the other. Takes as many steps as the shorter one has items. Fails only where
/// memory is refused.
pub fn join<T: Copy>(mut front: VecDeque<T>, mut back: VecDeque<T>) -> Result<VecDeque<T>, NoMemory>
    ensures { IfOk result (λ all. all.items ≡ front.items ++ back.items) }
{
    if back.len() <= front.len() {
        front.append(&mut back)?;
        return Ok(front);
    }
    'fewer: while let Some(item) = front.pop_back() {
        back.push_front(item)?;
    }
    Ok(back)
}
