//! States of a variable's blocks.

ghost use Rattle.std.specs.Prelude.{◌≡◌, ◌<◌, ◌≤◌, ◌+◌, true, IfOk, OnOk, length};
ghost use Rattle.std.specs.List.{All};
ghost use Rattle.xd_auto.specs.declared.auto.State.{State as StateView};
ghost use Rattle.xd_auto.specs.Automaton.{Extends, IsState, LeadsBelow, moves_at, state_number};
ghost use Rattle.xd_empty.specs.Parts.{is_marked};
ghost use Rattle.xd_points.specs.Tables.{left_of, point_count};
ghost use Rattle.xd_given.specs.Blocks.{AreBlocks, AreFilled, IsFilledTo, there};
ghost use Rattle.xd_given.specs.Owning.{point_moves};
ghost use Rattle.xd_given.specs.Chosen.{StaysBelow, owned_labels, owned_texts};

use crate::owner::{PointOwner, is_tail};
use std::alloc::Global;
use xd_auto::{Auto, LabelMove, State, TextMove};
use xd_bind::{Holds, MoveKind, add_states, put_labels, put_texts};
use xd_doc::NoMemory;

/// The variable's moves of a state on an element, to the contents' places and the blocks' states.
fn block_labels<H: Holds>(
    alloc: Global,
    drawing: &Auto,
    owner: &H,
    variable: usize,
    state: State,
    places: &[State],
    blocks: &[State],
) -> Result<Vec<LabelMove>, NoMemory>
    requires state { IsState drawing.now state }
    requires places { LeadsBelow (length places.now) (moves_at drawing.now state) }
    requires blocks { LeadsBelow (length blocks.now) (moves_at drawing.now state) }
    ensures { IfOk result (λ labels. labels.items ≡ owned_labels (H.owned owner.now variable) (there places.now) (there blocks.now) state (moves_at drawing.now state)) }
{
    let moves = drawing.label_moves(state);
    let mut labels = Vec::new(alloc);
    for number in 0..moves.len() {
        if owner.holds(state, MoveKind::Label, number, variable) {
            let step = &moves[number];
            let class = step.class.share()?;
            let content = places[step.content.number()];
            let rest = blocks[step.rest.number()];
            labels.push(LabelMove {
                class,
                content,
                rest,
            })?;
        }
    }
    Ok(labels)
}

/// The same on a text.
fn block_texts<H: Holds>(
    alloc: Global,
    drawing: &Auto,
    owner: &H,
    variable: usize,
    state: State,
    blocks: &[State],
) -> Result<Vec<TextMove>, NoMemory>
    requires state { IsState drawing.now state }
    requires blocks { LeadsBelow (length blocks.now) (moves_at drawing.now state) }
    ensures { IfOk result (λ texts. texts.items ≡ owned_texts (H.owned owner.now variable) (there blocks.now) state (moves_at drawing.now state)) }
{
    let moves = drawing.text_moves(state);
    let mut texts = Vec::new(alloc);
    for number in 0..moves.len() {
        if owner.holds(state, MoveKind::Text, number, variable) {
            let step = &moves[number];
            let words = step.words.share()?;
            let rest = blocks[step.rest.number()];
            texts.push(TextMove { words, rest })?;
        }
    }
    Ok(texts)
}

/// For each point the state of its block: the left, where the variable is given all that comes; and
/// else one from the base on.
fn blocks_of<H: Holds>(
    alloc: Global,
    auto: &Auto,
    of: &PointOwner<H>,
    variable: usize,
    base: usize,
) -> Result<Vec<State>, NoMemory>
    requires { base + point_count of.now.table.now ≤ length auto.now }
    ensures { IfOk result (λ blocks. AreBlocks of.now.patterns.now of.now.table.now (H.owned of.now.owner.now variable) base blocks.items) }
{
    let _length = auto.len();
    let mut blocks = Vec::new(alloc);
    for number in 0..of.table.count() {
        let point = auto.state(number);
        if is_tail(of, variable, point) {
            blocks.push(of.table.left(point))?;
        } else {
            blocks.push(auto.state(base + number))?;
        }
    }
    Ok(blocks)
}

/// Gives states from the base on the variable's moves of the points, to the contents' places and
/// the blocks' states.
fn fill_blocks<H: Holds>(
    alloc: Global,
    auto: &mut Auto,
    of: &PointOwner<H>,
    variable: usize,
    places: &[State],
    blocks: &[State],
    base: usize,
) -> Result<(), NoMemory>
    requires room { length auto.old ≡ base + length blocks.now }
    requires drawing { length blocks.now ≤ length of.now.drawing.now }
    requires count { length places.now ≡ length blocks.now }
    requires places { All (IsState auto.old) places.now }
    requires blocks { All (IsState auto.old) blocks.now }
    requires leads { (s : StateView) → state_number s < length blocks.now → LeadsBelow (length blocks.now) (moves_at of.now.drawing.now s) }
    ensures filled { OnOk result (IsFilledTo (point_moves of.now.table.now (H.owned of.now.owner.now variable)) of.now.drawing.now places.now blocks.now base (length blocks.now) auto.old auto.new) }
    ensures stays { StaysBelow base auto.old auto.new }
{
    let _length = auto.len();
    for number in 0..blocks.len() {
        let at = auto.state(base + number);
        let point = of.drawing.state(number);
        let labels = block_labels(alloc, of.drawing, of, variable, point, places, blocks)?;
        let texts = block_texts(alloc, of.drawing, of, variable, point, blocks)?;
        put_labels(auto, at, labels)?;
        put_texts(auto, at, texts)?;
    }
    Ok(())
}

/// Adds the states of a variable's blocks, and says for each point which it is.
pub(crate) fn add_blocks<H: Holds>(
    alloc: Global,
    auto: &mut Auto,
    of: &PointOwner<H>,
    variable: usize,
    free: &[bool],
    places: &[State],
) -> Result<Vec<State>, NoMemory>
    requires count { length free.now ≡ point_count of.now.table.now }
    requires drawing { point_count of.now.table.now ≤ length of.now.drawing.now }
    requires room { length places.now ≡ point_count of.now.table.now }
    requires places { All (IsState auto.old) places.now }
    requires lefts { (s : StateView) → state_number s < point_count of.now.table.now → IsState auto.old (left_of of.now.table.now s) }
    requires leads { (s : StateView) → state_number s < point_count of.now.table.now → LeadsBelow (point_count of.now.table.now) (moves_at of.now.drawing.now s) }
    ensures blocks { IfOk result (λ blocks. AreBlocks of.now.patterns.now of.now.table.now (H.owned of.now.owner.now variable) (length auto.old) blocks.items) }
    ensures belong { IfOk result (λ blocks. All (IsState auto.new) blocks.items) }
    ensures filled { IfOk result (λ blocks. AreFilled (point_moves of.now.table.now (H.owned of.now.owner.now variable)) of.now.drawing.now places.now blocks.items (is_marked free.now) (length auto.old) (point_count of.now.table.now) auto.new) }
    ensures extends { Extends auto.old auto.new }
{
    let base = auto.len();
    add_states(auto, free)?;
    let blocks = blocks_of(alloc, auto, of, variable, base)?;
    fill_blocks(alloc, auto, of, variable, places, &blocks, base)?;
    Ok(blocks)
}
