//! The labels of a class in groups, with the choices by which what they stand before is refused.

ghost use Rattle.std.specs.Prelude.{◌<◌, length, OnOk, IfOk};
ghost use Rattle.xd_boole.specs.Choices.{AllChoices};
ghost use Rattle.xd_boole.specs.Refusals.{AddsRefusals, AreLabelRefusals, LeadInside, Narrows, NarrowsMore, Parts};
ghost use Rattle.xd_boole.specs.Universal.{MarkUniversal};

use crate::choices::{SideChoice, copy_choices, extend_all, no_choice};
use crate::classes::{are_apart, has_all_of};
use crate::groups::side_of;
use crate::step::Step;
use crate::taken::Taken;
use std::alloc::Global;
use xd_auto::LabelMove;
use xd_doc::{Class, NoMemory};

/// How often a class is divided in halves at most, before it is divided by one move after the
/// other. The halves have half of the names, so this is never needed.
const MOST_HALVES: usize = 64;

/// Labels that the same moves match, and the choices by which what they stand before is refused.
#[derive(Drop)]
pub struct LabelRefusal {
    pub class: Class,
    pub choices: Vec<SideChoice>,
}

/// Choices, and moves that are to be refused beside, which match a part of a class.
#[derive(Drop)]
struct Narrowed {
    choices: Vec<SideChoice>,
    moves: Vec<LabelMove>,
}

/// A part of a class, the choices in it, and the moves that are to be refused in it and outside of
/// it.
#[derive(Drop)]
struct Parted {
    part: Class,
    choices: Vec<SideChoice>,
    moves: Vec<LabelMove>,
    depth: usize,
}

/// One move more is to be refused: where it matches the whole class the choices are extended by it,
/// and where it matches none of it nothing is to be done.
fn narrow_more(
    alloc: Global,
    narrowed: Narrowed,
    class: &Class,
    step: &LabelMove,
    universal: &[bool],
) -> Result<Narrowed, NoMemory>
    ensures { IfOk result (NarrowsMore universal.now class.now step.now narrowed) }
{
    if are_apart(class, &step.class) {
        return Ok(narrowed);
    }
    let Narrowed { choices, moves } = narrowed;
    if has_all_of(&step.class, class) {
        let choices = extend_all(alloc, choices, side_of(step), universal)?;
        return Ok(Narrowed { choices, moves });
    }
    let mut moves = moves;
    moves.push(step.share()?)?;
    Ok(Narrowed { choices, moves })
}

/// What is to be refused on the labels of a class: the choices extended by the moves that match the
/// whole class, and those that match a part of it.
fn narrow(
    alloc: Global,
    class: &Class,
    choices: Vec<SideChoice>,
    moves: &[LabelMove],
    universal: &[bool],
) -> Result<Narrowed, NoMemory>
    ensures { IfOk result (Narrows universal.now class.now choices.items moves.now) }
{
    let mut narrowed = Narrowed {
        choices,
        moves: Vec::new(alloc),
    };
    for step in moves {
        narrowed = narrow_more(alloc, narrowed, class, step, universal)?;
    }
    Ok(narrowed)
}

/// Half of the labels that the moves name and that are in the class, where there are any.
fn half_of(alloc: Global, class: &Class, moves: &[LabelMove]) -> Result<Option<Class>, NoMemory> {
    let mut names = Vec::new(alloc);
    for step in moves {
        for name in step.class.names() {
            if class.has(name) {
                names.push(name.share()?)?;
            }
        }
    }
    names.sort()?;
    names.dedup();
    names.truncate((names.len() / 2).max(1));
    if names.is_empty() {
        return Ok(None);
    }
    let half = Class::new(alloc, names, false)?;
    Ok(Some(half))
}

/// A part of a class by which it is divided: half of what the moves name, or what the last of them
/// matches.
fn part_of(
    alloc: Global,
    class: &Class,
    choices: &[SideChoice],
    moves: Vec<LabelMove>,
    depth: usize,
    universal: &[bool],
) -> Result<Parted, NoMemory>
    requires { 0 < length moves.items }
    ensures { IfOk result (Parts universal.now choices.now moves.items depth) }
{
    let copies = copy_choices(alloc, choices)?;
    if depth > 0 && moves.len() > 1 {
        if let Some(part) = half_of(alloc, class, &moves)? {
            return Ok(Parted {
                part,
                choices: copies,
                moves,
                depth: depth - 1,
            });
        }
    }
    let mut moves = moves;
    let Some(step) = moves.pop() else {
        unreachable!();
    };
    let choices = extend_all(alloc, copies, side_of(&step), universal)?;
    Ok(Parted {
        part: step.class,
        choices,
        moves,
        depth,
    })
}

/// Puts the labels of a class after the groups, with the choices by which an element is refused
/// that some choices are for and some moves.
fn refuse(
    alloc: Global,
    taken: &Taken,
    class: Class,
    choices: Vec<SideChoice>,
    moves: &[LabelMove],
    depth: usize,
    groups: &mut Vec<LabelRefusal>,
) -> Result<(), NoMemory>
    requires universal { MarkUniversal taken.now.auto taken.now.universal.items }
    requires choices { AllChoices taken.now.auto choices.items }
    requires moves { LeadInside taken.now.auto moves.now }
    ensures { OnOk result (AddsRefusals taken.now.auto class choices.items moves.now groups.old.items groups.new.items) }
{
    let Narrowed { choices, moves } = narrow(alloc, &class, choices, moves, &taken.universal)?;
    if choices.is_empty() {
        return Ok(());
    }
    if moves.is_empty() {
        groups.push(LabelRefusal { class, choices })?;
        return Ok(());
    }
    let parted = part_of(alloc, &class, &choices, moves, depth, &taken.universal)?;
    let depth = parted.depth;
    let Some(inside) = class.meet(&parted.part)? else {
        return refuse(alloc, taken, class, choices, &parted.moves, depth, groups);
    };
    let Some(outside) = class.without(&parted.part)? else {
        return refuse(
            alloc,
            taken,
            class,
            parted.choices,
            &parted.moves,
            depth,
            groups,
        );
    };
    refuse(
        alloc,
        taken,
        inside,
        parted.choices,
        &parted.moves,
        depth,
        groups,
    )?;
    refuse(alloc, taken, outside, choices, &parted.moves, depth, groups)
}

/// The labels of a class in groups, with the choices by which an element is refused by all of these
/// moves.
///
/// What moves say that match a whole class is the same in all groups of it, so the choices for it
/// are made once. Labels that no move tells apart stay in one group. Fails only where memory is
/// refused.
pub fn label_refusals(
    alloc: Global,
    taken: &Taken,
    class: &Class,
    moves: &[LabelMove],
) -> Result<Vec<LabelRefusal>, NoMemory>
    requires moves { LeadInside taken.now.auto moves.now }
    requires universal { MarkUniversal taken.now.auto taken.now.universal.items }
    ensures { IfOk result (λ made. AreLabelRefusals taken.now.auto class.now moves.now made.items) }
{
    let choices = no_choice(alloc)?;
    let class = class.share()?;
    let mut groups = Vec::new(alloc);
    refuse(
        alloc,
        taken,
        class,
        choices,
        moves,
        MOST_HALVES,
        &mut groups,
    )?;
    Ok(groups)
}
