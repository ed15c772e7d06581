//! What a state accepts as definitions of types.

ghost use Rattle.std.specs.Prelude.{◌≡◌, true, IfOk};
ghost use Rattle.xd_auto.specs.Automaton.{IsState, accepts};
ghost use Rattle.xd_boole.specs.Universal.{MarkUniversal};
ghost use Rattle.xd_doc.specs.Document.{Document};
ghost use Rattle.xd_empty.specs.Parts.{HasDocument};
ghost use Rattle.xd_syntax.specs.Kept.{program_tree};
ghost use Rattle.xd_shown.specs.Shown.{IsShown};
ghost use Rattle.xd_show.specs.Contents.{AreAllWritten};
ghost use Rattle.xd_show.specs.Plans.{AllAreNamed, IsPlan};
ghost use Rattle.xd_show.specs.Settled.{IsSettled};

use crate::bodies::bodies_by;
use crate::contents::{are_all_written, contents_by};
use crate::plan::{Plan, plain_plan, plan_of};
use std::alloc::Global;
use xd_auto::{Auto, State, trim};
use xd_boole::{merged_at, universal_states};
use xd_doc::{Label, NoMemory};
use xd_empty::{inhabited, inhabited_part};
use xd_named_parts::{Definitions, shown};
use xd_same_types::Pool;
use xd_shown::{Shown, free_names};
use xd_syntax::TypeId;

/// States with names, and what is written for contents.
#[derive(Drop)]
pub(crate) struct Settled {
    pub(crate) pool: Pool,
    pub(crate) named: Vec<State>,
    pub(crate) names: Vec<Label>,
    pub(crate) written: Vec<Option<TypeId>>,
}

/// What is written for contents by a plan.
fn settle_by(
    alloc: Global,
    auto: &Auto,
    universal: &[bool],
    start: State,
    plan: Plan,
    taken: &[Label],
) -> Result<Settled, NoMemory>
    requires plan { IsPlan auto.now start plan }
    requires universal { MarkUniversal auto.now universal.now }
    ensures settled { IfOk result (IsSettled auto.now start taken.now) }
    ensures plain { IfOk result (λ made. AllAreNamed auto.now plan.named.items → AreAllWritten auto.now made.written.items) }
{
    let _count = auto.len();
    let names = free_names(alloc, taken, plan.named.len())?;
    let mut pool = Pool::new(alloc);
    let written = contents_by(alloc, &mut pool, auto, universal, &plan, &names)?;
    let Plan { named, .. } = plan;
    Ok(Settled {
        pool,
        named,
        names,
        written,
    })
}

/// What is written for all contents: by the plan that reads well, or else by one in which each
/// state has a name.
fn settle(
    alloc: Global,
    auto: &Auto,
    universal: &[bool],
    start: State,
    taken: &[Label],
) -> Result<Settled, NoMemory>
    requires start { IsState auto.now start }
    requires universal { MarkUniversal auto.now universal.now }
    ensures settled { IfOk result (IsSettled auto.now start taken.now) }
    ensures all { IfOk result (λ made. AreAllWritten auto.now made.written.items) }
{
    let plan = plan_of(alloc, auto, universal, start)?;
    let made = settle_by(alloc, auto, universal, start, plan, taken)?;
    if are_all_written(auto, &made.written) {
        return Ok(made);
    }
    let plain = plain_plan(alloc, auto, start)?;
    settle_by(alloc, auto, universal, start, plain, taken)
}

/// What a state accepts, some document at least, as definitions of types.
fn show_some(alloc: Global, auto: &Auto, start: State, taken: &[Label]) -> Result<Shown, NoMemory>
    requires start { IsState auto.now start }
    requires some { HasDocument auto.now start }
    ensures { IfOk result (λ shown. IsShown (λ d. accepts auto.now d start ≡ true) taken.now (program_tree shown.sound) shown.start) }
{
    let universal = universal_states(alloc, auto)?;
    let Settled {
        mut pool,
        named,
        names,
        written,
    } = settle(alloc, auto, &universal, start, taken)?;
    let bodies = bodies_by(alloc, &mut pool, auto, &universal, &written, &named, &names)?;
    let definitions = Definitions {
        pool,
        names,
        bodies,
    };
    shown(alloc, definitions, taken)
}

/// The state in an automaton in which like states are one, and all are reached from it.
///
/// Some states plainly accept every document only after others have been made one, so it is done
/// twice.
fn like_as_one(alloc: Global, auto: &Auto, state: State) -> Result<(Auto, State), NoMemory>
    requires { IsState auto.now state }
    ensures same { IfOk result (λ made. (d : Document) → accepts made.0 d made.1 ≡ accepts auto.now d state) }
    ensures belongs { IfOk result (λ made. IsState made.0 made.1) }
{
    let (once, start) = merged_at(alloc, auto, state)?;
    let (like, start) = merged_at(alloc, &once, start)?;
    let (part, start) = trim(alloc, &like, start)?;
    Ok((part, start))
}

/// What a state accepts as definitions of types: a sound program of definitions `S1`, `S2` and so
/// on, without names that are taken, whose first is fitted by exactly the documents that the state
/// accepts.
///
/// States that accept nothing are left out, and like ones made one. A content has a name where it
/// stands within itself, or where it is neither short nor stands in one place; other contents are
/// written in place under their label. If long choices come again and again, they have names in the
/// place of some contents. Names come in the order in which a reader meets them. Where the state
/// accepts nothing, the one definition is `type S1 = none[S1]`.
///
/// The types may be exponentially long in the states, as regular expressions for automata may be.
/// `NoMemory` where there is no room for them.
pub fn show(alloc: Global, auto: &Auto, state: State, taken: &[Label]) -> Result<Shown, NoMemory>
    requires { IsState auto.now state }
    ensures { IfOk result (λ shown. IsShown (λ d. accepts auto.now d state ≡ true) taken.now (program_tree shown.sound) shown.start) }
{
    let (part, start) = inhabited_part(alloc, auto, state)?;
    let marks = inhabited(alloc, &part)?;
    if !marks[start.number()] {
        return Shown::nothing(alloc, taken);
    }
    let (part, start) = like_as_one(alloc, &part, start)?;
    show_some(alloc, &part, start, taken)
}
