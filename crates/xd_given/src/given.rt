//! What variables may be.

ghost use Rattle.std.specs.Prelude.{◌≡◌, ◌<◌, ℕ, false, Ok, None, IfOk, IfSome, length, map};
ghost use Rattle.std.specs.List.{All, AllByRecursion};
ghost use Rattle.xd_doc.specs.Document.{Document};
ghost use Rattle.xd_doc.specs.StoreNodes.{Keeps};
ghost use Rattle.xd_auto.specs.declared.auto.State.{State as StateView};
ghost use Rattle.xd_auto.specs.Automaton.{Extends, IsState, state_number};
ghost use Rattle.xd_auto.specs.Traces.{KeepsTogether};
ghost use Rattle.xd_least.specs.Least.{Knows};
ghost use Rattle.xd_points.specs.declared.patterns.PatternStates.{PatternStates as PatternsView};
ghost use Rattle.xd_points.specs.Meaning.{ServePoints};
ghost use Rattle.xd_points.specs.Tables.{IsTableOf, pattern_of, point_count, takes_alone};
ghost use Rattle.xd_given.specs.Blocks.{ArePlaces, there};
ghost use Rattle.xd_given.specs.Given.{AreFirstGivensAlone, AreGivensAlone, AreGivensFor, IsGivenAloneBy, IsSharedAlone};
ghost use Rattle.xd_given.specs.Known.{KnowsLefts};
ghost use Rattle.xd_given.specs.Outline.{IsDrawing};
ghost use Rattle.xd_given.specs.Owning.{LeavesOutAlike};
ghost use Rattle.xd_given.specs.Traced.{AcceptsGivenAt, AreGivensAt};

use crate::blocks::add_blocks;
use crate::outline::{draw, outline};
use crate::owner::{PatternVariables, PointOwner};
use crate::union::union_of;
use std::alloc::Global;
use xd_auto::{Auto, State};
use xd_bind::{Given, Holds};
use xd_doc::{Label, NoMemory, Store};
use xd_least::LeastInhabitants;
use xd_points::{PointParts, PointTable};

/// For each point a state that accepts exactly what the point means: its place, or a new state that
/// accepts nothing.
fn places_of(alloc: Global, auto: &mut Auto, table: &PointTable) -> Result<Vec<State>, NoMemory>
    requires { (p : PatternsView) × IsTableOf auto.old p table.now }
    ensures places { IfOk result (λ places. (p : PatternsView) → IsTableOf auto.old p table.now → ArePlaces auto.new p table.now places.items) }
    ensures extends { Extends auto.old auto.new }
{
    let _states = auto.len();
    let nothing = auto.add_state(false)?;
    let mut places = Vec::new(alloc);
    for number in 0..table.count() {
        let point = table.points().state(number);
        match table.place(point) {
            Some(place) => places.push(place)?,
            None => places.push(nothing)?,
        }
    }
    Ok(places)
}

/// The states of these points.
fn states_of(alloc: Global, points: &[State], blocks: &[State]) -> Result<Vec<State>, NoMemory>
    requires { All (λ s. state_number s < length blocks.now) points.now }
    ensures { IfOk result (λ states. states.items ≡ map (there blocks.now) points.now) }
{
    let mut states = Vec::new(alloc);
    for point in points {
        states.push(blocks[point.number()])?;
    }
    Ok(states)
}

/// A state that accepts exactly what runs from a point give the variable.
fn given_of<H: Holds>(
    alloc: Global,
    auto: &mut Auto,
    of: &PointOwner<H>,
    known: &LeastInhabitants,
    places: &[State],
    variable: usize,
    start: State,
) -> Result<State, NoMemory>
    requires table { IsTableOf auto.old of.now.patterns.now of.now.table.now }
    requires patterns { ServePoints auto.old of.now.patterns.now }
    requires drawing { IsDrawing of.now.patterns.now of.now.table.now of.now.drawing.now }
    requires known { KnowsLefts auto.old of.now.table.now known.now }
    requires places { ArePlaces auto.old of.now.patterns.now of.now.table.now places.now }
    requires start { state_number start < point_count of.now.table.now }
    requires alike { LeavesOutAlike of.now.patterns.now (H.owned of.now.owner.now variable) }
    requires together { KeepsTogether of.now.patterns.now.auto (H.owned of.now.owner.now variable) (pattern_of of.now.table.now start) }
    ensures given { IfOk result (AcceptsGivenAt auto.old of.now.patterns.now of.now.table.now (H.owned of.now.owner.now variable) start auto.new) }
    ensures belongs { IfOk result (IsState auto.new) }
    ensures extends { Extends auto.old auto.new }
{
    let _states = auto.len();
    let _points = of.drawing.len();
    let outline = outline(alloc, auto, of, known, variable, start)?;
    let blocks = add_blocks(alloc, auto, of, variable, &outline.free, places)?;
    let _length = auto.len();
    let states = states_of(alloc, &outline.ahead, &blocks)?;
    let first = union_of(auto, &states)?;
    Ok(first)
}

/// For each variable, in their order, such a state.
fn add_givens<H: Holds>(
    alloc: Global,
    auto: &mut Auto,
    of: &PointOwner<H>,
    known: &LeastInhabitants,
    places: &[State],
    variables: &[Label],
    start: State,
) -> Result<Vec<Given>, NoMemory>
    requires table { IsTableOf auto.old of.now.patterns.now of.now.table.now }
    requires patterns { ServePoints auto.old of.now.patterns.now }
    requires drawing { IsDrawing of.now.patterns.now of.now.table.now of.now.drawing.now }
    requires known { KnowsLefts auto.old of.now.table.now known.now }
    requires places { ArePlaces auto.old of.now.patterns.now of.now.table.now places.now }
    requires start { state_number start < point_count of.now.table.now }
    requires alike { (x : ℕ) → x < length variables.now → LeavesOutAlike of.now.patterns.now (H.owned of.now.owner.now x) }
    requires together { (x : ℕ) → x < length variables.now → KeepsTogether of.now.patterns.now.auto (H.owned of.now.owner.now x) (pattern_of of.now.table.now start) }
    ensures givens { IfOk result (λ givens. AreGivensAt auto.old of.now.patterns.now of.now.table.now (H.owned of.now.owner.now) start variables.now auto.new givens.items) }
    ensures extends { Extends auto.old auto.new }
{
    let _states = auto.len();
    let mut givens = Vec::new(alloc);
    for number in 0..variables.len() {
        let _length = auto.len();
        let state = given_of(alloc, auto, of, known, places, number, start)?;
        let variable = variables[number].share()?;
        givens.push(Given { variable, state })?;
    }
    Ok(givens)
}

/// For each variable of a pattern, in their order, a state that accepts exactly the documents that
/// runs of the pattern's state give it, all of them or first runs alone, on documents that the left
/// accepts and none of the rights does.
fn given_alone<H: Holds>(
    alloc: Global,
    auto: &mut Auto,
    first: bool,
    of: &PatternVariables<H>,
    asked: PointParts<'_>,
    known: &mut LeastInhabitants,
    store: &mut Store,
) -> Result<Option<Vec<Given>>, NoMemory>
    requires patterns { ServePoints auto.old of.now.patterns.now }
    requires left { IsState auto.old asked.left }
    requires pattern { IsState of.now.patterns.now.auto asked.pattern }
    requires rights { AllByRecursion (IsState of.now.patterns.now.auto) asked.rights.now }
    requires alike { (x : ℕ) → x < length of.now.variables.now → LeavesOutAlike of.now.patterns.now (H.owned of.now.owner.now x) }
    requires together { (x : ℕ) → x < length of.now.variables.now → KeepsTogether of.now.patterns.now.auto (H.owned of.now.owner.now x) asked.pattern }
    requires known { Knows auto.old store.old known.old }
    ensures none { result ≡ Ok None → (d : Document) → takes_alone auto.old of.now.patterns.now asked.entry.left asked.entry.pattern asked.entry.rights.now d ≡ false }
    ensures shared { IfOk result (λ found. IfSome found (λ givens. IsSharedAlone auto.old of.now.patterns.now asked.entry.left asked.entry.pattern asked.entry.rights.now)) }
    ensures givens { IfOk result (λ found. IfSome found (λ givens. AreGivensFor (IsGivenAloneBy first auto.old of.now.patterns.now asked.entry.left asked.entry.pattern asked.entry.rights.now) (H.owned of.now.owner.now) of.now.variables.now auto.new givens.items)) }
    ensures extends { Extends auto.old auto.new }
    ensures keeps { Keeps store.old store.new }
    ensures known { Knows auto.new store.new known.new }
{
    let _states = auto.len();
    known.stays_known();
    let mut table = PointTable::of_runs(alloc, first);
    let start = table.find(alloc, auto, of.patterns, asked)?;
    let _length = auto.len();
    known.learn(alloc, auto, store)?;
    let Some(place) = table.place(start) else {
        return Ok(None);
    };
    let Some(_document) = known.document(place) else {
        return Ok(None);
    };
    if of.variables.is_empty() {
        return Ok(Some(Vec::new(alloc)));
    }
    known.stays_known();
    let drawing = draw(alloc, &table, of.patterns)?;
    let places = places_of(alloc, auto, &table)?;
    let _more = auto.len();
    let points = PointOwner {
        table: &table,
        patterns: of.patterns,
        drawing: &drawing,
        owner: of.owner,
    };
    let givens = add_givens(alloc, auto, &points, known, &places, of.variables, start)?;
    Ok(Some(givens))
}

/// For each variable of a pattern, in their order, a state that accepts exactly the documents that
/// an accepting run of the pattern's state gives it, on some document that the left accepts and
/// none of the rights does; `None` exactly where no such document is accepted by the pattern's
/// state.
///
/// The points of the three are looked at, and what they mean gets states. A variable gets states
/// for its own items alone. Where it takes all that is left, and nothing must refuse, it is the
/// left that was there. The patterns are asked with states left out only that give each variable
/// nothing, or all that they take.
///
/// Fails only where memory is refused. The automaton and the store keep what they have, and may
/// have more.
pub fn bindings<H: Holds>(
    alloc: Global,
    auto: &mut Auto,
    of: &PatternVariables<H>,
    asked: PointParts<'_>,
    known: &mut LeastInhabitants,
    store: &mut Store,
) -> Result<Option<Vec<Given>>, NoMemory>
    requires patterns { ServePoints auto.old of.now.patterns.now }
    requires left { IsState auto.old asked.left }
    requires pattern { IsState of.now.patterns.now.auto asked.pattern }
    requires rights { AllByRecursion (IsState of.now.patterns.now.auto) asked.rights.now }
    requires alike { (x : ℕ) → x < length of.now.variables.now → LeavesOutAlike of.now.patterns.now (H.owned of.now.owner.now x) }
    requires together { (x : ℕ) → x < length of.now.variables.now → KeepsTogether of.now.patterns.now.auto (H.owned of.now.owner.now x) asked.pattern }
    requires known { Knows auto.old store.old known.old }
    ensures none { result ≡ Ok None → (d : Document) → takes_alone auto.old of.now.patterns.now asked.entry.left asked.entry.pattern asked.entry.rights.now d ≡ false }
    ensures shared { IfOk result (λ found. IfSome found (λ givens. IsSharedAlone auto.old of.now.patterns.now asked.entry.left asked.entry.pattern asked.entry.rights.now)) }
    ensures givens { IfOk result (λ found. IfSome found (λ givens. AreGivensAlone auto.old of.now.patterns.now (H.owned of.now.owner.now) asked.entry.left asked.entry.pattern asked.entry.rights.now of.now.variables.now auto.new givens.items)) }
    ensures extends { Extends auto.old auto.new }
    ensures keeps { Keeps store.old store.new }
    ensures known { Knows auto.new store.new known.new }
{
    given_alone(alloc, auto, false, of, asked, known, store)
}

/// The same of first runs: for each variable a state that accepts exactly the documents that the
/// first run of the pattern's state gives it, on some document that the left accepts and none of the
/// rights does; `None` exactly where [`bindings`] answers none.
///
/// A run is the first if at each item, at every depth, no move that is more preferred leads over the
/// document too. These moves are looked at beside the rights, so there are more points than for all
/// runs.
///
/// Fails only where memory is refused. The automaton and the store keep what they have, and may
/// have more.
pub fn first_bindings<H: Holds>(
    alloc: Global,
    auto: &mut Auto,
    of: &PatternVariables<H>,
    asked: PointParts<'_>,
    known: &mut LeastInhabitants,
    store: &mut Store,
) -> Result<Option<Vec<Given>>, NoMemory>
    requires patterns { ServePoints auto.old of.now.patterns.now }
    requires left { IsState auto.old asked.left }
    requires pattern { IsState of.now.patterns.now.auto asked.pattern }
    requires rights { AllByRecursion (IsState of.now.patterns.now.auto) asked.rights.now }
    requires alike { (x : ℕ) → x < length of.now.variables.now → LeavesOutAlike of.now.patterns.now (H.owned of.now.owner.now x) }
    requires together { (x : ℕ) → x < length of.now.variables.now → KeepsTogether of.now.patterns.now.auto (H.owned of.now.owner.now x) asked.pattern }
    requires known { Knows auto.old store.old known.old }
    ensures none { result ≡ Ok None → (d : Document) → takes_alone auto.old of.now.patterns.now asked.entry.left asked.entry.pattern asked.entry.rights.now d ≡ false }
    ensures shared { IfOk result (λ found. IfSome found (λ givens. IsSharedAlone auto.old of.now.patterns.now asked.entry.left asked.entry.pattern asked.entry.rights.now)) }
    ensures givens { IfOk result (λ found. IfSome found (λ givens. AreFirstGivensAlone auto.old of.now.patterns.now (H.owned of.now.owner.now) asked.entry.left asked.entry.pattern asked.entry.rights.now of.now.variables.now auto.new givens.items)) }
    ensures extends { Extends auto.old auto.new }
    ensures keeps { Keeps store.old store.new }
    ensures known { Knows auto.new store.new known.new }
{
    given_alone(alloc, auto, true, of, asked, known, store)
}
