//! What the variables of an automaton whose moves are marked may be.

ghost use Rattle.std.specs.Prelude.{◌≡◌, ℕ, false, IfOk};
ghost use Rattle.xd_doc.specs.Document.{Document};
ghost use Rattle.xd_auto.specs.declared.auto.State.{State};
ghost use Rattle.xd_auto.specs.Automaton.{Automaton, accepts};
ghost use Rattle.xd_auto.specs.declared.kind.MoveKind.{MoveKind};
ghost use Rattle.xd_bind.specs.Projection.{AreBindings, AreGivens, CanProject, has_track, owned_by};
ghost use Rattle.xd_points.specs.Meaning.{ServePoints, may_leave_out};
ghost use Rattle.xd_given.specs.Buckets.{bucket_at};

use crate::given::bindings;
use crate::marks::Marks;
use crate::owner::PatternVariables;
use std::alloc::Global;
use xd_auto::{Auto, add_universal};
use xd_bind::{Binding, Given, Tracks, copied};
use xd_doc::{NoMemory, Store};
use xd_empty::inhabited_part;
use xd_least::LeastInhabitants;
use xd_points::{PatternStates, PointParts};

/// For each of these states of an automaton, in their order, its part that accepts what the state
/// does.
fn bindings_of(
    alloc: Global,
    tracks: &Tracks,
    made: &Auto,
    givens: &[Given],
) -> Result<Vec<Binding>, NoMemory>
    requires { AreGivens tracks.now.auto (owned_by tracks.now.marks.items) tracks.now.start tracks.now.variables.items made.now givens.now }
    ensures { IfOk result (λ bindings. AreBindings tracks.now bindings.items) }
{
    let mut bindings = Vec::new(alloc);
    for number in 0..givens.len() {
        let given = &givens[number];
        let (auto, state) = inhabited_part(alloc, made, given.state)?;
        let variable = given.variable.share()?;
        bindings.push(Binding {
            variable,
            auto,
            state,
        })?;
    }
    Ok(bindings)
}

/// For each variable a state that accepts nothing, as no run gives it anything.
fn nothing_bound(alloc: Global, tracks: &Tracks) -> Result<Vec<Binding>, NoMemory>
    requires { (d : Document) → accepts tracks.now.auto d tracks.now.start ≡ false }
    ensures { IfOk result (λ bindings. AreBindings tracks.now bindings.items) }
{
    let mut bindings = Vec::new(alloc);
    for number in 0..tracks.variables.len() {
        let mut auto = Auto::new(alloc);
        let state = auto.add_state(false)?;
        let variable = tracks.variables[number].share()?;
        bindings.push(Binding {
            variable,
            auto,
            state,
        })?;
    }
    Ok(bindings)
}

/// The states of an automaton as those of a pattern. None may be left out: by the moves of each it
/// is told what belongs to variables.
fn pattern_of(alloc: Global, auto: &Auto) -> Result<PatternStates, NoMemory>
    ensures auto { IfOk result (λ pattern. pattern.auto ≡ auto.now) }
    ensures serve { IfOk result (λ pattern. (a : Automaton) → ServePoints a pattern) }
    ensures left_out { IfOk result (λ pattern. (s : State) → may_leave_out pattern s ≡ false) }
{
    let own = copied(alloc, auto)?;
    let pattern = PatternStates::new(alloc, own)?;
    Ok(pattern.leaving_out(Vec::new(alloc)))
}

/// What [`project`] gives, where `marks` has the marks of the tracks, and `pattern` the states of
/// their automaton.
fn project_marked(
    alloc: Global,
    tracks: &Tracks,
    marks: &Marks,
    pattern: &PatternStates,
) -> Result<Vec<Binding>, NoMemory>
    requires tracks { CanProject tracks.now }
    requires marks { (x : ℕ) (kind : MoveKind) (s : State) (n : ℕ) → has_track (bucket_at marks.now.rows.items s n) x kind s n ≡ has_track tracks.now.marks.items x kind s n }
    requires auto { pattern.now.auto ≡ tracks.now.auto }
    requires serve { (a : Automaton) → ServePoints a pattern.now }
    requires left_out { (s : State) → may_leave_out pattern.now s ≡ false }
    ensures { IfOk result (λ bindings. AreBindings tracks.now bindings.items) }
{
    let mut made = Auto::new(alloc);
    let everything = add_universal(alloc, &mut made)?;
    let mut known = LeastInhabitants::new(alloc);
    let mut store = Store::new(alloc);
    let of = PatternVariables {
        patterns: pattern,
        owner: marks,
        variables: &tracks.variables,
    };
    let asked = PointParts {
        left: everything,
        pattern: tracks.start,
        rights: &[],
    };
    let found = bindings(alloc, &mut made, &of, asked, &mut known, &mut store)?;
    match found {
        Some(givens) => bindings_of(alloc, tracks, &made, &givens),
        None => nothing_bound(alloc, tracks),
    }
}

/// For each variable, in their order, an automaton and a state that accepts exactly the documents
/// that an accepting run gives it: the items that its moves take, in order and with their contents.
///
/// In no accepting run do items of a variable stand apart: each variable's items are one block of
/// one level (`CanProject`), as linear patterns have them. `NoMemory` where there is no room for
/// the automata; the one that is given stays as it is.
///
/// (What a variable may be is found as by Hosoya and Pierce, JFP 2003; this project's own is that
/// items belong to moves.)
pub fn project(alloc: Global, tracks: &Tracks) -> Result<Vec<Binding>, NoMemory>
    requires { CanProject tracks.now }
    ensures { IfOk result (λ bindings. AreBindings tracks.now bindings.items) }
{
    let marks = Marks::new(alloc, &tracks.auto, &tracks.marks)?;
    let pattern = pattern_of(alloc, &tracks.auto)?;
    project_marked(alloc, tracks, &marks, &pattern)
}
