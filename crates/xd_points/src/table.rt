//! Points that are kept from call to call, and states that accept what they mean.

ghost use Rattle.std.specs.Prelude.{◌≡◌, ◌<◌, false, length, slice_get, IfOk, IfSome, OnOk};
ghost use Rattle.std.specs.List.{AllByRecursion};
ghost use Rattle.xd_doc.specs.Document.{Document};
ghost use Rattle.xd_auto.specs.Automaton.{Automaton, Extends, IsState, state_number};
ghost use Rattle.xd_points.specs.Meaning.{ServePoints};
ghost use Rattle.xd_points.specs.Points.{AreExpanded, KeepMoves, KeepsPoints};
ghost use Rattle.xd_points.specs.Tables.{number_or};

use crate::automata::Automata;
use crate::patterns::PatternStates;
use crate::placing::{Place, place_points};
use crate::points::{PointParts, Points, is_old, stand_for};
use crate::steps::{Row, expand};
use std::alloc::Global;
use xd_auto::{Auto, State};
use xd_doc::{NoMemory, Store};
use xd_empty::Inhabitants;

/// Points, their moves, and where they stand in the automaton that has their lefts.
///
/// It serves one automaton that only grows, and the same patterns at each call: a point that was
/// met before is not made again.
#[derive(Drop)]
pub struct PointTable {
    /// Whether runs through the points are first runs of the pattern alone.
    first: bool,
    points: Points,
    rows: Vec<Row>,
    places: Vec<Place>,
    /// Of each point a document that its state accepts, where there is one.
    known: Inhabitants,
    store: Store,
}

/// Gives the states of points that have none yet their moves. New points that are met on the way
/// wait in the order of their numbers.
fn expand_all(
    alloc: Global,
    automata: Automata<'_>,
    points: &mut Points,
    rows: &mut Vec<Row>,
    first: bool,
) -> Result<(), NoMemory>
    requires expanded { AreExpanded first automata.lefts.now automata.patterns.now points.old rows.old.items }
    ensures expanded { OnOk result (AreExpanded first automata.entry.lefts.now automata.entry.patterns.now points.new rows.new.items) }
    ensures every { OnOk result (length rows.new.items ≡ length points.new.points.items) }
    ensures keeps { OnOk result (KeepsPoints points.old points.new) }
    ensures moves { OnOk result (KeepMoves (length rows.old.items) points.old points.new) }
{
    let mut number = rows.len();
    while number < points.points.len() {
        expand(alloc, automata, points, rows, first)?;
        number += 1;
    }
    Ok(())
}

/// The number at a place of a list; 0 past its end.
fn number_at(numbers: &[usize], place: usize) -> usize
    ensures { result ≡ number_or (slice_get numbers.now place) }
{
    match numbers.get(place) {
        Some(number) => *number,
        None => 0,
    }
}

impl PointTable {
    ghost use Rattle.xd_points.specs.declared.patterns.PatternStates.{PatternStates as PatternsView};
    ghost use Rattle.xd_points.specs.Placing.{accepts_at};
    ghost use Rattle.xd_points.specs.Tables.{IsTableOf, is_left, label_origin, left_of, of_first_runs, pattern_of, point_count, place_of, point_means, points_of, takes_alone, text_origin};

    /// No points. Runs through those that come will be all runs of the pattern on what they mean.
    pub fn new(alloc: Global) -> Self
        ensures table { (a : Automaton) (b : PatternsView) → IsTableOf a b result }
        ensures runs { of_first_runs result ≡ false }
    {
        Self::of_runs(alloc, false)
    }

    /// No points. Runs through those that come will be the pattern's runs on what they mean: with
    /// `first`, the first run of each document alone, and else all.
    ///
    /// What a point means doesn't depend on it, so [`accept`](Self::accept) doesn't either. First
    /// runs take more points, since at an item each move must fail that is more preferred.
    pub fn of_runs(alloc: Global, first: bool) -> Self
        ensures table { (a : Automaton) (b : PatternsView) → IsTableOf a b result }
        ensures runs { of_first_runs result ≡ first }
    {
        let points = Points::new(alloc);
        let rows = Vec::new(alloc);
        let places = Vec::new(alloc);
        let known = Inhabitants::new(alloc);
        let store = Store::new(alloc);
        Self {
            first,
            points,
            rows,
            places,
            known,
            store,
        }
    }

    /// A state that accepts what a state of the automaton and a state of the patterns accept, and
    /// no one of some further states of the patterns does. `None` only where that is nothing; a
    /// state that is answered may accept nothing, too, where the automaton had states that do.
    ///
    /// States are added for points that were not met before, and mean something; none where the
    /// point means what an old state accepts: the left, where the pattern's state takes everything
    /// and nothing must refuse, or the pattern's state, where the left does. After `NoMemory` the
    /// table serves no further calls; the automaton keeps its states, and may have more.
    pub fn accept(
        &mut self,
        alloc: Global,
        auto: &mut Auto,
        patterns: &PatternStates,
        asked: PointParts<'_>,
    ) -> Result<Option<State>, NoMemory>
        requires patterns { ServePoints auto.old patterns.now }
        requires table { IsTableOf auto.old patterns.now self.old }
        requires left { IsState auto.old asked.left }
        requires pattern { IsState patterns.now.auto asked.pattern }
        requires rights { AllByRecursion (IsState patterns.now.auto) asked.rights.now }
        ensures table { OnOk result (IsTableOf auto.new patterns.now self.new) }
        ensures belongs { IfOk result (λ found. IfSome found (IsState auto.new)) }
        ensures exact { IfOk result (λ found. (d : Document) → accepts_at auto.new d found ≡ takes_alone auto.old patterns.now asked.entry.left asked.entry.pattern asked.entry.rights.now d) }
        ensures runs { of_first_runs self.new ≡ of_first_runs self.old }
        ensures extends { Extends auto.old auto.new }
    {
        let point = self.find(alloc, auto, patterns, asked)?;
        Ok(self.place(point))
    }

    /// The point of a state of the automaton, a state of the patterns and further ones, with all
    /// that it leads to: a state of [`points`](Self::points). States are added to the automaton
    /// where [`accept`](Self::accept) says.
    pub fn find(
        &mut self,
        alloc: Global,
        auto: &mut Auto,
        patterns: &PatternStates,
        asked: PointParts<'_>,
    ) -> Result<State, NoMemory>
        requires patterns { ServePoints auto.old patterns.now }
        requires table { IsTableOf auto.old patterns.now self.old }
        requires left { IsState auto.old asked.left }
        requires pattern { IsState patterns.now.auto asked.pattern }
        requires rights { AllByRecursion (IsState patterns.now.auto) asked.rights.now }
        ensures table { OnOk result (IsTableOf auto.new patterns.now self.new) }
        ensures belongs { IfOk result (IsState (points_of self.new)) }
        ensures pattern { IfOk result (λ point. pattern_of self.new point ≡ asked.entry.pattern) }
        ensures means { IfOk result (λ point. (d : Document) → point_means auto.new patterns.now self.new point d ≡ takes_alone auto.old patterns.now asked.entry.left asked.entry.pattern asked.entry.rights.now d) }
        ensures runs { of_first_runs self.new ≡ of_first_runs self.old }
        ensures extends { Extends auto.old auto.new }
    {
        let _states = auto.len();
        self.known.stays_known();
        let automata = Automata {
            lefts: auto,
            patterns,
        };
        let PointParts {
            left,
            pattern,
            rights,
        } = asked;
        let start = stand_for(alloc, automata, &mut self.points, left, pattern, rights)?;
        expand_all(
            alloc,
            automata,
            &mut self.points,
            &mut self.rows,
            self.first,
        )?;
        self.known.learn(alloc, &self.points.made, &mut self.store)?;
        place_points(auto, patterns, &self.points, &self.known, &mut self.places)?;
        Ok(start)
    }

    /// The automaton of the points. Where [`is_left`](Self::is_left) says so, a state's moves there
    /// mean nothing.
    pub fn points(&self) -> &Auto
        ensures { result.now ≡ points_of self.now }
    {
        &self.points.made
    }

    /// How many points there are.
    pub fn count(&self) -> usize
        ensures { result ≡ point_count self.now }
    {
        self.points.points.len()
    }

    /// The left of a point.
    pub fn left(&self, point: State) -> State
        requires { state_number point < point_count self.now }
        ensures { result ≡ left_of self.now point }
    {
        self.points.points[point.number()].left
    }

    /// The pattern's state of a point.
    pub fn pattern(&self, point: State) -> State
        requires { state_number point < point_count self.now }
        ensures { result ≡ pattern_of self.now point }
    {
        self.points.points[point.number()].pattern
    }

    /// Whether a point means what its left accepts, and has no moves of its own.
    pub fn is_left(&self, patterns: &PatternStates, point: State) -> bool
        requires { state_number point < point_count self.now }
        ensures { result ≡ is_left patterns.now self.now point }
    {
        let of = &self.points.points[point.number()];
        is_old(patterns, of.left, of.pattern, &of.rights)
    }

    /// The number of the pattern's move that a point's move on an element stands for.
    pub fn label_origin(&self, point: State, number: usize) -> usize
        ensures { result ≡ label_origin self.now point number }
    {
        match self.rows.get(point.number()) {
            Some(row) => number_at(&row.labels, number),
            None => 0,
        }
    }

    /// The same of a move on a text.
    pub fn text_origin(&self, point: State, number: usize) -> usize
        ensures { result ≡ text_origin self.now point number }
    {
        match self.rows.get(point.number()) {
            Some(row) => number_at(&row.texts, number),
            None => 0,
        }
    }

    /// The state that accepts what a point means; none where that is nothing.
    pub fn place(&self, point: State) -> Option<State>
        ensures { result ≡ place_of self.now point }
    {
        match self.places.get(point.number()) {
            Some(place) => place.state(),
            None => None,
        }
    }
}
