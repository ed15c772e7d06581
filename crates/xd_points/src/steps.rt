//! The moves of the states of points.

ghost use Rattle.std.specs.Prelude.{◌≡◌, ◌<◌, ◌+◌, ◌++◌, ◌∷◌, [], length, map, IfOk, OnOk};
ghost use Rattle.xd_auto.specs.Automaton.{moves_at};
ghost use Rattle.xd_points.specs.Meaning.{IsPointOf};
ghost use Rattle.xd_points.specs.FirstRuns.{place_before};
ghost use Rattle.xd_points.specs.Points.{AreExpanded, ArePoints, Grows, KeepMoves, KeepsPoints, RowView, StandForMoves, no_row, takes_for};

use crate::automata::Automata;
use crate::moves::{PatternMove, steps};
use crate::points::{Point, Points, copy_point, is_old};
use std::alloc::Global;
use std::marker::Model;
use xd_doc::NoMemory;

/// For each move of a state, by its kind and number, the number of the pattern's move that it
/// stands for.
#[derive(Drop)]
pub(crate) struct Row {
    pub(crate) labels: Vec<usize>,
    pub(crate) texts: Vec<usize>,
}

impl Model for Row {
    ghost use Rattle.xd_points.specs.Points.{RowView};

    ghost Value = { RowView };

    ghost view = { λ r. record { labels = r.labels.items; texts = r.texts.items } };
}

/// Puts moves after others, and for each the number of the move that it stands for.
fn append<M: Drop>(
    moves: &mut Vec<M>,
    numbers: &mut Vec<usize>,
    steps: Vec<M>,
    number: usize,
) -> Result<(), NoMemory>
    ensures moves { OnOk result (moves.new.items ≡ moves.old.items ++ steps.items) }
    ensures numbers { OnOk result (numbers.new.items ≡ numbers.old.items ++ map (λ (m : M). number) steps.items) }
{
    for step in steps {
        moves.push(step)?;
        numbers.push(number)?;
    }
    Ok(())
}

/// Before which number the pattern's moves must fail.
fn place_of(first: bool, number: usize) -> usize
    ensures { result ≡ place_before first number }
{
    if first { number } else { 0 }
}

/// The moves of a point's state, of one kind, with the numbers of the pattern's moves that they
/// stand for. With `first`, where the pattern's state goes by a move each more preferred one must
/// fail.
fn moves_of<M: PatternMove>(
    alloc: Global,
    automata: Automata<'_>,
    points: &mut Points,
    of: &Point,
    first: bool,
) -> Result<(Vec<M>, Vec<usize>), NoMemory>
    requires whole { ArePoints automata.lefts.now automata.patterns.now points.old }
    requires of { IsPointOf automata.lefts.now automata.patterns.now of.now }
    ensures whole { OnOk result (ArePoints automata.entry.lefts.now automata.entry.patterns.now points.new) }
    ensures grows { OnOk result (Grows points.old points.new) }
    ensures stand { IfOk result (λ made. let a = automata.entry.lefts.now in let b = automata.entry.patterns.now in StandForMoves M.states (M.means a b) (M.moves_in (moves_at b.auto of.now.pattern)) points.new made.0.items made.1.items (λ n q. takes_for (M.takes b.auto q) (M.moves_in (moves_at b.auto of.now.pattern)) first a b of.now n (M.document q))) }
{
    let mut moves = Vec::new(alloc);
    let mut numbers = Vec::new(alloc);
    for number in 0..M::moves(&automata.patterns.auto, of.pattern).len() {
        let place = place_of(first, number);
        let made = steps(alloc, automata, points, of, number, place)?;
        append(&mut moves, &mut numbers, made, number)?;
    }
    Ok((moves, numbers))
}

/// Puts a row without moves after the others.
fn add_bare(alloc: Global, rows: &mut Vec<Row>) -> Result<(), NoMemory>
    ensures { OnOk result (rows.new.items ≡ rows.old.items ++ no_row ∷ []) }
{
    rows.push(Row {
        labels: Vec::new(alloc),
        texts: Vec::new(alloc),
    })?;
    Ok(())
}

/// Gives the state of a point its moves, and the row of those of the pattern that they stand for;
/// none where the point means what an old state accepts.
pub(crate) fn expand(
    alloc: Global,
    automata: Automata<'_>,
    points: &mut Points,
    rows: &mut Vec<Row>,
    first: bool,
) -> Result<(), NoMemory>
    requires expanded { AreExpanded first automata.lefts.now automata.patterns.now points.old rows.old.items }
    requires more { length rows.old.items < length points.old.points.items }
    ensures expanded { OnOk result (AreExpanded first automata.entry.lefts.now automata.entry.patterns.now points.new rows.new.items) }
    ensures grows { OnOk result (KeepsPoints points.old points.new) }
    ensures moves { OnOk result (KeepMoves (length rows.old.items) points.old points.new) }
    ensures count { OnOk result (length rows.new.items ≡ length rows.old.items + 1) }
{
    let _states = points.made.len();
    let number = rows.len();
    let of = copy_point(alloc, points, number)?;
    if is_old(automata.patterns, of.left, of.pattern, &of.rights) {
        add_bare(alloc, rows)?;
        return Ok(());
    }
    let (labels, label_numbers) = moves_of(alloc, automata, points, &of, first)?;
    let (texts, text_numbers) = moves_of(alloc, automata, points, &of, first)?;
    let state = points.made.state(number);
    points.made.set_moves(state, labels, texts);
    rows.push(Row {
        labels: label_numbers,
        texts: text_numbers,
    })?;
    Ok(())
}
