//! The moves that stand for one move of a pattern's state.

ghost use Rattle.std.proofs.Common.{◌∙◌, ap, refl};
ghost use Rattle.std.specs.Prelude.{◌≡◌, ◌<◌, ◌&&◌, ◌||◌, ℕ, Bool, List, [], true, not, length, get_or, IfOk, OnOk};
ghost use Rattle.std.specs.List.{AllByRecursion, list_any};
ghost use Rattle.xd_doc.specs.Document.{Document};
ghost use Rattle.xd_doc.specs.Classes.{class_has};
ghost use Rattle.xd_auto.specs.declared.auto.LabelMove.{LabelMove};
ghost use Rattle.xd_auto.specs.declared.auto.TextMove.{TextMove};
ghost use Rattle.xd_auto.specs.declared.auto.State.{State};
ghost use Rattle.xd_auto.specs.Automaton.{Automaton, LeadsBelow, StateMoves, accepts, moves_at};
ghost use Rattle.xd_boole.specs.Meaning.{ElementFirst, TextFirst, element_of, is_state, move_takes, text_of, text_takes};
ghost use Rattle.xd_boole.specs.Groups.{AllPass, group_refuses, is_side};
ghost use Rattle.xd_boole.specs.Choices.{AllChoices, IsChoiceOf, choice_refuses};
ghost use Rattle.xd_boole.specs.Disjoint.{AreNearMoves};
ghost use Rattle.xd_boole.specs.Refusals.{LeadInside, label_refused};
ghost use Rattle.xd_boole.specs.Points.{MoveBelow, TextBelow};
ghost use Rattle.xd_points.specs.Meaning.{IsPointOf, point};
ghost use Rattle.xd_points.specs.Narrowing.{leaves_nothing};
ghost use Rattle.xd_boole.proofs.MoveBelowLemmas.{all_recursion};
ghost use Rattle.xd_points.specs.declared.patterns.PatternStates.{PatternStates as PatternsView};
ghost use Rattle.xd_points.specs.declared.points.Points.{Points as PointsView};
ghost use Rattle.xd_points.specs.Points.{AddsLabels, AddsMoves, AddsTexts, ArePoints, ArePartsOf, AreRefusing, AreRestsOf, LabelLeads, LeadsAs, TextLeads, label_means, label_states, meaning, parts_accept, rests_accept, taken_before, text_means, text_states};

use crate::automata::Automata;
use crate::patterns::PatternStates;
use crate::points::{Point, Points, leaves_nothing, stand_for};
use std::alloc::Global;
use xd_auto::{LabelMove, Move, State, TextMove};
use xd_boole::{
    Group, LabelRefusal, MoveSide, SideChoice, any_marked, common_labels, is_marked,
    label_refusals, moves_before, near_moves, set_of, side_of, text_groups_before,
};
use xd_doc::{Class, NoMemory, Words};

/// Where a move of a left and one of a pattern's state lead on an element.
#[derive(Clone, Copy)]
pub(crate) struct Parts {
    pub(crate) left: MoveSide,
    pub(crate) pattern: MoveSide,
}

/// Where they lead on a text.
#[derive(Clone, Copy)]
pub(crate) struct Rests {
    pub(crate) left: State,
    pub(crate) pattern: State,
}

/// What the moves of a point must refuse: what its rights accept, and what the moves of its
/// pattern's state take that stand before a place.
#[derive(Clone, Copy)]
pub(crate) struct Refusing<'a> {
    of: &'a Point,
    place: usize,
}

/// Whether nothing is left of the contents, or of what follows.
fn leads_nowhere(patterns: &PatternStates, parts: Parts, choice: &SideChoice) -> bool
    ensures { result ≡ (leaves_nothing patterns.now (point parts.left.content parts.pattern.content choice.now.contents.items) || leaves_nothing patterns.now (point parts.left.rest parts.pattern.rest choice.now.rests.items)) }
{
    let Parts { left, pattern } = parts;
    leaves_nothing(patterns, left.content, pattern.content, &choice.contents)
        || leaves_nothing(patterns, left.rest, pattern.rest, &choice.rests)
}

/// The move on these labels by which the parts go on as the choice says; none where nothing is left
/// of a part.
fn add_move(
    alloc: Global,
    automata: Automata<'_>,
    points: &mut Points,
    labels: &mut Vec<LabelMove>,
    parts: Parts,
    class: &Class,
    choice: &SideChoice,
) -> Result<(), NoMemory>
    requires whole { ArePoints automata.lefts.now automata.patterns.now points.old }
    requires leads { AllByRecursion (LabelLeads parts.pattern points.old) labels.old.items }
    requires parts { ArePartsOf automata.lefts.now automata.patterns.now parts }
    requires choice { IsChoiceOf automata.patterns.now.taken.auto choice.now }
    ensures { OnOk result (let a = automata.entry.lefts.now in let b = automata.entry.patterns.now in AddsLabels parts.pattern a b points.old points.new labels.old.items labels.new.items (λ q. class_has class.now q.label && (parts_accept a b q.content q.rest parts && choice_refuses b.taken.auto q.content q.rest choice.now))) }
{
    if leads_nowhere(automata.patterns, parts, choice) {
        return Ok(());
    }
    let content = stand_for(
        alloc,
        automata,
        points,
        parts.left.content,
        parts.pattern.content,
        &choice.contents,
    )?;
    let rest = stand_for(
        alloc,
        automata,
        points,
        parts.left.rest,
        parts.pattern.rest,
        &choice.rests,
    )?;
    labels.push(LabelMove {
        class: class.share()?,
        content,
        rest,
    })?;
    Ok(())
}

/// The moves for the labels of a group: one for each choice.
fn add_group(
    alloc: Global,
    automata: Automata<'_>,
    points: &mut Points,
    labels: &mut Vec<LabelMove>,
    parts: Parts,
    group: &LabelRefusal,
) -> Result<(), NoMemory>
    requires whole { ArePoints automata.lefts.now automata.patterns.now points.old }
    requires leads { AllByRecursion (LabelLeads parts.pattern points.old) labels.old.items }
    requires parts { ArePartsOf automata.lefts.now automata.patterns.now parts }
    requires group { AllChoices automata.patterns.now.taken.auto group.now.choices.items }
    ensures { OnOk result (let a = automata.entry.lefts.now in let b = automata.entry.patterns.now in AddsLabels parts.pattern a b points.old points.new labels.old.items labels.new.items (λ q. parts_accept a b q.content q.rest parts && label_refused b.taken.auto q group.now)) }
{
    for choice in &group.choices {
        add_move(alloc, automata, points, labels, parts, &group.class, choice)?;
    }
    Ok(())
}

/// Of these moves those that aren't seen to take nothing of what a part of a pattern does: all of
/// them, where the part is known to take everything.
fn near_pattern(
    alloc: Global,
    patterns: &PatternStates,
    part: MoveSide,
    moves: Vec<LabelMove>,
) -> Result<Vec<LabelMove>, NoMemory>
    requires part { is_side patterns.now.auto part ≡ true }
    requires moves { LeadInside patterns.now.taken.auto moves.items }
    ensures { IfOk result (λ near. AreNearMoves patterns.now.auto patterns.now.taken.auto part moves.items near.items) }
{
    let universal = &patterns.taken.universal;
    if is_marked(universal, part.content) && is_marked(universal, part.rest) {
        return Ok(moves);
    }
    let near = near_moves(alloc, &patterns.auto, part, &patterns.taken.auto, &moves)?;
    Ok(near)
}

/// The moves that must refuse an element which a move and these parts take: those of the point's
/// rights, and those of the pattern's state that stand before a place. Moves that are seen to take
/// nothing of what a part accepts are left out.
fn refusing_moves(
    alloc: Global,
    automata: Automata<'_>,
    refusing: Refusing<'_>,
    step: &LabelMove,
    parts: Parts,
) -> Result<Vec<LabelMove>, NoMemory>
    requires of { IsPointOf automata.lefts.now automata.patterns.now refusing.of.now }
    requires parts { ArePartsOf automata.lefts.now automata.patterns.now parts }
    ensures { IfOk result (λ moves. AreRefusing automata.entry.lefts.now automata.entry.patterns.now refusing.entry.of.now step.now.class parts refusing.entry.place moves.items) }
{
    let Automata { lefts, patterns } = automata;
    let Refusing { of, place } = refusing;
    let taken = &patterns.taken.auto;
    let moves = moves_before(alloc, taken, step, &of.rights, of.pattern, place)?;
    let moves = near_pattern(alloc, patterns, parts.pattern, moves)?;
    let moves = near_moves(alloc, lefts, parts.left, taken, &moves)?;
    Ok(moves)
}

/// The move for the texts of a group; none where one of its states is known to accept everything,
/// or nothing is left of what follows.
fn add_text_group(
    alloc: Global,
    automata: Automata<'_>,
    points: &mut Points,
    texts: &mut Vec<TextMove>,
    rests: Rests,
    group: &Group<Words, State>,
) -> Result<(), NoMemory>
    requires whole { ArePoints automata.lefts.now automata.patterns.now points.old }
    requires leads { AllByRecursion (TextLeads rests.pattern points.old) texts.old.items }
    requires rests { AreRestsOf automata.lefts.now automata.patterns.now rests }
    requires group { AllPass (is_state automata.patterns.now.taken.auto) group.now.sides.items }
    ensures { OnOk result (let a = automata.entry.lefts.now in let b = automata.entry.patterns.now in AddsTexts rests.pattern a b points.old points.new texts.old.items texts.new.items (λ q. rests_accept a b q.rest rests && group_refuses class_has (λ s. accepts b.taken.auto q.rest s) q.characters group.now)) }
{
    let patterns = automata.patterns;
    if any_marked(&patterns.taken.universal, &group.sides) {
        return Ok(());
    }
    let rights = set_of(alloc, &group.sides)?;
    if leaves_nothing(patterns, rests.left, rests.pattern, &rights) {
        return Ok(());
    }
    let rest = stand_for(alloc, automata, points, rests.left, rests.pattern, &rights)?;
    texts.push(TextMove {
        words: group.class.share()?,
        rest,
    })?;
    Ok(())
}

/// A move of a pattern's state, on an element or on a text, and how the moves are made that stand for
/// it.
pub(crate) trait PatternMove: Move + Drop {
    /// How documents begin that moves of this kind take: with an element, or with a text.
    ghost First: { Type 0 };

    /// The document.
    ghost document: { First → Document };

    /// Its label, or its text.
    ghost name: { First → List ℕ };

    /// The states that the move leads to.
    ghost states: { Self → List State };

    /// Whether the document goes on as the move says, by a test of states and documents.
    ghost goes_on: { (State → Document → Bool) → First → Self → Bool };

    /// Whether the move takes the document.
    ghost takes: { Automaton → First → Self → Bool };

    /// Whether a move between states of points takes it, by what the points mean.
    ghost means: { Automaton → PatternsView → PointsView → First → Self → Bool };

    /// It leads to states below a number.
    ghost below: { ℕ → Self → Type 0 };

    /// Puts the moves for the names that two moves share, one of the left and one of the pattern's
    /// state, after the others, on what no state of the point's rights takes, and none of the first
    /// moves of the pattern's state.
    fn add_meet(
        alloc: Global,
        automata: Automata<'_>,
        points: &mut Points,
        moves: &mut Vec<Self>,
        refusing: Refusing<'_>,
        one: &Self,
        two: &Self,
    ) -> Result<(), NoMemory>
        requires whole { ArePoints automata.lefts.now automata.patterns.now points.old }
        requires leads { AllByRecursion (LeadsAs states two.now points.old) moves.old.items }
        requires of { IsPointOf automata.lefts.now automata.patterns.now refusing.of.now }
        requires one { below (length automata.lefts.now) one.now }
        requires two { below (length automata.patterns.now.auto) two.now }
        ensures { OnOk result (let a = automata.entry.lefts.now in let b = automata.entry.patterns.now in AddsMoves (LeadsAs states two.now) (means a b) a b points.old points.new moves.old.items moves.new.items (λ q. (takes a q one.now && takes b.auto q two.now) && not (taken_before (takes b.auto q) (Self.moves_in (moves_at b.auto refusing.entry.of.now.pattern)) b refusing.entry.of.now refusing.entry.place (document q)))) };

    /// A state accepts a document by the moves that take it.
    ghost accepted: { (a : Automaton) (s : State) (q : First) → accepts a (document q) s ≡ list_any (takes a q) (Self.moves_in (moves_at a s)) };

    /// A move takes it if it has the name, and its states accept what they are for.
    ghost taken: { (a : Automaton) (q : First) → takes a q ≡ (λ (m : Self). Self.has m (name q) && goes_on (λ s d. accepts a d s) q m) };

    /// The same of points.
    ghost meant: { (a : Automaton) (b : PatternsView) (p : PointsView) (q : First) → means a b p q ≡ (λ (m : Self). Self.has m (name q) && goes_on (λ s d. meaning a b p s.number d) q m) };

    /// Tests that agree on its states tell the same.
    ghost agree: { (t u : State → Document → Bool) (q : First) (m : Self) → AllByRecursion (λ s. (d : Document) → t s d ≡ u s d) (states m) → goes_on t q m ≡ goes_on u q m };

    /// The moves of a closed automaton lead to its states.
    ghost closed: { (n : ℕ) (moves : StateMoves) → LeadsBelow n moves → AllByRecursion (below n) (Self.moves_in moves) };
}

impl PatternMove for LabelMove {
    ghost First = { ElementFirst };

    ghost document = { element_of };

    ghost name = { λ q. q.label };

    ghost states = { label_states };

    ghost goes_on = { λ t q m. t m.content q.content && t m.rest q.rest };

    ghost takes = { move_takes };

    ghost means = { label_means };

    ghost below = { MoveBelow };

    ghost accepted = { λ a s q. refl };

    ghost taken = { λ a q. refl };

    ghost meant = { λ a b p q. refl };

    ghost agree = { λ t u q m same. ap (λ v. v && t m.rest q.rest) (same.0 q.content) ∙ ap (λ v. u m.content q.content && v) (same.1.0 q.rest) };

    ghost closed = { λ n moves closed. all_recursion (MoveBelow n) moves.labels closed.labels };

    fn add_meet(
        alloc: Global,
        automata: Automata<'_>,
        points: &mut Points,
        labels: &mut Vec<LabelMove>,
        refusing: Refusing<'_>,
        one: &LabelMove,
        two: &LabelMove,
    ) -> Result<(), NoMemory> {
        let Some(class) = common_labels(&one.class, &two.class)? else {
            return Ok(());
        };
        let step = LabelMove {
            class,
            content: two.content,
            rest: two.rest,
        };
        let parts = Parts {
            left: side_of(one),
            pattern: side_of(two),
        };
        let moves = refusing_moves(alloc, automata, refusing, &step, parts)?;
        let groups = label_refusals(alloc, &automata.patterns.taken, &step.class, &moves)?;
        for group in &groups {
            add_group(alloc, automata, points, labels, parts, group)?;
        }
        Ok(())
    }
}

impl PatternMove for TextMove {
    ghost First = { TextFirst };

    ghost document = { text_of };

    ghost name = { λ q. q.characters };

    ghost states = { text_states };

    ghost goes_on = { λ t q m. t m.rest q.rest };

    ghost takes = { text_takes };

    ghost means = { text_means };

    ghost below = { TextBelow };

    ghost accepted = { λ a s q. refl };

    ghost taken = { λ a q. refl };

    ghost meant = { λ a b p q. refl };

    ghost agree = { λ t u q m same. same.0 q.rest };

    ghost closed = { λ n moves closed. all_recursion (TextBelow n) moves.texts closed.texts };

    fn add_meet(
        alloc: Global,
        automata: Automata<'_>,
        points: &mut Points,
        texts: &mut Vec<TextMove>,
        refusing: Refusing<'_>,
        one: &TextMove,
        two: &TextMove,
    ) -> Result<(), NoMemory> {
        let Some(words) = one.words.meet(&two.words)? else {
            return Ok(());
        };
        let step = TextMove {
            words,
            rest: two.rest,
        };
        let rests = Rests {
            left: one.rest,
            pattern: two.rest,
        };
        let taken = &automata.patterns.taken.auto;
        let Refusing { of, place } = refusing;
        let groups = text_groups_before(alloc, taken, &step, &of.rights, of.pattern, place)?;
        for group in &groups {
            add_text_group(alloc, automata, points, texts, rests, group)?;
        }
        Ok(())
    }
}

/// The moves that stand for the move of this number of the pattern's state.
pub(crate) fn steps<M: PatternMove>(
    alloc: Global,
    automata: Automata<'_>,
    points: &mut Points,
    of: &Point,
    number: usize,
    place: usize,
) -> Result<Vec<M>, NoMemory>
    requires whole { ArePoints automata.lefts.now automata.patterns.now points.old }
    requires of { IsPointOf automata.lefts.now automata.patterns.now of.now }
    requires number { number < length (M.moves_in (moves_at automata.patterns.now.auto of.now.pattern)) }
    ensures { IfOk result (λ made. let a = automata.entry.lefts.now in let b = automata.entry.patterns.now in (m : M) → m ≡ get_or (M.moves_in (moves_at b.auto of.now.pattern)) number m → AddsMoves (LeadsAs M.states m) (M.means a b) a b points.old points.new [] made.items (λ q. accepts a (M.document q) of.now.left && (M.takes b.auto q m && not (taken_before (M.takes b.auto q) (M.moves_in (moves_at b.auto of.now.pattern)) b of.now place (M.document q))))) }
{
    let Automata { lefts, patterns } = automata;
    let twos = M::moves(&patterns.auto, of.pattern);
    let two = &twos[number];
    let numbers = two.matching(alloc, lefts, of.left)?;
    let ones = M::moves(lefts, of.left);
    let refusing = Refusing { of, place };
    let mut made = Vec::new(alloc);
    for number in &numbers {
        let one = &ones[*number];
        M::add_meet(alloc, automata, points, &mut made, refusing, one, two)?;
    }
    Ok(made)
}
