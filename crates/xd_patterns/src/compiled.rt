//! Types and patterns of a program as states of one automaton.

ghost use Rattle.std.specs.Prelude.{◌≡◌, ◌<◌, ◌++◌, [], IfOk, OnOk, get_or, length, map};
ghost use Rattle.std.specs.List.{AllByRecursion, IsDistinct};
ghost use Rattle.std.specs.Str.{bytes_eq};
ghost use Rattle.xd_auto.specs.Automaton.{Extends, KeepsAccepting};
ghost use Rattle.xd_syntax.specs.Types.{BelongsTo};
ghost use Rattle.xd_syntax.specs.Words.{has_word};
ghost use Rattle.xd_patterns.specs.Sources.{IsDefined};
ghost use Rattle.xd_patterns.specs.CompiledProgram.{AreCompiled, AreWithin, IsLinearPattern, each_variables, list_variables, marking_of_program, pattern_states, pattern_variables, type_states, variables_of_patterns, words_of_program};
ghost use Rattle.xd_patterns.specs.Marked.{marks_at};
ghost use Rattle.xd_patterns.specs.Starting.{pattern_piece, type_piece};
ghost use Rattle.xd_patterns.specs.Variables.{put_each, words_of};

use crate::chains::{Marks, Piece};
use crate::mark_table::MarkTable;
use crate::sources::Sources;
use crate::start::{compile_pieces, piece_of_pattern, piece_of_type};
use crate::variables::{number_lists, variables};
use indexmap::IndexSet;
use std::alloc::Global;
use xd_auto::{Auto, MoveKind, State};
use xd_doc::{Label, NoMemory};
use xd_syntax::{PatternId, Patterns, TypeId};

/// The variables of a pattern in order of first occurrence.
#[derive(Drop)]
pub(crate) struct PatternVariables {
    words: IndexSet<Label>,
}

/// Types and patterns of a program as states of one automaton.
///
/// What stands ahead has one state, however many of them lead to it. Variables of all patterns are
/// numbered together, so variables of one name have one number.
#[derive(Drop)]
pub struct CompiledProgram {
    types: Vec<State>,
    patterns: Vec<State>,
    variables: Vec<PatternVariables>,
    moves: MarkTable,
}

impl CompiledProgram {
    /// The states of the types, in their order.
    pub fn types(&self) -> &[State]
        ensures { result.now ≡ type_states self.now }
    {
        self.types.as_slice()
    }

    /// The states of the patterns, in their order.
    pub fn patterns(&self) -> &[State]
        ensures { result.now ≡ pattern_states self.now }
    {
        self.patterns.as_slice()
    }

    /// The variables of the pattern of this number in order of first occurrence.
    pub fn variables(&self, pattern: usize) -> &[Label]
        requires { pattern < length (pattern_variables self.now) }
        ensures { result.now ≡ get_or (pattern_variables self.now) pattern [] }
    {
        self.variables[pattern].words.as_slice()
    }

    /// The variables of all patterns, each once, by their numbers.
    pub fn words(&self) -> &[Label]
        ensures value { result.now ≡ words_of_program self.now }
        ensures distinct { IsDistinct bytes_eq (words_of_program self.now) }
    {
        self.moves.words.as_slice()
    }

    /// The number of the list of variables that the item taken by a move belongs to.
    ///
    /// The number of the move is its position among the state's moves of that kind. A state or a
    /// move that was made for none of the types and patterns has a list without variables. Lists of
    /// several numbers may have the same variables, as two binders of one variable have.
    pub fn list_of(&self, state: State, kind: MoveKind, number: usize) -> usize
        ensures { list_variables self.now result ≡ marks_at (marking_of_program self.now state) kind number }
    {
        self.moves.list_of(state, kind, number)
    }

    /// The variables of a list, by their numbers.
    pub fn list(&self, list: usize) -> &[usize]
        ensures { words_of (words_of_program self.now) result.now ≡ list_variables self.now list }
    {
        self.moves.list(list)
    }

    /// The variables that the item taken by a move belongs to, by their numbers.
    pub fn marks(&self, state: State, kind: MoveKind, number: usize) -> &[usize]
        ensures { words_of (words_of_program self.now) result.now ≡ marks_at (marking_of_program self.now state) kind number }
    {
        self.moves.marks(state, kind, number)
    }

    /// Whether the item taken by a move belongs to this variable.
    pub fn has(&self, state: State, kind: MoveKind, number: usize, word: &Label) -> bool
        ensures { result ≡ has_word (marks_at (marking_of_program self.now state) kind number) word.now }
    {
        self.moves.has(state, kind, number, word)
    }

    /// Whether the item taken by a move belongs to the variable of this number of a pattern, in
    /// order of first occurrence.
    pub fn holds(
        &self,
        state: State,
        kind: MoveKind,
        number: usize,
        pattern: usize,
        variable: usize,
    ) -> bool
        requires pattern { pattern < length (pattern_variables self.now) }
        requires variable { variable < length (get_or (pattern_variables self.now) pattern []) }
        ensures { result ≡ has_word (marks_at (marking_of_program self.now state) kind number) (get_or (get_or (pattern_variables self.now) pattern []) variable []) }
    {
        let word = &self.variables(pattern)[variable];
        self.moves.has(state, kind, number, word)
    }
}

/// The types, and after them the patterns, as pieces outside of all binders.
fn pieces_of(
    alloc: Global,
    types: &[TypeId],
    patterns: &[PatternId],
) -> Result<Vec<Piece>, NoMemory>
    ensures { IfOk result (λ pieces. pieces.items ≡ map type_piece types.now ++ map pattern_piece patterns.now) }
{
    let mut pieces = Vec::new(alloc);
    for id in types {
        pieces.push(piece_of_type(*id))?;
    }
    for id in patterns {
        pieces.push(piece_of_pattern(*id))?;
    }
    Ok(pieces)
}

/// Puts the variables after the others, but those that are there.
fn put_words(found: &IndexSet<Label>, words: &mut IndexSet<Label>) -> Result<(), NoMemory>
    ensures { OnOk result (words.new.keys ≡ put_each words.old.keys found.now.keys) }
{
    for word in found.as_slice() {
        words.insert(word.share()?)?;
    }
    Ok(())
}

/// The variables of each pattern, and those of all of them.
fn variables_of_all(
    alloc: Global,
    patterns: &Patterns,
    ids: &[PatternId],
) -> Result<(Vec<PatternVariables>, IndexSet<Label>), NoMemory>
    requires { AllByRecursion (IsLinearPattern patterns.now) ids.now }
    ensures each { IfOk result (λ made. each_variables made.0.items ≡ variables_of_patterns patterns.now ids.now) }
    ensures all { IfOk result (λ made. AllByRecursion (AreWithin made.1.keys) (variables_of_patterns patterns.now ids.now)) }
{
    let mut each = Vec::new(alloc);
    let mut all = IndexSet::new(alloc);
    for id in ids {
        let words = variables(alloc, patterns, *id)?;
        put_words(&words, &mut all)?;
        each.push(PatternVariables { words })?;
    }
    Ok((each, all))
}

/// The same with lists of binders, of which there are none at first.
fn compile_marked_together(
    alloc: Global,
    sources: &Sources<'_>,
    type_ids: &[TypeId],
    pattern_ids: &[PatternId],
    marks: &mut Marks,
    auto: &mut Auto,
) -> Result<CompiledProgram, NoMemory>
    requires sound { IsDefined sources.now }
    requires types { AllByRecursion (BelongsTo sources.now.types.now) type_ids.now }
    requires patterns { AllByRecursion (IsLinearPattern sources.now.patterns.now) pattern_ids.now }
    requires fresh { marks.old ≡ [] }
    ensures extends { Extends auto.old auto.new }
    ensures keeps { KeepsAccepting auto.old auto.new }
    ensures compiled { IfOk result (AreCompiled sources.now type_ids.now pattern_ids.now auto.new) }
{
    sources.types.see_table();
    let base = auto.len();
    let pieces = pieces_of(alloc, type_ids, pattern_ids)?;
    let (mut starts, rows) = compile_pieces(alloc, sources, &pieces, marks, auto)?;
    let behind = starts.split_off(type_ids.len())?;
    let (variables, words) = variables_of_all(alloc, sources.patterns, pattern_ids)?;
    let lists = number_lists(alloc, sources.patterns, marks, &words)?;
    let moves = MarkTable {
        words,
        base,
        rows,
        lists,
    };
    Ok(CompiledProgram {
        types: starts,
        patterns: behind,
        variables,
        moves,
    })
}

/// Adds the states of types and of linear patterns, together.
pub(crate) fn compile_together(
    alloc: Global,
    sources: &Sources<'_>,
    type_ids: &[TypeId],
    pattern_ids: &[PatternId],
    auto: &mut Auto,
) -> Result<CompiledProgram, NoMemory>
    requires sound { IsDefined sources.now }
    requires types { AllByRecursion (BelongsTo sources.now.types.now) type_ids.now }
    requires patterns { AllByRecursion (IsLinearPattern sources.now.patterns.now) pattern_ids.now }
    ensures extends { Extends auto.old auto.new }
    ensures keeps { KeepsAccepting auto.old auto.new }
    ensures compiled { IfOk result (AreCompiled sources.now type_ids.now pattern_ids.now auto.new) }
{
    let mut marks = Marks::new(alloc);
    compile_marked_together(alloc, sources, type_ids, pattern_ids, &mut marks, auto)
}
