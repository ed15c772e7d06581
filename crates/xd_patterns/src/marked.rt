//! Patterns as states with marked moves.

ghost use Rattle.std.specs.Prelude.{◌≡◌, ◌<◌, [], IfOk, get_or, length};
ghost use Rattle.xd_auto.specs.Automaton.{Extends, IsState, KeepsAccepting};
ghost use Rattle.xd_sound.specs.TypeNames.{meanings};
ghost use Rattle.xd_laws.specs.Guarded.{Guarded};
ghost use Rattle.xd_pattern_runs.specs.Linear.{BindNothing, IsLinear};
ghost use Rattle.xd_meaning.specs.Bindings.{variables_of};
ghost use Rattle.xd_syntax.specs.Words.{has_word};
ghost use Rattle.xd_syntax.specs.Patterns.{IsPattern, pattern_tree};
ghost use Rattle.xd_continuations.specs.Bodies.{AreBodies};
ghost use Rattle.xd_patterns.specs.Held.{marking_of, variables_in};
ghost use Rattle.xd_patterns.specs.Marked.{IsCompiled, marks_at};
ghost use Rattle.xd_patterns.specs.Sources.{IsDefined, names_in};
ghost use Rattle.xd_patterns.specs.Variables.{words_of};

use crate::chains::Marks;
use crate::mark_table::MarkTable;
use crate::sources::Sources;
use crate::start::{compile_pieces, piece_of_pattern};
use crate::variables::{number_lists, variables};
use std::alloc::Global;
use xd_auto::{Auto, MoveKind, State};
use xd_continuations::TypeBodies;
use xd_doc::{Label, NoMemory};
use xd_syntax::{PatternId, Patterns, TypeDef, Types};

/// The state of a pattern, its variables, and those of them that the items of each move belong to.
#[derive(Drop)]
pub struct Marked {
    start: State,
    moves: MarkTable,
}

impl Marked {
    /// The state of the pattern.
    pub fn start(&self) -> State
        ensures { result ≡ self.now.start }
    {
        self.start
    }

    /// The variables of the pattern in order of first occurrence. They are numbered from 0 in this
    /// order.
    pub fn variables(&self) -> &[Label]
        ensures { result.now ≡ variables_in self.now }
    {
        self.moves.words.as_slice()
    }

    /// The numbers of the variables that the item taken by a move belongs to.
    ///
    /// The number of the move is its position among the state's moves of that kind. A state or a
    /// move that isn't the pattern's has none.
    pub fn marks(&self, state: State, kind: MoveKind, number: usize) -> &[usize]
        ensures { words_of (variables_in self.now) result.now ≡ marks_at (marking_of self.now state) kind number }
    {
        self.moves.marks(state, kind, number)
    }

    /// Whether the item taken by that move belongs to the variable of this number.
    pub fn holds(&self, state: State, kind: MoveKind, number: usize, variable: usize) -> bool
        requires { variable < length (variables_in self.now) }
        ensures { result ≡ has_word (marks_at (marking_of self.now state) kind number) (get_or (variables_in self.now) variable []) }
    {
        let _count = self.moves.words.len();
        self.marks(state, kind, number).contains(&variable)
    }
}

/// The same with lists of binders, of which there are none at first.
pub(crate) fn compile_marked(
    alloc: Global,
    sources: &Sources<'_>,
    pattern: PatternId,
    marks: &mut Marks,
    auto: &mut Auto,
) -> Result<Marked, NoMemory>
    requires sound { IsDefined sources.now }
    requires pattern { IsPattern sources.now.patterns.now pattern }
    requires linear { IsLinear (pattern_tree sources.now.patterns.now pattern) }
    requires fresh { marks.old ≡ [] }
    ensures extends { Extends auto.old auto.new }
    ensures keeps { KeepsAccepting auto.old auto.new }
    ensures start { IfOk result (λ marked. IsState auto.new marked.start) }
    ensures variables { IfOk result (λ marked. variables_in marked ≡ variables_of (pattern_tree sources.now.patterns.now pattern)) }
    ensures compiled { IfOk result (λ marked. IsCompiled (names_in sources.now) (pattern_tree sources.now.patterns.now pattern) auto.new (marking_of marked) marked.start) }
{
    let base = auto.len();
    let piece = piece_of_pattern(pattern);
    let (starts, rows) = compile_pieces(alloc, sources, &[piece], marks, auto)?;
    let words = variables(alloc, sources.patterns, pattern)?;
    let lists = number_lists(alloc, sources.patterns, marks, &words)?;
    let moves = MarkTable {
        words,
        base,
        rows,
        lists,
    };
    Ok(Marked {
        start: starts[0],
        moves,
    })
}

/// Adds the states of a pattern, whose moves stand in order of preference (after Hosoya and Pierce,
/// JFP 2003).
///
/// Definitions of types are guarded and bind nothing, and `bodies` are those of the definitions, as
/// in every sound program ([`PatternCompiler`](crate::PatternCompiler) sees to that); the pattern
/// is linear. After `NoMemory` old states accept what they did.
pub fn compile_pattern(
    alloc: Global,
    types: &Types,
    patterns: &Patterns,
    defs: &[TypeDef],
    bodies: &TypeBodies,
    pattern: PatternId,
    auto: &mut Auto,
) -> Result<Marked, NoMemory>
    requires guarded { Guarded (meanings types.now defs.now) }
    requires none { BindNothing (meanings types.now defs.now) }
    requires bodies { AreBodies types.now defs.now bodies.now }
    requires pattern { IsPattern patterns.now pattern }
    requires linear { IsLinear (pattern_tree patterns.now pattern) }
    ensures extends { Extends auto.old auto.new }
    ensures keeps { KeepsAccepting auto.old auto.new }
    ensures start { IfOk result (λ marked. IsState auto.new marked.start) }
    ensures variables { IfOk result (λ marked. variables_in marked ≡ variables_of (pattern_tree patterns.now pattern)) }
    ensures compiled { IfOk result (λ marked. IsCompiled (meanings types.now defs.now) (pattern_tree patterns.now pattern) auto.new (marking_of marked) marked.start) }
{
    let sources = Sources {
        types,
        patterns,
        defs,
        bodies,
    };
    let mut marks = Marks::new(alloc);
    compile_marked(alloc, &sources, pattern, &mut marks, auto)
}
