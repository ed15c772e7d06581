//! What compiles the patterns of a program.

ghost use Rattle.std.specs.Prelude.{◌≡◌, false, true, ◌↔◌, IfOk};
ghost use Rattle.std.specs.List.{AllByRecursion};
ghost use Rattle.xd_auto.specs.Automaton.{accepts, Extends, IsState, KeepsAccepting};
ghost use Rattle.xd_doc.specs.Document.{Document};
ghost use Rattle.xd_syntax.specs.Fits.{Fits};
ghost use Rattle.xd_syntax.specs.Types.{BelongsTo, tree};
ghost use Rattle.xd_pattern_runs.specs.Linear.{IsLinear};
ghost use Rattle.xd_meaning.specs.Bindings.{variables_of};
ghost use Rattle.xd_meaning.specs.KeptFaults.{AllPaired};
ghost use Rattle.xd_syntax.specs.Kept.{AddsTypes, program_tree};
ghost use Rattle.xd_syntax.specs.Patterns.{IsPattern, pattern_tree};
ghost use Rattle.xd_syntax.specs.Program.{names_of};
ghost use Rattle.xd_syntax.specs.ProperTables.{IsTable};
ghost use Rattle.xd_syntax.specs.RecursionFaults.{IsSound};
ghost use Rattle.xd_syntax.specs.ShallowTables.{IsShallow};
ghost use Rattle.xd_patterns.specs.CompiledProgram.{AcceptsType, AreWithin, IsLinearPattern, IsPatternState, marking_of_program, pattern_states, pattern_variables, type_states, variables_of_patterns, words_of_program};
ghost use Rattle.xd_patterns.specs.Compiler.{Serves, ServesStays};
ghost use Rattle.xd_patterns.specs.Held.{marking_of, variables_in};
ghost use Rattle.xd_patterns.specs.Marked.{IsCompiled};
ghost use Rattle.xd_patterns.specs.Sources.{IsDefined, names_in};

use crate::chains::Marks;
use crate::compiled::{CompiledProgram, compile_together};
use crate::marked::{Marked, compile_marked};
use crate::named::named_types;
use crate::plain::compile_plain;
use crate::sources::Sources;
use std::alloc::Global;
use xd_auto::{Auto, State};
use xd_continuations::{TypeBodies, meaning_of_any};
use xd_doc::NoMemory;
use xd_sound::{SoundProgram, TypeNames};
use xd_syntax::{PatternId, TypeId};

/// Compiles the patterns of one program: it knows what the names of types stand for.
#[derive(Drop)]
pub struct PatternCompiler {
    bodies: TypeBodies,
}

impl PatternCompiler {
    /// That of a program. What `Any` stands for is added to its types, and stays there after
    /// `NoMemory`, too.
    pub fn new(alloc: Global, sound: &mut SoundProgram) -> Result<Self, NoMemory>
        ensures serves { IfOk result (Serves sound.new) }
        ensures adds { AddsTypes sound.old sound.new }
        ensures same { program_tree sound.new ≡ program_tree sound.old }
        ensures shallow { IsShallow sound.old.types → IsShallow sound.new.types }
    {
        let any = meaning_of_any(alloc, sound)?;
        let names = TypeNames::new(alloc, sound.program().type_defs())?;
        let bodies = TypeBodies {
            names,
            any: any.at(),
        };
        Ok(Self { bodies })
    }

    /// The program, with what its names stand for.
    fn sources_of<'a>(&'a self, sound: &'a SoundProgram) -> Sources<'a>
        requires { Serves sound.now self.now }
        ensures sound { IsSound (program_tree sound.now) }
        ensures table { IsTable false sound.now.types }
        ensures defined { IsDefined result }
        ensures names { names_in result ≡ names_of (program_tree sound.now) }
        ensures types { result.types.now ≡ sound.now.types }
        ensures patterns { result.patterns.now ≡ sound.now.patterns }
    {
        let program = sound.program();
        let types = program.types();
        types.see_table();
        Sources {
            types,
            patterns: program.patterns(),
            defs: program.type_defs(),
            bodies: &self.bodies,
        }
    }

    /// Adds the states of a pattern, whose moves stand in order of preference (after Hosoya and
    /// Pierce, JFP 2003).
    ///
    /// The program is the one that the compiler was made of, to which types alone may have been
    /// added ([`compilers_stay`]). The pattern is linear, as those of clauses and their parts are.
    /// After `NoMemory` old states accept what they did.
    pub fn compile(
        &self,
        alloc: Global,
        sound: &SoundProgram,
        pattern: PatternId,
        auto: &mut Auto,
    ) -> Result<Marked, NoMemory>
        requires serves { Serves sound.now self.now }
        requires pattern { IsPattern sound.now.patterns pattern }
        requires linear { IsLinear (pattern_tree sound.now.patterns pattern) }
        ensures extends { Extends auto.old auto.new }
        ensures keeps { KeepsAccepting auto.old auto.new }
        ensures start { IfOk result (λ marked. IsState auto.new marked.start) }
        ensures variables { IfOk result (λ marked. variables_in marked ≡ variables_of (pattern_tree sound.now.patterns pattern)) }
        ensures compiled { IfOk result (λ marked. IsCompiled (names_of (program_tree sound.now)) (pattern_tree sound.now.patterns pattern) auto.new (marking_of marked) marked.start) }
    {
        let sources = self.sources_of(sound);
        let mut marks = Marks::new(alloc);
        let marked = compile_marked(alloc, &sources, pattern, &mut marks, auto)?;
        Ok(marked)
    }

    /// Adds the states of types and patterns of the program together: a state for each type, which
    /// accepts exactly what fits it, and one for each pattern, whose moves stand in order of
    /// preference, as those of [`compile`](PatternCompiler::compile) do.
    ///
    /// What stands ahead has one state, however many of them lead to it: all uses of a declared type
    /// have one, and an element's content is the same state in each type and pattern that comes to
    /// it by the element's type. So the cost is that of what differs. The program is the one that the
    /// compiler was made of, and the patterns are linear. After `NoMemory` old states accept what
    /// they did.
    pub fn compile_all(
        &self,
        alloc: Global,
        sound: &SoundProgram,
        types: &[TypeId],
        patterns: &[PatternId],
        auto: &mut Auto,
    ) -> Result<CompiledProgram, NoMemory>
        requires serves { Serves sound.now self.now }
        requires types { AllByRecursion (BelongsTo sound.now.types) types.now }
        requires patterns { AllByRecursion (IsLinearPattern sound.now.patterns) patterns.now }
        ensures extends { Extends auto.old auto.new }
        ensures keeps { KeepsAccepting auto.old auto.new }
        ensures types { IfOk result (λ made. AllPaired (AcceptsType (names_of (program_tree sound.now)) sound.now.types auto.new) types.now (type_states made)) }
        ensures patterns { IfOk result (λ made. AllPaired (IsPatternState (names_of (program_tree sound.now)) sound.now.patterns auto.new (marking_of_program made)) patterns.now (pattern_states made)) }
        ensures variables { IfOk result (λ made. pattern_variables made ≡ variables_of_patterns sound.now.patterns patterns.now) }
        ensures words { IfOk result (λ made. AllByRecursion (AreWithin (words_of_program made)) (pattern_variables made)) }
    {
        let sources = self.sources_of(sound);
        let named = named_types(alloc, &sources, types)?;
        let compiled = compile_together(alloc, &sources, &named, patterns, auto)?;
        Ok(compiled)
    }

    /// Adds a state that accepts exactly what fits a type of the program.
    ///
    /// It is for tests of membership: where a type has the same part twice, the state has the moves
    /// of one, and not one for each head of the type. The program is the one that the compiler was
    /// made of. After `NoMemory` old states accept what they did.
    pub fn compile_plain_type(
        &self,
        alloc: Global,
        sound: &SoundProgram,
        id: TypeId,
        auto: &mut Auto,
    ) -> Result<State, NoMemory>
        requires serves { Serves sound.now self.now }
        requires belongs { BelongsTo sound.now.types id }
        ensures extends { Extends auto.old auto.new }
        ensures keeps { KeepsAccepting auto.old auto.new }
        ensures state { IfOk result (IsState auto.new) }
        ensures accepts { IfOk result (λ state. (d : Document) → (accepts auto.new d state ≡ true) ↔ Fits (names_of (program_tree sound.now)) (tree sound.now.types id) d) }
    {
        let sources = self.sources_of(sound);
        let state = compile_plain(alloc, &sources, id, auto)?;
        Ok(state)
    }
}

/// What compiles a program's patterns goes on to do so while types are added to it.
pub fn compilers_stay()
    ensures { ServesStays }
{}
