//! Which moves of compiled patterns belong to which variables.

use xd_auto::State;
use xd_bind::{Holds, MoveKind};
use xd_doc::Label;
use xd_given::TellsVariables;
use xd_patterns::CompiledProgram;

/// The moves of compiled patterns that belong to variables of these words.
pub(crate) struct WordOwner<'a> {
    pub(crate) compiled: &'a CompiledProgram,
    pub(crate) words: &'a [Label],
}

impl Drop for WordOwner<'_> {
    fn drop(self) {
        let WordOwner {
            compiled: _,
            words: _,
        } = self;
    }
}

impl Holds for WordOwner<'_> {
    ghost use Rattle.xd_clauses.specs.Compiled.{word_moves};

    ghost owned = { λ o x. word_moves o.compiled.now o.words.now x };

    fn holds(&self, state: State, kind: MoveKind, number: usize, variable: usize) -> bool {
        if variable >= self.words.len() {
            return false;
        }
        self.compiled
            .has(state, kind, number, &self.words[variable])
    }
}

/// The moves of compiled patterns that belong to their variables, by the numbers that these have.
pub(crate) struct NumberOwner<'a> {
    pub(crate) compiled: &'a CompiledProgram,
}

impl Drop for NumberOwner<'_> {
    fn drop(self) {
        let NumberOwner { compiled: _ } = self;
    }
}

impl Holds for NumberOwner<'_> {
    ghost use Rattle.xd_patterns.specs.CompiledProgram.{words_of_program};
    ghost use Rattle.xd_clauses.specs.Compiled.{word_moves};

    ghost owned = { λ o x. word_moves o.compiled.now (words_of_program o.compiled.now) x };

    fn holds(&self, state: State, kind: MoveKind, number: usize, variable: usize) -> bool {
        if variable >= self.compiled.words().len() {
            return false;
        }
        self.compiled.marks(state, kind, number).contains(&variable)
    }
}

impl TellsVariables for NumberOwner<'_> {
    fn variables(&self, state: State, kind: MoveKind, number: usize) -> &[usize] {
        let _words = self.compiled.words();
        self.compiled.marks(state, kind, number)
    }
}
