//! Which variables the items of moves belong to.

ghost use Rattle.std.specs.Prelude.{◌≡◌, [], ◌∷◌};
ghost use Rattle.xd_syntax.specs.Words.{has_word};
ghost use Rattle.xd_patterns.specs.Held.{list_words, lists_at, marking_in, words_in};
ghost use Rattle.xd_patterns.specs.Variables.{words_of};
ghost use Rattle.xd_patterns.specs.Marked.{marks_at};

use crate::compile::StateMarks;
use crate::variables::Numbers;
use indexmap::IndexSet;
use xd_auto::{MoveKind, State};
use xd_doc::Label;

/// Variables by their numbers, and for each move of the states that were made the list of those
/// that its item belongs to.
#[derive(Drop)]
pub(crate) struct MarkTable {
    pub words: IndexSet<Label>,
    /// The number of the first state.
    pub base: usize,
    /// The numbers of the lists of the moves, state by state.
    pub rows: Vec<StateMarks>,
    pub lists: Vec<Numbers>,
}

impl MarkTable {
    /// The numbers of the lists of a state's moves of a kind.
    fn lists_of(&self, state: State, kind: MoveKind) -> &[usize]
        ensures { result.now ≡ lists_at self.now state kind }
    {
        let number = state.number();
        if number < self.base {
            return &[];
        }
        let at = number - self.base;
        if at >= self.rows.len() {
            return &[];
        }
        let row = &self.rows[at];
        match kind {
            MoveKind::Label => row.labels.as_slice(),
            MoveKind::Text => row.texts.as_slice(),
        }
    }

    /// The number of the list of a move.
    pub fn list_of(&self, state: State, kind: MoveKind, number: usize) -> usize
        ensures { list_words self.now result ≡ marks_at (marking_in self.now state) kind number }
    {
        let lists = self.lists_of(state, kind);
        if number >= lists.len() {
            return self.lists.len();
        }
        lists[number]
    }

    /// The variables of a list, by their numbers.
    pub fn list(&self, list: usize) -> &[usize]
        ensures { words_of (words_in self.now) result.now ≡ list_words self.now list }
    {
        if list >= self.lists.len() {
            return &[];
        }
        self.lists[list].list.as_slice()
    }

    /// The variables of a move's list, by their numbers.
    pub fn marks(&self, state: State, kind: MoveKind, number: usize) -> &[usize]
        ensures { words_of (words_in self.now) result.now ≡ marks_at (marking_in self.now state) kind number }
    {
        self.list(self.list_of(state, kind, number))
    }

    /// Whether the variable of this number is this one.
    fn is_word(&self, number: usize, word: &Label) -> bool
        ensures { result ≡ has_word (words_of (words_in self.now) (number ∷ [])) word.now }
    {
        match self.words.get_index(number) {
            Some(other) => other == word,
            None => false,
        }
    }

    /// Whether the variable is one of those of a move's list.
    pub fn has(&self, state: State, kind: MoveKind, number: usize, word: &Label) -> bool
        ensures { result ≡ has_word (marks_at (marking_in self.now state) kind number) word.now }
    {
        for mark in self.marks(state, kind, number) {
            if self.is_word(*mark, word) {
                return true;
            }
        }
        false
    }
}
