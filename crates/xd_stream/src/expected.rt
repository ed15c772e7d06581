//! What may come next.

ghost use Rattle.std.specs.Prelude.{◌≡◌, ◌||◌, ℕ, List, length, OnOk};
ghost use Rattle.std.specs.List.{list_any};
ghost use Rattle.xd_auto.specs.Automaton.{IsState};
ghost use Rattle.xd_stream.specs.Pairs.{AreStates};
ghost use Rattle.xd_stream.specs.Expecting.{goes_by_label, goes_by_text, pair_goes_by_label, pair_goes_by_text, some_has};

use crate::pairs::Pair;
use xd_auto::{Auto, State};
use xd_doc::{Class, NoMemory, Words};

/// The tokens with which some accepted document goes on from where a stream stands.
#[derive(Debug, Drop)]
pub struct Expected {
    /// A label may come exactly where one of these has it. They may overlap.
    pub labels: Vec<Class>,
    /// A text may come exactly where one of these has it. They may overlap.
    pub texts: Vec<Words>,
    pub comma: bool,
    /// Whether `]` may come.
    pub bracket_r: bool,
    /// Whether the `(` of `()` may come.
    pub paren_l: bool,
    /// Whether its `)` may come.
    pub paren_r: bool,
    /// Whether the document may end here.
    pub end: bool,
}

/// Adds the classes of the labels that a state goes on with.
fn add_labels(
    auto: &Auto,
    marks: &[bool],
    state: State,
    into: &mut Vec<Class>,
) -> Result<(), NoMemory>
    requires state { IsState auto.now state }
    requires marks { length marks.now ≡ length auto.now }
    ensures { OnOk result ((l : List ℕ) → some_has into.new.items l ≡ (some_has into.old.items l || goes_by_label auto.now marks.now l state)) }
{
    for step in auto.label_moves(state) {
        if marks[step.content.number()] && marks[step.rest.number()] {
            into.push(step.class.share()?)?;
        }
    }
    Ok(())
}

/// Adds the classes of the texts that a state goes on with.
fn add_texts(
    auto: &Auto,
    marks: &[bool],
    state: State,
    into: &mut Vec<Words>,
) -> Result<(), NoMemory>
    requires state { IsState auto.now state }
    requires marks { length marks.now ≡ length auto.now }
    ensures { OnOk result ((t : List ℕ) → some_has into.new.items t ≡ (some_has into.old.items t || goes_by_text auto.now marks.now t state)) }
{
    for step in auto.text_moves(state) {
        if marks[step.rest.number()] {
            into.push(step.words.share()?)?;
        }
    }
    Ok(())
}

/// Adds the classes of the labels that the pairs go on with.
pub fn add_pair_labels(
    auto: &Auto,
    marks: &[bool],
    now: &[Pair],
    into: &mut Vec<Class>,
) -> Result<(), NoMemory>
    requires states { AreStates auto.now now.now }
    requires marks { length marks.now ≡ length auto.now }
    ensures { OnOk result ((l : List ℕ) → some_has into.new.items l ≡ (some_has into.old.items l || list_any (pair_goes_by_label auto.now marks.now l) now.now)) }
{
    for pair in now {
        add_labels(auto, marks, pair.present, into)?;
    }
    Ok(())
}

/// Adds the classes of the texts that the pairs go on with.
pub fn add_pair_texts(
    auto: &Auto,
    marks: &[bool],
    now: &[Pair],
    into: &mut Vec<Words>,
) -> Result<(), NoMemory>
    requires states { AreStates auto.now now.now }
    requires marks { length marks.now ≡ length auto.now }
    ensures { OnOk result ((t : List ℕ) → some_has into.new.items t ≡ (some_has into.old.items t || list_any (pair_goes_by_text auto.now marks.now t) now.now)) }
{
    for pair in now {
        add_texts(auto, marks, pair.present, into)?;
    }
    Ok(())
}
