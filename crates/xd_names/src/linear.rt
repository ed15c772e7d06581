//! Variables of patterns, and the occurrences that aren't linear.

ghost use Rattle.std.specs.Prelude.{◌≡◌, ◌<◌, ◌≤◌, ℕ, false, not, ◌&&◌, ◌||◌, ◌++◌, ◌∷◌, [], List, length, flat_map, IfOk, OnOk};
ghost use Rattle.std.specs.List.{list_all, AllByRecursion};
ghost use Rattle.std.specs.Str.{bytes_eq};
ghost use Rattle.xd_syntax.specs.Words.{has_word};
ghost use Rattle.xd_syntax.specs.Patterns.{IsPattern, pattern_numbers};
ghost use Rattle.xd_syntax.specs.PlacedTable.{placed_at};
ghost use Rattle.xd_syntax.specs.Placed.{variables};
ghost use Rattle.xd_syntax.specs.NameFaults.{fault_if};
ghost use Rattle.xd_syntax.specs.NotLinear.{not_linear};
ghost use Rattle.xd_syntax.specs.declared.fault.FaultKind.TheVariants.{NotLinear};

use crate::scope::Scope;
use crate::words::Words;
use std::alloc::Global;
use xd_base::Place;
use xd_doc::{Label, NoMemory};
use xd_syntax::{Fault, FaultKind, FormView, Nodes, PatternId, Patterns};

/// Appends the variables of the pattern, one for each occurrence.
pub(crate) fn push_variables(
    patterns: &Patterns,
    id: PatternId,
    found: &mut Vec<Label>,
) -> Result<(), NoMemory>
    requires { IsPattern patterns.now id }
    ensures { OnOk result (found.new.items ≡ found.old.items ++ variables (placed_at patterns.now id.at)) }
{
    let node = patterns.view(id);
    match node.form {
        FormView::Val(word, _, part) => {
            found.push(word.share()?)?;
            push_variables(patterns, part, found)?;
        }
        _ => {
            for part in node.parts {
                push_variables(patterns, *part, found)?;
            }
        }
    }
    Ok(())
}

/// Appends the variables of each of the patterns in turn.
fn push_each(
    patterns: &Patterns,
    parts: &[PatternId],
    found: &mut Vec<Label>,
) -> Result<(), NoMemory>
    requires { AllByRecursion (λ i. i < length patterns.now) (pattern_numbers parts.now) }
    ensures { OnOk result (found.new.items ≡ found.old.items ++ flat_map (λ i. variables (placed_at patterns.now i)) (pattern_numbers parts.now)) }
{
    for part in parts {
        push_variables(patterns, *part, found)?;
    }
    Ok(())
}

/// The words that are among these and in the set.
fn kept(alloc: Global, words: &[Label], among: &Words) -> Result<Words, NoMemory>
    ensures { IfOk result (λ made. (w : List ℕ) → has_word made w ≡ (has_word among.now w && has_word words.now w)) }
{
    let mut made = Words::new(alloc);
    for word in words {
        if among.has(word) {
            made.add(word)?;
        }
    }
    Ok(made)
}

fn words_of(alloc: Global, words: &[Label]) -> Result<Words, NoMemory>
    ensures { IfOk result (λ made. (w : List ℕ) → has_word made w ≡ has_word words.now w) }
{
    let mut made = Words::new(alloc);
    for word in words {
        made.add(word)?;
    }
    Ok(made)
}

/// Those of the words that each of the branches has as a variable.
fn in_each(
    alloc: Global,
    patterns: &Patterns,
    branches: &[PatternId],
    words: &[Label],
) -> Result<Words, NoMemory>
    requires { AllByRecursion (λ i. i < length patterns.now) (pattern_numbers branches.now) }
    ensures { IfOk result (λ made. (w : List ℕ) → has_word made w ≡ (list_all (λ i. has_word (variables (placed_at patterns.now i)) w) (pattern_numbers branches.now) && has_word words.now w)) }
{
    let mut common = words_of(alloc, words)?;
    for branch in branches {
        common = in_this(alloc, patterns, *branch, &common)?;
    }
    Ok(common)
}

/// Those of the words that the branch has as a variable.
fn in_this(
    alloc: Global,
    patterns: &Patterns,
    branch: PatternId,
    words: &Words,
) -> Result<Words, NoMemory>
    requires { IsPattern patterns.now branch }
    ensures { IfOk result (λ made. (w : List ℕ) → has_word made w ≡ (has_word words.now w && has_word (variables (placed_at patterns.now branch.at)) w)) }
{
    let mut variables = Vec::new(alloc);
    push_variables(patterns, branch, &mut variables)?;
    kept(alloc, &variables, words)
}

/// Adds the words that the set lacks.
fn add_lacking(words: &[Label], common: &Words, partial: &mut Words) -> Result<(), NoMemory>
    ensures { OnOk result ((w : List ℕ) → has_word partial.new w ≡ (has_word partial.old w || (not (has_word common.now w) && has_word words.now w))) }
{
    for word in words {
        if !common.has(word) {
            partial.add(word)?;
        }
    }
    Ok(())
}

/// More variables in scope.
pub(crate) fn push_all(words: &[Label], scope: &mut Scope) -> Result<(), NoMemory>
    ensures { OnOk result (scope.new ≡ scope.old ++ words.now) }
{
    for word in words {
        scope.push(word)?;
    }
    Ok(())
}

/// An occurrence of a variable, with a fault where it isn't linear.
fn occur(
    word: &Label,
    place: Place,
    repeated: bool,
    earlier: &mut Scope,
    partial: &mut Words,
    faults: &mut Vec<Fault>,
) -> Result<(), NoMemory>
    ensures earlier { OnOk result (earlier.new ≡ earlier.old ++ word.now ∷ []) }
    ensures partial { OnOk result ((w : List ℕ) → has_word partial.new w ≡ (not (bytes_eq word.now w) && has_word partial.old w)) }
    ensures faults { OnOk result (faults.new.items ≡ faults.old.items ++ fault_if (repeated || (has_word earlier.old word.now || has_word partial.old word.now)) place (NotLinear word.now)) }
{
    if repeated || earlier.has(word) || partial.has(word) {
        faults.push(Fault {
            place: Some(place),
            kind: FaultKind::NotLinear(word.share()?),
        })?;
    }
    earlier.push(word)?;
    partial.remove(word);
    Ok(())
}

/// Adds the variables that some of the branches lacks, and gives all of theirs.
fn enter(
    alloc: Global,
    patterns: &Patterns,
    branches: &[PatternId],
    partial: &mut Words,
) -> Result<Vec<Label>, NoMemory>
    requires { AllByRecursion (λ i. i < length patterns.now) (pattern_numbers branches.now) }
    ensures variables { IfOk result (λ words. words.items ≡ flat_map (λ i. variables (placed_at patterns.now i)) (pattern_numbers branches.now)) }
    ensures partial { OnOk result ((w : List ℕ) → has_word partial.new w ≡ (has_word partial.old w || (not (list_all (λ i. has_word (variables (placed_at patterns.now i)) w) (pattern_numbers branches.now)) && has_word (flat_map (λ i. variables (placed_at patterns.now i)) (pattern_numbers branches.now)) w))) }
{
    let mut words = Vec::new(alloc);
    push_each(patterns, branches, &mut words)?;
    add_partial(alloc, patterns, branches, &words, partial)?;
    Ok(words)
}

/// Adds those of the words that some of the branches lacks as a variable.
fn add_partial(
    alloc: Global,
    patterns: &Patterns,
    branches: &[PatternId],
    words: &[Label],
    partial: &mut Words,
) -> Result<(), NoMemory>
    requires { AllByRecursion (λ i. i < length patterns.now) (pattern_numbers branches.now) }
    ensures { OnOk result ((w : List ℕ) → has_word partial.new w ≡ (has_word partial.old w || (not (list_all (λ i. has_word (variables (placed_at patterns.now i)) w) (pattern_numbers branches.now)) && has_word words.now w))) }
{
    let common = in_each(alloc, patterns, branches, words)?;
    add_lacking(words, &common, partial)
}

/// One more fault for each occurrence of a variable that isn't linear.
///
/// `repeated`: a repetition or an option stands around. `earlier`: the variables that occurred
/// before and not in another branch of an alternative around both; those of the pattern are added.
/// `partial`: the variables that some branch of an alternative around lacks and that have not
/// occurred in it; those of the pattern are taken out.
pub(crate) fn not_linear(
    alloc: Global,
    patterns: &Patterns,
    id: PatternId,
    repeated: bool,
    earlier: &mut Scope,
    partial: &mut Words,
    faults: &mut Vec<Fault>,
) -> Result<(), NoMemory>
    requires { IsPattern patterns.now id }
    ensures earlier { OnOk result (earlier.new ≡ earlier.old ++ variables (placed_at patterns.now id.at)) }
    ensures partial { OnOk result ((w : List ℕ) → has_word partial.new w ≡ (not (has_word (variables (placed_at patterns.now id.at)) w) && has_word partial.old w)) }
    ensures faults { OnOk result (faults.new.items ≡ faults.old.items ++ not_linear repeated earlier.old partial.old false (placed_at patterns.now id.at)) }
{
    match patterns.view(id).form {
        FormView::Empty | FormView::Text | FormView::Words(_) | FormView::Name(_) => {}
        FormView::Elem(_, part) => {
            not_linear(alloc, patterns, part, repeated, earlier, partial, faults)?;
        }
        FormView::Star(part) | FormView::Plus(part) | FormView::Opt(part) => {
            not_linear(alloc, patterns, part, true, earlier, partial, faults)?;
        }
        FormView::Val(word, place, part) => {
            occur(word, place, repeated, earlier, partial, faults)?;
            not_linear(alloc, patterns, part, repeated, earlier, partial, faults)?;
        }
        FormView::Seq(parts) => {
            for part in parts {
                not_linear(alloc, patterns, *part, repeated, earlier, partial, faults)?;
            }
        }
        FormView::Alt(branches) => {
            let before = earlier.len();
            let words = enter(alloc, patterns, branches, partial)?;
            for branch in branches {
                not_linear(alloc, patterns, *branch, repeated, earlier, partial, faults)?;
                earlier.truncate(before);
            }
            push_all(&words, earlier)?;
        }
    }
    Ok(())
}
