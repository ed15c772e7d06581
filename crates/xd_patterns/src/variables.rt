//! The variables of a pattern, and lists of them by their numbers.

ghost use Rattle.std.specs.Prelude.{◌≡◌, ◌<◌, ◌≤◌, ◌+◌, ◌++◌, ℕ, Some, length, position, IfOk, OnOk};
ghost use Rattle.std.specs.List.{AllByRecursion};
ghost use Rattle.std.specs.Str.{bytes_eq};
ghost use Rattle.xd_meaning.specs.Bindings.{variables_of};
ghost use Rattle.xd_syntax.specs.Patterns.{IsPattern, pattern_tree};
ghost use Rattle.xd_syntax.specs.PlacedTable.{placed_at};
ghost use Rattle.xd_syntax.specs.Placed.{variables};
ghost use Rattle.xd_patterns.specs.Pieces.{IsBinder, form_at, variable_of};
ghost use Rattle.xd_patterns.specs.Variables.{AreNumbered, numbers_in, with_number, with_position};

use crate::chains::Marks;
use indexmap::IndexSet;
use std::alloc::Global;
use xd_doc::{Label, NoMemory};
use xd_syntax::{FormView, Nodes, PatternForm, PatternId, Patterns};

/// Variables by their numbers, each once.
#[derive(Drop)]
pub(crate) struct Numbers {
    pub list: Vec<usize>,
}

/// Appends the variables of the pattern, one for each occurrence.
fn push_variables(
    patterns: &Patterns,
    id: PatternId,
    found: &mut Vec<Label>,
) -> Result<(), NoMemory>
    requires { IsPattern patterns.now id }
    ensures { OnOk result (found.new.items ≡ found.old.items ++ variables (placed_at patterns.now id.at)) }
{
    let node = patterns.view(id);
    match node.form {
        FormView::Val(word, _, part) => {
            found.push(word.share()?)?;
            push_variables(patterns, part, found)?;
        }
        _ => {
            for part in node.parts {
                push_variables(patterns, *part, found)?;
            }
        }
    }
    Ok(())
}

/// The variables of the pattern in order of first occurrence.
pub(crate) fn variables(
    alloc: Global,
    patterns: &Patterns,
    pattern: PatternId,
) -> Result<IndexSet<Label>, NoMemory>
    requires { IsPattern patterns.now pattern }
    ensures { IfOk result (λ found. found.keys ≡ variables_of (pattern_tree patterns.now pattern)) }
{
    let mut occurrences = Vec::new(alloc);
    push_variables(patterns, pattern, &mut occurrences)?;
    let mut found = IndexSet::new(alloc);
    for word in occurrences.as_slice() {
        found.insert(word.share()?)?;
    }
    Ok(found)
}

/// The same numbers in a list of their own.
fn copied(alloc: Global, numbers: &[usize]) -> Result<Vec<usize>, NoMemory>
    ensures { IfOk result (λ list. list.items ≡ numbers.now) }
{
    let mut list = Vec::with_capacity(alloc, numbers.len())?;
    list.extend_from_slice(numbers)?;
    Ok(list)
}

/// The number of the variable that the node binds, where it is one of these.
fn number_of(patterns: &Patterns, variables: &IndexSet<Label>, node: usize) -> Option<usize>
    requires { IsBinder patterns.now node }
    ensures { result ≡ position (bytes_eq (variable_of (form_at patterns.now node))) variables.now.keys }
{
    let binder = patterns.node(PatternId::of(node));
    match binder.form() {
        PatternForm::Val(variable, _, _) => variables.get_index_of(variable),
        _ => None,
    }
}

/// These numbers, and this one where it isn't among them.
fn with_one(alloc: Global, numbers: &[usize], number: usize) -> Result<Vec<usize>, NoMemory>
    ensures { IfOk result (λ list. list.items ≡ with_position numbers.now (Some number)) }
{
    let mut list = copied(alloc, numbers)?;
    if numbers.contains(&number) {
        return Ok(list);
    }
    list.push(number)?;
    Ok(list)
}

/// These numbers, and that of the variable that the node binds.
fn with_variable(
    alloc: Global,
    patterns: &Patterns,
    variables: &IndexSet<Label>,
    numbers: &[usize],
    node: usize,
) -> Result<Vec<usize>, NoMemory>
    requires { IsBinder patterns.now node }
    ensures { IfOk result (λ list. list.items ≡ with_number variables.now.keys numbers.now (variable_of (form_at patterns.now node))) }
{
    match number_of(patterns, variables, node) {
        Some(number) => with_one(alloc, numbers, number),
        None => copied(alloc, numbers),
    }
}

/// For each list of binders the numbers of their variables, each once.
pub(crate) fn number_lists(
    alloc: Global,
    patterns: &Patterns,
    marks: &Marks,
    variables: &IndexSet<Label>,
) -> Result<Vec<Numbers>, NoMemory>
    requires { AllByRecursion (λ l. IsBinder patterns.now l.item) marks.now }
    ensures { IfOk result (λ lists. AreNumbered patterns.now variables.now.keys marks.now (length marks.now + 1) (numbers_in lists.items)) }
{
    let mut lists = Vec::new(alloc);
    lists.push(Numbers {
        list: Vec::new(alloc),
    })?;
    for done in 0..marks.len() {
        let link = marks.link(done + 1);
        let behind = lists[link.behind].list.as_slice();
        let list = with_variable(alloc, patterns, variables, behind, link.item)?;
        lists.push(Numbers { list })?;
    }
    Ok(lists)
}
