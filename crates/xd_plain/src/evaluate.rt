//! The meaning of an expression on fuel.

ghost use Rattle.std.specs.Prelude.{◌≡◌, ◌∷◌, [], ◌++◌, map, IfOk, IfErr};
ghost use Rattle.std.specs.Option.{option_copied};
ghost use Rattle.xd_doc.specs.Document.{join};
ghost use Rattle.xd_syntax.specs.Words.{main_word};
ghost use Rattle.xd_syntax.specs.PlacedTable.{the_start};
ghost use Rattle.xd_syntax.specs.Expression.{Tagged, Joined, Called, Matched};
ghost use Rattle.xd_syntax.specs.Program.{names_of};
ghost use Rattle.xd_syntax.specs.RecursionFaults.{IsSound};
ghost use Rattle.xd_meaning.specs.Meaning as on_fuel;
ghost use Rattle.xd_plain.specs.PlainDocuments.{document_of};
ghost use Rattle.xd_plain.specs.PlainTrees.{map_option};
ghost use Rattle.xd_plain.specs.PlainWays.{bindings_of};
ghost use Rattle.xd_plain.specs.PlainPrograms.{parameter_of, expression_of, arguments_of, clauses_of, program_of, AnyIsFirst};
ghost use Rattle.xd_plain.specs.PlainMeaning.{IsWithout, IsAnswer, AreAnswers, IsSettledWithin, value_with, meaning_with, documents_of, matches_of, value_of, values_of, chosen_of};
ghost use Rattle.xd_plain.specs.declared.evaluate.NoValue.TheVariants.{NoMemory as OutOfMemory};

use crate::document::PlainDocument;
use crate::program::{
    PlainArguments, PlainClauses, PlainExpression, PlainParameter, PlainProgram, function_named,
};
use crate::ways::{PlainBinding, first_within, push_binding, push_bindings};
use std::alloc::Global;
use xd_doc::{Label, NoMemory};

/// A value, and the calls that are left.
#[derive(Drop)]
pub struct Valued {
    pub document: PlainDocument,
    pub left: u64,
}

/// The values of arguments, and the calls that are left.
#[derive(Drop)]
struct AllValued {
    documents: Vec<PlainDocument>,
    left: u64,
}

/// A program that is run, and how many names each of its matches may unfold.
#[derive(Clone, Copy)]
struct Run<'a> {
    program: &'a PlainProgram,
    unfoldings: u64,
}

/// Why there is no value.
#[derive(Clone, Copy, Debug, PartialEq, Eq)]
pub enum NoValue {
    /// More calls are needed.
    Spent,
    /// No clause takes the document, or nothing has the name.
    Stuck,
    NoMemory,
}

impl From<NoMemory> for NoValue {
    ghost from_gives = { λ _ e. e ≡ OutOfMemory };

    fn from(_error: NoMemory) -> Self {
        Self::NoMemory
    }
}

/// The value of an expression with so many calls left, where variables have these documents, the
/// newest first, and a match may unfold names so many times.
///
/// In a sound program a match needs no more unfoldings than its document's size plus one times the
/// number of definitions plus one, `Any` among them. Besides `Spent` and `Stuck` it fails only
/// where memory is refused.
pub fn value(
    alloc: Global,
    program: &PlainProgram,
    unfoldings: u64,
    calls: u64,
    variables: &[PlainBinding],
    expression: &PlainExpression,
) -> Result<Valued, NoValue>
    requires { AnyIsFirst program.now }
    ensures done { IfOk result (λ valued. value_with (matches_of program.now unfoldings) (program_of program.now) calls (bindings_of variables.now) (expression_of expression.now) ≡ on_fuel.Done (document_of valued.document) valued.left) }
    ensures ended { IfErr result (λ why. IsWithout why (value_with (matches_of program.now unfoldings) (program_of program.now) calls (bindings_of variables.now) (expression_of expression.now))) }
    ensures enough { IsSound (program_of program.now) → IsSettledWithin (names_of (program_of program.now)) unfoldings (λ matches. value_with matches (program_of program.now) calls (bindings_of variables.now) (expression_of expression.now)) → IsAnswer result (on_fuel.value (program_of program.now) calls (bindings_of variables.now) (expression_of expression.now)) }
{
    let run = Run {
        program,
        unfoldings,
    };
    value_within(alloc, run, calls, calls, variables, expression)
}

/// The value of the call of `main` on a document, with so many calls left and so many unfoldings in
/// a match, as for `value`. Besides `Spent` and `Stuck` it fails only where memory is refused.
pub fn meaning(
    alloc: Global,
    program: &PlainProgram,
    unfoldings: u64,
    calls: u64,
    document: PlainDocument,
) -> Result<Valued, NoValue>
    requires { AnyIsFirst program.now }
    ensures done { IfOk result (λ valued. meaning_with (matches_of program.now unfoldings) (program_of program.now) calls (document_of document) ≡ on_fuel.Done (document_of valued.document) valued.left) }
    ensures ended { IfErr result (λ why. IsWithout why (meaning_with (matches_of program.now unfoldings) (program_of program.now) calls (document_of document))) }
    ensures enough { IsSound (program_of program.now) → IsSettledWithin (names_of (program_of program.now)) unfoldings (λ matches. meaning_with matches (program_of program.now) calls (document_of document)) → IsAnswer result (on_fuel.meaning (program_of program.now) calls (document_of document)) }
{
    let main = Label::new(alloc, "main")?;
    let documents = in_front(alloc, document, Vec::new(alloc))?;
    let run = Run {
        program,
        unfoldings,
    };
    call_within(alloc, run, calls, calls, &main, &documents)
}

/// The value of an expression, where calls stand within one another at most so deep.
#[cycle(value)]
fn value_within(
    alloc: Global,
    run: Run<'_>,
    deep: u64,
    calls: u64,
    variables: &[PlainBinding],
    expression: &PlainExpression,
) -> Result<Valued, NoValue>
    requires { AnyIsFirst run.program.now }
    ensures { IsAnswer result (value_of run.entry.program.now run.entry.unfoldings deep calls variables.now (expression_of expression.now)) }
{
    match expression {
        PlainExpression::Empty => Ok(Valued {
            document: PlainDocument::Empty,
            left: calls,
        }),
        PlainExpression::Text(text) => {
            let document = PlainDocument::with_text(alloc, text, PlainDocument::Empty)?;
            Ok(Valued {
                document,
                left: calls,
            })
        }
        PlainExpression::Variable(name) => {
            let Some(found) = document_bound(variables, name) else {
                return Err(NoValue::Stuck);
            };
            let document = found.copy(alloc)?;
            Ok(Valued {
                document,
                left: calls,
            })
        }
        PlainExpression::Elem(label, content) => tagged_within(
            alloc, run, deep, calls, variables, label, content,
        ),
        PlainExpression::Seq(first, rest) => joined_within(
            alloc, run, deep, calls, variables, first, rest,
        ),
        PlainExpression::Call(function, arguments) => called_within(
            alloc, run, deep, calls, variables, function, arguments,
        ),
        PlainExpression::Match(scrutinee, clauses) => matched_within(
            alloc, run, deep, calls, variables, scrutinee, clauses,
        ),
    }
}

/// An element around the content's value.
#[cycle(value)]
fn tagged_within(
    alloc: Global,
    run: Run<'_>,
    deep: u64,
    calls: u64,
    variables: &[PlainBinding],
    label: &Label,
    content: &PlainExpression,
) -> Result<Valued, NoValue>
    requires { AnyIsFirst run.program.now }
    ensures { IsAnswer result (value_of run.entry.program.now run.entry.unfoldings deep calls variables.now (Tagged the_start label.now (expression_of content.now))) }
{
    let content = value_within(alloc, run, deep, calls, variables, content)?;
    let document = PlainDocument::with_element(
        alloc,
        label,
        content.document,
        PlainDocument::Empty,
    )?;
    Ok(Valued {
        document,
        left: content.left,
    })
}

/// The one's value, followed by the other's.
#[cycle(value)]
fn joined_within(
    alloc: Global,
    run: Run<'_>,
    deep: u64,
    calls: u64,
    variables: &[PlainBinding],
    first: &PlainExpression,
    rest: &PlainExpression,
) -> Result<Valued, NoValue>
    requires { AnyIsFirst run.program.now }
    ensures { IsAnswer result (value_of run.entry.program.now run.entry.unfoldings deep calls variables.now (Joined the_start (expression_of first.now) (expression_of rest.now))) }
{
    let front = value_within(alloc, run, deep, calls, variables, first)?;
    let back = value_within(alloc, run, deep, front.left, variables, rest)?;
    joined(alloc, &front, &back)
}

/// The one, followed by the other.
fn joined(alloc: Global, front: &Valued, back: &Valued) -> Result<Valued, NoValue>
    ensures { IsAnswer result (on_fuel.Done (join (document_of front.now.document) (document_of back.now.document)) back.now.left) }
{
    let document = front.document.followed_by(alloc, &back.document)?;
    Ok(Valued {
        document,
        left: back.left,
    })
}

/// The value of the function's call on the arguments' values.
#[cycle(value)]
fn called_within(
    alloc: Global,
    run: Run<'_>,
    deep: u64,
    calls: u64,
    variables: &[PlainBinding],
    function: &Label,
    arguments: &PlainArguments,
) -> Result<Valued, NoValue>
    requires { AnyIsFirst run.program.now }
    ensures { IsAnswer result (value_of run.entry.program.now run.entry.unfoldings deep calls variables.now (Called the_start function.now (arguments_of arguments.now))) }
{
    let given = values_within(alloc, run, deep, calls, variables, arguments)?;
    let documents = &given.documents;
    call_within(alloc, run, deep, given.left, function, documents)
}

/// The value of the clause that takes the scrutinee's value.
#[cycle(value)]
fn matched_within(
    alloc: Global,
    run: Run<'_>,
    deep: u64,
    calls: u64,
    variables: &[PlainBinding],
    scrutinee: &PlainExpression,
    clauses: &PlainClauses,
) -> Result<Valued, NoValue>
    requires { AnyIsFirst run.program.now }
    ensures { IsAnswer result (value_of run.entry.program.now run.entry.unfoldings deep calls variables.now (Matched the_start (expression_of scrutinee.now) (clauses_of clauses.now))) }
{
    let matched = value_within(alloc, run, deep, calls, variables, scrutinee)?;
    let document = &matched.document;
    chosen_within(alloc, run, deep, matched.left, variables, document, clauses)
}

/// The values of arguments, from left to right.
#[cycle(value)]
fn values_within(
    alloc: Global,
    run: Run<'_>,
    deep: u64,
    calls: u64,
    variables: &[PlainBinding],
    arguments: &PlainArguments,
) -> Result<AllValued, NoValue>
    requires { AnyIsFirst run.program.now }
    ensures { AreAnswers result (values_of run.entry.program.now run.entry.unfoldings deep calls variables.now (arguments_of arguments.now)) }
{
    match arguments {
        PlainArguments::NoArgument => Ok(AllValued {
            documents: Vec::new(alloc),
            left: calls,
        }),
        PlainArguments::Argument(first, others) => {
            let first = value_within(alloc, run, deep, calls, variables, first)?;
            let others = values_within(alloc, run, deep, first.left, variables, others)?;
            let documents = in_front(alloc, first.document, others.documents)?;
            Ok(AllValued {
                documents,
                left: others.left,
            })
        }
    }
}

/// The value of the first clause whose pattern takes the document.
#[cycle(value)]
fn chosen_within(
    alloc: Global,
    run: Run<'_>,
    deep: u64,
    calls: u64,
    variables: &[PlainBinding],
    document: &PlainDocument,
    clauses: &PlainClauses,
) -> Result<Valued, NoValue>
    requires { AnyIsFirst run.program.now }
    ensures { IsAnswer result (chosen_of run.entry.program.now run.entry.unfoldings deep calls variables.now (document_of document.now) (clauses_of clauses.now)) }
{
    match clauses {
        PlainClauses::NoClause => Err(NoValue::Stuck),
        PlainClauses::Clause(pattern, body, others) => {
            match first_within(
                alloc,
                &run.program.definitions,
                run.unfoldings,
                pattern,
                document,
            )? {
                None => chosen_within(alloc, run, deep, calls, variables, document, others),
                Some(bindings) => {
                    let inner = with_outer(alloc, bindings, variables)?;
                    value_within(alloc, run, deep, calls, &inner, body)
                }
            }
        }
    }
}

/// The value of the function's body, with one call fewer.
#[cycle(value)]
fn call_within(
    alloc: Global,
    run: Run<'_>,
    deep: u64,
    calls: u64,
    name: &Label,
    documents: &[PlainDocument],
) -> Result<Valued, NoValue>
    requires { AnyIsFirst run.program.now }
    ensures { IsAnswer result (on_fuel.call_within (matches_of run.entry.program.now run.entry.unfoldings) (program_of run.entry.program.now) deep calls name.now (documents_of documents.now)) }
{
    if deep == 0 {
        return Err(NoValue::Spent);
    }
    if calls == 0 {
        return Err(NoValue::Spent);
    }
    let Some(function) = function_named(&run.program.functions, name) else {
        return Err(NoValue::Stuck);
    };
    let variables = parameters_bound(alloc, &function.parameters, documents)?;
    value_within(alloc, run, deep - 1, calls - 1, &variables, &function.body)
}

/// What the newest variable of this name has.
fn document_bound<'a>(variables: &'a [PlainBinding], name: &Label) -> Option<&'a PlainDocument>
    ensures { map_option document_of (option_copied result) ≡ on_fuel.looked_up (bindings_of variables.now) name.now }
{
    for binding in variables {
        if binding.variable.as_str() == name.as_str() {
            return Some(&binding.document);
        }
    }
    None
}

/// The parameters, each with its document.
fn parameters_bound(
    alloc: Global,
    parameters: &[PlainParameter],
    documents: &[PlainDocument],
) -> Result<Vec<PlainBinding>, NoMemory>
    ensures { IfOk result (λ made. bindings_of made.items ≡ on_fuel.bound (map parameter_of parameters.now) (documents_of documents.now)) }
{
    let mut made = Vec::new(alloc);
    let mut left = documents;
    for parameter in parameters {
        let Some((document, others)) = left.split_first() else {
            return Ok(made);
        };
        push_binding(alloc, &mut made, &parameter.name, document)?;
        left = others;
    }
    Ok(made)
}

/// The bindings, and the outer ones after them.
fn with_outer(
    alloc: Global,
    bindings: Vec<PlainBinding>,
    outer: &[PlainBinding],
) -> Result<Vec<PlainBinding>, NoMemory>
    ensures { IfOk result (λ made. bindings_of made.items ≡ bindings_of bindings.items ++ bindings_of outer.now) }
{
    let mut made = bindings;
    push_bindings(alloc, &mut made, outer)?;
    Ok(made)
}

fn in_front(
    alloc: Global,
    first: PlainDocument,
    others: Vec<PlainDocument>,
) -> Result<Vec<PlainDocument>, NoMemory>
    ensures { IfOk result (λ made. made.items ≡ first ∷ others.items) }
{
    let mut made = Vec::new(alloc);
    made.push(first)?;
    let mut others = others;
    made.append(&mut others)?;
    Ok(made)
}
