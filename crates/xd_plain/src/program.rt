//! Expressions and programs as trees of boxes.

ghost use Rattle.std.specs.Prelude.{◌≡◌, map, IfOk};
ghost use Rattle.std.specs.Option.{option_copied};
ghost use Rattle.xd_syntax.specs.Tree.{environment, any_type};
ghost use Rattle.xd_syntax.specs.Words.{any_word};
ghost use Rattle.xd_syntax.specs.Program.{function_of};
ghost use Rattle.xd_plain.specs.PlainTrees.{tree_of, definitions_of, map_option};
ghost use Rattle.xd_plain.specs.PlainPrograms.{function_definition_of, AnyIsFirst};

use crate::tree::{PlainDefinition, PlainTree};
use std::alloc::Global;
use xd_doc::{Class, Label, NoMemory, Text};

/// An expression.
#[derive(Drop)]
#[cycle(expressions)]
pub enum PlainExpression {
    Empty,
    Text(Text),
    Variable(Label),
    Elem(Label, Box<PlainExpression>),
    Seq(Box<PlainExpression>, Box<PlainExpression>),
    /// The function's name and the arguments.
    Call(Label, Box<PlainArguments>),
    /// What is matched, and the clauses.
    Match(Box<PlainExpression>, Box<PlainClauses>),
}

/// The arguments of a call: the first, and those after it.
#[derive(Drop)]
#[cycle(expressions)]
pub enum PlainArguments {
    NoArgument,
    Argument(Box<PlainExpression>, Box<PlainArguments>),
}

/// The clauses of a match: the first one's pattern and body, and those after it.
#[derive(Drop)]
#[cycle(expressions)]
pub enum PlainClauses {
    NoClause,
    Clause(PlainTree, Box<PlainExpression>, Box<PlainClauses>),
}

/// A parameter and its type.
#[derive(Drop)]
pub struct PlainParameter {
    pub name: Label,
    pub declared: PlainTree,
}

/// A function.
#[derive(Drop)]
pub struct PlainFunction {
    pub name: Label,
    pub parameters: Vec<PlainParameter>,
    pub declared: PlainTree,
    pub body: PlainExpression,
}

/// A program, with the definition of `Any` before its own.
#[derive(Drop)]
pub struct PlainProgram {
    pub definitions: Vec<PlainDefinition>,
    pub functions: Vec<PlainFunction>,
}

impl PlainProgram {
    /// The program of these definitions and functions. Fails only where memory is refused.
    pub fn new(
        alloc: Global,
        definitions: Vec<PlainDefinition>,
        functions: Vec<PlainFunction>,
    ) -> Result<PlainProgram, NoMemory>
        ensures definitions { IfOk result (λ made. definitions_of made.definitions.items ≡ environment (definitions_of definitions.items)) }
        ensures any_first { IfOk result AnyIsFirst }
        ensures functions { IfOk result (λ made. made.functions ≡ functions) }
    {
        let mut all = Vec::new(alloc);
        all.push(definition_of_any(alloc)?)?;
        let mut definitions = definitions;
        all.append(&mut definitions)?;
        Ok(PlainProgram {
            definitions: all,
            functions,
        })
    }
}

/// `Any = (~[Any]|String)*`.
fn definition_of_any(alloc: Global) -> Result<PlainDefinition, NoMemory>
    ensures { IfOk result (λ any. (any.name ≡ any_word) × (tree_of any.body ≡ any_type)) }
{
    let labels = Class::new(alloc, Vec::new(alloc), true)?;
    let content = Box::new(alloc, PlainTree::Name(Label::new(alloc, "Any")?))?;
    let element = Box::new(alloc, PlainTree::Elem(labels, content))?;
    let text = Box::new(alloc, PlainTree::Text)?;
    let item = Box::new(alloc, PlainTree::Alt(element, text))?;
    Ok(PlainDefinition {
        name: Label::new(alloc, "Any")?,
        body: PlainTree::Star(item),
    })
}

/// The first function of this name.
pub fn function_named<'a>(functions: &'a [PlainFunction], name: &Label) -> Option<&'a PlainFunction>
    ensures { map_option function_definition_of (option_copied result) ≡ function_of (map function_definition_of functions.now) name.now }
{
    for function in functions {
        if function.name.as_str() == name.as_str() {
            return Some(function);
        }
    }
    None
}
