//! Reads tokens against the grammar, one after the other, by a stack of the symbols that are still
//! to come.
//!
//! The next token settles which rule a symbol takes, but for a `(` in a type or a pattern: it
//! begins the labels of a class, or a type in parentheses. As long as the tokens may be both, the
//! reader keeps both in its `Reading`.

ghost use Rattle.std.specs.Prelude.{◌≡◌, ◌++◌, ◌<◌, ◌≤◌, drop, length, reverse, IfOk, OnOk, MatchOption, None, Some};
ghost use Rattle.xd_grammar.specs.Fits.{same, fits, first_fit, work};
ghost use Rattle.xd_grammar.specs.Grammar.{rules};
ghost use Rattle.xd_grammar.specs.Machine.{main_row, listed_row, course, group_of, Shifts, TurnsOr, Advances, entered, is_keyword, at_name};
ghost use Rattle.xd_grammar.specs.Rows.{rows_now};
ghost use Rattle.xd_grammar.specs.Tests.{without_tests, begins_with_token, behind_token, front_step};
ghost use Rattle.xd_grammar.specs.declared.machine.Reading.TheVariants as readings;

use crate::grammar::{Nonterminal, Sort, Symbol, Terminal, rules};
use xd_doc::NoMemory;
use xd_syntax::NESTING_LIMIT;

/// How the tokens after the last `(` may still be read.
#[derive(Clone, Copy)]
pub enum Reading {
    /// In one way: the stack says all.
    Plain,
    /// As labels or as what is in parentheses, directly after the `(`.
    Opened(Sort),
    /// After one of the words.
    Named(Sort),
    /// After a `|`.
    Barred(Sort),
    /// After the word `val`.
    AfterVal,
    /// After the `)`.
    Shut(Sort),
}

/// Which of the two ways goes on.
#[derive(Clone, Copy)]
pub enum Course {
    Both(Reading),
    Main,
    Listed,
}

/// What a token does.
#[derive(Clone, Copy)]
pub enum Step {
    Next(Reading),
    Syntax,
    TooDeep,
}

/// Whether two terminals are one.
pub fn same(a: Terminal, b: Terminal) -> bool
    ensures { result ≡ same a b }
{
    a as u8 == b as u8
}

/// Whether the first symbols of a row let the token come next.
fn fits(row: &[Symbol], kind: Terminal) -> bool
    ensures { result ≡ fits row.now kind }
{
    for symbol in row {
        match *symbol {
            Symbol::Token(j) | Symbol::Opening(j) => return same(j, kind),
            Symbol::Unless(j) => {
                if same(j, kind) {
                    return false;
                }
            }
            Symbol::Closed | Symbol::Part(_) => return true,
        }
    }
    true
}

fn first_fit(rows: &'static [&'static [Symbol]], kind: Terminal) -> Option<&'static [Symbol]>
    ensures { MatchOption result (first_fit (rows_now rows.now) kind ≡ None) (λ row. first_fit (rows_now rows.now) kind ≡ Some row.now) }
{
    for row in rows {
        if fits(row, kind) {
            return Some(*row);
        }
    }
    None
}

/// Puts a row on the stack, its first symbol on top.
fn push_row(stack: &mut Vec<Symbol>, row: &[Symbol]) -> Result<(), NoMemory>
    ensures { OnOk result (reverse stack.new.items ≡ row.now ++ reverse stack.old.items) }
{
    let mut i = row.len();
    while i > 0 {
        i -= 1;
        stack.push(row[i])?;
    }
    Ok(())
}

/// How many tests stand at the front of a row.
fn tests_len(row: &[Symbol]) -> usize
    ensures within { result ≤ length row.now }
    ensures tests { drop result row.now ≡ without_tests row.now }
{
    let mut len = 0;
    for symbol in row {
        match symbol {
            Symbol::Unless(_) => len += 1,
            _ => return len,
        }
    }
    len
}

fn begins_with_token(row: &[Symbol]) -> bool
    ensures { result ≡ begins_with_token row.now }
{
    match row.first() {
        Some(Symbol::Token(_)) => true,
        _ => false,
    }
}

/// Puts a row on the stack that lets the token come next. Its tests are passed, so they are left
/// out, and if a token is then its first symbol, it is this one, and is taken.
fn push_fit(stack: &mut Vec<Symbol>, row: &[Symbol]) -> Result<Option<Step>, NoMemory>
    ensures step { IfOk result (λ done. done ≡ front_step (without_tests row.now)) }
    ensures stack { OnOk result (reverse stack.new.items ≡ behind_token (without_tests row.now) ++ reverse stack.old.items) }
{
    let rest = &row[tests_len(row)..];
    if begins_with_token(rest) {
        push_row(stack, &rest[1..])?;
        return Ok(Some(Step::Next(Reading::Plain)));
    }
    push_row(stack, rest)?;
    Ok(None)
}

/// What stands in the parentheses where a primary begins with one.
fn group_of(part: Nonterminal, kind: Terminal) -> Option<Sort>
    ensures { result ≡ group_of part kind }
{
    if !same(Terminal::ParenL, kind) {
        return None;
    }
    match part {
        Nonterminal::Prim(sort) => Some(sort),
        _ => None,
    }
}

/// Opens a level of nesting.
fn enter(depth: &mut usize, reading: Reading) -> Step
    ensures { entered depth.old reading result depth.new }
{
    if *depth < NESTING_LIMIT {
        *depth += 1;
        Step::Next(reading)
    } else {
        Step::TooDeep
    }
}

/// Takes the symbol `top` off the stack: what the token does, or nothing where the symbol was no
/// token.
fn turn(
    stack: &mut Vec<Symbol>,
    depth: &mut usize,
    top: Symbol,
    kind: Terminal,
) -> Result<Option<Step>, NoMemory>
    ensures { IfOk result (λ done. TurnsOr done depth.old top (reverse stack.old.items) kind depth.new (reverse stack.new.items)) }
{
    match top {
        Symbol::Token(j) => Ok(Some(if same(j, kind) {
            Step::Next(Reading::Plain)
        } else {
            Step::Syntax
        })),
        Symbol::Opening(j) => Ok(Some(if same(j, kind) {
            enter(depth, Reading::Plain)
        } else {
            Step::Syntax
        })),
        Symbol::Closed => {
            if *depth == 0 {
                return Ok(Some(Step::Syntax));
            }
            *depth -= 1;
            Ok(None)
        }
        Symbol::Unless(j) => Ok(if same(j, kind) {
            Some(Step::Syntax)
        } else {
            None
        }),
        Symbol::Part(part) => match group_of(part, kind) {
            Some(sort) => Ok(Some(enter(depth, Reading::Opened(sort)))),
            None => match first_fit(rules(part), kind) {
                Some(made) => {
                    let done = push_fit(stack, made)?;
                    Ok(done)
                }
                None => Ok(Some(Step::Syntax)),
            },
        },
    }
}

/// What the token does where the stack says all.
fn shift(stack: &mut Vec<Symbol>, depth: &mut usize, kind: Terminal) -> Result<Step, NoMemory>
    ensures { IfOk result (λ step. Shifts depth.old (reverse stack.old.items) kind step depth.new (reverse stack.new.items)) }
{
    'symbols: while let Some(top) = stack.pop() {
        if let Some(step) = turn(stack, depth, top, kind)? {
            return Ok(step);
        }
    }
    Ok(Step::Syntax)
}

/// Whether a word is a keyword.
fn is_keyword(kind: Terminal) -> bool
    ensures { result ≡ is_keyword kind }
{
    matches!(
        kind,
        Terminal::Type
            | Terminal::Fun
            | Terminal::Val
            | Terminal::As
            | Terminal::Match
            | Terminal::With
    )
}

/// Which reading goes on at a word or a keyword.
fn at_name(sort: Sort, kind: Terminal) -> Course
    ensures { result ≡ at_name sort kind }
{
    if same(Terminal::Word, kind) {
        return Course::Both(Reading::Named(sort));
    }
    if !is_keyword(kind) {
        return Course::Main;
    }
    match sort {
        Sort::Type => Course::Listed,
        Sort::Pattern => {
            if same(Terminal::Val, kind) {
                Course::Both(Reading::AfterVal)
            } else {
                Course::Listed
            }
        }
    }
}

/// Which reading goes on.
pub fn course_at(reading: Reading, kind: Terminal) -> Course
    ensures { result ≡ course reading kind }
{
    match reading {
        Reading::Plain => Course::Main,
        Reading::Opened(sort) | Reading::Barred(sort) => at_name(sort, kind),
        Reading::Named(sort) => {
            if same(Terminal::Bar, kind) {
                Course::Both(Reading::Barred(sort))
            } else if same(Terminal::ParenR, kind) {
                Course::Both(Reading::Shut(sort))
            } else {
                Course::Main
            }
        }
        Reading::AfterVal => {
            if same(Terminal::Bar, kind) || same(Terminal::ParenR, kind) {
                Course::Listed
            } else {
                Course::Main
            }
        }
        Reading::Shut(_) => {
            if same(Terminal::BracketL, kind) {
                Course::Listed
            } else {
                Course::Main
            }
        }
    }
}

/// Puts on the stack what is to come where the parentheses hold a type or a pattern.
fn push_main(stack: &mut Vec<Symbol>, reading: Reading) -> Result<(), NoMemory>
    ensures { OnOk result (reverse stack.new.items ≡ main_row reading ++ reverse stack.old.items) }
{
    match reading {
        Reading::Plain => Ok(()),
        Reading::Opened(sort) => push_row(stack, &[Symbol::Part(Nonterminal::Group(sort))]),
        Reading::Named(sort) => push_row(
            stack,
            &[
                Symbol::Part(Nonterminal::Operator),
                Symbol::Part(Nonterminal::MoreParts(sort)),
                Symbol::Part(Nonterminal::MoreBranches(sort)),
                Symbol::Token(Terminal::ParenR),
                Symbol::Closed,
                Symbol::Unless(Terminal::BracketL),
            ],
        ),
        Reading::Barred(sort) => push_row(
            stack,
            &[
                Symbol::Part(Nonterminal::Sequence(sort)),
                Symbol::Part(Nonterminal::MoreBranches(sort)),
                Symbol::Token(Terminal::ParenR),
                Symbol::Closed,
                Symbol::Unless(Terminal::BracketL),
            ],
        ),
        Reading::Shut(_) => push_row(stack, &[Symbol::Closed, Symbol::Unless(Terminal::BracketL)]),
        Reading::AfterVal => push_row(
            stack,
            &[
                Symbol::Token(Terminal::Word),
                Symbol::Part(Nonterminal::Bound),
                Symbol::Part(Nonterminal::MoreParts(Sort::Pattern)),
                Symbol::Part(Nonterminal::MoreBranches(Sort::Pattern)),
                Symbol::Token(Terminal::ParenR),
                Symbol::Closed,
                Symbol::Unless(Terminal::BracketL),
            ],
        ),
    }
}

/// Puts on the stack what is to come after one of the words of a class.
fn push_more_names(stack: &mut Vec<Symbol>, sort: Sort) -> Result<(), NoMemory>
    ensures { OnOk result (reverse stack.new.items ≡ listed_row (readings.Named sort) ++ reverse stack.old.items) }
{
    push_row(
        stack,
        &[
            Symbol::Part(Nonterminal::MoreNames),
            Symbol::Token(Terminal::ParenR),
            Symbol::Closed,
            Symbol::Opening(Terminal::BracketL),
            Symbol::Part(Nonterminal::Content(sort)),
        ],
    )
}

/// Puts on the stack what is to come where the parentheses hold the labels of a class.
fn push_listed(stack: &mut Vec<Symbol>, reading: Reading) -> Result<(), NoMemory>
    ensures { OnOk result (reverse stack.new.items ≡ listed_row reading ++ reverse stack.old.items) }
{
    match reading {
        Reading::Plain => Ok(()),
        Reading::Opened(sort) | Reading::Barred(sort) => {
            push_more_names(stack, sort)?;
            stack.push(Symbol::Part(Nonterminal::AnyWord))?;
            Ok(())
        }
        Reading::Named(sort) => push_more_names(stack, sort),
        Reading::AfterVal => push_more_names(stack, Sort::Pattern),
        Reading::Shut(sort) => push_row(
            stack,
            &[
                Symbol::Closed,
                Symbol::Opening(Terminal::BracketL),
                Symbol::Part(Nonterminal::Content(sort)),
            ],
        ),
    }
}

/// Reads tokens against the grammar.
#[derive(Drop)]
pub struct Machine {
    pub stack: Vec<Symbol>,
    pub reading: Reading,
    pub depth: usize,
}

/// What the next token does. The reading of the `Step` is not put in its place yet. After `Syntax`,
/// `TooDeep` and `NoMemory` the machine has no use.
pub fn advance(machine: &mut Machine, kind: Terminal) -> Result<Step, NoMemory>
    ensures { IfOk result (λ step. Advances machine.old.reading machine.old.depth (reverse machine.old.stack.items) kind step machine.new.depth (reverse machine.new.stack.items)) }
{
    match course_at(machine.reading, kind) {
        Course::Both(next) => Ok(Step::Next(next)),
        Course::Main => {
            push_main(&mut machine.stack, machine.reading)?;
            let step = shift(&mut machine.stack, &mut machine.depth, kind)?;
            Ok(step)
        }
        Course::Listed => {
            push_listed(&mut machine.stack, machine.reading)?;
            let step = shift(&mut machine.stack, &mut machine.depth, kind)?;
            Ok(step)
        }
    }
}
