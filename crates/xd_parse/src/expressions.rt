//! Expressions from tokens, by recursive descent.
//!
//! The tokens are known to spell what is read. Where no item begins with the next token, any node
//! is answered. A match takes each clause that stands after it, and a name all parentheses, so the
//! innermost match has a `|`.

ghost use Rattle.std.specs.Prelude.{◌≡◌, ◌<◌, ◌≤◌, length, IfOk};
ghost use Rattle.xd_syntax.specs.PlacedTable.{placed_at};
ghost use Rattle.xd_syntax.specs.Patterns.{IsPattern};
ghost use Rattle.xd_syntax.specs.ExpressionTable.{PatternsBelong};
ghost use Rattle.xd_syntax.specs.Exprs.{IsExpr, expression};
ghost use Rattle.xd_grammar.specs.declared.grammar.Nonterminal.TheVariants as nonterminals;
ghost use Rattle.xd_grammar.specs.declared.grammar.Terminal.TheVariants as terminals;
ghost use Rattle.xd_parse_trees.specs.Values.{an_expression, a_clause};
ghost use Rattle.xd_parse_trees.specs.Reading.{Reads, front_terminal};
ghost use Rattle.xd_parse.specs.Grows.{Grows};
ghost use Rattle.xd_parse.specs.Items.{AreItems, expression_of};

use crate::joining::{Items, add_item, in_row, nothing_at, to_expr};
use std::alloc::Global;
use xd_doc::NoMemory;
use xd_grammar::Terminal;
use xd_parse_trees::{Cursor, read_pattern_seq};
use xd_syntax::{Clause, ExprForm, ExprId, Exprs, Patterns};

/// Reads an expression: items with commas between them.
#[cycle(expressions)]
pub fn read_expr(
    alloc: Global,
    cursor: &mut Cursor<'_>,
    patterns: &mut Patterns,
    exprs: &mut Exprs,
) -> Result<ExprId, NoMemory>
    requires { PatternsBelong (length patterns.old) exprs.old }
    ensures reads { IfOk result (λ id. Reads nonterminals.Expr cursor.old cursor.new (an_expression (expression patterns.new exprs.new id))) }
    ensures belongs { IfOk result (IsExpr exprs.new) }
    ensures grows { IfOk result (λ id. Grows patterns.old exprs.old patterns.new exprs.new) }
    ensures left { IfOk result (λ id. length cursor.new ≤ length cursor.old) }
{
    let items = read_items(alloc, cursor, patterns, exprs)?;
    to_expr(exprs, items)
}

/// Reads items with commas between them.
#[cycle(expressions)]
fn read_items(
    alloc: Global,
    cursor: &mut Cursor<'_>,
    patterns: &mut Patterns,
    exprs: &mut Exprs,
) -> Result<Items, NoMemory>
    requires { PatternsBelong (length patterns.old) exprs.old }
    ensures reads { IfOk result (λ items. Reads nonterminals.Expr cursor.old cursor.new (an_expression (expression_of patterns.new exprs.new items))) }
    ensures stand { IfOk result (AreItems exprs.new) }
    ensures grows { IfOk result (λ items. Grows patterns.old exprs.old patterns.new exprs.new) }
    ensures left { IfOk result (λ items. length cursor.new ≤ length cursor.old) }
{
    let mut read = read_item(alloc, cursor, patterns, exprs)?;
    'items: while cursor.at(Terminal::Comma) {
        cursor.step();
        let item = read_item(alloc, cursor, patterns, exprs)?;
        read = in_row(read, item)?;
    }
    Ok(read)
}

/// Reads a text, a variable, a call, an element, a match, or what is in parentheses.
#[cycle(expressions)]
fn read_item(
    alloc: Global,
    cursor: &mut Cursor<'_>,
    patterns: &mut Patterns,
    exprs: &mut Exprs,
) -> Result<Items, NoMemory>
    requires { PatternsBelong (length patterns.old) exprs.old }
    ensures reads { IfOk result (λ items. Reads nonterminals.Item cursor.old cursor.new (an_expression (expression_of patterns.new exprs.new items))) }
    ensures stand { IfOk result (AreItems exprs.new) }
    ensures grows { IfOk result (λ items. Grows patterns.old exprs.old patterns.new exprs.new) }
    ensures left { IfOk result (λ items. length cursor.new ≤ length cursor.old) }
{
    match cursor.peek() {
        Terminal::Text => {
            let quoted = cursor.quoted(alloc)?;
            add_item(alloc, exprs, quoted.place, ExprForm::Text(quoted.text))
        }
        Terminal::Word => read_named(alloc, cursor, patterns, exprs),
        Terminal::Label => read_element(alloc, cursor, patterns, exprs),
        Terminal::Match => read_match(alloc, cursor, patterns, exprs),
        Terminal::ParenL => read_paren(alloc, cursor, patterns, exprs),
        _ => {
            let place = cursor.step();
            Ok(nothing_at(alloc, place))
        }
    }
}

/// Reads a variable, or a call with all the parentheses that stand after its name.
#[cycle(expressions)]
fn read_named(
    alloc: Global,
    cursor: &mut Cursor<'_>,
    patterns: &mut Patterns,
    exprs: &mut Exprs,
) -> Result<Items, NoMemory>
    requires clauses { PatternsBelong (length patterns.old) exprs.old }
    requires next { front_terminal cursor.old ≡ terminals.Word }
    ensures reads { IfOk result (λ items. Reads nonterminals.Item cursor.old cursor.new (an_expression (expression_of patterns.new exprs.new items))) }
    ensures stand { IfOk result (AreItems exprs.new) }
    ensures grows { IfOk result (λ items. Grows patterns.old exprs.old patterns.new exprs.new) }
    ensures left { IfOk result (λ items. length cursor.new < length cursor.old) }
{
    let name = cursor.word(alloc)?;
    let mut arguments = Vec::new(alloc);
    'arguments: while cursor.at(Terminal::ParenL) {
        let argument = read_argument(alloc, cursor, patterns, exprs)?;
        arguments.push(argument)?;
    }
    if arguments.is_empty() {
        add_item(alloc, exprs, name.place, ExprForm::Var(name.word))
    } else {
        add_item(
            alloc,
            exprs,
            name.place,
            ExprForm::Call(name.word, arguments),
        )
    }
}

/// Reads an element. A content that is empty stands at the closing bracket.
#[cycle(expressions)]
fn read_element(
    alloc: Global,
    cursor: &mut Cursor<'_>,
    patterns: &mut Patterns,
    exprs: &mut Exprs,
) -> Result<Items, NoMemory>
    requires clauses { PatternsBelong (length patterns.old) exprs.old }
    requires next { front_terminal cursor.old ≡ terminals.Label }
    ensures reads { IfOk result (λ items. Reads nonterminals.Item cursor.old cursor.new (an_expression (expression_of patterns.new exprs.new items))) }
    ensures stand { IfOk result (AreItems exprs.new) }
    ensures grows { IfOk result (λ items. Grows patterns.old exprs.old patterns.new exprs.new) }
    ensures left { IfOk result (λ items. length cursor.new < length cursor.old) }
{
    let label = cursor.label(alloc)?;
    let content = read_content(alloc, cursor, patterns, exprs)?;
    add_item(
        alloc,
        exprs,
        label.place,
        ExprForm::Elem(label.word, content),
    )
}

/// Reads the content of an element, and the closing bracket. An empty one stands at the bracket.
#[cycle(expressions)]
fn read_content(
    alloc: Global,
    cursor: &mut Cursor<'_>,
    patterns: &mut Patterns,
    exprs: &mut Exprs,
) -> Result<ExprId, NoMemory>
    requires { PatternsBelong (length patterns.old) exprs.old }
    ensures reads { IfOk result (λ id. Reads nonterminals.ExprContent cursor.old cursor.new (an_expression (expression patterns.new exprs.new id))) }
    ensures belongs { IfOk result (IsExpr exprs.new) }
    ensures grows { IfOk result (λ id. Grows patterns.old exprs.old patterns.new exprs.new) }
    ensures left { IfOk result (λ id. length cursor.new ≤ length cursor.old) }
{
    if cursor.at(Terminal::BracketR) {
        let place = cursor.step();
        return exprs.add(place, ExprForm::Empty);
    }
    let content = read_expr(alloc, cursor, patterns, exprs)?;
    cursor.step();
    Ok(content)
}

/// Reads an argument of a call.
#[cycle(expressions)]
fn read_argument(
    alloc: Global,
    cursor: &mut Cursor<'_>,
    patterns: &mut Patterns,
    exprs: &mut Exprs,
) -> Result<ExprId, NoMemory>
    requires clauses { PatternsBelong (length patterns.old) exprs.old }
    requires next { front_terminal cursor.old ≡ terminals.ParenL }
    ensures reads { IfOk result (λ id. Reads nonterminals.Paren cursor.old cursor.new (an_expression (expression patterns.new exprs.new id))) }
    ensures belongs { IfOk result (IsExpr exprs.new) }
    ensures grows { IfOk result (λ id. Grows patterns.old exprs.old patterns.new exprs.new) }
    ensures left { IfOk result (λ id. length cursor.new < length cursor.old) }
{
    let items = read_paren(alloc, cursor, patterns, exprs)?;
    to_expr(exprs, items)
}

/// Reads what is in parentheses. `()` is empty, at its `(`.
#[cycle(expressions)]
fn read_paren(
    alloc: Global,
    cursor: &mut Cursor<'_>,
    patterns: &mut Patterns,
    exprs: &mut Exprs,
) -> Result<Items, NoMemory>
    requires clauses { PatternsBelong (length patterns.old) exprs.old }
    requires next { front_terminal cursor.old ≡ terminals.ParenL }
    ensures reads { IfOk result (λ items. Reads nonterminals.Paren cursor.old cursor.new (an_expression (expression_of patterns.new exprs.new items))) }
    ensures stand { IfOk result (AreItems exprs.new) }
    ensures grows { IfOk result (λ items. Grows patterns.old exprs.old patterns.new exprs.new) }
    ensures left { IfOk result (λ items. length cursor.new < length cursor.old) }
{
    let opening = cursor.step();
    if cursor.at(Terminal::ParenR) {
        cursor.step();
        return Ok(nothing_at(alloc, opening));
    }
    let inner = read_items(alloc, cursor, patterns, exprs)?;
    cursor.step();
    Ok(inner)
}

/// Reads a match with all the clauses that stand after it.
#[cycle(expressions)]
fn read_match(
    alloc: Global,
    cursor: &mut Cursor<'_>,
    patterns: &mut Patterns,
    exprs: &mut Exprs,
) -> Result<Items, NoMemory>
    requires clauses { PatternsBelong (length patterns.old) exprs.old }
    requires next { front_terminal cursor.old ≡ terminals.Match }
    ensures reads { IfOk result (λ items. Reads nonterminals.Item cursor.old cursor.new (an_expression (expression_of patterns.new exprs.new items))) }
    ensures stand { IfOk result (AreItems exprs.new) }
    ensures grows { IfOk result (λ items. Grows patterns.old exprs.old patterns.new exprs.new) }
    ensures left { IfOk result (λ items. length cursor.new < length cursor.old) }
{
    let place = cursor.step();
    let scrutinee = read_expr(alloc, cursor, patterns, exprs)?;
    cursor.step();
    let mut clauses = Vec::new(alloc);
    let first = read_clause(alloc, cursor, patterns, exprs)?;
    clauses.push(first)?;
    'clauses: while cursor.at(Terminal::Bar) {
        cursor.step();
        let clause = read_clause(alloc, cursor, patterns, exprs)?;
        clauses.push(clause)?;
    }
    add_item(alloc, exprs, place, ExprForm::Match(scrutinee, clauses))
}

/// Reads a clause: a pattern, an arrow and a body.
#[cycle(expressions)]
fn read_clause(
    alloc: Global,
    cursor: &mut Cursor<'_>,
    patterns: &mut Patterns,
    exprs: &mut Exprs,
) -> Result<Clause, NoMemory>
    requires { PatternsBelong (length patterns.old) exprs.old }
    ensures reads { IfOk result (λ made. Reads nonterminals.Clause cursor.old cursor.new (a_clause (placed_at patterns.new made.pattern.at) (expression patterns.new exprs.new made.body))) }
    ensures pattern { IfOk result (λ made. IsPattern patterns.new made.pattern) }
    ensures body { IfOk result (λ made. IsExpr exprs.new made.body) }
    ensures grows { IfOk result (λ made. Grows patterns.old exprs.old patterns.new exprs.new) }
    ensures left { IfOk result (λ made. length cursor.new ≤ length cursor.old) }
{
    let pattern = read_pattern_seq(alloc, cursor, patterns)?;
    cursor.step();
    let body = read_expr(alloc, cursor, patterns, exprs)?;
    Ok(Clause { pattern, body })
}
