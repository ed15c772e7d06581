//! The tokens of a text, and the first token that no text goes on with.

ghost use Rattle.std.specs.Prelude.{◌≡◌, ◌<◌, length, true, IfOk, IfErr, MatchOption};
ghost use Rattle.xd_lex.specs.Tokens.{tokens_of};
ghost use Rattle.xd_grammar.specs.Grammar.{BeginsNonterminal};
ghost use Rattle.xd_grammar.specs.Started.{IsStart};
ghost use Rattle.xd_grammar.specs.Text.{IsLexemeFault, SpellsText, terminals_at};
ghost use Rattle.xd_grammar.specs.TextErrors.{IsTextError, is_text};
ghost use Rattle.xd_syntax.specs.Shallow.{nesting_limit};

use crate::grammar::{Nonterminal, Symbol};
use crate::machine::{Machine, Reading, Step, advance};
use crate::text::{TextError, TextFault, terminal};
use std::alloc::Global;
use xd_doc::NoMemory;
use xd_lex::Lexer;

fn start(alloc: Global, part: Nonterminal) -> Result<Machine, NoMemory>
    ensures { IfOk result (λ machine. IsStart part machine.reading machine.depth machine.stack.items) }
{
    let mut stack = Vec::new(alloc);
    stack.push(Symbol::Part(part))?;
    Ok(Machine {
        stack,
        reading: Reading::Plain,
        depth: 0,
    })
}

/// The fault at the first of the lexer's tokens that no text of this nonterminal goes on with.
fn first_fault(
    alloc: Global,
    part: Nonterminal,
    mut lexer: Lexer<'_>,
) -> Result<Option<TextFault>, NoMemory>
    requires { 0 < length lexer }
    ensures { IfOk result (λ found. MatchOption found (BeginsNonterminal nesting_limit part (terminals_at lexer.entry)) (IsLexemeFault part lexer.entry)) }
{
    let mut machine = start(alloc, part)?;
    'tokens: loop {
        let token = lexer.next_token();
        match advance(&mut machine, terminal(token.kind, token.text))? {
            Step::Next(reading) => machine.reading = reading,
            Step::Syntax => return Ok(Some(TextFault::Syntax(token.place))),
            Step::TooDeep => return Ok(Some(TextFault::TooDeep(token.place))),
        }
        if token.kind.is_last() {
            return Ok(None);
        }
    }
}

/// The tokens of a text, where they spell the nonterminal; else the text's first fault. Goes over
/// the tokens once. `TextError::NoMemory` comes where memory is refused.
pub fn spelled_tokens<'a>(
    alloc: Global,
    part: Nonterminal,
    bytes: &'a [u8],
) -> Result<Lexer<'a>, TextError>
    requires { is_text part ≡ true }
    ensures tokens { IfOk result (λ lexer. lexer ≡ tokens_of bytes.now) }
    ensures some { IfOk result (λ lexer. 0 < length lexer) }
    ensures spells { IfOk result (λ lexer. SpellsText part bytes.now) }
    ensures error { IfErr result (IsTextError part bytes.now) }
{
    let lexer = match Lexer::new(bytes) {
        Ok(lexer) => lexer,
        Err(e) => return Err(TextError::Fault(TextFault::NotUtf8(e.place))),
    };
    match first_fault(alloc, part, lexer.fork())? {
        None => Ok(lexer),
        Some(fault) => Err(TextError::Fault(fault)),
    }
}
