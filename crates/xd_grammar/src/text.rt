//! What tokens are to the grammar, and what may be wrong with a text.

ghost use Rattle.std.specs.Prelude.{◌≡◌};
ghost use Rattle.xd_grammar.specs.Text.{word_terminal, kind_terminal};
ghost use Rattle.xd_grammar.specs.declared.text.TextError.TheVariants as errors;

use crate::grammar::Terminal;
use xd_base::Place;
use xd_doc::NoMemory;
use xd_lex::Kind;

/// Why a text is no program, or no type, and where.
#[derive(Clone, Copy, Debug, PartialEq, Eq)]
pub enum TextFault {
    /// It is not UTF-8; the place is the one after its longest front that is.
    NotUtf8(Place),
    /// No text goes on with the token at this place.
    Syntax(Place),
    /// The token at this place opens the level 257 of nesting.
    TooDeep(Place),
}

/// Why no text of a nonterminal was found.
#[derive(Debug, Drop)]
pub enum TextError {
    /// The text is none.
    Fault(TextFault),
    /// There was not enough memory.
    NoMemory,
}

impl From<NoMemory> for TextError {
    ghost from_gives = { λ _ e. e ≡ errors.NoMemory };

    fn from(_: NoMemory) -> Self {
        Self::NoMemory
    }
}

/// What a word is to the grammar.
fn word_terminal(word: &str) -> Terminal
    ensures { result ≡ word_terminal word.now }
{
    if word == "type" {
        Terminal::Type
    } else if word == "fun" {
        Terminal::Fun
    } else if word == "val" {
        Terminal::Val
    } else if word == "as" {
        Terminal::As
    } else if word == "match" {
        Terminal::Match
    } else if word == "with" {
        Terminal::With
    } else {
        Terminal::Word
    }
}

/// What a token is to the grammar.
pub fn terminal(kind: Kind, text: &str) -> Terminal
    ensures { result ≡ kind_terminal kind text.now }
{
    match kind {
        Kind::Word => word_terminal(text),
        Kind::Label => Terminal::Label,
        Kind::Text => Terminal::Text,
        Kind::ParenL => Terminal::ParenL,
        Kind::ParenR => Terminal::ParenR,
        Kind::BracketL => Terminal::BracketL,
        Kind::BracketR => Terminal::BracketR,
        Kind::Comma => Terminal::Comma,
        Kind::Bar => Terminal::Bar,
        Kind::Star => Terminal::Star,
        Kind::Plus => Terminal::Plus,
        Kind::Query => Terminal::Query,
        Kind::Equals => Terminal::Equals,
        Kind::Colon => Terminal::Colon,
        Kind::Tilde => Terminal::Tilde,
        Kind::Caret => Terminal::Caret,
        Kind::Arrow => Terminal::Arrow,
        Kind::End => Terminal::End,
        Kind::Broken(_) => Terminal::Broken,
    }
}
