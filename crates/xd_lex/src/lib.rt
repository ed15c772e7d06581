//! The tokens of a text: words, labels, quoted texts and symbols, each with its slice and its
//! place.
#![tactic(auto)]

mod escape;
mod first;
mod laws;
mod lexer;
mod place;
mod scan;

pub use escape::{is_plain, unescape};
pub use first::{Cut, NotUtf8, cut_token, text_of};
pub use laws::lexing_laws;
pub use lexer::{LexError, Lexer, Token, tokens};
pub use place::past;

/// What is wrong where no token begins.
#[derive(Clone, Copy, Debug, PartialEq, Eq)]
pub enum LexFault {
    /// A character begins no token, or a text has a `\` before a character that makes no escape.
    BadCharacter,
    /// A text isn't closed, and has no such `\`.
    OpenText,
    /// A comment isn't closed.
    OpenComment,
}

/// The kinds of tokens.
#[derive(Clone, Copy, Debug, PartialEq, Eq)]
pub enum Kind {
    /// A letter or `_`, and then as many letters, digits and `_` as there are.
    Word,
    /// A word and the `[` directly after it.
    Label,
    /// `"`, pieces, `"`.
    Text,
    ParenL,
    ParenR,
    BracketL,
    BracketR,
    Comma,
    Bar,
    Star,
    Plus,
    Query,
    Equals,
    Colon,
    Tilde,
    Caret,
    Arrow,
    /// The end of the text.
    End,
    /// No token begins here, and none is looked for after this place.
    Broken(LexFault),
}

/// What stands at the front of a text, and its number of bytes.
#[derive(Clone, Copy, Debug, PartialEq, Eq)]
enum Front {
    Gap(usize),
    Token(Kind, usize),
    Fault(LexFault),
}
