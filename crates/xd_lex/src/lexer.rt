//! The tokens of a text, one after the other.

ghost use Rattle.std.specs.Prelude.{All, ◌≡◌, ◌↔◌, ◌+◌, ◌<◌, ◌∷◌, [], length, true, false, map, IfOk, IfErr, IsUtf8};
ghost use Rattle.xd_lex.specs.declared.lexer.LexError.TheVariants.{NoMemory};
ghost use Rattle.xd_lex.specs.LexedTokens.{lexeme_of, is_last, IsRefused};
ghost use Rattle.xd_lex.specs.Tokens.{tokens_from, tokens_of, IsNotUtf8At};
ghost use Rattle.xd_lex.specs.Left.{tokens_left, IsPlaced};
ghost use Rattle.xd_lex.specs.Spellings.{IsSpelling};

use crate::Kind;
use crate::first::{NotUtf8, cut_token, text_of};
use crate::place::past;
use std::alloc::{AllocFailed, Global};
use std::marker::Model;
use thiserror::Error;
use xd_base::Place;

/// A token, the slice that spells it, and the place of its first character.
#[derive(Clone, Copy, Debug)]
pub struct Token<'a> {
    pub kind: Kind,
    pub text: &'a str,
    pub place: Place,
}

/// Why there are no tokens.
#[derive(Clone, Copy, Debug, PartialEq, Eq, Error)]
pub enum LexError {
    /// The bytes aren't UTF-8. The place is that of the first byte that begins no character.
    #[error("not UTF-8 at line {}, column {}", .0.line, .0.column)]
    NotUtf8(Place),
    /// There was not enough memory for the list of the tokens.
    #[error("out of memory")]
    NoMemory,
}

impl<T: Drop> From<AllocFailed<T>> for LexError {
    ghost from_gives = { λ _ e. e ≡ NoMemory };

    fn from(_e: AllocFailed<T>) -> LexError {
        LexError::NoMemory
    }
}

impl Kind {
    /// Whether no token comes after one of this kind.
    pub fn is_last(self) -> bool
        ensures { result ≡ is_last self }
    {
        match self {
            Kind::End | Kind::Broken(_) => true,
            _ => false,
        }
    }
}

/// A token, what stands after it, and the place there.
#[derive(Clone, Copy)]
struct Placed<'a> {
    token: Token<'a>,
    rest: &'a str,
    place: Place,
}

/// The first token of a text.
fn first_token<'a>(text: &'a str, place: Place) -> Placed<'a>
    requires { IsPlaced place text.now }
    ensures first { tokens_from 0 place text.now ≡ lexeme_of result.token ∷ tokens_left (is_last result.token.kind) result.place result.rest.now }
    ensures spelled { IsSpelling result.token.kind result.token.text.now }
    ensures placed { IsPlaced result.place result.rest.now }
{
    let cut = cut_token(text);
    let at = text.len() - cut.rest.len() - cut.text.len();
    let gap = &text.as_bytes()[..at];
    let place = past(place, gap);
    let behind = past(place, cut.text.as_bytes());
    Placed {
        token: Token {
            kind: cut.kind,
            text: cut.text,
            place,
        },
        rest: cut.rest,
        place: behind,
    }
}

/// Gives the tokens of a text one after the other, and takes no memory.
#[derive(Drop)]
pub struct Lexer<'a> {
    rest: &'a str,
    place: Place,
    done: bool,
}

impl<'a> Model for Lexer<'a> {
    ghost use Rattle.std.specs.Prelude.{List};
    ghost use Rattle.xd_lex.specs.Tokens.{Lexeme};
    ghost use Rattle.xd_lex.specs.Left.{tokens_left, IsPlaced};

    ghost Value = { List Lexeme };

    ghost view = { λ l. tokens_left l.done l.place l.rest.now };

    ghost invariant = { λ l. IsPlaced l.place l.rest.now };
}

impl<'a> Lexer<'a> {
    /// All tokens of a text. It takes no memory: it fails only where the bytes aren't UTF-8.
    pub fn new(bytes: &'a [u8]) -> Result<Lexer<'a>, NotUtf8>
        ensures utf8 { IfOk result (λ _. IsUtf8 bytes.now) }
        ensures ok { IfOk result (λ lexer. lexer ≡ tokens_of bytes.now) }
        ensures some { IfOk result (λ lexer. 0 < length lexer) }
        ensures err { IfErr result (λ e. IsNotUtf8At bytes.now e.place) }
    {
        match text_of(bytes) {
            Ok(rest) => Ok(Lexer {
                rest,
                place: Place { line: 1, column: 1 },
                done: false,
            }),
            Err(e) => Err(e),
        }
    }

    /// Another lexer with the same tokens left, for looking ahead.
    pub fn fork(&self) -> Lexer<'a>
        ensures { result ≡ self.now }
    {
        Lexer {
            rest: self.rest,
            place: self.place,
            done: self.done,
        }
    }

    /// The next token.
    pub fn next_token(&mut self) -> Token<'a>
        requires { 0 < length self.old }
        ensures token { self.old ≡ lexeme_of result ∷ self.new }
        ensures spelled { IsSpelling result.kind result.text.now }
        ensures last { (is_last result.kind ≡ true) ↔ (self.new ≡ []) }
        ensures more { is_last result.kind ≡ false → 0 < length self.new }
    {
        let first = first_token(self.rest, self.place);
        self.rest = first.rest;
        self.place = first.place;
        self.done = first.token.kind.is_last();
        first.token
    }
}

/// The tokens of a text, in order. The last is `End` or `Broken`. `LexError::NotUtf8` comes exactly
/// where the bytes aren't UTF-8, with the place after their longest front that is.
/// `LexError::NoMemory` comes where memory is refused.
pub fn tokens<'a>(alloc: Global, bytes: &'a [u8]) -> Result<Vec<Token<'a>>, LexError>
    ensures utf8 { IfOk result (λ _. IsUtf8 bytes.now) }
    ensures ok { IfOk result (λ v. map lexeme_of v.items ≡ tokens_of bytes.now) }
    ensures spelled { IfOk result (λ v. All (λ token. IsSpelling token.kind token.text.now) v.items) }
    ensures err { IfErr result (λ e. IsRefused e bytes.now) }
{
    let mut lexer = match Lexer::new(bytes) {
        Ok(lexer) => lexer,
        Err(e) => return Err(LexError::NotUtf8(e.place)),
    };
    let mut all = Vec::new(alloc);
    'tokens: loop {
        let token = lexer.next_token();
        all.push(token)?;
        if token.kind.is_last() {
            return Ok(all);
        }
    }
}
