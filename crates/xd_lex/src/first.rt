//! The first token of a text.

ghost use Rattle.std.specs.Prelude.{◌≡◌, ◌<◌, false, length, IfErr, IfOk, IsUtf8};
ghost use Rattle.xd_lex.specs.Cut.{IsFirstToken};
ghost use Rattle.xd_lex.specs.Spellings.{IsSpelling};
ghost use Rattle.xd_lex.specs.LexedTokens.{is_last};
ghost use Rattle.xd_lex.specs.Tokens.{IsNotUtf8At};

use crate::place::past;
use crate::scan::front;
use crate::{Front, Kind};
use thiserror::Error;
use xd_base::Place;

/// The bytes aren't UTF-8. The place is the one after their longest front that is.
#[derive(Clone, Copy, Debug, PartialEq, Eq, Error)]
#[error("not UTF-8 at line {}, column {}", .place.line, .place.column)]
pub struct NotUtf8 {
    pub place: Place,
}

/// The text of these bytes. It takes no memory: it fails only where the bytes aren't UTF-8.
pub fn text_of(bytes: &[u8]) -> Result<&str, NotUtf8>
    ensures text { IfOk result (λ text. text.now ≡ bytes.now) }
    ensures utf8 { IfOk result (λ _. IsUtf8 bytes.now) }
    ensures err { IfErr result (λ e. IsNotUtf8At bytes.now e.place) }
{
    match std::str::from_utf8(bytes) {
        Ok(text) => Ok(text),
        Err(e) => {
            let front = &bytes[..e.valid_up_to()];
            let place = past(Place { line: 1, column: 1 }, front);
            Err(NotUtf8 { place })
        }
    }
}

/// The first token of a text, without its place, and what stands after it.
#[derive(Clone, Copy, Debug)]
pub struct Cut<'a> {
    pub kind: Kind,
    pub text: &'a str,
    pub rest: &'a str,
}

/// Cuts off the first token of a text. It doesn't count lines, for readers that seldom need a
/// place.
pub fn cut_token<'a>(text: &'a str) -> Cut<'a>
    ensures first { IsFirstToken text.now result.kind result.text.now result.rest.now }
    ensures spelled { IsSpelling result.kind result.text.now }
    ensures some { is_last result.kind ≡ false → 0 < length result.text.now }
    ensures utf8 { IsUtf8 result.rest.now }
{
    let mut rest = text;
    'gaps: while !rest.is_empty() {
        match front(rest.as_bytes()) {
            Front::Gap(n) => {
                let (_gap, behind) = rest.split_at(n);
                rest = behind;
            }
            Front::Token(kind, n) => {
                let (text, rest) = rest.split_at(n);
                return Cut { kind, text, rest };
            }
            Front::Fault(fault) => {
                let kind = Kind::Broken(fault);
                return Cut {
                    kind,
                    text: "",
                    rest,
                };
            }
        }
    }
    Cut {
        kind: Kind::End,
        text: "",
        rest,
    }
}
