//! Which token may come next.

ghost use Rattle.std.specs.Prelude.{◌≡◌};
ghost use Rattle.xd_read.specs.Moves.{move_for, item_move, empty_move, end_move};

use xd_lex::Kind;

/// What may come next.
#[derive(Clone, Copy, Debug, PartialEq, Eq)]
pub enum Expect {
    /// The items of the whole document, or `()`.
    Document,
    /// The items of an element, or `()`, or nothing.
    Content,
    /// What follows an item.
    More,
    /// The item after a comma.
    Item,
    /// The `)` of `()`.
    Closing,
    /// What follows `()`.
    Closed,
}

/// What the reader does at a token.
#[derive(Clone, Copy, Debug, PartialEq, Eq)]
pub enum Move {
    /// Takes a text.
    Text,
    /// Opens an element.
    Open,
    /// Closes the innermost open element, if there is one.
    Close,
    /// Ends the document, if no element is open.
    End,
    /// Goes on.
    Go(Expect),
    /// No document goes on with this token.
    Refuse,
}

/// What the reader does at a token of this kind.
pub fn move_for(expect: Expect, kind: Kind) -> Move
    ensures { result ≡ move_for expect kind }
{
    match expect {
        Expect::Document => item_move(kind, empty_move(kind, Move::Refuse)),
        Expect::Content => item_move(kind, empty_move(kind, end_move(kind))),
        Expect::More => match kind {
            Kind::Comma => Move::Go(Expect::Item),
            _ => end_move(kind),
        },
        Expect::Item => item_move(kind, Move::Refuse),
        Expect::Closing => match kind {
            Kind::ParenR => Move::Go(Expect::Closed),
            _ => Move::Refuse,
        },
        Expect::Closed => end_move(kind),
    }
}

fn item_move(kind: Kind, other: Move) -> Move
    ensures { result ≡ item_move kind other }
{
    match kind {
        Kind::Text => Move::Text,
        Kind::Label => Move::Open,
        _ => other,
    }
}

fn empty_move(kind: Kind, other: Move) -> Move
    ensures { result ≡ empty_move kind other }
{
    match kind {
        Kind::ParenL => Move::Go(Expect::Closing),
        _ => other,
    }
}

fn end_move(kind: Kind) -> Move
    ensures { result ≡ end_move kind }
{
    match kind {
        Kind::BracketR => Move::Close,
        Kind::End => Move::End,
        _ => Move::Refuse,
    }
}
