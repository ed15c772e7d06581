//! The grammar of programs and types, as the reader runs it.

ghost use Rattle.std.specs.Prelude.{◌≡◌, map};
ghost use Rattle.xd_grammar.specs.Grammar.{rules};
ghost use Rattle.xd_grammar.specs.Rows.{rows_now};

/// What a token is to the grammar: each keyword is a terminal of its own, and `Word` is any other
/// word.
#[derive(Clone, Copy, PartialEq, Eq)]
pub enum Terminal {
    Type,
    Fun,
    Val,
    As,
    Match,
    With,
    Word,
    Label,
    Text,
    ParenL,
    ParenR,
    BracketL,
    BracketR,
    Comma,
    Bar,
    Star,
    Plus,
    Query,
    Equals,
    Colon,
    Tilde,
    Caret,
    Arrow,
    End,
    Broken,
}

/// Which of the two is read: they have one grammar, but for the variables of patterns.
#[derive(Clone, Copy)]
pub enum Sort {
    Type,
    Pattern,
}

/// A symbol that stands for rows of symbols.
#[derive(Clone, Copy)]
pub enum Nonterminal {
    Definitions,
    Param,
    MoreParams,
    TypeText,
    Alternative(Sort),
    MoreBranches(Sort),
    Sequence(Sort),
    MoreParts(Sort),
    Post(Sort),
    Prim(Sort),
    Excepted(Sort),
    ExceptedList(Sort),
    Group(Sort),
    Content(Sort),
    Bound,
    Operator,
    Class,
    Labels,
    Names,
    MoreNames,
    MoreTexts,
    AnyWord,
    Expr,
    MoreItems,
    Item,
    ExprContent,
    Paren,
    ParenContent,
    MoreParens,
    Clause,
    MoreClauses,
}

/// A symbol of a row.
#[derive(Clone, Copy)]
pub enum Symbol {
    /// This token.
    Token(Terminal),
    /// This token, which opens a level of nesting.
    Opening(Terminal),
    /// The end of the innermost open level of nesting; no token.
    Closed,
    /// No token, and the next one isn't this one.
    Unless(Terminal),
    /// What this nonterminal stands for.
    Part(Nonterminal),
}

/// The rows of a nonterminal of types or patterns, at one of the two.
macro_rules! rows_at {
    ($sort:path, Alternative) => { &[&[Part(Sequence($sort)), Part(MoreBranches($sort))]] };
    ($sort:path, MoreBranches) => { &[&[Token(Bar), Part(Sequence($sort)), Part(MoreBranches($sort))], &[Unless(Bar)]] };
    ($sort:path, Sequence) => { &[&[Part(Post($sort)), Part(MoreParts($sort))]] };
    ($sort:path, MoreParts) => { &[&[Token(Comma), Part(Post($sort)), Part(MoreParts($sort))], &[Unless(Comma)]] };
    ($sort:path, Prim) => { &[&[Token(Word)], &[Opening(ParenL), Part(Group($sort))], &[Token(Text)], &[Token(Caret), Part(Excepted($sort))], &[Part(Class), Part(Content($sort))]] };
    ($sort:path, Excepted) => { &[&[Token(Text)], &[Opening(Label), Part(Content($sort))], &[Opening(ParenL), Part(ExceptedList($sort))]] };
    ($sort:path, ExceptedList) => { &[&[Token(Text), Part(MoreTexts), Token(ParenR), Closed], &[Part(AnyWord), Part(MoreNames), Token(ParenR), Closed, Opening(BracketL), Part(Content($sort))]] };
    ($sort:path, Group) => { &[&[Token(ParenR), Closed, Unless(BracketL)], &[Part(Alternative($sort)), Token(ParenR), Closed, Unless(BracketL)]] };
    ($sort:path, Content) => { &[&[Token(BracketR), Closed], &[Part(Alternative($sort)), Token(BracketR), Closed]] };
}

/// The rows of a nonterminal of types or patterns, whichever is read. Rows are constants, so each
/// is there for both.
macro_rules! rows_of {
    ($sort:expr, $part:ident) => {
        match $sort {
            Sort::Type => rows_at!(Sort::Type, $part),
            Sort::Pattern => rows_at!(Sort::Pattern, $part),
        }
    };
}

/// The rows that a nonterminal stands for.
pub fn rules(part: Nonterminal) -> &'static [&'static [Symbol]]
    ensures { rows_now result.now ≡ rules part }
{
    use Nonterminal::*;
    use Symbol::*;
    use Terminal::*;
    match part {
        Definitions => &[
            &[
                Token(Type),
                Token(Word),
                Token(Equals),
                Part(Alternative(Sort::Type)),
                Part(Definitions),
            ],
            &[
                Token(Fun),
                Token(Word),
                Part(Param),
                Part(MoreParams),
                Token(Colon),
                Part(Alternative(Sort::Type)),
                Token(Equals),
                Part(Expr),
                Part(Definitions),
            ],
            &[Token(End)],
        ],
        Param => &[&[
            Opening(ParenL),
            Token(Val),
            Token(Word),
            Token(As),
            Part(Alternative(Sort::Type)),
            Token(ParenR),
            Closed,
        ]],
        MoreParams => &[&[Unless(ParenL)], &[Part(Param), Part(MoreParams)]],
        TypeText => &[&[Part(Alternative(Sort::Type)), Token(End)]],
        Alternative(sort) => rows_of!(sort, Alternative),
        MoreBranches(sort) => rows_of!(sort, MoreBranches),
        Sequence(sort) => rows_of!(sort, Sequence),
        MoreParts(sort) => rows_of!(sort, MoreParts),
        Post(Sort::Type) => &[&[Part(Prim(Sort::Type)), Part(Operator)]],
        Post(Sort::Pattern) => &[
            &[Token(Val), Token(Word), Part(Bound)],
            &[Part(Prim(Sort::Pattern)), Part(Operator)],
        ],
        Prim(sort) => rows_of!(sort, Prim),
        Excepted(sort) => rows_of!(sort, Excepted),
        ExceptedList(sort) => rows_of!(sort, ExceptedList),
        Group(sort) => rows_of!(sort, Group),
        Content(sort) => rows_of!(sort, Content),
        Bound => &[
            &[Opening(As), Part(Post(Sort::Pattern)), Closed],
            &[Unless(As)],
        ],
        Operator => &[
            &[Token(Star)],
            &[Token(Plus)],
            &[Token(Query)],
            &[Unless(Star), Unless(Plus), Unless(Query)],
        ],
        Class => &[&[Token(Tilde), Opening(BracketL)], &[Part(Labels)]],
        Labels => &[&[Opening(Label)], &[Part(Names), Opening(BracketL)]],
        Names => &[&[
            Opening(ParenL),
            Part(AnyWord),
            Part(MoreNames),
            Token(ParenR),
            Closed,
        ]],
        MoreNames => &[
            &[Token(Bar), Part(AnyWord), Part(MoreNames)],
            &[Unless(Bar)],
        ],
        MoreTexts => &[&[Token(Bar), Token(Text), Part(MoreTexts)], &[Unless(Bar)]],
        AnyWord => &[
            &[Token(Word)],
            &[Token(Type)],
            &[Token(Fun)],
            &[Token(Val)],
            &[Token(As)],
            &[Token(Match)],
            &[Token(With)],
        ],
        Expr => &[&[Part(Item), Part(MoreItems)]],
        MoreItems => &[
            &[Token(Comma), Part(Item), Part(MoreItems)],
            &[Unless(Comma)],
        ],
        Item => &[
            &[Token(Text)],
            &[Token(Word), Part(MoreParens)],
            &[Opening(Label), Part(ExprContent)],
            &[
                Opening(Match),
                Part(Expr),
                Token(With),
                Part(Clause),
                Part(MoreClauses),
                Closed,
            ],
            &[Part(Paren)],
        ],
        ExprContent => &[
            &[Token(BracketR), Closed],
            &[Part(Expr), Token(BracketR), Closed],
        ],
        Paren => &[&[Opening(ParenL), Part(ParenContent)]],
        ParenContent => &[
            &[Token(ParenR), Closed],
            &[Part(Expr), Token(ParenR), Closed],
        ],
        MoreParens => &[&[Unless(ParenL)], &[Part(Paren), Part(MoreParens)]],
        Clause => &[&[Part(Sequence(Sort::Pattern)), Token(Arrow), Part(Expr)]],
        MoreClauses => &[
            &[Token(Bar), Part(Clause), Part(MoreClauses)],
            &[Unless(Bar)],
        ],
    }
}
