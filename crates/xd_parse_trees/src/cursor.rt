//! The tokens that are left.

ghost use Rattle.std.specs.Prelude.{◌≡◌, ◌-◌, ◌<◌, ◌∷◌, [], false, true, take, length, IfOk, OnErr};
ghost use Rattle.xd_lex.specs.LexedTokens.{is_last, lexeme_of};
ghost use Rattle.xd_lex.specs.Spellings.{IsSpelling};
ghost use Rattle.xd_lex.specs.Spelled.{unescaped};
ghost use Rattle.xd_lex.specs.declared.Kind.TheVariants as kinds;
ghost use Rattle.xd_syntax.specs.Words.{has_word};
ghost use Rattle.xd_syntax.specs.Keywords.{keywords};
ghost use Rattle.xd_grammar.specs.declared.grammar.Terminal.TheVariants as terminals;
ghost use Rattle.xd_doc.specs.Word.{is_word};
ghost use Rattle.xd_grammar.specs.Fits.{same};
ghost use Rattle.xd_parse_trees.specs.Lookahead.{IsAhead, IsInFront, lexemes_left};
ghost use Rattle.xd_parse_trees.specs.Reading.{SpellNo, behind, element_row, front_place, front_terminal, front_text, group_row};

use std::alloc::Global;
use std::marker::Model;
use xd_base::Place;
use xd_doc::{Label, NoMemory, Text};
use xd_grammar::{Course, Reading, Sort, Terminal, course_at, same, terminal};
use xd_lex::{Kind, Lexer, Token, unescape};

/// A word and its place.
#[derive(Drop)]
pub struct Word {
    pub word: Label,
    pub place: Place,
}

/// A quoted text, without its quotes and escapes, and its place.
#[derive(Drop)]
pub struct Quoted {
    pub text: Text,
    pub place: Place,
}

/// A token, and what it is to the grammar.
#[derive(Clone, Copy)]
struct Lookahead<'a> {
    terminal: Terminal,
    token: Token<'a>,
}

/// Takes the next token of a lexer.
fn take_next<'a>(lexer: &mut Lexer<'a>) -> Lookahead<'a>
    requires { 0 < length lexer.old }
    ensures tokens { lexer.old ≡ lexeme_of result.token ∷ lexer.new }
    ensures ahead { IsAhead result lexer.new }
{
    let token = lexer.next_token();
    Lookahead {
        terminal: terminal(token.kind, token.text),
        token,
    }
}

/// Takes the token after one of this kind, if one is left.
fn take_behind<'a>(kind: Kind, lexer: &mut Lexer<'a>) -> Option<Lookahead<'a>>
    requires last { is_last kind ≡ true → lexer.old ≡ [] }
    requires more { is_last kind ≡ false → 0 < length lexer.old }
    ensures tokens { lexemes_left result lexer.new ≡ lexer.old }
    ensures front { IsInFront result lexer.new }
{
    if kind.is_last() {
        return None;
    }
    Some(take_next(lexer))
}

/// The tokens that are left of a text: the next one, and a lexer that has those after it.
///
/// Keeps the last label that it made, so that a word that comes many times in a row is one block of
/// memory.
#[derive(Drop)]
pub struct Cursor<'a> {
    next: Option<Lookahead<'a>>,
    lexer: Lexer<'a>,
    last_label: Option<Label>,
}

impl<'a> Model for Cursor<'a> {
    ghost use Rattle.std.specs.Prelude.{List};
    ghost use Rattle.xd_lex.specs.Tokens.{Lexeme};
    ghost use Rattle.xd_parse_trees.specs.Lookahead.{IsInFront, lexemes_left};

    ghost Value = { List Lexeme };

    ghost view = { λ c. lexemes_left c.next c.lexer };

    ghost invariant = { λ c. IsInFront c.next c.lexer };
}

impl<'a> Cursor<'a> {
    /// At the first token that the lexer gives.
    pub fn new(mut lexer: Lexer<'a>) -> Self
        requires { 0 < length lexer }
        ensures { result ≡ lexer.entry }
    {
        let next = take_next(&mut lexer);
        Self {
            next: Some(next),
            lexer,
            last_label: None,
        }
    }

    /// What the next token is to the grammar; `Broken` where no token is left.
    pub fn peek(&self) -> Terminal
        ensures { result ≡ front_terminal self.now }
    {
        match self.next {
            Some(ahead) => ahead.terminal,
            None => Terminal::Broken,
        }
    }

    /// Whether this token comes next.
    pub fn at(&self, kind: Terminal) -> bool
        ensures { result ≡ same kind (front_terminal self.now) }
    {
        same(kind, self.peek())
    }

    /// Goes after the next token, and gives its place.
    pub fn step(&mut self) -> Place
        ensures place { result ≡ front_place self.old }
        ensures left { self.new ≡ behind self.old }
    {
        match self.next {
            Some(ahead) => {
                self.next = take_behind(ahead.token.kind, &mut self.lexer);
                ahead.token.place
            }
            None => Place { line: 1, column: 1 },
        }
    }

    /// Takes the next token as a word that is no keyword. Any other token, which no text has there
    /// that spells, is taken as `_`. Fails only where memory is refused, and then takes none.
    pub fn word(&mut self, alloc: Global) -> Result<Word, NoMemory>
        ensures word { IfOk result (λ w. front_terminal self.old ≡ terminals.Word → w.word ≡ front_text self.old) }
        ensures place { IfOk result (λ w. w.place ≡ front_place self.old) }
        ensures plain { IfOk result (λ w. has_word keywords w.word ≡ false) }
        ensures left { IfOk result (λ w. self.new ≡ behind self.old) }
        ensures kept { OnErr result (self.new ≡ self.old) }
    {
        let word = self.shared_label(alloc, self.word_text())?;
        let place = self.step();
        Ok(Word { word, place })
    }

    /// A label of this word. Shares the last one that was made where that has the same word. Fails
    /// only where memory is refused.
    pub fn shared_label(&mut self, alloc: Global, word: &str) -> Result<Label, NoMemory>
        requires { is_word word.now ≡ true }
        ensures word { IfOk result (λ label. label ≡ word.now) }
        ensures same { self.new ≡ self.old }
    {
        if let Some(last) = &self.last_label {
            if last.as_str() == word {
                return last.share();
            }
        }
        let label = Label::new(alloc, word)?;
        self.last_label = Some(label.share()?);
        Ok(label)
    }

    /// The next token's text where it is a word that is no keyword, else `_`.
    pub fn word_text(&self) -> &'a str
        ensures word { front_terminal self.now ≡ terminals.Word → result.now ≡ front_text self.now }
        ensures plain { has_word keywords result.now ≡ false }
        ensures valid { is_word result.now ≡ true }
    {
        match self.next {
            Some(ahead) => match ahead.terminal {
                Terminal::Word => ahead.token.text,
                _ => "_",
            },
            None => "_",
        }
    }

    /// Whether the parenthesis that comes next opens the labels of a class, and no type or pattern
    /// in parentheses.
    ///
    /// Looks at the words and bars after it, up to the first token that tells: so no token is
    /// looked at for more than one parenthesis.
    pub fn opens_class(&self, sort: Sort) -> bool
        requires { front_terminal self.now ≡ terminals.ParenL }
        ensures listed { result ≡ true → SpellNo (group_row sort) self.now }
        ensures grouped { result ≡ false → SpellNo (element_row sort) self.now }
    {
        let mut ahead = Cursor {
            next: self.next,
            lexer: self.lexer.fork(),
            last_label: None,
        };
        let mut reading = Reading::Opened(sort);
        ahead.step();
        'tokens: loop {
            match course_at(reading, ahead.peek()) {
                Course::Both(next) => {
                    reading = next;
                    ahead.step();
                }
                Course::Main => return false,
                Course::Listed => return true,
            }
        }
    }

    /// Takes the next token as a label, without its bracket. Any other token, which no text has
    /// there that spells, is taken as `_`. Fails only where memory is refused, and then takes none.
    pub fn label(&mut self, alloc: Global) -> Result<Word, NoMemory>
        ensures word { IfOk result (λ w. front_terminal self.old ≡ terminals.Label → w.word ≡ take (length (front_text self.old) - 1) (front_text self.old)) }
        ensures place { IfOk result (λ w. w.place ≡ front_place self.old) }
        ensures left { IfOk result (λ w. self.new ≡ behind self.old) }
        ensures kept { OnErr result (self.new ≡ self.old) }
    {
        let word = self.shared_label(alloc, self.label_text())?;
        let place = self.step();
        Ok(Word { word, place })
    }

    /// The next token's word where it is a label, else `_`.
    fn label_text(&self) -> &'a str
        ensures word { front_terminal self.now ≡ terminals.Label → result.now ≡ take (length (front_text self.now) - 1) (front_text self.now) }
        ensures valid { is_word result.now ≡ true }
    {
        match self.next {
            Some(ahead) => match ahead.token.kind {
                Kind::Label => label_word(ahead.token.text),
                _ => "_",
            },
            None => "_",
        }
    }

    /// Takes the next token as a quoted text. Any other token, which no text has there that spells,
    /// is taken as an empty text. Fails only where memory is refused, and then takes none.
    pub fn quoted(&mut self, alloc: Global) -> Result<Quoted, NoMemory>
        ensures text { IfOk result (λ q. front_terminal self.old ≡ terminals.Text → q.text ≡ unescaped (front_text self.old)) }
        ensures place { IfOk result (λ q. q.place ≡ front_place self.old) }
        ensures left { IfOk result (λ q. self.new ≡ behind self.old) }
        ensures kept { OnErr result (self.new ≡ self.old) }
    {
        let text = self.unescaped_text(alloc)?;
        let place = self.step();
        Ok(Quoted { text, place })
    }

    /// What the next token stands for where it is a quoted text, else an empty text.
    fn unescaped_text(&self, alloc: Global) -> Result<Text, NoMemory>
        ensures { IfOk result (λ text. front_terminal self.now ≡ terminals.Text → text ≡ unescaped (front_text self.now)) }
    {
        match self.next {
            Some(ahead) => match ahead.token.kind {
                Kind::Text => unescape(alloc, ahead.token.text),
                _ => Text::new(alloc, ""),
            },
            None => Text::new(alloc, ""),
        }
    }
}

/// The word of a label, which ends with its bracket.
fn label_word(text: &str) -> &str
    requires { IsSpelling kinds.Label text.now }
    ensures word { result.now ≡ take (length text.now - 1) text.now }
    ensures valid { is_word result.now ≡ true }
{
    let (word, _bracket) = text.split_at(text.len() - 1);
    word
}
