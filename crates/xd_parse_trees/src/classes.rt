//! Reads classes: of labels, and what `^` excepts.

ghost use Rattle.std.specs.Prelude.{◌≡◌, ◌<◌, ◌≤◌, ◌∷◌, [], true, length, vec_len, IfOk};
ghost use Rattle.xd_doc.specs.Word.{is_word};
ghost use Rattle.xd_grammar.specs.declared.grammar.Nonterminal.TheVariants as nonterminals;
ghost use Rattle.xd_grammar.specs.declared.grammar.Terminal.TheVariants as terminals;
ghost use Rattle.xd_parse_trees.specs.Reading.{Reads, ReadsListed, ReadsTexts, ReadsExcepted, any_text, behind, count_excepted, front_terminal};
ghost use Rattle.xd_parse_trees.specs.Values.{names, labels, class};

use crate::cursor::Cursor;
use std::alloc::Global;
use xd_base::Place;
use xd_doc::{Class, Label, NoMemory, Text};
use xd_grammar::Terminal;

/// A class and the place of its first token.
#[derive(Drop)]
pub(crate) struct PlacedClass {
    pub place: Place,
    pub class: Class,
}

/// Labels and the place of the first token that names them.
#[derive(Drop)]
struct PlacedLabels {
    place: Place,
    names: Vec<Label>,
}

/// What stands after a `^`.
#[derive(Drop)]
pub(crate) enum Excepted {
    Texts(Vec<Text>),
    /// Labels, with the bracket after them.
    Labels(Vec<Label>),
}

/// The word that a token is among labels, where keywords are words.
fn any_text(kind: Terminal, text: &str) -> &str
    requires { is_word text.now ≡ true }
    ensures text { result.now ≡ any_text kind text.now }
    ensures valid { is_word result.now ≡ true }
{
    match kind {
        Terminal::Type => "type",
        Terminal::Fun => "fun",
        Terminal::Val => "val",
        Terminal::As => "as",
        Terminal::Match => "match",
        Terminal::With => "with",
        _ => text,
    }
}

/// A word, a keyword among them.
fn read_any_word(alloc: Global, cursor: &mut Cursor<'_>) -> Result<Label, NoMemory>
    ensures reads { IfOk result (λ w. Reads nonterminals.AnyWord cursor.old cursor.new (names (w ∷ []))) }
    ensures left { IfOk result (λ w. cursor.new ≡ behind cursor.old) }
{
    let text = any_text(cursor.peek(), cursor.word_text());
    let word = cursor.shared_label(alloc, text)?;
    cursor.step();
    Ok(word)
}

/// Words with bars between them.
fn read_listed(alloc: Global, cursor: &mut Cursor<'_>) -> Result<Vec<Label>, NoMemory>
    ensures reads { IfOk result (λ all. ReadsListed cursor.old cursor.new all.items) }
    ensures some { IfOk result (λ all. 0 < vec_len all) }
    ensures fewer { IfOk result (λ all. length cursor.new ≤ length cursor.old) }
{
    let mut names = Vec::new(alloc);
    names.push(read_any_word(alloc, cursor)?)?;
    'words: while cursor.at(Terminal::Bar) {
        cursor.step();
        names.push(read_any_word(alloc, cursor)?)?;
    }
    Ok(names)
}

/// Texts with bars between them.
fn read_texts(alloc: Global, cursor: &mut Cursor<'_>) -> Result<Vec<Text>, NoMemory>
    requires { front_terminal cursor.old ≡ terminals.Text }
    ensures reads { IfOk result (λ all. ReadsTexts cursor.old cursor.new all.items) }
    ensures some { IfOk result (λ all. 0 < vec_len all) }
    ensures fewer { IfOk result (λ all. length cursor.new ≤ length cursor.old) }
{
    let mut texts = Vec::new(alloc);
    let first = cursor.quoted(alloc)?;
    texts.push(first.text)?;
    'more: while cursor.at(Terminal::Bar) {
        cursor.step();
        let next = cursor.quoted(alloc)?;
        texts.push(next.text)?;
    }
    Ok(texts)
}

/// Words in parentheses, from the opening one on.
fn read_names(alloc: Global, cursor: &mut Cursor<'_>) -> Result<PlacedLabels, NoMemory>
    ensures reads { IfOk result (λ l. Reads nonterminals.Names cursor.old cursor.new (labels l.place l.names.items)) }
    ensures some { IfOk result (λ l. 0 < vec_len l.names) }
    ensures fewer { IfOk result (λ l. length cursor.new ≤ length cursor.old) }
{
    let place = cursor.step();
    let names = read_listed(alloc, cursor)?;
    cursor.step();
    Ok(PlacedLabels { place, names })
}

/// The labels of a class and the bracket after them.
fn read_labels(alloc: Global, cursor: &mut Cursor<'_>) -> Result<PlacedLabels, NoMemory>
    ensures reads { IfOk result (λ l. Reads nonterminals.Labels cursor.old cursor.new (labels l.place l.names.items)) }
    ensures some { IfOk result (λ l. 0 < vec_len l.names) }
    ensures fewer { IfOk result (λ l. length cursor.new ≤ length (behind cursor.old)) }
{
    if cursor.at(Terminal::Label) {
        let label = cursor.label(alloc)?;
        let mut names = Vec::new(alloc);
        names.push(label.word)?;
        return Ok(PlacedLabels {
            place: label.place,
            names,
        });
    }
    let labels = read_names(alloc, cursor)?;
    cursor.step();
    Ok(labels)
}

/// A class and the bracket after it.
pub(crate) fn read_class(alloc: Global, cursor: &mut Cursor<'_>) -> Result<PlacedClass, NoMemory>
    ensures reads { IfOk result (λ c. Reads nonterminals.Class cursor.old cursor.new (class c.place c.class)) }
    ensures fewer { IfOk result (λ c. length cursor.new ≤ length (behind cursor.old)) }
{
    if cursor.at(Terminal::Tilde) {
        let place = cursor.step();
        cursor.step();
        let class = Class::new(alloc, Vec::new(alloc), true)?;
        return Ok(PlacedClass { place, class });
    }
    let labels = read_labels(alloc, cursor)?;
    let class = Class::new(alloc, labels.names, false)?;
    Ok(PlacedClass {
        place: labels.place,
        class,
    })
}

/// What stands after a `^`, up to the bracket after labels.
pub(crate) fn read_excepted(alloc: Global, cursor: &mut Cursor<'_>) -> Result<Excepted, NoMemory>
    ensures reads { IfOk result (λ e. ReadsExcepted nonterminals.Excepted cursor.old cursor.new e) }
    ensures some { IfOk result (λ e. 0 < count_excepted e) }
    ensures fewer { IfOk result (λ e. length cursor.new ≤ length cursor.old) }
{
    if cursor.at(Terminal::Text) {
        let quoted = cursor.quoted(alloc)?;
        let mut texts = Vec::new(alloc);
        texts.push(quoted.text)?;
        return Ok(Excepted::Texts(texts));
    }
    if cursor.at(Terminal::Label) {
        let label = cursor.label(alloc)?;
        let mut names = Vec::new(alloc);
        names.push(label.word)?;
        return Ok(Excepted::Labels(names));
    }
    cursor.step();
    read_excepted_list(alloc, cursor)
}

/// A list after a `^`, from after its parenthesis on.
fn read_excepted_list(alloc: Global, cursor: &mut Cursor<'_>) -> Result<Excepted, NoMemory>
    ensures reads { IfOk result (λ e. ReadsExcepted nonterminals.ExceptedList cursor.old cursor.new e) }
    ensures some { IfOk result (λ e. 0 < count_excepted e) }
    ensures fewer { IfOk result (λ e. length cursor.new ≤ length cursor.old) }
{
    if cursor.at(Terminal::Text) {
        let texts = read_texts(alloc, cursor)?;
        cursor.step();
        return Ok(Excepted::Texts(texts));
    }
    let names = read_listed(alloc, cursor)?;
    cursor.step();
    cursor.step();
    Ok(Excepted::Labels(names))
}
