//! Bytes as they come, one after the other.

ghost use Rattle.std.specs.Prelude.{◌≡◌, ◌≢◌, ◌<◌, ◌≤◌, ◌++◌, ◌==◌, ◌&&◌, ◌⊎◌, ◌∷◌, [], ℕ, true, false, not, length, take, Some, List, IfErr, IfOk, OnOk};
ghost use Rattle.xd_auto.specs.Automaton.{IsState};
ghost use Rattle.xd_lex.specs.Scan.{is_blank, is_escape};
ghost use Rattle.xd_lex.specs.Tokens.{Lexeme};
ghost use Rattle.xd_read.specs.Grammar.{ParenL, Other};
ghost use Rattle.xd_read.specs.Reading.{terminals_of};
ghost use Rattle.xd_stream.specs.StopByState.{SpellsAccepted};
ghost use Rattle.xd_stream.specs.Fed.{AreWhole};
ghost use Rattle.xd_stream.specs.Expecting.{IsExpected};
ghost use Rattle.xd_stream.specs.Errors.{error_at};
ghost use Rattle.xd_stream.specs.Pairs.{TakesEveryText};
ghost use Rattle.xd_stream.specs.Runs.{IsColumnsOn, IsRun, held_text};
ghost use Rattle.xd_stream.specs.Validating.{IsSameFor, Passes, pairs_of, position_of, tested, tested_from};
ghost use Rattle.xd_stream.specs.Pending.{HasShape, IsNextColumn, IsOpenMode, IsPlaceAfter, IsRare, IsRefusal, IsStanding, IsStandingBefore, RefusesAll, RefusesByte, RefusesNext, StandsBehind, Stops, Takes, TakesAll, TakesNext, scan_text};

use crate::characters::{Awaited, Wide};
use crate::error::StreamError;
use crate::expected::Expected;
use crate::labels::Labels;
use crate::position::Position;
use crate::runs::{is_word_part, is_word_start, text_run, word_run};
use crate::validator::{Refusal, Validator};
use std::alloc::Global;
use xd_auto::{Auto, State};
use xd_base::Place;
use xd_doc::NoMemory;
use xd_lex::unescape;

/// What the bytes after the last token begin.
#[derive(Clone, Copy, Debug)]
pub enum Mode {
    /// Nothing.
    Between,
    /// `(` or a comment.
    Paren,
    /// A word or a label.
    Word,
    /// A quoted text; whether a `\` that begins an escape stands at the end.
    Text(bool),
    /// A comment; whether a `*` stands at the end.
    Comment(bool),
}

/// What the bytes so far leave open.
#[derive(Drop)]
pub struct Machine {
    alloc: Global,
    pub validator: Validator,
    mode: Mode,
    /// Where the token begins whose bytes come.
    begun: Place,
    /// The place after the complete characters.
    place: Place,
    /// The bytes of the word or the text that isn't complete.
    pub held: Vec<u8>,
    /// What is to come of a character that isn't complete.
    awaited: Awaited,
    /// Labels that came before.
    labels: Labels,
}

/// The place after an ASCII byte.
fn after(place: Place, b: u8) -> Place
    requires { b < 128 }
    ensures { IsPlaceAfter b place result }
{
    if b == b'\n' {
        Place {
            line: place.line.saturating_add(1),
            column: 1,
        }
    } else {
        next_column(place)
    }
}

/// The place after a character that ends no line.
fn next_column(place: Place) -> Place
    ensures { IsNextColumn place result }
{
    Place {
        line: place.line,
        column: place.column.saturating_add(1),
    }
}

/// The place after so many characters of one line.
fn further(place: Place, count: usize) -> Place
    ensures { IsColumnsOn count place result }
{
    Place {
        line: place.line,
        column: place.column.saturating_add(count as u64),
    }
}

fn is_blank(b: u8) -> bool
    ensures { result ≡ is_blank b }
{
    b == b' ' || b == b'\t' || b == b'\n' || b == b'\r'
}

fn is_escape(b: u8) -> bool
    ensures { result ≡ is_escape b }
{
    b == b'"' || b == b'\\' || b == b'n' || b == b't'
}

/// A refusal with its place.
fn error_at(refusal: Refusal, place: Place) -> StreamError
    ensures { result ≡ error_at refusal place }
{
    match refusal {
        Refusal::Malformed => StreamError::Malformed(place),
        Refusal::Outside => StreamError::Outside(place),
        Refusal::NoMemory => StreamError::NoMemory,
    }
}

fn hold(held: &mut Vec<u8>, b: u8) -> Result<(), NoMemory>
    ensures { OnOk result (held.new.items ≡ held.old.items ++ b ∷ []) }
{
    held.push(b)?;
    Ok(())
}

impl Machine {
    /// Before the first byte.
    pub fn new(alloc: Global, automaton: Auto, start: State) -> Result<Self, NoMemory>
        requires { IsState automaton start }
        ensures stands { IfOk result (λ made. StandsBehind made []) }
        ensures automaton { IfOk result (λ made. tested made.validator ≡ automaton) }
        ensures start { IfOk result (λ made. tested_from made.validator ≡ start) }
    {
        let validator = Validator::new(alloc, automaton, start)?;
        let place = Place { line: 1, column: 1 };
        Ok(Self {
            alloc,
            validator,
            mode: Mode::Between,
            begun: place,
            place,
            held: Vec::new(alloc),
            awaited: Awaited::none(),
            labels: Labels::new(alloc)?,
        })
    }

    /// What may come after the whole tokens.
    pub fn expected(&self) -> Result<Expected, NoMemory>
        requires { IsStanding self.now }
        ensures { IfOk result (λ e. (bytes : List ℕ) → StandsBehind self.now bytes → (tokens : List Lexeme) → AreWhole bytes tokens → IsExpected (tested self.now.validator) (tested_from self.now.validator) (terminals_of tokens) e) }
    {
        self.validator.expected(self.alloc)
    }

    /// Takes these bytes.
    pub fn take_bytes(&mut self, piece: &[u8]) -> Result<(), StreamError>
        requires { IsStanding self.old }
        ensures ok { OnOk result (TakesAll self.old piece.now self.new) }
        ensures err { IfErr result (RefusesAll self.old piece.now) }
        ensures same { IsSameFor self.old.validator self.new.validator }
    {
        let mut at = 0;
        while at < piece.len() {
            at += self.take_front(&piece[at..])?;
        }
        Ok(())
    }

    /// Takes some bytes at the front, and says how many.
    fn take_front(&mut self, bytes: &[u8]) -> Result<usize, StreamError>
        requires stands { IsStanding self.old }
        requires some { 0 < length bytes.now }
        ensures some { IfOk result (λ n. (0 < n) × (n ≤ length bytes.now)) }
        ensures ok { IfOk result (λ n. TakesAll self.old (take n bytes.now) self.new) }
        ensures err { IfErr result (RefusesAll self.old bytes.now) }
        ensures same { IsSameFor self.old.validator self.new.validator }
    {
        let run = self.run_len(bytes);
        if 0 < run {
            self.hold_run(&bytes[..run])?;
            return Ok(run);
        }
        self.take_byte(bytes[0])?;
        Ok(1)
    }

    /// How many bytes at the front go on with the word or the text that is begun, each as a
    /// character of its line that stands for itself.
    fn run_len(&self, bytes: &[u8]) -> usize
        ensures within { result ≤ length bytes.now }
        ensures run { 0 < result → IsRun self.now (take result bytes.now) }
    {
        match self.mode {
            Mode::Word => word_run(bytes),
            Mode::Text(false) if self.awaited.left == 0 => text_run(bytes),
            _ => 0,
        }
    }

    /// Takes such bytes.
    fn hold_run(&mut self, run: &[u8]) -> Result<(), NoMemory>
        requires stands { IsStanding self.old }
        requires run { IsRun self.old run.now }
        ensures ok { OnOk result (TakesAll self.old run.now self.new) }
        ensures same { IsSameFor self.old.validator self.new.validator }
    {
        self.held.extend_from_slice(run)?;
        self.place = further(self.place, run.len());
        Ok(())
    }

    /// Takes a byte.
    fn take_byte(&mut self, b: u8) -> Result<(), StreamError>
        requires { IsStanding self.old }
        ensures ok { OnOk result (Takes self.old b self.new) }
        ensures err { IfErr result (RefusesByte self.old b) }
        ensures same { IsSameFor self.old.validator self.new.validator }
    {
        match self.mode {
            Mode::Between => self.begin(b),
            Mode::Paren => self.behind_paren(b),
            Mode::Word => self.in_word(b),
            Mode::Text(escaped) => self.in_text(escaped, b),
            Mode::Comment(starred) => self.in_comment(starred, b),
        }
    }

    /// Takes a byte between tokens.
    #[inline(always)]
    fn begin(&mut self, b: u8) -> Result<(), StreamError>
        requires { IsStandingBefore self.old b }
        ensures ok { OnOk result (TakesNext self.old b self.new) }
        ensures err { IfErr result (RefusesNext self.old b) }
        ensures same { IsSameFor self.old.validator self.new.validator }
    {
        if is_blank(b) {
            self.place = after(self.place, b);
            Ok(())
        } else if is_word_start(b) {
            self.begin_held(Mode::Word, b)?;
            Ok(())
        } else if b == b'"' {
            self.begin_held(Mode::Text(false), b)?;
            Ok(())
        } else if b == b'(' {
            self.begin_paren();
            Ok(())
        } else {
            self.symbol(b)
        }
    }

    /// Begins a token whose bytes are held.
    fn begin_held(&mut self, mode: Mode, b: u8) -> Result<(), NoMemory>
        requires stands { IsStandingBefore self.old b }
        requires shape { HasShape mode (b ∷ []) (b ∷ []) [] }
        requires ascii { b < 128 }
        requires line { b ≢ 10 }
        ensures ok { OnOk result (TakesNext self.old b self.new) }
        ensures same { IsSameFor self.old.validator self.new.validator }
    {
        hold(&mut self.held, b)?;
        self.mode = mode;
        self.begun = self.place;
        self.place = next_column(self.place);
        Ok(())
    }

    fn begin_paren(&mut self)
        requires { IsStandingBefore self.old 40 }
        ensures ok { TakesNext self.old 40 self.new }
        ensures same { IsSameFor self.old.validator self.new.validator }
    {
        self.mode = Mode::Paren;
        self.begun = self.place;
        self.place = next_column(self.place);
    }

    /// Takes a symbol, which no document has but for three.
    #[inline(always)]
    fn symbol(&mut self, b: u8) -> Result<(), StreamError>
        requires stands { IsStandingBefore self.old b }
        requires rare { IsRare b }
        ensures ok { OnOk result (TakesNext self.old b self.new) }
        ensures err { IfErr result (RefusesNext self.old b) }
        ensures same { IsSameFor self.old.validator self.new.validator }
    {
        match b {
            b')' => self.paren_r(),
            b']' => self.bracket_r(),
            b',' => self.comma(),
            _ => Err(StreamError::Malformed(self.place)),
        }
    }

    #[inline(never)]
    fn paren_r(&mut self) -> Result<(), StreamError>
        requires { IsStandingBefore self.old 41 }
        ensures ok { OnOk result (TakesNext self.old 41 self.new) }
        ensures err { IfErr result (RefusesNext self.old 41) }
        ensures same { IsSameFor self.old.validator self.new.validator }
    {
        if let Err(refusal) = self.validator.take_paren_r() {
            return Err(error_at(refusal, self.place));
        }
        self.place = next_column(self.place);
        Ok(())
    }

    #[inline(always)]
    fn bracket_r(&mut self) -> Result<(), StreamError>
        requires { IsStandingBefore self.old 93 }
        ensures ok { OnOk result (TakesNext self.old 93 self.new) }
        ensures err { IfErr result (RefusesNext self.old 93) }
        ensures same { IsSameFor self.old.validator self.new.validator }
    {
        if let Err(refusal) = self.validator.close() {
            return Err(error_at(refusal, self.place));
        }
        self.place = next_column(self.place);
        Ok(())
    }

    #[inline(always)]
    fn comma(&mut self) -> Result<(), StreamError>
        requires { IsStandingBefore self.old 44 }
        ensures ok { OnOk result (TakesNext self.old 44 self.new) }
        ensures err { IfErr result (RefusesNext self.old 44) }
        ensures same { IsSameFor self.old.validator self.new.validator }
    {
        if let Err(refusal) = self.validator.take_comma() {
            return Err(error_at(refusal, self.place));
        }
        self.place = next_column(self.place);
        Ok(())
    }

    /// Takes a byte after a `(`.
    #[inline(never)]
    fn behind_paren(&mut self, b: u8) -> Result<(), StreamError>
        requires stands { IsStanding self.old }
        requires mode { self.old.mode ≡ Mode.Paren }
        ensures ok { OnOk result (Takes self.old b self.new) }
        ensures err { IfErr result (RefusesByte self.old b) }
        ensures same { IsSameFor self.old.validator self.new.validator }
    {
        if b == b'*' {
            self.begin_comment();
            return Ok(());
        }
        self.paren_l()?;
        self.begin(b)
    }

    fn begin_comment(&mut self)
        requires stands { IsStanding self.old }
        requires mode { self.old.mode ≡ Mode.Paren }
        ensures ok { Takes self.old 42 self.new }
        ensures same { IsSameFor self.old.validator self.new.validator }
    {
        self.mode = Mode::Comment(false);
        self.place = next_column(self.place);
    }

    /// Takes the `(` that came before.
    fn paren_l(&mut self) -> Result<(), StreamError>
        requires { IsStanding self.old }
        ensures passes { OnOk result (Passes self.old.validator ParenL self.new.validator) }
        ensures closing { OnOk result (position_of self.new.validator ≡ Position.Closing) }
        ensures rest { OnOk result (self.new ≡ record self.old { validator = self.new.validator; mode = Mode.Between }) }
        ensures err { IfErr result (IsRefusal self.old ParenL self.old.begun) }
        ensures same { IsSameFor self.old.validator self.new.validator }
    {
        if let Err(refusal) = self.validator.take_paren_l() {
            return Err(error_at(refusal, self.begun));
        }
        self.mode = Mode::Between;
        Ok(())
    }

    /// Takes a byte after those of a word.
    fn in_word(&mut self, b: u8) -> Result<(), StreamError>
        requires stands { IsStanding self.old }
        requires mode { self.old.mode ≡ Mode.Word }
        ensures ok { OnOk result (Takes self.old b self.new) }
        ensures err { IfErr result (RefusesByte self.old b) }
        ensures same { IsSameFor self.old.validator self.new.validator }
    {
        if b == b'[' {
            self.whole_label()
        } else if is_word_part(b) {
            hold(&mut self.held, b)?;
            self.place = next_column(self.place);
            Ok(())
        } else {
            Err(StreamError::Malformed(self.begun))
        }
    }

    fn whole_label(&mut self) -> Result<(), StreamError>
        requires stands { IsStanding self.old }
        requires mode { self.old.mode ≡ Mode.Word }
        ensures ok { OnOk result (Takes self.old 91 self.new) }
        ensures err { IfErr result (RefusesByte self.old 91) }
        ensures same { IsSameFor self.old.validator self.new.validator }
    {
        let label = self.labels.label(&self.held)?;
        if let Err(refusal) = self.validator.open(&label) {
            return Err(error_at(refusal, self.begun));
        }
        self.mode = Mode::Between;
        self.held.clear();
        self.place = next_column(self.place);
        Ok(())
    }

    /// Takes a byte within a quoted text.
    fn in_text(&mut self, escaped: bool, b: u8) -> Result<(), StreamError>
        requires stands { IsStanding self.old }
        requires mode { self.old.mode ≡ Mode.Text escaped }
        ensures ok { OnOk result (Takes self.old b self.new) }
        ensures err { IfErr result (RefusesByte self.old b) }
        ensures same { IsSameFor self.old.validator self.new.validator }
    {
        if 0 < self.awaited.left || 0x80 <= b {
            self.in_wide_text(escaped, b)
        } else if escaped && !is_escape(b) {
            Err(StreamError::Malformed(self.begun))
        } else if !escaped && b == b'"' {
            self.whole_text()
        } else {
            self.hold_in_text(escaped, b)?;
            Ok(())
        }
    }

    fn hold_in_text(&mut self, escaped: bool, b: u8) -> Result<(), NoMemory>
        requires stands { IsStanding self.old }
        requires mode { self.old.mode ≡ Mode.Text escaped }
        requires none { self.old.awaited.left ≡ 0 }
        requires ascii { b < 128 }
        requires step { scan_text escaped (b ∷ []) ≡ Some (not escaped && b == 92) }
        ensures ok { OnOk result (Takes self.old b self.new) }
        ensures same { IsSameFor self.old.validator self.new.validator }
    {
        hold(&mut self.held, b)?;
        self.mode = Mode::Text(!escaped && b == b'\\');
        self.place = after(self.place, b);
        Ok(())
    }

    fn whole_text(&mut self) -> Result<(), StreamError>
        requires stands { IsStanding self.old }
        requires mode { self.old.mode ≡ Mode.Text false }
        requires none { self.old.awaited.left ≡ 0 }
        ensures ok { OnOk result (Takes self.old 34 self.new) }
        ensures err { IfErr result (RefusesByte self.old 34) }
        ensures same { IsSameFor self.old.validator self.new.validator }
    {
        self.take_held_text()?;
        self.mode = Mode::Between;
        self.held.clear();
        self.place = next_column(self.place);
        Ok(())
    }

    /// Takes the text that is held.
    fn take_held_text(&mut self) -> Result<(), StreamError>
        requires stands { IsStanding self.old }
        requires mode { self.old.mode ≡ Mode.Text false }
        requires none { self.old.awaited.left ≡ 0 }
        ensures ok { OnOk result (Passes self.old.validator (held_text self.old) self.new.validator) }
        ensures rest { self.new ≡ record self.old { validator = self.new.validator; held = self.new.held } }
        ensures err { IfErr result (RefusesByte self.old 34) }
        ensures same { IsSameFor self.old.validator self.new.validator }
    {
        if self.validator.takes_every_text() {
            self.take_every_text()
        } else {
            self.take_spelled_text()
        }
    }

    /// Takes the text that is held, where all texts lead to the same.
    fn take_every_text(&mut self) -> Result<(), StreamError>
        requires stands { IsStanding self.old }
        requires mode { self.old.mode ≡ Mode.Text false }
        requires none { self.old.awaited.left ≡ 0 }
        requires every { TakesEveryText (tested self.old.validator) (pairs_of self.old.validator) }
        ensures ok { OnOk result (Passes self.old.validator (held_text self.old) self.new.validator) }
        ensures rest { self.new ≡ record self.old { validator = self.new.validator } }
        ensures err { IfErr result (RefusesByte self.old 34) }
        ensures same { IsSameFor self.old.validator self.new.validator }
    {
        if let Err(refusal) = self.validator.take_every_text() {
            return Err(error_at(refusal, self.begun));
        }
        Ok(())
    }

    /// Takes the text that is held, by what it spells.
    #[inline(never)]
    fn take_spelled_text(&mut self) -> Result<(), StreamError>
        requires stands { IsStanding self.old }
        requires mode { self.old.mode ≡ Mode.Text false }
        requires none { self.old.awaited.left ≡ 0 }
        ensures ok { OnOk result (Passes self.old.validator (held_text self.old) self.new.validator) }
        ensures rest { self.new ≡ record self.old { validator = self.new.validator; held = self.new.held } }
        ensures err { IfErr result (RefusesByte self.old 34) }
        ensures same { IsSameFor self.old.validator self.new.validator }
    {
        hold(&mut self.held, b'"')?;
        let Ok(spelled) = std::str::from_utf8(&self.held) else {
            unreachable!()
        };
        let text = unescape(self.alloc, spelled)?;
        if let Err(refusal) = self.validator.take_text(&text) {
            return Err(error_at(refusal, self.begun));
        }
        Ok(())
    }

    #[inline(never)]
    fn in_wide_text(&mut self, escaped: bool, b: u8) -> Result<(), StreamError>
        requires stands { IsStanding self.old }
        requires mode { self.old.mode ≡ Mode.Text escaped }
        requires wide { (0 < self.old.awaited.left) ⊎ (128 ≤ b) }
        ensures ok { OnOk result (Takes self.old b self.new) }
        ensures err { IfErr result (RefusesByte self.old b) }
        ensures same { IsSameFor self.old.validator self.new.validator }
    {
        match self.awaited.take(b) {
            Wide::Broken => Err(StreamError::Malformed(self.place)),
            Wide::Partly(awaited) => {
                hold(&mut self.held, b)?;
                self.awaited = awaited;
                Ok(())
            }
            Wide::Whole => {
                if escaped {
                    return Err(StreamError::Malformed(self.begun));
                }
                hold(&mut self.held, b)?;
                self.awaited = Awaited::none();
                self.place = next_column(self.place);
                Ok(())
            }
        }
    }

    /// Takes a byte within a comment.
    #[inline(never)]
    fn in_comment(&mut self, starred: bool, b: u8) -> Result<(), StreamError>
        requires stands { IsStanding self.old }
        requires mode { self.old.mode ≡ Mode.Comment starred }
        ensures ok { OnOk result (Takes self.old b self.new) }
        ensures err { IfErr result (RefusesByte self.old b) }
        ensures same { IsSameFor self.old.validator self.new.validator }
    {
        if 0 < self.awaited.left || 0x80 <= b {
            self.in_wide_comment(starred, b)
        } else if starred && b == b')' {
            self.mode = Mode::Between;
            self.place = next_column(self.place);
            Ok(())
        } else {
            self.mode = Mode::Comment(b == b'*');
            self.place = after(self.place, b);
            Ok(())
        }
    }

    #[inline(never)]
    fn in_wide_comment(&mut self, starred: bool, b: u8) -> Result<(), StreamError>
        requires stands { IsStanding self.old }
        requires mode { self.old.mode ≡ Mode.Comment starred }
        requires wide { (0 < self.old.awaited.left) ⊎ (128 ≤ b) }
        ensures ok { OnOk result (Takes self.old b self.new) }
        ensures err { IfErr result (RefusesByte self.old b) }
        ensures same { IsSameFor self.old.validator self.new.validator }
    {
        match self.awaited.take(b) {
            Wide::Broken => Err(StreamError::Malformed(self.place)),
            Wide::Partly(awaited) => {
                self.awaited = awaited;
                Ok(())
            }
            Wide::Whole => {
                self.mode = Mode::Comment(false);
                self.awaited = Awaited::none();
                self.place = next_column(self.place);
                Ok(())
            }
        }
    }

    /// Ends the bytes.
    pub fn finish(&mut self) -> Result<(), StreamError>
        requires { IsStanding self.old }
        ensures ok { OnOk result ((bytes : List ℕ) → StandsBehind self.old bytes → SpellsAccepted (tested self.old.validator) (tested_from self.old.validator) bytes) }
        ensures err { IfErr result (λ e. (bytes : List ℕ) → StandsBehind self.old bytes → Stops self.old bytes e) }
        ensures same { IsSameFor self.old.validator self.new.validator }
    {
        match self.mode {
            Mode::Between => self.end(),
            Mode::Paren => {
                self.paren_l()?;
                Err(StreamError::Malformed(self.place))
            }
            Mode::Word => Err(StreamError::Malformed(self.begun)),
            Mode::Text(_) | Mode::Comment(_) => Err(self.not_closed()),
        }
    }

    /// The automaton, for another machine.
    pub fn release(self) -> Auto
        ensures { result ≡ tested self.validator }
    {
        self.validator.release()
    }

    /// Ends the document.
    fn end(&self) -> Result<(), StreamError>
        requires stands { IsStanding self.now }
        requires mode { self.now.mode ≡ Mode.Between }
        ensures ok { OnOk result ((bytes : List ℕ) → StandsBehind self.now bytes → SpellsAccepted (tested self.now.validator) (tested_from self.now.validator) bytes) }
        ensures err { IfErr result (λ e. (bytes : List ℕ) → StandsBehind self.now bytes → Stops self.now bytes e) }
    {
        match self.validator.end() {
            Ok(()) => Ok(()),
            Err(refusal) => Err(error_at(refusal, self.place)),
        }
    }

    /// Where a text or a comment stops that isn't closed.
    fn not_closed(&self) -> StreamError
        requires stands { IsStanding self.now }
        requires mode { IsOpenMode self.now.mode }
        ensures { (bytes : List ℕ) → StandsBehind self.now bytes → Stops self.now bytes result }
    {
        if 0 < self.awaited.left {
            StreamError::Malformed(self.place)
        } else {
            StreamError::Malformed(self.begun)
        }
    }
}
