//! Streams of bytes.

ghost use Rattle.std.specs.Prelude.{◌≡◌, ◌++◌, ◌⊎◌, ◌+◌, ◌≤◌, length, [], ℕ, List, Option, Some, None, Err, IfErr, IfOk, OnOk};
ghost use Rattle.xd_auto.specs.Automaton.{IsState};
ghost use Rattle.xd_lex.specs.Tokens.{Lexeme};
ghost use Rattle.xd_read.specs.Reading.{terminals_of};
ghost use Rattle.xd_stream.specs.StopByState.{SpellsAccepted};
ghost use Rattle.xd_stream.specs.Fed.{AreBehindWhole, AreStopped, AreWhole, GoesSettled, StopsAs, open_elements};
ghost use Rattle.xd_stream.specs.Expecting.{IsExpected};
ghost use Rattle.xd_stream.specs.Streams.{StandsFor, automaton_of, err_of, start_of};
ghost use Rattle.xd_stream.specs.declared.error.StreamError.TheVariants.{NoMemory as OutOfMemory};

use crate::error::StreamError;
use crate::expected::Expected;
use crate::machine::Machine;
use std::alloc::Global;
use std::marker::Model;
use xd_auto::{Auto, State};
use xd_doc::NoMemory;

/// Validates bytes against a state of an automaton, as they come in pieces.
#[derive(Drop)]
pub struct Stream {
    machine: Machine,
    refusal: Option<StreamError>,
}

impl Model for Stream {
    ghost use Rattle.std.specs.Prelude.{List, ℕ};
    ghost use Rattle.xd_stream.specs.Streams.{Held, StandsFor};

    ghost Value = { Held };

    ghost view = { λ s. record { machine = s.machine; refusal = s.refusal } };

    ghost invariant = { λ s. (bytes : List ℕ) × StandsFor (record { machine = s.machine; refusal = s.refusal }) bytes };
}

impl Stream {
    /// Before the first byte.
    ///
    /// Fails only where memory is refused.
    pub fn new(alloc: Global, auto: Auto, state: State) -> Result<Self, NoMemory>
        requires { IsState auto state }
        ensures stands { IfOk result (λ made. StandsFor made []) }
        ensures automaton { IfOk result (λ made. automaton_of made ≡ auto) }
        ensures start { IfOk result (λ made. start_of made ≡ state) }
    {
        let machine = Machine::new(alloc, auto, state)?;
        Ok(Self {
            machine,
            refusal: None,
        })
    }

    /// Takes the next bytes. What is refused once, is refused from then on.
    pub fn feed(&mut self, piece: &[u8]) -> Result<(), StreamError>
        ensures ok { OnOk result ((bytes : List ℕ) → StandsFor self.old bytes → StandsFor self.new (bytes ++ piece.now)) }
        ensures err { IfErr result (λ e. (bytes : List ℕ) → StandsFor self.old bytes → (StandsFor self.new (bytes ++ piece.now)) × AreStopped (automaton_of self.old) (start_of self.old) (bytes ++ piece.now) e) }
        ensures latest { OnOk result ((bytes : List ℕ) → StandsFor self.old bytes → GoesSettled (automaton_of self.old) (start_of self.old) (bytes ++ piece.now)) }
        ensures refusal { self.new.refusal ≡ err_of result }
        ensures again { (e : StreamError) → self.old.refusal ≡ Some e → (result ≡ Err e) × (self.new ≡ self.old) }
        ensures automaton { automaton_of self.new ≡ automaton_of self.old }
        ensures start { start_of self.new ≡ start_of self.old }
    {
        if let Some(error) = self.refusal {
            return Err(error);
        }
        match self.machine.take_bytes(piece) {
            Ok(()) => Ok(()),
            Err(error) => {
                self.refusal = Some(error);
                Err(error)
            }
        }
    }

    /// Ends the bytes.
    ///
    /// Where they spell no document that the state accepts, it tells the first token that none goes
    /// on with: `Malformed` where the tokens up to it begin no document at all, else `Outside`. So
    /// bytes that spell no document may be outside, too. `NoMemory` where memory is refused.
    pub fn finish(self) -> Result<(), StreamError>
        ensures ok { OnOk result ((bytes : List ℕ) → StandsFor self bytes → SpellsAccepted (automaton_of self) (start_of self) bytes) }
        ensures err { IfErr result (λ e. (bytes : List ℕ) → StandsFor self bytes → StopsAs (automaton_of self) (start_of self) bytes e) }
        ensures again { (e : StreamError) → self.refusal ≡ Some e → result ≡ Err e }
    {
        let (ended, _automaton) = self.finish_and_release();
        ended
    }

    /// Ends the bytes, as [`Stream::finish`] does, and gives the automaton back for the next stream.
    pub fn finish_and_release(self) -> (Result<(), StreamError>, Auto)
        ensures ok { OnOk result.0 ((bytes : List ℕ) → StandsFor self bytes → SpellsAccepted (automaton_of self) (start_of self) bytes) }
        ensures err { IfErr result.0 (λ e. (bytes : List ℕ) → StandsFor self bytes → StopsAs (automaton_of self) (start_of self) bytes e) }
        ensures again { (e : StreamError) → self.refusal ≡ Some e → result.0 ≡ Err e }
        ensures automaton { result.1 ≡ automaton_of self }
    {
        let Self { machine, refusal } = self;
        if let Some(error) = refusal {
            return (Err(error), machine.release());
        }
        let mut machine = machine;
        let ended = machine.finish();
        (ended, machine.release())
    }

    /// One more than the number of elements that the whole tokens leave open.
    pub fn frames(&self) -> usize
        ensures whole { self.now.refusal ≡ None → (bytes : List ℕ) → StandsFor self.now bytes → (tokens : List Lexeme) × AreWhole bytes tokens }
        ensures count { self.now.refusal ≡ None → (bytes : List ℕ) → StandsFor self.now bytes → (tokens : List Lexeme) → AreWhole bytes tokens → result ≡ open_elements 0 (terminals_of tokens) + 1 }
    {
        self.machine.validator.open_elements() + 1
    }

    /// What may come after the whole tokens, by which the token that isn't complete could be
    /// another.
    ///
    /// At a stop: feed a stream the bytes before its place and a blank, which ends a `(`. What may
    /// come then is what could have stood there.
    /// After a refusal that refusal is given again. Else it fails only where memory is refused.
    pub fn expected(&self) -> Result<Expected, StreamError>
        ensures ok { IfOk result (λ e. (bytes : List ℕ) → StandsFor self.now bytes → (tokens : List Lexeme) → AreWhole bytes tokens → IsExpected (automaton_of self.now) (start_of self.now) (terminals_of tokens) e) }
        ensures again { (e : StreamError) → self.now.refusal ≡ Some e → result ≡ Err e }
        ensures err { IfErr result (λ e. (self.now.refusal ≡ Some e) ⊎ (e ≡ OutOfMemory)) }
    {
        if let Some(error) = self.refusal {
            return Err(error);
        }
        Ok(self.machine.expected()?)
    }

    /// How many bytes are held of a token that isn't complete.
    pub fn carried(&self) -> usize
        ensures held { result ≡ length self.now.machine.held.items }
        ensures bounded { self.now.refusal ≡ None → (bytes : List ℕ) → StandsFor self.now bytes → (tokens : List Lexeme) → AreWhole bytes tokens → (rest : List ℕ) × AreBehindWhole bytes rest tokens × (result ≤ length rest) }
    {
        self.machine.held.len()
    }
}
