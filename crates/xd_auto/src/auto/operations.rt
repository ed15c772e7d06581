//! Operations that make states for sets of documents.

ghost use Rattle.std.specs.Prelude.{◌≡◌, ◌↔◌, ◌+◌, ◌≤◌, ◌||◌, true, length, IfOk, OnErr, OnOk};
ghost use Rattle.std.specs.List.{All, list_any};
ghost use Rattle.xd_doc.specs.Document.{Document};
ghost use Rattle.xd_auto.specs.Automaton.{Extends, IsJoined, IsState, IsWrapped, KeepsAccepting, accepts, state_number};
ghost use Rattle.xd_auto.specs.Copying.{AreUnited, IsAround, IsCopyOf, IsReached};

use super::copying::{add_moves, copy_states, reach_from, without_copies};
use super::{Auto, LabelMove, Moves, State};
use std::alloc::Global;
use xd_doc::{Class, Label, NoMemory};

impl Auto {
    /// A state that accepts what either of two states accepts.
    ///
    /// It adds one state, which has copies of their moves.
    /// After `NoMemory` old states accept what they did; the automaton may have more states.
    pub fn union(&mut self, one: State, two: State) -> Result<State, NoMemory>
        requires one { IsState self.old one }
        requires two { IsState self.old two }
        ensures ok { IfOk result (λ made. (d : Document) → accepts self.new d made ≡ (accepts self.old d one || accepts self.old d two)) }
        ensures belongs { IfOk result (IsState self.new) }
        ensures count { OnOk result (length self.new ≡ length self.old + 1) }
        ensures err { OnErr result (self.new ≡ self.old) }
        ensures extends { Extends self.old self.new }
        ensures keeps { KeepsAccepting self.old self.new }
    {
        self.unite(&[one, two])
    }

    /// A state that accepts what some of these states accept.
    ///
    /// It adds one state, which has copies of their moves.
    /// After `NoMemory` old states accept what they did; the automaton may have more states.
    pub fn unite(&mut self, states: &[State]) -> Result<State, NoMemory>
        requires { All (IsState self.old) states.now }
        ensures ok { IfOk result (λ made. (d : Document) → accepts self.new d made ≡ list_any (accepts self.old d) states.now) }
        ensures belongs { IfOk result (IsState self.new) }
        ensures count { OnOk result (length self.new ≡ length self.old + 1) }
        ensures err { OnErr result (self.new ≡ self.old) }
        ensures extends { Extends self.old self.new }
        ensures keeps { KeepsAccepting self.old self.new }
    {
        let number = self.len();
        let alloc = *self.states.allocator();
        let mut made = Vec::new(alloc);
        made.push(moves_of_all(alloc, self, states)?)?;
        self.extend(made)?;
        Ok(State { number })
    }

    /// A state that accepts what one state accepts, followed by what the other accepts.
    ///
    /// It adds copies of the states that the first leads to for what follows. Where a copied state
    /// accepts the empty document, its copy has the moves of the second state too.
    /// After `NoMemory` old states accept what they did; the automaton may have more states.
    pub fn concat(&mut self, one: State, two: State) -> Result<State, NoMemory>
        requires one { IsState self.old one }
        requires two { IsState self.old two }
        ensures ok { IfOk result (λ made. (d : Document) → (accepts self.new d made ≡ true) ↔ IsJoined self.old one two d) }
        ensures belongs { IfOk result (IsState self.new) }
        ensures err { OnErr result (self.new ≡ self.old) }
        ensures extends { Extends self.old self.new }
        ensures keeps { KeepsAccepting self.old self.new }
    {
        let number = self.len();
        let alloc = *self.states.allocator();
        let reach = reach_from(alloc, self, one, number, false)?;
        let contents = without_copies(alloc);
        let made = copy_states(
            alloc,
            self,
            &reach.order,
            &contents,
            &reach.copies,
            Some(two),
        )?;
        self.extend(made)?;
        Ok(State { number })
    }

    /// A state that accepts one element with this label, whose content the given state accepts.
    ///
    /// It adds two states.
    /// After `NoMemory` old states accept what they did; the automaton may have more states.
    pub fn wrap(&mut self, label: &Label, content: State) -> Result<State, NoMemory>
        requires { IsState self.old content }
        ensures ok { IfOk result (λ made. (d : Document) → (accepts self.new d made ≡ true) ↔ IsWrapped self.old label.now content d) }
        ensures belongs { IfOk result (IsState self.new) }
        ensures count { OnOk result (length self.new ≡ length self.old + 2) }
        ensures err { OnErr result (self.new ≡ self.old) }
        ensures extends { Extends self.old self.new }
        ensures keeps { KeepsAccepting self.old self.new }
    {
        let number = self.len();
        let alloc = *self.states.allocator();
        let end = State { number: number + 1 };
        let mut made = Vec::new(alloc);
        made.push(around(alloc, label, content, end)?)?;
        made.push(Moves::new(alloc, true))?;
        self.extend(made)?;
        Ok(State { number })
    }

    /// Copies a state of another automaton, which accepts the same.
    ///
    /// Only the states that it leads to are copied with it, each once.
    /// After `NoMemory` old states accept what they did; the automaton may have more states.
    pub fn absorb(&mut self, other: &Auto, state: State) -> Result<State, NoMemory>
        requires { IsState other.now state }
        ensures ok { IfOk result (λ made. (d : Document) → accepts self.new d made ≡ accepts other.now d state) }
        ensures belongs { IfOk result (IsState self.new) }
        ensures copies { IfOk result (λ made. (s : State) → IsState self.new s → length self.old ≤ state_number s → IsReached self.new made s) }
        ensures originals { IfOk result (λ made. (s : State) → IsState self.new s → length self.old ≤ state_number s → IsCopyOf other.now state self.new made s) }
        ensures few { OnOk result (length self.new ≤ length self.old + length other.now) }
        ensures err { OnErr result (self.new ≡ self.old) }
        ensures extends { Extends self.old self.new }
        ensures keeps { KeepsAccepting self.old self.new }
    {
        let number = self.len();
        let alloc = *self.states.allocator();
        let reach = reach_from(alloc, other, state, number, true)?;
        let made = copy_states(
            alloc,
            other,
            &reach.order,
            &reach.copies,
            &reach.copies,
            None,
        )?;
        self.extend(made)?;
        Ok(State { number })
    }
}

/// The moves of all these states.
fn moves_of_all(alloc: Global, auto: &Auto, states: &[State]) -> Result<Moves, NoMemory>
    requires { All (IsState auto.now) states.now }
    ensures { IfOk result (AreUnited auto.now states.now) }
{
    let none = without_copies(alloc);
    let mut made = Moves::new(alloc, false);
    for state in states {
        let last = made.last | auto.is_last(*state);
        made.set_last(last);
        add_moves(&mut made, auto, *state, &none, &none)?;
    }
    Ok(made)
}

/// One move, on an element with this label.
fn around(alloc: Global, label: &Label, content: State, rest: State) -> Result<Moves, NoMemory>
    ensures { IfOk result (IsAround label.now content rest) }
{
    let mut names = Vec::new(alloc);
    names.push(label.share()?)?;
    let class = Class::new(alloc, names, false)?;
    let mut made = Moves::new(alloc, false);
    made.push_label(LabelMove {
        class,
        content,
        rest,
    })?;
    Ok(made)
}

/// The part of an automaton that a state leads to: an automaton with the states that are reached
/// from the answer's state alone, which accepts the same. No state is copied twice.
/// `NoMemory` where there is no room for it; the automaton that is given stays as it is.
pub fn trim(alloc: Global, auto: &Auto, state: State) -> Result<(Auto, State), NoMemory>
    requires { IsState auto.now state }
    ensures ok { IfOk result (λ made. (d : Document) → accepts made.0 d made.1 ≡ accepts auto.now d state) }
    ensures belongs { IfOk result (λ made. IsState made.0 made.1) }
    ensures reached { IfOk result (λ made. (s : State) → IsState made.0 s → IsReached made.0 made.1 s) }
    ensures originals { IfOk result (λ made. (s : State) → IsState made.0 s → IsCopyOf auto.now state made.0 made.1 s) }
    ensures few { IfOk result (λ made. length made.0 ≤ length auto.now) }
{
    let mut made = Auto::new(alloc);
    let start = made.absorb(auto, state)?;
    Ok((made, start))
}
