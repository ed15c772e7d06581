//! Choice trees, as steps in prefix order.

ghost use Rattle.std.specs.Prelude.{◌≡◌, ◌+◌, ◌-◌, ◌<◌, ◌≤◌, ◌^◌, ◌≢◌, ◌⊎◌, ℕ, map, codes, drop, length, IfOk, MatchOption};
ghost use Rattle.xd_proof.specs.Forest.{SpellsTrees};
ghost use Rattle.xd_proof.specs.Steps.{IsStep, SpellsSteps, step_letter, step_number, wanted_after};

use crate::numbers::read_number;
use std::alloc::Global;
use xd_doc::NoMemory;

/// The goal of this number settles the content, or the rest; or the right head of this number is
/// split on, and the steps of its two trees follow.
#[derive(Clone, Copy)]
pub enum Step {
    /// The goal of this number settles the content.
    Content(u64),
    /// The goal of this number settles the rest.
    Rest(u64),
    /// The right head of this number is split on.
    Split(u64),
}

/// The step of this letter, if it is one.
fn step_of(letter: &[u8], number: u64) -> Option<Step>
    ensures { MatchOption result ((letter.now ≢ codes "c") × (letter.now ≢ codes "r") × (letter.now ≢ codes "?")) (λ step. (letter.now ≡ step_letter step) × (step_number step ≡ number)) }
{
    if letter == b"c".as_slice() {
        return Some(Step::Content(number));
    }
    if letter == b"r".as_slice() {
        return Some(Step::Rest(number));
    }
    if letter == b"?".as_slice() {
        return Some(Step::Split(number));
    }
    None
}

/// The step that the first two words are.
fn first_step(words: &[&[u8]]) -> Option<Step>
    ensures { MatchOption result ((n : ℕ) → SpellsTrees (n + 1) (map (λ w. w.now) words.now) → ⊥) (λ step. IsStep (map (λ w. w.now) words.now) step (map (λ w. w.now) (drop 2 words.now))) }
{
    let Some((letter, others)) = words.split_first() else {
        return None;
    };
    let Some((word, _)) = others.split_first() else {
        return None;
    };
    let Some(number) = read_number(word) else {
        return None;
    };
    step_of(letter, number)
}

/// The step at this position, where some tree is wanted.
fn next_step(wanted: usize, words: &[&[u8]], at: usize) -> Option<Step>
    requires { at ≤ length words.now }
    ensures { MatchOption result ((wanted ≡ 0) ⊎ ((n : ℕ) → SpellsTrees (n + 1) (map (λ w. w.now) (drop at words.now)) → ⊥)) (λ step. (0 < wanted) × IsStep (map (λ w. w.now) (drop at words.now)) step (map (λ w. w.now) (drop 2 (drop at words.now)))) }
{
    if wanted == 0 {
        return None;
    }
    let (_, left) = words.split_at(at);
    first_step(left)
}

/// How many trees are to come after the step.
fn wanted_after(step: Step, wanted: usize) -> usize
    requires some { 0 < wanted }
    requires small { wanted + 1 < 2 ^ 64 }
    ensures { result ≡ wanted_after step (wanted - 1) }
{
    match step {
        Step::Content(_) => wanted - 1,
        Step::Rest(_) => wanted - 1,
        Step::Split(_) => wanted + 1,
    }
}

/// The steps of the one tree that the words are. Takes time linear in the words.
pub fn read_steps(alloc: Global, words: &[&[u8]]) -> Result<Option<Vec<Step>>, NoMemory>
    ensures { IfOk result (λ made. MatchOption made (SpellsTrees 1 (map (λ w. w.now) words.now) → ⊥) (λ steps. SpellsSteps 1 (map (λ w. w.now) words.now) steps.items)) }
{
    let mut steps = Vec::new(alloc);
    let mut wanted: usize = 1;
    let mut at = 0;
    while let Some(step) = next_step(wanted, words, at) {
        steps.push(step)?;
        wanted = wanted_after(step, wanted);
        at += 2;
    }
    if wanted > 0 {
        return Ok(None);
    }
    if at < words.len() {
        return Ok(None);
    }
    Ok(Some(steps))
}
