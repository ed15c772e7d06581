//! What the scrutinees of matches may be: the states that the check has for them.

ghost use Rattle.std.specs.Prelude.{◌≡◌, [], IfOk, OnOk};
ghost use Rattle.std.specs.List.{AllByRecursion, AllZip};
ghost use Rattle.xd_auto.specs.Automaton.{IsState};
ghost use Rattle.xd_syntax.specs.Order.{ordered};
ghost use Rattle.xd_check_steps.specs.declared.findings.MetMatch.{MetMatch};
ghost use Rattle.xd_scrutinees.specs.Scrutinees.{AreMatchStates, AreScrutinees, StandsAlone, met_precedes};

use std::alloc::Global;
use xd_auto::{Auto, State, trim};
use xd_check::Checker;
use xd_check_steps::{Findings, Known, MetMatch};
use xd_clauses::CompiledPatterns;
use xd_doc::{NoMemory, Store};
use xd_least::LeastInhabitants;
use xd_patterns::PatternCompiler;
use xd_sound::{Checked, SoundProgram};
use xd_syntax::ExprId;

/// A match of a program, and what its scrutinee may be.
#[derive(Drop)]
pub struct Scrutinee {
    /// The match.
    pub expr: ExprId,
    /// An automaton of its own.
    pub auto: Auto,
    /// The state that accepts what the scrutinee may be where the match stands.
    pub state: State,
}

/// The matches of a program, whose scrutinees are states of one automaton, and what it takes to go
/// on with that automaton.
#[derive(Drop)]
pub struct MatchStates {
    /// The program, to which the walk has added types.
    pub sound: SoundProgram,
    /// What compiles the program's patterns.
    pub compiler: PatternCompiler,
    /// The patterns of its clauses.
    pub patterns: CompiledPatterns,
    /// What is known of the automaton's states, with documents of the store.
    pub inhabitants: LeastInhabitants,
    pub store: Store,
    /// In order of place.
    pub matches: Vec<MetMatch>,
}

/// For each match that doesn't stand inside the body of a clause that is never reached, in order of
/// place, an automaton with a state that accepts exactly what its scrutinee may be.
///
/// The program is copied for that, since the check adds types to it. Fails only where memory is
/// refused.
pub fn scrutinees(alloc: Global, checked: &Checked) -> Result<Vec<Scrutinee>, NoMemory>
    ensures { IfOk result (λ found. AreScrutinees checked.now found.items) }
{
    let mut auto = Auto::new(alloc);
    let met = met_matches(alloc, checked, &mut auto)?;
    apart(alloc, &auto, &met.matches)
}

/// The same with all states in one automaton, which had none yet.
///
/// Fails only where memory is refused. Nothing is said of the automaton then.
pub fn met_matches(
    alloc: Global,
    checked: &Checked,
    auto: &mut Auto,
) -> Result<MatchStates, NoMemory>
    requires { auto.old ≡ [] }
    ensures { IfOk result (AreMatchStates checked.now auto.new) }
{
    let sound = checked.sound().copy(alloc)?;
    let checker = Checker::new(alloc, sound, auto)?;
    let mut store = Store::new(alloc);
    let mut findings = Findings::new(alloc, auto, &store);
    checker.in_functions(auto, &mut findings, &mut store)?;
    sort_matches(&mut findings.met)?;
    let Findings { known, met, .. } = findings;
    let Known { inhabitants, .. } = known;
    let Checker {
        sound,
        compiler,
        patterns,
        ..
    } = checker;
    Ok(MatchStates {
        sound,
        compiler,
        patterns,
        inhabitants,
        store,
        matches: met,
    })
}

/// Sorts matches by place; those of one place stay in their order.
fn sort_matches(met: &mut Vec<MetMatch>) -> Result<(), NoMemory>
    ensures { OnOk result (met.new.items ≡ ordered met_precedes met.old.items) }
{
    met.sort_by_key(|found| found.place)?;
    Ok(())
}

/// The same in automata of their own.
fn apart(alloc: Global, auto: &Auto, met: &[MetMatch]) -> Result<Vec<Scrutinee>, NoMemory>
    requires { AllByRecursion (λ (x : MetMatch). IsState auto.now x.state) met.now }
    ensures { IfOk result (λ made. AllZip (StandsAlone auto.now) met.now made.items) }
{
    let mut made = Vec::with_capacity(alloc, met.len())?;
    for found in met {
        let (auto, state) = trim(alloc, auto, found.state)?;
        made.push(Scrutinee {
            expr: found.expr,
            auto,
            state,
        })?;
    }
    Ok(made)
}
