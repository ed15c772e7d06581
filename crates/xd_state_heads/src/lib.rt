//! The heads of a tree automaton's states, as goals of inclusion see them: the cases of a claim,
//! and the right heads that match an atom.
#![tactic(auto)]

mod heads;

pub use heads::{Side, Unnamed, Want, goal_cases, head_of, sides_of, unnamed_of};
