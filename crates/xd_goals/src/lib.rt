//! Inclusion between the states of a tree automaton, decided by a table of goals.
#![tactic(auto)]

mod goals;
mod grow;
mod inclusion;
mod laws;
mod settled;
mod table;
mod takers;
mod work;

pub use inclusion::{Verdict, decide};
pub use laws::{
    choices_keep_rules, new_tables_stand, settled_goals_are_true, tables_stay_standing,
};
pub use table::{Choice, ChoiceNode, GoalId, Standing, Table};
pub use xd_rules::Atom;
