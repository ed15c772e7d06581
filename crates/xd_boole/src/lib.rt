//! Sets of states of tree automata: how their moves refuse, like states made one, and states that
//! accept everything.
#![tactic(auto)]

mod bisimilar;
mod choices;
mod classes;
mod disjoint;
mod groups;
mod matching;
mod merging;
mod refusals;
mod states;
mod step;
mod taken;
mod universal;

pub use bisimilar::merged_at;
pub use choices::SideChoice;
pub use classes::common_labels;
pub use disjoint::near_moves;
pub use groups::{Group, MoveSide, side_of, text_groups_before};
pub use matching::moves_before;
pub use merging::merged;
pub use refusals::{LabelRefusal, label_refusals};
pub use states::{any_last, set_of};
pub use taken::{Taken, taken_from};
pub use universal::{any_marked, is_marked, is_universal, universal_states, with_universal};
