//! What a variable of a pattern may be.
#![tactic(auto)]

mod adding;
mod ahead;
mod copying;
mod holds;
mod tracks;

pub use adding::{add_states, put_labels, put_texts};
pub use ahead::states_ahead;
pub use copying::copied;
pub use holds::Holds;
pub use tracks::{Binding, Given, Track, Tracks};
pub use xd_auto::MoveKind;
