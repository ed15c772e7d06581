//! Definitions of types written shorter, with names for parts that come again.
#![tactic(auto)]

mod any;
mod copies;
mod flags;
mod forms;
mod lengths;
mod nodes;
mod order;
mod parts;
mod plan;

pub use parts::{Definitions, shown};
