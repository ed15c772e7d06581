//! A least document of those that one state accepts and another doesn't.
#![tactic(auto)]

mod apart;
mod divided;
mod over_approximation;
mod search;

pub use apart::least_apart;
