//! A module for each command.

pub mod check;
pub mod run;
pub mod sample;
pub mod types;
