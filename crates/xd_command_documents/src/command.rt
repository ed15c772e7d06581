//! A module for each command.

pub mod fits;
pub mod least;
pub mod stream;
