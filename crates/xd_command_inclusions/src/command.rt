//! A module for each command.

pub mod minus;
pub mod subtype;
pub mod upgrade;
pub mod verify;
