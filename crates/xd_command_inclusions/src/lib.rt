//! Commands on two types: `subtype`, `minus`, and `verify` and `upgrade` of proofs.
#![tactic(auto)]

mod command;

pub use command::minus::minus;
pub use command::subtype::subtype;
pub use command::upgrade::upgrade;
pub use command::verify::verify;
