//! Validation of bytes as they come in pieces.
#![tactic(auto)]

mod characters;
mod error;
mod expected;
mod labels;
mod laws;
mod machine;
mod marks;
mod pairs;
mod position;
mod runs;
mod stream;
mod validator;

pub use error::StreamError;
pub use expected::Expected;
pub use laws::stopping_laws;
pub use stream::Stream;
