//! The syntax of types, patterns and programs, and what they mean.
#![tactic(auto)]

mod copies;
mod exprs;
mod fault;
mod nodes;
mod order;
mod patterns;
mod program;
mod types;

pub use exprs::{Clause, ExprForm, ExprId, ExprNode, Exprs};
pub use fault::{Fault, FaultKind, Warning};
pub use nodes::{FormView, NodeView, Nodes};
pub use order::sort_faults;
pub use patterns::{PatternForm, PatternId, PatternNode, Patterns};
pub use program::{Function, Param, Program};
pub use types::{TypeDef, TypeForm, TypeId, TypeNode, Types};

/// How deep a text may be nested.
pub const NESTING_LIMIT: usize = 256;
