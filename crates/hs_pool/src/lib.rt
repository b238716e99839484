//! The pool of a node: the buffers that its clients draw and its agent gives back, in one queue
//! (`docs/RULES.md`, "The pool").
#![tactic(auto)]

mod laws;
mod plain;

pub use laws::what_is_out_may_be_given;
pub use plain::PlainPool;
