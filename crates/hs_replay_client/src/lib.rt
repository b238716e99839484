//! A client of a replay on one thread: it does the operations of its list, draws buffers from its node's pool, and keeps what it
//! sends until its agent takes it (`docs/RULES.md`, "What clients send").
#![tactic(auto)]

mod client;
mod doing;
mod pooled;
mod well;
mod writer;

pub use client::ReplayClient;
pub use well::Well;
