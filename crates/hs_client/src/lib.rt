//! A client's core: it cuts what a client records into pages, and writes them into buffers that its caller
//! draws (`docs/RULES.md`, "The client"). And, as plain data, what the clients of a workload send to their nodes' agents, and that each
//! client of a valid workload may be played: the laws of `sending_laws` (`docs/RULES.md`, "What clients send").
#![tactic(auto)]

mod answers;
mod client;
mod laws;
pub mod sending_laws;

pub use answers::{Begun, Ended, Pointed};
pub use client::ClientCore;
pub use laws::any_steps_make_the_book;
