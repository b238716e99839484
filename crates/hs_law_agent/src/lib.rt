//! What a node's agent is to do, as plain data: what it took, what it said, and where each chunk stands. The definitions stand in
//! `specs/`; the laws of `laws` hold of every agent that they describe, the last of them of the traces that it claims: no others than
//! those that the triggers and the asks bring that it takes (`docs/RULES.md`, "The agent").
#![tactic(auto)]

pub mod laws;
