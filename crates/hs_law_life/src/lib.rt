//! What holds over the whole life of a service's client, and of a node's agent (`docs/RULES.md`, "Between client and agent"). The definitions
//! stand in `specs/`; the laws of `clients` and of `nodes` hold of them.
#![tactic(auto)]

pub mod clients;
pub mod nodes;
