//! What it means to follow a journal, and that a journal is lawful for a workload. Beside it stands what agents, clients and coordinator
//! do, pass by pass, with the journal that notes it. The definitions stand in `specs/`; the laws of `laws` hold of them, some of them
//! of whatever journal is followed (`docs/RULES.md`, "The lawful journal").
#![tactic(auto)]

pub mod laws;
