//! What a workload and a journal come to, as plain data: the fate of each record, the claimed traces, the reported pages, and the report
//! of each trace. The laws of `laws` hold of every outcome of a lawful journal, of the messages that the coordinator hears, and of what
//! each event of a node abandons; the last of them, the headline, has in one place what whoever reads an outcome may rely on. The
//! definitions stand in `specs/` (`docs/RULES.md`, "Reports").
#![tactic(auto)]

pub mod laws;
