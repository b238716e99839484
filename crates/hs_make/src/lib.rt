//! Made workloads: requests that are drawn from a seed, each through one to three nodes
//! (`docs/FORMATS.md`, "The made workload").
#![tactic(auto)]

mod draws;
mod laws;
mod made;
mod request;
mod visit;

pub use laws::made_workloads_are_valid;
pub use made::make_workload;
