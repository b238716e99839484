//! The top call: all of the program over a handed-in source, sink and gate.
#![tactic(auto)]

mod answer;
mod checking;
mod command;
mod comparing;
mod top;
mod unwatched;
mod watching;

pub use command::Command;
pub use hs_workload::Status;
pub use top::hindsight;
pub use unwatched::hindsight_unwatched;
