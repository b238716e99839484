//! Fair reporting by weight: in each turn the trigger ids send what waits for them, each within a
//! budget that grows with its weight.
#![tactic(auto)]

mod laws;
mod queues;
mod scheduler;
mod share;

pub use laws::{turns_move_items, visits_are_fair};
pub use queues::Queues;
pub use scheduler::Scheduler;
