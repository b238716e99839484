//! What the agent of a node takes in a pass: what its clients and the hub sent it, in bounded parts. What it tells goes into the mail.
#![tactic(auto)]

mod intake;
mod making;
mod receiving;
mod took;

pub use intake::Intake;
pub use making::{MadeIntake, make_intake};
pub use receiving::receive_at;
pub use took::{Handed, PartedChunk, Stated, Stop, Took, TookTriggers, Turned};
