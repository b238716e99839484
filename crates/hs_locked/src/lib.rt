//! The pool of a node between threads, behind a ticket lock: the simple way to share a pool, kept as the ring's yardstick
//! (`docs/RULES.md`, "The locked pool").
#![tactic(auto)]

mod board;
mod closing;
mod drawer;
mod giver;
mod laws;
mod lease;
mod lock;
mod plays;
mod pool;
mod store;

pub use closing::close;
pub use drawer::LockedDrawer;
pub use giver::LockedGiver;
pub use laws::each_buffer_is_in_one_place;
pub use lease::LockedLease;
pub use pool::LockedPool;
