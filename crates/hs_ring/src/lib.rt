//! The pool of a node between threads, without a lock: a draw is one step on one word, a give another, and no call waits.
#![tactic(auto)]

mod board;
mod closing;
mod counts;
mod drawer;
mod giver;
mod laws;
mod lease;
mod plays;
mod pool;
mod steps;

pub use closing::close;
pub use drawer::Drawer;
pub use giver::Giver;
pub use laws::each_buffer_is_in_one_place;
pub use lease::Lease;
pub use pool::RingPool;
