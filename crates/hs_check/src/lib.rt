//! Whether a journal is lawful for a workload: the outcome of the two, or the first clause that fails. Two clauses are decided here: the
//! seventh, that what is unread could be, and the eleventh, that agents and coordinator do not fall behind the clients (`docs/RULES.md`,
//! "The lawful journal").
#![tactic(auto)]

mod asking;
mod asks;
mod clause;
mod counts;
mod ending;
mod gives;
mod input;
mod items;
mod kinds;
mod pace;
mod page_draws;
mod shown;
mod unreads;
mod verdict;

pub use clause::Clause;
pub use input::{Split, split_input};
pub use pace::has_pace;
pub use unreads::has_unreads;
pub use verdict::{Verdict, check};
