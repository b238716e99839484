//! How whole a hub says that a trace is, from whom it asked and what the lives of nodes say (`docs/RULES.md`, "The hub").
#![tactic(auto)]

mod asked;
mod laws;
mod led;
mod pages;
mod verdict;
mod words;

pub use asked::{claim_at, claims};
pub use laws::whole_is_said_of_closed_lives;
pub use pages::{HeldPages, are_full};
pub use verdict::{has_all, is_whole};
pub use words::{LifeWord, NodeWord, life_at, life_word, node_word};
