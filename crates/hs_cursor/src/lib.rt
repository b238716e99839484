//! Goes through the records of the pages of a trace one by one, in constant memory (`docs/RULES.md`, "The hub").
#![tactic(auto)]

mod cursor;
mod laws;
mod reading;

pub use cursor::{Cursor, Row};
pub use laws::rows_come_in_order;
