//! The text of an outcome in lines, with the parts of this text that its other form has too (`docs/RULES.md`, "The ledger" and
//! "Reports"; `docs/FORMATS.md`, "The outcome").
#![tactic(auto)]

mod fates;
mod form;
mod kept;
mod laws;
mod ledger;
mod parts;
mod text;
mod writing;

pub use fates::{Fates, Sorted};
pub use form::Form;
pub use laws::{journals_can_be_read, lawful_journals_can_be_read};
pub use ledger::{push_fate, push_ledger};
pub use parts::{Behind, Opened, Parts, line_parts, open_behind, open_parts};
pub use writing::{close_text, open_text, sort_out, write_lines, write_total};
