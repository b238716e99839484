//! One fate for each record: the ledger of a run, from the books of its clients and agents
//! (`docs/RULES.md`, "The ledger").
#![tactic(auto)]

mod book;
mod ledger;
mod making;
mod standings;

pub use ledger::{Entry, Ledger, Totals, is_reported};
pub use making::make_ledger;
