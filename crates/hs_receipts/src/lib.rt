//! Which messages of nodes wait until the traces that they serve are saved, and which may be acknowledged (`docs/RULES.md`,
//! "The hub").
#![tactic(auto)]

mod answers;
mod receipts;

pub use answers::{MessageId, ReceiptCounts, ReceiptOutcome, Waiting};
pub use receipts::Receipts;
