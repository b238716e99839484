//! The text of a journal: its grammar, and the reader that names the first bad line and its first reason
//! (`docs/FORMATS.md`, "The journal").
#![tactic(auto)]

pub mod laws;
mod line;
mod part;
mod reader;
mod reading;
mod refusal;
mod word;
mod writer;

pub use hs_records::{AgentBook, Claim, ClientBook, Draw, Journal, PageNote, Standing, Step};
pub use reading::read_journal;
pub use refusal::{JournalError, JournalReason, JournalRefusal};
pub use writer::write_journal;
