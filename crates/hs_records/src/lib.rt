//! Workloads, journals and the books of clients and agents, in memory and as plain data; which workloads and journals are
//! valid; and what workloads come to: records, the pieces of their payloads, and pages. The definitions stand in `specs/`, and
//! what holds of them is the contract of a function in `laws`.

#![tactic(auto)]

mod books;
mod journal;
mod laws;
mod operation;
mod pieces;
mod setting;

pub use books::{AgentBook, Claim, ClientBook, PageNote, Standing};
pub use journal::{Draw, Journal, Step};
pub use laws::{
    pages_carry_the_records, pages_hold_the_pieces, payloads_are_cut_from_the_front,
    pieces_are_counted, pieces_are_full, pieces_join_to_the_payload,
    the_longest_runs_are_the_pages,
};
pub use operation::{Op, Workload};
pub use pieces::{piece_count, piece_limit};
pub use setting::Setting;
