//! The workload text, and the streams of a program that reads one. The text has its grammar, and a reader that names the first bad line
//! and its first reason (`docs/FORMATS.md`, "The workload"). A program reads a source to its end, refuses an input that is no workload
//! or is too long, writes a text whole, and ends with a number (`docs/FORMATS.md`, "The program"). Standard input and output are such a
//! source and sink.
#![tactic(auto)]

mod draft;
mod laws;
mod line;
mod reader;
mod reading;
mod refusal;
mod refusing;
mod rules;
mod standard;
mod status;
mod word;
mod writer;
mod writing;

pub use hs_records::{Op, Workload};
pub use laws::{faultless_texts_read, one_workload_a_text, versions_are_exchanged};
pub use reader::read_workload;
pub use reading::{ReadInput, read_all};
pub use refusal::{ReadError, Reason, Refusal};
pub use refusing::{refusal_line, refuse_too_long};
pub use standard::{StdinSource, StdoutSink};
pub use status::Status;
pub use writer::write_workload;
pub use writing::{finish, finish_both};
