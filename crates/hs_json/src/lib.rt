//! The text of an outcome in either form: in lines, or with its reports as one line of JSON (`docs/FORMATS.md`, "The outcome").
#![tactic(auto)]

mod parts;
mod values;
mod writing;

pub use hs_report::{Form, Parts};
pub use writing::{outcome_parts, write_outcome};
