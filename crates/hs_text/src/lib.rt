//! The words of texts: how lines, numbers, traces and payloads are read and written
//! (`docs/FORMATS.md`, "Texts").

#![tactic(auto)]

mod digits;
mod opening;
mod reading;
mod spelled;
mod stop;
mod tidy;
mod values;
mod words;
mod writing;

pub use opening::{LineReasons, open_seen_line};
pub use reading::{
    LineFault, count_words, decode_payload, hex_number, is_payload, line_fault, number,
    payload_len, split_line, split_word,
};
pub use spelled::{Spelled, spelled_word};
pub use stop::Stop;
pub use tidy::is_tidy;
pub use words::{Words, hex_in, number_in};
pub use writing::{
    end_line, push_hex, push_number, push_payload, push_spaced, push_spaced_hex,
    push_spaced_number, push_spaced_numbers, push_spaced_payload, push_spaced_trace,
    push_spaced_traces,
};
