//! How an outcome is written.

/// How an outcome is written (`docs/FORMATS.md`, "The outcome").
#[derive(Clone, Copy, Debug, PartialEq, Eq)]
pub enum Form {
    /// Lines of words.
    Text,
    /// Lines of words, and the reports as one line of JSON.
    Json,
}
