//! Why a text is no journal.

ghost use Rattle.std.specs.Prelude.{◌≡◌};
ghost use Rattle.hs_journal.specs.Reasons.{reason_text};

use std::fmt;
use thiserror::Error;

/// What is wrong with a line (`docs/FORMATS.md`, "The journal"). The reasons stand in the order in
/// which they are asked.
#[derive(Clone, Copy, Debug, PartialEq, Eq)]
pub enum JournalReason {
    /// The text ends within this line, or where it would begin.
    Truncated,
    /// A byte does not print.
    Byte,
    /// A word of the line is empty: there is a space too many, or no word at all.
    Spaces,
    /// The first word may not stand here.
    Word,
    /// There are too few or too many words.
    Count,
    /// A number is expected, and the word is none.
    Number,
    /// A number is outside its range.
    Range,
    /// The draws or the log are not those of the next client or node.
    Order,
}

impl JournalReason {
    /// The reason's word, as a refusal names it.
    pub fn word(self) -> &'static str
        ensures { result.now ≡ reason_text self }
    {
        match self {
            JournalReason::Truncated => "Truncated",
            JournalReason::Byte => "Byte",
            JournalReason::Spaces => "Spaces",
            JournalReason::Word => "Word",
            JournalReason::Count => "Count",
            JournalReason::Number => "Number",
            JournalReason::Range => "Range",
            JournalReason::Order => "Order",
        }
    }
}

impl fmt::Display for JournalReason {
    fn fmt<W: fmt::Write>(&self, f: &mut fmt::Formatter<W>) -> fmt::Result {
        write!(f, "{}", self.word())
    }
}

/// The first bad line, from 1, and the first reason that it has.
#[derive(Clone, Copy, Debug, PartialEq, Eq, Error)]
#[error("line {line} {reason}")]
pub struct JournalRefusal {
    pub line: u32,
    pub reason: JournalReason,
}

/// Why there is no journal.
#[derive(Clone, Copy, Debug, PartialEq, Eq, Error)]
pub enum JournalError {
    /// The text is no journal.
    #[error("refused {0}")]
    Refused(JournalRefusal),
    /// Memory ran out.
    #[error("out of memory")]
    Memory,
}
