//! Why a text is no workload.

ghost use Rattle.std.specs.Prelude.{◌≡◌};
ghost use Rattle.hs_workload.specs.Reasons.{reason_text};

use std::fmt;
use thiserror::Error;

/// What is wrong with a line (`docs/FORMATS.md`, "Refusals"). The reasons stand in the order in which
/// they are asked.
#[derive(Clone, Copy, Debug, PartialEq, Eq)]
pub enum Reason {
    /// The text ends within this line, or where it would begin.
    Truncated,
    /// A byte does not print.
    Byte,
    /// A word of the line is empty: there is a space too many, or no word at all.
    Spaces,
    /// The first word may not stand here.
    Word,
    /// There are too few or too many words.
    Count,
    /// A number is expected, and the word is none.
    Number,
    /// A trace or a payload is expected, and the word is none.
    Hex,
    /// A number is too small or too great, or a payload is too long.
    Range,
    /// A client is not the next one.
    Order,
    /// What is named was not declared.
    Unknown,
    /// A trace is begun while one is open.
    Open,
    /// A trace is needed and none is open.
    NoTrace,
    /// A client ends while a trace is open.
    StillOpen,
    /// The operations so far are too many.
    TooMany,
}

impl Reason {
    /// The reason's word, as a refusal names it.
    pub fn word(self) -> &'static str
        ensures { result.now ≡ reason_text self }
    {
        match self {
            Reason::Truncated => "Truncated",
            Reason::Byte => "Byte",
            Reason::Spaces => "Spaces",
            Reason::Word => "Word",
            Reason::Count => "Count",
            Reason::Number => "Number",
            Reason::Hex => "Hex",
            Reason::Range => "Range",
            Reason::Order => "Order",
            Reason::Unknown => "Unknown",
            Reason::Open => "Open",
            Reason::NoTrace => "NoTrace",
            Reason::StillOpen => "StillOpen",
            Reason::TooMany => "TooMany",
        }
    }
}

impl fmt::Display for Reason {
    fn fmt<W: fmt::Write>(&self, f: &mut fmt::Formatter<W>) -> fmt::Result {
        write!(f, "{}", self.word())
    }
}

/// The first bad line, from 1, and the first reason that it has.
#[derive(Clone, Copy, Debug, PartialEq, Eq, Error)]
#[error("line {line} {reason}")]
pub struct Refusal {
    pub line: u32,
    pub reason: Reason,
}

/// Why there is no workload.
#[derive(Clone, Copy, Debug, PartialEq, Eq, Error)]
pub enum ReadError {
    /// The text is no workload.
    #[error("refused {0}")]
    Refused(Refusal),
    /// Memory ran out.
    #[error("out of memory")]
    Memory,
}
