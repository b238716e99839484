//! Why a text is no settings of a service.

ghost use Rattle.std.specs.Prelude.{◌≡◌};
ghost use Rattle.hs_settings.specs.Reasons.{reason_text};

use std::fmt;
use thiserror::Error;

/// What is wrong with a line (`docs/FORMATS.md`, "Refusals of settings"). The reasons stand in the order in which they are asked.
#[derive(Clone, Copy, Debug, PartialEq, Eq)]
pub enum SettingsReason {
    /// The text ends within this line.
    Truncated,
    /// A byte does not print.
    Byte,
    /// A word of the line is empty: there is a space too many.
    Spaces,
    /// The first word is none of a setting, or the third is no kind of an autotrigger.
    Word,
    /// An earlier line has the same first word.
    Twice,
    /// There are too few or too many words.
    Count,
    /// A number is expected, and the word is none.
    Number,
    /// A number is too small or too great.
    Range,
    /// A trigger id does not rise above the one before, or an autotrigger is not the next one.
    Order,
    /// The trigger id that is named was declared by no earlier line.
    Unknown,
}

impl SettingsReason {
    /// The reason's word, as a refusal names it.
    pub fn word(self) -> &'static str
        ensures { result.now ≡ reason_text self }
    {
        match self {
            SettingsReason::Truncated => "Truncated",
            SettingsReason::Byte => "Byte",
            SettingsReason::Spaces => "Spaces",
            SettingsReason::Word => "Word",
            SettingsReason::Twice => "Twice",
            SettingsReason::Count => "Count",
            SettingsReason::Number => "Number",
            SettingsReason::Range => "Range",
            SettingsReason::Order => "Order",
            SettingsReason::Unknown => "Unknown",
        }
    }
}

impl fmt::Display for SettingsReason {
    fn fmt<W: fmt::Write>(&self, f: &mut fmt::Formatter<W>) -> fmt::Result {
        write!(f, "{}", self.word())
    }
}

/// The first bad line, from 1, and the first reason that it has.
#[derive(Clone, Copy, Debug, PartialEq, Eq, Error)]
#[error("line {line} {reason}")]
pub struct SettingsRefusal {
    pub line: u64,
    pub reason: SettingsReason,
}

/// Why there are no settings.
#[derive(Clone, Copy, Debug, PartialEq, Eq, Error)]
pub enum SettingsFault {
    /// A line is bad.
    #[error("refused {0}")]
    Refused(SettingsRefusal),
    /// No line is bad, but all lines together leave no buffer beside threshold, pins and clients.
    #[error("no room below buffers")]
    NoRoom,
    /// Memory ran out.
    #[error("out of memory")]
    Memory,
}
