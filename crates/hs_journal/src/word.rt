//! The first words of lines.

ghost use Rattle.std.specs.Prelude.{◌≡◌};
ghost use Rattle.hs_journal.specs.Statements.{number_count};

use hs_text::Spelled;

/// The first word of a line.
#[derive(Clone, Copy)]
pub enum Keyword {
    Journal,
    Draws,
    Got,
    Empty,
    Log,
    Chunk,
    Crumb,
    Trigger,
    Ask,
    Turn,
    Given,
    Missed,
    Unread,
    Coordinator,
    Told,
    End,
}

/// The words that a line may begin with.
const KEYWORDS: [Keyword; 16] = [
    Keyword::Got,
    Keyword::Empty,
    Keyword::Chunk,
    Keyword::Crumb,
    Keyword::Trigger,
    Keyword::Ask,
    Keyword::Turn,
    Keyword::Given,
    Keyword::Missed,
    Keyword::Unread,
    Keyword::Told,
    Keyword::Draws,
    Keyword::Log,
    Keyword::Journal,
    Keyword::Coordinator,
    Keyword::End,
];

impl Spelled for Keyword {
    ghost use Rattle.hs_journal.specs.Statements.{keyword_text, all_keywords, keywords_told_apart};

    ghost spelling = { keyword_text };

    ghost every = { all_keywords };

    fn text(self) -> &'static [u8] {
        match self {
            Keyword::Journal => b"journal",
            Keyword::Draws => b"draws",
            Keyword::Got => b"got",
            Keyword::Empty => b"empty",
            Keyword::Log => b"log",
            Keyword::Chunk => b"chunk",
            Keyword::Crumb => b"crumb",
            Keyword::Trigger => b"trigger",
            Keyword::Ask => b"ask",
            Keyword::Turn => b"turn",
            Keyword::Given => b"given",
            Keyword::Missed => b"missed",
            Keyword::Unread => b"unread",
            Keyword::Coordinator => b"coordinator",
            Keyword::Told => b"told",
            Keyword::End => b"end",
        }
    }

    fn all() -> &'static [Keyword] {
        &KEYWORDS
    }

    ghost told_apart = { keywords_told_apart };
}

impl Keyword {
    /// How many numbers stand behind it.
    pub fn number_count(self) -> usize
        ensures { result ≡ number_count self }
    {
        match self {
            Keyword::Journal => 3,
            Keyword::Draws | Keyword::Got => 2,
            Keyword::Empty
            | Keyword::Log
            | Keyword::Chunk
            | Keyword::Crumb
            | Keyword::Trigger
            | Keyword::Given
            | Keyword::Missed
            | Keyword::Told => 1,
            Keyword::Ask | Keyword::Turn | Keyword::Unread | Keyword::Coordinator | Keyword::End =>
                0,
        }
    }
}
