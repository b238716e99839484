//! The first words of lines, and the kinds of autotriggers.

ghost use Rattle.std.specs.Prelude.{◌≡◌};
ghost use Rattle.hs_settings.specs.Statements.{may_have, kind_count};

use crate::setting::ServiceSetting;
use hs_text::Spelled;

/// The first word of a line.
#[derive(Clone, Copy)]
pub enum Keyword {
    Setting(ServiceSetting),
    TriggerId,
    Auto,
}

/// The kind of an autotrigger.
#[derive(Clone, Copy)]
pub enum Kind {
    Exception,
    Percentile,
    Category,
    Queue,
}

impl Keyword {
    /// Whether so many numbers may stand behind the word, where only numbers do.
    pub fn may_have(self, count: usize) -> bool
        ensures { result ≡ may_have self count }
    {
        match self {
            Keyword::Setting(_) => count == 1,
            Keyword::TriggerId => count == 1 || count == 4,
            Keyword::Auto => false,
        }
    }
}

impl Kind {
    /// How many numbers stand behind the kind.
    pub fn number_count(self) -> usize
        ensures { result ≡ kind_count self }
    {
        match self {
            Kind::Exception => 1,
            Kind::Percentile | Kind::Category => 3,
            Kind::Queue => 4,
        }
    }
}

/// The words that a line may begin with.
const KEYWORDS: [Keyword; 15] = [
    Keyword::TriggerId,
    Keyword::Auto,
    Keyword::Setting(ServiceSetting::Nodes),
    Keyword::Setting(ServiceSetting::Clients),
    Keyword::Setting(ServiceSetting::Buffers),
    Keyword::Setting(ServiceSetting::Size),
    Keyword::Setting(ServiceSetting::Threshold),
    Keyword::Setting(ServiceSetting::Traces),
    Keyword::Setting(ServiceSetting::Pins),
    Keyword::Setting(ServiceSetting::Backlog),
    Keyword::Setting(ServiceSetting::Claims),
    Keyword::Setting(ServiceSetting::Remember),
    Keyword::Setting(ServiceSetting::Groups),
    Keyword::Setting(ServiceSetting::Hold),
    Keyword::Setting(ServiceSetting::Bytes),
];

/// The kinds of autotriggers.
const KINDS: [Kind; 4] = [
    Kind::Exception,
    Kind::Percentile,
    Kind::Category,
    Kind::Queue,
];

impl Spelled for Keyword {
    ghost use Rattle.hs_settings.specs.Statements.{keyword_text, all_keywords, keywords_told_apart};

    ghost spelling = { keyword_text };

    ghost every = { all_keywords };

    fn text(self) -> &'static [u8] {
        match self {
            Keyword::TriggerId => b"triggerid",
            Keyword::Auto => b"auto",
            Keyword::Setting(ServiceSetting::Nodes) => b"nodes",
            Keyword::Setting(ServiceSetting::Clients) => b"clients",
            Keyword::Setting(ServiceSetting::Buffers) => b"buffers",
            Keyword::Setting(ServiceSetting::Size) => b"size",
            Keyword::Setting(ServiceSetting::Threshold) => b"threshold",
            Keyword::Setting(ServiceSetting::Traces) => b"traces",
            Keyword::Setting(ServiceSetting::Pins) => b"pins",
            Keyword::Setting(ServiceSetting::Backlog) => b"backlog",
            Keyword::Setting(ServiceSetting::Claims) => b"claims",
            Keyword::Setting(ServiceSetting::Remember) => b"remember",
            Keyword::Setting(ServiceSetting::Groups) => b"groups",
            Keyword::Setting(ServiceSetting::Hold) => b"hold",
            Keyword::Setting(ServiceSetting::Bytes) => b"bytes",
        }
    }

    fn all() -> &'static [Keyword] {
        &KEYWORDS
    }

    ghost told_apart = { keywords_told_apart };
}

impl Spelled for Kind {
    ghost use Rattle.hs_settings.specs.Statements.{kind_text, all_kinds, kinds_told_apart};

    ghost spelling = { kind_text };

    ghost every = { all_kinds };

    fn text(self) -> &'static [u8] {
        match self {
            Kind::Exception => b"exception",
            Kind::Percentile => b"percentile",
            Kind::Category => b"category",
            Kind::Queue => b"queue",
        }
    }

    fn all() -> &'static [Kind] {
        &KINDS
    }

    ghost told_apart = { kinds_told_apart };
}
