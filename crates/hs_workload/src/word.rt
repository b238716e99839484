//! The first words of lines, and the kinds of autotriggers.

ghost use Rattle.std.specs.Prelude.{◌≡◌};
ghost use Rattle.hs_workload.specs.Statements.{number_count, kind_count};

use hs_records::Setting;
use hs_text::Spelled;

/// The first word of a line.
#[derive(Clone, Copy)]
pub enum Keyword {
    Setting(Setting),
    TriggerId,
    Auto,
    Client,
    Begin,
    Point,
    Crumb,
    End,
    Trigger,
    Sample,
    Done,
}

/// The kind of an autotrigger.
#[derive(Clone, Copy)]
pub enum Kind {
    Exception,
    Percentile,
    Category,
    Queue,
}

impl Keyword {
    /// How many numbers stand behind the word, where only numbers do.
    pub fn number_count(self) -> usize
        ensures { result ≡ number_count self }
    {
        match self {
            Keyword::Setting(_) | Keyword::Crumb => 1,
            Keyword::TriggerId => 4,
            Keyword::Client => 2,
            Keyword::Sample => 3,
            _ => 0,
        }
    }
}

impl Kind {
    /// How many numbers stand behind the kind.
    pub fn number_count(self) -> usize
        ensures { result ≡ kind_count self }
    {
        match self {
            Kind::Exception => 1,
            Kind::Percentile | Kind::Category => 3,
            Kind::Queue => 4,
        }
    }
}

/// The words that a line may begin with, those of the most lines first.
const KEYWORDS: [Keyword; 19] = [
    Keyword::Point,
    Keyword::Begin,
    Keyword::End,
    Keyword::Crumb,
    Keyword::Trigger,
    Keyword::Sample,
    Keyword::Client,
    Keyword::Done,
    Keyword::TriggerId,
    Keyword::Auto,
    Keyword::Setting(Setting::Version),
    Keyword::Setting(Setting::Nodes),
    Keyword::Setting(Setting::Clients),
    Keyword::Setting(Setting::Buffers),
    Keyword::Setting(Setting::Size),
    Keyword::Setting(Setting::Threshold),
    Keyword::Setting(Setting::Traces),
    Keyword::Setting(Setting::Pins),
    Keyword::Setting(Setting::Stride),
];

/// The kinds of autotriggers.
const KINDS: [Kind; 4] = [
    Kind::Exception,
    Kind::Percentile,
    Kind::Category,
    Kind::Queue,
];

impl Spelled for Keyword {
    ghost use Rattle.hs_workload.specs.Statements.{keyword_text, all_keywords, keywords_told_apart};

    ghost spelling = { keyword_text };

    ghost every = { all_keywords };

    fn text(self) -> &'static [u8] {
        match self {
            Keyword::Setting(Setting::Version) => b"hindsight",
            Keyword::Setting(Setting::Nodes) => b"nodes",
            Keyword::Setting(Setting::Clients) => b"clients",
            Keyword::Setting(Setting::Buffers) => b"buffers",
            Keyword::Setting(Setting::Size) => b"size",
            Keyword::Setting(Setting::Threshold) => b"threshold",
            Keyword::Setting(Setting::Traces) => b"traces",
            Keyword::Setting(Setting::Pins) => b"pins",
            Keyword::Setting(Setting::Stride) => b"stride",
            Keyword::TriggerId => b"triggerid",
            Keyword::Auto => b"auto",
            Keyword::Client => b"client",
            Keyword::Begin => b"begin",
            Keyword::Point => b"point",
            Keyword::Crumb => b"crumb",
            Keyword::End => b"end",
            Keyword::Trigger => b"trigger",
            Keyword::Sample => b"sample",
            Keyword::Done => b"done",
        }
    }

    fn all() -> &'static [Keyword] {
        &KEYWORDS
    }

    ghost told_apart = { keywords_told_apart };
}

impl Spelled for Kind {
    ghost use Rattle.hs_workload.specs.Statements.{kind_text, all_kinds, kinds_told_apart};

    ghost spelling = { kind_text };

    ghost every = { all_kinds };

    fn text(self) -> &'static [u8] {
        match self {
            Kind::Exception => b"exception",
            Kind::Percentile => b"percentile",
            Kind::Category => b"category",
            Kind::Queue => b"queue",
        }
    }

    fn all() -> &'static [Kind] {
        &KINDS
    }

    ghost told_apart = { kinds_told_apart };
}
