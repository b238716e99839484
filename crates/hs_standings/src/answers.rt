//! What the calls take and answer.

ghost use Rattle.std.specs.Prelude.{◌≡◌};
ghost use Rattle.hs_standings.specs.Closing.{is_closed, says_whole, knows_all};

use hs_wire::{Standing, Wholeness};

/// A life of a node: the node, and the epoch in which it speaks.
#[derive(Clone, Copy, Debug, PartialEq, Eq, Hash)]
pub struct Life {
    pub node: u16,
    pub epoch: u64,
}

/// A standing, with the number of the message that said it.
#[derive(Clone, Copy, Debug, PartialEq, Eq)]
pub struct Latest {
    pub number: u64,
    pub standing: Standing,
}

impl Latest {
    /// Whether a life is closed to the trace: it says whole or unheard, and no segment is open.
    pub fn is_closed(&self) -> bool
        ensures { result ≡ is_closed self.now }
    {
        match self.standing.wholeness {
            Wholeness::WholeSince | Wholeness::UnheardSince => self.standing.open_segments == 0,
            Wholeness::Lost | Wholeness::Unknown | Wholeness::Open => false,
        }
    }

    /// Whether a life says that its part of the trace is whole, and no segment is open.
    pub fn says_whole(&self) -> bool
        ensures { result ≡ says_whole self.now }
    {
        match self.standing.wholeness {
            Wholeness::WholeSince => self.standing.open_segments == 0,
            Wholeness::UnheardSince | Wholeness::Lost | Wholeness::Unknown | Wholeness::Open =>
                false,
        }
    }

    /// Whether a life is closed to the trace, and has notes of it if it ever had any: it says whole, or unheard since its first segment.
    pub fn knows_all(&self) -> bool
        ensures { result ≡ knows_all self.now }
    {
        match self.standing.wholeness {
            Wholeness::WholeSince => self.standing.open_segments == 0,
            Wholeness::UnheardSince => self.standing.open_segments == 0
                && self.standing.horizon == 0,
            Wholeness::Lost | Wholeness::Unknown | Wholeness::Open => false,
        }
    }
}

/// What became of a standing.
#[derive(Clone, Copy, Debug, PartialEq, Eq)]
pub enum StandingOutcome {
    /// It is the latest of its trace and life.
    Noted,
    /// One of a later message, or of the same, is noted.
    Older,
    /// It is the first of its trace and life, and as many are noted as may be.
    Full,
}
