//! The two counts that stand in one word.
ghost use Rattle.std.specs.Prelude.{◌≡◌, ◌+◌, ◌*◌, ◌%◌, ◌^◌, ◌<◌, ◌≤◌};
ghost use Rattle.hs_ring.specs.Steps.{drawn_of, published_of};

use crate::board::{DRAWN, LEVEL};

/// How many numbers were drawn and how many were published, as one step found them.
#[derive(Clone, Copy)]
pub struct Counts {
    pub drawn: u64,
    pub published: u64,
}

impl Counts {
    /// The counts in a word.
    pub fn of(word: u64) -> Counts
        ensures drawn { result.drawn ≡ drawn_of word }
        ensures published { result.published ≡ published_of word }
    {
        let drawn = word / DRAWN;
        Counts {
            drawn,
            published: (drawn + word % DRAWN).saturating_sub(LEVEL),
        }
    }

    /// The stamp of the event of that step, in a pool of so many buffers.
    pub fn stamp(self, buffers: u32) -> u64
        requires low { buffers ≤ self.drawn + self.published }
        requires high { self.drawn + self.published < 2 ^ 42 }
        ensures { result + buffers ≡ self.drawn + self.published }
    {
        self.drawn + self.published - u64::from(buffers)
    }
}

/// The entry of a number, in a pool of so many buffers.
pub fn entry_of(number: u64, buffers: u32) -> usize
    requires { 0 < buffers }
    ensures entry { result ≡ number % (2 * buffers) }
    ensures below { result < 2 * buffers }
{
    (number % (2 * u64::from(buffers))) as usize
}
