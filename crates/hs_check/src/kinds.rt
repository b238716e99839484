//! Kinds of steps, and how many there are.

ghost use Rattle.std.specs.Prelude.{◌≡◌, ◌∷◌, IfOk};
ghost use Rattle.hs_check.specs.Counting.{is_of, behind_each};

use crate::counts::{one_more, push_where};
use hs_base::Memory;
use hs_check_follow::is_last;
use hs_records::Step;
use std::alloc::Global;

/// A kind of steps: those that take from a queue of a node, of which a client is named by its number there; or those that have a
/// stamp.
#[derive(Clone, Copy)]
pub(crate) enum Kind {
    Chunks { client: u16 },
    Crumbs { client: u16 },
    Triggers { client: u16 },
    Asks,
    Stamped,
}

impl Kind {
    /// Whether a step is of the kind.
    pub(crate) fn has(self, step: Step) -> bool
        ensures { result ≡ is_of self step }
    {
        match (self, step) {
            (Kind::Chunks { client }, Step::Chunk { client: other }) => other == client,
            (Kind::Crumbs { client }, Step::Crumb { client: other }) => other == client,
            (Kind::Triggers { client }, Step::Trigger { client: other }) => other == client,
            (Kind::Asks, Step::Ask) => true,
            (Kind::Stamped, Step::Given { .. }) => true,
            (Kind::Stamped, Step::Missed { .. }) => true,
            _ => false,
        }
    }

    /// How many of these steps are of the kind before the first pass and behind each pass.
    pub(crate) fn count_passes(self, alloc: Global, log: &[Step]) -> Result<Vec<usize>, Memory>
        ensures { IfOk result (λ counts. counts.items ≡ 0 ∷ behind_each (is_of self) 0 log.now) }
    {
        let mut counts = Vec::new(alloc);
        counts.push(0)?;
        let mut count = 0;
        for place in 0..log.len() {
            count = one_more(self.has(log[place]), count);
            push_where(&mut counts, is_last(log, place), count)?;
        }
        Ok(counts)
    }
}
