//! From which queue steps take.

ghost use Rattle.std.specs.Prelude.{◌≡◌};
ghost use Rattle.hs_law_journal.specs.Following.{takes, taken};
ghost use Rattle.hs_check_follow.specs.Sources.{queue_of};

use hs_records::Step;

/// A queue of a node. A client is named by its number there.
#[derive(Clone, Copy)]
pub(crate) enum NodeQueue {
    Chunks { client: u16 },
    Crumbs { client: u16 },
    Triggers { client: u16 },
    Asks,
}

impl NodeQueue {
    /// Whether a step takes from the queue.
    pub(crate) fn gives(self, step: Step) -> bool
        ensures { result ≡ takes (queue_of self) step }
    {
        match (self, step) {
            (NodeQueue::Chunks { client }, Step::Chunk { client: other }) => other == client,
            (NodeQueue::Crumbs { client }, Step::Crumb { client: other }) => other == client,
            (NodeQueue::Triggers { client }, Step::Trigger { client: other }) => other == client,
            (NodeQueue::Asks, Step::Ask) => true,
            _ => false,
        }
    }

    /// How many items of the queue these steps take.
    pub(crate) fn count(self, log: &[Step]) -> usize
        ensures { result ≡ taken (queue_of self) log.now }
    {
        let mut count = 0;
        for step in log {
            if self.gives(*step) {
                count += 1;
            }
        }
        count
    }
}
