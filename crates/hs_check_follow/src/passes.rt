//! The fifth clause: every log is one whole pass after another.

ghost use Rattle.std.specs.Prelude.{◌≡◌};
ghost use Rattle.std.specs.List.{list_all};
ghost use Rattle.hs_records.specs.Journals.{journal_of};
ghost use Rattle.hs_law_journal.specs.Passes.{has_passes, is_whole_pass, passes_of, queues_of};
ghost use Rattle.hs_law_journal.specs.Played.{played};
ghost use Rattle.hs_records.specs.Plain.{PlainWorkload};
ghost use Rattle.hs_records.specs.Views.{workload_of};
ghost use Rattle.hs_check_follow.specs.Walking.{place_of, walk_behind, walk_offering, walk_taking, is_turned};

use crate::counting::log_of;
use hs_base::limits::MAX_TAKEN;
use hs_records::{Journal, Step, Workload};

/// Whether every log is one whole pass after another.
pub fn has_passes(workload: &Workload, journal: &Journal) -> bool
    ensures { result ≡ has_passes (played (workload_of workload.now) (journal_of journal.now)) }
{
    for node in 0..workload.settings.nodes {
        if !are_whole(workload.settings.clients, log_of(journal, node as usize)) {
            return false;
        }
    }
    true
}

/// Whether these steps are whole passes of the agent of a node with so many clients.
fn are_whole(clients: u16, log: &[Step]) -> bool
    ensures { (W : PlainWorkload) → W.settings.clients ≡ clients → result ≡ list_all (is_whole_pass (queues_of W)) (passes_of log.now) }
{
    let mut walk = PassWalk::Taking { queue: 0, taken: 0 };
    for step in log {
        let Some(next) = walk.behind(clients, *step) else {
            return false;
        };
        walk = next;
    }
    log.is_empty() || walk.is_turned()
}

/// Where a walk over a log is in its pass.
#[derive(Clone, Copy)]
pub(crate) enum PassWalk {
    /// It took so many items of the queue at this place, and none of a later one.
    Taking { queue: usize, taken: u32 },
    /// It made its turn, and perhaps offers.
    Turned,
}

/// The place of the queue from which a step takes, in the order of a pass of a node with so many clients, or `None`
/// where it takes of no queue of these.
fn place_of(clients: u16, step: Step) -> Option<usize>
    ensures { result ≡ place_of clients step }
{
    match step {
        Step::Chunk { client } if client < clients => Some(3 * client as usize),
        Step::Crumb { client } if client < clients => Some(3 * client as usize + 1),
        Step::Trigger { client } if client < clients => Some(3 * client as usize + 2),
        Step::Ask => Some(3 * clients as usize),
        _ => None,
    }
}

impl PassWalk {
    /// The walk behind a step, or `None` where the step may not stand there in a pass.
    fn behind(self, clients: u16, step: Step) -> Option<PassWalk>
        ensures { result ≡ walk_behind clients self step }
    {
        match step {
            Step::Turn => Some(PassWalk::Turned),
            Step::Given { .. } | Step::Missed { .. } | Step::Unread => self.offer(),
            _ => match place_of(clients, step) {
                Some(place) => self.take(place),
                None => None,
            },
        }
    }

    /// The walk behind an offer.
    fn offer(self) -> Option<PassWalk>
        ensures { result ≡ walk_offering self }
    {
        match self {
            PassWalk::Turned => Some(PassWalk::Turned),
            PassWalk::Taking { .. } => None,
        }
    }

    /// The walk behind an item of the queue at a place.
    fn take(self, place: usize) -> Option<PassWalk>
        ensures { result ≡ walk_taking place self }
    {
        match self {
            PassWalk::Turned => Some(PassWalk::Taking {
                queue: place,
                taken: 1,
            }),
            PassWalk::Taking { queue, taken } if place == queue && taken < MAX_TAKEN => {
                Some(PassWalk::Taking {
                    queue,
                    taken: taken + 1,
                })
            }
            PassWalk::Taking { queue, .. } if queue < place => Some(PassWalk::Taking {
                queue: place,
                taken: 1,
            }),
            PassWalk::Taking { .. } => None,
        }
    }

    /// Whether the last pass is whole.
    fn is_turned(self) -> bool
        ensures { result ≡ is_turned self }
    {
        matches!(self, PassWalk::Turned)
    }
}
