//! What is left of the links of a node's clients, as what an agent takes from.

ghost use Rattle.std.specs.Prelude.{◌≡◌, ◌<◌, ◌&&◌, length, slice_get, Ok, Some, IfOk, IfSome};
ghost use Rattle.hs_link.specs.Contents.{Remaining};
ghost use Rattle.hs_run_actors.specs.Resting.{AreRests, AreEndsOf, GivesAt, are_given};

use crate::ends::IntakeEnds;
use hs_base::{Crumb, List, Memory, Trigger};
use hs_link::{Fact, Receiver, Rest, Sender, close_both};
use hs_live::{ClientKey, PortParts};
use hs_ring::{Giver, Lease};
use hs_words::{Given, Held};
use std::alloc::Global;

/// The giver of a node's pool, and what is left of the links of each client, by its number.
#[derive(Drop)]
pub(crate) struct Rests {
    pub(crate) giver: Giver,
    pub(crate) chunks: List<Rest<Held<Lease>, ClientKey>>,
    pub(crate) crumbs: List<Rest<Crumb, ClientKey>>,
    pub(crate) triggers: List<Rest<Trigger, ClientKey>>,
}

impl Rests {
    /// What is left of the links of a port, of which these are the other ends, by the number of the client.
    pub(crate) fn of(
        alloc: Global,
        port: PortParts,
        chunks: List<Sender<Held<Lease>, ClientKey>>,
        crumbs: List<Sender<Crumb, ClientKey>>,
        triggers: List<Sender<Trigger, ClientKey>>,
    ) -> Result<Rests, Memory>
        requires chunks { AreEndsOf chunks.items port.chunks.items }
        requires crumbs { AreEndsOf crumbs.items port.crumbs.items }
        requires triggers { AreEndsOf triggers.items port.triggers.items }
        ensures giver { IfOk result (λ rests. rests.giver ≡ port.giver) }
        ensures chunks { IfOk result (λ rests. AreRests chunks.items port.chunks.items rests.chunks.items) }
        ensures crumbs { IfOk result (λ rests. AreRests crumbs.items port.crumbs.items rests.crumbs.items) }
        ensures triggers { IfOk result (λ rests. AreRests triggers.items port.triggers.items rests.triggers.items) }
    {
        let PortParts {
            giver,
            chunks: chunk_ends,
            crumbs: crumb_ends,
            triggers: trigger_ends,
        } = port;
        let chunks = rests_of(alloc, chunks, chunk_ends);
        let crumbs = rests_of(alloc, crumbs, crumb_ends);
        let triggers = rests_of(alloc, triggers, trigger_ends);
        Rests::joined(giver, chunks, crumbs, triggers)
    }

    /// The parts together, where there was memory for each.
    fn joined(
        giver: Giver,
        chunks: Result<List<Rest<Held<Lease>, ClientKey>>, Memory>,
        crumbs: Result<List<Rest<Crumb, ClientKey>>, Memory>,
        triggers: Result<List<Rest<Trigger, ClientKey>>, Memory>,
    ) -> Result<Rests, Memory>
        ensures giver { IfOk result (λ rests. rests.giver ≡ giver) }
        ensures chunks { IfOk result (λ rests. chunks ≡ Ok rests.chunks) }
        ensures crumbs { IfOk result (λ rests. crumbs ≡ Ok rests.crumbs) }
        ensures triggers { IfOk result (λ rests. triggers ≡ Ok rests.triggers) }
    {
        Ok(Rests {
            giver,
            chunks: chunks?,
            crumbs: crumbs?,
            triggers: triggers?,
        })
    }

    /// Whether nothing is left of any link.
    pub(crate) fn are_empty(&self) -> bool
        ensures { result ≡ (are_given self.now.chunks.items && are_given self.now.crumbs.items && are_given self.now.triggers.items) }
    {
        all_given(&self.chunks) && all_given(&self.crumbs) && all_given(&self.triggers)
    }
}

impl IntakeEnds for Rests {
    ghost use Rattle.hs_run_actors.specs.Resting.{intakes_left};

    ghost sees = { intakes_left };

    fn chunk(&mut self, client: u16) -> Option<Held<Lease>> {
        next_at(&mut self.chunks, client)
    }

    fn crumb(&mut self, client: u16) -> Option<Crumb> {
        next_at(&mut self.crumbs, client)
    }

    fn trigger(&mut self, client: u16) -> Option<Trigger> {
        next_at(&mut self.triggers, client)
    }

    fn give(&mut self, held: Held<Lease>) -> Given<Lease> {
        self.giver.give(held)
    }
}

/// The next item that is left of the link of a client, by its number.
fn next_at<T: Drop, F: Fact<T>>(rests: &mut List<Rest<T, F>>, client: u16) -> Option<T>
    requires { client < length rests.old.items }
    ensures gives { GivesAt client rests.old.items result rests.new.items }
    ensures fact { IfSome result (λ item. (r : Remaining T F) × (slice_get rests.old.items client ≡ Some r) × F.holds r.key item) }
{
    rests.as_mut_slice()[client as usize].next()
}

/// Whether nothing is left of these links.
fn all_given<T: Drop, F: Fact<T>>(rests: &List<Rest<T, F>>) -> bool
    ensures { result ≡ are_given rests.now.items }
{
    for rest in rests.as_slice() {
        if rest.left() > 0 {
            return false;
        }
    }
    true
}

/// Closes links, each of whose ends stand at the same place.
pub(crate) fn rests_of<T: Drop, F: Fact<T>>(
    alloc: Global,
    mut senders: List<Sender<T, F>>,
    mut receivers: List<Receiver<T, F>>,
) -> Result<List<Rest<T, F>>, Memory>
    requires { AreEndsOf senders.items receivers.items }
    ensures { IfOk result (λ rests. AreRests senders.items receivers.items rests.items) }
{
    let Some(sender) = senders.pop() else {
        return Ok(List::new(alloc));
    };
    let Some(receiver) = receivers.pop() else {
        unreachable!()
    };
    let mut rests = rests_of(alloc, senders, receivers)?;
    rests.append(close_both(sender, receiver))?;
    Ok(rests)
}
