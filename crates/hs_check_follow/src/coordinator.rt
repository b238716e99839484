//! The coordinator, with what it has heard and asked.

ghost use Rattle.std.specs.Prelude.{◌≡◌, ◌<◌, ◌≤◌, length, IfOk, OnOk};
ghost use Rattle.hs_base.specs.declared.limits.TheConstants.{MAX_NODES};
ghost use Rattle.hs_base.specs.Changing.{ChangesAt};
ghost use Rattle.hs_check_follow.specs.Whole.{MayHear, HearsOn, AreSent, sent_by};

use crate::node::FollowedNode;
use hs_base::limits::MAX_NODES;
use hs_base::{Ask, List, Memory, NodeId, NodeSet};
use hs_coord::{Asks, Coordinator};
use hs_law_journal::laws::step_by_step;

/// The coordinator, the asks that it sent to each node, how many messages of each node it has heard, how many in all, and the nodes that it
/// asked behind each.
#[derive(Drop)]
pub struct FollowedCoordinator {
    pub(crate) coordinator: Coordinator,
    pub(crate) asks: List<List<Ask>>,
    pub(crate) counts: List<usize>,
    pub(crate) next: usize,
    pub(crate) asked: List<NodeSet>,
}

impl FollowedCoordinator {
    /// Hears the next of the messages of these nodes, where there is one and it was told. Answers whether it was.
    pub(crate) fn hear(&mut self, nodes: &[FollowedNode], told: &[NodeId]) -> Result<bool, Memory>
        requires { MayHear told.now nodes.now self.old }
        ensures { IfOk result (HearsOn told.now nodes.now self.old self.new) }
    {
        step_by_step();
        if self.next >= told.len() {
            return Ok(false);
        }
        let node = told[self.next];
        let place = node.0 as usize;
        if place >= nodes.len() {
            return Ok(false);
        }
        let heard = self.counts.as_slice()[place];
        let said = nodes[place].follower.said.as_slice();
        if heard >= said.len() {
            return Ok(false);
        }
        let asks = self.coordinator.step(node, said[heard])?;
        self.asked.append(asks.to)?;
        send_all(&mut self.asks, &asks)?;
        set_count(&mut self.counts, place, heard + 1);
        self.next += 1;
        Ok(true)
    }
}

/// So many messages of a node were heard.
fn set_count(counts: &mut List<usize>, node: usize, count: usize)
    requires { node < length counts.old.items }
    ensures { ChangesAt node counts.old.items counts.new.items (λ old new. new ≡ count) }
{
    counts.as_mut_slice()[node] = count;
}

/// Sends an ask to all nodes to which it goes.
fn send_all(lists: &mut List<List<Ask>>, asks: &Asks) -> Result<(), Memory>
    requires { length lists.old.items ≤ MAX_NODES }
    ensures { OnOk result (AreSent asks.now (length lists.old.items) lists.old.items lists.new.items) }
{
    let count = lists.len();
    for node in 0..count {
        send_if(lists, node, asks)?;
    }
    Ok(())
}

/// Sends an ask to a node, where it goes there.
fn send_if(lists: &mut List<List<Ask>>, node: usize, asks: &Asks) -> Result<(), Memory>
    requires node { node < length lists.old.items }
    requires few { node < MAX_NODES }
    ensures { OnOk result (ChangesAt node lists.old.items lists.new.items (λ old new. new.items ≡ sent_by asks.now node old.items)) }
{
    if asks.to.contains(NodeId(node as u16)) {
        lists.as_mut_slice()[node].append(asks.ask)
    } else {
        Ok(())
    }
}
