//! A node as it acts among others: a thread has no answer, so the node notes whether memory was wanting.

ghost use Rattle.hs_run.specs.Nodes.{MayActAt, HasActedAt};

use crate::node_actors::NodeActors;
use hs_base::Gate;
use hs_records::Workload;
use std::thread::Threads;

/// A node, and whether memory was wanting when it acted last.
#[derive(Drop)]
pub(crate) struct ActingNode {
    pub(crate) site: NodeActors,
    pub(crate) failed: bool,
}

impl ActingNode {
    /// What the node of this number does in a round.
    pub(crate) fn act<R: Threads + Sync, G: Gate>(
        &mut self,
        rt: &R,
        gate: &G,
        workload: &Workload,
        number: usize,
    )
        requires { MayActAt workload.now number self.old }
        ensures { HasActedAt workload.now number self.old self.new }
    {
        let each = workload.settings.clients as usize;
        let first = number * each;
        let clients = &workload.clients.as_slice()[first..first + each];
        if let Err(_) = self.site.act(rt, gate, &workload.settings, clients) {
            self.failed = true;
            return;
        }
        self.failed = false;
    }
}
