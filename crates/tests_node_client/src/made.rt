//! A client of a service with the ends that receive its late crumbs and its notes, as the tables use it.

use hs_base::{AutoRule, Crumb, List, Memory, TriggerId, TriggerRule};
use hs_link::Receiver;
use hs_live::{AgentPort, ClientKey};
use hs_node_client::{
    ClientLimits, Made, MakeFault, NodeClient, SegmentKey, SegmentNote, make_clients,
};
use std::alloc::Global;

/// The one trigger id, which the one autotrigger fires.
pub const ID: TriggerId = TriggerId(3);

/// One client of the first of two nodes, and two buffers of the least size. Of each kind of item one lies in a ring, and one waits.
pub const LEAST: ClientLimits = ClientLimits {
    node: 0,
    clients: 1,
    buffers: 2,
    size: 64,
    backlog: 1,
    notes: 1,
    calls: 8192,
};

/// The client, and the other ends.
#[derive(Drop)]
pub struct Ends {
    pub client: NodeClient,
    pub late: Receiver<Crumb, ClientKey>,
    pub segments: Receiver<SegmentNote, SegmentKey>,
    pub port: AgentPort,
}

/// The rule of the one id.
fn rules(alloc: Global) -> Result<List<TriggerRule>, Memory> {
    let mut rules = List::new(alloc);
    rules.append(TriggerRule {
        id: ID,
        weight: 1,
        burst: 10,
        rate: 0,
    })?;
    Ok(rules)
}

/// The one autotrigger: it fires for a value that is not 0.
fn autos(alloc: Global) -> Result<List<AutoRule>, Memory> {
    let mut autos = List::new(alloc);
    autos.append(AutoRule::Exception { trigger: ID })?;
    Ok(autos)
}

/// A client by these limits, for two nodes, or the fault. `Memory` stands for an end that is not there, too.
pub fn make_ends(alloc: Global, limits: &ClientLimits) -> Result<Ends, MakeFault> {
    let rules = rules(alloc)?;
    let autos = autos(alloc)?;
    let Made {
        port,
        mut late,
        mut segments,
        mut clients,
    } = make_clients(alloc, limits, &autos, &rules, 2)?;
    match (clients.pop(), late.pop(), segments.pop()) {
        (Some(client), Some(late), Some(segments)) => Ok(Ends {
            client,
            late,
            segments,
            port,
        }),
        _ => Err(MakeFault::Memory),
    }
}
