//! A node at its beginning.

ghost use Rattle.std.specs.Prelude.{IfOk};
ghost use Rattle.hs_law_run.specs.Lockstep.{machine_start};
ghost use Rattle.hs_records.specs.Plain.{PlainWorkload};
ghost use Rattle.hs_replay.specs.Making.{IsNewNode, AreNew};
ghost use Rattle.hs_replay.specs.Standing.{NodeIsAt};

use crate::node::ReplayNode;
use hs_agent::Agent;
use hs_base::{ClientId, List, Memory, NodeId, Settings};
use hs_client::sending_laws::valid_clients_may_be_played;
use hs_law_run::lockstep_laws::machines_start_so;
use hs_pool::PlainPool;
use hs_records::Op;
use hs_replay_client::ReplayClient;
use hs_words::Stock;
use std::alloc::Global;
use std::collections::VecDeque;

impl ReplayNode {
    /// A node where nothing was done, with these operations of its clients.
    pub fn make(
        alloc: Global,
        node: u16,
        settings: &Settings,
        clients: &[List<Op>],
    ) -> Result<ReplayNode, Memory>
        requires { (W : PlainWorkload) × IsNewNode W node settings.now clients.now }
        ensures { (W : PlainWorkload) → IsNewNode W node settings.now clients.now → IfOk result (NodeIsAt W (machine_start W) node) }
    {
        machines_start_so();
        let players = players_of(alloc, node, settings, clients)?;
        let stock = Stock::make(alloc, settings.buffers, settings.size)?;
        let pool = PlainPool::make(alloc, stock)?;
        let agent = Agent::make(alloc, NodeId(node), settings)?;
        Ok(ReplayNode {
            pool,
            players,
            agent,
            asks: VecDeque::new(alloc),
            said: VecDeque::new(alloc),
        })
    }
}

/// The clients of a node, which have done nothing.
fn players_of(
    alloc: Global,
    node: u16,
    settings: &Settings,
    clients: &[List<Op>],
) -> Result<List<ReplayClient>, Memory>
    requires { (W : PlainWorkload) × IsNewNode W node settings.now clients.now }
    ensures { (W : PlainWorkload) → IsNewNode W node settings.now clients.now → IfOk result (λ players. AreNew W node W.settings.clients players.items) }
{
    valid_clients_may_be_played();
    let mut players = List::with_room(alloc, clients.len())?;
    for client in 0..clients.len() {
        let number = client as u16;
        let operations = clients[client].as_slice();
        let player = ReplayClient::make(alloc, ClientId { node, number }, settings, operations)?;
        players.push(player);
    }
    Ok(players)
}
