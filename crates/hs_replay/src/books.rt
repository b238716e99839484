//! What clients and agents noted.

ghost use Rattle.std.specs.Prelude.{IfOk};
ghost use Rattle.hs_coord.specs.Kept.{PlainCoordinator};
ghost use Rattle.hs_records.specs.Plain.{PlainWorkload};
ghost use Rattle.hs_replay.specs.All.{AllClosed};
ghost use Rattle.hs_replay.specs.Noted.{AreNoted};

use crate::node::ReplayNode;
use hs_base::{List, Memory};
use hs_law_run::lockstep_laws::machines_are_whole;
use hs_records::{AgentBook, ClientBook};
use std::alloc::Global;

/// The books of all clients, in the order of node and number, and those of all agents, in the order of node.
#[derive(Drop)]
pub(crate) struct NotedBooks {
    pub(crate) clients: List<ClientBook>,
    pub(crate) agents: List<AgentBook>,
}

/// The books of all nodes, where the schedule has ended.
pub(crate) fn books_of(alloc: Global, nodes: List<ReplayNode>) -> Result<NotedBooks, Memory>
    requires { (W : PlainWorkload) × (coordinator : PlainCoordinator) × AllClosed W nodes.items coordinator }
    ensures { (W : PlainWorkload) (coordinator : PlainCoordinator) → AllClosed W nodes.items coordinator → IfOk result (λ noted. AreNoted W noted) }
{
    machines_are_whole();
    let mut clients = List::new(alloc);
    let mut agents = List::new(alloc);
    for node in nodes.into_vec() {
        let book = node.finish(&mut clients)?;
        agents.append(book)?;
    }
    Ok(NotedBooks { clients, agents })
}
