//! The clients of a node before the first round.

ghost use Rattle.std.specs.Prelude.{◌≡◌, ◌+◌, ◌<◌, ◌≤◌, ◌∷◌, ◌++◌, [], length, map, IfOk};
ghost use Rattle.std.specs.List.{AllByRecursion};
ghost use Rattle.hs_base.specs.declared.limits.TheConstants.{MIN_SIZE, MAX_OPERATIONS};
ghost use Rattle.hs_live.specs.Live.{incoming};
ghost use Rattle.hs_ring.specs.Parts.{new_drawers};
ghost use Rattle.hs_records.specs.Validity.{IsValid, client_pieces};
ghost use Rattle.hs_records.specs.Views.{operations_of, workload_of};
ghost use Rattle.hs_run_actors.specs.Nodes.{AreClientsOf, AreBegun, NodeBegins, lefts_of};

use crate::amounts::calls_of;
use crate::client_actor::ClientActor;
use crate::making::ConnectedClient;
use hs_base::{ClientId, Crumb, List, Memory, Trigger};
use hs_client::sending_laws::valid_clients_may_be_played;
use hs_link::Receiver;
use hs_live::{AgentPort, ClientKey};
use hs_records::{Op, Workload};
use hs_ring::{Drawer, Giver, Lease, RingPool};
use hs_words::{Held, Stock};
use std::alloc::Global;

/// The clients of a node, by number, and the port of its agent, which has the other ends of their links and the giver of the
/// node's pool.
#[derive(Drop)]
pub struct NewNode {
    pub callers: List<ClientActor>,
    pub port: AgentPort,
}

/// Clients of a node, and the other ends of their links.
#[derive(Drop)]
struct NewClients {
    callers: List<ClientActor>,
    chunks: List<Receiver<Held<Lease>, ClientKey>>,
    crumbs: List<Receiver<Crumb, ClientKey>>,
    triggers: List<Receiver<Trigger, ClientKey>>,
}

impl NewClients {
    /// No client, with room for so many.
    fn none(alloc: Global, room: usize) -> Result<NewClients, Memory>
        ensures callers { IfOk result (λ ends. (ends.callers.items ≡ []) × (ends.callers.room ≡ room)) }
        ensures chunks { IfOk result (λ ends. (ends.chunks.items ≡ []) × (ends.chunks.room ≡ room)) }
        ensures crumbs { IfOk result (λ ends. (ends.crumbs.items ≡ []) × (ends.crumbs.room ≡ room)) }
        ensures triggers { IfOk result (λ ends. (ends.triggers.items ≡ []) × (ends.triggers.room ≡ room)) }
    {
        Ok(NewClients {
            callers: List::with_room(alloc, room)?,
            chunks: List::with_room(alloc, room)?,
            crumbs: List::with_room(alloc, room)?,
            triggers: List::with_room(alloc, room)?,
        })
    }

    /// A client more, behind the others.
    fn add(&mut self, connected: ConnectedClient)
        requires callers { length self.old.callers.items < self.old.callers.room }
        requires chunks { length self.old.chunks.items < self.old.chunks.room }
        requires crumbs { length self.old.crumbs.items < self.old.crumbs.room }
        requires triggers { length self.old.triggers.items < self.old.triggers.room }
        ensures callers { (self.new.callers.items ≡ self.old.callers.items ++ connected.caller ∷ []) × (self.old.callers.room ≤ self.new.callers.room) }
        ensures chunks { (self.new.chunks.items ≡ self.old.chunks.items ++ connected.chunks ∷ []) × (self.old.chunks.room ≤ self.new.chunks.room) }
        ensures crumbs { (self.new.crumbs.items ≡ self.old.crumbs.items ++ connected.crumbs ∷ []) × (self.old.crumbs.room ≤ self.new.crumbs.room) }
        ensures triggers { (self.new.triggers.items ≡ self.old.triggers.items ++ connected.triggers ∷ []) × (self.old.triggers.room ≤ self.new.triggers.room) }
    {
        let ConnectedClient {
            caller,
            chunks,
            crumbs,
            triggers,
        } = connected;
        self.callers.push(caller);
        self.chunks.push(chunks);
        self.crumbs.push(crumbs);
        self.triggers.push(triggers);
    }
}

/// The clients of a node of a valid workload, where nothing was done, and the port of its agent. Each link's ring has as many
/// entries as an agent takes items in a pass.
pub fn begin_node(alloc: Global, workload: &Workload, node: u16) -> Result<NewNode, Memory>
    requires valid { IsValid (workload_of workload.now) }
    requires low { node < workload.now.settings.nodes }
    ensures { IfOk result (λ begun. NodeBegins (workload_of workload.now) node begun.callers.items begun.port) }
{
    let settings = &workload.settings;
    let each = settings.clients as usize;
    let first = node as usize * each;
    let clients = &workload.clients.as_slice()[first..first + each];
    let allowances = allowances_of(alloc, settings.size, clients)?;
    let stock = Stock::make(alloc, settings.buffers, settings.size)?;
    let (giver, drawers) = RingPool::make(alloc, stock, allowances.as_slice())?;
    let NewClients {
        callers,
        chunks,
        crumbs,
        triggers,
    } = connect_all(alloc, workload, node, clients, &giver, drawers)?;
    let port = AgentPort::make(giver, chunks, crumbs, triggers);
    Ok(NewNode { callers, port })
}

/// How many draws each client may make: one for each piece of its records at most.
fn allowances_of(alloc: Global, size: u32, clients: &[List<Op>]) -> Result<List<u32>, Memory>
    requires least { MIN_SIZE ≤ size }
    requires few { AllByRecursion (λ ops. client_pieces size (operations_of ops) ≤ MAX_OPERATIONS) clients.now }
    ensures { IfOk result (λ allowances. allowances.items ≡ lefts_of size clients.now) }
{
    let mut allowances = List::with_room(alloc, clients.len())?;
    for operations in clients {
        allowances.push(calls_of(size, operations.as_slice()));
    }
    Ok(allowances)
}

/// Makes the clients, each with its drawer.
fn connect_all(
    alloc: Global,
    workload: &Workload,
    node: u16,
    clients: &[List<Op>],
    giver: &Giver,
    drawers: List<Drawer>,
) -> Result<NewClients, Memory>
    requires clients { AreClientsOf workload.now node clients.now }
    requires size { giver.now.size ≡ workload.now.settings.size }
    requires drawers { drawers.items ≡ new_drawers giver.now.pool workload.now.settings.buffers workload.now.settings.size 0 (lefts_of workload.now.settings.size clients.now) }
    ensures { IfOk result (λ ends. AreBegun (workload_of workload.now) node giver.now workload.now.settings.clients ends.callers.items
        (record { chunks = map incoming ends.chunks.items; crumbs = ends.crumbs.items; triggers = ends.triggers.items })) }
{
    valid_clients_may_be_played();
    let settings = &workload.settings;
    let mut ends = NewClients::none(alloc, clients.len())?;
    let mut number = 0u16;
    for drawer in drawers.into_vec() {
        let client = ClientId { node, number };
        let actor = u32::from(node) * u32::from(settings.clients) + u32::from(number);
        let operations = clients[number as usize].as_slice();
        ends.add(ClientActor::make(alloc, actor, client, settings, operations, giver, drawer)?);
        number += 1;
    }
    Ok(ends)
}
