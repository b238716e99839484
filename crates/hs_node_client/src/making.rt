//! How the clients of a node are made.

ghost use Rattle.std.specs.Prelude.{◌≡◌, ◌<◌, ◌≤◌, ◌++◌, ◌∷◌, [], length, map, All, IfOk, IfErr};
ghost use Rattle.hs_base.specs.Rules.{IsAutoRule, fired_by};
ghost use Rattle.hs_ring.specs.Parts.{AreNewEnds, new_drawers};
ghost use Rattle.hs_node_client.specs.Fitting.{AreFit, AreSizes, IsFitAuto, IsBacklog, HasFault};
ghost use Rattle.hs_node_client.specs.Known.{AreDeclared};
ghost use Rattle.hs_node_client.specs.Making.{AreMade, AreJoined, AreLinked, AreNewLinks, AreNewAutos, IsNewClient, ends_of, joined_ends, key_of, rules_by, share, shares};

use crate::checking::{check, fired_id};
use crate::client::{IDS, NodeClient};
use crate::limits::{ClientLimits, MakeFault};
use crate::paged::Paged;
use crate::segment::{SegmentKey, SegmentNote};
use hs_auto::Auto;
use hs_base::limits::MOST_AHEAD;
use hs_base::{AutoRule, ClientId, Crumb, List, Memory, Trigger, TriggerId, TriggerRule};
use hs_client::ClientCore;
use hs_link::{Receiver, Sender, link};
use hs_live::{AgentPort, ClientKey};
use hs_ring::{Drawer, Giver, Lease, RingPool};
use hs_words::{Held, Stock};
use std::alloc::Global;

/// The clients of a node, by number, and the other ends of what they have: the port of the node's agent, and by the number of a client
/// the ends that receive its crumbs of traces that need not be open, and its notes of segments.
#[derive(Drop)]
pub struct Made {
    pub port: AgentPort,
    pub late: List<Receiver<Crumb, ClientKey>>,
    pub segments: List<Receiver<SegmentNote, SegmentKey>>,
    pub clients: List<NodeClient>,
}

/// A client's ends that send.
#[derive(Drop)]
struct Senders {
    chunks: Sender<Held<Lease>, ClientKey>,
    crumbs: Sender<Crumb, ClientKey>,
    triggers: Sender<Trigger, ClientKey>,
    late: Sender<Crumb, ClientKey>,
    notes: Sender<SegmentNote, SegmentKey>,
}

/// The ends of the same links that receive.
#[derive(Drop)]
struct Receivers {
    chunks: Receiver<Held<Lease>, ClientKey>,
    crumbs: Receiver<Crumb, ClientKey>,
    triggers: Receiver<Trigger, ClientKey>,
    late: Receiver<Crumb, ClientKey>,
    notes: Receiver<SegmentNote, SegmentKey>,
}

/// Clients, and the ends of all their links that receive.
#[derive(Drop)]
struct Joined {
    chunks: List<Receiver<Held<Lease>, ClientKey>>,
    crumbs: List<Receiver<Crumb, ClientKey>>,
    triggers: List<Receiver<Trigger, ClientKey>>,
    late: List<Receiver<Crumb, ClientKey>>,
    notes: List<Receiver<SegmentNote, SegmentKey>>,
    clients: List<NodeClient>,
}

/// The clients of one of so many nodes, with their pool and their links. It takes all memory of their lives: no call of a client takes
/// any. Each client has an equal share of the draws that clients may make before a look at the pool's counts, and makes it whole again.
pub fn make_clients(
    alloc: Global,
    limits: &ClientLimits,
    autos: &List<AutoRule>,
    triggers: &List<TriggerRule>,
    nodes: u16,
) -> Result<Made, MakeFault>
    ensures made { IfOk result (AreMade limits.now (rules_by autos.now.items triggers.now.items nodes)) }
    ensures fits { IfOk result (λ _. AreFit limits.now autos.now.items triggers.now.items nodes) }
    ensures fault { IfErr result (HasFault limits.now autos.now.items triggers.now.items nodes) }
{
    check(limits, autos, triggers, nodes)?;
    match make_all(alloc, limits, autos, triggers, nodes) {
        Ok(made) => Ok(made),
        Err(_) => Err(MakeFault::Memory),
    }
}

/// The clients of a node as `make_clients` makes them, by limits and rules that were tested. The one error is want of memory.
fn make_all(
    alloc: Global,
    limits: &ClientLimits,
    autos: &List<AutoRule>,
    triggers: &List<TriggerRule>,
    nodes: u16,
) -> Result<Made, Memory>
    requires { AreFit limits.now autos.now.items triggers.now.items nodes }
    ensures { IfOk result (AreMade limits.now (rules_by autos.now.items triggers.now.items nodes)) }
{
    let (giver, drawers) = pool(alloc, limits)?;
    let joined = join_all(alloc, limits, autos, triggers, nodes, &giver, drawers)?;
    let Joined {
        chunks,
        crumbs,
        triggers: fired,
        late,
        notes,
        clients,
    } = joined;
    let port = AgentPort::make(giver, chunks, crumbs, fired);
    Ok(Made {
        port,
        late,
        segments: notes,
        clients,
    })
}

/// The giver of a new pool, and a drawer for each client.
fn pool(alloc: Global, limits: &ClientLimits) -> Result<(Giver, List<Drawer>), Memory>
    requires { AreSizes limits.now }
    ensures { IfOk result (λ ends. AreNewEnds limits.now.buffers limits.now.size (shares limits.now.clients) ends.0 ends.1.items) }
{
    let allowances = allowances_of(alloc, limits.clients)?;
    let stock = Stock::make(alloc, limits.buffers, limits.size)?;
    RingPool::make(alloc, stock, allowances.as_slice())
}

/// How many draws each client has where its allowance is whole.
fn allowances_of(alloc: Global, clients: u16) -> Result<List<u32>, Memory>
    requires { 1 ≤ clients }
    ensures { IfOk result (λ allowances. allowances.items ≡ shares clients) }
{
    let share = MOST_AHEAD / u32::from(clients);
    let mut allowances = List::with_room(alloc, clients as usize)?;
    for _ in 0..clients {
        allowances.push(share);
    }
    Ok(allowances)
}

impl Joined {
    /// No client, with room for so many.
    fn none(alloc: Global, room: usize) -> Result<Joined, Memory>
        ensures clients { IfOk result (λ joined. (joined.clients.items ≡ []) × (joined.clients.room ≡ room)) }
        ensures chunks { IfOk result (λ joined. (joined.chunks.items ≡ []) × (joined.chunks.room ≡ room)) }
        ensures crumbs { IfOk result (λ joined. (joined.crumbs.items ≡ []) × (joined.crumbs.room ≡ room)) }
        ensures triggers { IfOk result (λ joined. (joined.triggers.items ≡ []) × (joined.triggers.room ≡ room)) }
        ensures late { IfOk result (λ joined. (joined.late.items ≡ []) × (joined.late.room ≡ room)) }
        ensures notes { IfOk result (λ joined. (joined.notes.items ≡ []) × (joined.notes.room ≡ room)) }
    {
        Ok(Joined {
            chunks: List::with_room(alloc, room)?,
            crumbs: List::with_room(alloc, room)?,
            triggers: List::with_room(alloc, room)?,
            late: List::with_room(alloc, room)?,
            notes: List::with_room(alloc, room)?,
            clients: List::with_room(alloc, room)?,
        })
    }

    /// A client more, behind the others.
    fn add(&mut self, client: NodeClient, ends: Receivers)
        requires clients { length self.old.clients.items < self.old.clients.room }
        requires chunks { length self.old.chunks.items < self.old.chunks.room }
        requires crumbs { length self.old.crumbs.items < self.old.crumbs.room }
        requires triggers { length self.old.triggers.items < self.old.triggers.room }
        requires late { length self.old.late.items < self.old.late.room }
        requires notes { length self.old.notes.items < self.old.notes.room }
        ensures clients { (self.new.clients.items ≡ self.old.clients.items ++ client ∷ []) × (self.old.clients.room ≤ self.new.clients.room) }
        ensures chunks { (self.new.chunks.items ≡ self.old.chunks.items ++ ends.chunks ∷ []) × (self.old.chunks.room ≤ self.new.chunks.room) }
        ensures crumbs { (self.new.crumbs.items ≡ self.old.crumbs.items ++ ends.crumbs ∷ []) × (self.old.crumbs.room ≤ self.new.crumbs.room) }
        ensures triggers { (self.new.triggers.items ≡ self.old.triggers.items ++ ends.triggers ∷ []) × (self.old.triggers.room ≤ self.new.triggers.room) }
        ensures late { (self.new.late.items ≡ self.old.late.items ++ ends.late ∷ []) × (self.old.late.room ≤ self.new.late.room) }
        ensures notes { (self.new.notes.items ≡ self.old.notes.items ++ ends.notes ∷ []) × (self.old.notes.room ≤ self.new.notes.room) }
    {
        let Receivers {
            chunks,
            crumbs,
            triggers,
            late,
            notes,
        } = ends;
        self.clients.push(client);
        self.chunks.push(chunks);
        self.crumbs.push(crumbs);
        self.triggers.push(triggers);
        self.late.push(late);
        self.notes.push(notes);
    }
}

/// Makes the clients, each with its drawer.
fn join_all(
    alloc: Global,
    limits: &ClientLimits,
    autos: &List<AutoRule>,
    triggers: &List<TriggerRule>,
    nodes: u16,
    giver: &Giver,
    drawers: List<Drawer>,
) -> Result<Joined, Memory>
    requires fit { AreFit limits.now autos.now.items triggers.now.items nodes }
    requires size { giver.now.size ≡ limits.now.size }
    requires drawers { drawers.items ≡ new_drawers giver.now.pool limits.now.buffers limits.now.size 0 (shares limits.now.clients) }
    ensures { IfOk result (λ joined. AreJoined limits.now (rules_by autos.now.items triggers.now.items nodes) giver.now limits.now.clients joined.clients.items (joined_ends joined)) }
{
    let mut joined = Joined::none(alloc, limits.clients as usize)?;
    let mut number = 0u16;
    for drawer in drawers.into_vec() {
        let id = ClientId {
            node: limits.node,
            number,
        };
        let (client, ends) = join_one(alloc, limits, autos, triggers, nodes, giver, id, drawer)?;
        joined.add(client, ends);
        number += 1;
    }
    Ok(joined)
}

/// A client with this drawer, and the other ends of its links.
fn join_one(
    alloc: Global,
    limits: &ClientLimits,
    autos: &List<AutoRule>,
    triggers: &List<TriggerRule>,
    nodes: u16,
    giver: &Giver,
    id: ClientId,
    drawer: Drawer,
) -> Result<(NodeClient, Receivers), Memory>
    requires fit { AreFit limits.now autos.now.items triggers.now.items nodes }
    requires size { giver.now.size ≡ limits.now.size }
    requires drawer { (drawer.size ≡ limits.now.size) × (drawer.pool ≡ giver.now.pool) }
    ensures new { IfOk result (λ made. IsNewClient limits.now (rules_by autos.now.items triggers.now.items nodes) id drawer made.0) }
    ensures linked { IfOk result (λ made. AreLinked limits.now (key_of (rules_by autos.now.items triggers.now.items nodes) giver.now id) id made.0 (ends_of made.1)) }
{
    let key = ClientKey::new(id, giver, nodes, triggers);
    let (senders, receivers) = links_of(alloc, limits, &key, id)?;
    let watches = autos_of(alloc, autos)?;
    let fires = fires_of(alloc, autos)?;
    let core = ClientCore::bare(id, limits.size, limits.calls);
    let Senders {
        chunks,
        crumbs,
        triggers: fired,
        late,
        notes,
    } = senders;
    let live = Paged::make(core, watches, drawer, chunks, crumbs, fired);
    let declared = declared_in(triggers);
    let client = NodeClient::make(live, late, notes, declared, fires, nodes, limits.calls);
    Ok((client, receivers))
}

/// New links of a client.
fn links_of(
    alloc: Global,
    limits: &ClientLimits,
    key: &ClientKey,
    id: ClientId,
) -> Result<(Senders, Receivers), Memory>
    requires backlog { 1 ≤ limits.now.backlog }
    requires notes { 1 ≤ limits.now.notes }
    ensures { IfOk result (λ ends. AreNewLinks limits.now key.now id ends.0 ends.1) }
{
    let most = limits.backlog;
    let (chunks, chunk_end) = link::<Held<Lease>, ClientKey>(alloc, most, most, key)?;
    let (crumbs, crumb_end) = link::<Crumb, ClientKey>(alloc, most, most, key)?;
    let (triggers, trigger_end) = link::<Trigger, ClientKey>(alloc, most, most, key)?;
    let (late, late_end) = link::<Crumb, ClientKey>(alloc, most, most, key)?;
    let own = SegmentKey(id);
    let (notes, note_end) = link::<SegmentNote, SegmentKey>(
        alloc,
        limits.notes,
        limits.notes,
        &own,
    )?;
    let senders = Senders {
        chunks,
        crumbs,
        triggers,
        late,
        notes,
    };
    let receivers = Receivers {
        chunks: chunk_end,
        crumbs: crumb_end,
        triggers: trigger_end,
        late: late_end,
        notes: note_end,
    };
    Ok((senders, receivers))
}

/// An autotrigger for each rule, without a sample.
fn autos_of(alloc: Global, rules: &List<AutoRule>) -> Result<List<Auto>, Memory>
    requires { All IsAutoRule rules.now.items }
    ensures { IfOk result (λ autos. AreNewAutos rules.now.items autos.items) }
{
    let mut autos = List::with_room(alloc, rules.len())?;
    for rule in rules.as_slice() {
        autos.push(Auto::make(alloc, *rule)?);
    }
    Ok(autos)
}

/// The trigger id that each autotrigger fires.
fn fires_of(alloc: Global, rules: &List<AutoRule>) -> Result<List<TriggerId>, Memory>
    ensures { IfOk result (λ fires. fires.items ≡ map fired_by rules.now.items) }
{
    let mut fires = List::with_room(alloc, rules.len())?;
    for rule in rules.as_slice() {
        fires.push(fired_id(*rule));
    }
    Ok(fires)
}

/// A table that says of each trigger id whether it is declared.
fn declared_in(rules: &List<TriggerRule>) -> [bool; IDS]
    ensures { AreDeclared rules.now.items result }
{
    let mut declared = [false; IDS];
    for rule in rules.as_slice() {
        declared[rule.id.0 as usize] = true;
    }
    declared
}
