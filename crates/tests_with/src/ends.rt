//! A client and the port of its node, made and closed.

ghost use Rattle.std.specs.Prelude.{◌≡◌, ◌+◌, ◌^◌, ◌<◌, ◌≤◌, true, [], ◌∷◌, None, IfOk};
ghost use Rattle.hs_base.specs.declared.limits.TheConstants.{MAX_BUFFERS, MIN_SIZE, MAX_SIZE, MAX_OPERATIONS};
ghost use Rattle.hs_base.specs.Rules.{is_declared};
ghost use Rattle.hs_client.specs.Core.{new_core};
ghost use Rattle.hs_link.specs.Contents.{sent};
ghost use Rattle.hs_live.specs.Calls.{IsOf};
ghost use Rattle.hs_live.specs.Live.{outgoing, incoming};
ghost use Rattle.hs_ring.specs.Parts.{AreNewEnds};
ghost use Rattle.tests_with.specs.Pairs.{CanCall, IsOnly, IsKeyOf, IsNewLink, HasParts, id, links};

use hs_auto::Auto;
use hs_base::{AutoRule, ClientId, Crumb, List, Memory, Trigger, TriggerId, TriggerRule};
use hs_client::ClientCore;
use hs_link::{Fact, Receiver, Sender, close_both, link};
use hs_live::{AgentPort, Client, ClientKey, Closed, PortParts};
use hs_records::ClientBook;
use hs_ring::{Drawer, Giver, Lease, RingPool, close};
use hs_words::{Held, Stock, Tally};
use std::alloc::Global;

/// The one trigger id, which the one autotrigger fires.
pub const ID: TriggerId = TriggerId(3);

/// The client, the only one of its node.
pub const CLIENT: ClientId = ClientId { node: 0, number: 0 };

/// The rule of the one trigger id.
const RULE: TriggerRule = TriggerRule {
    id: ID,
    weight: 1,
    burst: 10,
    rate: 0,
};

/// Fires where both of the last two samples had a smaller value, or one of them.
const AUTO: AutoRule = AutoRule::Queue {
    trigger: ID,
    window: 2,
    share: 5000,
    laterals: 2,
};

/// What a client and its port are made with. `calls` bounds its calls, its draws and what each link takes; `capacity` is
/// the number of entries of each link.
#[derive(Clone, Copy)]
pub struct Making {
    pub buffers: u32,
    pub size: u32,
    pub calls: u32,
    pub capacity: u32,
}

/// A list of one item.
fn only<T: Drop>(alloc: Global, item: T) -> Result<List<T>, Memory>
    ensures { IfOk result (λ list. list.items ≡ item ∷ []) }
{
    let mut list = List::with_room(alloc, 1)?;
    list.push(item);
    Ok(list)
}

/// The giver and the one drawer of a pool.
fn pool(alloc: Global, buffers: u32, size: u32, draws: u32) -> Result<(Giver, Drawer), Memory>
    requires buffers { (1 ≤ buffers) × (buffers ≤ MAX_BUFFERS) }
    requires size { (MIN_SIZE ≤ size) × (size ≤ MAX_SIZE) }
    requires draws { draws ≤ MAX_OPERATIONS }
    ensures { IfOk result (λ ends. AreNewEnds buffers size (draws ∷ []) ends.0 (ends.1 ∷ [])) }
{
    let chunks = Stock::make(alloc, buffers, size)?;
    let (giver, mut drawers) = RingPool::make(alloc, chunks, &[draws])?;
    let Some(drawer) = drawers.pop() else {
        unreachable!()
    };
    Ok((giver, drawer))
}

/// A client's ends of its links.
#[derive(Drop)]
struct Senders {
    chunks: Sender<Held<Lease>, ClientKey>,
    crumbs: Sender<Crumb, ClientKey>,
    triggers: Sender<Trigger, ClientKey>,
}

/// The port's ends of the same links.
#[derive(Drop)]
struct Receivers {
    chunks: Receiver<Held<Lease>, ClientKey>,
    crumbs: Receiver<Crumb, ClientKey>,
    triggers: Receiver<Trigger, ClientKey>,
}

/// Links of so many entries each, which take so many items each.
fn links_of(
    alloc: Global,
    capacity: u32,
    room: u32,
    key: &ClientKey,
) -> Result<(Senders, Receivers), Memory>
    requires { 1 ≤ capacity }
    ensures chunks { IfOk result (λ ends. IsNewLink key.now capacity room ends.0.chunks ends.1.chunks) }
    ensures crumbs { IfOk result (λ ends. IsNewLink key.now capacity room ends.0.crumbs ends.1.crumbs) }
    ensures triggers { IfOk result (λ ends. IsNewLink key.now capacity room ends.0.triggers ends.1.triggers) }
{
    let (chunks, chunk_end) = link::<Held<Lease>, ClientKey>(alloc, capacity, room, key)?;
    let (crumbs, crumb_end) = link::<Crumb, ClientKey>(alloc, capacity, room, key)?;
    let (triggers, trigger_end) = link::<Trigger, ClientKey>(alloc, capacity, room, key)?;
    let senders = Senders {
        chunks,
        crumbs,
        triggers,
    };
    let receivers = Receivers {
        chunks: chunk_end,
        crumbs: crumb_end,
        triggers: trigger_end,
    };
    Ok((senders, receivers))
}

/// A client with these ends, and with the one autotrigger.
fn client_of(
    alloc: Global,
    core: ClientCore<Lease>,
    drawer: Drawer,
    ends: Senders,
) -> Result<Client, Memory>
    requires core { core ≡ new_core core.client core.size core.calls }
    requires drawer { drawer.size ≡ core.size }
    requires chunks { (sent (outgoing ends.chunks) ≡ []) × IsKeyOf core drawer ends.chunks.key }
    requires crumbs { (sent ends.crumbs ≡ []) × IsKeyOf core drawer ends.crumbs.key }
    requires triggers { (sent ends.triggers ≡ []) × IsKeyOf core drawer ends.triggers.key }
    requires rooms { ends.chunks.room + ends.crumbs.room + ends.triggers.room < 2 ^ 32 }
    ensures { IfOk result (λ client. HasParts client core drawer (outgoing ends.chunks) ends.crumbs ends.triggers) }
{
    let autos = only(alloc, Auto::make(alloc, AUTO)?)?;
    let Senders {
        chunks,
        crumbs,
        triggers,
    } = ends;
    Ok(Client::make(core, autos, drawer, chunks, crumbs, triggers))
}

/// A port with these ends.
fn port_of(alloc: Global, giver: Giver, ends: Receivers) -> Result<AgentPort, Memory>
    requires chunks { IsOf giver 0 ends.chunks.key }
    requires crumbs { IsOf giver 0 ends.crumbs.key }
    requires triggers { IsOf giver 0 ends.triggers.key }
    ensures { IfOk result (λ port. port ≡ record { giver = giver; chunks = incoming ends.chunks ∷ []; crumbs = ends.crumbs ∷ []; triggers = ends.triggers ∷ [] }) }
{
    let Receivers {
        chunks,
        crumbs,
        triggers,
    } = ends;
    let chunks = only::<Receiver<Held<Lease>, ClientKey>>(alloc, chunks)?;
    let crumbs = only::<Receiver<Crumb, ClientKey>>(alloc, crumbs)?;
    let triggers = only::<Receiver<Trigger, ClientKey>>(alloc, triggers)?;
    Ok(AgentPort::make(giver, chunks, crumbs, triggers))
}

/// A client with this drawer, and the port of its node with this giver, linked with this key.
fn linked(
    alloc: Global,
    making: Making,
    giver: Giver,
    drawer: Drawer,
    key: &ClientKey,
) -> Result<(Client, AgentPort), Memory>
    requires size { (MIN_SIZE ≤ making.size) × (making.size ≤ MAX_SIZE) }
    requires calls { making.calls ≤ MAX_OPERATIONS }
    requires capacity { 1 ≤ making.capacity }
    requires ends { AreNewEnds making.buffers making.size (making.calls ∷ []) giver (drawer ∷ []) }
    requires owner { key.now.client ≡ record { node = 0; number = 0 } }
    requires pool { (key.now.pool ≡ giver.pool) × (key.now.size ≡ giver.size) }
    requires rules { (key.now.nodes ≡ 2) × (is_declared key.now.rules id ≡ true) }
    ensures client { IfOk result (λ made. CanCall making.size making.calls made.0) }
    ensures closed { IfOk result (λ made. made.0.core.trace ≡ None) }
    ensures port { IfOk result (λ made. IsOnly made.1 made.0) }
{
    let core = ClientCore::make(alloc, CLIENT, making.size, making.calls)?;
    let (senders, receivers) = links_of(alloc, making.capacity, making.calls, key)?;
    let port = port_of(alloc, giver, receivers)?;
    let client = client_of(alloc, core, drawer, senders)?;
    Ok((client, port))
}

/// A client, and the port of its node.
pub fn client_and_port(alloc: Global, making: Making) -> Result<(Client, AgentPort), Memory>
    requires buffers { (1 ≤ making.buffers) × (making.buffers ≤ MAX_BUFFERS) }
    requires size { (MIN_SIZE ≤ making.size) × (making.size ≤ MAX_SIZE) }
    requires calls { making.calls ≤ MAX_OPERATIONS }
    requires capacity { 1 ≤ making.capacity }
    ensures client { IfOk result (λ made. CanCall making.size making.calls made.0) }
    ensures closed { IfOk result (λ made. made.0.core.trace ≡ None) }
    ensures port { IfOk result (λ made. IsOnly made.1 made.0) }
{
    let (giver, drawer) = pool(alloc, making.buffers, making.size, making.calls)?;
    let rules = only(alloc, RULE)?;
    let key = ClientKey::new(CLIENT, &giver, 2, &rules);
    linked(alloc, making, giver, drawer, &key)
}

/// How many items of a link were not received, of which these are the ends.
fn left_of<T: Drop, F: Fact<T>>(sender: Sender<T, F>, receivers: List<Receiver<T, F>>) -> u64
    requires { links receivers.items ≡ sender.link ∷ [] }
{
    let mut receivers = receivers;
    match receivers.pop() {
        Some(receiver) => close_both(sender, receiver).left(),
        None => 0,
    }
}

/// What a client and its port come to: the client's book, how many items of each link were not received, and the
/// answers of the pool.
#[derive(Drop)]
pub struct PairEnding {
    pub book: ClientBook,
    pub chunks: u64,
    pub crumbs: u64,
    pub triggers: u64,
    pub tally: Tally,
}

/// Closes the client, the port, the links and the pool.
pub fn close_all(alloc: Global, client: Client, port: AgentPort) -> Result<PairEnding, Memory>
    requires ends { IsOnly port client }
    requires closed { client.core.trace ≡ None }
{
    let Closed {
        book,
        drawer,
        chunks,
        crumbs,
        triggers,
    } = client.close();
    let PortParts {
        giver,
        chunks: chunk_ends,
        crumbs: crumb_ends,
        triggers: trigger_ends,
    } = port.parts();
    let chunks = left_of(chunks, chunk_ends);
    let crumbs = left_of(crumbs, crumb_ends);
    let triggers = left_of(triggers, trigger_ends);
    let drawers = only::<Drawer>(alloc, drawer)?;
    let tally = close(giver, drawers, List::new(alloc));
    Ok(PairEnding {
        book,
        chunks,
        crumbs,
        triggers,
        tally,
    })
}
