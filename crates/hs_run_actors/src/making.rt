//! How a client of a run is made.

ghost use Rattle.std.specs.Prelude.{map, IfOk};
ghost use Rattle.hs_base.specs.Rules.{AreAutoRules};
ghost use Rattle.hs_records.specs.Plain.{settings_of};
ghost use Rattle.hs_records.specs.Views.{operation_of};
ghost use Rattle.hs_link.specs.Contents.{AreNewEnds};
ghost use Rattle.hs_client.specs.Playable.{IsPlayable};
ghost use Rattle.hs_run_actors.specs.Making.{IsConnected, AreNewFor};
ghost use Rattle.hs_run_actors.specs.Standing.{IsDrawerFor};

use crate::amounts::{Amounts, amounts_of};
use crate::client_actor::ClientActor;
use hs_auto::Auto;
use hs_base::limits::MAX_TAKEN;
use hs_base::{ClientId, Crumb, List, Memory, Settings, Trigger};
use hs_client::ClientCore;
use hs_link::{Receiver, Sender, link};
use hs_live::{Client, ClientKey};
use hs_records::Op;
use hs_ring::{Drawer, Giver, Lease};
use hs_words::Held;
use std::alloc::Global;

/// A new client, and the other ends of its three links, which are for its agent.
#[derive(Drop)]
pub struct ConnectedClient {
    pub caller: ClientActor,
    pub chunks: Receiver<Held<Lease>, ClientKey>,
    pub crumbs: Receiver<Crumb, ClientKey>,
    pub triggers: Receiver<Trigger, ClientKey>,
}

impl ClientActor {
    /// A client that has done none of these operations, which are those of a client of a valid workload with these settings. It
    /// draws by this drawer of the giver's pool, and has this number among the actors.
    pub fn make(
        alloc: Global,
        actor: u32,
        client: ClientId,
        settings: &Settings,
        operations: &[Op],
        giver: &Giver,
        drawer: Drawer,
    ) -> Result<ConnectedClient, Memory>
        requires playable { IsPlayable (settings_of settings.now) (map operation_of operations.now) }
        requires drawer { IsDrawerFor (settings_of settings.now) (map operation_of operations.now) giver.now drawer }
        ensures { IfOk result (IsConnected (settings_of settings.now) client (map operation_of operations.now) giver.now drawer) }
    {
        let amounts = amounts_of(settings.size, operations);
        let key = ClientKey::new(client, giver, settings.nodes, &settings.triggers);
        let autos = autos_of(alloc, settings)?;
        let core = ClientCore::make(alloc, client, settings.size, amounts.calls)?;
        let links = links_of(alloc, &amounts, &key)?;
        let client = Client::make(
            core,
            autos,
            drawer,
            links.chunks,
            links.crumbs,
            links.triggers,
        );
        Ok(ConnectedClient {
            caller: ClientActor {
                client,
                actor,
                done: 0,
            },
            chunks: links.chunk_end,
            crumbs: links.crumb_end,
            triggers: links.trigger_end,
        })
    }
}

/// The ends of a client's links at the client and at its agent.
#[derive(Drop)]
struct Links {
    chunks: Sender<Held<Lease>, ClientKey>,
    chunk_end: Receiver<Held<Lease>, ClientKey>,
    crumbs: Sender<Crumb, ClientKey>,
    crumb_end: Receiver<Crumb, ClientKey>,
    triggers: Sender<Trigger, ClientKey>,
    trigger_end: Receiver<Trigger, ClientKey>,
}

/// New links for these amounts of operations.
fn links_of(alloc: Global, amounts: &Amounts, key: &ClientKey) -> Result<Links, Memory>
    ensures chunks { IfOk result (λ links. AreNewEnds key.now MAX_TAKEN amounts.now.calls links.chunks links.chunk_end) }
    ensures crumbs { IfOk result (λ links. AreNewEnds key.now MAX_TAKEN amounts.now.crumbs links.crumbs links.crumb_end) }
    ensures triggers { IfOk result (λ links. AreNewEnds key.now MAX_TAKEN amounts.now.triggers links.triggers links.trigger_end) }
{
    let (chunks, chunk_end) = link::<Held<Lease>, ClientKey>(alloc, MAX_TAKEN, amounts.calls, key)?;
    let (crumbs, crumb_end) = link::<Crumb, ClientKey>(alloc, MAX_TAKEN, amounts.crumbs, key)?;
    let (triggers, trigger_end) = link::<Trigger, ClientKey>(
        alloc,
        MAX_TAKEN,
        amounts.triggers,
        key,
    )?;
    Ok(Links {
        chunks,
        chunk_end,
        crumbs,
        crumb_end,
        triggers,
        trigger_end,
    })
}

/// An autotrigger for each rule of the settings, without a sample.
fn autos_of(alloc: Global, settings: &Settings) -> Result<List<Auto>, Memory>
    requires { AreAutoRules settings.now.triggers.items settings.now.autos.items }
    ensures { IfOk result (λ autos. AreNewFor settings.now.autos.items autos.items) }
{
    let mut autos = List::with_room(alloc, settings.autos.len())?;
    for rule in settings.autos.as_slice() {
        autos.push(Auto::make(alloc, *rule)?);
    }
    Ok(autos)
}
