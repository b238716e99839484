//! What all items that a client sends have in common.

ghost use Rattle.std.specs.Prelude.{◌≡◌};

use hs_base::{ClientId, Crumb, List, Trigger, TriggerRule};
use hs_link::Fact;
use hs_ring::{Giver, Lease};
use hs_words::Held;
use std::marker::Model;
use std::snapshot::Snapshot;

/// The key of a client's three links. Only contracts see it: the client, its node's pool with the size of the chunks, the
/// number of nodes, and the trigger ids that are declared.
#[derive(Drop)]
pub struct ClientKey {
    client: ClientId,
    pool: Snapshot<Giver>,
    nodes: u16,
    rules: Snapshot<List<TriggerRule>>,
}

impl Model for ClientKey {
    ghost use Rattle.hs_live.specs.Keys.{Key};

    ghost Value = { Key };

    ghost view = { λ k. record { client = k.client; pool = k.pool.value.pool; size = k.pool.value.size; nodes = k.nodes; rules = k.rules.value.items } };
}

impl ClientKey {
    /// The key of a client of this giver's pool.
    pub fn new(client: ClientId, giver: &Giver, nodes: u16, rules: &List<TriggerRule>) -> ClientKey
        ensures { result ≡ record { client = client; pool = giver.now.pool; size = giver.now.size; nodes = nodes; rules = rules.now.items } }
    {
        ClientKey {
            client,
            pool: Snapshot::of(giver),
            nodes,
            rules: Snapshot::of(rules),
        }
    }
}

/// A chunk of the pool, with a page of the client in it.
impl Fact<Held<Lease>> for ClientKey {
    ghost use Rattle.hs_words.specs.Buffers.{buffer_of};
    ghost use Rattle.hs_live.specs.Keys.{IsChunkOf};

    ghost holds = { λ key held. IsChunkOf key (buffer_of held) };
}

/// A crumb to one of the nodes.
impl Fact<Crumb> for ClientKey {
    ghost use Rattle.hs_live.specs.Keys.{IsCrumbOf};

    ghost holds = { IsCrumbOf };
}

/// A trigger of a declared id.
impl Fact<Trigger> for ClientKey {
    ghost use Rattle.hs_live.specs.Keys.{IsTriggerOf};

    ghost holds = { IsTriggerOf };
}
