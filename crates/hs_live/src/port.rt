//! The port of a node's agent.

ghost use Rattle.std.specs.Prelude.{◌≡◌, ◌<◌, ◌≤◌, length, map, IfSome};
ghost use Rattle.hs_words.specs.Buffers.{Buffer, buffer_of, buffer_in};
ghost use Rattle.hs_words.specs.Ends.{answers_in};
ghost use Rattle.hs_words.specs.declared.token.TheConstants.{MAX_PUBLISHED};
ghost use Rattle.hs_ring.specs.Parts.{Leased, Gives};
ghost use Rattle.hs_base.specs.declared.told.Crumb.{Crumb};
ghost use Rattle.hs_base.specs.declared.told.Trigger.{Trigger};
ghost use Rattle.hs_link.specs.Contents.{Incoming};
ghost use Rattle.hs_live.specs.Live.{incoming, IsEnd, ReceivesAt};
ghost use Rattle.hs_live.specs.Keys.{Key, IsChunkOf, IsCrumbOf, IsTriggerOf};
ghost use Rattle.hs_live.specs.Done.{DoesNothing};
ghost use Rattle.hs_live.specs.Calls.{IsPort, IsOf, AreMates, MeetsAt};

use crate::client::Client;
use crate::key::ClientKey;
use crate::links::receive_at;
use hs_base::{Crumb, List, Trigger};
use hs_link::Receiver;
use hs_ring::{Giver, Lease};
use hs_words::{Given, Held};
use std::marker::Model;

/// The other ends of what the clients of a node have: the giver of the pool, and for each client, by number, the ends of
/// its three links that receive. No call waits, and none takes memory.
#[derive(Drop)]
pub struct AgentPort {
    giver: Giver,
    chunks: List<Receiver<Held<Lease>, ClientKey>>,
    crumbs: List<Receiver<Crumb, ClientKey>>,
    triggers: List<Receiver<Trigger, ClientKey>>,
}

impl Model for AgentPort {
    ghost use Rattle.hs_live.specs.Live.{Port};

    ghost Value = { Port };

    ghost use Rattle.hs_live.specs.PortInside.{port_of, IsPortInside};

    ghost view = { port_of };

    ghost invariant = { IsPortInside };
}

/// What a port gives back.
#[derive(Drop)]
pub struct PortParts {
    pub giver: Giver,
    pub chunks: List<Receiver<Held<Lease>, ClientKey>>,
    pub crumbs: List<Receiver<Crumb, ClientKey>>,
    pub triggers: List<Receiver<Trigger, ClientKey>>,
}

impl AgentPort {
    /// A port with these parts.
    pub fn make(
        giver: Giver,
        chunks: List<Receiver<Held<Lease>, ClientKey>>,
        crumbs: List<Receiver<Crumb, ClientKey>>,
        triggers: List<Receiver<Trigger, ClientKey>>,
    ) -> AgentPort
        requires { IsPort (record { giver = giver; chunks = map incoming chunks.items; crumbs = crumbs.items; triggers = triggers.items }) }
        ensures { result ≡ record { giver = giver; chunks = map incoming chunks.items; crumbs = crumbs.items; triggers = triggers.items } }
    {
        AgentPort {
            giver,
            chunks,
            crumbs,
            triggers,
        }
    }

    /// Brings a client of the node and the port together, in one thread: on each of the three links either end hears of
    /// what the other did, and then the giver and the drawer meet.
    pub fn meet(&mut self, client: &mut Client, number: u16)
        requires { AreMates number self.old client.old }
        ensures met { MeetsAt number self.old client.old self.new client.new }
        ensures does { DoesNothing client.old client.new }
    {
        client.meet(
            &mut self.giver,
            &mut self.chunks,
            &mut self.crumbs,
            &mut self.triggers,
            number,
        );
    }

    /// The next chunk of a client, by its number.
    pub fn chunk(&mut self, client: u16) -> Option<Held<Lease>>
        requires { client < length self.old.chunks }
        ensures received { ReceivesAt client self.old.chunks (buffer_in result) self.new.chunks }
        ensures fact { IfSome result (λ held. (key : Key) × IsOf self.old.giver client key × IsChunkOf key (buffer_of held)) }
        ensures end { IfSome result (λ held. (r : Incoming (Buffer Leased) Key) × IsEnd client self.old.chunks r × IsChunkOf r.key (buffer_of held)) }
        ensures only { self.new ≡ record self.old { chunks = self.new.chunks } }
    {
        receive_at(&mut self.chunks, client)
    }

    /// The next crumb of a client, by its number.
    pub fn crumb(&mut self, client: u16) -> Option<Crumb>
        requires { client < length self.old.crumbs }
        ensures received { ReceivesAt client self.old.crumbs result self.new.crumbs }
        ensures fact { IfSome result (λ crumb. (r : Incoming Crumb Key) × IsEnd client self.old.crumbs r × IsCrumbOf r.key crumb) }
        ensures only { self.new ≡ record self.old { crumbs = self.new.crumbs } }
    {
        receive_at(&mut self.crumbs, client)
    }

    /// The next trigger of a client, by its number.
    pub fn trigger(&mut self, client: u16) -> Option<Trigger>
        requires { client < length self.old.triggers }
        ensures received { ReceivesAt client self.old.triggers result self.new.triggers }
        ensures fact { IfSome result (λ trigger. (r : Incoming Trigger Key) × IsEnd client self.old.triggers r × IsTriggerOf r.key trigger) }
        ensures only { self.new ≡ record self.old { triggers = self.new.triggers } }
    {
        receive_at(&mut self.triggers, client)
    }

    /// Gives a chunk back to the pool.
    pub fn give(&mut self, held: Held<Lease>) -> Given<Lease>
        requires pool { held.lease.pool ≡ self.old.giver.pool }
        requires size { held.chunk.size ≡ self.old.giver.size }
        ensures given { Gives self.old.giver held result self.new.giver }
        ensures few { length (answers_in self.new.giver.turns) ≤ MAX_PUBLISHED }
        ensures only { self.new ≡ record self.old { giver = self.new.giver } }
    {
        self.giver.give(held)
    }

    /// The parts, with what they know.
    pub fn parts(self) -> PortParts
        ensures { record { giver = result.giver; chunks = map incoming result.chunks.items; crumbs = result.crumbs.items; triggers = result.triggers.items } ≡ self }
    {
        let AgentPort {
            giver,
            chunks,
            crumbs,
            triggers,
        } = self;
        PortParts {
            giver,
            chunks,
            crumbs,
            triggers,
        }
    }
}
