//! An agent whose links are closed: it takes what is left of them.

ghost use Rattle.std.specs.Prelude.{◌≡◌, ◌<◌, true, false, [], ◌++◌, length, map, OnOk, IfOk};
ghost use Rattle.hs_base.specs.declared.limits.TheConstants.{MAX_NODES};
ghost use Rattle.hs_records.specs.Books.{agent_book_of};
ghost use Rattle.hs_live.specs.Live.{outgoing};
ghost use Rattle.hs_law_agent.specs.Books.{book_of};
ghost use Rattle.hs_records.specs.Plain.{PlainWorkload};
ghost use Rattle.hs_ring.specs.Parts.{AreAllEnds, Closes};
ghost use Rattle.hs_words.specs.declared.token.Tally.{Tally};
ghost use Rattle.hs_run_actors.specs.Agents.{state_at};
ghost use Rattle.hs_run_actors.specs.AgentActors.{IsAgentActor};
ghost use Rattle.hs_run_actors.specs.ClosedAgentLayout.{IsJoined};
ghost use Rattle.hs_run_actors.specs.ClosedAgents.{Events, Buffers, AllSent, IsClosedAgent, IsClosedAgentBare, ClosedAgentPasses, AreMatesOf, all_sent};
ghost use Rattle.hs_run_actors.specs.Coordinators.{AllAskable, Brings, asks_for};
ghost use Rattle.hs_run_actors.specs.Work.{NodeWork, IsFew, with_asks, with_moved};

use crate::agent::AgentActor;
use crate::coordinator::CoordinatorActor;
use crate::rests::Rests;
use crate::working::WorkingAgent;
use hs_agent::Finished;
use hs_base::{Crumb, List, Memory, NodeId, OpenGate, Trigger};
use hs_law_agent::laws::{crumbs_lead_below, events_add_few, steps_say_what_they_tell};
use hs_link::Sender;
use hs_live::ClientKey;
use hs_records::AgentBook;
use hs_ring::{Drawer, Lease, close};
use hs_words::Held;
use std::alloc::Global;
use std::marker::Model;

/// An agent with what is left of the links of its node's clients, the giver of the pool, the asks that wait for it, and its messages
/// that wait to be fetched. Where a call answers that memory is wanted, it is of no more use.
#[derive(Drop)]
pub struct ClosedAgent {
    desk: WorkingAgent,
    rests: Rests,
    clients: u16,
}

impl Model for ClosedAgent {
    ghost use Rattle.hs_run_actors.specs.ClosedAgents.{PlainClosedAgent};

    ghost Value = { PlainClosedAgent };

    ghost use Rattle.hs_run_actors.specs.ClosedAgentLayout.{closed_agent_in};

    ghost view = { closed_agent_in };
}

impl AgentActor {
    /// Closes the links of the node's clients, of which these are the other ends, by the number of the client.
    pub fn close(
        self,
        alloc: Global,
        chunks: List<Sender<Held<Lease>, ClientKey>>,
        crumbs: List<Sender<Crumb, ClientKey>>,
        triggers: List<Sender<Trigger, ClientKey>>,
    ) -> Result<ClosedAgent, Memory>
        requires chunks { AreMatesOf (map outgoing chunks.items) self.port.chunks }
        requires crumbs { AreMatesOf crumbs.items self.port.crumbs }
        requires triggers { AreMatesOf triggers.items self.port.triggers }
        ensures shut { (W : PlainWorkload) (work : NodeWork) → IsAgentActor W work self → IfOk result (IsClosedAgent W work (all_sent (map outgoing chunks.items) crumbs.items triggers.items)) }
        ensures only { IfOk result (λ node. (node.agent ≡ self.agent) × (node.giver ≡ self.port.giver) × (node.asks ≡ self.asks) × (node.said ≡ self.said)) }
    {
        let AgentActor {
            desk,
            port,
            clients,
        } = self;
        let rests = Rests::of(alloc, port.parts(), chunks, crumbs, triggers);
        ClosedAgent::joined(desk, rests, clients)
    }
}

impl ClosedAgent {
    /// An agent at work with what is left of its links, where there was memory for that.
    fn joined(
        desk: WorkingAgent,
        rests: Result<Rests, Memory>,
        clients: u16,
    ) -> Result<ClosedAgent, Memory>
        ensures { IfOk result (IsJoined desk rests clients) }
    {
        Ok(ClosedAgent {
            desk,
            rests: rests?,
            clients,
        })
    }

    /// The agent makes a pass as in the rounds, over what its closed links still held and the asks that wait.
    pub fn pass(&mut self) -> Result<(), Memory>
        requires { (W : PlainWorkload) × (work : NodeWork) × (all : AllSent) × IsClosedAgent W work all self.old × IsFew W work }
        ensures { (W : PlainWorkload) (work : NodeWork) (all : AllSent) → IsClosedAgent W work all self.old → IsFew W work
            → OnOk result ((pass : Events) × (came : Buffers) × ClosedAgentPasses W work all pass came self.old self.new) }
    {
        self.desk.pass(&mut self.rests, &OpenGate, self.clients)?;
        Ok(())
    }

    /// Brings what the agent told, and the coordinator has not got yet, to the coordinator, where this is the agent of the node.
    /// After it no message waits at the agent.
    pub fn tell(&mut self, coordinator: &mut CoordinatorActor, node: NodeId) -> Result<(), Memory>
        requires { node.0 < length coordinator.old.told }
        ensures only { OnOk result (self.new ≡ record self.old { said = [] }) }
        ensures coordinator { coordinator.new ≡ record coordinator.old { told = coordinator.new.told } }
        ensures shut { (W : PlainWorkload) (work : NodeWork) (all : AllSent) → IsClosedAgent W work all self.old
            → OnOk result (IsClosedAgent W (with_moved self.old.said work) all self.new × Brings W node.0 self.old.said coordinator.old coordinator.new) }
    {
        crumbs_lead_below();
        events_add_few();
        steps_say_what_they_tell();
        coordinator.hear(node, &mut self.desk.said)?;
        Ok(())
    }

    /// Fetches the asks that the coordinator has for the node. They wait at the agent behind those that it has not taken yet.
    pub fn ask(&mut self, coordinator: &CoordinatorActor, node: NodeId) -> Result<(), Memory>
        requires { node.0 < MAX_NODES }
        ensures only { OnOk result (self.new ≡ record self.old { asks = self.old.asks ++ asks_for node.0 coordinator.now.asks }) }
        ensures shut { (W : PlainWorkload) (work : NodeWork) (all : AllSent) → IsClosedAgent W work all self.old → AllAskable W coordinator.now.asks
            → OnOk result (IsClosedAgent W (with_asks (asks_for node.0 coordinator.now.asks) work) all self.new) }
    {
        coordinator.ask(node, &mut self.desk.asks)?;
        Ok(())
    }

    /// Whether nothing waits at the node, and nothing is pinned.
    pub fn is_bare(&self) -> bool
        ensures { (W : PlainWorkload) (work : NodeWork) (all : AllSent) → IsClosedAgent W work all self.now
            → (result ≡ true → IsClosedAgentBare W work self.now) × (result ≡ false → IsClosedAgentBare W work self.now → ⊥) }
    {
        if !self.rests.are_empty() {
            return false;
        }
        if !self.desk.asks.is_empty() {
            return false;
        }
        if !self.desk.said.is_empty() {
            return false;
        }
        self.desk.agent.pinned() == 0
    }

    /// The book of the agent. The pool is closed, of which these are all drawers, in the order of their numbers. Nothing is pinned.
    pub fn finish(self, drawers: List<Drawer>) -> Result<AgentBook, Memory>
        requires done { (W : PlainWorkload) × (work : NodeWork) × (all : AllSent) × IsClosedAgent W work all self × ((state_at W work).pinned ≡ []) }
        requires ends { AreAllEnds self.giver drawers.items }
        ensures book { (W : PlainWorkload) (work : NodeWork) (all : AllSent) → IsClosedAgent W work all self → IfOk result (λ book. agent_book_of book ≡ book_of work.node (state_at W work)) }
        ensures closes { IfOk result (λ _. (tally : Tally) × Closes self.giver drawers.items tally) }
    {
        let ClosedAgent {
            desk,
            rests,
            clients: _,
        } = self;
        let finished = desk.agent.finish()?;
        let Finished { book, rest } = finished;
        let _tally = close(rests.giver, drawers, rest);
        Ok(book)
    }
}
