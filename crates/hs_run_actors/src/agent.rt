//! An agent in the rounds: it takes what came through the links of its node's clients.

ghost use Rattle.std.specs.Prelude.{◌≡◌, ◌<◌, [], ◌++◌, List, length, OnOk, IfOk};
ghost use Rattle.hs_base.specs.declared.ids.ClientId.{ClientId};
ghost use Rattle.hs_base.specs.declared.limits.TheConstants.{MAX_NODES};
ghost use Rattle.hs_run_actors.specs.Standing.{ClientActorIsAt};
ghost use Rattle.hs_live.specs.Calls.{AreMates, MeetsAt};
ghost use Rattle.hs_law_agent.specs.Stepping.{AgentEvent};
ghost use Rattle.hs_records.specs.Plain.{Operation, PlainSettings, PlainWorkload, settings_of};
ghost use Rattle.hs_ring.specs.Parts.{Leased};
ghost use Rattle.hs_records.specs.Validity.{IsValid};
ghost use Rattle.hs_words.specs.Buffers.{Buffer};
ghost use Rattle.hs_run_actors.specs.AgentActors.{IsAgentActor, BeginsAt, Passes};
ghost use Rattle.hs_run_actors.specs.Coordinators.{AllAskable, Brings, asks_for};
ghost use Rattle.hs_run_actors.specs.Work.{NodeWork, IsFew, no_work, with_asks, with_moved};

use crate::client_actor::ClientActor;
use crate::coordinator::CoordinatorActor;
use crate::steps::Steps;
use crate::working::WorkingAgent;
use hs_agent::Agent;
use hs_base::{Gate, Memory, NodeId, Settings};
use hs_law_agent::laws::{crumbs_lead_below, events_add_few, steps_say_what_they_tell};
use hs_live::AgentPort;
use hs_records::Step;
use std::alloc::Global;
use std::collections::VecDeque;
use std::marker::Model;

/// An agent with its port, the asks that wait for it, and its messages that wait to be fetched. Where a call answers that memory is
/// wanted, it is of no more use.
#[derive(Drop)]
pub struct AgentActor {
    pub(crate) desk: WorkingAgent,
    pub(crate) port: AgentPort,
    pub(crate) clients: u16,
}

impl Model for AgentActor {
    ghost use Rattle.hs_run_actors.specs.AgentActors.{PlainAgentActor};

    ghost Value = { PlainAgentActor };

    ghost use Rattle.hs_run_actors.specs.AgentLayout.{agent_actor_in};

    ghost view = { agent_actor_in };
}

impl AgentActor {
    /// The agent of a node that has taken nothing, with a port of which nothing was taken. It is the actor with this number.
    pub fn make(
        alloc: Global,
        actor: u32,
        node: u16,
        settings: &Settings,
        port: AgentPort,
    ) -> Result<AgentActor, Memory>
        requires { (W : PlainWorkload) × IsValid W × (settings_of settings.now ≡ W.settings) × (node < W.settings.nodes) × BeginsAt W node port }
        ensures { (W : PlainWorkload) → settings_of settings.now ≡ W.settings → BeginsAt W node port
            → IfOk result (λ agent. IsAgentActor W (no_work node port.giver.pool) agent × (agent.port ≡ port)) }
    {
        Ok(AgentActor {
            desk: WorkingAgent {
                agent: Agent::make(alloc, NodeId(node), settings)?,
                asks: VecDeque::new(alloc),
                said: VecDeque::new(alloc),
                steps: Steps::of(actor),
            },
            port,
            clients: settings.clients,
        })
    }

    /// A pass: of each client's three links and then of the asks the agent takes what has come, at most 64 items each. It
    /// makes its turn, and offers its hand to the pool until that is empty or an offer is unread.
    pub fn pass<G: Gate>(&mut self, gate: &G) -> Result<(), Memory>
        requires { (W : PlainWorkload) × (work : NodeWork) × IsAgentActor W work self.old × IsFew W work }
        ensures { (W : PlainWorkload) (work : NodeWork) → IsAgentActor W work self.old → IsFew W work
            → OnOk result ((pass : List AgentEvent) × (came : List (Buffer Leased)) × Passes W work pass came self.old self.new) }
    {
        self.desk.pass(&mut self.port, gate, self.clients)?;
        Ok(())
    }

    /// Brings a client of the node, which has this number there, together with the port.
    pub fn meet(&mut self, caller: &mut ClientActor, number: u16)
        requires { AreMates number self.old.port caller.old.client }
        ensures met { MeetsAt number self.old.port caller.old.client self.new.port caller.new.client }
        ensures only { self.new ≡ record self.old { port = self.new.port } }
        ensures manned { (W : PlainWorkload) (work : NodeWork) → IsAgentActor W work self.old → IsAgentActor W work self.new }
        ensures done { caller.new.done ≡ caller.old.done }
        ensures at { (settings : PlainSettings) (client : ClientId) (ops : List Operation) → ClientActorIsAt settings client ops caller.old → ClientActorIsAt settings client ops caller.new }
    {
        caller.meet(&mut self.port, number);
    }

    /// The steps that the agent noted so far, in order.
    pub fn log(&self) -> &[Step]
        ensures { result.now ≡ self.now.agent.log }
    {
        self.desk.agent.log().as_slice()
    }

    /// Brings what the agent told, and the coordinator has not got yet, to the coordinator, where this is the agent of the node.
    /// After it no message waits at the agent.
    pub fn tell(&mut self, coordinator: &mut CoordinatorActor, node: NodeId) -> Result<(), Memory>
        requires { node.0 < length coordinator.old.told }
        ensures only { OnOk result (self.new ≡ record self.old { said = [] }) }
        ensures coordinator { coordinator.new ≡ record coordinator.old { told = coordinator.new.told } }
        ensures manned { (W : PlainWorkload) (work : NodeWork) → IsAgentActor W work self.old
            → OnOk result (IsAgentActor W (with_moved self.old.said work) self.new × Brings W node.0 self.old.said coordinator.old coordinator.new) }
    {
        crumbs_lead_below();
        events_add_few();
        steps_say_what_they_tell();
        coordinator.hear(node, &mut self.desk.said)?;
        Ok(())
    }

    /// Fetches the asks that the coordinator has for the node. They wait at the agent behind those that it has not taken yet.
    pub fn ask(&mut self, coordinator: &CoordinatorActor, node: NodeId) -> Result<(), Memory>
        requires { node.0 < MAX_NODES }
        ensures only { OnOk result (self.new ≡ record self.old { asks = self.old.asks ++ asks_for node.0 coordinator.now.asks }) }
        ensures manned { (W : PlainWorkload) (work : NodeWork) → IsAgentActor W work self.old → AllAskable W coordinator.now.asks
            → OnOk result (IsAgentActor W (with_asks (asks_for node.0 coordinator.now.asks) work) self.new) }
    {
        coordinator.ask(node, &mut self.desk.asks)?;
        Ok(())
    }
}
