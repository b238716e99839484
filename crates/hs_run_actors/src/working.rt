//! An agent with what waits for it, and what it told.

ghost use Rattle.std.specs.Prelude.{◌≡◌, [], ◌∷◌, OnOk, IfOk};
ghost use Rattle.hs_law_agent.specs.Stepping.{Took, Turn};
ghost use Rattle.hs_records.specs.Plain.{PlainWorkload};
ghost use Rattle.hs_run_actors.specs.Agents.{AgentWorks, MayCome, with_input};
ghost use Rattle.hs_run_actors.specs.WorkingAgents.{plain_working_agent};
ghost use Rattle.hs_run_actors.specs.Intakes.{Intakes};
ghost use Rattle.hs_run_actors.specs.Stages.{WorkingAgentStands, AgentCanTake, TakesChunks, TakesCrumbs, TakesTriggers, TakesAsks, TakesHelping, TakesFirst, OffersNext, OffersAll};
ghost use Rattle.hs_run_actors.specs.Passing.{CanPass, MakesPass};
ghost use Rattle.hs_run_actors.specs.Turns.{was_read};
ghost use Rattle.hs_run_actors.specs.Work.{NodeWork, with_events};

use crate::ends::IntakeEnds;
use crate::steps::Steps;
use hs_agent::{Agent, Input};
use hs_base::limits::MAX_TAKEN;
use hs_base::{Ask, Gate, Memory, Told};
use hs_law_agent::laws::{events_add_few, events_add_this, events_go_on, steps_say_what_they_tell};
use hs_ring::Lease;
use hs_words::Given;
use std::collections::VecDeque;

/// An agent, the asks that it has not taken, and its messages that were not fetched.
#[derive(Drop)]
pub(crate) struct WorkingAgent {
    pub(crate) agent: Agent<Lease>,
    pub(crate) asks: VecDeque<Ask>,
    pub(crate) said: VecDeque<Told>,
    pub(crate) steps: Steps,
}

impl WorkingAgent {
    /// The agent takes an input, and what it tells waits to be fetched.
    fn take(&mut self, input: Input<Lease>) -> Result<(), Memory>
        requires { (W : PlainWorkload) × (work : NodeWork) × AgentWorks W work self.old.agent self.old.said.items × MayCome W work input }
        ensures works { (W : PlainWorkload) (work : NodeWork) → AgentWorks W work self.old.agent self.old.said.items → MayCome W work input
            → OnOk result (AgentWorks W (with_input input work) self.new.agent self.new.said.items) }
        ensures asks { self.new.asks.items ≡ self.old.asks.items }
    {
        events_go_on();
        events_add_this();
        events_add_few();
        steps_say_what_they_tell();
        match self.agent.step(input)? {
            None => Ok(()),
            Some(told) => {
                self.said.push_back(told)?;
                Ok(())
            }
        }
    }

    /// The agent takes the chunks of a client that have come, at most 64.
    fn take_chunks<E: IntakeEnds, G: Gate>(
        &mut self,
        ends: &mut E,
        gate: &G,
        client: u16,
    ) -> Result<(), Memory>
        requires { (W : PlainWorkload) × (work : NodeWork) × AgentCanTake W work client (plain_working_agent self.old) (E.sees ends.old) }
        ensures { (W : PlainWorkload) (work : NodeWork) → AgentCanTake W work client (plain_working_agent self.old) (E.sees ends.old)
            → OnOk result (TakesChunks W work client (E.sees ends.old) (E.sees ends.new) (plain_working_agent self.new)) }
    {
        for count in 0..MAX_TAKEN {
            let Some(held) = ends.chunk(client) else {
                return Ok(());
            };
            self.steps.pass(gate);
            self.take(Input::Chunk { client, held })?;
        }
        Ok(())
    }

    /// The agent takes the crumbs of a client that have come, at most 64.
    fn take_crumbs<E: IntakeEnds, G: Gate>(
        &mut self,
        ends: &mut E,
        gate: &G,
        client: u16,
    ) -> Result<(), Memory>
        requires { (W : PlainWorkload) × (work : NodeWork) × AgentCanTake W work client (plain_working_agent self.old) (E.sees ends.old) }
        ensures { (W : PlainWorkload) (work : NodeWork) → AgentCanTake W work client (plain_working_agent self.old) (E.sees ends.old)
            → OnOk result (TakesCrumbs W work client (E.sees ends.old) (E.sees ends.new) (plain_working_agent self.new)) }
    {
        for count in 0..MAX_TAKEN {
            let Some(crumb) = ends.crumb(client) else {
                return Ok(());
            };
            self.steps.pass(gate);
            self.take(Input::Crumb { client, crumb })?;
        }
        Ok(())
    }

    /// The agent takes the triggers of a client that have come, at most 64.
    fn take_triggers<E: IntakeEnds, G: Gate>(
        &mut self,
        ends: &mut E,
        gate: &G,
        client: u16,
    ) -> Result<(), Memory>
        requires { (W : PlainWorkload) × (work : NodeWork) × AgentCanTake W work client (plain_working_agent self.old) (E.sees ends.old) }
        ensures { (W : PlainWorkload) (work : NodeWork) → AgentCanTake W work client (plain_working_agent self.old) (E.sees ends.old)
            → OnOk result (TakesTriggers W work client (E.sees ends.old) (E.sees ends.new) (plain_working_agent self.new)) }
    {
        for count in 0..MAX_TAKEN {
            let Some(trigger) = ends.trigger(client) else {
                return Ok(());
            };
            self.steps.pass(gate);
            self.take(Input::Trigger { client, trigger })?;
        }
        Ok(())
    }

    /// The agent takes the asks that wait, at most 64.
    fn take_asks<G: Gate>(&mut self, gate: &G) -> Result<(), Memory>
        requires { (W : PlainWorkload) × (work : NodeWork) × (lines : Intakes) × WorkingAgentStands W work (plain_working_agent self.old) lines }
        ensures { (W : PlainWorkload) (work : NodeWork) (lines : Intakes) → WorkingAgentStands W work (plain_working_agent self.old) lines
            → OnOk result (TakesAsks W work (plain_working_agent self.old) lines (plain_working_agent self.new)) }
    {
        for count in 0..MAX_TAKEN {
            let Some(ask) = self.asks.pop_front() else {
                return Ok(());
            };
            self.steps.pass(gate);
            self.take(Input::Ask { ask })?;
        }
        Ok(())
    }

    /// The agent takes what has come of a client: its chunks, its crumbs and its triggers.
    fn take_of<E: IntakeEnds, G: Gate>(
        &mut self,
        ends: &mut E,
        gate: &G,
        client: u16,
    ) -> Result<(), Memory>
        requires { (W : PlainWorkload) × (work : NodeWork) × AgentCanTake W work client (plain_working_agent self.old) (E.sees ends.old) }
        ensures { (W : PlainWorkload) (work : NodeWork) → AgentCanTake W work client (plain_working_agent self.old) (E.sees ends.old)
            → OnOk result (TakesHelping W work client (E.sees ends.old) (E.sees ends.new) (plain_working_agent self.new)) }
    {
        self.take_chunks(ends, gate, client)?;
        self.take_crumbs(ends, gate, client)?;
        self.take_triggers(ends, gate, client)?;
        Ok(())
    }

    /// The agent takes what has come of the clients, one client after another.
    fn take_all<E: IntakeEnds, G: Gate>(
        &mut self,
        ends: &mut E,
        gate: &G,
        clients: u16,
    ) -> Result<(), Memory>
        requires { (W : PlainWorkload) × (work : NodeWork) × CanPass W work clients (plain_working_agent self.old) (E.sees ends.old) }
        ensures { (W : PlainWorkload) (work : NodeWork) → CanPass W work clients (plain_working_agent self.old) (E.sees ends.old)
            → OnOk result (TakesFirst W work clients (E.sees ends.old) (E.sees ends.new) (plain_working_agent self.new)) }
    {
        for client in 0..clients {
            self.take_of(ends, gate, client)?;
        }
        Ok(())
    }

    /// The agent makes its turn.
    fn turn<G: Gate>(&mut self, gate: &G) -> Result<(), Memory>
        requires { (W : PlainWorkload) × (work : NodeWork) × (lines : Intakes) × WorkingAgentStands W work (plain_working_agent self.old) lines }
        ensures { (W : PlainWorkload) (work : NodeWork) (lines : Intakes) → WorkingAgentStands W work (plain_working_agent self.old) lines
            → OnOk result (WorkingAgentStands W (with_events (Took Turn ∷ []) [] work) (plain_working_agent self.new) lines) }
    {
        self.steps.pass(gate);
        self.take(Input::Turn)?;
        Ok(())
    }

    /// Offers the first of the hand to the pool, where there is one. Answers whether the pool read an offer.
    fn offer_next<E: IntakeEnds>(&mut self, ends: &mut E) -> Result<bool, Memory>
        requires { (W : PlainWorkload) × (work : NodeWork) × WorkingAgentStands W work (plain_working_agent self.old) (E.sees ends.old) }
        ensures { (W : PlainWorkload) (work : NodeWork) → WorkingAgentStands W work (plain_working_agent self.old) (E.sees ends.old)
            → IfOk result (OffersNext W work (E.sees ends.old) (E.sees ends.new) (plain_working_agent self.new)) }
    {
        events_go_on();
        events_add_this();
        steps_say_what_they_tell();
        match self.agent.offer()? {
            None => Ok(false),
            Some(held) => {
                let given = ends.give(held);
                let was_read = is_read(&given);
                self.agent.gave(given);
                Ok(was_read)
            }
        }
    }

    /// Offers the hand, first to last, until it is empty or an offer is unread. What is missed stays first in the hand, and
    /// is offered again.
    fn offer_all<E: IntakeEnds>(&mut self, ends: &mut E) -> Result<(), Memory>
        requires { (W : PlainWorkload) × (work : NodeWork) × WorkingAgentStands W work (plain_working_agent self.old) (E.sees ends.old) }
        ensures { (W : PlainWorkload) (work : NodeWork) → WorkingAgentStands W work (plain_working_agent self.old) (E.sees ends.old)
            → OnOk result (OffersAll W work (E.sees ends.old) (E.sees ends.new) (plain_working_agent self.new)) }
    {
        'offers: while self.offer_next(ends)? {}
        Ok(())
    }

    /// A pass: of each client's three lines and then of the asks the agent takes what has come, at most 64 items each. It
    /// makes its turn, and offers its hand to the pool until that is empty or an offer is unread.
    pub(crate) fn pass<E: IntakeEnds, G: Gate>(
        &mut self,
        ends: &mut E,
        gate: &G,
        clients: u16,
    ) -> Result<(), Memory>
        requires { (W : PlainWorkload) × (work : NodeWork) × CanPass W work clients (plain_working_agent self.old) (E.sees ends.old) }
        ensures { (W : PlainWorkload) (work : NodeWork) → CanPass W work clients (plain_working_agent self.old) (E.sees ends.old)
            → OnOk result (MakesPass W work (E.sees ends.old) (E.sees ends.new) (plain_working_agent self.new)) }
    {
        self.steps.pass(gate);
        self.take_all(ends, gate, clients)?;
        self.take_asks(gate)?;
        self.turn(gate)?;
        self.offer_all(ends)?;
        Ok(())
    }
}

/// Whether the pool read an offer.
fn is_read(given: &Given<Lease>) -> bool
    ensures { result ≡ was_read given.now }
{
    match given {
        Given::Given { .. } | Given::Missed { .. } => true,
        Given::Unread { .. } => false,
    }
}
