//! Inputs that an agent takes whole, or hands back.

ghost use Rattle.std.specs.Prelude.{◌≡◌, ◌+◌, ◌<◌, ◌^◌, true, Some, IfOk, IfErr, IsErr, OnOk, OnErr};
ghost use Rattle.hs_base.specs.Rules.{is_declared};
ghost use Rattle.hs_words.specs.Buffers.{buffer_of};
ghost use Rattle.hs_law_agent.specs.Stepping.{Crumbed, Triggered, Asked, told_by};
ghost use Rattle.hs_agent.specs.Runs.{AgentRun, state_of, Follows, Knows, IsSpent, IsChunkFor, after_chunk};
ghost use Rattle.hs_agent.specs.Tries.{after_crumb, after_trigger, after_ask};

use super::{Agent, note, room_for};
use hs_base::{Ask, Crumb, Memory, Told, Trigger, Why};
use hs_law_agent::laws::events_lead_on;
use hs_records::Step;
use hs_words::{Held, Token};

impl<L: Token> Agent<L> {
    /// Takes a chunk of a client, as `take_chunk` does. All memory is asked for first: where it is wanting the chunk comes
    /// back, and nothing changes.
    pub fn try_chunk(&mut self, client: u16, held: Held<L>) -> Result<(), Held<L>>
        requires { Knows self.old (λ run. IsChunkFor run.settings run.node client (buffer_of held)) }
        ensures after { (run : AgentRun L) → Follows self.old run → OnOk result (Follows self.new (after_chunk run client (buffer_of held))) }
        ensures same { OnErr result (self.new ≡ self.old) }
        ensures back { IfErr result (λ back. buffer_of back ≡ buffer_of held) }
        ensures stays { IsSpent self.old → IsErr result }
    {
        if self.spent {
            return Err(held);
        }
        self.note_chunk(client, held)
    }

    /// Takes a chunk where memory was never wanting.
    fn note_chunk(&mut self, client: u16, held: Held<L>) -> Result<(), Held<L>>
        requires { (run : AgentRun L) × Follows self.old run × IsChunkFor run.settings run.node client (buffer_of held) }
        ensures after { (run : AgentRun L) → Follows self.old run → OnOk result (Follows self.new (after_chunk run client (buffer_of held))) }
        ensures same { OnErr result (self.new ≡ self.old) }
        ensures back { IfErr result (λ back. buffer_of back ≡ buffer_of held) }
    {
        events_lead_on();
        let Ok(()) = room_for(&mut self.log, self.keeps, 2) else {
            return Err(held);
        };
        self.holdings.try_chunk(held)?;
        note(&mut self.log, self.keeps, Step::Chunk { client });
        Ok(())
    }

    /// Takes a crumb of a client, as `step` does of this input. Answers what is to be told, if anything. All memory is
    /// asked for first: where it is wanting nothing changes.
    pub fn try_crumb(&mut self, client: u16, crumb: Crumb) -> Result<Option<Told>, Memory>
        requires { Knows self.old (λ run. crumb.node.0 < run.settings.nodes) }
        ensures told { (run : AgentRun L) → Follows self.old run → IfOk result (λ told. told ≡ told_by run.settings run.node (state_of run) (Crumbed client crumb)) }
        ensures after { (run : AgentRun L) → Follows self.old run → OnOk result (Follows self.new (after_crumb run client crumb)) }
        ensures same { OnErr result (self.new ≡ self.old) }
        ensures stays { IsSpent self.old → IsErr result }
    {
        if self.spent {
            return Err(Memory);
        }
        self.note_crumb(client, crumb)
    }

    /// Takes a crumb where memory was never wanting.
    fn note_crumb(&mut self, client: u16, crumb: Crumb) -> Result<Option<Told>, Memory>
        requires { (run : AgentRun L) × Follows self.old run × (crumb.node.0 < run.settings.nodes) }
        ensures told { (run : AgentRun L) → Follows self.old run → IfOk result (λ told. told ≡ told_by run.settings run.node (state_of run) (Crumbed client crumb)) }
        ensures after { (run : AgentRun L) → Follows self.old run → OnOk result (Follows self.new (after_crumb run client crumb)) }
        ensures same { OnErr result (self.new ≡ self.old) }
    {
        events_lead_on();
        room_for(&mut self.log, self.keeps, 2)?;
        let told = self.holdings.take_crumb(crumb)?;
        note(&mut self.log, self.keeps, Step::Crumb { client });
        Ok(told)
    }

    /// Takes a trigger of a client, as `step` does of this input. Answers what is to be told, if it is admitted. All memory
    /// is asked for first: where it is wanting nothing changes, so that the trigger may come again.
    pub fn try_trigger(&mut self, client: u16, trigger: &Trigger) -> Result<Option<Told>, Memory>
        requires { Knows self.old (λ run. (is_declared run.settings.triggers trigger.now.trigger ≡ true) × ((state_of run).admitted + 1 < 2 ^ 32)) }
        ensures told { (run : AgentRun L) → Follows self.old run → IfOk result (λ told. told ≡ told_by run.settings run.node (state_of run) (Triggered client trigger.now)) }
        ensures after { (run : AgentRun L) → Follows self.old run → OnOk result (Follows self.new (after_trigger run client trigger.now)) }
        ensures same { OnErr result (self.new ≡ self.old) }
        ensures stays { IsSpent self.old → IsErr result }
    {
        if self.spent {
            return Err(Memory);
        }
        self.note_trigger(client, trigger)
    }

    /// Takes a trigger where memory was never wanting.
    fn note_trigger(&mut self, client: u16, trigger: &Trigger) -> Result<Option<Told>, Memory>
        requires { (run : AgentRun L) × Follows self.old run × ((is_declared run.settings.triggers trigger.now.trigger ≡ true) × ((state_of run).admitted + 1 < 2 ^ 32)) }
        ensures told { (run : AgentRun L) → Follows self.old run → IfOk result (λ told. told ≡ told_by run.settings run.node (state_of run) (Triggered client trigger.now)) }
        ensures after { (run : AgentRun L) → Follows self.old run → OnOk result (Follows self.new (after_trigger run client trigger.now)) }
        ensures same { OnErr result (self.new ≡ self.old) }
    {
        events_lead_on();
        room_for(&mut self.log, self.keeps, 2)?;
        let told = self.holdings.take_trigger(trigger)?;
        note(&mut self.log, self.keeps, Step::Trigger { client });
        Ok(told)
    }

    /// Takes an ask of the coordinator, as `step` does of this input. Answers what is to be told. All memory is asked for
    /// first: where it is wanting nothing changes, so that the ask may come again.
    pub fn try_ask(&mut self, ask: &Ask) -> Result<Told, Memory>
        requires { Knows self.old (λ run. is_declared run.settings.triggers ask.now.group.trigger ≡ true) }
        ensures told { (run : AgentRun L) → Follows self.old run → IfOk result (λ told. Some told ≡ told_by run.settings run.node (state_of run) (Asked ask.now)) }
        ensures after { (run : AgentRun L) → Follows self.old run → OnOk result (Follows self.new (after_ask run ask.now)) }
        ensures same { OnErr result (self.new ≡ self.old) }
        ensures stays { IsSpent self.old → IsErr result }
    {
        if self.spent {
            return Err(Memory);
        }
        self.note_ask(ask)
    }

    /// Takes an ask where memory was never wanting.
    fn note_ask(&mut self, ask: &Ask) -> Result<Told, Memory>
        requires { (run : AgentRun L) × Follows self.old run × (is_declared run.settings.triggers ask.now.group.trigger ≡ true) }
        ensures told { (run : AgentRun L) → Follows self.old run → IfOk result (λ told. Some told ≡ told_by run.settings run.node (state_of run) (Asked ask.now)) }
        ensures after { (run : AgentRun L) → Follows self.old run → OnOk result (Follows self.new (after_ask run ask.now)) }
        ensures same { OnErr result (self.new ≡ self.old) }
    {
        events_lead_on();
        room_for(&mut self.log, self.keeps, 2)?;
        let told = self.holdings.take_ask(ask, Why::Answer)?;
        note(&mut self.log, self.keeps, Step::Ask);
        Ok(told)
    }
}
