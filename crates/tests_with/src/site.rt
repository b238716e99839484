//! An agent with what its next call asks.

ghost use Rattle.std.specs.Prelude.{◌≡◌, ◌≤◌, ◌<◌, ◌^◌, true, IfOk, IsSome};
ghost use Rattle.hs_words.specs.Buffers.{buffer_of};
ghost use Rattle.tests_with.specs.Ready.{IsPageOf, Fits};

use hs_agent::{Agent, Finished, Input, few_are_admitted};
use hs_base::limits::{MAX_BURST, MAX_NODES, MAX_RATE, MIN_SIZE};
use hs_base::{
    ClientId, Crumb, Laterals, List, Memory, NodeId, Settings, Told, TraceId, Trigger, TriggerId,
    TriggerRule,
};
use hs_words::{Given, Header, Held, Stock};
use std::alloc::Global;
use std::marker::Model;

/// The limits of an agent, and the burst in tokens and the rate in tokens a second of the trigger id 1.
#[derive(Clone, Copy, Debug)]
pub struct Limits {
    pub threshold: u32,
    pub traces: u32,
    pub pins: u32,
    pub burst: u32,
    pub rate: u32,
}

/// The agent of node 0 with pages of 64 bytes, whose clients trigger the id 1 alone. Chunks come from client 0, and each chunk
/// that was offered was answered. Contracts see how many events there were at most. After 2^32 - 2 events each call answers `Memory`.
#[derive(Drop)]
pub struct Site {
    alloc: Global,
    agent: Agent<()>,
    events: u32,
}

impl Model for Site {
    ghost use Rattle.std.specs.Prelude.{ℕ};
    ghost use Rattle.tests_with.specs.Ready.{IsReady};

    ghost Value = { ℕ };

    ghost view = { λ a. a.events };

    ghost invariant = { λ a. IsReady a.events a.agent };
}

impl Site {
    /// An agent that has taken nothing.
    pub fn make(alloc: Global, limits: Limits) -> Result<Site, Memory>
        requires some { 1 ≤ limits.burst }
        requires burst { limits.burst ≤ MAX_BURST }
        requires rate { limits.rate ≤ MAX_RATE }
    {
        let mut triggers = List::with_room(alloc, 1)?;
        triggers.push(TriggerRule {
            id: TriggerId(1),
            weight: 1,
            burst: limits.burst,
            rate: limits.rate,
        });
        let settings = Settings {
            nodes: MAX_NODES,
            clients: 1,
            buffers: 8,
            size: MIN_SIZE,
            threshold: limits.threshold,
            traces: limits.traces,
            pins: limits.pins,
            stride: 16,
            triggers,
            autos: List::new(alloc),
        };
        let agent = Agent::make(alloc, NodeId(0), &settings)?;
        Ok(Site {
            alloc,
            agent,
            events: 0,
        })
    }

    /// Takes a chunk of a trace, with one record of one byte on its page.
    pub fn chunk(&mut self, trace: u128, page: u32) -> Result<Option<Told>, Memory> {
        let held = page_of(self.alloc, trace, page)?;
        self.take(Input::Chunk { client: 0, held })
    }

    /// Takes a crumb to a node below 16.
    pub fn crumb(&mut self, trace: u128, node: u16) -> Result<Option<Told>, Memory>
        requires { node < MAX_NODES }
    {
        let crumb = Crumb {
            trace: TraceId(trace),
            node: NodeId(node),
        };
        self.take(Input::Crumb { client: 0, crumb })
    }

    /// Takes a trigger of the id 1.
    pub fn trigger(
        &mut self,
        moment: u64,
        lead: u128,
        laterals: Laterals,
    ) -> Result<Option<Told>, Memory> {
        let trigger = Trigger {
            moment,
            trigger: TriggerId(1),
            lead: TraceId(lead),
            laterals,
        };
        self.take(Input::Trigger { client: 0, trigger })
    }

    /// Takes a chunk as `chunk` does, or not at all. Answers whether it did.
    #[tactic(auto, using(crate::proofs::Sites::few_here))]
    pub fn try_chunk(&mut self, trace: u128, page: u32) -> Result<bool, Memory> {
        let held = page_of(self.alloc, trace, page)?;
        if self.events >= u32::MAX - 1 {
            return Err(Memory);
        }
        let tried = self.agent.try_chunk(0, held);
        self.events += 1;
        Ok(tried.is_ok())
    }

    /// Takes a crumb as `crumb` does, or not at all. Answers whether it did.
    #[tactic(auto, using(crate::proofs::Sites::few_here))]
    pub fn try_crumb(&mut self, trace: u128, node: u16) -> Result<bool, Memory>
        requires { node < MAX_NODES }
    {
        let crumb = Crumb {
            trace: TraceId(trace),
            node: NodeId(node),
        };
        if self.events >= u32::MAX - 1 {
            return Err(Memory);
        }
        let tried = self.agent.try_crumb(0, crumb);
        self.events += 1;
        Ok(tried.is_ok())
    }

    /// Takes a trigger as `trigger` does, or not at all. Answers whether it did.
    #[tactic(auto, using(crate::proofs::Sites::few_here))]
    pub fn try_trigger(&mut self, lead: u128, laterals: Laterals) -> Result<bool, Memory> {
        few_are_admitted();
        let trigger = Trigger {
            moment: 0,
            trigger: TriggerId(1),
            lead: TraceId(lead),
            laterals,
        };
        if self.events >= u32::MAX - 1 {
            return Err(Memory);
        }
        let tried = self.agent.try_trigger(0, &trigger);
        self.events += 1;
        Ok(tried.is_ok())
    }

    #[tactic(auto, using(crate::proofs::Sites::few_here))]
    fn take(&mut self, input: Input<()>) -> Result<Option<Told>, Memory>
        requires { Fits input }
    {
        few_are_admitted();
        if self.events >= u32::MAX - 1 {
            return Err(Memory);
        }
        let told = self.agent.step(input);
        self.events += 1;
        told
    }

    /// Offers the first of the hand, and has the pool leave it unread. Answers whether there was one.
    pub fn offer(&mut self) -> Result<bool, Memory> {
        if self.events == u32::MAX {
            return Err(Memory);
        }
        let Some(held) = self.agent.offer()? else {
            return Ok(false);
        };
        self.agent.gave(unread(held));
        self.events += 1;
        Ok(true)
    }

    /// How many chunks are pinned.
    pub fn pinned(&self) -> u32 {
        self.agent.pinned()
    }

    /// What the agent has left. A chunk that is still pinned is answered by `Memory`.
    pub fn finish(self) -> Result<Finished<()>, Memory> {
        if self.agent.pinned() > 0 {
            return Err(Memory);
        }
        self.agent.finish()
    }
}

/// The pool's answer where a place was not read.
fn unread(held: Held<()>) -> Given<()> {
    Given::Unread { held }
}

/// A chunk of 64 bytes with one record on a page of the trace.
fn page_of(alloc: Global, trace: u128, page: u32) -> Result<Held<()>, Memory>
    ensures { IfOk result (λ held. IsPageOf 0 (buffer_of held)) }
{
    let mut chunks = Stock::make(alloc, 1, MIN_SIZE)?;
    match chunks.pop() {
        Some(mut chunk) => {
            chunk.clear();
            chunk.start(Header {
                trace: TraceId(trace),
                client: ClientId { node: 0, number: 0 },
                page,
                first: page,
            });
            chunk.add(u64::from(page), &[0xaa]);
            Ok(Held { chunk, lease: () })
        }
        None => Err(Memory),
    }
}
