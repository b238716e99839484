//! The agent.

ghost use Rattle.hs_law_agent.specs.Lives.{is_settled};
ghost use Rattle.std.specs.Prelude.{◌≡◌, ◌+◌, ◌<◌, ◌≤◌, [], ◌∷◌, ◌++◌, length, map, true, false, None, IsSome, IsNone, IfOk, IfSome, IfNone, IsErr, OnOk, OnErr};
ghost use Rattle.hs_base.specs.Rules.{AreRules};
ghost use Rattle.hs_records.specs.Plain.{settings_of};
ghost use Rattle.hs_words.specs.Buffers.{buffer_of, buffer_in};
ghost use Rattle.hs_records.specs.Books.{agent_book_of};
ghost use Rattle.hs_sched.specs.Turns.{IsSize};
ghost use Rattle.hs_law_agent.specs.Laws.{PlacesMatch};
ghost use Rattle.hs_law_agent.specs.Stepping.{step_of, step_of_answer, told_by};
ghost use Rattle.hs_law_agent.specs.Turning as model;
ghost use Rattle.hs_agent.specs.Keeping.{Point, Holds, HoldsThat, with_state};
ghost use Rattle.hs_agent.specs.Runs.{AgentRun, point_of, state_of, new_run, bare_run, StandsAt, Follows, Knows, IsSpent, IsTakable, input_of, taken_in, after_input, after_chunk, after_turn, told_in, IsChunkFor, offered_next, after_offer, answer_of, back_in, after_answer, forgetting, logged};
ghost use Rattle.hs_agent.specs.Points.{book_kept, buffers_left};
ghost use Rattle.hs_agent.specs.Firsts.{IsFirst};

mod trying;

use crate::hand::First;
use crate::holdings::Holdings;
use crate::input::{Finished, Input};
use hs_base::limits::MOST_NODES;
use hs_base::{Group, List, Memory, NodeId, Settings, Told, Why};
use hs_law_agent::laws::{events_lead_on, lists_go_on};
use hs_records::Step;
use hs_sched::Scheduler;
use hs_words::{Given, Held, Token};
use std::alloc::Global;
use std::marker::Model;

/// A node's agent. Contracts speak of the run that it follows: the settings, the node and the events so far, which the
/// agent's model takes to a state. Once a call has answered `Memory` the agent is spent and follows no run: each later
/// `step`, `take_chunk`, `turn` and `offer` answers so too, and `gave` does nothing.
#[derive(Drop)]
pub struct Agent<L: Token> {
    holdings: Holdings<L>,
    scheduler: Scheduler,
    /// Nothing stands here in a bare agent.
    log: List<Step>,
    keeps: bool,
    spent: bool,
}

impl<L: Token> Model for Agent<L> {
    ghost use Rattle.hs_agent.specs.Keeping.{PlainAgent};

    ghost Value = { PlainAgent L };

    ghost use Rattle.hs_agent.specs.AgentLayout.{keeping_in, HasLogRoom};

    ghost view = { keeping_in };

    ghost invariant = { HasLogRoom };
}

impl<L: Token> Agent<L> {
    /// An agent that has taken nothing.
    pub fn make(alloc: Global, node: NodeId, settings: &Settings) -> Result<Agent<L>, Memory>
        requires rules { AreRules settings.now.triggers.items }
        requires size { IsSize settings.now.size }
        requires nodes { settings.now.nodes ≤ MOST_NODES }
        ensures { IfOk result (λ agent. Follows agent (new_run (settings_of settings.now) node.0)) }
    {
        let scheduler = Scheduler::make(alloc, &settings.triggers, settings.size)?;
        let holdings = Holdings::make(alloc, node, settings)?;
        Ok(Agent {
            holdings,
            scheduler,
            log: List::new(alloc),
            keeps: true,
            spent: false,
        })
    }

    /// An agent that has taken nothing, and keeps no journal: its log, and what it notes of chunks, claims and pages, take no
    /// memory, now or later.
    pub fn bare(alloc: Global, node: NodeId, settings: &Settings) -> Result<Agent<L>, Memory>
        requires rules { AreRules settings.now.triggers.items }
        requires size { IsSize settings.now.size }
        requires nodes { settings.now.nodes ≤ MOST_NODES }
        ensures { IfOk result (λ agent. Follows agent (bare_run (settings_of settings.now) node.0)) }
    {
        let scheduler = Scheduler::make(alloc, &settings.triggers, settings.size)?;
        let holdings = Holdings::bare(alloc, node, settings)?;
        Ok(Agent {
            holdings,
            scheduler,
            log: List::new(alloc),
            keeps: false,
            spent: false,
        })
    }

    /// Takes the memory for so many claims more now, each of a group of its own, so that they ask for none when they come.
    pub fn reserve_claims(&mut self, claims: u32) -> Result<(), Memory>
        ensures { self.new ≡ self.old }
    {
        self.holdings.reserve_claims(claims)
    }

    /// Takes an input, and notes one step in the log. Answers what is to be told to the coordinator, if anything.
    pub fn step(&mut self, input: Input<L>) -> Result<Option<Told>, Memory>
        requires { Knows self.old (λ run. IsTakable (point_of run) input) }
        ensures told { (run : AgentRun L) → Follows self.old run → IfOk result (λ told. told ≡ told_in run input) }
        ensures after { (run : AgentRun L) → Follows self.old run → OnOk result (Follows self.new (after_input run input)) }
        ensures spent { OnErr result (IsSpent self.new) }
        ensures stays { IsSpent self.old → IsErr result }
    {
        if self.spent {
            return Err(Memory);
        }
        match self.take(input) {
            Ok(told) => Ok(told),
            Err(_) => {
                self.spent = true;
                Err(Memory)
            }
        }
    }

    /// Takes an input where memory was never wanting.
    fn take(&mut self, input: Input<L>) -> Result<Option<Told>, Memory>
        requires { (run : AgentRun L) × Follows self.old run × IsTakable (point_of run) input }
        ensures told { (run : AgentRun L) → Follows self.old run → IfOk result (λ told. told ≡ told_in run input) }
        ensures after { (run : AgentRun L) → Follows self.old run → OnOk result (Follows self.new (after_input run input)) }
    {
        events_lead_on();
        lists_go_on();
        room_for(&mut self.log, self.keeps, 2)?;
        let step = step_of(&input);
        let told = take_input(&mut self.scheduler, &mut self.holdings, input)?;
        note(&mut self.log, self.keeps, step);
        Ok(told)
    }

    /// Takes a chunk of a client, and notes one step in the log, as `step` does of this input. Nothing is told of it.
    pub fn take_chunk(&mut self, client: u16, held: Held<L>) -> Result<(), Memory>
        requires { Knows self.old (λ run. IsChunkFor run.settings run.node client (buffer_of held)) }
        ensures after { (run : AgentRun L) → Follows self.old run → OnOk result (Follows self.new (after_chunk run client (buffer_of held))) }
        ensures spent { OnErr result (IsSpent self.new) }
        ensures stays { IsSpent self.old → IsErr result }
    {
        match self.try_chunk(client, held) {
            Ok(()) => Ok(()),
            Err(_) => {
                self.spent = true;
                Err(Memory)
            }
        }
    }

    /// Makes a fair turn, and notes one step in the log, as `step` does of this input. Nothing is told of it.
    pub fn turn(&mut self) -> Result<(), Memory>
        requires { Knows self.old (λ run. Unit {0}) }
        ensures after { (run : AgentRun L) → Follows self.old run → OnOk result (Follows self.new (after_turn run)) }
        ensures spent { OnErr result (IsSpent self.new) }
        ensures stays { IsSpent self.old → IsErr result }
    {
        if self.spent {
            return Err(Memory);
        }
        match self.note_turn() {
            Ok(()) => Ok(()),
            Err(_) => {
                self.spent = true;
                Err(Memory)
            }
        }
    }

    /// Makes a fair turn where memory was never wanting.
    fn note_turn(&mut self) -> Result<(), Memory>
        requires { (run : AgentRun L) × Follows self.old run }
        ensures { (run : AgentRun L) → Follows self.old run → OnOk result (Follows self.new (after_turn run)) }
    {
        events_lead_on();
        lists_go_on();
        room_for(&mut self.log, self.keeps, 2)?;
        turn(&mut self.scheduler, &mut self.holdings)?;
        note(&mut self.log, self.keeps, Step::Turn);
        Ok(())
    }

    /// The first of the hand, to be offered to the pool, or `None` where the hand is empty. `gave` takes the pool's answer.
    pub fn offer(&mut self) -> Result<Option<Held<L>>, Memory>
        requires { Knows self.old (λ run. run.offered ≡ None) }
        ensures first { (run : AgentRun L) → Follows self.old run → IfOk result (λ first. buffer_in first ≡ offered_next run) }
        ensures empty { (run : AgentRun L) → Follows self.old run → IfOk result (λ first. IfNone first ((state_of run).hand ≡ [])) }
        ensures after { (run : AgentRun L) → Follows self.old run → OnOk result (Follows self.new (after_offer run)) }
        ensures spent { OnErr result (IsSpent self.new) }
        ensures stays { IsSpent self.old → IsErr result }
    {
        if self.spent {
            return Err(Memory);
        }
        match self.take_first() {
            Ok(first) => Ok(first),
            Err(_) => {
                self.spent = true;
                Err(Memory)
            }
        }
    }

    /// The first of the hand where memory was never wanting, with room to note the answer.
    fn take_first(&mut self) -> Result<Option<Held<L>>, Memory>
        requires { (run : AgentRun L) × Follows self.old run × (run.offered ≡ None) }
        ensures first { (run : AgentRun L) → Follows self.old run → IfOk result (λ first. buffer_in first ≡ offered_next run) }
        ensures empty { (run : AgentRun L) → Follows self.old run → IfOk result (λ first. IfNone first ((state_of run).hand ≡ [])) }
        ensures after { (run : AgentRun L) → Follows self.old run → OnOk result (Follows self.new (after_offer run)) }
    {
        lists_go_on();
        room_for(&mut self.log, self.keeps, 1)?;
        self.holdings.offer()
    }

    /// Takes the pool's answer to the chunk that was offered last, and notes one step in the log. A chunk that came back
    /// is first in the hand again, with the lease with which it came. Takes no memory.
    pub fn gave(&mut self, given: Given<L>)
        requires { Knows self.old (λ run. IsSome run.offered) }
        ensures after { (run : AgentRun L) → Follows self.old run → Follows self.new (after_answer run given) }
        ensures spent { self.new.spent ≡ self.old.spent }
        ensures idle { IsSpent self.old → self.new ≡ self.old }
    {
        if self.spent {
            return;
        }
        events_lead_on();
        lists_go_on();
        let (step, back) = answer_in(given);
        self.holdings.answer(back);
        note(&mut self.log, self.keeps, step);
    }

    /// Forgets a group for which nothing is pinned: its claims, their crumbs, and that it was abandoned. Answers whether it
    /// did; a spent agent forgets none. The run begins anew there. It takes no memory.
    pub fn forget(&mut self, group: Group) -> bool
        ensures settled { (run : AgentRun L) → Follows self.old run → result ≡ is_settled group (state_of run) }
        ensures after { (run : AgentRun L) → Follows self.old run → result ≡ true → Follows self.new (forgetting group run) }
        ensures same { result ≡ false → self.new ≡ self.old }
        ensures spent { self.new.spent ≡ self.old.spent }
        ensures idle { IsSpent self.old → self.new ≡ self.old }
        ensures stays { IsSpent self.old → result ≡ false }
    {
        if self.spent {
            return false;
        }
        lists_go_on();
        self.holdings.forget(group)
    }

    /// The first of the hand, which is offered next: its chunk, the lease with which it came last, why it left, and whether
    /// it was offered before. `None` where the hand is empty, or the agent is spent. It takes no memory.
    pub fn first(&self) -> Option<First<'_, L>>
        requires { Knows self.now (λ run. run.offered ≡ None) }
        ensures first { (run : AgentRun L) → Follows self.now run → run.offered ≡ None
            → IfSome result (λ first. IsFirst run first.chunk.now first.lease.now first.left first.again) }
        ensures empty { (run : AgentRun L) → Follows self.now run → run.offered ≡ None → IfNone result ((state_of run).hand ≡ []) }
        ensures idle { IsSpent self.now → IsNone result }
    {
        if self.spent {
            return None;
        }
        lists_go_on();
        self.holdings.first()
    }

    /// How many triggers were admitted.
    pub fn admitted(&self) -> u32
        ensures { (run : AgentRun L) → Follows self.now run → result ≡ (state_of run).admitted }
    {
        self.holdings.admitted()
    }

    /// The steps that were noted so far, in order: one for each input, and one for each answer of the pool. A bare agent notes
    /// none.
    pub fn log(&self) -> &List<Step>
        ensures { result.now.items ≡ self.now.log }
    {
        &self.log
    }

    /// How many chunks are pinned.
    pub fn pinned(&self) -> u32
        ensures { (run : AgentRun L) → Follows self.now run → result ≡ length (state_of run).pinned }
    {
        self.holdings.pinned()
    }

    /// How many chunks are in the hand, while none is offered.
    pub fn in_hand(&self) -> usize
        ensures { (run : AgentRun L) → Follows self.now run → run.offered ≡ None → result ≡ length (state_of run).hand }
    {
        self.holdings.in_hand()
    }

    /// The book of the agent, which is empty where no journal was kept, and the chunks that it has left. An agent that found no
    /// memory once has neither.
    pub fn finish(self) -> Result<Finished<L>, Memory>
        requires { Knows self (λ run. ((state_of run).pinned ≡ []) × (run.offered ≡ None)) }
        ensures book { (run : AgentRun L) → Follows self run → IfOk result (λ finished. agent_book_of finished.book ≡ book_kept run.keeps run.node (state_of run)) }
        ensures rest { (run : AgentRun L) → Follows self run → IfOk result (λ finished. map buffer_of finished.rest.items ≡ buffers_left (point_of run)) }
        ensures stays { IsSpent self → IsErr result }
    {
        lists_go_on();
        if self.spent {
            drop(self);
            return Err(Memory);
        }
        let Agent {
            holdings,
            scheduler,
            log,
            keeps: _,
            spent: _,
        } = self;
        drop(scheduler);
        holdings.finish(log)
    }
}

/// Makes room in a log that is kept.
fn room_for(log: &mut List<Step>, keeps: bool, more: usize) -> Result<(), Memory>
    ensures items { log.new.items ≡ log.old.items }
    ensures ok { OnOk result (keeps ≡ true → length log.new.items + more ≤ log.new.room) }
    ensures err { OnErr result (log.new ≡ log.old) }
{
    if keeps {
        return log.reserve(more);
    }
    Ok(())
}

/// Notes a step in a log that is kept, where there is room.
fn note(log: &mut List<Step>, keeps: bool, step: Step)
    requires { keeps ≡ true → length log.old.items < log.old.room }
    ensures items { log.new.items ≡ logged keeps log.old.items step }
    ensures room { log.old.room ≤ log.new.room }
{
    if keeps {
        log.push(step);
    }
}

/// The step that stands for an input in the log.
fn step_of<L: Token>(input: &Input<L>) -> Step
    ensures { result ≡ step_of (input_of input.now) }
{
    match input {
        Input::Chunk { client, held: _ } => Step::Chunk { client: *client },
        Input::Crumb { client, crumb: _ } => Step::Crumb { client: *client },
        Input::Trigger { client, trigger: _ } => Step::Trigger { client: *client },
        Input::Ask { ask: _ } => Step::Ask,
        Input::Turn => Step::Turn,
    }
}

/// The step that stands for the pool's answer in the log, and the chunk that came back, if one did.
fn answer_in<L: Token>(given: Given<L>) -> (Step, Option<Held<L>>)
    ensures step { result.0 ≡ step_of_answer (answer_of given) }
    ensures back { buffer_in result.1 ≡ back_in given }
{
    match given {
        Given::Given { stamp } => (Step::Given { stamp }, None),
        Given::Missed { held, stamp } => (Step::Missed { stamp }, Some(held)),
        Given::Unread { held } => (Step::Unread, Some(held)),
    }
}

/// Does what an input asks for. Answers what is to be told to the coordinator, if anything.
fn take_input<L: Token>(
    scheduler: &mut Scheduler,
    holdings: &mut Holdings<L>,
    input: Input<L>,
) -> Result<Option<Told>, Memory>
    requires { (point : Point L) × StandsAt holdings.old scheduler.old point × IsTakable point input × PlacesMatch point.state }
    ensures told { (point : Point L) → Holds holdings.old point → IfOk result (λ told. told ≡ told_by point.settings point.node point.state (input_of input)) }
    ensures after { (point : Point L) → StandsAt holdings.old scheduler.old point → PlacesMatch point.state → OnOk result (StandsAt holdings.new scheduler.new (taken_in input point)) }
{
    match input {
        Input::Chunk { client: _, held } => {
            holdings.take_chunk(held)?;
            Ok(None)
        }
        Input::Crumb { client: _, crumb } => holdings.take_crumb(crumb),
        Input::Trigger { client: _, trigger } => holdings.take_trigger(&trigger),
        Input::Ask { ask } => Ok(Some(holdings.take_ask(&ask, Why::Answer)?)),
        Input::Turn => {
            turn(scheduler, holdings)?;
            Ok(None)
        }
    }
}

/// Makes a fair turn over what is pinned, and reports what it sent.
fn turn<L: Token>(scheduler: &mut Scheduler, holdings: &mut Holdings<L>) -> Result<(), Memory>
    requires { (point : Point L) × StandsAt holdings.old scheduler.old point × PlacesMatch point.state }
    ensures { (point : Point L) → StandsAt holdings.old scheduler.old point → PlacesMatch point.state → OnOk result (StandsAt holdings.new scheduler.new (with_state (model.turn point.settings point.state) point)) }
{
    scheduler.turn(holdings);
    holdings.report()
}
