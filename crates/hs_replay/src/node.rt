//! A node.

ghost use Rattle.std.specs.Prelude.{◌≡◌, ℕ, ◌+◌, ◌^◌, ◌<◌, map, [], ◌∷◌, ◌++◌, length, set, slice_get, Some, None, IfOk, OnOk, MatchBool};
ghost use Rattle.hs_law_journal.specs.Following.{NodeRun, perform};
ghost use Rattle.hs_law_run.specs.Lockstep.{Machine, agents_take, agents_give, client_goes};
ghost use Rattle.hs_replay.specs.Standing.{NodeIsAt};
ghost use Rattle.hs_law_agent.specs.Stepping.{Took};
ghost use Rattle.hs_agent.specs.Runs.{input_of};
ghost use Rattle.hs_records.specs.declared.journal.Step.{Step};
ghost use Rattle.hs_records.specs.declared.journal.Step.TheVariants.{Turn};
ghost use Rattle.hs_records.specs.Plain.{PlainWorkload};
ghost use Rattle.hs_words.specs.Buffers.{buffer_in};
ghost use Rattle.hs_replay_client.specs.ReplayClients.{PlainReplayClient};
ghost use Rattle.hs_client.specs.Sending.{place_of};
ghost use Rattle.hs_records.specs.Views.{operation_of};
ghost use Rattle.hs_replay.specs.Going.{node_goes, AreOf, IsOneOf};
ghost use Rattle.hs_replay_client.specs.Places.{IsWithin, Goes, KeepsPool, TakesChunk, TakesCrumb, TakesTrigger};
ghost use Rattle.hs_base.specs.Changing.{ChangesAt};
ghost use Rattle.hs_replay.specs.Queues.{IsQueueOf};
ghost use Rattle.hs_replay.specs.declared.queue.Queue.TheVariants as queues;
ghost use Rattle.hs_replay.specs.Passing.{IsAmid, IsReady, TakesNext, WentBy, WentOf, StandsStill, takes_by, takes_first, IsGiving, GivesNextOf};

use crate::queue::Queue;
use hs_agent::{Agent, Input, few_are_admitted};
use hs_base::limits::{MAX_OPERATIONS, MAX_TAKEN};
use hs_base::{Ask, AutoRule, Crumb, List, Memory, Settings, Told, Trigger};
use hs_law_agent::laws::{events_add_this, events_go_on, steps_say_what_they_tell};
use hs_law_journal::laws::step_by_step;
use hs_law_run::lockstep_laws::{
    agents_give_so, agents_take_so, clients_go_so, machines_are_whole, machines_fit,
};
use hs_pool::{PlainPool, what_is_out_may_be_given};
use hs_records::Op;
use hs_replay_client::ReplayClient;
use hs_words::Held;
use std::collections::VecDeque;
use std::marker::Model;

/// A node of a replay. Where a call answers that memory is wanted, the node is of no more use.
#[derive(Drop)]
pub struct ReplayNode {
    pub(crate) pool: PlainPool,
    pub(crate) players: List<ReplayClient>,
    pub(crate) agent: Agent<()>,
    pub(crate) asks: VecDeque<Ask>,
    pub(crate) said: VecDeque<Told>,
}

impl Model for ReplayNode {
    ghost use Rattle.hs_replay.specs.Parts.{PlainReplayNode};

    ghost Value = { PlainReplayNode };

    ghost use Rattle.hs_replay.specs.NodeLayout.{replay_node_in};

    ghost view = { replay_node_in };
}

impl ReplayNode {
    /// The agent takes an input, and what it tells waits for the coordinator.
    fn take(&mut self, input: Input<()>) -> Result<(), Memory>
        requires { (W : PlainWorkload) × (m : Machine) × (n : ℕ) × (run : NodeRun) × (step : Step) × IsReady W m n run step input self.old }
        ensures { (W : PlainWorkload) (m : Machine) (n : ℕ) (run : NodeRun) (step : Step) → IsReady W m n run step input self.old
            → OnOk result (IsAmid W m n (perform W.settings [] run (Took (input_of input))) self.new) }
    {
        machines_fit();
        step_by_step();
        events_go_on();
        events_add_this();
        steps_say_what_they_tell();
        match self.agent.step(input)? {
            None => Ok(()),
            Some(told) => {
                self.said.push_back(told)?;
                Ok(())
            }
        }
    }

    /// The agent takes the next chunk of a client. Answers whether there was one.
    fn take_chunk(&mut self, client: u16) -> Result<bool, Memory>
        requires client { client < length self.old.players }
        requires amid { (W : PlainWorkload) × (m : Machine) × (n : ℕ) × (run : NodeRun) × IsAmid W m n run self.old }
        ensures { (W : PlainWorkload) (m : Machine) (n : ℕ) (run : NodeRun) → IsAmid W m n run self.old
            → IfOk result (TakesNext W m n (queues.Chunks client) run self.new) }
    {
        machines_fit();
        step_by_step();
        events_go_on();
        events_add_this();
        steps_say_what_they_tell();
        match next_chunk(&mut self.players, client) {
            None => Ok(false),
            Some(held) => {
                self.agent.take_chunk(client, held)?;
                Ok(true)
            }
        }
    }

    /// The agent takes the next crumb of a client. Answers whether there was one.
    fn take_crumb(&mut self, client: u16) -> Result<bool, Memory>
        requires client { client < length self.old.players }
        requires amid { (W : PlainWorkload) × (m : Machine) × (n : ℕ) × (run : NodeRun) × IsAmid W m n run self.old }
        ensures { (W : PlainWorkload) (m : Machine) (n : ℕ) (run : NodeRun) → IsAmid W m n run self.old
            → IfOk result (TakesNext W m n (queues.Crumbs client) run self.new) }
    {
        events_add_this();
        match next_crumb(&mut self.players, client) {
            None => Ok(false),
            Some(crumb) => {
                self.take(Input::Crumb { client, crumb })?;
                Ok(true)
            }
        }
    }

    /// The agent takes the next trigger of a client. Answers whether there was one.
    fn take_trigger(&mut self, client: u16) -> Result<bool, Memory>
        requires client { client < length self.old.players }
        requires amid { (W : PlainWorkload) × (m : Machine) × (n : ℕ) × (run : NodeRun) × IsAmid W m n run self.old }
        ensures { (W : PlainWorkload) (m : Machine) (n : ℕ) (run : NodeRun) → IsAmid W m n run self.old
            → IfOk result (TakesNext W m n (queues.Triggers client) run self.new) }
    {
        events_add_this();
        match next_trigger(&mut self.players, client) {
            None => Ok(false),
            Some(trigger) => {
                self.take(Input::Trigger { client, trigger })?;
                Ok(true)
            }
        }
    }

    /// The agent takes the next ask. Answers whether there was one.
    fn take_ask(&mut self) -> Result<bool, Memory>
        requires { (W : PlainWorkload) × (m : Machine) × (n : ℕ) × (run : NodeRun) × IsAmid W m n run self.old }
        ensures { (W : PlainWorkload) (m : Machine) (n : ℕ) (run : NodeRun) → IsAmid W m n run self.old
            → IfOk result (TakesNext W m n queues.Asks run self.new) }
    {
        events_add_this();
        match self.asks.pop_front() {
            None => Ok(false),
            Some(ask) => {
                self.take(Input::Ask { ask })?;
                Ok(true)
            }
        }
    }

    /// The agent takes the next item of a queue. Answers whether there was one.
    fn take_next(&mut self, queue: Queue) -> Result<bool, Memory>
        requires queue { IsQueueOf (length self.old.players) queue }
        requires amid { (W : PlainWorkload) × (m : Machine) × (n : ℕ) × (run : NodeRun) × IsAmid W m n run self.old }
        ensures { (W : PlainWorkload) (m : Machine) (n : ℕ) (run : NodeRun) → IsAmid W m n run self.old
            → IfOk result (TakesNext W m n queue run self.new) }
    {
        match queue {
            Queue::Chunks { client } => self.take_chunk(client),
            Queue::Crumbs { client } => self.take_crumb(client),
            Queue::Triggers { client } => self.take_trigger(client),
            Queue::Asks => self.take_ask(),
        }
    }

    /// The agent takes what waits in a queue, at most 64 items.
    fn take_from(&mut self, queue: Queue) -> Result<(), Memory>
        requires queue { IsQueueOf (length self.old.players) queue }
        requires amid { (W : PlainWorkload) × (m : Machine) × (n : ℕ) × (run : NodeRun) × IsAmid W m n run self.old }
        ensures { (W : PlainWorkload) (m : Machine) (n : ℕ) (run : NodeRun) → IsAmid W m n run self.old
            → OnOk result (WentBy W m n run (takes_by W m run queue) self.new) }
    {
        step_by_step();
        for count in 0..MAX_TAKEN {
            if !self.take_next(queue)? {
                return Ok(());
            }
        }
        Ok(())
    }

    /// The agent takes what waits in the three queues of a client.
    fn take_of(&mut self, client: u16) -> Result<(), Memory>
        requires client { client < length self.old.players }
        requires amid { (W : PlainWorkload) × (m : Machine) × (n : ℕ) × (run : NodeRun) × IsAmid W m n run self.old }
        ensures { (W : PlainWorkload) (m : Machine) (n : ℕ) (run : NodeRun) → IsAmid W m n run self.old
            → OnOk result (WentOf W m n run client self.new) }
    {
        step_by_step();
        self.take_from(Queue::Chunks { client })?;
        self.take_from(Queue::Crumbs { client })?;
        self.take_from(Queue::Triggers { client })?;
        Ok(())
    }

    /// The agent takes what waits in the queues of the clients, one client after another.
    fn take_all(&mut self) -> Result<(), Memory>
        requires amid { (W : PlainWorkload) × (m : Machine) × (n : ℕ) × (run : NodeRun) × IsAmid W m n run self.old }
        ensures { (W : PlainWorkload) (m : Machine) (n : ℕ) (run : NodeRun) → IsAmid W m n run self.old
            → OnOk result (WentBy W m n run (takes_first W m run W.settings.clients) self.new) }
    {
        step_by_step();
        for client in 0..self.players.len() {
            self.take_of(client as u16)?;
        }
        Ok(())
    }

    /// The agent makes its turn.
    fn turn(&mut self) -> Result<(), Memory>
        requires { (W : PlainWorkload) × (m : Machine) × (n : ℕ) × (run : NodeRun) × IsAmid W m n run self.old }
        ensures { (W : PlainWorkload) (m : Machine) (n : ℕ) (run : NodeRun) → IsAmid W m n run self.old
            → OnOk result (WentBy W m n run (Turn ∷ []) self.new) }
    {
        step_by_step();
        events_go_on();
        events_add_this();
        steps_say_what_they_tell();
        self.agent.turn()?;
        Ok(())
    }

    /// The agent takes what waits, and makes its turn.
    fn agent_takes(&mut self) -> Result<(), Memory>
        requires { (W : PlainWorkload) × (m : Machine) × (n : ℕ) × StandsStill W m n self.old }
        ensures { (W : PlainWorkload) (m : Machine) (n : ℕ) → StandsStill W m n self.old
            → OnOk result (NodeIsAt W (agents_take W m) n self.new) }
    {
        agents_take_so();
        machines_are_whole();
        step_by_step();
        self.take_all()?;
        self.take_from(Queue::Asks)?;
        self.turn()?;
        Ok(())
    }

    /// Gives the first of the agent's hand back to the pool. Answers whether there was one.
    fn give_next(&mut self) -> Result<bool, Memory>
        requires { (W : PlainWorkload) × (m : Machine) × (n : ℕ) × (start : NodeRun) × (given : ℕ) × IsGiving W m n start given self.old }
        ensures { (W : PlainWorkload) (m : Machine) (n : ℕ) (start : NodeRun) (given : ℕ) → IsGiving W m n start given self.old
            → IfOk result (GivesNextOf W m n start given self.new) }
    {
        agents_give_so();
        step_by_step();
        events_go_on();
        events_add_this();
        steps_say_what_they_tell();
        what_is_out_may_be_given();
        match self.agent.offer()? {
            None => Ok(false),
            Some(held) => {
                let given = self.pool.give(held);
                self.agent.gave(given);
                Ok(true)
            }
        }
    }

    /// Gives all of the agent's hand back to the pool.
    fn give_all(&mut self) -> Result<(), Memory>
        requires { (W : PlainWorkload) × (m : Machine) × (n : ℕ) × StandsStill W m n self.old }
        ensures { (W : PlainWorkload) (m : Machine) (n : ℕ) → StandsStill W m n self.old
            → OnOk result (NodeIsAt W (agents_give W m) n self.new) }
    {
        agents_give_so();
        'gives: while self.give_next()? {}
        Ok(())
    }

    /// Each client does its next operations, one client after another. These are the settings of the workload, and the
    /// operations of the node's clients.
    pub fn play_clients(&mut self, settings: &Settings, clients: &[List<Op>]) -> Result<(), Memory>
        requires { (W : PlainWorkload) × (m : Machine) × (n : ℕ) × StandsStill W m n self.old × AreOf W n settings.now clients.now }
        ensures { (W : PlainWorkload) (m : Machine) (n : ℕ) → StandsStill W m n self.old → AreOf W n settings.now clients.now
            → OnOk result (NodeIsAt W (node_goes W m n W.settings.clients) n self.new) }
    {
        machines_are_whole();
        for client in 0..clients.len() {
            let operations = clients[client].as_slice();
            self.client_goes(settings, client, operations)?;
        }
        Ok(())
    }

    /// A client does its next operations.
    fn client_goes(
        &mut self,
        settings: &Settings,
        client: usize,
        operations: &[Op],
    ) -> Result<(), Memory>
        requires { (W : PlainWorkload) × (m : Machine) × (n : ℕ) × StandsStill W m n self.old × IsOneOf W n client settings.now operations.now }
        ensures { (W : PlainWorkload) (m : Machine) (n : ℕ) → StandsStill W m n self.old → IsOneOf W n client settings.now operations.now
            → OnOk result (NodeIsAt W (client_goes W m (place_of W.settings.clients n client)) n self.new) }
    {
        clients_go_so();
        let rules = settings.autos.as_slice();
        play_client(
            &mut self.players,
            &mut self.pool,
            client,
            rules,
            operations,
            settings.stride,
        )?;
        Ok(())
    }

    /// The agent's pass: it takes what waits, makes its turn, and gives its hand back to the pool.
    pub fn pass(&mut self) -> Result<(), Memory>
        requires { (W : PlainWorkload) × (m : Machine) × (n : ℕ) × StandsStill W m n self.old }
        ensures { (W : PlainWorkload) (m : Machine) (n : ℕ) → StandsStill W m n self.old
            → OnOk result (NodeIsAt W (agents_give W (agents_take W m)) n self.new) }
    {
        self.agent_takes()?;
        self.give_all()?;
        Ok(())
    }
}

/// A client does its next operations.
fn play_client(
    players: &mut List<ReplayClient>,
    pool: &mut PlainPool,
    client: usize,
    rules: &[AutoRule],
    operations: &[Op],
    stride: u32,
) -> Result<(), Memory>
    requires client { client < length players.old.items }
    requires within { (player : PlainReplayClient) → slice_get players.old.items client ≡ Some player
        → IsWithin rules.now (map operation_of operations.now) pool.old player }
    requires stamps { pool.old.events + MAX_OPERATIONS < 2 ^ 64 }
    ensures goes { OnOk result (ChangesAt client players.old.items players.new.items
        (λ old new. Goes stride (map operation_of operations.now) old pool.old new pool.new)) }
    ensures pool { OnOk result (KeepsPool pool.old pool.new) }
{
    players.as_mut_slice()[client].play(pool, rules, operations, stride)
}

/// The next chunk of a client.
fn next_chunk(players: &mut List<ReplayClient>, client: u16) -> Option<Held<()>>
    requires { client < length players.old.items }
    ensures { ChangesAt client players.old.items players.new.items (λ old new. TakesChunk old (buffer_in result) new) }
{
    players.as_mut_slice()[client as usize].next_chunk()
}

/// The next crumb of a client.
fn next_crumb(players: &mut List<ReplayClient>, client: u16) -> Option<Crumb>
    requires { client < length players.old.items }
    ensures { ChangesAt client players.old.items players.new.items (λ old new. TakesCrumb old result new) }
{
    players.as_mut_slice()[client as usize].next_crumb()
}

/// The next trigger of a client.
fn next_trigger(players: &mut List<ReplayClient>, client: u16) -> Option<Trigger>
    requires { client < length players.old.items }
    ensures { ChangesAt client players.old.items players.new.items (λ old new. TakesTrigger old result new) }
{
    players.as_mut_slice()[client as usize].next_trigger()
}
