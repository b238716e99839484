//! The coordinator: it hears the messages that were brought to it, and its asks wait to be fetched.

ghost use Rattle.std.specs.Prelude.{◌≡◌, ◌<◌, ◌≤◌, [], ◌++◌, length, map, replicate, OnOk, IfOk};
ghost use Rattle.std.specs.List.{AllByRecursion};
ghost use Rattle.hs_base.specs.declared.limits.TheConstants.{MAX_NODES};
ghost use Rattle.hs_coord.specs.Messages.{Messages};
ghost use Rattle.hs_records.specs.Plain.{PlainWorkload};
ghost use Rattle.hs_run_actors.specs.Agents.{IsTellable};
ghost use Rattle.hs_run_actors.specs.Coordinators.{Tellings, Askings, IsCoordinatorActor, Hears, HearsNode, Brings, AreFetched, IsTakenOut, ArePutBehind, coordinator_actor_of, ask_for, asks_for, all_empty};

use crate::inbox::Inbox;
use crate::steps::Steps;
use hs_base::limits::MAX_TAKEN;
use hs_base::{Ask, Gate, List, Memory, NodeId, Told};
use hs_coord::{Asks, Coordinator};
use std::alloc::Global;
use std::collections::VecDeque;
use std::marker::Model;

/// The coordinator with the messages of each node that it has not heard, and what it asked since the last meeting. Where a
/// call answers that memory is wanted, it is of no more use.
#[derive(Drop)]
pub struct CoordinatorActor {
    coordinator: Coordinator,
    told: List<Inbox>,
    asks: VecDeque<Asks>,
    steps: Steps,
}

impl Model for CoordinatorActor {
    ghost use Rattle.hs_run_actors.specs.Coordinators.{PlainCoordinatorActor, coordinator_actor_of};

    ghost Value = { PlainCoordinatorActor };

    ghost view = { λ s. coordinator_actor_of s.coordinator s.told.items s.asks.items };
}

impl CoordinatorActor {
    /// A coordinator of so many nodes that has heard nothing. It is the actor with this number.
    pub fn make(alloc: Global, actor: u32, nodes: u16) -> Result<CoordinatorActor, Memory>
        requires { nodes ≤ MAX_NODES }
        ensures { (W : PlainWorkload) → W.settings.nodes ≡ nodes → IfOk result (IsCoordinatorActor W [] (λ node. []) (λ node. [])) }
    {
        Ok(CoordinatorActor {
            coordinator: Coordinator::make(alloc, nodes)?,
            told: no_inboxes(alloc, nodes)?,
            asks: VecDeque::new(alloc),
            steps: Steps::of(actor),
        })
    }

    /// A pass: of each node in turn it hears what waits, at most 64 messages.
    pub fn pass<G: Gate>(&mut self, gate: &G) -> Result<(), Memory>
        requires { (W : PlainWorkload) × (heard : Messages) × (moved : Tellings) × (asked : Askings) × IsCoordinatorActor W heard moved asked self.old }
        ensures { (W : PlainWorkload) (heard : Messages) (moved : Tellings) (asked : Askings) → IsCoordinatorActor W heard moved asked self.old
            → OnOk result ((more : Messages) × Hears W heard more moved asked self.new) }
    {
        self.steps.pass(gate);
        hear_all(
            &mut self.coordinator,
            &mut self.told,
            &mut self.asks,
            &mut self.steps,
            gate,
        )?;
        Ok(())
    }

    /// These messages of a node are brought, and wait behind those that wait.
    pub(crate) fn hear(&mut self, node: NodeId, told: &mut VecDeque<Told>) -> Result<(), Memory>
        requires { node.0 < length self.old.told }
        ensures gone { OnOk result (told.new.items ≡ []) }
        ensures only { self.new ≡ record self.old { told = self.new.told } }
        ensures brings { (W : PlainWorkload) → AllByRecursion (IsTellable W) told.old.items → OnOk result (Brings W node.0 told.old.items self.old self.new) }
    {
        bring(&mut self.told, node.0 as usize, told)
    }

    /// The asks for a node go behind these.
    pub(crate) fn ask(&self, node: NodeId, asks: &mut VecDeque<Ask>) -> Result<(), Memory>
        requires { node.0 < MAX_NODES }
        ensures { OnOk result (asks.new.items ≡ asks.old.items ++ asks_for node.0 self.now.asks) }
    {
        add_asks(&self.asks, node, asks)
    }

    /// Lets all asks go, once each node has fetched its own.
    pub fn forget_asks(&mut self)
        ensures only { self.new ≡ record self.old { asks = [] } }
        ensures stands { (W : PlainWorkload) (heard : Messages) (moved : Tellings) (asked asked' : Askings) → IsCoordinatorActor W heard moved asked self.old → AreFetched W self.old.asks asked asked'
            → IsCoordinatorActor W heard moved asked' self.new }
    {
        self.asks.clear();
    }

    /// The nodes whose messages were heard, in their order.
    pub fn log(&self) -> &List<NodeId>
        ensures { (W : PlainWorkload) (heard : Messages) (moved : Tellings) (asked : Askings) → IsCoordinatorActor W heard moved asked self.now
            → result.now.items ≡ map (λ m. m.node) heard }
    {
        self.coordinator.log()
    }

    /// Whether no message waits.
    pub fn is_bare(&self) -> bool
        ensures { result ≡ all_empty self.now.told }
    {
        none_wait(&self.told)
    }
}

/// An empty inbox for each node.
fn no_inboxes(alloc: Global, nodes: u16) -> Result<List<Inbox>, Memory>
    ensures { IfOk result (λ inboxes. inboxes.items ≡ replicate nodes []) }
{
    let mut inboxes = List::with_room(alloc, nodes as usize)?;
    for _node in 0..nodes {
        inboxes.push(Inbox::none(alloc));
    }
    Ok(inboxes)
}

/// Takes the next message of a node out of its inbox.
fn next_told(told: &mut List<Inbox>, node: usize) -> Option<Told>
    requires { node < length told.old.items }
    ensures { IsTakenOut node told.old.items result told.new.items }
{
    told.as_mut_slice()[node].next()
}

/// Puts messages of a node behind those that wait.
fn bring(told: &mut List<Inbox>, node: usize, messages: &mut VecDeque<Told>) -> Result<(), Memory>
    requires { node < length told.old.items }
    ensures put { OnOk result (ArePutBehind node messages.old.items told.old.items told.new.items) }
    ensures gone { OnOk result (messages.new.items ≡ []) }
{
    told.as_mut_slice()[node].bring(messages)
}

/// Puts an ask behind others, if it is for the node.
fn add_ask(asks: &Asks, node: NodeId, others: &mut VecDeque<Ask>) -> Result<(), Memory>
    requires { node.0 < MAX_NODES }
    ensures { OnOk result (others.new.items ≡ others.old.items ++ ask_for node.0 asks.now) }
{
    if asks.to.contains(node) {
        others.push_back(asks.ask)?;
    }
    Ok(())
}

/// Puts the asks that are for the node behind others.
fn add_asks(asks: &VecDeque<Asks>, node: NodeId, others: &mut VecDeque<Ask>) -> Result<(), Memory>
    requires { node.0 < MAX_NODES }
    ensures { OnOk result (others.new.items ≡ others.old.items ++ asks_for node.0 asks.now.items) }
{
    for place in 0..asks.len() {
        add_ask(&asks[place], node, others)?;
    }
    Ok(())
}

/// Hears the messages of a node that wait, at most 64.
fn hear_node<G: Gate>(
    coordinator: &mut Coordinator,
    told: &mut List<Inbox>,
    asks: &mut VecDeque<Asks>,
    steps: &mut Steps,
    gate: &G,
    node: usize,
) -> Result<(), Memory>
    requires node { node < length told.old.items }
    requires stands { (W : PlainWorkload) × (heard : Messages) × (moved : Tellings) × (asked : Askings)
        × IsCoordinatorActor W heard moved asked (coordinator_actor_of coordinator.old told.old.items asks.old.items) }
    ensures { (W : PlainWorkload) (heard : Messages) (moved : Tellings) (asked : Askings)
        → IsCoordinatorActor W heard moved asked (coordinator_actor_of coordinator.old told.old.items asks.old.items)
        → OnOk result (HearsNode W heard moved asked node (coordinator_actor_of coordinator.new told.new.items asks.new.items)) }
{
    for count in 0..MAX_TAKEN {
        let Some(message) = next_told(told, node) else {
            return Ok(());
        };
        steps.pass(gate);
        let led = coordinator.step(NodeId(node as u16), message)?;
        asks.push_back(led)?;
    }
    Ok(())
}

/// Hears the messages that wait, of one node after another.
fn hear_all<G: Gate>(
    coordinator: &mut Coordinator,
    told: &mut List<Inbox>,
    asks: &mut VecDeque<Asks>,
    steps: &mut Steps,
    gate: &G,
) -> Result<(), Memory>
    requires { (W : PlainWorkload) × (heard : Messages) × (moved : Tellings) × (asked : Askings)
        × IsCoordinatorActor W heard moved asked (coordinator_actor_of coordinator.old told.old.items asks.old.items) }
    ensures { (W : PlainWorkload) (heard : Messages) (moved : Tellings) (asked : Askings)
        → IsCoordinatorActor W heard moved asked (coordinator_actor_of coordinator.old told.old.items asks.old.items)
        → OnOk result ((more : Messages) × Hears W heard more moved asked (coordinator_actor_of coordinator.new told.new.items asks.new.items)) }
{
    let count = told.len();
    for node in 0..count {
        hear_node(coordinator, told, asks, steps, gate, node)?;
    }
    Ok(())
}

/// Whether no message waits.
fn none_wait(told: &List<Inbox>) -> bool
    ensures { result ≡ all_empty told.now.items }
{
    for inbox in told.as_slice() {
        if !inbox.is_empty() {
            return false;
        }
    }
    true
}
