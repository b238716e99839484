//! The coordinator's pass.

ghost use Rattle.std.specs.Prelude.{◌≡◌, ℕ, ◌<◌, ◌≤◌, length, IfOk, OnOk};
ghost use Rattle.hs_base.specs.declared.limits.TheConstants.{MAX_NODES};
ghost use Rattle.hs_coord.specs.Following.{Messages};
ghost use Rattle.hs_records.specs.Plain.{PlainWorkload};
ghost use Rattle.hs_law_run.specs.Lockstep.{Machine, coordinator_hears};
ghost use Rattle.hs_replay.specs.All.{AllHeard, AllAt};
ghost use Rattle.hs_base.specs.Changing.{ChangesAt};
ghost use Rattle.hs_replay.specs.Hearing.{TellsNext, with_ask, asked_by, AreAsked, HearsNext, HearsNode};

use crate::node::ReplayNode;
use hs_base::limits::MAX_TAKEN;
use hs_base::{Ask, List, Memory, NodeId, Told};
use hs_coord::{Asks, Coordinator};
use hs_law_journal::laws::step_by_step;
use hs_law_run::lockstep_laws::{
    coordinator_hears_so, machines_are_whole, machines_lead_on, machines_tell_within,
};

/// The coordinator's pass: of each node in turn it hears what waits, at most 64 messages, and what it asks goes to the nodes.
pub fn coordinate(coordinator: &mut Coordinator, nodes: &mut List<ReplayNode>) -> Result<(), Memory>
    requires { (W : PlainWorkload) × (m : Machine) × AllAt W m nodes.old.items coordinator.old }
    ensures { (W : PlainWorkload) (m : Machine) → AllAt W m nodes.old.items coordinator.old
        → OnOk result (AllAt W (coordinator_hears W m) nodes.new.items coordinator.new) }
{
    machines_are_whole();
    coordinator_hears_so();
    step_by_step();
    machines_lead_on();
    let count = nodes.len();
    for node in 0..count {
        hear_node(coordinator, nodes, node)?;
    }
    Ok(())
}

/// Hears what waits of a node, at most 64 messages.
fn hear_node(
    coordinator: &mut Coordinator,
    nodes: &mut List<ReplayNode>,
    node: usize,
) -> Result<(), Memory>
    requires node { node < length nodes.old.items }
    requires all { (W : PlainWorkload) × (m : Machine) × (heard : Messages) × AllHeard W m heard nodes.old.items coordinator.old }
    ensures { (W : PlainWorkload) (m : Machine) (heard : Messages) → AllHeard W m heard nodes.old.items coordinator.old
        → OnOk result (HearsNode W m heard node nodes.new.items coordinator.new) }
{
    step_by_step();
    for count in 0..MAX_TAKEN {
        if !hear(coordinator, nodes, node)? {
            return Ok(());
        }
    }
    Ok(())
}

/// Hears the next message of a node. Answers whether there was one.
fn hear(
    coordinator: &mut Coordinator,
    nodes: &mut List<ReplayNode>,
    node: usize,
) -> Result<bool, Memory>
    requires node { node < length nodes.old.items }
    requires all { (W : PlainWorkload) × (m : Machine) × (heard : Messages) × AllHeard W m heard nodes.old.items coordinator.old }
    ensures { (W : PlainWorkload) (m : Machine) (heard : Messages) → AllHeard W m heard nodes.old.items coordinator.old
        → IfOk result (HearsNext W m heard node nodes.new.items coordinator.new) }
{
    step_by_step();
    machines_tell_within();
    let Some(told) = next_told(nodes, node) else {
        return Ok(false);
    };
    let asks = coordinator.step(NodeId(node as u16), told)?;
    ask_all(nodes, &asks)?;
    Ok(true)
}

/// Takes out the next message of a node.
fn next_told(nodes: &mut List<ReplayNode>, node: usize) -> Option<Told>
    requires { node < length nodes.old.items }
    ensures { ChangesAt node nodes.old.items nodes.new.items (λ old new. TellsNext old result new) }
{
    nodes.as_mut_slice()[node].next_told()
}

/// Sends an ask to all nodes to which it goes.
fn ask_all(nodes: &mut List<ReplayNode>, asks: &Asks) -> Result<(), Memory>
    requires { length nodes.old.items ≤ MAX_NODES }
    ensures { OnOk result (AreAsked asks.now (length nodes.old.items) nodes.old.items nodes.new.items) }
{
    let count = nodes.len();
    for node in 0..count {
        ask_if(nodes, node, asks)?;
    }
    Ok(())
}

/// Sends an ask to a node, where it goes there.
fn ask_if(nodes: &mut List<ReplayNode>, node: usize, asks: &Asks) -> Result<(), Memory>
    requires node { node < length nodes.old.items }
    requires few { node < MAX_NODES }
    ensures { OnOk result (ChangesAt node nodes.old.items nodes.new.items (λ old new. new ≡ asked_by asks.now node old)) }
{
    if asks.to.contains(NodeId(node as u16)) {
        ask(nodes, node, asks.ask)
    } else {
        Ok(())
    }
}

/// Sends an ask to a node.
fn ask(nodes: &mut List<ReplayNode>, node: usize, ask: Ask) -> Result<(), Memory>
    requires { node < length nodes.old.items }
    ensures { OnOk result (ChangesAt node nodes.old.items nodes.new.items (λ old new. new ≡ with_ask ask old)) }
{
    nodes.as_mut_slice()[node].ask(ask)
}
