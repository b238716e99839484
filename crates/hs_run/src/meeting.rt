//! What is done between two rounds, on one thread: clients meet their agents, and what was told and asked is moved.

ghost use Rattle.std.specs.Prelude.{◌<◌, length, OnOk};
ghost use Rattle.hs_base.specs.declared.limits.TheConstants.{MAX_NODES};
ghost use Rattle.hs_records.specs.Plain.{PlainWorkload};
ghost use Rattle.hs_run.specs.RunStates.{RunState};
ghost use Rattle.hs_run.specs.Changing.{EachChanged};
ghost use Rattle.hs_run.specs.Moments.{IsHere, MovedTo};
ghost use Rattle.hs_run.specs.Movings.{HasMet, AllStand, HasExchanged};

use crate::node::ActingNode;
use crate::node_actors::NodeActors;
use hs_base::{List, Memory, NodeId};
use hs_run_actors::CoordinatorActor;

/// All clients meet their agents.
pub(crate) fn meet_all(nodes: &mut List<ActingNode>)
    requires { AllStand nodes.old.items }
    ensures { EachChanged HasMet nodes.old.items nodes.new.items }
{
    let count = nodes.len();
    for number in 0..count {
        nodes.as_mut_slice()[number].site.meet();
    }
}

/// The messages of all agents go to the coordinator, and its asks to the agents.
pub(crate) fn move_all(
    nodes: &mut List<ActingNode>,
    coordinator: &mut CoordinatorActor,
) -> Result<(), Memory>
    requires { (W : PlainWorkload) × (m : RunState) × IsHere W m nodes.old.items coordinator.old }
    ensures { (W : PlainWorkload) (m : RunState) → IsHere W m nodes.old.items coordinator.old → OnOk result (MovedTo W m nodes.new.items coordinator.new) }
{
    let count = nodes.len();
    for number in 0..count {
        nodes.as_mut_slice()[number]
            .site
            .exchange(coordinator, number)?;
    }
    coordinator.forget_asks();
    Ok(())
}

impl NodeActors {
    /// Hands the coordinator's asks for this node to the agent, and the agent's messages to the coordinator. The node has this number.
    fn exchange(&mut self, coordinator: &mut CoordinatorActor, number: usize) -> Result<(), Memory>
        requires nodes { number < MAX_NODES }
        requires told { number < length coordinator.old.told }
        ensures { OnOk result (HasExchanged number self.old coordinator.old self.new coordinator.new) }
    {
        let node = NodeId(number as u16);
        self.agent.ask(coordinator, node)?;
        self.agent.tell(coordinator, node)?;
        Ok(())
    }
}
