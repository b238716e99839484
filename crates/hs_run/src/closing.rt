//! Passes behind the rounds, until nothing waits and nothing is pinned.

ghost use Rattle.std.specs.Prelude.{◌≡◌, ℕ, ◌<◌, [], true, false, length, OnOk};
ghost use Rattle.hs_coord.specs.Messages.{Messages};
ghost use Rattle.hs_records.specs.Plain.{PlainWorkload};
ghost use Rattle.hs_run.specs.RunStates.{RunState};
ghost use Rattle.hs_run_actors.specs.Work.{NodeWork};
ghost use Rattle.hs_run.specs.Closings.{ClosingPaid, LedOn};
ghost use Rattle.hs_run.specs.Shutting.{AllSents, ClosingMayPass, ClosingCanPass, ClosingHasPassed, MayPassAll, ClosingStands, Passing, ClosedAgentsStand, Asked, IsAsking, AllBare, IsSomethingLeft, ClosedAt, ClosingAt, MayClose};

use crate::laws::{passes_are_few, passes_pay};
use crate::story_laws::{agents_are_between_passes, closing_goes_on};
use hs_base::{List, Memory, NodeId, OpenGate};
use hs_run_actors::{ClosedAgent, CoordinatorActor};

/// Passes of all agents and the coordinator, while anything waits or is pinned.
pub(crate) fn close_down(
    nodes: &mut List<ClosedAgent>,
    coordinator: &mut CoordinatorActor,
) -> Result<(), Memory>
    requires { ClosingPaid 0 nodes.old.items coordinator.old }
    ensures { (W : PlainWorkload) (rounds : ℕ) (m : RunState) (sents : AllSents) → ClosingAt W rounds m sents nodes.old.items coordinator.old
        → OnOk result (ClosedAt W rounds m sents nodes.new.items coordinator.new) }
{
    passes_are_few();
    let mut made = 0u32;
    'passes: while !is_bare(nodes, coordinator) {
        pass_all(nodes, coordinator)?;
        made += 1;
    }
    Ok(())
}

/// Whether nothing waits anywhere, and nothing is pinned.
fn is_bare(nodes: &List<ClosedAgent>, coordinator: &CoordinatorActor) -> bool
    ensures { (W : PlainWorkload) (sents : AllSents) (works : ℕ → NodeWork) → ClosedAgentsStand W sents works nodes.now.items
        → (result ≡ true → AllBare W works nodes.now.items coordinator.now) × (result ≡ false → IsSomethingLeft W works nodes.now.items coordinator.now) }
{
    for number in 0..nodes.len() {
        if !nodes.as_slice()[number].is_bare() {
            return false;
        }
    }
    coordinator.is_bare()
}

/// A pass of each agent in turn and then of the coordinator, whose asks go to the agents.
fn pass_all(nodes: &mut List<ClosedAgent>, coordinator: &mut CoordinatorActor) -> Result<(), Memory>
    requires { MayClose nodes.old.items coordinator.old }
    ensures { (W : PlainWorkload) (rounds : ℕ) (m : RunState) (sents : AllSents) (at : ClosingAt W rounds m sents nodes.old.items coordinator.old)
        → OnOk result (LedOn W rounds m sents nodes.old.items coordinator.old at nodes.new.items coordinator.new) }
{
    closing_goes_on();
    agents_are_between_passes();
    passes_pay();
    agents_pass(nodes, coordinator)?;
    coordinator.pass(&OpenGate)?;
    ask_all(nodes, coordinator)
}

/// Each agent makes a pass, and its messages go to the coordinator.
fn agents_pass(
    nodes: &mut List<ClosedAgent>,
    coordinator: &mut CoordinatorActor,
) -> Result<(), Memory>
    requires { MayPassAll nodes.old.items coordinator.old }
    ensures { (W : PlainWorkload) (sents : AllSents) (heard : Messages) (works : ℕ → NodeWork) → ClosingStands W sents heard works nodes.old.items coordinator.old
        → OnOk result (Passing W sents heard works (length nodes.old.items) nodes.old.items nodes.new.items coordinator.new) }
{
    let count = nodes.len();
    for number in 0..count {
        pass(&mut nodes.as_mut_slice()[number], coordinator, number)?;
    }
    Ok(())
}

/// The agent of the node with this number makes a pass, and its messages go to the coordinator.
fn pass(
    node: &mut ClosedAgent,
    coordinator: &mut CoordinatorActor,
    number: usize,
) -> Result<(), Memory>
    requires { ClosingMayPass number node.old coordinator.old }
    ensures { (W : PlainWorkload) (sents : AllSents) (heard : Messages) (works : ℕ → NodeWork) → ClosingCanPass W number sents heard works node.old coordinator.old
        → OnOk result (ClosingHasPassed W number sents heard works node.old coordinator.old node.new coordinator.new) }
{
    node.pass()?;
    node.tell(coordinator, NodeId(number as u16))?;
    Ok(())
}

/// The coordinator's asks go to the agents.
fn ask_all(nodes: &mut List<ClosedAgent>, coordinator: &mut CoordinatorActor) -> Result<(), Memory>
    requires { IsAsking nodes.old.items coordinator.old }
    ensures { (W : PlainWorkload) (sents : AllSents) (heard : Messages) (works : ℕ → NodeWork) → Asked W sents heard works nodes.old.items nodes.old.items coordinator.old
        → OnOk result (Asked W sents heard works nodes.old.items nodes.new.items coordinator.new × (coordinator.new.asks ≡ [])) }
{
    let count = nodes.len();
    for number in 0..count {
        nodes.as_mut_slice()[number].ask(coordinator, NodeId(number as u16))?;
    }
    coordinator.forget_asks();
    Ok(())
}
