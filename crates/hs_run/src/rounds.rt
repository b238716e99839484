//! The rounds: all act at once, then all meet, and what was told is moved.

ghost use Rattle.std.specs.Thread.{IsSync};
ghost use Rattle.std.specs.Prelude.{◌≡◌, ◌<◌, true, false, length, slice_get, OnOk};
ghost use Rattle.hs_run.specs.RunStates.{RunState};
ghost use Rattle.hs_records.specs.Views.{workload_of};
ghost use Rattle.hs_run.specs.Nodes.{MayActAt, HasActedAt, AllMayAct, AllHaveActed, NoneFailed, SomeFailed, MayHear, HasHeard, IsWhole, AreWhole, TellsNodeLeft, TellsLeft};
ghost use Rattle.hs_run.specs.Moments.{IsHere, AreFew, CanAct, ActedTo, CanBegin, RoundsOver};

use crate::meeting::{meet_all, move_all};
use crate::node::ActingNode;
use crate::node_actors::NodeActors;
use crate::story_laws::{no_rounds_come, rounds_go_on};
use hs_base::{Gate, List, Memory};
use hs_records::Workload;
use hs_run_actors::{CoordinatorActor, callers_have_sent};
use std::thread;
use std::thread::{Threads, join_mut};

/// All rounds, as long as a client has operations left.
pub(crate) fn make_rounds<R: Threads + Sync, G: Gate>(
    rt: &R,
    gate: &G,
    workload: &Workload,
    nodes: &mut List<ActingNode>,
    coordinator: &mut CoordinatorActor,
) -> Result<(), Memory>
    requires { CanBegin (workload_of workload.now) nodes.old.items coordinator.old }
    ensures { OnOk result (RoundsOver (workload_of workload.now) nodes.new.items coordinator.new) }
{
    no_rounds_come();
    rounds_go_on();
    callers_have_sent();
    let mut made = 0u32;
    'rounds: while has_left(nodes, workload) {
        act(rt, gate, workload, nodes, coordinator)?;
        meet_all(nodes);
        move_all(nodes, coordinator)?;
        made += 1;
    }
    Ok(())
}

/// All act at once: each client, each agent and the coordinator.
pub(crate) fn act<R: Threads + Sync, G: Gate>(
    rt: &R,
    gate: &G,
    workload: &Workload,
    nodes: &mut List<ActingNode>,
    coordinator: &mut CoordinatorActor,
) -> Result<(), Memory>
    requires { CanAct (workload_of workload.now) nodes.old.items coordinator.old }
    ensures { (m : RunState) → IsHere (workload_of workload.now) m nodes.old.items coordinator.old → AreFew (workload_of workload.now) m
        → OnOk result (ActedTo (workload_of workload.now) m nodes.new.items coordinator.new) }
{
    act_and_hear(rt, gate, workload, coordinator, nodes.as_mut_slice())?;
    if has_failed(nodes) {
        return Err(Memory);
    }
    Ok(())
}

/// The coordinator makes a pass.
fn hear<G: Gate>(coordinator: &mut CoordinatorActor, gate: &G) -> Result<(), Memory>
    requires { MayHear coordinator.old }
    ensures { OnOk result (HasHeard coordinator.old coordinator.new) }
{
    coordinator.pass(gate)
}

/// The coordinator makes a pass while the nodes act. `Memory` is the coordinator's.
fn act_and_hear<R: Threads + Sync, G: Gate>(
    rt: &R,
    gate: &G,
    workload: &Workload,
    coordinator: &mut CoordinatorActor,
    nodes: &mut [ActingNode],
) -> Result<(), Memory>
    requires hear { MayHear coordinator.old }
    requires act { AllMayAct workload.now nodes.old }
    ensures heard { OnOk result (HasHeard coordinator.old coordinator.new) }
    ensures acted { AllHaveActed workload.now nodes.old nodes.new }
{
    let (heard, _) = join_mut(
        rt,
        &mut || -> Result<(), Memory>
            requires { MayHear coordinator.now }
            ensures { OnOk result (HasHeard coordinator.entry.now coordinator.exit.now) }
        { hear(coordinator, gate) },
        &mut ||
            requires { IsSync R.row × AllMayAct workload.now nodes.now }
            ensures { AllHaveActed workload.entry.now nodes.entry.now nodes.exit.now }
        { act_all(rt, gate, workload, nodes) },
    );
    heard
}

/// Each of these nodes acts, each in its own thread if one can be started.
fn act_all<R: Threads + Sync, G: Gate>(
    rt: &R,
    gate: &G,
    workload: &Workload,
    nodes: &mut [ActingNode],
)
    requires { AllMayAct workload.now nodes.old }
    ensures { AllHaveActed workload.now nodes.old nodes.new }
{
    let threads = nodes.len().max(1);
    thread::for_each_mut(
        rt,
        nodes,
        threads,
        &|number: usize, node: &mut ActingNode|
            requires { MayActAt workload.now number node.now }
            ensures { HasActedAt workload.entry.now number node.entry.now node.exit.now }
        { node.act(rt, gate, workload, number) },
    );
}

/// Whether memory was wanting at a node.
fn has_failed(nodes: &List<ActingNode>) -> bool
    ensures none { result ≡ false → NoneFailed nodes.now.items }
    ensures some { result ≡ true → SomeFailed nodes.now.items }
{
    for number in 0..nodes.len() {
        if has_failed_at(nodes, number) {
            return true;
        }
    }
    false
}

/// Whether memory was wanting at the node of this number.
fn has_failed_at(nodes: &List<ActingNode>, number: usize) -> bool
    requires { number < length nodes.now.items }
    ensures { (node : _) → slice_get nodes.now.items number ≡ Some node → node.failed ≡ result }
{
    nodes.as_slice()[number].failed
}

/// Whether a client has operations left.
pub(crate) fn has_left(nodes: &List<ActingNode>, workload: &Workload) -> bool
    requires { AreWhole (workload_of workload.now) nodes.now.items }
    ensures { TellsLeft (workload_of workload.now) nodes.now.items result }
{
    for number in 0..nodes.len() {
        if has_left_at(&nodes.as_slice()[number].site, workload, number) {
            return true;
        }
    }
    false
}

/// Whether a client of the node with this number has operations left.
fn has_left_at(site: &NodeActors, workload: &Workload, number: usize) -> bool
    requires { IsWhole (workload_of workload.now) number site.now }
    ensures { TellsNodeLeft (workload_of workload.now) number site.now result }
{
    let each = workload.settings.clients as usize;
    let first = number * each;
    let clients = &workload.clients.as_slice()[first..first + each];
    site.has_left(clients)
}
