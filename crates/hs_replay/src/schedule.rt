//! The rounds of a replay, and its closing.

ghost use Rattle.std.specs.Prelude.{OnOk};
ghost use Rattle.hs_law_run.specs.Ending.{behind_rounds};
ghost use Rattle.hs_law_run.specs.Lockstep.{machine_start};
ghost use Rattle.hs_records.specs.Views.{workload_of};
ghost use Rattle.hs_replay.specs.All.{AllAt, AllClosed};

use crate::all::{has_left, is_bare, pass, play_all};
use crate::node::ReplayNode;
use hs_base::{List, Memory};
use hs_coord::Coordinator;
use hs_law_run::lockstep_laws::{clients_go_so, closing_ends, machines_are_whole, rounds_end};
use hs_records::Workload;

/// All rounds, as long as operations are left: the clients' turns, the agents' passes, and the coordinator's.
pub fn rounds(
    coordinator: &mut Coordinator,
    nodes: &mut List<ReplayNode>,
    workload: &Workload,
) -> Result<(), Memory>
    requires { AllAt (workload_of workload.now) (machine_start (workload_of workload.now)) nodes.old.items coordinator.old }
    ensures { OnOk result (AllAt (workload_of workload.now) (behind_rounds (workload_of workload.now)) nodes.new.items coordinator.new) }
{
    rounds_end();
    clients_go_so();
    machines_are_whole();
    let mut made = 0u32;
    'rounds: while has_left(nodes, workload) {
        play_all(nodes, workload)?;
        pass(coordinator, nodes)?;
        made += 1;
    }
    Ok(())
}

/// The closing: passes, as long as anything waits.
pub fn close(
    coordinator: &mut Coordinator,
    nodes: &mut List<ReplayNode>,
    workload: &Workload,
) -> Result<(), Memory>
    requires { AllAt (workload_of workload.now) (behind_rounds (workload_of workload.now)) nodes.old.items coordinator.old }
    ensures { OnOk result (AllClosed (workload_of workload.now) nodes.new.items coordinator.new) }
{
    rounds_end();
    closing_ends();
    let mut made = 0u32;
    'passes: while !is_bare(nodes) {
        pass(coordinator, nodes)?;
        made += 1;
    }
    Ok(())
}
