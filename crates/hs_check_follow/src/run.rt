//! Following a journal.

ghost use Rattle.std.specs.Prelude.{◌≡◌, ◌<◌, length, IfOk, OnOk};
ghost use Rattle.hs_records.specs.Journals.{journal_of};
ghost use Rattle.hs_law_journal.specs.Following.{Run, is_done};
ghost use Rattle.hs_records.specs.Plain.{PlainWorkload};
ghost use Rattle.hs_records.specs.Views.{workload_of};
ghost use Rattle.hs_check_follow.specs.Whole.{AllAt, Knows, KnowsAt, StepsNode, StepsAny, FollowsAll};

use crate::coordinator::FollowedCoordinator;
use crate::node::FollowedNode;
use hs_base::{List, Memory};
use hs_law_journal::laws::{orders_agree, runs_are_of_the_journal, runs_fit};
use hs_records::{Journal, Workload};

/// All nodes and the coordinator, on the way through a journal.
#[derive(Drop)]
pub struct FollowedRun {
    pub(crate) nodes: List<FollowedNode>,
    pub(crate) hearing: FollowedCoordinator,
}

impl FollowedRun {
    /// Performs the next step of a node, where it is ready. Answers whether it was.
    fn step_node(
        &mut self,
        node: usize,
        workload: &Workload,
        journal: &Journal,
    ) -> Result<bool, Memory>
        requires node { node < length self.old.nodes.items }
        requires knows { KnowsAt (workload_of workload.now) (journal_of journal.now) self.old }
        ensures { IfOk result (StepsNode (workload_of workload.now) (journal_of journal.now) node self.old self.new) }
    {
        runs_fit();
        runs_are_of_the_journal();
        let log = journal.logs.as_slice()[node].as_slice();
        let asks = self.hearing.asks.as_slice()[node].as_slice();
        let done = self.nodes.as_mut_slice()[node].step(workload, log, asks)?;
        Ok(done)
    }

    /// Performs one step: the next of the lowest node where it is ready, else the coordinator's next. Answers whether one was ready.
    fn step_any(&mut self, workload: &Workload, journal: &Journal) -> Result<bool, Memory>
        requires { KnowsAt (workload_of workload.now) (journal_of journal.now) self.old }
        ensures { IfOk result (StepsAny (workload_of workload.now) (journal_of journal.now) self.old self.new) }
    {
        runs_fit();
        runs_are_of_the_journal();
        for node in 0..self.nodes.len() {
            if self.step_node(node, workload, journal)? {
                return Ok(true);
            }
        }
        let told = journal.told.as_slice();
        let heard = self.hearing.hear(self.nodes.as_slice(), told)?;
        Ok(heard)
    }

    /// Follows the journal as far as that is possible.
    pub(crate) fn follow(&mut self, workload: &Workload, journal: &Journal) -> Result<(), Memory>
        requires { KnowsAt (workload_of workload.now) (journal_of journal.now) self.old }
        ensures { OnOk result (FollowsAll (workload_of workload.now) (journal_of journal.now) self.old self.new) }
    {
        orders_agree();
        'steps: while self.step_any(workload, journal)? {}
        Ok(())
    }

    /// Whether the whole journal was followed.
    pub fn is_done(&self, journal: &Journal) -> bool
        requires { Knows (journal_of journal.now) self.now }
        ensures { (W : PlainWorkload) (run : Run) → AllAt W (journal_of journal.now) run self.now.nodes.items self.now.hearing → result ≡ is_done run }
    {
        runs_are_of_the_journal();
        for node in 0..self.nodes.len() {
            let log = journal.logs.as_slice()[node].as_slice();
            let tracked = &self.nodes.as_slice()[node];
            if tracked.next < log.len() {
                return false;
            }
        }
        self.hearing.next >= journal.told.len()
    }
}
