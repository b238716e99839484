//! An agent with how far it has followed its log.

ghost use Rattle.std.specs.Prelude.{IfOk, OnOk};
ghost use Rattle.hs_records.specs.Views.{workload_of};
ghost use Rattle.hs_check_follow.specs.Noting.{Notes};
ghost use Rattle.hs_check_follow.specs.Whole.{MayStep, StepsOn, KnowsFollowedAgent};

use crate::agent::FollowedAgent;
use crate::offers::is_last;
use hs_base::{Ask, List, Memory};
use hs_records::{Step, Workload};

/// An agent that follows its log, how many steps of the log it has performed, and how many buffers were in the hand and how many
/// messages it had said behind each pass.
#[derive(Drop)]
pub struct FollowedNode {
    pub(crate) follower: FollowedAgent,
    pub(crate) next: usize,
    pub(crate) hands: List<usize>,
    pub(crate) told: List<usize>,
}

impl FollowedNode {
    /// Performs the next step of the log, where there is one and it is ready. Answers whether it was. These are all asks that were sent
    /// to the agent.
    pub(crate) fn step(
        &mut self,
        workload: &Workload,
        log: &[Step],
        asks: &[Ask],
    ) -> Result<bool, Memory>
        requires { MayStep (workload_of workload.now) log.now asks.now self.old }
        ensures { IfOk result (StepsOn (workload_of workload.now) log.now asks.now self.old self.new) }
    {
        if self.next >= log.len() {
            return Ok(false);
        }
        if !self.follower.perform(workload, log[self.next], asks)? {
            return Ok(false);
        }
        self.note(is_last(log, self.next))?;
        self.next += 1;
        Ok(true)
    }

    /// Notes what is behind a pass, where one ended.
    fn note(&mut self, last: bool) -> Result<(), Memory>
        requires { KnowsFollowedAgent self.old.follower }
        ensures { OnOk result (Notes last self.old self.new) }
    {
        if !last {
            return Ok(());
        }
        self.hands.append(self.follower.agent.in_hand())?;
        self.told.append(self.follower.said.len())?;
        Ok(())
    }
}
