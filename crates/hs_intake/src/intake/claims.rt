//! The traces that groups claim at a node, until the groups are forgotten.

ghost use Rattle.std.specs.Prelude.{◌≡◌, length};
ghost use Rattle.hs_ring.specs.Parts.{Leased};
ghost use Rattle.hs_agent.specs.Runs.{AgentRun, state_of};
ghost use Rattle.hs_claimed.specs.Claims.{advanced};
ghost use Rattle.hs_intake.specs.Intakes.{Stands};
ghost use Rattle.hs_intake.specs.Taking.{ForgetsOldest, StatesIt, is_heard_by, is_idle_in};

use super::Intake;
use crate::took::Stated;
use hs_claimed::ClaimedTraces;
use hs_wire::Standing;

/// Whether all messages up to the last are acknowledged, where this is the least number of those that wait.
fn is_heard(last: Option<u64>, oldest: Option<u64>) -> bool
    ensures { result ≡ is_heard_by last oldest }
{
    match (last, oldest) {
        (Some(last), Some(oldest)) => last < oldest,
        _ => true,
    }
}

impl Intake {
    /// The traces that groups claim.
    pub fn claims(&self) -> &ClaimedTraces
        ensures { result.now ≡ self.now.claims }
    {
        &self.claims
    }

    /// How many chunks are in the hand.
    pub fn in_hand(&self) -> usize
        ensures { (run : AgentRun Leased) → Stands run self.now → result ≡ length (state_of run).hand }
    {
        self.agent.in_hand()
    }

    /// Posts a standing to the hub, if it is news of the claim that is looked at (`docs/RULES.md`, "What a node says of its
    /// claims"). `Known` comes where it says no more than was said last, or is of another claim; `Waits` where the mail has no
    /// place or no number for it, and then nothing changed.
    pub fn state(&mut self, standing: &Standing) -> Stated
        ensures { StatesIt self.old standing.now result self.new }
    {
        if !self.claims.is_news(standing) {
            return Stated::Known;
        }
        match self.mail.standing(*standing) {
            Ok(number) => {
                self.claims.said(standing, number);
                Stated::Said
            }
            Err(fault) => Stated::Waits(fault),
        }
    }

    /// Looks at the next claim, and at the first behind the last.
    pub fn look_on(&mut self)
        ensures { self.new ≡ record self.old { claims = advanced self.old.claims } }
    {
        self.claims.advance();
    }

    /// Whether nothing is under way for the group that claimed first: nothing waits to be said or is in the hand.
    fn is_idle(&self) -> bool
        ensures { (run : AgentRun Leased) → Stands run self.now → result ≡ is_idle_in run self.now }
    {
        self.unsaid.is_none() && self.agent.in_hand() == 0
    }

    /// Forgets the group that claimed first, if no chunk is pinned for it or in the hand, nothing waits to be said, and each message that
    /// speaks of it is acknowledged. Answers whether it did.
    pub fn forget_oldest(&mut self) -> bool
        ensures { (run : AgentRun Leased) → Stands run self.old → ForgetsOldest run self.old result self.new }
    {
        let Some(one) = self.claims.oldest() else {
            return false;
        };
        if !self.is_idle() || !is_heard(one.last, self.mail.oldest()) {
            return false;
        }
        if !self.agent.forget(one.group) {
            return false;
        }
        self.claims.forget_oldest();
        true
    }
}
