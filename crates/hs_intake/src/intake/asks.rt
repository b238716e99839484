//! The asks that an intake takes.

ghost use Rattle.std.specs.Prelude.{◌≡◌};
ghost use Rattle.hs_ring.specs.Parts.{Leased};
ghost use Rattle.hs_agent.specs.Runs.{AgentRun};
ghost use Rattle.hs_inbox.specs.Delivering.{Delivers};
ghost use Rattle.hs_intake.specs.Intakes.{Stands};
ghost use Rattle.hs_intake.specs.Taking.{TakesAsk, TakesAsks};

use super::{Intake, enter, say};
use crate::took::{Next, Stop, Took};
use hs_base::limits::MAX_TAKEN;
use hs_inbox::AskDelivered;

impl Intake {
    /// Delivers a message. It waits behind all others if it asks this node for a declared trigger id, and a place is free.
    pub fn deliver(&mut self, bytes: &[u8]) -> AskDelivered
        ensures delivers { Delivers self.old.inbox bytes.now result self.new.inbox }
        ensures only { self.new ≡ record self.old { inbox = self.new.inbox } }
    {
        self.inbox.deliver(bytes)
    }

    /// The agent takes the ask that waits for longest, if one waits, a word has a place, and so has each
    /// trace that it may claim. What it claims is claimed, and what the agent tells is said.
    fn take_ask(&mut self) -> Next
        ensures { (run : AgentRun Leased) → Stands run self.old → TakesAsk run self.old result self.new }
    {
        if self.is_mute() {
            return Next::Stopped(Stop::Words);
        }
        let is_short = self.is_short();
        let Some(first) = self.inbox.first() else {
            return Next::Stopped(Stop::Empty);
        };
        if is_short {
            return Next::Stopped(Stop::Claims);
        }
        match self.agent.try_ask(first) {
            Ok(told) => {
                self.inbox.take_first();
                self.unsaid = Some(told);
                enter(&mut self.claims, &self.unsaid);
                say(&mut self.mail, &mut self.claims, &mut self.unsaid);
                Next::Taken
            }
            Err(_) => Next::Stopped(Stop::Memory),
        }
    }

    /// The agent takes the asks that wait, the oldest first, at most 64, while words and claims have a place. One for which
    /// memory is wanting waits on.
    pub fn take_asks(&mut self) -> Took
        ensures { (run : AgentRun Leased) → Stands run self.old → TakesAsks run self.old result self.new }
    {
        for count in 0..MAX_TAKEN {
            if let Next::Stopped(stop) = self.take_ask() {
                return Took { count, stop };
            }
        }
        Took {
            count: MAX_TAKEN,
            stop: Stop::Most,
        }
    }
}
