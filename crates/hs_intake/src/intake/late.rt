//! Crumbs of traces that need not be open.

ghost use Rattle.std.specs.Prelude.{◌≡◌, ◌<◌, None};
ghost use Rattle.hs_ring.specs.Parts.{Leased};
ghost use Rattle.hs_agent.specs.Runs.{AgentRun};
ghost use Rattle.hs_intake.specs.Intakes.{Stands, late_line};
ghost use Rattle.hs_intake.specs.declared.took.Next.TheVariants.{Taken};
ghost use Rattle.hs_intake.specs.Taking.{TakesNext, TakesMany, TakesLine};

use super::{Intake, say};
use crate::receiving::receive_at;
use crate::took::{Back, Next, Stop, Took};
use hs_base::limits::MAX_TAKEN;

impl Intake {
    /// The agent takes the next late crumb of a client, if one has come and a word has a place. What it tells is said.
    fn take_late(&mut self, client: u16) -> Next
        requires low { client < self.old.clients }
        requires front { self.old.back ≡ None }
        ensures next { (run : AgentRun Leased) → Stands run self.old → TakesNext run late_line client self.old result self.new }
        ensures clients { self.new.clients ≡ self.old.clients }
        ensures taken { result ≡ Taken → self.new.back ≡ None }
    {
        if self.is_mute() {
            return Next::Stopped(Stop::Words);
        }
        let Some(crumb) = receive_at(&mut self.late, client) else {
            return Next::Stopped(Stop::Empty);
        };
        match self.agent.try_crumb(client, crumb) {
            Ok(told) => {
                self.unsaid = told;
                say(&mut self.mail, &mut self.claims, &mut self.unsaid);
                Next::Taken
            }
            Err(_) => {
                self.back = Some(Back::Crumb { client, crumb });
                Next::Stopped(Stop::Memory)
            }
        }
    }

    /// The agent takes the late crumbs of a client that have come, at most 64.
    fn take_lates(&mut self, client: u16) -> Took
        requires low { client < self.old.clients }
        requires front { self.old.back ≡ None }
        ensures takes { (run : AgentRun Leased) → Stands run self.old → TakesMany run late_line client self.old result self.new }
        ensures clients { self.new.clients ≡ self.old.clients }
    {
        for count in 0..MAX_TAKEN {
            if let Next::Stopped(stop) = self.take_late(client) {
                return Took { count, stop };
            }
        }
        Took {
            count: MAX_TAKEN,
            stop: Stop::Most,
        }
    }

    /// The agent takes the crumbs of a client that it sent of traces that need not be open and that have come, at most 64, while words have
    /// a place. There is no more of a client that is not there, and while something waits at the front nothing is taken.
    pub fn late_crumbs_of(&mut self, client: u16) -> Took
        ensures { (run : AgentRun Leased) → Stands run self.old → TakesLine run late_line client self.old result self.new }
    {
        if client >= self.clients {
            return Took::none(Stop::Empty);
        }
        if self.has_front() {
            return Took::none(Stop::Memory);
        }
        self.take_lates(client)
    }
}
