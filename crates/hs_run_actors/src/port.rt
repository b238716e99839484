//! The ports of agents as what an agent takes from.

ghost use Rattle.hs_run_actors.specs.Intakes.{intakes_of};

use crate::ends::IntakeEnds;
use hs_base::{Crumb, Trigger};
use hs_live::AgentPort;
use hs_ring::Lease;
use hs_words::{Given, Held};

impl IntakeEnds for AgentPort {
    ghost use Rattle.hs_run_actors.specs.Intakes.{intakes_of};

    ghost sees = { intakes_of };

    fn chunk(&mut self, client: u16) -> Option<Held<Lease>> {
        self.chunk(client)
    }

    fn crumb(&mut self, client: u16) -> Option<Crumb> {
        self.crumb(client)
    }

    fn trigger(&mut self, client: u16) -> Option<Trigger> {
        self.trigger(client)
    }

    fn give(&mut self, held: Held<Lease>) -> Given<Lease> {
        self.give(held)
    }
}
