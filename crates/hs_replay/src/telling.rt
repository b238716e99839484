//! What goes between a node and the coordinator.

ghost use Rattle.std.specs.Prelude.{◌≡◌, OnOk};
ghost use Rattle.hs_replay.specs.Hearing.{TellsNext, with_ask};

use crate::node::ReplayNode;
use hs_base::{Ask, Memory, Told};

impl ReplayNode {
    /// Takes out the next message to the coordinator, where one waits.
    pub fn next_told(&mut self) -> Option<Told>
        ensures { TellsNext self.old result self.new }
    {
        self.said.pop_front()
    }

    /// Sends an ask to the agent. It waits behind those that were sent.
    pub fn ask(&mut self, ask: Ask) -> Result<(), Memory>
        ensures { OnOk result (self.new ≡ with_ask ask self.old) }
    {
        self.asks.push_back(ask)?;
        Ok(())
    }
}
