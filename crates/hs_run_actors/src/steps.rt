//! The gate that an actor passes.

use hs_base::Gate;

/// An actor's number, and its next step. The steps are counted over all rounds, modulo 2^32.
#[derive(Drop)]
pub(crate) struct Steps {
    actor: u32,
    next: u32,
}

impl Steps {
    /// The steps of an actor that has made none.
    pub(crate) fn of(actor: u32) -> Steps {
        Steps { actor, next: 0 }
    }

    /// Passes the gate before the next step.
    pub(crate) fn pass<G: Gate>(&mut self, gate: &G) {
        gate.pass(self.actor, self.next);
        self.next = self.next.wrapping_add(1);
    }
}
