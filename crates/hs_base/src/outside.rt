//! What a run stands on that is not its own: a source, a sink and a gate. They are handed in, so that a test can let any
//! call fail, cut the bytes anywhere and choose who goes first.

ghost use Rattle.std.specs.Prelude.{◌≡◌, ℕ, ◌<◌, ◌≤◌, ◌↔◌, List, [], Option, length, take, IfOk, OnOk, OnErr, IfSome};
ghost use Rattle.hs_base.specs.Outside.{Rose, Loses, Gains};

use crate::ids::Failed;
use std::marker::Sync;

/// Where input comes from.
pub trait Source {
    /// What is left to read, of a source that claims to know.
    ghost left: { Self → Option (List ℕ) };

    /// A count of failures. A failed call raises it, or finds it at 2^64 - 1 or above; no other call moves
    /// it.
    ghost faults: { Self → ℕ };

    /// Reads into the front of `piece` and answers how far it got. 0 says that there is no more, so
    /// a piece of no bytes may not be passed.
    fn read(&mut self, piece: &mut [u8]) -> Result<usize, Failed>
        requires { 0 < length piece.old }
        ensures fits { IfOk result (λ k. k ≤ length piece.new) }
        ensures taken { IfOk result (λ k. Loses (left self.old) (left self.new) (take k piece.new)) }
        ensures end { IfOk result (λ k. IfSome (left self.old) (λ bytes. (k ≡ 0) ↔ (bytes ≡ []))) }
        ensures kept { OnErr result (left self.new ≡ left self.old) }
        ensures failed { OnErr result (Rose (faults self.old) (faults self.new)) }
        ensures still { OnOk result (faults self.new ≡ faults self.old) }
        ensures counted { faults self.old ≤ faults self.new };
}

/// Where output goes.
pub trait Sink {
    /// All that was written, of a sink that claims to know.
    ghost written: { Self → Option (List ℕ) };

    /// A count of failures. A failed call raises it, or finds it at 2^64 - 1 or above; no other call moves
    /// it.
    ghost faults: { Self → ℕ };

    /// Takes a front of `piece` and answers its length. It is never 0, so that a loop over the rest
    /// ends; where nothing can be taken the call fails.
    fn write(&mut self, piece: &[u8]) -> Result<usize, Failed>
        requires { 0 < length piece.now }
        ensures some { IfOk result (λ k. 0 < k) }
        ensures fits { IfOk result (λ k. k ≤ length piece.now) }
        ensures gained { IfOk result (λ k. Gains (written self.old) (written self.new) (take k piece.now)) }
        ensures kept { OnErr result (written self.new ≡ written self.old) }
        ensures failed { OnErr result (Rose (faults self.old) (faults self.new)) }
        ensures still { OnOk result (faults self.new ≡ faults self.old) }
        ensures counted { faults self.old ≤ faults self.new };
}

/// Passed by every actor of a run before it takes a step, by its number and the step's. A gate may wait
/// for another actor; what a run comes to never rests on it.
pub trait Gate: Sync {
    fn pass(&self, actor: u32, step: u32);
}

/// A gate that is always open.
#[derive(Clone, Copy)]
pub struct OpenGate;

impl Gate for OpenGate {
    fn pass(&self, _actor: u32, _step: u32) {}
}
