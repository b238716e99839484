//! What waits to be sent, by trigger id.

ghost use Rattle.std.specs.Prelude.{◌≡◌, ◌≢◌, ◌<◌, ℕ, List, length, drop, slice_get};

use hs_base::TriggerId;

/// Items that wait to be sent: a queue for each trigger id. Contracts see the costs of the items.
pub trait Queues {
    /// The costs in bytes of what waits for a trigger id, the next item first.
    ghost costs: { Self → ℕ → List ℕ };

    /// What one send does: the queues before it, the trigger id whose next item is sent, and the queues
    /// after it. An implementation says here what its callers want to know of the items themselves.
    ghost sends: { Self → ℕ → Self → Type 0 };

    /// The cost of a trigger id's next item, or `None` where nothing waits for it.
    fn next_cost(&self, trigger: TriggerId) -> Option<u32>
        ensures { result ≡ slice_get (costs self.now trigger.0) 0 };

    /// Sends a trigger id's next item. Something waits for the id.
    fn send_next(&mut self, trigger: TriggerId)
        requires { 0 < length (costs self.old trigger.0) }
        ensures taken { costs self.new trigger.0 ≡ drop 1 (costs self.old trigger.0) }
        ensures others { (id : ℕ) → id ≢ trigger.0 → costs self.new id ≡ costs self.old id }
        ensures step { sends self.old trigger.0 self.new };
}
