//! What holds over the life of an outbox. The law is the contract of a function that does nothing.

ghost use Rattle.std.specs.Prelude.{◌≡◌, ℕ, List, Contains, ◌⊎◌};
ghost use Rattle.hs_outbox.specs.Queue.{Pending, Queue, OutboxAct, Acknowledges, empty, after};
ghost use Rattle.hs_outbox.specs.Lives.{life, IsAccounted};

/// Whatever calls an outbox has had, in any order: what was put was acknowledged or waits, each of it once and in order.
pub fn each_message_waits_until_it_is_acknowledged()
    ensures accounted { (places room : ℕ) (acts : List OutboxAct) → IsAccounted places room acts (life (empty places room) acts) }

    // Nothing leaves but by its acknowledgement.
    ensures stays { (q : Queue) (act : OutboxAct) (message : Pending) → Contains q.pending message
        → (act ≡ Acknowledges message.number) ⊎ Contains (after q act).pending message }
{}
