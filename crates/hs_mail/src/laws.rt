//! What holds over the life of a mail. The law is the contract of a function that does nothing.

ghost use Rattle.std.specs.Prelude.{◌≡◌, ℕ, List, Contains, ◌⊎◌};
ghost use Rattle.hs_base.specs.declared.ids.NodeId.{NodeId};
ghost use Rattle.hs_outbox.specs.Queue.{Pending};
ghost use Rattle.hs_mail.specs.declared.mail.Room.{Room};
ghost use Rattle.hs_mail.specs.Letters.{Letters, MailDeed, Acknowledges, after, no_letters};
ghost use Rattle.hs_mail.specs.Lives.{life, waiting, IsInOrder};

/// Whatever calls a mail has had, in any order: what was said was acknowledged or waits, each of it once, and goes out in the order in
/// which it was said.
pub fn messages_go_out_in_order()
    ensures in_order { (node : NodeId) (epoch : ℕ) (pages words : Room) (deeds : List MailDeed)
        → IsInOrder node epoch pages words deeds (life (no_letters node epoch pages words) deeds) }

    // Nothing leaves but by its acknowledgement.
    ensures stays { (m : Letters) (deed : MailDeed) (message : Pending) → Contains (waiting m) message
        → (deed ≡ Acknowledges message.number) ⊎ Contains (waiting (after m deed)) message }
{}
