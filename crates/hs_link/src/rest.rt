//! What is left of a link whose ends were closed.
ghost use Rattle.std.specs.Prelude.{◌≡◌, [], ◌∷◌, ◌++◌, length, IfSome, IfNone};
ghost use Rattle.hs_link.specs.Contents.{sent, AreEnds};

use crate::board::Fact;
use crate::receiver::Receiver;
use crate::sender::Sender;
use std::marker::Model;

/// The items of a closed link that were sent and not received. Contracts see them in order, with the link's key.
#[derive(Drop)]
pub struct Rest<T, F: Fact<T>> {
    sender: Sender<T, F>,
    receiver: Receiver<T, F>,
}

impl<T, F: Fact<T>> Model for Rest<T, F> {
    ghost use Rattle.std.specs.Prelude.{◌≡◌, ◌++◌, length, drop};
    ghost use Rattle.hs_link.specs.Contents.{Remaining, IsBeginning};

    ghost Value = { Remaining T F };

    ghost view = { λ s. record { key = s.sender.key; items = drop (length s.receiver.received) s.sender.put ++ s.sender.outbox } };

    ghost invariant = { λ s. (s.receiver.key ≡ s.sender.key) × (s.receiver.told ≡ s.sender.put) × IsBeginning s.receiver.received s.sender.put };
}

/// Closes a link. What was received and then the rest are, in order, what was sent: the rest is what the ring holds and
/// then what waits in the outbox. It takes no memory. Both are ends of one link, and so have one key.
pub fn close_both<T, F: Fact<T>>(
    mut sender: Sender<T, F>,
    mut receiver: Receiver<T, F>,
) -> Rest<T, F>
    requires { AreEnds sender receiver }
    ensures items { receiver.received ++ result.items ≡ sent sender }
    ensures key { result.key ≡ sender.key }
    ensures keys { receiver.key ≡ sender.key }
{
    sender.tell(&mut receiver);
    Rest { sender, receiver }
}

impl<T, F: Fact<T>> Rest<T, F> {
    /// How many items `next` still has to give: what was sent, less what the receiver and `next` handed out.
    pub fn left(&self) -> u64
        ensures { result ≡ length self.now.items }
    {
        self.sender.put_count() - self.receiver.count() + u64::from(self.sender.waiting())
    }

    /// Gives the next item, of which the link's condition is true: what the ring holds, and then what waited in the
    /// outbox. `None` comes exactly where all was given.
    pub fn next(&mut self) -> Option<T>
        ensures key { self.new.key ≡ self.old.key }
        ensures some { IfSome result (λ item. self.old.items ≡ item ∷ self.new.items) }
        ensures fact { IfSome result (F.holds self.old.key) }
        ensures none { IfNone result ((self.old.items ≡ []) × (self.new.items ≡ [])) }
    {
        let in_ring = self.sender.put_count() - self.receiver.count();
        if in_ring == 0 {
            return self.sender.withdraw();
        }
        self.receiver.receive()
    }
}
