//! What a node says and is told, message by message.

ghost use Rattle.std.specs.Prelude.{◌≡◌, ◌||◌, option_map};
ghost use Rattle.hs_outbox.specs.Queue.{waits, has_number};
ghost use Rattle.hs_wire.specs.Messages.{SaysHello, plain_hello};
ghost use Rattle.hs_mail.specs.Letters.{first_offered, pending_at, after, HandsOut, Acknowledges, OffersAgain, Posts};
ghost use Rattle.hs_inbox.specs.Delivering.{Delivers};
ghost use Rattle.hs_node.specs.Nodes.{with_mail};

use crate::node::Node;
use hs_claimed::ClaimedTraces;
use hs_inbox::AskDelivered;
use hs_mail::Unposted;
use hs_wire::Hello;

impl Node {
    /// Delivers a message. It waits for the next pass, behind all others, if it asks this node for a declared trigger id, and a place is
    /// free.
    pub fn deliver(&mut self, bytes: &[u8]) -> AskDelivered
        ensures delivers { Delivers self.old.intake.inbox bytes.now result self.new.intake.inbox }
        ensures only { self.new ≡ record self.old { intake = record self.old.intake { inbox = self.new.intake.inbox } } }
    {
        self.intake.deliver(bytes)
    }

    /// Says who the node is. The answer is the number of the message.
    pub fn hello(&mut self, hello: &Hello<'_>) -> Result<u64, Unposted>
        ensures posts { Posts self.old.intake.mail (SaysHello (plain_hello hello.now)) result self.new.intake.mail }
        ensures only { self.new ≡ with_mail self.old self.new.intake.mail }
    {
        self.intake.hello(hello)
    }

    /// The message with the least number of those that are not handed out, with its number, if there is one.
    pub fn next(&self) -> Option<(u64, &[u8])>
        ensures { first_offered self.now.intake.mail ≡ option_map (λ found. pending_at found.0 found.1.now) result }
    {
        self.intake.next()
    }

    /// Notes that the message that `next` answers is handed out. Any other number changes nothing.
    pub fn sent(&mut self, number: u64) -> bool
        ensures sent { result ≡ has_number (first_offered self.old.intake.mail) number }
        ensures after { self.new ≡ with_mail self.old (after self.old.intake.mail (HandsOut number)) }
    {
        self.intake.sent(number)
    }

    /// Lets the message of this number go. A number of which no message waits changes nothing.
    pub fn acknowledged(&mut self, number: u64) -> bool
        ensures waited { result ≡ (waits self.old.intake.mail.pages number || waits self.old.intake.mail.words number) }
        ensures after { self.new ≡ with_mail self.old (after self.old.intake.mail (Acknowledges number)) }
    {
        self.intake.acknowledged(number)
    }

    /// Begins anew with the messages that are not acknowledged, as after a lost connection: `next` answers each of them once
    /// more, the oldest first.
    pub fn again(&mut self)
        ensures { self.new ≡ with_mail self.old (after self.old.intake.mail OffersAgain) }
    {
        self.intake.again();
    }

    /// How many triggers of clients admitted no group: the bucket of their id had no token, no number was left, or what they may claim had
    /// no place. The count stays at the greatest number of its type once it is there.
    pub fn limited(&self) -> u64
        ensures { result ≡ self.now.limited }
    {
        self.limited
    }

    /// The traces that groups claim at the node.
    pub fn claims(&self) -> &ClaimedTraces
        ensures { result.now ≡ self.now.intake.claims }
    {
        self.intake.claims()
    }
}
