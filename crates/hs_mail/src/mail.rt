//! The mail of a node.

ghost use Rattle.std.specs.Prelude.{◌≡◌, ◌+◌, ◌<◌, ◌≤◌, ◌||◌, ◌⊎◌, true, false, length, Some, None, IfOk, OnOk, OnErr, option_map};
ghost use Rattle.std.specs.Bool.{OnFalse};
ghost use Rattle.hs_wire.specs.Messages.{SaysTold, SaysStanding, SaysHello, SaysReported, plain_hello, plain_reported, plain, said_of};
ghost use Rattle.hs_outbox.specs.Queue.{Queue, Pending, waits, has_number, Puts};
ghost use Rattle.hs_outbox.specs.Queue as queue;
ghost use Rattle.hs_mail.specs.Letters.{Says, HandsOut, Acknowledges, OffersAgain, after, no_letters, first_offered, earlier, oldest_in, lower, PutBy, Posts, is_page, message_of, pending_at};

use hs_base::{Memory, NodeId, Told};
use hs_outbox::{Outbox, Put};
use hs_wire::{Body, Head, Hello, Message, Reported, Standing};
use std::alloc::Global;
use std::marker::Model;
use thiserror::Error;

/// How many messages may wait in an outbox, and how many bytes each may have.
#[derive(Clone, Copy, Debug, PartialEq, Eq)]
pub struct Room {
    pub places: u32,
    pub bytes: u32,
}

/// Why a message was not posted.
#[derive(Clone, Copy, Debug, PartialEq, Eq, Error)]
pub enum Unposted {
    /// No place is free.
    #[error("no place is free")]
    Full,
    /// It takes more bytes than a place has.
    #[error("the message is too long")]
    TooLong,
    /// It has no spelling.
    #[error("the message has no spelling")]
    NoSpelling,
    /// The numbers of this epoch have ended.
    #[error("numbers ended")]
    Ended,
}

/// What a node says in one epoch. Pages that it reports have an outbox of their own, so that words have a place where pages wait for
/// long, and the other way round.
#[derive(Drop)]
pub struct Mail {
    node: NodeId,
    epoch: u64,
    /// The number of the next message.
    fresh: u64,
    pages: Outbox,
    words: Outbox,
}

impl Model for Mail {
    ghost use Rattle.hs_mail.specs.Letters.{Letters};
    ghost use Rattle.hs_mail.specs.MailLayout.{letters_in, IsMail};

    ghost Value = { Letters };

    ghost view = { letters_in };

    ghost invariant = { IsMail };
}

/// Puts a message into an outbox that had none of its number or a greater one.
fn put_in(outbox: &mut Outbox, message: &Message<'_>) -> Result<(), Unposted>
    requires { outbox.old.fresh ≤ message.now.head.number }
    ensures { PutBy outbox.old (plain message.now) result outbox.new }
{
    match outbox.put(message) {
        Put::Done => Ok(()),
        Put::Full => Err(Unposted::Full),
        Put::TooLong => Err(Unposted::TooLong),
        Put::NoSpelling => Err(Unposted::NoSpelling),
        Put::Stale => unreachable!(),
    }
}

impl Mail {
    /// A mail of a node in an epoch, of which nothing was said. Takes all memory that it will need.
    pub fn make(
        alloc: Global,
        node: NodeId,
        epoch: u64,
        pages: Room,
        words: Room,
    ) -> Result<Mail, Memory>
        ensures made { IfOk result (λ mail. mail ≡ no_letters node epoch pages words) }
        ensures some { OnErr result ((0 < pages.places) ⊎ (0 < words.places)) }
    {
        Ok(Mail {
            node,
            epoch,
            fresh: 0,
            pages: Outbox::make(alloc, pages.places, pages.bytes)?,
            words: Outbox::make(alloc, words.places, words.bytes)?,
        })
    }

    /// The head of the next message.
    fn head(&self) -> Head
        ensures { result ≡ record { epoch = self.now.epoch; number = self.now.fresh; node = self.now.node } }
    {
        Head {
            epoch: self.epoch,
            number: self.fresh,
            node: self.node,
        }
    }

    /// Posts the next message, which is no page.
    fn post_word(&mut self, message: &Message<'_>) -> Result<u64, Unposted>
        requires next { plain message.now ≡ message_of self.old (said_of message.now.body) }
        requires kind { is_page (said_of message.now.body) ≡ false }
        ensures { Posts self.old (said_of message.now.body) result self.new }
    {
        let number = self.fresh;
        if number == u64::MAX {
            return Err(Unposted::Ended);
        }
        put_in(&mut self.words, message)?;
        self.fresh = number + 1;
        Ok(number)
    }

    /// Posts the next message, which is a page.
    fn post_page(&mut self, message: &Message<'_>) -> Result<u64, Unposted>
        requires next { plain message.now ≡ message_of self.old (said_of message.now.body) }
        requires kind { is_page (said_of message.now.body) ≡ true }
        ensures { Posts self.old (said_of message.now.body) result self.new }
    {
        let number = self.fresh;
        if number == u64::MAX {
            return Err(Unposted::Ended);
        }
        put_in(&mut self.pages, message)?;
        self.fresh = number + 1;
        Ok(number)
    }

    /// Says who the node is. The answer is the number of the message.
    pub fn hello(&mut self, hello: &Hello<'_>) -> Result<u64, Unposted>
        ensures { Posts self.old (SaysHello (plain_hello hello.now)) result self.new }
    {
        let head = self.head();
        let body = Body::Hello(*hello);
        self.post_word(&Message { head, body })
    }

    /// Says what the agent told.
    pub fn told(&mut self, told: Told) -> Result<u64, Unposted>
        ensures { Posts self.old (SaysTold told) result self.new }
    {
        let head = self.head();
        let body = Body::Told(told);
        self.post_word(&Message { head, body })
    }

    /// Says how the node stands to a trace.
    pub fn standing(&mut self, standing: Standing) -> Result<u64, Unposted>
        ensures { Posts self.old (SaysStanding standing) result self.new }
    {
        let head = self.head();
        let body = Body::Standing(standing);
        self.post_word(&Message { head, body })
    }

    /// Reports a page.
    pub fn page(&mut self, reported: &Reported<'_>) -> Result<u64, Unposted>
        ensures { Posts self.old (SaysReported (plain_reported reported.now)) result self.new }
    {
        let head = self.head();
        let body = Body::Reported(*reported);
        self.post_page(&Message { head, body })
    }

    /// The message with the least number of those that are not handed out, with its number, if there is one.
    pub fn next(&self) -> Option<(u64, &[u8])>
        ensures { first_offered self.now ≡ option_map (λ found. pending_at found.0 found.1.now) result }
    {
        earlier(self.pages.next(), self.words.next())
    }

    /// Whether `next` answers the message of this number.
    fn offers(&self, number: u64) -> bool
        ensures { result ≡ has_number (first_offered self.now) number }
    {
        match self.next() {
            Some((first, _)) => first == number,
            None => false,
        }
    }

    /// Notes that the message that `next` answers is handed out. Any other number changes nothing.
    pub fn sent(&mut self, number: u64) -> bool
        ensures sent { result ≡ has_number (first_offered self.old) number }
        ensures after { self.new ≡ after self.old (HandsOut number) }
        ensures same { OnFalse result (self.new ≡ self.old) }
    {
        if !self.offers(number) {
            return false;
        }
        self.pages.sent(number);
        self.words.sent(number);
        true
    }

    /// Lets the message of this number go. A number of which no message waits changes nothing.
    pub fn acknowledged(&mut self, number: u64) -> bool
        ensures waited { result ≡ (waits self.old.pages number || waits self.old.words number) }
        ensures after { self.new ≡ after self.old (Acknowledges number) }
        ensures same { OnFalse result (self.new ≡ self.old) }
    {
        let page = self.pages.acknowledged(number);
        let word = self.words.acknowledged(number);
        page || word
    }

    /// Begins anew with the messages that are not acknowledged, as after a lost connection: `next` answers each of them once
    /// more, the oldest first.
    pub fn again(&mut self)
        ensures { self.new ≡ after self.old OffersAgain }
    {
        self.pages.again();
        self.words.again();
    }

    /// The least number of a message that waits, if one does.
    pub fn oldest(&self) -> Option<u64>
        ensures { result ≡ oldest_in self.now }
    {
        least(self.pages.oldest(), self.words.oldest())
    }

    /// How many pages may be posted before one is acknowledged.
    pub fn free_pages(&self) -> u32
        ensures { result + length self.now.pages.pending ≡ self.now.pages.places }
    {
        self.pages.free()
    }

    /// How many words may be posted before one is acknowledged.
    pub fn free_words(&self) -> u32
        ensures { result + length self.now.words.pending ≡ self.now.words.places }
    {
        self.words.free()
    }
}

/// The one with the lower number of a page and a word, if there are any.
fn earlier<'a>(
    page: Option<(u64, &'a [u8])>,
    word: Option<(u64, &'a [u8])>,
) -> Option<(u64, &'a [u8])>
    ensures { option_map (λ f. pending_at f.0 f.1.now) result ≡ earlier (option_map (λ f. pending_at f.0 f.1.now) page.entry) (option_map (λ f. pending_at f.0 f.1.now) word.entry) }
{
    match (page, word) {
        (Some((first, _)), Some((second, _))) if second < first => word,
        (None, _) => word,
        _ => page,
    }
}

/// The lower of two numbers, if there are any.
fn least(page: Option<u64>, word: Option<u64>) -> Option<u64>
    ensures { result ≡ lower page word }
{
    match (page, word) {
        (Some(first), Some(second)) if second < first => word,
        (None, _) => word,
        _ => page,
    }
}
