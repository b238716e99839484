//! The outbox of a node.

ghost use Rattle.std.specs.Prelude.{◌≡◌, ◌≢◌, ◌+◌, ◌<◌, ◌≤◌, length, vec_capacity, IfOk, OnErr, option_map, slice_get};
ghost use Rattle.std.specs.Bool.{OnFalse};
ghost use Rattle.std.specs.Option.{option_copied};
ghost use Rattle.hs_wire.specs.Messages.{IsMessage, plain};
ghost use Rattle.hs_outbox.specs.Queue.{empty, pending_of, waits, first_offered, oldest_in, has_number, Puts, HandsOut, Acknowledges, OffersAgain, after, Causes};
ghost use Rattle.hs_outbox.specs.Layout.{place_of, waiting_in, AreRising, HaveRoom, answer_for};

use crate::message_slot::MessageSlot;
use hs_base::Memory;
use hs_wire::{Message, WriteFault};
use std::alloc::Global;
use std::marker::Model;

/// What became of a message that was to be put.
#[derive(Clone, Copy, Debug, PartialEq, Eq)]
pub enum Put {
    /// It waits from now on.
    Done,
    /// No place is free.
    Full,
    /// It takes more bytes than a place has.
    TooLong,
    /// It has no spelling.
    NoSpelling,
    /// Its number is not above those of all messages that were put.
    Stale,
}

/// A message that waits.
#[derive(Drop)]
pub struct OutboxEntry {
    number: u64,
    slot: MessageSlot,
}

/// The messages that wait, each until it is acknowledged.
#[derive(Drop)]
pub struct Outbox {
    /// Those that wait, with rising numbers.
    entries: Vec<OutboxEntry>,
    /// The slots in which no message waits.
    free: Vec<MessageSlot>,
    /// The number below which all are handed out.
    handed: u128,
    /// The least number that may still be put.
    fresh: u128,
    /// How many bytes a slot has.
    room: u32,
}

impl Model for Outbox {
    ghost use Rattle.hs_outbox.specs.Queue.{Queue};

    ghost Value = { Queue };

    ghost use Rattle.hs_outbox.specs.Layout.{queue_in, IsOutbox};

    ghost view = { queue_in };

    ghost invariant = { IsOutbox };
}

/// How many messages have numbers below this one.
fn place_of(entries: &[OutboxEntry], number: u128) -> usize
    requires { AreRising (waiting_in entries.now) }
    ensures { result ≡ place_of number (waiting_in entries.now) }
{
    entries.partition_point(|entry| u128::from(entry.number) < number)
}

/// So many empty slots, each with memory for a message of `room` bytes.
fn slots(alloc: Global, places: u32, room: u32) -> Result<Vec<MessageSlot>, Memory>
    ensures len { IfOk result (λ slots. length slots.items ≡ places) }
    ensures room { IfOk result (λ slots. HaveRoom room slots.items) }
    ensures capacity { IfOk result (λ slots. places ≤ vec_capacity slots) }
    ensures some { OnErr result (0 < places) }
{
    let Ok(mut slots) = Vec::with_capacity(alloc, places as usize) else {
        return Err(Memory);
    };
    for _place in 0..places {
        slots.push_reserved(MessageSlot::make(alloc, room)?);
    }
    Ok(slots)
}

impl Outbox {
    /// An empty outbox in which so many messages may wait, each of at most `room` bytes. Takes all memory that it will need.
    pub fn make(alloc: Global, places: u32, room: u32) -> Result<Outbox, Memory>
        ensures made { IfOk result (λ outbox. outbox ≡ empty places room) }
        ensures some { OnErr result (0 < places) }
    {
        let Ok(entries) = Vec::with_capacity(alloc, places as usize) else {
            return Err(Memory);
        };
        let free = slots(alloc, places, room)?;
        Ok(Outbox {
            entries,
            free,
            handed: 0,
            fresh: 0,
            room,
        })
    }

    /// How many messages may be put before one is acknowledged.
    pub fn free(&self) -> u32
        ensures { result + length self.now.pending ≡ self.now.places }
    {
        self.free.len() as u32
    }

    /// Puts a message behind all that wait, if a place is free for it.
    pub fn put(&mut self, message: &Message<'_>) -> Put
        // The message waits from now on, or nothing changed.
        ensures done { result ≡ Put.Done → self.new ≡ after self.old (Puts (pending_of (plain message.now))) }
        ensures same { result ≢ Put.Done → self.new ≡ self.old }

        // Each answer has its cause, and a cause has no other answer.
        ensures cause { Causes self.old (plain message.now) result }
        ensures only { (answer : Put) → Causes self.old (plain message.now) answer → result ≡ answer }

        // What was put is read as this message.
        ensures message { result ≡ Put.Done → IsMessage (plain message.now) }
    {
        if u128::from(message.head.number) < self.fresh {
            return Put::Stale;
        }
        let Some(mut spare) = self.free.pop() else {
            return Put::Full;
        };
        match spare.write(message) {
            Ok(()) => {
                let number = message.head.number;
                self.entries.push_reserved(OutboxEntry {
                    number,
                    slot: spare,
                });
                self.fresh = u128::from(number) + 1;
                Put::Done
            }
            Err(fault) => {
                self.free.push_reserved(spare);
                answer_for(fault)
            }
        }
    }

    /// The least number of a message that waits, if one does.
    pub fn oldest(&self) -> Option<u64>
        ensures { result ≡ oldest_in self.now }
    {
        match self.entries.first() {
            Some(entry) => Some(entry.number),
            None => None,
        }
    }

    /// The first message that is not handed out, with its number, if there is one.
    pub fn next(&self) -> Option<(u64, &[u8])>
        ensures { first_offered self.now ≡ option_map (λ found. record { number = found.0; bytes = found.1.now }) result }
    {
        let place = place_of(&self.entries, self.handed);
        let Some(entry) = entry_at(&self.entries, place) else {
            return None;
        };
        Some((entry.number, entry.slot.bytes()))
    }

    /// Whether `next` answers the message of this number.
    fn offers(&self, number: u64) -> bool
        ensures { result ≡ has_number (first_offered self.now) number }
    {
        let place = place_of(&self.entries, self.handed);
        has_at(&self.entries, place, number)
    }

    /// Notes that the message that `next` answers is handed out. Any other number changes nothing.
    pub fn sent(&mut self, number: u64) -> bool
        ensures sent { result ≡ has_number (first_offered self.old) number }
        ensures after { self.new ≡ after self.old (HandsOut number) }
        ensures same { OnFalse result (self.new ≡ self.old) }
    {
        if !self.offers(number) {
            return false;
        }
        self.handed = u128::from(number) + 1;
        true
    }

    /// Lets the message of this number go. A number of which no message waits changes nothing.
    pub fn acknowledged(&mut self, number: u64) -> bool
        ensures waited { result ≡ waits self.old number }
        ensures after { self.new ≡ after self.old (Acknowledges number) }
        ensures same { OnFalse result (self.new ≡ self.old) }
    {
        let place = place_of(&self.entries, u128::from(number));
        if !has_at(&self.entries, place, number) {
            return false;
        }
        let OutboxEntry { slot, .. } = self.entries.remove(place);
        self.free.push_reserved(slot);
        true
    }

    /// Begins anew with the messages that are not acknowledged, as after a lost connection: `next` answers each of them once
    /// more, the oldest first.
    pub fn again(&mut self)
        ensures { self.new ≡ after self.old OffersAgain }
    {
        self.handed = 0;
    }
}

/// The entry at a place, if there is one.
fn entry_at(entries: &[OutboxEntry], place: usize) -> Option<&OutboxEntry>
    ensures { option_copied result ≡ slice_get entries.now place }
{
    entries.get(place)
}

/// Whether the entry at this place has this number.
fn has_at(entries: &[OutboxEntry], place: usize, number: u64) -> bool
    ensures { result ≡ has_number (slice_get (waiting_in entries.now) place) number }
{
    match entry_at(entries, place) {
        Some(entry) => entry.number == number,
        None => false,
    }
}

/// What is answered where a message was not written.
fn answer_for(fault: WriteFault) -> Put
    ensures { result ≡ answer_for fault }
{
    match fault {
        WriteFault::NoSpelling => Put::NoSpelling,
        WriteFault::Short(_) => Put::TooLong,
    }
}
