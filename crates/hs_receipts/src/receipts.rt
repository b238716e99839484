//! All messages that are kept.

ghost use Rattle.std.specs.Prelude.{◌≡◌, ◌+◌, ◌-◌, ◌≤◌, ◌++◌, ◌||◌, not, nat_le, is_none, length, filter, find, drop, slice_get, vec_len, vec_capacity, IfOk, option_copied};
ghost use Rattle.std.specs.VecDeque.{deque_len, deque_capacity};
ghost use Rattle.std.specs.List.{list_any};
ghost use Rattle.hs_receipts.specs.Receipts.{PlainReceipts, no_receipts, is_message, is_for, is_out, waits_for, is_noted, is_known, messages_for, since_of, answer_to_wait, after_wait, answer_to_join, after_join, after_offer, waits_elsewhere, after_saved, counts_of, kept};

use crate::answers::{MessageId, ReceiptCounts, ReceiptOutcome, Waiting};
use hs_base::{Memory, TraceId};
use std::alloc::Global;
use std::collections::VecDeque;
use std::marker::Model;

/// The messages that wait for traces, the one that came first in front; those that the trace that is out was served by; and those
/// that may be acknowledged. At most so many are kept, in memory that is taken at first.
#[derive(Drop)]
pub struct Receipts {
    most: u32,
    waiting: Vec<Waiting>,
    out: Option<TraceId>,
    served: Vec<MessageId>,
    done: VecDeque<MessageId>,
}

impl Model for Receipts {
    ghost use Rattle.hs_receipts.specs.Receipts.{PlainReceipts};
    ghost use Rattle.hs_receipts.specs.ReceiptsLayout.{receipts_in, IsKept};

    ghost Value = { PlainReceipts };

    ghost view = { receipts_in };

    ghost invariant = { IsKept };
}

impl Receipts {
    /// No messages, of at most so many. All memory is taken here.
    pub fn make(alloc: Global, most: u32) -> Result<Receipts, Memory>
        ensures { IfOk result (λ receipts. receipts ≡ no_receipts most) }
    {
        Ok(Receipts {
            most,
            waiting: Vec::with_capacity(alloc, most as usize)?,
            out: None,
            served: Vec::with_capacity(alloc, most as usize)?,
            done: VecDeque::with_capacity(alloc, most as usize)?,
        })
    }

    /// Whether as many messages are kept as may be.
    fn is_full(&self) -> bool
        ensures { result ≡ nat_le self.now.most (kept self.now) }
    {
        self.waiting.len() + self.served.len() + self.done.len() >= self.most as usize
    }

    /// How many more messages may be kept.
    pub fn room(&self) -> usize
        ensures { result ≡ self.now.most - kept self.now }
    {
        self.most as usize - (self.waiting.len() + self.served.len() + self.done.len())
    }

    /// Whether a message waits for this trace, which is not out.
    pub fn has_waiting(&self, trace: TraceId) -> bool
        ensures { result ≡ list_any (is_for trace) self.now.waiting }
    {
        waits_at_all(&self.waiting, trace)
    }

    /// Has a message wait until a trace is saved that is not out yet.
    pub fn wait(&mut self, trace: TraceId, message: MessageId, since: u64) -> ReceiptOutcome
        ensures answer { result ≡ answer_to_wait self.old }
        ensures after { self.new ≡ after_wait self.old (record { trace = trace; message = message; since = since }) }
    {
        if self.is_full() {
            return ReceiptOutcome::Full;
        }
        self.waiting.push_reserved(Waiting {
            trace,
            message,
            since,
        });
        ReceiptOutcome::Noted
    }

    /// Has a message wait until the trace that is out is saved.
    pub fn join(&mut self, message: MessageId) -> ReceiptOutcome
        ensures answer { result ≡ answer_to_join self.old }
        ensures after { self.new ≡ after_join self.old message }
    {
        if self.out.is_none() {
            return ReceiptOutcome::NothingOut;
        }
        if self.is_full() {
            return ReceiptOutcome::Full;
        }
        self.served.push_reserved(message);
        ReceiptOutcome::Noted
    }

    /// Whether a message waits for this trace, be it out or not.
    pub fn is_noted(&self, trace: TraceId, message: MessageId) -> bool
        ensures { result ≡ is_noted self.now trace message }
    {
        waits_for(&self.waiting, trace, message)
            || self.is_out(trace) && has_message(&self.served, message)
    }

    /// Whether a message waits for any trace, be it out or not.
    pub fn is_known(&self, message: MessageId) -> bool
        ensures { result ≡ is_known self.now message }
    {
        waits_elsewhere(&self.waiting, message) || has_message(&self.served, message)
    }

    /// Whether a trace is the one that is out.
    fn is_out(&self, trace: TraceId) -> bool
        ensures { result ≡ is_out self.now trace }
    {
        match self.out {
            Some(out) => trace == out,
            None => false,
        }
    }

    /// The message that waits longest, of those whose trace is not out.
    pub fn longest(&self) -> Option<Waiting>
        ensures { result ≡ slice_get self.now.waiting 0 }
    {
        self.waiting.first().copied()
    }

    /// The pass in which the first message came of those that wait for this trace, which is not out.
    pub fn since(&self, trace: TraceId) -> Option<u64>
        ensures { result ≡ since_of self.now trace }
    {
        match first_for(&self.waiting, trace) {
            Some(waits) => Some(waits.since),
            None => None,
        }
    }

    /// The trace that is out.
    pub fn out(&self) -> Option<TraceId>
        ensures { result ≡ self.now.out }
    {
        self.out
    }

    /// Notes that a trace is out, and answers whether that may be: no other is. All that wait for it are those that it was served by.
    pub fn offer(&mut self, trace: TraceId) -> bool
        ensures answer { result ≡ is_none self.old.out }
        ensures after { self.new ≡ after_offer self.old trace }
    {
        if self.out.is_some() {
            return false;
        }
        self.out = Some(trace);
        move_messages(&mut self.served, &self.waiting, trace);
        forget(&mut self.waiting, trace);
        true
    }

    /// Notes that the trace that is out was saved, and answers which that is. The messages that it was served by may be acknowledged,
    /// but for those that wait for another trace, or for what came of this one since.
    pub fn saved(&mut self) -> Option<TraceId>
        ensures answer { result ≡ self.old.out }
        ensures after { self.new ≡ after_saved self.old }
    {
        free_messages(&mut self.done, &self.served, &self.waiting);
        self.served.truncate(0);
        self.out.take()
    }

    /// A message that may be acknowledged. Each is named once.
    pub fn next_acknowledged(&mut self) -> Option<MessageId>
        ensures next { result ≡ slice_get self.old.done 0 }
        ensures after { self.new ≡ record self.old { done = drop 1 self.old.done } }
    {
        self.done.pop_front()
    }

    /// How many messages are kept.
    pub fn counts(&self) -> ReceiptCounts
        ensures counts { result ≡ counts_of self.now }
        ensures within { kept self.now ≤ self.now.most }
    {
        ReceiptCounts {
            waiting: self.waiting.len(),
            served: self.served.len(),
            done: self.done.len(),
        }
    }
}

/// Adds the messages that wait for a trace.
fn move_messages(served: &mut Vec<MessageId>, waiting: &[Waiting], trace: TraceId)
    requires { vec_len served.old + length waiting.now ≤ vec_capacity served.old }
    ensures items { served.new.items ≡ served.old.items ++ messages_for trace waiting.now }
    ensures capacity { vec_capacity served.new ≡ vec_capacity served.old }
{
    for waits in waiting.iter() {
        if trace == waits.trace {
            served.push_reserved(waits.message);
        }
    }
}

/// Whether this message waits for a trace.
fn waits_for(waiting: &[Waiting], trace: TraceId, message: MessageId) -> bool
    ensures { result ≡ list_any (waits_for trace message) waiting.now }
{
    waiting
        .iter()
        .any(|waits| trace == waits.trace && message == waits.message)
}

/// Whether a message waits for a trace.
fn waits_at_all(waiting: &[Waiting], trace: TraceId) -> bool
    ensures { result ≡ list_any (is_for trace) waiting.now }
{
    waiting.iter().any(|waits| trace == waits.trace)
}

/// The first message that waits for a trace.
fn first_for(waiting: &[Waiting], trace: TraceId) -> Option<&Waiting>
    ensures { option_copied result ≡ find (is_for trace) waiting.now }
{
    waiting.iter().find(|waits| trace == waits.trace)
}

/// Whether a message is among these.
fn has_message(served: &[MessageId], message: MessageId) -> bool
    ensures { result ≡ list_any (is_message message) served.now }
{
    served.iter().any(|other| message == *other)
}

/// Takes out what waits for a trace.
fn forget(waiting: &mut Vec<Waiting>, trace: TraceId)
    ensures items { waiting.new.items ≡ filter (λ waits. not (is_for trace waits)) waiting.old.items }
    ensures len { length waiting.new.items + length (messages_for trace waiting.old.items) ≡ length waiting.old.items }
    ensures capacity { vec_capacity waiting.new ≡ vec_capacity waiting.old }
{
    waiting.retain(|waits| trace != waits.trace);
}

/// Adds the messages that wait for nothing else.
fn free_messages(done: &mut VecDeque<MessageId>, served: &[MessageId], waiting: &[Waiting])
    requires { deque_len done.old + length served.now ≤ deque_capacity done.old }
    ensures items { done.new.items ≡ done.old.items ++ filter (λ message. not (waits_elsewhere waiting.now message)) served.now }
    ensures len { length done.new.items ≤ length done.old.items + length served.now }
    ensures capacity { deque_capacity done.new ≡ deque_capacity done.old }
{
    for message in served.iter() {
        if !waits_elsewhere(waiting, *message) {
            done.push_back_reserved(*message);
        }
    }
}

/// Whether a message waits for a trace that is not out.
fn waits_elsewhere(waiting: &[Waiting], message: MessageId) -> bool
    ensures { result ≡ waits_elsewhere waiting.now message }
{
    waiting.iter().any(|waits| message == waits.message)
}
