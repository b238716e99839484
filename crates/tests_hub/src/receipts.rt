//! Messages that wait for one trace or for two, as many as may be kept, and over many traces.

use crate::rows::row;
use hs_base::{Memory, TraceId};
use hs_receipts::{MessageId, ReceiptOutcome, Receipts};
use std::alloc::Global;

/// A message of life 5 of node 3.
fn message(number: u64) -> MessageId {
    MessageId {
        node: 3,
        epoch: 5,
        number,
    }
}

fn wait(receipts: &mut Receipts, trace: u128, number: u64) -> ReceiptOutcome {
    receipts.wait(TraceId(trace), message(number), 20)
}

/// The number of a message that may be acknowledged.
fn next(receipts: &mut Receipts) -> Option<u64> {
    match receipts.next_acknowledged() {
        Some(message) => Some(message.number),
        None => None,
    }
}

/// A message is named once, after its trace was saved.
fn a_message_waits(alloc: Global) -> Result<bool, Memory> {
    let mut receipts = Receipts::make(alloc, 4)?;
    wait(&mut receipts, 9, 1);
    let before = next(&mut receipts);
    let offered = receipts.offer(TraceId(9));
    let out = next(&mut receipts);
    let saved = receipts.saved() == Some(TraceId(9));
    Ok(
        (before, offered, out, saved) == (None, true, None, true)
            && (next(&mut receipts), next(&mut receipts)) == (Some(1), None),
    )
}

/// Message 1 serves traces 8 and 9, and is named with the second of them.
fn both_traces_are_saved(alloc: Global) -> Result<bool, Memory> {
    let mut receipts = Receipts::make(alloc, 4)?;
    wait(&mut receipts, 8, 1);
    wait(&mut receipts, 9, 1);
    receipts.offer(TraceId(9));
    receipts.saved();
    let first = next(&mut receipts);
    receipts.offer(TraceId(8));
    receipts.saved();
    Ok((first, next(&mut receipts)) == (None, Some(1)))
}

/// What comes for a trace that is out waits for a later part, unless it joins.
fn a_later_part(alloc: Global) -> Result<bool, Memory> {
    let mut receipts = Receipts::make(alloc, 4)?;
    let early = receipts.join(message(1));
    receipts.offer(TraceId(9));
    wait(&mut receipts, 9, 2);
    receipts.join(message(3));
    let other = receipts.offer(TraceId(8));
    receipts.saved();
    let named = (next(&mut receipts), next(&mut receipts));
    Ok(
        (early, other, named) == (ReceiptOutcome::NothingOut, false, (Some(3), None))
            && receipts.is_noted(TraceId(9), message(2)),
    )
}

/// Two are kept, and a third waits until one was named.
fn receipts_are_bounded(alloc: Global) -> Result<bool, Memory> {
    let mut receipts = Receipts::make(alloc, 2)?;
    let two = (wait(&mut receipts, 9, 1), wait(&mut receipts, 8, 2));
    let full = wait(&mut receipts, 8, 3);
    receipts.offer(TraceId(9));
    receipts.saved();
    let still = wait(&mut receipts, 8, 3);
    let named = next(&mut receipts);
    Ok(
        (two, full, still)
            == (
                (ReceiptOutcome::Noted, ReceiptOutcome::Noted),
                ReceiptOutcome::Full,
                ReceiptOutcome::Full,
            )
            && (named, wait(&mut receipts, 8, 3)) == (Some(1), ReceiptOutcome::Noted),
    )
}

/// A message comes for a trace, which is given out and saved.
fn pass(receipts: &mut Receipts, number: u32) -> bool {
    let noted = wait(receipts, u128::from(number), u64::from(number));
    receipts.offer(TraceId(u128::from(number)));
    receipts.saved();
    noted == ReceiptOutcome::Noted && next(receipts) == Some(u64::from(number))
}

/// 50,000 traces, one after another, where two messages are kept.
fn many_messages_pass(alloc: Global) -> Result<bool, Memory> {
    let mut receipts = Receipts::make(alloc, 2)?;
    let mut right = true;
    for number in 0..50_000u32 {
        right &= pass(&mut receipts, number);
    }
    Ok(right && receipts.counts().waiting == 0)
}

#[test]
fn kept_messages(rt: HostRuntime) {
    let alloc = rt.alloc();
    row(&rt, "waits", a_message_waits(alloc));
    row(&rt, "both", both_traces_are_saved(alloc));
    row(&rt, "later", a_later_part(alloc));
    row(&rt, "bounds", receipts_are_bounded(alloc));
    row(&rt, "many", many_messages_pass(alloc));
}
