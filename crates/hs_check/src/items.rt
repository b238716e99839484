//! Of the eleventh clause: agents take items at the pace at which clients send them.

ghost use Rattle.std.specs.Prelude.{◌≡◌, ℕ, ◌<◌, ◌≤◌, ◌^◌, List, length, zip, sum, take, set, slice_index, IfOk, nat_le, min, ◌+◌, ◌&&◌};
ghost use Rattle.std.specs.List.{range_with_len, list_all};
ghost use Rattle.hs_base.specs.declared.limits.TheConstants.{MAX_CLIENTS, MAX_TAKEN};
ghost use Rattle.hs_law_journal.specs.Pace.{client_in_pace};
ghost use Rattle.hs_law_journal.specs.Passes.{passes_of};
ghost use Rattle.hs_records.specs.Plain.{PlainSettings};
ghost use Rattle.hs_client.specs.Sending.{ClientSends};
ghost use Rattle.hs_check_follow.specs.Finding.{AreFound, IsFoundClient};
ghost use Rattle.hs_check.specs.Counting.{is_of};
ghost use Rattle.hs_check.specs.Pacing.{sent_in, all_enough, numbers_in_pace};

use crate::kinds::Kind;
use hs_base::Memory;
use hs_base::limits::MAX_TAKEN;
use hs_check_follow::FoundClient;
use hs_records::Step;
use std::alloc::Global;

/// Whether these steps take enough of all items of all clients.
pub(crate) fn items_in_pace(
    alloc: Global,
    stride: usize,
    log: &[Step],
    clients: &[FoundClient],
) -> Result<bool, Memory>
    requires some { 0 < stride }
    requires few { length clients.now ≤ MAX_CLIENTS }
    ensures { IfOk result (λ yes. (settings : PlainSettings) (sends : List ClientSends) → settings.stride ≡ stride → AreFound IsFoundClient sends clients.now
        → yes ≡ list_all (λ (c : ℕ × ClientSends). client_in_pace settings (passes_of log.now) c.0 c.1) (zip (range_with_len 0 (length sends)) sends)) }
{
    for number in 0..clients.len() {
        if !client_in_pace(alloc, stride, log, number as u16, &clients[number])? {
            return Ok(false);
        }
    }
    Ok(true)
}

/// Whether these steps take enough of all items of a client.
fn client_in_pace(
    alloc: Global,
    stride: usize,
    log: &[Step],
    client: u16,
    found: &FoundClient,
) -> Result<bool, Memory>
    requires { 0 < stride }
    ensures { IfOk result (λ yes. (settings : PlainSettings) (sends : ClientSends) → settings.stride ≡ stride → IsFoundClient sends found.now
        → yes ≡ client_in_pace settings (passes_of log.now) client sends) }
{
    let chunks = queue_in_pace(
        alloc,
        stride,
        log,
        Kind::Chunks { client },
        found.chunks.as_slice(),
    )?;
    let crumbs = queue_in_pace(
        alloc,
        stride,
        log,
        Kind::Crumbs { client },
        found.crumbs.as_slice(),
    )?;
    let triggers = queue_in_pace(
        alloc,
        stride,
        log,
        Kind::Triggers { client },
        found.triggers.as_slice(),
    )?;
    Ok(all_three(chunks, crumbs, triggers))
}

/// Whether the chunks, the crumbs and the triggers of a client are all taken in pace.
fn all_three(first: bool, second: bool, third: bool) -> bool
    ensures { result ≡ (first && second && third) }
{
    first && second && third
}

/// Whether these steps take enough of a kind of items, which these operations send.
fn queue_in_pace(
    alloc: Global,
    stride: usize,
    log: &[Step],
    kind: Kind,
    numbers: &[usize],
) -> Result<bool, Memory>
    requires { 0 < stride }
    ensures { IfOk result (λ yes. yes ≡ numbers_in_pace (is_of kind) stride (passes_of log.now) numbers.now) }
{
    let taken = kind.count_passes(alloc, log)?;
    let sent = tally(alloc, numbers, stride, taken.len())?;
    let yes = take_enough(taken.as_slice(), sent.as_slice());
    Ok(yes)
}

/// How many of these operations are of each of the first rounds, where a round has so many.
fn tally(
    alloc: Global,
    numbers: &[usize],
    stride: usize,
    rounds: usize,
) -> Result<Vec<usize>, Memory>
    requires { 0 < stride }
    ensures count { IfOk result (λ tally. length tally.items ≡ rounds) }
    ensures each { IfOk result (λ tally. (round : ℕ) → round < rounds → slice_index tally.items round ≡ sent_in stride numbers.now round) }
{
    let mut tally = vec![in alloc; 0; rounds]?;
    for number in numbers {
        count_at(&mut tally, *number / stride);
    }
    Ok(tally)
}

/// Counts one more at a place, if there is that place.
fn count_at(tally: &mut Vec<usize>, place: usize)
    requires { slice_index tally.old.items place + 1 < 2 ^ 64 }
    ensures { tally.new.items ≡ set tally.old.items place (slice_index tally.old.items place + 1) }
{
    if place < tally.len() {
        tally[place] += 1;
    }
}

/// Whether passes take enough of a queue of which so many items were taken before the first pass and behind each, and so many are
/// sent in each round.
fn take_enough(taken: &[usize], sent: &[usize]) -> bool
    requires many { length sent.now ≡ length taken.now }
    requires few { sum sent.now < 2 ^ 64 }
    ensures { result ≡ all_enough taken.now sent.now }
{
    let mut all = 0;
    for pass in 1..taken.len().saturating_sub(1) {
        all += sent[pass - 1];
        if !is_enough(all, taken[pass - 1], taken[pass + 1]) {
            return false;
        }
    }
    true
}

/// Whether of so many items enough were taken by a pass, where so many had been taken two passes before.
fn is_enough(sent: usize, before: usize, behind: usize) -> bool
    ensures { result ≡ nat_le (min sent (before + MAX_TAKEN)) behind }
{
    sent.min(before.saturating_add(MAX_TAKEN as usize)) <= behind
}
